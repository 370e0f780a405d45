ghost use Rattle.std.specs.Prelude.{◌≡◌, cond, length, replicate};
ghost use Rattle.refusals.specs.Numbers.{firmware_refusal, refused_by};
ghost use Rattle.operators.specs.Bands.{most_operators};
ghost use Rattle.measures.specs.Measures.{most_channels};
ghost use Rattle.measures.specs.Charge.{charge_at, charged, chargeable, charge_refusal, recharged, Charges};
ghost use Rattle.measures.specs.Weights.{charged_laws};

use crate::measure::Measure;
use crate::weight::Weight;
use refusals::firmware::FirmwareRefusal;

// A charge of 1 to 1,000 for each operator number and each channel. A formula weighs its own charge and what its arguments weigh.
#[derive(Clone, Copy)]
pub struct Charge {
    operators: [u16; 64],
    channels: [u16; 8],
    ghost operators_ok: { Charges operators },
    ghost channels_ok: { Charges channels },
    ghost operators_full: { length operators ≡ most_operators },
    ghost channels_full: { length channels ≡ most_channels },
}

// The charge at number `i`, 1 past the end. One chain of the library's methods, as in other layers: the function names what this one
// means.
fn at(charges: &[u16], i: u8) -> u16
    ensures { result ≡ charge_at charges.now i }
{
    charges.get(i as usize).copied().unwrap_or(1)
}

// A table of charges of 1.
fn ones<const N: usize>() -> [u16; N]
    ensures { result ≡ replicate N 1 }
{
    [1; N]
}

// Whether number `i` is one of `count` and the charge is 1 to 1,000.
fn in_range(count: usize, i: u8, charge: u16) -> bool
    ensures { result ≡ chargeable count i charge }
{
    (i as usize) < count && charge >= 1 && charge <= 1_000
}

// Sets the charge at number `i`; nothing changes where one of the two is out of range.
fn set<const N: usize>(charges: &mut [u16; N], i: u8, charge: u16) -> Result<(), FirmwareRefusal>
    ensures refused { refused_by firmware_refusal result ≡ charge_refusal N i charge }
    ensures charges { charges.new ≡ recharged N charges.old i charge }
{
    if !in_range(N, i, charge) {
        return Err(FirmwareRefusal::Charge);
    }
    charges[i as usize] = charge;
    Ok(())
}

impl Charge {
    // Every charge is 1, so a formula weighs its number of nodes.
    pub fn nodes() -> Charge
        ensures operators { result.operators ≡ replicate 64 1 }
        ensures channels { result.channels ≡ replicate 8 1 }
    {
        Charge {
            operators: ones(),
            channels: ones(),
        }
    }

    // What an operator weighs by itself.
    fn own(&self, op: u8) -> Weight
        ensures { result.value ≡ charge_at self.now.operators op }
    {
        Weight::clamped(at(&self.operators, op) as u32)
    }

    // Sets the charge of an operator number; nothing changes where one of the two is out of range.
    pub fn set_operator(&mut self, op: u8, charge: u16) -> Result<(), FirmwareRefusal>
        ensures refused { refused_by firmware_refusal result ≡ charge_refusal most_operators op charge }
        ensures operators { self.new.operators ≡ recharged most_operators self.old.operators op charge }
        ensures channels { self.new.channels ≡ self.old.channels }
    {
        set(&mut self.operators, op, charge)
    }

    // Sets the charge of a channel; nothing changes where one of the two is out of range.
    pub fn set_channel(&mut self, channel: u8, charge: u16) -> Result<(), FirmwareRefusal>
        ensures refused { refused_by firmware_refusal result ≡ charge_refusal most_channels channel charge }
        ensures operators { self.new.operators ≡ self.old.operators }
        ensures channels { self.new.channels ≡ recharged most_channels self.old.channels channel charge }
    {
        set(&mut self.channels, channel, charge)
    }
}

impl Measure for Charge {
    ghost meaning = { λ c. charged c.operators c.channels };

    ghost lawful = { λ m. charged_laws m.operators m.channels m.operators_ok m.channels_ok };

    fn channel(&self, channel: u8) -> Weight {
        Weight::clamped(at(&self.channels, channel) as u32)
    }

    fn operator(&self, op: u8, args: &[Weight]) -> Weight {
        args.iter().fold(self.own(op), |total, w| total.plus(*w))
    }
}
