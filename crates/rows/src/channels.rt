ghost use Rattle.std.specs.Prelude.{◌≡◌, ◌≤◌, IfOk};
ghost use Rattle.refusals.specs.Numbers.{sheet_refusal, refused_by};
ghost use Rattle.rows.specs.Bounds.{channels_refusal};

use refusals::sheet::SheetRefusal;

// How many channels a sheet has, at most eight. A type of its own beside `Limit`: the two differ in range, number type and refusal,
// and one over all three would be longer than both.
#[derive(Clone, Copy)]
pub struct ChannelCount {
    value: u8,
    ghost few: { value ≤ 8 },
}

impl ChannelCount {
    // By `new`, here and at `Limit`, which is a public call; a `TryFrom` beside it would say the same twice.
    pub fn new(n: usize) -> Result<ChannelCount, SheetRefusal>
        ensures refused { refused_by sheet_refusal result ≡ channels_refusal n }
        ensures value { IfOk result (λ c. c.value ≡ n) }
    {
        if n > 8 {
            return Err(SheetRefusal::Channels);
        }
        Ok(ChannelCount { value: n as u8 })
    }

    pub fn get(self) -> u8
        ensures { result ≡ self.value }
    {
        self.value
    }
}
