ghost use Rattle.std.specs.Prelude.{◌≡◌, ◌≤◌, length, map, OnOk};
ghost use Rattle.std.specs.List.{flat_map};
ghost use Rattle.formulas.specs.Steps.{listed, most_steps};
ghost use Rattle.records.specs.Bytes.{two_bytes, step_code, field_of, record_of};
ghost use Rattle.lent.specs.Puts.{Behind};
ghost use Rattle.records.specs.Writing.{Written, ReadsBack};

use crate::code::Code;
use crate::size::record_size;
use formulas::steps::{Step, Steps};
use lent::front::Front;
use refusals::firmware::FirmwareRefusal;

// A number in two bytes, high byte first.
fn two_bytes(number: u16) -> [u8; 2]
    ensures { result ≡ two_bytes number }
{
    number.to_be_bytes()
}

// Writes the codes of the steps.
fn put_codes(front: &mut Front<'_>, steps: &[Step])
    ensures { Behind front.old front.new (map step_code steps.now) }
{
    for step in steps {
        let code = Code::from(step.top);
        front.put(&[code.0]);
    }
}

// Writes the arguments of a step.
fn put_field(front: &mut Front<'_>, step: Step)
    ensures { Behind front.old front.new (field_of step) }
{
    let [first, second] = step.args;
    front.put(&two_bytes(first));
    front.put(&two_bytes(second));
}

// Writes the arguments of the steps.
fn put_fields(front: &mut Front<'_>, steps: &[Step])
    ensures { Behind front.old front.new (flat_map field_of steps.now) }
{
    for step in steps {
        put_field(front, *step);
    }
}

// Writes the record of the steps.
fn put_record(front: &mut Front<'_>, steps: &[Step])
    requires { length steps.now ≤ most_steps }
    ensures { Behind front.old front.new (record_of steps.now) }
{
    front.put(&two_bytes(steps.len() as u16));
    put_codes(front, steps);
    put_fields(front, steps);
}

// Writes the record of the steps into the front of the buffer, and answers its length; the rest of the buffer stays.
// Where there is no room the whole buffer stays. The record of lawful steps is lawful and reads back as these steps.
pub fn write_record(steps: &Steps, buffer: &mut [u8]) -> Result<usize, FirmwareRefusal>
    ensures written { Written (record_of (listed steps.now)) buffer.old buffer.new result }
    ensures back { OnOk result (ReadsBack (listed steps.now)) }
{
    let list = steps.as_slice();
    if buffer.len() < record_size(list.len()) {
        return Err(FirmwareRefusal::Room);
    }
    let mut front = Front { out: buffer, at: 0 };
    put_record(&mut front, list);
    Ok(front.at)
}
