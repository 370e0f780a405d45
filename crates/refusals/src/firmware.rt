ghost use Rattle.refusals.specs.Numbers.{firmware_refusal};

use crate::refusal::Refusal;

// What the firmware that calls the library is refused. Each is about a call, so its place is 0.
#[derive(Clone, Copy, PartialEq, Eq, Debug)]
pub enum FirmwareRefusal {
    // An advance on a settled sheet.
    Settled,
    // A formula is asked for, and none was found.
    NotFound,
    // The buffer is too small.
    Room,
    // A charge, an operator number or a channel out of range.
    Charge,
}

impl Refusal for FirmwareRefusal {
    ghost meaning = { firmware_refusal };

    fn number(self) -> u8 {
        match self {
            FirmwareRefusal::Settled => 7,
            FirmwareRefusal::NotFound => 8,
            FirmwareRefusal::Room => 9,
            FirmwareRefusal::Charge => 22,
        }
    }

    fn place(self) -> usize {
        match self {
            FirmwareRefusal::Settled
            | FirmwareRefusal::NotFound
            | FirmwareRefusal::Room
            | FirmwareRefusal::Charge => 0,
        }
    }
}
