ghost use Rattle.refusals.specs.Numbers.{sheet_refusal};

use crate::refusal::Refusal;

// What the technician is refused, at the sheet and at a reading.
#[derive(Clone, Copy, PartialEq, Eq, Debug)]
pub enum SheetRefusal {
    // A row or a reading of the wrong length.
    Length,
    // A wanted byte above 14 or a channel byte above 15, with the place of the first one.
    Band(usize),
    // Sixteen rows stand.
    Rows,
    // A limit out of range.
    Limit,
    // More than eight channels.
    Channels,
}

impl Refusal for SheetRefusal {
    ghost meaning = { sheet_refusal };

    fn number(self) -> u8 {
        match self {
            SheetRefusal::Length => 1,
            SheetRefusal::Band(_) => 2,
            SheetRefusal::Rows => 3,
            SheetRefusal::Limit => 5,
            SheetRefusal::Channels => 6,
        }
    }

    fn place(self) -> usize {
        match self {
            SheetRefusal::Band(place) => place,
            SheetRefusal::Length
            | SheetRefusal::Rows
            | SheetRefusal::Limit
            | SheetRefusal::Channels => 0,
        }
    }
}
