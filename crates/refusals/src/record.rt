ghost use Rattle.refusals.specs.Numbers.{record_refusal};

use crate::refusal::Refusal;

// What who hands in a record is refused.
#[derive(Clone, Copy, PartialEq, Eq, Debug)]
pub enum RecordRefusal {
    // Fewer than two bytes, or not as many as its number of steps asks for.
    Length,
    // No steps, or more than 513.
    Count,
    // An operator that is not offered or a channel that is not there, with its step.
    Code(usize),
    // An argument that is no earlier step, or one that is not used and not 0, with its step.
    Argument(usize),
}

impl Refusal for RecordRefusal {
    ghost meaning = { record_refusal };

    fn number(self) -> u8 {
        match self {
            RecordRefusal::Length => 15,
            RecordRefusal::Count => 16,
            RecordRefusal::Code(_) => 17,
            RecordRefusal::Argument(_) => 18,
        }
    }

    fn place(self) -> usize {
        match self {
            RecordRefusal::Length | RecordRefusal::Count => 0,
            RecordRefusal::Code(step) | RecordRefusal::Argument(step) => step,
        }
    }
}
