ghost use Rattle.std.specs.Prelude.{◌≡◌};

use crate::answer::Hex;
use refusals::refusal::Refusal;
use std::alloc::AllocError;
use std::fmt;

// A refusal's number and place.
#[derive(Clone, Copy)]
pub(crate) struct Refused {
    number: u8,
    place: usize,
}

impl<R: Refusal> From<R> for Refused {
    ghost from_gives = { λ a r. (r.number, r.place) ≡ R.Refusal.meaning a };

    fn from(refusal: R) -> Refused {
        Refused {
            number: refusal.number(),
            place: refusal.place(),
        }
    }
}

impl fmt::Display for Refused {
    fn fmt<W: fmt::Write>(&self, f: &mut fmt::Formatter<W>) -> fmt::Result {
        write!(f, "refused {} place {}", self.number, self.place)
    }
}

// Why a line has no answer of its own, as it is printed.
#[derive(Drop)]
pub(crate) enum LineError {
    // A line that is no call.
    Unknown,
    // There is no law.
    Unsealed,
    Refused(Refused),
    // A record that is not written, and the whole buffer.
    NotWritten(Refused, Vec<u8>),
}

impl fmt::Display for LineError {
    fn fmt<W: fmt::Write>(&self, f: &mut fmt::Formatter<W>) -> fmt::Result {
        match self {
            LineError::Unknown => write!(f, "unknown"),
            LineError::Unsealed => write!(f, "unsealed"),
            LineError::Refused(refused) => write!(f, "{refused}"),
            LineError::NotWritten(refused, buffer) => write!(f, "{refused} buffer {}", Hex(buffer)),
        }
    }
}

// Why a call fails: for what its line says, or for want of memory, which ends the whole text.
#[derive(Drop)]
pub(crate) enum CallError {
    Line(LineError),
    OutOfMemory(AllocError),
}

impl From<LineError> for CallError {
    fn from(error: LineError) -> CallError {
        CallError::Line(error)
    }
}

impl From<Refused> for CallError {
    fn from(refused: Refused) -> CallError {
        CallError::Line(LineError::Refused(refused))
    }
}

impl From<AllocError> for CallError {
    fn from(error: AllocError) -> CallError {
        CallError::OutOfMemory(error)
    }
}
