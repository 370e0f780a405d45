ghost use Rattle.std.specs.Prelude.{◌≡◌};
ghost use Rattle.records.specs.Bytes.{top_of, code_of};

use crate::size::FIRST_CHANNEL;
use formulas::steps::Top;

// The byte of a step's top: an operator's number, or 64 plus a channel's.
#[derive(Clone, Copy)]
pub(crate) struct Code(pub(crate) u8);

impl From<Code> for Top {
    ghost from_gives = { λ code top. top ≡ top_of code.0 };

    fn from(code: Code) -> Top {
        if code.0 < FIRST_CHANNEL {
            Top::Operator(code.0)
        } else {
            Top::Channel(code.0 - FIRST_CHANNEL)
        }
    }
}

impl From<Top> for Code {
    ghost from_gives = { λ top code. code.0 ≡ code_of top };

    fn from(top: Top) -> Code {
        Code(match top {
            Top::Operator(op) => op,
            Top::Channel(channel) => FIRST_CHANNEL.saturating_add(channel),
        })
    }
}
