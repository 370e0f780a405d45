ghost use Rattle.std.specs.Prelude.{◌≡◌, ℕ, List};
ghost use Rattle.outside_set.specs.Gate.{gate_of, gate_set, gate_names};
ghost use Rattle.outside_set.specs.Laws.{gate_laws, gate_spelt};

use operators::named::{NO_NAME, Named};
use operators::set::{MARK, OperatorSet, arg, both};

// A set of one operator, gate: it lets its second argument through where its first is not 0.
#[derive(Clone, Copy)]
pub struct Gate;

// b where a is at least 1, else 0.
fn gate_band(a: u8, b: u8) -> u8
    ensures { result ≡ gate_of a b }
{
    both(a, b, |a, b| if a >= 1 { b } else { 0 })
}

impl OperatorSet for Gate {
    ghost meaning = { λ _. gate_set };

    ghost lawful = { λ s. gate_laws };

    fn count(&self) -> u8 {
        1
    }

    // by number here and below: an enum of one operator would say no more
    fn arity(&self, op: u8) -> u8 {
        match op {
            0 => 2,
            _ => 0,
        }
    }

    fn band(&self, op: u8, args: &[u8]) -> u8 {
        match op {
            0 => gate_band(arg(args, 0), arg(args, 1)),
            _ => MARK,
        }
    }
}

impl Named for Gate {
    ghost names = { λ _. gate_names };

    ghost spelt = { λ s. gate_spelt };

    fn name(&self, op: u8) -> [u8; 4] {
        match op {
            0 => *b"gate",
            _ => NO_NAME,
        }
    }
}
