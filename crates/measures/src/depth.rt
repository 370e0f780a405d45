ghost use Rattle.std.specs.Prelude.{◌≡◌, ◌+◌, min, max};
ghost use Rattle.measures.specs.Depth.{depth};
ghost use Rattle.measures.specs.Weights.{depth_laws};

use crate::measure::Measure;
use crate::weight::Weight;

// A channel or an operator of no arguments weighs 1, any other 1 more than its heaviest argument.
#[derive(Clone, Copy)]
pub struct Depth;

// The depth of an operator that has one argument more.
fn over(total: Weight, arg: Weight) -> Weight
    ensures { result.value ≡ max total.value (min (arg.value + 1) 1000001) }
{
    total.max(arg.plus(Weight::one()))
}

impl Measure for Depth {
    ghost meaning = { λ _. depth };

    ghost lawful = { λ m. depth_laws };

    fn channel(&self, _channel: u8) -> Weight {
        Weight::one()
    }

    fn operator(&self, _op: u8, args: &[Weight]) -> Weight {
        args.iter().fold(Weight::one(), |total, w| over(total, *w))
    }
}
