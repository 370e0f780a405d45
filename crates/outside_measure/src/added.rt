ghost use Rattle.std.specs.Prelude.{◌≡◌, replicate};
ghost use Rattle.outside_measure.specs.Added.{added};
ghost use Rattle.outside_measure.specs.Laws.{added_laws};

use measures::charge::Charge;
use measures::depth::Depth;
use measures::measure::Measure;
use measures::weight::Weight;

// Two measures as one: a formula weighs what the one and what the other gives for its arguments' weights, together.
#[derive(Clone, Copy, Drop)]
pub struct Added<A, B> {
    pub first: A,
    pub second: B,
}

impl<A: Measure, B: Measure> Measure for Added<A, B> {
    ghost meaning = { λ p. added (A.Measure.meaning p.first) (B.Measure.meaning p.second) };

    ghost lawful = { λ m. added_laws (A.Measure.meaning m.first) (B.Measure.meaning m.second) (A.Measure.lawful m.first) (B.Measure.lawful m.second) };

    fn channel(&self, channel: u8) -> Weight {
        self.first
            .channel(channel)
            .plus(self.second.channel(channel))
    }

    fn operator(&self, op: u8, args: &[Weight]) -> Weight {
        self.first
            .operator(op, args)
            .plus(self.second.operator(op, args))
    }
}

// Charge and depth together, every charge 1.
pub fn charge_and_depth() -> Added<Charge, Depth>
    ensures operators { result.first.operators ≡ replicate 64 1 }
    ensures channels { result.first.channels ≡ replicate 8 1 }
{
    Added {
        first: Charge::nodes(),
        second: Depth,
    }
}
