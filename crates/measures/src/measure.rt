ghost use Rattle.std.specs.Prelude.{◌≡◌};
ghost use Rattle.measures.specs.Measures.{MeasureMeaning, MeasureLaws};
ghost use Rattle.measures.specs.Values.{values};

use crate::weight::Weight;

// Weighs formulas. Asking it changes nothing and is refused nothing.
pub trait Measure {
    // The weight of each channel, and of each operator over its arguments' weights.
    ghost meaning: { Self → MeasureMeaning };

    fn channel(&self, channel: u8) -> Weight
        ensures { result.value ≡ (meaning self.now).channel channel };

    fn operator(&self, op: u8, args: &[Weight]) -> Weight
        ensures { result.value ≡ (meaning self.now).operator op (values args.now) };

    ghost lawful: { (m : Self) → MeasureLaws (meaning m) };
}
