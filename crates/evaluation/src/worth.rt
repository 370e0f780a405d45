ghost use Rattle.std.specs.Prelude.{◌≡◌, ℕ, ◌*◌, ◌^◌, ◌<◌, List, map, take};
ghost use Rattle.std.specs.Mem.{type_size};
ghost use Rattle.operators.specs.Bands.{SetMeaning, SetLaws};
ghost use Rattle.formulas.specs.Formula.{Formula, Formulas};
ghost use Rattle.formulas.specs.Says.{StepsSay};
ghost use Rattle.formulas.specs.Steps.{listed};
ghost use Rattle.evaluation.specs.Values.{Rule, GoesBy, step_value};

use crate::table::{arguments, at};
use formulas::steps::{MOST_STEPS, Step, Steps, Top};

// What each channel is worth, and each operator over what its arguments are worth, as bands at a reading or weights under a measure.
pub(crate) trait Worth {
    type Value: Copy;

    // The plain number of a value.
    ghost number: { Self.Value → ℕ };

    // What the set of the operators means.
    ghost meaning: { Self → SetMeaning };

    ghost rule: { Self → Rule };

    // What stands where there is no value.
    ghost absent: { ℕ };

    fn absent(&self) -> Self::Value
        ensures { number result ≡ absent };

    fn channel(&self, channel: u8) -> Self::Value
        ensures { number result ≡ (rule self.now).channel channel };

    // Over as many of two arguments as the operator takes. Who works it out asks for the arity only where it has to know it.
    fn operator(&self, op: u8, args: &[Self::Value; 2]) -> Self::Value
        ensures { number result ≡ (rule self.now).operator op (take ((meaning self.now).arity op) (map number args.now)) };

    ghost lawful: { (w : Self) → SetLaws (meaning w) };
}

// What a step is worth, from what the earlier steps are.
fn step_worth<W: Worth>(worth: &W, step: Step, earlier: &[W::Value]) -> W::Value
    requires { 513 * type_size W.Value.row < 2 ^ 63 }
    ensures { W.number result ≡ step_value (W.meaning worth.now) (W.rule worth.now) W.absent (map W.number earlier.now) step }
{
    match step.top {
        Top::Channel(channel) => worth.channel(channel),
        Top::Operator(op) => worth.operator(op, &arguments(earlier, step, worth.absent())),
    }
}

// What the formula that the steps say is worth.
pub(crate) fn worth_of<W: Worth>(steps: &Steps, worth: &W) -> W::Value
    requires { 513 * type_size W.Value.row < 2 ^ 63 }
    ensures { (value : Formula → ℕ) (values : Formulas → List ℕ) → GoesBy (W.rule worth.now) value values → (f : Formula) → StepsSay (W.meaning worth.now) (listed steps.now) f → W.number result ≡ value f }
{
    let mut values = [worth.absent(); MOST_STEPS];
    // by index and not by `push`: that the size of a list of values of any type is bounded was tried, and did not close
    for (i, step) in steps.as_slice().iter().enumerate() {
        values[i] = step_worth(worth, *step, &values);
    }
    at(&values, steps.len().saturating_sub(1), worth.absent())
}
