ghost use Rattle.std.specs.Prelude.{◌≡◌};
ghost use Rattle.measures.specs.declared.weight.Weight.{Weight as StoredWeight};
ghost use Rattle.formulas.specs.Formula.{Formula, weighed};
ghost use Rattle.formulas.specs.Says.{StepsSay};
ghost use Rattle.formulas.specs.Steps.{listed};
ghost use Rattle.evaluation.specs.Values.{weight_rule};

use crate::worth::{Worth, worth_of};
use formulas::steps::Steps;
use measures::measure::Measure;
use measures::weight::Weight;
use operators::set::OperatorSet;

// Weights under a measure; the set gives the operators' arities.
#[derive(Drop)]
struct Weights<'a, S, M> {
    set: &'a S,
    measure: &'a M,
}

impl<'a, S: OperatorSet, M: Measure> Worth for Weights<'a, S, M> {
    type Value = Weight;

    ghost number = { λ (w : StoredWeight). w.value };

    ghost meaning = { λ w. S.OperatorSet.meaning w.set.now };

    ghost lawful = { λ w. S.OperatorSet.lawful w.set.now };

    ghost rule = { λ w. weight_rule (M.Measure.meaning w.measure.now) };

    ghost absent = { 1 };

    fn absent(&self) -> Weight {
        Weight::one()
    }

    fn channel(&self, channel: u8) -> Weight {
        self.measure.channel(channel)
    }

    fn operator(&self, op: u8, args: &[Weight; 2]) -> Weight {
        let n = self.set.arity(op) as usize;
        self.measure.operator(op, &args[..n])
    }
}

// The weight of the formula that the steps say.
pub fn weight_of<S: OperatorSet, M: Measure>(steps: &Steps, set: &S, measure: &M) -> Weight
    ensures { (f : Formula) → StepsSay (S.OperatorSet.meaning set.now) (listed steps.now) f → result.value ≡ weighed (M.Measure.meaning measure.now) f }
{
    worth_of(steps, &Weights { set, measure })
}
