ghost use Rattle.std.specs.Prelude.{◌≡◌};
ghost use Rattle.operators.specs.Bands.{mark};
ghost use Rattle.formulas.specs.Formula.{Formula, band};
ghost use Rattle.formulas.specs.Says.{StepsSay};
ghost use Rattle.formulas.specs.Steps.{listed};
ghost use Rattle.evaluation.specs.Values.{band_rule};

use crate::table::at;
use crate::worth::{Worth, worth_of};
use formulas::steps::Steps;
use operators::set::{MARK, OperatorSet};

// Bands at a reading; a channel that was not read counts as the mark.
#[derive(Drop)]
struct Bands<'a, S> {
    set: &'a S,
    reading: &'a [u8],
}

impl<'a, S: OperatorSet> Worth for Bands<'a, S> {
    type Value = u8;

    ghost number = { λ band. band };

    ghost meaning = { λ w. S.OperatorSet.meaning w.set.now };

    ghost lawful = { λ w. S.OperatorSet.lawful w.set.now };

    ghost rule = { λ w. band_rule (S.OperatorSet.meaning w.set.now) w.reading.now };

    ghost absent = { mark };

    fn absent(&self) -> u8 {
        MARK
    }

    fn channel(&self, channel: u8) -> u8 {
        at(self.reading, channel as usize, MARK)
    }

    // the set itself passes over arguments past the arity
    fn operator(&self, op: u8, args: &[u8; 2]) -> u8 {
        self.set.band(op, args)
    }
}

// The band at a reading of the formula that the steps say.
pub fn band_of<S: OperatorSet>(steps: &Steps, set: &S, reading: &[u8]) -> u8
    ensures { (f : Formula) → StepsSay (S.OperatorSet.meaning set.now) (listed steps.now) f → result ≡ band (S.OperatorSet.meaning set.now) reading.now f }
{
    worth_of(steps, &Bands { set, reading })
}
