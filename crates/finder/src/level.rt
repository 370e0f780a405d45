ghost use Rattle.std.specs.Prelude.{◌≡◌, ℕ, ◌<◌, ◌≤◌};
ghost use Rattle.search.specs.Stored.{lower, level_at, last_weight};
ghost use Rattle.search.specs.Order.{span};
ghost use Rattle.finder.specs.View.{setting_of, rows_of, bank_of, candidate_of};

use crate::bank::{Bank, Candidate};
use crate::problem::Problem;
use formulas::steps::Top;
use measures::measure::Measure;
use measures::weight::Weight;
use operators::set::OperatorSet;

// How many places an argument runs over: all of them, or one where it is past the arity.
pub(crate) fn turns(arity: u8, argument: u8, places: usize) -> usize
    ensures { result ≡ span arity argument places }
{
    if argument < arity { places } else { 1 }
}

impl<S: OperatorSet, M: Measure> Problem<S, M> {
    // The weight of the candidate, if it is lighter than `best`, heavier than the last place and its column is not in the bank;
    // else `best`.
    fn lowered(&self, bank: &Bank, last: u32, best: Weight, candidate: Candidate) -> Weight
        requires { last ≡ last_weight (bank_of S.OperatorSet.meaning self.now bank.now) }
        ensures { result.value ≡ lower (setting_of S.OperatorSet.meaning M.Measure.meaning self.now) (rows_of self.now) (bank_of S.OperatorSet.meaning self.now bank.now) best.value (candidate_of S.OperatorSet.meaning self.now candidate) }
    {
        let own = self.weight_of(bank, candidate);
        if own.value() <= last {
            return best;
        }
        if own < best {
            let column = self.column_of(bank, candidate);
            // a match and no `is_some`: what the look-up promises is of the place that it gives
            match bank.place_of(&column, self.sheet.rows.len()) {
                Some(_) => best,
                None => own,
            }
        } else {
            best
        }
    }

    // The least weight of a candidate whose column is not in the bank, beyond where there is none.
    pub(crate) fn level(&self, bank: &Bank) -> Weight
        ensures { result.value ≡ level_at (setting_of S.OperatorSet.meaning M.Measure.meaning self.now) (rows_of self.now) (bank_of S.OperatorSet.meaning self.now bank.now) }
    {
        let last = bank.last();
        let mut best = Weight::beyond();
        let channels = self.sheet.channels.get();
        for channel in 0..channels {
            let candidate = Candidate {
                top: Top::Channel(channel),
                args: [0, 0],
            };
            best = self.lowered(bank, last, best, candidate);
        }
        // the same loops as in the building of a level, whose labelled ones are a rule of the project: a function over what is done
        // with each candidate would have this one caller, and an iterator would count operators and places in fields of its own
        let places = bank.places.len();
        for op in 0..self.set.count() {
            let arity = self.set.arity(op);
            let firsts = turns(arity, 0, places);
            let seconds = turns(arity, 1, places);
            for first in 0..firsts {
                for second in 0..seconds {
                    let candidate = Candidate {
                        top: Top::Operator(op),
                        args: [first, second],
                    };
                    best = self.lowered(bank, last, best, candidate);
                }
            }
        }
        best
    }
}
