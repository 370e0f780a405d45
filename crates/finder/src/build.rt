ghost use Rattle.std.specs.Prelude.{◌≡◌, ℕ, ◌<◌, ◌≤◌};
ghost use Rattle.search.specs.Stored.{offered, built};
ghost use Rattle.search.specs.Order.{up_from, channel, block};
ghost use Rattle.finder.specs.View.{option_seen, Builds, setting_of, rows_of, bank_of, held_of, candidate_of};

use crate::bank::{Bank, Candidate, Place};
use crate::level::turns;
use crate::problem::Problem;
use formulas::steps::Top;
use measures::measure::Measure;
use operators::set::OperatorSet;

impl<S: OperatorSet, M: Measure> Problem<S, M> {
    // Whether the candidate fits; one of the weight that does not is kept, if its column is new.
    fn offer(&self, bank: &mut Bank, weight: u32, candidate: Candidate) -> bool
        ensures { (result, held_of S.OperatorSet.meaning self.now bank.new) ≡ offered (setting_of S.OperatorSet.meaning M.Measure.meaning self.now) (rows_of self.now) weight (held_of S.OperatorSet.meaning self.now bank.old) (candidate_of S.OperatorSet.meaning self.now candidate) }
    {
        let own = self.weight_of(bank, candidate);
        if own.value() != weight {
            return false;
        }
        let column = self.column_of(bank, candidate);
        if self.sheet.wants(&column) {
            return true;
        }
        // the number of a place, taken apart here, is a rule of the project
        match bank.place_of(&column, self.sheet.rows.len()) {
            Some(_) => {}
            None => bank.push(Place {
                made_of: candidate,
                column,
                weight: own,
            }),
        }
        false
    }

    // The first channel that fits, by number; the bank takes the new columns of those before it.
    fn build_channels(&self, bank: &mut Bank, weight: u32) -> Option<Candidate>
        ensures { Builds (setting_of S.OperatorSet.meaning M.Measure.meaning self.now) (rows_of self.now) weight (held_of S.OperatorSet.meaning self.now bank.old) (up_from channel self.now.sheet.channels.value 0) (option_seen (S.OperatorSet.meaning self.now.set) result) (held_of S.OperatorSet.meaning self.now bank.new) }
    {
        let channels = self.sheet.channels.get();
        for channel in 0..channels {
            let candidate = Candidate {
                top: Top::Channel(channel),
                args: [0, 0],
            };
            if self.offer(bank, weight, candidate) {
                return Some(candidate);
            }
        }
        None
    }

    // The first operator that fits, over the first `places` places in build order; the bank takes the new columns of those
    // before it.
    fn build_operators(&self, bank: &mut Bank, weight: u32, places: usize) -> Option<Candidate>
        ensures { Builds (setting_of S.OperatorSet.meaning M.Measure.meaning self.now) (rows_of self.now) weight (held_of S.OperatorSet.meaning self.now bank.old) (up_from (block (S.OperatorSet.meaning self.now.set).arity places) (S.OperatorSet.meaning self.now.set).count 0) (option_seen (S.OperatorSet.meaning self.now.set) result) (held_of S.OperatorSet.meaning self.now bank.new) }
    {
        // labelled loops are a rule of the project at this place
        let mut found = None;
        'operators: for op in 0..self.set.count() {
            let arity = self.set.arity(op);
            let firsts = turns(arity, 0, places);
            let seconds = turns(arity, 1, places);
            for first in 0..firsts {
                for second in 0..seconds {
                    let candidate = Candidate {
                        top: Top::Operator(op),
                        args: [first, second],
                    };
                    if self.offer(bank, weight, candidate) {
                        found = Some(candidate);
                        break 'operators;
                    }
                }
            }
        }
        found
    }

    // The first candidate of the weight that fits, in build order; the bank takes the new columns of those before it.
    pub(crate) fn build(&self, bank: &mut Bank, weight: u32) -> Option<Candidate>
        ensures { (option_seen (S.OperatorSet.meaning self.now.set) result, held_of S.OperatorSet.meaning self.now bank.new) ≡ built (setting_of S.OperatorSet.meaning M.Measure.meaning self.now) (rows_of self.now) weight (bank_of S.OperatorSet.meaning self.now bank.old) }
    {
        let places = bank.places.len();
        bank.over = false;
        // by `or_else` the operators would take the bank in a closure; that was tried, and its proof did not close
        match self.build_channels(bank, weight) {
            Some(candidate) => Some(candidate),
            None => self.build_operators(bank, weight, places),
        }
    }
}
