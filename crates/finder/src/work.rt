ghost use Rattle.std.specs.Prelude.{◌≡◌, ℕ, ◌<◌, ◌≤◌, [], ◌∷◌, get_or, take, slice_index_or};
ghost use Rattle.search.specs.Stored.{column_of, weight_of, no_row};
ghost use Rattle.finder.specs.View.{setting_of, rows_of, bank_of, candidate_of};

use crate::bank::{Bank, Candidate, Column};
use crate::problem::Problem;
use formulas::steps::Top;
use measures::measure::Measure;
use measures::weight::Weight;
use operators::set::OperatorSet;

impl<S: OperatorSet, M: Measure> Problem<S, M> {
    // The column of a candidate. Bank and candidate come apart in this and the other methods: the building changes the bank while it
    // goes through candidates, so a struct that lends both could not stand over it.
    pub(crate) fn column_of(&self, bank: &Bank, candidate: Candidate) -> Column
        ensures { take self.now.sheet.rows.count result.bands ≡ column_of (setting_of S.OperatorSet.meaning M.Measure.meaning self.now) (rows_of self.now) (bank_of S.OperatorSet.meaning self.now bank.now) (candidate_of S.OperatorSet.meaning self.now candidate) }
    {
        match candidate.top {
            Top::Channel(channel) => self.channel_column(channel),
            Top::Operator(op) => {
                let first = bank.column(candidate.args[0]);
                let second = bank.column(candidate.args[1]);
                self.operator_column(op, &first, &second)
            }
        }
    }

    fn channel_column(&self, channel: u8) -> Column
        ensures { (j : ℕ) → j < self.now.sheet.rows.count → slice_index_or result.bands j 15 ≡ slice_index_or (get_or (rows_of self.now) j no_row).bands channel 15 }
    {
        Column::of(self.sheet.rows.len(), |j| self.sheet.band(j, channel))
    }

    // The band of an operator over as many of two bands as it takes: the one caller of the set's `band`.
    fn operator_band(&self, op: u8, arity: usize, first: u8, second: u8) -> u8
        requires { arity ≡ (S.OperatorSet.meaning self.now.set).arity op }
        ensures { result ≡ (S.OperatorSet.meaning self.now.set).band op (take ((S.OperatorSet.meaning self.now.set).arity op) (first ∷ second ∷ [])) }
    {
        let args = [first, second];
        self.set.band(op, &args[..arity])
    }

    // The column of an operator over its arguments' columns.
    fn operator_column(&self, op: u8, first: &Column, second: &Column) -> Column
        ensures { (j : ℕ) → j < self.now.sheet.rows.count → slice_index_or result.bands j 15 ≡ (S.OperatorSet.meaning self.now.set).band op (take ((S.OperatorSet.meaning self.now.set).arity op) (slice_index_or first.now.bands j 15 ∷ slice_index_or second.now.bands j 15 ∷ [])) }
    {
        let arity = self.set.arity(op) as usize;
        Column::of(
            self.sheet.rows.len(),
            |j| self.operator_band(op, arity, first.bands[j], second.bands[j]),
        )
    }

    // The weight of a candidate.
    pub(crate) fn weight_of(&self, bank: &Bank, candidate: Candidate) -> Weight
        ensures { result.value ≡ weight_of (setting_of S.OperatorSet.meaning M.Measure.meaning self.now) (bank_of S.OperatorSet.meaning self.now bank.now) (candidate_of S.OperatorSet.meaning self.now candidate) }
    {
        match candidate.top {
            Top::Channel(channel) => self.measure.channel(channel),
            Top::Operator(op) => {
                let args = [
                    bank.weight(candidate.args[0]),
                    bank.weight(candidate.args[1]),
                ];
                let n = self.set.arity(op) as usize;
                self.measure.operator(op, &args[..n])
            }
        }
    }
}
