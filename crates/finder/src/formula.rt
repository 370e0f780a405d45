ghost use Rattle.std.specs.Prelude.{◌≡◌};
ghost use Rattle.search.specs.Marks.{renumbered, steps_of};
ghost use Rattle.finder.specs.View.{bank_of, candidate_of};
ghost use Rattle.finder.specs.Whole.{step_seen, steps_seen, FormulaOf};

use crate::bank::{Bank, Candidate};
use crate::problem::Problem;
use crate::state::{Finder, State};
use crate::steps::Marks;
use formulas::steps::{Step, Steps};
use measures::measure::Measure;
use operators::set::OperatorSet;

impl<S: OperatorSet, M: Measure> Problem<S, M> {
    // The candidate as a step, with step numbers for places; numbers past the arity are 0.
    fn step(&self, marks: &Marks, candidate: Candidate) -> Step
        ensures { step_seen (S.OperatorSet.meaning self.now.set) result ≡ renumbered marks.now.used (candidate_of S.OperatorSet.meaning self.now candidate) }
    {
        let top = candidate.top;
        let [first, second] = candidate.args;
        // an arity is a number and no kind: how many arguments there are
        let args = match top.arity(&self.set) {
            0 => [0, 0],
            1 => [marks.rank(first), 0],
            _ => [marks.rank(first), marks.rank(second)],
        };
        Step { top, args }
    }

    // The steps of the formula of the candidate: the places that it uses, in order, and itself last.
    fn steps_of(&self, bank: &Bank, candidate: Candidate) -> Steps
        ensures { steps_seen (S.OperatorSet.meaning self.now.set) result ≡ steps_of (bank_of S.OperatorSet.meaning self.now bank.now) (candidate_of S.OperatorSet.meaning self.now candidate) }
    {
        let marks = self.marks_of(bank, candidate);
        let mut steps = Steps::empty();
        // there is room for 512 places and the formula itself
        for (place, used) in bank.places.as_slice().iter().zip(&marks.used) {
            if *used {
                let _ = steps.push(self.step(&marks, place.made_of));
            }
        }
        let _ = steps.push(self.step(&marks, candidate));
        steps
    }
}

impl<S: OperatorSet, M: Measure> Finder<S, M> {
    // The steps of the formula found, or none where the sheet has not settled as Found.
    pub fn formula(&self) -> Option<Steps>
        ensures { FormulaOf (S.OperatorSet.meaning self.now.problem.set) self.now.problem.sheet self.now.search.bank self.now.search.state result }
    {
        match self.search.state {
            State::Found(candidate, _) => Some(self.problem.steps_of(&self.search.bank, candidate)),
            State::Open | State::None | State::Full => None,
        }
    }
}
