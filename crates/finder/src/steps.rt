ghost use Rattle.std.specs.Prelude.{◌≡◌, ◌≤◌, true, false, filter, length, replicate, slice_set};
ghost use Rattle.search.specs.Marks.{arguments_of, mark as marking, rank, steps_at, tally, used_marks};
ghost use Rattle.finder.specs.View.{bank_of, candidate_of};

use crate::bank::{Bank, Candidate};
use crate::problem::Problem;
use measures::measure::Measure;
use operators::set::OperatorSet;

// Which places of the bank a formula uses.
#[derive(Clone, Copy)]
pub(crate) struct Marks {
    pub(crate) used: [bool; 512],
    ghost long: { length used ≡ 512 },
}

// How many are true.
fn tallied(used: &[bool]) -> usize
    ensures { result ≡ length (filter (λ mark. mark) used.now) }
{
    used.iter().filter(|mark| **mark).count()
}

impl Marks {
    fn none() -> Marks
        ensures { result.used ≡ replicate 512 false }
    {
        Marks { used: [false; 512] }
    }

    fn put(&mut self, i: usize)
        ensures { self.new.used ≡ slice_set self.old.used i true }
    {
        if i < 512 {
            self.used[i] = true;
        }
    }

    // How many are marked.
    fn count(&self) -> usize
        ensures few { result ≤ 512 }
        ensures all { result ≡ tally self.now.used }
    {
        tallied(&self.used)
    }

    // The number of a place among those that are marked.
    pub(crate) fn rank(&self, place: usize) -> u16
        ensures { result ≡ rank self.now.used place }
    {
        tallied(&self.used[..place.min(512)]) as u16
    }
}

impl<S: OperatorSet, M: Measure> Problem<S, M> {
    // Marks the places of the arguments.
    fn mark(&self, marks: &mut Marks, candidate: Candidate)
        ensures { marks.new.used ≡ marking (arguments_of (candidate_of S.OperatorSet.meaning self.now candidate)) marks.old.used }
    {
        let arity = candidate.top.arity(&self.set) as usize;
        for place in &candidate.args[..arity] {
            marks.put(*place);
        }
    }

    // The places that the formula of the candidate uses.
    pub(crate) fn marks_of(&self, bank: &Bank, candidate: Candidate) -> Marks
        ensures { result.used ≡ used_marks (bank_of S.OperatorSet.meaning self.now bank.now) (candidate_of S.OperatorSet.meaning self.now candidate) }
    {
        let mut marks = Marks::none();
        self.mark(&mut marks, candidate);
        let places = bank.places.as_slice();
        // by number, since the marks that the loop goes by change under it
        for i in (0..places.len()).rev() {
            if marks.used[i] {
                self.mark(&mut marks, places[i].made_of);
            }
        }
        marks
    }

    // The weight, and how many different parts the formula of the candidate has, itself included.
    pub(crate) fn counted(&self, bank: &Bank, candidate: Candidate, weight: u32) -> (u32, usize)
        ensures { result ≡ (weight, steps_at (bank_of S.OperatorSet.meaning self.now bank.now) (candidate_of S.OperatorSet.meaning self.now candidate)) }
    {
        (weight, self.marks_of(bank, candidate).count() + 1)
    }
}
