ghost use Rattle.std.specs.Prelude.{◌≡◌, ℕ, ◌<◌, ◌≤◌};
ghost use Rattle.search.specs.Machine.{Move, advance as advancing};
ghost use Rattle.finder.specs.Whole.{whole, finder_seen, finder_setting, result_seen, ReadsAs, LevelBy};
ghost use Rattle.finder.specs.View.{setting_of};

use crate::bank::Bank;
use crate::problem::Problem;
use crate::state::{Answer, Finder, LevelResult, Search, State};
use measures::measure::Measure;
use operators::set::OperatorSet;
use refusals::firmware::FirmwareRefusal;

impl<S: OperatorSet, M: Measure> Problem<S, M> {
    // What an advance on an open sheet comes to, by its five rules. The bank is changed only where its places are filled.
    fn next_level(&self, bank: &mut Bank) -> LevelResult
        ensures { ReadsAs (S.OperatorSet.meaning self.now.set) (M.Measure.meaning self.now.measure) self.now.sheet bank.old result bank.new }
    {
        let limit = self.sheet.limit.get();
        let Some(weight) = self.level(bank).number() else {
            return LevelResult::Nothing;
        };
        if weight > limit {
            return LevelResult::Nothing;
        }
        let filled = bank.places.len();
        let found = self.build(bank, weight);
        if let Some(candidate) = found {
            bank.cut(filled);
            return LevelResult::Fits(candidate, self.counted(bank, candidate, weight));
        }
        if weight == limit {
            bank.cut(filled);
            return LevelResult::Nothing;
        }
        if bank.over {
            bank.cut(filled);
            return LevelResult::TooMany;
        }
        LevelResult::Filled(weight, bank.places.len())
    }
}

impl Search {
    // A settled sheet costs no search.
    fn next_result<S: OperatorSet, M: Measure>(&mut self, problem: &Problem<S, M>) -> LevelResult
        ensures state { self.new.state ≡ self.old.state }
        ensures result { LevelBy (S.OperatorSet.meaning problem.now.set) (M.Measure.meaning problem.now.measure) problem.now.sheet self.old.state self.old.bank result self.new.bank }
    {
        match self.state {
            State::Open => problem.next_level(&mut self.bank),
            State::Found(_, _) => LevelResult::Settled,
            State::None => LevelResult::Settled,
            State::Full => LevelResult::Settled,
        }
    }

    fn advance<S: OperatorSet, M: Measure>(
        &mut self,
        problem: &Problem<S, M>,
    ) -> Result<Answer, FirmwareRefusal>
        ensures { ◌≡◌ {A = Move} (record { answer = result_seen result; after = whole (S.OperatorSet.meaning problem.now.set) problem.now.sheet self.new.bank self.new.state }) (advancing (setting_of S.OperatorSet.meaning M.Measure.meaning problem.now) (whole (S.OperatorSet.meaning problem.now.set) problem.now.sheet self.old.bank self.old.state)) }
    {
        let result = self.next_result(problem);
        match (self.state, result) {
            (State::Open, LevelResult::Fits(candidate, found)) => {
                self.state = State::Found(candidate, found);
                Ok(Answer::Found(found))
            }
            (State::Open, LevelResult::Nothing) => {
                self.state = State::None;
                Ok(Answer::None)
            }
            (State::Open, LevelResult::TooMany) => {
                self.state = State::Full;
                Ok(Answer::Full)
            }
            (State::Open, LevelResult::Filled(weight, places)) => Ok(Answer::Level(weight, places)),
            (_, _) => Err(FirmwareRefusal::Settled),
        }
    }
}

impl<S: OperatorSet, M: Measure> Finder<S, M> {
    // Goes up by one level on an open sheet, and settles it where that ends the search.
    pub fn advance(&mut self) -> Result<Answer, FirmwareRefusal>
        ensures kept { self.new.problem ≡ self.old.problem }
        ensures moves { ◌≡◌ {A = Move} (record { answer = result_seen result; after = finder_seen (S.OperatorSet.meaning self.old.problem.set) self.new }) (advancing (finder_setting (S.OperatorSet.meaning self.old.problem.set) (M.Measure.meaning self.old.problem.measure) self.old) (finder_seen (S.OperatorSet.meaning self.old.problem.set) self.old)) }
    {
        self.search.advance(&self.problem)
    }
}
