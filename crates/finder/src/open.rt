ghost use Rattle.std.specs.Prelude.{◌≡◌};
ghost use Rattle.search.specs.Machine.{opened};
ghost use Rattle.finder.specs.Whole.{finder_seen};

use crate::bank::Bank;
use crate::problem::Problem;
use crate::sheet::Sheet;
use crate::state::{Finder, Search, State};
use measures::measure::Measure;
use operators::set::OperatorSet;
use rows::channels::ChannelCount;
use rows::limit::Limit;

impl<S: OperatorSet, M: Measure> Finder<S, M> {
    // A finder with no row, an empty bank and an open sheet.
    pub fn open(channels: ChannelCount, limit: Limit, set: S, measure: M) -> Self
        ensures set { result.problem.set ≡ set }
        ensures measure { result.problem.measure ≡ measure }
        ensures channels { result.problem.sheet.channels ≡ channels }
        ensures fresh { finder_seen (S.OperatorSet.meaning set) result ≡ opened limit.value }
    {
        Finder {
            problem: Problem {
                set,
                measure,
                sheet: Sheet::open(channels, limit),
            },
            search: Search {
                bank: Bank::empty(),
                state: State::Open,
            },
        }
    }
}
