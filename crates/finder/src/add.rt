ghost use Rattle.std.specs.Prelude.{◌≡◌, ◌<◌, [], ◌∷◌, ◌++◌, OnOk};
ghost use Rattle.fixed.specs.Listed.{listed};
ghost use Rattle.refusals.specs.Numbers.{sheet_refusal, refused_by};
ghost use Rattle.search.specs.Machine.{Change, add as adding};
ghost use Rattle.finder.specs.Whole.{finder_seen, finder_setting, NextRow, SameGround};

use crate::sheet::Sheet;
use crate::state::{Finder, State};
use measures::measure::Measure;
use operators::set::OperatorSet;
use refusals::sheet::SheetRefusal;
use rows::row::Row;

impl Sheet {
    // The row that comes next, from its bytes.
    fn next_row(&self, bytes: &[u8]) -> Result<Row, SheetRefusal>
        ensures row { NextRow self.now.rows.count self.now.channels.value bytes.now result }
        ensures room { OnOk result (self.now.rows.count < 16) }
    {
        if self.rows.len() >= 16 {
            return Err(SheetRefusal::Rows);
        }
        Row::read(bytes, self.channels)
    }

    fn put_last(&mut self, row: Row)
        requires { self.old.rows.count < 16 }
        ensures rows { listed self.new.rows ≡ listed self.old.rows ++ row ∷ [] }
        ensures rest { (self.new.channels ≡ self.old.channels) × (self.new.limit ≡ self.old.limit) }
    {
        // there is room
        let _ = self.rows.push(row);
    }
}

impl<S: OperatorSet, M: Measure> Finder<S, M> {
    // Puts a row last: the wanted band, then one band for each channel. The bank is emptied and the sheet reopened.
    pub fn add(&mut self, bytes: &[u8]) -> Result<(), SheetRefusal>
        ensures kept { SameGround self.old self.new }
        ensures moves { ◌≡◌ {A = Change} (record { refusal = refused_by sheet_refusal result; after = finder_seen (S.OperatorSet.meaning self.old.problem.set) self.new }) (adding (finder_setting (S.OperatorSet.meaning self.old.problem.set) (M.Measure.meaning self.old.problem.measure) self.old) (finder_seen (S.OperatorSet.meaning self.old.problem.set) self.old) bytes.now) }
    {
        let row = self.problem.sheet.next_row(bytes)?;
        self.problem.sheet.put_last(row);
        self.search.bank.places.truncate(0);
        self.search.state = State::Open;
        Ok(())
    }
}
