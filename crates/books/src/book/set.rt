ghost use Rattle.std.specs.Prelude.{◌≡◌, ℕ, ◌≤◌, List};
ghost use Rattle.operators.specs.Bands.{mark};
ghost use Rattle.books.specs.Stored.{held_meaning, held_names, entry_at, entry_band};
ghost use Rattle.books.specs.Held.{held_laws, held_spelt};

use crate::book::Book;
use crate::entry::Entry;
use crate::layout::BANDS;
use operators::named::{NO_NAME, Named};
use operators::set::{MARK, OperatorSet, arg};

impl Entry {
    // The band for arguments of at most 15.
    fn band(&self, a: u8, b: u8) -> u8
        requires { (a ≤ mark) × (b ≤ mark) }
        ensures { result ≡ entry_band self.now a b }
    {
        if self.arity > 0 && a == MARK || self.arity > 1 && b == MARK {
            return MARK;
        }
        // an arity is a number and no kind: how many arguments there are
        match self.arity {
            0 => self.table[0],
            1 => self.table[a as usize],
            _ => self.table[BANDS * a as usize + b as usize],
        }
    }
}

impl Book {
    // The entry of an operator, if it is offered.
    fn get(&self, op: u8) -> Option<Entry>
        ensures { result ≡ entry_at self.now op }
    {
        self.entries.as_slice().get(op as usize).copied()
    }
}

impl OperatorSet for Book {
    ghost meaning = { held_meaning };

    ghost lawful = { λ s. held_laws s };

    fn count(&self) -> u8 {
        self.entries.len() as u8
    }

    fn arity(&self, op: u8) -> u8 {
        self.get(op).map_or(0, |entry| entry.arity)
    }

    fn band(&self, op: u8, args: &[u8]) -> u8 {
        self.get(op)
            .map_or(MARK, |entry| entry.band(arg(args, 0), arg(args, 1)))
    }
}

impl Named for Book {
    ghost names = { held_names };

    ghost spelt = { λ s. held_spelt s };

    fn name(&self, op: u8) -> [u8; 4] {
        // no `map_or`: of its closure the check does not find that it gives the name
        match self.get(op) {
            Some(entry) => entry.name,
            None => NO_NAME,
        }
    }
}
