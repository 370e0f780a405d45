ghost use Rattle.std.specs.Prelude.{◌≡◌, ◌<◌, [], ◌∷◌, None, Ok, Err};
ghost use Rattle.books.specs.Layout.{count_of};
ghost use Rattle.refusals.specs.Numbers.{refused_by};
ghost use Rattle.books.specs.Numbers.{refusal_of};
ghost use Rattle.books.specs.Refusal.{book_refusal};
ghost use Rattle.books.specs.Stored.{Offers, Reads};

use crate::book::Book;
use crate::book::check::{check, tables};
use crate::entry::Entry;
use crate::layout::{HEAD_WIDTH, NAME_WIDTH, TABLE_WIDTH};
use crate::refusal::BookRefusal;
use fixed::list::FixedList;

// The entry `op` of bytes that are a book.
fn read(book: &[u8], op: u8) -> Entry
    requires sound { book_refusal book.now ≡ None }
    requires within { op < count_of book.now }
    ensures { Reads book.now op result }
{
    let head = 1 + HEAD_WIDTH * op as usize;
    let start = tables(book) + TABLE_WIDTH * op as usize;
    let mut name = [0; NAME_WIDTH];
    name.copy_from_slice(&book[head..head + NAME_WIDTH]);
    let mut table = [0; TABLE_WIDTH];
    table.copy_from_slice(&book[start..start + TABLE_WIDTH]);
    Entry {
        name,
        arity: book[head + NAME_WIDTH],
        table,
    }
}

impl Book {
    // A book that offers nothing.
    pub fn empty() -> Book
        ensures { Offers (0 ∷ []) result }
    {
        let entries = FixedList::empty();
        Book { entries }
    }

    // Takes the operators of a book in place of all that were there; a refusal changes nothing.
    pub fn fill(&mut self, bytes: &[u8]) -> Result<(), BookRefusal>
        ensures answer { refused_by refusal_of result ≡ book_refusal bytes.now }
        ensures outcome { elim result [ Ok _ ↦ Offers bytes.now self.new | Err _ ↦ self.new ≡ self.old ] }
    {
        check(bytes)?;
        let mut entries = FixedList::empty();
        for op in 0..bytes[0] {
            let _ = entries.push(read(bytes, op));
        }
        *self = Book { entries };
        Ok(())
    }
}
