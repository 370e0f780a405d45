use crate::entry::Entry;
use crate::layout::MOST_ENTRIES;
use fixed::list::FixedList;

// The operators of an owner's book, at most eight, in fixed memory.
#[derive(Clone, Copy)]
pub struct Book {
    entries: FixedList<Entry, MOST_ENTRIES>,
}

mod check;
mod fill;
pub mod set;
