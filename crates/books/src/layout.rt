// The most operators that a book holds.
pub(crate) const MOST_ENTRIES: usize = 8;

// How many bands there are, 0 to 14.
pub(crate) const BANDS: usize = 15;

pub(crate) const NAME_WIDTH: usize = 4;

// A name and an arity.
pub(crate) const HEAD_WIDTH: usize = 5;

// A byte for each two bands.
pub(crate) const TABLE_WIDTH: usize = 225;
