ghost use Rattle.std.specs.Prelude.{◌≡◌, ℕ, ◌≤◌, true, length, replicate, codes, slice_index};
ghost use Rattle.operators.specs.Bands.{mark, most_arguments};
ghost use Rattle.operators.specs.Names.{name_width};
ghost use Rattle.books.specs.Layout.{table_width};
ghost use Rattle.books.specs.Refusal.{begins_name};

use crate::layout::{NAME_WIDTH, TABLE_WIDTH};

// One operator of a book: its name, its arity and its table of bands.
#[derive(Clone, Copy)]
pub(crate) struct Entry {
    pub(crate) name: [u8; NAME_WIDTH],
    pub(crate) arity: u8,
    pub(crate) table: [u8; TABLE_WIDTH],
    ghost wide: { length name ≡ name_width },
    ghost spelt: { begins_name name ≡ true },
    ghost narrow: { arity ≤ most_arguments },
    ghost banded: { (i : ℕ) → slice_index table i ≤ mark },
}

impl Entry {
    // What stands at the places of a book that are not offered.
    pub(crate) fn spare() -> Entry
        ensures { (result.name ≡ codes "none") × (result.arity ≡ 0) × (result.table ≡ replicate table_width 0) }
    {
        Entry {
            name: *b"none",
            arity: 0,
            table: [0; TABLE_WIDTH],
        }
    }
}

impl Default for Entry {
    ghost is_default = { λ r. (r.name ≡ codes "none") × (r.arity ≡ 0) × (r.table ≡ replicate table_width 0) };

    fn default() -> Entry {
        Entry::spare()
    }
}
