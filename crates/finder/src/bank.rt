ghost use Rattle.std.specs.Prelude.{◌≡◌, ℕ, ◌<◌, ◌≤◌, [], ◌∷◌, length, replicate, slice_index_or};
ghost use Rattle.formulas.specs.declared.steps.Top.TheVariants.{Channel};
ghost use Rattle.fixed.specs.Listed.{listed};

use fixed::list::FixedList;
use formulas::steps::Top;
use measures::weight::Weight;
use operators::set::MARK;

// What a formula can be made of: a channel, or an operator over the bank places of its arguments. Places past the arity mean
// nothing: a table without a length, since the arity is the set's to say.
#[derive(Clone, Copy)]
pub struct Candidate {
    pub(crate) top: Top,
    pub(crate) args: [usize; 2],
    ghost two: { length args ≡ 2 },
}

// A formula's bands, one for each standing row; those behind them mean nothing. No list: the rows are as many for all
// columns, and each of the bank's 512 would hold that number again.
#[derive(Clone, Copy)]
pub struct Column {
    pub(crate) bands: [u8; 16],
    ghost tall: { length bands ≡ 16 },
}

impl Column {
    // The column of the bands that a rule gives for the first `n` rows, and marks behind them.
    pub(crate) fn of<F: Fn(usize) -> u8>(n: usize, band: F) -> Column
        requires few { n ≤ 16 }
        requires can { (j : ℕ) → j < n → F.pre band j }
        ensures { (j : ℕ) → j < n → F.post band j (slice_index_or result.bands j 15) }
    {
        // by index: with `array::from_fn` the checker asked that the rule can be called at every number, and the proof did not close
        let mut bands = [MARK; 16];
        for j in 0..n {
            bands[j] = band(j);
        }
        Column { bands }
    }
}

// A place of the bank: a formula's column and weight, and what it is made of.
#[derive(Clone, Copy)]
pub struct Place {
    pub(crate) made_of: Candidate,
    pub(crate) column: Column,
    pub(crate) weight: Weight,
}

// The bank's places. A level is built into the free ones; `over` says that one of its columns found none.
#[derive(Drop)]
pub struct Bank {
    pub(crate) places: FixedList<Place, 512>,
    // a flag beside the places, and no error of the level's building: that goes on after it, since a formula may yet fit
    pub(crate) over: bool,
}

// What stands where there is no place.
impl Default for Place {
    ghost is_default = { λ p. (p.made_of.top ≡ Channel 0) × (p.made_of.args ≡ 0 ∷ 0 ∷ []) × (p.column.bands ≡ replicate 16 15) × (p.weight.value ≡ 1) };

    fn default() -> Place {
        Place {
            made_of: Candidate {
                top: Top::Channel(0),
                args: [0, 0],
            },
            column: Column { bands: [MARK; 16] },
            weight: Weight::one(),
        }
    }
}

impl Bank {
    pub(crate) fn empty() -> Bank
        ensures { listed result.places ≡ [] }
    {
        Bank {
            places: FixedList::empty(),
            over: false,
        }
    }
}
