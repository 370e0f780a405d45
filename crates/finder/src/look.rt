ghost use Rattle.std.specs.Prelude.{◌≡◌, ℕ, ◌<◌, ◌≤◌, get_or, take, slice_index_or};
ghost use Rattle.operators.specs.Bands.{SetMeaning};
ghost use Rattle.search.specs.Stored.{no_place, columns_in, grown, last_weight, Looked};
ghost use Rattle.finder.specs.View.{bank_seen, held_seen, place_seen};

use crate::bank::{Bank, Column, Place};
use measures::weight::Weight;
use operators::set::MARK;

impl Bank {
    // The column at the place `i`, all marks where it is not filled.
    pub(crate) fn column(&self, i: usize) -> Column
        ensures { (m : SetMeaning) (n j : ℕ) → j < n → slice_index_or result.bands j 15 ≡ slice_index_or (get_or (bank_seen m n self.now) i no_place).column j 15 }
    {
        self.places
            .as_slice()
            .get(i)
            .map_or(Column { bands: [MARK; 16] }, |place| place.column)
    }

    // The weight at the place `i`, 1 where it is not filled.
    pub(crate) fn weight(&self, i: usize) -> Weight
        ensures { (m : SetMeaning) (n : ℕ) → result.value ≡ (get_or (bank_seen m n self.now) i no_place).weight }
    {
        self.places
            .as_slice()
            .get(i)
            .map_or(Weight::one(), |place| place.weight)
    }

    // The weight at the last place, 0 where there is none: 0 and no None, as
    // the search over stored places has it. A match: through `map_or` its proof did not close.
    pub(crate) fn last(&self) -> u32
        ensures { (m : SetMeaning) (n : ℕ) → result ≡ last_weight (bank_seen m n self.now) }
    {
        match self.places.as_slice().last() {
            Some(place) => place.weight.value(),
            None => 0,
        }
    }

    // The place of a column of `n` bands, if it has one.
    pub(crate) fn place_of(&self, column: &Column, n: usize) -> Option<usize>
        requires { n ≤ 16 }
        ensures { (m : SetMeaning) → Looked (columns_in (bank_seen m n self.now)) (take n column.now.bands) result }
    {
        // by index: with `position` the look-ups of a full bank took twice as long
        let places = self.places.as_slice();
        for i in 0..places.len() {
            if places[i].column.bands[..n] == column.bands[..n] {
                return Some(i);
            }
        }
        None
    }

    // One place more, if there is room.
    pub(crate) fn push(&mut self, place: Place)
        ensures { (m : SetMeaning) (n : ℕ) → held_seen m n self.new ≡ grown (held_seen m n self.old) (place_seen m n place) }
    {
        if self.places.push(place).is_err() {
            self.over = true;
        }
    }

    // Takes away the places from `filled` on.
    pub(crate) fn cut(&mut self, filled: usize)
        ensures { (m : SetMeaning) (n : ℕ) → bank_seen m n self.new ≡ take filled (bank_seen m n self.old) }
    {
        self.places.truncate(filled);
    }
}
