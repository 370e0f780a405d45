ghost use Rattle.std.specs.Prelude.{◌≡◌, [], ◌∷◌, ◌++◌, if◌then◌else◌, is_ok, length, nat_lt, take, OnErr};
ghost use Rattle.fixed.specs.Listed.{listed};

use crate::list::{FixedList, NoRoom};

impl<T: Copy, const N: usize> FixedList<T, N> {
    pub fn empty() -> FixedList<T, N>
    where
        T: Default,
        ensures { listed result ≡ [] }
    {
        FixedList {
            table: [T::default(); N],
            count: 0,
        }
    }

    // How many values stand.
    pub fn len(&self) -> usize
        ensures count { result ≡ self.now.count }
        ensures length { result ≡ length (listed self.now) }
    {
        self.as_slice().len()
    }

    // Puts a value last; nothing changes where there is no room.
    pub fn push(&mut self, value: T) -> Result<(), NoRoom>
        ensures room { is_ok result ≡ nat_lt (length (listed self.old)) N }
        ensures values { listed self.new ≡ (if is_ok result then listed self.old ++ value ∷ [] else listed self.old) }
        ensures unchanged { OnErr result (self.new ≡ self.old) }
    {
        if self.count >= N {
            return Err(NoRoom);
        }
        self.table[self.count] = value;
        self.count += 1;
        Ok(())
    }

    // The values that stand.
    pub fn as_slice(&self) -> &[T]
        ensures { result.now ≡ listed self.now }
    {
        let table = &self.table[..];
        &table[..self.count]
    }

    // Leaves the first `count` values.
    pub fn truncate(&mut self, count: usize)
        ensures { listed self.new ≡ take count (listed self.old) }
    {
        self.count = self.count.min(count);
    }
}
