ghost use Rattle.std.specs.Prelude.{◌≡◌, ◌≤◌, length};

use std::alloc::AllocError;

// Not the library's `ArrayVec`, which is not `Copy`: `Steps` and `Book`, which are public, are and have to stay it.
// At most N values, the first `count` of the table. What stands behind them means nothing.
#[derive(Copy)]
pub struct FixedList<T, const N: usize> {
    pub table: [T; N],
    pub count: usize,
    ghost few: { count ≤ N },
    ghost whole: { length table ≡ N },
}

// by hand: the checker derives no `Clone` for a generic struct with ghost fields
impl<T: Copy, const N: usize> Clone for FixedList<T, N> {
    ghost is_clone = { λ from to. to ≡ from };

    ghost is_infallible = { λ _. Unit {0} };

    fn clone(&self) -> Result<FixedList<T, N>, AllocError> {
        Ok(*self)
    }
}

// Why a value is not put into a list: as many stand as it holds.
#[derive(Clone, Copy, PartialEq, Eq, Debug)]
pub struct NoRoom;

pub mod calls;
