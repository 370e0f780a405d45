ghost use Rattle.std.specs.Prelude.{◌≡◌, ℕ, ◌<◌, ◌≤◌, List, filter, length};
ghost use Rattle.std.specs.List.{range_with_len};
ghost use Rattle.operators.specs.Mask.{masked, mask_names, behind, set_at};
ghost use Rattle.operators.specs.Masks.{masked_laws, masked_spelt};

use crate::named::{NO_NAME, Named};
use crate::set::{MARK, OperatorSet};

// Those operators of a set whose bit is 1, 0 the lowest bit, renumbered in order. Bits past the set's count mean nothing.
#[derive(Clone, Copy, Drop)]
pub struct Mask<S> {
    pub set: S,
    pub bits: u64,
}

// Whether bit `i` is 1.
fn bit(bits: u64, i: u8) -> bool
    requires { i < 64 }
    ensures { result ≡ set_at bits i }
{
    (bits >> i) % 2 == 1
}

// How many of the first n bits are 1. By a fold: by `filter` and `count` it took five times the instructions.
fn ones(bits: u64, n: u8) -> u8
    requires { n ≤ 64 }
    ensures { result ≡ length (filter (set_at bits) (range_with_len 0 n)) }
{
    (0..n).fold(0, |sum: u8, i| sum.saturating_add(u8::from(bit(bits, i))))
}

impl<S: OperatorSet> Mask<S> {
    // The number in the set below of the operator `op`, if it is offered.
    fn place(&self, op: u8) -> Option<u8>
        ensures { result ≡ behind self.now.bits (S.OperatorSet.meaning self.now.set) op }
    {
        (0..self.set.count())
            .filter(|i| bit(self.bits, *i))
            .nth(op as usize)
    }
}

impl<S: OperatorSet> OperatorSet for Mask<S> {
    ghost meaning = { λ m. masked m.bits (S.OperatorSet.meaning m.set) };

    ghost lawful = { λ s. masked_laws (S.OperatorSet.meaning s.set) (S.OperatorSet.lawful s.set) s.bits };

    #[tactic(auto, using(crate::proofs::Kept::kept_filter))]
    fn count(&self) -> u8 {
        ones(self.bits, self.set.count())
    }

    fn arity(&self, op: u8) -> u8 {
        self.place(op).map_or(0, |k| self.set.arity(k))
    }

    fn band(&self, op: u8, args: &[u8]) -> u8 {
        self.place(op).map_or(MARK, |k| self.set.band(k, args))
    }
}

impl<S: Named> Named for Mask<S> {
    ghost names = { λ m. mask_names m.bits (S.OperatorSet.meaning m.set) (S.Named.names m.set) };

    ghost spelt = { λ s. masked_spelt (S.OperatorSet.meaning s.set) (S.Named.names s.set) (S.Named.spelt s.set) s.bits };

    fn name(&self, op: u8) -> [u8; 4] {
        // no `map_or`: what its closure gives for a named set the check does not read off
        match self.place(op) {
            Some(k) => self.set.name(k),
            None => NO_NAME,
        }
    }
}
