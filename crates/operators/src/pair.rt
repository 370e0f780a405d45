ghost use Rattle.std.specs.Prelude.{◌≡◌, ℕ, ◌+◌, ◌≤◌, min, List};
ghost use Rattle.operators.specs.Bands.{most_operators};
ghost use Rattle.operators.specs.Pair.{paired, pair_names};
ghost use Rattle.operators.specs.Sides.{side_of};
ghost use Rattle.operators.specs.Pairs.{paired_laws, paired_spelt};

use crate::named::{NO_NAME, Named};
use crate::set::{MARK, OperatorSet};

// Two sets as one: the first's operators and then the second's, cut off at 64.
#[derive(Clone, Copy, Drop)]
pub struct Pair<A, B> {
    pub first: A,
    pub second: B,
}

// The set of a pair that has an operator, with the operator's number there.
#[derive(Clone, Copy)]
enum Side {
    First(u8),
    Second(u8),
}

// How many operators a pair of sets of so many offers.
fn joined(first: u8, second: u8) -> u8
    requires { (first ≤ most_operators) × (second ≤ most_operators) }
    ensures { result ≡ min (first + second) most_operators }
{
    (first + second).min(64)
}

impl<A: OperatorSet, B: OperatorSet> Pair<A, B> {
    // Where an operator is, if the pair offers it.
    fn side(&self, op: u8) -> Option<Side>
        ensures { result ≡ side_of (A.OperatorSet.meaning self.now.first) (B.OperatorSet.meaning self.now.second) op }
    {
        let first = self.first.count();
        if op < first {
            Some(Side::First(op))
        } else if op < joined(first, self.second.count()) {
            Some(Side::Second(op - first))
        } else {
            None
        }
    }
}

impl<A: OperatorSet, B: OperatorSet> OperatorSet for Pair<A, B> {
    ghost meaning = { λ p. paired (A.OperatorSet.meaning p.first) (B.OperatorSet.meaning p.second) };

    ghost lawful = { λ p. paired_laws (A.OperatorSet.meaning p.first) (B.OperatorSet.meaning p.second) (A.OperatorSet.lawful p.first) (B.OperatorSet.lawful p.second) };

    fn count(&self) -> u8 {
        joined(self.first.count(), self.second.count())
    }

    fn arity(&self, op: u8) -> u8 {
        match self.side(op) {
            Some(Side::First(k)) => self.first.arity(k),
            Some(Side::Second(k)) => self.second.arity(k),
            None => 0,
        }
    }

    fn band(&self, op: u8, args: &[u8]) -> u8 {
        match self.side(op) {
            Some(Side::First(k)) => self.first.band(k, args),
            Some(Side::Second(k)) => self.second.band(k, args),
            None => MARK,
        }
    }
}

impl<A: Named, B: Named> Named for Pair<A, B> {
    ghost names = { λ p. pair_names (A.OperatorSet.meaning p.first) (B.OperatorSet.meaning p.second) (A.Named.names p.first) (B.Named.names p.second) };

    ghost spelt = { λ p. paired_spelt (A.OperatorSet.meaning p.first) (B.OperatorSet.meaning p.second) (A.Named.names p.first) (B.Named.names p.second) (A.OperatorSet.lawful p.first) (A.Named.spelt p.first) (B.Named.spelt p.second) };

    fn name(&self, op: u8) -> [u8; 4] {
        match self.side(op) {
            Some(Side::First(k)) => self.first.name(k),
            Some(Side::Second(k)) => self.second.name(k),
            None => NO_NAME,
        }
    }
}
