ghost use Rattle.std.specs.Prelude.{◌≡◌, ℕ, List};
ghost use Rattle.operators.specs.Builtin.{builtin, builtin_names, next_of, sum_of, rest_of, high_of, low_of, geq_of, quo_of};
ghost use Rattle.operators.specs.Numbered.{Numbered, arity_of, band_of, name_of};
ghost use Rattle.operators.specs.Laws.{builtin_laws, builtin_spelt};

use crate::named::{NO_NAME, Named};
use crate::set::{MARK, OperatorSet, arg, both, given};

// The built-in operators, numbered in this order from 0: nil, one, next, sum, rest, high, low, geq, quo.
#[derive(Clone, Copy)]
pub struct Builtin;

// The nine of them.
#[derive(Clone, Copy, PartialEq, Eq, Debug)]
enum Operator {
    Nil,
    One,
    Next,
    Sum,
    Rest,
    High,
    Low,
    Geq,
    Quo,
}

// A number that the set does not offer.
#[derive(Clone, Copy, PartialEq, Eq, Debug)]
struct NotOffered;

impl TryFrom<u8> for Operator {
    type Error = NotOffered;

    ghost try_from_gives = { Numbered };

    fn try_from(op: u8) -> Result<Operator, NotOffered> {
        match op {
            0 => Ok(Operator::Nil),
            1 => Ok(Operator::One),
            2 => Ok(Operator::Next),
            3 => Ok(Operator::Sum),
            4 => Ok(Operator::Rest),
            5 => Ok(Operator::High),
            6 => Ok(Operator::Low),
            7 => Ok(Operator::Geq),
            8 => Ok(Operator::Quo),
            _ => Err(NotOffered),
        }
    }
}

// The lower of a + 1 and 14.
fn next(a: u8) -> u8
    ensures { result ≡ next_of a }
{
    given(a, |a| (a + 1).min(14))
}

// The lower of a + b and 14.
fn sum(a: u8, b: u8) -> u8
    ensures { result ≡ sum_of a b }
{
    both(a, b, |a, b| (a + b).min(14))
}

// a - b, or 0 where b is greater.
fn rest(a: u8, b: u8) -> u8
    ensures { result ≡ rest_of a b }
{
    both(a, b, |a, b| a.saturating_sub(b))
}

// The greater.
fn high(a: u8, b: u8) -> u8
    ensures { result ≡ high_of a b }
{
    both(a, b, |a, b| a.max(b))
}

// The lesser.
fn low(a: u8, b: u8) -> u8
    ensures { result ≡ low_of a b }
{
    both(a, b, |a, b| a.min(b))
}

// 1 where a is at least b, else 0.
fn geq(a: u8, b: u8) -> u8
    ensures { result ≡ geq_of a b }
{
    both(a, b, |a, b| if a >= b { 1 } else { 0 })
}

// a divided by b, rounded down, and 15 where b is 0.
fn quo(a: u8, b: u8) -> u8
    ensures { result ≡ quo_of a b }
{
    both(a, b, |a, b| if b == 0 { MARK } else { a / b })
}

impl Operator {
    fn arity(self) -> u8
        ensures { result ≡ arity_of self }
    {
        match self {
            Operator::Nil | Operator::One => 0,
            Operator::Next => 1,
            Operator::Sum
            | Operator::Rest
            | Operator::High
            | Operator::Low
            | Operator::Geq
            | Operator::Quo => 2,
        }
    }

    // The band for a first and a second argument.
    fn band(self, a: u8, b: u8) -> u8
        ensures { result ≡ band_of self a b }
    {
        match self {
            Operator::Nil => 0,
            Operator::One => 1,
            Operator::Next => next(a),
            Operator::Sum => sum(a, b),
            Operator::Rest => rest(a, b),
            Operator::High => high(a, b),
            Operator::Low => low(a, b),
            Operator::Geq => geq(a, b),
            Operator::Quo => quo(a, b),
        }
    }

    fn name(self) -> [u8; 4]
        ensures { result ≡ name_of self }
    {
        match self {
            Operator::Nil => *b"nil ",
            Operator::One => *b"one ",
            Operator::Next => *b"next",
            Operator::Sum => *b"sum ",
            Operator::Rest => *b"rest",
            Operator::High => *b"high",
            Operator::Low => *b"low ",
            Operator::Geq => *b"geq ",
            Operator::Quo => *b"quo ",
        }
    }
}

impl OperatorSet for Builtin {
    ghost meaning = { λ _. builtin };

    ghost lawful = { λ s. builtin_laws };

    fn count(&self) -> u8 {
        9
    }

    fn arity(&self, op: u8) -> u8 {
        Operator::try_from(op).map_or(0, |operator| operator.arity())
    }

    fn band(&self, op: u8, args: &[u8]) -> u8 {
        let a = arg(args, 0);
        let b = arg(args, 1);
        Operator::try_from(op).map_or(MARK, |operator| operator.band(a, b))
    }
}

impl Named for Builtin {
    ghost names = { λ _. builtin_names };

    ghost spelt = { λ s. builtin_spelt };

    fn name(&self, op: u8) -> [u8; 4] {
        Operator::try_from(op).map_or(NO_NAME, Operator::name)
    }
}
