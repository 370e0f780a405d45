use crate::error::{CallError, LineError, Refused};
use crate::forms::{bits, bytes};
use books::book::Book;
use operators::builtin::Builtin;
use operators::mask::Mask;
use operators::pair::Pair;
use sets::any_set::{AnySet, Double, Quad};
use std::alloc::Global;

// The book of the bytes that a word writes.
fn book_of(heap: Global, hex: &[u8]) -> Result<Book, CallError> {
    let bytes = bytes(heap, hex)?;
    let mut book = Book::empty();
    book.fill(&bytes).map_err(Refused::from)?;
    Ok(book)
}

// The bits that a word writes.
fn bits_of(word: &[u8]) -> Result<u64, LineError> {
    bits(word).ok_or(LineError::Unknown)
}

// The built-in set behind the bits that a word writes.
fn masked_builtin(word: &[u8]) -> Result<Mask<Builtin>, LineError> {
    Ok(Mask {
        set: Builtin,
        bits: bits_of(word)?,
    })
}

// A mask over what words say: the built-in set, a book, or the two as a pair.
fn masked(heap: Global, bits: u64, below: &[&[u8]]) -> Result<AnySet, CallError> {
    match below {
        [b"builtin"] => Ok(AnySet::MaskedBuiltin(Mask { set: Builtin, bits })),
        [b"book", hex] => Ok(AnySet::MaskedBook(Mask {
            set: book_of(heap, hex)?,
            bits,
        })),
        [b"pair", b"builtin", b"book", hex] => Ok(AnySet::MaskedPair(Mask {
            set: Pair {
                first: Builtin,
                second: book_of(heap, hex)?,
            },
            bits,
        })),
        _ => Err(LineError::Unknown.into()),
    }
}

// The built-in set, if words say it.
fn builtin(words: &[&[u8]]) -> Option<Builtin> {
    match words {
        [b"builtin"] => Some(Builtin),
        _ => None,
    }
}

// Two sets as one, if words say it: `pair`, and then half of the words for each.
fn pair_of<S: Drop, F: Fn(&[&[u8]]) -> Option<S>>(words: &[&[u8]], half: F) -> Option<Pair<S, S>>
    requires { F.IsAlwaysCallable half }
{
    let [b"pair", parts @ ..] = words else {
        return None;
    };
    let (first, second) = parts.split_at(parts.len() / 2);
    Some(Pair {
        first: half(first)?,
        second: half(second)?,
    })
}

// Two built-in sets as one, if words say it.
fn double(words: &[&[u8]]) -> Option<Double> {
    pair_of(words, builtin)
}

// Four built-in sets as one, if words say it.
fn quad(words: &[&[u8]]) -> Option<Quad> {
    pair_of(words, double)
}

// Pairs of built-in sets only.
fn builtin_pairs(words: &[&[u8]]) -> Result<AnySet, LineError> {
    quad(words)
        .map(AnySet::Four)
        .or_else(|| pair_of(words, quad).map(AnySet::Eight))
        .ok_or(LineError::Unknown)
}

// A pair: the words of the first set and then of the second.
fn paired(heap: Global, words: &[&[u8]]) -> Result<AnySet, CallError> {
    match words {
        [b"pair", b"builtin", b"book", hex] => Ok(AnySet::BuiltinThenBook(Pair {
            first: Builtin,
            second: book_of(heap, hex)?,
        })),
        [b"pair", b"book", hex, b"builtin"] => Ok(AnySet::BookThenBuiltin(Pair {
            first: book_of(heap, hex)?,
            second: Builtin,
        })),
        [
            b"pair",
            b"mask",
            first,
            b"builtin",
            b"mask",
            second,
            b"builtin",
        ] => Ok(AnySet::TwoMasks(Pair {
            first: masked_builtin(first)?,
            second: masked_builtin(second)?,
        })),
        _ => Ok(builtin_pairs(words)?),
    }
}

// The set that words say.
pub(crate) fn set_of(heap: Global, words: &[&[u8]]) -> Result<AnySet, CallError> {
    match words {
        [b"builtin"] => Ok(AnySet::Builtin(Builtin)),
        [b"book", hex] => Ok(AnySet::Book(book_of(heap, hex)?)),
        [b"mask", digits, below @ ..] => masked(heap, bits_of(digits)?, below),
        [b"pair", ..] => paired(heap, words),
        _ => Err(LineError::Unknown.into()),
    }
}
