ghost use Rattle.std.specs.Prelude.{◌≡◌};
ghost use Rattle.calls.specs.Forms.{hex_value, hex_next, decimal_value, decimal_next, bits_of, number_of};

use crate::error::{CallError, LineError};
use std::alloc::Global;

fn decimal_digit(b: u8) -> Option<u8>
    ensures { result ≡ decimal_value b }
{
    match b {
        b'0'..=b'9' => Some(b - b'0'),
        _ => None,
    }
}

// The value of a hexadecimal digit, lower case.
fn hex_digit(b: u8) -> Option<u8>
    ensures { result ≡ hex_value b }
{
    match b {
        b'a'..=b'f' => Some(b - b'a' + 10),
        _ => decimal_digit(b),
    }
}

// A number of 64 bits with one hexadecimal digit more.
fn hex_more(n: u64, b: &u8) -> Option<u64>
    ensures { result ≡ hex_next n b.now }
{
    n.checked_mul(16)?.checked_add(hex_digit(*b)? as u64)
}

// The number that one to sixteen hexadecimal digits write. Not `from_str_radix`, which takes capitals too.
pub(crate) fn bits(word: &[u8]) -> Option<u64>
    ensures { result ≡ bits_of word.now }
{
    if word.is_empty() || word.len() > 16 {
        return None;
    }
    word.iter().try_fold(0, hex_more)
}

// A number up to 255 with one decimal digit more.
fn decimal_more(n: u8, b: &u8) -> Option<u8>
    ensures { result ≡ decimal_next n b.now }
{
    n.checked_mul(10)?.checked_add(decimal_digit(*b)?)
}

// The number from 0 to 255 that decimal digits write.
// Not one with the sheet text's: there the digits are counted, here the value is bounded, and the two crates share only `refusals` and
// `rows`, where no text is. Not `parse`, which takes a sign too.
pub(crate) fn number(word: &[u8]) -> Option<u8>
    ensures { result ≡ number_of word.now }
{
    if word.is_empty() {
        return None;
    }
    word.iter().try_fold(0, decimal_more)
}

// The number that decimal digits write, or the greatest there is where it is greater; `parse` refuses that.
pub(crate) fn plain(word: &[u8]) -> Option<usize> {
    if word.is_empty() {
        return None;
    }
    word.iter().try_fold(0usize, |n, b| {
        Some(
            n.saturating_mul(10)
                .saturating_add(decimal_digit(*b)? as usize),
        )
    })
}

// The byte that two hexadecimal digits write.
fn byte(digits: &[u8; 2]) -> Option<u8> {
    Some(hex_digit(digits[0])? * 16 + hex_digit(digits[1])?)
}

// The bytes that hexadecimal digits write, two for each byte, and `-` for none.
pub(crate) fn bytes(heap: Global, word: &[u8]) -> Result<Vec<u8>, CallError> {
    if let b"-" = word {
        return Ok(Vec::new(heap));
    }
    let (pairs, []) = word.as_chunks::<2>() else {
        return Err(LineError::Unknown.into());
    };
    pairs
        .iter()
        .map(|digits| byte(digits).ok_or(CallError::Line(LineError::Unknown)))
        .try_collect(heap)
}
