ghost use Rattle.std.specs.Prelude.{◌≡◌, ◌≤◌};
ghost use Rattle.sheet_text.specs.Forms.{name_byte, is_name, decimal_next, number_of, byte_of, measure_of};

use crate::sheet::MeasureKind;

// Whether a word is a channel name: a capital, then up to three letters or digits.
pub(crate) fn is_name(word: &[u8]) -> bool
    ensures { result ≡ is_name word.now }
{
    match word {
        [first, rest @ ..] => {
            first.is_ascii_uppercase()
                && rest.len() <= 3
                && rest.iter().all(|b| b.is_ascii_alphanumeric())
        }
        [] => false,
    }
}

// A number of 32 bits with one digit more.
// Not one with the calls' `decimal_more`: there the bound of 255 is part of what a number is, and the two crates share only
// `refusals` and `rows`, where no text is.
fn digit_more(n: u32, b: &u8) -> Option<u32>
    ensures { result ≡ decimal_next n b.now }
{
    match b {
        b'0'..=b'9' => n.checked_mul(10)?.checked_add(u32::from(b - b'0')),
        _ => None,
    }
}

// The number that a word of one to `most` digits writes.
// Not `parse`, which takes a sign too.
pub(crate) fn number(word: &[u8], most: usize) -> Option<u32>
    requires { most ≤ 7 }
    ensures { result ≡ number_of most word.now }
{
    if word.is_empty() || word.len() > most {
        return None;
    }
    word.iter().try_fold(0, digit_more)
}

// The byte that a word of one to three digits writes.
pub(crate) fn byte(word: &[u8]) -> Option<u8>
    ensures { result ≡ byte_of word.now }
{
    u8::try_from(number(word, 3)?).ok()
}

// The measure that a word names.
pub(crate) fn measure(word: &[u8]) -> Option<MeasureKind>
    ensures { result ≡ measure_of word.now }
{
    match word {
        b"nodes" => Some(MeasureKind::Nodes),
        b"depth" => Some(MeasureKind::Depth),
        _ => None,
    }
}
