use std::fmt;

// What a call answers that is not refused.
#[derive(Drop)]
pub(crate) enum Answer {
    Done,
    Number(u8),
    Name([u8; 4]),
    // What a law gives for a reading.
    Band(u8),
    // The length that was written, and the whole buffer.
    Written(usize, Vec<u8>),
}

// A name in its letters.
#[derive(Drop)]
struct Letters([u8; 4]);

impl fmt::Display for Letters {
    fn fmt<W: fmt::Write>(&self, f: &mut fmt::Formatter<W>) -> fmt::Result {
        for letter in self.0.iter().filter(|b| **b != b' ') {
            f.write_char(*letter as char)?;
        }
        Ok(())
    }
}

// The two hexadecimal digits of a byte.
fn digits(byte: u8) -> [u8; 2] {
    let table = b"0123456789abcdef";
    [table[(byte / 16) as usize], table[(byte % 16) as usize]]
}

// So many bytes of a buffer are printed at once.
const PIECE: usize = 256;

// A buffer in hexadecimal, `-` where it has no bytes.
#[derive(Drop)]
pub(crate) struct Hex<'a>(pub &'a [u8]);

impl<'a> fmt::Display for Hex<'a> {
    fn fmt<W: fmt::Write>(&self, f: &mut fmt::Formatter<W>) -> fmt::Result {
        if self.0.is_empty() {
            return f.write_str("-");
        }
        // in pieces: to print each byte by a format of its own took five times as long
        let mut text = [[0; 2]; PIECE];
        for piece in self.0.chunks(PIECE) {
            for (pair, byte) in text.iter_mut().zip(piece) {
                *pair = digits(*byte);
            }
            // a piece has no more than PIECE bytes, and digits are ASCII: neither `min` nor `map_err` ever does anything
            let pairs = text[..piece.len().min(PIECE)].as_flattened();
            f.write_str(str::from_utf8(pairs).map_err(|_| fmt::Error)?)?;
        }
        Ok(())
    }
}

impl fmt::Display for Answer {
    fn fmt<W: fmt::Write>(&self, f: &mut fmt::Formatter<W>) -> fmt::Result {
        match self {
            Answer::Done => write!(f, "ok"),
            Answer::Number(n) => write!(f, "{n}"),
            Answer::Name(name) => write!(f, "{}", Letters(*name)),
            Answer::Band(band) => write!(f, "band {band}"),
            Answer::Written(length, buffer) => write!(f, "length {length} buffer {}", Hex(buffer)),
        }
    }
}
