ghost use Rattle.std.specs.Prelude.{◌≡◌, ℕ, ◌+◌, ◌^◌, ◌<◌, Some};
ghost use Rattle.refusals.specs.Numbers.{sheet_refusal};
ghost use Rattle.sheet_text.specs.Refusals.{text_refusal, fault_number, row_fault};
ghost use Rattle.sheet_text.specs.Layers.{cause_layer, layer_seen, layer_text, fault_text};
ghost use Rattle.sheet_text.specs.declared.refusal.Cause.TheVariants.{Text as OfText, Sheet as OfSheet};
ghost use Rattle.sheet_text.specs.declared.refusal.ParseError.TheVariants.{Refused as Faulty, Memory};

use crate::lexer::Spot;
use refusals::refusal::Refusal;
use refusals::sheet::SheetRefusal;
use std::alloc::{AllocError, AllocFailed};
use std::fmt;

// What a sheet text is refused for as a text.
#[derive(Clone, Copy, PartialEq, Eq, Debug)]
pub enum TextRefusal {
    // A line whose first word is not the one due, or a line that is missing.
    FirstWord,
    // A wrong number of words, or a word that is malformed or repeated.
    Word,
    // A text that is too long.
    TooLong,
}

// Not a `Refusal`, since its place is a line and a word.
impl TextRefusal {
    pub fn number(self) -> u8
        ensures { result ≡ text_refusal self }
    {
        match self {
            TextRefusal::FirstWord => 19,
            TextRefusal::Word => 20,
            TextRefusal::TooLong => 21,
        }
    }
}

// Why a text is refused: as a text, or for what its sheet would be.
#[derive(Clone, Copy)]
pub enum Cause {
    Text(TextRefusal),
    Sheet(SheetRefusal),
}

impl From<TextRefusal> for Cause {
    ghost from_gives = { λ t r. r ≡ OfText t };

    fn from(text: TextRefusal) -> Cause {
        Cause::Text(text)
    }
}

impl From<SheetRefusal> for Cause {
    ghost from_gives = { λ s r. r ≡ OfSheet s };

    fn from(sheet: SheetRefusal) -> Cause {
        Cause::Sheet(sheet)
    }
}

// Where a refusal comes from: the text, a row, or what the finder would refuse.
#[derive(Clone, Copy, PartialEq, Eq, Debug)]
pub enum Layer {
    Text,
    Row,
    Finder,
}

impl fmt::Display for Layer {
    ghost output = { λ l. Some (layer_text (layer_seen l)) };

    fn fmt<W: fmt::Write>(&self, f: &mut fmt::Formatter<W>) -> fmt::Result {
        f.write_str(match self {
            Layer::Text => "text",
            Layer::Row => "row",
            Layer::Finder => "finder",
        })
    }
}

impl Cause {
    pub fn layer(self) -> Layer
        ensures { layer_seen result ≡ cause_layer self }
    {
        match self {
            Cause::Text(_) => Layer::Text,
            Cause::Sheet(SheetRefusal::Length | SheetRefusal::Band(_)) => Layer::Row,
            Cause::Sheet(SheetRefusal::Rows | SheetRefusal::Limit | SheetRefusal::Channels) => {
                Layer::Finder
            }
        }
    }

    pub fn number(self) -> u8
        ensures { result ≡ fault_number self }
    {
        match self {
            Cause::Text(refusal) => refusal.number(),
            Cause::Sheet(refusal) => refusal.number(),
        }
    }
}

// The first fault of a text, with its place.
#[derive(Clone, Copy)]
pub struct Fault {
    pub cause: Cause,
    pub spot: Spot,
}

impl Fault {
    pub(crate) fn new<C: Into<Cause>>(refusal: C, spot: Spot) -> Fault
        ensures cause { C.converts refusal result.cause }
        ensures spot { result.spot ≡ spot }
    {
        Fault {
            cause: refusal.into(),
            spot,
        }
    }

    // A row's fault: a byte at fault is the word after the line's first word and the bytes before it.
    pub(crate) fn row(refusal: SheetRefusal, head: Spot) -> Fault
        requires { (sheet_refusal refusal).1 + 2 < 2 ^ 64 }
        ensures { result ≡ row_fault refusal head }
    {
        let spot = match refusal {
            SheetRefusal::Band(place) => Spot {
                word: place + 2,
                ..head
            },
            SheetRefusal::Length
            | SheetRefusal::Rows
            | SheetRefusal::Limit
            | SheetRefusal::Channels => head,
        };
        Fault::new(refusal, spot)
    }
}

// What is said of a text that is refused.
impl fmt::Display for Fault {
    ghost output = { λ f. Some (fault_text f) };

    fn fmt<W: fmt::Write>(&self, f: &mut fmt::Formatter<W>) -> fmt::Result {
        let layer = self.cause.layer();
        let number = self.cause.number();
        let Spot { line, word } = self.spot;
        write!(f, "refused {layer} {number} line {line} word {word}")
    }
}

// Why no sheet was read: the text is at fault, or there was no memory.
#[derive(Drop)]
pub enum ParseError {
    Refused(Fault),
    Memory,
}

impl From<Fault> for ParseError {
    ghost from_gives = { λ f r. r ≡ Faulty f };

    fn from(fault: Fault) -> ParseError {
        ParseError::Refused(fault)
    }
}

impl From<AllocError> for ParseError {
    ghost from_gives = { λ _ r. r ≡ Memory };

    fn from(_e: AllocError) -> ParseError {
        Self::Memory
    }
}

impl<T: Drop> From<AllocFailed<T>> for ParseError {
    ghost from_gives = { λ _ r. r ≡ Memory };

    fn from(_e: AllocFailed<T>) -> ParseError {
        ParseError::Memory
    }
}
