ghost use Rattle.std.specs.Prelude.{◌≡◌, ◌<◌, ◌≤◌, length};
ghost use Rattle.sheet_text.specs.Said.{Reads};
ghost use Rattle.sheet_text.specs.Sheets.{Parsed};

use crate::lexer::{Lexer, Spot};
use crate::parser::Parser;
use crate::refusal::{Fault, ParseError, TextRefusal};
use crate::sheet::SheetText;
use std::alloc::Global;

// The sheet that a text of at most 4,096 bytes says, or the text's first fault.
pub fn parse(heap: Global, text: &[u8]) -> Result<SheetText, ParseError>
    ensures parsed { Parsed text.now result }
    ensures reads { Reads text.now result }
{
    if text.len() > 4096 {
        let start = Spot { line: 1, word: 1 };
        return Err(Fault::new(TextRefusal::TooLong, start).into());
    }
    let mut parser = Parser {
        lexer: Lexer::new(text),
        heap,
    };
    parser.sheet()
}
