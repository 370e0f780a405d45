ghost use Rattle.std.specs.Prelude.{◌≡◌, ◌-◌, ◌≤◌, length};
ghost use Rattle.std.specs.Iterator.{at_most};
ghost use Rattle.std.specs.List.{prefix_len};
ghost use Rattle.sheet_text.specs.Lines.{span_of};
ghost use Rattle.sheet_text.specs.Refusals.{text_fault};
ghost use Rattle.sheet_text.specs.Texts.{blank, in_word, Lexed, Fresh};
ghost use Rattle.sheet_text.specs.declared.refusal.TextRefusal.TheVariants.{Word as Malformed};

use crate::lexer::{Lexer, Part, Spot, Word};
use crate::refusal::{Fault, TextRefusal};
use rows::span::Span;

// How many spaces the text begins with.
fn spaces(text: &[u8]) -> usize
    ensures value { result ≡ prefix_len blank text.now }
    ensures within { result ≤ length text.now }
{
    text.iter().take_while(|b| **b == b' ').count()
}

// How many bytes of a word the text begins with.
fn letters(text: &[u8]) -> usize
    ensures value { result ≡ prefix_len in_word text.now }
    ensures within { result ≤ length text.now }
{
    text.iter()
        .take_while(|b| **b != b' ' && **b != b'\n')
        .count()
}

impl<'a> Part<'a> {
    // Where the word stands in the text.
    pub(crate) fn span(&self) -> Span
        ensures { result ≡ span_of self.now }
    {
        Span {
            from: self.from,
            size: self.bytes.len(),
        }
    }

    // The fault of a word that is malformed or repeated.
    pub(crate) fn malformed(&self) -> Fault
        ensures { result ≡ text_fault Malformed self.now.spot }
    {
        Fault::new(TextRefusal::Word, self.spot)
    }
}

impl<'a> Lexer<'a> {
    // The text, of which nothing is read yet.
    pub(crate) fn new(text: &'a [u8]) -> Lexer<'a>
        requires { length text.now ≤ 4096 }
        ensures { Fresh text.now result }
    {
        Lexer {
            text,
            at: 0,
            line: 0,
            word: 0,
            last: 0,
        }
    }
}

// The words and the ends of the lines, one after the other to the end of the text.
impl<'a> Iterator for Lexer<'a> {
    type Item = Word<'a>;

    ghost next_gives = { λ s r t. Lexed s t r };

    ghost remaining = { λ s. at_most (length s.text.now - s.at) };

    #[tactic(auto, using(std::proofs::lemmas::List::take_rest))]
    fn next(&mut self) -> Option<Word<'a>> {
        let text = self.text;
        let from = self.at;
        let start = from + spaces(&text[from..]);
        let size = letters(&text[start..]);
        if size > 0 {
            let spot = Spot {
                line: self.line + 1,
                word: self.word + 1,
            };
            let bytes = &text[start..start + size];
            self.at = start + size;
            self.word += 1;
            self.last = spot.line;
            Some(Word::Part(Part {
                bytes,
                from: start,
                spot,
            }))
        } else if start < text.len() {
            self.at = start + 1;
            self.line += 1;
            self.word = 0;
            Some(Word::LineEnd)
        } else {
            self.at = start;
            None
        }
    }
}
