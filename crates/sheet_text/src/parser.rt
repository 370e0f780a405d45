ghost use Rattle.std.specs.Prelude.{◌≡◌, Ok, IfOk, vec_items, vec_len};
ghost use Rattle.sheet_text.specs.Lines.{Due, SoleWord, TwoWords, after, MeasureLine, LimitLine, Names, ChannelsLine, Bytes, RowLine, RowLines};
ghost use Rattle.sheet_text.specs.Refusals.{Heard};
ghost use Rattle.sheet_text.specs.Sheets.{row_bytes, SheetRead};
ghost use Rattle.sheet_text.specs.Steps.{InLine, IsFirstWord};

use crate::forms::{byte, measure, number};
use crate::lexer::{Lexer, Part, Spot, Word};
use crate::names::is_new_name;
use crate::refusal::{Fault, ParseError, TextRefusal};
use crate::sheet::{MeasureKind, SheetText};
use refusals::sheet::SheetRefusal;
use rows::channels::ChannelCount;
use rows::limit::Limit;
use rows::row::Row;
use rows::span::Span;
use std::alloc::Global;

// Reads a text line by line.
#[derive(Drop)]
pub(crate) struct Parser<'a> {
    pub(crate) lexer: Lexer<'a>,
    pub(crate) heap: Global,
}

impl<'a> Parser<'a> {
    // The next word of the line that is being read, or none at its end, which is taken.
    fn word_in_line(&mut self) -> Option<Part<'a>>
        ensures { InLine self.old.lexer self.new.lexer result }
    {
        match self.lexer.next() {
            Some(Word::Part(part)) => Some(part),
            Some(Word::LineEnd) | None => None,
        }
    }

    // The first word of the next line that has words, if there is such a line.
    fn first_word(&mut self) -> Option<Part<'a>>
        ensures { IsFirstWord self.old.lexer self.new.lexer result }
    {
        // not `find_map`: tried, and the proof did not close, as its contract does not say where the iterator stands after `None`
        while let Some(word) = self.lexer.next() {
            if let Word::Part(part) = word {
                return Some(part);
            }
        }
        None
    }

    // Takes the first word of the line that is due, and says where it stands.
    fn due(&mut self, word: &[u8]) -> Result<Spot, Fault>
        ensures { Due word.now self.old.lexer self.new.lexer result }
    {
        let Some(part) = self.first_word() else {
            let after = Spot {
                line: self.lexer.last + 1,
                word: 1,
            };
            return Err(Fault::new(TextRefusal::FirstWord, after));
        };
        if part.bytes != word {
            return Err(Fault::new(TextRefusal::FirstWord, part.spot));
        }
        Ok(part.spot)
    }

    // Takes the one word that stands after the first word of a line.
    fn sole_word(&mut self, head: Spot) -> Result<Part<'a>, Fault>
        ensures { SoleWord head self.old.lexer self.new.lexer result }
    {
        let fault = Fault::new(TextRefusal::Word, head);
        let part = self.word_in_line().ok_or(fault)?;
        // a match and no `is_some`: the clause speaks of the word that stands there
        match self.word_in_line() {
            Some(_) => Err(fault),
            None => Ok(part),
        }
    }

    // Takes a line of two words, of which the first is due, and gives the second.
    #[tactic(auto, using(crate::proofs::LineSteps::two_words))]
    fn two_words(&mut self, word: &[u8]) -> Result<Part<'a>, Fault>
        ensures { TwoWords word.now self.old.lexer self.new.lexer result }
    {
        let head = self.due(word)?;
        self.sole_word(head)
    }

    // The names to the end of the line, each well formed and none twice.
    fn names(&mut self) -> Result<Vec<Span>, ParseError>
        ensures { Heard vec_items (Names self.old.lexer self.new.lexer) result }
    {
        let mut names = Vec::new(self.heap);
        while let Some(part) = self.word_in_line() {
            if !is_new_name(self.lexer.text, &names, part.bytes) {
                return Err(part.malformed().into());
            }
            names.push(part.span())?;
        }
        Ok(names)
    }

    // The line of the channels: their names, at most eight.
    fn channels_line(&mut self) -> Result<(Vec<Span>, ChannelCount), ParseError>
        ensures line { Heard (λ v. v.0.items) (ChannelsLine self.old.lexer self.new.lexer) result }
        ensures count { IfOk result (λ v. vec_len v.0 ≡ v.1.value) }
    {
        let head = self.due(b"channels")?;
        let names = self.names()?;
        let channels = ChannelCount::new(names.len()).map_err(|e| Fault::new(e, head))?;
        Ok((names, channels))
    }

    // The line of the measure.
    fn measure_line(&mut self) -> Result<MeasureKind, Fault>
        ensures { MeasureLine self.old.lexer self.new.lexer result }
    {
        let part = self.two_words(b"measure")?;
        measure(part.bytes).ok_or(part.malformed())
    }

    // The line of the limit: one to seven digits, 1 to 1,000,000.
    fn limit_line(&mut self) -> Result<Limit, Fault>
        ensures { LimitLine self.old.lexer self.new.lexer (after result (λ l. Ok l.value)) }
    {
        let part = self.two_words(b"limit")?;
        let limit = number(part.bytes, 7).ok_or(part.malformed())?;
        Limit::new(limit).map_err(|e| Fault::new(e, part.spot))
    }

    // The bytes to the end of the line.
    #[tactic(auto, using(crate::proofs::LineSteps::bytes_none, crate::proofs::LineSteps::bytes_more))]
    fn bytes(&mut self) -> Result<Vec<u8>, ParseError>
        ensures { Heard vec_items (Bytes self.old.lexer self.new.lexer) result }
    {
        let mut bytes = Vec::new(self.heap);
        while let Some(part) = self.word_in_line() {
            bytes.push(byte(part.bytes).ok_or(part.malformed())?)?;
        }
        Ok(bytes)
    }

    // The rest of a row's line, where so many rows stand already.
    #[tactic(auto, using(crate::proofs::Readings::says_row))]
    fn row_line(
        &mut self,
        head: Spot,
        standing: usize,
        channels: ChannelCount,
    ) -> Result<Vec<u8>, ParseError>
        ensures { Heard vec_items (RowLine head standing channels.value self.old.lexer self.new.lexer) result }
    {
        let bytes = self.bytes()?;
        if standing >= 16 {
            return Err(Fault::new(SheetRefusal::Rows, head).into());
        }
        Row::read(&bytes, channels).map_err(|e| Fault::row(e, head))?;
        Ok(bytes)
    }

    // The lines of the rows, to the end of the text.
    fn row_lines(&mut self, channels: ChannelCount) -> Result<Vec<Vec<u8>>, ParseError>
        ensures { Heard row_bytes (RowLines channels.value self.old.lexer self.new.lexer) result }
    {
        let mut rows = Vec::new(self.heap);
        while let Some(part) = self.first_word() {
            if part.bytes != b"row".as_slice() {
                return Err(Fault::new(TextRefusal::FirstWord, part.spot).into());
            }
            let row = self.row_line(part.spot, rows.len(), channels)?;
            rows.push(row)?;
        }
        Ok(rows)
    }

    // The whole sheet.
    pub(crate) fn sheet(&mut self) -> Result<SheetText, ParseError>
        ensures read { Heard (λ sheet. sheet) (SheetRead self.old.lexer self.new.lexer) result }
        ensures count { IfOk result (λ sheet. vec_len sheet.names ≡ sheet.channels.value) }
    {
        let (names, channels) = self.channels_line()?;
        let measure = self.measure_line()?;
        let limit = self.limit_line()?;
        let rows = self.row_lines(channels)?;
        Ok(SheetText {
            names,
            channels,
            measure,
            limit,
            rows,
        })
    }
}
