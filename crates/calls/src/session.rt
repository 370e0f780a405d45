use crate::answer::Answer;
use crate::error::{CallError, LineError, Refused};
use crate::expression::set_of;
use crate::forms::{bytes, number, plain};
use crate::words::words_of;
use laws::law::Law;
use operators::builtin::Builtin;
use operators::named::Named;
use operators::set::OperatorSet;
use rows::channels::ChannelCount;
use sets::any_set::AnySet;
use std::alloc::{AllocError, Global};
use std::fmt::Write;

// The longest buffer that a call can ask for.
const LONGEST: usize = 100_000;

// The number of an operator.
fn operator(word: &[u8]) -> Result<u8, LineError> {
    number(word).ok_or(LineError::Unknown)
}

// The calls so far leave a set in force, and maybe a law.
#[derive(Drop)]
pub(crate) struct Session {
    heap: Global,
    set: AnySet,
    law: Option<Law<AnySet>>,
}

impl Session {
    // Before any call the built-in set is in force.
    fn new(heap: Global) -> Session {
        Session {
            heap,
            set: AnySet::Builtin(Builtin),
            law: None,
        }
    }

    // set EXPR
    fn take_set(&mut self, expression: &[&[u8]]) -> Result<Answer, CallError> {
        self.set = set_of(self.heap, expression)?;
        Ok(Answer::Done)
    }

    // band N HEX
    fn band(&self, op: &[u8], args: &[u8]) -> Result<Answer, CallError> {
        let op = operator(op)?;
        let args = bytes(self.heap, args)?;
        Ok(Answer::Number(self.set.band(op, &args)))
    }

    // law COUNT
    fn begin_law(&mut self, count: &[u8]) -> Result<Answer, CallError> {
        let count = plain(count).ok_or(LineError::Unknown)?;
        let channels = ChannelCount::new(count).map_err(Refused::from)?;
        self.law = Some(Law::new(self.set, channels));
        Ok(Answer::Done)
    }

    // fill HEX
    fn fill(&mut self, record: &[u8]) -> Result<Answer, CallError> {
        let record = bytes(self.heap, record)?;
        let law = self.law.as_mut().ok_or(LineError::Unsealed)?;
        law.fill(&record).map_err(Refused::from)?;
        Ok(Answer::Done)
    }

    // reading HEX
    fn reading(&self, reading: &[u8]) -> Result<Answer, CallError> {
        let reading = bytes(self.heap, reading)?;
        let law = self.law.as_ref().ok_or(LineError::Unsealed)?;
        let band = law.band(&reading).map_err(Refused::from)?;
        Ok(Answer::Band(band))
    }

    // record SIZE
    fn record(&self, size: &[u8]) -> Result<Answer, CallError> {
        let size = plain(size)
            .filter(|n| *n <= LONGEST)
            .ok_or(LineError::Unknown)?;
        let law = self.law.as_ref().ok_or(LineError::Unsealed)?;
        let mut buffer = vec![in self.heap; 0xaau8; size]?;
        match law.record(&mut buffer) {
            Ok(length) => Ok(Answer::Written(length, buffer)),
            Err(refusal) => Err(LineError::NotWritten(refusal.into(), buffer).into()),
        }
    }

    // What the words of a line answer.
    fn call(&mut self, words: &[&[u8]]) -> Result<Answer, CallError> {
        match words {
            [b"set", expression @ ..] => self.take_set(expression),
            [b"count"] => Ok(Answer::Number(self.set.count())),
            [b"arity", op] => Ok(Answer::Number(self.set.arity(operator(op)?))),
            [b"band", op, args] => self.band(op, args),
            [b"name", op] => Ok(Answer::Name(self.set.name(operator(op)?))),
            [b"law", count] => self.begin_law(count),
            [b"fill", record] => self.fill(record),
            [b"reading", reading] => self.reading(reading),
            [b"record", size] => self.record(size),
            _ => Err(LineError::Unknown.into()),
        }
    }
}

// What the lines of a text answer, one after the other.
pub(crate) fn answers_to(heap: Global, text: &[u8]) -> Result<String, AllocError> {
    let mut session = Session::new(heap);
    let mut answers = String::new(heap);
    for line in text.split(|b| *b == b'\n') {
        // before its words are looked for, which costs more
        if line.is_empty() || line.starts_with(b"#") {
            continue;
        }
        let words = words_of(heap, line)?;
        if words.is_empty() {
            continue;
        }
        match session.call(&words) {
            Ok(answer) => writeln!(answers, "{answer}")?,
            Err(CallError::Line(error)) => writeln!(answers, "{error}")?,
            Err(CallError::OutOfMemory(error)) => return Err(error),
        }
    }
    Ok(answers)
}
