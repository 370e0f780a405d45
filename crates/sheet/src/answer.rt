use crate::formula::Labels;
use finder::state::Finder;
use measures::charge::Charge;
use measures::depth::Depth;
use measures::measure::Measure;
use operators::builtin::Builtin;
use sheet_text::parse::parse;
use sheet_text::refusal::ParseError;
use sheet_text::sheet::{MeasureKind, SheetText};
use std::alloc::{AllocError, Global};
use std::fmt::Write;

// A search settles within so many advances.
const ADVANCES: usize = 513;

// What the program prints for a sheet text. A refused sheet prints one line only.
pub(crate) fn answer_to(heap: Global, text: &[u8]) -> Result<String, AllocError> {
    match parse(heap, text) {
        Ok(sheet) => match sheet.measure {
            MeasureKind::Nodes => searched(heap, text, &sheet, Charge::nodes()),
            MeasureKind::Depth => searched(heap, text, &sheet, Depth),
        },
        Err(ParseError::Refused(fault)) => format!(in heap; "{fault}\n"),
        // made by hand: `ParseError` is public, and its `Memory` holds no `AllocError`
        Err(ParseError::Memory) => Err(AllocError),
    }
}

// The rows' adds and the advances until the sheet has settled, a line for each advance, then the formula if one was found.
fn searched<M: Measure + Drop>(
    heap: Global,
    text: &[u8],
    sheet: &SheetText,
    measure: M,
) -> Result<String, AllocError> {
    let mut finder = Finder::open(sheet.channels, sheet.limit, Builtin, measure);
    for row in &sheet.rows {
        // the parser has judged every row already
        let _ = finder.add(row);
    }
    let mut out = String::new(heap);
    for _ in 0..ADVANCES {
        let Ok(answer) = finder.advance() else {
            break;
        };
        writeln!(out, "{answer}")?;
    }
    if let Some(steps) = finder.formula() {
        let labels = Labels::new(heap, &Builtin, text, &sheet.names)?;
        writeln!(out, "{}", labels.printed(heap, steps.as_slice())?)?;
    }
    Ok(out)
}
