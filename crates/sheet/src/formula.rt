use formulas::steps::Step;
use operators::named::Named;
use printing::labels::label;
use printing::pieces::Piece;
use printing::writing::print;
use rows::span::Span;
use std::alloc::{AllocError, Global};

// A formula of more bytes is not printed.
const LONGEST: usize = 4096;

// What the labels of a formula's steps are taken from: the set of operators with the names of all of them, four bytes each, by
// number, and the sheet text with the spans of its channels' names.
#[derive(Drop)]
pub(crate) struct Labels<'a, N: Named> {
    set: &'a N,
    names: Vec<u8>,
    text: &'a [u8],
    spans: &'a [Span],
}

impl<'a, N: Named> Labels<'a, N> {
    pub(crate) fn new(
        heap: Global,
        set: &'a N,
        text: &'a [u8],
        spans: &'a [Span],
    ) -> Result<Labels<'a, N>, AllocError> {
        let mut names = Vec::new(heap);
        for op in 0..set.count() {
            names.extend_from_slice(&set.name(op))?;
        }
        Ok(Labels {
            set,
            names,
            text,
            spans,
        })
    }

    // A step with its label, ready to be printed.
    fn piece(&self, step: &Step) -> Piece<'_> {
        Piece {
            label: label(self.text, &self.names, self.spans, step.top),
            arity: step.top.arity(self.set),
            args: step.args.map(usize::from),
        }
    }

    // The printed formula of the steps, or `long` where it does not fit.
    pub(crate) fn printed(&self, heap: Global, steps: &[Step]) -> Result<String, AllocError> {
        let pieces: Vec<Piece> = steps.iter().map(|step| self.piece(step)).collect(heap)?;
        let mut buffer = vec![in heap; 0u8; LONGEST]?;
        match print(&pieces, &mut buffer) {
            // names are ASCII, so nothing is lost
            Ok(size) => String::from_utf8_lossy(heap, &buffer[..size]),
            Err(_) => String::from_str(heap, "long"),
        }
    }
}
