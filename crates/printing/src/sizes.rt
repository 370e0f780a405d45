ghost use Rattle.std.specs.Prelude.{◌≡◌, ◌+◌, ◌≤◌, List, Some, None, length, slice_index_or};
ghost use Rattle.std.specs.List.{slice_get};
ghost use Rattle.fixed.specs.Listed.{listed};
ghost use Rattle.printing.specs.Formulas.{added, Sized, Sizes};
ghost use Rattle.printing.specs.declared.pieces.Piece.{Piece};

use crate::pieces::Piece;
use fixed::list::FixedList;
use formulas::steps::MOST_STEPS;

// The length of the text of an argument, or none where it is no earlier step or has no length.
fn argument_size(before: &[Option<usize>], argument: usize) -> Option<usize>
    ensures { result ≡ slice_index_or before.now argument None }
{
    before.get(argument).copied().flatten()
}

// A length with so many bytes and an argument's text behind it.
fn with_argument(size: usize, more: usize, argument: Option<usize>) -> Option<usize>
    ensures { result ≡ added (size + more) argument }
{
    size.checked_add(more)?.checked_add(argument?)
}

// The length of the text of a step, from those of the steps before it.
#[tactic(auto, using(crate::proofs::Sizing::step_sized))]
fn step_size(piece: &Piece, before: &[Option<usize>]) -> Option<usize>
    ensures { (ps : List Piece) → slice_get ps (length before.now) ≡ Some piece.now → Sizes ps (length before.now) before.now → Sized ps (length before.now) result }
{
    let [first, second] = piece.args;
    if piece.arity == 0 {
        return Some(piece.label.len());
    }
    let one = with_argument(piece.label.len(), 2, argument_size(before, first))?;
    // an arity is a number and no kind: how many arguments there are
    match piece.arity {
        1 => Some(one),
        2 => with_argument(one, 1, argument_size(before, second)),
        _ => None,
    }
}

// The lengths of the texts of all steps, each worked out once from those before it. A step that stands for no formula, or whose
// text is too long to count, has none.
pub(crate) fn text_sizes(pieces: &[Piece]) -> FixedList<Option<usize>, MOST_STEPS>
    requires { length pieces.now ≤ 513 }
    ensures long { length (listed result) ≡ length pieces.now }
    ensures sizes { Sizes pieces.now (length pieces.now) (listed result) }
{
    let mut sizes = FixedList::empty();
    for piece in pieces {
        let size = step_size(piece, sizes.as_slice());
        // there is room for 513
        let _ = sizes.push(size);
    }
    sizes
}
