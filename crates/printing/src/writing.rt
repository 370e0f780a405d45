ghost use Rattle.printing.specs.Formulas.{Formula, printed, Denotes, Prints};
ghost use Rattle.lent.specs.Puts.{Behind};

use crate::pieces::Piece;
use crate::sizes::text_sizes;
use formulas::steps::MOST_STEPS;
use lent::front::Front;
use refusals::firmware::FirmwareRefusal;

// Writes the formula of a step behind what is written, where there is room. An argument is an earlier step, so it ends.
fn put_formula(front: &mut Front<'_>, pieces: &[Piece], step: usize)
    ensures { (f : Formula) → Denotes pieces.now step f → Behind front.old front.new (printed f) }
{
    let Some(piece) = pieces.get(step) else {
        return;
    };
    let [first, second] = piece.args;
    front.put(piece.label);
    // an arity is a number and no kind: how many arguments there are
    if piece.arity == 0 {
        return;
    }
    front.put(b"(");
    if first >= step {
        return;
    }
    put_formula(front, pieces, first);
    if piece.arity == 1 {
        return front.put(b")");
    }
    front.put(b",");
    if second >= step {
        return;
    }
    put_formula(front, pieces, second);
    front.put(b")");
}

// Writes the formula of the last step into the front of the buffer, and answers its length; the rest of the buffer
// stays. A refusal leaves the whole buffer as it was: not found where there are no steps, and no room where there are
// too many steps or the text is longer than the buffer. A last step that stands for no formula, since an argument of
// a step is no earlier step or an arity is above 2, is refused for want of room too.
pub fn print(pieces: &[Piece], buffer: &mut [u8]) -> Result<usize, FirmwareRefusal>
    ensures { Prints pieces.now buffer.old buffer.new result }
{
    let count = pieces.len();
    if count == 0 {
        return Err(FirmwareRefusal::NotFound);
    }
    if count > MOST_STEPS {
        return Err(FirmwareRefusal::Room);
    }
    let sizes = text_sizes(pieces);
    let size = sizes.as_slice()[count - 1].ok_or(FirmwareRefusal::Room)?;
    if size > buffer.len() {
        return Err(FirmwareRefusal::Room);
    }
    let mut front = Front { out: buffer, at: 0 };
    put_formula(&mut front, pieces, count - 1);
    Ok(front.at)
}
