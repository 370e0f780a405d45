// A step to be printed: its name, its arity and the numbers of its arguments' steps, of which those past the arity are not read.
// Not a lent slice of just as many numbers: the caller works them out from a step's own two, and holds no list to lend.
#[derive(Clone, Copy)]
pub struct Piece<'a> {
    pub label: &'a [u8],
    pub arity: u8,
    pub args: [usize; 2],
}
