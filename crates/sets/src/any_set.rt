use books::book::Book;
use operators::builtin::Builtin;
use operators::mask::Mask;
use operators::pair::Pair;

// Two built-in sets as one.
pub type Double = Pair<Builtin, Builtin>;

// Four built-in sets as one.
pub type Quad = Pair<Double, Double>;

// A set that is chosen at run time: one of these, with what it holds.
#[derive(Clone, Copy)]
pub enum AnySet {
    Builtin(Builtin),
    Book(Book),
    BuiltinThenBook(Pair<Builtin, Book>),
    BookThenBuiltin(Pair<Book, Builtin>),
    MaskedBuiltin(Mask<Builtin>),
    MaskedBook(Mask<Book>),
    MaskedPair(Mask<Pair<Builtin, Book>>),
    TwoMasks(Pair<Mask<Builtin>, Mask<Builtin>>),
    Four(Quad),
    // eight times nine operators, cut off at 64
    Eight(Pair<Quad, Quad>),
}
