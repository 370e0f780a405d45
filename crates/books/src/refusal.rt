ghost use Rattle.books.specs.Numbers.{refusal_of};

use refusals::refusal::Refusal;

// Why a book is refused, with the place of the first byte at fault.
#[derive(Clone, Copy, PartialEq, Eq, Debug)]
pub enum BookRefusal {
    // An empty book, or a length that does not fit the number of operators.
    Length,
    // More than eight operators.
    Count,
    // A byte of a name by which no good name can go on.
    Name(usize),
    // An arity above 2.
    Arity(usize),
    // A used table byte above 15, or an unused one that is not 0.
    Cell(usize),
}

impl Refusal for BookRefusal {
    ghost meaning = { refusal_of };

    fn number(self) -> u8 {
        match self {
            BookRefusal::Length => 10,
            BookRefusal::Count => 11,
            BookRefusal::Arity(_) => 12,
            BookRefusal::Cell(_) => 13,
            BookRefusal::Name(_) => 14,
        }
    }

    fn place(self) -> usize {
        match self {
            BookRefusal::Name(place) | BookRefusal::Arity(place) | BookRefusal::Cell(place) =>
                place,
            BookRefusal::Length | BookRefusal::Count => 0,
        }
    }
}
