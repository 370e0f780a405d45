use crate::book::Book;
use operators::named::Named;
use operators::set::OperatorSet;
use refusals::refusal::Refusal;
use std::test::Fail;

// A book of `flip`, 14 - a, and `lt`, 1 where a is below b and else 0.
fn sample() -> [u8; 461] {
    let mut book = [0; 461];
    book[0] = 2;
    book[1..6].copy_from_slice(b"flip\x01");
    book[6..11].copy_from_slice(b"lt  \x02");
    for a in 0..15 {
        book[11 + a] = 14 - a as u8;
        for b in a + 1..15 {
            book[236 + 15 * a + b] = 1;
        }
    }
    book
}

// The bytes that are changed in the sample, and the number and the place that it is then refused with.
const FAULTS: [(&[(usize, u8)], u8, usize); 13] = [
    (&[(0, 9)], 11, 0),
    (&[(0, 1)], 10, 0),
    (&[(1, b' ')], 14, 1),
    (&[(2, b' ')], 14, 3),
    (&[(9, b't')], 14, 9),
    (&[(7, b'L')], 14, 7),
    (&[(5, 3)], 12, 5),
    (&[(10, 255)], 12, 10),
    (&[(11, 16)], 13, 11),
    (&[(26, 1)], 13, 26),
    (&[(460, 16)], 13, 460),
    (&[(5, 3), (9, b't')], 14, 9),
    (&[(10, 3), (11, 16)], 12, 10),
];

#[test]
fn offers_what_the_bytes_say(rt: HostRuntime) -> Result<(), Fail> {
    let mut book = Book::empty();
    assert_eq!(rt; book.count(), 0);
    book.fill(&sample())?;
    assert_eq!(rt; book.count(), 2);
    assert_eq!(rt; book.name(0), *b"flip");
    assert_eq!(rt; book.name(1), *b"lt  ");
    assert_eq!(rt; book.name(2), *b"    ");
    assert_eq!(rt; book.arity(0), 1);
    assert_eq!(rt; book.arity(1), 2);
    assert_eq!(rt; book.band(0, &[3]), 11);
    assert_eq!(rt; book.band(0, &[15]), 15);
    assert_eq!(rt; book.band(1, &[3, 4]), 1);
    assert_eq!(rt; book.band(1, &[4, 3]), 0);
    assert_eq!(rt; book.band(1, &[4]), 15);
    book.fill(&[0])?;
    assert_eq!(rt; book.count(), 0);
    Ok(())
}

// The number and the place that a book is refused with, or zeros.
fn refused(book: &mut Book, bytes: &[u8]) -> (u8, usize) {
    match book.fill(bytes) {
        Ok(()) => (0, 0),
        Err(refusal) => (refusal.number(), refusal.place()),
    }
}

fn changed(changes: &[(usize, u8)]) -> [u8; 461] {
    let mut bytes = sample();
    for (p, byte) in changes {
        if *p < 461 {
            bytes[*p] = *byte;
        }
    }
    bytes
}

#[test]
fn refuses_a_bad_book(rt: HostRuntime) {
    let mut book = Book::empty();
    assert_eq!(rt; refused(&mut book, &sample()), (0, 0));
    for (changes, number, place) in FAULTS {
        assert_eq!(rt; refused(&mut book, &changed(changes)), (number, place));
    }
    assert_eq!(rt; refused(&mut book, &[]), (10, 0));
    assert_eq!(rt; book.count(), 2);
}
