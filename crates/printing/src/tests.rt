use crate::labels::label;
use crate::pieces::Piece;
use crate::writing::print;
use formulas::steps::Top;
use refusals::refusal::Refusal;
use rows::span::Span;
use std::test::Fail;

// sum(P1,P2), ten bytes.
fn sum() -> [Piece<'static>; 3] {
    let leaf = [0, 0];
    [
        Piece {
            label: b"P1",
            arity: 0,
            args: leaf,
        },
        Piece {
            label: b"P2",
            arity: 0,
            args: leaf,
        },
        Piece {
            label: b"sum",
            arity: 2,
            args: [0, 1],
        },
    ]
}

#[test]
fn prints_into_the_front(rt: HostRuntime) -> Result<(), Fail> {
    let mut buffer = [b'.'; 12];
    match print(&sum(), &mut buffer) {
        Ok(size) => assert_eq!(rt; size, 10),
        Err(_) => return Err(Fail::new("refused")),
    }
    assert!(rt; buffer == *b"sum(P1,P2)..");
    Ok(())
}

#[test]
fn refuses_a_small_buffer(rt: HostRuntime) -> Result<(), Fail> {
    let mut buffer = [b'.'; 9];
    match print(&sum(), &mut buffer) {
        Ok(_) => return Err(Fail::new("printed")),
        Err(refusal) => assert_eq!(rt; refusal.number(), 9),
    }
    assert!(rt; buffer == [b'.'; 9]);
    Ok(())
}

// Each step is the sum of the one before with itself, so the last one's text has 81,916 bytes.
#[test]
fn refuses_shared_steps(rt: HostRuntime) -> Result<(), Fail> {
    let mut pieces = [Piece {
        label: b"P",
        arity: 0,
        args: [0, 0],
    }; 15];
    for i in 1..15 {
        pieces[i] = Piece {
            label: b"s",
            arity: 2,
            args: [i - 1, i - 1],
        };
    }
    let mut buffer = [0; 100];
    match print(&pieces, &mut buffer) {
        Ok(_) => Err(Fail::new("printed")),
        Err(refusal) => {
            assert_eq!(rt; refusal.number(), 9);
            Ok(())
        },
    }
}

#[test]
fn names_channels_and_operators(rt: HostRuntime) {
    let text = b"P1 P22";
    let names = b"addssum ";
    let spans = [Span { from: 0, size: 2 }, Span { from: 3, size: 3 }];
    assert!(rt; label(text, names, &spans, Top::Channel(1)) == b"P22".as_slice());
    assert!(rt; label(text, names, &spans, Top::Operator(1)) == b"sum".as_slice());
    assert!(rt; label(text, names, &spans, Top::Operator(2)).is_empty());
}
