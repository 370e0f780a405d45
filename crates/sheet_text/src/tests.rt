use crate::parse::parse;
use crate::refusal::ParseError;
use crate::sheet::MeasureKind;
use std::alloc::Global;
use std::test::Fail;

const GOOD: &[u8] = b"channels P1 P2\nmeasure nodes\nlimit 10\nrow 5 3 2\nrow 8 5 3\n";

// Texts with the number, the line and the word of their first fault.
const FAULTS: [(&[u8], u8, usize, usize); 52] = [
    // The first word of a line, and lines that are missing.
    (b"", 19, 1, 1),
    (b"\n  \n\n", 19, 1, 1),
    (b"measure nodes", 19, 1, 1),
    (b"\n\nChannels A", 19, 3, 1),
    (b"\tchannels A", 19, 1, 1),
    (b"channels A\r\n", 20, 1, 2),
    (b"channels A", 19, 2, 1),
    (b"channels A\n\n\n", 19, 2, 1),
    (b"\nchannels A\n\nlimit 3", 19, 4, 1),
    (b"channels A\nmeasure nodes\n  \n", 19, 3, 1),
    (b"channels A\nmeasure nodes\nrow 1 1", 19, 3, 1),
    (b"channels A\nmeasure nodes\nlimit 3\n\nrows 1 1", 19, 5, 1),
    (
        b"channels A\nmeasure nodes\nlimit 3\nrow 1 1\nlimit 3",
        19,
        5,
        1,
    ),
    // The words of a line.
    (b"channels a", 20, 1, 2),
    (b"channels A 1B", 20, 1, 3),
    (b"channels Abcde", 20, 1, 2),
    (b"channels A B_", 20, 1, 3),
    (b"channels A B A", 20, 1, 4),
    (b"channels A A b", 20, 1, 3),
    (b"channels A b A", 20, 1, 3),
    (b"channels A\nmeasure", 20, 2, 1),
    (b"channels A\nmeasure nodes depth", 20, 2, 1),
    (b"channels A\nmeasure x y", 20, 2, 1),
    (b"channels A\nmeasure Nodes", 20, 2, 2),
    (b"channels A\nmeasure nodes\nlimit", 20, 3, 1),
    (b"channels A\nmeasure nodes\nlimit 1 2", 20, 3, 1),
    (b"channels A\nmeasure nodes\nlimit 12345678", 20, 3, 2),
    (b"channels A\nmeasure nodes\nlimit -1", 20, 3, 2),
    (b"channels A\nmeasure nodes\nlimit 3\nrow 1 x", 20, 4, 3),
    (b"channels A\nmeasure nodes\nlimit 3\nrow 1 256", 20, 4, 3),
    (b"channels A\nmeasure nodes\nlimit 3\nrow 1 0001", 20, 4, 3),
    (b"channels A\nmeasure nodes\nlimit 3\nrow 99 99 x", 20, 4, 4),
    // A malformed word comes before a count that is too great.
    (b"channels A B C D E F G H I j", 20, 1, 11),
    (b"channels A B C D E F G H I A", 20, 1, 11),
    (b"channels A B C D E F G H I", 6, 1, 1),
    (b"  channels A B C D E F G H I\nmeasure", 6, 1, 1),
    // The limit.
    (b"channels A\nmeasure nodes\nlimit 0", 5, 3, 2),
    (b"channels A\nmeasure nodes\nlimit 1000001", 5, 3, 2),
    (b"channels A\nmeasure nodes\nlimit 9999999\nx", 5, 3, 2),
    // Rows.
    (b"channels A\nmeasure nodes\nlimit 3\nrow", 1, 4, 1),
    (b"channels A\nmeasure nodes\nlimit 3\nrow 1", 1, 4, 1),
    (b"channels A\nmeasure nodes\nlimit 3\nrow 99 99 99", 1, 4, 1),
    (b"channels A\nmeasure nodes\nlimit 3\nrow 15 1", 2, 4, 2),
    (b"channels A\nmeasure nodes\nlimit 3\nrow 15 16", 2, 4, 2),
    (b"channels A\nmeasure nodes\nlimit 3\nrow 14 16", 2, 4, 3),
    (
        b"channels A B\nmeasure nodes\nlimit 3\n\n row 14 15 255",
        2,
        5,
        4,
    ),
    (b"channels\nmeasure depth\nlimit 3\nrow 15", 2, 4, 2),
    (b"channels\nmeasure depth\nlimit 3\nrow 1\nrow 1 1", 1, 5, 1),
    (
        b"channels\nmeasure depth\nlimit 3\nrow 1\nrow 1\nrow 1\nrow 1\nrow 1\nrow 1\nrow 1\nrow 1\nrow 1\nrow 1\nrow 1\nrow 1\nrow 1\nrow 1\nrow 1\nrow 1\nrow 1",
        3,
        20,
        1,
    ),
    (
        b"channels\nmeasure depth\nlimit 3\nrow 1\nrow 1\nrow 1\nrow 1\nrow 1\nrow 1\nrow 1\nrow 1\nrow 1\nrow 1\nrow 1\nrow 1\nrow 1\nrow 1\nrow 1\nrow 1\n\nrow 99 99",
        3,
        21,
        1,
    ),
    (
        b"channels\nmeasure depth\nlimit 3\nrow 1\nrow 1\nrow 1\nrow 1\nrow 1\nrow 1\nrow 1\nrow 1\nrow 1\nrow 1\nrow 1\nrow 1\nrow 1\nrow 1\nrow 1\nrow 1\nrow 256",
        20,
        20,
        2,
    ),
    (
        b"channels\nmeasure depth\nlimit 3\nrow 1\nrow 1\nrow 1\nrow 1\nrow 1\nrow 1\nrow 1\nrow 1\nrow 1\nrow 1\nrow 1\nrow 1\nrow 1\nrow 1\nrow 1\nrow 1\nrox",
        19,
        20,
        1,
    ),
];

// The number, the line and the word of a text's first fault; zeros where it has none.
fn fault(heap: Global, text: &[u8]) -> (u8, usize, usize) {
    match parse(heap, text) {
        Err(ParseError::Refused(fault)) => (fault.cause.number(), fault.spot.line, fault.spot.word),
        Err(ParseError::Memory) => (255, 0, 0),
        Ok(_) => (0, 0, 0),
    }
}

// A text with spaces behind it, so that it has so many bytes.
fn padded(heap: Global, text: &[u8], size: usize) -> Result<Vec<u8>, Fail> {
    let mut all = text.to_vec(heap)?;
    for _ in text.len()..size {
        all.push(b' ')?;
    }
    Ok(all)
}

#[test]
fn faults(rt: HostRuntime) -> Result<(), Fail> {
    for (text, number, line, word) in FAULTS {
        assert_eq!(rt; fault(rt.alloc(), text), (number, line, word));
    }
    assert_eq!(rt;
        fault(rt.alloc(), &padded(rt.alloc(), GOOD, 4096)?),
        (0, 0, 0)
    );
    assert_eq!(rt;
        fault(rt.alloc(), &padded(rt.alloc(), GOOD, 4097)?),
        (21, 1, 1)
    );
    assert_eq!(rt;
        fault(rt.alloc(), &padded(rt.alloc(), b"x", 4097)?),
        (21, 1, 1)
    );
    Ok(())
}

#[test]
fn sheets(rt: HostRuntime) -> Result<(), Fail> {
    match parse(rt.alloc(), GOOD) {
        Ok(sheet) => {
            assert_eq!(rt; sheet.channels.get(), 2);
            assert!(rt; sheet.names.len() == 2);
            assert_eq!(rt; sheet.names[0].from, 9);
            assert_eq!(rt; sheet.names[1].from, 12);
            assert_eq!(rt; sheet.names[1].size, 2);
            assert_eq!(rt; sheet.measure, MeasureKind::Nodes);
            assert_eq!(rt; sheet.limit.get(), 10);
            assert!(rt; sheet.rows.len() == 2);
            assert!(rt; sheet.rows[0].as_slice() == [5, 3, 2].as_slice());
            assert!(rt; sheet.rows[1].as_slice() == [8, 5, 3].as_slice());
            Ok(())
        }
        Err(_) => Err(Fail::new("the good sheet is refused")),
    }
}
