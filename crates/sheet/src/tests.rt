use crate::answer::answer_to;
use std::test::Fail;

// Sheet texts, and what the program prints for each.
const SHEETS: [(&str, &str); 31] = [
    (
        "channels P1 P2\nmeasure nodes\nlimit 10\nrow 5 3 2\nrow 8 5 3\n",
        "level 1 4\nlevel 2 7\nfound 3 steps 3\nsum(P1,P2)\n",
    ),
    (
        "channels P1 P2\nmeasure nodes\nlimit 3\nrow 5 3 2\nrow 8 5 3",
        "level 1 4\nlevel 2 7\nfound 3 steps 3\nsum(P1,P2)\n",
    ),
    (
        "channels P1 P2\nmeasure nodes\nlimit 2\nrow 5 3 2\nrow 8 5 3\n",
        "level 1 4\nnone\n",
    ),
    (
        "channels P1 P2\nmeasure depth\nlimit 10\nrow 5 3 2\nrow 8 5 3\n",
        "level 1 4\nfound 2 steps 3\nsum(P1,P2)\n",
    ),
    (
        "channels P1\nmeasure nodes\nlimit 10\n",
        "found 1 steps 1\nP1\n",
    ),
    (
        "channels\nmeasure nodes\nlimit 10\n",
        "found 1 steps 1\nnil\n",
    ),
    (
        "channels\nmeasure nodes\nlimit 10\nrow 2\n",
        "level 1 2\nfound 2 steps 2\nnext(one)\n",
    ),
    (
        "\n\n  channels  A  \n\nmeasure nodes\n\nlimit 0010\nrow 012 3\n",
        "level 1 3\nlevel 2 5\nlevel 3 8\nlevel 4 9\nlevel 5 11\nlevel 6 12\nfound 7 steps 4\nsum(A,sum(A,sum(A,A)))\n",
    ),
    ("", "refused text 19 line 1 word 1\n"),
    ("\n\n", "refused text 19 line 1 word 1\n"),
    ("Channels A\n", "refused text 19 line 1 word 1\n"),
    ("channels A\n", "refused text 19 line 2 word 1\n"),
    (
        "channels A\n\n\nmeasure nodes\n\n",
        "refused text 19 line 5 word 1\n",
    ),
    (
        "channels A\nmeasure nodes\nlimit 4\nrows 1 2\n",
        "refused text 19 line 4 word 1\n",
    ),
    ("channels A a\n", "refused text 20 line 1 word 3\n"),
    ("channels A B A\n", "refused text 20 line 1 word 4\n"),
    ("channels A\nmeasure\n", "refused text 20 line 2 word 1\n"),
    (
        "channels A\nmeasure nodes depth\n",
        "refused text 20 line 2 word 1\n",
    ),
    (
        "channels A\nmeasure node\n",
        "refused text 20 line 2 word 2\n",
    ),
    (
        "channels A\nmeasure nodes\nlimit 12345678\n",
        "refused text 20 line 3 word 2\n",
    ),
    (
        "channels A\nmeasure nodes\nlimit 0\n",
        "refused finder 5 line 3 word 2\n",
    ),
    (
        "channels A\nmeasure nodes\nlimit 1000001\n",
        "refused finder 5 line 3 word 2\n",
    ),
    (
        "channels A B C D E F G H I\nmeasure node\n",
        "refused finder 6 line 1 word 1\n",
    ),
    (
        "channels A B C D E F G H I i\n",
        "refused text 20 line 1 word 11\n",
    ),
    (
        "channels A\nmeasure nodes\nlimit 4\nrow\n",
        "refused row 1 line 4 word 1\n",
    ),
    (
        "channels A\nmeasure nodes\nlimit 4\nrow 1\n",
        "refused row 1 line 4 word 1\n",
    ),
    (
        "channels A\nmeasure nodes\nlimit 4\nrow 1 256\n",
        "refused text 20 line 4 word 3\n",
    ),
    (
        "channels A\nmeasure nodes\nlimit 4\nrow 15 3\n",
        "refused row 2 line 4 word 2\n",
    ),
    (
        "channels A\nmeasure nodes\nlimit 4\nrow 14 16\n",
        "refused row 2 line 4 word 3\n",
    ),
    (
        "channels A\nmeasure nodes\nlimit 4\nrow 14 255\n",
        "refused row 2 line 4 word 3\n",
    ),
    (
        "channels A\nmeasure nodes\nlimit 4\nrow 14 15\r\n",
        "refused text 20 line 4 word 3\n",
    ),
];

#[test]
fn sheets(rt: HostRuntime) -> Result<(), Fail> {
    for (text, lines) in SHEETS {
        let out = answer_to(rt.alloc(), text.as_bytes())?;
        assert!(rt; out.as_str() == lines, "{}", text);
    }
    Ok(())
}
