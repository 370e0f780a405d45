ghost use Rattle.std.specs.Prelude.{◌≤◌, length};

// A place in the text: line and word, each counted from 1.
#[derive(Clone, Copy, PartialEq, Eq, Debug)]
pub struct Spot {
    pub line: usize,
    pub word: usize,
}

// A word's bytes, the index of the first of them in the text, and the word's place.
#[derive(Clone, Copy)]
pub struct Part<'a> {
    pub bytes: &'a [u8],
    pub from: usize,
    pub spot: Spot,
}

// What stands next in the text: a word, or the end of a line.
#[derive(Clone, Copy)]
pub enum Word<'a> {
    Part(Part<'a>),
    LineEnd,
}

// A text of at most 4,096 bytes that has been read up to the byte `at`: so many lines are ended, so many words stand before in the line that is read, and
// `last` is the line of the last word, or 0 before the first.
// The counts are of what is behind, from 0: the place due as a `Spot`, or `last` as an option, would each need a correction by one.
#[derive(Drop)]
pub struct Lexer<'a> {
    pub(crate) text: &'a [u8],
    pub(crate) at: usize,
    pub(crate) line: usize,
    pub(crate) word: usize,
    pub(crate) last: usize,
    ghost short: { length text.now ≤ 4096 },
    ghost within: { at ≤ length text.now },
    ghost lines: { line ≤ at },
    ghost words: { word ≤ at },
    ghost worded: { last ≤ at },
}
