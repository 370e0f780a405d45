ghost use Rattle.std.specs.Prelude.{◌≡◌, ℕ, ◌<◌, Bool, length};
ghost use Rattle.std.specs.List.{prefix_len};
ghost use Rattle.operators.specs.Names.{letter};
ghost use Rattle.books.specs.Layout.{book_length, count_of, tables_at};
ghost use Rattle.refusals.specs.Numbers.{refused_by};
ghost use Rattle.books.specs.Numbers.{refusal_of};
ghost use Rattle.books.specs.Refusal.{book_refusal, bytes_refusal, first, bad_name, bad_arity, bad_cell, begins_name, all_spaces, used as is_used};

use crate::layout::{BANDS, HEAD_WIDTH, MOST_ENTRIES, NAME_WIDTH, TABLE_WIDTH};
use crate::refusal::BookRefusal;
use operators::set::MARK;

// Where the tables of a book begin.
pub(crate) fn tables(book: &[u8]) -> usize
    requires { 0 < length book.now }
    ensures { result ≡ tables_at book.now }
{
    1 + HEAD_WIDTH * book[0] as usize
}

// How many letters a to z stand in front.
fn letters(bytes: &[u8]) -> usize
    ensures { result ≡ prefix_len letter bytes.now }
{
    bytes.iter().take_while(|b| b.is_ascii_lowercase()).count()
}

fn spaces_only(bytes: &[u8]) -> bool
    ensures { result ≡ all_spaces bytes.now }
{
    bytes.iter().all(|b| *b == b' ')
}

// Whether a good name can go on after these bytes: letters, at least one, and then spaces.
fn begins(bytes: &[u8]) -> bool
    ensures { result ≡ begins_name bytes.now }
{
    let n = letters(bytes);
    n >= 1 && spaces_only(&bytes[n..])
}

// Whether the byte at `p` is one of a name by which no good name can go on.
fn wrong_name(book: &[u8], p: usize) -> bool
    requires { p < length book.now }
    ensures { result ≡ bad_name book.now p }
{
    if p < 1 || p >= tables(book) {
        return false;
    }
    let place = (p - 1) % HEAD_WIDTH;
    place < NAME_WIDTH && !begins(&book[p - place..p + 1])
}

// Whether the byte at `p` is an arity above 2.
fn wrong_arity(book: &[u8], p: usize) -> bool
    requires { p < length book.now }
    ensures { result ≡ bad_arity book.now p }
{
    p >= 1 && p < tables(book) && (p - 1) % HEAD_WIDTH == NAME_WIDTH && book[p] > 2
}

// Whether an operator of this arity uses a place of its table.
fn used(arity: u8, place: usize) -> bool
    ensures { result ≡ is_used arity place }
{
    // an arity is a number and no kind: how many arguments there are
    match arity {
        0 => place < 1,
        1 => place < BANDS,
        _ => true,
    }
}

// Whether the byte at `p` is a used table byte above 15, or an unused one that is not 0.
fn wrong_cell(book: &[u8], p: usize) -> bool
    requires { (length book.now ≡ book_length (count_of book.now)) × (p < length book.now) }
    ensures { result ≡ bad_cell book.now p }
{
    let start = tables(book);
    if p < start {
        return false;
    }
    let arity = book[1 + HEAD_WIDTH * ((p - start) / TABLE_WIDTH) + NAME_WIDTH];
    if used(arity, (p - start) % TABLE_WIDTH) {
        book[p] > MARK
    } else {
        book[p] != 0
    }
}

// The first place below `n` where a rule holds.
fn first<F: Fn(usize) -> bool>(n: usize, rule: F) -> Option<usize>
    requires { (p : ℕ) → p < n → F.pre rule p }
    ensures { (test : ℕ → Bool) → ((p : ℕ) (told : Bool) → p < n → F.post rule p told → told ≡ test p) → result ≡ first test n }
{
    // by hand: with `find` the checker asked that the rule can be called at every number, and the proof did not close
    for p in 0..n {
        if rule(p) {
            return Some(p);
        }
    }
    None
}

// Refuses the first name at fault, then the first arity, then the first byte of a table.
fn check_bytes(book: &[u8]) -> Result<(), BookRefusal>
    requires { length book.now ≡ book_length (count_of book.now) }
    ensures { refused_by refusal_of result ≡ bytes_refusal book.now }
{
    let n = book.len();
    if let Some(p) = first(n, |p| wrong_name(book, p)) {
        return Err(BookRefusal::Name(p));
    }
    if let Some(p) = first(n, |p| wrong_arity(book, p)) {
        return Err(BookRefusal::Arity(p));
    }
    if let Some(p) = first(n, |p| wrong_cell(book, p)) {
        return Err(BookRefusal::Cell(p));
    }
    Ok(())
}

// Whether the bytes are a book.
pub(crate) fn check(book: &[u8]) -> Result<(), BookRefusal>
    ensures { refused_by refusal_of result ≡ book_refusal book.now }
{
    if book.is_empty() {
        return Err(BookRefusal::Length);
    }
    if book[0] as usize > MOST_ENTRIES {
        return Err(BookRefusal::Count);
    }
    if book.len() != 1 + (HEAD_WIDTH + TABLE_WIDTH) * book[0] as usize {
        return Err(BookRefusal::Length);
    }
    check_bytes(book)
}
