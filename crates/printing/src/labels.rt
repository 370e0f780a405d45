ghost use Rattle.std.specs.Prelude.{◌≡◌};
ghost use Rattle.printing.specs.Labels.{part, trimmed_of, label_of};

use formulas::steps::Top;
use rows::span::Span;

// The `size` bytes from `from` on, or none where there are not so many.
// Not one with the sheet text's look at a name: there the contract says that the span lies in the text, and here it may not.
fn cut(bytes: &[u8], from: usize, size: usize) -> &[u8]
    ensures { result.now ≡ part bytes.now from size }
{
    bytes
        .get(from..)
        .and_then(|rest| rest.get(..size))
        .unwrap_or(&[])
}

// The bytes without the spaces at their end.
fn trimmed(bytes: &[u8]) -> &[u8]
    ensures { result.now ≡ trimmed_of bytes.now }
{
    let spaces = bytes.iter().rev().take_while(|b| **b == b' ').count();
    &bytes[..bytes.len() - spaces]
}

// The name of a channel or an operator. An operator's is its four bytes of `names` without the spaces at their end,
// a channel's is its span of `text`. The name of one that is not there is empty.
pub fn label<'a>(text: &'a [u8], names: &'a [u8], spans: &[Span], top: Top) -> &'a [u8]
    ensures { result.now ≡ label_of text.now names.now spans.now top }
{
    match top {
        Top::Operator(number) => trimmed(cut(names, usize::from(number) * 4, 4)),
        Top::Channel(number) => spans
            .get(usize::from(number))
            .map_or(&[], |span| cut(text, span.from, span.size)),
    }
}
