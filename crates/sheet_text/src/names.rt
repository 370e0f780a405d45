ghost use Rattle.std.specs.Prelude.{◌≡◌, length};
ghost use Rattle.std.specs.List.{AllByRecursion};
ghost use Rattle.std.specs.Str.{bytes_eq};
ghost use Rattle.sheet_text.specs.Spans.{InText, name_at, repeats, name_ok};

use crate::forms::is_name;
use rows::span::Span;

// Whether the name stands at the span of the text.
// Not by the printing's `cut`: here the contract says that the span lies in the text, and there it may not.
fn stands_at(text: &[u8], span: &Span, name: &[u8]) -> bool
    requires { InText (length text.now) span.now }
    ensures { result ≡ bytes_eq (name_at text.now span.now) name.now }
{
    &text[span.from..span.from + span.size] == name
}

// Whether a name is one of those that stand in the text before it.
fn is_repeated(text: &[u8], names: &[Span], name: &[u8]) -> bool
    requires { AllByRecursion (InText (length text.now)) names.now }
    ensures { result ≡ repeats text.now names.now name.now }
{
    names.iter().any(|span| stands_at(text, span, name))
}

// Whether a word is a channel name that stands for the first time.
pub(crate) fn is_new_name(text: &[u8], names: &[Span], name: &[u8]) -> bool
    requires { AllByRecursion (InText (length text.now)) names.now }
    ensures { result ≡ name_ok text.now names.now name.now }
{
    is_name(name) && !is_repeated(text, names, name)
}
