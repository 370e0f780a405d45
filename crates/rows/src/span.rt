// Where a channel's name stands in the sheet text. Not the library's `Range`, which is not `Copy`, where a span is.
#[derive(Clone, Copy)]
pub struct Span {
    pub from: usize,
    pub size: usize,
}
