use rows::channels::ChannelCount;
use rows::limit::Limit;
use rows::span::Span;

// How a formula is weighed: by its nodes or by its depth.
#[derive(Clone, Copy, PartialEq, Eq, Debug)]
pub enum MeasureKind {
    Nodes,
    Depth,
}

// A sheet as a text says it: where its channels' names stand, what it is opened with, and each row's bytes, the wanted band first.
#[derive(Drop)]
pub struct SheetText {
    pub names: Vec<Span>,
    pub channels: ChannelCount,
    pub measure: MeasureKind,
    pub limit: Limit,
    pub rows: Vec<Vec<u8>>,
}
