// Lists in fixed memory: of at most so many values, which the type says, with no heap.

#![tactic(auto)]

pub mod list;
