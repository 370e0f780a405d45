// Operator sets of which one is chosen at run time.

#![tactic(auto)]

pub mod any_set;
pub mod asking;
