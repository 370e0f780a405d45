// Operators on bands: what a set of them is, their names, the built-in set, a pair of two sets, and a mask over a set.

#![tactic(auto)]

pub mod builtin;
pub mod mask;
pub mod named;
pub mod pair;
pub mod set;
