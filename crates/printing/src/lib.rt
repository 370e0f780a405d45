// Prints a formula given as steps: a name alone, or a name and its arguments in brackets, as `sum(P1,next(P2))`.

#![tactic(auto)]

pub mod labels;
pub mod pieces;
mod sizes;
#[cfg(test)]
mod tests;
pub mod writing;
