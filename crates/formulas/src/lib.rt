// Formulas as steps: each different part once, an argument before what uses it, the formula itself last.

#![tactic(auto)]

pub mod steps;
