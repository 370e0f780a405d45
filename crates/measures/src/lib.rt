// Weights of formulas: what a measure is, and the two that there are, charge and depth.

#![tactic(auto)]

pub mod charge;
pub mod depth;
pub mod measure;
pub mod weight;
