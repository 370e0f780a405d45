// What the formula that steps say is worth: its band at a reading, its column over rows, its weight.

#![tactic(auto)]

pub mod band;
pub mod column;
mod table;
pub mod weight;
mod worth;
