// The finder: a sheet of rows, and the search level by level for the lightest formula that gives every wanted band.

#![tactic(auto)]

pub mod add;
pub mod advance;
pub mod bank;
pub mod build;
pub mod formula;
pub mod level;
pub mod look;
pub mod open;
pub mod problem;
pub mod reads;
pub mod sheet;
pub mod state;
pub mod steps;
pub mod work;
