// What each caller can be refused. A refusal has a number, which is part of the product, and a place.

#![tactic(auto)]

pub mod firmware;
pub mod record;
pub mod refusal;
pub mod sheet;
