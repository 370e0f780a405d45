// The law of readings: a formula that was handed in as a record, and its band at each reading.

#![tactic(auto)]

pub mod law;
