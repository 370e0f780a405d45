// What a sheet is opened with and what its rows are: channel count, limit, row.

#![tactic(auto)]

pub mod channels;
pub mod limit;
pub mod read;
pub mod row;
pub mod span;
