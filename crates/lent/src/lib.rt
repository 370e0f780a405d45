// Buffers that a caller lends, written from the front on.

#![tactic(auto)]

pub mod front;
