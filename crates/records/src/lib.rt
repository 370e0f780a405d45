// Records: the bytes of a formula's steps, read and written.

#![tactic(auto)]

mod bytes;
mod code;
pub mod examples;
pub mod read;
pub mod rewrite;
pub mod size;
pub mod write;
