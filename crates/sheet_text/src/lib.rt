// Reads a sheet text into a sheet, or says its first fault with line and word.

#![tactic(auto)]

mod forms;
pub mod lexer;
mod names;
pub mod parse;
mod parser;
pub mod refusal;
pub mod sheet;
#[cfg(test)]
mod tests;
mod words;
