// Operator books: the operators that an owner writes as tables, and why a book is refused.

#![tactic(auto)]

pub mod book;
mod entry;
mod layout;
pub mod refusal;
#[cfg(test)]
mod tests;
