// A measure written outside the library: two measures added up, as charge and depth.

#![tactic(auto)]

pub mod added;
#[cfg(test)]
mod tests;
