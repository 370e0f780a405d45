// An operator set that is written outside the operators' own crate: an owner's firmware offers one operator of its own.

#![tactic(auto)]

pub mod gate;
#[cfg(test)]
mod tests;
