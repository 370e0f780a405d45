// Worked sheets, run through the library's calls.

#![tactic(auto)]

#[cfg(test)]
mod sheets;
