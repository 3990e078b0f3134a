//! Writing a table into the caller's output: the starts first, then the accepting states, then the rows.
#![tactic(auto)]

pub mod section;
pub mod stage;
pub mod stages;
pub mod table;
#[cfg(test)]
mod tests;
