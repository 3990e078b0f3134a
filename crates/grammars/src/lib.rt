//! Grammars: opening bytes into a view, and the view as a machine.
#![tactic(auto)]

pub mod grammar;
pub mod open;
mod parts;
pub mod production;
pub mod questions;
mod rows;
mod sections;
pub mod symbol;
mod terminals;
#[cfg(test)]
mod tests;
