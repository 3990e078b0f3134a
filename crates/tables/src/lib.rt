//! Tables: opening bytes into a view, and the view as a machine.
#![tactic(auto)]

pub mod open;
pub mod questions;
pub mod table;
