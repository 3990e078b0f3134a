//! The readable text of a machine and of a fault.
#![tactic(auto)]

pub mod faults;
pub mod inputs;
pub mod kinds;
pub mod machines;
mod numbers;
pub mod opened;
mod rows;
pub mod views;
