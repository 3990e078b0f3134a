//! Reads back the text of a machine. A reader takes the text to what stands in front and the rest of it.
#![tactic(auto)]

mod found;
pub mod lists;
mod literals;
mod numbers;
pub mod reading;
mod rows;
mod states;
pub mod unread;
mod words;
