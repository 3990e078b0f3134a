//! The listing of a machine's marks: a line for each row, and a line that sums them up.
#![tactic(auto)]

mod draft;
mod marked;
pub mod opened;
pub mod output;
pub mod texts;
