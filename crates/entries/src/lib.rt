//! The entries of a table's sections: how each sort is laid out in bytes and ordered, and the check of a section.
#![tactic(auto)]

pub mod bytes;
pub mod entry;
pub mod file;
pub mod row;
pub mod section;
pub mod sizes;
pub mod state;
