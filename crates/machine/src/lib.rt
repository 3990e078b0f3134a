//! Rows, faults and the machine interface: what a pushdown machine tells, and what its runs are.
#![tactic(auto)]

pub mod fault;
pub mod machine;
pub mod row;
