//! Which rows of a machine some run takes, and which some accepting run takes.
#![tactic(auto)]

mod backward;
pub mod counts;
mod drawing;
mod edges;
mod forward;
mod good;
mod graph;
mod judging;
mod levels;
mod mark;
pub mod marks;
mod matrix;
pub mod need;
mod nodes;
mod order;
mod reach;
mod sets;
mod solving;
mod source;
mod step;
pub mod useful;
mod walk;
mod ways;
mod work;
