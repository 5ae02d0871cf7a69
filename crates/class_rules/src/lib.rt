//! Storage classes: their names and ranks, the moves between them, and what is billed in them.
#![tactic(auto)]

mod billing;
mod class;

pub use billing::{Lines, billed, marker_lines, part_lines};
pub use class::{Class, least_duration, may_go, names_differ, rank};
