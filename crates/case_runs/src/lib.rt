//! Commands of the program over a disk, a clock, an input and a port in memory, and what is printed of them.
#![tactic(auto)]

mod running;
mod telling;

pub use running::{Given, Ran, given_command, given_messages, run, run_with};
pub use telling::{tell, tell_others};
