//! The program over any source, replies, disk, clock, port and keeper of bills.
#![tactic(auto)]

mod carrying;
mod lines;
mod program;
mod serve;

pub use carrying::carry_out;
pub use office_commands::{End, JOURNAL_LIMIT, refuse_words};
pub use program::office;
