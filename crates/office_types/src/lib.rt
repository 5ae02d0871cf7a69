//! What clients ask the office, and what it replies.
#![tactic(auto)]

mod command;
mod commands;
mod kept;
mod refusal;
mod reply;
mod token;

pub use command::{Ask, Command, Entry, Query};
pub use commands::commands_that_are_the_same;
pub use kept::{Kept, marker_told, number_told};
pub use refusal::{Refusal, What};
pub use reply::{ClassMeters, LineKind, Price, Reply, ReportLine};
pub use token::Token;
