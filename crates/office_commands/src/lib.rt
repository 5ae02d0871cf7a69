//! The commands of the program that need no port, over any source, replies, disk and clock.
#![tactic(auto)]

mod billing;
mod configuration;
mod end;
mod explaining;
mod forecasting;
mod lines;
mod loading;
mod making;
mod reporting;
mod running;
mod saying;

pub use billing::bill;
pub use configuration::ConfigurationFault;
pub use end::{End, JOURNAL_LIMIT};
pub use explaining::stays;
pub use forecasting::foretell;
pub use lines::{MEMORY, STORE, USAGE, end_line, note_line, refuse_words, usage};
pub use loading::load;
pub use making::init;
pub use reporting::report;
pub use running::{end_at_clock, has_begun, refuse, run, store_failed};
