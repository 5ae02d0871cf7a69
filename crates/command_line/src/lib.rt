//! What the words of a command line ask for.
#![tactic(auto)]

mod laws;
mod line;
mod numbers;
mod words;

pub use laws::{exact_numbers, workers_in_range};
pub use line::{BillAsked, CommandLine, ForecastAsked, LineFault, ReportAsked, read_line};
