//! The report of what a month costs, as CSV and as a table to read.
#![tactic(auto)]

mod csv_text;
mod names;
mod table;

pub use csv_text::report_csv;
pub use table::report_text;
