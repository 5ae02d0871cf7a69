//! Writing a CSV text row by row.
#![tactic(auto)]

mod sheet;

pub use sheet::{Sheet, finish, put_row, start};
