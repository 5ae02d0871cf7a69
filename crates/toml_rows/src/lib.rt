//! Reads a document of TOML into rows: a few bytes for each part of a key, and no map for each table.
#![tactic(auto)]

mod data;
mod keys;
mod names;
mod reading;
mod row;
mod tables;
mod values;
mod walk;

pub use data::{elements, inline, integer, string};
pub use keys::Keys;
pub use reading::read;
pub use walk::Found;
