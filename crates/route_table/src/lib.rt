//! A table of patterns, each with a value, and what it gives for a path.
#![tactic(auto)]

mod laws;
mod parts;
mod shape;
mod table;

pub use laws::one_answer;
pub use parts::Parts;
pub use shape::Shape;
pub use table::{Found, Table};
