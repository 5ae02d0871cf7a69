//! What a bucket used: byte-milliseconds by month and storage class, early quantities and moves.
#![tactic(auto)]

mod meters;
mod monthly;
mod rows;

pub use meters::Meters;
pub use monthly::MonthSums;
