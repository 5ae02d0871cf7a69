//! A reproducible load: commands that are drawn from a number, made on an office over a disk in memory, and counted.
#![tactic(auto)]

mod clock;
mod draft;
mod draws;
mod generating;
mod place;
mod tally;
mod work;

pub use generating::generate;
pub use tally::Tally;
