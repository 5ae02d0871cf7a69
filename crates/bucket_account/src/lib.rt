//! A bucket in memory: its records, its meters and its running counts, changed by the commands on it.
#![tactic(auto)]

mod account;
mod act;
mod adding;
mod booking;
mod change;
mod completing;
mod copying;
mod counting;
mod counts;
mod delete;
mod dropping;
mod incoming;
mod lifecycle;
mod moving;
mod parts;
mod put;
mod removing;
mod renewing;
mod restoring;
mod tags;
mod upload;
mod versioning;

pub use account::Account;
pub use act::rule_id;
pub use change::Done;
pub use counts::{Counts, NOTHING};
