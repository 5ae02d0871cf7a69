//! The office in memory: its buckets, its tariffs and its closed months, changed by commands.
#![tactic(auto)]

mod closing;
mod commands;
mod copying;
mod machine;
mod office;
mod queries;
mod reports;
mod restoring;
mod snapshots;
mod tariffs;

pub use office::Office;
pub use tariffs::in_force;
