//! Whether an office is restored from a snapshot.
#![tactic(auto)]

mod amounts;
mod kept;
mod months;
mod quiet;
mod records;
mod snapshot;

pub use snapshot::is_restorable;
