//! What a checkpoint keeps of an office, and laws about it.
#![tactic(auto)]

mod laws;
mod snapshot;

pub use laws::{
    every_restorable_snapshot_shows_an_office, histories_have_restorable_snapshots,
    sums_and_open_stays_make_the_meters,
};
pub use snapshot::{BucketPart, Snapshot};
