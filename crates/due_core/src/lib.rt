//! Which lifecycle actions are due in a bucket, and in which order they are done.
#![tactic(auto)]

mod action;
mod asked;
mod bucket;
mod findings;
mod found;
mod laws;
mod walk;

pub use action::{Action, ActionKind, Candidate, Target};
pub use bucket::Bucket;
pub use laws::{the_choice_is_the_least, the_choice_stays, the_queue_is_one};
pub use walk::{candidates, chosen};
