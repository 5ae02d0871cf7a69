//! Two files that keep a checkpoint: a crash at any moment leaves the last one or the new one.
#![tactic(auto)]

mod body;
mod fault;
mod finding;
mod heads;
mod saving;
mod writing;

pub use body::Body;
pub use fault::SaveFault;
pub use finding::load;
pub use saving::save;
