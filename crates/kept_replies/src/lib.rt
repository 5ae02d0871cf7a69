//! The replies to commands with a token, found by their tokens and dropped from the oldest on.
#![tactic(auto)]

mod replies;

pub use replies::{KeptReplies, MOST_KEPT};
