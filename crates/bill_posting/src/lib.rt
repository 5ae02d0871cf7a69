//! Posting the bills of a closed month, once.
#![tactic(auto)]

mod laws;
mod posting;
mod tally;

pub use laws::{bills_of_a_report, posting_acts_once};
pub use posting::{PostFault, Receipt, post_month};
