//! The report of every orderly office may be posted: what calls of `post_month` ask of the lines, as a law.
#![tactic(auto)]

mod laws;

pub use laws::a_report_may_be_posted;
