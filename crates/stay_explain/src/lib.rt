//! The table of stays of a journal: every interval in which something was billed, from which a bill can be checked by
//! hand.
#![tactic(auto)]

mod booking;
mod explaining;
mod ledger;
mod naming;
mod pages;
mod printing;
mod row;
mod stays;
mod table;
mod working;

pub use explaining::explain;
