//! The tables of a document, the disks that they ask for, and the outcomes that are counted and printed.
#![tactic(auto)]

mod disks;
mod outcomes;
mod plans;
mod replies;
mod tables;

pub use disks::{SETUP, disk_of, with_byte};
pub use outcomes::{Ranges, Tally};
pub use plans::{Plan, plan_of};
pub use replies::brief_of;
pub use tables::{Document, Table};
