//! The office as plain data, and what each command does to it. Each program of the repository is proved to meet these
//! definitions.
#![tactic(auto)]

mod laws;

pub use laws::an_early_act_is_part_of_the_sweep;
pub use office_types::{
    Ask, ClassMeters, Command, Entry, LineKind, Query, Refusal, Reply, ReportLine, What,
};
