//! Tests of the crates of the office below its desk: disks, the journal, the office in memory.
#![tactic(auto)]

#[cfg(test)]
mod disk_core_tests;
#[cfg(test)]
mod given;
#[cfg(test)]
mod meter_journal_tests;
#[cfg(test)]
mod office_machine_tests;
