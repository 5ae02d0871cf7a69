//! Tests of the crates above the journal: the desk, the generator of loads, and the table of stays.
#![tactic(auto)]

#[cfg(test)]
mod desk_core_tests;
#[cfg(test)]
mod generator_tests;
#[cfg(test)]
mod given;
#[cfg(test)]
mod stay_explain_tests;
