//! Tests of what an office is opened from: checkpoints that the end of a session saved, and damaged journals.
#![tactic(auto)]

#[cfg(test)]
mod checkpoint_tests;
#[cfg(test)]
mod damage_tests;
#[cfg(test)]
mod forgetful_tests;
#[cfg(test)]
mod look_tests;
#[cfg(test)]
mod parts;
#[cfg(test)]
mod sessions;
#[cfg(test)]
mod slots_tests;
