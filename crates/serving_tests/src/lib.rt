//! Tests of the crates of serving: turns, sessions, connections, the program.
#![tactic(auto)]

#[cfg(test)]
mod given;
#[cfg(test)]
mod http_front_tests;
#[cfg(test)]
mod interrupted_tests;
#[cfg(test)]
mod serve_tests;
#[cfg(test)]
mod tcp_tests;
#[cfg(test)]
mod turn_core_tests;
#[cfg(test)]
mod turns_tests;
