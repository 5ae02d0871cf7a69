//! Tests of the keeper of bills in a table of SQLite.
#![tactic(auto)]

#[cfg(test)]
mod bill_keeper_tests;
