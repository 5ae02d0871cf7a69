//! Tests of the crates of requests: messages, routes and what they ask for.
#![tactic(auto)]

#[cfg(test)]
mod http_asks_tests;
#[cfg(test)]
mod http_routes_tests;
#[cfg(test)]
mod http_wire_tests;
#[cfg(test)]
mod meanings;
#[cfg(test)]
mod route_table_tests;
