//! Tests of the crates of texts: what is read and what is printed.
#![tactic(auto)]

#[cfg(test)]
mod command_line_tests;
#[cfg(test)]
mod entry_codec_tests;
#[cfg(test)]
mod fault_rows;
#[cfg(test)]
mod flaw_rows;
#[cfg(test)]
mod given;
#[cfg(test)]
mod http_bodies_tests;
#[cfg(test)]
mod http_text_tests;
#[cfg(test)]
mod rules_json_tests;
