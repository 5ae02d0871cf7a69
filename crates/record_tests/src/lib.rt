//! Tests of the crates of records: names, times, classes, versions, uploads, meters, rules, prices.
#![tactic(auto)]

#[cfg(test)]
mod accrual_tests;
#[cfg(test)]
mod class_rules_tests;
#[cfg(test)]
mod due_core_tests;
#[cfg(test)]
mod given;
#[cfg(test)]
mod moments_tests;
#[cfg(test)]
mod office_base_tests;
#[cfg(test)]
mod office_types_tests;
#[cfg(test)]
mod rules_core_tests;
#[cfg(test)]
mod stacks_tests;
#[cfg(test)]
mod tariff_tests;
#[cfg(test)]
mod uploads_tests;
#[cfg(test)]
mod usage_report_tests;
