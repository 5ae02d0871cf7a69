//! What a forecast prints: a table of the actions that would be done, and a table of what each month would cost.
#![tactic(auto)]

mod actions;
mod joined;
mod months;
mod names;

pub use joined::print_forecast;
