//! What a proposed lifecycle configuration would do to a bucket by a day, and charge.
#![tactic(auto)]

mod fault;
mod forecast;
mod laws;
mod lines;

pub use fault::ForecastFault;
pub use forecast::Forecast;
pub use laws::{acts_in_between_change_no_forecast, every_forecast_is_one};
pub use lines::ForecastLine;
