//! Moments: milliseconds since 1970-01-01 00:00 UTC, before 2100; midnights, months and the texts of dates.
#![tactic(auto)]

mod date;
mod digits;
mod due;
mod moment;
mod month;
mod print;

pub use date::{midnights_read_back, read_date, read_month};
pub use due::{due_after, next_midnights, up};
pub use moment::{END, Moment, MomentRefusal};
pub use month::{Month, calendar_months, month_of, month_window};
pub use print::print_moment;
