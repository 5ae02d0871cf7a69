// Calendar months and their windows.
ghost use Rattle.std.specs.Prelude.{◌≡◌, ◌+◌, ◌*◌, ◌/◌, ◌<◌, ◌≤◌, ◌≤ℤ◌, ℕ, pos, IfSome, IfNone, true, false};
ghost use Rattle.jiff.specs.Words.{epoch_day};
ghost use Rattle.moments.specs.Time.{day, end_of_time};
ghost use Rattle.moments.specs.Months.{months, year_of, month_of_year, month_number, has_month, first_day, month_start};
ghost use Rattle.moments.specs.Months.{month_end, month_at, IsInMonth, IsDayOf, has_day, midnight_in};
ghost use Rattle.moments.specs.JiffCalendar.{IsFirstOfMonth, IsAsLong};

use crate::Moment;
use crate::moment::DAY;
use jiff::SignedDuration;
use jiff::civil::Date;
use std::marker::Model;

/// A calendar month from 1970-01 to 2099-12, in UTC.
#[derive(Clone, Copy, Debug, PartialEq, Eq)]
pub struct Month {
    // Counted from 0 for January 1970.
    number: u16,
}

impl Model for Month {
    ghost use Rattle.std.specs.Prelude.{ℕ, ◌<◌};
    ghost use Rattle.moments.specs.Months.{months};

    ghost Value = { ℕ };

    ghost view = { λ m. m.number };

    ghost invariant = { λ m. m.number < months };

    ghost inverse = { λ n. record { number = n } };
}

impl Month {
    /// Gives the month of a year, from 1 for January; None if it is not from 1970-01 to 2099-12. Takes no memory.
    pub fn of(year: u16, month: u8) -> Option<Month>
        ensures some { IfSome result (λ m. (m ≡ month_number year month) × (has_month year month ≡ true)) }
        ensures none { IfNone result (has_month year month ≡ false) }
    {
        if year < 1970 || year > 2099 {
            return None;
        }
        if month < 1 || month > 12 {
            return None;
        }
        Some(Month {
            number: (year - 1970) * 12 + (month as u16 - 1),
        })
    }

    /// Reads the year.
    pub fn year(self) -> u16
        ensures { result ≡ year_of self }
    {
        1970 + self.number / 12
    }

    /// Reads the month of the year, from 1 for January.
    pub fn month(self) -> u8
        ensures { result ≡ month_of_year self }
    {
        (self.number % 12) as u8 + 1
    }

    /// Gives the number of the month, from 0 for January 1970. Takes no memory.
    pub fn number(self) -> u64
        ensures number { result ≡ self }
        ensures among { result < months }
    {
        self.number as u64
    }

    /// Gives the month with a number, from 0 for January 1970. Takes no memory.
    pub fn numbered(number: u64) -> Month
        requires among { number < months }
        ensures { result ≡ number }
    {
        Month {
            number: number as u16,
        }
    }

    // The midnight at which a day of the month begins; None if the month has no such day.
    #[tactic(auto, using(crate::proofs::Calendar::first_day_next, crate::proofs::Calendar::first_day_small))]
    pub(crate) fn midnight(self, day: u8) -> Option<Moment>
        ensures none { IfNone result (has_day self day ≡ false) }
        ensures some { IfSome result (λ m. (has_day self day ≡ true) × (m ≡ midnight_in self day)) }
    {
        let first = days_before(self.number);
        let length = days_before(self.number + 1) - first;
        if day == 0 || day as u64 > length {
            return None;
        }
        match Moment::of((first + (day as u64 - 1)) * DAY) {
            Ok(moment) => Some(moment),
            Err(_) => None,
        }
    }
}

// 1970-01-01, from which days are counted.
fn epoch() -> Date
    ensures { epoch_day result ≡ pos 0 }
{
    Date::constant(1970, 1, 1)
}

// The days from 1970-01-01 to this date; the date is not before 1970-01-01.
fn days_until(date: Date) -> u64
    requires { pos 0 ≤ℤ epoch_day date }
    ensures { pos result ≡ epoch_day date }
{
    date.to_plain().to_unix_epoch_day() as u64
}

// The days from 1970-01-01 to the first day of a month, which may be January 2100.
fn days_before(number: u16) -> u64
    requires { number ≤ months }
    ensures first { result ≡ first_day number }
    ensures bound { result ≤ 47_482 }
{
    let first = Date::constant((1970 + number / 12) as i16, (number % 12) as i8 + 1, 1);
    days_until(first)
}

/// Gives the first moment of a month and the first moment after it, in milliseconds. The last month ends at `END`.
/// Takes no memory.
///
/// Rule: S3 User Guide, "Understanding your AWS billing and usage reports for Amazon S3": calendar months in UTC.
pub fn month_window(month: Month) -> (u64, u64)
    ensures begins { result.0 ≡ month_start month }
    ensures ends { result.1 ≡ month_end month }
{
    (
        days_before(month.number) * DAY,
        days_before(month.number + 1) * DAY,
    )
}

// A day of the calendar.
#[derive(Clone, Copy)]
pub(crate) struct Day {
    pub(crate) year: u16,
    pub(crate) month: u8,
    pub(crate) day: u8,
}

// The day of a moment, or of END.
pub(crate) fn day_of(ms: u64) -> Day
    requires { ms ≤ end_of_time }
    ensures { IsDayOf (ms / day) result.year result.month result.day }
{
    let date = epoch() + SignedDuration::from_millis(ms as i64);
    Day {
        year: date.year() as u16,
        month: date.month() as u8,
        day: date.day() as u8,
    }
}

/// Gives the month of a moment. Takes no memory.
pub fn month_of(m: Moment) -> Month
    ensures within { IsInMonth result m }
    ensures month { result ≡ month_at m }
{
    let day = day_of(m.ms());
    Month {
        number: (day.year - 1970) * 12 + (day.month as u16 - 1),
    }
}

/// States that the months are those of jiff's calendar: each has the same first day and as many days. Each month ends
/// where the next one begins, and every moment is in a month.
#[tactic(auto, using(crate::proofs::Calendar::calendar))]
pub fn calendar_months()
    ensures first { (k : ℕ) → IsFirstOfMonth k }
    ensures long { (k : ℕ) → IsAsLong k }
    ensures begin { month_start 0 ≡ 0 }
    ensures all { month_start months ≡ end_of_time }
    ensures each { (m : ℕ) → m < end_of_time → IsInMonth (month_at m) m }
{}
