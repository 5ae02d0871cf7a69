// How dates and months are read.
ghost use Rattle.std.specs.Prelude.{◌≡◌, ◌≤◌, ◌<◌, ◌%◌, ℕ, ◌+◌, ◌==◌, ◌||◌, ◌↔◌, ◌&&◌, length, drop, true, false, IsOk};
ghost use Rattle.std.specs.Prelude.{IfOk, IfErr, IsErrOf, IfSome, IfNone, OnSome};
ghost use Rattle.std.specs.List.{list_all};
ghost use Rattle.moments.specs.Time.{day, end_of_time};
ghost use Rattle.moments.specs.Months.{month_number};
ghost use Rattle.moments.specs.Dates.{begins_with_month, year_in, month_in, is_month, begins_with_date, day_in, is_day};
ghost use Rattle.moments.specs.Dates.{is_utc, digit_count, is_clock_end, has_part_at};
ghost use Rattle.moments.specs.Dates.{begins_with_clock, is_time, is_zero_digit, is_date, is_at_midnight, midnight_of};
ghost use Rattle.moments.specs.Dates.{IsReadAs};
ghost use Rattle.moments.specs.Texts.{moment_text};

use crate::digits::{has_two, two};
use crate::{Moment, MomentRefusal, Month};

#[tactic(auto, unfolding(crate::specs::Dates::begins_with_month))]
fn has_month_form(text: &[u8]) -> bool
    ensures { result ≡ begins_with_month text.now }
{
    if text.len() < 7 {
        return false;
    }
    if !has_two(text, 0) || !has_two(text, 2) || text[4] != b'-' {
        return false;
    }
    has_two(text, 5)
}

// The year and the month with which a text begins.
#[tactic(auto, unfolding(crate::specs::Dates::begins_with_month))]
fn month_form(text: &[u8]) -> (u16, u8)
    requires { begins_with_month text.now ≡ true }
    ensures year { result.0 ≡ year_in text.now }
    ensures month { result.1 ≡ month_in text.now }
    ensures year_below { result.0 < 10_000 }
    ensures month_below { result.1 < 100 }
{
    (two(text, 0) * 100 + two(text, 2), two(text, 5) as u8)
}

/// Reads a month, as `2014-01`. Takes no memory.
///
/// # Errors
///
/// `NotAMonth`: the text is not `YYYY-MM`, or not a month from 1970-01 to 2099-12.
#[tactic(auto, unfolding(crate::specs::Dates::is_month))]
pub fn read_month(text: &str) -> Result<Month, MomentRefusal>
    ensures ok { IfOk result
        (λ m. (m ≡ month_number (year_in text.now) (month_in text.now)) × (is_month text.now ≡ true)) }
    ensures refusal { IfErr result (λ e. (e ≡ MomentRefusal.NotAMonth) × (is_month text.now ≡ false)) }
{
    let text = text.as_bytes();
    if text.len() != 7 || !has_month_form(text) {
        return Err(MomentRefusal::NotAMonth);
    }
    let (year, month) = month_form(text);
    match Month::of(year, month) {
        Some(month) => Ok(month),
        None => Err(MomentRefusal::NotAMonth),
    }
}

#[tactic(auto, unfolding(crate::specs::Dates::begins_with_date))]
fn has_date_form(text: &[u8]) -> bool
    ensures form { result ≡ begins_with_date text.now }
    ensures long { result ≡ true → 10 ≤ length text.now }
{
    if !has_month_form(text) || text.len() < 10 {
        return false;
    }
    text[7] == b'-' && has_two(text, 8)
}

// The midnight at which a date begins; the text begins with the date.
#[tactic(auto, unfolding(crate::specs::Dates::begins_with_date))]
fn date_form(text: &[u8]) -> Option<Moment>
    requires { begins_with_date text.now ≡ true }
    ensures none { IfNone result (is_day (year_in text.now) (month_in text.now) (day_in text.now) ≡ false) }
    ensures some { IfSome result
        (λ m. (is_day (year_in text.now) (month_in text.now) (day_in text.now) ≡ true) × (m ≡ midnight_of text.now)) }
{
    let (year, month) = month_form(text);
    let day = two(text, 8) as u8;
    Month::of(year, month)?.midnight(day)
}

fn is_offset(text: &[u8]) -> bool
    ensures { result ≡ is_utc text.now }
{
    text == b"Z".as_slice() || text == b"+00:00".as_slice() || text == b"-00:00".as_slice()
}

fn count_digits(text: &[u8]) -> usize
    ensures count { result ≡ digit_count text.now }
    ensures within { result ≤ length text.now }
{
    text.iter().take_while(|c| c.is_ascii_digit()).count()
}

// The text after the seconds is an offset of zero, with an optional point and 1 to 9 digits before it.
fn ends_clock(text: &[u8]) -> bool
    ensures { result ≡ is_clock_end text.now }
{
    match text {
        [b'.', rest @ ..] => {
            let digits = count_digits(rest);
            if digits < 1 || digits > 9 {
                return false;
            }
            is_offset(&rest[digits..])
        }
        _ => is_offset(text),
    }
}

// Two digits are at this place, and their number is not above the limit.
fn has_part(text: &[u8], at: usize, limit: u16) -> bool
    requires { at + 2 ≤ length text.now }
    ensures { result ≡ has_part_at text.now at limit }
{
    has_two(text, at) && two(text, at) <= limit
}

#[tactic(auto, unfolding(crate::specs::Dates::begins_with_clock))]
fn has_clock(text: &[u8]) -> bool
    ensures form { result ≡ begins_with_clock text.now }
    ensures long { result ≡ true → 9 ≤ length text.now }
{
    if text.len() < 9 || text[0] != b'T' {
        return false;
    }
    if !has_part(text, 1, 23) || text[3] != b':' {
        return false;
    }
    if !has_part(text, 4, 59) || text[6] != b':' {
        return false;
    }
    has_part(text, 7, 59)
}

#[tactic(auto, unfolding(crate::specs::Dates::is_time))]
fn has_time_form(text: &[u8]) -> bool
    ensures { result ≡ is_time text.now }
{
    has_clock(text) && ends_clock(&text[9..])
}

// The text is a date, with or without a time after it.
fn ends_date(text: &[u8]) -> bool
    requires { 10 ≤ length text.now }
    ensures { result ≡ ((length text.now == 10) || is_time (drop 10 text.now)) }
{
    text.len() == 10 || has_time_form(&text[10..])
}

#[tactic(auto, unfolding(crate::specs::Dates::is_date))]
fn date_of(text: &[u8]) -> Option<Moment>
    ensures none { IfNone result (is_date text.now ≡ false) }
    ensures some { IfSome result (λ m. (is_date text.now ≡ true) × (m ≡ midnight_of text.now)) }
    ensures long { OnSome result (10 ≤ length text.now) }
{
    if !has_date_form(text) {
        return None;
    }
    if !ends_date(text) {
        return None;
    }
    date_form(text)
}

fn is_zero_byte(c: u8) -> bool
    ensures { result ≡ is_zero_digit c }
{
    c < b'1' || b'9' < c
}

// The only digit in a time is 0.
fn is_midnight(time: &[u8]) -> bool
    ensures { result ≡ list_all is_zero_digit time.now }
{
    time.iter().all(|c| is_zero_byte(*c))
}

/// Reads the midnight at which a date begins. The date is `2014-01-19`, or has a time in UTC, as
/// `2014-01-19T00:00:00.000Z`. Takes no memory.
///
/// Own rule: the time is `T`, `HH:MM:SS`, an optional point and 1 to 9 digits, and `Z`, `+00:00` or `-00:00`. Rule: S3
/// User Guide, "Lifecycle configuration elements": a date in a rule is a midnight in UTC.
///
/// # Errors
///
/// `NotADate`: the text has another form, or is not a date from 1970-01-01 to 2099-12-31. `NotMidnight`: its time is
/// not midnight.
#[tactic(auto, unfolding(crate::specs::Dates::is_at_midnight))]
pub fn read_date(text: &str) -> Result<Moment, MomentRefusal>
    ensures ok { IfOk result (λ m. IsReadAs text.now m) }
    ensures succeeds { IsOk result ↔ ((is_date text.now ≡ true) × (is_at_midnight text.now ≡ true)) }
    ensures not_a_date { IsErrOf result MomentRefusal.NotADate ↔ (is_date text.now ≡ false) }
    ensures not_midnight { IsErrOf result MomentRefusal.NotMidnight
        ↔ ((is_date text.now ≡ true) × (is_at_midnight text.now ≡ false)) }
{
    let text = text.as_bytes();
    match date_of(text) {
        Some(midnight) => {
            if is_midnight(&text[10..]) {
                Ok(midnight)
            } else {
                Err(MomentRefusal::NotMidnight)
            }
        }
        None => Err(MomentRefusal::NotADate),
    }
}

/// States that the text of a midnight is a date, and is read as that midnight.
pub fn midnights_read_back()
    ensures { (m : ℕ) → m < end_of_time → m % day ≡ 0 → IsReadAs (moment_text m) m }
{}
