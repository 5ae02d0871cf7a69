// How moments are written.
ghost use Rattle.std.specs.Prelude.{◌≡◌, ◌≤◌};
ghost use Rattle.moments.specs.Time.{end_of_time};
ghost use Rattle.moments.specs.Texts.{moment_text, date_text, clock_text};

use crate::digits::digits_of;
use crate::moment::DAY;
use crate::month::day_of;

// A date, as 2014-01-19.
fn print_date(year: u16, month: u8, day: u8) -> [u8; 10]
    ensures { result ≡ date_text year month day }
{
    let [y0, y1] = digits_of(year as u64 / 100);
    let [y2, y3] = digits_of(year as u64);
    let [m0, m1] = digits_of(month as u64);
    let [d0, d1] = digits_of(day as u64);
    [y0, y1, y2, y3, b'-', m0, m1, b'-', d0, d1]
}

// The milliseconds since midnight, as 10:30:00.000.
fn print_clock(time: u64) -> [u8; 12]
    ensures { result ≡ clock_text time }
{
    let [h0, h1] = digits_of(time / 3_600_000);
    let [m0, m1] = digits_of(time / 60_000 % 60);
    let [s0, s1] = digits_of(time / 1_000 % 60);
    let [f1, f2] = digits_of(time);
    let f0 = 48 + (time / 100 % 10) as u8;
    [h0, h1, b':', m0, m1, b':', s0, s1, b'.', f0, f1, f2]
}

/// Writes a moment, or `END`, as `2014-01-19T00:00:00.000Z`. Takes no memory.
///
/// Own rule: a moment has one text, in UTC and with three digits after the point.
pub fn print_moment(ms: u64) -> [u8; 24]
    requires { ms ≤ end_of_time }
    ensures { result ≡ moment_text ms }
{
    let day = day_of(ms);
    let [a0, a1, a2, a3, a4, a5, a6, a7, a8, a9] = print_date(day.year, day.month, day.day);
    let [b0, b1, b2, b3, b4, b5, b6, b7, b8, b9, b10, b11] = print_clock(ms % DAY);
    [
        a0, a1, a2, a3, a4, a5, a6, a7, a8, a9, b'T', b0, b1, b2, b3, b4, b5, b6, b7, b8, b9, b10,
        b11, b'Z',
    ]
}
