// How a month is written in the table.
ghost use Rattle.std.specs.Prelude.{◌≡◌};
ghost use Rattle.bill_rows.specs.Months.{last_digit, month_text};

use moments::Month;

// The last digit of a number, as text.
fn digit_of(number: u16) -> u8
    ensures { result ≡ last_digit number }
{
    48 + (number % 10) as u8
}

/// Writes a month, as `2024-01`. Takes no memory.
#[tactic(auto, unfolding(bill_rows::specs::Months::month_text))]
pub(crate) fn print_month(month: Month) -> [u8; 7]
    ensures { result ≡ month_text month }
{
    let year = month.year();
    let number = month.month() as u16;
    [
        digit_of(year / 1_000),
        digit_of(year / 100),
        digit_of(year / 10),
        digit_of(year),
        b'-',
        digit_of(number / 10),
        digit_of(number),
    ]
}
