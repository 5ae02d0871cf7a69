// The number that a text of digits is.
ghost use Rattle.std.specs.Prelude.{◌≡◌, option_map};
ghost use Rattle.serde_json.specs.Read.{float_of, number_of, number_from};
ghost use Rattle.serde_json.specs.View.{number_view};

use fast_float::Numeral;
use serde_json::Number;

// The nearest float; None if there is none.
fn nearest(is_negative: bool, digits: &Numeral<'_>) -> Option<Number>
    ensures { option_map number_view result ≡ float_of is_negative digits.now }
{
    Number::from_f64(digits.to_float::<f64>(is_negative))
}

// The number with these digits: an integer if it is one of 64 bits and not minus zero, and else the nearest float.
fn with_sign(is_negative: bool, digits: &Numeral<'_>) -> Option<Number>
    ensures { option_map number_view result ≡ number_from is_negative digits.now }
{
    match is_negative {
        true => match digits.to_i64(true) {
            Some(number) => {
                if number < 0 {
                    Some(Number::from(number))
                } else {
                    nearest(true, digits)
                }
            }
            None => nearest(true, digits),
        },
        false => match digits.to_u64() {
            Some(number) => Some(Number::from(number)),
            None => nearest(false, digits),
        },
    }
}

// The number that a token of JSON writes; None if it is too large for a float.
pub(crate) fn number(text: &str) -> Option<Number>
    ensures { option_map number_view result ≡ number_of text.now }
{
    let bytes = text.as_bytes();
    match bytes.strip_prefix(b"-") {
        Some(digits) => with_sign(true, &Numeral::scan(digits)),
        None => with_sign(false, &Numeral::scan(bytes)),
    }
}
