// Numbers as words spell them.
ghost use Rattle.std.specs.Prelude.{◌≡◌, ◌≤◌, option_map, IfSome, codes};
ghost use Rattle.office_base.specs.Versions.{begins_with_number};
ghost use Rattle.command_line.specs.Lines.{number_between, number_or};

// Whether the first byte is a digit from 1 to 9.
fn begins_with_digit_above_zero(text: &[u8]) -> bool
    ensures { result ≡ begins_with_number text.now }
{
    match text {
        [first, ..] => b'1' <= *first && *first <= b'9',
        [] => false,
    }
}

// Zero, if it is in the range.
fn zero_from(least: u64, most: u64) -> Option<u64>
    ensures { result ≡ number_between least most (codes "0") }
{
    if least == 0 { Some(0) } else { None }
}

/// Reads a number in a range, in decimal digits without a leading zero.
pub(crate) fn number(text: &str, least: u64, most: u64) -> Option<u64>
    ensures exact { result ≡ number_between least most text.now }
    ensures within { IfSome result (λ n. n ≤ most) }
{
    if text == "0" {
        return zero_from(least, most);
    }
    if !begins_with_digit_above_zero(text.as_bytes()) {
        return None;
    }
    match text.parse::<u64>() {
        Ok(number) if least <= number && number <= most => Some(number),
        Ok(_) => None,
        Err(_) => None,
    }
}

/// Reads the number of an option, from 1 to `most`; gives the default if the option was not given.
pub(crate) fn number_of(text: Option<&str>, default: u32, most: u32) -> Option<u32>
    ensures { result ≡ number_or default most (option_map (λ t. t.now) text.entry) }
{
    match text {
        Some(text) => match number(text, 1, most as u64) {
            Some(number) => Some(number as u32),
            None => None,
        },
        None => Some(default),
    }
}
