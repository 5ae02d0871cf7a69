// Two decimal digits.
ghost use Rattle.std.specs.Prelude.{◌≡◌, ◌<◌, ◌≤◌, ◌+◌, length, true};
ghost use Rattle.moments.specs.Texts.{two_digits};
ghost use Rattle.moments.specs.Dates.{has_two_at, two_at};

// The last two digits of a number.
pub(crate) fn digits_of(number: u64) -> [u8; 2]
    ensures { result ≡ two_digits number }
{
    [48 + (number / 10 % 10) as u8, 48 + (number % 10) as u8]
}

pub(crate) fn has_two(text: &[u8], at: usize) -> bool
    requires { at + 2 ≤ length text.now }
    ensures { result ≡ has_two_at text.now at }
{
    text[at].is_ascii_digit() && text[at + 1].is_ascii_digit()
}

pub(crate) fn two(text: &[u8], at: usize) -> u16
    requires within { at + 2 ≤ length text.now }
    requires digits { has_two_at text.now at ≡ true }
    ensures number { result ≡ two_at text.now at }
    ensures below { result < 100 }
{
    (text[at] - 48) as u16 * 10 + (text[at + 1] - 48) as u16
}
