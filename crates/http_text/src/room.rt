// Text that is written to the front of a slice, as far as it fits.
ghost use Rattle.std.specs.Prelude.{◌≡◌, ◌<◌, ◌≤◌, ◌^◌, length, decimal};
ghost use Rattle.std.specs.Char.{digit_char};
ghost use Rattle.json.specs.Print.{escape_letter, escape_byte, quoted};
ghost use Rattle.http_text.specs.Room.{Puts};

/// Writes a text at an index, and returns the index after it. At the end of the room it only counts.
pub fn put(room: &mut [u8], at: usize, text: &[u8]) -> usize
    ensures { Puts room.old at room.new result text.now }
{
    let end = at.saturating_add(text.len());
    if end <= room.len() && at <= end {
        room[at..end].copy_from_slice(text);
    }
    end
}

/// The length of the room, in bytes.
pub fn room_len(room: &[u8]) -> usize
    ensures value { result ≡ length room.now }
    ensures short { result < 2 ^ 63 }
{
    room.len()
}

/// Writes a number in decimal digits.
pub fn put_number(room: &mut [u8], at: usize, number: u64) -> usize
    ensures { Puts room.old at room.new result (decimal number) }
{
    put(room, at, itoa::Buffer::new().format(number).as_bytes())
}

fn hex_digit(n: u8) -> u8
    requires { n < 16 }
    ensures { result ≡ digit_char n }
{
    if n < 10 { b'0' + n } else { b'a' + (n - 10) }
}

/// The letter after a backslash that stands for a byte, or 0 if there is none.
fn escape_letter(byte: u8) -> u8
    ensures { result ≡ escape_letter byte }
{
    match byte {
        b'"' | b'\\' => byte,
        8 => b'b',
        9 => b't',
        10 => b'n',
        12 => b'f',
        13 => b'r',
        _ => 0,
    }
}

#[tactic(auto, unfolding(json::specs::Print::escape_byte))]
fn put_byte(room: &mut [u8], at: usize, byte: u8) -> usize
    ensures { Puts room.old at room.new result (escape_byte byte) }
{
    let letter = escape_letter(byte);
    if letter > 0 {
        return put(room, at, &[b'\\', letter]);
    }
    if byte < 32 {
        let escape = [
            b'\\',
            b'u',
            b'0',
            b'0',
            hex_digit(byte / 16),
            hex_digit(byte % 16),
        ];
        return put(room, at, &escape);
    }
    put(room, at, &[byte])
}

/// Writes a wide number in decimal digits.
#[tactic(auto, using(crate::proofs::Small::wide_small))]
pub fn put_wide(room: &mut [u8], at: usize, number: u128) -> usize
    ensures puts { Puts room.old at room.new result (decimal number) }
    ensures short { length (decimal number) ≤ 39 }
{
    put(room, at, itoa::Buffer::new().format(number).as_bytes())
}

/// Writes a wide number as a JSON string of its decimal digits.
#[tactic(auto, using(crate::proofs::Small::wide_small))]
pub fn put_digits(room: &mut [u8], at: usize, number: u128) -> usize
    ensures puts { Puts room.old at room.new result (quoted (decimal number)) }
    ensures short { length (decimal number) ≤ 39 }
{
    put_quoted(room, at, itoa::Buffer::new().format(number).as_bytes())
}

/// Writes a text as a JSON string.
pub fn put_quoted(room: &mut [u8], at: usize, text: &[u8]) -> usize
    ensures { Puts room.old at room.new result (quoted text.now) }
{
    let mut at = put(room, at, b"\"");
    for byte in text {
        at = put_byte(room, at, *byte);
    }
    put(room, at, b"\"")
}
