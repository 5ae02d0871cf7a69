// Members of JSON objects.
ghost use Rattle.std.specs.Prelude.{◌≡◌, ◌≤◌, ◌+◌, ◌++◌, length, decimal};
ghost use Rattle.json.specs.Print.{quoted};
ghost use Rattle.moments.specs.Texts.{moment_text, two_digits};
ghost use Rattle.moments.specs.Time.{end_of_time};
ghost use Rattle.office_base.specs.Versions.{id_text};
ghost use Rattle.http_text.specs.Room.{Puts};
ghost use Rattle.http_text.specs.Json.{text_object, number_object};
ghost use Rattle.http_text.specs.Names.{month_text};

use crate::room::{put, put_number, put_quoted};
use moments::{Month, print_moment};
use office_base::VersionId;

/// Writes some bytes, and after them the text as a JSON string.
pub(crate) fn put_text(room: &mut [u8], at: usize, before: &[u8], text: &str) -> usize
    ensures { Puts room.old at room.new result (before.now ++ quoted text.now) }
{
    let at = put(room, at, before);
    put_quoted(room, at, text.as_bytes())
}

/// Writes some bytes, and after them the number.
#[tactic(auto, using(crate::proofs::Small::decimal_small))]
pub(crate) fn put_whole(room: &mut [u8], at: usize, before: &[u8], number: u64) -> usize
    ensures puts { Puts room.old at room.new result (before.now ++ decimal number) }
    ensures short { length (decimal number) ≤ 20 }
{
    let at = put(room, at, before);
    put_number(room, at, number)
}

/// Writes some bytes, and after them the moment as a JSON string.
pub(crate) fn put_moment(room: &mut [u8], at: usize, before: &[u8], ms: u64) -> usize
    requires { ms ≤ end_of_time }
    ensures { Puts room.old at room.new result (before.now ++ quoted (moment_text ms)) }
{
    let at = put(room, at, before);
    put_quoted(room, at, &print_moment(ms))
}

/// Writes some bytes, and after them the id of a version as a JSON string.
#[tactic(auto, using(crate::proofs::Small::decimal_small))]
pub(crate) fn put_id(room: &mut [u8], at: usize, before: &[u8], id: VersionId) -> usize
    ensures puts { Puts room.old at room.new result (before.now ++ quoted (id_text id)) }
    ensures short { length (id_text id) ≤ 20 }
{
    match id {
        VersionId::Null => put_text(room, at, before, "null"),
        VersionId::Number(number) => put_text(
            room,
            at,
            before,
            itoa::Buffer::new().format(number.get()),
        ),
    }
}

fn two_of(number: u16) -> [u8; 2]
    ensures { result ≡ two_digits number }
{
    [b'0' + (number / 10 % 10) as u8, b'0' + (number % 10) as u8]
}

// A month as 2024-01.
#[tactic(auto, unfolding(crate::specs::Names::month_text))]
fn print_month(month: Month) -> [u8; 7]
    ensures { result ≡ month_text month }
{
    let [y0, y1] = two_of(month.year() / 100);
    let [y2, y3] = two_of(month.year());
    let [m0, m1] = two_of(u16::from(month.month()));
    [y0, y1, y2, y3, b'-', m0, m1]
}

/// Writes some bytes, and after them the month as a JSON string.
pub(crate) fn put_month(room: &mut [u8], at: usize, before: &[u8], month: Month) -> usize
    ensures { Puts room.old at room.new result (before.now ++ quoted (month_text month)) }
{
    let at = put(room, at, before);
    put_quoted(room, at, &print_month(month))
}

/// Writes an object with one member, a text.
#[tactic(auto, using(crate::proofs::Small::text_object_small))]
pub(crate) fn put_text_object(room: &mut [u8], at: usize, name: &str, text: &str) -> usize
    ensures puts { Puts room.old at room.new result (text_object name.now text.now) }
    ensures small { length name.now + length text.now ≤ 1_000 → length (text_object name.now text.now) ≤ 16_000 }
{
    let at = put_text(room, at, b"{", name);
    let at = put_text(room, at, b":", text);
    put(room, at, b"}")
}

/// Writes an object with one member, a number.
#[tactic(auto, using(crate::proofs::Small::number_object_small))]
pub(crate) fn put_number_object(room: &mut [u8], at: usize, name: &str, number: u64) -> usize
    ensures puts { Puts room.old at room.new result (number_object name.now number) }
    ensures small { length name.now ≤ 1_000 → length (number_object name.now number) ≤ 16_000 }
{
    let at = put_text(room, at, b"{", name);
    let at = put_whole(room, at, b":", number);
    put(room, at, b"}")
}

/// Writes an object with one member, the id of a version.
#[tactic(auto, using(crate::proofs::Small::id_object_small))]
pub(crate) fn put_id_object(room: &mut [u8], at: usize, name: &str, id: VersionId) -> usize
    ensures puts { Puts room.old at room.new result (text_object name.now (id_text id)) }
    ensures small { length name.now ≤ 900 → length (text_object name.now (id_text id)) ≤ 16_000 }
{
    let at = put_text(room, at, b"{", name);
    let at = put_id(room, at, b":", id);
    put(room, at, b"}")
}

/// Writes an object with one member, a month.
#[tactic(auto, using(crate::proofs::Small::month_object_small))]
pub(crate) fn put_month_object(room: &mut [u8], at: usize, name: &str, month: Month) -> usize
    ensures puts { Puts room.old at room.new result (text_object name.now (month_text month)) }
    ensures small { length name.now ≤ 900 → length (text_object name.now (month_text month)) ≤ 16_000 }
{
    let at = put_text(room, at, b"{", name);
    let at = put_month(room, at, b":", month);
    put(room, at, b"}")
}
