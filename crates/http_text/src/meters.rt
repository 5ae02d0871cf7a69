// What a bucket used, as JSON.
ghost use Rattle.std.specs.Prelude.{◌≤◌, length};
ghost use Rattle.http_text.specs.Bodies.{meters_data, classes_text};
ghost use Rattle.http_text.specs.Parts.{item_part};
ghost use Rattle.http_text.specs.Room.{Puts};

use crate::members::put_text;
use crate::room::{put, put_digits, put_wide};
use crate::tag_body::put_comma;
use office_types::ClassMeters;

fn put_meters(room: &mut [u8], at: usize, later: bool, meters: &ClassMeters) -> usize
    ensures puts { Puts room.old at room.new result (item_part later (meters_data meters.now)) }
    ensures small { length (item_part later (meters_data meters.now)) ≤ 1_000 }
{
    let at = put_comma(room, at, later);
    let at = put(room, at, b"{\"byte_ms\":");
    let at = put_digits(room, at, meters.byte_ms);
    let at = put_text(room, at, b",\"class\":", meters.class.name());
    let at = put(room, at, b",\"early_byte_ms\":");
    let at = put_digits(room, at, meters.early_byte_ms);
    let at = put(room, at, b",\"moves\":");
    let at = put_wide(room, at, u128::from(meters.moves));
    put(room, at, b"}")
}

/// Writes what was used of some classes as a JSON array.
pub(crate) fn put_classes(room: &mut [u8], at: usize, classes: &[ClassMeters]) -> usize
    ensures puts { Puts room.old at room.new result (classes_text classes.now) }
    ensures small { length classes.now ≤ 6 → length (classes_text classes.now) ≤ 7_000 }
{
    let mut at = put(room, at, b"[");
    let mut later = false;
    for meters in classes {
        at = put_meters(room, at, later, meters);
        later = true;
    }
    put(room, at, b"]")
}
