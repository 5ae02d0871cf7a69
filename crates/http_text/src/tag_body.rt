// Tags, as JSON.
ghost use Rattle.std.specs.Prelude.{◌≡◌, ◌≤◌, length, true};
ghost use Rattle.serde_json.specs.Written.{comma_if};
ghost use Rattle.office_base.specs.Tags.{keys_rise, tag_of, tags_of};
ghost use Rattle.http_text.specs.Bodies.{tags_text};
ghost use Rattle.http_text.specs.Parts.{tag_part};
ghost use Rattle.http_text.specs.Room.{Puts};

use crate::members::put_text;
use crate::room::{put, put_quoted};
use office_base::Tags;

/// Writes a comma, if something comes before.
#[tactic(auto, using(crate::proofs::RoomLemmas::puts_nothing))]
pub(crate) fn put_comma(room: &mut [u8], at: usize, later: bool) -> usize
    ensures { Puts room.old at room.new result (comma_if later) }
{
    if later { put(room, at, b",") } else { at }
}

fn put_tag(room: &mut [u8], at: usize, later: bool, tag: &(String, String)) -> usize
    ensures { Puts room.old at room.new result (tag_part later (tag_of tag.now)) }
{
    let at = put_comma(room, at, later);
    let at = put_quoted(room, at, tag.0.as_bytes());
    put_text(room, at, b":", &tag.1)
}

fn put_pairs(room: &mut [u8], at: usize, pairs: &[(String, String)]) -> usize
    requires { keys_rise (tags_of pairs.now) ≡ true }
    ensures { Puts room.old at room.new result (tags_text (tags_of pairs.now)) }
{
    let mut at = put(room, at, b"{");
    let mut later = false;
    for tag in pairs {
        at = put_tag(room, at, later, tag);
        later = true;
    }
    put(room, at, b"}")
}

/// Writes tags as an object with a member for each.
#[tactic(auto, using(crate::proofs::PieceLemmas::tags_small))]
pub(crate) fn put_tags(room: &mut [u8], at: usize, tags: &Tags) -> usize
    ensures puts { Puts room.old at room.new result (tags_text tags.now) }
    ensures small { length (tags_text tags.now) ≤ 93_100 }
{
    put_pairs(room, at, tags.pairs())
}
