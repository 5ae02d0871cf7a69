// The versions of a key, as JSON.
ghost use Rattle.std.specs.Prelude.{◌≡◌, ◌≤◌, ◌++◌, true, codes, length, map, Some, Ok};
ghost use Rattle.serde_json.specs.View.{items_of};
ghost use Rattle.serde_json.specs.Written.{items_text};
ghost use Rattle.stacks.specs.declared.version.Kind.{Kind};
ghost use Rattle.stacks.specs.declared.version.Kind.TheVariants.{Object};
ghost use Rattle.office_types.specs.declared.reply.Reply.TheVariants.{StackShown};
ghost use Rattle.http_text.specs.Bodies.{noncurrent_version, version_text, versions_text};
ghost use Rattle.http_text.specs.Parts.{since_part};
ghost use Rattle.http_text.specs.Replies.{body_text};
ghost use Rattle.http_text.specs.Room.{Puts};

use crate::members::{put_id, put_moment, put_text, put_whole};
use crate::room::{put, put_quoted};
use crate::tag_body::put_tags;
use class_rules::Class;
use moments::Moment;
use office_base::{Key, Size, Tags};
use stacks::{Kind, Stack, Version};

// Writes the moment since which a version has been noncurrent.
#[tactic(auto, using(crate::proofs::RoomLemmas::puts_nothing))]
fn put_since(room: &mut [u8], at: usize, since: Option<Moment>) -> usize
    ensures { Puts room.old at room.new result (since_part since) }
{
    match since {
        Some(since) => put_moment(room, at, b",\"noncurrent_since\":", since.ms()),
        None => at,
    }
}

fn put_object(
    room: &mut [u8],
    at: usize,
    version: &Version,
    size: Size,
    class: Class,
    tags: &Tags,
    entered: Moment,
    since: Option<Moment>,
) -> usize
    requires { version.now.kind ≡ Object size class tags.now entered }
    ensures puts { Puts room.old at room.new result (version_text since version.now) }
    ensures small { length (version_text since version.now) ≤ 94_000 }
{
    let at = put_text(room, at, b"{\"class\":", class.name());
    let at = put_moment(room, at, b",\"created\":", version.created.ms());
    let at = put_moment(room, at, b",\"entered\":", entered.ms());
    let at = put(room, at, b",\"kind\":\"object\"");
    let at = put_since(room, at, since);
    let at = put_whole(room, at, b",\"size\":", size.bytes());
    let at = put(room, at, b",\"tags\":");
    let at = put_tags(room, at, tags);
    let at = put_id(room, at, b",\"version\":", version.id);
    put(room, at, b"}")
}

#[tactic(auto, using(crate::proofs::PieceLemmas::marker_small))]
fn put_delete_marker(room: &mut [u8], at: usize, version: &Version, since: Option<Moment>) -> usize
    requires { version.now.kind ≡ Kind.Marker }
    ensures puts { Puts room.old at room.new result (version_text since version.now) }
    ensures small { length (version_text since version.now) ≤ 94_000 }
{
    let at = put_moment(room, at, b"{\"created\":", version.created.ms());
    let at = put(room, at, b",\"kind\":\"marker\"");
    let at = put_since(room, at, since);
    let at = put_id(room, at, b",\"version\":", version.id);
    put(room, at, b"}")
}

/// Writes a version, with the moment since which it has been noncurrent.
pub(crate) fn put_version(
    room: &mut [u8],
    at: usize,
    version: &Version,
    since: Option<Moment>,
) -> usize
    ensures puts { Puts room.old at room.new result (version_text since version.now) }
    ensures small { length (version_text since version.now) ≤ 94_000 }
{
    match &version.kind {
        Kind::Object {
            size,
            class,
            tags,
            entered,
        } => put_object(room, at, version, *size, *class, tags, *entered, since),
        Kind::Marker => put_delete_marker(room, at, version, since),
    }
}

/// Writes a noncurrent version after a comma.
pub(crate) fn put_next(room: &mut [u8], at: usize, version: &Version) -> usize
    ensures puts { Puts room.old at room.new result (codes "," ++ version_text (Some version.now.ceased) version.now) }
    ensures small { length (codes "," ++ version_text (Some version.now.ceased) version.now) ≤ 94_100 }
{
    let at = put(room, at, b",");
    put_version(room, at, version, Some(version.ceased))
}

// Writes the noncurrent versions after the current one, and the closing bracket.
fn put_noncurrent(room: &mut [u8], at: usize, versions: &[Version]) -> usize
    ensures { Puts room.old at room.new result (items_text true (items_of (map noncurrent_version versions.now))) }
{
    let mut at = at;
    for version in versions {
        at = put_next(room, at, version);
    }
    put(room, at, b"]")
}

fn put_versions(room: &mut [u8], at: usize, versions: &[Version]) -> usize
    ensures { Puts room.old at room.new result (versions_text versions.now) }
{
    match versions {
        [] => put(room, at, b"[]"),
        [current, noncurrent @ ..] => {
            let at = put(room, at, b"[");
            let at = put_version(room, at, current, None);
            put_noncurrent(room, at, noncurrent)
        }
    }
}

/// Writes the versions of a key, the current one first.
///
/// Cost: a pass over the versions; no memory.
pub(crate) fn put_stack(room: &mut [u8], at: usize, key: &Key, stack: &Stack) -> usize
    ensures { Puts room.old at room.new result (body_text (Ok (StackShown key.now stack.now))) }
{
    let at = put_moment(room, at, b"{\"changed\":", stack.changed().ms());
    let at = put(room, at, b",\"key\":");
    let at = put_quoted(room, at, key.bytes());
    let at = put(room, at, b",\"versions\":");
    let at = put_versions(room, at, stack.versions());
    put(room, at, b"}")
}
