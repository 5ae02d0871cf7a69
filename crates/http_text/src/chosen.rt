// A lifecycle action, as JSON.
ghost use Rattle.std.specs.Prelude.{◌≡◌, ◌≤◌, length, Ok};
ghost use Rattle.office_base.specs.Tags.{char_count};
ghost use Rattle.due_core.specs.declared.action.ActionKind.{ActionKind};
ghost use Rattle.office_types.specs.declared.reply.Reply.TheVariants.{Chosen};
ghost use Rattle.http_text.specs.Names.{action_name};
ghost use Rattle.http_text.specs.Parts.{class_part, marker_part, target_part};
ghost use Rattle.http_text.specs.Replies.{body_text};
ghost use Rattle.http_text.specs.Room.{Puts};

use crate::members::{put_id, put_moment, put_text, put_whole};
use crate::room::{put, put_quoted};
use due_core::{ActionKind, Target};
use moments::Moment;
use office_base::{Key, Text, VersionId};

fn action_name(kind: ActionKind) -> &'static str
    ensures { result.now ≡ action_name kind }
{
    match kind {
        ActionKind::Remove => "remove",
        ActionKind::Transition(_) => "transition",
        ActionKind::Marker => "marker",
        ActionKind::Abort => "abort",
    }
}

// The class that an object moves to.
#[tactic(auto, using(crate::proofs::RoomLemmas::puts_nothing))]
fn put_class(room: &mut [u8], at: usize, kind: ActionKind) -> usize
    ensures { Puts room.old at room.new result (class_part kind) }
{
    match kind {
        ActionKind::Transition(class) => put_text(room, at, b",\"class\":", class.name()),
        _ => at,
    }
}

// The delete marker that was made.
#[tactic(auto, using(crate::proofs::RoomLemmas::puts_nothing, crate::proofs::Small::id_part_small))]
fn put_marker(room: &mut [u8], at: usize, marker: Option<VersionId>) -> usize
    ensures puts { Puts room.old at room.new result (marker_part marker) }
    ensures short { length (marker_part marker) ≤ 200 }
{
    match marker {
        Some(id) => put_id(room, at, b",\"marker\":", id),
        None => at,
    }
}

/// Writes the version or the upload that an action is done to, as the last member of an object.
#[tactic(auto, using(crate::proofs::Small::id_part_small, crate::proofs::Small::number_part_small))]
pub(crate) fn put_target(room: &mut [u8], at: usize, target: Target) -> usize
    ensures puts { Puts room.old at room.new result (target_part target) }
    ensures short { length (target_part target) ≤ 200 }
{
    match target {
        Target::Version(id) => put_id(room, at, b",\"version\":", id),
        Target::Upload(number) => put_whole(room, at, b",\"upload\":", number),
    }
}

/// Writes the action that was done or is due next.
#[tactic(auto, using(crate::proofs::Small::chosen_small))]
pub(crate) fn put_chosen(
    room: &mut [u8],
    at: usize,
    kind: ActionKind,
    key: &Key,
    target: Target,
    rule: &Text,
    since: Moment,
    marker: Option<VersionId>,
) -> usize
    requires { char_count rule.now ≤ 255 }
    ensures puts { Puts room.old at room.new result
        (body_text (Ok (Chosen kind key.now target rule.now since marker))) }
    ensures small { length (body_text (Ok (Chosen kind key.now target rule.now since marker))) ≤ 16_000 }
{
    let at = put_text(room, at, b"{\"action\":", action_name(kind));
    let at = put_class(room, at, kind);
    let at = put(room, at, b",\"key\":");
    let at = put_quoted(room, at, key.bytes());
    let at = put_marker(room, at, marker);
    let at = put_moment(room, at, b",\"moment\":", since.ms());
    let at = put_text(room, at, b",\"rule\":", rule.as_str());
    let at = put_target(room, at, target);
    put(room, at, b"}")
}
