// A version that comes, and the version that it replaces.
ghost use Rattle.std.specs.Prelude.{◌≡◌, ◌≤◌, ◌<◌, ◌*◌, length, option_map, IsTrue};
ghost use Rattle.std.specs.List.{list_all};
ghost use Rattle.office_base.specs.Tags.{is_tag, tags_of};
ghost use Rattle.plain_office.specs.Counts.{tag_bytes};
ghost use Rattle.plain_office.specs.Orderly.{lines_since};
ghost use Rattle.stacks.specs.Stacks.{new_id, replaced, version_at};
ghost use Rattle.bucket_account.specs.Booking.{bytes_of_kind, leaving_of, leaving_since};

use moments::Moment;
use office_base::{Nth, Tags, VersionId};
use stacks::{Kind, Stack, Version, Versioning};

/// A version that comes, without its key.
#[derive(Drop)]
pub(crate) struct Incoming {
    /// The versioning of its bucket.
    pub(crate) versioning: Versioning,
    /// The number that it gets in an Enabled bucket.
    pub(crate) number: u64,
    pub(crate) kind: Kind,
    pub(crate) at: Moment,
}

/// What must be known of a version before it goes: since when it has its lines, and the bytes of its tags.
#[derive(Clone, Copy)]
pub(crate) struct Leaving {
    pub(crate) since: Moment,
    pub(crate) tag_bytes: u64,
}

/// Returns the id of the next version.
pub(crate) fn id_of(versioning: Versioning, number: u64) -> VersionId
    requires { 0 < number }
    ensures { result ≡ new_id versioning number }
{
    match versioning {
        Versioning::Enabled => match Nth::of(number) {
            Some(number) => VersionId::Number(number),
            None => unreachable!(),
        },
        Versioning::Unversioned | Versioning::Suspended => VersionId::Null,
    }
}

#[tactic(auto, using(crate::proofs::TagSizes::tag_most))]
fn pair_bytes(pairs: &[(String, String)]) -> u64
    requires tags { IsTrue (list_all is_tag (tags_of pairs.now)) }
    requires few { length (tags_of pairs.now) ≤ 10 }
    ensures bytes { result ≡ tag_bytes (tags_of pairs.now) }
    ensures at_most { result ≤ 1_536 * length (tags_of pairs.now) }
{
    match pairs {
        [] => 0,
        [first, rest @ ..] => { first.0.len() as u64 + first.1.len() as u64 + pair_bytes(rest) }
    }
}

/// Counts the bytes of tags.
pub(crate) fn tag_bytes(tags: &Tags) -> u64
    ensures bytes { result ≡ tag_bytes tags.now }
    ensures at_most { result ≤ 15_360 }
{
    pair_bytes(tags.pairs())
}

/// Reads since when a version has its lines.
pub(crate) fn since(version: &Version) -> Moment
    ensures { result ≡ lines_since version.now }
{
    match &version.kind {
        Kind::Object { entered, .. } => *entered,
        Kind::Marker => version.created,
    }
}

/// Counts the bytes of the tags that a version of this kind has.
pub(crate) fn kind_bytes(kind: &Kind) -> u64
    ensures bytes { result ≡ bytes_of_kind kind.now }
    ensures at_most { result ≤ 15_360 }
{
    match kind {
        Kind::Object { tags, .. } => tag_bytes(tags),
        Kind::Marker => 0,
    }
}

fn leave_of(version: &Version) -> Leaving
    ensures { result ≡ leaving_of version.now }
{
    Leaving {
        since: since(version),
        tag_bytes: kind_bytes(&version.kind),
    }
}

/// Returns what must be known of the version with this id before it goes.
pub(crate) fn leaving_at(stack: &Stack, id: &VersionId) -> Option<Leaving>
    ensures { result ≡ option_map leaving_of (version_at id.now stack.now.versions) }
{
    match stack.version(*id) {
        Some(version) => Some(leave_of(version)),
        None => None,
    }
}

/// Returns what a version replaces that is put on these: the null version, unless the new one gets a number.
pub(crate) fn replaced(versioning: Versioning, stack: &Stack) -> Option<Leaving>
    ensures { result ≡ option_map leaving_of (replaced versioning stack.now.versions) }
{
    match versioning {
        Versioning::Enabled => None,
        Versioning::Unversioned | Versioning::Suspended => leaving_at(stack, &VersionId::Null),
    }
}

/// Returns since when the version that goes has its lines; the moment if nothing goes.
pub(crate) fn since_of(gone: &Option<Leaving>, at: Moment) -> Moment
    ensures { result ≡ leaving_since at gone.now }
{
    match gone {
        Some(leaving) => leaving.since,
        None => at,
    }
}
