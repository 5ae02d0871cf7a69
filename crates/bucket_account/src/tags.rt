// Replaces the tags of an object version.
ghost use Rattle.std.specs.Prelude.{◌≡◌, ◌+◌, ◌-◌, ◌<◌, ◌≤◌, ◌^◌, ◌∷◌, [], ℕ, length, None, Some, Ok, OnOk, OnErr};
ghost use Rattle.std.specs.Prelude.{IfOk, IfErr, IsOk};
ghost use Rattle.office_base.specs.Maps.{bytes_cmp, at_name, with_name, Rises};
ghost use Rattle.stacks.specs.Stacks.{tags_of_kind, tags_at, after_tags};
ghost use Rattle.plain_office.specs.Office as plain;
ghost use Rattle.plain_office.specs.Counts.{tag_bytes};
ghost use Rattle.plain_office.specs.Step.{set_tags};
ghost use Rattle.office_types.specs.declared.refusal.What.TheVariants.{Names};
ghost use Rattle.office_types.specs.Fits.{ReplyFits};
ghost use Rattle.bucket_account.specs.Booking.{stack_under};
ghost use Rattle.bucket_account.specs.Changing.{IsOrderlyAccount, DoesTold};
ghost use Rattle.bucket_account.specs.Counting.{account_of, AreCountsOver, IsWithinBy, HasGrownBy, IsFewMore};
ghost use Rattle.bucket_account.specs.Counting.{first_over, IsFullOf};
ghost use Rattle.bucket_account.specs.Standing.{StandsForAccount, most_commands};
ghost use Rattle.bucket_account.specs.Tagging.{tags_counted, AreTaggable, CountsTags, CountsTagsUnder};

use crate::change::Done;
use crate::counts::Counts;
use crate::incoming::tag_bytes;
use accrual::Meters;
use due_core::Bucket;
use moments::Moment;
use office_base::{Key, Tags, VersionId};
use office_types::{Refusal, Reply, What};
use stacks::{Kind, Stack};
use std::collections::BTreeMap;

/// The count to which new tags add.
const TAGGED: [What; 1] = [What::Names];

fn tag_count(tags: &Tags) -> u32
    ensures { result ≡ length tags.now }
{
    tags.pairs().len() as u32
}

/// Counts the bytes of the tags that an object has.
fn object_bytes(kind: &Kind) -> Result<u64, Refusal>
    ensures { result ≡ tags_counted (tags_of_kind kind.now) }
{
    match kind {
        Kind::Object { tags, .. } => Ok(tag_bytes(tags)),
        Kind::Marker => Err(Refusal::IsMarker),
    }
}

/// Counts the bytes of the tags of the object with this id.
fn bytes_at(stack: &Stack, id: VersionId) -> Result<u64, Refusal>
    ensures { result ≡ tags_counted (tags_at id stack.now.versions) }
{
    match stack.version(id) {
        Some(version) => object_bytes(&version.kind),
        None => Err(Refusal::NoSuchVersion),
    }
}

/// Returns the counts after these tags replaced others of `before` bytes, within their limits.
fn counted(counts: Counts, before: u64, tags: &Tags) -> Result<Counts, Refusal>
    requires names { counts.names ≤ 2 ^ 32 }
    requires before { before ≤ counts.names }
    ensures ok { IfOk result (λ after.
        (after ≡ record counts { names = counts.names + tag_bytes tags.now - before })
        × (first_over (Names ∷ []) after ≡ None)) }
    ensures full { IfErr result (IsFullOf (Names ∷ [])
        (record counts { names = counts.names + tag_bytes tags.now - before })) }
{
    let after = Counts {
        names: counts.names + tag_bytes(tags) - before,
        ..counts
    };
    after.within(&TAGGED)
}

/// Replaces the tags of an object that is there.
fn replace(stack: &mut Stack, id: &VersionId, tags: Tags, at: Moment)
    requires there { IsOk (tags_at id.now stack.old.versions) }
    requires later { stack.old.changed ≤ at }
    ensures { stack.new ≡ after_tags id.now tags at stack.old }
{
    match stack.set_tags(*id, tags, at) {
        Ok(_) => (),
        Err(_) => unreachable!(),
    }
}

/// Replaces the tags of an object of this stack, and returns the counts after it.
fn retag(
    stack: &mut Stack,
    id: &VersionId,
    tags: &Tags,
    at: Moment,
    counts: Counts,
) -> Result<Counts, Refusal>
    requires later { stack.old.changed ≤ at }
    requires room { AreTaggable id.now stack.old counts }
    ensures counts { CountsTags (tags_at id.now stack.old.versions) tags.now counts result }
    ensures ok { OnOk result (stack.new ≡ after_tags id.now tags.now at stack.old) }
    ensures err { OnErr result (stack.new ≡ stack.old) }
{
    let before = bytes_at(stack, *id)?;
    let after = counted(counts, before, tags)?;
    let copy = tags.copy()?;
    replace(stack, id, copy, at);
    Ok(after)
}

/// Replaces the tags of an object under a key of these stacks, and returns the counts after it.
fn retag_under(
    stacks: &mut BTreeMap<Key, Stack>,
    key: &Key,
    id: &VersionId,
    tags: &Tags,
    at: Moment,
    counts: Counts,
) -> Result<Counts, Refusal>
    requires rises { Rises bytes_cmp stacks.old.entries }
    requires later { (stack_under key.now stacks.old.entries).changed ≤ at }
    requires room { AreTaggable id.now (stack_under key.now stacks.old.entries) counts }
    ensures counts { CountsTagsUnder id.now (at_name key.now stacks.old.entries) tags.now counts result }
    ensures ok { OnOk result (stacks.new.entries ≡ with_name key.now
        (after_tags id.now tags.now at (stack_under key.now stacks.old.entries)) stacks.old.entries) }
    ensures err { OnErr result (stacks.new.entries ≡ stacks.old.entries) }
{
    match stacks.get_mut(key) {
        Some(stack) => retag(stack, id, tags, at, counts),
        None => Err(Refusal::NoSuchKey),
    }
}

/// Replaces the tags of one object version.
///
/// Rule: S3 User Guide, "Categorizing your objects using tags".
/// Cost: one search of the keys, and two of the stack.
///
/// # Errors
///
/// `NoSuchKey`: the key has no versions. `NoSuchVersion`: none has this id. `IsMarker`: it is a delete marker. `Full`:
/// there would be more bytes of keys and tags than their limit. `NoMemory`: memory ran out. Nothing has then changed.
pub(crate) fn set_tags(
    bucket: &mut Bucket,
    meters: &mut Meters,
    t: Moment,
    key: &Key,
    id: &VersionId,
    tags: &Tags,
    counts: Counts,
) -> Result<Done, Refusal>
    requires account { (account : plain.Account) × StandsForAccount (account_of bucket.old meters.old) account
        × IsOrderlyAccount t account }
    requires room { (accepted : ℕ) × (accepted < most_commands)
        × IsWithinBy accepted (account_of bucket.old meters.old) }
    requires counts { AreCountsOver bucket.old counts }
    ensures done { (account : plain.Account) → StandsForAccount (account_of bucket.old meters.old) account
        → IsOrderlyAccount t account
        → DoesTold (Names ∷ []) (set_tags t key.now id.now tags.now account) account counts
        (account_of bucket.new meters.new) result }
    ensures room { OnOk result (HasGrownBy 3 1 (account_of bucket.old meters.old) (account_of bucket.new meters.new)) }
    ensures room_kept { OnErr result (HasGrownBy 0 0 (account_of bucket.old meters.old)
        (account_of bucket.new meters.new)) }
    ensures few { IfOk result (IsFewMore counts) }
    ensures fits { IfOk result (λ done. ReplyFits done.reply) }
{
    let counts = retag_under(&mut bucket.stacks, key, id, tags, t, counts)?;
    Ok(Done {
        counts,
        reply: Reply::TagsSet {
            tags: tag_count(tags),
        },
    })
}
