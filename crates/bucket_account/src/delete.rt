// Deletes a key or a version.
ghost use Rattle.std.specs.Prelude.{◌≡◌, ◌<◌, ◌∷◌, [], ℕ, OnOk, OnErr, IfOk, Some, if◌then◌else◌};
ghost use Rattle.plain_office.specs.Office as plain;
ghost use Rattle.plain_office.specs.Step.{is_unversioned, delete, delete_version};
ghost use Rattle.stacks.specs.declared.version.Versioning.TheVariants.{Unversioned};
ghost use Rattle.office_types.specs.declared.refusal.What.TheVariants.{Versions, Names};
ghost use Rattle.office_types.specs.Fits.{ReplyFits};
ghost use Rattle.bucket_account.specs.Booking.{missing, missing_from};
ghost use Rattle.bucket_account.specs.Changing.{IsOrderlyAccount, DoesTold};
ghost use Rattle.bucket_account.specs.Counting.{account_of, AreCountsOver, IsWithinBy, HasGrownBy, IsFewMore};
ghost use Rattle.bucket_account.specs.Standing.{StandsForAccount, most_commands};

use crate::adding::add_version;
use crate::change::Done;
use crate::counts::Counts;
use crate::incoming::id_of;
use crate::removing::remove_version;
use accrual::Meters;
use due_core::Bucket;
use moments::Moment;
use office_base::{Key, VersionId};
use office_types::{Refusal, Reply, What};
use stacks::{Kind, Stack, Versioning};
use std::alloc::Global;
use std::collections::BTreeMap;

/// The count that is tested when a null version goes (own).
const REMOVED: [What; 1] = [What::Names];

/// The counts to which a delete marker adds, in the order in which they are tested.
const MARKED: [What; 2] = [What::Versions, What::Names];

/// Removes the null version of a key, in a bucket without versioning.
fn remove_null(
    bucket: &mut Bucket,
    meters: &mut Meters,
    t: Moment,
    key: &Key,
    counts: Counts,
) -> Result<Done, Refusal>
    requires unversioned { bucket.old.versioning ≡ Unversioned }
    requires account { (account : plain.Account) × StandsForAccount (account_of bucket.old meters.old) account
        × IsOrderlyAccount t account }
    requires room { (accepted : ℕ) × (accepted < most_commands)
        × IsWithinBy accepted (account_of bucket.old meters.old) }
    requires counts { AreCountsOver bucket.old counts }
    ensures done { (account : plain.Account) → StandsForAccount (account_of bucket.old meters.old) account
        → IsOrderlyAccount t account → DoesTold (Names ∷ [])
        (delete t key.now account) account counts (account_of bucket.new meters.new) result }
    ensures room { OnOk result (HasGrownBy 3 1 (account_of bucket.old meters.old) (account_of bucket.new meters.new)) }
    ensures room_kept { OnErr result (HasGrownBy 0 0 (account_of bucket.old meters.old)
        (account_of bucket.new meters.new)) }
    ensures few { IfOk result (IsFewMore counts) }
    ensures fits { IfOk result (λ done. ReplyFits done.reply) }
{
    if !bucket.stacks.contains_key(key) {
        return Err(Refusal::NoSuchKey);
    }
    let counts = remove_version(bucket, meters, key, VersionId::Null, t, &REMOVED, counts)?;
    Ok(Done {
        counts,
        reply: Reply::Deleted { marker: None },
    })
}

/// Puts a delete marker, in a bucket that keeps versions.
fn mark(
    bucket: &mut Bucket,
    meters: &mut Meters,
    alloc: Global,
    t: Moment,
    key: &Key,
    counts: Counts,
) -> Result<Done, Refusal>
    requires versioned { bucket.old.versioning ≡ Unversioned → ⊥ }
    requires account { (account : plain.Account) × StandsForAccount (account_of bucket.old meters.old) account
        × IsOrderlyAccount t account }
    requires room { (accepted : ℕ) × (accepted < most_commands)
        × IsWithinBy accepted (account_of bucket.old meters.old) }
    requires counts { AreCountsOver bucket.old counts }
    ensures done { (account : plain.Account) → StandsForAccount (account_of bucket.old meters.old) account
        → IsOrderlyAccount t account → DoesTold (Versions ∷ Names ∷ [])
        (delete t key.now account) account counts (account_of bucket.new meters.new) result }
    ensures room { OnOk result (HasGrownBy 3 1 (account_of bucket.old meters.old) (account_of bucket.new meters.new)) }
    ensures room_kept { OnErr result (HasGrownBy 0 0 (account_of bucket.old meters.old)
        (account_of bucket.new meters.new)) }
    ensures few { IfOk result (IsFewMore counts) }
    ensures fits { IfOk result (λ done. ReplyFits done.reply) }
{
    let marker = id_of(bucket.versioning, bucket.next_version);
    let counts = add_version(bucket, meters, alloc, key, Kind::Marker, t, &MARKED, counts)?;
    Ok(Done {
        counts,
        reply: Reply::Deleted {
            marker: Some(marker),
        },
    })
}

/// Deletes a key: removes its null version, or puts a delete marker.
///
/// Rule: S3 User Guide, "Working with delete markers", "Deleting objects from versioning-suspended buckets".
/// Cost: a few searches of the keys and one of the stack.
///
/// # Errors
///
/// `NoSuchKey`: the bucket keeps no versions, and the key has none. `Full`: there would be more versions, or more bytes
/// of keys and tags, than their limits. `NoMemory`: memory ran out. Nothing has then changed.
pub(crate) fn delete(
    bucket: &mut Bucket,
    meters: &mut Meters,
    alloc: Global,
    t: Moment,
    key: &Key,
    counts: Counts,
) -> Result<Done, Refusal>
    requires account { (account : plain.Account) × StandsForAccount (account_of bucket.old meters.old) account
        × IsOrderlyAccount t account }
    requires room { (accepted : ℕ) × (accepted < most_commands)
        × IsWithinBy accepted (account_of bucket.old meters.old) }
    requires counts { AreCountsOver bucket.old counts }
    ensures done { (account : plain.Account) → StandsForAccount (account_of bucket.old meters.old) account
        → IsOrderlyAccount t account → DoesTold (if is_unversioned bucket.old.versioning then Names ∷ []
        else Versions ∷ Names ∷ [])
        (delete t key.now account) account counts (account_of bucket.new meters.new) result }
    ensures room { OnOk result (HasGrownBy 3 1 (account_of bucket.old meters.old) (account_of bucket.new meters.new)) }
    ensures room_kept { OnErr result (HasGrownBy 0 0 (account_of bucket.old meters.old)
        (account_of bucket.new meters.new)) }
    ensures few { IfOk result (IsFewMore counts) }
    ensures fits { IfOk result (λ done. ReplyFits done.reply) }
{
    match bucket.versioning {
        Versioning::Unversioned => remove_null(bucket, meters, t, key, counts),
        Versioning::Enabled | Versioning::Suspended => mark(bucket, meters, alloc, t, key, counts),
    }
}

/// Returns the refusal of a version that is not in this stack; `None` if it is there.
fn missing_in(stack: &Stack, id: &VersionId) -> Option<Refusal>
    ensures { result ≡ missing_from id.now (Some stack.now) }
{
    match stack.version(*id) {
        Some(_) => None,
        None => Some(Refusal::NoSuchVersion),
    }
}

/// Returns the refusal of a version that is not under its key; `None` if it is there.
fn missing(stacks: &BTreeMap<Key, Stack>, key: &Key, id: &VersionId) -> Option<Refusal>
    ensures { result ≡ missing key.now id.now stacks.now.entries }
{
    match stacks.get(key) {
        Some(stack) => missing_in(stack, id),
        None => Some(Refusal::NoSuchKey),
    }
}

/// Removes one version or delete marker for good.
///
/// Rule: S3 User Guide, "Deleting object versions from a versioning-enabled bucket".
/// Cost: a few searches of the keys and of the stack, and the older versions move up.
///
/// # Errors
///
/// `NoSuchKey`: the key has no versions. `NoSuchVersion`: none has this id. `NoMemory`: memory ran out. Nothing has
/// then changed.
pub(crate) fn delete_version(
    bucket: &mut Bucket,
    meters: &mut Meters,
    t: Moment,
    key: &Key,
    id: &VersionId,
    counts: Counts,
) -> Result<Done, Refusal>
    requires account { (account : plain.Account) × StandsForAccount (account_of bucket.old meters.old) account
        × IsOrderlyAccount t account }
    requires room { (accepted : ℕ) × (accepted < most_commands)
        × IsWithinBy accepted (account_of bucket.old meters.old) }
    requires counts { AreCountsOver bucket.old counts }
    ensures done { (account : plain.Account) → StandsForAccount (account_of bucket.old meters.old) account
        → IsOrderlyAccount t account → DoesTold ([])
        (delete_version t key.now id.now account) account counts (account_of bucket.new meters.new) result }
    ensures room { OnOk result (HasGrownBy 3 1 (account_of bucket.old meters.old) (account_of bucket.new meters.new)) }
    ensures room_kept { OnErr result (HasGrownBy 0 0 (account_of bucket.old meters.old)
        (account_of bucket.new meters.new)) }
    ensures few { IfOk result (IsFewMore counts) }
    ensures fits { IfOk result (λ done. ReplyFits done.reply) }
{
    if let Some(refusal) = missing(&bucket.stacks, key, id) {
        return Err(refusal);
    }
    let counts = remove_version(bucket, meters, key, *id, t, &[], counts)?;
    Ok(Done {
        counts,
        reply: Reply::VersionDeleted { removed: *id },
    })
}
