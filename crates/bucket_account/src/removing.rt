// Removes a version.
ghost use Rattle.std.specs.Prelude.{◌≡◌, ◌⊎◌, ◌+◌, ◌<◌, ◌≤◌, ℕ, None, option_map, OnOk, OnErr, IfOk, IfErr, IsSome};
ghost use Rattle.office_base.specs.Maps.{bytes_cmp, Rises};
ghost use Rattle.rules_core.specs.Matching.{is_empty};
ghost use Rattle.stacks.specs.Stacks.{version_at, after_removal};
ghost use Rattle.accrual.specs.Books.{Book};
ghost use Rattle.accrual.specs.Totals.{AreTotalsOf, most_bookings};
ghost use Rattle.plain_office.specs.Office as plain;
ghost use Rattle.plain_office.specs.Office.{Books, book_of};
ghost use Rattle.plain_office.specs.Books.{without_option};
ghost use Rattle.plain_office.specs.Changes.{versions_of, stacks_with, remove_version};
ghost use Rattle.bucket_account.specs.Booking.{leaving_of, stack_under, taken_of, lost_bytes, since_option};
ghost use Rattle.bucket_account.specs.Booking.{counts_taken, counts_from, MayHaveStay, AreTakable, MayGo};
ghost use Rattle.bucket_account.specs.Counting.{account_of, AreCountsOver, IsWithinBy, HasGrownBy, first_over};
ghost use Rattle.bucket_account.specs.Counting.{IsFullOf};
ghost use Rattle.bucket_account.specs.Effects.{IsReadyAt, DoesEffect};
ghost use Rattle.bucket_account.specs.Standing.{StandsForAccount, most_commands};

use crate::booking::{end_replaced, reserve};
use crate::counts::Counts;
use crate::incoming::{Leaving, leaving_at, since_of};
use accrual::Meters;
use due_core::Bucket;
use moments::Moment;
use office_base::{Key, VersionId};
use office_types::{Refusal, What};
use stacks::{Stack, Version};
use std::collections::BTreeMap;

/// Counts the bytes of a key that goes with its last version; 0 if other versions are left.
fn lost_bytes(key: &Key, versions: &[Version]) -> u64
    ensures { result ≡ lost_bytes key.now versions.now }
{
    if versions.len() == 1 {
        key.bytes().len() as u64
    } else {
        0
    }
}

/// Returns the counts after a version went with these bytes of its key, within their limits.
fn counted(
    counts: Counts,
    key_bytes: u64,
    gone: &Option<Leaving>,
    whats: &[What],
) -> Result<Counts, Refusal>
    requires room { AreTakable counts key_bytes gone.now }
    ensures ok { IfOk result (λ after. (after ≡ counts_taken key_bytes gone.now counts)
        × (first_over whats.now after ≡ None)) }
    ensures full { IfErr result (IsFullOf whats.now (counts_taken key_bytes gone.now counts)) }
{
    let (versions, bytes) = match gone {
        Some(leaving) => (1, leaving.tag_bytes),
        None => (0, 0),
    };
    let after = Counts {
        versions: counts.versions - versions,
        names: counts.names - (key_bytes + bytes),
        ..counts
    };
    after.within(whats)
}

/// Takes a version that is there out of its stack.
fn taken(stack: &mut Stack, id: VersionId, at: Moment) -> Option<Version>
    requires there { IsSome (version_at id stack.old.versions) }
    requires later { stack.old.changed ≤ at }
    ensures gone { result ≡ version_at id stack.old.versions }
    ensures stack { stack.new ≡ after_removal id at stack.old }
{
    match stack.remove(id, at) {
        Ok(gone) => Some(gone),
        Err(_) => unreachable!(),
    }
}

/// Takes a version out of its stack, books that it goes, and reports whether none is left.
fn take_off(
    stack: &mut Stack,
    meters: &mut Meters,
    key: &Key,
    id: VersionId,
    at: Moment,
    since: Moment,
) -> Result<bool, Refusal>
    requires ready { MayGo id at stack.old }
    requires since { since ≡ since_option at (version_at id stack.old.versions) }
    requires few { meters.old.booked < most_bookings }
    requires open { (books : Books) × AreTotalsOf meters.old (book_of books)
        × MayHaveStay key.now (version_at id stack.old.versions) books }
    ensures stack { OnOk result (stack.new ≡ after_removal id at stack.old) }
    ensures emptied { IfOk result (λ emptied. emptied ≡ is_empty stack.new.versions) }
    ensures meters { OnOk result ((books : Books) → AreTotalsOf meters.old (book_of books)
        → MayHaveStay key.now (version_at id stack.old.versions) books → AreTotalsOf meters.new
        (book_of (without_option key.now (version_at id stack.old.versions) at books))) }
    ensures stack_kept { OnErr result (stack.new ≡ stack.old) }
    ensures meters_kept { OnErr result ((book : Book) → AreTotalsOf meters.old book → AreTotalsOf meters.new book) }
    ensures refusal { IfErr result (λ refusal. refusal ≡ Refusal.NoMemory) }
    ensures booked { meters.new.booked ≤ meters.old.booked + 1 }
    ensures not_booked { OnErr result (meters.new.booked ≡ meters.old.booked) }
{
    reserve(meters, since, at)?;
    let gone = taken(stack, id, at);
    end_replaced(meters, key, &gone, at);
    drop(gone);
    Ok(stack.versions().is_empty())
}

/// Takes a version out of its stack, and returns the counts after it and whether no version is left.
fn take_from(
    stack: &mut Stack,
    meters: &mut Meters,
    key: &Key,
    id: VersionId,
    at: Moment,
    whats: &[What],
    counts: Counts,
) -> Result<(Counts, bool), Refusal>
    requires ready { MayGo id at stack.old }
    requires room { AreTakable counts (lost_bytes key.now stack.old.versions)
        (option_map leaving_of (version_at id stack.old.versions)) }
    requires few { meters.old.booked < most_bookings }
    requires open { (books : Books) × AreTotalsOf meters.old (book_of books)
        × MayHaveStay key.now (version_at id stack.old.versions) books }
    ensures stack { OnOk result (stack.new ≡ after_removal id at stack.old) }
    ensures emptied { IfOk result (λ left. left.1 ≡ is_empty stack.new.versions) }
    ensures meters { OnOk result ((books : Books) → AreTotalsOf meters.old (book_of books)
        → MayHaveStay key.now (version_at id stack.old.versions) books → AreTotalsOf meters.new
        (book_of (without_option key.now (version_at id stack.old.versions) at books))) }
    ensures counts { IfOk result (λ left. (left.0 ≡ counts_from key.now id stack.old counts)
        × (first_over whats.now left.0 ≡ None)) }
    ensures refused { IfErr result (λ refusal. (refusal ≡ Refusal.NoMemory)
        ⊎ IsFullOf whats.now (counts_from key.now id stack.old counts) refusal) }
    ensures stack_kept { OnErr result (stack.new ≡ stack.old) }
    ensures meters_kept { OnErr result ((book : Book) → AreTotalsOf meters.old book → AreTotalsOf meters.new book) }
    ensures booked { meters.new.booked ≤ meters.old.booked + 1 }
    ensures not_booked { OnErr result (meters.new.booked ≡ meters.old.booked) }
{
    let gone = leaving_at(stack, &id);
    let lost = lost_bytes(key, stack.versions());
    let after = counted(counts, lost, &gone, whats)?;
    let since = since_of(&gone, at);
    let emptied = take_off(stack, meters, key, id, at, since)?;
    Ok((after, emptied))
}

/// Takes a version from under its key, and returns the counts after it. The key goes with its last version.
fn take_version(
    stacks: &mut BTreeMap<Key, Stack>,
    meters: &mut Meters,
    key: &Key,
    id: VersionId,
    at: Moment,
    whats: &[What],
    counts: Counts,
) -> Result<Counts, Refusal>
    requires rises { Rises bytes_cmp stacks.old.entries }
    requires ready { MayGo id at (stack_under key.now stacks.old.entries) }
    requires room { AreTakable counts (lost_bytes key.now (stack_under key.now stacks.old.entries).versions)
        (option_map leaving_of (taken_of key.now id stacks.old.entries)) }
    requires few { meters.old.booked < most_bookings }
    requires open { (books : Books) × AreTotalsOf meters.old (book_of books)
        × MayHaveStay key.now (taken_of key.now id stacks.old.entries) books }
    ensures stacks { OnOk result (stacks.new.entries ≡ stacks_with key.now
        (after_removal id at (stack_under key.now stacks.old.entries)) stacks.old.entries) }
    ensures meters { OnOk result ((books : Books) → AreTotalsOf meters.old (book_of books)
        → MayHaveStay key.now (taken_of key.now id stacks.old.entries) books → AreTotalsOf meters.new
        (book_of (without_option key.now (taken_of key.now id stacks.old.entries) at books))) }
    ensures counts { IfOk result (λ after.
        (after ≡ counts_from key.now id (stack_under key.now stacks.old.entries) counts)
        × (first_over whats.now after ≡ None)) }
    ensures refused { IfErr result (λ refusal. (refusal ≡ Refusal.NoMemory)
        ⊎ IsFullOf whats.now (counts_from key.now id (stack_under key.now stacks.old.entries) counts) refusal) }
    ensures stacks_kept { OnErr result (stacks.new.entries ≡ stacks.old.entries) }
    ensures meters_kept { OnErr result ((book : Book) → AreTotalsOf meters.old book → AreTotalsOf meters.new book) }
    ensures booked { meters.new.booked ≤ meters.old.booked + 1 }
    ensures not_booked { OnErr result (meters.new.booked ≡ meters.old.booked) }
{
    match stacks.get_mut(key) {
        Some(stack) => {
            let (after, emptied) = take_from(stack, meters, key, id, at, whats, counts)?;
            if !emptied {
                return Ok(after);
            }
            drop(stacks.remove(key));
            Ok(after)
        }
        None => unreachable!(),
    }
}

/// Removes a version or delete marker that is there, and returns the counts after it. A key goes with its last version.
///
/// Rule: S3 User Guide, "Deleting object versions from a versioning-enabled bucket".
/// Cost: one search of the keys and one of the stack, and the older versions move up; a second search of the keys if
/// the key goes.
///
/// # Errors
///
/// `Full`: one of `whats` would be above its limit. `NoMemory`: memory ran out. Nothing has then changed.
pub(crate) fn remove_version(
    bucket: &mut Bucket,
    meters: &mut Meters,
    key: &Key,
    id: VersionId,
    at: Moment,
    whats: &[What],
    counts: Counts,
) -> Result<Counts, Refusal>
    requires account { (account : plain.Account) × StandsForAccount (account_of bucket.old meters.old) account
        × IsReadyAt key.now at account }
    requires there { IsSome (version_at id (versions_of key.now bucket.old)) }
    requires room { (accepted : ℕ) × (accepted < most_commands)
        × IsWithinBy accepted (account_of bucket.old meters.old) }
    requires counts { AreCountsOver bucket.old counts }
    ensures done { (account : plain.Account) → StandsForAccount (account_of bucket.old meters.old) account
        → IsReadyAt key.now at account
        → DoesEffect whats.now (remove_version key.now id at) account counts (account_of bucket.new meters.new) result }
    ensures room { OnOk result (HasGrownBy 3 1 (account_of bucket.old meters.old) (account_of bucket.new meters.new)) }
    ensures room_kept { OnErr result (HasGrownBy 0 0 (account_of bucket.old meters.old)
        (account_of bucket.new meters.new)) }
    ensures few { IfOk result (λ after. (after.versions ≤ counts.versions) × (after.rules ≡ counts.rules)) }
{
    take_version(&mut bucket.stacks, meters, key, id, at, whats, counts)
}
