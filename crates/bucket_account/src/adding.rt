// Adds a version: an object, or a delete marker.
ghost use Rattle.std.specs.Prelude.{◌≡◌, ◌⊎◌, ◌+◌, ◌^◌, ◌<◌, ◌≤◌, [], ℕ, None, option_map, OnOk, OnErr, IfOk};
ghost use Rattle.std.specs.Prelude.{IfErr};
ghost use Rattle.office_base.specs.Maps.{bytes_cmp, at_name, with_name, Rises};
ghost use Rattle.stacks.specs.Stacks.{IsFreeNumber, new_stack, replaced};
ghost use Rattle.accrual.specs.Books.{Book};
ghost use Rattle.accrual.specs.Totals.{AreTotalsOf, HasRow, most_bookings};
ghost use Rattle.plain_office.specs.Office as plain;
ghost use Rattle.plain_office.specs.Office.{Books, book_of};
ghost use Rattle.plain_office.specs.Changes.{number_after, add_version};
ghost use Rattle.bucket_account.specs.Booking.{MayCome, leaving_of, stack_under, stack_put, gone_of, since_option};
ghost use Rattle.bucket_account.specs.Booking.{books_put, counts_put, counts_after, gone_bytes, MayHaveStay, MayBePut};
ghost use Rattle.bucket_account.specs.Booking.{AreMovable};
ghost use Rattle.bucket_account.specs.Counting.{account_of, AreCountsOver, IsWithinBy, HasGrownBy, first_over};
ghost use Rattle.bucket_account.specs.Counting.{IsFullOf};
ghost use Rattle.bucket_account.specs.Effects.{IsReadyAt, DoesEffect};
ghost use Rattle.bucket_account.specs.Standing.{StandsForAccount, most_commands};

use crate::booking::{end_replaced, kind_billed, reserve};
use crate::counts::Counts;
use crate::incoming::{Incoming, Leaving, kind_bytes, replaced, since_of};
use accrual::Meters;
use due_core::Bucket;
use moments::Moment;
use office_base::{Key, NoMemory};
use office_types::{Refusal, What};
use stacks::{Kind, Stack, Version, Versioning};
use std::alloc::Global;
use std::collections::BTreeMap;

pub(crate) fn next_number(versioning: Versioning, number: u64) -> u64
    requires { number < 2 ^ 63 }
    ensures { result ≡ number_after versioning number }
{
    match versioning {
        Versioning::Enabled => number + 1,
        Versioning::Unversioned | Versioning::Suspended => number,
    }
}

/// Returns the counts after a version came with these bytes of a new key and of tags, within their limits.
fn counted(
    counts: Counts,
    key_bytes: u64,
    tag_bytes: u64,
    gone: &Option<Leaving>,
    whats: &[What],
) -> Result<Counts, Refusal>
    requires key { key_bytes ≤ 1_024 }
    requires tags { tag_bytes ≤ 15_360 }
    requires room { AreMovable counts (gone_bytes gone.now) }
    ensures ok { IfOk result (λ after. (after ≡ counts_put key_bytes tag_bytes gone.now counts)
        × (first_over whats.now after ≡ None)) }
    ensures full { IfErr result (IsFullOf whats.now (counts_put key_bytes tag_bytes gone.now counts)) }
{
    let (versions, bytes) = match gone {
        Some(leaving) => (1, leaving.tag_bytes),
        None => (0, 0),
    };
    let after = Counts {
        versions: counts.versions + 1 - versions,
        names: counts.names + key_bytes + tag_bytes - bytes,
        ..counts
    };
    after.within(whats)
}

/// Puts an object or a delete marker in a stack, as its kind says.
fn put_kind(stack: &mut Stack, incoming: Incoming) -> Result<Option<Version>, NoMemory>
    requires later { stack.old.changed ≤ incoming.at }
    requires comes { MayCome incoming.versioning incoming.at incoming.kind }
    requires free { IsFreeNumber incoming.versioning incoming.number stack.old.versions }
    ensures ok { OnOk result (stack.new ≡ stack_put incoming stack.old) }
    ensures gone { IfOk result (λ gone. gone ≡ replaced incoming.versioning stack.old.versions) }
    ensures err { OnErr result (stack.new ≡ stack.old) }
{
    let Incoming {
        versioning,
        number,
        kind,
        at,
    } = incoming;
    match kind {
        Kind::Object {
            size,
            class,
            tags,
            ..
        } => stack.put(versioning, number, size, class, tags, at),
        Kind::Marker => stack.put_marker(versioning, number, at),
    }
}

/// Puts a version in a stack.
fn stacked(stack: &mut Stack, incoming: Incoming) -> Result<Option<Version>, Refusal>
    requires later { stack.old.changed ≤ incoming.at }
    requires comes { MayCome incoming.versioning incoming.at incoming.kind }
    requires free { IsFreeNumber incoming.versioning incoming.number stack.old.versions }
    ensures ok { OnOk result (stack.new ≡ stack_put incoming stack.old) }
    ensures gone { IfOk result (λ gone. gone ≡ replaced incoming.versioning stack.old.versions) }
    ensures err { OnErr result (stack.new ≡ stack.old) }
    ensures refusal { IfErr result (λ refusal. refusal ≡ Refusal.NoMemory) }
{
    Ok(put_kind(stack, incoming)?)
}

/// Puts a version on the others of its key.
fn put_on(
    stack: &mut Stack,
    meters: &mut Meters,
    key: &Key,
    incoming: Incoming,
    since: Moment,
) -> Result<(), Refusal>
    requires ready { MayBePut incoming stack.old }
    requires since { since ≡ since_option incoming.at (replaced incoming.versioning stack.old.versions) }
    requires few { meters.old.booked + 2 ≤ most_bookings }
    requires open { (books : Books) × AreTotalsOf meters.old (book_of books)
        × MayHaveStay key.now (replaced incoming.versioning stack.old.versions) books }
    ensures stack { OnOk result (stack.new ≡ stack_put incoming stack.old) }
    ensures meters { OnOk result ((books : Books) → AreTotalsOf meters.old (book_of books)
        → MayHaveStay key.now (replaced incoming.versioning stack.old.versions) books → AreTotalsOf meters.new
        (book_of (books_put key.now incoming (replaced incoming.versioning stack.old.versions) books))) }
    ensures stack_kept { OnErr result (stack.new ≡ stack.old) }
    ensures meters_kept { OnErr result ((book : Book) → AreTotalsOf meters.old book → AreTotalsOf meters.new book) }
    ensures refusal { IfErr result (λ refusal. refusal ≡ Refusal.NoMemory) }
    ensures rows { (month : ℕ) → HasRow meters.old month → HasRow meters.new month }
    ensures booked { meters.new.booked ≤ meters.old.booked + 2 }
    ensures not_booked { OnErr result (meters.new.booked ≡ meters.old.booked) }
{
    let at = incoming.at;
    reserve(meters, since, at)?;
    let opened = kind_billed(key, &incoming.kind);
    let gone = stacked(stack, incoming)?;
    end_replaced(meters, key, &gone, at);
    drop(gone);
    meters.open(&opened, at);
    Ok(())
}

/// Puts a version under a key that has none.
fn put_first(
    stacks: &mut BTreeMap<Key, Stack>,
    meters: &mut Meters,
    alloc: Global,
    key: &Key,
    incoming: Incoming,
) -> Result<(), Refusal>
    requires absent { at_name key.now stacks.old.entries ≡ None }
    requires free { IsFreeNumber incoming.versioning incoming.number [] }
    requires comes { MayCome incoming.versioning incoming.at incoming.kind }
    requires few { meters.old.booked + 2 ≤ most_bookings }
    ensures stacks { OnOk result (stacks.new.entries
        ≡ with_name key.now (stack_put incoming (new_stack incoming.at)) stacks.old.entries) }
    ensures meters { OnOk result ((books : Books) → AreTotalsOf meters.old (book_of books)
        → AreTotalsOf meters.new (book_of (books_put key.now incoming None books))) }
    ensures stacks_kept { OnErr result (stacks.new.entries ≡ stacks.old.entries) }
    ensures meters_kept { OnErr result ((book : Book) → AreTotalsOf meters.old book → AreTotalsOf meters.new book) }
    ensures refusal { IfErr result (λ refusal. refusal ≡ Refusal.NoMemory) }
    ensures rows { (month : ℕ) → HasRow meters.old month → HasRow meters.new month }
    ensures booked { meters.new.booked ≤ meters.old.booked + 2 }
    ensures not_booked { OnErr result (meters.new.booked ≡ meters.old.booked) }
{
    let at = incoming.at;
    reserve(meters, at, at)?;
    let opened = kind_billed(key, &incoming.kind);
    let kept = key.copy()?;
    let mut stack = Stack::new(alloc, at);
    drop(stacked(&mut stack, incoming)?);
    drop(stacks.insert(kept, stack)?);
    meters.open(&opened, at);
    Ok(())
}

/// Puts a version under a key of these stacks, and returns the counts after it.
///
/// Cost: one search of the stacks, two for a new key, and what `Stack::put` takes.
///
/// # Errors
///
/// `Full`: one of `whats` would be above its limit. `NoMemory`: memory ran out. Nothing has then changed.
pub(crate) fn put_version(
    stacks: &mut BTreeMap<Key, Stack>,
    meters: &mut Meters,
    alloc: Global,
    key: &Key,
    incoming: Incoming,
    whats: &[What],
    counts: Counts,
) -> Result<Counts, Refusal>
    requires rises { Rises bytes_cmp stacks.old.entries }
    requires ready { MayBePut incoming (stack_under key.now stacks.old.entries) }
    requires room { AreMovable counts
        (gone_bytes (option_map leaving_of (gone_of key.now incoming stacks.old.entries))) }
    requires few { meters.old.booked + 2 ≤ most_bookings }
    requires open { (books : Books) × AreTotalsOf meters.old (book_of books)
        × MayHaveStay key.now (gone_of key.now incoming stacks.old.entries) books }
    ensures stacks { OnOk result (stacks.new.entries ≡ with_name key.now
        (stack_put incoming (stack_under key.now stacks.old.entries)) stacks.old.entries) }
    ensures meters { OnOk result ((books : Books) → AreTotalsOf meters.old (book_of books)
        → MayHaveStay key.now (gone_of key.now incoming stacks.old.entries) books → AreTotalsOf meters.new
        (book_of (books_put key.now incoming (gone_of key.now incoming stacks.old.entries) books))) }
    ensures counts { IfOk result (λ after. (after ≡ counts_after key.now incoming stacks.old.entries counts)
        × (first_over whats.now after ≡ None)) }
    ensures refused { IfErr result (λ refusal. (refusal ≡ Refusal.NoMemory)
        ⊎ IsFullOf whats.now (counts_after key.now incoming stacks.old.entries counts) refusal) }
    ensures stacks_kept { OnErr result (stacks.new.entries ≡ stacks.old.entries) }
    ensures meters_kept { OnErr result ((book : Book) → AreTotalsOf meters.old book → AreTotalsOf meters.new book) }
    ensures rows { (month : ℕ) → HasRow meters.old month → HasRow meters.new month }
    ensures booked { meters.new.booked ≤ meters.old.booked + 2 }
    ensures not_booked { OnErr result (meters.new.booked ≡ meters.old.booked) }
{
    let tags = kind_bytes(&incoming.kind);
    match stacks.get_mut(key) {
        Some(stack) => {
            let gone = replaced(incoming.versioning, stack);
            let counts = counted(counts, 0, tags, &gone, whats)?;
            let since = since_of(&gone, incoming.at);
            put_on(stack, meters, key, incoming, since)?;
            Ok(counts)
        }
        None => {
            let counts = counted(counts, key.bytes().len() as u64, tags, &None, whats)?;
            put_first(stacks, meters, alloc, key, incoming)?;
            Ok(counts)
        }
    }
}

/// Puts an object or a delete marker on the versions of a key, and returns the counts after it.
///
/// Rule: S3 User Guide, "Adding objects to versioning-enabled buckets", "Adding objects to versioning-suspended
/// buckets", "Working with delete markers".
/// Cost: one search of the keys, and what `Stack::put` takes.
///
/// # Errors
///
/// `Full`: one of `whats` would be above its limit. `NoMemory`: memory ran out. Nothing has then changed.
pub(crate) fn add_version(
    bucket: &mut Bucket,
    meters: &mut Meters,
    alloc: Global,
    key: &Key,
    kind: Kind,
    at: Moment,
    whats: &[What],
    counts: Counts,
) -> Result<Counts, Refusal>
    requires account { (account : plain.Account) × StandsForAccount (account_of bucket.old meters.old) account
        × IsReadyAt key.now at account }
    requires comes { MayCome bucket.old.versioning at kind }
    requires room { (accepted : ℕ) × (accepted < most_commands)
        × IsWithinBy accepted (account_of bucket.old meters.old) }
    requires counts { AreCountsOver bucket.old counts }
    ensures done { (account : plain.Account) → StandsForAccount (account_of bucket.old meters.old) account
        → IsReadyAt key.now at account
        → DoesEffect whats.now (add_version key.now kind at) account counts (account_of bucket.new meters.new) result }
    ensures room { OnOk result (HasGrownBy 3 1 (account_of bucket.old meters.old) (account_of bucket.new meters.new)) }
    ensures room_kept { OnErr result (HasGrownBy 0 0 (account_of bucket.old meters.old)
        (account_of bucket.new meters.new)) }
    ensures few { IfOk result (λ after. (after.versions ≤ counts.versions + 1) × (after.rules ≡ counts.rules)) }
{
    let (versioning, number) = (bucket.versioning, bucket.next_version);
    let incoming = Incoming {
        versioning,
        number,
        kind,
        at,
    };
    let after = put_version(
        &mut bucket.stacks,
        meters,
        alloc,
        key,
        incoming,
        whats,
        counts,
    )?;
    bucket.next_version = next_number(versioning, number);
    Ok(after)
}
