// Moves an object to another class.
ghost use Rattle.std.specs.Prelude.{◌≡◌, ◌+◌, ◌<◌, ◌≤◌, [], ℕ, Some, IsTrue, option_map, OnOk, OnErr, IfOk, IfErr};
ghost use Rattle.office_base.specs.Maps.{bytes_cmp, with_name, Rises};
ghost use Rattle.stacks.specs.Stacks.{has_id, version_at, after_move};
ghost use Rattle.accrual.specs.Books.{Book};
ghost use Rattle.accrual.specs.Totals.{AreTotalsOf, most_bookings};
ghost use Rattle.plain_office.specs.Office as plain;
ghost use Rattle.plain_office.specs.Office.{Books, book_of};
ghost use Rattle.plain_office.specs.Changes.{books_moved, versions_of, move_version};
ghost use Rattle.plain_office.specs.Orderly.{is_object, lines_since};
ghost use Rattle.bucket_account.specs.Booking.{HasStay, MayHaveStay, IsSinceBy, stack_under};
ghost use Rattle.bucket_account.specs.Counting.{account_of, IsWithinBy, HasGrownBy};
ghost use Rattle.bucket_account.specs.Effects.{IsReadyAt, DoesEffect};
ghost use Rattle.bucket_account.specs.Moving.{IsAnObject, IsMovable};
ghost use Rattle.bucket_account.specs.Standing.{StandsForAccount, most_commands};

use crate::booking::{end_version, object_billed, reserve};
use crate::counts::Counts;
use accrual::Meters;
use class_rules::Class;
use due_core::Bucket;
use moments::Moment;
use office_base::{Key, VersionId};
use office_types::Refusal;
use stacks::{Kind, Stack, Version};
use std::collections::BTreeMap;

/// Books that an object moves. Its stay ends, with what it owes; a stay in the other class begins; and the move is
/// counted.
fn book_move(
    meters: &mut Meters,
    key: &Key,
    version: &Version,
    to: Class,
    at: Moment,
) -> Result<(), Refusal>
    requires object { IsTrue (is_object version.now.kind) }
    requires later { lines_since version.now ≤ at }
    requires few { meters.old.booked + 3 ≤ most_bookings }
    requires open { (books : Books) × AreTotalsOf meters.old (book_of books) × HasStay key.now version.now books }
    ensures stands { OnOk result ((books : Books) → AreTotalsOf meters.old (book_of books)
        → HasStay key.now version.now books
        → AreTotalsOf meters.new (book_of (books_moved key.now (Some version.now) to at books))) }
    ensures kept { OnErr result ((book : Book) → AreTotalsOf meters.old book → AreTotalsOf meters.new book) }
    ensures refusal { IfErr result (λ refusal. refusal ≡ Refusal.NoMemory) }
    ensures booked { meters.new.booked ≤ meters.old.booked + 3 }
    ensures not_booked { OnErr result (meters.new.booked ≡ meters.old.booked) }
{
    match &version.kind {
        Kind::Object { size, entered, .. } => {
            reserve(meters, *entered, at)?;
            let opened = object_billed(to, *size);
            end_version(meters, key, version, at);
            meters.open(&opened, at);
            meters.moved(to, at);
            Ok(())
        }
        Kind::Marker => unreachable!(),
    }
}

/// Books that the object with this id moves.
fn book_move_of(
    stack: &Stack,
    meters: &mut Meters,
    key: &Key,
    id: &VersionId,
    to: Class,
    at: Moment,
) -> Result<(), Refusal>
    requires there { IsAnObject (version_at id.now stack.now.versions) }
    requires since { IsSinceBy at (version_at id.now stack.now.versions) }
    requires few { meters.old.booked + 3 ≤ most_bookings }
    requires open { (books : Books) × AreTotalsOf meters.old (book_of books)
        × MayHaveStay key.now (version_at id.now stack.now.versions) books }
    ensures stands { OnOk result ((books : Books) → AreTotalsOf meters.old (book_of books)
        → MayHaveStay key.now (version_at id.now stack.now.versions) books
        → AreTotalsOf meters.new (book_of (books_moved key.now (version_at id.now stack.now.versions) to at books))) }
    ensures kept { OnErr result ((book : Book) → AreTotalsOf meters.old book → AreTotalsOf meters.new book) }
    ensures refusal { IfErr result (λ refusal. refusal ≡ Refusal.NoMemory) }
    ensures booked { meters.new.booked ≤ meters.old.booked + 3 }
    ensures not_booked { OnErr result (meters.new.booked ≡ meters.old.booked) }
{
    match stack.version(*id) {
        Some(version) => book_move(meters, key, version, to, at),
        None => unreachable!(),
    }
}

/// Moves the object with this id in its stack.
fn set_class(stack: &mut Stack, id: VersionId, to: Class, at: Moment)
    requires ready { IsMovable id at stack.old }
    ensures { stack.new ≡ after_move id to at stack.old }
{
    match stack.move_class(id, to, at) {
        Ok(_) => {}
        Err(_) => unreachable!(),
    }
}

/// Moves the object with this id in the stack of its key.
fn move_on(
    stack: &mut Stack,
    meters: &mut Meters,
    key: &Key,
    id: VersionId,
    to: Class,
    at: Moment,
) -> Result<(), Refusal>
    requires ready { IsMovable id at stack.old }
    requires few { meters.old.booked + 3 ≤ most_bookings }
    requires open { (books : Books) × AreTotalsOf meters.old (book_of books)
        × MayHaveStay key.now (version_at id stack.old.versions) books }
    ensures stack { OnOk result (stack.new ≡ after_move id to at stack.old) }
    ensures meters { OnOk result ((books : Books) → AreTotalsOf meters.old (book_of books)
        → MayHaveStay key.now (version_at id stack.old.versions) books
        → AreTotalsOf meters.new (book_of (books_moved key.now (version_at id stack.old.versions) to at books))) }
    ensures stack_kept { OnErr result (stack.new ≡ stack.old) }
    ensures meters_kept { OnErr result ((book : Book) → AreTotalsOf meters.old book → AreTotalsOf meters.new book) }
    ensures refusal { IfErr result (λ refusal. refusal ≡ Refusal.NoMemory) }
    ensures booked { meters.new.booked ≤ meters.old.booked + 3 }
    ensures not_booked { OnErr result (meters.new.booked ≡ meters.old.booked) }
{
    book_move_of(stack, meters, key, &id, to, at)?;
    set_class(stack, id, to, at);
    Ok(())
}

/// Moves the object with this id under its key.
fn move_under(
    stacks: &mut BTreeMap<Key, Stack>,
    meters: &mut Meters,
    key: &Key,
    id: VersionId,
    to: Class,
    at: Moment,
) -> Result<(), Refusal>
    requires rises { Rises bytes_cmp stacks.old.entries }
    requires ready { IsMovable id at (stack_under key.now stacks.old.entries) }
    requires few { meters.old.booked + 3 ≤ most_bookings }
    requires open { (books : Books) × AreTotalsOf meters.old (book_of books)
        × MayHaveStay key.now (version_at id (stack_under key.now stacks.old.entries).versions) books }
    ensures stacks { OnOk result (stacks.new.entries ≡ with_name key.now
        (after_move id to at (stack_under key.now stacks.old.entries)) stacks.old.entries) }
    ensures meters { OnOk result ((books : Books) → AreTotalsOf meters.old (book_of books)
        → MayHaveStay key.now (version_at id (stack_under key.now stacks.old.entries).versions) books
        → AreTotalsOf meters.new (book_of
        (books_moved key.now (version_at id (stack_under key.now stacks.old.entries).versions) to at books))) }
    ensures stacks_kept { OnErr result (stacks.new.entries ≡ stacks.old.entries) }
    ensures meters_kept { OnErr result ((book : Book) → AreTotalsOf meters.old book → AreTotalsOf meters.new book) }
    ensures refusal { IfErr result (λ refusal. refusal ≡ Refusal.NoMemory) }
    ensures booked { meters.new.booked ≤ meters.old.booked + 3 }
    ensures not_booked { OnErr result (meters.new.booked ≡ meters.old.booked) }
{
    match stacks.get_mut(key) {
        Some(stack) => move_on(stack, meters, key, id, to, at),
        None => unreachable!(),
    }
}

/// Moves an object to another class at a moment, and returns the counts after it, which are those before.
///
/// Rule: S3 User Guide, "Transitioning objects using Amazon S3 Lifecycle".
/// Cost: one search of the keys and two of the stack. Memory only for months that have no row in the meters yet.
///
/// # Errors
///
/// `NoMemory`: memory ran out. The bucket is then unchanged.
pub(crate) fn move_version(
    bucket: &mut Bucket,
    meters: &mut Meters,
    key: &Key,
    id: VersionId,
    to: Class,
    at: Moment,
    counts: Counts,
) -> Result<Counts, Refusal>
    requires account { (account : plain.Account) × StandsForAccount (account_of bucket.old meters.old) account
        × IsReadyAt key.now at account }
    requires object { IsAnObject (version_at id (versions_of key.now bucket.old)) }
    requires room { (accepted : ℕ) × (accepted < most_commands)
        × IsWithinBy accepted (account_of bucket.old meters.old) }
    ensures done { (account : plain.Account) → StandsForAccount (account_of bucket.old meters.old) account
        → IsReadyAt key.now at account
        → DoesEffect ([]) (move_version key.now id to at) account counts (account_of bucket.new meters.new) result }
    ensures room { OnOk result (HasGrownBy 3 0 (account_of bucket.old meters.old) (account_of bucket.new meters.new)) }
    ensures room_kept { OnErr result (HasGrownBy 0 0 (account_of bucket.old meters.old)
        (account_of bucket.new meters.new)) }
    ensures same { IfOk result (λ after. after ≡ counts) }
{
    move_under(&mut bucket.stacks, meters, key, id, to, at)?;
    Ok(counts)
}
