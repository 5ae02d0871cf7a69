// Makes an account of a bucket's records: opens the stay of each version and part.
ghost use Rattle.std.specs.Prelude.{◌≡◌, ◌+◌, ◌≤◌, ◌<◌, ◌∷◌, [], ℕ, length, flat_map, sum_by, OnOk};
ghost use Rattle.class_rules.specs.Lines.{lines_of};
ghost use Rattle.accrual.specs.Books.{Book, open_stay, book_with_stay};
ghost use Rattle.accrual.specs.Totals.{AreTotalsOf, IsBilled, most_bookings};
ghost use Rattle.plain_office.specs.Counts.{version_count, part_count};
ghost use Rattle.bucket_account.specs.Restoring.{stack_stays, upload_stays, open_stays, AddsStays};

use crate::booking::kind_billed;
use crate::dropping::part_billed;
use crate::incoming::since;
use accrual::Meters;
use class_rules::Lines;
use due_core::Bucket;
use moments::{Moment, month_of};
use office_base::{Key, NoMemory};
use stacks::Stack;
use std::collections::BTreeMap;
use uploads::Upload;

/// Books that a stay with these lines began, whose month may have no row yet.
fn begin_stay(meters: &mut Meters, lines: &Lines, from: Moment) -> Result<(), NoMemory>
    requires few { meters.old.booked < most_bookings }
    requires billed { IsBilled lines.now }
    ensures stands { OnOk result ((book : Book) → AreTotalsOf meters.old book
        → AreTotalsOf meters.new (book_with_stay (open_stay (lines_of lines.now) from) book)) }
    ensures booked { OnOk result (meters.new.booked ≡ meters.old.booked + 1) }
{
    let month = month_of(from);
    meters.reserve(month, month)?;
    meters.open(lines, from);
    Ok(())
}

/// Opens the stay of each version of a key.
fn open_stack(meters: &mut Meters, key: &Key, stack: &Stack) -> Result<(), NoMemory>
    requires few { meters.old.booked + length stack.now.versions ≤ most_bookings }
    ensures stays { OnOk result (AddsStays (stack_stays (key.now, stack.now)) meters.old meters.new) }
    ensures booked { OnOk result (meters.new.booked ≡ meters.old.booked + length stack.now.versions) }
{
    for version in stack.versions() {
        begin_stay(meters, &kind_billed(key, &version.kind), since(version))?;
    }
    Ok(())
}

/// Opens the stay of each version.
fn open_stacks(meters: &mut Meters, stacks: &BTreeMap<Key, Stack>) -> Result<(), NoMemory>
    requires few { meters.old.booked + sum_by (λ stack. length stack.1.versions) stacks.now.entries ≤ most_bookings }
    ensures stays { OnOk result (AddsStays (flat_map stack_stays stacks.now.entries) meters.old meters.new) }
    ensures booked { OnOk result (meters.new.booked
        ≡ meters.old.booked + sum_by (λ stack. length stack.1.versions) stacks.now.entries) }
{
    for (key, stack) in stacks.iter() {
        open_stack(meters, key, stack)?;
    }
    Ok(())
}

/// Opens the stay of each part of an upload.
fn open_upload(meters: &mut Meters, upload: &Upload) -> Result<(), NoMemory>
    requires few { meters.old.booked + length upload.now.parts ≤ most_bookings }
    ensures stays { OnOk result ((number : ℕ) → AddsStays (upload_stays (number, upload.now)) meters.old meters.new) }
    ensures booked { OnOk result (meters.new.booked ≡ meters.old.booked + length upload.now.parts) }
{
    let class = upload.class();
    for (_, part) in upload.parts().iter() {
        begin_stay(meters, &part_billed(class, part.size), part.put)?;
    }
    Ok(())
}

/// Opens the stay of each part.
fn open_uploads(meters: &mut Meters, uploads: &BTreeMap<u64, Upload>) -> Result<(), NoMemory>
    requires few { meters.old.booked + sum_by (λ upload. length upload.1.parts) uploads.now.entries ≤ most_bookings }
    ensures stays { OnOk result (AddsStays (flat_map upload_stays uploads.now.entries) meters.old meters.new) }
    ensures booked { OnOk result (meters.new.booked
        ≡ meters.old.booked + sum_by (λ upload. length upload.1.parts) uploads.now.entries) }
{
    for (_, upload) in uploads.iter() {
        open_upload(meters, upload)?;
    }
    Ok(())
}

/// Opens the stay of each version and part of a bucket.
///
/// # Errors
///
/// `NoMemory`: memory ran out. Some stays may be open then.
pub(crate) fn open_all(meters: &mut Meters, bucket: &Bucket) -> Result<(), NoMemory>
    requires few { meters.old.booked + version_count bucket.now + part_count bucket.now ≤ most_bookings }
    ensures stays { OnOk result (AddsStays (open_stays bucket.now) meters.old meters.new) }
    ensures booked { OnOk result (meters.new.booked
        ≡ meters.old.booked + version_count bucket.now + part_count bucket.now) }
{
    open_stacks(meters, &bucket.stacks)?;
    open_uploads(meters, &bucket.uploads)
}
