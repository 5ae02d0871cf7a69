// Books versions that come and go.
ghost use Rattle.std.specs.Prelude.{◌≡◌, ◌+◌, ◌<◌, ◌≤◌, ℕ, length, OnOk, IfErr};
ghost use Rattle.class_rules.specs.Lines.{lines_of, object_lines, own_bytes, marker_line};
ghost use Rattle.accrual.specs.Books.{Book};
ghost use Rattle.accrual.specs.Totals.{AreTotalsOf, HasRow, IsBilled, most_bookings};
ghost use Rattle.plain_office.specs.Office.{Books, book_of};
ghost use Rattle.plain_office.specs.Books.{lines_of_kind, without_version, without_option};
ghost use Rattle.plain_office.specs.Orderly.{lines_since};
ghost use Rattle.bucket_account.specs.Booking.{HasStay, MayHaveStay, MayHaveRows, IsSinceBy, HasRowsFrom};

use accrual::Meters;
use class_rules::{Class, Lines, billed, marker_lines};
use moments::{Moment, month_of};
use office_base::{Key, NoMemory, Size};
use office_types::Refusal;
use stacks::{Kind, Version};

/// Makes rows for all months from the one moment's to the other's.
pub(crate) fn reserve(meters: &mut Meters, from: Moment, to: Moment) -> Result<(), Refusal>
    requires later { from ≤ to }
    ensures rows { OnOk result (HasRowsFrom from to meters.new) }
    ensures kept { (month : ℕ) → HasRow meters.old month → HasRow meters.new month }
    ensures stands { (book : Book) → AreTotalsOf meters.old book → AreTotalsOf meters.new book }
    ensures booked { meters.new.booked ≡ meters.old.booked }
    ensures refusal { IfErr result (λ refusal. refusal ≡ Refusal.NoMemory) }
{
    match meters.reserve(month_of(from), month_of(to)) {
        Ok(()) => Ok(()),
        Err(NoMemory) => Err(Refusal::NoMemory),
    }
}

/// Returns the lines of an object.
pub(crate) fn object_billed(class: Class, size: Size) -> Lines
    ensures lines { lines_of result ≡ object_lines class size }
    ensures class { result.class ≡ class }
    ensures own { result.bytes ≡ own_bytes class size }
    ensures billed { IsBilled result }
{
    billed(class, size.bytes())
}

fn marker_billed(key: &Key) -> Lines
    ensures lines { lines_of result ≡ marker_line (length key.now) }
    ensures billed { IsBilled result }
{
    marker_lines(key.bytes().len() as u64)
}

/// Returns the lines of a version of this kind under a key.
pub(crate) fn kind_billed(key: &Key, kind: &Kind) -> Lines
    ensures lines { lines_of result ≡ lines_of_kind key.now kind.now }
    ensures billed { IsBilled result }
{
    match kind {
        Kind::Object { size, class, .. } => object_billed(*class, *size),
        Kind::Marker => marker_billed(key),
    }
}

/// Books that a version goes: its stay ends, and an object owes what is left of the least duration.
pub(crate) fn end_version(meters: &mut Meters, key: &Key, version: &Version, at: Moment)
    requires later { lines_since version.now ≤ at }
    requires rows { HasRowsFrom (lines_since version.now) at meters.old }
    requires few { meters.old.booked < most_bookings }
    requires open { (books : Books) × AreTotalsOf meters.old (book_of books) × HasStay key.now version.now books }
    ensures stands { (books : Books) → AreTotalsOf meters.old (book_of books) → HasStay key.now version.now books
        → AreTotalsOf meters.new (book_of (without_version key.now version.now at books)) }
    ensures rows { (month : ℕ) → HasRow meters.old month → HasRow meters.new month }
    ensures booked { meters.new.booked ≤ meters.old.booked + 1 }
{
    match &version.kind {
        Kind::Object {
            size,
            class,
            entered,
            ..
        } => {
            let lines = object_billed(*class, *size);
            meters.end(&lines, *entered, at);
            meters.early(lines.class, lines.bytes, *entered, at);
        }
        Kind::Marker => meters.end(&marker_billed(key), version.created, at),
    }
}

/// Books that a version goes, if there is one.
pub(crate) fn end_replaced(meters: &mut Meters, key: &Key, gone: &Option<Version>, at: Moment)
    requires later { IsSinceBy at gone.now }
    requires rows { MayHaveRows gone.now at meters.old }
    requires few { meters.old.booked < most_bookings }
    requires open { (books : Books) × AreTotalsOf meters.old (book_of books) × MayHaveStay key.now gone.now books }
    ensures stands { (books : Books) → AreTotalsOf meters.old (book_of books) → MayHaveStay key.now gone.now books
        → AreTotalsOf meters.new (book_of (without_option key.now gone.now at books)) }
    ensures rows { (month : ℕ) → HasRow meters.old month → HasRow meters.new month }
    ensures booked { meters.new.booked ≤ meters.old.booked + 1 }
{
    if let Some(version) = gone {
        end_version(meters, key, version, at);
    }
}
