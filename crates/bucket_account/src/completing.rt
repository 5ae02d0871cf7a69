// Makes an object of the parts of an upload.
ghost use Rattle.std.specs.Prelude.{◌≡◌, ◌⊎◌, ◌+◌, ◌≤◌, ◌∷◌, [], ℕ, None, true, false, option_map, OnOk, OnErr, IfOk};
ghost use Rattle.std.specs.Prelude.{IfErr};
ghost use Rattle.std.specs.Ordering.{nat_cmp};
ghost use Rattle.office_base.specs.Maps.{bytes_cmp, with_name, Rises};
ghost use Rattle.rules_core.specs.Matching.{is_empty};
ghost use Rattle.accrual.specs.Books.{Book};
ghost use Rattle.accrual.specs.Totals.{AreTotalsOf, most_bookings};
ghost use Rattle.plain_office.specs.Office.{Books, book_of};
ghost use Rattle.office_types.specs.declared.refusal.What.TheVariants.{Versions, Names};
ghost use Rattle.bucket_account.specs.Booking.{leaving_of, stack_under, stack_put, gone_of, books_put, counts_after};
ghost use Rattle.bucket_account.specs.Booking.{gone_bytes, MayHaveStay, MayBePut, AreMovable};
ghost use Rattle.bucket_account.specs.Counting.{first_over, IsFullOf};
ghost use Rattle.bucket_account.specs.Uploading.{HavePartStays, parts_ended, whole_of};

use crate::adding::put_version;
use crate::booking::reserve;
use crate::counts::Counts;
use crate::dropping::{end_parts, first_put};
use crate::incoming::Incoming;
use accrual::Meters;
use moments::Moment;
use office_base::Key;
use office_types::{Refusal, What};
use stacks::{Kind, Stack, Versioning};
use std::alloc::Global;
use std::collections::BTreeMap;
use uploads::Upload;

/// The counts to which an object adds, in the order in which they are tested.
const ADDED: [What; 2] = [What::Versions, What::Names];

/// Returns the object that the parts of an upload make: it has all their bytes, and is created at the moment.
///
/// # Errors
///
/// `NoParts`: there is no part. `NoMemory`: memory ran out.
pub(crate) fn whole(
    upload: &Upload,
    versioning: Versioning,
    number: u64,
    at: Moment,
) -> Result<Incoming, Refusal>
    ensures ok { IfOk result (λ incoming. incoming ≡ whole_of upload.now versioning number at) }
    ensures some { OnOk result (is_empty upload.now.parts ≡ false) }
    ensures refusal { IfErr result (λ refusal. (refusal ≡ Refusal.NoMemory)
        ⊎ ((refusal ≡ Refusal.NoParts) × (is_empty upload.now.parts ≡ true))) }
{
    let Ok(size) = upload.whole() else {
        return Err(Refusal::NoParts);
    };
    let tags = upload.tags().copy()?;
    let kind = Kind::Object {
        size,
        class: upload.class(),
        tags,
        entered: at,
    };
    Ok(Incoming {
        versioning,
        number,
        kind,
        at,
    })
}

/// Puts the object that an upload makes under its key, and ends the stays of the parts. `counts` no longer include the
/// upload.
pub(crate) fn put_whole(
    stacks: &mut BTreeMap<Key, Stack>,
    meters: &mut Meters,
    alloc: Global,
    upload: &Upload,
    incoming: Incoming,
    counts: Counts,
) -> Result<Counts, Refusal>
    requires rises { Rises bytes_cmp stacks.old.entries }
    requires ready { MayBePut incoming (stack_under upload.now.key stacks.old.entries) }
    requires room { AreMovable counts
        (gone_bytes (option_map leaving_of (gone_of upload.now.key incoming stacks.old.entries))) }
    requires few { meters.old.booked + 2 ≤ most_bookings }
    requires parts { Rises nat_cmp upload.now.parts }
    requires later { upload.now.changed ≤ incoming.at }
    requires open { (number : ℕ) × (books : Books) × AreTotalsOf meters.old (book_of books)
        × MayHaveStay upload.now.key (gone_of upload.now.key incoming stacks.old.entries) books
        × HavePartStays number upload.now upload.now.parts books }
    ensures stacks { OnOk result (stacks.new.entries ≡ with_name upload.now.key
        (stack_put incoming (stack_under upload.now.key stacks.old.entries)) stacks.old.entries) }
    ensures meters { OnOk result ((number : ℕ) (books : Books) → AreTotalsOf meters.old (book_of books)
        → MayHaveStay upload.now.key (gone_of upload.now.key incoming stacks.old.entries) books
        → HavePartStays number upload.now upload.now.parts books → AreTotalsOf meters.new
        (book_of (parts_ended upload.now.key number incoming.at upload.now.parts
        (books_put upload.now.key incoming (gone_of upload.now.key incoming stacks.old.entries) books)))) }
    ensures counts { IfOk result (λ after. (after ≡ counts_after upload.now.key incoming stacks.old.entries counts)
        × (first_over (Versions ∷ Names ∷ []) after ≡ None)) }
    ensures refused { IfErr result (λ refusal. (refusal ≡ Refusal.NoMemory) ⊎ IsFullOf (Versions ∷ Names ∷ [])
        (counts_after upload.now.key incoming stacks.old.entries counts) refusal) }
    ensures stacks_kept { OnErr result (stacks.new.entries ≡ stacks.old.entries) }
    ensures meters_kept { OnErr result ((book : Book) → AreTotalsOf meters.old book → AreTotalsOf meters.new book) }
    ensures booked { meters.new.booked ≤ meters.old.booked + 2 }
    ensures not_booked { OnErr result (meters.new.booked ≡ meters.old.booked) }
{
    let at = incoming.at;
    reserve(meters, first_put(upload, at), at)?;
    let counts = put_version(
        stacks,
        meters,
        alloc,
        upload.key(),
        incoming,
        &ADDED,
        counts,
    )?;
    end_parts(meters, upload, at);
    Ok(counts)
}
