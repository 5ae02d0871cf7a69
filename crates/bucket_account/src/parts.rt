// Puts a part of an upload.
ghost use Rattle.std.specs.Prelude.{◌≡◌, ◌⊎◌, ◌+◌, ◌<◌, ◌≤◌, ◌∷◌, [], ℕ, List, None, true, false, OnOk, OnErr, IfOk};
ghost use Rattle.std.specs.Prelude.{IfErr};
ghost use Rattle.uploads.specs.Uploads.{IsUpload, new_part, part_at, after_part, admits_part};
ghost use Rattle.accrual.specs.Books.{Book};
ghost use Rattle.accrual.specs.Totals.{AreTotalsOf, HasRow, most_bookings};
ghost use Rattle.plain_office.specs.Office.{Books, Item, book_of, of_part};
ghost use Rattle.plain_office.specs.Books.{with_end};
ghost use Rattle.office_types.specs.declared.refusal.What.TheVariants.{Parts};
ghost use Rattle.bucket_account.specs.Counting.{first_over};
ghost use Rattle.bucket_account.specs.Uploading.{HasPartStay, MayEndAt, put_since, books_with_part, counts_with_part};
ghost use Rattle.bucket_account.specs.Uploading.{IsPartRefused};

use crate::booking::reserve;
use crate::counts::Counts;
use crate::dropping::part_billed;
use accrual::Meters;
use class_rules::Class;
use moments::Moment;
use office_types::{Refusal, What};
use uploads::{Part, Upload, UploadRefusal};

/// The count to which a part adds.
const ADDED: [What; 1] = [What::Parts];

/// Puts a part in its upload, and returns the one that it replaces.
fn put_kept(
    upload: &mut Upload,
    number: u32,
    size: u64,
    at: Moment,
) -> Result<Option<Part>, Refusal>
    requires later { upload.old.changed ≤ at }
    ensures upload { OnOk result (upload.new ≡ after_part number size at upload.old) }
    ensures gone { IfOk result (λ gone. gone ≡ part_at number upload.old.parts) }
    ensures admitted { OnOk result (admits_part number (new_part size at) upload.old.parts ≡ true) }
    ensures kept { OnErr result (upload.new ≡ upload.old) }
    ensures refusal { IfErr result (λ refusal. (refusal ≡ Refusal.NoMemory)
        ⊎ ((refusal ≡ Refusal.BadPart) × (admits_part number (new_part size at) upload.old.parts ≡ false))) }
{
    match upload.put_part(number, size, at) {
        Ok(gone) => Ok(gone),
        Err(refusal) => match refusal {
            UploadRefusal::BadPart => Err(Refusal::BadPart),
            UploadRefusal::NoMemory => Err(Refusal::NoMemory),
            UploadRefusal::NoParts => unreachable!(),
        },
    }
}

/// Returns the refusal of a part if there would be too many: the part's own range is tested first.
fn refused(upload: &Upload, number: u32, size: u64, at: Moment, full: Refusal) -> Refusal
    ensures { ((result ≡ Refusal.BadPart) × (admits_part number (new_part size at) upload.now.parts ≡ false))
        ⊎ ((result ≡ full) × (admits_part number (new_part size at) upload.now.parts ≡ true)) }
{
    if upload.admits(number, size, at) {
        full
    } else {
        Refusal::BadPart
    }
}

/// Returns the counts once a part has come, within their limits.
pub(crate) fn with_part(
    counts: Counts,
    upload: &Upload,
    number: u32,
    size: u64,
    at: Moment,
) -> Result<Counts, Refusal>
    requires later { upload.now.changed ≤ at }
    requires few { counts.parts ≤ 1_000_000 }
    ensures ok { IfOk result (λ after. (after ≡ counts_with_part number upload.now counts)
        × (first_over (Parts ∷ []) after ≡ None)) }
    ensures refused { IfErr result (IsPartRefused number size at upload.now counts) }
{
    let more = match upload.parts().get(&number) {
        Some(_) => 0,
        None => 1,
    };
    let after = Counts {
        parts: counts.parts + more,
        ..counts
    };
    match after.within(&ADDED) {
        Ok(after) => Ok(after),
        Err(full) => Err(refused(upload, number, size, at, full)),
    }
}

/// Returns since when the part with this number is stored; the moment if there is none.
fn put_since(upload: &Upload, number: u32, at: Moment) -> Moment
    ensures since { result ≡ put_since at (part_at number upload.now.parts) }
    ensures ranges { IsUpload upload.now }
{
    match upload.parts().get(&number) {
        Some(part) => part.put,
        None => at,
    }
}

/// Books that a part goes, if there is one.
fn end_part(meters: &mut Meters, class: Class, gone: &Option<Part>, at: Moment)
    requires ends { MayEndAt at meters.old gone.now }
    requires open { (key : List ℕ) × (item : Item) × (books : Books) × AreTotalsOf meters.old (book_of books)
        × HasPartStay key item class gone.now books }
    ensures stands { (key : List ℕ) (item : Item) (books : Books) → AreTotalsOf meters.old (book_of books)
        → HasPartStay key item class gone.now books → AreTotalsOf meters.new (book_of (with_end key item at books)) }
    ensures rows { (month : ℕ) → HasRow meters.old month → HasRow meters.new month }
    ensures booked { meters.new.booked ≡ meters.old.booked }
{
    if let Some(part) = gone {
        meters.end(&part_billed(class, part.size), part.put, at);
    }
}

/// Puts a part in its upload: the stay of the one that it replaces ends, and its own begins.
pub(crate) fn put_in(
    upload: &mut Upload,
    meters: &mut Meters,
    number: u32,
    size: u64,
    at: Moment,
) -> Result<(), Refusal>
    requires later { upload.old.changed ≤ at }
    requires few { meters.old.booked < most_bookings }
    requires open { (of : ℕ) × (books : Books) × AreTotalsOf meters.old (book_of books)
        × HasPartStay upload.old.key (of_part of number) upload.old.class (part_at number upload.old.parts) books }
    ensures upload { OnOk result (upload.new ≡ after_part number size at upload.old) }
    ensures meters { OnOk result ((of : ℕ) (books : Books) → AreTotalsOf meters.old (book_of books)
        → HasPartStay upload.old.key (of_part of number) upload.old.class (part_at number upload.old.parts) books
        → AreTotalsOf meters.new (book_of (books_with_part of upload.old number size at books))) }
    ensures admitted { OnOk result (admits_part number (new_part size at) upload.old.parts ≡ true) }
    ensures upload_kept { OnErr result (upload.new ≡ upload.old) }
    ensures meters_kept { OnErr result ((book : Book) → AreTotalsOf meters.old book → AreTotalsOf meters.new book) }
    ensures refusal { IfErr result (λ refusal. (refusal ≡ Refusal.NoMemory)
        ⊎ ((refusal ≡ Refusal.BadPart) × (admits_part number (new_part size at) upload.old.parts ≡ false))) }
    ensures booked { meters.new.booked ≤ meters.old.booked + 1 }
    ensures not_booked { OnErr result (meters.new.booked ≡ meters.old.booked) }
{
    let class = upload.class();
    reserve(meters, put_since(upload, number, at), at)?;
    let gone = put_kept(upload, number, size, at)?;
    end_part(meters, class, &gone, at);
    meters.open(&part_billed(class, size), at);
    Ok(())
}
