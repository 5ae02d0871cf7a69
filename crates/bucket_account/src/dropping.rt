// Removes an upload with all its parts.
ghost use Rattle.std.specs.Prelude.{◌≡◌, ◌+◌, ◌<◌, ◌≤◌, [], ℕ, length, IfOk, IsSome};
ghost use Rattle.std.specs.List.{AllByRecursion};
ghost use Rattle.std.specs.Ordering.{nat_cmp};
ghost use Rattle.office_base.specs.Maps.{at_number, Rises};
ghost use Rattle.office_base.specs.Sizes.{largest_size};
ghost use Rattle.class_rules.specs.Lines.{lines_of, part_line};
ghost use Rattle.uploads.specs.Uploads.{IsUpload};
ghost use Rattle.accrual.specs.Totals.{AreTotalsOf, IsBilled};
ghost use Rattle.plain_office.specs.Office.{Account, Books, book_of};
ghost use Rattle.plain_office.specs.Changes.{remove_upload_at};
ghost use Rattle.plain_office.specs.Counts.{tag_bytes};
ghost use Rattle.bucket_account.specs.Counting.{account_of, AreCountsOver, HasGrownBy};
ghost use Rattle.bucket_account.specs.Effects.{IsUploadReadyAt, DoesEffect};
ghost use Rattle.bucket_account.specs.Standing.{StandsForAccount};
ghost use Rattle.bucket_account.specs.Uploading.{HavePartStays, AreEndableAt, parts_ended, counts_without};

use crate::booking::reserve;
use crate::counts::Counts;
use crate::incoming::tag_bytes;
use accrual::Meters;
use class_rules::{Class, Lines, part_lines};
use due_core::Bucket;
use moments::Moment;
use office_types::Refusal;
use uploads::Upload;

/// Returns when the first of the parts that are left was put; this moment if all of them were put later.
pub(crate) fn first_put(upload: &Upload, at: Moment) -> Moment
    ensures parts { AllByRecursion (λ part. result ≤ part.1.put) upload.now.parts }
    ensures at { result ≤ at }
    ensures ranges { IsUpload upload.now }
{
    let mut first = at;
    for (_, part) in upload.parts().iter() {
        if part.put.ms() < first.ms() {
            first = part.put;
        }
    }
    first
}

/// Returns the line of a part.
pub(crate) fn part_billed(class: Class, size: u64) -> Lines
    requires { size ≤ largest_size }
    ensures lines { lines_of result ≡ part_line class size }
    ensures billed { IsBilled result }
{
    part_lines(class, size)
}

/// Books that the parts of an upload go: the stay of each ends.
pub(crate) fn end_parts(meters: &mut Meters, upload: &Upload, at: Moment)
    requires rises { Rises nat_cmp upload.now.parts }
    requires endable { AreEndableAt at meters.old upload.now.parts }
    requires open { (number : ℕ) × (books : Books) × AreTotalsOf meters.old (book_of books)
        × HavePartStays number upload.now upload.now.parts books }
    ensures stands { (number : ℕ) (books : Books) → AreTotalsOf meters.old (book_of books)
        → HavePartStays number upload.now upload.now.parts books
        → AreTotalsOf meters.new (book_of (parts_ended upload.now.key number at upload.now.parts books)) }
    ensures booked { meters.new.booked ≡ meters.old.booked }
{
    let class = upload.class();
    for (_, part) in upload.parts().iter() {
        meters.end(&part_billed(class, part.size), part.put, at);
    }
}

/// Returns the counts once an upload has gone.
pub(crate) fn without(counts: Counts, upload: &Upload) -> Counts
    requires uploads { 1 ≤ counts.uploads }
    requires parts { length upload.now.parts ≤ counts.parts }
    requires names { length upload.now.key + tag_bytes upload.now.tags ≤ counts.names }
    ensures { result ≡ counts_without upload.now counts }
{
    Counts {
        uploads: counts.uploads - 1,
        parts: counts.parts - upload.parts().len() as u64,
        names: counts.names - upload.key().bytes().len() as u64 - tag_bytes(upload.tags()),
        ..counts
    }
}

/// Takes an upload out of a bucket, ends the stays of its parts at the moment, and returns the counts after it.
///
/// Rule: S3 User Guide, "Aborting a multipart upload".
/// Cost: two passes over the parts.
///
/// # Errors
///
/// `NoMemory`: memory ran out. The bucket is then unchanged.
pub(crate) fn remove_upload(
    bucket: &mut Bucket,
    meters: &mut Meters,
    number: u64,
    at: Moment,
    counts: Counts,
) -> Result<Counts, Refusal>
    requires account { (account : Account) × StandsForAccount (account_of bucket.old meters.old) account
        × IsUploadReadyAt number at account }
    requires there { IsSome (at_number number bucket.old.uploads) }
    requires counts { AreCountsOver bucket.old counts }
    ensures done { (account : Account) → StandsForAccount (account_of bucket.old meters.old) account
        → IsUploadReadyAt number at account
        → DoesEffect ([]) (remove_upload_at number at) account counts (account_of bucket.new meters.new) result }
    ensures room { HasGrownBy 0 0 (account_of bucket.old meters.old) (account_of bucket.new meters.new) }
    ensures same { IfOk result (λ moved. (moved.versions ≡ counts.versions) × (moved.rules ≡ counts.rules)) }
{
    let Some(upload) = bucket.uploads.get(&number) else {
        unreachable!()
    };
    reserve(meters, first_put(upload, at), at)?;
    let after = without(counts, upload);
    end_parts(meters, upload, at);
    drop(bucket.uploads.remove(&number));
    Ok(after)
}
