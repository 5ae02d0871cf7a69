// Starts, fills, completes and aborts multipart uploads.
ghost use Rattle.std.specs.Prelude.{◌≡◌, ◌+◌, ◌^◌, ◌<◌, ◌≤◌, ◌∷◌, [], ℕ, None, OnOk, OnErr, IfOk, IfErr, IfSome};
ghost use Rattle.uploads.specs.Uploads.{new_upload};
ghost use Rattle.due_index.specs.Index.{StandsFor};
ghost use Rattle.plain_office.specs.Office as plain;
ghost use Rattle.plain_office.specs.Step.{start_upload, put_part, complete, abort};
ghost use Rattle.office_types.specs.declared.refusal.What.TheVariants.{Versions, Uploads, Parts, Names};
ghost use Rattle.office_types.specs.Fits.{ReplyFits};
ghost use Rattle.bucket_account.specs.Changing.{IsOrderlyAccount, DoesTold};
ghost use Rattle.bucket_account.specs.Counting.{account_of, AreCountsOver, IsWithinBy, HasGrownBy, IsFewMore};
ghost use Rattle.bucket_account.specs.Counting.{first_over, IsFullOf};
ghost use Rattle.bucket_account.specs.Uploading.{counts_started};
ghost use Rattle.bucket_account.specs.Standing.{StandsForAccount, most_commands};

use crate::adding::next_number;
use crate::change::Done;
use crate::completing::{put_whole, whole};
use crate::counts::Counts;
use crate::dropping::{remove_upload, without};
use crate::incoming::{id_of, tag_bytes};
use crate::parts::{put_in, with_part};
use crate::renewing::{renew_key_of, renew_upload};
use accrual::Meters;
use class_rules::Class;
use due_core::Bucket;
use due_index::DueIndex;
use moments::Moment;
use office_base::{Key, Tags};
use office_types::{Refusal, Reply, What};
use std::alloc::Global;
use uploads::Upload;

/// The counts to which an upload adds, in the order in which they are tested.
const STARTED: [What; 2] = [What::Uploads, What::Names];

/// Returns the counts once an upload has started, within their limits.
fn counted(counts: Counts, key: &Key, tags: &Tags) -> Result<Counts, Refusal>
    requires uploads { counts.uploads ≤ 40_000 }
    requires names { counts.names ≤ 2 ^ 32 }
    ensures ok { IfOk result (λ after. (after ≡ counts_started key.now tags.now counts)
        × (first_over (Uploads ∷ Names ∷ []) after ≡ None)) }
    ensures full { IfErr result (IsFullOf (Uploads ∷ Names ∷ []) (counts_started key.now tags.now counts)) }
{
    let after = Counts {
        uploads: counts.uploads + 1,
        names: counts.names + (key.bytes().len() as u64 + tag_bytes(tags)),
        ..counts
    };
    after.within(&STARTED)
}

/// Returns an upload without parts.
fn started(
    alloc: Global,
    key: &Key,
    class: Class,
    tags: &Tags,
    t: Moment,
) -> Result<Upload, Refusal>
    ensures ok { IfOk result (λ upload. upload ≡ new_upload key.now class tags.now t) }
    ensures refusal { IfErr result (λ refusal. refusal ≡ Refusal.NoMemory) }
{
    let key = key.copy()?;
    let tags = tags.copy()?;
    Ok(Upload::start(alloc, key, class, tags, t))
}

/// Starts an upload.
///
/// Rule: S3 User Guide, "Uploading and copying objects using multipart upload": initiation.
/// Cost: one search of the uploads, and a copy of the key and the tags.
///
/// # Errors
///
/// `Full`: there would be more uploads, or more bytes of keys and tags, than their limits. `NoMemory`: memory ran
/// out. Nothing has then changed.
pub(crate) fn start_upload(
    bucket: &mut Bucket,
    meters: &mut Meters,
    alloc: Global,
    t: Moment,
    key: &Key,
    class: Class,
    tags: &Tags,
    counts: Counts,
) -> Result<Done, Refusal>
    requires account { (account : plain.Account) × StandsForAccount (account_of bucket.old meters.old) account
        × IsOrderlyAccount t account }
    requires room { (accepted : ℕ) × (accepted < most_commands)
        × IsWithinBy accepted (account_of bucket.old meters.old) }
    requires counts { AreCountsOver bucket.old counts }
    ensures done { (account : plain.Account) → StandsForAccount (account_of bucket.old meters.old) account
        → IsOrderlyAccount t account
        → DoesTold (Uploads ∷ Names ∷ []) (start_upload t key.now class tags.now account) account counts
        (account_of bucket.new meters.new) result }
    ensures room { OnOk result (HasGrownBy 3 1 (account_of bucket.old meters.old) (account_of bucket.new meters.new)) }
    ensures room_kept { OnErr result (HasGrownBy 0 0 (account_of bucket.old meters.old)
        (account_of bucket.new meters.new)) }
    ensures few { IfOk result (IsFewMore counts) }
    ensures fits { IfOk result (λ done. ReplyFits done.reply) }
{
    let number = bucket.next_upload;
    let counts = counted(counts, key, tags)?;
    let upload = started(alloc, key, class, tags, t)?;
    drop(bucket.uploads.insert(number, upload)?);
    bucket.next_upload = number + 1;
    Ok(Done {
        counts,
        reply: Reply::UploadStarted { upload: number },
    })
}

/// Puts a part of an upload. It replaces the part with the same number.
///
/// Rule: S3 User Guide, "Uploading and copying objects using multipart upload": parts upload.
/// Cost: one search of the uploads and four of the parts; if a new part is refused for the count, also a copy of the
/// upload.
///
/// # Errors
///
/// `NoSuchUpload`: there is none with this number. `BadPart`: the part is out of range. `Full`: there would be more
/// parts than their limit. `NoMemory`: memory ran out. Nothing has then changed.
pub(crate) fn put_part(
    bucket: &mut Bucket,
    meters: &mut Meters,
    t: Moment,
    upload: u64,
    part: u32,
    size: u64,
    counts: Counts,
) -> Result<Done, Refusal>
    requires account { (account : plain.Account) × StandsForAccount (account_of bucket.old meters.old) account
        × IsOrderlyAccount t account }
    requires room { (accepted : ℕ) × (accepted < most_commands)
        × IsWithinBy accepted (account_of bucket.old meters.old) }
    requires counts { AreCountsOver bucket.old counts }
    ensures done { (account : plain.Account) → StandsForAccount (account_of bucket.old meters.old) account
        → IsOrderlyAccount t account
        → DoesTold (Parts ∷ []) (put_part t upload part size account) account counts
        (account_of bucket.new meters.new) result }
    ensures room { OnOk result (HasGrownBy 3 1 (account_of bucket.old meters.old) (account_of bucket.new meters.new)) }
    ensures room_kept { OnErr result (HasGrownBy 0 0 (account_of bucket.old meters.old)
        (account_of bucket.new meters.new)) }
    ensures few { IfOk result (IsFewMore counts) }
    ensures fits { IfOk result (λ done. ReplyFits done.reply) }
{
    let Some(kept) = bucket.uploads.get_mut(&upload) else {
        return Err(Refusal::NoSuchUpload);
    };
    let counts = with_part(counts, kept, part, size, t)?;
    put_in(kept, meters, part, size, t)?;
    Ok(Done {
        counts,
        reply: Reply::PartStored { part },
    })
}

/// Makes an object of the parts of an upload, and removes the upload. What comes next is renewed first on the key, then
/// on the upload.
///
/// Rule: S3 User Guide, "Uploading and copying objects using multipart upload": completion. Own rule: the object is
/// created at the moment.
/// Cost: what a put takes, three searches of the uploads, and two passes over the parts.
///
/// # Errors
///
/// `NoSuchUpload`: there is none with this number. `NoParts`: it has no part. `Full`: there would be more versions, or
/// more bytes of keys and tags, than their limits. `NoMemory`: memory ran out. Nothing has then changed.
pub(crate) fn complete(
    bucket: &mut Bucket,
    meters: &mut Meters,
    index: &mut Option<DueIndex>,
    alloc: Global,
    t: Moment,
    upload: u64,
    counts: Counts,
) -> Result<Done, Refusal>
    requires account { (account : plain.Account) × StandsForAccount (account_of bucket.old meters.old) account
        × IsOrderlyAccount t account }
    requires room { (accepted : ℕ) × (accepted < most_commands)
        × IsWithinBy accepted (account_of bucket.old meters.old) }
    requires counts { AreCountsOver bucket.old counts }
    requires index { IfSome index.old (λ index. StandsFor index bucket.old) }
    ensures done { (account : plain.Account) → StandsForAccount (account_of bucket.old meters.old) account
        → IsOrderlyAccount t account
        → DoesTold (Versions ∷ Names ∷ []) (complete t upload account) account counts
        (account_of bucket.new meters.new) result }
    ensures room { OnOk result (HasGrownBy 3 1 (account_of bucket.old meters.old) (account_of bucket.new meters.new)) }
    ensures room_kept { OnErr result (HasGrownBy 0 0 (account_of bucket.old meters.old)
        (account_of bucket.new meters.new)) }
    ensures few { IfOk result (IsFewMore counts) }
    ensures fits { IfOk result (λ done. ReplyFits done.reply) }
    ensures index { IfSome index.new (λ index. StandsFor index bucket.new) }
{
    let (versioning, number) = (bucket.versioning, bucket.next_version);
    let Some(kept) = bucket.uploads.get(&upload) else {
        return Err(Refusal::NoSuchUpload);
    };
    let object = whole(kept, versioning, number, t)?;
    let left = without(counts, kept);
    let counts = put_whole(&mut bucket.stacks, meters, alloc, kept, object, left)?;
    bucket.next_version = next_number(versioning, number);
    renew_key_of(index, bucket, upload);
    drop(bucket.uploads.remove(&upload));
    renew_upload(index, bucket, upload);
    Ok(Done {
        counts,
        reply: Reply::Stored {
            moment: t,
            version: id_of(versioning, number),
        },
    })
}

/// Drops an upload with its parts.
///
/// Rule: S3 User Guide, "Aborting a multipart upload".
/// Cost: two passes over the parts.
///
/// # Errors
///
/// `NoSuchUpload`: there is none with this number. `NoMemory`: memory ran out. Nothing has then changed.
pub(crate) fn abort(
    bucket: &mut Bucket,
    meters: &mut Meters,
    t: Moment,
    upload: u64,
    counts: Counts,
) -> Result<Done, Refusal>
    requires account { (account : plain.Account) × StandsForAccount (account_of bucket.old meters.old) account
        × IsOrderlyAccount t account }
    requires room { (accepted : ℕ) × (accepted < most_commands)
        × IsWithinBy accepted (account_of bucket.old meters.old) }
    requires counts { AreCountsOver bucket.old counts }
    ensures done { (account : plain.Account) → StandsForAccount (account_of bucket.old meters.old) account
        → IsOrderlyAccount t account
        → DoesTold ([]) (abort t upload account) account counts
        (account_of bucket.new meters.new) result }
    ensures room { OnOk result (HasGrownBy 3 1 (account_of bucket.old meters.old) (account_of bucket.new meters.new)) }
    ensures room_kept { OnErr result (HasGrownBy 0 0 (account_of bucket.old meters.old)
        (account_of bucket.new meters.new)) }
    ensures few { IfOk result (IsFewMore counts) }
    ensures fits { IfOk result (λ done. ReplyFits done.reply) }
{
    if !bucket.uploads.contains_key(&upload) {
        return Err(Refusal::NoSuchUpload);
    }
    let counts = remove_upload(bucket, meters, upload, t, counts)?;
    Ok(Done {
        counts,
        reply: Reply::Aborted { upload },
    })
}
