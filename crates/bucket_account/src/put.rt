// Puts an object.
ghost use Rattle.std.specs.Prelude.{◌<◌, ◌∷◌, [], ℕ, OnOk, OnErr, IfOk};
ghost use Rattle.plain_office.specs.Office as plain;
ghost use Rattle.plain_office.specs.Step.{put_object};
ghost use Rattle.office_types.specs.declared.refusal.What.TheVariants.{Versions, Names};
ghost use Rattle.office_types.specs.Fits.{ReplyFits};
ghost use Rattle.bucket_account.specs.Changing.{IsOrderlyAccount, DoesTold};
ghost use Rattle.bucket_account.specs.Counting.{account_of, AreCountsOver, IsWithinBy, HasGrownBy, IsFewMore};
ghost use Rattle.bucket_account.specs.Standing.{StandsForAccount, most_commands};

use crate::adding::add_version;
use crate::change::Done;
use crate::counts::Counts;
use crate::incoming::id_of;
use accrual::Meters;
use class_rules::Class;
use due_core::Bucket;
use moments::Moment;
use office_base::{Key, Size, Tags};
use office_types::{Refusal, Reply, What};
use stacks::Kind;
use std::alloc::Global;

/// The counts to which a put adds, in the order in which they are tested.
const ADDED: [What; 2] = [What::Versions, What::Names];

/// Puts an object in a bucket.
///
/// Rule: S3 User Guide, "Uploading objects".
/// Cost: one search of the keys, and what `Stack::put` takes.
///
/// # Errors
///
/// `Full`: there would be more versions, or more bytes of keys and tags, than their limits. `NoMemory`: memory ran
/// out. Nothing has then changed.
pub(crate) fn put(
    bucket: &mut Bucket,
    meters: &mut Meters,
    alloc: Global,
    t: Moment,
    key: &Key,
    size: Size,
    class: Class,
    tags: &Tags,
    counts: Counts,
) -> Result<Done, Refusal>
    requires account { (account : plain.Account) × StandsForAccount (account_of bucket.old meters.old) account
        × IsOrderlyAccount t account }
    requires room { (accepted : ℕ) × (accepted < most_commands)
        × IsWithinBy accepted (account_of bucket.old meters.old) }
    requires counts { AreCountsOver bucket.old counts }
    ensures done { (account : plain.Account) → StandsForAccount (account_of bucket.old meters.old) account
        → IsOrderlyAccount t account
        → DoesTold (Versions ∷ Names ∷ []) (put_object t key.now size class tags.now account) account counts
        (account_of bucket.new meters.new) result }
    ensures room { OnOk result (HasGrownBy 3 1 (account_of bucket.old meters.old) (account_of bucket.new meters.new)) }
    ensures room_kept { OnErr result (HasGrownBy 0 0 (account_of bucket.old meters.old)
        (account_of bucket.new meters.new)) }
    ensures few { IfOk result (IsFewMore counts) }
    ensures fits { IfOk result (λ done. ReplyFits done.reply) }
{
    let Ok(tags) = tags.copy() else {
        return Err(Refusal::NoMemory);
    };
    let version = id_of(bucket.versioning, bucket.next_version);
    let kind = Kind::Object {
        size,
        class,
        tags,
        entered: t,
    };
    let counts = add_version(bucket, meters, alloc, key, kind, t, &ADDED, counts)?;
    Ok(Done {
        counts,
        reply: Reply::Stored { moment: t, version },
    })
}
