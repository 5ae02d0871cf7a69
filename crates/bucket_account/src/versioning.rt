// Sets the versioning of a bucket.
ghost use Rattle.std.specs.Prelude.{◌≡◌, ◌<◌, [], ℕ, OnOk, OnErr, IfOk, if◌then◌else◌};
ghost use Rattle.plain_office.specs.Office as plain;
ghost use Rattle.plain_office.specs.Step.{is_unversioned, set_versioning};
ghost use Rattle.office_types.specs.Fits.{ReplyFits};
ghost use Rattle.bucket_account.specs.Changing.{IsOrderlyAccount, DoesTold};
ghost use Rattle.bucket_account.specs.Counting.{account_of, AreCountsOver, IsWithinBy, HasGrownBy, IsFewMore};
ghost use Rattle.bucket_account.specs.Standing.{StandsForAccount, most_commands};

use crate::change::Done;
use crate::counts::Counts;
use accrual::Meters;
use due_core::Bucket;
use moments::Moment;
use office_types::{Refusal, Reply};
use stacks::Versioning;

fn is_unversioned(versioning: Versioning) -> bool
    ensures { result ≡ is_unversioned versioning }
{
    versioning == Versioning::Unversioned
}

fn versioning_of(enabled: bool) -> Versioning
    ensures { result ≡ (if enabled then Versioning.Enabled else Versioning.Suspended) }
{
    if enabled {
        Versioning::Enabled
    } else {
        Versioning::Suspended
    }
}

/// Sets whether a bucket keeps versions: enabled, or suspended. No lifecycle action stands before the moment then, even
/// if the bucket had this versioning before.
///
/// Rule: S3 User Guide, "Using versioning in S3 buckets".
///
/// # Errors
///
/// `NotEnabledBefore`: the bucket is to be suspended and was never enabled. It is then unchanged.
pub(crate) fn set_versioning(
    bucket: &mut Bucket,
    meters: &mut Meters,
    t: Moment,
    enabled: bool,
    counts: Counts,
) -> Result<Done, Refusal>
    requires account { (account : plain.Account) × StandsForAccount (account_of bucket.old meters.old) account
        × IsOrderlyAccount t account }
    requires room { (accepted : ℕ) × (accepted < most_commands)
        × IsWithinBy accepted (account_of bucket.old meters.old) }
    requires counts { AreCountsOver bucket.old counts }
    ensures done { (account : plain.Account) → StandsForAccount (account_of bucket.old meters.old) account
        → IsOrderlyAccount t account
        → DoesTold ([]) (set_versioning t enabled account) account counts
        (account_of bucket.new meters.new) result }
    ensures room { OnOk result (HasGrownBy 3 1 (account_of bucket.old meters.old) (account_of bucket.new meters.new)) }
    ensures room_kept { OnErr result (HasGrownBy 0 0 (account_of bucket.old meters.old)
        (account_of bucket.new meters.new)) }
    ensures few { IfOk result (IsFewMore counts) }
    ensures fits { IfOk result (λ done. ReplyFits done.reply) }
{
    if !enabled && is_unversioned(bucket.versioning) {
        return Err(Refusal::NotEnabledBefore);
    }
    let versioning = versioning_of(enabled);
    bucket.versioning = versioning;
    bucket.rules_since = t;
    Ok(Done {
        counts,
        reply: Reply::VersioningSet { versioning },
    })
}
