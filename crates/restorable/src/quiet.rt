// Whether no eligible action stands in a closed month.
ghost use Rattle.std.specs.Prelude.{◌≡◌, ◌+◌, ◌<◌, IfOk};
ghost use Rattle.std.specs.List.{list_all};
ghost use Rattle.moments.specs.Time.{end_of_time};
ghost use Rattle.restorable.specs.Tests.{is_quiet};

use due_core::{Bucket, chosen};
use moments::Moment;
use office_base::NoMemory;
use office_snapshot::BucketPart;

// Whether no eligible action of the bucket stands up to the moment.
#[tactic(auto, using(crate::proofs::QuietTests::no_choice, crate::proofs::QuietTests::some_choice))]
fn is_quiet_until(last: Moment, bucket: &Bucket) -> Result<bool, NoMemory>
    ensures { IfOk result (λ yes. yes ≡ is_quiet (last + 1) bucket.now) }
{
    match chosen(bucket, last)? {
        None => Ok(true),
        Some(_) => Ok(false),
    }
}

// Whether no eligible action of the bucket stands before the moment.
fn is_quiet(until: u64, bucket: &Bucket) -> Result<bool, NoMemory>
    requires { until < end_of_time }
    ensures { IfOk result (λ yes. yes ≡ is_quiet until bucket.now) }
{
    if until == 0 {
        return Ok(true);
    }
    match Moment::of(until - 1) {
        Ok(last) => is_quiet_until(last, bucket),
        Err(_) => unreachable!(),
    }
}

// Whether no eligible action of any bucket stands before the moment.
pub(crate) fn are_quiet(until: u64, parts: &[BucketPart]) -> Result<bool, NoMemory>
    requires { until < end_of_time }
    ensures { IfOk result (λ yes. yes ≡ list_all (λ part. is_quiet until part.bucket) parts.now) }
{
    for part in parts {
        if !is_quiet(until, &part.bucket)? {
            return Ok(false);
        }
    }
    Ok(true)
}
