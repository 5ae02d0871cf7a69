// The records of buckets.
ghost use Rattle.std.specs.Prelude.{◌≡◌, nat_le, None, true};
ghost use Rattle.std.specs.Ordering.{is_lt};
ghost use Rattle.std.specs.List.{list_all};
ghost use Rattle.office_base.specs.Maps.{bytes_cmp};
ghost use Rattle.office_base.specs.Sizes.{largest_size};
ghost use Rattle.plain_office.specs.Orderly.{is_object, size_of};
ghost use Rattle.restorable.specs.Tests.{is_number_below, is_version, is_null, is_one_null_object, fit_versioning};
ghost use Rattle.restorable.specs.Tests.{keys_rise, is_orderly_stack, is_orderly_upload};
ghost use Rattle.restorable.specs.Tests.{has_numbers, are_orderly_stacks};
ghost use Rattle.restorable.specs.Tests.{are_orderly_uploads, is_orderly_bucket, is_orderly_part, names_rise};

use crate::months::are_months;
use due_core::Bucket;
use moments::Moment;
use office_base::{BucketName, Key, VersionId};
use office_snapshot::BucketPart;
use stacks::{Kind, Stack, Version, Versioning};
use std::cmp::Ordering;
use std::collections::BTreeMap;
use uploads::Upload;

// The next numbers are below this.
const NUMBER_END: u64 = 0x4000_0000_0000_0000;

fn is_number_below(next: u64, id: VersionId) -> bool
    ensures { result ≡ is_number_below next id }
{
    match id {
        VersionId::Null => true,
        VersionId::Number(number) => number.get() < next,
    }
}

// Whether the size is one that an object may have. It always is.
fn has_size(kind: &Kind) -> bool
    ensures { result ≡ nat_le (size_of kind.now) largest_size }
{
    match kind {
        Kind::Object { size, .. } => size.bytes() <= 5_497_558_138_880,
        Kind::Marker => true,
    }
}

fn is_version(next: u64, version: &Version) -> bool
    ensures { result ≡ is_version next version.now }
{
    is_number_below(next, version.id) && has_size(&version.kind)
}

fn are_versions(next: u64, versions: &[Version]) -> bool
    ensures { result ≡ list_all (is_version next) versions.now }
{
    versions.iter().all(|version| is_version(next, version))
}

fn is_null(id: VersionId) -> bool
    ensures { result ≡ is_null id }
{
    match id {
        VersionId::Null => true,
        VersionId::Number(_) => false,
    }
}

fn is_object(kind: &Kind) -> bool
    ensures { result ≡ is_object kind.now }
{
    match kind {
        Kind::Object { .. } => true,
        Kind::Marker => false,
    }
}

// Whether there is exactly one version: the null version, which is an object.
fn is_one_null_object(versions: &[Version]) -> bool
    ensures { result ≡ is_one_null_object versions.now }
{
    match versions {
        [] => false,
        [version, others @ ..] => {
            others.is_empty() && is_null(version.id) && is_object(&version.kind)
        }
    }
}

fn do_fit(versioning: Versioning, versions: &[Version]) -> bool
    ensures { result ≡ fit_versioning versioning versions.now }
{
    match versioning {
        Versioning::Unversioned => is_one_null_object(versions),
        Versioning::Enabled | Versioning::Suspended => true,
    }
}

fn is_orderly_stack(versioning: Versioning, next: u64, last: Moment, stack: &Stack) -> bool
    ensures { result ≡ is_orderly_stack versioning next last stack.now }
{
    let versions = stack.versions();
    !versions.is_empty()
        && are_versions(next, versions)
        && do_fit(versioning, versions)
        && stack.changed().ms() <= last.ms()
}

// The keys of a map rise.
#[tactic(auto, using(crate::proofs::Rising::rise_of))]
fn keys_rise<K: Ord, V>(map: &BTreeMap<K, V>)
    ensures { keys_rise K.cmp map.now.entries ≡ true }
{
    let _in_order = map.iter();
}

fn is_each_stack(
    versioning: Versioning,
    next: u64,
    last: Moment,
    stacks: &BTreeMap<Key, Stack>,
) -> bool
    ensures { result ≡ list_all (λ stack. is_orderly_stack versioning next last stack.1) stacks.now.entries }
{
    stacks.iter().all(|(_, stack)| is_orderly_stack(versioning, next, last, stack))
}

fn are_orderly_stacks(last: Moment, bucket: &Bucket) -> bool
    ensures { result ≡ are_orderly_stacks last bucket.now }
{
    keys_rise(&bucket.stacks);
    is_each_stack(bucket.versioning, bucket.next_version, last, &bucket.stacks)
}

fn is_orderly_upload(next: u64, last: Moment, number: u64, upload: &Upload) -> bool
    ensures { result ≡ is_orderly_upload next last (number, upload.now) }
{
    keys_rise(upload.parts());
    number < next && upload.changed().ms() <= last.ms()
}

fn is_each_upload(next: u64, last: Moment, uploads: &BTreeMap<u64, Upload>) -> bool
    ensures { result ≡ list_all (is_orderly_upload next last) uploads.now.entries }
{
    uploads.iter().all(|(number, upload)| is_orderly_upload(next, last, *number, upload))
}

fn are_orderly_uploads(last: Moment, bucket: &Bucket) -> bool
    ensures { result ≡ are_orderly_uploads last bucket.now }
{
    keys_rise(&bucket.uploads);
    is_each_upload(bucket.next_upload, last, &bucket.uploads)
}

fn has_numbers(last: Moment, bucket: &Bucket) -> bool
    ensures { result ≡ has_numbers last bucket.now }
{
    0 < bucket.next_version
        && bucket.next_version < NUMBER_END
        && 0 < bucket.next_upload
        && bucket.next_upload < NUMBER_END
        && bucket.rules_since.ms() <= last.ms()
}

fn is_orderly_bucket(last: Moment, bucket: &Bucket) -> bool
    ensures { result ≡ is_orderly_bucket last bucket.now }
{
    has_numbers(last, bucket)
        && are_orderly_stacks(last, bucket)
        && are_orderly_uploads(last, bucket)
}

fn is_orderly_part(last: Moment, part: &BucketPart) -> bool
    ensures { result ≡ is_orderly_part last part.now }
{
    is_orderly_bucket(last, &part.bucket) && are_months(last, &part.sums)
}

// Whether each bucket is one that an office may have at this moment.
pub(crate) fn are_orderly_parts(last: Moment, parts: &[BucketPart]) -> bool
    ensures { result ≡ list_all (is_orderly_part last) parts.now }
{
    parts.iter().all(|part| is_orderly_part(last, part))
}

fn is_below(a: &BucketName, b: &BucketName) -> bool
    ensures { result ≡ is_lt (bytes_cmp a.now b.now) }
{
    match a.cmp(b) {
        Ordering::Less => true,
        _ => false,
    }
}

// Whether the names of buckets strictly rise.
pub(crate) fn do_names_rise(parts: &[BucketPart]) -> bool
    ensures { result ≡ names_rise None parts.now }
{
    let mut before: Option<&BucketName> = None;
    for part in parts {
        if let Some(name) = before {
            if !is_below(name, &part.name) {
                return false;
            }
        }
        before = Some(&part.name);
    }
    true
}
