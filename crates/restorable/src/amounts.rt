// How much the buckets of a snapshot have of each kind that has a limit. A count stops at the greatest u64.
ghost use Rattle.std.specs.Prelude.{◌≡◌, ◌+◌, length, sum_by, IfOk};
ghost use Rattle.office_base.specs.Tags.{tags_of};
ghost use Rattle.plain_office.specs.Counts.{version_count, part_count, name_bytes, rules_bytes};
ghost use Rattle.plain_office.specs.Counts.{tag_bytes, tag_bytes_of};
ghost use Rattle.plain_office.specs.Orderly.{current_is_object, current_objects};
ghost use Rattle.restorable.specs.Tests.{capped, over_parts, are_within};

use due_core::Bucket;
use office_base::{Key, NoMemory, Tags};
use office_snapshot::{BucketPart, Snapshot};
use rules_core::RuleSet;
use rules_json::print_rules;
use stacks::{Kind, Stack, Version};
use std::alloc::Global;
use std::collections::BTreeMap;
use uploads::Upload;

// Whether the newest of the versions is an object.
pub(crate) fn is_object_current(versions: &[Version]) -> bool
    ensures { result ≡ current_is_object versions.now }
{
    match versions {
        [] => false,
        [version, ..] => match &version.kind {
            Kind::Object { .. } => true,
            Kind::Marker => false,
        },
    }
}

// The versions, and one more for each stack whose current version is an object.
fn count_versions(bucket: &Bucket) -> u64
    ensures { result ≡ capped (version_count bucket.now + current_objects bucket.now) }
{
    let mut count: u64 = 0;
    for (_, stack) in bucket.stacks.iter() {
        let versions = stack.versions();
        let markers = if is_object_current(versions) { 1 } else { 0 };
        count = count
            .saturating_add(versions.len() as u64)
            .saturating_add(markers);
    }
    count
}

fn count_parts(uploads: &BTreeMap<u64, Upload>) -> u64
    ensures { result ≡ capped (sum_by (λ upload. length upload.1.parts) uploads.now.entries) }
{
    let mut count: u64 = 0;
    for (_, upload) in uploads.iter() {
        count = count.saturating_add(upload.parts().len() as u64);
    }
    count
}

fn pair_bytes(pairs: &[(String, String)]) -> u64
    ensures { result ≡ capped (tag_bytes (tags_of pairs.now)) }
{
    let mut bytes: u64 = 0;
    for pair in pairs {
        bytes = bytes
            .saturating_add(pair.0.len() as u64)
            .saturating_add(pair.1.len() as u64);
    }
    bytes
}

fn count_tags(tags: &Tags) -> u64
    ensures { result ≡ capped (tag_bytes tags.now) }
{
    pair_bytes(tags.pairs())
}

fn count_tags_of(version: &Version) -> u64
    ensures { result ≡ capped (tag_bytes_of version.now) }
{
    match &version.kind {
        Kind::Object { tags, .. } => count_tags(tags),
        Kind::Marker => 0,
    }
}

fn count_all_tags(versions: &[Version]) -> u64
    ensures { result ≡ capped (sum_by tag_bytes_of versions.now) }
{
    let mut bytes: u64 = 0;
    for version in versions {
        bytes = bytes.saturating_add(count_tags_of(version));
    }
    bytes
}

// The bytes of the keys, and of the tags of their versions.
fn count_keys(stacks: &BTreeMap<Key, Stack>) -> u64
    ensures { result ≡ capped
        (sum_by (λ stack. length stack.0 + sum_by tag_bytes_of stack.1.versions) stacks.now.entries) }
{
    let mut bytes: u64 = 0;
    for (key, stack) in stacks.iter() {
        bytes = bytes
            .saturating_add(key.bytes().len() as u64)
            .saturating_add(count_all_tags(stack.versions()));
    }
    bytes
}

// The bytes of the keys and the tags of uploads.
fn count_names_of(uploads: &BTreeMap<u64, Upload>) -> u64
    ensures { result ≡ capped
        (sum_by (λ upload. length upload.1.key + tag_bytes upload.1.tags) uploads.now.entries) }
{
    let mut bytes: u64 = 0;
    for (_, upload) in uploads.iter() {
        bytes = bytes
            .saturating_add(upload.key().bytes().len() as u64)
            .saturating_add(count_tags(upload.tags()));
    }
    bytes
}

// The bytes of the printed configuration; 0 for none.
fn count_text(alloc: Global, rules: &Option<RuleSet>) -> Result<u64, NoMemory>
    ensures { IfOk result (λ bytes. bytes ≡ rules_bytes rules.now) }
{
    match rules {
        Some(rules) => {
            let text = print_rules(alloc, rules)?;
            Ok(text.len() as u64)
        }
        None => Ok(0),
    }
}

fn all_versions(parts: &[BucketPart]) -> u64
    ensures { result ≡ capped
        (over_parts (λ bucket. version_count bucket + current_objects bucket) parts.now) }
{
    let mut count: u64 = 0;
    for part in parts {
        count = count.saturating_add(count_versions(&part.bucket));
    }
    count
}

fn all_uploads(parts: &[BucketPart]) -> u64
    ensures { result ≡ capped (over_parts (λ bucket. length bucket.uploads) parts.now) }
{
    let mut count: u64 = 0;
    for part in parts {
        count = count.saturating_add(part.bucket.uploads.len() as u64);
    }
    count
}

fn all_parts(parts: &[BucketPart]) -> u64
    ensures { result ≡ capped (over_parts part_count parts.now) }
{
    let mut count: u64 = 0;
    for part in parts {
        count = count.saturating_add(count_parts(&part.bucket.uploads));
    }
    count
}

fn all_names(parts: &[BucketPart]) -> u64
    ensures { result ≡ capped (over_parts name_bytes parts.now) }
{
    let mut bytes: u64 = 0;
    for part in parts {
        bytes = bytes
            .saturating_add(count_keys(&part.bucket.stacks))
            .saturating_add(count_names_of(&part.bucket.uploads));
    }
    bytes
}

fn all_rules(alloc: Global, parts: &[BucketPart]) -> Result<u64, NoMemory>
    ensures { IfOk result (λ bytes. bytes ≡ capped (over_parts (λ bucket. rules_bytes bucket.rules) parts.now)) }
{
    let mut bytes: u64 = 0;
    for part in parts {
        bytes = bytes.saturating_add(count_text(alloc, &part.bucket.rules)?);
    }
    Ok(bytes)
}

// Whether there is no more of each kind than an office may have.
pub(crate) fn are_within(alloc: Global, snapshot: &Snapshot) -> Result<bool, NoMemory>
    ensures { IfOk result (λ yes. yes ≡ are_within snapshot.now) }
{
    let parts = &snapshot.buckets;
    let rules = all_rules(alloc, parts)?;
    Ok(
        parts.len() <= 1_000
            && snapshot.tariffs.len() <= 100
            && all_versions(parts) <= 400_000
            && all_uploads(parts) <= 20_000
            && all_parts(parts) <= 500_000
            && all_names(parts) <= 536_870_912
            && rules <= 67_108_864,
    )
}
