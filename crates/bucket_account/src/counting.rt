// Counts what a bucket has of each kind that has a limit, in passes over its records.
ghost use Rattle.std.specs.Prelude.{◌≡◌, ◌+◌, ◌^◌, ◌<◌, ◌≤◌, length, sum_by, IfOk};
ghost use Rattle.plain_office.specs.Counts.{version_count, part_count, name_bytes};
ghost use Rattle.plain_office.specs.Counts.{rules_bytes, tag_bytes, tag_bytes_of};

use crate::incoming::{kind_bytes, tag_bytes};
use due_core::Bucket;
use office_base::{Key, NoMemory};
use rules_core::RuleSet;
use rules_json::print_rules;
use stacks::{Stack, Version};
use std::alloc::Global;
use std::collections::BTreeMap;
use uploads::Upload;

/// Counts the versions of a bucket.
pub(crate) fn count_versions(bucket: &Bucket) -> u64
    requires few { version_count bucket.now < 2 ^ 64 }
    ensures { result ≡ version_count bucket.now }
{
    let mut count = 0;
    for (_, stack) in bucket.stacks.iter() {
        count += stack.versions().len() as u64;
    }
    count
}

/// Counts the parts of a bucket.
pub(crate) fn count_parts(bucket: &Bucket) -> u64
    requires few { part_count bucket.now < 2 ^ 64 }
    ensures { result ≡ part_count bucket.now }
{
    let mut count = 0;
    for (_, upload) in bucket.uploads.iter() {
        count += upload.parts().len() as u64;
    }
    count
}

/// Counts the bytes of the tags of versions.
fn count_tags(versions: &[Version]) -> u64
    requires few { sum_by tag_bytes_of versions.now < 2 ^ 64 }
    ensures { result ≡ sum_by tag_bytes_of versions.now }
{
    let mut bytes = 0;
    for version in versions {
        bytes += kind_bytes(&version.kind);
    }
    bytes
}

/// Counts the bytes of keys and of the tags of their versions.
fn count_keys(stacks: &BTreeMap<Key, Stack>) -> u64
    requires few { sum_by (λ stack. length stack.0 + sum_by tag_bytes_of stack.1.versions) stacks.now.entries < 2 ^ 64 }
    ensures { result ≡ sum_by (λ stack. length stack.0 + sum_by tag_bytes_of stack.1.versions) stacks.now.entries }
{
    let mut bytes = 0;
    for (key, stack) in stacks.iter() {
        bytes += key.bytes().len() as u64 + count_tags(stack.versions());
    }
    bytes
}

/// Counts the bytes of the keys and tags of uploads.
fn count_names_of(uploads: &BTreeMap<u64, Upload>) -> u64
    requires few { sum_by (λ upload. length upload.1.key + tag_bytes upload.1.tags) uploads.now.entries < 2 ^ 64 }
    ensures { result ≡ sum_by (λ upload. length upload.1.key + tag_bytes upload.1.tags) uploads.now.entries }
{
    let mut bytes = 0;
    for (_, upload) in uploads.iter() {
        bytes += upload.key().bytes().len() as u64 + tag_bytes(upload.tags());
    }
    bytes
}

/// Counts the bytes of keys and tags of a bucket.
pub(crate) fn count_names(bucket: &Bucket) -> u64
    requires few { name_bytes bucket.now < 2 ^ 64 }
    ensures { result ≡ name_bytes bucket.now }
{
    count_keys(&bucket.stacks) + count_names_of(&bucket.uploads)
}

/// Counts the bytes of the printed configuration; 0 if there is none.
///
/// # Errors
///
/// `NoMemory`: memory ran out.
pub(crate) fn count_text(alloc: Global, rules: &Option<RuleSet>) -> Result<u64, NoMemory>
    ensures { IfOk result (λ bytes. bytes ≡ rules_bytes rules.now) }
{
    match rules {
        Some(rules) => {
            let text = print_rules(alloc, rules)?;
            Ok(text.len() as u64)
        }
        None => Ok(0),
    }
}
