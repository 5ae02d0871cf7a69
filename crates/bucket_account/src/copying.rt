// Copies the records of a bucket.
ghost use Rattle.std.specs.Prelude.{◌≡◌, IfOk, OnOk};
ghost use Rattle.std.specs.BTreeMap.{insert_entry};
ghost use Rattle.std.specs.Ordering.{nat_cmp};
ghost use Rattle.office_base.specs.Maps.{bytes_cmp, Rises};

use due_core::Bucket;
use due_index::see_order;
use office_base::Key;
use rules_core::RuleSet;
use stacks::Stack;
use std::alloc::{AllocError, Global};
use std::collections::BTreeMap;
use uploads::Upload;

fn copy_rules(rules: &Option<RuleSet>) -> Result<Option<RuleSet>, AllocError>
    ensures { IfOk result (λ copy. copy ≡ rules.now) }
{
    match rules {
        Some(rules) => Ok(Some(rules.copy()?)),
        None => Ok(None),
    }
}

// Adds a copy of a key and its stack.
fn add_copy(copies: &mut BTreeMap<Key, Stack>, key: &Key, stack: &Stack) -> Result<(), AllocError>
    ensures { OnOk result (copies.new.entries ≡ insert_entry bytes_cmp copies.old.entries key.now stack.now) }
{
    drop(copies.insert(key.copy()?, stack.copy()?)?);
    Ok(())
}

fn copy_stacks(
    alloc: Global,
    stacks: &BTreeMap<Key, Stack>,
) -> Result<BTreeMap<Key, Stack>, AllocError>
    requires rises { Rises bytes_cmp stacks.now.entries }
    ensures { IfOk result (λ copy. copy.entries ≡ stacks.now.entries) }
{
    let mut copies = BTreeMap::new(alloc);
    for (key, stack) in stacks.iter() {
        add_copy(&mut copies, key, stack)?;
    }
    Ok(copies)
}

fn copy_uploads(
    alloc: Global,
    uploads: &BTreeMap<u64, Upload>,
) -> Result<BTreeMap<u64, Upload>, AllocError>
    requires rises { Rises nat_cmp uploads.now.entries }
    ensures { IfOk result (λ copy. copy.entries ≡ uploads.now.entries) }
{
    let mut copies = BTreeMap::new(alloc);
    for (number, upload) in uploads.iter() {
        drop(copies.insert(*number, upload.copy()?)?);
    }
    Ok(copies)
}

/// Copies the records of a bucket. Fails only if memory runs out.
///
/// Cost: for each key and upload a search of those before it, and a copy.
pub(crate) fn copy_of(alloc: Global, bucket: &Bucket) -> Result<Bucket, AllocError>
    ensures { IfOk result (λ copy. copy ≡ bucket.now) }
{
    see_order(bucket);
    let rules = copy_rules(&bucket.rules)?;
    let stacks = copy_stacks(alloc, &bucket.stacks)?;
    let uploads = copy_uploads(alloc, &bucket.uploads)?;
    Ok(Bucket {
        versioning: bucket.versioning,
        rules,
        rules_since: bucket.rules_since,
        stacks,
        uploads,
        next_version: bucket.next_version,
        next_upload: bucket.next_upload,
    })
}
