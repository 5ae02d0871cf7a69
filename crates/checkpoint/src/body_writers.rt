// Writes the body of a slot, part by part.
ghost use Rattle.std.specs.Prelude.{◌≡◌, ◌++◌, true, length, map, IfOk, OnOk};
ghost use Rattle.std.specs.Int.{w8};
ghost use Rattle.std.specs.List.{AllByRecursion};
ghost use Rattle.office_types.specs.Tokens.{takes_token};
ghost use Rattle.entry_codec.specs.Formats.{list, number, coded};
ghost use Rattle.checkpoint.specs.Combining.{exactly};
ghost use Rattle.checkpoint.specs.Parts.{four, versionings, rules_format, head_format, kept_format};
ghost use Rattle.checkpoint.specs.Parts.{stacks_format, uploads_format, sums_format};
ghost use Rattle.checkpoint.specs.Bodies.{front_format, buckets_format, head_of, buckets_of, body_format};

use crate::kept_writers::put_all_kept;
use crate::number_writers::{put_count, put_first_open, put_last, put_moment, put_u64};
use crate::record_writers::{put_closed, put_stacks, put_tariffs, put_uploads};
use crate::sum_writers::put_sums;
use entry_codec::{put_name, put_rules};
use office_base::NoMemory;
use office_snapshot::{BucketPart, Snapshot};
use rules_core::RuleSet;
use stacks::Versioning;
use std::alloc::{AllocError, Global};

// What the office has once.
#[tactic(auto, unfolding(crate::specs::Bodies::front_format))]
fn put_front(out: &mut Vec<u8>, snapshot: &Snapshot) -> Result<(), AllocError>
    ensures bytes { OnOk result (out.new.items ≡ out.old.items ++ front_format.written
        (snapshot.now.last, (snapshot.now.first_open, (snapshot.now.tariffs, snapshot.now.closed)))) }
    ensures has { OnOk result (front_format.has
        (snapshot.now.last, (snapshot.now.first_open, (snapshot.now.tariffs, snapshot.now.closed))) ≡ true) }
{
    put_last(out, snapshot.last)?;
    put_first_open(out, snapshot.first_open)?;
    put_tariffs(out, &snapshot.tariffs)?;
    put_closed(out, &snapshot.closed)
}

fn put_versioning(out: &mut Vec<u8>, versioning: Versioning) -> Result<(), AllocError>
    ensures bytes { OnOk result
        (out.new.items ≡ out.old.items ++ (coded (number w8) versionings).written versioning) }
    ensures has { OnOk result ((coded (number w8) versionings).has versioning ≡ true) }
{
    out.push(match versioning {
        Versioning::Unversioned => 0,
        Versioning::Enabled => 1,
        Versioning::Suspended => 2,
    })?;
    Ok(())
}

// A configuration, or a length of 0 for none.
#[tactic(auto, using(crate::proofs::RulesTexts::some_text), unfolding(crate::specs::Parts::rules_format))]
fn put_rules_or_none(out: &mut Vec<u8>, rules: &Option<RuleSet>) -> Result<(), AllocError>
    ensures bytes { OnOk result (out.new.items ≡ out.old.items ++ rules_format.written rules.now) }
    ensures has { OnOk result (rules_format.has rules.now ≡ true) }
{
    match rules {
        None => put_count(out, 0),
        Some(rules) => put_rules(out, rules),
    }
}

// What is written of a bucket before the lists of all.
#[tactic(auto, unfolding(crate::specs::Parts::head_format))]
fn put_head(out: &mut Vec<u8>, part: &BucketPart) -> Result<(), AllocError>
    ensures bytes { OnOk result (out.new.items ≡ out.old.items ++ head_format.written (head_of part.now)) }
    ensures has { OnOk result (head_format.has (head_of part.now) ≡ true) }
{
    put_name(out, &part.name)?;
    put_versioning(out, part.bucket.versioning)?;
    put_moment(out, part.bucket.rules_since)?;
    put_rules_or_none(out, &part.bucket.rules)?;
    put_u64(out, part.bucket.next_version)?;
    put_u64(out, part.bucket.next_upload)
}

fn put_heads(out: &mut Vec<u8>, buckets: &[BucketPart]) -> Result<(), AllocError>
    ensures bytes { OnOk result
        (out.new.items ≡ out.old.items ++ (list four head_format).written (map head_of buckets.now)) }
    ensures has { OnOk result ((list four head_format).has (map head_of buckets.now) ≡ true) }
{
    put_count(out, buckets.len())?;
    for part in buckets {
        put_head(out, part)?;
    }
    Ok(())
}

fn put_all_stacks(out: &mut Vec<u8>, buckets: &[BucketPart]) -> Result<(), AllocError>
    ensures bytes { OnOk result (out.new.items ≡ out.old.items
        ++ (exactly (length buckets.now) stacks_format).written (map (λ p. p.bucket.stacks) buckets.now)) }
    ensures has { OnOk result
        ((exactly (length buckets.now) stacks_format).has (map (λ p. p.bucket.stacks) buckets.now) ≡ true) }
{
    for part in buckets {
        put_stacks(out, &part.bucket.stacks)?;
    }
    Ok(())
}

fn put_all_uploads(out: &mut Vec<u8>, buckets: &[BucketPart]) -> Result<(), AllocError>
    ensures bytes { OnOk result (out.new.items ≡ out.old.items
        ++ (exactly (length buckets.now) uploads_format).written (map (λ p. p.bucket.uploads) buckets.now)) }
    ensures has { OnOk result
        ((exactly (length buckets.now) uploads_format).has (map (λ p. p.bucket.uploads) buckets.now) ≡ true) }
{
    for part in buckets {
        put_uploads(out, &part.bucket.uploads)?;
    }
    Ok(())
}

fn put_all_sums(out: &mut Vec<u8>, buckets: &[BucketPart]) -> Result<(), AllocError>
    ensures bytes { OnOk result (out.new.items ≡ out.old.items
        ++ (exactly (length buckets.now) (list four sums_format)).written (map (λ p. p.sums) buckets.now)) }
    ensures has { OnOk result
        ((exactly (length buckets.now) (list four sums_format)).has (map (λ p. p.sums) buckets.now) ≡ true) }
{
    for part in buckets {
        put_sums(out, &part.sums)?;
    }
    Ok(())
}

// The heads of all buckets, and as many lists.
#[tactic(auto, unfolding(crate::specs::Bodies::buckets_format, crate::specs::Bodies::lists_format))]
fn put_buckets(out: &mut Vec<u8>, buckets: &[BucketPart]) -> Result<(), AllocError>
    ensures bytes { OnOk result
        (out.new.items ≡ out.old.items ++ buckets_format.written (buckets_of buckets.now)) }
    ensures has { OnOk result (buckets_format.has (buckets_of buckets.now) ≡ true) }
{
    put_heads(out, buckets)?;
    put_all_stacks(out, buckets)?;
    put_all_uploads(out, buckets)?;
    put_all_sums(out, buckets)
}

// The body of a snapshot whose kept commands may carry a token.
#[tactic(auto, unfolding(crate::specs::Bodies::body_format, crate::specs::Bodies::parts_format))]
fn put_body(out: &mut Vec<u8>, snapshot: &Snapshot) -> Result<(), AllocError>
    requires { AllByRecursion (λ kept. takes_token kept.command ≡ true) snapshot.now.kept }
    ensures bytes { OnOk result (out.new.items ≡ out.old.items ++ body_format.written snapshot.now) }
    ensures has { OnOk result (body_format.has snapshot.now ≡ true) }
{
    put_front(out, snapshot)?;
    put_buckets(out, &snapshot.buckets)?;
    put_all_kept(out, &snapshot.kept)
}

/// Writes the body of a snapshot, each of whose kept commands may carry a token.
///
/// Cost: one pass over the snapshot, and memory for the bytes.
///
/// # Errors
///
/// `NoMemory`: out of memory.
pub fn body_of(alloc: Global, snapshot: &Snapshot) -> Result<Vec<u8>, NoMemory>
    requires carry { AllByRecursion (λ kept. takes_token kept.command ≡ true) snapshot.now.kept }
    ensures bytes { IfOk result (λ bytes. bytes.items ≡ body_format.written snapshot.now) }
    ensures in_range { IfOk result (λ _. body_format.has snapshot.now ≡ true) }
{
    let mut out = Vec::new(alloc);
    put_body(&mut out, snapshot)?;
    Ok(out)
}
