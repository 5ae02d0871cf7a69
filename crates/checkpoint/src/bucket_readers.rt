// Reads what is written of each bucket: its head, its stacks, its uploads, and its sums.
ghost use Rattle.std.specs.Prelude.{◌≡◌, option_map};
ghost use Rattle.std.specs.Int.{w8};
ghost use Rattle.entry_codec.specs.Fields as field;
ghost use Rattle.entry_codec.specs.Fields.{format};
ghost use Rattle.entry_codec.specs.Formats.{coded, number, list};
ghost use Rattle.entry_codec.specs.Reading.{Finds};
ghost use Rattle.checkpoint.specs.Parts.{four, versionings, rules_format, head_format};
ghost use Rattle.checkpoint.specs.Parts.{stacks_format, uploads_format, sums_format};

use crate::maps::map_of;
use crate::spelled::{Spelled, list_in};
use accrual::MonthSums;
use entry_codec::{
    counted_in, long_counted_in, moment_in, name_in, rules_in, u8_in, u32_in, u64_in,
};
use moments::Moment;
use office_base::{BucketName, Key, NoMemory};
use rules_core::RuleSet;
use stacks::{Stack, Versioning};
use std::alloc::Global;
use std::collections::BTreeMap;
use std::marker::Model;
use uploads::Upload;

// What is written of a bucket before the lists of all.
#[derive(Drop)]
pub(crate) struct BucketHead {
    pub(crate) name: BucketName,
    pub(crate) versioning: Versioning,
    pub(crate) rules_since: Moment,
    pub(crate) rules: Option<RuleSet>,
    pub(crate) next_version: u64,
    pub(crate) next_upload: u64,
}

impl Model for BucketHead {
    ghost use Rattle.checkpoint.specs.Parts.{Head};

    ghost Value = { Head };

    ghost view = { λ h. (h.name, (h.versioning, (h.rules_since, (h.rules, (h.next_version, h.next_upload))))) };
}

// The stacks of a bucket, by their keys.
#[derive(Drop)]
pub(crate) struct Stacks {
    pub(crate) stacks: BTreeMap<Key, Stack>,
}

impl Model for Stacks {
    ghost use Rattle.std.specs.Prelude.{ℕ, List};
    ghost use Rattle.stacks.specs.Stacks.{StackRecord};

    ghost Value = { List (List ℕ × StackRecord) };

    ghost view = { λ s. s.stacks.entries };
}

// The uploads of a bucket, by their numbers.
#[derive(Drop)]
pub(crate) struct Uploads {
    pub(crate) uploads: BTreeMap<u64, Upload>,
}

impl Model for Uploads {
    ghost use Rattle.std.specs.Prelude.{ℕ, List};
    ghost use Rattle.uploads.specs.Uploads.{UploadRecord};

    ghost Value = { List (ℕ × UploadRecord) };

    ghost view = { λ u. u.uploads.entries };
}

// The sums of the months of a bucket.
#[derive(Drop)]
pub(crate) struct Sums {
    pub(crate) sums: Vec<MonthSums>,
}

impl Model for Sums {
    ghost use Rattle.std.specs.Prelude.{List};
    ghost use Rattle.accrual.specs.declared.monthly.MonthSums.{MonthSums};

    ghost Value = { List MonthSums };

    ghost view = { λ s. s.sums.items };
}

fn versioning_in(bytes: &[u8]) -> Option<(Versioning, &[u8])>
    ensures { option_map (λ x. (x.0, x.1.now)) result ≡ (coded (number w8) versionings).front bytes.now }
{
    let (number, rest) = u8_in(bytes)?;
    match number {
        0 => Some((Versioning::Unversioned, rest)),
        1 => Some((Versioning::Enabled, rest)),
        2 => Some((Versioning::Suspended, rest)),
        _ => None,
    }
}

// A configuration after the length of its text.
#[tactic(auto, unfolding(entry_codec::specs::Fields::format))]
fn some_rules_in(alloc: Global, bytes: &[u8]) -> Result<Option<(RuleSet, &[u8])>, NoMemory>
    ensures { Finds (λ x. (x.0, x.1.now)) result ((format field.Rules).front bytes.now) }
{
    let Some((text, rest)) = long_counted_in(bytes) else {
        return Ok(None);
    };
    let Some(rules) = rules_in(alloc, text)? else {
        return Ok(None);
    };
    Ok(Some((rules, rest)))
}

// A configuration, or a length of 0 for none.
#[tactic(auto, unfolding(crate::specs::Parts::rules_format, crate::specs::Parts::four))]
fn rules_or_none_in(
    alloc: Global,
    bytes: &[u8],
) -> Result<Option<(Option<RuleSet>, &[u8])>, NoMemory>
    ensures { Finds (λ x. (x.0, x.1.now)) result (rules_format.front bytes.now) }
{
    let Some((length, rest)) = u32_in(bytes) else {
        return Ok(None);
    };
    if length == 0 {
        return Ok(Some((None, rest)));
    }
    let Some((rules, rest)) = some_rules_in(alloc, bytes)? else {
        return Ok(None);
    };
    Ok(Some((Some(rules), rest)))
}

#[tactic(auto, unfolding(entry_codec::specs::Fields::format))]
fn bucket_name_in(alloc: Global, bytes: &[u8]) -> Result<Option<(BucketName, &[u8])>, NoMemory>
    ensures { Finds (λ x. (x.0, x.1.now)) result ((format field.Name).front bytes.now) }
{
    let Some((name, rest)) = counted_in(bytes) else {
        return Ok(None);
    };
    let Some(name) = name_in(alloc, name)? else {
        return Ok(None);
    };
    Ok(Some((name, rest)))
}

impl Spelled for BucketHead {
    ghost format = { head_format };

    #[tactic(auto, unfolding(crate::specs::Parts::head_format, crate::specs::Parts::eight))]
    fn read(alloc: Global, bytes: &[u8]) -> Result<Option<(BucketHead, &[u8])>, NoMemory> {
        let Some((name, rest)) = bucket_name_in(alloc, bytes)? else {
            return Ok(None);
        };
        let Some((versioning, rest)) = versioning_in(rest) else {
            return Ok(None);
        };
        let (rules_since, rest) = match moment_in(rest) {
            Some(read) => read,
            None => return Ok(None),
        };
        let Some((rules, rest)) = rules_or_none_in(alloc, rest)? else {
            return Ok(None);
        };
        let Some((next_version, rest)) = u64_in(rest) else {
            return Ok(None);
        };
        let Some((next_upload, rest)) = u64_in(rest) else {
            return Ok(None);
        };
        let head = BucketHead {
            name,
            versioning,
            rules_since,
            rules,
            next_version,
            next_upload,
        };
        Ok(Some((head, rest)))
    }
}

impl Spelled for Stacks {
    ghost format = { stacks_format };

    #[tactic(auto, unfolding(crate::specs::Parts::stacks_format))]
    fn read(alloc: Global, bytes: &[u8]) -> Result<Option<(Stacks, &[u8])>, NoMemory> {
        let Some((stacks, rest)) = list_in(alloc, bytes)? else {
            return Ok(None);
        };
        match map_of(alloc, stacks)? {
            Some(stacks) => Ok(Some((Stacks { stacks }, rest))),
            None => Ok(None),
        }
    }
}

impl Spelled for Uploads {
    ghost format = { uploads_format };

    #[tactic(auto, unfolding(crate::specs::Parts::uploads_format))]
    fn read(alloc: Global, bytes: &[u8]) -> Result<Option<(Uploads, &[u8])>, NoMemory> {
        let Some((uploads, rest)) = list_in(alloc, bytes)? else {
            return Ok(None);
        };
        match map_of(alloc, uploads)? {
            Some(uploads) => Ok(Some((Uploads { uploads }, rest))),
            None => Ok(None),
        }
    }
}

impl Spelled for Sums {
    ghost format = { list four sums_format };

    fn read(alloc: Global, bytes: &[u8]) -> Result<Option<(Sums, &[u8])>, NoMemory> {
        let Some((sums, rest)) = list_in(alloc, bytes)? else {
            return Ok(None);
        };
        Ok(Some((Sums { sums }, rest)))
    }
}
