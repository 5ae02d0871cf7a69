// Commands in numbers, whose names and keys are not written out yet.
ghost use Rattle.std.specs.Prelude.{◌≡◌, [], ◌∷◌, ◌++◌, decimal, string_bytes, true, IfOk, OnOk};
ghost use Rattle.generator.specs.Drafts.{name_of, key_named, drafted_id, prices, rule_named, rules_set, draft_command};

use class_rules::Class;
use moments::Moment;
use office_base::{BucketName, Items, Key, NoMemory, Nth, Size, TagList, Tags, Text, VersionId};
use office_types::Command;
use rules_core::{Expiration, Filter, Noncurrent, Rule, RuleSet, SizeMode, Transition, When};
use std::alloc::{AllocError, Global};
use tariff::{BoxedTariff, Tariff};

// A command in numbers. Buckets and keys are numbers.
#[derive(Clone, Copy)]
pub(crate) enum Draft {
    CreateBucket {
        bucket: u64,
    },
    // Enables versioning.
    Enable {
        bucket: u64,
    },
    SetRules {
        bucket: u64,
    },
    SetTariff,
    Put {
        bucket: u64,
        key: u64,
        size: u64,
        class: Class,
    },
    Delete {
        bucket: u64,
        key: u64,
    },
    // Deletes the version with this number; 0 stands for the null version.
    DeleteVersion {
        bucket: u64,
        key: u64,
        id: u64,
    },
    StartUpload {
        bucket: u64,
        key: u64,
    },
    PutPart {
        bucket: u64,
        upload: u64,
        part: u32,
        size: u64,
    },
    Complete {
        bucket: u64,
        upload: u64,
    },
    Act {
        bucket: u64,
    },
}

// Writes these letters and a number after them, in place of what the text held.
fn write_numbered(text: &mut String, letters: &str, number: u64) -> Result<(), AllocError>
    ensures { OnOk result (string_bytes text.new ≡ letters.now ++ decimal number) }
{
    text.clear();
    text.push_str(letters)?;
    let mut digits = itoa::Buffer::new();
    text.push_str(digits.format(number))?;
    Ok(())
}

// The name of a bucket, which is first written into the text.
pub(crate) fn bucket_name(
    alloc: Global,
    text: &mut String,
    bucket: u64,
) -> Result<BucketName, NoMemory>
    ensures { IfOk result (λ name. name ≡ name_of bucket) }
{
    write_numbered(text, "gen-", bucket)?;
    match BucketName::read(alloc, text) {
        Ok(name) => Ok(name),
        Err(_) => Err(NoMemory),
    }
}

// A key, which is first written into the text.
fn key_of(alloc: Global, text: &mut String, key: u64) -> Result<Key, NoMemory>
    ensures { IfOk result (λ named. named ≡ key_named key) }
{
    write_numbered(text, "k", key)?;
    match Key::read(alloc, text.as_bytes()) {
        Ok(key) => Ok(key),
        Err(_) => Err(NoMemory),
    }
}

fn size_of(bytes: u64) -> Result<Size, NoMemory>
    ensures { IfOk result (λ size. size ≡ bytes) }
{
    match Size::of(bytes) {
        Ok(size) => Ok(size),
        Err(_) => Err(NoMemory),
    }
}

fn no_tags(alloc: Global) -> Result<Tags, NoMemory>
    ensures { IfOk result (λ tags. tags ≡ []) }
{
    match Tags::read(alloc, Vec::new(alloc)) {
        Ok(tags) => Ok(tags),
        Err(_) => Err(NoMemory),
    }
}

fn version_id(number: u64) -> VersionId
    ensures { result ≡ drafted_id number }
{
    match Nth::of(number) {
        Some(number) => VersionId::Number(number),
        None => VersionId::Null,
    }
}

// All prices are 1,000.
fn tariff(alloc: Global) -> Result<BoxedTariff, NoMemory>
    ensures { IfOk result (λ tariff. tariff ≡ prices) }
{
    let Some(tariff) = Tariff::of([1_000; 6], [1_000; 5]) else {
        return Err(NoMemory);
    };
    match BoxedTariff::new(alloc, tariff) {
        Ok(tariff) => Ok(tariff),
        Err(_) => Err(NoMemory),
    }
}

fn rule(alloc: Global) -> Result<Rule, AllocError>
    ensures { IfOk result (λ rule. rule ≡ rule_named []) }
{
    Ok(Rule {
        id: Text::of(String::new(alloc)),
        enabled: true,
        filter: Filter {
            prefix: Text::of(String::new(alloc)),
            tags: TagList::of(Vec::new(alloc)),
            greater: None,
            less: None,
        },
        expiration: Some(Expiration {
            days: Some(60),
            date: None,
            lone_marker: false,
        }),
        transitions: Items::of(vec![in alloc;
            Transition {
                when: When::Days(30),
                to: Class::StandardIa,
            },
        ]?),
        noncurrent_expiration: Some(Noncurrent {
            days: 10,
            newer: None,
        }),
        noncurrent_moves: Items::of(Vec::new(alloc)),
        abort_days: None,
    })
}

fn rule_list(alloc: Global) -> Result<Vec<Rule>, AllocError>
    ensures { IfOk result (λ rules. rules.items ≡ rule_named [] ∷ []) }
{
    let mut rules = Vec::new(alloc);
    rules.push(rule(alloc)?)?;
    Ok(rules)
}

fn configuration(alloc: Global) -> Result<RuleSet, NoMemory>
    ensures { IfOk result (λ set. set ≡ rules_set) }
{
    let Ok(rules) = rule_list(alloc) else {
        return Err(NoMemory);
    };
    match RuleSet::check(alloc, rules, SizeMode::All128K) {
        Ok(configuration) => Ok(configuration),
        Err(_) => Err(NoMemory),
    }
}

impl Draft {
    // The command, with its names and keys, which are written into the text one after another.
    pub(crate) fn command(&self, alloc: Global, text: &mut String) -> Result<Command, NoMemory>
        ensures { IfOk result (λ command. command ≡ draft_command self.now) }
    {
        let command = match *self {
            Draft::CreateBucket { bucket } => Command::CreateBucket {
                bucket: bucket_name(alloc, text, bucket)?,
            },
            Draft::Enable { bucket } => Command::SetVersioning {
                bucket: bucket_name(alloc, text, bucket)?,
                enabled: true,
            },
            Draft::SetRules { bucket } => Command::SetRules {
                bucket: bucket_name(alloc, text, bucket)?,
                rules: configuration(alloc)?,
            },
            Draft::SetTariff => Command::SetTariff {
                tariff: tariff(alloc)?,
            },
            Draft::Put {
                bucket,
                key,
                size,
                class,
            } => Command::Put {
                bucket: bucket_name(alloc, text, bucket)?,
                key: key_of(alloc, text, key)?,
                size: size_of(size)?,
                class,
                tags: no_tags(alloc)?,
            },
            Draft::Delete { bucket, key } => Command::Delete {
                bucket: bucket_name(alloc, text, bucket)?,
                key: key_of(alloc, text, key)?,
            },
            Draft::DeleteVersion { bucket, key, id } => Command::DeleteVersion {
                bucket: bucket_name(alloc, text, bucket)?,
                key: key_of(alloc, text, key)?,
                id: version_id(id),
            },
            Draft::StartUpload { bucket, key } => Command::StartUpload {
                bucket: bucket_name(alloc, text, bucket)?,
                key: key_of(alloc, text, key)?,
                class: Class::Standard,
                tags: no_tags(alloc)?,
            },
            Draft::PutPart {
                bucket,
                upload,
                part,
                size,
            } => Command::PutPart {
                bucket: bucket_name(alloc, text, bucket)?,
                upload,
                part,
                size,
            },
            Draft::Complete { bucket, upload } => Command::Complete {
                bucket: bucket_name(alloc, text, bucket)?,
                upload,
            },
            Draft::Act { bucket } => Command::Act {
                bucket: bucket_name(alloc, text, bucket)?,
            },
        };
        Ok(command)
    }
}
