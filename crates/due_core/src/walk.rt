// What the rules of a bucket ask for its versions and uploads.
ghost use Rattle.std.specs.Prelude.{◌≡◌, ◌≤◌, length, max, flat_map, None, Some, IfOk, IsOk};
ghost use Rattle.due_core.specs.Candidates.{eligible, candidates};
ghost use Rattle.due_core.specs.Choice.{choice, IsQueue};
ghost use Rattle.due_core.specs.RuleActions.{matches_version};
ghost use Rattle.due_core.specs.Search.{with_each, setting_of, asked_of_version, asked_of_upload, version_candidates};
ghost use Rattle.due_core.specs.Search.{key_candidates, number_candidates};

use crate::asked::{Aim, Placed, Setting};
use crate::findings::{Findings, queue};
use crate::{Action, Bucket, Target};
use moments::Moment;
use office_base::{Key, NoMemory};
use rules_core::{Filter, Rule, RuleSet, matches, matches_marker, matches_upload};
use stacks::{Kind, Stack, Version};
use std::alloc::Global;
use uploads::Upload;

// The later of two moments.
fn later(a: Moment, b: Moment) -> Moment
    ensures { result ≡ max a b }
{
    if a.ms() < b.ms() { b } else { a }
}

fn matches_version(filter: &Filter, key: &Key, version: &Version) -> bool
    ensures { result ≡ matches_version filter.now key.now version.now }
{
    match &version.kind {
        Kind::Object { size, tags, .. } => matches(filter, key, tags, *size),
        Kind::Marker => matches_marker(filter, key),
    }
}

// Looks at what the rule with this number asks for a version.
#[tactic(auto, using(crate::proofs::Pass::due_come))]
fn rule_of_version<'a>(
    kept: &mut Findings<'a>,
    setting: &Setting,
    rule: &Rule,
    number: u32,
    key: &'a Key,
    placed: &Placed<'a>,
    changed: Moment,
) -> Result<(), NoMemory>
    ensures { IfOk result (λ _. kept.new ≡ with_each setting.now.t kept.old
        (asked_of_version setting.now key.now changed placed.now (number, rule.now))) }
{
    if !rule.enabled || !matches_version(&rule.filter, key, placed.version) {
        return Ok(());
    }
    let aim = Aim {
        key,
        target: Target::Version(placed.version.id),
        age: placed.older,
        rule: number,
        not_before: later(changed, setting.rules_since),
        t: setting.t,
    };
    aim.version(kept, setting, rule, placed, changed)
}

// Looks at what the rule with this number asks for an upload.
#[tactic(auto, using(crate::proofs::Pass::due_come))]
fn rule_of_upload<'a>(
    kept: &mut Findings<'a>,
    setting: &Setting,
    rule: &Rule,
    number: u32,
    place: u64,
    upload: &'a Upload,
) -> Result<(), NoMemory>
    ensures { IfOk result (λ _. kept.new ≡ with_each setting.now.t kept.old
        (asked_of_upload setting.now place upload.now (number, rule.now))) }
{
    if !rule.enabled || !matches_upload(&rule.filter, upload.key()) {
        return Ok(());
    }
    let aim = Aim {
        key: upload.key(),
        target: Target::Upload(place),
        age: place,
        rule: number,
        not_before: later(upload.changed(), setting.rules_since),
        t: setting.t,
    };
    aim.upload(kept, rule, upload)
}

// Looks at what the rules ask for a version.
fn version<'a>(
    kept: &mut Findings<'a>,
    setting: &Setting,
    rules: &[Rule],
    key: &'a Key,
    placed: &Placed<'a>,
    changed: Moment,
) -> Result<(), NoMemory>
    requires few { length rules.now ≤ 1_000 }
    ensures { IfOk result (λ _. kept.new ≡ with_each setting.now.t kept.old
        (version_candidates setting.now rules.now key.now changed placed.now)) }
{
    for i in 0..rules.len() {
        let number = i as u32 + 1;
        rule_of_version(kept, setting, &rules[i], number, key, placed, changed)?;
    }
    Ok(())
}

// Looks at what the rules ask for the versions of a key.
fn stack<'a>(
    kept: &mut Findings<'a>,
    setting: &Setting,
    rules: &[Rule],
    key: &'a Key,
    stack: &'a Stack,
) -> Result<(), NoMemory>
    requires few { length rules.now ≤ 1_000 }
    ensures { IfOk result (λ _. kept.new
        ≡ with_each setting.now.t kept.old (key_candidates setting.now rules.now (key.now, stack.now))) }
{
    let versions = stack.versions();
    let changed = stack.changed();
    for i in 0..versions.len() {
        let placed = Placed {
            version: &versions[i],
            newer: i as u64,
            older: (versions.len() - i - 1) as u64,
        };
        version(kept, setting, rules, key, &placed, changed)?;
    }
    Ok(())
}

// Looks at what the rules ask for an upload.
fn upload<'a>(
    kept: &mut Findings<'a>,
    setting: &Setting,
    rules: &[Rule],
    place: u64,
    upload: &'a Upload,
) -> Result<(), NoMemory>
    requires few { length rules.now ≤ 1_000 }
    ensures { IfOk result (λ _. kept.new
        ≡ with_each setting.now.t kept.old (number_candidates setting.now rules.now (place, upload.now))) }
{
    for i in 0..rules.len() {
        let number = i as u32 + 1;
        rule_of_upload(kept, setting, &rules[i], number, place, upload)?;
    }
    Ok(())
}

// Looks at what the rules ask for all versions.
fn stacks<'a>(
    kept: &mut Findings<'a>,
    bucket: &'a Bucket,
    setting: &Setting,
    rules: &[Rule],
) -> Result<(), NoMemory>
    requires few { length rules.now ≤ 1_000 }
    ensures { IfOk result (λ _. kept.new
        ≡ with_each setting.now.t kept.old (flat_map (key_candidates setting.now rules.now) bucket.now.stacks)) }
{
    for (key, of_key) in bucket.stacks.iter() {
        stack(kept, setting, rules, key, of_key)?;
    }
    Ok(())
}

// Looks at what the rules ask for all uploads.
fn uploads<'a>(
    kept: &mut Findings<'a>,
    bucket: &'a Bucket,
    setting: &Setting,
    rules: &[Rule],
) -> Result<(), NoMemory>
    requires few { length rules.now ≤ 1_000 }
    ensures { IfOk result (λ _. kept.new
        ≡ with_each setting.now.t kept.old (flat_map (number_candidates setting.now rules.now) bucket.now.uploads)) }
{
    for (place, unfinished) in bucket.uploads.iter() {
        upload(kept, setting, rules, *place, unfinished)?;
    }
    Ok(())
}

fn setting_of(bucket: &Bucket, rules: &RuleSet, t: Moment) -> Setting
    ensures { result ≡ setting_of bucket.now rules.now t }
{
    Setting {
        versioning: bucket.versioning,
        mode: rules.mode(),
        rules_since: bucket.rules_since,
        t,
    }
}

// Looks at all actions that the rules of a bucket ask for.
#[tactic(auto, using(crate::proofs::RuleCount::few_rules))]
fn look<'a>(
    kept: &mut Findings<'a>,
    bucket: &'a Bucket,
    rules: &RuleSet,
    t: Moment,
) -> Result<(), NoMemory>
    requires own { bucket.now.rules ≡ Some rules.now }
    ensures { IfOk result (λ _. kept.new ≡ with_each t kept.old (eligible bucket.now)) }
{
    let setting = setting_of(bucket, rules, t);
    stacks(kept, bucket, &setting, rules.rules())?;
    uploads(kept, bucket, &setting, rules.rules())
}

// Finds the first of the actions that have come.
#[tactic(auto, using(crate::proofs::Pass::is_choice))]
fn first<'a>(bucket: &'a Bucket, rules: &RuleSet, t: Moment) -> Result<Option<Action>, NoMemory>
    requires own { bucket.now.rules ≡ Some rules.now }
    ensures { IfOk result (λ action. action ≡ choice bucket.now t) }
{
    let mut kept = Findings::first();
    look(&mut kept, bucket, rules, t)?;
    kept.action()
}

// Finds all of the actions that have come.
fn all<'a>(
    alloc: Global,
    bucket: &'a Bucket,
    rules: &RuleSet,
    t: Moment,
) -> Result<Vec<Action>, NoMemory>
    requires own { bucket.now.rules ≡ Some rules.now }
    ensures { IfOk result (λ actions. IsQueue (candidates bucket.now t) actions.items) }
{
    let mut kept = Findings::all(alloc);
    look(&mut kept, bucket, rules, t)?;
    queue(alloc, kept.into_all(alloc))
}

/// Finds the lifecycle action that the bucket's next run at a moment does; None if none has come.
///
/// Rule: S3 User Guide, "Managing the lifecycle of objects". Own rule: which comes first.
/// Cost: one pass over the versions and uploads, with the rules for each. Takes memory only for the action's key.
///
/// # Errors
///
/// `NoMemory`: memory ran out.
#[tactic(auto, using(crate::proofs::Pass::no_choice))]
pub fn chosen(bucket: &Bucket, t: Moment) -> Result<Option<Action>, NoMemory>
    ensures exact { IfOk result (λ action. action ≡ choice bucket.now t) }
{
    match &bucket.rules {
        Some(rules) => first(bucket, rules, t),
        None => Ok(None),
    }
}

/// Lists the lifecycle actions that have come at a moment, in the order in which runs of the bucket's rules do them.
///
/// A run may end other actions of the list: the removal of a version ends its transitions. Rule: S3 User Guide,
/// "Managing the lifecycle of objects". Own rule: the order. Cost: one pass over the versions and uploads, with the
/// rules for each, and a sort. Takes memory for the list and for each action's key.
///
/// # Errors
///
/// `NoMemory`: memory ran out.
#[tactic(auto, using(crate::proofs::Queue::empty_queue))]
pub fn candidates(alloc: Global, bucket: &Bucket, t: Moment) -> Result<Vec<Action>, NoMemory>
    ensures exact { IfOk result (λ actions. IsQueue (candidates bucket.now t) actions.items) }

    // Without rules it cannot fail.
    ensures no_rules { bucket.now.rules ≡ None → IsOk result }
{
    match &bucket.rules {
        Some(rules) => all(alloc, bucket, rules, t),
        None => Ok(Vec::new(alloc)),
    }
}
