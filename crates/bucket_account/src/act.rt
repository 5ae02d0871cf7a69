// Does the first lifecycle action that is due.
ghost use Rattle.std.specs.Prelude.{◌≡◌, ◌+◌, ◌<◌, ◌≤◌, [], ℕ, Some, Ok, OnOk, OnErr, IfOk, IfSome};
ghost use Rattle.office_base.specs.Tags.{char_count};
ghost use Rattle.due_core.specs.Choice.{choice};
ghost use Rattle.due_index.specs.Index.{StandsFor};
ghost use Rattle.plain_office.specs.Office as plain;
ghost use Rattle.plain_office.specs.Changes.{effect};
ghost use Rattle.plain_office.specs.Step.{act, rule_id, marker_made, shown_action};
ghost use Rattle.office_types.specs.Fits.{ReplyFits};
ghost use Rattle.office_types.specs.declared.reply.Reply.TheVariants.{NothingDue, Chosen};
ghost use Rattle.bucket_account.specs.Changing.{IsOrderlyAccount, DoesTold};
ghost use Rattle.bucket_account.specs.Counting.{account_of, AreCountsOver, IsWithinBy, HasGrownBy, IsFewMore};
ghost use Rattle.bucket_account.specs.Effects.{DoesEffect};
ghost use Rattle.bucket_account.specs.Standing.{StandsForAccount, most_commands};

use crate::adding::add_version;
use crate::change::Done;
use crate::counts::Counts;
use crate::dropping::remove_upload;
use crate::incoming::id_of;
use crate::moving::move_version;
use crate::removing::remove_version;
use crate::renewing::{build_where_none, first_of, renew_target};
use accrual::Meters;
use due_core::{Action, ActionKind, Bucket, Target};
use due_index::DueIndex;
use moments::Moment;
use office_base::{Text, VersionId};
use office_types::{Refusal, Reply};
use rules_core::RuleSet;
use stacks::Kind;
use std::alloc::{AllocError, Global};

/// Copies the id of the rule at this place, from 1; the empty text if there is no such rule.
///
/// # Errors
///
/// Memory ran out.
#[tactic(auto, using(crate::proofs::RuleIds::short_id))]
pub fn rule_id(alloc: Global, rules: &Option<RuleSet>, place: u32) -> Result<Text, AllocError>
    ensures same { IfOk result (λ id. id ≡ rule_id rules.now place) }
    ensures short { IfOk result (λ id. char_count id ≤ 255) }
{
    match rules {
        Some(rules) => match rules.rules().get((place as usize).saturating_sub(1)) {
            Some(rule) => rule.id.copy(),
            None => Ok(Text::of(String::new(alloc))),
        },
        None => Ok(Text::of(String::new(alloc))),
    }
}

/// Returns the id of the delete marker that an action of this kind makes.
fn marker_made(kind: ActionKind, bucket: &Bucket) -> Option<VersionId>
    requires next { 0 < bucket.now.next_version }
    ensures { result ≡ marker_made kind bucket.now }
{
    match kind {
        ActionKind::Marker => Some(id_of(bucket.versioning, bucket.next_version)),
        _ => None,
    }
}

/// Does the chosen action on a version.
fn do_on_version(
    bucket: &mut Bucket,
    meters: &mut Meters,
    alloc: Global,
    t: Moment,
    action: &Action,
    id: VersionId,
    counts: Counts,
) -> Result<Counts, Refusal>
    requires account { (account : plain.Account) × StandsForAccount (account_of bucket.old meters.old) account
        × IsOrderlyAccount t account }
    requires chosen { choice bucket.old t ≡ Some action.now }
    requires aims { action.now.target ≡ Target.Version id }
    requires room { (accepted : ℕ) × (accepted < most_commands)
        × IsWithinBy accepted (account_of bucket.old meters.old) }
    requires counts { AreCountsOver bucket.old counts }
    ensures done { (account : plain.Account) → StandsForAccount (account_of bucket.old meters.old) account
        → IsOrderlyAccount t account
        → DoesEffect ([]) (effect action.now) account counts (account_of bucket.new meters.new) result }
    ensures room { OnOk result (HasGrownBy 3 1 (account_of bucket.old meters.old) (account_of bucket.new meters.new)) }
    ensures room_kept { OnErr result (HasGrownBy 0 0 (account_of bucket.old meters.old)
        (account_of bucket.new meters.new)) }
    ensures few { IfOk result (λ after. (after.versions ≤ counts.versions + 1) × (after.rules ≡ counts.rules)) }
{
    let (key, since) = (&action.key, action.since);
    match action.kind {
        ActionKind::Remove => remove_version(bucket, meters, key, id, since, &[], counts),
        ActionKind::Transition(to) => move_version(bucket, meters, key, id, to, since, counts),
        ActionKind::Marker => {
            add_version(bucket, meters, alloc, key, Kind::Marker, since, &[], counts)
        }
        ActionKind::Abort => unreachable!(),
    }
}

/// Does the chosen action at the moment at which it stands, and returns the counts after it.
fn do_action(
    bucket: &mut Bucket,
    meters: &mut Meters,
    alloc: Global,
    t: Moment,
    action: &Action,
    counts: Counts,
) -> Result<Counts, Refusal>
    requires account { (account : plain.Account) × StandsForAccount (account_of bucket.old meters.old) account
        × IsOrderlyAccount t account }
    requires chosen { choice bucket.old t ≡ Some action.now }
    requires room { (accepted : ℕ) × (accepted < most_commands)
        × IsWithinBy accepted (account_of bucket.old meters.old) }
    requires counts { AreCountsOver bucket.old counts }
    ensures done { (account : plain.Account) → StandsForAccount (account_of bucket.old meters.old) account
        → IsOrderlyAccount t account
        → DoesEffect ([]) (effect action.now) account counts (account_of bucket.new meters.new) result }
    ensures room { OnOk result (HasGrownBy 3 1 (account_of bucket.old meters.old) (account_of bucket.new meters.new)) }
    ensures room_kept { OnErr result (HasGrownBy 0 0 (account_of bucket.old meters.old)
        (account_of bucket.new meters.new)) }
    ensures few { IfOk result (λ after. (after.versions ≤ counts.versions + 1) × (after.rules ≡ counts.rules)) }
{
    match action.target {
        Target::Version(id) => do_on_version(bucket, meters, alloc, t, action, id, counts),
        Target::Upload(number) => remove_upload(bucket, meters, number, action.since, counts),
    }
}

/// Returns the reply that shows an action and the id of its rule.
fn shown(action: Action, rule: Text, marker: Option<VersionId>) -> Reply
    ensures { result ≡ Chosen action.kind action.key action.target rule action.since marker }
{
    Reply::Chosen {
        kind: action.kind,
        key: action.key,
        target: action.target,
        rule,
        since: action.since,
        marker,
    }
}

/// Does the chosen action, and returns the reply that shows it.
fn act_on(
    bucket: &mut Bucket,
    meters: &mut Meters,
    index: &mut Option<DueIndex>,
    alloc: Global,
    t: Moment,
    action: Action,
    counts: Counts,
) -> Result<Done, Refusal>
    requires account { (account : plain.Account) × StandsForAccount (account_of bucket.old meters.old) account
        × IsOrderlyAccount t account }
    requires chosen { choice bucket.old t ≡ Some action }
    requires room { (accepted : ℕ) × (accepted < most_commands)
        × IsWithinBy accepted (account_of bucket.old meters.old) }
    requires counts { AreCountsOver bucket.old counts }
    requires index { IfSome index.old (λ index. StandsFor index bucket.old) }
    ensures done { (account : plain.Account) → StandsForAccount (account_of bucket.old meters.old) account
        → IsOrderlyAccount t account → DoesTold ([])
        (Ok (effect action account, shown_action action (marker_made action.kind bucket.old) bucket.old))
        account counts (account_of bucket.new meters.new) result }
    ensures room { OnOk result (HasGrownBy 3 1 (account_of bucket.old meters.old) (account_of bucket.new meters.new)) }
    ensures room_kept { OnErr result (HasGrownBy 0 0 (account_of bucket.old meters.old)
        (account_of bucket.new meters.new)) }
    ensures nothing { IfOk result (λ done. done.reply ≡ NothingDue
        → HasGrownBy 0 0 (account_of bucket.old meters.old) (account_of bucket.new meters.new)) }
    ensures few { IfOk result (IsFewMore counts) }
    ensures fits { IfOk result (λ done. ReplyFits done.reply) }
    ensures index { IfSome index.new (λ index. StandsFor index bucket.new) }
{
    let Ok(rule) = rule_id(alloc, &bucket.rules, action.rule) else {
        return Err(Refusal::NoMemory);
    };
    let marker = marker_made(action.kind, bucket);
    let counts = do_action(bucket, meters, alloc, t, &action, counts)?;
    renew_target(index, bucket, &action);
    Ok(Done {
        counts,
        reply: shown(action, rule, marker),
    })
}

/// Does the first lifecycle action that is due, at the moment at which it stands; nothing if none is due.
///
/// Rule: S3 User Guide, "Managing the lifecycle of objects". Own rule: it is never refused for a count.
/// Cost: what the change takes, and a renewal of what it touches. If there is no index, it is built first, in a pass
/// over the bucket's versions and uploads. If memory for it runs out, such a pass makes the choice.
///
/// # Errors
///
/// `NoMemory`: memory ran out. The bucket is then unchanged.
pub(crate) fn act(
    bucket: &mut Bucket,
    meters: &mut Meters,
    index: &mut Option<DueIndex>,
    alloc: Global,
    t: Moment,
    counts: Counts,
) -> Result<Done, Refusal>
    requires account { (account : plain.Account) × StandsForAccount (account_of bucket.old meters.old) account
        × IsOrderlyAccount t account }
    requires room { (accepted : ℕ) × (accepted < most_commands)
        × IsWithinBy accepted (account_of bucket.old meters.old) }
    requires counts { AreCountsOver bucket.old counts }
    requires index { IfSome index.old (λ index. StandsFor index bucket.old) }
    ensures done { (account : plain.Account) → StandsForAccount (account_of bucket.old meters.old) account
        → IsOrderlyAccount t account
        → DoesTold ([]) (act t account) account counts (account_of bucket.new meters.new) result }
    ensures room { OnOk result (HasGrownBy 3 1 (account_of bucket.old meters.old) (account_of bucket.new meters.new)) }
    ensures room_kept { OnErr result (HasGrownBy 0 0 (account_of bucket.old meters.old)
        (account_of bucket.new meters.new)) }
    ensures nothing { IfOk result (λ done. done.reply ≡ NothingDue
        → HasGrownBy 0 0 (account_of bucket.old meters.old) (account_of bucket.new meters.new)) }
    ensures few { IfOk result (IsFewMore counts) }
    ensures fits { IfOk result (λ done. ReplyFits done.reply) }
    ensures index { IfSome index.new (λ index. StandsFor index bucket.new) }
{
    build_where_none(index, alloc, bucket);
    match first_of(index, bucket, t)? {
        Some(action) => act_on(bucket, meters, index, alloc, t, action, counts),
        None => Ok(Done {
            counts,
            reply: Reply::NothingDue,
        }),
    }
}
