// Sets or drops the lifecycle configuration of a bucket.
ghost use Rattle.std.specs.Prelude.{◌≡◌, ◌+◌, ◌-◌, ◌^◌, ◌<◌, ◌≤◌, ◌∷◌, [], ℕ, length, OnOk, OnErr, IfOk, IfErr};
ghost use Rattle.rules_json.specs.Printing.{printed};
ghost use Rattle.plain_office.specs.Office as plain;
ghost use Rattle.plain_office.specs.Step.{set_rules, drop_rules};
ghost use Rattle.plain_office.specs.Counts.{rules_bytes};
ghost use Rattle.office_types.specs.declared.refusal.What.TheVariants.{Rules};
ghost use Rattle.office_types.specs.Fits.{ReplyFits};
ghost use Rattle.bucket_account.specs.Changing.{IsOrderlyAccount, DoesTold};
ghost use Rattle.bucket_account.specs.Counting.{account_of, AreCountsOver, IsWithinBy, HasGrownBy, IsFewMore};
ghost use Rattle.bucket_account.specs.Standing.{StandsForAccount, most_commands};

use crate::change::Done;
use crate::counts::Counts;
use accrual::Meters;
use due_core::Bucket;
use moments::Moment;
use office_types::{Refusal, Reply, What};
use rules_core::RuleSet;
use rules_json::print_rules;
use std::alloc::Global;

/// The count to which a configuration adds.
const ADDED: [What; 1] = [What::Rules];

/// Counts the bytes of a configuration's text.
fn text_length(alloc: Global, rules: &RuleSet) -> Result<u64, Refusal>
    ensures ok { IfOk result (λ bytes. bytes ≡ length (printed rules.now)) }
    ensures refusal { IfErr result (λ refusal. refusal ≡ Refusal.NoMemory) }
{
    let text = print_rules(alloc, rules)?;
    Ok(text.len() as u64)
}

/// Returns the counts after a text of `come` bytes replaced one of `gone` bytes.
fn moved(counts: Counts, gone: u64, come: u64) -> Counts
    requires some { gone ≤ counts.rules }
    requires few { counts.rules + come < 2 ^ 64 }
    ensures { result ≡ (record counts { rules = counts.rules - gone + come }) }
{
    Counts {
        rules: counts.rules - gone + come,
        ..counts
    }
}

/// Sets the lifecycle configuration. The text of the one before has `text_bytes` bytes; 0 if there is none.
///
/// Rule: S3 User Guide, "Setting an S3 Lifecycle configuration on a bucket": a configuration replaces the one before.
/// Cost: one printing of the configuration, one copy of it.
///
/// # Errors
///
/// `Full`: the texts of all configurations would have more bytes than their limit.
/// `NoMemory`: memory ran out. The bucket is unchanged after each.
pub(crate) fn set_rules(
    bucket: &mut Bucket,
    meters: &mut Meters,
    alloc: Global,
    t: Moment,
    rules: &RuleSet,
    counts: Counts,
    text_bytes: u64,
) -> Result<Done, Refusal>
    requires account { (account : plain.Account) × StandsForAccount (account_of bucket.old meters.old) account
        × IsOrderlyAccount t account }
    requires room { (accepted : ℕ) × (accepted < most_commands)
        × IsWithinBy accepted (account_of bucket.old meters.old) }
    requires counts { AreCountsOver bucket.old counts }
    requires text { text_bytes ≡ rules_bytes bucket.old.rules }
    ensures done { (account : plain.Account) → StandsForAccount (account_of bucket.old meters.old) account
        → IsOrderlyAccount t account
        → DoesTold (Rules ∷ []) (set_rules t rules.now account) account counts
        (account_of bucket.new meters.new) result }
    ensures room { OnOk result (HasGrownBy 3 1 (account_of bucket.old meters.old) (account_of bucket.new meters.new)) }
    ensures room_kept { OnErr result (HasGrownBy 0 0 (account_of bucket.old meters.old)
        (account_of bucket.new meters.new)) }
    ensures few { IfOk result (IsFewMore counts) }
    ensures fits { IfOk result (λ done. ReplyFits done.reply) }
{
    let count = rules.rules().len() as u32;
    let counts = moved(counts, text_bytes, text_length(alloc, rules)?).within(&ADDED)?;
    let Ok(kept) = rules.copy() else {
        return Err(Refusal::NoMemory);
    };
    bucket.rules = Some(kept);
    bucket.rules_since = t;
    Ok(Done {
        counts,
        reply: Reply::RulesSet { rules: count },
    })
}

/// Drops the lifecycle configuration, whose text has `text_bytes` bytes.
///
/// # Errors
///
/// `NoRules`: there is none. The bucket is then unchanged.
pub(crate) fn drop_rules(
    bucket: &mut Bucket,
    meters: &mut Meters,
    t: Moment,
    counts: Counts,
    text_bytes: u64,
) -> Result<Done, Refusal>
    requires account { (account : plain.Account) × StandsForAccount (account_of bucket.old meters.old) account
        × IsOrderlyAccount t account }
    requires room { (accepted : ℕ) × (accepted < most_commands)
        × IsWithinBy accepted (account_of bucket.old meters.old) }
    requires counts { AreCountsOver bucket.old counts }
    requires text { text_bytes ≡ rules_bytes bucket.old.rules }
    ensures done { (account : plain.Account) → StandsForAccount (account_of bucket.old meters.old) account
        → IsOrderlyAccount t account
        → DoesTold ([]) (drop_rules t account) account counts
        (account_of bucket.new meters.new) result }
    ensures room { OnOk result (HasGrownBy 3 1 (account_of bucket.old meters.old) (account_of bucket.new meters.new)) }
    ensures room_kept { OnErr result (HasGrownBy 0 0 (account_of bucket.old meters.old)
        (account_of bucket.new meters.new)) }
    ensures few { IfOk result (IsFewMore counts) }
    ensures fits { IfOk result (λ done. ReplyFits done.reply) }
{
    if bucket.rules.is_none() {
        return Err(Refusal::NoRules);
    }
    bucket.rules = None;
    bucket.rules_since = t;
    Ok(Done {
        counts: moved(counts, text_bytes, 0),
        reply: Reply::RulesSet { rules: 0 },
    })
}
