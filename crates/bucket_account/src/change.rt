// What a command does to its bucket.
ghost use Rattle.std.specs.Prelude.{◌≡◌, ◌<◌, ℕ, OnOk, OnErr, IfOk, IfSome};
ghost use Rattle.due_index.specs.Index.{StandsFor};
ghost use Rattle.plain_office.specs.Office as plain;
ghost use Rattle.office_types.specs.Fits.{ReplyFits};
ghost use Rattle.office_types.specs.declared.reply.Reply.TheVariants.{NothingDue};
ghost use Rattle.bucket_account.specs.Changing.{change_of, limits_of, IsOrderlyAccount, DoesTold};
ghost use Rattle.plain_office.specs.Counts.{rules_bytes};
ghost use Rattle.bucket_account.specs.Counting.{account_of, IsFewMore, AreCountsOver, IsWithinBy, HasGrownBy};
ghost use Rattle.bucket_account.specs.Standing.{StandsForAccount, most_commands};

use crate::act::act;
use crate::counts::Counts;
use crate::delete::{delete, delete_version};
use crate::lifecycle::{drop_rules, set_rules};
use crate::put::put;
use crate::renewing::renew;
use crate::tags::set_tags;
use crate::upload::{abort, complete, put_part, start_upload};
use crate::versioning::set_versioning;
use accrual::Meters;
use due_core::Bucket;
use due_index::DueIndex;
use moments::Moment;
use office_types::{Command, Refusal, Reply};
use std::alloc::Global;

/// What a command did: the counts after it, and the reply.
#[derive(Drop)]
pub struct Done {
    pub counts: Counts,
    pub reply: Reply,
}

/// Does a command on a bucket, and renews what it touched in the index. If memory for the index runs out, the index is
/// dropped, and the command is still done.
pub(crate) fn change(
    bucket: &mut Bucket,
    meters: &mut Meters,
    index: &mut Option<DueIndex>,
    alloc: Global,
    t: Moment,
    command: &Command,
    counts: Counts,
    text_bytes: u64,
) -> Result<Done, Refusal>
    requires account { (account : plain.Account) × StandsForAccount (account_of bucket.old meters.old) account
        × IsOrderlyAccount t account }
    requires room { (accepted : ℕ) × (accepted < most_commands)
        × IsWithinBy accepted (account_of bucket.old meters.old) }
    requires counts { AreCountsOver bucket.old counts }
    requires text { text_bytes ≡ rules_bytes bucket.old.rules }
    requires index { IfSome index.old (λ index. StandsFor index bucket.old) }
    ensures done { (account : plain.Account) → StandsForAccount (account_of bucket.old meters.old) account
        → IsOrderlyAccount t account
        → DoesTold (limits_of command.now bucket.old) (change_of t command.now account) account counts
        (account_of bucket.new meters.new) result }
    ensures room { OnOk result (HasGrownBy 3 1 (account_of bucket.old meters.old) (account_of bucket.new meters.new)) }
    ensures room_kept { OnErr result (HasGrownBy 0 0 (account_of bucket.old meters.old)
        (account_of bucket.new meters.new)) }
    ensures nothing { IfOk result (λ done. done.reply ≡ NothingDue
        → HasGrownBy 0 0 (account_of bucket.old meters.old) (account_of bucket.new meters.new)) }
    ensures few { IfOk result (IsFewMore counts) }
    ensures fits { IfOk result (λ done. ReplyFits done.reply) }
    ensures index { IfSome index.new (λ index. StandsFor index bucket.new) }
{
    match command {
        Command::Complete { upload, .. } => {
            return complete(bucket, meters, index, alloc, t, *upload, counts);
        }
        Command::Act { .. } => return act(bucket, meters, index, alloc, t, counts),
        _ => {}
    }
    let next_upload = bucket.next_upload;
    let result = change_records(bucket, meters, alloc, t, command, counts, text_bytes);
    if result.is_ok() {
        renew(index, alloc, bucket, command, next_upload);
    }
    result
}

/// Does a command that touches one key, one upload or the rules. Any other is refused with `NoMemory`.
fn change_records(
    bucket: &mut Bucket,
    meters: &mut Meters,
    alloc: Global,
    t: Moment,
    command: &Command,
    counts: Counts,
    text_bytes: u64,
) -> Result<Done, Refusal>
    requires account { (account : plain.Account) × StandsForAccount (account_of bucket.old meters.old) account
        × IsOrderlyAccount t account }
    requires room { (accepted : ℕ) × (accepted < most_commands)
        × IsWithinBy accepted (account_of bucket.old meters.old) }
    requires counts { AreCountsOver bucket.old counts }
    requires text { text_bytes ≡ rules_bytes bucket.old.rules }
    ensures done { (account : plain.Account) → StandsForAccount (account_of bucket.old meters.old) account
        → IsOrderlyAccount t account
        → DoesTold (limits_of command.now bucket.old) (change_of t command.now account) account counts
        (account_of bucket.new meters.new) result }
    ensures room { OnOk result (HasGrownBy 3 1 (account_of bucket.old meters.old) (account_of bucket.new meters.new)) }
    ensures room_kept { OnErr result (HasGrownBy 0 0 (account_of bucket.old meters.old)
        (account_of bucket.new meters.new)) }
    ensures nothing { IfOk result (λ done. done.reply ≡ NothingDue
        → HasGrownBy 0 0 (account_of bucket.old meters.old) (account_of bucket.new meters.new)) }
    ensures few { IfOk result (IsFewMore counts) }
    ensures fits { IfOk result (λ done. ReplyFits done.reply) }
{
    match command {
        Command::SetVersioning { enabled, .. } => {
            set_versioning(bucket, meters, t, *enabled, counts)
        }
        Command::SetRules { rules, .. } => {
            set_rules(bucket, meters, alloc, t, rules, counts, text_bytes)
        }
        Command::DropRules { .. } => drop_rules(bucket, meters, t, counts, text_bytes),
        Command::Put {
            key,
            size,
            class,
            tags,
            ..
        } => put(bucket, meters, alloc, t, key, *size, *class, tags, counts),
        Command::Delete { key, .. } => delete(bucket, meters, alloc, t, key, counts),
        Command::DeleteVersion { key, id, .. } => {
            delete_version(bucket, meters, t, key, id, counts)
        }
        Command::SetTags { key, id, tags, .. } => {
            set_tags(bucket, meters, t, key, id, tags, counts)
        }
        Command::StartUpload {
            key,
            class,
            tags,
            ..
        } => start_upload(bucket, meters, alloc, t, key, *class, tags, counts),
        Command::PutPart {
            upload,
            part,
            size,
            ..
        } => put_part(bucket, meters, t, *upload, *part, *size, counts),
        Command::Abort { upload, .. } => abort(bucket, meters, t, *upload, counts),
        _ => Err(Refusal::NoMemory),
    }
}
