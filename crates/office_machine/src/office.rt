// The office with the replies that it keeps, so that a command with a token is done once.
ghost use Rattle.std.specs.Prelude.{◌≡◌, ◌⊎◌, ◌<◌, ℕ, List, true, Ok, Err, Some};
ghost use Rattle.std.specs.Prelude.{None, IsTrue, IfOk, IfSome, option_copied};
ghost use Rattle.std.specs.Prelude.{is_some};
ghost use Rattle.office_base.specs.Maps.{at_name, at_number};
ghost use Rattle.std.specs.List.{AllByRecursion};
ghost use Rattle.kept_replies.specs.Queue.{kept_in, IsTold};
ghost use Rattle.plain_office.specs.Office as plain;
ghost use Rattle.plain_office.specs.Office.{empty_office};
ghost use Rattle.plain_office.specs.Once.{kept_at, recalled, step_with};
ghost use Rattle.plain_office.specs.Answers.{answer};
ghost use Rattle.plain_office.specs.Run.{is_not_before};
ghost use Rattle.office_types.specs.Fits.{AnswerFits};
ghost use Rattle.office_types.specs.Tokens.{takes_token, MayCarry};
ghost use Rattle.bucket_account.specs.Standing.{most_commands};
ghost use Rattle.plain_office.specs.Orderly.{SizeFits};
ghost use Rattle.office_types.specs.declared.command.Command.{Command};
ghost use Rattle.office_types.specs.declared.reply.Reply.{Reply};
ghost use Rattle.office_snapshot.specs.Restorable.{HaveForm, IsRestorable};
ghost use Rattle.office_snapshot.specs.Snapshots.{Shows};
ghost use Rattle.office_machine.specs.Lateness.{Leaves, HasEmptySweep, AsksClosedMonth};
ghost use Rattle.office_machine.specs.Queued.{AreQueuedIn};
ghost use Rattle.office_machine.specs.Standing.{accepted_after};
ghost use Rattle.office_machine.specs.Once.{OfficeView, StandsFor, DoesOnce};

use crate::commands::is_accepted;
use crate::machine::Machine;
use crate::restoring::{accounts_of, count_all, first_month_of};
use bucket_account::{Account, Counts, NOTHING};
use kept_replies::KeptReplies;
use moments::{Moment, Month};
use office_base::{BucketName, NoMemory};
use office_snapshot::Snapshot;
use office_types::{Command, Query, Refusal, Reply, Token};
use std::alloc::Global;
use std::marker::Model;

/// The office in memory: its records, and the replies to the last commands that carried a token.
#[derive(Drop)]
pub struct Office {
    machine: Machine,
    kept: KeptReplies,
}

impl Model for Office {
    ghost use Rattle.office_machine.specs.Once.{OfficeView, IsAnOffice};

    ghost Value = { OfficeView };

    ghost view = { λ o. record { records = o.machine; kept = o.kept } };

    ghost invariant = { λ o. IsAnOffice (record { records = o.machine; kept = o.kept }) };
}

impl Office {
    /// Returns the office before the first command. Takes no memory.
    pub fn new(alloc: Global) -> Office
        ensures stands { StandsFor result empty_office }
        ensures accepted { result.records.accepted ≡ 0 }
    {
        Office {
            machine: Machine::new(alloc),
            kept: KeptReplies::new(alloc),
        }
    }

    /// Returns the office of a snapshot. No command counts as accepted yet. The snapshot must be one from which an
    /// office can be restored.
    ///
    /// Cost: passes over all versions, parts and kept replies; each bucket's queue of next actions is built.
    ///
    /// # Errors
    ///
    /// `NoMemory`: memory ran out.
    pub fn restore(alloc: Global, snapshot: Snapshot) -> Result<Office, NoMemory>
        requires restorable { IsRestorable snapshot }
        ensures stands { IfOk result (λ office. (p : plain.Office) → Shows snapshot p → StandsFor office p) }
        ensures some { IfOk result (λ office. (p : plain.Office) × Shows snapshot p) }
        ensures fresh { IfOk result (λ office. office.records.accepted ≡ 0) }
    {
        let Snapshot {
            last,
            first_open,
            tariffs,
            closed,
            buckets,
            kept,
        } = snapshot;
        let first_month = first_month_of(first_open, closed.len() as u64);
        let accounts = accounts_of(alloc, buckets)?;
        let beside = Counts {
            tariffs: tariffs.len() as u64,
            ..NOTHING
        };
        let counts = count_all(beside, &accounts);
        let kept = KeptReplies::of(alloc, kept)?;
        let machine = Machine {
            alloc,
            last,
            tariffs,
            first_month,
            closed,
            accounts,
            counts,
            accepted: 0,
        };
        Ok(Office { machine, kept })
    }

    /// Takes a snapshot of the office: its records, the sums of its meters, and the kept replies.
    ///
    /// Cost: a copy of all records and of what is kept of each reply.
    ///
    /// # Errors
    ///
    /// `NoMemory`: memory ran out.
    pub fn snapshot(&self, alloc: Global) -> Result<Snapshot, NoMemory>
        ensures shows { IfOk result (λ snapshot. (p : plain.Office) → StandsFor self.now p → Shows snapshot p) }
        ensures sums { IfOk result (λ snapshot. AllByRecursion (λ part. HaveForm part.sums) snapshot.buckets) }
        ensures told { IfOk result (λ snapshot. AllByRecursion IsTold snapshot.kept) }
    {
        let kept = self.kept.list(alloc)?;
        let snapshot = self.machine.snapshot(alloc, kept)?;
        Ok(snapshot)
    }

    /// Copies the office: the same records and kept replies, and the same number of accepted commands.
    ///
    /// Cost: a copy of all records, meters and kept replies; each bucket's queue of next actions is built.
    ///
    /// # Errors
    ///
    /// `NoMemory`: memory ran out.
    pub fn copy(&self) -> Result<Office, NoMemory>
        ensures stands { IfOk result (λ copy. (p : plain.Office) → StandsFor self.now p → StandsFor copy p) }
        ensures some { IfOk result (λ copy. (p : plain.Office) × StandsFor copy p) }
        ensures last { IfOk result (λ copy. copy.records.last ≡ self.now.records.last) }
        ensures accepted { IfOk result (λ copy. copy.records.accepted ≡ self.now.records.accepted) }
    {
        let machine = self.machine.copy()?;
        let kept = self.kept.list(machine.alloc)?;
        let kept = KeptReplies::of(machine.alloc, kept)?;
        Ok(Office { machine, kept })
    }

    /// Reads the moment of the last accepted command; none before the first.
    pub fn last(&self) -> Option<Moment>
        ensures same { result ≡ self.now.records.last }
    {
        self.machine.last()
    }

    /// Reads the account of a bucket: its records, its meters and its queue of next actions. `None` if there is no
    /// bucket of this name. Takes no memory.
    ///
    /// Cost: one search of the buckets.
    pub fn account(&self, name: &BucketName) -> Option<&Account>
        ensures same { option_copied result ≡ at_name name.now self.now.records.accounts }
    {
        self.machine.account(name)
    }

    /// Counts the keys and the uploads of a bucket that have an eligible action, whenever it is due: the entries of the
    /// bucket's queue of next actions. `None` if there is no bucket of this name, or if memory for its queue ran out.
    /// Takes no memory.
    ///
    /// Cost: one search of the buckets.
    pub fn queued(&self, bucket: &BucketName) -> Option<u64>
        ensures exact { IfSome result (λ entries. AreQueuedIn entries (at_name bucket.now self.now.records.accounts)) }
        ensures missing { at_name bucket.now self.now.records.accounts ≡ None → result ≡ None }
    {
        self.machine.queued(bucket)
    }

    /// Reports whether a month was closed. Takes no memory.
    ///
    /// Cost: a pass over the closed months.
    pub fn closed(&self, month: Month) -> bool
        ensures exact { (p : plain.Office) → StandsFor self.now p → result ≡ is_some (at_number month p.closed) }
    {
        self.machine.closed(month)
    }

    /// Recalls the reply to a command that carries a token; `None` if no reply is kept under the token.
    ///
    /// Cost: one search of the tokens; if a reply is kept, a pass over both commands.
    ///
    /// # Errors
    ///
    /// `TokenReused`: the token is kept with another command. `NoMemory`: memory ran out.
    pub fn recall(&self, token: &Token, command: &Command) -> Result<Option<Reply>, Refusal>
        ensures exact { (p : plain.Office) → StandsFor self.now p
            → (result ≡ recalled (kept_at token.now p.kept) command.now) ⊎ (result ≡ Err Refusal.NoMemory) }
        ensures new { result ≡ Ok None → kept_in token.now self.now.kept.queue ≡ None }
    {
        self.kept.recall(token, command)
    }

    /// Does a command at a moment, and answers it. If it carries a token and is accepted, the reply is kept. `t` is not
    /// before the moment of the last accepted command, the command may carry the token, and no reply is kept under it.
    ///
    /// Cost: one search of the buckets and one of what the command names in its bucket. `Act` takes the first of its
    /// bucket's queue of next actions, and `Close` reads the first of each bucket's. `SetRules`, `DropRules` and
    /// `SetVersioning` read all versions and uploads of the bucket. So does an `Act` or a `Close` if there is no queue
    /// because memory ran out. Memory for copies of names, keys and tags, and for the months since what is removed or
    /// replaced came. Nothing is counted again. With a token also two searches of the tokens, and memory for copies of
    /// the token and the command.
    ///
    /// # Errors
    ///
    /// Each is the refusal that the plain office gives, tested in its order; or `NoMemory`: memory ran out. After an
    /// error, and after the reply `NothingDue`, the office stands for what it stood for before.
    pub fn apply(
        &mut self,
        t: Moment,
        token: Option<&Token>,
        command: &Command,
    ) -> Result<Reply, Refusal>
        requires later { IsTrue (is_not_before self.old.records.last t) }
        requires few { self.old.records.accepted < most_commands }
        requires carries { MayCarry (option_copied token) command.now }
        requires new { IfSome (option_copied token) (λ one. kept_in one self.old.kept.queue ≡ None) }
        ensures step { (p : plain.Office) → StandsFor self.old p
            → DoesOnce (step_with t (option_copied token.entry) command.now p) p self.new result }
        ensures accepted { self.new.records.accepted ≡ accepted_after result self.old.records.accepted }
        ensures fits { AnswerFits result }
        ensures leaves { (p : plain.Office) → StandsFor self.old p
            → (q : plain.Office) × StandsFor self.new q × Leaves t command.now p q }
        ensures nothing_due { (p : plain.Office) (name : List ℕ) → StandsFor self.old p
            → command.now ≡ Command.Act name → result ≡ Ok Reply.NothingDue
            → StandsFor self.new p × HasEmptySweep name t p }
    {
        know_size(command);
        match token {
            Some(token) => self.apply_once(t, token, command),
            None => self.apply_plain(t, command),
        }
    }

    fn apply_plain(&mut self, t: Moment, command: &Command) -> Result<Reply, Refusal>
        requires later { IsTrue (is_not_before self.old.records.last t) }
        requires few { self.old.records.accepted < most_commands }
        ensures step { (p : plain.Office) → StandsFor self.old p
            → DoesOnce (step_with t None command.now p) p self.new result }
        ensures accepted { self.new.records.accepted ≡ accepted_after result self.old.records.accepted }
        ensures fits { AnswerFits result }
    {
        self.machine.apply(t, command)
    }

    fn apply_once(&mut self, t: Moment, token: &Token, command: &Command) -> Result<Reply, Refusal>
        requires later { IsTrue (is_not_before self.old.records.last t) }
        requires few { self.old.records.accepted < most_commands }
        requires takes { takes_token command.now ≡ true }
        requires new { kept_in token.now self.old.kept.queue ≡ None }
        ensures step { (p : plain.Office) → StandsFor self.old p
            → DoesOnce (step_with t (Some token.now) command.now p) p self.new result }
        ensures accepted { self.new.records.accepted ≡ accepted_after result self.old.records.accepted }
        ensures fits { AnswerFits result }
    {
        if self.kept.hold(token, command).is_err() {
            return Err(Refusal::NoMemory);
        }
        match self.machine.apply(t, command) {
            Ok(reply) => {
                if is_accepted(&reply) {
                    self.kept.keep(t, &reply);
                } else {
                    self.kept.let_go();
                }
                Ok(reply)
            }
            Err(refusal) => {
                self.kept.let_go();
                Err(refusal)
            }
        }
    }

    /// Answers a query as of a moment, which is not before that of the last accepted command. Nothing changes.
    ///
    /// # Errors
    ///
    /// Each is the refusal that the plain office gives, tested in its order; or `NoMemory`: memory ran out.
    pub fn answer(&self, t: Moment, query: &Query) -> Result<Reply, Refusal>
        requires later { IsTrue (is_not_before self.now.records.last t) }
        ensures reply { (p : plain.Office) → StandsFor self.now p
            → (result ≡ answer t query.now p) ⊎ (result ≡ Err Refusal.NoMemory) }
        ensures fits { AnswerFits result }
        ensures closed { (p : plain.Office) (u : ℕ) → StandsFor self.now p → AsksClosedMonth u t query.now p
            → (result ≡ answer u query.now p) ⊎ (result ≡ Err Refusal.NoMemory) }
    {
        self.machine.answer(t, query)
    }
}

// A size is at most 5 TiB, by its type.
fn know_size(command: &Command)
    ensures { SizeFits command.now }
{
    if let Command::Put { size, .. } = command {
        let _ = size.bytes();
    }
}
