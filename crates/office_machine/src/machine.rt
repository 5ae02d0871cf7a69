// The records of the office in memory.
ghost use Rattle.std.specs.Prelude.{◌≡◌, ◌⊎◌, ◌<◌, ℕ, List, Ok, Err, None, IsTrue, option_copied, is_some, IfSome};
ghost use Rattle.office_base.specs.Maps.{at_name, at_number};
ghost use Rattle.plain_office.specs.Office as plain;
ghost use Rattle.plain_office.specs.Office.{empty_office};
ghost use Rattle.plain_office.specs.Step.{step};
ghost use Rattle.plain_office.specs.Answers.{answer};
ghost use Rattle.plain_office.specs.Run.{is_not_before};
ghost use Rattle.plain_office.specs.Orderly.{SizeFits};
ghost use Rattle.office_types.specs.Fits.{AnswerFits};
ghost use Rattle.bucket_account.specs.Standing.{most_commands};
ghost use Rattle.office_machine.specs.Queued.{AreQueuedIn};
ghost use Rattle.office_machine.specs.Standing.{StandsForOffice, Does, accepted_after};

use crate::reports::closed_at;
use bucket_account::{Account, Counts, NOTHING};
use moments::{Moment, Month};
use office_base::{BucketName, NoMemory};
use office_types::{Command, Query, Refusal, Reply};
use std::alloc::Global;
use std::collections::BTreeMap;
use std::marker::Model;
use tariff::Tariff;

/// The records of the office in memory: its buckets with their meters, the tariffs and the closed months.
#[derive(Drop)]
pub(crate) struct Machine {
    pub(crate) alloc: Global,
    // The moment of the last accepted command.
    pub(crate) last: Option<Moment>,
    // The tariffs that were set, by their first months.
    pub(crate) tariffs: Vec<Tariff>,
    // The month of the first accepted command.
    pub(crate) first_month: Option<Month>,
    // The closed months, each with the tariff of its closing.
    pub(crate) closed: Vec<(Month, Tariff)>,
    pub(crate) accounts: BTreeMap<BucketName, Account>,
    pub(crate) counts: Counts,
    // How many commands were accepted.
    pub(crate) accepted: u64,
}

impl Model for Machine {
    ghost use Rattle.office_machine.specs.Standing.{Records, IsOfAnOffice};

    ghost Value = { Records };

    ghost view = { λ o. record {
      last = o.last;
      tariffs = o.tariffs.items;
      first_month = o.first_month;
      closed = o.closed.items;
      accounts = o.accounts.entries;
      counts = o.counts;
      accepted = o.accepted;
    } };

    ghost invariant = { λ o. IsOfAnOffice (record {
      last = o.last;
      tariffs = o.tariffs.items;
      first_month = o.first_month;
      closed = o.closed.items;
      accounts = o.accounts.entries;
      counts = o.counts;
      accepted = o.accepted;
    }) };
}

impl Machine {
    /// Returns the office before the first command. Takes no memory.
    pub(crate) fn new(alloc: Global) -> Machine
        ensures stands { StandsForOffice result empty_office }
        ensures accepted { result.accepted ≡ 0 }
    {
        Machine {
            alloc,
            last: None,
            tariffs: Vec::new(alloc),
            first_month: None,
            closed: Vec::new(alloc),
            accounts: BTreeMap::new(alloc),
            counts: NOTHING,
            accepted: 0,
        }
    }

    /// Reads the moment of the last accepted command; none before the first.
    pub(crate) fn last(&self) -> Option<Moment>
        ensures same { result ≡ self.now.last }
    {
        self.last
    }

    /// Reads the account of a bucket; `None` if there is none of this name. Takes no memory.
    ///
    /// Cost: one search of the buckets.
    pub(crate) fn account(&self, name: &BucketName) -> Option<&Account>
        ensures same { option_copied result ≡ at_name name.now self.now.accounts }
    {
        self.accounts.get(name)
    }

    /// Counts the keys and the uploads of a bucket that have an eligible action, whenever it is due: the entries of the
    /// bucket's queue of next actions. `None` if there is no bucket of this name, or if memory for its queue ran out.
    /// Takes no memory.
    ///
    /// Cost: one search of the buckets.
    pub(crate) fn queued(&self, bucket: &BucketName) -> Option<u64>
        ensures exact { IfSome result (λ entries. AreQueuedIn entries (at_name bucket.now self.now.accounts)) }
        ensures missing { at_name bucket.now self.now.accounts ≡ None → result ≡ None }
    {
        match self.accounts.get(bucket) {
            Some(account) => match account.queued() {
                Ok(entries) => Some(entries),
                Err(NoMemory) => None,
            },
            None => None,
        }
    }

    /// Reports whether a month was closed. Takes no memory.
    ///
    /// Cost: a pass over the closed months.
    pub(crate) fn closed(&self, month: Month) -> bool
        ensures exact { (p : plain.Office) → StandsForOffice self.now p
            → result ≡ is_some (at_number month p.closed) }
    {
        closed_at(&self.closed, month).is_some()
    }

    /// Does a command at a moment, and answers it. `t` is not before the moment of the last accepted command.
    ///
    /// # Errors
    ///
    /// Each is the refusal that the plain office gives, tested in its order; or `NoMemory`: memory ran out. After an
    /// error, and after the reply `NothingDue`, the office stands for what it stood for before.
    pub(crate) fn apply(&mut self, t: Moment, command: &Command) -> Result<Reply, Refusal>
        requires later { IsTrue (is_not_before self.old.last t) }
        requires few { self.old.accepted < most_commands }
        ensures step { (p : plain.Office) → StandsForOffice self.old p → Does (step t command.now p) p self.new result }
        ensures accepted { self.new.accepted ≡ accepted_after result self.old.accepted }
        ensures fits { AnswerFits result }
        ensures size { SizeFits command.now }
    {
        match command {
            Command::CreateBucket { bucket } => self.create_bucket(t, bucket),
            Command::Put { bucket, size, .. } => {
                // A size is at most 5 TiB, by its type.
                let _ = size.bytes();
                self.on_bucket(t, bucket, command)
            }
            Command::SetVersioning { bucket, .. }
            | Command::SetRules { bucket, .. }
            | Command::DropRules { bucket }
            | Command::Delete { bucket, .. }
            | Command::DeleteVersion { bucket, .. }
            | Command::SetTags { bucket, .. }
            | Command::StartUpload { bucket, .. }
            | Command::PutPart { bucket, .. }
            | Command::Complete { bucket, .. }
            | Command::Abort { bucket, .. }
            | Command::Act { bucket } => self.on_bucket(t, bucket, command),
            Command::SetTariff { tariff } => self.set_tariff(t, tariff.get()),
            Command::Close { month } => self.close(t, *month),
        }
    }

    /// Answers a query as of a moment, which is not before that of the last accepted command. Nothing changes.
    ///
    /// # Errors
    ///
    /// Each is the refusal that the plain office gives, tested in its order; or `NoMemory`: memory ran out.
    pub(crate) fn answer(&self, t: Moment, query: &Query) -> Result<Reply, Refusal>
        requires later { IsTrue (is_not_before self.now.last t) }
        ensures reply { (p : plain.Office) → StandsForOffice self.now p
            → (result ≡ answer t query.now p) ⊎ (result ≡ Err Refusal.NoMemory) }
        ensures fits { AnswerFits result }
    {
        match query {
            Query::Bucket(name) => self.show_bucket(name),
            Query::Rules(name) => self.show_rules(name),
            Query::Stack(name, key) => self.show_stack(name, key),
            Query::Upload(name, number) => self.show_upload(name, *number),
            Query::Due(name) => self.show_due(t, name),
            Query::Meters(name, month) => self.show_meters(t, name, *month),
            Query::Tariff => self.show_tariff(),
            Query::Report(month) => self.show_report(t, *month),
        }
    }
}
