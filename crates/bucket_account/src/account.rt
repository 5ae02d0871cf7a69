// A bucket in memory: its records, its meters and its running count of versions.
ghost use Rattle.std.specs.Prelude.{◌≡◌, ◌+◌, ◌^◌, ◌<◌, ◌≤◌, ℕ, length, OnOk, OnErr, IfOk, IfSome, IsFalse, All};
ghost use Rattle.accrual.specs.Books.{Book, IsBookedBy};
ghost use Rattle.accrual.specs.Sums.{AreSumsOf, HaveRisingMonths, IsSmallMonth, is_nothing};
ghost use Rattle.accrual.specs.Totals.{AreTotalsOf};
ghost use Rattle.due_core.specs.Choice.{choice};
ghost use Rattle.due_index.specs.Firsts.{entry_count};
ghost use Rattle.plain_office.specs.Office as plain;
ghost use Rattle.plain_office.specs.Office.{book_of};
ghost use Rattle.plain_office.specs.Orderly.{IsOrderlyBucket};
ghost use Rattle.plain_office.specs.Step.{new_account};
ghost use Rattle.plain_office.specs.Counts.{version_count};
ghost use Rattle.plain_office.specs.Answers.{rule_count};
ghost use Rattle.plain_office.specs.Charges.{class_meters};
ghost use Rattle.office_types.specs.Fits.{ReplyFits};
ghost use Rattle.office_types.specs.declared.refusal.What.{What};
ghost use Rattle.office_types.specs.declared.reply.Reply.TheVariants.{NothingDue};
ghost use Rattle.bucket_account.specs.Changing.{change_of, limits_of, IsOrderlyAccount, DoesTold};
ghost use Rattle.bucket_account.specs.Counting.{AreCountsOver, IsWithinBy, HasGrownBy, amount, in_bucket};
ghost use Rattle.bucket_account.specs.Restoring.{IsSmallBucket, IsAccountOf, AreFewIn};
ghost use Rattle.bucket_account.specs.Standing.{StandsForAccount, IsCopyOf, most_commands};

use crate::change::{Done, change};
use crate::copying::copy_of;
use crate::counting::{count_names, count_parts, count_text, count_versions};
use crate::counts::Counts;
use crate::renewing::{entries_of, first_of};
use crate::restoring::open_all;
use accrual::{Meters, MonthSums};
use class_rules::Class;
use due_core::{Action, Bucket};
use due_index::DueIndex;
use moments::{Moment, Month};
use office_base::NoMemory;
use office_types::{ClassMeters, Command, Refusal};
use stacks::Versioning;
use std::alloc::Global;
use std::collections::BTreeMap;
use std::marker::Model;

/// A bucket in memory: its records and its meters.
#[derive(Drop)]
pub struct Account {
    bucket: Bucket,
    meters: Meters,
    // How many versions the bucket has.
    versions: u64,
    // The bytes of its printed configuration.
    text_bytes: u64,
    // The actions that come next; `None` if memory for them ran out.
    index: Option<DueIndex>,
}

impl Model for Account {
    ghost use Rattle.std.specs.Prelude.{◌≡◌, IfSome};
    ghost use Rattle.due_index.specs.Index.{StandsFor};
    ghost use Rattle.plain_office.specs.Counts.{version_count, rules_bytes};
    ghost use Rattle.bucket_account.specs.Counting.{AccountRecord};

    ghost Value = { AccountRecord };

    ghost view = { λ a. record { bucket = a.bucket; meters = a.meters } };

    ghost invariant = { λ a. (a.versions ≡ version_count a.bucket) × (a.text_bytes ≡ rules_bytes a.bucket.rules)
        × IfSome a.index (λ index. StandsFor index a.bucket) };
}

// Moves a bucket's own count by as much as the total count moved. The total includes the bucket's.
fn moved(own: u64, before: u64, after: u64) -> u64
    requires some { before ≤ own + after }
    requires few { own + after < 2 ^ 64 }
    ensures { result + before ≡ own + after }
{
    own + after - before
}

impl Account {
    /// Returns the account of a bucket that is made at this moment. Takes no memory.
    pub fn new(alloc: Global, at: Moment) -> Account
        ensures stands { StandsForAccount result (new_account at) }
        ensures room { (accepted : ℕ) → IsWithinBy accepted result }
    {
        let bucket = Bucket {
            versioning: Versioning::Unversioned,
            rules: None,
            rules_since: at,
            stacks: BTreeMap::new(alloc),
            uploads: BTreeMap::new(alloc),
            next_version: 1,
            next_upload: 1,
        };
        let index = DueIndex::build(alloc, &bucket).ok();
        Account {
            bucket,
            meters: Meters::new(alloc),
            versions: 0,
            text_bytes: 0,
            index,
        }
    }

    /// Returns the account of these records. The months have these sums, without the stays that have no end yet. The
    /// stay of each version and part is opened: an object's when it entered its class, a marker's when it was made, a
    /// part's when it was put.
    ///
    /// Cost: a pass over the versions and parts, one printing of the configuration, and the index is built.
    ///
    /// # Errors
    ///
    /// `NoMemory`: memory ran out.
    pub fn of(alloc: Global, bucket: Bucket, sums: &[MonthSums]) -> Result<Account, NoMemory>
        requires orderly { (last : ℕ) × IsOrderlyBucket last bucket }
        requires few { IsSmallBucket bucket }
        requires rising { HaveRisingMonths sums.now }
        requires small { All IsSmallMonth sums.now }
        ensures stands { IfOk result (λ made. (account : plain.Account) → IsAccountOf bucket sums.now account
            → StandsForAccount made account) }
        ensures bucket { IfOk result (λ made. made.bucket ≡ bucket) }
        ensures room { IfOk result (IsWithinBy 0) }
    {
        let mut meters = Meters::from_sums(alloc, sums)?;
        open_all(&mut meters, &bucket)?;
        let versions = count_versions(&bucket);
        let text_bytes = count_text(alloc, &bucket.rules)?;
        let index = DueIndex::build(alloc, &bucket).ok();
        Ok(Account {
            bucket,
            meters,
            versions,
            text_bytes,
            index,
        })
    }

    /// Lists the sums of the months, in order, without the stays that have no end yet. A month in which all are 0 is
    /// left out.
    ///
    /// # Errors
    ///
    /// `NoMemory`: memory ran out.
    pub fn sums(&self) -> Result<Vec<MonthSums>, NoMemory>
        ensures exact { IfOk result (λ sums. (account : plain.Account) → StandsForAccount self.now account
            → AreSumsOf (book_of account.books) sums.items) }
        ensures rising { IfOk result (λ sums. HaveRisingMonths sums.items) }
        ensures some { IfOk result (λ sums. All (λ month. IsFalse (is_nothing month)) sums.items) }
    {
        self.meters.sums()
    }

    /// Copies the bucket's records.
    ///
    /// Cost: for each key and upload a search of those before it, and a copy.
    ///
    /// # Errors
    ///
    /// `NoMemory`: memory ran out.
    pub fn records(&self, alloc: Global) -> Result<Bucket, NoMemory>
        ensures { IfOk result (λ bucket. bucket ≡ self.now.bucket) }
    {
        Ok(copy_of(alloc, &self.bucket)?)
    }

    /// Copies the account.
    ///
    /// Cost: a copy of the records, as in `records`; a copy of the meters; the index is built.
    ///
    /// # Errors
    ///
    /// `NoMemory`: memory ran out.
    pub fn copy(&self, alloc: Global) -> Result<Account, NoMemory>
        ensures { IfOk result (λ copy. IsCopyOf copy self.now) }
    {
        let meters = self.meters.copy()?;
        let bucket = self.records(alloc)?;
        let index = DueIndex::build(alloc, &bucket).ok();
        Ok(Account {
            bucket,
            meters,
            versions: self.versions,
            text_bytes: self.text_bytes,
            index,
        })
    }

    /// Does a command on the bucket, and returns the counts after it and the reply.
    pub fn apply(
        &mut self,
        alloc: Global,
        t: Moment,
        command: &Command,
        counts: Counts,
    ) -> Result<Done, Refusal>
        requires account { (account : plain.Account) × StandsForAccount self.old account × IsOrderlyAccount t account }
        requires room { (accepted : ℕ) × (accepted < most_commands) × IsWithinBy accepted self.old }
        requires counts { AreCountsOver self.old.bucket counts }
        ensures done { (account : plain.Account) → StandsForAccount self.old account → IsOrderlyAccount t account
            → DoesTold (limits_of command.now self.old.bucket) (change_of t command.now account) account counts
            self.new result }
        ensures fits { IfOk result (λ done. ReplyFits done.reply) }
        ensures room { OnOk result (HasGrownBy 3 1 self.old self.new) }
        ensures room_kept { OnErr result (HasGrownBy 0 0 self.old self.new) }
        ensures nothing { IfOk result (λ done. done.reply ≡ NothingDue → HasGrownBy 0 0 self.old self.new) }
    {
        let done = change(
            &mut self.bucket,
            &mut self.meters,
            &mut self.index,
            alloc,
            t,
            command,
            counts,
            self.text_bytes,
        )?;
        self.versions = moved(self.versions, counts.versions, done.counts.versions);
        self.text_bytes = moved(self.text_bytes, counts.rules, done.counts.rules);
        Ok(done)
    }

    /// Reads the bucket's records.
    pub fn bucket(&self) -> &Bucket
        ensures { result.now ≡ self.now.bucket }
    {
        &self.bucket
    }

    /// Finds the lifecycle action that is due first at a moment; `None` if none is due.
    ///
    /// Cost: one reading of the index, and a copy of the action's key; a pass over all versions and uploads if there is
    /// no index.
    ///
    /// # Errors
    ///
    /// `NoMemory`: memory ran out.
    pub fn chosen(&self, t: Moment) -> Result<Option<Action>, NoMemory>
        ensures exact { IfOk result (λ action. action ≡ choice self.now.bucket t) }
    {
        first_of(&self.index, &self.bucket, t)
    }

    /// Counts the keys and the uploads that have an eligible action. Takes no memory.
    ///
    /// # Errors
    ///
    /// `NoMemory`: when the index of them was to be made, memory ran out.
    pub fn queued(&self) -> Result<u64, NoMemory>
        ensures exact { IfOk result (λ entries. entries ≡ entry_count self.now.bucket) }
    {
        match &self.index {
            Some(index) => Ok(entries_of(index, &self.bucket)),
            None => Err(NoMemory),
        }
    }

    /// Counts the versions.
    pub fn versions(&self) -> u32
        requires few { version_count self.now.bucket ≤ 400_000 }
        ensures { result ≡ version_count self.now.bucket }
    {
        self.versions as u32
    }

    /// Counts the rules.
    #[tactic(auto, using(due_core::proofs::RuleCount::few_rules))]
    pub fn rules(&self) -> u32
        ensures { result ≡ rule_count self.now.bucket.rules }
    {
        match &self.bucket.rules {
            Some(rules) => rules.rules().len() as u32,
            None => 0,
        }
    }

    /// Counts what the bucket has of each kind that has a limit.
    ///
    /// Cost: a pass over the versions, uploads and parts. Takes no memory.
    pub fn counts(&self) -> Counts
        requires few { AreFewIn self.now.bucket }
        ensures { (what : What) → amount what result ≡ in_bucket what self.now.bucket }
    {
        Counts {
            buckets: 1,
            versions: self.versions,
            uploads: self.bucket.uploads.len() as u64,
            parts: count_parts(&self.bucket),
            names: count_names(&self.bucket),
            rules: self.text_bytes,
            tariffs: 0,
        }
    }

    /// Counts the unfinished uploads.
    pub fn uploads(&self) -> u32
        requires few { length self.now.bucket.uploads ≤ 40_000 }
        ensures { result ≡ length self.now.bucket.uploads }
    {
        self.bucket.uploads.len() as u32
    }

    /// Reports whether versioning was never enabled, is enabled or is suspended.
    pub fn versioning(&self) -> Versioning
        ensures { result ≡ self.now.bucket.versioning }
    {
        self.bucket.versioning
    }

    /// Reads what was used of a class in a month, as seen at a moment.
    pub fn used(&self, month: Month, class: Class, t: Moment) -> ClassMeters
        ensures { (book : Book) → AreTotalsOf self.now.meters book → IsBookedBy t book
            → result ≡ class_meters month t book class }
    {
        ClassMeters {
            class,
            byte_ms: self.meters.reading(month, class, t),
            early_byte_ms: self.meters.early_of(month, class),
            moves: self.meters.moves_of(month, class),
        }
    }
}
