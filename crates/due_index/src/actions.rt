// The index of the next actions.
ghost use Rattle.std.specs.Prelude.{◌≡◌, ◌+◌, ◌≤◌, ℕ, List, [], length, IfOk, IfSome, OnOk};
ghost use Rattle.std.specs.Prelude.{OnErr, Some, None, option_copied, option_map};
ghost use Rattle.due_core.specs.Buckets.{BucketRecord};
ghost use Rattle.due_core.specs.Candidates.{candidates};
ghost use Rattle.due_core.specs.Choice.{choice};
ghost use Rattle.office_base.specs.Maps.{at_name, at_number};
ghost use Rattle.due_index.specs.Firsts.{entry_count, first_on_key, first_on_upload};
ghost use Rattle.due_index.specs.Actions.{IsTotalOn, IsLeastAction};
ghost use Rattle.due_index.specs.Actions.{ActionsStand, IsBucket, due_by, SetsNextOnKey, KeepsNext, ActionsStandButKey};
ghost use Rattle.due_index.specs.Actions.{SetsNextOnUpload, ActionsStandButUpload, IsOnUpload, HasNoKeys, HasNoUploads};
ghost use Rattle.due_index.specs.Actions.{StandsOnKeys, StandsOnUploads, KeepsKeys, KeepsUploads, HasTable};
ghost use Rattle.due_index.specs.Blocks.{AreRightUnder};
ghost use Rattle.due_index.specs.Index.{blocks_of};
ghost use Rattle.due_index.specs.Table.{IsTable, rules_of};
ghost use Rattle.due_index.specs.Places.{candidate_of, IsOnVersion};

use crate::blocks::Blocks;
use crate::place::{Place, on_key};
use crate::queue::DueQueue;
use crate::search::{next_on_key, next_on_upload};
use crate::steps::Steps;
use crate::table::RuleTable;
use due_core::{Action, Bucket, Candidate};
use moments::Moment;
use office_base::{Key, NoMemory};
use std::alloc::Global;
use std::collections::BTreeMap;
use std::marker::Model;
use std::sync::ledger::Ledger;

/// The first eligible action on each stack and each upload of a bucket, in an ordered queue.
#[derive(Drop)]
pub(crate) struct ActionIndex {
    alloc: Global,
    queue: DueQueue,
    // The enabled rules of the bucket.
    table: RuleTable,
    // The slot of each key that has an action, and of each upload that has one.
    keys: BTreeMap<Key, usize>,
    uploads: BTreeMap<u64, usize>,
}

impl Model for ActionIndex {
    ghost use Rattle.due_index.specs.Actions.{ActionsRecord, IsTied};

    ghost Value = { ActionsRecord };

    ghost view = { λ i. record {
      keys = i.keys.entries;
      uploads = i.uploads.entries;
      table = i.table;
      slots = i.queue;
    } };

    ghost invariant = { λ i. IsTied (record {
      keys = i.keys.entries;
      uploads = i.uploads.entries;
      table = i.table;
      slots = i.queue;
    }) };
}

// Copies an action. Fails only if memory runs out.
fn copy_of(action: &Action) -> Result<Action, NoMemory>
    ensures { IfOk result (λ copy. copy ≡ action.now) }
{
    let key = action.key.copy()?;
    Ok(Action {
        kind: action.kind,
        key,
        target: action.target,
        rule: action.rule,
        since: action.since,
    })
}

/// States that the keys of a bucket's stacks and the numbers of its uploads are in ascending order, as in every bucket.
#[tactic(auto, using(crate::proofs::Whole::rises_of))]
pub fn see_order(bucket: &Bucket)
    ensures { IsBucket bucket.now }
{
    let _ = (bucket.stacks.len(), bucket.uploads.len());
}

// The first of all actions, if its moment has come.
fn due_by(first: Option<&Action>, t: Moment) -> Result<Option<Action>, NoMemory>
    ensures { IfOk result (λ action. action ≡ due_by t (option_copied first.entry)) }
{
    match first {
        Some(first) => {
            if first.since.ms() <= t.ms() {
                Ok(Some(copy_of(first)?))
            } else {
                Ok(None)
            }
        }
        None => Ok(None),
    }
}

impl ActionIndex {
    /// Lends the queue.
    pub(crate) fn queue(&self) -> &DueQueue
        ensures { result.now ≡ self.now.slots }
    {
        &self.queue
    }

    /// Counts the entries: the keys and uploads that have an action, in the bucket that the index is for. Takes no
    /// memory.
    pub(crate) fn entries(&self) -> u64
        ensures exact { (bucket : BucketRecord) → IsBucket bucket → ActionsStand self.now bucket
            → result ≡ entry_count bucket }
        ensures few { (bucket : BucketRecord) → IsBucket bucket → ActionsStand self.now bucket
            → result ≤ length bucket.stacks + length bucket.uploads }
    {
        self.keys.len() as u64 + self.uploads.len() as u64
    }

    /// Finds the first action that is due at a moment, in the bucket that the index is for; None if there is none.
    ///
    /// Own rule: which action comes first. Cost: one read of the queue's front; a copy of the action's key.
    ///
    /// # Errors
    ///
    /// `NoMemory`: memory ran out.
    #[tactic(auto, using(crate::proofs::Chosen::choice_of_first))]
    pub(crate) fn first_due<L: Ledger>(
        &self,
        t: Moment,
        steps: &mut Steps<L>,
    ) -> Result<Option<Action>, NoMemory>
        ensures exact { (bucket : BucketRecord) → IsBucket bucket → ActionsStand self.now bucket
            → IfOk result (λ action. action ≡ choice bucket t) }
        ensures steps { steps.new ≤ steps.old + 1 }
    {
        due_by(self.queue.first(steps), t)
    }

    /// Finds the first action that is due at a moment in this bucket, which the index is for; None if there is none.
    ///
    /// Own rule: which action comes first. Cost: a read of the queue's front; a copy of the action's key.
    ///
    /// # Errors
    ///
    /// `NoMemory`: memory ran out.
    pub(crate) fn chosen(&self, bucket: &Bucket, t: Moment) -> Result<Option<Action>, NoMemory>
        requires stands { ActionsStand self.now bucket.now }
        ensures exact { IfOk result (λ action. action ≡ choice bucket.now t) }
        ensures least { IfOk result (λ action. IsLeastAction bucket.now t action) }
        ensures total { IsTotalOn (candidates bucket.now t) }
    {
        see_order(bucket);
        self.choice_at(t)
    }

    // Finds the choice of the bucket that the index is for.
    #[tactic(auto, using(crate::proofs::Chosen::choice_of_first))]
    fn choice_at(&self, t: Moment) -> Result<Option<Action>, NoMemory>
        ensures { (bucket : BucketRecord) → IsBucket bucket → ActionsStand self.now bucket
            → IfOk result (λ action. action ≡ choice bucket t) }
    {
        due_by(self.queue.first_action(), t)
    }

    // Finds the first action that the bucket's rules ask for on the versions of a key.
    fn next_on_key(&self, bucket: &Bucket, key: &Key, blocks: &Blocks) -> Option<Place>
        requires table { HasTable self.now bucket.now }
        requires right { AreRightUnder bucket.now.rules key.now blocks.now (at_name key.now bucket.now.stacks) }
        ensures first { option_map (candidate_of key.now) result ≡ first_on_key bucket.now key.now }
        ensures version { IfSome result IsOnVersion }
    {
        next_on_key(bucket, &self.table, key, blocks)
    }

    // Finds the first action that the bucket's rules ask for on an upload.
    fn next_on_upload(&self, bucket: &Bucket, number: u64) -> Result<Option<Candidate>, NoMemory>
        requires { HasTable self.now bucket.now }
        ensures first { IfOk result (λ next. next ≡ first_on_upload bucket.now number) }
        ensures own { IfOk result (λ next. IfSome next (IsOnUpload number)) }
    {
        next_on_upload(bucket, &self.table, number)
    }

    // Writes the next action of a key that has one.
    fn write_key(&mut self, key: &Key, slot: usize, place: Place)
        requires at { at_name key.now self.old.keys ≡ Some slot }
        requires version { IsOnVersion place }
        ensures { SetsNextOnKey self.old self.new key.now (Some (candidate_of key.now place)) }
    {
        self.queue.replace(slot, place);
    }

    // Removes a key that has an action.
    fn empty_key(&mut self, key: &Key, slot: usize)
        requires { at_name key.now self.old.keys ≡ Some slot }
        ensures { SetsNextOnKey self.old self.new key.now None }
    {
        self.queue.clear(slot);
        let _ = self.keys.remove(key);
    }

    // Adds a key that had no action.
    fn take_key(&mut self, key: &Key, place: Place) -> Result<(), NoMemory>
        requires absent { at_name key.now self.old.keys ≡ None }
        requires version { IsOnVersion place }
        ensures ok { OnOk result (SetsNextOnKey self.old self.new key.now (Some (candidate_of key.now place))) }
        ensures err { OnErr result (KeepsNext self.old self.new) }
    {
        let known = copy_key(key)?;
        let slot = self.queue.add(on_key(key, place)?)?;
        match self.keys.insert(known, slot) {
            Ok(_) => return Ok(()),
            Err(_) => {
                self.queue.clear(slot);
                return Err(NoMemory);
            }
        }
    }

    // Sets the next action on a key.
    fn set_key(&mut self, key: &Key, place: Option<Place>) -> Result<(), NoMemory>
        requires { IfSome place IsOnVersion }
        ensures ok { OnOk result (SetsNextOnKey self.old self.new key.now (option_map (candidate_of key.now) place)) }
        ensures err { OnErr result (KeepsNext self.old self.new) }
    {
        match self.keys.get(key) {
            Some(slot) => {
                let slot = *slot;
                match place {
                    Some(place) => self.write_key(key, slot, place),
                    None => self.empty_key(key, slot),
                }
                Ok(())
            }
            None => match place {
                Some(place) => self.take_key(key, place),
                None => Ok(()),
            },
        }
    }
}

impl ActionIndex {
    // Writes the next action of an upload that has one.
    fn write_upload(&mut self, number: u64, slot: usize, next: Candidate)
        requires at { at_number number self.old.uploads ≡ Some slot }
        requires own { IsOnUpload number next }
        ensures { SetsNextOnUpload self.old self.new number (Some next) }
    {
        self.queue.write(slot, Some(next));
    }

    // Removes an upload that has an action.
    fn empty_upload(&mut self, number: u64, slot: usize)
        requires { at_number number self.old.uploads ≡ Some slot }
        ensures { SetsNextOnUpload self.old self.new number None }
    {
        self.queue.clear(slot);
        let _ = self.uploads.remove(&number);
    }

    // Adds an upload that had no action.
    fn take_upload(&mut self, number: u64, next: Candidate) -> Result<(), NoMemory>
        requires absent { at_number number self.old.uploads ≡ None }
        requires own { IsOnUpload number next }
        ensures ok { OnOk result (SetsNextOnUpload self.old self.new number (Some next)) }
        ensures err { OnErr result (KeepsNext self.old self.new) }
    {
        let slot = self.queue.add(next)?;
        match self.uploads.insert(number, slot) {
            Ok(_) => return Ok(()),
            Err(_) => {
                self.queue.clear(slot);
                return Err(NoMemory);
            }
        }
    }

    // Sets the next action on an upload.
    fn set_upload(&mut self, number: u64, next: Option<Candidate>) -> Result<(), NoMemory>
        requires { IfSome next (IsOnUpload number) }
        ensures ok { OnOk result (SetsNextOnUpload self.old self.new number next) }
        ensures err { OnErr result (KeepsNext self.old self.new) }
    {
        match self.uploads.get(&number) {
            Some(slot) => {
                let slot = *slot;
                match next {
                    Some(next) => self.write_upload(number, slot, next),
                    None => self.empty_upload(number, slot),
                }
                Ok(())
            }
            None => match next {
                Some(next) => self.take_upload(number, next),
                None => Ok(()),
            },
        }
    }

    /// Updates the next action on a key, after a change of only this key's versions.
    ///
    /// Cost: a search of the enabled rules by prefix, and of the index. Each rule whose prefix begins the key looks at
    /// the current version. It looks at the others from the oldest on, up to the first that it removes or moves. If the
    /// key already had an action, the update does not run out of memory.
    ///
    /// # Errors
    ///
    /// `NoMemory`: memory ran out. The index is then as before.
    #[tactic(auto, using(crate::proofs::Renewing::renewed))]
    pub(crate) fn renew_key(
        &mut self,
        bucket: &Bucket,
        key: &Key,
        blocks: &Blocks,
    ) -> Result<(), NoMemory>
        requires rest { ActionsStandButKey self.old bucket.now key.now }
        requires right { AreRightUnder bucket.now.rules key.now blocks.now (at_name key.now bucket.now.stacks) }
        ensures ok { OnOk result (ActionsStand self.new bucket.now) }
        ensures err { OnErr result (KeepsNext self.old self.new) }
    {
        let next = self.next_on_key(bucket, key, blocks);
        self.set_key(key, next)
    }

    /// Updates the next action on an upload, after a change of only this upload.
    ///
    /// Cost: a search of the enabled rules by prefix and of the index, and a copy of the upload's key.
    ///
    /// # Errors
    ///
    /// `NoMemory`: memory ran out. The index is then as before.
    #[tactic(auto, using(crate::proofs::RenewingUploads::renewed_upload))]
    pub(crate) fn renew_upload(&mut self, bucket: &Bucket, number: u64) -> Result<(), NoMemory>
        requires rest { ActionsStandButUpload self.old bucket.now number }
        ensures ok { OnOk result (ActionsStand self.new bucket.now) }
        ensures err { OnErr result (KeepsNext self.old self.new) }
    {
        let next = self.next_on_upload(bucket, number)?;
        self.set_upload(number, next)
    }
}

impl ActionIndex {
    // Gives an index with this table and no actions. Takes no memory.
    #[tactic(auto, using(crate::proofs::Building::empty_tied))]
    fn new(alloc: Global, table: RuleTable) -> ActionIndex
        ensures keys { HasNoKeys result }
        ensures uploads { HasNoUploads result }
        ensures table { result.table ≡ table }
    {
        ActionIndex {
            alloc,
            queue: DueQueue::new(alloc),
            table,
            keys: BTreeMap::new(alloc),
            uploads: BTreeMap::new(alloc),
        }
    }

    // Adds the first action on each key.
    #[tactic(auto, using(crate::proofs::Building::no_rules))]
    fn take_keys(&mut self, bucket: &Bucket, blocks: &BTreeMap<Key, Blocks>) -> Result<(), NoMemory>
        requires none { HasNoKeys self.old }
        requires table { HasTable self.old bucket.now }
        requires right { (key : List ℕ)
            → AreRightUnder bucket.now.rules key (blocks_of key blocks.now.entries) (at_name key bucket.now.stacks) }
        ensures keys { OnOk result (StandsOnKeys self.new bucket.now) }
        ensures uploads { OnOk result (KeepsUploads self.old self.new) }
        ensures table { OnOk result (HasTable self.new bucket.now) }
    {
        // Without rules no key is looked at.
        let Some(_) = &bucket.rules else {
            return Ok(());
        };
        let none = Blocks::new(self.alloc);
        for (key, _) in bucket.stacks.iter() {
            let next = self.next_on_key(bucket, key, blocks_at(blocks, key, &none));
            self.set_key(key, next)?;
        }
        Ok(())
    }

    // Adds the first action on each upload.
    fn take_uploads(&mut self, bucket: &Bucket) -> Result<(), NoMemory>
        requires none { HasNoUploads self.old }
        requires table { HasTable self.old bucket.now }
        ensures uploads { OnOk result (StandsOnUploads self.new bucket.now) }
        ensures keys { OnOk result (KeepsKeys self.old self.new) }
        ensures table { OnOk result (HasTable self.new bucket.now) }
    {
        for (number, _) in bucket.uploads.iter() {
            let next = self.next_on_upload(bucket, *number)?;
            self.set_upload(*number, next)?;
        }
        Ok(())
    }

    /// Gives the index of a bucket without next actions, with the table of its rules alone.
    ///
    /// # Errors
    ///
    /// `NoMemory`: memory ran out.
    pub(crate) fn begun(alloc: Global, bucket: &Bucket) -> Result<ActionIndex, NoMemory>
        ensures keys { IfOk result HasNoKeys }
        ensures uploads { IfOk result HasNoUploads }
        ensures table { IfOk result (λ index. HasTable index bucket.now) }
    {
        let table = table_of(alloc, bucket)?;
        Ok(ActionIndex::new(alloc, table))
    }

    /// Adds the next actions on all keys and uploads, with the blocks of keys that have some.
    ///
    /// # Errors
    ///
    /// `NoMemory`: memory ran out.
    #[tactic(auto, using(crate::proofs::Building::built, crate::proofs::Building::no_uploads_yet))]
    pub(crate) fn fill(
        &mut self,
        bucket: &Bucket,
        blocks: &BTreeMap<Key, Blocks>,
    ) -> Result<(), NoMemory>
        requires keys { HasNoKeys self.old }
        requires uploads { HasNoUploads self.old }
        requires table { HasTable self.old bucket.now }
        requires right { (key : List ℕ)
            → AreRightUnder bucket.now.rules key (blocks_of key blocks.now.entries) (at_name key bucket.now.stacks) }
        ensures { OnOk result (ActionsStand self.new bucket.now) }
    {
        self.take_keys(bucket, blocks)?;
        self.take_uploads(bucket)?;
        Ok(())
    }
}

// Reads the blocks of a key; none if it has none.
fn blocks_at<'a>(blocks: &'a BTreeMap<Key, Blocks>, key: &Key, none: &'a Blocks) -> &'a Blocks
    requires { none.now ≡ [] }
    ensures { result.now ≡ blocks_of key.now blocks.now.entries }
{
    match blocks.get(key) {
        Some(found) => found,
        None => none,
    }
}

// Makes the table of the bucket's rules.
fn table_of(alloc: Global, bucket: &Bucket) -> Result<RuleTable, NoMemory>
    ensures { IfOk result (λ table. IsTable table (rules_of bucket.now.rules)) }
{
    match &bucket.rules {
        Some(rules) => RuleTable::of(alloc, rules.rules()),
        None => Ok(RuleTable::new(alloc)),
    }
}

// Copies a key. Fails only if memory runs out.
fn copy_key(key: &Key) -> Result<Key, NoMemory>
    ensures { IfOk result (λ copy. copy ≡ key.now) }
{
    Ok(key.copy()?)
}
