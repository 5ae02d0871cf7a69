// The office after the entries that were read, and the stays of each of its buckets.
ghost use Rattle.std.specs.Prelude.{◌≡◌, ◌<◌, ◌++◌, ◌∷◌, [], List, IfErr, IfOk, IfSome, OnOk};
ghost use Rattle.office_base.specs.Maps.{at_name, with_name};
ghost use Rattle.office_types.specs.Tokens.{MayCarry};
ghost use Rattle.office_types.specs.declared.command.Entry.{Entry};
ghost use Rattle.bucket_account.specs.Standing.{most_commands};
ghost use Rattle.stay_explain.specs.Plans.{BeginsFree};
ghost use Rattle.desk_core.specs.Damage.{IsNotTaken};
ghost use Rattle.stay_explain.specs.Ledgers.{IsLedgerOf, IsBookable, planned, table_by, tables_after};

use crate::booking::{Booking, plan};
use crate::naming::bucket_of;
use crate::stays::Stays;
use desk_core::{entry_is_new, entry_refused, entry_taken, is_in_order};
use meter_journal::OpenFault;
use office_base::{BucketName, NoMemory};
use office_machine::Office;
use office_types::{Command, Entry};
use std::alloc::Global;
use std::collections::BTreeMap;
use std::marker::Model;

/// The office after some entries, and the stays of each bucket.
#[derive(Drop)]
pub struct Ledger {
    office: Office,
    tables: BTreeMap<BucketName, Stays>,
}

impl Model for Ledger {
    ghost use Rattle.stay_explain.specs.Ledgers.{LedgerRecord};

    ghost Value = { LedgerRecord };

    ghost view = { λ l. record { office = l.office; tables = l.tables.entries } };
}

/// Adds a table without stays, for a bucket that is made.
fn open_table(
    tables: &mut BTreeMap<BucketName, Stays>,
    alloc: Global,
    name: &BucketName,
) -> Result<(), NoMemory>
    ensures { OnOk result (tables.new.entries ≡ with_name name.now [] tables.old.entries) }
{
    let kept = name.copy()?;
    tables.insert(kept, Stays::new(alloc))?;
    Ok(())
}

fn book_in(
    tables: &mut BTreeMap<BucketName, Stays>,
    name: &BucketName,
    booking: Booking,
) -> Result<(), NoMemory>
    requires free { IfSome (at_name name.now tables.old.entries) (λ stays. BeginsFree booking stays) }
    ensures { OnOk result (tables.new.entries
        ≡ table_by booking (at_name name.now tables.old.entries) name.now tables.old.entries) }
{
    match tables.get_mut(name) {
        Some(stays) => stays.book(booking),
        None => Ok(()),
    }
}

/// Books what a command does in the stays of its bucket.
fn book(
    tables: &mut BTreeMap<BucketName, Stays>,
    alloc: Global,
    command: &Command,
    booking: Option<Booking>,
) -> Result<(), NoMemory>
    requires free { IsBookable command.now booking tables.old.entries }
    ensures { OnOk result (tables.new.entries ≡ tables_after command.now booking tables.old.entries) }
{
    if let Command::CreateBucket { bucket } = command {
        return open_table(tables, alloc, bucket);
    }
    match (bucket_of(command), booking) {
        (Some(name), Some(booking)) => book_in(tables, name, booking),
        _ => Ok(()),
    }
}

impl Ledger {
    /// Returns the ledger of no entries. Takes no memory.
    pub(crate) fn new(alloc: Global) -> Ledger
        ensures empty { IsLedgerOf [] result }
    {
        Ledger {
            office: Office::new(alloc),
            tables: BTreeMap::new(alloc),
        }
    }

    pub(crate) fn tables(&self) -> &BTreeMap<BucketName, Stays>
        ensures { result.now.entries ≡ self.now.tables }
    {
        &self.tables
    }

    // What the command of an entry books in its bucket, as it is before the command.
    fn booking_of(&self, alloc: Global, entry: &Entry) -> Result<Option<Booking>, NoMemory>
        ensures { IfOk result (λ made. made
            ≡ planned entry.now.moment entry.now.command self.now.office.records.accounts) }
    {
        let Some(name) = bucket_of(&entry.command) else {
            return Ok(None);
        };
        match self.office.account(name) {
            Some(account) => plan(alloc, account, entry.moment, &entry.command),
            None => Ok(None),
        }
    }

    /// Takes the entry at this gate: the office does its command, and its stays are booked.
    ///
    /// # Errors
    ///
    /// `Damaged` at the gate: the office does not accept the entry at its place. `NoMemory`: memory ran out.
    pub(crate) fn take(&mut self, alloc: Global, entry: &Entry, gate: u64) -> Result<(), OpenFault>
        requires known { (history : List Entry) × IsLedgerOf history self.old }
        requires few { self.old.office.records.accepted < most_commands }
        requires carries { MayCarry entry.now.token entry.now.command }
        ensures ok { OnOk result ((history : List Entry) → IsLedgerOf history self.old
            → IsLedgerOf (history ++ entry.now ∷ []) self.new) }
        ensures fault { IfErr result (λ fault. IsNotTaken gate self.old.office entry.now fault) }
    {
        if !is_in_order(self.office.last(), entry.moment) {
            return Err(OpenFault::Damaged { offset: gate });
        }
        if let Err(fault) = entry_is_new(&self.office, entry, gate) {
            return Err(fault);
        }
        let Ok(booking) = self.booking_of(alloc, entry) else {
            return Err(OpenFault::NoMemory);
        };
        let reply = match self
            .office
            .apply(entry.moment, entry.token.as_ref(), &entry.command)
        {
            Ok(reply) => reply,
            Err(refusal) => return Err(entry_refused(refusal, gate)),
        };
        if let Err(fault) = entry_taken(&reply, gate) {
            drop(reply);
            return Err(fault);
        }
        match book(&mut self.tables, alloc, &entry.command, booking) {
            Ok(()) => Ok(()),
            Err(NoMemory) => Err(OpenFault::NoMemory),
        }
    }
}
