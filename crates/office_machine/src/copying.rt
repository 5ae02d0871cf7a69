// Copies the records of the office.
ghost use Rattle.std.specs.Prelude.{◌≡◌, IfOk, OnOk};
ghost use Rattle.office_base.specs.Maps.{bytes_cmp, Rises};
ghost use Rattle.plain_office.specs.Office as plain;
ghost use Rattle.office_machine.specs.Copies.{AreCopiesOf, HasCopyOf};
ghost use Rattle.office_machine.specs.Standing.{StandsForOffice};

use crate::machine::Machine;
use crate::restoring::put;
use crate::snapshots::{copy_closed, copy_tariffs};
use bucket_account::Account;
use office_base::{BucketName, NoMemory};
use std::alloc::Global;
use std::collections::BTreeMap;

impl Machine {
    /// Copies the records.
    pub(crate) fn copy(&self) -> Result<Machine, NoMemory>
        ensures stands { IfOk result (λ copy. (p : plain.Office) → StandsForOffice self.now p
            → StandsForOffice copy p) }
        ensures last { IfOk result (λ copy. copy.last ≡ self.now.last) }
        ensures accepted { IfOk result (λ copy. copy.accepted ≡ self.now.accepted) }
    {
        let tariffs = copy_tariffs(&self.tariffs)?;
        let closed = copy_closed(&self.closed)?;
        let accounts = copies_of(self.alloc, &self.accounts)?;
        Ok(Machine {
            alloc: self.alloc,
            last: self.last,
            tariffs,
            first_month: self.first_month,
            closed,
            accounts,
            counts: self.counts,
            accepted: self.accepted,
        })
    }
}

// The names of a map come in byte order, by its type.
#[tactic(auto, using(due_index::proofs::Whole::rises_of))]
fn see_names(accounts: &BTreeMap<BucketName, Account>)
    ensures { Rises bytes_cmp accounts.now.entries }
{
    let _ = accounts.len();
}

fn put_copy(
    alloc: Global,
    copies: &mut BTreeMap<BucketName, Account>,
    name: &BucketName,
    account: &Account,
) -> Result<(), NoMemory>
    ensures { OnOk result (HasCopyOf name.now account.now copies.old.entries copies.new.entries) }
{
    let name = name.copy()?;
    let account = account.copy(alloc)?;
    put(copies, name, account)?;
    Ok(())
}

/// Copies the buckets.
fn copies_of(
    alloc: Global,
    accounts: &BTreeMap<BucketName, Account>,
) -> Result<BTreeMap<BucketName, Account>, NoMemory>
    ensures { IfOk result (λ copies. AreCopiesOf copies.entries accounts.now.entries) }
{
    see_names(accounts);
    let mut copies = BTreeMap::new(alloc);
    for (name, account) in accounts.iter() {
        put_copy(alloc, &mut copies, name, account)?;
    }
    Ok(copies)
}
