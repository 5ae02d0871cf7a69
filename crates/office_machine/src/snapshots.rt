// Takes a snapshot of the office.
ghost use Rattle.std.specs.Prelude.{◌≡◌, ◌++◌, ◌∷◌, ◌<◌, [], IfOk, IfSome, OnOk};
ghost use Rattle.std.specs.List.{AllByRecursion};
ghost use Rattle.moments.specs.Time.{end_of_time};
ghost use Rattle.plain_office.specs.Office as plain;
ghost use Rattle.office_snapshot.specs.Restorable.{HaveForm};
ghost use Rattle.office_snapshot.specs.Snapshots.{first_open_of, replies_of, Shows};
ghost use Rattle.office_machine.specs.Parts.{IsPartOf, ArePartsOf};
ghost use Rattle.office_machine.specs.Standing.{StandsForOffice};

use crate::machine::Machine;
use bucket_account::Account;
use moments::{Moment, Month};
use office_base::{BucketName, NoMemory};
use office_snapshot::{BucketPart, Snapshot};
use office_types::Kept;
use std::alloc::Global;
use std::collections::BTreeMap;
use tariff::Tariff;

impl Machine {
    /// Takes a snapshot of the records, with these kept replies.
    pub(crate) fn snapshot(&self, alloc: Global, kept: Vec<Kept>) -> Result<Snapshot, NoMemory>
        ensures shows { IfOk result (λ snapshot. (p : plain.Office) → StandsForOffice self.now p
            → replies_of kept.items ≡ p.kept → Shows snapshot p) }
        ensures sums { IfOk result (λ snapshot. AllByRecursion (λ part. HaveForm part.sums) snapshot.buckets) }
        ensures kept { IfOk result (λ snapshot. snapshot.kept ≡ kept.items) }
    {
        let first_open = self.first_open();
        let tariffs = copy_tariffs(&self.tariffs)?;
        let closed = copy_closed(&self.closed)?;
        let buckets = parts_of(alloc, &self.accounts)?;
        Ok(Snapshot {
            last: self.last,
            first_open,
            tariffs,
            closed,
            buckets,
            kept,
        })
    }

    /// Returns the first month that does not count as closed; none before the first accepted command.
    fn first_open(&self) -> Option<Month>
        ensures { (p : plain.Office) → StandsForOffice self.now p → result ≡ first_open_of p }
    {
        know_moment(&self.last);
        match self.first_month {
            Some(first) => Some(Month::numbered(first.number() + self.closed.len() as u64)),
            None => None,
        }
    }
}

// A moment is below the end of time, by its type.
fn know_moment(last: &Option<Moment>)
    ensures { IfSome last.now (λ last. last < end_of_time) }
{
    if let Some(last) = last {
        let _ = last.ms();
    }
}

pub(crate) fn copy_tariffs(tariffs: &Vec<Tariff>) -> Result<Vec<Tariff>, NoMemory>
    ensures { IfOk result (λ all. all.items ≡ tariffs.now.items) }
{
    Ok(tariffs.clone()?)
}

pub(crate) fn copy_closed(closed: &Vec<(Month, Tariff)>) -> Result<Vec<(Month, Tariff)>, NoMemory>
    ensures { IfOk result (λ all. all.items ≡ closed.now.items) }
{
    Ok(closed.clone()?)
}

/// Lists the parts of the buckets.
fn parts_of(
    alloc: Global,
    accounts: &BTreeMap<BucketName, Account>,
) -> Result<Vec<BucketPart>, NoMemory>
    ensures { IfOk result (λ parts. ArePartsOf parts.items accounts.now.entries) }
{
    let mut parts = Vec::new(alloc);
    for (name, account) in accounts.iter() {
        let part = part_of(alloc, name, account)?;
        push_part(&mut parts, part)?;
    }
    Ok(parts)
}

fn push_part(parts: &mut Vec<BucketPart>, part: BucketPart) -> Result<(), NoMemory>
    ensures { OnOk result (parts.new.items ≡ parts.old.items ++ part ∷ []) }
{
    Ok(parts.push(part)?)
}

/// Returns the part of a bucket.
fn part_of(alloc: Global, name: &BucketName, account: &Account) -> Result<BucketPart, NoMemory>
    ensures { IfOk result (λ part. IsPartOf part (name.now, account.now)) }
{
    let name = name.copy()?;
    let sums = account.sums()?;
    let bucket = account.records(alloc)?;
    Ok(BucketPart { name, bucket, sums })
}
