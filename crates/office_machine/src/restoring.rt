// Makes the office of a snapshot.
ghost use Rattle.std.specs.Prelude.{◌≡◌, ◌+◌, ◌-◌, ◌*◌, ◌≤◌, IfOk, OnOk, OnErr, IfSome, option_map};
ghost use Rattle.std.specs.List.{AllByRecursion};
ghost use Rattle.office_base.specs.Maps.{with_name};
ghost use Rattle.plain_office.specs.Counts.{limit_of};
ghost use Rattle.office_types.specs.declared.refusal.What.{What};
ghost use Rattle.bucket_account.specs.Counting.{amount};
ghost use Rattle.office_machine.specs.Parts.{IsMakable, IsMadeOf, AreMadeOf, NamesRise, in_all, CanBeCounted};

use bucket_account::{Account, Counts};
use moments::Month;
use office_base::{BucketName, NoMemory};
use office_snapshot::BucketPart;
use std::alloc::Global;
use std::collections::BTreeMap;

/// Makes a bucket of its part, and returns it with its name.
fn account_of(alloc: Global, part: BucketPart) -> Result<(BucketName, Account), NoMemory>
    requires { IsMakable part }
    ensures { IfOk result (λ entry. IsMadeOf entry part) }
{
    let BucketPart { name, bucket, sums } = part;
    let account = Account::of(alloc, bucket, &sums)?;
    Ok((name, account))
}

/// Puts an account under its name. After an error the accounts are as they were.
pub(crate) fn put(
    accounts: &mut BTreeMap<BucketName, Account>,
    name: BucketName,
    account: Account,
) -> Result<(), NoMemory>
    ensures put { OnOk result (accounts.new.entries ≡ with_name name account accounts.old.entries) }
    ensures same { OnErr result (accounts.new.entries ≡ accounts.old.entries) }
{
    drop(accounts.insert(name, account)?);
    Ok(())
}

/// Makes the buckets of their parts.
pub(crate) fn accounts_of(
    alloc: Global,
    parts: Vec<BucketPart>,
) -> Result<BTreeMap<BucketName, Account>, NoMemory>
    requires names { NamesRise parts.items }
    requires makable { AllByRecursion IsMakable parts.items }
    ensures { IfOk result (λ accounts. AreMadeOf accounts.entries parts.items) }
{
    let mut accounts = BTreeMap::new(alloc);
    for part in parts {
        let (name, account) = account_of(alloc, part)?;
        put(&mut accounts, name, account)?;
    }
    Ok(accounts)
}

/// Adds two counts.
fn sum_of(one: Counts, other: Counts) -> Counts
    requires few { (what : What) → amount what one + amount what other ≤ 4 * limit_of what }
    ensures { (what : What) → amount what result ≡ amount what one + amount what other }
{
    Counts {
        buckets: one.buckets + other.buckets,
        versions: one.versions + other.versions,
        uploads: one.uploads + other.uploads,
        parts: one.parts + other.parts,
        names: one.names + other.names,
        rules: one.rules + other.rules,
        tariffs: one.tariffs + other.tariffs,
    }
}

/// Adds the counts of these buckets to `beside`.
///
/// Cost: a pass over all versions, uploads and parts. Takes no memory.
pub(crate) fn count_all(beside: Counts, accounts: &BTreeMap<BucketName, Account>) -> Counts
    requires beside { (what : What) → amount what beside ≤ 2 * limit_of what }
    requires few { CanBeCounted accounts.now.entries }
    ensures { (what : What) → amount what result ≡ amount what beside + in_all what accounts.now.entries }
{
    let mut counts = beside;
    for (_, account) in accounts.iter() {
        counts = sum_of(counts, account.counts());
    }
    counts
}

/// Returns the month of the first accepted command, from the first month that does not count as closed.
pub(crate) fn first_month_of(first_open: Option<Month>, closed: u64) -> Option<Month>
    requires { IfSome first_open (λ month. closed ≤ month) }
    ensures { result ≡ option_map (λ month. month - closed) first_open }
{
    match first_open {
        Some(month) => Some(Month::numbered(month.number() - closed)),
        None => None,
    }
}
