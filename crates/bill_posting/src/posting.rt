// Posting the bills of a month.
ghost use Rattle.std.specs.Prelude.{◌≡◌, ◌≤◌, ◌<◌, ◌^◌, length, IfOk};
ghost use Rattle.office_types.specs.Reports.{charges};
ghost use Rattle.bill_book.specs.Bills.{total_of};
ghost use Rattle.bill_book.specs.Books.{Told};
ghost use Rattle.bill_book.specs.Causes.{HasKeeperCause};
ghost use Rattle.bill_posting.specs.Bills.{bills_of};
ghost use Rattle.bill_posting.specs.Differences.{is_same_bill, first_difference};
ghost use Rattle.bill_posting.specs.Posting.{post_fault, DoesPost, ReadsKept, Compares, FindsKept, HasPostCause};
ghost use Rattle.bill_posting.specs.Posting.{IsReceiptOf};

use crate::tally::bills_of;
use bill_book::{Bill, BillKeeper, KeeperFault, Posted};
use moments::Month;
use office_base::NoMemory;
use office_types::ReportLine;
use std::alloc::Global;

/// What was posted for a month.
#[derive(Clone, Copy, Debug, PartialEq, Eq)]
pub struct Receipt {
    /// How many buckets have a bill.
    pub bills: u32,
    /// What they owe together, in whole units.
    pub total: u128,
    /// Whether the month had these bills before.
    pub before: bool,
}

/// Why a month was not posted.
#[derive(Drop)]
pub enum PostFault {
    /// The month has other bills: the first pair that differs, None for a missing one.
    OtherBills {
        kept: Option<Bill>,
        asked: Option<Bill>,
    },
    /// The keeper failed, and its count of faults rose.
    KeeperFault,
    /// Memory ran out.
    NoMemory,
}

impl From<NoMemory> for PostFault {
    ghost use Rattle.std.specs.Prelude.{◌≡◌};
    ghost use Rattle.bill_posting.specs.declared.posting.PostFault.TheVariants.{NoMemory};

    ghost from_gives = { λ _ e. e ≡ NoMemory };

    fn from(_error: NoMemory) -> PostFault {
        PostFault::NoMemory
    }
}

fn is_same_bill(kept: &Bill, asked: &Bill) -> bool
    ensures { result ≡ is_same_bill kept.now asked.now }
{
    kept.bucket.text() == asked.bucket.text()
        && kept.total == asked.total
        && kept.lines == asked.lines
}

// Finds the first pair of bills that differ.
fn first_difference(kept: Vec<Bill>, asked: Vec<Bill>) -> Option<(Option<Bill>, Option<Bill>)>
    ensures { result ≡ first_difference kept.items asked.items }
{
    let mut asked = asked.into_iter();
    for kept in kept {
        match asked.next() {
            Some(asked) => {
                if !is_same_bill(&kept, &asked) {
                    return Some((Some(kept), Some(asked)));
                }
            }
            None => return Some((Some(kept), None)),
        }
    }
    match asked.next() {
        Some(asked) => Some((None, Some(asked))),
        None => None,
    }
}

fn fault_of(fault: KeeperFault) -> PostFault
    ensures { result ≡ post_fault fault }
{
    match fault {
        KeeperFault::Failed => PostFault::KeeperFault,
        KeeperFault::NoMemory => PostFault::NoMemory,
    }
}

// Reads the bills that a keeper has of a month; none if the month was not posted.
fn kept_of<K: BillKeeper>(
    alloc: Global,
    keeper: &mut K,
    month: Month,
) -> Result<Vec<Bill>, KeeperFault>
    ensures reads { Told (K.book keeper.old) (K.book keeper.new) (λ old new. ReadsKept month old new result) }
    ensures cause { HasKeeperCause (K.faults keeper.old) (K.faults keeper.new) result }
{
    match keeper.bills(month)? {
        Some(kept) => Ok(kept),
        None => Ok(Vec::new(alloc)),
    }
}

// Compares bills.
#[tactic(auto, using(crate::proofs::Differences::same_bills))]
fn compare(kept: Vec<Bill>, asked: Vec<Bill>) -> Result<(), PostFault>
    ensures { Compares kept.items asked.items result }
{
    match first_difference(kept, asked) {
        Some((kept, asked)) => Err(PostFault::OtherBills { kept, asked }),
        None => Ok(()),
    }
}

// Compares the bills that a keeper has of a month with those that are to be posted.
fn check_kept<K: BillKeeper>(
    alloc: Global,
    keeper: &mut K,
    month: Month,
    asked: Vec<Bill>,
) -> Result<(), PostFault>
    ensures checks { Told (K.book keeper.old) (K.book keeper.new)
        (λ old new. FindsKept month asked.items old new result) }
    ensures cause { HasPostCause (K.faults keeper.old) (K.faults keeper.new) result }
{
    match kept_of(alloc, keeper, month) {
        Ok(kept) => compare(kept, asked),
        Err(fault) => Err(fault_of(fault)),
    }
}

fn total_of(bills: &[Bill]) -> u128
    requires { total_of bills.now < 2 ^ 128 }
    ensures { result ≡ total_of bills.now }
{
    bills.iter().map(|bill| bill.total).sum()
}

/// Posts the bills of a month's report to a keeper: one for each bucket that has a line, with the sum of the charges
/// and the number of its lines. A month that was posted before keeps its bills.
///
/// Own rule: a month is posted once, so that nobody is billed twice. All memory of its own is taken before the keeper
/// is asked.
///
/// Cost: one search by the bucket's name for each line, and one or two calls of the keeper.
///
/// # Errors
///
/// `OtherBills`: the month has other bills, which stay. `KeeperFault`: the keeper failed; the month may have been
/// posted all the same, and may be asked for again. `NoMemory`: memory ran out; nothing was posted.
pub fn post_month<K: BillKeeper>(
    alloc: Global,
    keeper: &mut K,
    month: Month,
    lines: &[ReportLine],
) -> Result<Receipt, PostFault>
    requires total { charges lines.now < 2 ^ 128 }
    requires count { length lines.now < 2 ^ 32 }
    requires few { length (bills_of lines.now) ≤ 1_000 }
    ensures posts { Told (K.book keeper.old) (K.book keeper.new)
        (λ old new. DoesPost month (bills_of lines.now) old new result) }
    ensures receipt { IfOk result (IsReceiptOf (bills_of lines.now)) }
    ensures adds_up { IfOk result (λ receipt. receipt.total ≡ charges lines.now) }
    ensures cause { HasPostCause (K.faults keeper.old) (K.faults keeper.new) result }
{
    let bills = bills_of(alloc, lines)?;
    let receipt = Receipt {
        bills: bills.len() as u32,
        total: total_of(&bills),
        before: false,
    };
    match keeper.post(month, &bills) {
        Ok(Posted::Now) => Ok(receipt),
        Ok(Posted::Before) => {
            check_kept(alloc, keeper, month, bills)?;
            Ok(Receipt {
                before: true,
                ..receipt
            })
        }
        Err(fault) => Err(fault_of(fault)),
    }
}
