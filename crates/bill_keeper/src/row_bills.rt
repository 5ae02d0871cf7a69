// The bills that rows of the table hold.
ghost use Rattle.std.specs.Prelude.{◌≡◌, true, pos, map, IfOk, IfSome, string_bytes, [], ◌∷◌, ◌++◌, IsTrue, decimal};
ghost use Rattle.std.specs.List.{AllByRecursion};
ghost use Rattle.std.specs.Str.Parse.{digits_value};
ghost use Rattle.office_base.specs.Names.{IsBucketName};
ghost use Rattle.sqlite.specs.declared.types.Value.TheVariants.{Int, Text as Words};
ghost use Rattle.sqlite.specs.Order.{column};
ghost use Rattle.bill_rows.specs.Answers.{answer_bill, NamesBucket, rises, AreRead};
ghost use Rattle.bill_book.specs.Bills.{total_of};
ghost use Rattle.bill_keeper.specs.Reading.{ReadsBills, IsBillRead, IsHeaderOf, IsWritten};

use bill_book::Bill;
use office_base::{BucketName, NameRefusal};
use sqlite::{Error, ErrorCode, Row};
use std::alloc::{AllocFailed, Global};

/// Why rows were not read.
#[derive(Clone, Copy, Debug, PartialEq, Eq)]
pub(crate) enum RowFault {
    /// A row does not have its form, or the month's header is missing or does not agree with its bills.
    Unreadable,
    /// Memory ran out.
    NoMemory,
}

impl<T: Drop> From<AllocFailed<T>> for RowFault {
    ghost use Rattle.std.specs.Prelude.{◌≡◌};
    ghost use Rattle.bill_keeper.specs.declared.row_bills.RowFault.TheVariants.{NoMemory};

    ghost from_gives = { λ _ e. e ≡ NoMemory };

    fn from(_error: AllocFailed<T>) -> RowFault {
        RowFault::NoMemory
    }
}

fn fault_of(error: Error) -> RowFault {
    match error {
        Error::SqliteFailure(ErrorCode::OutOfMemory) => RowFault::NoMemory,
        _ => RowFault::Unreadable,
    }
}

pub(crate) fn text_at(row: &Row, at: usize) -> Result<String, RowFault>
    ensures { IfOk result (λ text. column row.now at ≡ Words (string_bytes text)) }
{
    match row.get::<String>(at) {
        Ok(text) => Ok(text),
        Err(error) => Err(fault_of(error)),
    }
}

pub(crate) fn count_at(row: &Row, at: usize) -> Result<u32, RowFault>
    ensures { IfOk result (λ count. column row.now at ≡ Int (pos count)) }
{
    match row.get::<u32>(at) {
        Ok(count) => Ok(count),
        Err(error) => Err(fault_of(error)),
    }
}

// Whether a text is this number, in digits without a leading zero.
#[tactic(auto, using(crate::proofs::Spelled::spelled))]
fn spells(text: &str, number: u128) -> bool
    ensures { IsTrue result → text.now ≡ decimal number }
{
    itoa::Buffer::new().format(number) == text
}

// Reads a number that is written so.
#[tactic(auto, using(crate::proofs::Spelled::digits_of_text))]
fn number_of(text: &str) -> Result<u128, RowFault>
    ensures read { IfOk result (λ number. digits_value 10 text.now ≡ number) }
    ensures written { IfOk result (λ number. text.now ≡ decimal number) }
{
    let Ok(number) = text.parse::<u128>() else {
        return Err(RowFault::Unreadable);
    };
    if spells(text, number) {
        Ok(number)
    } else {
        Err(RowFault::Unreadable)
    }
}

fn name_of(alloc: Global, text: &str) -> Result<BucketName, RowFault>
    ensures { IfOk result (λ name. (name ≡ text.now) × IsBucketName text.now) }
{
    match BucketName::read(alloc, text) {
        Ok(name) => Ok(name),
        Err(NameRefusal::NoMemory) => Err(RowFault::NoMemory),
        Err(_) => Err(RowFault::Unreadable),
    }
}

// Reads the bill of a bucket.
fn bill_of(alloc: Global, row: &Row) -> Result<Bill, RowFault>
    ensures { IfOk result (IsBillRead row.now) }
{
    let bucket = text_at(row, 0)?;
    let total = text_at(row, 1)?;
    let lines = count_at(row, 2)?;
    let bucket = name_of(alloc, &bucket)?;
    let total = number_of(&total)?;
    Ok(Bill {
        bucket,
        total,
        lines,
    })
}

fn push_bill(bills: &mut Vec<Bill>, bill: Bill) -> Result<(), RowFault>
    ensures { IfOk result (λ _. bills.new.items ≡ bills.old.items ++ bill ∷ []) }
{
    Ok(bills.push(bill)?)
}

// Whether each bill's bucket is below that of the next.
pub(crate) fn rises(bills: &[Bill]) -> bool
    ensures { result ≡ rises bills.now }
{
    match bills {
        [] => true,
        [bill, rest @ ..] => match rest {
            [] => true,
            [next, ..] => bill.bucket.text() < next.bucket.text() && rises(rest),
        },
    }
}

// Reads the bills in the rows after the header.
fn all_bills(alloc: Global, rows: &[Row]) -> Result<Vec<Bill>, RowFault>
    ensures bills { IfOk result (λ bills. bills.items ≡ map answer_bill rows.now) }
    ensures named { IfOk result (λ _. AllByRecursion NamesBucket rows.now) }
    ensures written { IfOk result (λ _. AllByRecursion IsWritten rows.now) }
{
    let mut bills = Vec::new(alloc);
    for row in rows {
        let bill = bill_of(alloc, row)?;
        push_bill(&mut bills, bill)?;
    }
    Ok(bills)
}

// What bills come to; None if that is no u128.
pub(crate) fn sum_of(bills: &[Bill]) -> Option<u128>
    ensures { IfSome result (λ sum. sum ≡ total_of bills.now) }
{
    let mut sum: u128 = 0;
    for bill in bills {
        sum = sum.checked_add(bill.total)?;
    }
    Some(sum)
}

// Whether a row is the header of these bills.
fn is_header_of(row: &Row, bills: &[Bill]) -> Result<bool, RowFault>
    ensures { IfOk result (λ is. is ≡ true → IsHeaderOf row.now bills.now) }
{
    let bucket = text_at(row, 0)?;
    let total = text_at(row, 1)?;
    let lines = count_at(row, 2)?;
    let total = number_of(&total)?;
    Ok(bucket.is_empty() && sum_of(bills) == Some(total) && lines as usize == bills.len())
}

/// Reads the bills of a month out of its rows, of which the first is its header; None if it has no rows.
pub(crate) fn bills_of(alloc: Global, rows: &[Row]) -> Result<Option<Vec<Bill>>, RowFault>
    ensures { IfOk result (ReadsBills rows.now) }
{
    let [header, rest @ ..] = rows else {
        return Ok(None);
    };
    let bills = all_bills(alloc, rest)?;
    if rises(&bills) && is_header_of(header, &bills)? {
        Ok(Some(bills))
    } else {
        Err(RowFault::Unreadable)
    }
}
