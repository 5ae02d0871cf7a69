// The bills of a month in the table of a connection.
ghost use Rattle.std.specs.Prelude.{◌≡◌, ◌<◌, ◌^◌, false, length, option_map, IfOk, OnErr, decimal};
ghost use Rattle.sqlite.specs.Held.{state};
ghost use Rattle.sqlite.specs.View.{doubt};
ghost use Rattle.bill_book.specs.Bills.{AreBills, total_of};
ghost use Rattle.bill_book.specs.Books.{Told, IsSameBook, Shows, Posts};
ghost use Rattle.bill_rows.specs.Months.{month_text};
ghost use Rattle.bill_keeper.specs.Ready.{HasTable, told_book, Leaves};
ghost use Rattle.bill_keeper.specs.Reading.{ReadsBills};
ghost use Rattle.bill_keeper.specs.Steps.{ReadsRows};

use crate::printing::print_month;
use crate::row_bills::{RowFault, bills_of};
use crate::sheet::{post_rows, read_rows};
use bill_book::{Bill, KeeperFault, Posted};
use moments::Month;
use sqlite::{Alter, Connection, Error, ErrorCode, Row};
use std::alloc::Global;

// What is owed of a list of bills.
fn total_of(bills: &[Bill]) -> u128
    requires { total_of bills.now < 2 ^ 128 }
    ensures { result ≡ total_of bills.now }
{
    bills.iter().map(|bill| bill.total).sum()
}

fn post_text<S: Alter>(
    conn: &mut Connection<S>,
    month: Month,
    text: &str,
    total: &str,
    count: u32,
    bills: &[Bill],
) -> Result<bool, Error>
    requires idle { conn.old.in_transaction ≡ false }
    requires text { text.now ≡ month_text month }
    requires total { total.now ≡ decimal (total_of bills.now) }
    requires count { count ≡ length bills.now }
    requires bills { AreBills bills.now }
    ensures told { HasTable (state S.Store conn.old) → Told (told_book (state S.Store conn.old))
        (told_book (state S.Store conn.new)) (λ old new. Leaves month bills.now old new result) }
    ensures table { HasTable (state S.Store conn.old) → HasTable (state S.Store conn.new) }
    ensures idle { conn.new.in_transaction ≡ false }
{
    let _among = month.number();
    post_rows(conn, text, total, count, bills)
}

fn read_text<S: Alter>(
    conn: &mut Connection<S>,
    month: Month,
    text: &str,
) -> Result<Vec<Row>, Error>
    requires idle { conn.old.in_transaction ≡ false }
    requires text { text.now ≡ month_text month }
    ensures told { IfOk result (λ rows. HasTable (state S.Store conn.old) → (bills : _) → ReadsBills rows.items bills
        → Told (told_book (state S.Store conn.old)) (told_book (state S.Store conn.new)) (λ old new.
        (option_map (λ v. v.items) bills ≡ old month) × IsSameBook old new)) }
    ensures same { HasTable (state S.Store conn.old) → Told (told_book (state S.Store conn.old))
        (told_book (state S.Store conn.new)) (λ old new. IsSameBook old new) }
    ensures table { HasTable (state S.Store conn.old) → HasTable (state S.Store conn.new) }
    ensures idle { conn.new.in_transaction ≡ false }
{
    let _among = month.number();
    read_rows(conn, text)
}

/// A refused statement is a fault of the keeper, unless memory ran out.
pub(crate) fn fault_of(error: Error) -> KeeperFault
    ensures { result ≡ KeeperFault.NoMemory → error ≡ Error.SqliteFailure ErrorCode.OutOfMemory }
{
    match error {
        Error::SqliteFailure(ErrorCode::OutOfMemory) => KeeperFault::NoMemory,
        _ => KeeperFault::Failed,
    }
}

fn unread(fault: RowFault) -> KeeperFault
    ensures { result ≡ KeeperFault.NoMemory → fault ≡ RowFault.NoMemory }
{
    match fault {
        RowFault::NoMemory => KeeperFault::NoMemory,
        RowFault::Unreadable => KeeperFault::Failed,
    }
}

/// Posts the bills of a month, in one transaction.
pub(crate) fn post_in<S: Alter>(
    conn: &mut Connection<S>,
    month: Month,
    bills: &[Bill],
) -> Result<Posted, KeeperFault>
    requires idle { conn.old.in_transaction ≡ false }
    requires bills { AreBills bills.now }
    ensures told { HasTable (state S.Store conn.old) → Told (told_book (state S.Store conn.old))
        (told_book (state S.Store conn.new)) (λ old new. Posts month bills.now old new result) }
    ensures table { HasTable (state S.Store conn.old) → HasTable (state S.Store conn.new) }
    ensures idle { conn.new.in_transaction ≡ false }
{
    let text = print_month(month);
    let Ok(text) = str::from_utf8(&text) else {
        return Err(KeeperFault::Failed);
    };
    let count = bills.len() as u32;
    let mut buffer = itoa::Buffer::new();
    let total = buffer.format(total_of(bills));
    match post_text(conn, month, text, total, count, bills) {
        Ok(true) => Ok(Posted::Now),
        Ok(false) => Ok(Posted::Before),
        Err(error) => Err(fault_of(error)),
    }
}

/// Reads the bills of a month; None if it was not posted.
pub(crate) fn read_in<S: Alter>(
    conn: &mut Connection<S>,
    alloc: Global,
    month: Month,
) -> Result<Option<Vec<Bill>>, KeeperFault>
    requires idle { conn.old.in_transaction ≡ false }
    ensures told { HasTable (state S.Store conn.old) → Told (told_book (state S.Store conn.old))
        (told_book (state S.Store conn.new)) (λ old new. Shows month old new result) }
    ensures table { HasTable (state S.Store conn.old) → HasTable (state S.Store conn.new) }
    ensures idle { conn.new.in_transaction ≡ false }
{
    let text = print_month(month);
    let Ok(text) = str::from_utf8(&text) else {
        return Err(KeeperFault::Failed);
    };
    let rows = match read_text(conn, month, text) {
        Ok(rows) => rows,
        Err(error) => return Err(fault_of(error)),
    };
    match bills_of(alloc, &rows) {
        Ok(bills) => Ok(bills),
        Err(fault) => Err(unread(fault)),
    }
}
