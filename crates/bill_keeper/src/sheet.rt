// The table of bills in a connection.
ghost use Rattle.std.specs.Prelude.{◌≡◌, ◌≤◌, false};
ghost use Rattle.sqlite.specs.Held.{state};
ghost use Rattle.sqlite.specs.State.{HasCleanDisk};
ghost use Rattle.sqlite.specs.View.{doubt};
ghost use Rattle.bill_keeper.specs.Steps.{PostsRows, ReadsRows};

use crate::statements::put_month;
use bill_book::Bill;
use sqlite::{Alter, Connection, Error, Row, params};

/// Puts a month in, with its bills, in one transaction, and returns whether it did. A month that has a header stays. If
/// it fails, nothing is done.
pub(crate) fn post_rows<S: Alter>(
    conn: &mut Connection<S>,
    month: &str,
    total: &str,
    count: u32,
    bills: &[Bill],
) -> Result<bool, Error>
    requires idle { conn.old.in_transaction ≡ false }
    ensures posts { HasCleanDisk (state S.Store conn.new)
        → PostsRows month.now total.now count bills.now (state S.Store conn.old) (state S.Store conn.new) result }
    ensures idle { conn.new.in_transaction ≡ false }
    ensures clean { doubt (state S.Store conn.old).is_clean ≤ doubt (state S.Store conn.new).is_clean }
{
    let _settled = conn.is_autocommit();
    let mut tx = conn.transaction();
    if !put_month(&mut tx, month, total, count, bills)? {
        return Ok(false);
    }
    tx.commit()?;
    Ok(true)
}

/// Reads the rows of a month, the header among them, in byte order of the bucket.
pub(crate) fn read_rows<S: Alter>(conn: &mut Connection<S>, month: &str) -> Result<Vec<Row>, Error>
    requires idle { conn.old.in_transaction ≡ false }
    ensures reads { HasCleanDisk (state S.Store conn.new)
        → ReadsRows month.now (state S.Store conn.old) (state S.Store conn.new) result }
    ensures idle { conn.new.in_transaction ≡ false }
    ensures clean { doubt (state S.Store conn.old).is_clean ≤ doubt (state S.Store conn.new).is_clean }
{
    let _settled = conn.is_autocommit();
    conn.query_all(
        "SELECT bucket, total, lines FROM bills WHERE month = ?1 ORDER BY bucket",
        params![month],
    )
}
