// Where a connection comes from.
ghost use Rattle.std.specs.Prelude.{◌≡◌, false, IfOk, OnOk};
ghost use Rattle.sqlite.specs.Held.{state};
ghost use Rattle.sqlite.specs.Steps.{over_memory};
ghost use Rattle.bill_keeper.specs.Ready.{HasNoRows, HasTable, no_schema};

use crate::month_table::fault_of;
use bill_book::KeeperFault;
use office_base::NoMemory;
use sqlite::{Alter, Connection, Error, ErrorCode, File, FileStore, MemStore};
use std::alloc::Global;

// Makes the table of bills if there is none.
fn make_table<S: Alter>(conn: &mut Connection<S>) -> Result<(), Error>
    ensures idle { IfOk result (λ _. conn.new.in_transaction ≡ false) }
{
    conn.execute(
        "CREATE TABLE IF NOT EXISTS bills(month TEXT NOT NULL, bucket TEXT NOT NULL, total TEXT NOT NULL, \
         lines INTEGER NOT NULL, PRIMARY KEY(month, bucket)) STRICT",
        &[],
    )?;
    if conn.is_autocommit() {
        Ok(())
    } else {
        Err(Error::SqliteFailure(ErrorCode::TransactionState))
    }
}

// Makes the table of bills if there is none, and returns the connection.
fn with_table<S: Alter + Drop>(mut conn: Connection<S>) -> Result<Connection<S>, Error>
    ensures idle { IfOk result (λ conn. conn.in_transaction ≡ false) }
{
    make_table(&mut conn)?;
    Ok(conn)
}

fn create_in<S: Alter>(conn: &mut Connection<S>) -> Result<usize, Error>
    requires { (state S.Store conn.old).now.schema ≡ no_schema }
    ensures table { OnOk result (HasTable (state S.Store conn.new)) }
    ensures empty { OnOk result (HasNoRows (state S.Store conn.new)) }
{
    conn.execute(
        "CREATE TABLE bills(month TEXT NOT NULL, bucket TEXT NOT NULL, total TEXT NOT NULL, \
         lines INTEGER NOT NULL, PRIMARY KEY(month, bucket)) STRICT",
        &[],
    )
}

// Makes the table of bills in a database that has no table yet.
fn create_table<S: Alter>(conn: &mut Connection<S>) -> Result<(), Error>
    requires blank { (state S.Store conn.old).now.schema ≡ no_schema }
    ensures table { OnOk result (HasTable (state S.Store conn.new)) }
    ensures empty { OnOk result (HasNoRows (state S.Store conn.new)) }
    ensures idle { OnOk result (conn.new.in_transaction ≡ false) }
{
    create_in(conn)?;
    if conn.is_autocommit() {
        Ok(())
    } else {
        Err(Error::SqliteFailure(ErrorCode::TransactionState))
    }
}

/// Makes a database in memory that has the table of bills and no rows. A keeper may be made over its connection.
///
/// # Errors
///
/// `NoMemory`: memory ran out. Nothing else fails in memory.
pub fn table_in_memory(alloc: Global) -> Result<Connection<MemStore>, NoMemory>
    ensures table { IfOk result (λ conn. HasTable (state over_memory conn)) }
    ensures empty { IfOk result (λ conn. HasNoRows (state over_memory conn)) }
    ensures idle { IfOk result (λ conn. conn.in_transaction ≡ false) }
{
    let mut conn = Connection::open_in_memory(alloc)?;
    match create_table(&mut conn) {
        Ok(()) => Ok(conn),
        Err(_) => Err(NoMemory),
    }
}

fn open_at(rt: &HostRuntime, path: &str) -> Result<Connection<FileStore<File>>, Error>
    ensures idle { IfOk result (λ conn. conn.in_transaction ≡ false) }
{
    with_table(Connection::open(rt, path)?)
}

/// Opens the database in the file at this path, outside a transaction. The file and the table are made if there are
/// none.
pub(crate) fn open_file(
    rt: &HostRuntime,
    path: &str,
) -> Result<Connection<FileStore<File>>, KeeperFault>
    ensures idle { IfOk result (λ conn. conn.in_transaction ≡ false) }
{
    match open_at(rt, path) {
        Ok(conn) => Ok(conn),
        Err(error) => Err(fault_of(error)),
    }
}
