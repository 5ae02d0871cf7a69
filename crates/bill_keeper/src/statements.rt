// The statements over the table.
ghost use Rattle.std.specs.Prelude.{◌≡◌, ◌≤◌, IsTrue, pos, [], ◌∷◌, length};
ghost use Rattle.sqlite.specs.Held.{state};
ghost use Rattle.sqlite.specs.State.{HasCleanDisk, ExecutesInside, Survives};
ghost use Rattle.sqlite.specs.View.{doubt};
ghost use Rattle.sqlite.specs.declared.types.Value.TheVariants.{Int, Text as Words};
ghost use Rattle.bill_rows.specs.Rows.{header_text, bill_text, IsMonth};
ghost use Rattle.bill_rows.specs.Puts.{IsHeaderPut, PutsRow, PutsBill, PutsBills};
ghost use Rattle.bill_keeper.specs.Steps.{WorksBy, PostsMonth};

use bill_book::Bill;
use sqlite::{Alter, Error, ErrorCode, Row, Transaction, params};

fn run_header<S: Alter>(
    tx: &mut Transaction<'_, S>,
    month: &str,
    total: &str,
    lines: u32,
) -> Result<usize, Error>
    ensures same_reference { tx.new.conn.ghost_name ≡ tx.old.conn.ghost_name }
    ensures runs { HasCleanDisk (state S.Store tx.new.conn.now) → IsTrue (state S.Store tx.old.conn.now).in_transaction
        → ExecutesInside 0 header_text (Words month.now ∷ Words total.now ∷ Int (pos lines) ∷ [])
        (state S.Store tx.old.conn.now) (state S.Store tx.new.conn.now) result }
    ensures survives { Survives (state S.Store tx.old.conn.now) (state S.Store tx.new.conn.now) (λ _. ⊥) }
{
    tx.execute(
        "INSERT INTO bills(month, bucket, total, lines) VALUES (?1, '', ?2, ?3) ON CONFLICT(month, bucket) DO NOTHING",
        params![month, total, lines],
    )
}

// Puts the month's header in, if it has none, and returns how many rows it wrote.
fn put_header<S: Alter>(
    tx: &mut Transaction<'_, S>,
    month: &str,
    total: &str,
    lines: u32,
) -> Result<usize, Error>
    ensures same_reference { tx.new.conn.ghost_name ≡ tx.old.conn.ghost_name }
    ensures works { WorksBy (state S.Store tx.old.conn.now) (state S.Store tx.new.conn.now) result
        (IsHeaderPut month.now total.now (pos lines)) }
    ensures clean { doubt (state S.Store tx.old.conn.now).is_clean ≤ doubt (state S.Store tx.new.conn.now).is_clean }
{
    run_header(tx, month, total, lines)
}

// Reads the rows of the month.
fn read_month<S: Alter>(tx: &mut Transaction<'_, S>, month: &str) -> Result<Vec<Row>, Error>
    ensures same_reference { tx.new.conn.ghost_name ≡ tx.old.conn.ghost_name }
    ensures works { WorksBy (state S.Store tx.old.conn.now) (state S.Store tx.new.conn.now) result
        (λ rows before after. (after ≡ before) × IsMonth month.now before rows.items) }
    ensures clean { doubt (state S.Store tx.old.conn.now).is_clean ≤ doubt (state S.Store tx.new.conn.now).is_clean }
{
    tx.query_all(
        "SELECT bucket, total, lines FROM bills WHERE month = ?1 ORDER BY bucket",
        params![month],
    )
}

// Fails unless one row of the month is read.
fn read_single<S: Alter>(tx: &mut Transaction<'_, S>, month: &str) -> Result<Vec<Row>, Error>
    ensures same_reference { tx.new.conn.ghost_name ≡ tx.old.conn.ghost_name }
    ensures works { WorksBy (state S.Store tx.old.conn.now) (state S.Store tx.new.conn.now) result
        (λ rows before after. (after ≡ before) × IsMonth month.now before rows.items × (length rows.items ≡ 1)) }
    ensures clean { doubt (state S.Store tx.old.conn.now).is_clean ≤ doubt (state S.Store tx.new.conn.now).is_clean }
{
    let rows = read_month(tx, month)?;
    if rows.len() == 1 {
        Ok(rows)
    } else {
        Err(Error::SqliteFailure(ErrorCode::DatabaseCorrupt))
    }
}

fn run_bill<S: Alter>(
    tx: &mut Transaction<'_, S>,
    month: &str,
    bucket: &str,
    total: &str,
    lines: u32,
) -> Result<usize, Error>
    ensures same_reference { tx.new.conn.ghost_name ≡ tx.old.conn.ghost_name }
    ensures runs { HasCleanDisk (state S.Store tx.new.conn.now) → IsTrue (state S.Store tx.old.conn.now).in_transaction
        → ExecutesInside 0 bill_text (Words month.now ∷ Words bucket.now ∷ Words total.now ∷ Int (pos lines) ∷ [])
        (state S.Store tx.old.conn.now) (state S.Store tx.new.conn.now) result }
    ensures survives { Survives (state S.Store tx.old.conn.now) (state S.Store tx.new.conn.now) (λ _. ⊥) }
{
    tx.execute(
        "INSERT INTO bills(month, bucket, total, lines) VALUES (?1, ?2, ?3, ?4)",
        params![month, bucket, total, lines],
    )
}

fn put_row<S: Alter>(
    tx: &mut Transaction<'_, S>,
    month: &str,
    bucket: &str,
    total: &str,
    lines: u32,
) -> Result<usize, Error>
    ensures same_reference { tx.new.conn.ghost_name ≡ tx.old.conn.ghost_name }
    ensures works { WorksBy (state S.Store tx.old.conn.now) (state S.Store tx.new.conn.now) result
        (λ _. PutsRow month.now bucket.now total.now (pos lines)) }
    ensures clean { doubt (state S.Store tx.old.conn.now).is_clean ≤ doubt (state S.Store tx.new.conn.now).is_clean }
{
    run_bill(tx, month, bucket, total, lines)
}

// Puts the bill of a bucket in.
fn put_bill<S: Alter>(tx: &mut Transaction<'_, S>, month: &str, bill: &Bill) -> Result<usize, Error>
    ensures same_reference { tx.new.conn.ghost_name ≡ tx.old.conn.ghost_name }
    ensures works { WorksBy (state S.Store tx.old.conn.now) (state S.Store tx.new.conn.now) result
        (λ _. PutsBill month.now bill.now) }
    ensures clean { doubt (state S.Store tx.old.conn.now).is_clean ≤ doubt (state S.Store tx.new.conn.now).is_clean }
{
    let mut buffer = itoa::Buffer::new();
    let total = buffer.format(bill.total);
    put_row(tx, month, bill.bucket.text(), total, bill.lines)
}

fn put_bills<S: Alter>(
    tx: &mut Transaction<'_, S>,
    month: &str,
    bills: &[Bill],
) -> Result<(), Error>
    ensures same_reference { tx.new.conn.ghost_name ≡ tx.old.conn.ghost_name }
    ensures works { WorksBy (state S.Store tx.old.conn.now) (state S.Store tx.new.conn.now) result
        (λ _. PutsBills month.now bills.now) }
    ensures clean { doubt (state S.Store tx.old.conn.now).is_clean ≤ doubt (state S.Store tx.new.conn.now).is_clean }
{
    'bills: for bill in bills {
        put_bill(tx, month, bill)?;
    }
    Ok(())
}

// Puts the month in, with its bills, and returns whether it did; a month that has a header stays. Fails if the month
// has rows and no header.
pub(crate) fn put_month<S: Alter>(
    tx: &mut Transaction<'_, S>,
    month: &str,
    total: &str,
    count: u32,
    bills: &[Bill],
) -> Result<bool, Error>
    ensures same_reference { tx.new.conn.ghost_name ≡ tx.old.conn.ghost_name }
    ensures works { WorksBy (state S.Store tx.old.conn.now) (state S.Store tx.new.conn.now) result
        (PostsMonth month.now total.now count bills.now) }
    ensures clean { doubt (state S.Store tx.old.conn.now).is_clean ≤ doubt (state S.Store tx.new.conn.now).is_clean }
{
    let written = put_header(tx, month, total, count)?;
    if written == 0 {
        return Ok(false);
    }
    let _rows = read_single(tx, month)?;
    put_bills(tx, month, bills)?;
    Ok(true)
}
