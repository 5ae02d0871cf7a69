// The keeper of bills over a table in memory, over its own file, and over a file whose rows are not well made.
ghost use Rattle.std.specs.Prelude.{IfSome};
ghost use Rattle.bill_book.specs.Bills.{AreBills};

use bill_keeper::{Bill, BillKeeper, KeeperFault, Posted, SqliteKeeper, table_in_memory};
use moments::Month;
use office_base::BucketName;
use sqlite::{Alter, Connection, Row, params};
use std::alloc::Global;
use std::process::Abort;

const JANUARY: u64 = 648;

fn bill(alloc: Global, bucket: &str, total: u128, lines: u32) -> Option<Bill> {
    match BucketName::read(alloc, bucket) {
        Ok(bucket) => Some(Bill {
            bucket,
            total,
            lines,
        }),
        Err(_) => None,
    }
}

// A bill of aaa, for a month.
fn one(alloc: Global, total: u128) -> Option<[Bill; 1]>
    ensures { IfSome result AreBills }
{
    let bill = bill(alloc, "aaa", total, 3)?;
    if bill.total < u128::MAX {
        Some([bill])
    } else {
        None
    }
}

fn pair(first: Bill, second: Bill) -> Option<[Bill; 2]>
    ensures { IfSome result AreBills }
{
    let rise = first.bucket.text() < second.bucket.text();
    if rise && first.total < 1_000_000 && second.total < 1_000_000 {
        Some([first, second])
    } else {
        None
    }
}

// A bill of aaa, and one of 7 units of bbb, for a month.
fn two(alloc: Global, total: u128) -> Option<[Bill; 2]>
    ensures { IfSome result AreBills }
{
    let first = bill(alloc, "aaa", total, 1)?;
    let second = bill(alloc, "bbb", 7, 2)?;
    pair(first, second)
}

fn post<K: BillKeeper>(keeper: &mut K, month: Month, bills: &[Bill]) -> Result<Posted, KeeperFault>
    requires { AreBills bills.now }
{
    keeper.post(month, bills)
}

// How many bills a month has, and what the last of them comes to; none if the month is not there.
type BillsRead = Result<Option<(usize, u128)>, KeeperFault>;

fn read<K: BillKeeper>(keeper: &mut K, month: Month) -> BillsRead {
    match keeper.bills(month) {
        Ok(Some(bills)) => match bills.last() {
            Some(bill) => Ok(Some((bills.len(), bill.total))),
            None => Ok(Some((0, 0))),
        },
        Ok(None) => Ok(None),
        Err(fault) => Err(fault),
    }
}

// A month of 2024.
#[derive(Clone, Copy)]
enum In {
    January,
    February,
}

fn month(of: In) -> Month {
    match of {
        In::January => Month::numbered(JANUARY),
        In::February => Month::numbered(JANUARY + 1),
    }
}

// The bills that are posted: none, one of aaa with this total, or the same and one of bbb.
#[derive(Clone, Copy)]
enum Owed {
    Nothing,
    One(u128),
    Two(u128),
}

// None if the bills are not made.
fn post_owed<K: BillKeeper>(
    keeper: &mut K,
    alloc: Global,
    month: Month,
    owed: Owed,
) -> Option<Result<Posted, KeeperFault>> {
    match owed {
        Owed::Nothing => Some(post(keeper, month, &[])),
        Owed::One(total) => {
            let bills = one(alloc, total)?;
            Some(post(keeper, month, &bills))
        }
        Owed::Two(total) => {
            let bills = two(alloc, total)?;
            Some(post(keeper, month, &bills))
        }
    }
}

// A call of a keeper, and what it returns.
#[derive(Clone, Copy)]
enum Turn {
    Read(In, BillsRead),
    Post(In, Owed, Result<Posted, KeeperFault>),
}

// A large type costs the proof at each call. So all turns are taken here, over any keeper.
fn take_turns<K: BillKeeper>(
    rt: &impl Abort,
    alloc: Global,
    keeper: &mut K,
    turns: &[Turn],
    given: &str,
) {
    for (index, turn) in turns.iter().enumerate() {
        match turn {
            Turn::Read(of, wanted) => {
                assert_eq!(rt; read(keeper, month(*of)), *wanted, "{given}: {index}");
            }
            Turn::Post(of, owed, wanted) => {
                let posted = post_owed(keeper, alloc, month(*of), *owed);
                assert_eq!(rt; posted, Some(*wanted), "{given}: {index}");
            }
        }
    }
}

// Opens a keeper of the bills in a file, and takes the turns.
fn take_turns_in(rt: &impl Abort, host: &HostRuntime, file: &str, turns: &[Turn], given: &str) {
    let path = String::from_str(host.alloc(), file).expect(rt, "memory");
    let mut keeper = SqliteKeeper::at(host.clone().expect(rt, "memory"), path);
    take_turns(rt, host.alloc(), &mut keeper, turns, given);
}

// The turns before the file is opened again, and those after it.
const IN_A_FILE: [&[Turn]; 2] = [
    &[
        Turn::Read(In::January, Ok(None)),
        Turn::Post(In::January, Owed::One(u128::MAX - 7), Ok(Posted::Now)),
        Turn::Post(In::January, Owed::One(6), Ok(Posted::Before)),
        Turn::Post(In::February, Owed::Nothing, Ok(Posted::Now)),
    ],
    &[
        Turn::Read(In::January, Ok(Some((1, u128::MAX - 7)))),
        Turn::Read(In::February, Ok(Some((0, 0)))),
    ],
];

#[test]
fn a_file_keeps_the_bills(rt: HostRuntime) {
    for turns in &IN_A_FILE {
        take_turns_in(&rt, &rt, "bills.db", turns, "bills.db");
    }
}

fn connection_of<S: Alter + Drop>(keeper: SqliteKeeper<S>) -> Option<Connection<S>> {
    if keeper.is_over() {
        Some(keeper.give_back())
    } else {
        None
    }
}

// The rows of a month, by the statement of docs/FORMATS.md that reads one.
fn rows_of<S: Alter>(connection: &mut Connection<S>, month: &str) -> Option<Vec<Row>> {
    let sql = "SELECT bucket, total, lines FROM bills WHERE month = ?1 ORDER BY bucket";
    connection.query_all(sql, params![month]).ok()
}

// The bucket, total and number of lines of a row.
fn columns(row: &Row) -> Option<(String, String, u32)> {
    match (
        row.get::<String>(0),
        row.get::<String>(1),
        row.get::<u32>(2),
    ) {
        (Ok(bucket), Ok(total), Ok(lines)) => Some((bucket, total, lines)),
        _ => None,
    }
}

// A row: its bucket, total and number of lines.
type BillRow = (&'static str, &'static str, u32);

fn have(rt: &impl Abort, rows: &[Row], wanted: &[BillRow]) {
    assert_eq!(rt; rows.len(), wanted.len());
    for (row, (bucket, total, lines)) in rows.iter().zip(wanted) {
        let (own, digits, count) = columns(row).expect(rt, "two texts and a number");
        assert_eq!(rt;
            (own.as_str(), digits.as_str(), count),
            (*bucket, *total, *lines)
        );
    }
}

const IN_MEMORY: [Turn; 5] = [
    Turn::Read(In::January, Ok(None)),
    Turn::Post(In::January, Owed::Two(5), Ok(Posted::Now)),
    Turn::Post(In::January, Owed::Two(6), Ok(Posted::Before)),
    Turn::Post(In::February, Owed::Nothing, Ok(Posted::Now)),
    Turn::Read(In::February, Ok(Some((0, 0)))),
];

// A month, and its rows after those turns.
const ROWS_OF: [(&str, &[BillRow]); 2] = [
    (
        "2024-01",
        &[("", "12", 2), ("aaa", "5", 1), ("bbb", "7", 2)],
    ),
    ("2024-02", &[("", "0", 0)]),
];

// Takes those turns, and compares the rows.
fn leave_rows<S: Alter + Drop>(rt: &impl Abort, alloc: Global, mut keeper: SqliteKeeper<S>) {
    take_turns(rt, alloc, &mut keeper, &IN_MEMORY, "in memory");
    let mut connection = connection_of(keeper).expect(rt, "a connection");
    for (month, wanted) in &ROWS_OF {
        let rows = rows_of(&mut connection, month).expect(rt, "rows");
        have(rt, &rows, wanted);
    }
}

#[test]
fn a_table_in_memory_has_the_rows(rt: HostRuntime) {
    match table_in_memory(rt.alloc()) {
        Ok(table) => leave_rows(&rt, rt.alloc(), SqliteKeeper::over(rt.alloc(), table)),
        Err(_) => panic!(rt; "no memory"),
    }
}

// The table of docs/FORMATS.md, with its example of a month and no other row.
const EXAMPLE: &str = "\
    CREATE TABLE IF NOT EXISTS bills(month TEXT NOT NULL, bucket TEXT NOT NULL, total TEXT NOT NULL, \
    lines INTEGER NOT NULL, PRIMARY KEY(month, bucket)) STRICT; \
    DELETE FROM bills; \
    INSERT INTO bills VALUES ('2024-01', '', '69000', 2); \
    INSERT INTO bills VALUES ('2024-01', 'logs', '23000', 1); \
    INSERT INTO bills VALUES ('2024-01', 'raw', '46000', 1)";

// The file of the rows.
const ROWS: &str = "rows.db";

const POSTED: Result<Posted, KeeperFault> = Ok(Posted::Before);

const REFUSED: Result<Posted, KeeperFault> = Err(KeeperFault::Failed);

const UNREAD: BillsRead = Err(KeeperFault::Failed);

// A change to the example; what posting two other bills returns, the rows that the table has then, and what is read of
// the month. A month that has its header is not posted, and one that has rows and no header is not well made.
const CHANGES: [(&str, Result<Posted, KeeperFault>, u32, BillsRead); 17] = [
    (
        "DELETE FROM bills WHERE month = '2024-02'",
        POSTED,
        3,
        Ok(Some((2, 46_000))),
    ),
    ("DELETE FROM bills", Ok(Posted::Now), 3, Ok(Some((2, 7)))),
    ("DELETE FROM bills WHERE bucket != ''", POSTED, 1, UNREAD),
    ("DELETE FROM bills WHERE bucket = 'raw'", POSTED, 2, UNREAD),
    ("DELETE FROM bills WHERE bucket = ''", REFUSED, 2, UNREAD),
    (
        "DELETE FROM bills WHERE bucket != 'raw'",
        REFUSED,
        1,
        UNREAD,
    ),
    (
        "INSERT INTO bills VALUES ('2024-01', 'zoo', '0', 1)",
        POSTED,
        4,
        UNREAD,
    ),
    (
        "UPDATE bills SET total = '69001' WHERE bucket = ''",
        POSTED,
        3,
        UNREAD,
    ),
    (
        "UPDATE bills SET lines = 3 WHERE bucket = ''",
        POSTED,
        3,
        UNREAD,
    ),
    (
        "UPDATE bills SET total = 'all' WHERE bucket = ''",
        POSTED,
        3,
        UNREAD,
    ),
    (
        "UPDATE bills SET total = '023000' WHERE bucket = 'logs'",
        POSTED,
        3,
        UNREAD,
    ),
    (
        "UPDATE bills SET total = '+23000' WHERE bucket = 'logs'",
        POSTED,
        3,
        UNREAD,
    ),
    (
        "UPDATE bills SET total = '' WHERE bucket = 'logs'",
        POSTED,
        3,
        UNREAD,
    ),
    (
        "UPDATE bills SET total = '340282366920938463463374607431768211456' WHERE bucket = 'logs'",
        POSTED,
        3,
        UNREAD,
    ),
    (
        "UPDATE bills SET lines = -1 WHERE bucket = 'logs'",
        POSTED,
        3,
        UNREAD,
    ),
    (
        "UPDATE bills SET lines = 4294967296 WHERE bucket = 'logs'",
        POSTED,
        3,
        UNREAD,
    ),
    (
        "UPDATE bills SET bucket = 'LOGS' WHERE bucket = 'logs'",
        POSTED,
        3,
        UNREAD,
    ),
];

// Writes the example, and changes it.
fn run<S: Alter>(connection: &mut Connection<S>, change: &str) -> bool {
    connection.execute_batch(EXAMPLE).is_ok() && connection.execute(change, &[]).is_ok()
}

fn count<S: Alter>(connection: &mut Connection<S>) -> Option<u32> {
    match connection.query_row("SELECT count(*) FROM bills", &[]) {
        Ok(row) => row.get::<u32>(0).ok(),
        Err(_) => None,
    }
}

fn counted<S: Alter>(connection: &mut Connection<S>, change: Option<&str>) -> Option<u32> {
    let is_written = match change {
        Some(change) => run(connection, change),
        None => true,
    };
    if is_written { count(connection) } else { None }
}

// How many rows the table in the file of the rows has; before that, writes the changed example if a change is given.
fn rows_in_file(host: &HostRuntime, change: Option<&str>) -> Option<u32> {
    match Connection::open(host, ROWS) {
        Ok(mut connection) => counted(&mut connection, change),
        Err(_) => None,
    }
}

// After a change to the example, the answer to posting two bills, what is read of the month, and the number of rows.
#[test]
fn rows_that_are_not_well_made_are_a_fault(rt: HostRuntime) {
    for (change, posted, rows, read) in &CHANGES {
        let turns = [
            Turn::Post(In::January, Owed::Two(5), *posted),
            Turn::Read(In::January, *read),
        ];
        assert!(rt; rows_in_file(&rt, Some(change)).is_some(), "{change}");
        take_turns_in(&rt, &rt, ROWS, &turns, change);
        assert_eq!(rt; rows_in_file(&rt, None), Some(*rows), "{change}");
    }
}
