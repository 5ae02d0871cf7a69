use crate::given::{bucket, disk_with, equal, equal_bytes, key, no_tags, size, token};
use class_rules::Class;
use desk_core::{Acked, Clock, Desk, DeskFault, ListClock, SystemClock};
use disk_core::{Disk, MemoryDisk};
use meter_journal::{OpenFault, read_all};
use moments::Month;
use office_base::VersionId;
use office_types::{Ask, Command, Query, Refusal, Reply};
use std::alloc::Global;
use std::fmt::Debug;
use std::io;
use std::process::Abort;
use std::time::{Clock as SystemTimes, Duration};

// 2024-01-01 00:00 UTC.
const J0: u64 = 1_704_067_200_000;

// 2100-01-01 00:00 UTC.
const END: u64 = 4_102_444_800_000;

const DAY: u64 = 86_400_000;

const EMPTY: &[u8] = &[
    0xA5, 0x4D, 0x45, 0x54, 0x45, 0x52, 0x4A, 0x52, 0x4E, 0x31, 0,
];

// The bucket logs, made at J0.
const LOGS: &[u8] = &[
    0xA5, 0x4D, 0x45, 0x54, 0x45, 0x52, 0x4A, 0x52, 0x4E, 0x31, 0xA5, 0, 0, 0, 15, 0, 0, 0x01,
    0x8C, 0xC2, 0x51, 0xF4, 0x00, 0x01, 0, 4, 0x6C, 0x6F, 0x67, 0x73, 0,
];

// The bucket logs, made one millisecond before 2100-01-01 00:00 UTC.
const LATE: &[u8] = &[
    0xA5, 0x4D, 0x45, 0x54, 0x45, 0x52, 0x4A, 0x52, 0x4E, 0x31, 0xA5, 0, 0, 0, 15, 0, 0, 0x03,
    0xBB, 0x2C, 0xC3, 0xD7, 0xFF, 0x01, 0, 4, 0x6C, 0x6F, 0x67, 0x73, 0,
];

// The frame of the bucket data, made at J0, after its gate, with the next gate.
const DATA_FRAME: &[u8] = &[
    0, 0, 0, 15, 0, 0, 0x01, 0x8C, 0xC2, 0x51, 0xF4, 0x00, 0x01, 0, 4, 0x64, 0x61, 0x74, 0x61, 0,
];

// The same, made one millisecond before J0.
const BEFORE_FRAME: &[u8] = &[
    0, 0, 0, 15, 0, 0, 0x01, 0x8C, 0xC2, 0x51, 0xF3, 0xFF, 0x01, 0, 4, 0x64, 0x61, 0x74, 0x61, 0,
];

// The frame of data, without its last byte.
const CUT_FRAME: &[u8] = &[
    0, 0, 0, 15, 0, 0, 0x01, 0x8C, 0xC2, 0x51, 0xF4, 0x00, 0x01, 0, 4, 0x64, 0x61, 0x74, 0x61,
];

// The frame of the bucket logs, made at J0, after its gate, with the next gate.
const LOGS_FRAME: &[u8] = &[
    0, 0, 0, 15, 0, 0, 0x01, 0x8C, 0xC2, 0x51, 0xF4, 0x00, 0x01, 0, 4, 0x6C, 0x6F, 0x67, 0x73, 0,
];

// The bytes of the bucket logs, with a further frame after them.
fn logs_and(rt: &impl Abort, alloc: Global, frame: &[u8]) -> Vec<u8> {
    let mut bytes = LOGS[..30].to_vec(alloc).expect(rt, "memory");
    bytes.push(0xA5).expect(rt, "memory");
    bytes.extend_from_slice(frame).expect(rt, "memory");
    bytes
}

// What a desk is asked about a bucket with this name.
#[derive(Clone, Copy)]
enum Wish {
    Make(&'static str),
    Show(&'static str),
    // A put of this many bytes under the key a.
    Put(&'static str, u64),
    // The meters of January 2024.
    January(&'static str),
    // With a token, which comes first.
    MakeOnce(&'static str, &'static str),
    PutOnce(&'static str, &'static str, u64),
    ActOnce(&'static str, &'static str),
}

fn put(rt: &impl Abort, alloc: Global, name: &str, bytes: u64) -> Command {
    Command::Put {
        bucket: bucket(rt, alloc, name),
        key: key(rt, alloc, "a"),
        size: size(rt, bytes),
        class: Class::Standard,
        tags: no_tags(rt, alloc),
    }
}

fn make(rt: &impl Abort, alloc: Global, name: &str) -> Command {
    Command::CreateBucket {
        bucket: bucket(rt, alloc, name),
    }
}

fn act(rt: &impl Abort, alloc: Global, name: &str) -> Command {
    Command::Act {
        bucket: bucket(rt, alloc, name),
    }
}

fn once(rt: &impl Abort, alloc: Global, text: &str, command: Command) -> Ask {
    Ask::Once {
        token: token(rt, alloc, text),
        command,
    }
}

fn asked(rt: &impl Abort, alloc: Global, wish: Wish) -> Ask {
    match wish {
        Wish::Make(name) => Ask::Command(make(rt, alloc, name)),
        Wish::Show(name) => Ask::Query(Query::Bucket(bucket(rt, alloc, name))),
        Wish::Put(name, size) => Ask::Command(put(rt, alloc, name, size)),
        Wish::January(name) => {
            let month = Month::of(2024, 1).expect(rt, "a month");
            Ask::Query(Query::Meters(bucket(rt, alloc, name), month))
        }
        Wish::MakeOnce(token, name) => once(rt, alloc, token, make(rt, alloc, name)),
        Wish::PutOnce(token, name, size) => once(rt, alloc, token, put(rt, alloc, name, size)),
        Wish::ActOnce(token, name) => once(rt, alloc, token, act(rt, alloc, name)),
    }
}

// The answer, without the names.
#[derive(Clone, Copy, Debug, PartialEq, Eq)]
enum Heard {
    Made,
    // The moment of a put of the null version.
    Stored(u64),
    // The number of versions.
    Shown(u32),
    // The byte-milliseconds in STANDARD.
    Standard(u128),
    // The bucket exists already.
    There,
    // There is no such bucket.
    Missing,
    // The moment that is not below the end of time.
    Ended(u64),
    // The token is kept with a command of this kind.
    Reused(u8),
    // No action is due.
    Idle,
    Other,
}

// The answer, and the position of the journal's end.
type Said = Result<(Heard, u64), DeskFault>;

fn reply_of(reply: &Result<Reply, Refusal>) -> Heard {
    match reply {
        Ok(Reply::BucketMade { .. }) => Heard::Made,
        Ok(
            Reply::Stored {
                moment,
                version: VersionId::Null,
            },
        ) => Heard::Stored(moment.ms()),
        Ok(Reply::Stored { .. }) => Heard::Other,
        Ok(Reply::BucketShown { versions, .. }) => Heard::Shown(*versions),
        Ok(Reply::MetersShown { classes, .. }) => match classes.as_slice() {
            [standard, ..] => Heard::Standard(standard.byte_ms),
            [] => Heard::Other,
        },
        Ok(Reply::NothingDue) => Heard::Idle,
        Err(Refusal::TokenReused { kind }) => Heard::Reused(*kind),
        Err(Refusal::BucketExists) => Heard::There,
        Err(Refusal::NoSuchBucket) => Heard::Missing,
        Err(Refusal::ClockEnd { moment }) => Heard::Ended(*moment),
        _ => Heard::Other,
    }
}

fn answer_of(acked: Acked) -> (Heard, u64) {
    let heard = (reply_of(acked.reply()), acked.position());
    drop(acked);
    heard
}

// What the desk answers.
fn answer(
    rt: &impl Abort,
    alloc: Global,
    desk: &mut Desk<MemoryDisk, ListClock>,
    wish: Wish,
) -> Said {
    let ask = asked(rt, alloc, wish);
    let answer = desk.submit(&ask);
    drop(ask);
    match answer {
        Ok(acked) => Ok(answer_of(acked)),
        Err(fault) => Err(fault),
    }
}

// A wish, with the desk's answer and whether it is stale afterwards.
type Turn = (Wish, Said, bool);

fn assert_turns(
    rt: &impl Abort,
    alloc: Global,
    row: &impl Debug,
    desk: &mut Desk<MemoryDisk, ListClock>,
    turns: &[Turn],
) {
    for (index, (wish, said, stale)) in turns.iter().enumerate() {
        let found = answer(rt, alloc, desk, *wish);
        equal(rt, &(row, index), &(found, desk.stale()), &(*said, *stale));
    }
}

// The numbers that the clock gives, the limit of the journal, and the turns.
type Session<'a> = (&'a [u64], u64, &'a [Turn]);

// The disk after these turns.
fn taken(
    rt: &impl Abort,
    alloc: Global,
    row: &impl Debug,
    mut desk: Desk<MemoryDisk, ListClock>,
    turns: &[Turn],
) -> MemoryDisk {
    assert_turns(rt, alloc, row, &mut desk, turns);
    let (disk, clock, _) = desk.finish();
    drop(clock);
    disk
}

// Opens a desk over this disk, takes the turns, and returns the disk, with the fault if the desk was not opened.
fn take_turns(
    rt: &impl Abort,
    alloc: Global,
    row: &impl Debug,
    disk: MemoryDisk,
    (numbers, limit, turns): Session<'_>,
) -> (Option<OpenFault>, MemoryDisk) {
    let clock = ListClock::new(numbers.to_vec(alloc).expect(rt, "memory"));
    match Desk::open(alloc, disk, clock, limit.min(1 << 45)) {
        Ok(desk) => (None, taken(rt, alloc, row, desk, turns)),
        Err((fault, disk, clock)) => {
            drop(clock);
            (Some(fault), disk)
        }
    }
}

// The same, if the desk is opened.
fn turns_taken(
    rt: &impl Abort,
    alloc: Global,
    row: &impl Debug,
    disk: MemoryDisk,
    session: Session<'_>,
) -> MemoryDisk {
    let (fault, disk) = take_turns(rt, alloc, row, disk, session);
    equal(rt, row, &fault, &None);
    disk
}

// The bytes of the journal file.
fn kept(rt: &impl Abort, alloc: Global, mut disk: MemoryDisk) -> Vec<u8> {
    read_all(alloc, &mut disk).expect(rt, "the file")
}

const MAKE: Wish = Wish::Make("logs");

const SHOW: Wish = Wish::Show("logs");

// Answers about the bucket logs. The journal ends at 30 after its entry.
const MADE: Said = Ok((Heard::Made, 30));

const THERE: Said = Ok((Heard::There, 30));

// The clock is at its end; the store failed in the first command.
const ENDED: Heard = Heard::Ended(END);

const LOST: Said = Err(DeskFault::StoreFault {
    told: Some(J0),
    faults: 1,
});

const ENDED_AT_ONCE: Said = Ok((ENDED, 10));

const PAST: Said = Ok((Heard::Ended(u64::MAX), 10));

const FULL: Said = Err(DeskFault::JournalFull);

// The clock's number, the limit, the two answers, and the bytes of the file afterwards.
const MAKINGS: &[(u64, u64, Said, Said, &[u8])] = &[
    (J0, 30, FULL, FULL, EMPTY),
    (J0, 31, MADE, FULL, LOGS),
    (J0, 50, MADE, FULL, LOGS),
    (J0, 51, MADE, THERE, LOGS),
    (END - 1, 51, MADE, THERE, LATE),
    // At the end of time nothing is done, and the limit is not checked.
    (END, 30, ENDED_AT_ONCE, ENDED_AT_ONCE, EMPTY),
    (u64::MAX, 51, PAST, PAST, EMPTY),
];

#[test]
fn a_bucket_is_made_once_and_within_the_limit(rt: HostRuntime) {
    let alloc = rt.alloc();
    for (number, limit, first, second, file) in MAKINGS {
        let turns = [(MAKE, *first, false), (MAKE, *second, false)];
        let disk = disk_with(&rt, alloc, EMPTY, &[]);
        let row = (*number, *limit);
        let disk = turns_taken(&rt, alloc, &row, disk, (&[*number], *limit, &turns));
        equal_bytes(&rt, &row, &kept(&rt, alloc, disk), *file);
    }
}

const DAMAGED: Option<OpenFault> = Some(OpenFault::Damaged { offset: 30 });

// What a journal file holds: bytes that are not an entry, or the bucket logs and a further frame.
#[derive(Clone, Copy)]
enum Holding {
    Bytes(&'static [u8]),
    LogsAnd(&'static [u8]),
}

// The fault if the journal is not opened, and the answer to making the bucket data.
const OPENINGS: &[(Holding, Option<OpenFault>, Heard)] = &[
    (Holding::Bytes(&[]), Some(OpenFault::NotMade), Heard::There),
    (
        Holding::Bytes(b"METERJRN1 is its mark"),
        Some(OpenFault::Foreign),
        Heard::There,
    ),
    (Holding::LogsAnd(LOGS_FRAME), DAMAGED, Heard::There),
    (Holding::LogsAnd(BEFORE_FRAME), DAMAGED, Heard::There),
    (Holding::LogsAnd(CUT_FRAME), DAMAGED, Heard::There),
    (Holding::LogsAnd(DATA_FRAME), None, Heard::There),
    (Holding::Bytes(LOGS), None, Heard::Made),
];

// The bytes of a file.
fn bytes_of(rt: &impl Abort, alloc: Global, holding: &Holding) -> Vec<u8> {
    match holding {
        Holding::Bytes(bytes) => bytes.to_vec(alloc).expect(rt, "memory"),
        Holding::LogsAnd(frame) => logs_and(rt, alloc, *frame),
    }
}

// Opens a desk over a file, makes the bucket logs again and the bucket data, and returns the fault and the file.
fn opened(
    rt: &impl Abort,
    alloc: Global,
    row: usize,
    file: &[u8],
    data: Heard,
) -> (Option<OpenFault>, Vec<u8>) {
    let end = (file.len() as u64).saturating_sub(1);
    // The clock gives 0, and the entry has the moment of the one before.
    let turns = [
        (MAKE, Ok((Heard::There, end)), false),
        (Wish::Make("data"), Ok((data, 50)), false),
    ];
    let disk = disk_with(rt, alloc, file, &[]);
    let (fault, disk) = take_turns(rt, alloc, &row, disk, (&[], 1 << 45, &turns));
    (fault, kept(rt, alloc, disk))
}

#[test]
fn a_journal_is_opened_where_the_office_accepts_it(rt: HostRuntime) {
    let alloc = rt.alloc();
    for (index, (holding, fault, data)) in OPENINGS.iter().enumerate() {
        let file = bytes_of(&rt, alloc, holding);
        let (found, kept) = opened(&rt, alloc, index, &file, *data);
        equal(&rt, &index, &found, fault);
        let wanted = if fault.is_none() {
            logs_and(&rt, alloc, DATA_FRAME)
        } else {
            file
        };
        equal_bytes(&rt, &index, &kept, &wanted);
    }
}

// Makes the bucket logs on an empty journal whose disk fails at a call, and returns the fault and the disk.
fn made_at_fault(rt: &impl Abort, alloc: Global, call: u64) -> (Option<OpenFault>, MemoryDisk) {
    let disk = disk_with(rt, alloc, EMPTY, &[call]);
    take_turns(rt, alloc, &call, disk, (&[J0], 100, &[(MAKE, LOST, true)]))
}

// Opens the office again and makes the bucket logs: it is there if and only if the gate of its entry is open.
fn assert_made_again(rt: &impl Abort, alloc: Global, call: u64, mut disk: MemoryDisk) {
    let file = read_all(alloc, &mut disk).expect(rt, "the file");
    let is_open = file.get(10) == Some(&0xA5);
    let said = if is_open { THERE } else { MADE };
    turns_taken(rt, alloc, &call, disk, (&[J0], 100, &[(MAKE, said, false)]));
}

#[test]
fn a_fault_of_the_store_is_told(rt: HostRuntime) {
    let alloc = rt.alloc();
    // Calls 2 to 7 open the office: a sync, the lengths of the two slots, the length of the journal, its head, and the
    // first gate. Calls 8 to 13 add the entry: three writes, a sync, the gate, and a sync.
    for call in 2..14 {
        let (fault, disk) = made_at_fault(&rt, alloc, call);
        let wanted = if call < 8 {
            Some(OpenFault::StoreFault)
        } else {
            None
        };
        equal(&rt, &call, &(fault, disk.faults()), &(wanted, 1));
        assert_made_again(&rt, alloc, call, disk);
    }
}

// The calls of the disk that fail, over an empty journal; the clock's numbers; and the turns.
type Row = (&'static [u64], &'static [u64], &'static [Turn]);

const ADDING: Turn = (MAKE, LOST, true);

const OPENING: Turn = (
    MAKE,
    Err(DeskFault::StoreFault {
        told: None,
        faults: 2,
    }),
    true,
);

const NEW: Turn = (MAKE, MADE, false);

const OLD: Turn = (MAKE, THERE, false);

const EMPTY_SHOWN: Turn = (SHOW, Ok((Heard::Shown(0), 30)), false);

const PUT: Wish = Wish::Put("logs", 1_000);

// Call 11 syncs the frame of the first command, call 13 its gate, and call 14 the journal that is opened again.
const STALE: &[Row] = &[
    (&[11], &[J0], &[ADDING, NEW, OLD]),
    (&[13], &[J0], &[ADDING, OLD, OLD]),
    (&[11, 14], &[J0], &[ADDING, OPENING, NEW]),
    (&[13, 14], &[J0], &[ADDING, OPENING, OLD]),
];

// The entry of a put ends 33 bytes after the one before it.
const CLOCKS: &[Row] = &[
    (
        &[],
        &[J0, J0, END, J0],
        &[NEW, EMPTY_SHOWN, (PUT, Ok((ENDED, 30)), false), EMPTY_SHOWN],
    ),
    (
        &[],
        &[END, END, END, END],
        &[
            (MAKE, Ok((ENDED, 10)), false),
            (SHOW, Ok((ENDED, 10)), false),
            (PUT, Ok((ENDED, 10)), false),
            (SHOW, Ok((ENDED, 10)), false),
        ],
    ),
    (
        &[],
        &[J0 + 5, J0, J0, J0],
        &[
            NEW,
            EMPTY_SHOWN,
            (PUT, Ok((Heard::Stored(J0 + 5), 63)), false),
            (SHOW, Ok((Heard::Shown(1), 63)), false),
        ],
    ),
];

// Call 14 would be the first one after the entry of the bucket, and it fails.
const QUERIES: &[Row] = &[(
    &[14],
    &[J0],
    &[
        NEW,
        EMPTY_SHOWN,
        (Wish::Show("data"), Ok((Heard::Missing, 30)), false),
        (PUT, LOST, true),
    ],
)];

fn assert_rows(rt: &impl Abort, alloc: Global, rows: &[Row]) {
    for (number, (failing, numbers, turns)) in rows.iter().enumerate() {
        let disk = disk_with(rt, alloc, EMPTY, *failing);
        turns_taken(rt, alloc, &number, disk, (*numbers, 1 << 20, *turns));
    }
}

const ONCE: Wish = Wish::MakeOnce("t1", "logs");

const OTHER: Wish = Wish::MakeOnce("t1", "data");

const PUT_ONCE: Wish = Wish::PutOnce("t2", "logs", 1_000);

// Answers about the bucket logs and about the put after it. The journal ends at 33 after the bucket's entry with a
// token.
const MADE_ONCE: Said = Ok((Heard::Made, 33));

const REUSED: Said = Ok((Heard::Reused(1), 33));

const STORED_ONCE: Said = Ok((Heard::Stored(J0 + 5), 69));

// A command that is asked again gets the same answer, at any moment before the end of time. An act carries no token.
const TOKENS: &[Row] = &[
    (
        &[],
        &[J0, J0 + 1, J0 + 2, J0 + 3],
        &[
            (ONCE, MADE_ONCE, false),
            (ONCE, MADE_ONCE, false),
            (OTHER, REUSED, false),
            (MAKE, Ok((Heard::There, 33)), false),
        ],
    ),
    (
        &[],
        &[J0, J0 + 5, J0 + 9, J0 + 9, J0 + 9, END],
        &[
            (ONCE, MADE_ONCE, false),
            (PUT_ONCE, STORED_ONCE, false),
            (PUT_ONCE, STORED_ONCE, false),
            (Wish::ActOnce("t1", "logs"), Ok((Heard::Idle, 69)), false),
            (ONCE, Ok((Heard::Made, 69)), false),
            (ONCE, Ok((ENDED, 69)), false),
        ],
    ),
    // A journal without tokens is continued; a refused command keeps no reply.
    (
        &[],
        &[J0, J0, J0, J0],
        &[
            NEW,
            (ONCE, THERE, false),
            (OTHER, Ok((Heard::Made, 53)), false),
            (ONCE, Ok((Heard::Reused(1), 53)), false),
        ],
    ),
    // Call 9 syncs the frame and call 11 its gate; then the command is done, and its reply is kept.
    (
        &[9],
        &[J0, J0, J0],
        &[
            (ONCE, LOST, true),
            (ONCE, MADE_ONCE, false),
            (ONCE, MADE_ONCE, false),
        ],
    ),
    (
        &[11],
        &[J0, J0, J0, J0],
        &[
            (ONCE, LOST, true),
            (ONCE, MADE_ONCE, false),
            (OTHER, REUSED, false),
            (MAKE, Ok((Heard::There, 33)), false),
        ],
    ),
];

// Turns at a limit at which nothing more is added.
const AT_THE_LIMIT: &[Turn] = &[
    (ONCE, MADE_ONCE, false),
    (ONCE, MADE_ONCE, false),
    (OTHER, REUSED, false),
    (MAKE, FULL, false),
    (Wish::MakeOnce("t2", "logs"), FULL, false),
];

// A kept reply needs no room in the journal, even after it is opened again.
#[test]
fn a_kept_reply_is_given_at_the_limit(rt: HostRuntime) {
    let alloc = rt.alloc();
    let disk = disk_with(&rt, alloc, EMPTY, &[]);
    let disk = turns_taken(
        &rt,
        alloc,
        &"full",
        disk,
        (&[J0], 33, &[(ONCE, FULL, false)]),
    );
    let disk = turns_taken(&rt, alloc, &"at the limit", disk, (&[J0], 34, AT_THE_LIMIT));
    let disk = turns_taken(&rt, alloc, &"opened again", disk, (&[J0], 34, AT_THE_LIMIT));
    equal(&rt, &"the file", &kept(&rt, alloc, disk).len(), &34);
}

const DESKS: &[&[Row]] = &[STALE, CLOCKS, QUERIES, TOKENS];

#[test]
fn stale_desks_clocks_and_queries(rt: HostRuntime) {
    for rows in DESKS {
        assert_rows(&rt, rt.alloc(), *rows);
    }
}

// 1,000 bytes for one day, and 2,000 bytes for another.
const USED: Turn = (
    Wish::January("logs"),
    Ok((Heard::Standard(259_200_000_000), 96)),
    false,
);

const METERED: &[Turn] = &[
    (MAKE, MADE, false),
    (Wish::Put("logs", 1_000), Ok((Heard::Stored(J0), 63)), false),
    (
        Wish::Put("logs", 2_000),
        Ok((Heard::Stored(J0 + DAY), 96)),
        false,
    ),
    USED,
];

#[test]
fn meters_are_the_same_after_an_opening(rt: HostRuntime) {
    let alloc = rt.alloc();
    let disk = disk_with(&rt, alloc, EMPTY, &[]);
    let numbers = [J0, J0, J0 + DAY, J0 + 2 * DAY];
    let disk = turns_taken(&rt, alloc, &"metered", disk, (&numbers, 1 << 20, METERED));
    turns_taken(
        &rt,
        alloc,
        &"opened again",
        disk,
        (&[J0 + 2 * DAY], 1 << 20, &[USED]),
    );
}

/// A machine's clock that stands still, or does not answer.
#[derive(Drop)]
struct Stopped {
    at: Option<Duration>,
}

impl SystemTimes for Stopped {
    fn monotonic(&self) -> io::Result<Duration> {
        self.since_1970()
    }

    fn since_1970(&self) -> io::Result<Duration> {
        match self.at {
            Some(at) => Ok(at),
            None => Err(io::Error::from(io::ErrorKind::Unsupported)),
        }
    }
}

fn tell<C: Clock>(clock: &mut C) -> u64 {
    clock.now()
}

// The numbers of a list, and those that its clock gives.
const LISTS: &[(&[u64], [u64; 5])] = &[
    (&[5, 3, 9], [5, 3, 9, 9, 9]),
    (&[7], [7; 5]),
    (&[], [0; 5]),
];

fn assert_told(rt: &impl Abort, alloc: Global, moments: &[u64], told: &[u64]) {
    let mut clock = ListClock::new(moments.to_vec(alloc).expect(rt, "memory"));
    for (index, number) in told.iter().enumerate() {
        equal(rt, &(moments, index), &tell(&mut clock), number);
    }
}

#[test]
fn clocks_tell_milliseconds(rt: HostRuntime) {
    for (moments, told) in LISTS {
        assert_told(&rt, rt.alloc(), *moments, told);
    }
    // 2024-01-01 00:00 UTC and 5,999,999 nanoseconds.
    let at = Some(Duration::new(1_704_067_200, 5_999_999));
    let told = tell(&mut SystemClock::new(Stopped { at }));
    equal(&rt, &"stopped", &told, &(J0 + 5));
    let told = tell(&mut SystemClock::new(Stopped { at: None }));
    equal(&rt, &"no answer", &told, &u64::MAX);
    // The machine's own clock is past that day.
    assert!(rt; J0 < tell(&mut SystemClock::new(rt)));
}
