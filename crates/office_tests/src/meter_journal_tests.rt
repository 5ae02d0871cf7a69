ghost use Rattle.std.specs.Prelude.{◌≤◌, ◌^◌, ℕ, List, IsTrue, IfOk, OnOk};
ghost use Rattle.entry_codec.specs.Spelling.{IsEntry};
ghost use Rattle.office_types.specs.declared.command.Entry.{Entry};
ghost use Rattle.meter_journal.specs.History.{IsAtRest};

use crate::given::{bucket, equal, equal_bytes, moment};
use disk_core::{Disk, FileNo, MemoryDisk};
use entry_codec::encode;
use meter_journal::{
    AppendFault, Journal, Made, OpenFault, Window, create, frame_in, measure, read_all,
};
use office_types::{Command, Entry, Token};
use std::alloc::Global;
use std::process::Abort;

const EMPTY: &[u8] = &[
    0xA5, 0x4D, 0x45, 0x54, 0x45, 0x52, 0x4A, 0x52, 0x4E, 0x31, 0,
];

// The same without its gate.
const NO_GATE: &[u8] = &[0xA5, 0x4D, 0x45, 0x54, 0x45, 0x52, 0x4A, 0x52, 0x4E, 0x31];

// The bucket logs, made at 2024-01-01 00:00 UTC.
const ONE: &[u8] = &[
    0xA5, 0x4D, 0x45, 0x54, 0x45, 0x52, 0x4A, 0x52, 0x4E, 0x31, 0xA5, 0, 0, 0, 15, 0, 0, 0x01,
    0x8C, 0xC2, 0x51, 0xF4, 0x00, 0x01, 0, 4, 0x6C, 0x6F, 0x67, 0x73, 0,
];

// The same in blocks of 20 bytes.
const GROWN: &[u8] = &[
    0xA5, 0x4D, 0x45, 0x54, 0x45, 0x52, 0x4A, 0x52, 0x4E, 0x31, 0xA5, 0, 0, 0, 15, 0, 0, 0x01,
    0x8C, 0xC2, 0x51, 0xF4, 0x00, 0x01, 0, 4, 0x6C, 0x6F, 0x67, 0x73, 0, 0, 0, 0, 0, 0, 0, 0, 0, 0,
];

// The same entry twice.
const TWO: &[u8] = &[
    0xA5, 0x4D, 0x45, 0x54, 0x45, 0x52, 0x4A, 0x52, 0x4E, 0x31, 0xA5, 0, 0, 0, 15, 0, 0, 0x01,
    0x8C, 0xC2, 0x51, 0xF4, 0x00, 0x01, 0, 4, 0x6C, 0x6F, 0x67, 0x73, 0xA5, 0, 0, 0, 15, 0, 0,
    0x01, 0x8C, 0xC2, 0x51, 0xF4, 0x00, 0x01, 0, 4, 0x6C, 0x6F, 0x67, 0x73, 0,
];

// The same bucket, made with the token t1.
const ONCE: &[u8] = &[
    0xA5, 0x4D, 0x45, 0x54, 0x45, 0x52, 0x4A, 0x52, 0x4E, 0x31, 0xA5, 0, 0, 0, 18, 0, 0, 0x01,
    0x8C, 0xC2, 0x51, 0xF4, 0x00, 0x81, 2, 0x74, 0x31, 0, 4, 0x6C, 0x6F, 0x67, 0x73, 0,
];

// The entry without a token, and then the one with it.
const BOTH: &[u8] = &[
    0xA5, 0x4D, 0x45, 0x54, 0x45, 0x52, 0x4A, 0x52, 0x4E, 0x31, 0xA5, 0, 0, 0, 15, 0, 0, 0x01,
    0x8C, 0xC2, 0x51, 0xF4, 0x00, 0x01, 0, 4, 0x6C, 0x6F, 0x67, 0x73, 0xA5, 0, 0, 0, 18, 0, 0,
    0x01, 0x8C, 0xC2, 0x51, 0xF4, 0x00, 0x81, 2, 0x74, 0x31, 0, 4, 0x6C, 0x6F, 0x67, 0x73, 0,
];

// A token of no bytes.
const NO_TOKEN: &[u8] = &[
    0xA5, 0x4D, 0x45, 0x54, 0x45, 0x52, 0x4A, 0x52, 0x4E, 0x31, 0xA5, 0, 0, 0, 16, 0, 0, 0x01,
    0x8C, 0xC2, 0x51, 0xF4, 0x00, 0x81, 0, 0, 4, 0x6C, 0x6F, 0x67, 0x73, 0,
];

// The length is one byte greater than what there is.
const LONG: &[u8] = &[
    0xA5, 0x4D, 0x45, 0x54, 0x45, 0x52, 0x4A, 0x52, 0x4E, 0x31, 0xA5, 0, 0, 0, 16, 0, 0, 0x01,
    0x8C, 0xC2, 0x51, 0xF4, 0x00, 0x01, 0, 4, 0x6C, 0x6F, 0x67, 0x73, 0,
];

// The length is 3,000,000,000 bytes.
const HUGE: &[u8] = &[
    0xA5, 0x4D, 0x45, 0x54, 0x45, 0x52, 0x4A, 0x52, 0x4E, 0x31, 0xA5, 0xB2, 0xD0, 0x5E, 0, 0, 0,
    0x01, 0x8C, 0xC2, 0x51, 0xF4, 0x00, 0x01, 0, 4, 0x6C, 0x6F, 0x67, 0x73, 0,
];

const CLOSED: &[u8] = &[
    0x37, 0x4D, 0x45, 0x54, 0x45, 0x52, 0x4A, 0x52, 0x4E, 0x31, 0,
];

const FOREIGN: &[u8] = &[
    0x37, 0x4D, 0x45, 0x54, 0x45, 0x52, 0x4A, 0x52, 0x4E, 0x31, 0, 0,
];

// Opens a journal of at most one entry again, reads it up to its end gate, and returns whether it has the entry.
fn read_again<D: Disk>(alloc: Global, journal: &mut Journal<D>) -> Result<bool, OpenFault>
    ensures { IsTrue D.honest → OnOk result ((head : List ℕ) × (entries : List Entry)
        × IsAtRest head (D.state journal.new.disk) journal.new.gate entries) }
{
    let mut window = Window::new(alloc)?;
    let end = match journal.open(None) {
        Ok(end) => end,
        Err(fault) => return Err(fault),
    };
    let first = match journal.next_in(alloc, end, &mut window) {
        Ok(first) => first,
        Err(fault) => return Err(fault),
    };
    let Some(entry) = first else {
        return Ok(false);
    };
    drop(entry);
    let second = match journal.next_in(alloc, end, &mut window) {
        Ok(second) => second,
        Err(fault) => return Err(fault),
    };
    match second {
        None => Ok(true),
        Some(entry) => {
            drop(entry);
            Err(OpenFault::Damaged { offset: 30 })
        }
    }
}

// A journal without entries, already read.
fn empty_journal<D: Disk + Drop>(
    alloc: Global,
    disk: D,
    limit: u64,
) -> Result<Journal<D>, OpenFault>
    requires { limit ≤ 2 ^ 45 }
    ensures { IsTrue D.honest → IfOk result (λ j. (head : List ℕ) × (entries : List Entry)
        × IsAtRest head (D.state j.disk) j.gate entries) }
{
    let mut journal = Journal::over(disk, limit);
    match read_again(alloc, &mut journal) {
        Ok(false) => Ok(journal),
        Ok(true) => Err(OpenFault::Damaged { offset: 10 }),
        Err(fault) => Err(fault),
    }
}

// The bytes of the entry that makes the bucket logs at 2024-01-01 00:00 UTC.
fn entry_bytes(rt: &impl Abort, alloc: Global) -> Vec<u8>
    ensures { IsEntry result.items }
{
    let bucket = bucket(rt, alloc, "logs");
    let entry = Entry {
        moment: moment(rt, 1_704_067_200_000),
        token: None,
        command: Command::CreateBucket { bucket },
    };
    let bytes = encode(alloc, &entry);
    drop(entry);
    bytes.expect(rt, "an entry")
}

fn file_of(rt: &impl Abort, alloc: Global, bytes: &[u8]) -> MemoryDisk {
    let mut disk = MemoryDisk::new(alloc, Vec::new(alloc));
    disk.write_at(FileNo::Journal, 0, bytes)
        .expect(rt, "the bytes are written");
    disk
}

fn bytes_of(rt: &impl Abort, alloc: Global, disk: &mut MemoryDisk) -> Vec<u8> {
    read_all(alloc, disk).expect(rt, "the file")
}

// Adds the entry to an empty journal with a limit, on a disk with a block, and returns the answer and the file.
fn added(
    rt: &impl Abort,
    alloc: Global,
    block: u64,
    limit: u64,
) -> (Result<u64, AppendFault>, Vec<u8>)
    requires block { block ≤ 4096 }
    requires limit { limit ≤ 2 ^ 45 }
{
    let mut disk = MemoryDisk::with_block(alloc, Vec::new(alloc), block);
    create(&mut disk).expect(rt, "a journal");
    let mut journal = empty_journal(alloc, disk, limit).expect(rt, "no entry");
    let answer = journal.append(&entry_bytes(rt, alloc));
    (answer, bytes_of(rt, alloc, &mut journal.give_back()))
}

// The block and the limit, the answer, and the file afterwards.
const ADDED: &[(u64, u64, Result<u64, AppendFault>, &[u8])] = &[
    (0, 30, Err(AppendFault::JournalFull), EMPTY),
    (0, 31, Ok(30), ONE),
    (20, 40, Ok(30), GROWN),
    // The first gate and the next one are in one block; the file would be longer than the limit.
    (31, 40, Ok(30), ONE),
    (20, 39, Ok(30), ONE),
];

// What opening a file with a limit finds: whether it has an entry, and the journal's end.
fn found_in(
    rt: &impl Abort,
    alloc: Global,
    file: &[u8],
    limit: u64,
) -> (Result<bool, OpenFault>, u64)
    requires { limit ≤ 2 ^ 45 }
{
    let mut journal = Journal::over(file_of(rt, alloc, file), limit);
    let has_entry = read_again(alloc, &mut journal);
    (has_entry, journal.end())
}

#[test]
fn an_entry_is_added_within_the_limit_and_the_file_grows_by_blocks(rt: HostRuntime) {
    let alloc = rt.alloc();
    for (block, limit, answer, file) in ADDED {
        let row = (*block, *limit);
        let (found, kept) = added(&rt, alloc, (*block).min(4_096), (*limit).min(1 << 45));
        equal(&rt, &row, &found, answer);
        equal_bytes(&rt, &row, &kept, *file);
    }
    equal(
        &rt,
        &"grown",
        &found_in(&rt, alloc, GROWN, 40),
        &(Ok(true), 30),
    );
}

// Adds the entry on a disk that fails at a call, opens the journal again, and adds the entry once more. Returns whether
// the first one was there, the answer to the second, and the file.
fn added_again(
    rt: &impl Abort,
    alloc: Global,
    failing: u64,
) -> (bool, Result<u64, AppendFault>, Vec<u8>) {
    let bytes = entry_bytes(rt, alloc);
    let failing = vec![in alloc; failing].expect(rt, "memory");
    let mut disk = MemoryDisk::new(alloc, failing);
    create(&mut disk).expect(rt, "a journal");
    let mut journal = empty_journal(alloc, disk, 51).expect(rt, "no entry");
    let first = journal.append(&bytes);
    equal(
        rt,
        &"the first entry",
        &first,
        &Err(AppendFault::StoreFault),
    );
    let found = read_again(alloc, &mut journal).expect(rt, "the journal is opened again");
    let answer = journal.append(&bytes);
    (found, answer, bytes_of(rt, alloc, &mut journal.give_back()))
}

// The call that fails, whether the entry is there afterwards, the answer to the second, and the file. Of the disk's
// calls, 18 is the first sync of the entry and 20 the second. The gate is opened between them.
const FAILED: &[(u64, bool, Result<u64, AppendFault>, &[u8])] = &[
    (18, false, Ok(30), ONE),
    (20, true, Ok(50), TWO),
];

#[test]
fn a_journal_is_opened_again_after_a_fault(rt: HostRuntime) {
    for (failing, is_there, answer, file) in FAILED {
        let (found, second, kept) = added_again(&rt, rt.alloc(), *failing);
        equal(&rt, failing, &(found, second), &(*is_there, *answer));
        equal_bytes(&rt, failing, &kept, *file);
    }
}

fn is_logs(command: &Command) -> bool {
    match command {
        Command::CreateBucket { bucket } => bucket.text() == "logs",
        _ => false,
    }
}

fn is_t1(token: &Option<Token>) -> bool {
    match token {
        Some(token) => token.bytes() == b"t1".as_slice(),
        None => false,
    }
}

// Whether an entry makes the bucket logs, with or without the token t1.
#[derive(Clone, Copy, Debug, PartialEq, Eq)]
enum Told {
    Logs,
    LogsOnce,
    Other,
}

fn told_by(entry: &Entry) -> Told {
    if !is_logs(&entry.command) {
        return Told::Other;
    }
    if entry.token.is_none() {
        return Told::Logs;
    }
    if is_t1(&entry.token) {
        return Told::LogsOnce;
    }
    Told::Other
}

// The moment of a frame, what its entry does, and the next gate; none if the gate is closed.
type Frame = Result<Option<(u64, Told, u64)>, OpenFault>;

// The same of an entry and the gate after it.
fn frame_of(entry: Entry, next: u64) -> (u64, Told, u64) {
    let frame = (entry.moment.ms(), told_by(&entry), next);
    drop(entry);
    frame
}

// What a file holds at a gate.
fn told_at(rt: &impl Abort, alloc: Global, file: &[u8], gate: u64) -> Frame {
    let mut disk = file_of(rt, alloc, file);
    let mut window = Window::new(alloc).expect(rt, "memory");
    let end = disk.length(FileNo::Journal).expect(rt, "a length");
    match frame_in(alloc, &mut disk, gate, end, &mut window) {
        Ok(Some((entry, next))) => Ok(Some(frame_of(entry, next))),
        Ok(None) => Ok(None),
        Err(fault) => Err(fault),
    }
}

// A file, and its length if it is a journal.
const HEADS: &[(&[u8], Result<u64, OpenFault>)] = &[
    (EMPTY, Ok(11)),
    (NO_GATE, Err(OpenFault::NotMade)),
    (CLOSED, Err(OpenFault::NotMade)),
    (FOREIGN, Err(OpenFault::Foreign)),
];

const DAMAGED: OpenFault = OpenFault::Damaged { offset: 10 };

// A file, a gate, and the frame there.
const FRAMES: &[(&[u8], u64, Frame)] = &[
    (ONE, 10, Ok(Some((1_704_067_200_000, Told::Logs, 30)))),
    (ONE, 30, Ok(None)),
    (ONCE, 10, Ok(Some((1_704_067_200_000, Told::LogsOnce, 33)))),
    (ONCE, 33, Ok(None)),
    (BOTH, 10, Ok(Some((1_704_067_200_000, Told::Logs, 30)))),
    (BOTH, 30, Ok(Some((1_704_067_200_000, Told::LogsOnce, 53)))),
    (BOTH, 53, Ok(None)),
    (NO_TOKEN, 10, Err(DAMAGED)),
    (LONG, 10, Err(DAMAGED)),
    (HUGE, 10, Err(DAMAGED)),
];

fn measured(rt: &impl Abort, alloc: Global, file: &[u8]) -> Result<u64, OpenFault> {
    measure(&mut file_of(rt, alloc, file))
}

// The fault of a file as a journal without entries.
fn fault_of(rt: &impl Abort, alloc: Global, file: &[u8]) -> Option<OpenFault> {
    empty_journal(alloc, file_of(rt, alloc, file), 51).err()
}

#[test]
fn a_file_is_what_its_bytes_say(rt: HostRuntime) {
    let alloc = rt.alloc();
    for (file, head) in HEADS {
        equal(&rt, file, &measured(&rt, alloc, *file), head);
    }
    for (file, gate, frame) in FRAMES {
        let found = told_at(&rt, alloc, *file, *gate);
        equal(&rt, &(*file, *gate), &found, frame);
    }
    for file in &[LONG, HUGE] {
        equal(&rt, file, &fault_of(&rt, alloc, *file), &Some(DAMAGED));
    }
}

// A file, what making it answers, and the file afterwards.
const MADE: &[(&[u8], Result<Made, OpenFault>, &[u8])] = &[
    (CLOSED, Ok(Made::Now), EMPTY),
    (ONE, Ok(Made::Before), ONE),
    (FOREIGN, Err(OpenFault::Foreign), FOREIGN),
];

// What making a file answers, and the file afterwards.
fn made(rt: &impl Abort, alloc: Global, file: &[u8]) -> (Result<Made, OpenFault>, Vec<u8>) {
    let mut disk = file_of(rt, alloc, file);
    let answer = create(&mut disk);
    (answer, bytes_of(rt, alloc, &mut disk))
}

// What making a file answers on a disk that fails at a call, and the disk's faults.
fn not_made(rt: &impl Abort, alloc: Global, failing: u64) -> (Result<Made, OpenFault>, u64) {
    let failing = vec![in alloc; failing].expect(rt, "memory");
    let mut disk = MemoryDisk::new(alloc, failing);
    let answer = create(&mut disk);
    (answer, disk.faults())
}

#[test]
fn a_file_is_made_once(rt: HostRuntime) {
    let alloc = rt.alloc();
    for (file, answer, after) in MADE {
        let (found, kept) = made(&rt, alloc, *file);
        equal(&rt, file, &found, answer);
        equal_bytes(&rt, file, &kept, *after);
    }
    let failed = (Err(OpenFault::StoreFault), 1);
    equal(&rt, &"call 1", &not_made(&rt, alloc, 1), &failed);
}
