// Checkpoints: what the end of a session saves, and what is opened from it.
use crate::parts::equal;
use crate::sessions::{Ended, FINISHED, Heard, Turn, Wish, finished, session};
use checkpoint::load;
use desk_core::SaveFault;
use disk_core::{Disk, FileNo, MemoryDisk};
use meter_journal::OpenFault;
use office_snapshot::Snapshot;
use std::alloc::Global;
use std::collections::BTreeSet;
use std::process::Abort;

const EMPTY: &[u8] = &[
    0xA5, 0x4D, 0x45, 0x54, 0x45, 0x52, 0x4A, 0x52, 0x4E, 0x31, 0,
];

// The bucket logs, made at 2024-01-01 00:00 UTC.
const LOGS: &[u8] = &[
    0xA5, 0x4D, 0x45, 0x54, 0x45, 0x52, 0x4A, 0x52, 0x4E, 0x31, 0xA5, 0, 0, 0, 15, 0, 0, 0x01,
    0x8C, 0xC2, 0x51, 0xF4, 0x00, 0x01, 0, 4, 0x6C, 0x6F, 0x67, 0x73, 0,
];

// The same with another first byte in the entry's moment, which is then past the end of time.
const DAMAGED: &[u8] = &[
    0xA5, 0x4D, 0x45, 0x54, 0x45, 0x52, 0x4A, 0x52, 0x4E, 0x31, 0xA5, 0, 0, 0, 15, 0x37, 0, 0x01,
    0x8C, 0xC2, 0x51, 0xF4, 0x00, 0x01, 0, 4, 0x6C, 0x6F, 0x67, 0x73, 0,
];

// The buckets logs and data, both made at 2024-01-01 00:00 UTC.
const BOTH: &[u8] = &[
    0xA5, 0x4D, 0x45, 0x54, 0x45, 0x52, 0x4A, 0x52, 0x4E, 0x31, 0xA5, 0, 0, 0, 15, 0, 0, 0x01,
    0x8C, 0xC2, 0x51, 0xF4, 0x00, 0x01, 0, 4, 0x6C, 0x6F, 0x67, 0x73, 0xA5, 0, 0, 0, 15, 0, 0,
    0x01, 0x8C, 0xC2, 0x51, 0xF4, 0x00, 0x01, 0, 4, 0x64, 0x61, 0x74, 0x61, 0,
];

const MAKE_LOGS: Turn = (Wish::Make("logs"), Ok((Heard::Made, 30)), false);

const SHOW_LOGS: Turn = (Wish::Show("logs"), Ok((Heard::Empty, 30)), false);

const MAKE_DATA: Turn = (Wish::Make("data"), Ok((Heard::Made, 50)), false);

const MAKE_REST: Turn = (Wish::Make("rest"), Ok((Heard::Made, 70)), false);

// The disk's calls until the first bucket is acknowledged, from the write of the journal file to the sync of the gate
// after its entry.
const ACKNOWLEDGED: u64 = 13;

// The end of that session takes fewer calls.
const LONGEST_END: u64 = 15;

const LAST: u64 = ACKNOWLEDGED + LONGEST_END + 1;

const UNSAVED: Ended = Ended::Finished(Err(SaveFault::StoreFault));

fn write(rt: &impl Abort, disk: &mut MemoryDisk, file: FileNo, bytes: &[u8]) {
    disk.write_at(file, 0, bytes)
        .expect(rt, "the file is written");
}

// A disk with these files. Its calls with these numbers fail.
fn disk_with(
    rt: &impl Abort,
    alloc: Global,
    journal: &[u8],
    first: &[u8],
    second: &[u8],
    failing: &[u64],
) -> MemoryDisk {
    let failing = failing.to_vec(alloc).expect(rt, "memory");
    let mut disk = MemoryDisk::new(alloc, failing);
    write(rt, &mut disk, FileNo::Journal, journal);
    if !first.is_empty() {
        write(rt, &mut disk, FileNo::Slot0, first);
    }
    if !second.is_empty() {
        write(rt, &mut disk, FileNo::Slot1, second);
    }
    disk
}

// A journal without entries, and no slots.
fn new_disk(rt: &impl Abort, alloc: Global, failing: &[u64]) -> MemoryDisk {
    disk_with(rt, alloc, EMPTY, &[], &[], failing)
}

// The gate and the position of a slot; `None` if its file is too short for them.
type Head = Option<(u8, u64)>;

fn head_of(rt: &impl Abort, disk: &mut MemoryDisk, file: FileNo) -> Head {
    let length = disk.length(file).expect(rt, "a length");
    if length < 9 {
        return None;
    }
    let mut gate = [0];
    let mut position = [0; 8];
    disk.read_at(file, 0, &mut gate).expect(rt, "a gate");
    disk.read_at(file, 1, &mut position)
        .expect(rt, "a position");
    Some((gate[0], u64::from_be_bytes(position)))
}

// The number of buckets, and the position, of the checkpoint that is loaded.
type Loaded = Result<Option<(usize, u64)>, SaveFault>;

fn buckets_in(snapshot: Snapshot) -> usize {
    let count = snapshot.buckets.len();
    drop(snapshot);
    count
}

fn loaded(alloc: Global, disk: &mut MemoryDisk) -> Loaded {
    match load(alloc, disk) {
        Ok(Some((snapshot, position))) => Ok(Some((buckets_in(snapshot), position))),
        Ok(None) => Ok(None),
        Err(fault) => Err(fault),
    }
}

// The turns of a session, the heads of both slots after it, and what is then loaded.
const SESSIONS: &[(&[Turn], Head, Head, Loaded)] = &[
    (&[], None, None, Ok(None)),
    (&[MAKE_LOGS], Some((0xA7, 30)), None, Ok(Some((1, 30)))),
    // A session that accepts no command leaves the slots unchanged.
    (&[SHOW_LOGS], Some((0xA7, 30)), None, Ok(Some((1, 30)))),
    // The next sessions save into the slot that is not loaded, with the position of the journal's end.
    (
        &[MAKE_DATA],
        Some((0xA7, 30)),
        Some((0xA7, 50)),
        Ok(Some((2, 50))),
    ),
    (
        &[MAKE_REST],
        Some((0xA7, 70)),
        Some((0xA7, 50)),
        Ok(Some((3, 70))),
    ),
];

fn assert_saved(
    rt: &impl Abort,
    alloc: Global,
    row: usize,
    disk: &mut MemoryDisk,
    heads: (Head, Head),
    checkpoint: &Loaded,
) {
    let first = head_of(rt, disk, FileNo::Slot0);
    let second = head_of(rt, disk, FileNo::Slot1);
    equal(rt, &row, &(first, second), &heads);
    equal(rt, &row, &loaded(alloc, disk), checkpoint);
}

#[test]
fn the_end_of_a_session_saves_a_checkpoint(rt: HostRuntime) {
    let alloc = rt.alloc();
    let mut disk = new_disk(&rt, alloc, &[]);
    for (index, (turns, first, second, checkpoint)) in SESSIONS.iter().enumerate() {
        disk = finished(&rt, alloc, &index, disk, &[*turns]);
        assert_saved(&rt, alloc, index, &mut disk, (*first, *second), checkpoint);
    }
}

// A session that has the bucket, unless the disk fails before it is opened.
fn opened_again(rt: &impl Abort, alloc: Global, failing: &[u64], disk: MemoryDisk) -> MemoryDisk {
    let (disk, ended) = session(rt, alloc, &failing, disk, &[&[SHOW_LOGS]]);
    let refused = Ended::Unopened(OpenFault::StoreFault);
    let is_so = ended == FINISHED || ended == refused;
    equal(rt, &failing, &is_so, &true);
    disk
}

// How a session ends whose disk fails at the calls with these numbers. The office is opened again until those calls are
// past, and has the bucket each time. Then the next session saves what this one may not have saved.
fn end_of(rt: &impl Abort, alloc: Global, failing: &[u64]) -> Ended {
    let disk = new_disk(rt, alloc, failing);
    let (mut disk, end) = session(rt, alloc, &failing, disk, &[&[MAKE_LOGS]]);
    for _ in 0..LONGEST_END {
        disk = opened_again(rt, alloc, failing, disk);
    }
    let mut disk = finished(rt, alloc, &failing, disk, &[&[SHOW_LOGS, MAKE_DATA]]);
    equal(rt, &failing, &loaded(alloc, &mut disk), &Ok(Some((2, 50))));
    drop(disk);
    end
}

// Whether the end fails if this call fails, and also if a later one fails too, or all later ones.
fn end_fails(rt: &impl Abort, alloc: Global, number: u64) -> bool {
    let end = end_of(rt, alloc, &[number]);
    assert!(rt; end == FINISHED || end == UNSAVED, "{end:?}");
    let mut rest = Vec::new(alloc);
    for other in number..LAST {
        let pair = end_of(rt, alloc, &[number, other]);
        equal(rt, &(number, other), &pair, &end);
        rest.push(other).expect(rt, "memory");
    }
    equal(rt, &("from", number), &end_of(rt, alloc, &rest), &end);
    end == UNSAVED
}

// A save in a new slot makes five writes and five syncs.
#[test]
fn an_end_whose_disk_fails_loses_nothing(rt: HostRuntime) {
    let mut failed = 0u64;
    for number in ACKNOWLEDGED + 1..LAST {
        if end_fails(&rt, rt.alloc(), number) {
            failed = failed.saturating_add(1);
        }
    }
    assert!(rt; failed >= 10 && failed < LONGEST_END, "{failed} calls");
}

// The calls of the disk that fail, counted from 1, and what is loaded if there are no slots. The lengths of two files
// are read.
const LOADS: &[(&[u64], Loaded)] = &[
    (&[1], Err(SaveFault::StoreFault)),
    (&[2], Err(SaveFault::StoreFault)),
    (&[3], Ok(None)),
];

fn loaded_at_fault(rt: &impl Abort, alloc: Global, failing: &[u64]) -> Loaded {
    let failing = failing.to_vec(alloc).expect(rt, "memory");
    loaded(alloc, &mut MemoryDisk::new(alloc, failing))
}

#[test]
fn a_load_fails_where_its_disk_does(rt: HostRuntime) {
    for (failing, checkpoint) in LOADS {
        let found = loaded_at_fault(&rt, rt.alloc(), *failing);
        equal(&rt, failing, &found, checkpoint);
    }
}

// The gate of the slot that a session left, the bytes of the journal file, what is loaded, and how a session then ends.
type Opening = (u8, &'static [u8], Loaded, Ended);

const FROM_SLOT: Loaded = Ok(Some((1, 30)));

const OPENINGS: &[Opening] = &[
    (0xA7, LOGS, FROM_SLOT, FINISHED),
    // Any other gate is closed, and the journal is replayed to the same office.
    (0x00, LOGS, Ok(None), FINISHED),
    (0x37, LOGS, Ok(None), FINISHED),
    (0xA5, LOGS, Ok(None), FINISHED),
    (0xA6, LOGS, Ok(None), FINISHED),
    // Damage before the position is found only if the whole journal is read.
    (0xA7, DAMAGED, FROM_SLOT, FINISHED),
    (
        0x37,
        DAMAGED,
        Ok(None),
        Ended::Unopened(OpenFault::Damaged { offset: 10 }),
    ),
];

fn assert_opening(rt: &impl Abort, alloc: Global, row: usize, opening: &Opening) {
    let (gate, journal, checkpoint, how) = opening;
    let disk = new_disk(rt, alloc, &[]);
    let (mut disk, _) = session(rt, alloc, &row, disk, &[&[MAKE_LOGS]]);
    write(rt, &mut disk, FileNo::Slot0, &[*gate]);
    write(rt, &mut disk, FileNo::Journal, *journal);
    equal(rt, &(row, *gate), &loaded(alloc, &mut disk), checkpoint);
    let (disk, ended) = session(rt, alloc, &row, disk, &[&[SHOW_LOGS, MAKE_DATA]]);
    drop(disk);
    equal(rt, &(row, *gate), &ended, how);
}

#[test]
fn an_office_is_opened_from_an_open_slot_alone(rt: HostRuntime) {
    for (index, opening) in OPENINGS.iter().enumerate() {
        assert_opening(&rt, rt.alloc(), index, opening);
    }
}

// Sessions, the last of which saves a checkpoint. Then the disk's calls, from the one that acknowledges the command to
// the last one; the bytes of the journal file afterwards; and what is asked of each image. An image gives the earlier
// checkpoint or the new one.
#[derive(Clone, Copy)]
struct Save {
    sessions: &'static [&'static [Turn]],
    calls: (u64, u64),
    journal: &'static [u8],
    asked: &'static [Turn],
    before: Loaded,
    new: Loaded,
}

const SAVES: &[Save] = &[
    Save {
        sessions: &[&[MAKE_LOGS]],
        calls: (ACKNOWLEDGED, ACKNOWLEDGED + 13),
        journal: LOGS,
        asked: &[SHOW_LOGS],
        before: Ok(None),
        new: FROM_SLOT,
    },
    Save {
        sessions: &[&[MAKE_LOGS], &[MAKE_DATA]],
        // The opening reads the first slot, in 8 calls, and the save reads it once more.
        calls: (ACKNOWLEDGED + 27, ACKNOWLEDGED + 42),
        journal: BOTH,
        asked: &[
            (Wish::Show("logs"), Ok((Heard::Empty, 50)), false),
            (Wish::Show("data"), Ok((Heard::Empty, 50)), false),
        ],
        before: FROM_SLOT,
        new: Ok(Some((2, 50))),
    },
];

// The images of a slot after this many calls, each once.
fn slot_images(
    rt: &impl Abort,
    alloc: Global,
    disk: &MemoryDisk,
    slot: FileNo,
    after: u64,
) -> BTreeSet<Vec<u8>> {
    let mut distinct = BTreeSet::new(alloc);
    for image in disk.images(slot, after).expect(rt, "memory") {
        distinct.insert(image).expect(rt, "memory");
    }
    distinct
}

// Opens the journal with these images of the slots. Returns whether the new checkpoint is loaded.
fn opens_anew(rt: &impl Abort, alloc: Global, save: &Save, first: &[u8], second: &[u8]) -> bool {
    let mut disk = disk_with(rt, alloc, save.journal, first, second, &[]);
    let found = loaded(alloc, &mut disk);
    assert!(rt; found == save.before || found == save.new, "{found:?}");
    drop(finished(rt, alloc, &found, disk, &[save.asked]));
    found == save.new
}

// Checks that the journal has one image after this many calls.
fn assert_journal(rt: &impl Abort, save: &Save, disk: &MemoryDisk, after: u64) {
    for image in &disk.images(FileNo::Journal, after).expect(rt, "memory") {
        assert!(rt; image.as_slice() == save.journal, "after {after} calls");
    }
}

// Opens the journal with each pair of images of the slots after this many calls. Returns from how many pairs the
// earlier checkpoint is loaded, and from how many the new one.
fn stop(rt: &impl Abort, alloc: Global, save: &Save, disk: &MemoryDisk, after: u64) -> (u64, u64) {
    assert_journal(rt, save, disk, after);
    let seconds = slot_images(rt, alloc, disk, FileNo::Slot1, after);
    let mut before = 0u64;
    let mut new = 0u64;
    for first in &slot_images(rt, alloc, disk, FileNo::Slot0, after) {
        for second in &seconds {
            if opens_anew(rt, alloc, save, first.as_slice(), second.as_slice()) {
                new = new.saturating_add(1);
            } else {
                before = before.saturating_add(1);
            }
        }
    }
    (before, new)
}

// The disk after these sessions.
fn disk_after(rt: &impl Abort, alloc: Global, sessions: &[&[Turn]]) -> MemoryDisk {
    let mut disk = new_disk(rt, alloc, &[]);
    for (index, turns) in sessions.iter().enumerate() {
        disk = finished(rt, alloc, &("session", index), disk, &[*turns]);
    }
    disk
}

// Up to the sync of the body, a stop loses the new checkpoint; after the last sync, no stop does. The body has at least
// 71 bytes. While it is written, its images may be cut or filled anywhere.
fn assert_save(rt: &impl Abort, alloc: Global, save: &Save) {
    let disk = disk_after(rt, alloc, save.sessions);
    let (first, last) = save.calls;
    let mut all = 0u64;
    for after in first..last {
        let (before, _) = stop(rt, alloc, save, &disk, after);
        assert!(rt; before > 0, "after {after} calls");
        all = all.saturating_add(before);
    }
    assert!(rt; all > 100, "{all} pairs");
    equal(rt, &last, &stop(rt, alloc, save, &disk, last), &(0, 1));
    equal(rt, &first, &stop(rt, alloc, save, &disk, first), &(1, 0));
}

#[test]
fn each_image_of_a_stopped_end_opens(rt: HostRuntime) {
    for save in SAVES {
        assert_save(&rt, rt.alloc(), save);
    }
}
