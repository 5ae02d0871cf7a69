// Damaged journals, with checkpoints whose positions are before, at and after the damage.
use crate::parts::{CLOSED, DATA, LENGTH, LOGS, MAKE, MARK, MOMENT, OPEN, REST, equal, joined};
use crate::sessions::{Ended, FINISHED, Heard, Turn, Wish, session};
use disk_core::{Disk, FileNo, MemoryDisk};
use meter_journal::OpenFault;
use std::alloc::Global;
use std::fmt::Debug;
use std::process::Abort;

// A part of a file.
type Part = &'static [u8];

// The buckets logs, data and rest, after the gates at 10, 30 and 50; the end gate is at 70.
const JOURNAL: &[Part] = &[
    OPEN, MARK, OPEN, LENGTH, MOMENT, MAKE, LOGS, OPEN, LENGTH, MOMENT, MAKE, DATA, OPEN, LENGTH,
    MOMENT, MAKE, REST, CLOSED,
];

// Parts of a slot: its open gate; the high bytes of a position, and of the length of a body; and the bytes of a body
// between the last moment and the number of buckets (the first open month, no tariffs, no closed months, and high
// bytes).
const OPEN_SLOT: Part = &[0xA7];

const HIGH: Part = &[0; 7];

const BEFORE: Part = &[0x07, 0xE8, 0x01, 0, 0, 0, 0, 0, 0, 0, 0];

// The head of a bucket after its name: its versioning, when its rules were set, no rules, and the next numbers of a
// version and of an upload.
const HEAD: Part = &[
    0, 0, 0, 0x01, 0x8C, 0xC2, 0x51, 0xF4, 0x00, 0, 0, 0, 0, 0, 0, 0, 0, 0, 0, 0, 1, 0, 0, 0, 0, 0,
    0, 0, 1,
];

// The counts of stacks, uploads and months of a bucket; and the count of kept replies.
const COUNTS: Part = &[0; 12];

const NO_REPLIES: Part = &[0; 4];

// No slot, and slots with the positions 30, 50 and 70.
const NONE: &[Part] = &[];

const AT_30: &[Part] = &[
    OPEN_SLOT,
    HIGH,
    &[30],
    HIGH,
    &[71],
    MOMENT,
    BEFORE,
    &[1],
    LOGS,
    HEAD,
    COUNTS,
    NO_REPLIES,
];

const AT_50: &[Part] = &[
    OPEN_SLOT,
    HIGH,
    &[50],
    HIGH,
    &[118],
    MOMENT,
    BEFORE,
    &[2],
    DATA,
    HEAD,
    LOGS,
    HEAD,
    COUNTS,
    COUNTS,
    NO_REPLIES,
];

const AT_70: &[Part] = &[
    OPEN_SLOT,
    HIGH,
    &[70],
    HIGH,
    &[165],
    MOMENT,
    BEFORE,
    &[3],
    DATA,
    HEAD,
    LOGS,
    HEAD,
    REST,
    HEAD,
    COUNTS,
    COUNTS,
    COUNTS,
    NO_REPLIES,
];

// Both slots.
type Slots = (&'static [Part], &'static [Part]);

// How a session ends, and its turns.
type Found = (Ended, &'static [Turn]);

const WHOLE: Found = (
    FINISHED,
    &[
        (Wish::Show("logs"), Ok((Heard::Empty, 70)), false),
        (Wish::Show("data"), Ok((Heard::Empty, 70)), false),
        (Wish::Show("rest"), Ok((Heard::Empty, 70)), false),
    ],
);

// Without the last entry.
const SHORTER: Found = (
    FINISHED,
    &[
        (Wish::Show("logs"), Ok((Heard::Empty, 50)), false),
        (Wish::Show("data"), Ok((Heard::Empty, 50)), false),
        (Wish::Show("rest"), Ok((Heard::Missing, 50)), false),
    ],
);

// With another bucket in place of the last one.
const RENAMED: Found = (
    FINISHED,
    &[
        (Wish::Show("logs"), Ok((Heard::Empty, 70)), false),
        (Wish::Show("data"), Ok((Heard::Empty, 70)), false),
        (Wish::Show("rest"), Ok((Heard::Missing, 70)), false),
    ],
);

const NOT_MADE: Found = (Ended::Unopened(OpenFault::NotMade), &[]);

const FOREIGN: Found = (Ended::Unopened(OpenFault::Foreign), &[]);

const DAMAGED_10: Found = (Ended::Unopened(OpenFault::Damaged { offset: 10 }), &[]);

const DAMAGED_30: Found = (Ended::Unopened(OpenFault::Damaged { offset: 30 }), &[]);

const DAMAGED_50: Found = (Ended::Unopened(OpenFault::Damaged { offset: 50 }), &[]);

const DAMAGED_70: Found = (Ended::Unopened(OpenFault::Damaged { offset: 70 }), &[]);

// Bytes of the journal, from the first to the last, each of which is set to this value; what is then found if the last
// frame is read; and what is found from a checkpoint after it.
type Bytes = (usize, usize, u8, Found, Found);

const BYTES: &[Bytes] = &[
    // The head.
    (0, 9, 0x37, FOREIGN, FOREIGN),
    (0, 9, 0x00, FOREIGN, FOREIGN),
    // The last frame's gate.
    (50, 50, 0x37, SHORTER, WHOLE),
    (50, 50, 0x00, SHORTER, WHOLE),
    // Its length.
    (51, 54, 0x37, DAMAGED_50, WHOLE),
    (51, 53, 0x00, WHOLE, WHOLE),
    (54, 54, 0x00, DAMAGED_50, WHOLE),
    // Its moment: past the end of time, before the previous entry's, or 55 milliseconds later.
    (55, 57, 0x37, DAMAGED_50, WHOLE),
    (55, 56, 0x00, WHOLE, WHOLE),
    (57, 57, 0x00, DAMAGED_50, WHOLE),
    (58, 61, 0x37, DAMAGED_50, WHOLE),
    (58, 61, 0x00, DAMAGED_50, WHOLE),
    (62, 62, 0x37, WHOLE, WHOLE),
    (62, 62, 0x00, WHOLE, WHOLE),
    // Its kind.
    (63, 63, 0x37, DAMAGED_50, WHOLE),
    (63, 63, 0x00, DAMAGED_50, WHOLE),
    // The length of the name, and the name: a digit is allowed in a name, and the byte 00 is not.
    (64, 65, 0x37, DAMAGED_50, WHOLE),
    (64, 64, 0x00, WHOLE, WHOLE),
    (65, 65, 0x00, DAMAGED_50, WHOLE),
    (66, 69, 0x37, RENAMED, WHOLE),
    (66, 69, 0x00, DAMAGED_50, WHOLE),
    // The end gate.
    (70, 70, 0x37, WHOLE, WHOLE),
    (70, 70, 0x00, WHOLE, WHOLE),
];

// Slots before the last frame or at its gate, and after it. The one with the greater position counts.
const BEFORE_IT: &[Slots] = &[(NONE, NONE), (AT_30, NONE), (NONE, AT_50), (AT_30, AT_50)];

const BEHIND_IT: &[Slots] = &[(AT_70, NONE), (AT_70, AT_50), (AT_30, AT_70)];

// Lengths to which the journal is cut, from the first to the last, and what is found with these slots.
const CUTS: &[(Slots, usize, usize, Found)] = &[
    ((NONE, NONE), 0, 10, NOT_MADE),
    ((NONE, NONE), 11, 30, DAMAGED_10),
    ((NONE, NONE), 31, 50, DAMAGED_30),
    ((NONE, NONE), 51, 70, DAMAGED_50),
    ((NONE, NONE), 71, 71, WHOLE),
    ((AT_30, NONE), 0, 10, NOT_MADE),
    ((AT_30, NONE), 11, 50, DAMAGED_30),
    ((AT_30, NONE), 51, 70, DAMAGED_50),
    ((AT_30, NONE), 71, 71, WHOLE),
    ((AT_30, AT_50), 0, 10, NOT_MADE),
    ((AT_30, AT_50), 11, 70, DAMAGED_50),
    ((AT_30, AT_50), 71, 71, WHOLE),
    ((AT_70, AT_50), 0, 10, NOT_MADE),
    ((AT_70, AT_50), 11, 70, DAMAGED_70),
    ((AT_70, AT_50), 71, 71, WHOLE),
];

// A disk with this journal and these slots.
fn disk_of(rt: &impl Abort, alloc: Global, journal: &[u8], slots: &Slots) -> MemoryDisk {
    let (first, second) = (joined(rt, alloc, slots.0), joined(rt, alloc, slots.1));
    let mut disk = MemoryDisk::new(alloc, Vec::new(alloc));
    disk.write_at(FileNo::Journal, 0, journal)
        .expect(rt, "the journal is written");
    disk.write_at(FileNo::Slot0, 0, &first)
        .expect(rt, "the first slot is written");
    disk.write_at(FileNo::Slot1, 0, &second)
        .expect(rt, "the second slot is written");
    disk
}

// Opens this journal with these slots.
fn assert_found(
    rt: &impl Abort,
    alloc: Global,
    row: &impl Debug,
    journal: &[u8],
    slots: &Slots,
    found: &Found,
) {
    let disk = disk_of(rt, alloc, journal, slots);
    let (disk, ended) = session(rt, alloc, row, disk, &[found.1]);
    drop(disk);
    equal(rt, row, &ended, &found.0);
}

// The journal with this byte changed.
fn journal_with(rt: &impl Abort, alloc: Global, at: usize, value: u8) -> Vec<u8> {
    let mut journal = joined(rt, alloc, JOURNAL);
    if let Some(byte) = journal.get_mut(at) {
        *byte = value;
    }
    journal
}

fn assert_byte(rt: &impl Abort, alloc: Global, at: usize, bytes: &Bytes) {
    let (_, _, value, read, unread) = bytes;
    let journal = journal_with(rt, alloc, at, *value);
    for (index, slots) in BEFORE_IT.iter().enumerate() {
        assert_found(rt, alloc, &(at, *value, index), &journal, slots, read);
    }
    for (index, slots) in BEHIND_IT.iter().enumerate() {
        assert_found(rt, alloc, &(at, *value, index), &journal, slots, unread);
    }
}

#[test]
fn a_changed_byte_is_found_where_it_is_read(rt: HostRuntime) {
    for bytes in BYTES {
        for at in bytes.0..=bytes.1 {
            assert_byte(&rt, rt.alloc(), at, bytes);
        }
    }
}

fn cut_journal(rt: &impl Abort, alloc: Global, length: usize) -> Vec<u8> {
    let mut journal = joined(rt, alloc, JOURNAL);
    journal.truncate(length);
    journal
}

#[test]
fn a_journal_that_is_cut_is_damaged_at_the_gate_that_is_read(rt: HostRuntime) {
    let alloc = rt.alloc();
    for (index, (slots, from, to, found)) in CUTS.iter().enumerate() {
        for length in *from..=*to {
            let journal = cut_journal(&rt, alloc, length);
            assert_found(&rt, alloc, &(index, length), &journal, slots, found);
        }
    }
}
