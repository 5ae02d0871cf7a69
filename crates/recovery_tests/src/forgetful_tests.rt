// Lost journals: what a desk finds if the disk did not keep what it synced.
use crate::parts::{
    CLOSED, DATA, LENGTH, LOGS, MAKE, MARK, MOMENT, OPEN, equal, equal_bytes, joined,
};
use crate::sessions::{Ended, FINISHED, Heard, J0, Said, Turn, Wish, finished, session};
use desk_core::DeskFault;
use disk_core::{ForgetfulDisk, Loss};
use meter_journal::{OpenFault, create, read_all};
use std::alloc::Global;
use std::process::Abort;

// What a failed sync loses: the bytes from an offset on, or bytes that others replace.
#[derive(Clone, Copy)]
enum Lost {
    Cut(u64),
    Over(u64, &'static [u8]),
}

// A journal with a failed sync. Syncs are counted from 1: five make the file, and one opens it. Each command then has
// two: the first for its frame, whose gate is still closed, and the second for the gate.
#[derive(Clone, Copy)]
struct Row {
    failing: u64,
    lost: Lost,
    // The turns up to the command that fails.
    turns: &'static [Turn],
    // The next turns.
    then: &'static [Turn],
    // How a later session ends.
    again: Ended,
    // The bytes of the journal file, from the fault on.
    left: &'static [&'static [u8]],
}

const MADE: Turn = (Wish::Make("logs"), Ok((Heard::Made, 30)), false);

const FAULT: Said = Err(DeskFault::StoreFault {
    told: Some(J0),
    faults: 1,
});

// The first command fails, or the second one.
const FIRST: &[Turn] = &[(Wish::Make("logs"), FAULT, true)];

const SECOND: &[Turn] = &[MADE, (Wish::Make("data"), FAULT, true)];

// Each of two calls opens the journal again.
const NOT_MADE: &[Turn] = &[
    (
        Wish::Make("rest"),
        Err(DeskFault::Broken(OpenFault::NotMade)),
        true,
    ),
    (
        Wish::Show("logs"),
        Err(DeskFault::Broken(OpenFault::NotMade)),
        true,
    ),
];

const FOREIGN: &[Turn] = &[
    (
        Wish::Make("rest"),
        Err(DeskFault::Broken(OpenFault::Foreign)),
        true,
    ),
    (
        Wish::Show("logs"),
        Err(DeskFault::Broken(OpenFault::Foreign)),
        true,
    ),
];

const AT_LOGS: OpenFault = OpenFault::Damaged { offset: 10 };

const LOGS_DAMAGED: &[Turn] = &[
    (Wish::Make("rest"), Err(DeskFault::Broken(AT_LOGS)), true),
    (Wish::Show("logs"), Err(DeskFault::Broken(AT_LOGS)), true),
];

const AT_DATA: OpenFault = OpenFault::Damaged { offset: 30 };

const DATA_DAMAGED: &[Turn] = &[
    (Wish::Make("rest"), Err(DeskFault::Broken(AT_DATA)), true),
    (Wish::Show("logs"), Err(DeskFault::Broken(AT_DATA)), true),
];

// A shorter history: one without a bucket, whose end gate is at 10, or one with only the bucket logs.
const NO_LOGS: &[Turn] = &[(Wish::Show("logs"), Ok((Heard::Missing, 10)), false)];

const LOGS_ALONE: &[Turn] = &[
    (Wish::Show("logs"), Ok((Heard::Empty, 30)), false),
    (Wish::Show("data"), Ok((Heard::Missing, 30)), false),
];

const ROWS: &[Row] = &[
    // Fewer than 11 bytes.
    Row {
        failing: 7,
        lost: Lost::Cut(0),
        turns: FIRST,
        then: NOT_MADE,
        again: Ended::Unopened(OpenFault::NotMade),
        left: &[],
    },
    Row {
        failing: 7,
        lost: Lost::Cut(10),
        turns: FIRST,
        then: NOT_MADE,
        again: Ended::Unopened(OpenFault::NotMade),
        left: &[OPEN, MARK],
    },
    // More than 11 bytes, and no open gate before the mark; or another mark.
    Row {
        failing: 7,
        lost: Lost::Over(0, CLOSED),
        turns: FIRST,
        then: FOREIGN,
        again: Ended::Unopened(OpenFault::Foreign),
        left: &[CLOSED, MARK, CLOSED, LENGTH, MOMENT, MAKE, LOGS, CLOSED],
    },
    Row {
        failing: 8,
        lost: Lost::Over(1, b"METERJRN2"),
        turns: FIRST,
        then: FOREIGN,
        again: Ended::Unopened(OpenFault::Foreign),
        left: &[OPEN, b"METERJRN2", OPEN, LENGTH, MOMENT, MAKE, LOGS, CLOSED],
    },
    // An open gate without a whole frame and a next gate.
    Row {
        failing: 8,
        lost: Lost::Cut(11),
        turns: FIRST,
        then: LOGS_DAMAGED,
        again: Ended::Unopened(AT_LOGS),
        left: &[OPEN, MARK, OPEN],
    },
    Row {
        failing: 8,
        lost: Lost::Cut(30),
        turns: FIRST,
        then: LOGS_DAMAGED,
        again: Ended::Unopened(AT_LOGS),
        left: &[OPEN, MARK, OPEN, LENGTH, MOMENT, MAKE, LOGS],
    },
    Row {
        failing: 8,
        lost: Lost::Over(11, &[0, 0, 0, 16]),
        turns: FIRST,
        then: LOGS_DAMAGED,
        again: Ended::Unopened(AT_LOGS),
        left: &[OPEN, MARK, OPEN, &[0, 0, 0, 16], MOMENT, MAKE, LOGS, CLOSED],
    },
    Row {
        failing: 10,
        lost: Lost::Cut(31),
        turns: SECOND,
        then: DATA_DAMAGED,
        again: Ended::Unopened(AT_DATA),
        left: &[OPEN, MARK, OPEN, LENGTH, MOMENT, MAKE, LOGS, OPEN],
    },
    // Bytes that are not an entry: a moment past the end of time, or no kind. The second damage is in an acknowledged
    // entry.
    Row {
        failing: 8,
        lost: Lost::Over(15, &[0xFF]),
        turns: FIRST,
        then: LOGS_DAMAGED,
        again: Ended::Unopened(AT_LOGS),
        left: &[
            OPEN,
            MARK,
            OPEN,
            LENGTH,
            &[0xFF, 0, 0x01, 0x8C, 0xC2, 0x51, 0xF4, 0x00],
            MAKE,
            LOGS,
            CLOSED,
        ],
    },
    Row {
        failing: 9,
        lost: Lost::Over(23, &[0]),
        turns: SECOND,
        then: LOGS_DAMAGED,
        again: Ended::Unopened(AT_LOGS),
        left: &[
            OPEN,
            MARK,
            OPEN,
            LENGTH,
            MOMENT,
            &[0],
            LOGS,
            CLOSED,
            LENGTH,
            MOMENT,
            MAKE,
            DATA,
            CLOSED,
        ],
    },
    Row {
        failing: 10,
        lost: Lost::Over(43, &[0]),
        turns: SECOND,
        then: DATA_DAMAGED,
        again: Ended::Unopened(AT_DATA),
        left: &[
            OPEN,
            MARK,
            OPEN,
            LENGTH,
            MOMENT,
            MAKE,
            LOGS,
            OPEN,
            LENGTH,
            MOMENT,
            &[0],
            DATA,
            CLOSED,
        ],
    },
    // An entry whose moment is before the previous entry's, and one that the office does not accept there.
    Row {
        failing: 10,
        lost: Lost::Over(41, &[0xF3]),
        turns: SECOND,
        then: DATA_DAMAGED,
        again: Ended::Unopened(AT_DATA),
        left: &[
            OPEN,
            MARK,
            OPEN,
            LENGTH,
            MOMENT,
            MAKE,
            LOGS,
            OPEN,
            LENGTH,
            &[0, 0, 0x01, 0x8C, 0xC2, 0x51, 0xF3, 0x00],
            MAKE,
            DATA,
            CLOSED,
        ],
    },
    Row {
        failing: 10,
        lost: Lost::Over(44, LOGS),
        turns: SECOND,
        then: DATA_DAMAGED,
        again: Ended::Unopened(AT_DATA),
        left: &[
            OPEN, MARK, OPEN, LENGTH, MOMENT, MAKE, LOGS, OPEN, LENGTH, MOMENT, MAKE, LOGS, CLOSED,
        ],
    },
    // A whole journal with a shorter history, also without the acknowledged bucket.
    Row {
        failing: 7,
        lost: Lost::Cut(11),
        turns: FIRST,
        then: NO_LOGS,
        again: FINISHED,
        left: &[OPEN, MARK, CLOSED],
    },
    Row {
        failing: 9,
        lost: Lost::Cut(31),
        turns: SECOND,
        then: LOGS_ALONE,
        again: FINISHED,
        left: &[OPEN, MARK, OPEN, LENGTH, MOMENT, MAKE, LOGS, CLOSED],
    },
    Row {
        failing: 10,
        lost: Lost::Over(30, CLOSED),
        turns: SECOND,
        then: LOGS_ALONE,
        again: FINISHED,
        left: &[
            OPEN, MARK, OPEN, LENGTH, MOMENT, MAKE, LOGS, CLOSED, LENGTH, MOMENT, MAKE, DATA,
            CLOSED,
        ],
    },
    Row {
        failing: 10,
        lost: Lost::Over(10, CLOSED),
        turns: SECOND,
        then: NO_LOGS,
        again: FINISHED,
        left: &[
            OPEN, MARK, CLOSED, LENGTH, MOMENT, MAKE, LOGS, OPEN, LENGTH, MOMENT, MAKE, DATA,
            CLOSED,
        ],
    },
];

fn loss_of(rt: &impl Abort, alloc: Global, lost: Lost) -> Loss {
    match lost {
        Lost::Cut(to) => Loss::Cut { to },
        Lost::Over(at, bytes) => Loss::Over {
            at,
            bytes: bytes.to_vec(alloc).expect(rt, "memory"),
        },
    }
}

// A disk whose journal is made, and has no entries.
fn disk_of(rt: &impl Abort, alloc: Global, row: &Row) -> ForgetfulDisk {
    let loss = loss_of(rt, alloc, row.lost);
    let mut disk = ForgetfulDisk::new(alloc, row.failing, loss);
    create(&mut disk).expect(rt, "a journal");
    disk
}

fn assert_left(rt: &impl Abort, alloc: Global, index: usize, disk: &mut ForgetfulDisk, row: &Row) {
    let left = joined(rt, alloc, row.left);
    let found = read_all(alloc, disk).expect(rt, "the file");
    equal_bytes(rt, &(index, row.failing), &found, &left);
}

// Checks a session over these turns, and then one over the file that it leaves.
fn assert_row(rt: &impl Abort, alloc: Global, index: usize, row: &Row, lists: &[&[Turn]]) {
    let disk = disk_of(rt, alloc, row);
    let mut disk = finished(rt, alloc, &(index, row.failing), disk, lists);
    assert_left(rt, alloc, index, &mut disk, row);
    let (mut disk, ended) = session(rt, alloc, &(index, row.failing), disk, &[row.then]);
    equal(rt, &(index, row.failing), &ended, &row.again);
    assert_left(rt, alloc, index, &mut disk, row);
}

#[test]
fn a_journal_that_was_lost_is_told_and_left_as_it_is(rt: HostRuntime) {
    for (index, row) in ROWS.iter().enumerate() {
        assert_row(&rt, rt.alloc(), index, row, &[row.turns]);
        assert_row(&rt, rt.alloc(), index, row, &[row.turns, row.then]);
    }
}
