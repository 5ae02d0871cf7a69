// What the tests are given.

use desk_core::{Desk, ListClock};
use disk_core::{Disk, FileNo, MemoryDisk};
use office_base::BucketName;
use std::alloc::Global;
use std::fmt::Debug;
use std::process::Abort;

// Compares what a row gives with what it expects, and names the row.
pub(crate) fn equal<T: PartialEq + Debug>(
    rt: &impl Abort,
    row: &impl Debug,
    found: &T,
    wanted: &T,
) {
    assert_eq!(rt; *found, *wanted, "{row:?}");
}

// The same for bytes.
pub(crate) fn equal_bytes(rt: &impl Abort, row: &impl Debug, found: &[u8], wanted: &[u8]) {
    assert!(rt; found == wanted, "{row:?}");
}

pub(crate) fn bucket(rt: &impl Abort, alloc: Global, name: &str) -> BucketName {
    BucketName::read(alloc, name).expect(rt, "a name")
}

// A disk with the journal without entries.
pub(crate) fn made_disk(rt: &impl Abort, alloc: Global) -> MemoryDisk {
    let mut disk = MemoryDisk::new(alloc, Vec::new(alloc));
    disk.write_at(FileNo::Journal, 0, b"\xA5METERJRN1\x00")
        .expect(rt, "the journal is written");
    disk
}

// A clock that stands at 2024-01-01 00:00 UTC.
pub(crate) fn new_year(rt: &impl Abort, alloc: Global) -> ListClock {
    let numbers = [1_704_067_200_000].to_vec(alloc).expect(rt, "memory");
    ListClock::new(numbers)
}

// A desk over these.
pub(crate) fn made_desk(rt: &impl Abort, alloc: Global) -> Desk<MemoryDisk, ListClock> {
    let (disk, clock) = (made_disk(rt, alloc), new_year(rt, alloc));
    match Desk::open(alloc, disk, clock, 1 << 30) {
        Ok(desk) => desk,
        Err(_) => panic!(rt; "the desk is not opened"),
    }
}
