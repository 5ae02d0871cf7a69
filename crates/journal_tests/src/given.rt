// What the tests are given.

use disk_core::{Disk, FileNo, MemoryDisk};
use office_base::{BucketName, Key, Size, Tags};
use office_types::Token;
use std::alloc::Global;
use std::fmt::Debug;
use std::process::Abort;

// Compares what a row gives with what it expects, and names the row.
pub(crate) fn equal<T: PartialEq + Debug>(
    rt: &impl Abort,
    row: &impl Debug,
    found: &T,
    wanted: &T,
) {
    assert_eq!(rt; *found, *wanted, "{row:?}");
}

// The same for bytes.
pub(crate) fn equal_bytes(rt: &impl Abort, row: &impl Debug, found: &[u8], wanted: &[u8]) {
    assert!(rt; found == wanted, "{row:?}");
}

pub(crate) fn bucket(rt: &impl Abort, alloc: Global, name: &str) -> BucketName {
    BucketName::read(alloc, name).expect(rt, "a name")
}

pub(crate) fn key(rt: &impl Abort, alloc: Global, text: &str) -> Key {
    Key::read(alloc, text.as_bytes()).expect(rt, "a key")
}

pub(crate) fn size(rt: &impl Abort, bytes: u64) -> Size {
    Size::of(bytes).expect(rt, "a size")
}

pub(crate) fn no_tags(rt: &impl Abort, alloc: Global) -> Tags {
    Tags::read(alloc, Vec::new(alloc)).expect(rt, "no tags")
}

// The token with these bytes.
pub(crate) fn token(rt: &impl Abort, alloc: Global, text: &str) -> Token {
    let read = Token::read(alloc, text.as_bytes()).expect(rt, "memory");
    read.expect(rt, "a token")
}

// A disk of which these calls fail, with these bytes in its journal file. The write is its first call.
pub(crate) fn disk_with(
    rt: &impl Abort,
    alloc: Global,
    bytes: &[u8],
    failing: &[u64],
) -> MemoryDisk {
    let failing = failing.to_vec(alloc).expect(rt, "memory");
    let mut disk = MemoryDisk::new(alloc, failing);
    disk.write_at(FileNo::Journal, 0, bytes)
        .expect(rt, "the bytes are written");
    disk
}
