// The parts of files, as docs/FORMATS.md and the README of checkpoint describe them.
use std::alloc::Global;
use std::fmt::Debug;
use std::process::Abort;

// Compares what a row gives with what it expects, and names the row.
pub fn equal<T: PartialEq + Debug>(rt: &impl Abort, row: &impl Debug, found: &T, wanted: &T) {
    assert_eq!(rt; *found, *wanted, "{row:?}");
}

// The same for bytes.
pub fn equal_bytes(rt: &impl Abort, row: &impl Debug, found: &[u8], wanted: &[u8]) {
    assert!(rt; found == wanted, "{row:?}");
}

// A gate of the journal.
pub const OPEN: &[u8] = &[0xA5];

pub const CLOSED: &[u8] = &[0];

pub const MARK: &[u8] = b"METERJRN1";

// The length of an entry that makes a bucket with a name of four letters.
pub const LENGTH: &[u8] = &[0, 0, 0, 15];

// 2024-01-01 00:00 UTC.
pub const MOMENT: &[u8] = &[0, 0, 0x01, 0x8C, 0xC2, 0x51, 0xF4, 0x00];

// The kind of an entry that makes a bucket.
pub const MAKE: &[u8] = &[1];

pub const LOGS: &[u8] = &[0, 4, 0x6C, 0x6F, 0x67, 0x73];

pub const DATA: &[u8] = &[0, 4, 0x64, 0x61, 0x74, 0x61];

pub const REST: &[u8] = &[0, 4, 0x72, 0x65, 0x73, 0x74];

// Puts parts together.
pub fn joined(rt: &impl Abort, alloc: Global, parts: &[&[u8]]) -> Vec<u8> {
    let mut bytes = Vec::new(alloc);
    for part in parts {
        bytes.extend_from_slice(*part).expect(rt, "memory");
    }
    bytes
}
