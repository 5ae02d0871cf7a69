// What the tests are given.

use moments::Moment;
use office_base::BucketName;
use std::alloc::Global;
use std::fmt::Debug;
use std::process::Abort;

// Compares what a row gives with what it expects, and names the row.
pub(crate) fn equal<T: PartialEq + Debug>(
    rt: &impl Abort,
    row: &impl Debug,
    found: &T,
    wanted: &T,
) {
    assert_eq!(rt; *found, *wanted, "{row:?}");
}

// The same for bytes.
pub(crate) fn equal_bytes(rt: &impl Abort, row: &impl Debug, found: &[u8], wanted: &[u8]) {
    assert!(rt; found == wanted, "{row:?}");
}

pub(crate) fn moment(rt: &impl Abort, ms: u64) -> Moment {
    Moment::of(ms).expect(rt, "a moment")
}

pub(crate) fn bucket(rt: &impl Abort, alloc: Global, name: &str) -> BucketName {
    BucketName::read(alloc, name).expect(rt, "a name")
}
