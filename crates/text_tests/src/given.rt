// What the tests are given.

use moments::{Moment, Month};
use office_base::{BucketName, Key, Nth, Size, Tags, VersionId};
use std::alloc::Global;
use std::fmt::Debug;
use std::process::Abort;

// Compares what a row gives with what it expects. Each `assert_eq!` of a test's own costs its proof some seconds, a call of
// this a fifth of that.
pub(crate) fn equal<T: PartialEq + Debug>(
    rt: &impl Abort,
    row: &impl Debug,
    found: &T,
    wanted: &T,
) {
    assert_eq!(rt; *found, *wanted, "{row:?}");
}

// The same for texts.
pub(crate) fn equal_text(rt: &impl Abort, row: &impl Debug, found: &str, wanted: &str) {
    assert!(rt; found == wanted, "{row:?}: {found}");
}

pub(crate) fn moment(rt: &impl Abort, ms: u64) -> Moment {
    Moment::of(ms).expect(rt, "a moment")
}

pub(crate) fn month(rt: &impl Abort, year: u16, number: u8) -> Month {
    Month::of(year, number).expect(rt, "a month")
}

// 0 is the null version.
pub(crate) fn id(number: u64) -> VersionId {
    match Nth::of(number) {
        Some(number) => VersionId::Number(number),
        None => VersionId::Null,
    }
}

pub(crate) fn size(rt: &impl Abort, bytes: u64) -> Size {
    Size::of(bytes).expect(rt, "a size")
}

pub(crate) fn name(rt: &impl Abort, alloc: Global, text: &str) -> BucketName {
    BucketName::read(alloc, text).expect(rt, "a name")
}

pub(crate) fn key(rt: &impl Abort, alloc: Global, bytes: &[u8]) -> Key {
    Key::read(alloc, bytes).expect(rt, "a key")
}

pub(crate) fn text(rt: &impl Abort, alloc: Global, text: &str) -> String {
    String::from_str(alloc, text).expect(rt, "memory")
}

// These texts, one after the other.
pub(crate) fn joined(rt: &impl Abort, alloc: Global, parts: &[&str]) -> String {
    let mut text = String::new(alloc);
    for part in parts {
        text.push_str(part).expect(rt, "memory");
    }
    text
}

// A number as digits.
pub(crate) fn digits(rt: &impl Abort, alloc: Global, number: u64) -> String {
    format!(in alloc; "{number}").expect(rt, "memory")
}

pub(crate) fn tags(rt: &impl Abort, alloc: Global, given: &[(&str, &str)]) -> Tags {
    let mut pairs = Vec::new(alloc);
    for (key, value) in given {
        let pair = (text(rt, alloc, key), text(rt, alloc, value));
        pairs.push(pair).expect(rt, "memory");
    }
    Tags::read(alloc, pairs).expect(rt, "tags")
}
