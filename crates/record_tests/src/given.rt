// What the tests are given.

use moments::{Moment, Month};
use office_base::{Key, Nth, Size, Tags, VersionId};
use std::alloc::Global;
use std::fmt::Debug;
use std::process::Abort;

// Compares what a row gives with what it expects. Each `assert_eq!` of a test's own costs its proof some seconds, a call of
// this a fifth of that.
pub(crate) fn equal<T: PartialEq + Debug>(
    rt: &impl Abort,
    row: &impl Debug,
    found: &T,
    wanted: &T,
) {
    assert_eq!(rt; *found, *wanted, "{row:?}");
}

pub(crate) fn moment(rt: &impl Abort, ms: u64) -> Moment {
    Moment::of(ms).expect(rt, "a moment")
}

// 2024-01-01 00:00 UTC, and the milliseconds of a day.
pub(crate) const NEW_YEAR: u64 = 1_704_067_200_000;

pub(crate) const DAY: u64 = 86_400_000;

// The start of a day from New Year 2024 on, which is day 0.
pub(crate) fn day(rt: &impl Abort, number: u64) -> Moment {
    assert!(rt; number < 10_000);
    moment(rt, NEW_YEAR + number * DAY)
}

pub(crate) fn month(rt: &impl Abort, year: u16, number: u8) -> Month {
    Month::of(year, number).expect(rt, "a month")
}

// 0 is the null version.
pub(crate) fn id(number: u64) -> VersionId {
    match Nth::of(number) {
        Some(number) => VersionId::Number(number),
        None => VersionId::Null,
    }
}

pub(crate) fn size(rt: &impl Abort, bytes: u64) -> Size {
    Size::of(bytes).expect(rt, "a size")
}

pub(crate) fn key(rt: &impl Abort, alloc: Global, bytes: &[u8]) -> Key {
    Key::read(alloc, bytes).expect(rt, "a key")
}

pub(crate) fn text(rt: &impl Abort, alloc: Global, text: &str) -> String {
    String::from_str(alloc, text).expect(rt, "memory")
}

pub(crate) type Pair = (&'static str, &'static str);

pub(crate) fn pairs(rt: &impl Abort, alloc: Global, given: &[Pair]) -> Vec<(String, String)> {
    let mut pairs = Vec::new(alloc);
    for (key, value) in given {
        let pair = (text(rt, alloc, key), text(rt, alloc, value));
        pairs.push(pair).expect(rt, "memory");
    }
    pairs
}

pub(crate) fn tags(rt: &impl Abort, alloc: Global, given: &[Pair]) -> Tags {
    Tags::read(alloc, pairs(rt, alloc, given)).expect(rt, "tags")
}
