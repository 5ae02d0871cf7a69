use crate::given::{equal, moment};
use moments::{
    END, Moment, MomentRefusal, Month, due_after, month_of, month_window, print_moment, read_date,
    read_month,
};
use std::process::Abort;

// 1970-01-01, 2024-01-01, 2099-12-31 23:59:59.999, 2100-01-01, and the greatest number of 64 bits; and whether each is
// a moment.
const MOMENTS: [(u64, bool); 5] = [
    (0, true),
    (1_704_067_200_000, true),
    (4_102_444_799_999, true),
    (4_102_444_800_000, false),
    (u64::MAX, false),
];

fn ms_of(ms: u64) -> Result<u64, MomentRefusal> {
    match Moment::of(ms) {
        Ok(moment) => Ok(moment.ms()),
        Err(refusal) => Err(refusal),
    }
}

#[test]
fn moments_end_at_2100(rt: HostRuntime) {
    for (ms, is_moment) in &MOMENTS {
        let wanted = if *is_moment {
            Ok(*ms)
        } else {
            Err(MomentRefusal::PastEnd)
        };
        equal(&rt, ms, &ms_of(*ms), &wanted);
    }
    equal(&rt, &"the last", &Moment::last().ms(), &4_102_444_799_999);
}

// A moment, a number of days, and the midnight that is due then, by the rules' examples.
const DUE: [(u64, u32, Option<u64>); 6] = [
    (1_389_781_800_000, 3, Some(1_390_089_600_000)),
    (1_389_744_000_000, 3, Some(1_390_003_200_000)),
    (1_702_198_800_000, 30, Some(1_704_844_800_000)),
    (4_102_358_399_999, 0, Some(4_102_358_400_000)),
    (4_102_358_400_001, 0, None),
    (0, u32::MAX, None),
];

fn due_ms(from: Moment, days: u32) -> Option<u64> {
    match due_after(from, days) {
        Ok(at) => Some(at.ms()),
        Err(_) => None,
    }
}

#[test]
fn midnights_that_are_due(rt: HostRuntime) {
    for (ms, days, wanted) in &DUE {
        equal(&rt, &(*ms, *days), &due_ms(moment(&rt, *ms), *days), wanted);
    }
}

// A moment, its month and its text, by Python's datetime.
const TEXTS: [(u64, u16, u8, &str); 6] = [
    (0, 1970, 1, "1970-01-01T00:00:00.000Z"),
    (951_782_400_000, 2000, 2, "2000-02-29T00:00:00.000Z"),
    (1_390_089_600_000, 2014, 1, "2014-01-19T00:00:00.000Z"),
    (1_389_781_800_000, 2014, 1, "2014-01-15T10:30:00.000Z"),
    (2_147_483_647_089, 2038, 1, "2038-01-19T03:14:07.089Z"),
    (4_102_444_799_999, 2099, 12, "2099-12-31T23:59:59.999Z"),
];

#[test]
fn months_of_moments(rt: HostRuntime) {
    for (ms, year, month, text) in &TEXTS {
        let found = month_of(moment(&rt, *ms));
        equal(&rt, text, &(found.year(), found.month()), &(*year, *month));
        equal(&rt, text, &Month::of(*year, *month), &Some(found));
    }
}

fn is_printed(rt: &impl Abort, ms: u64, text: &str) -> bool {
    assert!(rt; ms <= END);
    print_moment(ms).as_slice() == text.as_bytes()
}

#[test]
fn texts_of_moments(rt: HostRuntime) {
    for (ms, _, _, text) in &TEXTS {
        assert!(rt; is_printed(&rt, *ms, text), "{text}");
    }
    assert!(rt; is_printed(&rt, END, "2100-01-01T00:00:00.000Z"));
}

#[test]
fn ends_of_months(rt: HostRuntime) {
    let january = Month::of(2024, 1).expect(&rt, "January 2024");
    let window = (1_704_067_200_000, 1_706_745_600_000);
    equal(&rt, &"January 2024", &month_window(january), &window);
    equal(&rt, &"1969-12", &Month::of(1969, 12), &None);
    equal(&rt, &"2100-01", &Month::of(2100, 1), &None);
    equal(&rt, &"2024-00", &Month::of(2024, 0), &None);
}

// Texts, and the midnights that they are read as.
const DATES: [(&str, Result<u64, MomentRefusal>); 29] = [
    ("1970-01-01", Ok(0)),
    ("2014-01-19", Ok(1_390_089_600_000)),
    ("2014-01-19T00:00:00Z", Ok(1_390_089_600_000)),
    ("2014-01-19T00:00:00.000Z", Ok(1_390_089_600_000)),
    ("2024-02-29T00:00:00.000000000+00:00", Ok(1_709_164_800_000)),
    ("2099-12-31T00:00:00-00:00", Ok(4_102_358_400_000)),
    ("2099-12-31T23:59:59Z", Err(MomentRefusal::NotMidnight)),
    (
        "2014-01-19T00:00:00.000000001Z",
        Err(MomentRefusal::NotMidnight),
    ),
    ("2014-01-19T00:01:00+00:00", Err(MomentRefusal::NotMidnight)),
    ("", Err(MomentRefusal::NotADate)),
    ("2014-1-19", Err(MomentRefusal::NotADate)),
    ("20140119", Err(MomentRefusal::NotADate)),
    ("2014-01-19T", Err(MomentRefusal::NotADate)),
    ("2014-01-19T00:00Z", Err(MomentRefusal::NotADate)),
    ("2014-01-19T24:00:00Z", Err(MomentRefusal::NotADate)),
    ("2014-01-19T00:00:60Z", Err(MomentRefusal::NotADate)),
    ("2014-01-19t00:00:00Z", Err(MomentRefusal::NotADate)),
    ("2014-01-19T00:00:00z", Err(MomentRefusal::NotADate)),
    ("2014-01-19T00:00:00+01:00", Err(MomentRefusal::NotADate)),
    ("2014-01-19T00:00:00.Z", Err(MomentRefusal::NotADate)),
    (
        "2014-01-19T00:00:00.0000000000Z",
        Err(MomentRefusal::NotADate),
    ),
    ("2014-01-19T00:00:00", Err(MomentRefusal::NotADate)),
    ("2023-02-29", Err(MomentRefusal::NotADate)),
    ("2014-00-19", Err(MomentRefusal::NotADate)),
    ("2014-04-31", Err(MomentRefusal::NotADate)),
    ("1969-12-31", Err(MomentRefusal::NotADate)),
    ("2100-01-01", Err(MomentRefusal::NotADate)),
    ("2014-01-19 ", Err(MomentRefusal::NotADate)),
    ("２014-01-19", Err(MomentRefusal::NotADate)),
];

fn date_of(text: &str) -> Result<u64, MomentRefusal> {
    match read_date(text) {
        Ok(moment) => Ok(moment.ms()),
        Err(refusal) => Err(refusal),
    }
}

#[test]
fn dates_read(rt: HostRuntime) {
    for (text, wanted) in &DATES {
        equal(&rt, text, &date_of(text), wanted);
    }
}

const NO_MONTHS: [&str; 8] = [
    "",
    "2014",
    "2014-1",
    "2014-13",
    "2014-00",
    "1969-12",
    "2100-01",
    "2014-01-19",
];

#[test]
fn months_read(rt: HostRuntime) {
    equal(
        &rt,
        &"2099-12",
        &read_month("2099-12").ok(),
        &Month::of(2099, 12),
    );
    for text in &NO_MONTHS {
        equal(&rt, text, &read_month(text), &Err(MomentRefusal::NotAMonth));
    }
}
