ghost use Rattle.std.specs.Prelude.{◌≡◌, ◌+◌, ◌<◌, All, true};
ghost use Rattle.accrual.specs.Books.{Book};
ghost use Rattle.accrual.specs.Sums.{HasAllEnded, IsSmallMonth};
ghost use Rattle.accrual.specs.Totals.{AreTotalsOf, IsBilled};

use crate::given::{DAY, NEW_YEAR, day, equal, moment, month};
use accrual::{Meters, MonthSums};
use class_rules::{Class, Lines, billed};
use moments::{Moment, Month, month_of};
use std::alloc::Global;
use std::process::Abort;

// A stay to book: the class and size of the object, when the stay began, and when it ended.
type Stay = (Class, u64, u64, Option<u64>);

fn lines(rt: &impl Abort, class: Class, size: u64) -> Lines
    ensures { IsBilled result }
{
    assert!(rt; size <= 1_000_000_000);
    let lines = billed(class, size);
    assert!(rt; lines.bytes <= 1_000_100_000 && lines.standard <= 8_192);
    lines
}

// Books a stay from its beginning to its end, if it has one.
fn book(rt: &impl Abort, meters: &mut Meters, stay: Stay)
    requires { (book : Book) × AreTotalsOf meters.old book }
    ensures { (book : Book) × AreTotalsOf meters.new book }
{
    let (class, size, from, to) = stay;
    match to {
        None => book_open(rt, meters, &lines(rt, class, size), moment(rt, from)),
        Some(at) => book_whole(
            rt,
            meters,
            &lines(rt, class, size),
            moment(rt, from),
            moment(rt, at),
        ),
    }
}

fn book_open(rt: &impl Abort, meters: &mut Meters, lines: &Lines, from: Moment)
    requires billed { IsBilled lines.now }
    requires some { (book : Book) × AreTotalsOf meters.old book }
    ensures { (book : Book) × AreTotalsOf meters.new book }
{
    let month = month_of(from);
    meters.reserve(month, month).expect(rt, "memory");
    assert!(rt; meters.booked() < 1_000);
    meters.open(lines, from);
}

#[tactic(auto, using(accrual::proofs::Windows::month_at_order))]
fn book_whole(rt: &impl Abort, meters: &mut Meters, lines: &Lines, from: Moment, at: Moment)
    requires billed { IsBilled lines.now }
    requires some { (book : Book) × AreTotalsOf meters.old book }
    ensures { (book : Book) × AreTotalsOf meters.new book }
{
    assert!(rt; from.ms() <= at.ms());
    meters
        .reserve(month_of(from), month_of(at))
        .expect(rt, "memory");
    assert!(rt; meters.booked() < 1_000);
    meters.open(lines, from);
    meters.end(lines, from, at);
}

// The meters after two stays.
fn after(rt: &impl Abort, alloc: Global, first: Stay, second: Stay) -> Meters
    ensures { (book : Book) × AreTotalsOf result book }
{
    let mut meters = Meters::new(alloc);
    book(rt, &mut meters, first);
    book(rt, &mut meters, second);
    meters
}

// Two stays, the day of January 2024 at whose start they are read, from 0, the month and class, and the value read.
type Reading = ((Stay, Stay), u64, (u16, u8), Class, u128);

fn read_all(rt: &impl Abort, alloc: Global, readings: &[Reading]) {
    for (index, reading) in readings.iter().enumerate() {
        let ((first, second), days, (year, number), class, wanted) = *reading;
        let meters = after(rt, alloc, first, second);
        let t = day(rt, days);
        let read = meters.reading(month(rt, year, number), class, t);
        equal(rt, &index, &read, &wanted);
    }
}

#[test]
fn stays_of_a_month(rt: HostRuntime) {
    let (standard, warm) = (Class::Standard, Class::StandardIa);
    let nothing = (standard, 0, NEW_YEAR, None);
    let days = (
        (standard, 1_000, NEW_YEAR, Some(NEW_YEAR + DAY)),
        (standard, 2_000, NEW_YEAR + DAY, None),
    );
    let glacier = (
        (Class::Glacier, 6_144, NEW_YEAR, Some(NEW_YEAR + DAY)),
        nothing,
    );
    let short = ((standard, 7, NEW_YEAR, Some(NEW_YEAR)), nothing);
    let readings = [
        (days, 2, (2024, 1), standard, 259_200_000_000),
        (days, 2, (2024, 1), warm, 0),
        (days, 2, (2023, 12), standard, 0),
        (days, 2, (2024, 2), standard, 0),
        (glacier, 1, (2024, 1), Class::Glacier, 38_912 * 86_400_000),
        (glacier, 1, (2024, 1), standard, 8_192 * 86_400_000),
        (short, 0, (2024, 1), standard, 0),
    ];
    read_all(&rt, rt.alloc(), &readings);
}

#[test]
fn stays_over_months(rt: HostRuntime) {
    let standard = Class::Standard;
    let nothing = (standard, 0, NEW_YEAR, None);
    // From 2024-01-31 to 2024-03-02, over the leap February.
    let (from, to) = (NEW_YEAR + 30 * DAY, NEW_YEAR + 61 * DAY);
    let ended = ((standard, 1, from, Some(to)), nothing);
    let open = ((standard, 1_000, from, None), nothing);
    let readings = [
        (ended, 61, (2024, 1), standard, 86_400_000),
        (ended, 61, (2024, 2), standard, 2_505_600_000),
        (ended, 61, (2024, 3), standard, 86_400_000),
        (open, 61, (2024, 1), standard, 86_400_000_000),
        (open, 61, (2024, 2), standard, 2_505_600_000_000),
        (open, 61, (2024, 3), standard, 86_400_000_000),
        (open, 61, (2024, 4), standard, 0),
    ];
    read_all(&rt, rt.alloc(), &readings);
}

#[test]
fn a_transition(rt: HostRuntime) {
    let (begun, moved) = (1_702_198_800_000, 1_704_844_800_000);
    let first = (Class::Standard, 1_000_000, begun, Some(moved));
    let second = (Class::StandardIa, 1_000_000, moved, None);
    let meters = after(&rt, rt.alloc(), first, second);
    let january = month(&rt, 2024, 1);
    let t = moment(&rt, 1_705_233_600_000);
    let found = (
        meters.reading(january, Class::Standard, t),
        meters.reading(january, Class::StandardIa, t),
    );
    let wanted = (777_600_000_000_000, 388_800_000_000_000);
    equal(&rt, &"January 2024", &found, &wanted);
}

// The bytes, the days in the class, and the early-deletion quantity in byte-milliseconds.
const EARLY: [(u64, u64, u128); 3] = [
    (131_072, 10, 226_492_416_000_000),
    (131_072, 30, 0),
    (200_000, 10, 345_600_000_000_000),
];

// Meters of bytes that left STANDARD_IA this many days after New Year.
fn left_early(rt: &impl Abort, alloc: Global, bytes: u64, days: u64) -> Meters {
    assert!(rt; bytes <= 1_000_000);
    let mut meters = Meters::new(alloc);
    let (entered, at) = (day(rt, 0), day(rt, days));
    assert!(rt; entered.ms() <= at.ms());
    meters
        .reserve(month_of(at), month_of(at))
        .expect(rt, "memory");
    meters.early(Class::StandardIa, bytes, entered, at);
    meters
}

#[test]
fn early_quantities(rt: HostRuntime) {
    let january = month(&rt, 2024, 1);
    for (bytes, days, wanted) in &EARLY {
        let meters = left_early(&rt, rt.alloc(), *bytes, *days);
        equal(
            &rt,
            days,
            &meters.early_of(january, Class::StandardIa),
            wanted,
        );
        equal(&rt, days, &meters.early_of(january, Class::Standard), &0);
    }
}

// A year, a month and a class, and how many objects moved into the class in that month.
const MOVES: [(u16, u8, Class, u64); 3] = [
    (2024, 1, Class::StandardIa, 1),
    (2024, 1, Class::Standard, 0),
    (2023, 12, Class::StandardIa, 0),
];

#[test]
fn moves(rt: HostRuntime) {
    let at = moment(&rt, 1_704_844_800_000);
    let mut meters = Meters::new(rt.alloc());
    meters
        .reserve(month_of(at), month_of(at))
        .expect(&rt, "memory");
    meters.moved(Class::StandardIa, at);
    for (year, number, class, wanted) in &MOVES {
        let moves = meters.moves_of(month(&rt, *year, *number), *class);
        equal(&rt, &(*year, *number, *class), &moves, wanted);
    }
}

// Whether meters can go on from the sums of this month.
fn is_small(month: &MonthSums) -> bool
    ensures { result ≡ true → IsSmallMonth month.now }
{
    let most = 1u128 << 120;
    month.ended.iter().all(|n| *n < most)
        && month.early.iter().all(|n| *n < most)
        && month.moves.iter().all(|n| *n < 1 << 62)
}

fn are_small(sums: &[MonthSums]) -> bool
    ensures { result ≡ true → All IsSmallMonth sums.now }
{
    for month in sums {
        if !is_small(month) {
            return false;
        }
    }
    true
}

// Meters that go on from the sums of others have the same books, except for stays that have no end.
fn gone_on(rt: &impl Abort, alloc: Global, meters: &Meters) -> Meters
    ensures { (book : Book) → AreTotalsOf meters.now book → HasAllEnded book → AreTotalsOf result book }
{
    let months = meters.sums().expect(rt, "memory");
    let sums = months.as_slice();
    assert!(rt; are_small(sums));
    Meters::from_sums(alloc, sums).expect(rt, "memory")
}

// The sums of a month in which stays ended, and nothing else was booked.
fn ended(rt: &impl Abort, number: u8, ended: [u128; 6]) -> MonthSums {
    MonthSums {
        month: month(rt, 2024, number),
        ended,
        early: [0; 6],
        moves: [0; 6],
    }
}

// A month of 2024, and the byte-milliseconds of the stays that ended, by class.
type Ended = (u8, [u128; 6]);

fn are_ended(rt: &impl Abort, sums: &[MonthSums], wanted: &[Ended]) -> bool {
    for (month, (number, months)) in sums.iter().zip(wanted) {
        if *month != ended(rt, *number, *months) {
            return false;
        }
    }
    sums.len() == wanted.len()
}

const NOTHING: Stay = (Class::Standard, 0, NEW_YEAR, None);

const OPEN: Stay = (Class::Standard, 1_000, NEW_YEAR, None);

// From 2024-01-31 to 2024-03-02, over the leap February.
const OVER: Stay = (
    Class::Standard,
    1,
    NEW_YEAR + 30 * DAY,
    Some(NEW_YEAR + 61 * DAY),
);

const OF_MARCH: Stay = (
    Class::Glacier,
    6_144,
    NEW_YEAR + 60 * DAY,
    Some(NEW_YEAR + 61 * DAY),
);

const NO_TIME: Stay = (Class::Standard, 7, NEW_YEAR, Some(NEW_YEAR));

// Two stays, and the months that are listed for them.
const SUMS: [(Stay, Stay, &[Ended]); 4] = [
    (OPEN, NOTHING, &[]),
    (
        OVER,
        OPEN,
        &[
            (1, [86_400_000, 0, 0, 0, 0, 0]),
            (2, [2_505_600_000, 0, 0, 0, 0, 0]),
            (3, [86_400_000, 0, 0, 0, 0, 0]),
        ],
    ),
    (
        OPEN,
        OF_MARCH,
        &[(3, [8_192 * 86_400_000, 0, 0, 0, 38_912 * 86_400_000, 0])],
    ),
    (NO_TIME, NOTHING, &[]),
];

#[test]
fn sums_of_stays(rt: HostRuntime) {
    for (index, (first, second, wanted)) in SUMS.iter().enumerate() {
        let meters = after(&rt, rt.alloc(), *first, *second);
        let sums = meters.sums().expect(&rt, "memory");
        equal(&rt, &index, &are_ended(&rt, &sums, wanted), &true);
    }
}

// Meters of a stay of STANDARD_IA over February 2024 and one of STANDARD after it. On 2024-03-02 bytes left STANDARD_IA
// ten days early, and an object moved there. Then the meters that go on from them.
fn of_february(rt: &impl Abort, alloc: Global) -> Meters {
    let (from, to) = (NEW_YEAR + 30 * DAY, NEW_YEAR + 61 * DAY);
    let warm = (Class::StandardIa, 131_072, from, Some(to));
    let cold = (Class::Standard, 7, to, Some(to + DAY));
    let mut meters = after(rt, alloc, warm, cold);
    let (entered, at) = (day(rt, 51), day(rt, 61));
    meters
        .reserve(month_of(at), month_of(at))
        .expect(rt, "memory");
    assert!(rt; meters.booked() < 1_000 && entered.ms() <= at.ms());
    meters.early(Class::StandardIa, 131_072, entered, at);
    meters.moved(Class::StandardIa, at);
    gone_on(rt, alloc, &meters)
}

// The month, the class, its byte-milliseconds, its early-deletion quantity, and the moves.
const GONE_ON: [(u8, Class, u128, u128, u64); 5] = [
    (1, Class::StandardIa, 131_072 * 86_400_000, 0, 0),
    (2, Class::StandardIa, 131_072 * 2_505_600_000, 0, 0),
    (
        3,
        Class::StandardIa,
        131_072 * 86_400_000,
        226_492_416_000_000,
        1,
    ),
    (3, Class::Standard, 7 * 86_400_000, 0, 0),
    (4, Class::StandardIa, 0, 0, 0),
];

fn told(meters: &Meters, month: Month, class: Class, t: Moment) -> (u128, u128, u64) {
    (
        meters.reading(month, class, t),
        meters.early_of(month, class),
        meters.moves_of(month, class),
    )
}

#[test]
fn meters_that_go_on(rt: HostRuntime) {
    let again = of_february(&rt, rt.alloc());
    equal(&rt, &"booked", &again.booked(), &0);
    let t = day(&rt, 101);
    for (number, class, used, owed, moves) in &GONE_ON {
        let told = told(&again, month(&rt, 2024, *number), *class, t);
        equal(&rt, &(*number, *class), &told, &(*used, *owed, *moves));
    }
}
