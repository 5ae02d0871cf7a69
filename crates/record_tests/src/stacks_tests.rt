ghost use Rattle.std.specs.Prelude.{◌≡◌, true};
ghost use Rattle.std.specs.List.{list_any};
ghost use Rattle.stacks.specs.Stacks.{IsFreeNumber, has_id};

use crate::given::{DAY, NEW_YEAR, day, equal, id, size, tags};
use Change::{Mark, Put, Remove};
use Versioning::{Enabled, Suspended, Unversioned};
use class_rules::Class;
use moments::Moment;
use office_base::{Nth, Tags, VersionId};
use stacks::{Kind, Stack, StackRefusal, Version, Versioning};
use std::alloc::Global;
use std::process::Abort;

// What is done to a stack; 0 is the null version.
#[derive(Clone, Copy)]
enum Change {
    Put(Versioning, u64),
    Mark(Versioning, u64),
    Remove(u64),
}

// A version as a table shows it: its number, whether it is a marker, and the days on which it was created and ceased.
type Row = (u64, bool, u64, u64);

fn number(id: VersionId) -> u64 {
    match id {
        VersionId::Null => 0,
        VersionId::Number(number) => number.get(),
    }
}

fn day_of(moment: Moment) -> u64 {
    moment.ms().saturating_sub(NEW_YEAR) / DAY
}

fn row(version: &Version) -> Row {
    let is_marker = match version.kind {
        Kind::Object { .. } => false,
        Kind::Marker => true,
    };
    (
        number(version.id),
        is_marker,
        day_of(version.created),
        day_of(version.ceased),
    )
}

fn has(stack: &Stack, id: VersionId) -> bool
    ensures { result ≡ list_any (has_id id) stack.now.versions }
{
    match stack.version(id) {
        Some(_) => true,
        None => false,
    }
}

fn is_free(versioning: Versioning, number: u64, stack: &Stack) -> bool
    ensures { result ≡ true → IsFreeNumber versioning number stack.now.versions }
{
    match versioning {
        Versioning::Unversioned => true,
        Versioning::Enabled => match Nth::of(number) {
            Some(number) => !has(stack, VersionId::Number(number)),
            None => false,
        },
        Versioning::Suspended => true,
    }
}

fn put(
    rt: &impl Abort,
    stack: &mut Stack,
    versioning: Versioning,
    number: u64,
    tags: Tags,
    at: Moment,
) -> Option<Version> {
    assert!(rt; stack.changed().ms() <= at.ms());
    assert!(rt; is_free(versioning, number, stack));
    stack
        .put(
            versioning,
            number,
            size(rt, 200_000),
            Class::StandardIa,
            tags,
            at,
        )
        .expect(rt, "memory")
}

fn mark(
    rt: &impl Abort,
    stack: &mut Stack,
    versioning: Versioning,
    number: u64,
    at: Moment,
) -> Option<Version> {
    assert!(rt; versioning != Versioning::Unversioned);
    assert!(rt; stack.changed().ms() <= at.ms());
    assert!(rt; is_free(versioning, number, stack));
    stack
        .put_marker(versioning, number, at)
        .expect(rt, "memory")
}

fn remove(
    rt: &impl Abort,
    stack: &mut Stack,
    id: VersionId,
    at: Moment,
) -> Result<Version, StackRefusal> {
    assert!(rt; stack.changed().ms() <= at.ms());
    stack.remove(id, at)
}

// Sets tags, and returns how many there were.
fn set_tags(
    rt: &impl Abort,
    stack: &mut Stack,
    id: VersionId,
    tags: Tags,
    at: Moment,
) -> Result<usize, StackRefusal> {
    assert!(rt; stack.changed().ms() <= at.ms());
    match stack.set_tags(id, tags, at) {
        Ok(before) => Ok(before.pairs().len()),
        Err(refusal) => Err(refusal),
    }
}

fn move_class(
    rt: &impl Abort,
    stack: &mut Stack,
    id: VersionId,
    to: Class,
    at: Moment,
) -> Result<Class, StackRefusal> {
    assert!(rt; stack.changed().ms() <= at.ms());
    stack.move_class(id, to, at)
}

// Does a change on a day, and returns the version that was removed.
fn done(
    rt: &impl Abort,
    alloc: Global,
    stack: &mut Stack,
    change: Change,
    at: Moment,
) -> Option<Version> {
    match change {
        Change::Put(versioning, number) => {
            put(rt, stack, versioning, number, tags(rt, alloc, &[]), at)
        }
        Change::Mark(versioning, number) => mark(rt, stack, versioning, number, at),
        Change::Remove(number) => Some(remove(rt, stack, id(number), at).expect(rt, "a version")),
    }
}

// Does a step on a day, and returns the row of the version that was removed.
fn step(
    rt: &impl Abort,
    alloc: Global,
    stack: &mut Stack,
    change: Change,
    today: u64,
) -> Option<Row> {
    let at = day(rt, today);
    let gone = done(rt, alloc, stack, change, at);
    equal(rt, &today, &stack.changed(), &at);
    match gone {
        Some(version) => Some(row(&version)),
        None => None,
    }
}

fn are(versions: &[Version], rows: &[Row]) -> bool {
    for (version, wanted) in versions.iter().zip(rows) {
        if row(version) != *wanted {
            return false;
        }
    }
    versions.len() == rows.len()
}

// Does the steps day by day, and returns the version that the last one removes.
fn done_daily(rt: &impl Abort, alloc: Global, stack: &mut Stack, steps: &[Change]) -> Option<Row> {
    let mut last = None;
    for (today, next) in steps.iter().enumerate() {
        last = step(rt, alloc, stack, *next, today as u64);
    }
    last
}

// Steps, the version that the last one removes, and the versions that are left.
#[derive(Clone, Copy)]
struct Case {
    steps: &'static [Change],
    gone: Option<Row>,
    rows: &'static [Row],
}

const CASES: [Case; 12] = [
    Case {
        steps: &[Put(Unversioned, 0)],
        gone: None,
        rows: &[(0, false, 0, 0)],
    },
    Case {
        steps: &[Put(Unversioned, 0), Put(Unversioned, 0)],
        gone: Some((0, false, 0, 0)),
        rows: &[(0, false, 1, 1)],
    },
    Case {
        steps: &[Put(Unversioned, 0), Put(Enabled, 1), Put(Suspended, 0)],
        gone: Some((0, false, 0, 1)),
        rows: &[(0, false, 2, 2), (1, false, 1, 2)],
    },
    Case {
        steps: &[
            Put(Unversioned, 0),
            Put(Enabled, 1),
            Put(Suspended, 0),
            Put(Suspended, 0),
        ],
        gone: Some((0, false, 2, 2)),
        rows: &[(0, false, 3, 3), (1, false, 1, 2)],
    },
    Case {
        steps: &[
            Put(Unversioned, 0),
            Put(Enabled, 1),
            Put(Enabled, 2),
            Put(Suspended, 0),
        ],
        gone: Some((0, false, 0, 1)),
        rows: &[(0, false, 3, 3), (2, false, 2, 3), (1, false, 1, 2)],
    },
    Case {
        steps: &[Mark(Enabled, 1)],
        gone: None,
        rows: &[(1, true, 0, 0)],
    },
    Case {
        steps: &[Put(Unversioned, 0), Put(Enabled, 1), Mark(Suspended, 0)],
        gone: Some((0, false, 0, 1)),
        rows: &[(0, true, 2, 2), (1, false, 1, 2)],
    },
    Case {
        steps: &[Mark(Suspended, 0), Mark(Suspended, 0)],
        gone: Some((0, true, 0, 0)),
        rows: &[(0, true, 1, 1)],
    },
    Case {
        steps: &[Put(Enabled, 1), Put(Enabled, 2), Remove(2)],
        gone: Some((2, false, 1, 1)),
        rows: &[(1, false, 0, 1)],
    },
    Case {
        steps: &[Put(Enabled, 1), Put(Enabled, 2), Remove(2), Put(Enabled, 3)],
        gone: None,
        rows: &[(3, false, 3, 3), (1, false, 0, 3)],
    },
    Case {
        steps: &[Put(Enabled, 1), Put(Enabled, 2), Put(Enabled, 3), Remove(2)],
        gone: Some((2, false, 1, 2)),
        rows: &[(3, false, 2, 2), (1, false, 0, 1)],
    },
    Case {
        steps: &[Mark(Enabled, 7), Remove(7)],
        gone: Some((7, true, 0, 0)),
        rows: &[],
    },
];

#[test]
fn stacks_after_steps(rt: HostRuntime) {
    for (index, case) in CASES.iter().enumerate() {
        let mut stack = Stack::new(rt.alloc(), day(&rt, 0));
        let gone = done_daily(&rt, rt.alloc(), &mut stack, case.steps);
        equal(&rt, &index, &gone, &case.gone);
        equal(&rt, &index, &are(stack.versions(), case.rows), &true);
    }
}

// A stack of one delete marker, version 1, of day 1.
fn of_marker(rt: &impl Abort, alloc: Global) -> Stack {
    let mut stack = Stack::new(alloc, day(rt, 0));
    let _ = step(rt, alloc, &mut stack, Mark(Enabled, 1), 1);
    stack
}

// A change that is refused.
#[derive(Clone, Copy)]
enum Refused {
    Remove(u64),
    Tags(u64),
    Move(u64),
}

fn refusal(
    rt: &impl Abort,
    alloc: Global,
    stack: &mut Stack,
    change: Refused,
    at: Moment,
) -> Option<StackRefusal> {
    match change {
        Refused::Remove(number) => remove(rt, stack, id(number), at).err(),
        Refused::Tags(number) => set_tags(rt, stack, id(number), tags(rt, alloc, &[]), at).err(),
        Refused::Move(number) => move_class(rt, stack, id(number), Class::Glacier, at).err(),
    }
}

const REFUSED: [(Refused, StackRefusal); 4] = [
    (Refused::Remove(0), StackRefusal::NoSuchVersion),
    (Refused::Tags(0), StackRefusal::NoSuchVersion),
    (Refused::Tags(1), StackRefusal::IsMarker),
    (Refused::Move(1), StackRefusal::IsMarker),
];

#[test]
fn refused_changes(rt: HostRuntime) {
    let mut stack = of_marker(&rt, rt.alloc());
    for (index, (change, wanted)) in REFUSED.iter().enumerate() {
        let refusal = refusal(&rt, rt.alloc(), &mut stack, *change, day(&rt, 2));
        equal(&rt, &index, &refusal, &Some(*wanted));
    }
    equal(&rt, &"changed", &stack.changed(), &day(&rt, 1));
}

// How many tags a version has, its class, and the moment at which it entered the class; none for a marker.
fn told(version: &Version) -> Option<(usize, Class, u64)> {
    match &version.kind {
        Kind::Object {
            class,
            tags,
            entered,
            ..
        } => { Some((tags.pairs().len(), *class, entered.ms())) }
        Kind::Marker => None,
    }
}

// Versions that were put one a day, from version 1 on day 1 on.
fn of_days(rt: &impl Abort, alloc: Global, days: u64) -> Stack {
    let mut stack = Stack::new(alloc, day(rt, 0));
    for before in 0..days {
        let number = before + 1;
        let _ = step(rt, alloc, &mut stack, Put(Enabled, number), number);
    }
    stack
}

const CHANGED: [(usize, Class, u64); 3] = [
    (0, Class::StandardIa, NEW_YEAR + 3 * DAY),
    (1, Class::StandardIa, NEW_YEAR + 2 * DAY),
    (0, Class::Glacier, NEW_YEAR + 9 * DAY),
];

fn are_told(versions: &[Version], wanted: &[(usize, Class, u64)]) -> bool {
    for (version, wanted) in versions.iter().zip(wanted) {
        if told(version) != Some(*wanted) {
            return false;
        }
    }
    versions.len() == wanted.len()
}

// Three versions. On day 9 one gets a tag, and another one moves to another class.
fn with_changes(rt: &impl Abort, alloc: Global) -> Stack {
    let mut stack = of_days(rt, alloc, 3);
    let one = tags(rt, alloc, &[("kind", "raw")]);
    let before = set_tags(rt, &mut stack, id(2), one, day(rt, 9));
    equal(rt, &"tags", &before, &Ok(0));
    let before = move_class(rt, &mut stack, id(1), Class::Glacier, day(rt, 9));
    equal(rt, &"class", &before, &Ok(Class::StandardIa));
    stack
}

#[test]
fn tags_and_classes(rt: HostRuntime) {
    let stack = with_changes(&rt, rt.alloc());
    equal(&rt, &"changed", &stack.changed(), &day(&rt, 9));
    assert!(rt; are_told(stack.versions(), &CHANGED));
}

// Whether the numbers of versions fall by one, beginning with this one.
fn are_falling(versions: &[Version], from: u64) -> bool {
    let mut wanted = from;
    for version in versions {
        if number(version.id) != wanted {
            return false;
        }
        wanted = wanted.saturating_sub(1);
    }
    true
}

#[test]
fn many_versions(rt: HostRuntime) {
    let stack = of_days(&rt, rt.alloc(), 300);
    let copy = stack.copy().expect(&rt, "memory");
    let counts = (stack.versions().len(), copy.versions().len());
    equal(&rt, &"counts", &counts, &(300, 300));
    assert!(rt; are_falling(stack.versions(), 300));
}

#[test]
fn many_removals(rt: HostRuntime) {
    let mut stack = of_days(&rt, rt.alloc(), 300);
    for oldest in 1..300 {
        let gone = step(&rt, rt.alloc(), &mut stack, Remove(oldest), 400);
        equal(
            &rt,
            &oldest,
            &gone,
            &Some((oldest, false, oldest, oldest + 1)),
        );
    }
    equal(&rt, &"left", &stack.versions().len(), &1);
}

fn marker(number: u64, created: Moment, ceased: Moment) -> Version {
    Version {
        id: id(number),
        kind: Kind::Marker,
        created,
        ceased,
    }
}

fn markers(rt: &impl Abort, alloc: Global, numbers: &[u64]) -> Vec<Version> {
    let mut versions = Vec::new(alloc);
    for number in numbers {
        let marker = marker(*number, day(rt, 1), day(rt, 1));
        versions.push(marker).expect(rt, "memory");
    }
    versions
}

// The numbers of markers of one day, and whether they make a stack.
const NUMBERS: [([u64; 3], bool); 5] = [
    ([4, 0, 2], true),
    ([2, 4, 3], true),
    ([0, 4, 0], false),
    ([4, 2, 4], false),
    ([5, 5, 1], false),
];

#[test]
fn stacks_of_markers(rt: HostRuntime) {
    for (numbers, is_some) in &NUMBERS {
        let stack = Stack::of(day(&rt, 1), markers(&rt, rt.alloc(), numbers));
        let stack = stack.expect(&rt, "memory");
        equal(&rt, numbers, &stack.is_some(), is_some);
    }
}

// The days on which a marker was created and ceased, the day of the stack's last change, and whether it is a valid
// stack.
const DAYS: [(u64, u64, u64, bool); 3] = [(1, 2, 2, true), (1, 2, 1, false), (2, 1, 1, false)];

#[test]
fn stacks_of_a_marker(rt: HostRuntime) {
    for (created, ceased, changed, is_some) in &DAYS {
        let marker = marker(1, day(&rt, *created), day(&rt, *ceased));
        let versions = vec![in rt.alloc(); marker].expect(&rt, "memory");
        let stack = Stack::of(day(&rt, *changed), versions).expect(&rt, "memory");
        equal(
            &rt,
            &(*created, *ceased, *changed),
            &stack.is_some(),
            is_some,
        );
    }
}

// An object that entered its class the day before it was created.
fn early(rt: &impl Abort, alloc: Global) -> Version {
    let later = day(rt, 2);
    let mut early = marker(1, later, later);
    early.kind = Kind::Object {
        size: size(rt, 1),
        class: Class::Standard,
        tags: tags(rt, alloc, &[]),
        entered: day(rt, 1),
    };
    early
}

#[test]
fn no_stack_of_an_early_object(rt: HostRuntime) {
    let versions = vec![in rt.alloc(); early(&rt, rt.alloc())].expect(&rt, "memory");
    let stack = Stack::of(day(&rt, 2), versions).expect(&rt, "memory");
    assert!(rt; stack.is_none());
}

#[test]
fn no_stack_of_one_early_object(rt: HostRuntime) {
    let stack = Stack::of_one(rt.alloc(), day(&rt, 2), early(&rt, rt.alloc()));
    assert!(rt; stack.expect(&rt, "memory").is_none());
}
