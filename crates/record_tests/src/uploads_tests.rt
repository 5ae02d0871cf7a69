use crate::given::{day, equal, key, tags};
use class_rules::Class;
use moments::Moment;
use std::alloc::Global;
use std::collections::BTreeMap;
use std::process::Abort;
use uploads::{Part, Upload, UploadRefusal};

const GIB: u64 = 1_073_741_824;

fn start(rt: &impl Abort, alloc: Global) -> Upload {
    let (key, tags) = (key(rt, alloc, b"big"), tags(rt, alloc, &[]));
    Upload::start(alloc, key, Class::Glacier, tags, day(rt, 0))
}

// Puts a part on a day, and gives the size of the replaced part or the refusal.
fn put(
    rt: &impl Abort,
    upload: &mut Upload,
    number: u32,
    size: u64,
    today: u64,
) -> Result<Option<u64>, UploadRefusal> {
    let at = day(rt, today);
    assert!(rt; upload.changed().ms() <= at.ms());
    match upload.put_part(number, size, at) {
        Ok(Some(part)) => Ok(Some(part.size)),
        Ok(None) => Ok(None),
        Err(refusal) => Err(refusal),
    }
}

// Parts in turn: number, size and day, the size of the replaced part or the refusal, and the sum of the parts then.
type Case = (u32, u64, u64, Result<Option<u64>, UploadRefusal>, u64);

const CASES: [Case; 8] = [
    (1, 1_000, 1, Ok(None), 1_000),
    (1, 1_001, 2, Ok(Some(1_000)), 1_001),
    (10_000, 5_368_709_120, 3, Ok(None), 5_368_710_121),
    (10_001, 1, 4, Err(UploadRefusal::BadPart), 5_368_710_121),
    (0, 1, 5, Err(UploadRefusal::BadPart), 5_368_710_121),
    (
        2,
        5_368_709_121,
        6,
        Err(UploadRefusal::BadPart),
        5_368_710_121,
    ),
    (2, 0, 7, Ok(None), 5_368_710_121),
    (10_000, 7, 8, Ok(Some(5_368_709_120)), 1_008),
];

fn whole(upload: &Upload) -> Result<u64, UploadRefusal> {
    match upload.whole() {
        Ok(size) => Ok(size.bytes()),
        Err(refusal) => Err(refusal),
    }
}

fn put_all(rt: &impl Abort, upload: &mut Upload, cases: &[Case]) {
    for (number, size, today, wanted, sum) in cases {
        let told = (put(rt, upload, *number, *size, *today), whole(upload));
        equal(rt, today, &told, &(*wanted, Ok(*sum)));
    }
}

#[test]
fn parts_in_turn(rt: HostRuntime) {
    let mut upload = start(&rt, rt.alloc());
    put_all(&rt, &mut upload, &CASES);
    equal(&rt, &"parts", &upload.parts().len(), &3);
}

#[test]
fn no_parts(rt: HostRuntime) {
    let upload = start(&rt, rt.alloc());
    let none = Err(UploadRefusal::NoParts);
    equal(&rt, &"no parts", &whole(&upload), &none);
}

// What a copy of an upload tells: its last change, its start, its class, and how many tags and parts it has.
fn told_by_copy(rt: &impl Abort, upload: &Upload) -> (Moment, Moment, Class, usize, usize) {
    let copy = upload.copy().expect(rt, "memory");
    assert!(rt; copy.key().bytes() == b"big".as_slice());
    (
        copy.changed(),
        copy.started(),
        copy.class(),
        copy.tags().pairs().len(),
        copy.parts().len(),
    )
}

#[test]
fn what_an_upload_tells(rt: HostRuntime) {
    let mut upload = start(&rt, rt.alloc());
    let _ = put(&rt, &mut upload, 1, 1, 8);
    let wanted = (day(&rt, 8), day(&rt, 0), Class::Glacier, 0, 1);
    equal(&rt, &"a copy", &told_by_copy(&rt, &upload), &wanted);
}

// An upload of 1,024 parts of 5 GiB.
fn largest(rt: &impl Abort, alloc: Global) -> Upload {
    let mut upload = start(rt, alloc);
    for number in 1..1_025 {
        let before = put(rt, &mut upload, number, 5 * GIB, 1);
        equal(rt, &number, &before, &Ok(None));
    }
    upload
}

// What is put after that.
const MORE: [Case; 4] = [
    (1_025, 1, 2, Err(UploadRefusal::BadPart), 5_120 * GIB),
    (1_025, 0, 2, Ok(None), 5_120 * GIB),
    (1, 5 * GIB - 1, 3, Ok(Some(5 * GIB)), 5_120 * GIB - 1),
    (1_025, 1, 4, Ok(Some(0)), 5_120 * GIB),
];

#[test]
fn parts_up_to_the_largest_object(rt: HostRuntime) {
    let mut upload = largest(&rt, rt.alloc());
    equal(&rt, &"whole", &whole(&upload), &Ok(5_120 * GIB));
    put_all(&rt, &mut upload, &MORE);
}

// A part: its number and size, the days of the upload's start, of the part and of the last change; and whether they
// make an upload.
const PARTS: [(u32, u64, u64, u64, u64, bool); 7] = [
    (1, 1, 0, 1, 1, true),
    (10_000, 5_368_709_120, 0, 1, 1, true),
    (0, 1, 0, 1, 1, false),
    (10_001, 1, 0, 1, 1, false),
    (1, 5_368_709_121, 0, 1, 1, false),
    (1, 1, 2, 1, 1, false),
    (1, 1, 0, 2, 1, false),
];

fn one_part(
    rt: &impl Abort,
    alloc: Global,
    number: u32,
    size: u64,
    put: u64,
) -> BTreeMap<u32, Part> {
    let mut parts = BTreeMap::new(alloc);
    let part = Part {
        size,
        put: day(rt, put),
    };
    let before: Result<_, _> = parts.insert(number, part);
    assert!(rt; before.is_ok());
    parts
}

#[test]
fn uploads_of_parts(rt: HostRuntime) {
    for (index, (number, size, started, put, changed, is_some)) in PARTS.iter().enumerate() {
        let alloc = rt.alloc();
        let upload = Upload::of(
            key(&rt, alloc, b"big"),
            Class::Standard,
            tags(&rt, alloc, &[]),
            day(&rt, *started),
            day(&rt, *changed),
            one_part(&rt, alloc, *number, *size, *put),
        );
        equal(&rt, &index, &upload.is_some(), is_some);
    }
}
