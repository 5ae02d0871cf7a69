// What a desk answers to queries without a call of its disk.
use crate::parts::{CLOSED, LENGTH, LOGS, MAKE, MARK, MOMENT, OPEN, joined};
use crate::sessions::J0;
use desk_core::{Desk, ListClock};
use disk_core::{Disk, FileNo, MemoryDisk};
use office_base::{BucketName, Key};
use office_types::{Query, Refusal};
use std::alloc::Global;
use std::process::Abort;

// The bucket logs alone.
const JOURNAL: &[&[u8]] = &[OPEN, MARK, OPEN, LENGTH, MOMENT, MAKE, LOGS, CLOSED];

fn opened(rt: &impl Abort, alloc: Global) -> Desk<MemoryDisk, ListClock> {
    let mut disk = MemoryDisk::new(alloc, Vec::new(alloc));
    disk.write_at(FileNo::Journal, 0, &joined(rt, alloc, JOURNAL))
        .expect(rt, "the journal is written");
    match Desk::open(alloc, disk, ListClock::new(Vec::new(alloc)), 1 << 45) {
        Ok(desk) => desk,
        Err(_) => panic!(rt; "not opened"),
    }
}

// The refusal of a query, at the moment of the last command.
fn refusal_of(desk: &Desk<MemoryDisk, ListClock>, query: &Query) -> Option<Refusal> {
    if desk.stale() {
        return None;
    }
    desk.look(J0, query).err()
}

fn bucket(rt: &impl Abort, alloc: Global, name: &str) -> BucketName {
    BucketName::read(alloc, name).expect(rt, "a name")
}

// A query for what is not there.
#[derive(Clone, Copy, Debug)]
enum Sought {
    Bucket,
    Rules,
    Stack,
    Upload,
}

fn query(rt: &impl Abort, alloc: Global, sought: Sought) -> Query {
    let logs = bucket(rt, alloc, "logs");
    match sought {
        Sought::Bucket => Query::Bucket(bucket(rt, alloc, "data")),
        Sought::Rules => Query::Rules(logs),
        Sought::Stack => Query::Stack(logs, Key::read(alloc, b"a").expect(rt, "a key")),
        Sought::Upload => Query::Upload(logs, 1),
    }
}

// Whether the refusal names what is sought.
fn is_about(refusal: &Option<Refusal>, sought: Sought) -> bool {
    match (refusal, sought) {
        (Some(Refusal::NoSuchBucket), Sought::Bucket) => true,
        (Some(Refusal::NoRules), Sought::Rules) => true,
        (Some(Refusal::NoSuchKey), Sought::Stack) => true,
        (Some(Refusal::NoSuchUpload), Sought::Upload) => true,
        _ => false,
    }
}

// Whether a look for this is refused as it should be.
fn is_refused(
    rt: &impl Abort,
    alloc: Global,
    desk: &Desk<MemoryDisk, ListClock>,
    sought: Sought,
) -> bool {
    let query = query(rt, alloc, sought);
    let refusal = refusal_of(desk, &query);
    drop(query);
    let is_so = is_about(&refusal, sought);
    drop(refusal);
    is_so
}

const SOUGHT: [Sought; 4] = [Sought::Bucket, Sought::Rules, Sought::Stack, Sought::Upload];

#[test]
fn a_look_is_refused_for_what_is_not_there(rt: HostRuntime) {
    let alloc = rt.alloc();
    let desk = opened(&rt, alloc);
    for sought in &SOUGHT {
        let is_so = is_refused(&rt, alloc, &desk, *sought);
        assert!(rt; is_so, "{sought:?}");
    }
    drop(desk);
}
