// Sessions of a desk: asks and answers, and how the session ends.
use crate::parts::equal;
use desk_core::{Acked, Desk, DeskFault, ListClock, SaveFault};
use disk_core::Disk;
use meter_journal::OpenFault;
use office_base::BucketName;
use office_types::{Ask, Command, Query, Refusal, Reply};
use std::alloc::Global;
use std::fmt::Debug;
use std::process::Abort;

// 2024-01-01 00:00 UTC, which the clock gives.
pub const J0: u64 = 1_704_067_200_000;

// What a desk is asked about a bucket with this name.
#[derive(Clone, Copy)]
pub enum Wish {
    Make(&'static str),
    Show(&'static str),
}

// The answer.
#[derive(Clone, Copy, Debug, PartialEq, Eq)]
pub enum Heard {
    Made,
    // The bucket has no versions.
    Empty,
    // There is no such bucket.
    Missing,
    Other,
}

// The answer, and the position of the journal's end.
pub type Said = Result<(Heard, u64), DeskFault>;

// A wish, with the desk's answer and whether it is stale afterwards.
pub type Turn = (Wish, Said, bool);

// How a session ended: the fault if the desk was not opened, or what became of the checkpoint.
#[derive(Clone, Copy, Debug, PartialEq, Eq)]
pub enum Ended {
    Unopened(OpenFault),
    Finished(Result<(), SaveFault>),
}

pub const FINISHED: Ended = Ended::Finished(Ok(()));

fn asked(rt: &impl Abort, alloc: Global, wish: Wish) -> Ask {
    match wish {
        Wish::Make(name) => {
            let bucket = BucketName::read(alloc, name).expect(rt, "a name");
            Ask::Command(Command::CreateBucket { bucket })
        }
        Wish::Show(name) => {
            let bucket = BucketName::read(alloc, name).expect(rt, "a name");
            Ask::Query(Query::Bucket(bucket))
        }
    }
}

fn told_by(reply: &Result<Reply, Refusal>) -> Heard {
    match reply {
        Ok(Reply::BucketMade { .. }) => Heard::Made,
        Ok(Reply::BucketShown { versions: 0, .. }) => Heard::Empty,
        Err(Refusal::NoSuchBucket) => Heard::Missing,
        _ => Heard::Other,
    }
}

fn answer_of(acked: Acked) -> (Heard, u64) {
    let heard = (told_by(acked.reply()), acked.position());
    drop(acked);
    heard
}

// What the desk answers.
fn answer<D: Disk + Drop>(
    rt: &impl Abort,
    alloc: Global,
    desk: &mut Desk<D, ListClock>,
    wish: Wish,
) -> Said {
    let ask = asked(rt, alloc, wish);
    let answer = desk.submit(&ask);
    drop(ask);
    match answer {
        Ok(acked) => Ok(answer_of(acked)),
        Err(fault) => Err(fault),
    }
}

fn assert_turns<D: Disk + Drop>(
    rt: &impl Abort,
    alloc: Global,
    row: &impl Debug,
    desk: &mut Desk<D, ListClock>,
    turns: &[Turn],
) {
    for (index, (wish, said, stale)) in turns.iter().enumerate() {
        let found = answer(rt, alloc, desk, *wish);
        equal(rt, &(row, index), &(found, desk.stale()), &(*said, *stale));
    }
}

// Takes the turns of these lists, and ends the session.
fn taken<D: Disk + Drop>(
    rt: &impl Abort,
    alloc: Global,
    row: &impl Debug,
    mut desk: Desk<D, ListClock>,
    lists: &[&[Turn]],
) -> (D, Ended) {
    for turns in lists {
        assert_turns(rt, alloc, row, &mut desk, *turns);
    }
    let (disk, clock, saved) = desk.finish();
    drop(clock);
    (disk, Ended::Finished(saved))
}

// Opens a desk over a disk, takes the turns of these lists, and ends the session.
pub fn session<D: Disk + Drop>(
    rt: &impl Abort,
    alloc: Global,
    row: &impl Debug,
    disk: D,
    lists: &[&[Turn]],
) -> (D, Ended) {
    let numbers = [J0].to_vec(alloc).expect(rt, "memory");
    match Desk::open(alloc, disk, ListClock::new(numbers), 1 << 45) {
        Ok(desk) => taken(rt, alloc, row, desk, lists),
        Err((fault, disk, clock)) => {
            drop(clock);
            (disk, Ended::Unopened(fault))
        }
    }
}

// The same, if it is saved.
pub fn finished<D: Disk + Drop>(
    rt: &impl Abort,
    alloc: Global,
    row: &impl Debug,
    disk: D,
    lists: &[&[Turn]],
) -> D {
    let (disk, ended) = session(rt, alloc, row, disk, lists);
    equal(rt, row, &ended, &FINISHED);
    disk
}
