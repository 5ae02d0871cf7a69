// Two passes on one office, each in a thread of its own.
ghost use Rattle.std.specs.Prelude.{◌≡◌, ◌⊎◌, ◌<◌, ℕ, [], ◌∷◌, length, slice_index_or, IsSome, IfSome, Some, None, ⊤};
ghost use Rattle.turn_core.specs.Passes.{IsPassOf, view};
ghost use Rattle.turn_core.specs.Views.{left, right};
ghost use Rattle.serving.specs.Askers.{AsksOnce};
ghost use Rattle.serving.specs.Seats.{IsPassAt, turns_id};

use crate::given::{bucket, made_desk};
use desk_core::{Acked, Clock, Desk, DeskFault, ListClock};
use disk_core::{Disk, FileNo, MemoryDisk};
use http_front::Teller;
use office_types::{Ask, Command, Query, Refusal, Reply};
use serving::{Gate, Seated};
use std::alloc::Global;
use std::process::Abort;
use std::sync::Wait;
use std::sync::atomic::{AtomicU64, Ordering};
use std::thread;
use std::thread::Threads;
use turn_core::{Pass, Turned, Turns};

// The number of the asker that makes the bucket.
const MAKER: u32 = 1;

// The number of the asker that asks for it.
const VIEWER: u32 = 2;

type Said = Result<Acked, DeskFault>;

/// Holds the call of one asker until another was answered, with a limit of tries. No asker has the number 0.
#[derive(Drop)]
struct HoldingGate {
    held: u32,
    passed: AtomicU64,
    answered: AtomicU64,
    late: AtomicU64,
}

impl HoldingGate {
    fn new(held: u32) -> HoldingGate {
        HoldingGate {
            held,
            passed: AtomicU64::new(0),
            answered: AtomicU64::new(0),
            late: AtomicU64::new(0),
        }
    }

    // Whether both calls passed, and none was held to the limit.
    fn let_both_through(&self) -> bool {
        self.passed.load(Ordering::SeqCst) == 2 && self.late.load(Ordering::SeqCst) == 0
    }
}

impl Gate for HoldingGate {
    ghost let_through = { λ gate worker call. ⊤ };

    fn pass<R: Wait>(&self, _rt: &R, worker: u32, _call: u64) {
        self.passed.fetch_add(1, Ordering::SeqCst);
        if worker != self.held {
            return;
        }
        for _ in 0..10_000_000 {
            if self.answered.load(Ordering::SeqCst) != 0 {
                return;
            }
            thread::yield_now();
        }
        self.late.store(1, Ordering::SeqCst);
    }
}

/// An asker with one ask: its seat at the turns, the gate of all seats, its ask, and the answer.
#[derive(Drop)]
struct Asker<'a, D: Disk + Drop, C: Clock + Drop, R: Wait> {
    seated: Seated<'a, D, C, HoldingGate, R>,
    gate: &'a HoldingGate,
    ask: &'a Ask,
    said: Option<Said>,
}

impl<'a, D: Disk + Drop, C: Clock + Drop, R: Wait> Asker<'a, D, C, R> {
    fn new(seated: Seated<'a, D, C, HoldingGate, R>, gate: &'a HoldingGate, ask: &'a Ask) -> Self
        ensures { (result.seated ≡ seated.entry) × (result.ask.now ≡ ask.now) }
    {
        Asker {
            seated,
            gate,
            ask,
            said: None,
        }
    }

    fn ask_once(&mut self)
        ensures { AsksOnce ⟦<HoldingGate as Gate>⟧.let_through ⟦<Desk<D, C> as Turned>⟧.lawful self.old.seated
            self.old.ask.now self.new.said self.new.seated }
    {
        self.said = Some(self.seated.ask(self.ask));
        self.gate.answered.store(1, Ordering::SeqCst);
    }

    // Its pass, and the answer.
    fn leave(self) -> (Pass<Desk<D, C>>, Said)
        requires { IsSome self.said }
        ensures own { IsPassAt self.entry.seated.turns result.0 }
        ensures pass { view result.0 ≡ self.entry.seated.pass }
        ensures said { self.entry.said ≡ Some result.1 }
    {
        let Asker {
            seated,
            gate: _,
            ask: _,
            said,
        } = self;
        let Some(said) = said else { unreachable!() };
        (seated.leave(), said)
    }
}

// Each asks, in a thread of its own.
fn ask_all<D, C, R>(rt: &R, askers: &mut [Asker<'_, D, C, R>])
where
    D: Disk + Drop + Send,
    C: Clock + Drop + Send,
    R: Threads + Wait + Sync,
    requires { 0 < length askers.old }
    ensures { (i : ℕ) (d : _) → i < length askers.old
        → AsksOnce ⟦<HoldingGate as Gate>⟧.let_through ⟦<Desk<D, C> as Turned>⟧.lawful
        (slice_index_or askers.old i d).seated (slice_index_or askers.old i d).ask.now
        (slice_index_or askers.new i d).said (slice_index_or askers.new i d).seated }
{
    let threads = askers.len();
    thread::for_each_mut(rt, askers, threads, &|_, asker| asker.ask_once());
}

// Two askers; the second has a pass that is split off. Only if memory runs out is the pass given back.
fn seat<'a, D: Disk + Drop, C: Clock + Drop, R: Wait>(
    rt: &'a R,
    alloc: Global,
    turns: &'a Turns<Desk<D, C>>,
    mut pass: Pass<Desk<D, C>>,
    gate: &'a HoldingGate,
    make: &'a Ask,
    show: &'a Ask,
) -> (Vec<Asker<'a, D, C, R>>, Option<Pass<Desk<D, C>>>)
    requires own { IsPassOf turns.now pass }
    requires share { 1 < (view pass).share }
    ensures seated { result.1 ≡ None → (one : _) × (two : _) × (result.0.items ≡ one ∷ two ∷ [])
        × (one.seated ≡ record { turns = turns_id turns.now; gate = gate.now; worker = 1; pass = left (view pass) })
        × (one.ask.now ≡ make.now)
        × (two.seated ≡ record { turns = turns_id turns.now; gate = gate.now; worker = 2; pass = right (view pass) })
        × (two.ask.now ≡ show.now) }
    ensures back { IfSome result.1 (λ p. p ≡ pass) }
{
    let mut askers = Vec::new(alloc);
    if askers.reserve(2).is_err() {
        return (askers, Some(pass));
    }
    let other = turns.split(&mut pass);
    let maker = Seated::new(rt, turns, pass, gate, MAKER);
    askers.push_reserved(Asker::new(maker, gate, make));
    let viewer = Seated::new(rt, turns, other, gate, VIEWER);
    askers.push_reserved(Asker::new(viewer, gate, show));
    (askers, None)
}

// The two askers of a list.
fn part<'a, D: Disk + Drop, C: Clock + Drop, R: Wait>(
    mut askers: Vec<Asker<'a, D, C, R>>,
) -> (Asker<'a, D, C, R>, Asker<'a, D, C, R>)
    requires { length askers.items ≡ 2 }
    ensures { askers.entry.items ≡ result.0 ∷ result.1 ∷ [] }
{
    let Some(two) = askers.pop() else {
        unreachable!()
    };
    let Some(one) = askers.pop() else {
        unreachable!()
    };
    (one, two)
}

// The answers to two asks, each by one turn in a thread of its own, and the desk to which both calls lead, one after
// the other. None only if memory ran out.
fn both_asked<D, C, R>(
    rt: &R,
    alloc: Global,
    desk: Desk<D, C>,
    gate: &HoldingGate,
    make: &Ask,
    show: &Ask,
) -> Option<(Said, Said, Desk<D, C>)>
where
    D: Disk + Drop + Send,
    C: Clock + Drop + Send,
    R: Threads + Wait + Sync,
    ensures { IfSome result (λ r.
        ⟦<Desk<D, C> as Turned>⟧.stands desk r.2 ((make.now, r.0) ∷ (show.now, r.1) ∷ [])
        ⊎ ⟦<Desk<D, C> as Turned>⟧.stands desk r.2 ((show.now, r.1) ∷ (make.now, r.0) ∷ [])) }
{
    let Ok((turns, pass)) = Turns::new(alloc, desk) else {
        return None;
    };
    let (mut askers, unseated) = seat(rt, alloc, &turns, pass, gate, make, show);
    if let Some(pass) = unseated {
        drop(askers);
        drop(turns.close(pass));
        return None;
    }
    ask_all(rt, askers.as_mut_slice());
    let (one, two) = part(askers);
    let (mut pass, made) = one.leave();
    let (other, shown) = two.leave();
    turns.meet(&mut pass, other);
    Some((made, shown, turns.close(pass)))
}

// What the answers to both asks show: whether the bucket is shown, or none for other answers.
fn shown_by(made: &Acked, shown: &Acked) -> Option<bool> {
    match (made.reply(), shown.reply(), shown.position()) {
        (Ok(Reply::BucketMade { .. }), Ok(Reply::BucketShown { .. }), 30) => Some(true),
        (Ok(Reply::BucketMade { .. }), Err(Refusal::NoSuchBucket), 10) => Some(false),
        _ => None,
    }
}

// The length of the journal that a desk leaves.
fn length_left(rt: &impl Abort, desk: Desk<MemoryDisk, ListClock>) -> u64 {
    let (mut disk, clock, _) = desk.finish();
    drop(clock);
    let length = disk.length(FileNo::Journal);
    drop(disk);
    length.expect(rt, "a length")
}

// The answers to one ask that makes a bucket and to one that asks for it, and the desk that they leave.
fn make_and_show<R: Threads + Wait + Sync + Abort>(
    rt: &R,
    alloc: Global,
    gate: &HoldingGate,
) -> (Said, Said, Desk<MemoryDisk, ListClock>) {
    let make = Ask::Command(Command::CreateBucket {
        bucket: bucket(rt, alloc, "logs"),
    });
    let show = Ask::Query(Query::Bucket(bucket(rt, alloc, "logs")));
    let desk = made_desk(rt, alloc);
    let asked = both_asked(rt, alloc, desk, gate, &make, &show);
    drop(make);
    drop(show);
    asked.expect(rt, "memory")
}

fn acked(rt: &impl Abort, said: Said) -> Acked {
    match said {
        Ok(acked) => acked,
        Err(_) => panic!(rt; "not answered"),
    }
}

// Whether the bucket is shown if one asker makes it, another asks for it, and the gate holds one of them.
fn is_shown<R: Threads + Wait + Sync + Abort>(rt: &R, alloc: Global, held: u32) -> bool {
    let gate = HoldingGate::new(held);
    let (made, shown, desk) = make_and_show(rt, alloc, &gate);
    let length = length_left(rt, desk);
    let (made, shown) = (acked(rt, made), acked(rt, shown));
    let (position, found) = (made.position(), shown_by(&made, &shown));
    drop(made);
    drop(shown);
    // The end gate of an empty journal is at 10, and 20 bytes later after the bucket.
    assert!(rt; length == 31 && position == 30);
    assert!(rt; gate.let_both_through());
    found.expect(rt, "a reply")
}

// A bucket is shown if and only if the call that makes it comes before the one that asks for it.
#[test]
fn a_bucket_is_shown_once_it_was_made(rt: HostRuntime) {
    for _ in 0..20 {
        assert!(rt; is_shown(&rt, rt.alloc(), VIEWER));
        assert!(rt; !is_shown(&rt, rt.alloc(), MAKER));
        // Neither is held: the order is open.
        is_shown(&rt, rt.alloc(), 0);
    }
}
