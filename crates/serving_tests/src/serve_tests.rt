// The program with workers side by side, over a port and a gate of the tests' own.
ghost use Rattle.std.specs.Prelude.{Some, ⊤};

use crate::given::{equal, made_disk, new_year};
use bill_book::MapKeeper;
use desk_core::{Acked, ListClock};
use disk_core::{Disk, FileNo, MemoryDisk};
use http_front::{Bad, MemoryReplies, Replies, SessionEnd};
use http_wire::MemorySource;
use office_base::{Failed, NoMemory};
use office_program::{End, office};
use serving::{Gate, MemoryPort, Port, PortFault};
use std::alloc::Global;
use std::process::Abort;
use std::sync::Wait;
use std::sync::atomic::{AtomicU64, Ordering};
use std::thread;
use std::thread::Threads;

const PUT: &[u8] = b"PUT /buckets/logs HTTP/1.1\r\nHost: x\r\n\r\n";

const PUT_MORE: &[u8] = b"PUT /buckets/more HTTP/1.1\r\nHost: x\r\n\r\n";

// Two workers, of which each serves one connection.
const WORDS: &[&str] = &["serve", "--listen=here", "--workers=2", "--connections=1"];

fn port_of(rt: &impl Abort, alloc: Global, lines: &[&[u8]]) -> MemoryPort {
    let mut list = Vec::new(alloc);
    for line in lines {
        let line = line.to_vec(alloc).expect(rt, "memory");
        list.push(line).expect(rt, "memory");
    }
    MemoryPort::new(alloc, list, Vec::new(alloc)).expect(rt, "memory")
}

fn words(rt: &impl Abort, alloc: Global) -> Vec<String> {
    let mut words = Vec::new(alloc);
    for word in WORDS {
        let word = String::from_str(alloc, *word).expect(rt, "memory");
        words.push(word).expect(rt, "memory");
    }
    words
}

/// What the command is given, except the port and the gate: no input, at 2024-01-01 00:00 UTC, over a journal without
/// entries.
#[derive(Drop)]
struct Given {
    words: Vec<String>,
    input: MemorySource,
    out: MemoryReplies,
    disk: MemoryDisk,
    clock: ListClock,
}

impl Given {
    fn new(rt: &impl Abort, alloc: Global) -> Given {
        Given {
            words: words(rt, alloc),
            input: MemorySource::new(Vec::new(alloc), 1, Vec::new(alloc)),
            out: MemoryReplies::new(alloc, Vec::new(alloc)),
            disk: made_disk(rt, alloc),
            clock: new_year(rt, alloc),
        }
    }
}

// Does the command. Only this function calls the program.
fn serve_on<P: Port + Send, G: Gate + Sync, R: Threads + Wait + Sync>(
    rt: &R,
    alloc: Global,
    given: Given,
    port: &mut P,
    gate: &G,
) -> End<MemoryDisk, ListClock>
where
    P::Source: Send,
    P::Replies: Send,
{
    let Given {
        words,
        mut input,
        mut out,
        disk,
        clock,
    } = given;
    let mut keeper = MapKeeper::new(alloc, Vec::new(alloc));
    office(
        rt,
        alloc,
        &words,
        &mut input,
        &mut out,
        disk,
        clock,
        port,
        gate,
        &mut keeper,
    )
}

/// Replies in memory that raise a flag after one was said.
#[derive(Drop)]
struct FlagReplies<'a> {
    inner: MemoryReplies,
    answered: &'a AtomicU64,
}

impl<'a> Replies for FlagReplies<'a> {
    ghost said = { λ r. ⟦<MemoryReplies as Replies>⟧.said r.inner };

    ghost moments = { λ r. ⟦<MemoryReplies as Replies>⟧.moments r.inner };

    ghost texts = { λ r. ⟦<MemoryReplies as Replies>⟧.texts r.inner };

    ghost noted = { λ r. ⟦<MemoryReplies as Replies>⟧.noted r.inner };

    ghost faults = { λ r. ⟦<MemoryReplies as Replies>⟧.faults r.inner };

    fn say(&mut self, acked: &Acked, bytes: &[u8]) -> Result<(), Failed> {
        let said = self.inner.say(acked, bytes);
        self.answered.store(1, Ordering::SeqCst);
        said
    }

    fn say_part(&mut self, acked: &Acked, bytes: &[u8]) -> Result<(), Failed> {
        self.inner.say_part(acked, bytes)
    }

    fn told(&mut self, acked: &Acked) -> Result<(), Failed> {
        let told = self.inner.told(acked);
        self.answered.store(1, Ordering::SeqCst);
        told
    }

    fn say_bad(&mut self, bad: &Bad, bytes: &[u8]) -> Result<(), Failed> {
        self.inner.say_bad(bad, bytes)
    }

    fn text(&mut self, bytes: &[u8]) -> Result<(), Failed> {
        self.inner.text(bytes)
    }

    fn note(&mut self, bytes: &[u8]) {
        self.inner.note(bytes);
    }
}

/// A port in memory with such replies.
#[derive(Drop)]
struct FlagPort<'a> {
    inner: MemoryPort,
    answered: &'a AtomicU64,
}

impl<'a> Port for FlagPort<'a> {
    type Source = MemorySource;

    type Replies = FlagReplies<'a>;

    ghost faults = { λ p. p.inner.faults };

    ghost given = { λ p. p.inner.given };

    ghost ended = { λ p. p.inner.ended };

    ghost connections = { λ p. Some p.inner.connections };

    ghost listens = { λ p at. ⊤ };

    fn listen<R: Wait>(&mut self, rt: &R, alloc: Global, address: &str) -> Result<(), PortFault> {
        self.inner.listen(rt, alloc, address)
    }

    fn twin(&self, alloc: Global) -> Result<Self, NoMemory> {
        let inner = self.inner.twin(alloc)?;
        Ok(FlagPort {
            inner,
            answered: self.answered,
        })
    }

    fn take_back(&mut self, twin: Self) {
        let FlagPort { inner, answered: _ } = twin;
        self.inner.take_back(inner);
    }

    fn accept<R: Wait>(
        &mut self,
        rt: &R,
        alloc: Global,
    ) -> Result<(MemorySource, FlagReplies<'a>), PortFault> {
        match self.inner.accept(rt, alloc) {
            Ok((source, inner)) => Ok((
                source,
                FlagReplies {
                    inner,
                    answered: self.answered,
                },
            )),
            Err(fault) => Err(fault),
        }
    }

    fn end(
        &mut self,
        worker: u32,
        source: MemorySource,
        replies: FlagReplies<'a>,
        end: SessionEnd,
    ) {
        let FlagReplies { inner, answered: _ } = replies;
        self.inner.end(worker, source, inner, end);
    }
}

/// Holds the first call of one worker until a reply was said, with a limit of tries.
#[derive(Drop)]
struct HoldingGate<'a> {
    held: u32,
    answered: &'a AtomicU64,
    late: AtomicU64,
}

impl<'a> Gate for HoldingGate<'a> {
    ghost let_through = { λ gate worker call. ⊤ };

    fn pass<R: Wait>(&self, _rt: &R, worker: u32, call: u64) {
        if worker != self.held || call != 1 {
            return;
        }
        for _ in 0..10_000_000 {
            if self.answered.load(Ordering::SeqCst) != 0 {
                return;
            }
            thread::yield_now();
        }
        self.late.store(1, Ordering::SeqCst);
    }
}

/// The result of two workers that served one connection each.
#[derive(Drop)]
struct Served {
    status: u8,
    /// The length of the journal, in bytes.
    journal: u64,
    /// Whether the call that was held went on because a reply was said.
    in_time: bool,
    /// Whether both connections were served.
    both: bool,
}

// Two workers serve one connection each. The first call of one is held until the other was answered.
fn beside<R: Threads + Wait + Sync + Abort>(rt: &R, alloc: Global, held: u32) -> Served {
    let answered = AtomicU64::new(0);
    let gate = HoldingGate {
        held,
        answered: &answered,
        late: AtomicU64::new(0),
    };
    let mut port = FlagPort {
        inner: port_of(rt, alloc, &[PUT, PUT_MORE]),
        answered: &answered,
    };
    let End {
        status,
        mut disk,
        clock,
    } = serve_on(rt, alloc, Given::new(rt, alloc), &mut port, &gate);
    drop(clock);
    let journal = disk.length(FileNo::Journal);
    drop(disk);
    Served {
        status,
        journal: journal.expect(rt, "a length"),
        in_time: gate.late.load(Ordering::SeqCst) == 0,
        both: port.inner.said(2).is_some(),
    }
}

// Either worker can be answered before the other. A bucket takes 20 bytes of the journal.
#[test]
fn workers_run_beside_each_other(rt: HostRuntime) {
    for held in &[1u32, 2] {
        let ran = beside(&rt, rt.alloc(), *held);
        let in_time = (ran.in_time, ran.both);
        equal(
            &rt,
            &("in time, both served", *held),
            &in_time,
            &(true, true),
        );
        let ended = (ran.status, ran.journal);
        equal(&rt, &("status, journal", *held), &ended, &(0, 51));
    }
}
