// How a pass waits: for a short time before it draws a ticket, and then until that is served.
ghost use Rattle.std.specs.Prelude.{◌<◌};

use crate::rule::{SERVING, TICKET};
use atomic_table::{Shared, TableRule};
use std::array;
use std::hint::spin_loop;
use std::sync::Wait;
use std::sync::atomic::{AtomicU64, Ordering};
use std::thread::Parker;
use std::time::Duration;

/// How often a pass looks at the words, with pauses that double, before it draws a ticket or sleeps without one.
const LOOKS_WITHOUT: u32 = 6;

/// The first of these pauses, in hints to the processor.
const FIRST_PAUSE: u32 = 4;

/// How often a pass sleeps without a ticket before it draws one.
const SLEEPS_WITHOUT: u32 = 4;

/// The length of such a sleep for each ticket that is out, in microseconds.
const SLEEP_A_TICKET: u64 = 20;

/// The most tickets that count for the length of a sleep.
const MOST_COUNTED: u64 = 64;

/// How often a pass looks whether its ticket is served before it parks.
const LOOKS_WITH: u32 = 200;

const BUCKETS: usize = 16;

/// Where passes park whose tickets are equal modulo the number of buckets.
#[derive(Drop)]
struct Bucket {
    /// How many park, or are about to.
    parked: AtomicU64,
    /// How often they were woken, modulo 2^64.
    wakes: AtomicU64,
}

/// Where passes park, each by its ticket, so that a move wakes only the one that is next and those of its bucket.
#[derive(Drop)]
pub(crate) struct ParkingLot {
    buckets: [Bucket; BUCKETS],
}

impl ParkingLot {
    pub(crate) fn new() -> ParkingLot {
        ParkingLot {
            buckets: array::from_fn(|_| Bucket {
                parked: AtomicU64::new(0),
                wakes: AtomicU64::new(0),
            }),
        }
    }

    fn bucket_of(&self, ticket: u64) -> &Bucket {
        &self.buckets[(ticket % BUCKETS as u64) as usize]
    }

    /// Wakes the pass that parks with this ticket, if one does. Call it once the ticket is served.
    pub(crate) fn wake(&self, ticket: u64) {
        let bucket = self.bucket_of(ticket);
        if bucket.parked.load(Ordering::SeqCst) != 0 {
            bucket.wakes.fetch_add(1, Ordering::SeqCst);
            bucket.wakes.wake_all();
        }
    }

    /// Returns once the ticket is served: looks a number of times, and then parks.
    ///
    /// No wake-up is lost. A pass adds itself to `parked`, reads `wakes` and then looks at `serving` again; a move
    /// changes `serving` and then reads `parked`. So if the look comes before the move, the move finds the pass in
    /// `parked` and adds to `wakes` after it was read. If `wakes` has changed, the kernel starts no sleep, and ends one
    /// that it started. `wakes` has no time to come round to the same 32 bits. After it was read, each other pass adds
    /// at most one, for a turn that ended or for one before this ticket's, and there are fewer than 2^32 passes.
    pub(crate) fn wait_for<R: Wait, S, V, K, P: TableRule<S, V, K>>(
        &self,
        rt: &R,
        top: &Shared<S, V, K, P>,
        ticket: u64,
    )
        requires { SERVING < top.now.table_id.words }
    {
        for _ in 0..LOOKS_WITH {
            if top.peek(SERVING) == ticket {
                return;
            }
            spin_loop();
        }
        let bucket = self.bucket_of(ticket);
        bucket.parked.fetch_add(1, Ordering::SeqCst);
        for _ in rt.forever() {
            let seen = bucket.wakes.load(Ordering::SeqCst);
            if top.peek(SERVING) == ticket {
                break;
            }
            bucket.wakes.park(rt, (seen & 0xffff_ffff) as u32);
        }
        bucket.parked.fetch_sub(1, Ordering::SeqCst);
    }
}

// How many tickets were drawn and not served to their end.
fn tickets_out<S, V, K, P: TableRule<S, V, K>>(top: &Shared<S, V, K, P>) -> u64
    requires { SERVING < top.now.table_id.words }
{
    let served = top.peek(SERVING);
    top.peek(TICKET).wrapping_sub(served)
}

/// What a pass finds in some looks at the words.
#[derive(Drop)]
enum Found {
    /// No ticket is out.
    NoTicket,
    /// Turns were moved on meanwhile.
    ShortTurns,
    /// The turn that was served outlasts all looks.
    LongTurn,
}

fn look_around<S, V, K, P: TableRule<S, V, K>>(top: &Shared<S, V, K, P>) -> Found
    requires { SERVING < top.now.table_id.words }
{
    let served = top.peek(SERVING);
    for look in 0..LOOKS_WITHOUT {
        if tickets_out(top) == 0 {
            return Found::NoTicket;
        }
        for _ in 0..(FIRST_PAUSE << look) {
            spin_loop();
        }
    }
    if top.peek(SERVING) == served {
        Found::LongTurn
    } else {
        Found::ShortTurns
    }
}

// Returns once no ticket is out, or after a number of looks and sleeps. After those the pass draws a ticket in any
// case, so that it waits in line. So a running thread can take many short turns, which is faster than to hand each one
// on. No one wakes these sleeps, so after a long turn they would leave the value idle; if turns are long, the pass
// draws its ticket at once.
pub(crate) fn hold_back<R: Wait, S, V, K, P: TableRule<S, V, K>>(rt: &R, top: &Shared<S, V, K, P>)
    requires { SERVING < top.now.table_id.words }
{
    let Found::ShortTurns = look_around(top) else {
        return;
    };
    for _ in 0..SLEEPS_WITHOUT {
        let tickets = tickets_out(top).min(MOST_COUNTED);
        if tickets == 0 {
            return;
        }
        let sleep = Duration::from_micros(tickets * SLEEP_A_TICKET);
        Parker::new().park_timeout(rt, sleep);
    }
}
