// What time it is.
ghost use Rattle.std.specs.Prelude.{◌≡◌, ◌+◌, ◌-◌, ◌/◌, ◌^◌, ◌<◌, ◌≤◌, ◌↔◌, min, ◌∷◌, [], ℕ, List, Option, Some, None};
ghost use Rattle.std.specs.Prelude.{IsSome, IfSome};
ghost use Rattle.std.specs.Time.{system_time_nanos};
ghost use Rattle.std.specs.Io.KnownBytes.{Appends};
ghost use Rattle.desk_core.specs.Clocks.{number_at, numbers_told};

use std::time::{Clock as SystemTimes, SystemTime, UNIX_EPOCH};

/// Numbers of milliseconds since 1970-01-01 00:00 UTC. A clock never fails, may go back, and may tell any number.
pub trait Clock {
    /// How many numbers it told, up to the greatest `u64`.
    ghost count: { Self → ℕ };

    /// The last number told.
    ghost last: { Self → ℕ };

    /// The numbers told, where the clock tells its list and has not counted to its end.
    ghost told: { Self → Option (List ℕ) };

    /// Tells a number, in milliseconds since 1970-01-01 00:00 UTC.
    fn now(&mut self) -> u64
        ensures count { count self.new ≡ min (count self.old + 1) (2 ^ 64 - 1) }
        ensures later { count self.old ≤ count self.new }
        ensures last { last self.new ≡ result }
        ensures told { count self.new < 2 ^ 64 - 1 → Appends (told self.old) (told self.new) (result ∷ []) };
}

/// A clock that tells the numbers of a list in order, and then the last one again and again; 0 of an empty list.
#[derive(Drop)]
pub struct ListClock {
    moments: Vec<u64>,
    count: u64,
    last: u64,
}

impl ListClock {
    ghost use Rattle.desk_core.specs.Clocks.{list_numbers};

    /// Makes a clock of these numbers that has told none.
    pub fn new(moments: Vec<u64>) -> ListClock
        ensures { list_numbers result ≡ record { moments = moments.items; count = 0 } }
    {
        ListClock {
            moments,
            count: 0,
            last: 0,
        }
    }

    // The next number.
    fn number(&self) -> u64
        ensures { result ≡ number_at self.now.moments.items self.now.count }
    {
        match self.moments.get(self.count as usize) {
            Some(number) => *number,
            None => match self.moments.last() {
                Some(number) => *number,
                None => 0,
            },
        }
    }
}

#[tactic(auto, using(crate::proofs::Told::one_told))]
impl Clock for ListClock {
    ghost count = { λ c. c.count };

    ghost last = { λ c. c.last };

    ghost told = { λ c. Some (numbers_told c.moments.items c.count) };

    fn now(&mut self) -> u64 {
        let number = self.number();
        self.count = self.count.saturating_add(1);
        self.last = number;
        number
    }
}

/// The machine's clock. Where it does not answer, or tells a time before 1970, the number is the greatest `u64`.
#[derive(Drop)]
pub struct SystemClock<T: SystemTimes + Drop> {
    times: T,
    count: u64,
    last: u64,
}

impl<T: SystemTimes + Drop> SystemClock<T> {
    ghost use Rattle.desk_core.specs.Clocks.{system_count};

    /// Makes a clock that has told no number.
    pub fn new(times: T) -> Self
        ensures { system_count result ≡ 0 }
    {
        SystemClock {
            times,
            count: 0,
            last: 0,
        }
    }
}

// A time in milliseconds since 1970-01-01 00:00 UTC; None if their number is past the greatest `u64`.
fn milliseconds_of(now: SystemTime) -> Option<u64>
    ensures variant { IsSome result ↔ (system_time_nanos now / 1_000_000 < 2 ^ 64) }
    ensures some { IfSome result (λ number. number ≡ system_time_nanos now / 1_000_000) }
{
    let since = now.duration_since(UNIX_EPOCH).ok()?;
    u64::try_from(since.as_millis()).ok()
}

// None where the machine does not answer, or its time is before 1970 or past the greatest `u64`.
fn milliseconds<T: SystemTimes>(times: &T) -> Option<u64> {
    milliseconds_of(SystemTime::now(times).ok()?)
}

impl<T: SystemTimes + Drop> Clock for SystemClock<T> {
    ghost count = { λ c. c.count };

    ghost last = { λ c. c.last };

    ghost told = { λ _. None };

    fn now(&mut self) -> u64 {
        let number = milliseconds(&self.times).unwrap_or(u64::MAX);
        self.count = self.count.saturating_add(1);
        self.last = number;
        number
    }
}
