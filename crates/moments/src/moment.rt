// A moment in time.
ghost use Rattle.std.specs.Prelude.{◌≡◌, ◌<◌, ◌≤◌, IfOk, IfErr, OnErr};
ghost use Rattle.moments.specs.Time.{end_of_time, last_moment};

use std::marker::Model;

/// The first millisecond after all moments: 2100-01-01 00:00 UTC. Own rule: this bound keeps every sum in range.
pub const END: u64 = 4_102_444_800_000;

/// The milliseconds of a day.
pub(crate) const DAY: u64 = 86_400_000;

/// Milliseconds since 1970-01-01 00:00 UTC, below `END`.
#[derive(Clone, Copy, Debug, PartialEq, Eq)]
pub struct Moment {
    ms: u64,
}

impl Model for Moment {
    ghost use Rattle.std.specs.Prelude.{ℕ, ◌<◌};
    ghost use Rattle.moments.specs.Time.{end_of_time};

    ghost Value = { ℕ };

    ghost view = { λ m. m.ms };

    ghost invariant = { λ m. m.ms < end_of_time };

    ghost inverse = { λ n. record { ms = n } };
}

/// Why there is no moment.
#[derive(Clone, Copy, Debug, PartialEq, Eq)]
pub enum MomentRefusal {
    /// The number is `END` or above.
    PastEnd,
    /// The text is not a date from 1970-01-01 to 2099-12-31, with or without a time.
    NotADate,
    /// The date's time is not midnight.
    NotMidnight,
    /// The text is not a month from 1970-01 to 2099-12.
    NotAMonth,
}

impl Moment {
    /// Gives the moment of this number of milliseconds. Takes no memory.
    ///
    /// # Errors
    ///
    /// `PastEnd`: the number is `END` or above.
    pub fn of(ms: u64) -> Result<Moment, MomentRefusal>
        ensures ok { IfOk result (λ m. (m ≡ ms) × (ms < end_of_time)) }
        ensures past_end { OnErr result (end_of_time ≤ ms) }
        ensures refusal { IfErr result (λ e. e ≡ MomentRefusal.PastEnd) }
    {
        if ms < END {
            Ok(Moment { ms })
        } else {
            Err(MomentRefusal::PastEnd)
        }
    }

    /// Gives the last moment: one millisecond before `END`.
    pub fn last() -> Moment
        ensures { result ≡ last_moment }
    {
        Moment { ms: END - 1 }
    }

    /// Reads the number of milliseconds.
    pub fn ms(self) -> u64
        ensures same { result ≡ self }
        ensures below { result < end_of_time }
    {
        self.ms
    }
}
