// A moment in six bytes.
ghost use Rattle.std.specs.Prelude.{◌≡◌};

use moments::Moment;
use std::marker::Model;

const DAY: u64 = 86_400_000;

const MINUTE: u64 = 60_000;

/// A moment as its day since 1970-01-01, its minute of the day and its millisecond of the minute. It is aligned to two
/// bytes, so it fits beside an enum's tag, and beside a `bool` in eight bytes.
#[derive(Drop)]
pub(crate) struct ShortMoment {
    day: u16,
    minute: u16,
    ms: u16,
}

impl Model for ShortMoment {
    ghost use Rattle.std.specs.Prelude.{ℕ, ◌+◌, ◌*◌, ◌<◌};
    ghost use Rattle.moments.specs.Time.{end_of_time};

    ghost Value = { ℕ };

    ghost view = { λ m. m.day * 86_400_000 + m.minute * 60_000 + m.ms };

    ghost invariant = { λ m. m.day * 86_400_000 + m.minute * 60_000 + m.ms < end_of_time };
}

impl ShortMoment {
    pub(crate) fn of(moment: Moment) -> ShortMoment
        ensures { result ≡ moment }
    {
        let ms = moment.ms();
        let of_day = ms % DAY;
        ShortMoment {
            day: (ms / DAY) as u16,
            minute: (of_day / MINUTE) as u16,
            ms: (of_day % MINUTE) as u16,
        }
    }

    pub(crate) fn moment(&self) -> Moment
        ensures { result ≡ self.now }
    {
        let ms = u64::from(self.day) * DAY + u64::from(self.minute) * MINUTE + u64::from(self.ms);
        match Moment::of(ms) {
            Ok(moment) => moment,
            Err(_) => unreachable!(),
        }
    }
}
