// A clock of the moments of generated commands.
ghost use Rattle.std.specs.Prelude.{◌≡◌, ◌+◌, ◌<◌, ◌-◌, ◌^◌, Some};
ghost use Rattle.generator.specs.Places.{place_after};

use crate::place::Place;
use desk_core::Clock;

// A clock that first returns the number that commands are drawn from, and then the moment of each.
#[derive(Drop)]
pub(crate) struct PlaceClock {
    number: u64,
    place: Place,
    last: u64,
    ghost stands: { place ≡ place_after number place.made },
    ghost within: { place.made < 2 ^ 64 - 1 },
}

impl PlaceClock {
    pub(crate) fn new(number: u64) -> PlaceClock
        ensures number { result.number ≡ number }
        ensures made { result.place.made ≡ 0 }
    {
        PlaceClock {
            number,
            place: Place::before(number),
            last: number,
        }
    }
}

#[tactic(auto, using(crate::proofs::ClockLemmas::told_facts))]
impl Clock for PlaceClock {
    ghost use Rattle.generator.specs.Clocks.{moments_told};

    ghost count = { λ c. c.place.made + 1 };

    ghost last = { λ c. c.last };

    ghost told = { λ c. Some (moments_told c.number c.place.made) };

    fn now(&mut self) -> u64 {
        if self.place.made == u64::MAX - 1 {
            return self.last;
        }
        self.place.next();
        self.last = self.place.moment;
        self.last
    }
}
