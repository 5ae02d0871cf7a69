// Why there is no forecast.
use moments::Moment;
use office_types::Refusal;
use std::alloc::AllocError;

/// Why there is no forecast.
#[derive(Drop)]
pub enum ForecastFault {
    /// 140: the moment of the last sweep is before `t`, at which the configuration would be set.
    PastDay { t: Moment },
    /// The office refuses the configuration: there is no bucket of this name (81), or the configurations of all buckets
    /// would be too long (90).
    Refused(Refusal),
    /// 115: memory ran out.
    NoMemory,
}

impl From<AllocError> for ForecastFault {
    ghost use Rattle.std.specs.Prelude.{◌≡◌};
    ghost use Rattle.forecast.specs.declared.fault.ForecastFault.TheVariants.{NoMemory};

    ghost from_gives = { λ _ e. e ≡ NoMemory };

    fn from(_error: AllocError) -> ForecastFault {
        ForecastFault::NoMemory
    }
}
