// Why a checkpoint is not saved or loaded.
use office_base::NoMemory;
use std::alloc::AllocError;

/// Why a checkpoint is not saved or loaded.
#[derive(Clone, Copy, Debug, PartialEq, Eq)]
pub enum SaveFault {
    /// A call of the disk failed.
    StoreFault,
    /// Out of memory.
    NoMemory,
}

impl From<AllocError> for SaveFault {
    ghost use Rattle.std.specs.Prelude.{◌≡◌};
    ghost use Rattle.slots.specs.declared.fault.SaveFault.TheVariants.{NoMemory};

    ghost from_gives = { λ _ e. e ≡ NoMemory };

    fn from(_error: AllocError) -> SaveFault {
        SaveFault::NoMemory
    }
}

impl From<NoMemory> for SaveFault {
    ghost use Rattle.std.specs.Prelude.{◌≡◌};
    ghost use Rattle.slots.specs.declared.fault.SaveFault.TheVariants.{NoMemory};

    ghost from_gives = { λ _ e. e ≡ NoMemory };

    fn from(_error: NoMemory) -> SaveFault {
        SaveFault::NoMemory
    }
}
