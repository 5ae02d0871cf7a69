// Why a journal is not opened or read.
use std::alloc::AllocError;

/// Why a journal is not opened, made or read.
#[derive(Clone, Copy, Debug, PartialEq, Eq)]
pub enum OpenFault {
    /// The file is shorter than 11 bytes, or has 11 bytes and a closed gate at its head.
    NotMade,
    /// The file is longer and has no open gate at its head, or has another mark after it.
    Foreign,
    /// The frame at a gate is damaged; no frame before it is.
    Damaged {
        /// The place of the gate, in bytes from the start of the file.
        offset: u64,
    },
    /// A call of the disk failed.
    StoreFault,
    /// Memory ran out.
    NoMemory,
}

impl From<AllocError> for OpenFault {
    ghost use Rattle.std.specs.Prelude.{◌≡◌};
    ghost use Rattle.meter_journal.specs.declared.fault.OpenFault.TheVariants.{NoMemory};

    ghost from_gives = { λ _ e. e ≡ NoMemory };

    fn from(_error: AllocError) -> OpenFault {
        OpenFault::NoMemory
    }
}
