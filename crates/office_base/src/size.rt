// The size of an object or a part.
ghost use Rattle.std.specs.Prelude.{◌≡◌, ◌<◌, ◌≤◌, IfOk, IfErr};
ghost use Rattle.office_base.specs.Sizes.{largest_size};

use crate::NameRefusal;
use std::marker::Model;

/// The largest size, in bytes: 5 TiB (S3 User Guide, "Uploading objects").
const LARGEST: u64 = 5_497_558_138_880;

/// The size of an object or a part, in bytes: from 0 to 5 TiB.
#[derive(Clone, Copy, Debug, PartialEq, Eq)]
pub struct Size {
    bytes: u64,
}

impl Model for Size {
    ghost use Rattle.std.specs.Prelude.{ℕ, ◌≤◌};
    ghost use Rattle.office_base.specs.Sizes.{largest_size};

    ghost Value = { ℕ };

    ghost view = { λ s. s.bytes };

    ghost invariant = { λ s. s.bytes ≤ largest_size };

    ghost inverse = { λ n. record { bytes = n } };
}

impl Size {
    /// Gives the size of this many bytes. Takes no memory.
    ///
    /// # Errors
    ///
    /// `BadSize`: the number is above 5 TiB.
    pub fn of(bytes: u64) -> Result<Size, NameRefusal>
        ensures ok { IfOk result (λ size. (size ≡ bytes) × (bytes ≤ largest_size)) }
        ensures bad { IfErr result (λ e. (e ≡ NameRefusal.BadSize) × (largest_size < bytes)) }
    {
        if bytes > LARGEST {
            return Err(NameRefusal::BadSize);
        }
        Ok(Size { bytes })
    }

    /// Reads the number of bytes.
    pub fn bytes(self) -> u64
        ensures same { result ≡ self }
        ensures at_most { result ≤ largest_size }
    {
        self.bytes
    }
}
