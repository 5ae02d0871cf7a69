// Why a value is out of its range.
use std::alloc::AllocError;

/// Why a text, bytes or a number is out of the range of its type.
#[derive(Clone, Copy, Debug, PartialEq, Eq)]
pub enum NameRefusal {
    /// The text is out of the range of bucket names.
    BadBucketName,
    /// The bytes are out of the range of keys.
    BadKey,
    /// The pairs are out of the range of tags.
    BadTags,
    /// The number is out of the range of sizes.
    BadSize,
    /// Memory ran out.
    NoMemory,
}

impl From<AllocError> for NameRefusal {
    ghost use Rattle.std.specs.Prelude.{◌≡◌};
    ghost use Rattle.office_base.specs.declared.refusal.NameRefusal.TheVariants.{NoMemory};

    ghost from_gives = { λ _ e. e ≡ NoMemory };

    fn from(_error: AllocError) -> NameRefusal {
        NameRefusal::NoMemory
    }
}
