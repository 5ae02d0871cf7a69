// Why the office refused a request.
use due_core::Target;
use moments::Month;
use office_base::{BucketName, Key, NoMemory};
use std::alloc::{AllocError, AllocFailed};

/// What the office limits. Own rules: the limits keep every sum of the meters below 2^128.
#[derive(Clone, Copy, Debug, PartialEq, Eq)]
pub enum What {
    /// 1,000 buckets.
    Buckets,
    /// 200,000 versions and delete markers in all buckets together.
    Versions,
    /// 20,000 unfinished uploads in all buckets together.
    Uploads,
    /// 500,000 parts in all buckets together.
    Parts,
    /// 536,870,912 bytes of keys and tags in all buckets together.
    Names,
    /// 67,108,864 bytes of printed lifecycle configurations in all buckets together.
    Rules,
    /// 100 tariffs.
    Tariffs,
}

/// Why a request was not done. The office is then as before.
#[derive(Drop)]
pub enum Refusal {
    /// 80: there is a bucket of this name.
    BucketExists,
    /// 81: there is no bucket of this name.
    NoSuchBucket,
    /// 82: the bucket has no lifecycle configuration.
    NoRules,
    /// 83: versioning cannot be suspended, because it was never enabled.
    NotEnabledBefore,
    /// 50: the key has no versions.
    NoSuchKey,
    /// 51: the key has no version with this id.
    NoSuchVersion,
    /// 52: the version is a delete marker, which has no tags.
    IsMarker,
    /// 60: the bucket has no upload with this number.
    NoSuchUpload,
    /// 61: the part's number or size is out of range, or the sum of the parts would be too large.
    BadPart,
    /// 62: the upload has no parts.
    NoParts,
    /// 84: the month is not over; it ends at this moment, in milliseconds.
    MonthNotOver {
        end: u64,
    },
    /// 86: the month is already closed.
    AlreadyClosed,
    /// 87: this earlier month has to be closed first.
    EarlierMonthOpen {
        month: Month,
    },
    /// 88: no tariff is in force in the month; or, if the request has no month, no tariff was set.
    NoTariff,
    /// 85: in this bucket a lifecycle action on this target takes effect before the month's end, and was not done.
    DueActions {
        bucket: BucketName,
        key: Key,
        target: Target,
    },
    /// 90: the office would hold more of these than the limit.
    Full {
        what: What,
        limit: u64,
    },
    /// 91: the moment of the request, in milliseconds, is not before the end of time. Only a desk replies this.
    ClockEnd {
        moment: u64,
    },
    /// 92: the token was used for another command, of this kind; the reply to that one is kept.
    TokenReused {
        kind: u8,
    },
    /// 115: memory ran out.
    NoMemory,
}

impl From<AllocError> for Refusal {
    ghost use Rattle.std.specs.Prelude.{◌≡◌};
    ghost use Rattle.office_types.specs.declared.refusal.Refusal.TheVariants.{NoMemory};

    ghost from_gives = { λ _ e. e ≡ NoMemory };

    fn from(_error: AllocError) -> Refusal {
        Refusal::NoMemory
    }
}

impl<T: Drop> From<AllocFailed<T>> for Refusal {
    ghost use Rattle.std.specs.Prelude.{◌≡◌};
    ghost use Rattle.office_types.specs.declared.refusal.Refusal.TheVariants.{NoMemory};

    ghost from_gives = { λ _ e. e ≡ NoMemory };

    fn from(_error: AllocFailed<T>) -> Refusal {
        Refusal::NoMemory
    }
}

impl From<NoMemory> for Refusal {
    ghost use Rattle.std.specs.Prelude.{◌≡◌};
    ghost use Rattle.office_types.specs.declared.refusal.Refusal.TheVariants.{NoMemory};

    ghost from_gives = { λ _ e. e ≡ NoMemory };

    fn from(_error: NoMemory) -> Refusal {
        Refusal::NoMemory
    }
}
