// What a checkpoint keeps of an office.

use accrual::MonthSums;
use due_core::Bucket;
use moments::{Moment, Month};
use office_base::BucketName;
use office_types::Kept;
use std::marker::Model;
use tariff::Tariff;

/// What a checkpoint keeps of an office: its records, the sums of its books, and the kept replies. Stays that have not
/// ended follow from the records.
#[derive(Drop)]
pub struct Snapshot {
    /// The moment of the last accepted command; none before the first.
    pub last: Option<Moment>,
    /// The first month that is not closed; none before the first accepted command.
    pub first_open: Option<Month>,
    /// The tariffs, by their first months.
    pub tariffs: Vec<Tariff>,
    /// The closed months in order, each with the tariff of its closing.
    pub closed: Vec<(Month, Tariff)>,
    /// The buckets in the byte order of their names.
    pub buckets: Vec<BucketPart>,
    /// What is kept of the last commands with a token, oldest first.
    pub kept: Vec<Kept>,
}

impl Model for Snapshot {
    ghost use Rattle.office_snapshot.specs.Snapshots.{SnapshotRecord};

    ghost Value = { SnapshotRecord };

    ghost view = { λ s. record {
      last = s.last;
      first_open = s.first_open;
      tariffs = s.tariffs.items;
      closed = s.closed.items;
      buckets = s.buckets.items;
      kept = s.kept.items;
    } };
}

/// What a checkpoint keeps of a bucket.
#[derive(Drop)]
pub struct BucketPart {
    pub name: BucketName,
    pub bucket: Bucket,
    /// The sums of the months in which not all are 0, in order.
    pub sums: Vec<MonthSums>,
}

impl Model for BucketPart {
    ghost use Rattle.office_snapshot.specs.Snapshots.{BucketPartRecord};

    ghost Value = { BucketPartRecord };

    ghost view = { λ p. record { name = p.name; bucket = p.bucket; sums = p.sums.items } };
}
