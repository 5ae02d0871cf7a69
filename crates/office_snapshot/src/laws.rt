// Laws of every snapshot, as functions that do nothing.
ghost use Rattle.std.specs.Prelude.{◌≡◌, ℕ, ◌^◌, ◌≤◌, List, length, Some};
ghost use Rattle.std.specs.List.{AllByRecursion};
ghost use Rattle.accrual.specs.Totals.{Totals, AreTotalsOf};
ghost use Rattle.plain_office.specs.Office.{Office, Account, book_of};
ghost use Rattle.plain_office.specs.Orderly.{IsOrderlyBucket, HasOpenStays};
ghost use Rattle.plain_office.specs.Run.{run};
ghost use Rattle.office_types.specs.declared.command.Entry.{Entry};
ghost use Rattle.office_laws.specs.Commands.{SizesFit};
ghost use Rattle.office_snapshot.specs.Snapshots.{SnapshotRecord, BucketPartRecord, ShowsBucket, Shows};
ghost use Rattle.office_snapshot.specs.Restorable.{HasForm, IsRestorable};
ghost use Rattle.office_snapshot.specs.Classes.{AreWhole};
ghost use Rattle.office_snapshot.specs.RecordStays.{record_stays, AreTotalsBy};

/// States that each snapshot that can be restored shows an orderly office.
pub fn every_restorable_snapshot_shows_an_office()
    ensures { (snapshot : SnapshotRecord) → IsRestorable snapshot → (office : Office) × Shows snapshot office }
{}

/// States that meters can be restored from a bucket's sums: start with them, and open a stay for each version and each
/// part. They agree with the books of every account that the bucket's part of a snapshot shows, in any order of
/// booking. There are at most 900,000 such stays.
pub fn sums_and_open_stays_make_the_meters()
    ensures stand { (totals : Totals) (part : BucketPartRecord) (entry : List ℕ × Account) (last : ℕ)
        → IsOrderlyBucket last part.bucket → ShowsBucket part entry → HasOpenStays entry.1
        → AreTotalsBy totals part → AreTotalsOf totals (book_of entry.1.books) }
    ensures few { (snapshot : SnapshotRecord) → IsRestorable snapshot
        → AllByRecursion (λ part. length (record_stays part.bucket) ≤ 900_000) snapshot.buckets }
{}

/// States that the snapshot of an office after a history of at most 2^41 entries can be restored.
pub fn histories_have_restorable_snapshots()
    ensures { (history : List Entry) (office : Office) (snapshot : SnapshotRecord)
        → SizesFit history → run history ≡ Some office → length history ≤ 2 ^ 41
        → HasForm snapshot → AreWhole snapshot → Shows snapshot office → IsRestorable snapshot }
{}
