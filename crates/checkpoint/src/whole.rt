// The sums of a snapshot have a number for each class.
ghost use Rattle.std.specs.Prelude.{◌≡◌, true, length};
ghost use Rattle.std.specs.List.{list_all};
ghost use Rattle.office_snapshot.specs.Classes.{AreWhole};
ghost use Rattle.checkpoint.specs.Parts.{are_six};

use accrual::MonthSums;
use office_snapshot::{BucketPart, Snapshot};

fn have_six(ended: &[u128; 6], early: &[u128; 6], moves: &[u64; 6])
    ensures ended { length ended.now ≡ 6 }
    ensures early { length early.now ≡ 6 }
    ensures moves { length moves.now ≡ 6 }
{}

#[tactic(auto, using(crate::proofs::Triples::are_six_of))]
fn is_month_whole(sums: &MonthSums)
    ensures { are_six sums.now ≡ true }
{
    have_six(&sums.ended, &sums.early, &sums.moves);
}

fn are_months_whole(all: &[MonthSums])
    ensures { list_all are_six all.now ≡ true }
{
    for sums in all {
        is_month_whole(sums);
    }
}

fn are_parts_whole(parts: &[BucketPart])
    ensures { list_all (λ part. list_all are_six part.sums) parts.now ≡ true }
{
    for part in parts {
        are_months_whole(&part.sums);
    }
}

/// States that each month of each bucket has six numbers of each kind, as their types have it.
///
/// Cost: a pass over the months.
#[tactic(auto, using(crate::proofs::Wholes::whole_by))]
pub fn each_has_six_numbers(snapshot: &Snapshot)
    ensures { AreWhole snapshot.now }
{
    are_parts_whole(&snapshot.buckets);
}
