// Writes the sums of months.
ghost use Rattle.std.specs.Prelude.{◌≡◌, ◌++◌, ◌≤◌, true, length, OnOk};
ghost use Rattle.std.specs.List.{flat_map};
ghost use Rattle.entry_codec.specs.Formats.{list, pair};
ghost use Rattle.checkpoint.specs.Combining.{exactly};
ghost use Rattle.checkpoint.specs.Parts.{four, eight, sixteen, triples, sums_format};

use crate::number_writers::{put_count, put_month, put_u64, put_u128};
use accrual::MonthSums;
use std::alloc::AllocError;

// The three numbers of a class.
fn put_numbers(out: &mut Vec<u8>, ended: u128, early: u128, moves: u64) -> Result<(), AllocError>
    ensures bytes { OnOk result
        (out.new.items ≡ out.old.items ++ (pair sixteen (pair sixteen eight)).written (ended, (early, moves))) }
    ensures has { OnOk result ((pair sixteen (pair sixteen eight)).has (ended, (early, moves)) ≡ true) }
{
    put_u128(out, ended)?;
    put_u128(out, early)?;
    put_u64(out, moves)
}

// The three numbers of each class, class by class.
fn put_triples(
    out: &mut Vec<u8>,
    ended: &[u128; 6],
    early: &[u128; 6],
    moves: &[u64; 6],
) -> Result<(), AllocError>
    ensures bytes { OnOk result (out.new.items ≡ out.old.items
        ++ flat_map (pair sixteen (pair sixteen eight)).written (triples ended.now early.now moves.now)) }
    ensures has { OnOk result ((exactly 6 (pair sixteen (pair sixteen eight))).has
        (triples ended.now early.now moves.now) ≡ true) }
    ensures six { (length ended.now ≡ 6) × (length early.now ≡ 6) × (length moves.now ≡ 6) }
{
    for class in 0..6 {
        put_numbers(out, ended[class], early[class], moves[class])?;
    }
    Ok(())
}

#[tactic(auto, using(crate::proofs::Triples::are_six_of), unfolding(crate::specs::Parts::sums_format))]
fn put_month_sums(out: &mut Vec<u8>, sums: &MonthSums) -> Result<(), AllocError>
    ensures bytes { OnOk result (out.new.items ≡ out.old.items ++ sums_format.written sums.now) }
    ensures has { OnOk result (sums_format.has sums.now ≡ true) }
{
    put_month(out, sums.month)?;
    put_triples(out, &sums.ended, &sums.early, &sums.moves)
}

// The sums of the months of a bucket.
pub(crate) fn put_sums(out: &mut Vec<u8>, sums: &[MonthSums]) -> Result<(), AllocError>
    ensures bytes { OnOk result (out.new.items ≡ out.old.items ++ (list four sums_format).written sums.now) }
    ensures has { OnOk result ((list four sums_format).has sums.now ≡ true) }
{
    put_count(out, sums.len())?;
    for month in sums {
        put_month_sums(out, month)?;
    }
    Ok(())
}
