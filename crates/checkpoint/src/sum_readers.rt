// Reads the sums of months.
ghost use Rattle.std.specs.Prelude.{◌≡◌, option_map};
ghost use Rattle.entry_codec.specs.Formats.{pair};
ghost use Rattle.checkpoint.specs.Parts.{eight, sixteen, sums_format};

use crate::field_readers::{month_in, u128_in};
use crate::spelled::Spelled;
use accrual::MonthSums;
use entry_codec::u64_in;
use office_base::NoMemory;
use std::alloc::Global;

// The numbers of a class.
#[derive(Clone, Copy)]
struct Numbers {
    ended: u128,
    early: u128,
    moves: u64,
}

#[tactic(auto, unfolding(crate::specs::Parts::eight))]
fn numbers_in(bytes: &[u8]) -> Option<(Numbers, &[u8])>
    ensures { option_map (λ x. ((x.0.ended, (x.0.early, x.0.moves)), x.1.now)) result
        ≡ (pair sixteen (pair sixteen eight)).front bytes.now }
{
    let (ended, rest) = u128_in(bytes)?;
    let (early, rest) = u128_in(rest)?;
    let (moves, rest) = u64_in(rest)?;
    Some((
        Numbers {
            ended,
            early,
            moves,
        },
        rest,
    ))
}

#[tactic(auto, unfolding(crate::specs::Parts::sums_format, entry_codec::specs::Formats::front_items))]
fn sums_in(bytes: &[u8]) -> Option<(MonthSums, &[u8])>
    ensures { option_map (λ x. (x.0, x.1.now)) result ≡ sums_format.front bytes.now }
{
    let (month, rest) = match month_in(bytes) {
        Some(read) => read,
        None => return None,
    };
    let (a, rest) = numbers_in(rest)?;
    let (b, rest) = numbers_in(rest)?;
    let (c, rest) = numbers_in(rest)?;
    let (d, rest) = numbers_in(rest)?;
    let (e, rest) = numbers_in(rest)?;
    let (f, rest) = numbers_in(rest)?;
    let sums = MonthSums {
        month,
        ended: [a.ended, b.ended, c.ended, d.ended, e.ended, f.ended],
        early: [a.early, b.early, c.early, d.early, e.early, f.early],
        moves: [a.moves, b.moves, c.moves, d.moves, e.moves, f.moves],
    };
    Some((sums, rest))
}

impl Spelled for MonthSums {
    ghost format = { sums_format };

    fn read(_alloc: Global, bytes: &[u8]) -> Result<Option<(MonthSums, &[u8])>, NoMemory> {
        Ok(sums_in(bytes))
    }
}
