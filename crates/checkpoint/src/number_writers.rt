// Writes numbers, moments and months. A writer adds a value as its format has it.
ghost use Rattle.std.specs.Prelude.{◌≡◌, ◌++◌, true, length, OnOk};
ghost use Rattle.entry_codec.specs.Fields.{moment_format};
ghost use Rattle.checkpoint.specs.Combining.{flag_format};
ghost use Rattle.checkpoint.specs.Parts.{four, eight, sixteen, last_format, open_format, month_format};

use moments::{Moment, Month};
use std::alloc::AllocError;

// A count in four bytes. More than that many elements have no place in memory either.
#[tactic(auto, unfolding(crate::specs::Parts::four))]
pub(crate) fn put_count(out: &mut Vec<u8>, count: usize) -> Result<(), AllocError>
    ensures bytes { OnOk result (out.new.items ≡ out.old.items ++ four.written count) }
    ensures has { OnOk result (four.has count ≡ true) }
{
    if count > u32::MAX as usize {
        return Err(AllocError);
    }
    out.extend_from_slice(&(count as u32).to_be_bytes())
}

#[tactic(auto, unfolding(crate::specs::Parts::four))]
pub(crate) fn put_u32(out: &mut Vec<u8>, number: u32) -> Result<(), AllocError>
    ensures bytes { OnOk result (out.new.items ≡ out.old.items ++ four.written number) }
    ensures has { OnOk result (four.has number ≡ true) }
{
    out.extend_from_slice(&number.to_be_bytes())
}

#[tactic(auto, unfolding(crate::specs::Parts::eight))]
pub(crate) fn put_u64(out: &mut Vec<u8>, number: u64) -> Result<(), AllocError>
    ensures bytes { OnOk result (out.new.items ≡ out.old.items ++ eight.written number) }
    ensures has { OnOk result (eight.has number ≡ true) }
{
    out.extend_from_slice(&number.to_be_bytes())
}

#[tactic(auto, unfolding(crate::specs::Parts::sixteen))]
pub(crate) fn put_u128(out: &mut Vec<u8>, number: u128) -> Result<(), AllocError>
    ensures bytes { OnOk result (out.new.items ≡ out.old.items ++ sixteen.written number) }
    ensures has { OnOk result (sixteen.has number ≡ true) }
{
    put_u64(out, (number / 0x1_0000_0000_0000_0000) as u64)?;
    put_u64(out, (number % 0x1_0000_0000_0000_0000) as u64)
}

#[tactic(auto, unfolding(crate::specs::Combining::flag_format))]
pub(crate) fn put_flag(out: &mut Vec<u8>, flag: bool) -> Result<(), AllocError>
    ensures bytes { OnOk result (out.new.items ≡ out.old.items ++ flag_format.written flag) }
    ensures has { OnOk result (flag_format.has flag ≡ true) }
{
    out.push(if flag { 1 } else { 0 })?;
    Ok(())
}

#[tactic(auto, unfolding(entry_codec::specs::Fields::moment_format))]
pub(crate) fn put_moment(out: &mut Vec<u8>, moment: Moment) -> Result<(), AllocError>
    ensures bytes { OnOk result (out.new.items ≡ out.old.items ++ moment_format.written moment) }
    ensures has { OnOk result (moment_format.has moment ≡ true) }
{
    out.extend_from_slice(&moment.ms().to_be_bytes())
}

#[tactic(auto, unfolding(crate::specs::Parts::month_format))]
pub(crate) fn put_month(out: &mut Vec<u8>, month: Month) -> Result<(), AllocError>
    ensures bytes { OnOk result (out.new.items ≡ out.old.items ++ month_format.written month) }
    ensures has { OnOk result (month_format.has month ≡ true) }
{
    out.extend_from_slice(&month.year().to_be_bytes())?;
    out.push(month.month())?;
    Ok(())
}

// The last moment; all ones for none.
#[tactic(auto, unfolding(crate::specs::Parts::last_format, crate::specs::Parts::eight))]
pub(crate) fn put_last(out: &mut Vec<u8>, last: Option<Moment>) -> Result<(), AllocError>
    ensures bytes { OnOk result (out.new.items ≡ out.old.items ++ last_format.written last) }
    ensures has { OnOk result (last_format.has last ≡ true) }
{
    let number = match last {
        None => u64::MAX,
        Some(moment) => moment.ms(),
    };
    out.extend_from_slice(&number.to_be_bytes())
}

// The first open month; zeros for none.
#[tactic(auto, unfolding(crate::specs::Parts::open_format, crate::specs::Parts::month_format))]
pub(crate) fn put_first_open(out: &mut Vec<u8>, month: Option<Month>) -> Result<(), AllocError>
    ensures bytes { OnOk result (out.new.items ≡ out.old.items ++ open_format.written month) }
    ensures has { OnOk result (open_format.has month ≡ true) }
{
    match month {
        None => out.extend_from_slice(&[0, 0, 0]),
        Some(month) => put_month(out, month),
    }
}
