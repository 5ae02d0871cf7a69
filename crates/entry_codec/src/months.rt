// Months, each as its year and its month of the year.
ghost use Rattle.std.specs.Prelude.{◌≡◌, ◌++◌, true, ◌&&◌, nat_le, if◌then◌else◌};
ghost use Rattle.std.specs.Prelude.{Some, None, option_map, IfSome, IfOk, OnOk};
ghost use Rattle.moments.specs.Months.{has_month, month_number, year_of, month_of_year};
ghost use Rattle.entry_codec.specs.Fields as field;
ghost use Rattle.entry_codec.specs.Fields.{format};
ghost use Rattle.entry_codec.specs.Reading.{EntryGives, value_at};

use crate::fault::EntryFault;
use crate::field_readers::fault_at;
use crate::fields::{u8_in, u16_in};
use moments::Month;
use std::alloc::AllocError;

// A year that has a January.
#[tactic(auto, unfolding(crate::specs::Reading::value_at, crate::specs::Fields::format))]
pub(crate) fn read_year(total: usize, bytes: &[u8]) -> Result<(u16, &[u8]), EntryFault>
    ensures read { EntryGives (λ x. (x.0, x.1.now)) result (value_at (format field.Year) total bytes.now) }
    ensures year { IfOk result (λ x. has_month x.0 1 ≡ true) }
{
    let Some((year, rest)) = u16_in(bytes) else {
        return Err(fault_at(total, bytes));
    };
    if Month::of(year, 1).is_none() {
        return Err(fault_at(total, bytes));
    }
    Ok((year, rest))
}

// The month of this year with a number from 1; `None` if the year has no such month.
#[tactic(auto, using(crate::proofs::MonthLemmas::months_of_year))]
fn month_in(year: u16, number: u8) -> Option<Month>
    requires { has_month year 1 ≡ true }
    ensures found { option_map month_of_year result
        ≡ (if nat_le 1 number && nat_le number 12 then Some number else None) }
    ensures whole { IfSome result (λ month. month ≡ month_number year (month_of_year month)) }
{
    Month::of(year, number)
}

// The month of this year whose number is at the front.
#[tactic(auto, unfolding(crate::specs::Reading::value_at, crate::specs::Fields::format))]
pub(crate) fn read_month(
    total: usize,
    year: u16,
    bytes: &[u8],
) -> Result<(Month, &[u8]), EntryFault>
    requires { has_month year 1 ≡ true }
    ensures read { EntryGives (λ x. (month_of_year x.0, x.1.now)) result
        (value_at (format field.Month) total bytes.now) }
    ensures whole { IfOk result (λ x. x.0 ≡ month_number year (month_of_year x.0)) }
{
    let Some((number, rest)) = u8_in(bytes) else {
        return Err(fault_at(total, bytes));
    };
    match month_in(year, number) {
        Some(month) => Ok((month, rest)),
        None => Err(fault_at(total, bytes)),
    }
}

// The year of a month, and its month of the year.
#[tactic(auto, unfolding(crate::specs::Fields::format))]
pub(crate) fn put_month(out: &mut Vec<u8>, month: Month) -> Result<(), AllocError>
    ensures { OnOk result (out.new.items ≡ out.old.items
        ++ ((format field.Year).written (year_of month) ++ (format field.Month).written (month_of_year month))) }
{
    out.extend_from_slice(&month.year().to_be_bytes())?;
    out.push(month.month())?;
    Ok(())
}
