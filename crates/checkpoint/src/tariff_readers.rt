// Reads tariffs.
ghost use Rattle.std.specs.Prelude.{◌≡◌, true, option_map, IfSome};
ghost use Rattle.std.specs.List.{list_all};
ghost use Rattle.tariff.specs.Prices.{is_price};
ghost use Rattle.entry_codec.specs.Fields as field;
ghost use Rattle.entry_codec.specs.Fields.{format};
ghost use Rattle.entry_codec.specs.Reading.{Finds};
ghost use Rattle.checkpoint.specs.Combining.{exactly};
ghost use Rattle.entry_codec.specs.Formats.{pair};
ghost use Rattle.checkpoint.specs.Parts.{month_format, tariff_format};

use crate::field_readers::month_in;
use crate::spelled::Spelled;
use entry_codec::{tiers_in, u8_in, u32_in};
use moments::Month;
use office_base::NoMemory;
use std::alloc::Global;
use tariff::{MOST_PRICE, Tariff, Tiers};

#[tactic(auto, unfolding(entry_codec::specs::Fields::format))]
fn price_in(bytes: &[u8]) -> Option<(u32, &[u8])>
    ensures price { IfSome result (λ x. is_price x.0 ≡ true) }
    ensures read { option_map (λ x. (x.0, x.1.now)) result ≡ (format field.Price).front bytes.now }
{
    let (price, rest) = u32_in(bytes)?;
    if price > MOST_PRICE {
        return None;
    }
    Some((price, rest))
}

#[tactic(auto, unfolding(entry_codec::specs::Formats::front_items))]
fn storage_in(bytes: &[u8]) -> Option<([Tiers; 6], &[u8])>
    ensures { option_map (λ x. (x.0, x.1.now)) result ≡ (exactly 6 (format field.Tiers)).front bytes.now }
{
    let (a, rest) = match tiers_in(bytes) {
        Some(read) => read,
        None => return None,
    };
    let (b, rest) = match tiers_in(rest) {
        Some(read) => read,
        None => return None,
    };
    let (c, rest) = match tiers_in(rest) {
        Some(read) => read,
        None => return None,
    };
    let (d, rest) = match tiers_in(rest) {
        Some(read) => read,
        None => return None,
    };
    let (e, rest) = match tiers_in(rest) {
        Some(read) => read,
        None => return None,
    };
    let (f, rest) = match tiers_in(rest) {
        Some(read) => read,
        None => return None,
    };
    Some(([a, b, c, d, e, f], rest))
}

#[tactic(auto, unfolding(entry_codec::specs::Formats::front_items))]
fn transition_in(bytes: &[u8]) -> Option<([u32; 5], &[u8])>
    ensures prices { IfSome result (λ x. list_all is_price x.0 ≡ true) }
    ensures read { option_map (λ x. (x.0, x.1.now)) result ≡ (exactly 5 (format field.Price)).front bytes.now }
{
    let (a, rest) = price_in(bytes)?;
    let (b, rest) = price_in(rest)?;
    let (c, rest) = price_in(rest)?;
    let (d, rest) = price_in(rest)?;
    let (e, rest) = price_in(rest)?;
    Some(([a, b, c, d, e], rest))
}

#[tactic(auto, unfolding(crate::specs::Parts::tariff_format))]
fn tariff_in(bytes: &[u8]) -> Option<(Tariff, &[u8])>
    ensures { option_map (λ x. (x.0, x.1.now)) result ≡ tariff_format.front bytes.now }
{
    let (from, rest) = match month_in(bytes) {
        Some(read) => read,
        None => return None,
    };
    let (storage, rest) = match storage_in(rest) {
        Some(read) => read,
        None => return None,
    };
    let (transition, rest) = transition_in(rest)?;
    let tariff = Tariff {
        from,
        storage,
        transition,
    };
    Some((tariff, rest))
}

impl Spelled for Tariff {
    ghost format = { tariff_format };

    fn read(_alloc: Global, bytes: &[u8]) -> Result<Option<(Tariff, &[u8])>, NoMemory> {
        Ok(tariff_in(bytes))
    }
}

// A closed month and its tariff.
impl Spelled for (Month, Tariff) {
    ghost format = { pair month_format tariff_format };

    fn read(_alloc: Global, bytes: &[u8]) -> Result<Option<((Month, Tariff), &[u8])>, NoMemory> {
        let (month, rest) = match month_in(bytes) {
            Some(read) => read,
            None => return Ok(None),
        };
        let (tariff, rest) = match tariff_in(rest) {
            Some(read) => read,
            None => return Ok(None),
        };
        Ok(Some(((month, tariff), rest)))
    }
}
