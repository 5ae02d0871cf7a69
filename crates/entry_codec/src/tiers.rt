// Tiers: their number in one byte, and for each its end, 0 if it has none, and its price, in four bytes each.
ghost use Rattle.std.specs.Prelude.{◌≡◌, ◌≤◌, ◌++◌, Some, true, map, option_map, take, length, OnOk};
ghost use Rattle.std.specs.List.{list_all, flat_map};
ghost use Rattle.tariff.specs.Prices.{are_tiers};
ghost use Rattle.entry_codec.specs.Formats.{front_items};
ghost use Rattle.entry_codec.specs.Fields as field;
ghost use Rattle.entry_codec.specs.Fields.{format, tier_format, tier_value};
ghost use Rattle.entry_codec.specs.Kinds.{has_one, is_plain, first_price};
ghost use Rattle.entry_codec.specs.Reading.{EntryGives, value_at, items_at};

use crate::fault::EntryFault;
use crate::field_readers::fault_at;
use crate::fields::{u8_in, u32_in};
use crate::prices::put_price;
use std::alloc::AllocError;
use tariff::{MOST_TIERS, Tariff, Tier, Tiers};

const NO_TIER: Tier = Tier {
    upto: None,
    price: 0,
};

fn tier_of(upto: u32, price: u32) -> Tier
    ensures { tier_value (upto, price) ≡ Some result }
{
    Tier {
        upto: if upto == 0 { None } else { Some(upto) },
        price,
    }
}

#[tactic(auto, unfolding(crate::specs::Fields::tier_format))]
fn tier_in(bytes: &[u8]) -> Option<(Tier, &[u8])>
    ensures { option_map (λ x. (x.0, x.1.now)) result ≡ tier_format.front bytes.now }
{
    let (upto, rest) = u32_in(bytes)?;
    let (price, rest) = u32_in(rest)?;
    Some((tier_of(upto, price), rest))
}

// Reads this many tiers into the front of the room.
fn list_in<'a>(count: u8, bytes: &'a [u8], room: &mut [Tier]) -> Option<&'a [u8]>
    requires { count ≤ length room.old }
    ensures { option_map (λ rest. (take count room.new, rest.now)) result ≡ front_items tier_format count bytes.now }
{
    let mut rest = bytes;
    for i in 0..count as usize {
        let Some((tier, after)) = tier_in(rest) else {
            return None;
        };
        room[i] = tier;
        rest = after;
    }
    Some(rest)
}

/// Reads the tiers of a class; `None` if the bytes do not begin with tiers.
pub fn tiers_in(bytes: &[u8]) -> Option<(Tiers, &[u8])>
    ensures { option_map (λ x. (x.0, x.1.now)) result ≡ (format field.Tiers).front bytes.now }
{
    let Some((count, rest)) = u8_in(bytes) else {
        return None;
    };
    if count as usize > MOST_TIERS {
        return None;
    }
    let mut room = [NO_TIER; 8];
    let Some(rest) = list_in(count, rest, &mut room) else {
        return None;
    };
    match Tiers::from_slice(&room[..count as usize]) {
        Some(tiers) => Some((tiers, rest)),
        None => None,
    }
}

#[tactic(auto, unfolding(crate::specs::Reading::value_at))]
fn tiers_of(total: usize, bytes: &[u8]) -> Result<(Tiers, &[u8]), EntryFault>
    ensures { EntryGives (λ x. (x.0, x.1.now)) result (value_at (format field.Tiers) total bytes.now) }
{
    match tiers_in(bytes) {
        Some(read) => Ok(read),
        None => Err(fault_at(total, bytes)),
    }
}

// The tiers of as many classes as there is room for.
pub(crate) fn storage_of<'a>(
    total: usize,
    bytes: &'a [u8],
    room: &mut [Tiers],
) -> Result<&'a [u8], EntryFault>
    ensures { EntryGives (λ rest. (room.new, rest.now)) result
        (items_at (format field.Tiers) (length room.old) total bytes.now) }
{
    let mut rest = bytes;
    for i in 0..room.len() {
        let (tiers, after) = match tiers_of(total, rest) {
            Ok(read) => read,
            Err(e) => return Err(e),
        };
        room[i] = tiers;
        rest = after;
    }
    Ok(rest)
}

// One tier, with the price 0.
pub(crate) fn free() -> Tiers {
    match Tiers::one(0) {
        Some(tiers) => tiers,
        None => unreachable!(),
    }
}

#[tactic(auto, unfolding(crate::specs::Fields::tier_format))]
fn put_tier(out: &mut Vec<u8>, tier: Tier) -> Result<(), AllocError>
    ensures { OnOk result (out.new.items ≡ out.old.items ++ tier_format.written tier) }
{
    out.extend_from_slice(&tier.upto.unwrap_or(0).to_be_bytes())?;
    out.extend_from_slice(&tier.price.to_be_bytes())
}

fn put_tiers(out: &mut Vec<u8>, tiers: &Tiers) -> Result<(), AllocError>
    ensures bytes { OnOk result (out.new.items ≡ out.old.items ++ (format field.Tiers).written tiers.now) }
    ensures are { are_tiers tiers.now ≡ true }
{
    let list = tiers.list();
    out.extend_from_slice(&(list.len() as u8).to_be_bytes())?;
    for tier in list {
        put_tier(out, *tier)?;
    }
    Ok(())
}

/// Writes the tiers of each class.
pub fn put_storage(out: &mut Vec<u8>, storage: &[Tiers]) -> Result<(), AllocError>
    ensures bytes { OnOk result
        (out.new.items ≡ out.old.items ++ flat_map (format field.Tiers).written storage.now) }
    ensures are { OnOk result (list_all are_tiers storage.now ≡ true) }
{
    for tiers in storage {
        put_tiers(out, tiers)?;
    }
    Ok(())
}

fn first_price(tiers: &Tiers) -> u32
    ensures price { result ≡ first_price tiers.now }
    ensures are { are_tiers tiers.now ≡ true }
{
    match tiers.list() {
        [tier, ..] => tier.price,
        [] => 0,
    }
}

// The price of the first tier of each class.
pub(crate) fn put_first_prices(out: &mut Vec<u8>, storage: &[Tiers]) -> Result<(), AllocError>
    ensures bytes { OnOk result (out.new.items
        ≡ out.old.items ++ flat_map (format field.Price).written (map first_price storage.now)) }
    ensures are { OnOk result (list_all are_tiers storage.now ≡ true) }
{
    for tiers in storage {
        put_price(out, first_price(tiers))?;
    }
    Ok(())
}

fn has_one(tiers: &Tiers) -> bool
    ensures { result ≡ has_one tiers.now }
{
    tiers.list().len() == 1
}

fn have_one(storage: &[Tiers]) -> bool
    ensures { result ≡ list_all has_one storage.now }
{
    storage.iter().all(|tiers| has_one(tiers))
}

// Whether the tariff holds at all times, with one price for each class.
pub(crate) fn is_plain(tariff: &Tariff) -> bool
    ensures { result ≡ is_plain tariff.now }
{
    tariff.from.number() == 0 && have_one(&tariff.storage)
}
