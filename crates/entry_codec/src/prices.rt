// Prices, each in four bytes.
ghost use Rattle.std.specs.Prelude.{◌≡◌, ◌++◌, true, IfOk, OnOk, length};
ghost use Rattle.std.specs.List.{list_all, flat_map};
ghost use Rattle.tariff.specs.Prices.{is_price};
ghost use Rattle.entry_codec.specs.Fields as field;
ghost use Rattle.entry_codec.specs.Fields.{format};
ghost use Rattle.entry_codec.specs.Reading.{EntryGives, value_at, items_at};

use crate::fault::EntryFault;
use crate::field_readers::fault_at;
use crate::fields::u32_in;
use std::alloc::AllocError;
use tariff::MOST_PRICE;

#[tactic(auto, unfolding(crate::specs::Reading::value_at, crate::specs::Fields::format))]
fn price_of(total: usize, bytes: &[u8]) -> Result<(u32, &[u8]), EntryFault>
    ensures read { EntryGives (λ x. (x.0, x.1.now)) result (value_at (format field.Price) total bytes.now) }
    ensures price { IfOk result (λ x. is_price x.0 ≡ true) }
{
    let Some((price, rest)) = u32_in(bytes) else {
        return Err(fault_at(total, bytes));
    };
    if price > MOST_PRICE {
        return Err(fault_at(total, bytes));
    }
    Ok((price, rest))
}

// Prices, as many as there is room for.
pub(crate) fn prices_of<'a>(
    total: usize,
    bytes: &'a [u8],
    room: &mut [u32],
) -> Result<&'a [u8], EntryFault>
    ensures read { EntryGives (λ rest. (room.new, rest.now)) result
        (items_at (format field.Price) (length room.old) total bytes.now) }
    ensures prices { OnOk result (list_all is_price room.new ≡ true) }
{
    let mut rest = bytes;
    for i in 0..room.len() {
        let (price, after) = match price_of(total, rest) {
            Ok(read) => read,
            Err(e) => return Err(e),
        };
        room[i] = price;
        rest = after;
    }
    Ok(rest)
}

#[tactic(auto, unfolding(crate::specs::Fields::format))]
pub(crate) fn put_price(out: &mut Vec<u8>, price: u32) -> Result<(), AllocError>
    ensures { OnOk result (out.new.items ≡ out.old.items ++ (format field.Price).written price) }
{
    out.extend_from_slice(&price.to_be_bytes())
}

/// Writes prices, each in four bytes.
pub fn put_prices(out: &mut Vec<u8>, prices: &[u32]) -> Result<(), AllocError>
    ensures { OnOk result (out.new.items ≡ out.old.items ++ flat_map (format field.Price).written prices.now) }
{
    for price in prices {
        put_price(out, *price)?;
    }
    Ok(())
}
