// The tiers of a storage class.
ghost use Rattle.std.specs.Prelude.{◌≡◌, ◌∷◌, [], IfSome, IfNone, true, false, length};
ghost use Rattle.tariff.specs.Prices.{is_price, are_priced, have_ends, are_tiers, one_tier, rise_from};

use crate::prices::MOST_PRICE;
use std::marker::Model;

/// A price of storage, and the quantity up to which it is charged.
#[derive(Clone, Copy, Debug, PartialEq, Eq)]
pub struct Tier {
    /// Where the tier ends, in GiB-months; None for the last tier of a class, which has no end.
    pub upto: Option<u32>,
    /// Per GiB stored for a month, in whole units.
    pub price: u32,
}

/// The most tiers of a class.
pub const MOST_TIERS: usize = 8;

// The filler after the last tier.
const NO_TIER: Tier = Tier {
    upto: None,
    price: 0,
};

/// The tiers of a class, in order: one to eight, each price at most `MOST_PRICE`, each end above the one before it.
#[derive(Clone, Copy, Debug, PartialEq, Eq)]
pub struct Tiers {
    // Filled with `NO_TIER` after the tiers.
    room: [Tier; 8],
    count: u8,
}

impl Model for Tiers {
    ghost use Rattle.std.specs.Prelude.{List, take};
    ghost use Rattle.tariff.specs.declared.tiers.Tier.{Tier};

    ghost Value = { List Tier };

    ghost use Rattle.tariff.specs.Rooms.{tiers_in, IsRoom, room_of, room_again};

    ghost view = { tiers_in };

    ghost invariant = { IsRoom };

    ghost inverse = { room_of };

    ghost inverse_ok = { room_again };
}

// The ends of tiers ascend, from 1 on, and the last tier has none.
fn rise(tiers: &[Tier]) -> bool
    ensures { result ≡ rise_from 0 tiers.now }
{
    let mut above = 0;
    for (i, tier) in tiers.iter().enumerate() {
        match tier.upto {
            None => return i + 1 == tiers.len(),
            Some(upto) => {
                if upto <= above {
                    return false;
                }
                above = upto;
            }
        }
    }
    false
}

// There are one to eight tiers, and their ends ascend.
pub(crate) fn have_ends(tiers: &[Tier]) -> bool
    ensures { result ≡ have_ends tiers.now }
{
    tiers.len() <= MOST_TIERS && rise(tiers)
}

fn are_priced(tiers: &[Tier]) -> bool
    ensures { result ≡ are_priced tiers.now }
{
    tiers.iter().all(|tier| tier.price <= MOST_PRICE)
}

impl Tiers {
    /// Makes the tiers of a class, as `of` does, from a slice. Takes no memory.
    pub fn from_slice(tiers: &[Tier]) -> Option<Tiers>
        ensures some { IfSome result (λ kept. (kept ≡ tiers.now) × (are_tiers tiers.now ≡ true)) }
        ensures none { IfNone result (are_tiers tiers.now ≡ false) }
    {
        if !have_ends(tiers) || !are_priced(tiers) {
            return None;
        }
        let mut room = [NO_TIER; 8];
        room[..tiers.len()].copy_from_slice(tiers);
        Some(Tiers {
            room,
            count: tiers.len() as u8,
        })
    }

    /// Makes the tiers of a class. None if there are not one to eight, a price is above `MOST_PRICE`, an end is 0 or
    /// not above the one before it, the last one has an end, or another one has none. Takes no memory.
    pub fn of(tiers: Vec<Tier>) -> Option<Tiers>
        ensures some { IfSome result (λ kept. (kept ≡ tiers.items) × (are_tiers tiers.items ≡ true)) }
        ensures none { IfNone result (are_tiers tiers.items ≡ false) }
    {
        Tiers::from_slice(&tiers)
    }

    /// Makes a single tier for any quantity; None if the price is above `MOST_PRICE`. Takes no memory.
    pub fn one(price: u32) -> Option<Tiers>
        ensures some { IfSome result (λ kept. (kept ≡ one_tier price) × (is_price price ≡ true)) }
        ensures none { IfNone result (is_price price ≡ false) }
    {
        Tiers::from_slice(&[Tier { upto: None, price }])
    }

    /// Reads the tiers, in order. Takes no memory.
    pub fn list(&self) -> &[Tier]
        ensures same { result.now ≡ self.now }
        ensures kept { are_tiers self.now ≡ true }
    {
        &self.room[..self.count as usize]
    }
}
