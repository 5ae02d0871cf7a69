// Tariffs.
ghost use Rattle.std.specs.Prelude.{◌≡◌, ◌∷◌, [], map, IfSome, IfNone, true, false};
ghost use Rattle.std.specs.List.{list_all};
ghost use Rattle.tariff.specs.Prices.{Prices, is_price, are_prices, one_tier, storage_tiers, move_price};

use crate::tiers::Tiers;
use class_rules::{Class, rank};
use moments::Month;
use std::marker::Model;

/// The largest price, in whole units.
pub const MOST_PRICE: u32 = 1_048_576;

/// The prices of the storage classes, in whole units, each at most `MOST_PRICE`.
#[derive(Clone, Copy, Debug, PartialEq, Eq)]
pub struct Tariff {
    /// The first month of the tariff.
    pub from: Month,
    /// Per GiB stored for a month, by rank from STANDARD on.
    pub storage: [Tiers; 6],
    /// Per 1,000 moves to a class, by rank from STANDARD_IA on.
    pub transition: [u32; 5],
}

impl Model for Tariff {
    ghost use Rattle.std.specs.Bool.{IsTrue};
    ghost use Rattle.std.specs.List.{list_all};
    ghost use Rattle.tariff.specs.Prices.{Prices, is_price};

    ghost Value = { Prices };

    ghost view = { λ t. record { from = t.from; storage = t.storage; transition = t.transition } };

    ghost invariant = { λ t. IsTrue (list_all is_price t.transition) };

    ghost inverse = { λ t. record { from = t.from; storage = t.storage; transition = t.transition } };
}

// A single tier for each of these prices.
fn flat_tiers(prices: &[u32; 6]) -> Option<[Tiers; 6]>
    ensures some { IfSome result (λ tiers. (tiers ≡ map one_tier prices.now) × (list_all is_price prices.now ≡ true)) }
    ensures none { IfNone result (list_all is_price prices.now ≡ false) }
{
    let a = Tiers::one(prices[0])?;
    let b = Tiers::one(prices[1])?;
    let c = Tiers::one(prices[2])?;
    let d = Tiers::one(prices[3])?;
    let e = Tiers::one(prices[4])?;
    let f = Tiers::one(prices[5])?;
    Some([a, b, c, d, e, f])
}

impl Tariff {
    /// Gives the tariff of these prices from January 1970 on, each for any quantity; None if a price is above
    /// `MOST_PRICE`. Takes no memory.
    pub fn of(storage: [u32; 6], transition: [u32; 5]) -> Option<Tariff>
        ensures some { IfSome result (λ tariff.
            (tariff ≡ record { from = 0; storage = map one_tier storage; transition = transition })
            × (are_prices storage transition ≡ true)) }
        ensures none { IfNone result (are_prices storage transition ≡ false) }
    {
        if !are_all_prices(&transition) {
            return None;
        }
        let storage = flat_tiers(&storage)?;
        Some(Tariff {
            from: Month::numbered(0),
            storage,
            transition,
        })
    }

    /// Reads the tiers of a class.
    pub fn storage_tiers(&self, class: Class) -> &Tiers
        ensures { result.now ≡ storage_tiers self.now class }
    {
        &self.storage[rank(class) as usize]
    }

    /// Reads the price of 1,000 moves to a class; 0 for STANDARD, to which nothing moves.
    pub fn move_price(&self, class: Class) -> u32
        ensures { result ≡ move_price self.now class }
    {
        match class {
            Class::Standard => 0,
            _ => self.transition[rank(class) as usize - 1],
        }
    }
}

pub(crate) fn are_all_prices(prices: &[u32]) -> bool
    ensures { result ≡ list_all is_price prices.now }
{
    prices.iter().all(|price| *price <= MOST_PRICE)
}
