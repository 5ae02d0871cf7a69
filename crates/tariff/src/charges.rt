// Charges.
ghost use Rattle.std.specs.Prelude.{◌≡◌, ℕ, ◌+◌, ◌*◌, ◌/◌, ◌<◌, ◌≤◌, ◌^◌, List, true, sum_by};
ghost use Rattle.tariff.specs.declared.tiers.Tier.{Tier};
ghost use Rattle.tariff.specs.Prices.{rise_from, are_tiers, one_tier};
ghost use Rattle.tariff.specs.Charges.{charge_of, move_charge_of, IsCharge, priced, parts_from, parts_of, gib_month};

use crate::tiers::{Tier, Tiers};
use moments::{Month, month_window};

/// The bytes of a GiB.
const GIB: u128 = 1_073_741_824;

// The byte-milliseconds of a GiB-month.
#[tactic(auto, using(crate::proofs::Amounts::month_bounds))]
fn unit_of(month: Month) -> u128
    ensures unit { result ≡ gib_month month }
    ensures large { 2 ^ 60 ≤ result }
    ensures fits { result < 2 ^ 62 }
{
    let (begin, end) = month_window(month);
    GIB * (end - begin) as u128
}

// The charge of a quantity of whole units and a rest below one unit.
fn charge_through(tiers: &[Tier], whole: u128, rest: u128, unit: u128) -> u128
    requires rise { rise_from 0 tiers.now ≡ true }
    requires whole_fits { whole < 2 ^ 68 }
    requires unit_fits { unit < 2 ^ 62 }
    requires rest_below { rest < unit }
    ensures { result ≡ priced (parts_from 0 unit (whole * unit + rest) tiers.now) / unit }
{
    let mut charge = 0;
    let mut begin = 0;
    for tier in tiers {
        let price = tier.price as u128;
        match tier.upto {
            // The quantity fills the tier: whole units.
            Some(upto) if upto as u128 <= whole => {
                charge += (upto as u128 - begin) * price;
                begin = upto as u128;
            }
            _ => return charge + (whole - begin) * price + rest * price / unit,
        }
    }
    charge
}

/// Gives the charge of a month's quantity of byte-milliseconds, through the tiers of its class: the exact amount,
/// rounded down. Takes no memory.
///
/// A GiB-month is 2^30 bytes for the whole month (S3 User Guide, "Understanding your AWS billing and usage reports for
/// Amazon S3"). Own rules: the quantity fills the tiers in order, from the first; an amount is never rounded up. Cost:
/// one pass over the tiers. Tiers end at whole GiB-months, so no product is above 2^128, for any quantity.
#[tactic(auto, using(crate::proofs::TierLemmas::few_units, crate::proofs::TierLemmas::put_together))]
pub fn charge(byte_ms: u128, tiers: &Tiers, month: Month) -> u128
    ensures { result ≡ charge_of byte_ms tiers.now month }
{
    let unit = unit_of(month);
    charge_through(tiers.list(), byte_ms / unit, byte_ms % unit, unit)
}

/// Gives the charge of moves to a class, at a price per 1,000: the exact amount, rounded down. Takes no memory.
pub fn move_charge(moves: u64, price: u32) -> u128
    ensures { result ≡ move_charge_of moves price }
{
    moves as u128 * price as u128 / 1_000
}

/// States that the charge is the greatest whole number that is not above the exact amount.
#[tactic(auto, using(crate::proofs::Amounts::whole_part))]
pub fn a_charge_is_the_whole_part()
    ensures { (quantity : ℕ) (tiers : List Tier) (month : ℕ)
        → IsCharge quantity tiers month (charge_of quantity tiers month) }
{}

/// States that no part of a quantity is left out or charged twice: the sum of its parts is the quantity. With one tier
/// the amount is the quantity times the price.
pub fn the_tiers_share_a_quantity()
    ensures shared { (quantity : ℕ) (tiers : List Tier) (month : ℕ) → are_tiers tiers ≡ true
        → sum_by (λ part. part.0) (parts_of quantity tiers month) ≡ quantity }
    ensures one { (quantity price month : ℕ)
        → charge_of quantity (one_tier price) month ≡ quantity * price / gib_month month }
{}
