//! What storage costs: the prices of each class, in tiers and from a month on, and the charge of a month's quantities.
#![tactic(auto)]

mod boxed;
mod charges;
mod fault;
mod prices;
mod read;
mod tier;
mod tiers;

pub use boxed::BoxedTariff;
pub use charges::{a_charge_is_the_whole_part, charge, move_charge, the_tiers_share_a_quantity};
pub use fault::{TariffFault, TariffTable};
pub use prices::{MOST_PRICE, Tariff};
pub use tiers::{MOST_TIERS, Tier, Tiers};
