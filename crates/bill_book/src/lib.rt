//! Keepers of bills: what each bucket owes for a closed month, kept once.
#![tactic(auto)]

mod bill;
mod keeper;
mod map_keeper;

pub use bill::Bill;
pub use keeper::{BillKeeper, KeeperFault, Posted};
pub use map_keeper::MapKeeper;
