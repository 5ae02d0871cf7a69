//! Keepers of bills: a book in memory, and one in a table of SQLite.
#![tactic(auto)]

mod month_table;
mod opening;
mod places;
mod printing;
mod row_bills;
mod sheet;
mod sqlite_keeper;
mod statements;

pub use bill_book::{Bill, BillKeeper, KeeperFault, MapKeeper, Posted};
pub use opening::table_in_memory;
pub use sqlite_keeper::SqliteKeeper;
