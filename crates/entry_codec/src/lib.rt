//! The one spelling of each entry of a journal, written and read.
#![tactic(auto)]

mod command_readers;
mod command_writers;
mod fault;
mod field_readers;
mod field_writers;
mod fields;
mod kinds;
mod months;
mod prices;
mod reading;
mod rules;
mod tiers;
mod writing;

pub use fault::EntryFault;
pub use field_readers::{class_of_rank, id_of_number, name_in};
pub use field_writers::{put_class, put_id, put_key, put_long_text, put_name, put_size, put_tags};
pub use fields::{
    counted_in, long_counted_in, short_counted_in, tags_in, u8_in, u16_in, u32_in, u64_in,
};
pub use office_types::{Command, Entry, Token};
pub use prices::put_prices;
pub use reading::{decode, each_row_reads_back, moment_in, one_spelling};
pub use rules::{put_rules, rules_in};
pub use tiers::{put_storage, tiers_in};
pub use writing::{ENTRY_LIMIT, encode, encode_command, short_spelling};
