//! What a checkpoint keeps of an office, in bytes.
#![tactic(auto)]

mod body_readers;
mod body_writers;
mod bucket_readers;
mod checkpoints;
mod field_readers;
mod kept_readers;
mod kept_writers;
mod laws;
mod maps;
mod number_writers;
mod record_writers;
mod spelled;
mod sum_readers;
mod sum_writers;
mod tariff_readers;
mod upload_readers;
mod version_readers;
mod whole;

pub use body_writers::body_of;
pub use checkpoints::{load, save};
pub use laws::each_body_reads_back;
pub use whole::each_has_six_numbers;
