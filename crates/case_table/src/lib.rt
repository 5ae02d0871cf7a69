//! The cases of a document, the disks and messages that they need, and the texts that are printed of the results.
#![tactic(auto)]

mod cases;
mod disks;
mod fields;
mod messages;
mod reading;
mod texts;

pub use cases::{Case, Command, Document, Step, Stops, Write, bytes_of, number_of};
pub use disks::{count_images, disk_of, start};
pub use fields::{Fields, FromValue, read_document};
pub use messages::{Session, add_messages};
pub use texts::{put_bytes, put_counted, put_lines, put_times, tell_replies};
