//! The next message of a stream, as an ask of the office or as a refusal.
#![tactic(auto)]

mod asks;
mod bad;
mod bodies;
mod bucket_asks;
mod method;
mod month_asks;
mod object_asks;
mod parts;
mod reader;
mod token_asks;
mod upload_asks;

pub use bad::Bad;
pub use http_wire::{Buffer, FramingRefusal, MessageStop};
pub use reader::{Heard, Reader};
