//! A session that answers each message of a stream in order, and the texts of its replies.
#![tactic(auto)]

mod answering;
mod bad;
mod desk_teller;
mod memory_replies;
mod printing;
mod refusing;
mod replies;
mod talking;
mod teller;
mod texts;
mod writer_replies;

pub use answering::{SessionEnd, is_in_pieces};
pub use bad::Bad;
pub use http_asks::{Buffer, FramingRefusal, Heard, MessageStop, Reader};
pub use http_wire::{MemorySource, ReaderSource, Source};
pub use memory_replies::MemoryReplies;
pub use printing::{NoRoom, print_fault, print_query, print_reply};
pub use refusing::print_bad;
pub use replies::Replies;
pub use talking::session;
pub use teller::Teller;
pub use writer_replies::WriterReplies;
