//! Sources of bytes, and the message at the front of a stream.
#![tactic(auto)]

mod body;
mod buffer;
mod fields;
mod framing;
mod head;
mod laws;
mod memory_source;
mod message;
mod reading;
mod source;

pub use buffer::Buffer;
pub use fields::Found;
pub use framing::FramingRefusal;
pub use head::{Front, front_of};
pub use laws::{messages_unique, reads_messages, stands_more, stands_rest, stands_unique};
pub use memory_source::MemorySource;
pub use message::{Message, MessageStop, Next, read_message};
pub use source::{ReaderSource, Source};
