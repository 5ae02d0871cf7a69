//! The answers of the office, printed: short ones without memory, the others into memory of their own.
#![tactic(auto)]

mod body;
mod chosen;
mod members;
mod meters;
mod pieces;
mod price_body;
mod printing;
mod refusals;
mod room;
mod stack_body;
mod tag_body;
mod upload_body;

pub use pieces::{PIECE_ROOM, StackPieces};
pub use printing::{is_short, print_answer, put_answer, put_head};
pub use refusals::put_error;
pub use room::{put, put_number, put_quoted, room_len};
