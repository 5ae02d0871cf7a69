//! One office over its journal and a clock: each call is answered once its effect is durable.
#![tactic(auto)]

mod acked;
mod clock;
mod desk;
mod ending;
mod engine;
mod fault;
mod reopening;
mod taking;
mod taking_turns;

pub use acked::Acked;
pub use clock::{Clock, ListClock, SystemClock};
pub use desk::Desk;
pub use fault::DeskFault;
pub use slots::SaveFault;
pub use taking::{entry_is_new, entry_refused, entry_taken, is_in_order};
