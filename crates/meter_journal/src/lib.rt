//! A journal of entries, of which each is whole or absent after a crash at any moment.
#![tactic(auto)]

mod fault;
mod framing;
mod gate;
mod head;
mod journal;
mod laws;
mod making;
mod reading;
mod window;

pub use fault::OpenFault;
pub use head::{measure, read_all};
pub use journal::{AppendFault, Journal};
pub use laws::{one_head, one_history, reads_all};
pub use making::{Made, create};
pub use reading::frame_in;
pub use window::Window;
