// A pass, with which a thread takes turns.
ghost use Rattle.std.specs.Prelude.{◌≡◌, ◌-◌, ◌^◌, min, length};

use crate::view::{Kept, View};
use atomic_table::Seat;

/// A right to take turns. Contracts see its `View`.
///
/// A pass that is dropped takes its shares with it. The turns can then not be closed.
#[derive(Drop)]
pub struct TicketPass<S, V> {
    pub(crate) seat: Seat<S, V>,
    pub(crate) calls: u64,
}

impl<T, A, S> TicketPass<Option<Kept<T, A, S>>, View<T, A, S>> {
    ghost use Rattle.turn_core.specs.Passes.{view, IsBetweenCalls};

    /// Returns how many calls the pass made, or the greatest `u64` if it made more.
    pub fn calls(&self) -> u64
        ensures { IsBetweenCalls self.now → result ≡ min (length (view self.now).made) (2 ^ 64 - 1) }
    {
        self.calls
    }
}
