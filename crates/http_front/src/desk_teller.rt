// A desk answers asks.
use crate::teller::Teller;
use desk_core::{Acked, Clock, Desk, DeskFault};
use disk_core::Disk;
use office_types::Ask;

impl<D: Disk + Drop, C: Clock + Drop> Teller for Desk<D, C> {
    ghost use Rattle.desk_core.specs.Submitting.{Submits};

    ghost moves = { λ old ask said new. Submits D.Disk C.Clock old ask said new };

    fn ask(&mut self, ask: &Ask) -> Result<Acked, DeskFault> {
        self.submit(ask)
    }

    fn answered(&mut self) {}
}
