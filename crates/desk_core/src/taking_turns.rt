// A desk whose calls threads make in turns.
use crate::acked::Acked;
use crate::clock::Clock;
use crate::desk::Desk;
use crate::fault::DeskFault;
use disk_core::Disk;
use office_types::Ask;
use turn_core::Turned;

impl<D: Disk + Drop, C: Clock + Drop> Turned for Desk<D, C> {
    ghost use Rattle.desk_core.specs.Turns.{Reaches, LegalSince};
    ghost use Rattle.desk_core.specs.TurnLaws.{legal_since};

    type Ask = Ask;

    type Say = Result<Acked, DeskFault>;

    ghost stands = { Reaches D.Disk C.Clock };

    ghost lawful = { LegalSince D.Disk };

    ghost is_lawful = { legal_since _ _ D.counts_now D.reads_image };

    fn take(&mut self, ask: &Ask) -> Result<Acked, DeskFault> {
        self.submit(ask)
    }
}
