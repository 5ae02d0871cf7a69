// Keeping a checkpoint at the end.
ghost use Rattle.std.specs.Prelude.{◌≡◌, true, false, Ok};
ghost use Rattle.slots.specs.Causes.{HasSaveCause};
ghost use Rattle.desk_core.specs.Closing.{IsToSave, Closes};
ghost use Rattle.desk_core.specs.Desk.{IsReady};

use crate::clock::Clock;
use crate::engine::Engine;
use checkpoint::{each_has_six_numbers, save};
use disk_core::Disk;
use slots::SaveFault;

impl<D: Disk + Drop, C: Clock + Drop> Engine<D, C> {
    // Whether a checkpoint is to be kept.
    fn is_to_save(&self) -> bool
        ensures yes { result ≡ true → IsToSave self.now }
        ensures no { result ≡ false → IsToSave self.now → ⊥ }
    {
        !self.stale && self.journal.end() != self.opened_at
    }

    // Saves a checkpoint of the journal's end, if the journal has not to be opened again and grew since it was opened.
    pub(crate) fn keep_checkpoint(&mut self) -> Result<(), SaveFault>
        requires ready { self.old.stale ≡ false → IsReady D.Disk self.old }

        ensures closes { Closes D.Disk self.old self.new.disk result }
        ensures clock { self.new.clock ≡ self.old.clock }
        ensures cause { HasSaveCause (D.fault_count self.old.disk) (D.fault_count self.new.disk) result }
    {
        if !self.is_to_save() {
            return Ok(());
        }
        let position = self.journal.end();
        let Ok(snapshot) = self.office.snapshot(self.alloc) else {
            return Err(SaveFault::NoMemory);
        };
        each_has_six_numbers(&snapshot);
        let saved = save(self.alloc, self.journal.disk_mut(), position, &snapshot);
        drop(snapshot);
        saved
    }
}
