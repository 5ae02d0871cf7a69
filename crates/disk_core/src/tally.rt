// What a disk was asked to write and to sync, as it counts it.
ghost use Rattle.std.specs.Prelude.{◌≡◌, false};
ghost use Rattle.disk_core.specs.Tallies.{marked, IsWritten, IsSynced};
ghost use Rattle.disk_core.specs.Counts.{tally_of};

use crate::FileNo;

// Counts up to the greatest `u64`, and of each file whether it was to be written or cut since its last sync.
#[derive(Drop)]
pub struct Counts {
    writes: u64,
    syncs: u64,
    journal: bool,
    slot0: bool,
    slot1: bool,
}

impl Counts {
    pub fn new() -> Self
        ensures { tally_of result ≡ record { writes = 0; syncs = 0; journal = false; slot0 = false; slot1 = false } }
    {
        Counts {
            writes: 0,
            syncs: 0,
            journal: false,
            slot0: false,
            slot1: false,
        }
    }

    fn mark(&mut self, file: FileNo, unsynced: bool)
        ensures { tally_of self.new ≡ marked file unsynced (tally_of self.old) }
    {
        match file {
            FileNo::Journal => self.journal = unsynced,
            FileNo::Slot0 => self.slot0 = unsynced,
            FileNo::Slot1 => self.slot1 = unsynced,
        }
    }

    // Counts a write or a cut.
    pub fn written(&mut self, file: FileNo)
        ensures { IsWritten file (tally_of self.old) (tally_of self.new) }
    {
        self.mark(file, true);
        self.writes = self.writes.saturating_add(1);
    }

    // Counts a sync that was done.
    pub fn synced(&mut self, file: FileNo)
        ensures { IsSynced file (tally_of self.old) (tally_of self.new) }
    {
        self.mark(file, false);
        self.syncs = self.syncs.saturating_add(1);
    }
}
