// A disk that tells what it holds, and does not keep what it synced.
ghost use Rattle.std.specs.Prelude.{◌≡◌, ◌≤◌, [], false, true, length, OnOk};
ghost use Rattle.std.proofs.lemmas.Bool.{false≢true};
ghost use Rattle.office_base.specs.Faults.{Rose};
ghost use Rattle.disk_core.specs.Calls.{Elapses};
ghost use Rattle.disk_core.specs.Counts.{tally_of};
ghost use Rattle.disk_core.specs.Contents.{bytes_of};
ghost use Rattle.disk_core.specs.Replay.{after, HadSince, counts_now, only_now, since_earlier};
ghost use Rattle.disk_core.specs.SeenImages.{bytes_told};

use crate::memory::MemoryDisk;
use crate::tally::Counts;
use crate::{Disk, FileNo};
use office_base::Failed;
use std::alloc::Global;
use std::snapshot::Snapshot;

/// What a read of a file gives otherwise after a sync of it that failed; places and lengths are in bytes.
#[derive(Drop)]
pub enum Loss {
    /// It is no longer than this.
    Cut { to: u64 },
    /// These bytes stand from a place on, or from its end on where that comes before.
    Over { at: u64, bytes: Vec<u8> },
}

/// Three files in memory, of which no sync makes anything durable.
///
/// Its syncs are answered like those of any disk, but for one: that one fails, and its file then has lost what it is
/// told to lose. So it reads as some disks do that dropped pages which they could not write. Of images nothing is told.
#[derive(Drop)]
pub struct ForgetfulDisk {
    disk: MemoryDisk,
    loss: Loss,
    failing: u64,
    syncs: u64,
    faults: u64,
    counts: Counts,
}

impl ForgetfulDisk {
    ghost use Rattle.disk_core.specs.Files.{empty_disk};
    ghost use Rattle.disk_core.specs.Forgetful.{forgetful_state, forgetful_faults};
    ghost use Rattle.disk_core.specs.Memory.{memory_state, call_count};

    /// Makes a disk of three empty files, of which the sync with this number, counted from 1, fails.
    ///
    /// A call that finds no memory fails too.
    pub fn new(alloc: Global, failing: u64, loss: Loss) -> Self
        ensures empty { forgetful_state result ≡ empty_disk }
        ensures faults { forgetful_faults result ≡ 0 }
    {
        ForgetfulDisk {
            disk: MemoryDisk::new(alloc, Vec::new(alloc)),
            loss,
            failing,
            syncs: 0,
            faults: 0,
            counts: Counts::new(),
        }
    }

    // Counts a fault.
    fn fail(&mut self) -> Failed
        ensures rose { Rose self.old.faults self.new.faults }
        ensures later { self.old.faults ≤ self.new.faults }
        ensures disk { self.new.disk ≡ self.old.disk }
        ensures counts { self.new.counts ≡ self.old.counts }
    {
        self.faults = self.faults.saturating_add(1);
        Failed
    }

    // Loses what a sync that fails loses of its file.
    fn lose(&mut self, file: FileNo)
        ensures time { Elapses memory_state call_count (λ m t s. HadSince m.calls t s) self.old.disk
            self.new.disk }
        ensures faults { self.new.faults ≡ self.old.faults }
        ensures counts { self.new.counts ≡ self.old.counts }
    {
        let size = self.disk.size(file);
        let _ = match &self.loss {
            Loss::Cut { to } => self.disk.cut(file, size.min(*to)),
            Loss::Over { at, bytes } => self.disk.write_at(file, size.min(*at), bytes),
        };
    }
}

impl Disk for ForgetfulDisk {
    ghost tells = { true };

    ghost honest = { false };

    ghost state = { λ d. after d.disk.calls };

    ghost moment = { λ d. length d.disk.calls };

    ghost had_since = { λ d t s. HadSince d.disk.calls t s };

    ghost fault_count = { λ d. d.faults };

    ghost tally = { λ d. tally_of d.counts };

    ghost counts_now = { λ d t le. counts_now d.disk.calls t le };

    ghost only_now = { λ d s had. only_now d.disk.calls s had };

    ghost since_earlier = { λ d t u s le had. since_earlier d.disk.calls t u s le had };

    ghost reads_image = { λ is d file. absurd (false≢true is) };

    ghost honest_tells = { λ is. absurd (false≢true is) };

    ghost holds_bytes = { λ told d file. bytes_told file (bytes_of d.disk.contents) (after d.disk.calls)
        d.disk.same d.disk.small };

    fn length(&mut self, file: FileNo) -> Result<u64, Failed> {
        match self.disk.length(file) {
            Ok(size) => Ok(size),
            Err(_) => Err(self.fail()),
        }
    }

    fn read_at(&mut self, file: FileNo, at: u64, room: &mut [u8]) -> Result<(), Failed> {
        match self.disk.read_at(file, at, room) {
            Ok(()) => Ok(()),
            Err(_) => Err(self.fail()),
        }
    }

    fn write_at(&mut self, file: FileNo, at: u64, bytes: &[u8]) -> Result<(), Failed> {
        self.counts.written(file);
        let size = self.disk.size(file);
        match self.disk.write_at(file, size.min(at), bytes) {
            Ok(()) => Ok(()),
            Err(_) => Err(self.fail()),
        }
    }

    fn cut(&mut self, file: FileNo, to: u64) -> Result<(), Failed> {
        self.counts.written(file);
        let size = self.disk.size(file);
        match self.disk.cut(file, size.min(to)) {
            Ok(()) => Ok(()),
            Err(_) => Err(self.fail()),
        }
    }

    fn sync(&mut self, file: FileNo) -> Result<(), Failed> {
        self.syncs = self.syncs.saturating_add(1);
        if self.syncs == self.failing {
            self.lose(file);
            return Err(self.fail());
        }
        match self.disk.length(file) {
            Ok(_) => {
                self.counts.synced(file);
                Ok(())
            }
            Err(_) => Err(self.fail()),
        }
    }

    fn faults(&self) -> u64 {
        self.faults
    }

    fn block(&self) -> u64 {
        0
    }

    fn stamp(&self) -> Snapshot<u64> {
        self.disk.stamp()
    }
}
