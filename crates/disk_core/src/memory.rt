// A disk in memory, which keeps each call.
ghost use Rattle.std.specs.Prelude.{◌≡◌, ◌+◌, ◌≤◌, ◌++◌, [], ◌∷◌, true, length, take, drop, IfOk, OnOk, OnErr};
ghost use Rattle.std.specs.Bool.{Decides};
ghost use Rattle.std.specs.List.{Contains};
ghost use Rattle.disk_core.specs.Files.{file_in, seen_in, put, SameReads, Wrote, Shortened, Synced};
ghost use Rattle.disk_core.specs.Contents.{AreBytes, bytes_of, seens};
ghost use Rattle.disk_core.specs.Pending.{AreImages};
ghost use Rattle.disk_core.specs.Choices.{GivesEach};
ghost use Rattle.office_base.specs.Faults.{Rose, HasCause};
ghost use Rattle.disk_core.specs.Kept.{Other, Write, Cut, Sync};
ghost use Rattle.disk_core.specs.Tallies.{IsWritten, IsSynced};
ghost use Rattle.disk_core.specs.Replay.{IsUntold, after, HadSince, counts_now, only_now, since_earlier};
ghost use Rattle.disk_core.specs.SeenImages.{own, own_image, bytes_told};

use crate::call_list::{CallList, DiskCall};
use crate::contents::Contents;
use crate::tally::Counts;
use crate::{Disk, FileNo};
use office_base::{Failed, NoMemory};
use std::alloc::{AllocError, Global};
use std::snapshot::Snapshot;

/// Three files in memory, with each call that was made.
#[derive(Drop)]
pub struct MemoryDisk {
    alloc: Global,
    contents: Contents,
    calls: CallList,
    failing: Vec<u64>,
    faults: u64,
    counts: Counts,
    block: u64,
    ghost within: { block ≤ 4096 },
    ghost same: { bytes_of contents ≡ seens (after calls) },
    ghost small: { AreBytes (bytes_of contents) },
}

fn find_images(
    calls: &CallList,
    count: usize,
    file: FileNo,
    alloc: Global,
) -> Result<Vec<Vec<u8>>, AllocError>
    requires { count ≤ length calls.now }
    ensures images { IfOk result (λ images. AreImages (file_in file (after (take count calls.now))) images.items) }
    ensures each { IfOk result (λ images. GivesEach (file_in file (after (take count calls.now))) images.items) }
{
    let pending = calls.pending(count, file, alloc)?;
    pending.images(alloc)
}

impl MemoryDisk {
    ghost use Rattle.disk_core.specs.Files.{empty_disk};
    ghost use Rattle.disk_core.specs.Images.{state_at};
    ghost use Rattle.disk_core.specs.Memory.{memory_state, memory_faults, memory_failing, call_count, IsCall};

    /// Makes a disk of three empty files, of which exactly the calls with these numbers fail.
    ///
    /// Calls are counted from 1, `length`, `read_at`, `write_at`, `cut` and `sync` alike. A write or a cut that
    /// fails so has happened as a whole; a sync that fails so has not happened. A call that finds no memory fails
    /// too: it changes nothing, and is not counted as a call.
    pub fn new(alloc: Global, failing: Vec<u64>) -> Self
        ensures empty { memory_state result ≡ empty_disk }
        ensures failing { memory_failing result ≡ failing.items }
        ensures calls { call_count result ≡ 0 }
        ensures faults { memory_faults result ≡ 0 }
    {
        MemoryDisk::with_block(alloc, failing, 0)
    }

    /// Makes the same disk, but one with this block, in bytes.
    #[tactic(auto, unfolding(crate::specs::Replay::after, crate::specs::Replay::replay))]
    pub fn with_block(alloc: Global, failing: Vec<u64>, block: u64) -> Self
        requires { block ≤ 4096 }
        ensures empty { memory_state result ≡ empty_disk }
        ensures failing { memory_failing result ≡ failing.items }
        ensures calls { call_count result ≡ 0 }
        ensures faults { memory_faults result ≡ 0 }
    {
        let contents = Contents::new(alloc);
        contents.small();
        MemoryDisk {
            alloc,
            contents,
            calls: CallList::new(alloc),
            failing,
            faults: 0,
            counts: Counts::new(),
            block,
        }
    }

    /// Gives images of a file that a crash after the first `after` calls may leave, for tests; after all calls where
    /// there are fewer.
    ///
    /// Each of them is an image, and there is one for each choice of a length that the file had since its last sync
    /// (as often as it had it), a place from 0 to that length, one filling for all pending bytes before the place, and
    /// one for those from there on.
    /// A pending byte is one in a range written since the last sync, or past the length at that sync. Its fillings are
    /// what that sync left there, what a read gives (each 0 past its end), and 0x37. All other bytes are as synced.
    ///
    /// # Errors
    ///
    /// `NoMemory`: memory ran out.
    pub fn images(&self, file: FileNo, after: u64) -> Result<Vec<Vec<u8>>, NoMemory>
        ensures images { IfOk result (λ images. AreImages (file_in file (state_at self.now after)) images.items) }
        ensures each { IfOk result (λ images. GivesEach (file_in file (state_at self.now after)) images.items) }
    {
        let count = (after as usize).min(self.calls.len());
        match find_images(&self.calls, count, file, self.alloc) {
            Ok(images) => Ok(images),
            Err(_) => Err(NoMemory),
        }
    }

    // The length of a file, in bytes. It is no call.
    pub(crate) fn size(&self, file: FileNo) -> u64
        ensures { result ≡ length (seen_in file (memory_state self.now)) }
    {
        self.contents.file(file).len() as u64
    }

    // Whether the next call is one that is to fail.
    fn next_fails(&self) -> bool
        ensures { Decides result (Contains self.now.failing.items (length self.now.calls + 1)) }
    {
        self.failing.contains(&(self.calls.len() as u64 + 1))
    }

    // Counts a fault.
    fn fail(&mut self) -> Failed
        ensures counts { self.new.counts ≡ self.old.counts }
        ensures calls { self.new.calls ≡ self.old.calls }
        ensures failing { self.new.failing.items ≡ self.old.failing.items }
        ensures later { self.old.faults ≤ self.new.faults }
        ensures rose { Rose self.old.faults self.new.faults }
    {
        self.faults = self.faults.saturating_add(1);
        Failed
    }

    // Makes a call that changes nothing; it fails where it is to.
    fn pass(&mut self) -> Result<(), Failed>
        ensures counts { self.new.counts ≡ self.old.counts }
        ensures ok { OnOk result ((self.new.calls ≡ self.old.calls ++ Other ∷ [])
            × (self.new.faults ≡ self.old.faults)) }
        ensures err { OnErr result (IsUntold self.old.calls self.new.calls) }
        ensures call { IsCall self.old self.new result }
        ensures cause { HasCause self.old.faults self.new.faults result }
    {
        let fails = self.next_fails();
        match self.note() {
            Err(_) => Err(self.fail()),
            Ok(()) if fails => Err(self.fail()),
            Ok(()) => Ok(()),
        }
    }

    // Writes as a whole and keeps the call, or changes nothing.
    fn write(&mut self, file: FileNo, at: u64, bytes: &[u8]) -> Result<(), AllocError>
        requires { at ≤ length (seen_in file (after self.old.calls)) }
        ensures counts { self.new.counts ≡ self.old.counts }
        ensures ok { OnOk result (self.new.calls ≡ self.old.calls ++ Write file at bytes.now ∷ []) }
        ensures err { OnErr result (self.new.calls ≡ self.old.calls) }
        ensures failing { self.new.failing.items ≡ self.old.failing.items }
        ensures faults { self.new.faults ≡ self.old.faults }
    {
        self.calls.write(&mut self.contents, file, at, bytes)
    }

    // Keeps a call that changes nothing, or changes nothing itself.
    fn note(&mut self) -> Result<(), AllocError>
        ensures counts { self.new.counts ≡ self.old.counts }
        ensures ok { OnOk result (self.new.calls ≡ self.old.calls ++ Other ∷ []) }
        ensures err { OnErr result (self.new.calls ≡ self.old.calls) }
        ensures failing { self.new.failing.items ≡ self.old.failing.items }
        ensures faults { self.new.faults ≡ self.old.faults }
    {
        self.calls.keep(DiskCall::Other)
    }

    // Keeps a sync, or changes nothing.
    fn settle(&mut self, file: FileNo) -> Result<(), AllocError>
        ensures counts { self.new.counts ≡ self.old.counts }
        ensures ok { OnOk result (self.new.calls ≡ self.old.calls ++ Sync file ∷ []) }
        ensures err { OnErr result (self.new.calls ≡ self.old.calls) }
        ensures failing { self.new.failing.items ≡ self.old.failing.items }
        ensures faults { self.new.faults ≡ self.old.faults }
    {
        self.calls.keep(DiskCall::Sync { file })
    }

    // Cuts and keeps the call, or changes nothing.
    fn shorten(&mut self, file: FileNo, to: u64) -> Result<(), AllocError>
        requires { to ≤ length (seen_in file (after self.old.calls)) }
        ensures counts { self.new.counts ≡ self.old.counts }
        ensures ok { OnOk result (self.new.calls ≡ self.old.calls ++ Cut file to ∷ []) }
        ensures err { OnErr result (self.new.calls ≡ self.old.calls) }
        ensures failing { self.new.failing.items ≡ self.old.failing.items }
        ensures faults { self.new.faults ≡ self.old.faults }
    {
        self.calls.cut(&mut self.contents, file, to)
    }
}

#[tactic(auto, using(crate::proofs::Replay::facts))]
impl Disk for MemoryDisk {
    ghost use Rattle.disk_core.specs.Memory.{IsCall, IsCounted, memory_state, memory_tally};

    ghost tells = { true };

    ghost honest = { true };

    ghost state = { λ m. after m.calls };

    ghost moment = { λ m. length m.calls };

    ghost had_since = { λ m t s. HadSince m.calls t s };

    ghost fault_count = { λ m. m.faults };

    ghost tally = { memory_tally };

    ghost counts_now = { λ m t le. counts_now m.calls t le };

    ghost only_now = { λ m s had. only_now m.calls s had };

    ghost since_earlier = { λ m t u s le had. since_earlier m.calls t u s le had };

    ghost reads_image = { λ told m file. own_image file (after m.calls) (own m.calls) };

    ghost honest_tells = { λ told. told };

    ghost holds_bytes = { λ told m file. bytes_told file (bytes_of m.contents) (after m.calls) m.same m.small };

    fn length(&mut self, file: FileNo) -> Result<u64, Failed>
        ensures call { IsCall self.old self.new result }
        ensures tally { memory_tally self.new ≡ memory_tally self.old }
        ensures length { IfOk result (λ n. n ≡ length (seen_in file (memory_state self.old))) }
        ensures state { memory_state self.new ≡ memory_state self.old }
    {
        self.pass()?;
        Ok(self.contents.file(file).len() as u64)
    }

    fn read_at(&mut self, file: FileNo, at: u64, room: &mut [u8]) -> Result<(), Failed>
        requires { at + length room.old ≤ length (seen_in file (memory_state self.old)) }
        ensures call { IsCall self.old self.new result }
        ensures tally { memory_tally self.new ≡ memory_tally self.old }
        ensures bytes { OnOk result (room.new
            ≡ take (length room.old) (drop at (seen_in file (memory_state self.old)))) }
        ensures state { memory_state self.new ≡ memory_state self.old }
    {
        self.pass()?;
        let at = at as usize;
        let bytes = self.contents.file(file);
        room.copy_from_slice(&bytes[at..at + room.len()]);
        Ok(())
    }

    fn write_at(&mut self, file: FileNo, at: u64, bytes: &[u8]) -> Result<(), Failed>
        requires { at ≤ length (seen_in file (memory_state self.old)) }
        ensures call { IsCall self.old self.new result }
        ensures tally { IsWritten file (memory_tally self.old) (memory_tally self.new) }
        ensures done { IsCounted self.old self.new → seen_in file (memory_state self.new)
            ≡ put at bytes.now (seen_in file (memory_state self.old)) }
        ensures state { Wrote file at (length bytes.now) (memory_state self.old) (memory_state self.new) }
    {
        self.counts.written(file);
        let fails = self.next_fails();
        match self.write(file, at, bytes) {
            Err(_) => Err(self.fail()),
            Ok(()) if fails => Err(self.fail()),
            Ok(()) => Ok(()),
        }
    }

    fn cut(&mut self, file: FileNo, to: u64) -> Result<(), Failed>
        requires { to ≤ length (seen_in file (memory_state self.old)) }
        ensures call { IsCall self.old self.new result }
        ensures tally { IsWritten file (memory_tally self.old) (memory_tally self.new) }
        ensures done { IsCounted self.old self.new → seen_in file (memory_state self.new)
            ≡ take to (seen_in file (memory_state self.old)) }
        ensures state { Shortened file to (memory_state self.old) (memory_state self.new) }
    {
        self.counts.written(file);
        let fails = self.next_fails();
        match self.shorten(file, to) {
            Err(_) => Err(self.fail()),
            Ok(()) if fails => Err(self.fail()),
            Ok(()) => Ok(()),
        }
    }

    fn sync(&mut self, file: FileNo) -> Result<(), Failed>
        ensures call { IsCall self.old self.new result }
        ensures synced { OnOk result (IsSynced file (memory_tally self.old) (memory_tally self.new)) }
        ensures unsynced { OnErr result (memory_tally self.new ≡ memory_tally self.old) }
        ensures reads { OnOk result (SameReads (memory_state self.old) (memory_state self.new)) }
        ensures done { OnOk result (Synced file (memory_state self.old) (memory_state self.new)) }
        ensures state { OnErr result (memory_state self.new ≡ memory_state self.old) }
    {
        if self.next_fails() {
            return match self.note() {
                Err(_) => Err(self.fail()),
                Ok(()) => Err(self.fail()),
            };
        }
        match self.settle(file) {
            Err(_) => Err(self.fail()),
            Ok(()) => {
                self.counts.synced(file);
                Ok(())
            }
        }
    }

    fn faults(&self) -> u64 {
        self.faults
    }

    fn block(&self) -> u64 {
        self.block
    }

    fn stamp(&self) -> Snapshot<u64> {
        Snapshot::of(&(self.calls.len() as u64))
    }
}
