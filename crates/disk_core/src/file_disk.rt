// Three files. Nothing is told of what they hold.
ghost use Rattle.std.specs.Prelude.{◌≡◌, false, length, refl, OnOk, OnErr};
ghost use Rattle.office_base.specs.Faults.{HasCause};
ghost use Rattle.disk_core.specs.Calls.{Elapses};
ghost use Rattle.disk_core.specs.Tallies.{IsWritten, IsSynced};
ghost use Rattle.disk_core.specs.FileCalls.{ok_of, length_told, bytes_given, whether_done};
ghost use Rattle.disk_core.specs.FileCalls.{asks_length, reads, writes, cuts, syncs};
ghost use Rattle.disk_core.specs.Files.{empty_disk};
ghost use Rattle.disk_core.specs.Untold.{untold_image, untold_bytes, file_faults, file_tally, opened, AsksOne, Asks};

use crate::disk_file::DiskFile;
use crate::tally::Counts;
use crate::{Disk, FileNo};
use office_base::Failed;
use std::io;
use std::snapshot::Snapshot;

// What most file systems give a file at a time, in bytes.
const BLOCK: u64 = 4_096;

/// Three files, as of the operating system. Of what they hold nothing is promised; each call of the disk is that call
/// of its file, and fails where that one does.
///
/// A sync makes a file's bytes and its length durable, and no other attribute of it. A file that could not be
/// opened is `None`: each call on it fails and is counted.
#[derive(Drop)]
pub struct FileDisk<F: DiskFile> {
    journal: Option<F>,
    slot0: Option<F>,
    slot1: Option<F>,
    faults: u64,
    counts: Counts,
}

fn not_open() -> io::Error {
    io::Error::from(io::ErrorKind::NotFound)
}

fn ask_length<F: DiskFile>(file: &mut Option<F>) -> io::Result<u64>
    ensures { AsksOne F.DiskFile asks_length (length_told result) file.old file.new }
{
    match file {
        Some(file) => file.length(),
        None => Err(not_open()),
    }
}

fn ask_read<F: DiskFile>(file: &mut Option<F>, at: u64, room: &mut [u8]) -> io::Result<()>
    ensures { AsksOne F.DiskFile (reads at (length room.old)) (bytes_given room.new result) file.old file.new }
{
    match file {
        Some(file) => file.read(at, room),
        None => Err(not_open()),
    }
}

fn ask_write<F: DiskFile>(file: &mut Option<F>, at: u64, bytes: &[u8]) -> io::Result<()>
    ensures { AsksOne F.DiskFile (writes at bytes.now) (whether_done result) file.old file.new }
{
    match file {
        Some(file) => file.write(at, bytes),
        None => Err(not_open()),
    }
}

fn ask_cut<F: DiskFile>(file: &mut Option<F>, to: u64) -> io::Result<()>
    ensures { AsksOne F.DiskFile (cuts to) (whether_done result) file.old file.new }
{
    match file {
        Some(file) => file.cut(to),
        None => Err(not_open()),
    }
}

fn ask_sync<F: DiskFile>(file: &mut Option<F>) -> io::Result<()>
    ensures { AsksOne F.DiskFile syncs (whether_done result) file.old file.new }
{
    match file {
        Some(file) => file.sync(),
        None => Err(not_open()),
    }
}

impl<F: DiskFile> FileDisk<F> {
    /// Makes a disk of these files, without a fault so far.
    pub fn new(journal: Option<F>, slot0: Option<F>, slot1: Option<F>) -> Self
        ensures files { opened result ≡ record { journal = journal; slot0 = slot0; slot1 = slot1 } }
        ensures faults { file_faults result ≡ 0 }
        ensures tally { file_tally result
            ≡ record { writes = 0; syncs = 0; journal = false; slot0 = false; slot1 = false } }
    {
        FileDisk {
            journal,
            slot0,
            slot1,
            faults: 0,
            counts: Counts::new(),
        }
    }

    fn length_of(&mut self, file: FileNo) -> io::Result<u64>
        ensures asks { Asks F.DiskFile file asks_length (length_told result) (opened self.old) (opened self.new) }
        ensures faults { self.new.faults ≡ self.old.faults }
        ensures counts { self.new.counts ≡ self.old.counts }
    {
        match file {
            FileNo::Journal => ask_length(&mut self.journal),
            FileNo::Slot0 => ask_length(&mut self.slot0),
            FileNo::Slot1 => ask_length(&mut self.slot1),
        }
    }

    fn read_of(&mut self, file: FileNo, at: u64, room: &mut [u8]) -> io::Result<()>
        ensures asks { Asks F.DiskFile file (reads at (length room.old)) (bytes_given room.new result) (opened self.old)
            (opened self.new) }
        ensures faults { self.new.faults ≡ self.old.faults }
        ensures counts { self.new.counts ≡ self.old.counts }
    {
        match file {
            FileNo::Journal => ask_read(&mut self.journal, at, room),
            FileNo::Slot0 => ask_read(&mut self.slot0, at, room),
            FileNo::Slot1 => ask_read(&mut self.slot1, at, room),
        }
    }

    fn write_of(&mut self, file: FileNo, at: u64, bytes: &[u8]) -> io::Result<()>
        ensures asks { Asks F.DiskFile file (writes at bytes.now) (whether_done result) (opened self.old)
            (opened self.new) }
        ensures faults { self.new.faults ≡ self.old.faults }
        ensures counts { self.new.counts ≡ self.old.counts }
    {
        match file {
            FileNo::Journal => ask_write(&mut self.journal, at, bytes),
            FileNo::Slot0 => ask_write(&mut self.slot0, at, bytes),
            FileNo::Slot1 => ask_write(&mut self.slot1, at, bytes),
        }
    }

    fn cut_of(&mut self, file: FileNo, to: u64) -> io::Result<()>
        ensures asks { Asks F.DiskFile file (cuts to) (whether_done result) (opened self.old) (opened self.new) }
        ensures faults { self.new.faults ≡ self.old.faults }
        ensures counts { self.new.counts ≡ self.old.counts }
    {
        match file {
            FileNo::Journal => ask_cut(&mut self.journal, to),
            FileNo::Slot0 => ask_cut(&mut self.slot0, to),
            FileNo::Slot1 => ask_cut(&mut self.slot1, to),
        }
    }

    fn sync_of(&mut self, file: FileNo) -> io::Result<()>
        ensures asks { Asks F.DiskFile file syncs (whether_done result) (opened self.old) (opened self.new) }
        ensures faults { self.new.faults ≡ self.old.faults }
        ensures counts { self.new.counts ≡ self.old.counts }
    {
        match file {
            FileNo::Journal => ask_sync(&mut self.journal),
            FileNo::Slot0 => ask_sync(&mut self.slot0),
            FileNo::Slot1 => ask_sync(&mut self.slot1),
        }
    }

    // Counts an answer that is an error.
    fn told<T: Drop>(&mut self, answer: io::Result<T>) -> Result<T, Failed>
        ensures cause { HasCause self.old.faults self.new.faults result }
        ensures quiet { OnOk result (self.new.faults ≡ self.old.faults) }
        ensures same { ok_of result ≡ ok_of answer }
        ensures files { opened self.new ≡ opened self.old }
        ensures counts { self.new.counts ≡ self.old.counts }
    {
        match answer {
            Ok(value) => Ok(value),
            Err(_) => {
                self.faults = self.faults.saturating_add(1);
                Err(Failed)
            }
        }
    }
}

#[tactic(auto, using(crate::proofs::Asked::asked_then))]
impl<F: DiskFile> Disk for FileDisk<F> {
    ghost tells = { false };

    ghost honest = { false };

    ghost state = { λ _. empty_disk };

    ghost moment = { λ _. 0 };

    ghost had_since = { λ _ _ s. s ≡ empty_disk };

    ghost fault_count = { file_faults };

    ghost tally = { file_tally };

    ghost counts_now = { λ d t le. refl };

    ghost only_now = { λ d s had. had };

    ghost since_earlier = { λ d t u s le had. had };

    ghost reads_image = { untold_image };

    ghost honest_tells = { λ is. is };

    ghost holds_bytes = { untold_bytes };

    fn length(&mut self, file: FileNo) -> Result<u64, Failed>
        ensures asks { Asks F.DiskFile file asks_length (length_told result) (opened self.old) (opened self.new) }
        ensures tally { file_tally self.new ≡ file_tally self.old }
        ensures time { Elapses (λ _. empty_disk) (λ _. 0) (λ _ _ s. s ≡ empty_disk) self.old self.new }
        ensures cause { HasCause (file_faults self.old) (file_faults self.new) result }
        ensures quiet { OnOk result (file_faults self.new ≡ file_faults self.old) }
    {
        let answer = self.length_of(file);
        self.told(answer)
    }

    fn read_at(&mut self, file: FileNo, at: u64, room: &mut [u8]) -> Result<(), Failed>
        ensures asks { Asks F.DiskFile file (reads at (length room.old)) (bytes_given room.new result)
            (opened self.old) (opened self.new) }
        ensures tally { file_tally self.new ≡ file_tally self.old }
        ensures time { Elapses (λ _. empty_disk) (λ _. 0) (λ _ _ s. s ≡ empty_disk) self.old self.new }
        ensures cause { HasCause (file_faults self.old) (file_faults self.new) result }
        ensures quiet { OnOk result (file_faults self.new ≡ file_faults self.old) }
    {
        let answer = self.read_of(file, at, room);
        self.told(answer)
    }

    fn write_at(&mut self, file: FileNo, at: u64, bytes: &[u8]) -> Result<(), Failed>
        ensures asks { Asks F.DiskFile file (writes at bytes.now) (whether_done result)
            (opened self.old) (opened self.new) }
        ensures tally { IsWritten file (file_tally self.old) (file_tally self.new) }
        ensures time { Elapses (λ _. empty_disk) (λ _. 0) (λ _ _ s. s ≡ empty_disk) self.old self.new }
        ensures cause { HasCause (file_faults self.old) (file_faults self.new) result }
        ensures quiet { OnOk result (file_faults self.new ≡ file_faults self.old) }
    {
        self.counts.written(file);
        let answer = self.write_of(file, at, bytes);
        self.told(answer)
    }

    fn cut(&mut self, file: FileNo, to: u64) -> Result<(), Failed>
        ensures asks { Asks F.DiskFile file (cuts to) (whether_done result) (opened self.old) (opened self.new) }
        ensures tally { IsWritten file (file_tally self.old) (file_tally self.new) }
        ensures time { Elapses (λ _. empty_disk) (λ _. 0) (λ _ _ s. s ≡ empty_disk) self.old self.new }
        ensures cause { HasCause (file_faults self.old) (file_faults self.new) result }
        ensures quiet { OnOk result (file_faults self.new ≡ file_faults self.old) }
    {
        self.counts.written(file);
        let answer = self.cut_of(file, to);
        self.told(answer)
    }

    fn sync(&mut self, file: FileNo) -> Result<(), Failed>
        ensures asks { Asks F.DiskFile file syncs (whether_done result) (opened self.old) (opened self.new) }
        ensures synced { OnOk result (IsSynced file (file_tally self.old) (file_tally self.new)) }
        ensures unsynced { OnErr result (file_tally self.new ≡ file_tally self.old) }
        ensures time { Elapses (λ _. empty_disk) (λ _. 0) (λ _ _ s. s ≡ empty_disk) self.old self.new }
        ensures cause { HasCause (file_faults self.old) (file_faults self.new) result }
        ensures quiet { OnOk result (file_faults self.new ≡ file_faults self.old) }
    {
        let answer = self.sync_of(file);
        self.told(answer)?;
        self.counts.synced(file);
        Ok(())
    }

    fn faults(&self) -> u64 {
        self.faults
    }

    fn block(&self) -> u64 {
        BLOCK
    }

    fn stamp(&self) -> Snapshot<u64> {
        Snapshot::of(&0)
    }
}
