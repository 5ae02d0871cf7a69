// A journal, from which entries are read and to which they are added.
ghost use Rattle.std.specs.Prelude.{◌≡◌, ◌+◌, ◌<◌, ◌≤◌, ◌^◌, ◌++◌, [], ◌∷◌, List, ℕ, IsTrue, length, OnOk, IfOk};
ghost use Rattle.std.specs.Prelude.{IfErr, IfSome, Err, IsErrOf, ◌↔◌, min};
ghost use Rattle.std.specs.Borrow.{follows, sem};
ghost use Rattle.office_base.specs.Faults.{Rose, HasCause};
ghost use Rattle.disk_core.specs.Files.{SameReads, synced_file};
ghost use Rattle.disk_core.specs.Fronts.{Narrower};
ghost use Rattle.disk_core.specs.Tallies.{IsDurable};
ghost use Rattle.disk_core.specs.Moments.{KeepsTo, OnlyReads, WritesNothing};
ghost use Rattle.office_types.specs.declared.command.Entry.{Entry};
ghost use Rattle.entry_codec.specs.Spelling.{IsEntry, EntryFits, entry_limit, spelling};
ghost use Rattle.meter_journal.specs.History.{IsAtRest, IsNoLonger, BeforeOrAfter};
ghost use Rattle.meter_journal.specs.Reading.{frame_at, size_at, NextGives, HeadGives, IsMade, HasStoreCause};
ghost use Rattle.meter_journal.specs.Reading.{from_or_first, Advances};
ghost use Rattle.meter_journal.specs.Windows.{IsPart};
ghost use Rattle.meter_journal.specs.contracts.journal.Journal.{the_row};
ghost use Rattle.meter_journal.specs.declared.fault.OpenFault.TheVariants.{StoreFault};

use crate::fault::OpenFault;
use crate::framing::write_frame;
use crate::gate::open_gate;
use crate::head::look;
use crate::reading::frame_in;
use crate::window::Window;
use disk_core::{Disk, Failed};
use office_types::Entry;
use std::alloc::Global;
use std::marker::Model;

/// Why an entry is not added.
#[derive(Clone, Copy, Debug, PartialEq, Eq)]
pub enum AppendFault {
    /// The file would be longer than the limit.
    JournalFull,
    /// A call of the disk failed.
    StoreFault,
}

/// A journal on its disk. It is opened, then read up to its end gate; then entries can be added.
#[derive(Drop)]
pub struct Journal<D: Disk> {
    disk: D,
    gate: u64,
    limit: u64,
}

impl<D: Disk> Model for Journal<D> {
    ghost use Rattle.std.specs.Prelude.{◌≤◌, ◌^◌};
    ghost use Rattle.meter_journal.specs.Places.{JournalView};

    ghost Value = { JournalView D };

    ghost view = { λ j. record { disk = j.disk; gate = j.gate; limit = j.limit } };

    ghost invariant = { λ j. j.limit ≤ 2 ^ 45 };
}

fn commit<D: Disk>(disk: &mut D, gate: u64, entry: &[u8], limit: u64) -> Result<(), Failed>
    requires size { length entry.now < 2 ^ 32 }
    requires fits { gate + 6 + length entry.now ≤ 2 ^ 45 }
    requires at_rest { IsTrue D.honest → (head : List ℕ) × (entries : List Entry)
        × IsAtRest head (D.state disk.old) gate entries }

    ensures any_moment { IsTrue D.honest → (head : List ℕ) (entries : List Entry) (e : Entry) → EntryFits e
        → entry.now ≡ spelling e
        → IsAtRest head (D.state disk.old) gate entries
        → KeepsTo D.Disk disk.old disk.new (BeforeOrAfter head entries e (D.state disk.old)) }

    ensures acknowledged { IsTrue D.honest → (head : List ℕ) (entries : List Entry) (e : Entry) → EntryFits e
        → entry.now ≡ spelling e
        → IsAtRest head (D.state disk.old) gate entries
        → OnOk result (IsAtRest head (D.state disk.new) (gate + 5 + length entry.now) (entries ++ e ∷ [])) }

    ensures room { IsTrue D.honest → (n : ℕ) → gate + 6 + length entry.now ≤ limit
        → min limit (gate + 6 + length entry.now + 4095) ≤ n → IsNoLonger n (D.state disk.old)
        → KeepsTo D.Disk disk.old disk.new (IsNoLonger n) }

    ensures durable { OnOk result (IsDurable (D.tally disk.old) (D.tally disk.new)) }
    ensures cause { HasCause (D.fault_count disk.old) (D.fault_count disk.new) result }
    ensures quiet { OnOk result (D.fault_count disk.new ≡ D.fault_count disk.old) }
{
    write_frame(disk, gate, entry, limit)?;
    open_gate(disk, gate)
}

impl<D: Disk> Journal<D> {
    /// Takes a disk whose journal was not read yet. `limit` is in bytes.
    ///
    /// The journal must be opened before an entry is read or added.
    pub fn over(disk: D, limit: u64) -> Journal<D>
        requires { limit ≤ 2 ^ 45 }
        ensures { (result.disk ≡ disk) × (result.gate ≡ 10) × (result.limit ≡ limit) }
    {
        Journal {
            disk,
            gate: 10,
            limit,
        }
    }

    /// Opens the journal, to be read from its first gate or from this place, and returns the length of its file in
    /// bytes.
    ///
    /// The file is synced and its head is read. Nothing is written, so its images are among those from before. It may
    /// be called again at any time, for example after a fault of the disk. `from` is in bytes from the start of the
    /// file, and is a gate that was read before.
    ///
    /// # Errors
    ///
    /// After an error the journal must be opened again. `StoreFault`: a call of the disk failed. `NotMade`: the file is
    /// shorter than 11 bytes, or has 11 bytes and a closed gate at its head. `Foreign`: it is longer and has no open
    /// gate at its head, or has another mark.
    pub fn open(&mut self, from: Option<u64>) -> Result<u64, OpenFault>
        requires from { IfSome from (λ place. 10 ≤ place) }

        ensures ok { IsTrue D.tells → IfOk result (λ end. IsMade (D.state self.old.disk).journal.seen
            × (end ≡ length (D.state self.new.disk).journal.seen)) }
        ensures synced { IsTrue D.honest → OnOk result ((D.state self.new.disk).journal
            ≡ synced_file (D.state self.old.disk).journal.seen) }
        ensures start { OnOk result (self.new.gate ≡ from_or_first from) }
        ensures err { IsTrue D.tells → IfErr result (λ e. HeadGives {T = ℕ} (Err e)
            (D.state self.old.disk).journal.seen) }

        // A refused file is as it was, and on the disk.
        ensures refused { IsTrue D.honest → IfErr result (λ e. (e ≡ StoreFault → ⊥)
            → (D.state self.new.disk).journal ≡ synced_file (D.state self.old.disk).journal.seen) }

        ensures any_moment { IsTrue D.honest → KeepsTo D.Disk self.old.disk self.new.disk
            (Narrower (D.state self.old.disk)) }

        // If no call of the disk failed, its files read as before. On every disk nothing is written.
        ensures reads { IsTrue D.tells → (IsErrOf result OpenFault.StoreFault → ⊥)
            → SameReads (D.state self.old.disk) (D.state self.new.disk) }
        ensures writes { WritesNothing D.Disk self.old.disk self.new.disk }

        ensures limit { self.new.limit ≡ self.old.limit }
        ensures cause { HasStoreCause (D.fault_count self.old.disk) (D.fault_count self.new.disk) result }
    {
        let end = look(&mut self.disk)?;
        self.gate = from.unwrap_or(10);
        Ok(end)
    }

    /// Reads the entry at the gate through a window of the file, or returns `None` if the gate is not open.
    ///
    /// `end` is the length of the file in bytes, as `open` returned it. After an entry the next call reads at the gate
    /// after it; after `None` an entry can be added. Nothing is written. Cost: one call of the disk for each 65,536
    /// bytes, or for each longer frame; memory for the entry, and for such a frame once it is known that the file has
    /// it. That is at most `entry_codec::ENTRY_LIMIT` bytes for the frame, whatever length it claims.
    ///
    /// # Errors
    ///
    /// The next call then reads at the same gate again. `Damaged` at the gate: the gate is past the end of the file; or
    /// it is open, and the frame's length, its entry or the next gate ends past the end or past 2^45 bytes, or the
    /// frame has no entry. `StoreFault`: a call of the disk failed. `NoMemory`: memory for the entry ran out.
    pub fn next_in(
        &mut self,
        alloc: Global,
        end: u64,
        window: &mut Window,
    ) -> Result<Option<Entry>, OpenFault>
        requires known { IsTrue D.tells → end ≡ length (D.state self.old.disk).journal.seen }
        requires part { IsTrue D.tells → IsPart window.old.at window.old.bytes (D.state self.old.disk).journal.seen }
        ensures exact { IsTrue D.tells → NextGives result self.old.gate self.new.gate
            (frame_at self.old.gate (D.state self.old.disk).journal.seen) }
        ensures untouched { OnlyReads D.Disk self.old.disk self.new.disk }
        ensures cause { HasStoreCause (D.fault_count self.old.disk) (D.fault_count self.new.disk) result }
        ensures rises { IfOk result (λ read. IfSome read (λ e. (self.old.gate < self.new.gate)
            × (self.new.gate ≤ 2 ^ 45))) }
        // Memory runs out only for a frame that claims no more bytes than an entry may have.
        ensures memory { IsTrue D.tells → IsErrOf result OpenFault.NoMemory
            → size_at self.old.gate (D.state self.old.disk).journal.seen ≤ entry_limit }
        // On every disk: what is read is an entry in range, and its frame is passed over.
        ensures advances { Advances result self.old.gate self.new.gate }
        ensures limit { self.new.limit ≡ self.old.limit }
        // The window is still of this file.
        ensures part { IsTrue D.tells → IsPart window.new.at window.new.bytes (D.state self.old.disk).journal.seen }
    {
        match frame_in(alloc, &mut self.disk, self.gate, end, window)? {
            Some((entry, gate)) => {
                self.gate = gate;
                Ok(Some(entry))
            }
            None => Ok(None),
        }
    }

    /// Reports whether an entry of this size is within the limit. `size` is in bytes.
    pub fn fits(&self, size: u64) -> bool
        ensures { IsTrue result ↔ (self.now.gate + 6 + size ≤ self.now.limit) }
    {
        self.gate.saturating_add(size).saturating_add(6) <= self.limit
    }

    /// Adds an entry, given by its bytes, and returns the place of the end gate after it, in bytes from the start of
    /// the file.
    ///
    /// The length, the entry and a closed gate are written after the end gate and synced; then the end gate is opened
    /// and synced. So after a crash at any moment the entry is there as a whole or not at all, and after `Ok` it is
    /// there. If the entry goes on into a new block of the disk, zeros are written after the closed gate up to the end
    /// of that block, but not past the limit. So most calls do not change the length of the file. Cost: four writes and
    /// two syncs; no memory.
    ///
    /// # Errors
    ///
    /// `JournalFull`: the file would be longer than the limit; nothing is changed. `StoreFault`: a call of the disk
    /// failed; the entry may be there or not, and the journal must be opened again.
    pub fn append(&mut self, entry: &[u8]) -> Result<u64, AppendFault>
        requires entry { IsEntry entry.now }
        requires at_rest { IsTrue D.honest → (head : List ℕ) × (entries : List Entry)
            × IsAtRest head (D.state self.old.disk) self.old.gate entries }

        // At every moment of the call every image of the journal file has the entries from before, or those and the
        // new one.
        ensures any_moment { IsTrue D.honest → (head : List ℕ) (entries : List Entry) (e : Entry) → EntryFits e
            → entry.now ≡ spelling e
            → IsAtRest head (D.state self.old.disk) self.old.gate entries
            → KeepsTo D.Disk self.old.disk self.new.disk (BeforeOrAfter head entries e (D.state self.old.disk)) }

        // After `Ok` it has those and the new one.
        ensures acknowledged { IsTrue D.honest → (head : List ℕ) (entries : List Entry) (e : Entry) → EntryFits e
            → entry.now ≡ spelling e
            → IsAtRest head (D.state self.old.disk) self.old.gate entries
            → OnOk result (IsAtRest head (D.state self.new.disk) self.new.gate (entries ++ e ∷ [])) }

        // After the new end gate there are at most 4,095 zeros more, and none past the limit. So no image gets longer
        // than the smaller of the two, unless one was longer before.
        ensures room { IsTrue D.honest → (n : ℕ)
            → min self.old.limit (self.old.gate + 6 + length entry.now + 4095) ≤ n
            → IsNoLonger n (D.state self.old.disk)
            → KeepsTo D.Disk self.old.disk self.new.disk (IsNoLonger n) }

        // On every disk: after `Ok` two syncs were done, and nothing of the journal is left to be synced.
        ensures durable { OnOk result (IsDurable (D.tally self.old.disk) (D.tally self.new.disk)) }

        ensures place { IfOk result (λ place. (place ≡ self.new.gate)
            × (place ≡ self.old.gate + 5 + length entry.now)) }
        ensures limit { self.new.limit ≡ self.old.limit }
        ensures full { IsErrOf result AppendFault.JournalFull
            ↔ (self.old.limit < self.old.gate + 6 + length entry.now) }
        ensures unchanged { IsErrOf result AppendFault.JournalFull → self.new ≡ self.old }
        ensures later { D.fault_count self.old.disk ≤ D.fault_count self.new.disk }
        ensures fault { IsErrOf result AppendFault.StoreFault
            → Rose (D.fault_count self.old.disk) (D.fault_count self.new.disk) }
        ensures quiet { (IsErrOf result AppendFault.StoreFault → ⊥)
            → D.fault_count self.new.disk ≡ D.fault_count self.old.disk }
    {
        let size = entry.len() as u64;
        if self.gate.saturating_add(size).saturating_add(6) > self.limit {
            return Err(AppendFault::JournalFull);
        }
        match commit(&mut self.disk, self.gate, entry, self.limit) {
            Err(_) => Err(AppendFault::StoreFault),
            Ok(()) => {
                self.gate += 5 + size;
                Ok(self.gate)
            }
        }
    }

    /// Reads the place of the end gate, in bytes from the start of the file.
    pub fn end(&self) -> u64
        ensures { result ≡ self.now.gate }
    {
        self.gate
    }

    /// Lends the disk, for what can be read of it without a call: its count of faults and its moment.
    pub fn disk(&self) -> &D
        ensures { result.now ≡ self.now.disk }
    {
        &self.disk
    }

    /// Lends the disk, for calls on its other files.
    pub fn disk_mut(&mut self) -> &mut D
        ensures value { result.now ≡ self.old.disk }
        ensures* writes_back { sem 𝓛 (follows (the_row D.row D.Disk) D.row self.entry.ghost_name result.ghost_name
            (λ w. record { disk = w; gate = self.old.gate; limit = self.old.limit })) }
    {
        &mut self.disk
    }

    /// Returns the disk.
    pub fn give_back(self) -> D
        ensures { result ≡ self.disk }
    {
        self.disk
    }
}
