// A part of the journal file in memory.
ghost use Rattle.std.specs.Prelude.{◌≡◌, ◌⊎◌, ◌+◌, ◌<◌, ◌≤◌, ◌^◌, [], ℕ, List, IsTrue, IsErrOf, length, get_or, take, drop};
ghost use Rattle.std.specs.Prelude.{IfOk, IfErr, OnOk};
ghost use Rattle.disk_core.specs.Moments.{OnlyReads};
ghost use Rattle.meter_journal.specs.Reading.{size_at, HasStoreCause};
ghost use Rattle.meter_journal.specs.Windows.{IsPart};

use crate::fault::OpenFault;
use disk_core::{Disk, FileNo};
use std::alloc::{AllocError, Global};
use std::marker::Model;

// How many bytes are read at a time, if no frame is longer.
const BLOCK: u64 = 65_536;

/// A part of the journal file in memory, from which its frames are read.
///
/// It is valid until the file is written. It takes 65,536 bytes, or twice the longest frame if that is more.
#[derive(Drop)]
pub struct Window {
    at: u64,
    bytes: Vec<u8>,
}

impl Model for Window {
    ghost use Rattle.std.specs.Prelude.{◌≤◌, vec_capacity};
    ghost use Rattle.meter_journal.specs.Windows.{WindowView};

    ghost Value = { WindowView };

    ghost view = { λ w. record { at = w.at; bytes = w.bytes.items } };

    ghost invariant = { λ w. 65536 ≤ vec_capacity w.bytes };
}

impl Window {
    /// Takes the memory for a block of the file, and reads nothing yet.
    ///
    /// # Errors
    ///
    /// `AllocError`: memory ran out.
    pub fn new(alloc: Global) -> Result<Window, AllocError>
        ensures { IfOk result (λ window. window.bytes ≡ []) }
    {
        let bytes = Vec::with_capacity(alloc, BLOCK as usize)?;
        Ok(Window { at: 0, bytes })
    }

    // Has the bytes of a file of this length from one place up to another. If some of them are not there yet, a block
    // of the file is read from the first place on, or all of them if that is more.
    pub(crate) fn cover<D: Disk>(
        &mut self,
        disk: &mut D,
        from: u64,
        to: u64,
        end: u64,
    ) -> Result<(), OpenFault>
        requires order { (from ≤ to) × (to ≤ end) }
        requires known { IsTrue D.tells → end ≡ length (D.state disk.old).journal.seen }
        requires part { IsTrue D.tells → IsPart self.old.at self.old.bytes (D.state disk.old).journal.seen }
        ensures part { IsTrue D.tells → IsPart self.new.at self.new.bytes (D.state disk.old).journal.seen }
        ensures covers { OnOk result ((self.new.at ≤ from) × (to ≤ self.new.at + length self.new.bytes)) }
        ensures err { IfErr result (λ e. (e ≡ OpenFault.StoreFault) ⊎ (e ≡ OpenFault.NoMemory)) }
        // A block is in the memory that the window has.
        ensures memory { IsErrOf result OpenFault.NoMemory → from + 65536 < to }
        ensures untouched { OnlyReads D.Disk disk.old disk.new }
        ensures cause { HasStoreCause (D.fault_count disk.old) (D.fault_count disk.new) result }
    {
        if self.at <= from && to - self.at <= self.bytes.len() as u64 {
            return Ok(());
        }
        let size = BLOCK.max(to - from).min(end - from);
        self.bytes.resize(size as usize, 0)?;
        self.at = from;
        if disk
            .read_at(FileNo::Journal, from, self.bytes.as_mut_slice())
            .is_err()
        {
            self.bytes.clear();
            return Err(OpenFault::StoreFault);
        }
        Ok(())
    }

    // Reads so many bytes from a place on.
    #[tactic(auto, using(crate::proofs::Parts::part_at))]
    pub(crate) fn part(&self, from: u64, size: u64) -> &[u8]
        requires { (self.now.at ≤ from) × (from + size ≤ self.now.at + length self.now.bytes) }
        ensures exact { (file : List ℕ) → IsPart self.now.at self.now.bytes file
            → result.now ≡ take size (drop from file) }
        ensures length { length result.now ≡ size }
    {
        let (_, rest) = self.bytes.as_slice().split_at((from - self.at) as usize);
        &rest[..size as usize]
    }

    // Reads the byte at a place.
    #[tactic(auto, using(crate::proofs::Parts::byte_at))]
    pub(crate) fn byte(&self, at: u64) -> u8
        requires { (self.now.at ≤ at) × (at + 1 ≤ self.now.at + length self.now.bytes) }
        ensures { (file : List ℕ) → IsPart self.now.at self.now.bytes file → result ≡ get_or file at 0 }
    {
        self.part(at, 1)[0]
    }

    // Reads the length after a gate.
    pub(crate) fn size(&self, gate: u64) -> u32
        requires inside { (self.now.at ≤ gate) × (gate + 5 ≤ self.now.at + length self.now.bytes) }
        requires small { gate < 2 ^ 46 }
        ensures { (file : List ℕ) → IsPart self.now.at self.now.bytes file → result ≡ size_at gate file }
    {
        let mut room = [0; 4];
        room.copy_from_slice(self.part(gate + 1, 4));
        u32::from_be_bytes(room)
    }
}
