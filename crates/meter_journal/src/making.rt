// Making a journal file.
ghost use Rattle.std.specs.Prelude.{◌≡◌, ◌+◌, ◌≤◌, ◌<◌, [], List, ℕ, IsTrue, length, IfOk, OnOk, IfErr};
ghost use Rattle.std.specs.Prelude.{IsErrOf, false};
ghost use Rattle.office_base.specs.Faults.{HasCause};
ghost use Rattle.disk_core.specs.Files.{put, synced_file};
ghost use Rattle.disk_core.specs.Fronts.{Narrower};
ghost use Rattle.disk_core.specs.Moments.{KeepsTo, WritesNothing};
ghost use Rattle.meter_journal.specs.History.{IsAtRest, IsNoLonger, header};
ghost use Rattle.meter_journal.specs.Created.{Bounded, NoneOrEmpty, BeforeOrEmpty};
ghost use Rattle.meter_journal.specs.Reading.{IsMade, IsNotMade, CreateFails, HasStoreCause};
ghost use Rattle.meter_journal.specs.declared.fault.OpenFault.TheVariants.{StoreFault};

use crate::fault::OpenFault;
use crate::gate::open_gate;
use crate::head::look;
use disk_core::{Disk, Failed, FileNo};

// Writes inside the file or at its end, and syncs it.
fn put_synced<D: Disk>(disk: &mut D, at: u64, bytes: &[u8]) -> Result<(), Failed>
    requires inside { IsTrue D.honest → at ≤ length (D.state disk.old).journal.seen }

    ensures any_moment { IsTrue D.honest → (m k : ℕ) (front : List ℕ) → k ≤ at → at + length bytes.now ≤ m
        → Bounded m k front (D.state disk.old) (D.state disk.old)
        → KeepsTo D.Disk disk.old disk.new (Bounded m k front (D.state disk.old)) }

    ensures done { IsTrue D.honest → OnOk result ((D.state disk.new).journal
        ≡ synced_file (put at bytes.now (D.state disk.old).journal.seen)) }

    ensures room { IsTrue D.honest → (n : ℕ) → at + length bytes.now ≤ n → IsNoLonger n (D.state disk.old)
        → KeepsTo D.Disk disk.old disk.new (IsNoLonger n) }

    ensures cause { HasCause (D.fault_count disk.old) (D.fault_count disk.new) result }
    ensures quiet { OnOk result (D.fault_count disk.new ≡ D.fault_count disk.old) }
{
    disk.write_at(FileNo::Journal, at, bytes)?;
    disk.sync(FileNo::Journal)
}

// Cuts the file to nothing, and syncs it.
fn empty_file<D: Disk>(disk: &mut D) -> Result<(), Failed>
    ensures any_moment { IsTrue D.honest → (bytes : List ℕ) → (D.state disk.old).journal ≡ synced_file bytes
        → IsNotMade bytes
        → KeepsTo D.Disk disk.old disk.new (NoneOrEmpty (D.state disk.old)) }

    ensures done { IsTrue D.honest → OnOk result ((D.state disk.new).journal ≡ synced_file []) }

    ensures room { IsTrue D.honest → (n : ℕ) → IsNoLonger n (D.state disk.old)
        → KeepsTo D.Disk disk.old disk.new (IsNoLonger n) }

    ensures cause { HasCause (D.fault_count disk.old) (D.fault_count disk.new) result }
    ensures quiet { OnOk result (D.fault_count disk.new ≡ D.fault_count disk.old) }
{
    disk.cut(FileNo::Journal, 0)?;
    disk.sync(FileNo::Journal)
}

// Writes a closed head, then the mark and a closed gate, then the open head.
fn make<D: Disk>(disk: &mut D) -> Result<(), Failed>
    ensures any_moment { IsTrue D.honest → (bytes : List ℕ) → (D.state disk.old).journal ≡ synced_file bytes
        → IsNotMade bytes
        → KeepsTo D.Disk disk.old disk.new (NoneOrEmpty (D.state disk.old)) }

    ensures made { IsTrue D.honest → OnOk result (IsAtRest header (D.state disk.new) 10 []) }

    ensures room { IsTrue D.honest → (n : ℕ) → 11 ≤ n → IsNoLonger n (D.state disk.old)
        → KeepsTo D.Disk disk.old disk.new (IsNoLonger n) }

    ensures nothing_left { OnOk result ((D.tally disk.new).journal ≡ false) }
    ensures cause { HasCause (D.fault_count disk.old) (D.fault_count disk.new) result }
    ensures quiet { OnOk result (D.fault_count disk.new ≡ D.fault_count disk.old) }
{
    empty_file(disk)?;
    put_synced(disk, 0, &[0])?;
    put_synced(
        disk,
        1,
        &[0x4D, 0x45, 0x54, 0x45, 0x52, 0x4A, 0x52, 0x4E, 0x31, 0],
    )?;
    open_gate(disk, 0)
}

/// When a journal file was made.
#[derive(Clone, Copy, Debug, PartialEq, Eq)]
pub enum Made {
    /// It was there before.
    Before,
    /// It was made in this call, and has no entries.
    Now,
}

/// Makes the journal file if it is not made. A file that is made or foreign stays as it is.
///
/// The head is opened last, so after a crash at any moment the file is as before, or not made, or made and without
/// entries.
/// Cost: three writes, a cut and five syncs if the file is made; no memory.
///
/// # Errors
///
/// `StoreFault`: a call of the disk failed. `Foreign`: the file is longer than 11 bytes and has no open gate at its
/// head, or it has another mark after it.
pub fn create<D: Disk>(disk: &mut D) -> Result<Made, OpenFault>
    ensures before { IsTrue D.honest → IfOk result (λ m. m ≡ Made.Before → IsMade (D.state disk.old).journal.seen
        × ((D.state disk.new).journal ≡ synced_file (D.state disk.old).journal.seen)) }
    ensures now { IsTrue D.honest → IfOk result (λ m. m ≡ Made.Now
        → IsNotMade (D.state disk.old).journal.seen × IsAtRest header (D.state disk.new) 10 []) }
    ensures fails { IsTrue D.honest → IfErr result (λ e. CreateFails e (D.state disk.old).journal.seen) }

    ensures foreign { IsTrue D.honest → IsErrOf result OpenFault.Foreign
        → (D.state disk.new).journal ≡ synced_file (D.state disk.old).journal.seen }

    // If the file is made or foreign, each image is one from before.
    ensures unchanged { IsTrue D.honest → (IsNotMade (D.state disk.old).journal.seen → ⊥)
        → KeepsTo D.Disk disk.old disk.new (Narrower (D.state disk.old)) }

    // In each case an image is one from before, or not made, or made and without entries.
    ensures any_moment { IsTrue D.honest → KeepsTo D.Disk disk.old disk.new (BeforeOrEmpty (D.state disk.old)) }

    // It gets no longer than 11 bytes, unless it was longer before.
    ensures room { IsTrue D.honest → (n : ℕ) → 11 ≤ n → IsNoLonger n (D.state disk.old)
        → KeepsTo D.Disk disk.old disk.new (IsNoLonger n) }

    // On every disk: a file that is made or foreign is not written, and after `Ok` nothing of it needs a sync.
    ensures writes { IfOk result (λ m. m ≡ Made.Before → WritesNothing D.Disk disk.old disk.new) }
    ensures writes_err { IfErr result (λ e. (e ≡ StoreFault → ⊥) → WritesNothing D.Disk disk.old disk.new) }
    ensures nothing_left { OnOk result ((D.tally disk.new).journal ≡ false) }

    ensures cause { HasStoreCause (D.fault_count disk.old) (D.fault_count disk.new) result }
{
    match look(disk) {
        Ok(_) => Ok(Made::Before),
        Err(e) => match e {
            OpenFault::NotMade => match make(disk) {
                Ok(()) => Ok(Made::Now),
                Err(_) => Err(OpenFault::StoreFault),
            },
            other => Err(other),
        },
    }
}
