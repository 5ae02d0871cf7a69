// The first bytes of a journal file, and all of them.
ghost use Rattle.std.specs.Prelude.{◌≡◌, ◌⊎◌, ◌≤◌, List, ℕ, IsTrue, false, length, take, IfOk, IfErr};
ghost use Rattle.std.specs.Prelude.{OnOk, IsErrOf};
ghost use Rattle.office_base.specs.Faults.{HasCause};
ghost use Rattle.disk_core.specs.Files.{SameReads, synced_file};
ghost use Rattle.disk_core.specs.Fronts.{Narrower};
ghost use Rattle.disk_core.specs.Moments.{KeepsTo, OnlyReads, WritesNothing};
ghost use Rattle.meter_journal.specs.History.{IsNoLonger};
ghost use Rattle.meter_journal.specs.Reading.{HeadGives, HasStoreCause};
ghost use Rattle.meter_journal.specs.declared.fault.OpenFault.TheVariants.{StoreFault, NoMemory};

use crate::fault::OpenFault;
use crate::gate::OPEN;
use disk_core::{Disk, Failed, FileNo};
use std::alloc::Global;

// The mark after the gate at the head, the text METERJRN1.
const MARK: [u8; 9] = [0x4D, 0x45, 0x54, 0x45, 0x52, 0x4A, 0x52, 0x4E, 0x31];

// Judges a file of this length by its first ten bytes.
#[tactic(auto, using(crate::proofs::Heads::mark_in))]
fn judge(front: &[u8; 10], end: u64) -> Result<(), OpenFault>
    requires { 11 ≤ end }
    ensures exact { (file : List ℕ) → end ≡ length file → front.now ≡ take 10 file → HeadGives result file }
    ensures told { IsErrOf result OpenFault.StoreFault → ⊥ }
{
    if front[0] != OPEN {
        return Err(if end == 11 {
            OpenFault::NotMade
        } else {
            OpenFault::Foreign
        });
    }
    if &front[1..] != &MARK[..] {
        return Err(OpenFault::Foreign);
    }
    Ok(())
}

// Syncs the journal file.
pub(crate) fn sync_journal<D: Disk>(disk: &mut D) -> Result<(), Failed>
    ensures any_moment { IsTrue D.honest → KeepsTo D.Disk disk.old disk.new (Narrower (D.state disk.old)) }
    ensures room { IsTrue D.honest → (n : ℕ) → IsNoLonger n (D.state disk.old)
        → KeepsTo D.Disk disk.old disk.new (IsNoLonger n) }
    ensures done { IsTrue D.honest → OnOk result ((D.state disk.new).journal
        ≡ synced_file (D.state disk.old).journal.seen) }
    ensures reads { IsTrue D.tells → OnOk result (SameReads (D.state disk.old) (D.state disk.new)) }
    ensures writes { WritesNothing D.Disk disk.old disk.new }
    ensures nothing_left { OnOk result ((D.tally disk.new).journal ≡ false) }
    ensures cause { HasCause (D.fault_count disk.old) (D.fault_count disk.new) result }
    ensures quiet { OnOk result (D.fault_count disk.new ≡ D.fault_count disk.old) }
{
    disk.sync(FileNo::Journal)
}

// Reads the first bytes of a journal file of this length.
fn check_head<D: Disk>(disk: &mut D, end: u64) -> Result<(), OpenFault>
    requires known { IsTrue D.tells → end ≡ length (D.state disk.old).journal.seen }
    ensures exact { IsTrue D.tells → HeadGives result (D.state disk.old).journal.seen }
    ensures untouched { OnlyReads D.Disk disk.old disk.new }
    ensures cause { HasStoreCause (D.fault_count disk.old) (D.fault_count disk.new) result }
{
    if end < 11 {
        return Err(OpenFault::NotMade);
    }
    let mut room = [0; 10];
    if disk.read_at(FileNo::Journal, 0, &mut room).is_err() {
        return Err(OpenFault::StoreFault);
    }
    judge(&room, end)
}

/// Reads the head of the journal file, and returns the length of the file in bytes if it is made. Nothing is written or
/// synced.
///
/// # Errors
///
/// `StoreFault`: a call of the disk failed. `NotMade`: the file is shorter than 11 bytes, or has 11 bytes and a closed
/// gate at its head. `Foreign`: it is longer and has no open gate at its head, or has another mark.
pub fn measure<D: Disk>(disk: &mut D) -> Result<u64, OpenFault>
    ensures exact { IsTrue D.tells → HeadGives result (D.state disk.old).journal.seen }
    ensures size { IsTrue D.tells → IfOk result (λ n. n ≡ length (D.state disk.old).journal.seen) }
    ensures untouched { OnlyReads D.Disk disk.old disk.new }
    ensures cause { HasStoreCause (D.fault_count disk.old) (D.fault_count disk.new) result }
{
    let Ok(end) = disk.length(FileNo::Journal) else {
        return Err(OpenFault::StoreFault);
    };
    match check_head(disk, end) {
        Ok(()) => Ok(end),
        Err(e) => Err(e),
    }
}

// Syncs the journal file, and returns its length if it is made.
pub(crate) fn look<D: Disk>(disk: &mut D) -> Result<u64, OpenFault>
    ensures exact { IsTrue D.tells → HeadGives result (D.state disk.old).journal.seen }
    ensures size { IsTrue D.tells → IfOk result (λ n. n ≡ length (D.state disk.old).journal.seen) }
    ensures any_moment { IsTrue D.honest → KeepsTo D.Disk disk.old disk.new (Narrower (D.state disk.old)) }
    ensures room { IsTrue D.honest → (n : ℕ) → IsNoLonger n (D.state disk.old)
        → KeepsTo D.Disk disk.old disk.new (IsNoLonger n) }
    ensures done { IsTrue D.honest → (IsErrOf result OpenFault.StoreFault → ⊥)
        → (D.state disk.new).journal ≡ synced_file (D.state disk.old).journal.seen }
    ensures reads { IsTrue D.tells → (IsErrOf result OpenFault.StoreFault → ⊥)
        → SameReads (D.state disk.old) (D.state disk.new) }
    ensures writes { WritesNothing D.Disk disk.old disk.new }
    ensures nothing_left { OnOk result ((D.tally disk.new).journal ≡ false) }
    ensures cause { HasStoreCause (D.fault_count disk.old) (D.fault_count disk.new) result }
{
    if sync_journal(disk).is_err() {
        return Err(OpenFault::StoreFault);
    }
    measure(disk)
}

/// Reads the whole journal file into memory, whatever it holds, and writes nothing.
///
/// # Errors
///
/// `StoreFault`: a call of the disk failed. `NoMemory`: memory for the bytes ran out. The files are as they were.
pub fn read_all<D: Disk>(alloc: Global, disk: &mut D) -> Result<Vec<u8>, OpenFault>
    ensures bytes { IsTrue D.tells → IfOk result (λ bytes. bytes.items ≡ (D.state disk.old).journal.seen) }
    ensures err { IfErr result (λ e. (e ≡ StoreFault) ⊎ (e ≡ NoMemory)) }
    ensures untouched { OnlyReads D.Disk disk.old disk.new }
    ensures cause { HasStoreCause (D.fault_count disk.old) (D.fault_count disk.new) result }
{
    let Ok(end) = disk.length(FileNo::Journal) else {
        return Err(OpenFault::StoreFault);
    };
    let mut room = vec![in alloc; 0u8; end as usize]?;
    if disk
        .read_at(FileNo::Journal, 0, room.as_mut_slice())
        .is_err()
    {
        return Err(OpenFault::StoreFault);
    }
    Ok(room)
}
