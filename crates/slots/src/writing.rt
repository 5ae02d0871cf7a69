// Writes a slot.
ghost use Rattle.std.specs.Prelude.{◌≡◌, ◌≢◌, ◌⊎◌, ◌+◌, ◌<◌, ◌≤◌, ◌^◌, [], ◌∷◌, ℕ, List, IsTrue, IfOk, OnOk, length};
ghost use Rattle.office_base.specs.Faults.{HasCause};
ghost use Rattle.disk_core.specs.Files.{put, file_in, seen_in, with_file, synced_file};
ghost use Rattle.disk_core.specs.Fronts.{KeepsFront};
ghost use Rattle.disk_core.specs.Moments.{KeepsTo, OnlyReads};
ghost use Rattle.slots.specs.Slots.{text_of};
ghost use Rattle.slots.specs.Saving.{Kept, kept, OnlyIn, IsInPart, IsShut, IsToShut, HasOldOrNew, IsWritten};
ghost use Rattle.slots.specs.Synced.{KeepsSynced};

use crate::heads::OPEN;
use disk_core::{Disk, Failed, FileNo};

// Writes inside the file or at its end, and syncs it.
fn put_synced<D: Disk>(disk: &mut D, file: FileNo, at: u64, bytes: &[u8]) -> Result<(), Failed>
    requires { IsTrue D.honest → at ≤ length (seen_in file (D.state disk.old)) }

    ensures any_moment { IsTrue D.honest → (old : List ℕ) → file_in file (D.state disk.old) ≡ synced_file old
        → KeepsTo D.Disk disk.old disk.new (OnlyIn file (IsInPart at (length bytes.now) old) (D.state disk.old)) }

    ensures done { IsTrue D.honest → OnOk result (D.state disk.new
        ≡ with_file file (synced_file (put at bytes.now (seen_in file (D.state disk.old)))) (D.state disk.old)) }

    ensures synced { OnOk result (KeepsSynced file 1 (D.tally disk.old) (D.tally disk.new)) }
    ensures cause { HasCause (D.fault_count disk.old) (D.fault_count disk.new) result }
    ensures quiet { OnOk result (D.fault_count disk.new ≡ D.fault_count disk.old) }
{
    disk.write_at(file, at, bytes)?;
    disk.sync(file)
}

// Whether a slot has a gate, and it is not open.
fn is_shut<D: Disk>(disk: &mut D, file: FileNo) -> Result<bool, Failed>
    ensures yes { IsTrue D.tells → IfOk result (λ shut. IsTrue shut → IsShut (seen_in file (D.state disk.old))) }
    ensures no { IsTrue D.tells → IfOk result
        (λ shut. (IsTrue shut → ⊥) → IsToShut (seen_in file (D.state disk.old))) }
    ensures untouched { OnlyReads D.Disk disk.old disk.new }
    ensures cause { HasCause (D.fault_count disk.old) (D.fault_count disk.new) result }
    ensures quiet { OnOk result (D.fault_count disk.new ≡ D.fault_count disk.old) }
{
    if disk.length(file)? == 0 {
        return Ok(false);
    }
    let mut gate = [0];
    disk.read_at(file, 0, &mut gate)?;
    Ok(gate[0] != OPEN)
}

// Closes the gate of a slot that is open, and gives an empty file a closed gate. A closed gate is not written again:
// until its sync a written byte may have any value after a crash, so a crash could open a body that was never whole.
fn shut<D: Disk>(disk: &mut D, file: FileNo) -> Result<(), Failed>
    ensures any_moment { IsTrue D.honest → (old : List ℕ) (new : Kept)
        → file_in file (D.state disk.old) ≡ synced_file old
        → KeepsTo D.Disk disk.old disk.new (OnlyIn file (HasOldOrNew old new) (D.state disk.old)) }

    ensures shut { IsTrue D.honest → OnOk result (IsShut (seen_in file (D.state disk.new))) }

    ensures done { IsTrue D.honest → (old : List ℕ) → file_in file (D.state disk.old) ≡ synced_file old
        → OnOk result ((bytes : List ℕ) × IsShut bytes
        × (D.state disk.new ≡ with_file file (synced_file bytes) (D.state disk.old))) }

    ensures synced { OnOk result (KeepsSynced file 0 (D.tally disk.old) (D.tally disk.new)) }
    ensures cause { HasCause (D.fault_count disk.old) (D.fault_count disk.new) result }
    ensures quiet { OnOk result (D.fault_count disk.new ≡ D.fault_count disk.old) }
{
    if is_shut(disk, file)? {
        return Ok(());
    }
    put_synced(disk, file, 0, &[0])
}

// Writes the position, the length of the body and the body after the gate, and syncs them.
fn write_text<D: Disk>(disk: &mut D, file: FileNo, position: u64, body: &[u8]) -> Result<(), Failed>
    requires { IsTrue D.honest → 1 ≤ length (seen_in file (D.state disk.old)) }

    ensures any_moment { IsTrue D.honest → (front : List ℕ) → KeepsFront 1 front (file_in file (D.state disk.old))
        → KeepsTo D.Disk disk.old disk.new (OnlyIn file (KeepsFront 1 front) (D.state disk.old)) }

    ensures done { IsTrue D.honest → OnOk result (D.state disk.new ≡ with_file file
        (synced_file (put 1 (text_of position body.now) (seen_in file (D.state disk.old)))) (D.state disk.old)) }

    ensures small { length body.now < 2 ^ 64 }
    ensures synced { OnOk result (KeepsSynced file 1 (D.tally disk.old) (D.tally disk.new)) }
    ensures cause { HasCause (D.fault_count disk.old) (D.fault_count disk.new) result }
    ensures quiet { OnOk result (D.fault_count disk.new ≡ D.fault_count disk.old) }
{
    disk.write_at(file, 1, &position.to_be_bytes())?;
    disk.write_at(file, 9, &(body.len() as u64).to_be_bytes())?;
    disk.write_at(file, 17, body)?;
    disk.sync(file)
}

// Writes a slot whose bytes are its only image: a closed gate, then the body after it, then an open gate, each synced
// before the next.
pub(crate) fn write_slot<D: Disk>(
    disk: &mut D,
    file: FileNo,
    position: u64,
    body: &[u8],
) -> Result<(), Failed>
    ensures any_moment { IsTrue D.honest → (old : List ℕ) → file_in file (D.state disk.old) ≡ synced_file old
        → KeepsTo D.Disk disk.old disk.new (OnlyIn file
        (HasOldOrNew old (kept position body.now)) (D.state disk.old)) }

    ensures done { IsTrue D.honest → (old : List ℕ) → file_in file (D.state disk.old) ≡ synced_file old
        → OnOk result (IsWritten file (kept position body.now) (D.state disk.old)
        (D.state disk.new)) }

    ensures synced { OnOk result (KeepsSynced file 2 (D.tally disk.old) (D.tally disk.new)) }
    ensures cause { HasCause (D.fault_count disk.old) (D.fault_count disk.new) result }
    ensures quiet { OnOk result (D.fault_count disk.new ≡ D.fault_count disk.old) }
{
    shut(disk, file)?;
    write_text(disk, file, position, body)?;
    put_synced(disk, file, 0, &[OPEN])
}
