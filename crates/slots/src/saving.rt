// Saves a checkpoint in the slot that is not loaded.
ghost use Rattle.std.specs.Prelude.{◌≡◌, ◌≢◌, ℕ, IsTrue, IfOk, OnOk, IsErrOf};
ghost use Rattle.office_base.specs.Faults.{HasCause};
ghost use Rattle.disk_core.specs.declared.disk.FileNo.TheVariants.{Journal, Slot0, Slot1};
ghost use Rattle.disk_core.specs.Files.{SameReads};
ghost use Rattle.disk_core.specs.Moments.{KeepsTo, OnlyReads, Untouched, WritesNothing};
ghost use Rattle.slots.specs.Causes.{HasSaveCause};
ghost use Rattle.slots.specs.Loading.{IsLoaded, SparesLoaded, pair_in};
ghost use Rattle.slots.specs.Saving.{NarrowerSlots, SyncedSlots, OldOrNew, EachKeeps, IsSaved, kept};
ghost use Rattle.slots.specs.Synced.{LeavesSynced};

use crate::body::Body;
use crate::fault::SaveFault;
use crate::finding::find;
use crate::writing::write_slot;
use disk_core::{Disk, Failed, FileNo};
use std::alloc::Global;

// The slot that is not loaded; the first slot if neither is.
fn spare_slot<D: Disk, B: Body>(alloc: Global, disk: &mut D) -> Result<FileNo, SaveFault>
    ensures spares { IsTrue D.tells → IfOk result
        (λ file. SparesLoaded B.spells file (pair_in (D.state disk.old))) }
    ensures slot { IfOk result (λ file. file ≢ Journal) }
    ensures untouched { OnlyReads D.Disk disk.old disk.new }
    ensures cause { HasSaveCause (D.fault_count disk.old) (D.fault_count disk.new) result }
{
    match find::<D, B>(alloc, disk) {
        Err(fault) => Err(fault),
        Ok(found) => match found {
            None => Ok(FileNo::Slot0),
            Some(found) => match found.file {
                FileNo::Slot0 => Ok(FileNo::Slot1),
                _ => Ok(FileNo::Slot0),
            },
        },
    }
}

// Syncs both slots.
fn sync_slots<D: Disk>(disk: &mut D) -> Result<(), Failed>
    ensures any_moment { IsTrue D.honest → KeepsTo D.Disk disk.old disk.new (NarrowerSlots (D.state disk.old)) }
    ensures done { IsTrue D.honest → OnOk result (SyncedSlots (D.state disk.old) (D.state disk.new)) }
    ensures reads { IsTrue D.tells → OnOk result (SameReads (D.state disk.old) (D.state disk.new)) }
    ensures writes { WritesNothing D.Disk disk.old disk.new }
    ensures synced { OnOk result (LeavesSynced 2 (D.tally disk.old) (D.tally disk.new)) }
    ensures cause { HasCause (D.fault_count disk.old) (D.fault_count disk.new) result }
    ensures quiet { OnOk result (D.fault_count disk.new ≡ D.fault_count disk.old) }
{
    disk.sync(FileNo::Slot0)?;
    disk.sync(FileNo::Slot1)
}

/// Saves a body and its position in the slot that `load` would not return, or in the first slot if both are free.
///
/// Both slots are synced first. If the slot's gate is open, or its file is empty, a closed gate is written and synced.
/// Then the position, the length and the body are written after the gate and synced, and last the gate is opened and
/// synced. So after a crash at any moment the slot that `load` returned is still there.
///
/// Cost: that of `load`, at most five writes and five syncs. Memory is taken only for reading, before any write.
///
/// # Errors
///
/// `StoreFault`: the disk failed. `NoMemory`: out of memory; nothing was changed.
pub fn save<D: Disk, B: Body>(
    alloc: Global,
    disk: &mut D,
    position: u64,
    body: &[u8],
) -> Result<(), SaveFault>
    // At every moment each open slot of an image was in an image before the call, or is the new one.
    ensures any_moment { IsTrue D.honest
        → KeepsTo D.Disk disk.old disk.new (OldOrNew (kept position body.now) (D.state disk.old)) }

    // If each image keeps what `load` returns, each image does so at every moment of the call.
    ensures keeps { IsTrue D.honest → (value : B) (place : ℕ)
        → IsLoaded B.spells value place (pair_in (D.state disk.old))
        → EachKeeps B.spells value place (D.state disk.old)
        → KeepsTo D.Disk disk.old disk.new (EachKeeps B.spells value place) }

    // After `Ok` each image has the new one.
    ensures saved { IsTrue D.honest → OnOk result (IsSaved (kept position body.now) (D.state disk.new)) }

    // On every disk: after `Ok` each slot was synced after its last write, and four syncs or more were done.
    ensures durable { OnOk result (LeavesSynced 4 (D.tally disk.old) (D.tally disk.new)) }

    ensures unchanged { IsTrue D.honest → IsErrOf result SaveFault.NoMemory → Untouched D.Disk disk.old disk.new }

    // On every disk: out of memory nothing was written, cut or synced.
    ensures unwritten { IsErrOf result SaveFault.NoMemory → D.tally disk.new ≡ D.tally disk.old }

    ensures cause { HasSaveCause (D.fault_count disk.old) (D.fault_count disk.new) result }
{
    let file = match spare_slot::<D, B>(alloc, disk) {
        Ok(file) => file,
        Err(fault) => return Err(fault),
    };
    if sync_slots(disk).is_err() {
        return Err(SaveFault::StoreFault);
    }
    if write_slot(disk, file, position, body).is_err() {
        return Err(SaveFault::StoreFault);
    }
    Ok(())
}
