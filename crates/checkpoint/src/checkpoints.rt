// Saves and loads the checkpoint of an office.
ghost use Rattle.std.specs.Prelude.{◌≡◌, ◌≤◌, ℕ, true, IsTrue, IfOk, IfSome, OnOk, IsErrOf};
ghost use Rattle.std.specs.List.{AllByRecursion};
ghost use Rattle.disk_core.specs.Moments.{KeepsTo, OnlyReads, Untouched};
ghost use Rattle.slots.specs.Causes.{HasSaveCause};
ghost use Rattle.slots.specs.Loading.{IsLoaded, LoadGives, pair_in};
ghost use Rattle.slots.specs.Saving.{OldOrNew, EachKeeps, IsSaved, kept};
ghost use Rattle.slots.specs.Synced.{LeavesSynced};
ghost use Rattle.office_types.specs.Tokens.{takes_token};
ghost use Rattle.office_snapshot.specs.Snapshots.{SnapshotRecord};
ghost use Rattle.office_snapshot.specs.Restorable.{IsRestorable};
ghost use Rattle.checkpoint.specs.Bodies.{body_format, Spells};

use crate::body_readers::snapshot_in;
use crate::body_writers::body_of;
use disk_core::Disk;
use office_base::NoMemory;
use office_snapshot::Snapshot;
use restorable::is_restorable;
use slots::{Body, SaveFault};
use std::alloc::Global;
use std::marker::Model;

// A snapshot as the body of a slot.
#[derive(Drop)]
struct Checkpoint {
    snapshot: Snapshot,
}

impl Model for Checkpoint {
    ghost use Rattle.office_snapshot.specs.Snapshots.{SnapshotRecord};

    ghost Value = { SnapshotRecord };

    ghost view = { λ c. c.snapshot };
}

impl Body for Checkpoint {
    ghost spells = { Spells };

    fn read(alloc: Global, bytes: &[u8]) -> Result<Option<Checkpoint>, NoMemory> {
        let Some((snapshot, rest)) = snapshot_in(alloc, bytes)? else {
            return Ok(None);
        };
        if !rest.is_empty() {
            drop(snapshot);
            return Ok(None);
        }
        if is_restorable(alloc, &snapshot)? {
            Ok(Some(Checkpoint { snapshot }))
        } else {
            drop(snapshot);
            Ok(None)
        }
    }
}

/// Loads the checkpoint with the greatest position, and that position: the place in the journal from which replay goes
/// on. If both slots have the same position, the first one is loaded; `None` if neither slot has a checkpoint from
/// which an office can be restored. Nothing is written or synced.
///
/// Cost: time and memory to read one body, and a second one if the first does not decode.
///
/// # Errors
///
/// `StoreFault`: the disk failed. `NoMemory`: out of memory.
pub fn load<D: Disk>(alloc: Global, disk: &mut D) -> Result<Option<(Snapshot, u64)>, SaveFault>
    ensures loaded { IsTrue D.tells → IfOk result (λ read. LoadGives Spells read (pair_in (D.state disk.old))) }

    // Also of a disk that does not tell what it holds.
    ensures checkpoint { IfOk result (λ read. IfSome read (λ read. IsRestorable read.0 × (10 ≤ read.1))) }

    ensures untouched { OnlyReads D.Disk disk.old disk.new }
    ensures cause { HasSaveCause (D.fault_count disk.old) (D.fault_count disk.new) result }
{
    match slots::load::<D, Checkpoint>(alloc, disk)? {
        Some((checkpoint, position)) => Ok(Some((checkpoint.snapshot, position))),
        None => Ok(None),
    }
}

/// Saves a snapshot in the slot that `load` would not return, with the place in the journal up to which it records what
/// happened. Each kept command may carry a token. After a crash at any moment the slot that `load` returned is still
/// there. `load` returns the new one later only if an office can be restored from it.
///
/// Cost: memory for the body, then that of `load`, at most five writes and five syncs. No memory is taken once the disk
/// was written.
///
/// # Errors
///
/// `StoreFault`: the disk failed. `NoMemory`: out of memory, or a list has more than 2^32 - 1 elements; nothing was
/// changed.
pub fn save<D: Disk>(
    alloc: Global,
    disk: &mut D,
    position: u64,
    snapshot: &Snapshot,
) -> Result<(), SaveFault>
    requires kept { AllByRecursion (λ kept. takes_token kept.command ≡ true) snapshot.now.kept }

    // At every moment each open slot of an image was in an image before the call, or is the new one.
    ensures any_moment { IsTrue D.honest → KeepsTo D.Disk disk.old disk.new
        (OldOrNew (kept position (body_format.written snapshot.now)) (D.state disk.old)) }

    // If each image keeps what `load` returns, each image does so at every moment of the call.
    ensures keeps { IsTrue D.honest → (value : SnapshotRecord) (place : ℕ)
        → IsLoaded Spells value place (pair_in (D.state disk.old))
        → EachKeeps Spells value place (D.state disk.old)
        → KeepsTo D.Disk disk.old disk.new (EachKeeps Spells value place) }

    // After `Ok` each image has the new one.
    ensures saved { IsTrue D.honest
        → OnOk result (IsSaved (kept position (body_format.written snapshot.now)) (D.state disk.new)) }

    // If an office is restored from the snapshot, the new one spells it, unless memory ran out.
    ensures spelled { IsRestorable snapshot.now → (IsErrOf result SaveFault.NoMemory → ⊥)
        → Spells (body_format.written snapshot.now) snapshot.now }

    // On every disk: after `Ok` each slot was synced after its last write, and four syncs or more were done.
    ensures durable { OnOk result (LeavesSynced 4 (D.tally disk.old) (D.tally disk.new)) }

    ensures unchanged { IsTrue D.honest → IsErrOf result SaveFault.NoMemory → Untouched D.Disk disk.old disk.new }

    // On every disk: out of memory nothing was written, cut or synced.
    ensures unwritten { IsErrOf result SaveFault.NoMemory → D.tally disk.new ≡ D.tally disk.old }

    ensures cause { HasSaveCause (D.fault_count disk.old) (D.fault_count disk.new) result }
{
    let body = body_of(alloc, snapshot)?;
    slots::save::<D, Checkpoint>(alloc, disk, position, &body)
}
