// Finds the slot that is loaded, and reads what it keeps.
ghost use Rattle.std.specs.Prelude.{◌≡◌, ◌+◌, ◌≤◌, ℕ, List, true, false, IsTrue, IfOk, IfSome, MatchOption, length};
ghost use Rattle.disk_core.specs.Files.{seen_in};
ghost use Rattle.disk_core.specs.Moments.{OnlyReads};
ghost use Rattle.slots.specs.Causes.{HasSaveCause};
ghost use Rattle.slots.specs.Heads.{HasHead, body_at, is_below};
ghost use Rattle.slots.specs.Loading.{IsCheckpoint, ReadGives, FindGives, LoadGives, pair_in};

use crate::body::Body;
use crate::fault::SaveFault;
use crate::heads::{Head, head_of};
use disk_core::{Disk, FileNo};
use std::alloc::Global;

// The place of the first gate of a journal; no position is before it.
const FIRST_GATE: u64 = 10;

// The slot that is loaded: which file, the position, and what it keeps.
#[derive(Drop)]
pub(crate) struct Found<B: Body> {
    pub(crate) file: FileNo,
    pub(crate) position: u64,
    pub(crate) value: B,
}

// Reads the body of this length in a slot.
fn body_of<D: Disk, B: Body>(
    alloc: Global,
    disk: &mut D,
    file: FileNo,
    size: u64,
) -> Result<Option<B>, SaveFault>
    requires inside { IsTrue D.tells → 17 + size ≤ length (seen_in file (D.state disk.old)) }
    ensures exact { IsTrue D.tells → IfOk result (λ read. MatchOption read
        ((value : B) → B.spells (body_at size (seen_in file (D.state disk.old))) value → ⊥)
        (λ value. B.spells (body_at size (seen_in file (D.state disk.old))) value)) }
    ensures spelled { IfOk result (λ read. IfSome read (λ value. (body : List ℕ) × B.spells body value)) }
    ensures untouched { OnlyReads D.Disk disk.old disk.new }
    ensures cause { HasSaveCause (D.fault_count disk.old) (D.fault_count disk.new) result }
{
    let mut room = vec![in alloc; 0u8; size as usize]?;
    if disk.read_at(file, 17, room.as_mut_slice()).is_err() {
        return Err(SaveFault::StoreFault);
    }
    Ok(B::read(alloc, &room)?)
}

// Reads the slot with this head: what it keeps, with its position.
fn slot_of<D: Disk, B: Body>(
    alloc: Global,
    disk: &mut D,
    file: FileNo,
    head: Option<Head>,
) -> Result<Option<(B, u64)>, SaveFault>
    requires head { IsTrue D.tells → HasHead head (seen_in file (D.state disk.old)) }
    ensures exact { IsTrue D.tells → IfOk result
        (λ read. ReadGives B.spells read (seen_in file (D.state disk.old))) }
    ensures checkpoint { IfOk result (λ read. IfSome read (λ read. IsCheckpoint B.spells read.0 read.1)) }
    ensures untouched { OnlyReads D.Disk disk.old disk.new }
    ensures cause { HasSaveCause (D.fault_count disk.old) (D.fault_count disk.new) result }
{
    let Some(head) = head else {
        return Ok(None);
    };
    if head.position < FIRST_GATE {
        return Ok(None);
    }
    match body_of(alloc, disk, file, head.size) {
        Err(fault) => Err(fault),
        Ok(read) => match read {
            Some(value) => Ok(Some((value, head.position))),
            None => Ok(None),
        },
    }
}

// Whether both slots have a head, and the second the greater position.
fn is_second_later(zero: Option<Head>, one: Option<Head>) -> bool
    ensures { result ≡ is_below zero one }
{
    match zero {
        None => false,
        Some(zero) => match one {
            None => false,
            Some(one) => zero.position < one.position,
        },
    }
}

// Reads the first slot, and the second one if the first does not decode.
fn find_in_first<D: Disk, B: Body>(
    alloc: Global,
    disk: &mut D,
    zero: Option<Head>,
    one: Option<Head>,
) -> Result<Option<Found<B>>, SaveFault>
    requires zero { IsTrue D.tells → HasHead zero (D.state disk.old).slot0.seen }
    requires one { IsTrue D.tells → HasHead one (D.state disk.old).slot1.seen }
    requires order { is_below zero one ≡ false }
    ensures exact { IsTrue D.tells → IfOk result (λ found. FindGives B.spells found (pair_in (D.state disk.old))) }
    ensures checkpoint { IfOk result
        (λ found. IfSome found (λ found. IsCheckpoint B.spells found.value found.position)) }
    ensures untouched { OnlyReads D.Disk disk.old disk.new }
    ensures cause { HasSaveCause (D.fault_count disk.old) (D.fault_count disk.new) result }
{
    let read = match slot_of(alloc, disk, FileNo::Slot0, zero) {
        Ok(read) => read,
        Err(fault) => return Err(fault),
    };
    if let Some((value, position)) = read {
        return Ok(Some(Found {
            file: FileNo::Slot0,
            position,
            value,
        }));
    }
    match slot_of(alloc, disk, FileNo::Slot1, one) {
        Err(fault) => Err(fault),
        Ok(read) => match read {
            Some((value, position)) => Ok(Some(Found {
                file: FileNo::Slot1,
                position,
                value,
            })),
            None => Ok(None),
        },
    }
}

// Reads the second slot, and the first one if the second does not decode.
fn find_in_second<D: Disk, B: Body>(
    alloc: Global,
    disk: &mut D,
    zero: Option<Head>,
    one: Option<Head>,
) -> Result<Option<Found<B>>, SaveFault>
    requires zero { IsTrue D.tells → HasHead zero (D.state disk.old).slot0.seen }
    requires one { IsTrue D.tells → HasHead one (D.state disk.old).slot1.seen }
    requires order { is_below zero one ≡ true }
    ensures exact { IsTrue D.tells → IfOk result (λ found. FindGives B.spells found (pair_in (D.state disk.old))) }
    ensures checkpoint { IfOk result
        (λ found. IfSome found (λ found. IsCheckpoint B.spells found.value found.position)) }
    ensures untouched { OnlyReads D.Disk disk.old disk.new }
    ensures cause { HasSaveCause (D.fault_count disk.old) (D.fault_count disk.new) result }
{
    let read = match slot_of(alloc, disk, FileNo::Slot1, one) {
        Ok(read) => read,
        Err(fault) => return Err(fault),
    };
    if let Some((value, position)) = read {
        return Ok(Some(Found {
            file: FileNo::Slot1,
            position,
            value,
        }));
    }
    match slot_of(alloc, disk, FileNo::Slot0, zero) {
        Err(fault) => Err(fault),
        Ok(read) => match read {
            Some((value, position)) => Ok(Some(Found {
                file: FileNo::Slot0,
                position,
                value,
            })),
            None => Ok(None),
        },
    }
}

// Finds the slot that is loaded.
pub(crate) fn find<D: Disk, B: Body>(
    alloc: Global,
    disk: &mut D,
) -> Result<Option<Found<B>>, SaveFault>
    ensures exact { IsTrue D.tells → IfOk result (λ found. FindGives B.spells found (pair_in (D.state disk.old))) }
    ensures checkpoint { IfOk result
        (λ found. IfSome found (λ found. IsCheckpoint B.spells found.value found.position)) }
    ensures untouched { OnlyReads D.Disk disk.old disk.new }
    ensures cause { HasSaveCause (D.fault_count disk.old) (D.fault_count disk.new) result }
{
    let Ok(zero) = head_of(disk, FileNo::Slot0) else {
        return Err(SaveFault::StoreFault);
    };
    let Ok(one) = head_of(disk, FileNo::Slot1) else {
        return Err(SaveFault::StoreFault);
    };
    if is_second_later(zero, one) {
        find_in_second(alloc, disk, zero, one)
    } else {
        find_in_first(alloc, disk, zero, one)
    }
}

/// Reads the checkpoint with the greatest position, and that position. If both slots have the same position, the first
/// one is read; `None` if neither slot decodes. Nothing is written or synced.
///
/// Cost: time and memory to read one body, and a second one if the first does not decode.
///
/// # Errors
///
/// `StoreFault`: the disk failed. `NoMemory`: out of memory.
pub fn load<D: Disk, B: Body>(alloc: Global, disk: &mut D) -> Result<Option<(B, u64)>, SaveFault>
    ensures loaded { IsTrue D.tells → IfOk result (λ read. LoadGives B.spells read (pair_in (D.state disk.old))) }

    // Also of a disk that does not tell what it holds.
    ensures checkpoint { IfOk result (λ read. IfSome read (λ read. IsCheckpoint B.spells read.0 read.1)) }

    ensures untouched { OnlyReads D.Disk disk.old disk.new }
    ensures cause { HasSaveCause (D.fault_count disk.old) (D.fault_count disk.new) result }
{
    match find(alloc, disk)? {
        Some(found) => Ok(Some((found.value, found.position))),
        None => Ok(None),
    }
}
