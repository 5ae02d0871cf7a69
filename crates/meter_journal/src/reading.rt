// Reading a frame of a journal file.
ghost use Rattle.std.specs.Prelude.{◌≡◌, ◌+◌, ◌<◌, ◌≤◌, ◌^◌, IsTrue, IsErrOf, length, IfOk, IfSome};
ghost use Rattle.entry_codec.specs.Reading.{entry_of};
ghost use Rattle.entry_codec.specs.Spelling.{EntryFits, entry_limit, spelling};
ghost use Rattle.disk_core.specs.Moments.{OnlyReads};
ghost use Rattle.meter_journal.specs.Reading.{body_at, frame_at, size_at, entry_frame, entry_frame_at};
ghost use Rattle.meter_journal.specs.Reading.{BodyGives, FrameGives, HasStoreCause};
ghost use Rattle.meter_journal.specs.Windows.{IsPart};

use crate::fault::OpenFault;
use crate::gate::OPEN;
use crate::window::Window;
use disk_core::Disk;
use entry_codec::{ENTRY_LIMIT, EntryFault, decode};
use office_types::Entry;
use std::alloc::Global;

// No frame ends past this place.
const MAX: u64 = 1 << 45;

// The entry that these bytes after a gate spell, and the place of the next gate.
fn entry_in(alloc: Global, gate: u64, bytes: &[u8]) -> Result<(Entry, u64), OpenFault>
    requires { gate + 5 + length bytes.now < 2 ^ 64 }
    ensures exact { BodyGives result gate (entry_frame (gate + 5 + length bytes.now) (entry_of bytes.now)) }
    ensures told { IsErrOf result OpenFault.StoreFault → ⊥ }
    ensures place { IfOk result (λ x. x.1 ≡ gate + 5 + length bytes.now) }
    ensures spelled { IfOk result (λ x. EntryFits x.0 × (x.1 ≡ gate + 5 + length (spelling x.0))) }
{
    match decode(alloc, bytes) {
        Ok(entry) => Ok((entry, gate + 5 + bytes.len() as u64)),
        Err(EntryFault::BadEntry { .. }) => Err(OpenFault::Damaged { offset: gate }),
        Err(EntryFault::NoMemory) => Err(OpenFault::NoMemory),
    }
}

// The entry of so many bytes after a gate, and the place of the next gate.
#[tactic(auto, using(crate::proofs::Parts::no_frame))]
fn entry_by<D: Disk>(
    alloc: Global,
    disk: &mut D,
    window: &mut Window,
    gate: u64,
    size: u64,
    end: u64,
) -> Result<(Entry, u64), OpenFault>
    requires small { gate + size < 2 ^ 46 }
    requires inside { gate + 5 + size ≤ end }
    requires known { IsTrue D.tells → end ≡ length (D.state disk.old).journal.seen }
    requires part { IsTrue D.tells → IsPart window.old.at window.old.bytes (D.state disk.old).journal.seen }
    ensures exact { IsTrue D.tells → BodyGives result gate (entry_frame_at gate size (D.state disk.old).journal.seen) }
    ensures place { IfOk result (λ x. x.1 ≡ gate + 5 + size) }
    ensures spelled { IfOk result (λ x. EntryFits x.0 × (x.1 ≡ gate + 5 + length (spelling x.0))) }
    ensures part { IsTrue D.tells → IsPart window.new.at window.new.bytes (D.state disk.old).journal.seen }
    ensures untouched { OnlyReads D.Disk disk.old disk.new }
    ensures cause { HasStoreCause (D.fault_count disk.old) (D.fault_count disk.new) result }
{
    window.cover(disk, gate + 5, gate + 5 + size, end)?;
    entry_in(alloc, gate, window.part(gate + 5, size))
}

// What is after an open gate.
#[tactic(auto, using(crate::proofs::Parts::no_frame), unfolding(crate::specs::Reading::body_at))]
fn body_by<D: Disk>(
    alloc: Global,
    disk: &mut D,
    window: &mut Window,
    gate: u64,
    end: u64,
) -> Result<(Entry, u64), OpenFault>
    requires inside { gate < end }
    requires known { IsTrue D.tells → end ≡ length (D.state disk.old).journal.seen }
    requires part { IsTrue D.tells → IsPart window.old.at window.old.bytes (D.state disk.old).journal.seen }
    ensures exact { IsTrue D.tells → BodyGives result gate (body_at gate (D.state disk.old).journal.seen) }
    ensures rises { IfOk result (λ x. (gate < x.1) × (x.1 < 2 ^ 45)) }
    ensures spelled { IfOk result (λ x. EntryFits x.0 × (x.1 ≡ gate + 5 + length (spelling x.0))) }
    ensures memory { IsTrue D.tells → IsErrOf result OpenFault.NoMemory
        → size_at gate (D.state disk.old).journal.seen ≤ entry_limit }
    ensures part { IsTrue D.tells → IsPart window.new.at window.new.bytes (D.state disk.old).journal.seen }
    ensures untouched { OnlyReads D.Disk disk.old disk.new }
    ensures cause { HasStoreCause (D.fault_count disk.old) (D.fault_count disk.new) result }
{
    if end - gate < 5 || gate > MAX {
        return Err(OpenFault::Damaged { offset: gate });
    }
    window.cover(disk, gate, gate + 5, end)?;
    let size = window.size(gate) as u64;
    if end < gate + 6 + size || MAX < gate + 6 + size {
        return Err(OpenFault::Damaged { offset: gate });
    }
    if ENTRY_LIMIT < size {
        return Err(OpenFault::Damaged { offset: gate });
    }
    entry_by(alloc, disk, window, gate, size, end)
}

/// Reads the frame at a gate: the entry with the place of the next gate, or `None` if the gate is not open.
///
/// `gate` is in bytes from the start of the file, and `end` is the length of the file in bytes. The file is read
/// through the window, which must be of this file. Nothing is written. Cost: one call of the disk for each 65,536
/// bytes, or for each longer frame; memory for the entry, and for such a frame.
///
/// # Errors
///
/// `Damaged` at the gate: the gate is past the end of the file; or it is open, and the frame's length, its entry or the
/// next gate ends past the end or past 2^45 bytes, or the frame has no entry. `StoreFault`: a call of the disk failed.
/// `NoMemory`: memory ran out. The window is still of this file.
#[tactic(auto, using(crate::proofs::Parts::no_frame), unfolding(crate::specs::Reading::frame_at))]
pub fn frame_in<D: Disk>(
    alloc: Global,
    disk: &mut D,
    gate: u64,
    end: u64,
    window: &mut Window,
) -> Result<Option<(Entry, u64)>, OpenFault>
    requires known { IsTrue D.tells → end ≡ length (D.state disk.old).journal.seen }
    requires part { IsTrue D.tells → IsPart window.old.at window.old.bytes (D.state disk.old).journal.seen }
    ensures exact { IsTrue D.tells → FrameGives result gate (frame_at gate (D.state disk.old).journal.seen) }
    ensures rises { IfOk result (λ read. IfSome read (λ x. (gate < x.1) × (x.1 < 2 ^ 45))) }
    // On every disk: what is read is an entry in range, and its frame is passed over.
    ensures spelled { IfOk result
        (λ read. IfSome read (λ x. EntryFits x.0 × (x.1 ≡ gate + 5 + length (spelling x.0)))) }
    // Memory runs out only for a frame that claims no more bytes than an entry may have.
    ensures memory { IsTrue D.tells → IsErrOf result OpenFault.NoMemory
        → size_at gate (D.state disk.old).journal.seen ≤ entry_limit }
    ensures part { IsTrue D.tells → IsPart window.new.at window.new.bytes (D.state disk.old).journal.seen }
    ensures untouched { OnlyReads D.Disk disk.old disk.new }
    ensures cause { HasStoreCause (D.fault_count disk.old) (D.fault_count disk.new) result }
{
    if end <= gate {
        return Err(OpenFault::Damaged { offset: gate });
    }
    window.cover(disk, gate, gate + 1, end)?;
    if window.byte(gate) != OPEN {
        return Ok(None);
    }
    let read = body_by(alloc, disk, window, gate, end)?;
    Ok(Some(read))
}
