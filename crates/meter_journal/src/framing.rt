// The frame of an entry, after a gate that is not open.
ghost use Rattle.std.specs.Prelude.{◌≡◌, ◌⊎◌, ◌+◌, ◌%◌, ◌<◌, ◌≤◌, ◌^◌, ◌++◌, ◌∷◌, ℕ, List, IsTrue, length};
ghost use Rattle.std.specs.Prelude.{replicate, min, OnOk};
ghost use Rattle.std.specs.Int.{w32, to_be_bytes};
ghost use Rattle.office_base.specs.Faults.{HasCause};
ghost use Rattle.disk_core.specs.Files.{put, synced_file};
ghost use Rattle.disk_core.specs.Moments.{KeepsTo};
ghost use Rattle.disk_core.specs.Fronts.{KeepsJournal};
ghost use Rattle.meter_journal.specs.History.{IsNoLonger};
ghost use Rattle.disk_core.specs.Tallies.{EndsSynced};

use disk_core::{Disk, Failed, FileNo};

// As many zeros as the largest block of a disk has bytes.
const ZEROS: [u8; 4_096] = [0; 4_096];

fn zeros() -> &'static [u8]
    ensures { result.now ≡ replicate 4096 0 }
{
    &ZEROS
}

// What ends the frame after this gate, from the place of its end gate on: a closed gate. If that is in another block
// than the gate, zeros follow up to the end of its block, but not past the limit.
fn ending(block: u64, gate: u64, end: u64, limit: u64) -> &'static [u8]
    requires block { block ≤ 4096 }
    requires end { end < 2 ^ 47 }
    ensures zeros { (n : ℕ) × (result.now ≡ 0 ∷ replicate n 0) }
    ensures limit { (length result.now ≡ 1) ⊎ (end + length result.now ≤ limit) }
    ensures most { length result.now ≤ 4096 }
    ensures whole { (length result.now ≡ 1) ⊎ ((end + length result.now) % block ≡ 0) }
{
    let zeros = zeros();
    if block == 0 || end / block == gate / block {
        return &zeros[..1];
    }
    let rest = block - end % block;
    if limit < end + rest {
        return &zeros[..1];
    }
    &zeros[..rest as usize]
}

// Writes the length, the entry and a closed gate after the gate at this place, and syncs them. If the frame goes on
// into a new block of the disk, zeros are written up to the end of that block. So the next syncs need not write a new
// length.
pub(crate) fn write_frame<D: Disk>(
    disk: &mut D,
    gate: u64,
    entry: &[u8],
    limit: u64,
) -> Result<(), Failed>
    requires size { length entry.now < 2 ^ 32 }
    requires place { gate < 2 ^ 46 }
    requires inside { IsTrue D.honest → gate + 1 ≤ length (D.state disk.old).journal.seen }

    ensures any_moment { IsTrue D.honest → (front : List ℕ)
        → KeepsJournal (gate + 1) front (D.state disk.old) (D.state disk.old)
        → KeepsTo D.Disk disk.old disk.new (KeepsJournal (gate + 1) front (D.state disk.old)) }

    ensures done { IsTrue D.honest → OnOk result ((n : ℕ) × ((D.state disk.new).journal
        ≡ synced_file (put (gate + 1) (to_be_bytes w32 (length entry.now) ++ entry.now ++ 0 ∷ replicate n 0)
        (D.state disk.old).journal.seen))) }

    // The zeros go at most to the end of a block, and not past the limit.
    ensures room { IsTrue D.honest → (n : ℕ) → gate + 6 + length entry.now ≤ limit
        → min limit (gate + 6 + length entry.now + 4095) ≤ n → IsNoLonger n (D.state disk.old)
        → KeepsTo D.Disk disk.old disk.new (IsNoLonger n) }

    ensures synced { OnOk result (EndsSynced 1 (D.tally disk.old) (D.tally disk.new)) }
    ensures cause { HasCause (D.fault_count disk.old) (D.fault_count disk.new) result }
    ensures quiet { OnOk result (D.fault_count disk.new ≡ D.fault_count disk.old) }
{
    let end = gate + 5 + entry.len() as u64;
    let closing = ending(disk.block(), gate, end, limit);
    disk.write_at(
        FileNo::Journal,
        gate + 1,
        &(entry.len() as u32).to_be_bytes(),
    )?;
    disk.write_at(FileNo::Journal, gate + 5, entry)?;
    disk.write_at(FileNo::Journal, end, closing)?;
    disk.sync(FileNo::Journal)
}
