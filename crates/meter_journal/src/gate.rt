// The gate before an entry. The entry counts once it is open.
ghost use Rattle.std.specs.Prelude.{◌≡◌, ◌+◌, ◌<◌, ◌≤◌, [], ◌∷◌, ℕ, List, IsTrue, length, OnOk};
ghost use Rattle.office_base.specs.Faults.{HasCause};
ghost use Rattle.disk_core.specs.Files.{put, synced_file};
ghost use Rattle.disk_core.specs.Moments.{KeepsTo};
ghost use Rattle.disk_core.specs.Fronts.{IsButOne};
ghost use Rattle.meter_journal.specs.History.{IsNoLonger};
ghost use Rattle.disk_core.specs.Tallies.{EndsSynced};

use disk_core::{Disk, Failed, FileNo};

// The byte of a gate that is open. A gate with any other byte is closed.
pub(crate) const OPEN: u8 = 0xA5;

// Opens the gate at this place, and syncs it.
pub(crate) fn open_gate<D: Disk>(disk: &mut D, gate: u64) -> Result<(), Failed>
    requires { IsTrue D.honest → gate < length (D.state disk.old).journal.seen }

    ensures any_moment { IsTrue D.honest → (bytes : List ℕ) → gate < length bytes
        → (D.state disk.old).journal ≡ synced_file bytes
        → KeepsTo D.Disk disk.old disk.new (IsButOne gate bytes (D.state disk.old)) }

    ensures done { IsTrue D.honest → OnOk result ((D.state disk.new).journal
        ≡ synced_file (put gate (0xA5 ∷ []) (D.state disk.old).journal.seen)) }

    ensures room { IsTrue D.honest → (n : ℕ) → gate + 1 ≤ n → IsNoLonger n (D.state disk.old)
        → KeepsTo D.Disk disk.old disk.new (IsNoLonger n) }

    ensures synced { OnOk result (EndsSynced 1 (D.tally disk.old) (D.tally disk.new)) }
    ensures cause { HasCause (D.fault_count disk.old) (D.fault_count disk.new) result }
    ensures quiet { OnOk result (D.fault_count disk.new ≡ D.fault_count disk.old) }
{
    disk.write_at(FileNo::Journal, gate, &[OPEN])?;
    disk.sync(FileNo::Journal)
}
