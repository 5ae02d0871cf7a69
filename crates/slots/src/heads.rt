// The front of a slot: its gate, its position and the length of its body.
ghost use Rattle.std.specs.Prelude.{◌≡◌, ◌+◌, ◌≤◌, ℕ, List, IsTrue, IfOk, OnOk, length, take, drop};
ghost use Rattle.std.specs.Int.{w64, from_be_bytes, to_be_bytes};
ghost use Rattle.office_base.specs.Faults.{HasCause};
ghost use Rattle.disk_core.specs.Files.{seen_in};
ghost use Rattle.disk_core.specs.Moments.{OnlyReads};
ghost use Rattle.slots.specs.Heads.{HasHead};

use disk_core::{Disk, Failed, FileNo};

// The byte of a gate that is open. A gate with any other byte is closed.
pub(crate) const OPEN: u8 = 0xA7;

// What follows an open gate: the position, and the length of the body in bytes.
#[derive(Clone, Copy)]
pub(crate) struct Head {
    pub(crate) position: u64,
    pub(crate) size: u64,
}

// The number in eight of these bytes.
fn number_in(front: &[u8; 17], at: usize) -> u64
    requires { at + 8 ≤ 17 }
    ensures number { result ≡ from_be_bytes w64 (take 8 (drop at front.now)) }
    ensures bytes { to_be_bytes w64 result ≡ take 8 (drop at front.now) }
{
    let mut room = [0; 8];
    room.copy_from_slice(&front[at..at + 8]);
    u64::from_be_bytes(room)
}

// The head in the first bytes of a slot of this length.
fn head_in(front: &[u8; 17], end: u64) -> Option<Head>
    requires { 17 ≤ end }
    ensures { (file : List ℕ) → end ≡ length file → front.now ≡ take 17 file → HasHead result file }
{
    if front[0] != OPEN {
        return None;
    }
    let size = number_in(front, 9);
    if end - 17 < size {
        return None;
    }
    Some(Head {
        position: number_in(front, 1),
        size,
    })
}

// Reads the head of a slot; `None` if it is not open, or its body does not end within the file.
pub(crate) fn head_of<D: Disk>(disk: &mut D, file: FileNo) -> Result<Option<Head>, Failed>
    ensures exact { IsTrue D.tells → IfOk result (λ head. HasHead head (seen_in file (D.state disk.old))) }
    ensures untouched { OnlyReads D.Disk disk.old disk.new }
    ensures cause { HasCause (D.fault_count disk.old) (D.fault_count disk.new) result }
    ensures quiet { OnOk result (D.fault_count disk.new ≡ D.fault_count disk.old) }
{
    let end = disk.length(file)?;
    if end < 17 {
        return Ok(None);
    }
    let mut front = [0; 17];
    disk.read_at(file, 0, &mut front)?;
    Ok(head_in(&front, end))
}
