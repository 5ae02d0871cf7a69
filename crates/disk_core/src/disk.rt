// The trait of a disk.
ghost use Rattle.std.specs.Prelude.{◌≡◌, ◌+◌, ◌<◌, ◌≤◌, ℕ, get_or, Bool, IsTrue, length, take, drop, IfOk, OnOk, OnErr};
ghost use Rattle.disk_core.specs.declared.disk.FileNo.{FileNo};
ghost use Rattle.office_base.specs.Faults.{HasCause};
ghost use Rattle.disk_core.specs.Files.{State, IsImage, file_in, seen_in, put};
ghost use Rattle.disk_core.specs.Files.{SameReads, Wrote, Shortened, Synced, Unsynced};
ghost use Rattle.disk_core.specs.Calls.{Elapses};
ghost use Rattle.disk_core.specs.Tallies.{Tally, IsWritten, IsSynced};

use office_base::Failed;
use std::snapshot::Snapshot;

/// The files of an office.
#[derive(Clone, Copy, Debug, PartialEq, Eq)]
pub enum FileNo {
    /// The journal of accepted commands.
    Journal,
    /// The first of the two files that hold a checkpoint.
    Slot0,
    /// The second of them.
    Slot1,
}

/// Three files, of which a crash at any moment may leave any of their images.
///
/// Offsets and lengths are in bytes, from the start of a file. A file reads what was written to it last. After a
/// crash it is one of its images: its length is one that it had since the last sync, and the ranges that were
/// written since then hold any bytes, as do all bytes past the synced length; the others are as they were synced.
///
/// The count of faults never falls. A call fails where, and only where, it rises; at the greatest `u64` a call that
/// fails leaves it. A call that failed may have happened in part, as its docstring says.
///
/// Every disk tells its count of faults, and its tally: how often it was to be written or cut, and how often it was
/// synced. Contents and lengths are told by a disk that `tells`; what a write and a sync leave, by one that is
/// `honest`.
pub trait Disk {
    /// Whether lengths and reads are those of its state.
    ghost tells: { Bool };

    /// Whether it also keeps what it synced.
    ghost honest: { Bool };

    /// Its files now.
    ghost state: { Self → State };

    /// The moment, a number that does not fall.
    ghost moment: { Self → ℕ };

    /// The states of its files at that moment and since.
    ghost had_since: { Self → ℕ → State → Type 0 };

    /// How often it has failed.
    ghost fault_count: { Self → ℕ };

    /// What it was asked to write and to sync.
    ghost tally: { Self → Tally };

    /// Tells the length of a file, in bytes.
    ///
    /// # Errors
    ///
    /// `Failed`: the disk did not do the call. The files are as they were.
    fn length(&mut self, file: FileNo) -> Result<u64, Failed>
        ensures length { IsTrue tells → IfOk result (λ n. n ≡ length (seen_in file (state self.old))) }
        ensures state { IsTrue tells → state self.new ≡ state self.old }
        ensures tally { tally self.new ≡ tally self.old }
        ensures time { Elapses state moment had_since self.old self.new }
        ensures cause { HasCause (fault_count self.old) (fault_count self.new) result }
        ensures quiet { OnOk result (fault_count self.new ≡ fault_count self.old) };

    /// Fills the room with the bytes from an offset on. They have to end within the file.
    ///
    /// # Errors
    ///
    /// `Failed`: the disk did not do the call. The files are as they were; the room may hold anything.
    fn read_at(&mut self, file: FileNo, at: u64, room: &mut [u8]) -> Result<(), Failed>
        requires { IsTrue tells → at + length room.old ≤ length (seen_in file (state self.old)) }
        ensures bytes { IsTrue tells → OnOk result (room.new
            ≡ take (length room.old) (drop at (seen_in file (state self.old)))) }
        ensures state { IsTrue tells → state self.new ≡ state self.old }
        ensures tally { tally self.new ≡ tally self.old }
        ensures time { Elapses state moment had_since self.old self.new }
        ensures cause { HasCause (fault_count self.old) (fault_count self.new) result }
        ensures quiet { OnOk result (fault_count self.new ≡ fault_count self.old) };

    /// Writes over what is there from an offset on, and past the end. It begins within the file or at its end.
    ///
    /// Until the next sync a crash may leave any bytes in the range, and the file at its old length or its new one.
    ///
    /// # Errors
    ///
    /// `Failed`: the write was not made, or was made in part or as a whole: its range may then hold any bytes, and
    /// the file may be longer, up to the end of the range.
    fn write_at(&mut self, file: FileNo, at: u64, bytes: &[u8]) -> Result<(), Failed>
        requires { IsTrue honest → at ≤ length (seen_in file (state self.old)) }
        ensures done { IsTrue honest → OnOk result (seen_in file (state self.new)
            ≡ put at bytes.now (seen_in file (state self.old))) }
        ensures state { IsTrue honest → Wrote file at (length bytes.now) (state self.old) (state self.new) }
        ensures tally { IsWritten file (tally self.old) (tally self.new) }
        ensures time { Elapses state moment had_since self.old self.new }
        ensures cause { HasCause (fault_count self.old) (fault_count self.new) result }
        ensures quiet { OnOk result (fault_count self.new ≡ fault_count self.old) };

    /// Cuts a file to a length, in bytes, which is not above its own.
    ///
    /// Until the next sync a crash may leave the file at its old length or its new one.
    ///
    /// # Errors
    ///
    /// `Failed`: the cut was not made, or the file has a length between the old one and the one that was asked for.
    fn cut(&mut self, file: FileNo, to: u64) -> Result<(), Failed>
        requires { IsTrue honest → to ≤ length (seen_in file (state self.old)) }
        ensures done { IsTrue honest → OnOk result (seen_in file (state self.new)
            ≡ take to (seen_in file (state self.old))) }
        ensures state { IsTrue honest → Shortened file to (state self.old) (state self.new) }
        ensures tally { IsWritten file (tally self.old) (tally self.new) }
        ensures time { Elapses state moment had_since self.old self.new }
        ensures cause { HasCause (fault_count self.old) (fault_count self.new) result }
        ensures quiet { OnOk result (fault_count self.new ≡ fault_count self.old) };

    /// Makes what a read of the file gives its only image.
    ///
    /// # Errors
    ///
    /// `Failed`: the disk did not do the call. The images are as they were, and a read may then give any of them.
    fn sync(&mut self, file: FileNo) -> Result<(), Failed>
        ensures done { IsTrue honest → OnOk result (Synced file (state self.old) (state self.new)) }
        ensures state { IsTrue honest → OnErr result (Unsynced file (state self.old) (state self.new)) }
        ensures reads { IsTrue tells → OnOk result (SameReads (state self.old) (state self.new)) }
        ensures synced { OnOk result (IsSynced file (tally self.old) (tally self.new)) }
        ensures unsynced { OnErr result (tally self.new ≡ tally self.old) }
        ensures time { Elapses state moment had_since self.old self.new }
        ensures cause { HasCause (fault_count self.old) (fault_count self.new) result }
        ensures quiet { OnOk result (fault_count self.new ≡ fault_count self.old) };

    /// Counts the calls that failed, up to the greatest `u64`.
    fn faults(&self) -> u64
        ensures { result ≡ fault_count self.now };

    /// Tells in how many bytes at a time a file is best made longer, or 0 where it makes no difference.
    ///
    /// A sync of a file that became longer also writes its new length, and one of a file that did not writes its
    /// bytes alone. So where many short writes are synced one by one, zeros are written in advance up to a multiple
    /// of this. Own rule. It is no call of the disk: it changes nothing and takes no memory.
    fn block(&self) -> u64
        ensures { result ≤ 4096 };

    /// Takes down the moment, for contracts alone: it is no call of the disk, and costs nothing when it runs.
    fn stamp(&self) -> Snapshot<u64>
        ensures { result.value ≡ moment self.now };

    /// This moment is one of those since an earlier one.
    ghost counts_now: { (disk : Self) (t : ℕ) → t ≤ moment disk → had_since disk t (state disk) };

    /// Since this moment there is no other.
    ghost only_now: { (disk : Self) (s : State) → had_since disk (moment disk) s → s ≡ state disk };

    /// What it had since a moment, it had since each earlier one.
    ghost since_earlier: { (disk : Self) (t u : ℕ) (s : State) → t ≤ u → had_since disk u s → had_since disk t s };

    /// What a read gives is one of the images.
    ghost reads_image: { IsTrue honest → (disk : Self) (file : FileNo)
        → IsImage (file_in file (state disk)) (seen_in file (state disk)) };

    /// A disk that keeps what it synced tells what it holds.
    ghost honest_tells: { IsTrue honest → IsTrue tells };

    /// It holds bytes.
    ghost holds_bytes: { IsTrue tells → (disk : Self) (file : FileNo) (i : ℕ)
        → get_or (seen_in file (state disk)) i 0 < 256 };
}
