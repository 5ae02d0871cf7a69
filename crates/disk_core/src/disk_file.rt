// One file of a disk, which may report its calls.
ghost use Rattle.std.specs.Prelude.{◌≡◌, ℕ, length, List, None, Option};
ghost use Rattle.disk_core.specs.FileCalls.{Made, Records, length_told, bytes_given, whether_done};
ghost use Rattle.disk_core.specs.FileCalls.{asks_length, reads, writes, cuts, syncs};

use std::fs::File;
use std::io;
use std::os::unix::fs::FileExt;

/// A file that is open for reading and writing.
///
/// If it reports its calls, each call adds itself and its answer.
pub trait DiskFile {
    /// The calls that were made with their answers, if the file reports them.
    ghost calls: { Self → Option (List Made) };

    /// Tells its length, in bytes.
    fn length(&mut self) -> io::Result<u64>
        ensures { Records asks_length (length_told result) (calls self.old) (calls self.new) };

    /// Fills the room with the bytes from an offset on.
    fn read(&mut self, at: u64, room: &mut [u8]) -> io::Result<()>
        ensures { Records (reads at (length room.old)) (bytes_given room.new result) (calls self.old)
            (calls self.new) };

    /// Writes bytes from an offset on.
    fn write(&mut self, at: u64, bytes: &[u8]) -> io::Result<()>
        ensures { Records (writes at bytes.now) (whether_done result) (calls self.old) (calls self.new) };

    /// Cuts it to a length, in bytes.
    fn cut(&mut self, to: u64) -> io::Result<()>
        ensures { Records (cuts to) (whether_done result) (calls self.old) (calls self.new) };

    /// Makes its bytes and its length durable.
    fn sync(&mut self) -> io::Result<()>
        ensures { Records syncs (whether_done result) (calls self.old) (calls self.new) };
}

/// A file of the operating system reports no calls. Its attributes beside the length are not made durable.
impl DiskFile for File {
    ghost calls = { λ _. None };

    fn length(&mut self) -> io::Result<u64> {
        Ok(self.metadata()?.len())
    }

    fn read(&mut self, at: u64, room: &mut [u8]) -> io::Result<()> {
        self.read_exact_at(room, at)
    }

    fn write(&mut self, at: u64, bytes: &[u8]) -> io::Result<()> {
        self.write_all_at(bytes, at)
    }

    fn cut(&mut self, to: u64) -> io::Result<()> {
        self.set_len(to)
    }

    fn sync(&mut self) -> io::Result<()> {
        self.sync_data()
    }
}
