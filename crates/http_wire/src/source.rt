// Where bytes come from.
ghost use Rattle.std.specs.Prelude.{◌≡◌, ℕ, List, Option, None, OnOk};
ghost use Rattle.std.specs.Io.{ReadsAtMost};
ghost use Rattle.std.specs.Io.KnownBytes.{ReadConsumes};
ghost use Rattle.office_base.specs.Faults.{HasCause};

use office_base::Failed;
use std::io::{ErrorKind, Read};

// Signals that may interrupt one read before it counts as failed.
const INTERRUPTIONS: u32 = 10_000;

/// A stream of bytes, read in pieces.
pub trait Source {
    /// The bytes that are left, where the source tells them.
    ghost left: { Self → Option (List ℕ) };

    /// All its bytes, those that it gave and those that are left, where the source tells them.
    ghost stream: { Self → Option (List ℕ) };

    /// How often it failed.
    ghost faults: { Self → ℕ };

    /// Fills the front of the room, and answers how many bytes it wrote. For a room that is not empty 0 is the end.
    /// The count of faults stands still.
    ///
    /// # Errors
    ///
    /// `Failed`: no byte was read, and the count of faults rose. A later call may succeed.
    fn read(&mut self, room: &mut [u8]) -> Result<usize, Failed>
        ensures bound { ReadsAtMost result room.new }
        ensures bytes { ReadConsumes (left self.old) (left self.new) result room.new }
        ensures stream { stream self.new ≡ stream self.old }
        ensures cause { HasCause (faults self.old) (faults self.new) result }
        ensures quiet { OnOk result (faults self.new ≡ faults self.old) };
}

/// A reader of std, whose faults are counted. A read that a signal interrupts is tried again, and is no fault.
#[derive(Drop)]
pub struct ReaderSource<R: Read + Drop> {
    reader: R,
    faults: u64,
}

impl<R: Read + Drop> ReaderSource<R> {
    /// Takes a reader, with a count of faults of 0.
    pub fn new(reader: R) -> Self
        ensures left { ⟦<ReaderSource<R> as Source>⟧.left result ≡ R.remaining reader }
        ensures faults { ⟦<ReaderSource<R> as Source>⟧.faults result ≡ 0 }
    {
        ReaderSource { reader, faults: 0 }
    }
}

impl<R: Read + Drop> Source for ReaderSource<R> {
    ghost left = { λ s. R.remaining s.reader };

    ghost stream = { λ s. None };

    ghost faults = { λ s. s.faults };

    fn read(&mut self, room: &mut [u8]) -> Result<usize, Failed> {
        match read_retrying(&mut self.reader, room) {
            Ok(count) => Ok(count),
            Err(e) => {
                self.faults = self.faults.saturating_add(1);
                Err(e)
            }
        }
    }
}

// One read, which is tried again if a signal interrupts it.
fn read_retrying<R: Read>(reader: &mut R, room: &mut [u8]) -> Result<usize, Failed>
    ensures bound { ReadsAtMost result room.new }
    ensures bytes { ReadConsumes (R.remaining reader.old) (R.remaining reader.new) result room.new }
{
    for _ in 0..INTERRUPTIONS {
        match reader.read(room) {
            Ok(count) => return Ok(count),
            Err(e) => {
                if e.kind() != ErrorKind::Interrupted {
                    return Err(Failed);
                }
            }
        }
    }
    Err(Failed)
}
