// The sending side of a connection, and its end.
use http_wire::Source;
use std::io;
use std::io::Write;
use std::net::{Shutdown, TcpStream};
use std::time::Duration;

/// How many reads wait for a peer to end its side, and how many seconds each of them waits.
const LAST_READS: u32 = 64;

const LAST_WAIT: u64 = 1;

/// How many bytes such a read takes.
const LAST_ROOM: usize = 65536;

/// A stream whose sending side can be ended.
pub trait Ending: Write {
    /// Ends the sending side. A read through the stream's other handles then waits no longer than a second.
    fn end(&self);
}

// If the peer is gone already, the system refuses both calls, and nothing is left to do.
impl Ending for TcpStream {
    fn end(&self) {
        let _ = self.set_read_timeout(Some(Duration::from_secs(LAST_WAIT)));
        let _ = self.shutdown(Shutdown::Write);
    }
}

/// A handle of a stream that sends: each byte that it takes goes to the stream. Dropping it ends the sending side.
#[derive(Debug)]
pub struct Sending<W: Ending + Drop> {
    stream: W,
}

impl<W: Ending + Drop> Sending<W> {
    /// Takes a handle of a stream.
    pub fn new(stream: W) -> Self {
        Sending { stream }
    }
}

impl<W: Ending + Drop> Drop for Sending<W> {
    fn drop(self) {
        self.stream.end();
        let Sending { stream: _ } = self;
    }
}

impl<W: Ending + Drop> Write for Sending<W> {
    ghost contents = { λ s. W.contents s.stream };

    fn write(&mut self, buf: &[u8]) -> io::Result<usize> {
        self.stream.write(buf)
    }

    fn flush(&mut self) -> io::Result<()> {
        self.stream.flush()
    }
}

/// Takes what a peer still sends, up to 4 MiB, until it ends its side or is silent for a second.
///
/// A system that closes a connection with unread bytes resets it, and the peer may then lose the last reply.
pub(crate) fn await_end<S: Source>(source: &mut S) {
    let mut room = [0u8; LAST_ROOM];
    for _ in 0..LAST_READS {
        match source.read(&mut room) {
            Ok(0) | Err(_) => return,
            Ok(_) => {}
        }
    }
}
