//! Streams whose calls a signal interrupts: each call is made again, and that is no fault.
use crate::given::equal;
use http_front::{ReaderSource, Replies, Source, WriterReplies};
use office_base::Failed;
use std::io::{self, ErrorKind, Read, Write};

/// A reader of one byte, each read of which is interrupted this often before it is done.
#[derive(Drop)]
struct SlowReader {
    interruptions: u32,
    left: u32,
}

impl Read for SlowReader {
    fn read(&mut self, buf: &mut [u8]) -> io::Result<usize> {
        if self.left > 0 {
            self.left -= 1;
            return Err(io::Error::from(ErrorKind::Interrupted));
        }
        self.left = self.interruptions;
        if buf.is_empty() {
            return Ok(0);
        }
        buf[0] = b'p';
        Ok(1)
    }
}

/// A writer that takes at most two bytes a call, and each call of which is interrupted this often before it is done.
#[derive(Drop)]
struct SlowWriter {
    interruptions: u32,
    left: u32,
    taken: usize,
}

impl Write for SlowWriter {
    fn write(&mut self, buf: &[u8]) -> io::Result<usize> {
        if self.left > 0 {
            self.left -= 1;
            return Err(io::Error::from(ErrorKind::Interrupted));
        }
        self.left = self.interruptions;
        let count = buf.len().min(2);
        self.taken = self.taken.saturating_add(count);
        Ok(count)
    }

    fn flush(&mut self) -> io::Result<()> {
        Ok(())
    }
}

// How often a read or a write is interrupted, and whether it is done.
const ROWS: &[(u32, bool)] = &[(0, true), (1, true), (9_999, true), (10_000, false)];

// How many bytes a read gives that is interrupted this often.
fn count_read(interruptions: u32) -> Result<usize, Failed> {
    let mut source = ReaderSource::new(SlowReader {
        interruptions,
        left: interruptions,
    });
    let mut room = [0u8; 4];
    source.read(&mut room)
}

#[test]
fn an_interrupted_read_is_tried_again(rt: HostRuntime) {
    for (interruptions, is_done) in ROWS {
        let wanted = if *is_done { Ok(1) } else { Err(Failed) };
        equal(&rt, interruptions, &count_read(*interruptions), &wanted);
    }
}

// Whether a text is written by calls that are interrupted this often.
fn written(interruptions: u32) -> Result<(), Failed> {
    let writer = SlowWriter {
        interruptions,
        left: interruptions,
        taken: 0,
    };
    let mut out = WriterReplies::new(writer, io::sink());
    out.text(b"office")
}

#[test]
fn an_interrupted_write_is_tried_again(rt: HostRuntime) {
    for (interruptions, is_done) in ROWS {
        let wanted = if *is_done { Ok(()) } else { Err(Failed) };
        equal(&rt, interruptions, &written(*interruptions), &wanted);
    }
}
