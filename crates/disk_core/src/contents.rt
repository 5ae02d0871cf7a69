// The bytes of three files.
ghost use Rattle.std.specs.Prelude.{◌≡◌, ◌≤◌, [], length, take, OnOk, OnErr};
ghost use Rattle.disk_core.specs.Files.{put};
ghost use Rattle.disk_core.specs.Contents.{AreSmall, AreBytes, bytes_of, bytes_in, with_bytes};

use crate::FileNo;
use std::alloc::{AllocError, Global};

// What a read of each file gives.
#[derive(Drop)]
pub struct Contents {
    pub journal: Vec<u8>,
    pub slot0: Vec<u8>,
    pub slot1: Vec<u8>,
}

// Writes over what is there and past the end, or changes nothing.
pub fn overwrite(old: &mut Vec<u8>, at: usize, bytes: &[u8]) -> Result<(), AllocError>
    requires { at ≤ length old.old.items }
    ensures ok { OnOk result (old.new.items ≡ put at bytes.now old.old.items) }
    ensures err { OnErr result (old.new.items ≡ old.old.items) }
{
    let room = old.len() - at;
    if bytes.len() <= room {
        old[at..at + bytes.len()].copy_from_slice(bytes);
        return Ok(());
    }
    old.extend_from_slice(&bytes[room..])?;
    old[at..at + room].copy_from_slice(&bytes[..room]);
    Ok(())
}

fn are_small(bytes: &[u8])
    ensures { AreSmall bytes.now }
{
    let _count = bytes.len();
}

impl Contents {
    // Makes three empty files. They take memory from this allocator.
    pub fn new(alloc: Global) -> Self
        ensures { bytes_of result ≡ record { journal = []; slot0 = []; slot1 = [] } }
    {
        Contents {
            journal: Vec::new(alloc),
            slot0: Vec::new(alloc),
            slot1: Vec::new(alloc),
        }
    }

    // What it holds are bytes.
    pub fn small(&self)
        ensures { AreBytes (bytes_of self.now) }
    {
        are_small(&self.journal);
        are_small(&self.slot0);
        are_small(&self.slot1);
    }

    // Gives all bytes of a file.
    pub fn file(&self, file: FileNo) -> &[u8]
        ensures { result.now ≡ bytes_in file (bytes_of self.now) }
    {
        match file {
            FileNo::Journal => &self.journal,
            FileNo::Slot0 => &self.slot0,
            FileNo::Slot1 => &self.slot1,
        }
    }

    // Writes from a byte place on, which is within the file or at its end. `AllocError`: memory ran out, and nothing
    // changed.
    pub fn write(&mut self, file: FileNo, at: usize, bytes: &[u8]) -> Result<(), AllocError>
        requires { at ≤ length (bytes_in file (bytes_of self.old)) }
        ensures ok { OnOk result (bytes_of self.new
            ≡ with_bytes file (put at bytes.now (bytes_in file (bytes_of self.old))) (bytes_of self.old)) }
        ensures err { OnErr result (bytes_of self.new ≡ bytes_of self.old) }
    {
        match file {
            FileNo::Journal => overwrite(&mut self.journal, at, bytes),
            FileNo::Slot0 => overwrite(&mut self.slot0, at, bytes),
            FileNo::Slot1 => overwrite(&mut self.slot1, at, bytes),
        }
    }

    // Cuts a file to so many bytes; a shorter one stays as it is.
    pub fn cut(&mut self, file: FileNo, to: usize)
        ensures { bytes_of self.new
            ≡ with_bytes file (take to (bytes_in file (bytes_of self.old))) (bytes_of self.old) }
    {
        match file {
            FileNo::Journal => self.journal.truncate(to),
            FileNo::Slot0 => self.slot0.truncate(to),
            FileNo::Slot1 => self.slot1.truncate(to),
        }
    }
}
