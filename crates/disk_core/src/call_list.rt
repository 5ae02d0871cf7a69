// The calls of a disk in memory.
ghost use Rattle.std.specs.Prelude.{◌≡◌, ◌+◌, ◌<◌, ◌≤◌, ◌^◌, ◌++◌, [], ◌∷◌, length, take, IfOk, OnOk, OnErr};
ghost use Rattle.disk_core.specs.Files.{file_in, put};
ghost use Rattle.disk_core.specs.Contents.{AreBytes, bytes_of, bytes_in, with_bytes};
ghost use Rattle.disk_core.specs.Kept.{Write, Cut, count_of, call_of};
ghost use Rattle.disk_core.specs.Pending.{file_of};
ghost use Rattle.disk_core.specs.Replay.{after};

use crate::FileNo;
use crate::contents::Contents;
use crate::pending::Pending;
use std::alloc::{AllocError, Global};
use std::marker::Model;

// A call that is kept; places and lengths are in bytes.
#[derive(Clone, Copy)]
pub enum DiskCall {
    // One that changed nothing.
    Other,
    // One of so many bytes.
    Write { file: FileNo, at: u64, count: usize },
    Cut { file: FileNo, to: u64 },
    Sync { file: FileNo },
}

impl DiskCall {
    // Tells how many bytes it wrote.
    pub fn count(&self) -> usize
        ensures { result ≡ count_of self.now }
    {
        match self {
            DiskCall::Write { count, .. } => *count,
            _ => 0,
        }
    }
}

// Calls, and the bytes of all their writes, one after another.
#[derive(Drop)]
pub struct CallList {
    calls: Vec<DiskCall>,
    bytes: Vec<u8>,
}

impl Model for CallList {
    ghost use Rattle.std.specs.Prelude.{◌≡◌, List, length};
    ghost use Rattle.disk_core.specs.Kept.{Call, calls_of, count_all};

    ghost Value = { List Call };

    ghost view = { λ l. calls_of l.calls.items l.bytes.items };

    ghost invariant = { λ l. count_all l.calls.items ≡ length l.bytes.items };
}

impl CallList {
    // Makes a list of no calls. It takes memory from this allocator.
    #[tactic(auto, unfolding(crate::specs::Kept::calls_of, crate::specs::Kept::count_all))]
    pub fn new(alloc: Global) -> Self
        ensures { result ≡ [] }
    {
        CallList {
            calls: Vec::new(alloc),
            bytes: Vec::new(alloc),
        }
    }

    // Tells how many calls it has.
    pub fn len(&self) -> usize
        ensures count { result ≡ length self.now }
        ensures more { result + 1 < 2 ^ 64 }
    {
        self.calls.len()
    }

    // Keeps a call that is no write, or changes nothing.
    pub fn keep(&mut self, call: DiskCall) -> Result<(), AllocError>
        requires { count_of call ≡ 0 }
        ensures ok { OnOk result (self.new ≡ self.old ++ call_of call [] ∷ []) }
        ensures err { OnErr result (self.new ≡ self.old) }
    {
        self.calls.reserve(1)?;
        self.calls.push_reserved(call);
        Ok(())
    }

    // Writes to a file and keeps the call, or changes nothing.
    pub fn write(
        &mut self,
        contents: &mut Contents,
        file: FileNo,
        at: u64,
        bytes: &[u8],
    ) -> Result<(), AllocError>
        requires { at ≤ length (bytes_in file (bytes_of contents.old)) }
        ensures kept { OnOk result (self.new ≡ self.old ++ Write file at bytes.now ∷ []) }
        ensures written { OnOk result (bytes_of contents.new
            ≡ with_bytes file (put at bytes.now (bytes_in file (bytes_of contents.old))) (bytes_of contents.old)) }
        ensures small { OnOk result (AreBytes (bytes_of contents.new)) }
        ensures not_kept { OnErr result (self.new ≡ self.old) }
        ensures not_written { OnErr result (bytes_of contents.new ≡ bytes_of contents.old) }
    {
        let count = bytes.len();
        let end = self.bytes.len();
        self.calls.reserve(1)?;
        self.bytes.extend_from_slice(bytes)?;
        if contents.write(file, at as usize, bytes).is_err() {
            self.bytes.truncate(end);
            return Err(AllocError);
        }
        contents.small();
        self.calls
            .push_reserved(DiskCall::Write { file, at, count });
        Ok(())
    }

    // Cuts a file and keeps the call, or changes nothing.
    pub fn cut(&mut self, contents: &mut Contents, file: FileNo, to: u64) -> Result<(), AllocError>
        ensures kept { OnOk result (self.new ≡ self.old ++ Cut file to ∷ []) }
        ensures done { OnOk result (bytes_of contents.new
            ≡ with_bytes file (take to (bytes_in file (bytes_of contents.old))) (bytes_of contents.old)) }
        ensures small { OnOk result (AreBytes (bytes_of contents.new)) }
        ensures not_kept { OnErr result (self.new ≡ self.old) }
        ensures not_done { OnErr result (bytes_of contents.new ≡ bytes_of contents.old) }
    {
        self.keep(DiskCall::Cut { file, to })?;
        contents.cut(file, to as usize);
        contents.small();
        Ok(())
    }

    // Finds what the first `count` calls leave of a file.
    pub fn pending(&self, count: usize, file: FileNo, alloc: Global) -> Result<Pending, AllocError>
        requires { count ≤ length self.now }
        ensures { IfOk result (λ pending. file_of pending ≡ file_in file (after (take count self.now))) }
    {
        Pending::of(&self.calls[..count], &self.bytes, file, alloc)
    }
}
