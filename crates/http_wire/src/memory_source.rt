// A source in memory.
ghost use Rattle.std.specs.Prelude.{◌≡◌, ◌<◌, ◌≤◌, ◌+◌, ◌-◌, ◌^◌, ◌++◌, [], Some};
ghost use Rattle.std.specs.Prelude.{drop, take, length, max, min, vec_len, OnOk};
ghost use Rattle.std.specs.Bool.{Decides};
ghost use Rattle.std.specs.List.{Contains};
ghost use Rattle.std.specs.Io.{ReadsAtMost};
ghost use Rattle.std.specs.Io.KnownBytes.{ReadConsumes};
ghost use Rattle.office_base.specs.Faults.{HasCause};

use crate::Source;
use office_base::Failed;

/// Bytes in memory, given in pieces of a chosen size, with failures at chosen calls.
#[derive(Drop)]
pub struct MemorySource {
    bytes: Vec<u8>,
    given: usize,
    cut: usize,
    failing: Vec<u64>,
    calls: u64,
    faults: u64,
    ghost inside: { given ≤ vec_len bytes },
    ghost some: { 0 < cut },
}

impl MemorySource {
    ghost use Rattle.http_wire.specs.MemorySources.{source_cut, source_failing, source_calls};

    /// Takes the bytes. A call gives at most `cut` of them, where 0 counts as 1; exactly the calls whose numbers are
    /// in `failing`, counted from 1, fail.
    pub fn new(bytes: Vec<u8>, cut: usize, failing: Vec<u64>) -> Self
        ensures left { ⟦<MemorySource as Source>⟧.left result ≡ Some bytes.items }
        ensures stream { ⟦<MemorySource as Source>⟧.stream result ≡ Some bytes.items }
        ensures faults { ⟦<MemorySource as Source>⟧.faults result ≡ 0 }
        ensures cut { source_cut result ≡ max cut 1 }
        ensures failing { source_failing result ≡ failing.items }
        ensures calls { source_calls result ≡ 0 }
    {
        MemorySource {
            bytes,
            given: 0,
            cut: cut.max(1),
            failing,
            calls: 0,
            faults: 0,
        }
    }

    // Counts a call, and tells whether it is to fail.
    fn fails(&mut self) -> bool
        ensures same { self.new ≡ record self.old { calls = self.new.calls } }
        ensures counted { self.new.calls ≡ min (self.old.calls + 1) (2 ^ 64 - 1) }
        ensures fails { Decides result (Contains self.old.failing.items self.new.calls) }
    {
        self.calls = self.calls.saturating_add(1);
        self.failing.contains(&self.calls)
    }
}

// Copies further bytes to the front of the room, as far as the cut and both go.
#[tactic(auto, using(crate::proofs::Given::none_left))]
fn copy_on(room: &mut [u8], bytes: &[u8], given: usize, cut: usize) -> usize
    requires inside { given ≤ length bytes.now }
    requires some { 0 < cut }
    ensures count { result ≡ min cut (min (length room.new) (length (drop given bytes.now))) }
    ensures bound { result ≤ length room.new }
    ensures inside { given + result ≤ length bytes.now }
    ensures parts { drop given bytes.now ≡ take result room.new ++ drop (given + result) bytes.now }
    ensures end { result ≡ 0 → 0 < length room.new → drop given bytes.now ≡ [] }
{
    let count = cut.min(room.len()).min(bytes.len() - given);
    room[..count].copy_from_slice(&bytes[given..given + count]);
    count
}

impl Source for MemorySource {
    ghost use Rattle.http_wire.specs.MemorySources.{source_bytes, source_left, source_faults, IsSourceCall};

    ghost left = { λ s. Some (drop s.given s.bytes.items) };

    ghost stream = { λ s. Some s.bytes.items };

    ghost faults = { λ s. s.faults };

    fn read(&mut self, room: &mut [u8]) -> Result<usize, Failed>
        ensures call { IsSourceCall self.old self.new (length room.old) result }
        ensures bound { ReadsAtMost result room.new }
        ensures bytes { ReadConsumes (Some (source_left self.old)) (Some (source_left self.new)) result room.new }
        ensures stream { source_bytes self.new ≡ source_bytes self.old }
        ensures cause { HasCause (source_faults self.old) (source_faults self.new) result }
        ensures quiet { OnOk result (source_faults self.new ≡ source_faults self.old) }
    {
        if self.fails() {
            self.faults = self.faults.saturating_add(1);
            return Err(Failed);
        }
        let count = copy_on(room, &self.bytes, self.given, self.cut);
        self.given += count;
        Ok(count)
    }
}
