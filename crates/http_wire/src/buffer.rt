// A buffer that is filled from a source.
ghost use Rattle.std.specs.Prelude.{◌≡◌, ◌<◌, ◌≤◌, ◌+◌, ◌-◌, ◌^◌, ◌++◌, ℕ, List, [], length, take, drop};
ghost use Rattle.std.specs.Prelude.{IfOk, OnOk, IfErr, IsTrue, IsFalse, Ok};
ghost use Rattle.std.specs.Io.KnownBytes.{Consumes, IsAtEnd, Keeps};
ghost use Rattle.std.specs.Result.{IsErr};
ghost use Rattle.httparse.specs.Spans.{IsRequestOf, IsRequestWithin};
ghost use Rattle.http_wire.specs.Heads.{IsHopeless, IsOpen, OnWhole};
ghost use Rattle.http_wire.specs.Held.{Took, TookPast, take_limit};
ghost use Rattle.http_wire.specs.Sources.{OnlyReads};

use crate::head::{Front, front_of};
use crate::source::Source;
use httparse::spans::{EMPTY_HEADER_SPAN, HeaderSpan};
use office_base::{Failed, NoMemory};
use std::alloc::Global;
use std::marker::Model;

/// The most bytes that a buffer holds, and so the longest head.
pub(crate) const ROOM: usize = 8192;

/// The most fields that a head of 8,192 bytes can have: each has two bytes at least.
const FIELDS: usize = 4096;

/// The most bytes that are taken from a source.
const TAKE_LIMIT: u64 = 1 << 40;

/// Bytes that were taken from a source and not used yet: at most 8,192 of them, and at most 2^40 taken in all.
#[derive(Drop)]
pub struct Buffer {
    room: Vec<u8>,
    len: usize,
    taken: u64,
    spans: Vec<HeaderSpan>,
}

impl Model for Buffer {
    ghost use Rattle.std.specs.Prelude.{◌≡◌, ◌≤◌, ◌^◌, length, take};
    ghost use Rattle.http_wire.specs.Held.{Held};

    ghost Value = { Held };

    ghost view = { λ b. record { bytes = take b.len b.room.items; taken = b.taken; spans = b.spans.items } };

    ghost invariant = { λ b. (length b.room.items ≡ 8192) × (b.len ≤ 8192) × (b.taken ≤ 2 ^ 40) × (b.len ≤ b.taken)
        × (length b.spans.items ≡ 4096) };
}

impl Buffer {
    /// Makes a buffer that holds nothing. Takes all the memory that reading needs.
    ///
    /// # Errors
    ///
    /// `NoMemory`: memory ran out.
    pub fn new(alloc: Global) -> Result<Buffer, NoMemory>
        ensures bytes { IfOk result (λ buffer. buffer.bytes ≡ []) }
        ensures taken { IfOk result (λ buffer. buffer.taken ≡ 0) }
    {
        let room = vec![in alloc; 0u8; ROOM]?;
        let spans = vec![in alloc; EMPTY_HEADER_SPAN; FIELDS]?;
        Ok(Buffer {
            room,
            len: 0,
            taken: 0,
            spans,
        })
    }

    /// Reads the bytes that are held.
    pub fn held(&self) -> &[u8]
        ensures value { result.now ≡ self.now.bytes }
        ensures short { length self.now.bytes ≤ 8192 }
        ensures limit { self.now.taken ≤ take_limit }
        ensures taken { length self.now.bytes ≤ self.now.taken }
    {
        &self.room[..self.len]
    }

    /// Reads the parts of the fields of the head that was read last.
    pub fn spans(&self) -> &[HeaderSpan]
        ensures value { result.now ≡ self.now.spans }
        ensures many { length self.now.spans ≡ 4096 }
    {
        self.spans.as_slice()
    }

    /// Drops bytes from the front.
    pub fn drop_front(&mut self, count: usize)
        requires { count ≤ length self.old.bytes }
        ensures bytes { self.new.bytes ≡ drop count self.old.bytes }
        ensures taken { self.new.taken ≡ self.old.taken }
    {
        shift(&mut self.room, self.len, count);
        self.len -= count;
    }

    /// Looks for a head at the front of what is held.
    pub(crate) fn look(&mut self) -> Front
        ensures whole { OnWhole result (IsRequestOf self.new.bytes self.new.spans) }
        ensures within { OnWhole result (IsRequestWithin self.new.bytes self.new.spans) }
        ensures open { result ≡ Front.Open → IsOpen self.new.bytes }
        ensures hopeless { result ≡ Front.Hopeless → IsHopeless self.new.bytes }
        ensures bytes { self.new.bytes ≡ self.old.bytes }
        ensures taken { self.new.taken ≡ self.old.taken }
        ensures short { length self.new.bytes ≤ 8192 }
        ensures limit { self.new.taken ≤ take_limit }
    {
        look_in(&self.room, self.len, &mut self.spans)
    }

    /// Whether the limit of bytes taken is reached.
    pub(crate) fn is_spent(&self) -> bool
        ensures yes { IsTrue result → self.now.taken ≡ take_limit }
        ensures no { IsFalse result → self.now.taken < take_limit }
    {
        self.taken == TAKE_LIMIT
    }

    /// Takes further bytes, and returns how many. 0 is the end.
    pub(crate) fn fill<R: Source>(&mut self, source: &mut R) -> Result<usize, Failed>
        requires room { length self.old.bytes < 8192 }
        requires unspent { self.old.taken < take_limit }
        ensures took { OnOk result (Took self.old self.new (R.left source.old) (R.left source.new)) }
        ensures count { IfOk result (λ count. length self.new.bytes ≡ length self.old.bytes + count) }
        ensures end { result ≡ Ok 0 → IsAtEnd (R.left source.new) }
        ensures err { IfErr result (λ _. (self.new ≡ self.old) × Keeps (R.left source.old) (R.left source.new)) }
        ensures only_reads { OnlyReads R.Source source.old source.new (IsErr result) }
        ensures spans { self.new.spans ≡ self.old.spans }
        ensures short { length self.new.bytes ≤ 8192 }
        ensures limit { self.new.taken ≤ take_limit }
    {
        let most = askable(ROOM - self.len, self.taken);
        let count = read_on(source, &mut self.room, self.len, most)?;
        self.len += count;
        self.taken += count as u64;
        Ok(count)
    }

    /// Takes further bytes into another room from an index on, and returns how many. 0 is the end.
    pub(crate) fn fill_past<R: Source>(
        &mut self,
        source: &mut R,
        room: &mut [u8],
        at: usize,
    ) -> Result<usize, Failed>
        requires room { at < length room.old }
        requires unspent { self.old.taken < take_limit }
        ensures took { IfOk result (λ count. TookPast self.old self.new (R.left source.old) (R.left source.new)
            (λ given. (length given ≡ count) × (take (at + count) room.new ≡ take at room.old ++ given))) }
        ensures fits { IfOk result (λ count. at + count ≤ length room.old) }
        ensures end { result ≡ Ok 0 → IsAtEnd (R.left source.new) }
        ensures err { IfErr result (λ _. (self.new ≡ self.old) × (take at room.new ≡ take at room.old)
            × Keeps (R.left source.old) (R.left source.new)) }
        ensures only_reads { OnlyReads R.Source source.old source.new (IsErr result) }
        ensures limit { self.new.taken ≤ take_limit }
    {
        let most = askable(room.len() - at, self.taken);
        let given = read_on(source, room, at, most)?;
        self.taken += given as u64;
        Ok(given)
    }
}

/// How many bytes may be asked for, with this much room and this many bytes taken.
fn askable(room: usize, taken: u64) -> usize
    requires some { 0 < room }
    requires unspent { taken < take_limit }
    ensures some { 0 < result }
    ensures room { result ≤ room }
    ensures limit { taken + result ≤ take_limit }
{
    let left = TAKE_LIMIT - taken;
    if left < room as u64 {
        return left as usize;
    }
    room
}

/// Looks for a head in the first bytes of a room.
fn look_in(room: &[u8], len: usize, spans: &mut [HeaderSpan]) -> Front
    requires inside { len ≤ length room.now }
    requires short { len ≤ 8192 }
    requires fields { 4096 ≤ length spans.old }
    ensures whole { OnWhole result (IsRequestOf (take len room.now) spans.new) }
    ensures within { OnWhole result (IsRequestWithin (take len room.now) spans.new) }
    ensures open { result ≡ Front.Open → IsOpen (take len room.now) }
    ensures hopeless { result ≡ Front.Hopeless → IsHopeless (take len room.now) }
{
    front_of(&room[..len], spans)
}

/// Drops bytes from the front of the first `len`.
#[tactic(auto, using(crate::proofs::Dropped::dropped))]
fn shift(room: &mut [u8], len: usize, count: usize)
    requires inside { len ≤ length room.old }
    requires front { count ≤ len }
    ensures { take (len - count) room.new ≡ drop count (take len room.old) }
{
    room.copy_within(count..len, 0);
}

/// Reads bytes into the room from an index on, at most as many as given.
#[tactic(auto, using(crate::proofs::Filled::filled))]
fn read_on<R: Source>(
    source: &mut R,
    room: &mut [u8],
    len: usize,
    most: usize,
) -> Result<usize, Failed>
    requires some { 0 < most }
    requires fits { len + most ≤ length room.old }
    ensures took { IfOk result (λ count. (given : List ℕ) × (length given ≡ count)
        × (take (len + count) room.new ≡ take len room.old ++ given)
        × Consumes (R.left source.old) (R.left source.new) given) }
    ensures fits { IfOk result (λ count. count ≤ most) }
    ensures end { result ≡ Ok 0 → IsAtEnd (R.left source.new) }
    ensures err { IfErr result
        (λ _. (take len room.new ≡ take len room.old) × Keeps (R.left source.old) (R.left source.new)) }
    ensures only_reads { OnlyReads R.Source source.old source.new (IsErr result) }
{
    source.read(&mut room[len..len + most])
}
