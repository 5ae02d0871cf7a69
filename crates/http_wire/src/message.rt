// The message at the front of a stream.
ghost use Rattle.std.specs.Prelude.{◌≡◌, ◌<◌, ◌≤◌, ◌+◌, ◌⊎◌, Option, [], length, drop, IsErrOf, Ok, Err, ⊤};
ghost use Rattle.std.specs.Io.KnownBytes.{IsAtEnd};
ghost use Rattle.httparse.specs.Spans.{IsRequestOf, IsRequestWithin};
ghost use Rattle.http_wire.specs.Framing.{HasFrame};
ghost use Rattle.http_wire.specs.Headings.{HasHeading};
ghost use Rattle.http_wire.specs.Held.{take_limit};
ghost use Rattle.http_wire.specs.Messages.{IsUnsettled};
ghost use Rattle.http_wire.specs.Parts.{body_of, LiesIn};
ghost use Rattle.http_wire.specs.Sources.{OnlyReads};
ghost use Rattle.http_wire.specs.Answers.{Gave, HasRequest, Refuses, AwaitsLongBody, OnRequest, OnRefused, Tells};
ghost use Rattle.http_wire.specs.Answers.{TakesFew};

use crate::body::{Gap, fill_body, fill_to};
use crate::buffer::{Buffer, ROOM};
use crate::fields::{Found, body_size, is_closing, token_of};
use crate::framing::FramingRefusal;
use crate::reading::{Heading, read_head};
use crate::source::Source;
use httparse::spans::RequestSpans;
use std::alloc::Global;
use std::marker::Model;

/// A request whose head is at the front of the buffer.
#[derive(Drop)]
pub struct Message {
    head: RequestSpans,
    used: usize,
    last: bool,
    token: Found,
    apart: Option<Vec<u8>>,
}

impl Model for Message {
    ghost use Rattle.std.specs.Prelude.{◌≤◌, option_map};
    ghost use Rattle.http_wire.specs.Parts.{MessageParts, LiesIn};

    ghost Value = { MessageParts };

    ghost view = { λ m. record {
      head = m.head;
      used = m.used;
      last = m.last;
      token = m.token;
      apart = option_map (λ v. v.items) m.apart;
    } };

    ghost invariant = { λ m. (m.head.len ≤ m.used) × LiesIn m.head.len m.token };
}

impl Message {
    /// Reads where the parts of the head are in the buffer.
    pub fn head(&self) -> RequestSpans
        ensures { result ≡ self.now.head }
    {
        self.head
    }

    /// Whether the message is the last of its session.
    pub fn last(&self) -> bool
        ensures { result ≡ self.now.last }
    {
        self.last
    }

    /// Returns the fields Office-Token of the head.
    pub fn token(&self) -> Found
        ensures value { result ≡ self.now.token }
        ensures lies { LiesIn self.now.head.len result }
    {
        self.token
    }

    /// How many bytes at the front of the buffer belong to the message.
    pub fn used(&self) -> usize
        ensures { result ≡ self.now.used }
    {
        self.used
    }

    /// Reads the body.
    pub fn body<'a>(&'a self, buffer: &'a Buffer) -> &'a [u8]
        requires held { self.now.used ≤ length buffer.now.bytes }
        ensures { result.now ≡ body_of self.now buffer.now.bytes }
    {
        match &self.apart {
            Some(body) => body.as_slice(),
            None => &buffer.held()[self.head.len..self.used],
        }
    }
}

/// What a stream begins with.
#[derive(Drop)]
pub enum Next {
    /// A request.
    Request(Message),
    /// A message that is not a request. It is the last of its session.
    Refused(FramingRefusal),
    /// The end of the stream.
    End,
}

/// Why no message was read.
#[derive(Clone, Copy, Debug, PartialEq, Eq)]
pub enum MessageStop {
    /// The source failed.
    ReadFault,
    /// 2^40 bytes were taken, and a further read is needed.
    Spent,
    /// Memory ran out for a body that does not fit in the buffer.
    NoMemory,
}

/// What a body that is not whole makes of its message.
fn short_of(gap: Gap) -> Result<Next, MessageStop>
    ensures ended { gap ≡ Gap.Ended → result ≡ Ok (Next.Refused FramingRefusal.CutShort) }
    ensures stopped { (stop : MessageStop) → gap ≡ Gap.Stopped stop → result ≡ Err stop }
    ensures fault { IsErrOf result MessageStop.ReadFault → gap ≡ Gap.Stopped MessageStop.ReadFault }
{
    match gap {
        Gap::Ended => Ok(Next::Refused(FramingRefusal::CutShort)),
        Gap::Stopped(stop) => Err(stop),
    }
}

/// Reads a body that fits in the buffer.
fn read_held<R: Source>(
    source: &mut R,
    buffer: &mut Buffer,
    head: RequestSpans,
    size: usize,
    last: bool,
    token: Found,
) -> Result<Next, MessageStop>
    requires frame { HasFrame buffer.old.bytes buffer.old.spans head size last token }
    requires room { head.len + size ≤ 8192 }
    ensures tells { Gave buffer.old buffer.new (R.left source.old) (R.left source.new)
        (Tells buffer.new (R.left source.new) result) }
    ensures ahead { TakesFew buffer.old buffer.new }
    ensures limit { buffer.new.taken ≤ take_limit }
    ensures settled { (IsUnsettled buffer.old.bytes → ⊥) → source.new ≡ source.old }
    ensures only_reads { OnlyReads R.Source source.old source.new (IsErrOf result MessageStop.ReadFault) }
{
    let used = head.len + size;
    match fill_to(source, buffer, used) {
        Ok(()) => Ok(Next::Request(Message {
            head,
            used,
            last,
            token,
            apart: None,
        })),
        Err(gap) => short_of(gap),
    }
}

/// Reads a body that does not fit in the buffer.
fn read_apart<R: Source>(
    alloc: Global,
    source: &mut R,
    buffer: &mut Buffer,
    head: RequestSpans,
    size: usize,
    last: bool,
    token: Found,
) -> Result<Next, MessageStop>
    requires frame { HasFrame buffer.old.bytes buffer.old.spans head size last token }
    requires long { 8192 < head.len + size }
    ensures tells { Gave buffer.old buffer.new (R.left source.old) (R.left source.new)
        (Tells buffer.new (R.left source.new) result) }
    ensures ahead { TakesFew buffer.old buffer.new }
    ensures limit { buffer.new.taken ≤ take_limit }
    ensures settled { (IsUnsettled buffer.old.bytes → ⊥) → source.new ≡ source.old }
    ensures only_reads { OnlyReads R.Source source.old source.new (IsErrOf result MessageStop.ReadFault) }
{
    let used = buffer.held().len();
    let Ok(mut body) = vec![in alloc; 0u8; size] else {
        return Err(MessageStop::NoMemory);
    };
    match fill_body(source, buffer, &mut body, head.len) {
        Ok(()) => Ok(Next::Request(Message {
            head,
            used,
            last,
            token,
            apart: Some(body),
        })),
        Err(gap) => short_of(gap),
    }
}

/// Reads the body of the head at the front of the buffer.
fn read_body<R: Source>(
    alloc: Global,
    source: &mut R,
    buffer: &mut Buffer,
    head: RequestSpans,
) -> Result<Next, MessageStop>
    requires whole { IsRequestOf buffer.old.bytes buffer.old.spans head }
    requires within { IsRequestWithin buffer.old.bytes buffer.old.spans head }
    ensures tells { Gave buffer.old buffer.new (R.left source.old) (R.left source.new)
        (Tells buffer.new (R.left source.new) result) }
    ensures ahead { TakesFew buffer.old buffer.new }
    ensures limit { buffer.new.taken ≤ take_limit }
    ensures settled { (IsUnsettled buffer.old.bytes → ⊥) → source.new ≡ source.old }
    ensures only_reads { OnlyReads R.Source source.old source.new (IsErrOf result MessageStop.ReadFault) }
{
    let fields = &buffer.spans()[..head.headers];
    let size = match body_size(buffer.held(), fields) {
        Ok(size) => size,
        Err(bad) => return Ok(Next::Refused(bad)),
    };
    let last = is_closing(buffer.held(), head.version, fields);
    let token = token_of(buffer.held(), fields);
    if head.len + size <= ROOM {
        return read_held(source, buffer, head, size, last, token);
    }
    read_apart(alloc, source, buffer, head, size, last, token)
}

/// Reads what follows the heading.
fn next_of<R: Source>(
    alloc: Global,
    source: &mut R,
    buffer: &mut Buffer,
    heading: Heading,
) -> Result<Next, MessageStop>
    requires heading { HasHeading buffer.old (R.left source.old) heading }
    requires limit { buffer.old.taken ≤ take_limit }
    ensures tells { Gave buffer.old buffer.new (R.left source.old) (R.left source.new)
        (Tells buffer.new (R.left source.new) result) }
    ensures ahead { TakesFew buffer.old buffer.new }
    ensures limit { buffer.new.taken ≤ take_limit }
    ensures settled { (IsUnsettled buffer.old.bytes → ⊥) → source.new ≡ source.old }
    ensures only_reads { OnlyReads R.Source source.old source.new (IsErrOf result MessageStop.ReadFault) }
{
    match heading {
        Heading::Whole(head) => read_body(alloc, source, buffer, head),
        Heading::Hopeless => Ok(Next::Refused(FramingRefusal::BadHead)),
        Heading::TooLarge => Ok(Next::Refused(FramingRefusal::HeadTooLarge)),
        Heading::CutShort => Ok(Next::Refused(FramingRefusal::CutShort)),
        Heading::End => Ok(Next::End),
    }
}

/// Reads the next message. Its bytes stay in the buffer, except those of a body that does not fit there.
///
/// # Errors
///
/// `Spent`: 2^40 = 1,099,511,627,776 bytes were taken and a further read is needed, even one that would find the end.
/// `ReadFault`: the source failed. `NoMemory`: memory ran out for a body that does not fit in the buffer. Bytes already
/// taken of a long body are lost.
pub fn read_message<R: Source>(
    alloc: Global,
    source: &mut R,
    buffer: &mut Buffer,
) -> Result<Next, MessageStop>
    ensures request { OnRequest result (λ m. Gave buffer.old buffer.new (R.left source.old) (R.left source.new)
        (λ bytes. HasRequest bytes buffer.new m)) }
    ensures refused { OnRefused result
        (λ bad. Gave buffer.old buffer.new (R.left source.old) (R.left source.new) (Refuses (R.left source.new) bad)) }
    ensures end { result ≡ Ok Next.End
        → Gave buffer.old buffer.new (R.left source.old) (R.left source.new) (λ bytes. bytes ≡ [])
        × IsAtEnd (R.left source.new) }
    // Only a read finds the end, so fewer bytes than the limit were taken.
    ensures at_end { (result ≡ Ok (Next.Refused FramingRefusal.CutShort)) ⊎ (result ≡ Ok Next.End)
        → buffer.new.taken < take_limit }
    ensures spent { IsErrOf result MessageStop.Spent
        → (buffer.new.taken ≡ take_limit)
        × Gave buffer.old buffer.new (R.left source.old) (R.left source.new) IsUnsettled }
    // The source fails only if the bytes taken settle nothing.
    ensures failed { IsErrOf result MessageStop.ReadFault
        → Gave buffer.old buffer.new (R.left source.old) (R.left source.new) IsUnsettled }
    ensures no_memory { IsErrOf result MessageStop.NoMemory
        → Gave buffer.old buffer.new (R.left source.old) (R.left source.new) AwaitsLongBody }
    ensures given { Gave buffer.old buffer.new (R.left source.old) (R.left source.new) (λ bytes. ⊤) }
    // In every case, at most one head and one body are held and taken.
    ensures ahead { TakesFew buffer.old buffer.new }
    ensures limit { buffer.new.taken ≤ take_limit }
    ensures fits { OnRequest result (λ m. m.used ≤ length buffer.new.bytes) }
    // A message has at least one byte.
    ensures uses { OnRequest result
        (λ m. buffer.old.taken + length (drop m.used buffer.new.bytes) < buffer.new.taken + length buffer.old.bytes) }
    // A message that the bytes held settle is answered without a read.
    ensures settled { (IsUnsettled buffer.old.bytes → ⊥) → source.new ≡ source.old }
    ensures only_reads { OnlyReads R.Source source.old source.new (IsErrOf result MessageStop.ReadFault) }
{
    let heading = read_head(source, buffer)?;
    next_of(alloc, source, buffer, heading)
}
