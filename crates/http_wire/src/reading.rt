// The head at the front of a stream.
ghost use Rattle.std.specs.Prelude.{◌≡◌, ◌<◌, ◌≤◌, ◌⊎◌, [], length, IsErrOf, Ok};
ghost use Rattle.std.specs.Io.KnownBytes.{IsAtEnd};
ghost use Rattle.httparse.specs.Spans.{IsRequestOf, IsRequestWithin};
ghost use Rattle.http_wire.specs.Heads.{IsHopeless, IsOpen};
ghost use Rattle.http_wire.specs.Headings.{OnHead};
ghost use Rattle.http_wire.specs.Held.{Took, head_room, take_limit};
ghost use Rattle.http_wire.specs.Sources.{OnlyReads};

use crate::buffer::{Buffer, ROOM};
use crate::head::Front;
use crate::message::MessageStop;
use crate::source::Source;
use httparse::spans::RequestSpans;

/// What a stream begins with.
#[derive(Drop)]
pub(crate) enum Heading {
    /// A whole head, whose parts are in the buffer.
    Whole(RequestSpans),
    /// Not a head, whatever follows.
    Hopeless,
    /// No head that ends within 8,192 bytes.
    TooLarge,
    /// The beginning of a head, at the end of the stream.
    CutShort,
    /// The end of the stream.
    End,
}

/// Reads until the buffer begins with a head, or until it cannot.
///
/// # Errors
///
/// `Spent`: 2^40 = 1,099,511,627,776 bytes were taken and a further read is needed, even one that would find the end.
/// `ReadFault`: the source failed. The bytes taken before are held.
pub(crate) fn read_head<R: Source>(
    source: &mut R,
    buffer: &mut Buffer,
) -> Result<Heading, MessageStop>
    ensures took { Took buffer.old buffer.new (R.left source.old) (R.left source.new) }
    ensures limit { buffer.new.taken ≤ take_limit }
    ensures short { length buffer.new.bytes ≤ head_room }
    ensures whole { OnHead result (IsRequestOf buffer.new.bytes buffer.new.spans) }
    ensures within { OnHead result (IsRequestWithin buffer.new.bytes buffer.new.spans) }
    ensures hopeless { result ≡ Ok Heading.Hopeless
        → IsHopeless buffer.new.bytes × (length buffer.new.bytes ≤ head_room) }
    ensures too_large { result ≡ Ok Heading.TooLarge → IsOpen buffer.new.bytes × (length buffer.new.bytes ≡ head_room) }
    ensures cut_short { result ≡ Ok Heading.CutShort → IsOpen buffer.new.bytes × (0 < length buffer.new.bytes)
        × (length buffer.new.bytes < head_room) × IsAtEnd (R.left source.new) }
    ensures end { result ≡ Ok Heading.End → (buffer.new.bytes ≡ []) × IsAtEnd (R.left source.new) }
    // Only a read finds the end, so fewer bytes than the limit were taken.
    ensures at_end { (result ≡ Ok Heading.CutShort) ⊎ (result ≡ Ok Heading.End) → buffer.new.taken < take_limit }
    ensures spent { IsErrOf result MessageStop.Spent
        → (buffer.new.taken ≡ take_limit) × IsOpen buffer.new.bytes × (length buffer.new.bytes < head_room) }
    ensures failed { IsErrOf result MessageStop.ReadFault
        → IsOpen buffer.new.bytes × (length buffer.new.bytes < head_room) }
    ensures enough { IsErrOf result MessageStop.NoMemory → ⊥ }
    // The source is read only if the bytes held settle nothing.
    ensures settled { (IsOpen buffer.old.bytes → ⊥) → source.new ≡ source.old }
    ensures full { head_room ≤ length buffer.old.bytes → source.new ≡ source.old }
    ensures only_reads { OnlyReads R.Source source.old source.new (IsErrOf result MessageStop.ReadFault) }
{
    'reading: loop {
        match buffer.look() {
            Front::Whole(head) => return Ok(Heading::Whole(head)),
            Front::Hopeless => return Ok(Heading::Hopeless),
            Front::Open => {}
        }
        if buffer.held().len() == ROOM {
            return Ok(Heading::TooLarge);
        }
        if buffer.is_spent() {
            return Err(MessageStop::Spent);
        }
        match buffer.fill(source) {
            Ok(0) => return Ok(ending(buffer)),
            Ok(_) => {}
            Err(_) => return Err(MessageStop::ReadFault),
        }
    }
}

/// What the bytes held make at the end of the stream.
fn ending(buffer: &Buffer) -> Heading
    ensures { ((result ≡ Heading.CutShort) × (0 < length buffer.now.bytes))
        ⊎ ((result ≡ Heading.End) × (buffer.now.bytes ≡ [])) }
{
    if buffer.held().is_empty() {
        return Heading::End;
    }
    Heading::CutShort
}
