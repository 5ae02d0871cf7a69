// The bytes of a body.
ghost use Rattle.std.specs.Prelude.{◌≡◌, ◌<◌, ◌≤◌, ◌+◌, ◌++◌, length, take, drop, OnOk, OnErr};
ghost use Rattle.std.specs.Prelude.{IsErrOf};
ghost use Rattle.std.specs.Io.KnownBytes.{IsAtEnd};
ghost use Rattle.http_wire.specs.Held.{Took, TookPast, take_limit};
ghost use Rattle.http_wire.specs.Sources.{OnlyReads};

use crate::buffer::Buffer;
use crate::message::MessageStop;
use crate::source::Source;

/// Why a body was not read whole.
pub(crate) enum Gap {
    /// The source ends before the body does.
    Ended,
    /// The source gave no more: it failed, or the limit was reached. The cause is never memory.
    Stopped(MessageStop),
}

/// Takes bytes until the buffer holds this many.
pub(crate) fn fill_to<R: Source>(
    source: &mut R,
    buffer: &mut Buffer,
    count: usize,
) -> Result<(), Gap>
    requires room { count ≤ 8192 }
    ensures took { Took buffer.old buffer.new (R.left source.old) (R.left source.new) }
    ensures spans { buffer.new.spans ≡ buffer.old.spans }
    ensures limit { buffer.new.taken ≤ take_limit }
    ensures short { length buffer.new.bytes ≤ 8192 }
    ensures ok { OnOk result (count ≤ length buffer.new.bytes) }
    ensures err { OnErr result (length buffer.new.bytes < count) }
    ensures end { IsErrOf result Gap.Ended → IsAtEnd (R.left source.new) × (buffer.new.taken < take_limit) }
    ensures spent { IsErrOf result (Gap.Stopped MessageStop.Spent) → buffer.new.taken ≡ take_limit }
    ensures enough { IsErrOf result (Gap.Stopped MessageStop.NoMemory) → ⊥ }
    ensures settled { count ≤ length buffer.old.bytes → source.new ≡ source.old }
    ensures only_reads { OnlyReads R.Source source.old source.new
        (IsErrOf result (Gap.Stopped MessageStop.ReadFault)) }
{
    'filling: while buffer.held().len() < count {
        if buffer.is_spent() {
            return Err(Gap::Stopped(MessageStop::Spent));
        }
        match buffer.fill(source) {
            Ok(0) => return Err(Gap::Ended),
            Ok(_) => {}
            Err(_) => return Err(Gap::Stopped(MessageStop::ReadFault)),
        }
    }
    Ok(())
}

/// Takes bytes past the buffer, until they fill the body from an index on.
fn fill_rest<R: Source>(
    source: &mut R,
    buffer: &mut Buffer,
    body: &mut [u8],
    from: usize,
) -> Result<(), Gap>
    requires inside { from ≤ length body.old }
    requires limit { buffer.old.taken ≤ take_limit }
    ensures took { TookPast buffer.old buffer.new (R.left source.old) (R.left source.new) (λ given.
        OnOk result (body.new ≡ take from body.old ++ given) × OnErr result (from + length given < length body.old)) }
    ensures limit { buffer.new.taken ≤ take_limit }
    ensures end { IsErrOf result Gap.Ended → IsAtEnd (R.left source.new) × (buffer.new.taken < take_limit) }
    ensures spent { IsErrOf result (Gap.Stopped MessageStop.Spent) → buffer.new.taken ≡ take_limit }
    ensures enough { IsErrOf result (Gap.Stopped MessageStop.NoMemory) → ⊥ }
    ensures only_reads { OnlyReads R.Source source.old source.new
        (IsErrOf result (Gap.Stopped MessageStop.ReadFault)) }
{
    let mut at = from;
    'filling: while at < body.len() {
        if buffer.is_spent() {
            return Err(Gap::Stopped(MessageStop::Spent));
        }
        match buffer.fill_past(source, body, at) {
            Ok(0) => return Err(Gap::Ended),
            Ok(count) => at += count,
            Err(_) => return Err(Gap::Stopped(MessageStop::ReadFault)),
        }
    }
    Ok(())
}

/// Copies the bytes held from an index on into a longer body, and takes the rest of it.
#[tactic(auto, using(crate::proofs::Copied::copied))]
pub(crate) fn fill_body<R: Source>(
    source: &mut R,
    buffer: &mut Buffer,
    body: &mut [u8],
    start: usize,
) -> Result<(), Gap>
    requires inside { start ≤ length buffer.old.bytes }
    requires longer { length buffer.old.bytes ≤ start + length body.old }
    ensures took { TookPast buffer.old buffer.new (R.left source.old) (R.left source.new) (λ given.
        OnOk result (body.new ≡ drop start buffer.old.bytes ++ given)
        × OnErr result (length buffer.old.bytes + length given < start + length body.old)) }
    ensures limit { buffer.new.taken ≤ take_limit }
    ensures end { IsErrOf result Gap.Ended → IsAtEnd (R.left source.new) × (buffer.new.taken < take_limit) }
    ensures spent { IsErrOf result (Gap.Stopped MessageStop.Spent) → buffer.new.taken ≡ take_limit }
    ensures enough { IsErrOf result (Gap.Stopped MessageStop.NoMemory) → ⊥ }
    ensures only_reads { OnlyReads R.Source source.old source.new
        (IsErrOf result (Gap.Stopped MessageStop.ReadFault)) }
{
    let held = buffer.held();
    let front = held.len() - start;
    body[..front].copy_from_slice(&held[start..]);
    fill_rest(source, buffer, body, front)
}
