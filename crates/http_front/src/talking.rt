// A session: each message in order has its answer.
ghost use Rattle.std.specs.Prelude.{◌≡◌, ◌≤◌, ℕ, length, option_map};
ghost use Rattle.std.specs.Io.KnownBytes.{prepend_known};
ghost use Rattle.http_wire.specs.Held.{take_limit};
ghost use Rattle.http_wire.specs.Sources.{OnlyReads};
ghost use Rattle.http_asks.specs.Counts.{Given};
ghost use Rattle.http_front.specs.Counts.{GaveBytes, stream_ends, total_of};
ghost use Rattle.http_front.specs.Saying.{OnlySays};
ghost use Rattle.http_front.specs.Session.{sides, Session};

use crate::answering::{SessionEnd, answer_one, say_no_memory};
use crate::replies::Replies;
use crate::teller::Teller;
use http_asks::Reader;
use http_wire::Source;
use std::alloc::Global;

/// How many bytes a reply to a command may have.
const REPLY_ROOM: usize = 16384;

fn go_on<R: Source, W: Replies, T: Teller>(
    alloc: Global,
    source: &mut R,
    reader: &mut Reader,
    out: &mut W,
    room: &mut [u8],
    teller: &mut T,
) -> SessionEnd
    requires room { 16384 ≤ length room.old }
    requires limit { reader.old.taken ≤ take_limit }
    ensures session { Session T.moves W.Replies (sides teller.old out.old) (sides teller.new out.new)
        (stream_ends (prepend_known reader.old.bytes (R.left source.old)) (R.left source.new))
        (total_of reader.old.taken (R.left source.old)) result }
    ensures given { Given reader.old.taken reader.new.taken (R.left source.old) (R.left source.new) }
    ensures limit { reader.new.taken ≤ take_limit }
    ensures only_says { OnlySays W.Replies out.old out.new (result ≡ SessionEnd.WriteFault) }
    ensures only_reads { OnlyReads R.Source source.old source.new (result ≡ SessionEnd.ReadFault) }
    ensures spent { result ≡ SessionEnd.Spent → reader.new.taken ≡ take_limit }
{
    'talking: loop {
        match answer_one(alloc, source, reader, out, room, teller) {
            Ok(()) => {}
            Err(end) => return end,
        }
    }
}

/// Answers the messages of a stream in order, each before further bytes are awaited, up to the stream's end or to the
/// last message of the session. A message that is refused is answered as
/// the others are, and so is a call without an answer of the office; where memory ran out, its text is the last one
/// of the session. It takes at most 2^40 = 1,099,511,627,776 bytes, and is `Spent` where it took as many, answered
/// each message in them, and needs a further read. Takes its memory at the start, and for a message that of the
/// message's own parts and of the text of its refusal.
pub fn session<R: Source, W: Replies, T: Teller>(
    alloc: Global,
    source: &mut R,
    out: &mut W,
    teller: &mut T,
) -> SessionEnd
    ensures session { Session T.moves W.Replies (sides teller.old out.old) (sides teller.new out.new)
        (stream_ends (R.left source.old) (R.left source.new)) (option_map length (R.left source.old)) result }
    ensures taken { (n : ℕ) × (n ≤ take_limit) × GaveBytes (R.left source.old) (R.left source.new) n }
    ensures only_says { OnlySays W.Replies out.old out.new (result ≡ SessionEnd.WriteFault) }
    ensures only_reads { OnlyReads R.Source source.old source.new (result ≡ SessionEnd.ReadFault) }
    ensures spent { result ≡ SessionEnd.Spent → GaveBytes (R.left source.old) (R.left source.new) take_limit }
{
    let Ok(mut reader) = Reader::new(alloc) else {
        return say_no_memory(out);
    };
    let Ok(mut room) = vec![in alloc; 0u8; REPLY_ROOM] else {
        return say_no_memory(out);
    };
    go_on(alloc, source, &mut reader, out, room.as_mut_slice(), teller)
}
