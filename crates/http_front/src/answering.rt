// One message of a session and its answer.
ghost use Rattle.std.specs.Prelude.{◌≡◌, ◌≤◌, ◌<◌, ◌+◌, ℕ, List, Option, length};
ghost use Rattle.std.specs.Prelude.{true, false, [], ◌∷◌, OnOk, OnErr, IfErr, IfSome, IsErrOf, IsOk, Ok, Err};
ghost use Rattle.std.specs.Io.KnownBytes.{Appends, prepend_known};
ghost use Rattle.office_base.specs.Faults.{HasCause};
ghost use Rattle.desk_core.specs.declared.fault.DeskFault.{DeskFault};
ghost use Rattle.http_wire.specs.Held.{take_limit};
ghost use Rattle.http_wire.specs.Sources.{OnlyReads};
ghost use Rattle.office_types.specs.declared.reply.Reply.TheVariants.{StackShown};
ghost use Rattle.http_text.specs.Pieces.{pieces_left};
ghost use Rattle.http_text.specs.Replies.{answer_text};
ghost use Rattle.http_text.specs.Shorts.{IsShort};
ghost use Rattle.http_asks.specs.Counts.{Given};
ghost use Rattle.http_asks.specs.Faults.{refused_of};
ghost use Rattle.http_asks.specs.Tells.{TellsHeard, OnFramed};
ghost use Rattle.http_front.specs.Counts.{IsUnder, IsUnspent, IsHeldBack, IsTakenAhead, stream_ends, total_of};
ghost use Rattle.http_front.specs.Puts.{PutsOut};
ghost use Rattle.http_front.specs.Saying.{OnlySays, Says, SaysFront};
ghost use Rattle.http_front.specs.Session.{sides, Session};
ghost use Rattle.http_front.specs.Talk.{SaysNoMemory, IsSaid, IsRefusedBy, AnswersOne, Talked, Went};
ghost use Rattle.http_front.specs.Texts.{bad_text_of, is_said_in_pieces};

use crate::bad::Bad;
use crate::printing::{print_fault, print_query, print_reply};
use crate::refusing::print_bad;
use crate::replies::Replies;
use crate::teller::Teller;
use crate::texts::no_memory;
use desk_core::{Acked, DeskFault};
use http_asks::{Heard, Reader};
use http_text::{PIECE_ROOM, StackPieces, is_short};
use http_wire::{MessageStop, Source};
use office_base::{Failed, Key};
use office_types::{Ask, Reply};
use stacks::Stack;
use std::alloc::Global;

/// A reply that shows at most so many versions of a key is printed whole.
const WHOLE: usize = 32;

/// How a session ended.
#[derive(Clone, Copy, Debug, PartialEq, Eq)]
pub enum SessionEnd {
    /// The stream ended, or the last message of the session was answered.
    Ended,
    /// The source failed.
    ReadFault,
    /// A text was not said, or said in part.
    WriteFault,
    /// 2^40 bytes were taken, and a further read is needed.
    Spent,
    /// Memory ran out, and this was said.
    NoMemory,
}

// Says the reply to a message that has no answer of the office.
fn say<W: Replies>(out: &mut W, bad: &Bad, bytes: &[u8]) -> Result<(), SessionEnd>
    requires { bytes.now ≡ bad_text_of bad.now }
    ensures ok { OnOk result (Says W.Replies out.old out.new bytes.now) }
    ensures err { IfErr result (λ e. (e ≡ SessionEnd.WriteFault) × SaysFront W.Replies out.old out.new bytes.now) }
    ensures only_says { OnlySays W.Replies out.old out.new (IsErrOf result SessionEnd.WriteFault) }
{
    match out.say_bad(bad, bytes) {
        Ok(()) => Ok(()),
        Err(_) => Err(SessionEnd::WriteFault),
    }
}

// Says that memory ran out, as the last text of a session.
pub(crate) fn say_no_memory<W: Replies>(out: &mut W) -> SessionEnd
    ensures said { SaysNoMemory W.Replies out.old out.new result }
    ensures only_says { OnlySays W.Replies out.old out.new (result ≡ SessionEnd.WriteFault) }
{
    let bad = Bad::Desk(DeskFault::NoMemory);
    let said = out.say_bad(&bad, no_memory());
    drop(bad);
    match said {
        Ok(()) => SessionEnd::NoMemory,
        Err(_) => SessionEnd::WriteFault,
    }
}

// Says an answer that is printed into the room.
fn say_short<W: Replies>(out: &mut W, room: &mut [u8], acked: &Acked) -> Result<(), SessionEnd>
    requires room { 16384 ≤ length room.old }
    requires short { IsShort acked.now.reply }
    ensures said { IsSaid W.Replies out.old out.new (Ok acked.now) result }
    ensures err { IfErr result (λ e. e ≡ SessionEnd.WriteFault) }
    ensures room { 16384 ≤ length room.new }
    ensures only_says { OnlySays W.Replies out.old out.new (IsErrOf result SessionEnd.WriteFault) }
{
    match print_reply(room, acked) {
        Ok(size) => match out.say(acked, &room[..size]) {
            Ok(()) => Ok(()),
            Err(_) => Err(SessionEnd::WriteFault),
        },
        Err(_) => unreachable!(),
    }
}

// Says an answer that is printed into memory of its own. If there is no memory, this is said instead.
#[tactic(auto, using(crate::proofs::SaidLemmas::said_instead))]
fn say_whole<W: Replies>(alloc: Global, out: &mut W, acked: &Acked) -> Result<(), SessionEnd>
    requires long { ¬ (IsShort acked.now.reply) }
    ensures said { IsSaid W.Replies out.old out.new (Ok acked.now) result }
    ensures only_says { OnlySays W.Replies out.old out.new (IsErrOf result SessionEnd.WriteFault) }
{
    match print_query(alloc, acked) {
        Ok(text) => match out.say(acked, &text) {
            Ok(()) => Ok(()),
            Err(_) => Err(SessionEnd::WriteFault),
        },
        Err(_) => Err(say_no_memory(out)),
    }
}

// Says the pieces of the reply of an answer, and tells the answer.
fn say_pieces<W: Replies>(
    out: &mut W,
    acked: &Acked,
    pieces: &mut StackPieces<'_>,
    room: &mut [u8],
) -> Result<(), Failed>
    requires room { 131_072 ≤ length room.old }
    requires text { pieces_left pieces.old ≡ answer_text acked.now.reply }
    ensures said { PutsOut (W.said out.old) (W.said out.new) (answer_text acked.now.reply) result }
    ensures moments { OnOk result (Appends (W.moments out.old) (W.moments out.new) (acked.now.disk_moment ∷ [])) }
    ensures untold { OnErr result (W.moments out.new ≡ W.moments out.old) }
    ensures texts { W.texts out.new ≡ W.texts out.old }
    ensures noted { W.noted out.new ≡ W.noted out.old }
    ensures cause { HasCause (W.faults out.old) (W.faults out.new) result }
    ensures quiet { OnOk result (W.faults out.new ≡ W.faults out.old) }
{
    'pieces: while let Some(size) = pieces.next(room) {
        out.say_part(acked, &room[..size])?;
    }
    out.told(acked)
}

// Says the versions of a key in pieces. If there is no memory for a piece, this is said instead.
#[tactic(auto, using(crate::proofs::SaidLemmas::said_instead))]
fn say_stack<W: Replies>(
    alloc: Global,
    out: &mut W,
    acked: &Acked,
    key: &Key,
    stack: &Stack,
) -> Result<(), SessionEnd>
    requires shown { acked.now.reply ≡ Ok (StackShown key.now stack.now) }
    ensures said { IsSaid W.Replies out.old out.new (Ok acked.now) result }
    ensures only_says { OnlySays W.Replies out.old out.new (IsErrOf result SessionEnd.WriteFault) }
{
    let Some(mut pieces) = StackPieces::new(key, stack) else {
        return Err(say_no_memory(out));
    };
    let Ok(mut room) = vec![in alloc; 0u8; PIECE_ROOM] else {
        return Err(say_no_memory(out));
    };
    match say_pieces(out, acked, &mut pieces, room.as_mut_slice()) {
        Ok(()) => Ok(()),
        Err(_) => Err(SessionEnd::WriteFault),
    }
}

/// Whether the reply of an answer is said in pieces: it shows more than 32 versions of a key.
pub fn is_in_pieces(acked: &Acked) -> bool
    ensures { result ≡ is_said_in_pieces acked.now.reply }
{
    match acked.reply() {
        Ok(Reply::StackShown { key: _, stack }) => stack.versions().len() > WHOLE,
        _ => false,
    }
}

// Says an answer that is not short: the versions of a key in pieces if there are many, and anything else whole.
fn say_long<W: Replies>(alloc: Global, out: &mut W, acked: &Acked) -> Result<(), SessionEnd>
    requires long { ¬ (IsShort acked.now.reply) }
    ensures said { IsSaid W.Replies out.old out.new (Ok acked.now) result }
    ensures only_says { OnlySays W.Replies out.old out.new (IsErrOf result SessionEnd.WriteFault) }
{
    if is_in_pieces(acked) {
        if let Ok(Reply::StackShown { key, stack }) = acked.reply() {
            return say_stack(alloc, out, acked, key, stack);
        }
    }
    say_whole(alloc, out, acked)
}

fn say_reply<W: Replies>(
    alloc: Global,
    out: &mut W,
    room: &mut [u8],
    acked: &Acked,
) -> Result<(), SessionEnd>
    requires room { 16384 ≤ length room.old }
    ensures said { IsSaid W.Replies out.old out.new (Ok acked.now) result }
    ensures room { 16384 ≤ length room.new }
    ensures only_says { OnlySays W.Replies out.old out.new (IsErrOf result SessionEnd.WriteFault) }
{
    if is_short(acked.reply()) {
        say_short(out, room, acked)
    } else {
        say_long(alloc, out, acked)
    }
}

fn say_fault<W: Replies>(out: &mut W, room: &mut [u8], fault: DeskFault) -> Result<(), SessionEnd>
    requires room { 16384 ≤ length room.old }
    ensures said { IsSaid W.Replies out.old out.new (Err fault) result }
    ensures room { 16384 ≤ length room.new }
    ensures only_says { OnlySays W.Replies out.old out.new (IsErrOf result SessionEnd.WriteFault) }
{
    match print_fault(room, &fault) {
        Ok(size) => {
            let bad = Bad::Desk(fault);
            let said = say(out, &bad, &room[..size]);
            drop(bad);
            said?;
            go_on_after(fault)
        }
        Err(_) => unreachable!(),
    }
}

// The session goes on, or ends because memory ran out.
fn go_on_after(fault: DeskFault) -> Result<(), SessionEnd>
    ensures goes_on { (fault ≡ DeskFault.NoMemory → ⊥) → IsOk result }
    ensures ends { fault ≡ DeskFault.NoMemory → result ≡ Err SessionEnd.NoMemory }
{
    match fault {
        DeskFault::StoreFault { .. } | DeskFault::JournalFull | DeskFault::Broken(_) => Ok(()),
        DeskFault::NoMemory => Err(SessionEnd::NoMemory),
    }
}

fn answer<W: Replies, T: Teller>(
    alloc: Global,
    ask: &Ask,
    out: &mut W,
    room: &mut [u8],
    teller: &mut T,
) -> Result<(), SessionEnd>
    requires room { 16384 ≤ length room.old }
    ensures answers { AnswersOne T.moves W.Replies (sides teller.old out.old) (sides teller.new out.new)
        ask.now result }
    ensures room { 16384 ≤ length room.new }
    ensures only_says { OnlySays W.Replies out.old out.new (IsErrOf result SessionEnd.WriteFault) }
{
    match teller.ask(ask) {
        Ok(acked) => {
            let said = say_reply(alloc, out, room, &acked);
            drop(acked);
            said
        }
        Err(fault) => say_fault(out, room, fault),
    }
}

// Says the text of a refusal.
#[tactic(auto, using(crate::proofs::RefusalLemmas::says_refusal))]
fn say_bad<W: Replies>(alloc: Global, out: &mut W, bad: http_asks::Bad) -> Result<(), SessionEnd>
    ensures said { IfSome (refused_of bad) (λ broken. IsRefusedBy W.Replies out.old out.new broken result) }
    ensures not_read { IsErrOf result SessionEnd.ReadFault → ⊥ }
    ensures not_spent { IsErrOf result SessionEnd.Spent → ⊥ }
    ensures only_says { OnlySays W.Replies out.old out.new (IsErrOf result SessionEnd.WriteFault) }
{
    let bad = Bad::Message(bad);
    match print_bad(alloc, &bad) {
        Ok(text) => {
            let said = say(out, &bad, &text);
            drop(bad);
            said
        }
        Err(_) => {
            drop(bad);
            Err(say_no_memory(out))
        }
    }
}

fn say_stop<W: Replies>(out: &mut W, stop: MessageStop) -> SessionEnd
    ensures said { (stop ≡ MessageStop.NoMemory) → SaysNoMemory W.Replies out.old out.new result }
    ensures read_fault { (stop ≡ MessageStop.ReadFault) → (result ≡ SessionEnd.ReadFault) × (out.new ≡ out.old) }
    ensures spent { (stop ≡ MessageStop.Spent) → (result ≡ SessionEnd.Spent) × (out.new ≡ out.old) }
    ensures only_says { OnlySays W.Replies out.old out.new (result ≡ SessionEnd.WriteFault) }
    ensures read_only { result ≡ SessionEnd.ReadFault → stop ≡ MessageStop.ReadFault }
    ensures spent_only { result ≡ SessionEnd.Spent → stop ≡ MessageStop.Spent }
{
    match stop {
        MessageStop::ReadFault => SessionEnd::ReadFault,
        MessageStop::Spent => SessionEnd::Spent,
        MessageStop::NoMemory => say_no_memory(out),
    }
}

// The session goes on, or ends after its last message.
fn go_on_unless(last: bool) -> Result<(), SessionEnd>
    ensures goes_on { last ≡ false → IsOk result }
    ensures ends { last ≡ true → result ≡ Err SessionEnd.Ended }
{
    if last { Err(SessionEnd::Ended) } else { Ok(()) }
}

// Answers an ask, drops it, and tells the teller that its answer is no longer in memory.
fn answer_asked<W: Replies, T: Teller>(
    alloc: Global,
    ask: Ask,
    out: &mut W,
    room: &mut [u8],
    teller: &mut T,
) -> Result<(), SessionEnd>
    requires room { 16384 ≤ length room.old }
    ensures answers { AnswersOne T.moves W.Replies (sides teller.old out.old) (sides teller.new out.new)
        ask result }
    ensures room { 16384 ≤ length room.new }
    ensures only_says { OnlySays W.Replies out.old out.new (IsErrOf result SessionEnd.WriteFault) }
{
    let said = answer(alloc, &ask, out, room, teller);
    drop(ask);
    teller.answered();
    said
}

fn answer_heard<W: Replies, T: Teller>(
    alloc: Global,
    heard: Heard,
    out: &mut W,
    room: &mut [u8],
    teller: &mut T,
) -> Result<(), SessionEnd>
    requires room { 16384 ≤ length room.old }
    ensures went { (stream rest left : Option (List ℕ)) (total : Option ℕ) → TellsHeard stream heard rest
        → (heard ≡ Heard.End → IsUnder total) → IsUnspent total stream
        → IsTakenAhead stream left → OnFramed {E = MessageStop} (Ok heard) (IsHeldBack rest left)
        → Went T.moves W.Replies (sides teller.old out.old) (sides teller.new out.new)
        (stream_ends stream left) rest total result }
    ensures item { (stream rest : Option (List ℕ)) (few many : ℕ) → TellsHeard stream heard rest
        → OnFramed {E = MessageStop} (Ok heard) (few < many) → OnOk result (few < many) }
    ensures room { 16384 ≤ length room.new }
    ensures only_says { OnlySays W.Replies out.old out.new (IsErrOf result SessionEnd.WriteFault) }
    ensures not_read { IsErrOf result SessionEnd.ReadFault → ⊥ }
    ensures not_spent { IsErrOf result SessionEnd.Spent → ⊥ }
{
    match heard {
        Heard::Asked { ask, last } => {
            answer_asked(alloc, ask, out, room, teller)?;
            go_on_unless(last)
        }
        Heard::Bad { bad, last } => {
            say_bad(alloc, out, bad)?;
            go_on_unless(last)
        }
        Heard::End => Err(SessionEnd::Ended),
    }
}

/// Reads and answers one message.
pub(crate) fn answer_one<R: Source, W: Replies, T: Teller>(
    alloc: Global,
    source: &mut R,
    reader: &mut Reader,
    out: &mut W,
    room: &mut [u8],
    teller: &mut T,
) -> Result<(), SessionEnd>
    requires room { 16384 ≤ length room.old }
    ensures goes_on { OnOk result (Talked T.moves W.Replies (sides teller.old out.old) (sides teller.new out.new)
        (prepend_known reader.old.bytes (R.left source.old)) (prepend_known reader.new.bytes (R.left source.new))) }
    ensures session { IfErr result (Session T.moves W.Replies (sides teller.old out.old) (sides teller.new out.new)
        (stream_ends (prepend_known reader.old.bytes (R.left source.old)) (R.left source.new))
        (total_of reader.old.taken (R.left source.old))) }
    ensures room { 16384 ≤ length room.new }
    ensures given { Given reader.old.taken reader.new.taken (R.left source.old) (R.left source.new) }
    ensures limit { reader.new.taken ≤ take_limit }
    ensures uses { OnOk result
        (reader.old.taken + length reader.new.bytes < reader.new.taken + length reader.old.bytes) }
    ensures only_says { OnlySays W.Replies out.old out.new (IsErrOf result SessionEnd.WriteFault) }
    ensures only_reads { OnlyReads R.Source source.old source.new (IsErrOf result SessionEnd.ReadFault) }
    ensures spent { IsErrOf result SessionEnd.Spent → reader.new.taken ≡ take_limit }
{
    match reader.next(alloc, source) {
        Ok(heard) => answer_heard(alloc, heard, out, room, teller),
        Err(stop) => Err(say_stop(out, stop)),
    }
}
