// The reader of the messages of a stream.
ghost use Rattle.std.specs.Prelude.{◌≡◌, ◌≤◌, ◌<◌, ◌+◌, List, length, [], IfOk, IsErrOf, Ok};
ghost use Rattle.std.specs.Io.KnownBytes.{IsAtEnd, prepend_known};
ghost use Rattle.httparse.specs.Grammar.{Field};
ghost use Rattle.httparse.specs.Spans.{IsRequestWithin, span_bytes};
ghost use Rattle.http_wire.specs.Answers.{Gave, TakesFew};
ghost use Rattle.http_wire.specs.Held.{head_room, take_limit};
ghost use Rattle.http_wire.specs.Messages.{IsUnsettled};
ghost use Rattle.http_wire.specs.Sources.{OnlyReads};
ghost use Rattle.http_asks.specs.Counts.{Given, AreEnough};
ghost use Rattle.http_wire.specs.Parts.{body_of, IsFound};
ghost use Rattle.http_asks.specs.Hearing.{IsHeard};
ghost use Rattle.http_asks.specs.Meaning.{MeansWith, MeansOneThing};
ghost use Rattle.http_asks.specs.Streams.{WantsMemory, HasOneItem, ItemsAreMessages};
ghost use Rattle.http_asks.specs.Tells.{TellsHeard, OnFramed};

use crate::asks::whole_ask;
use crate::bad::{Bad, Fault};
use http_routes::Routes;
use http_wire::{Buffer, Message, MessageStop, Next, Source, read_message};
use office_base::NoMemory;
use office_types::Ask;
use std::alloc::Global;
use std::marker::Model;

/// What a stream begins with.
#[derive(Drop)]
pub enum Heard {
    /// A request that asks something.
    Asked {
        /// What it asks.
        ask: Ask,
        /// Whether it is the last of its session.
        last: bool,
    },
    /// A message that is refused.
    Bad {
        /// The rule that it breaks.
        bad: Bad,
        /// Whether it is the last of its session. It is, if its framing is refused.
        last: bool,
    },
    /// The end of the stream.
    End,
}

/// Reads the messages of a stream, one after another. It holds the bytes taken and not yet used, and the routes.
#[derive(Drop)]
pub struct Reader {
    buffer: Buffer,
    routes: Routes,
}

impl Model for Reader {
    ghost use Rattle.http_wire.specs.Held.{Held};

    ghost Value = { Held };

    ghost view = { λ r. r.buffer };
}

impl Reader {
    /// Makes a reader that holds nothing, with the routes that are served.
    ///
    /// # Errors
    ///
    /// `NoMemory`: memory ran out.
    pub fn new(alloc: Global) -> Result<Reader, NoMemory>
        ensures bytes { IfOk result (λ reader. reader.bytes ≡ []) }
        ensures taken { IfOk result (λ reader. reader.taken ≡ 0) }
    {
        let buffer = Buffer::new(alloc)?;
        let routes = Routes::new(alloc)?;
        Ok(Reader { buffer, routes })
    }

    // What the message at the front of the buffer says.
    fn read(&self, alloc: Global, message: &Message) -> Result<Heard, NoMemory>
        requires held { message.now.used ≤ length self.now.bytes }
        requires within { IsRequestWithin self.now.bytes self.now.spans message.now.head }
        ensures short { length self.now.bytes ≤ head_room }
        ensures heard { (fields : List Field) → IsFound self.now.bytes message.now.token fields
            → IfOk result (IsHeard (MeansWith fields (span_bytes self.now.bytes message.now.head.path)
            (span_bytes self.now.bytes message.now.head.method) (body_of message.now self.now.bytes))
            message.now.last) }
    {
        let head = message.head();
        let bytes = self.buffer.held();
        let read = whole_ask(
            alloc,
            &self.routes,
            head.path.of(bytes),
            head.method.of(bytes),
            message.body(&self.buffer),
            bytes,
            message.token(),
        );
        match read {
            Ok(ask) => Ok(Heard::Asked {
                ask,
                last: message.last(),
            }),
            Err(Fault::Bad(bad)) => Ok(Heard::Bad {
                bad,
                last: message.last(),
            }),
            Err(Fault::NoMemory) => Err(NoMemory),
        }
    }

    /// Reads the next message, and drops its bytes from the buffer. The bytes of a message with refused framing stay.
    ///
    /// # Errors
    ///
    /// `Spent`: 2^40 = 1,099,511,627,776 bytes were taken and a further read is needed, even one that would find the
    /// end. `ReadFault`: the source failed. `NoMemory`: memory ran out for a request whose head was read. Nothing was
    /// heard then, and a later call promises nothing.
    pub fn next<R: Source>(&mut self, alloc: Global, source: &mut R) -> Result<Heard, MessageStop>
        ensures tells { IfOk result (λ heard. TellsHeard (prepend_known self.old.bytes (R.left source.old)) heard
            (prepend_known self.new.bytes (R.left source.new))) }
        // A message has one meaning, a stream begins with one message, and that is the first of the whole stream's.
        ensures one_meaning { MeansOneThing }
        ensures one_item { HasOneItem }
        ensures of_whole { ItemsAreMessages }
        ensures given { Given self.old.taken self.new.taken (R.left source.old) (R.left source.new) }
        ensures limit { self.new.taken ≤ take_limit }
        // In every case, at most one head and one body are held and taken.
        ensures ahead { TakesFew self.old self.new }
        // A request has at least one byte.
        ensures uses { OnFramed result
            (self.old.taken + length self.new.bytes < self.new.taken + length self.old.bytes) }
        // At most 8,192 bytes after it are held.
        ensures short { OnFramed result (length self.new.bytes ≤ head_room) }
        // The bytes taken settle what is heard, or the source is at its end, with fewer bytes taken than the limit.
        ensures enough { IfOk result (λ _. Gave self.old self.new (R.left source.old) (R.left source.new)
            (AreEnough self.new.taken (R.left source.new))) }
        // Only a read finds the end, so fewer bytes than the limit were taken.
        ensures at_end { result ≡ Ok Heard.End → (self.new.taken < take_limit) × IsAtEnd (R.left source.new) }
        ensures spent { IsErrOf result MessageStop.Spent → (self.new.taken ≡ take_limit)
            × Gave self.old self.new (R.left source.old) (R.left source.new) IsUnsettled }
        // The source fails only if the bytes taken settle nothing.
        ensures failed { IsErrOf result MessageStop.ReadFault
            → Gave self.old self.new (R.left source.old) (R.left source.new) IsUnsettled }
        // Memory is needed only for a request whose head was read.
        ensures no_memory { IsErrOf result MessageStop.NoMemory
            → Gave self.old self.new (R.left source.old) (R.left source.new) WantsMemory }
        // A message that the bytes held settle is heard without a read.
        ensures settled { (IsUnsettled self.old.bytes → ⊥) → source.new ≡ source.old }
        // This error is returned if and only if the source failed.
        ensures only_reads { OnlyReads R.Source source.old source.new (IsErrOf result MessageStop.ReadFault) }
    {
        match read_message(alloc, source, &mut self.buffer) {
            Ok(Next::Request(message)) => {
                let Ok(heard) = self.read(alloc, &message) else {
                    return Err(MessageStop::NoMemory);
                };
                self.buffer.drop_front(message.used());
                Ok(heard)
            }
            Ok(Next::Refused(bad)) => Ok(Heard::Bad {
                bad: Bad::Framing(bad),
                last: true,
            }),
            Ok(Next::End) => Ok(Heard::End),
            Err(stop) => Err(stop),
        }
    }
}
