// Replies over two writers of std.
ghost use Rattle.std.specs.Prelude.{◌≡◌, ◌⊎◌, ◌≤◌, [], ◌∷◌, None, OnOk, OnErr};
ghost use Rattle.std.specs.Io.KnownBytes.{Appends, WriteAppends};
ghost use Rattle.std.specs.Io.{WritesAtMost};
ghost use Rattle.std.specs.Result.{IsErr};
ghost use Rattle.office_base.specs.Faults.{HasCause, Rose};
ghost use Rattle.http_text.specs.Replies.{answer_text};
ghost use Rattle.http_front.specs.Puts.{PutsOut, EndsWith, IsPartOf, NotesLine};
ghost use Rattle.http_front.specs.Saying.{OnlySays};
ghost use Rattle.http_front.specs.Texts.{bad_text_of};
ghost use Rattle.http_front.specs.Writers.{notes_of, out_of};

use crate::bad::Bad;
use crate::replies::Replies;
use desk_core::Acked;
use office_base::Failed;
use std::io::{ErrorKind, Write};

// Signals that may interrupt one write before it counts as failed.
const INTERRUPTIONS: u32 = 10_000;

/// Two writers of std, the second for notes. The first takes replies and other texts alike, so neither is told. A write
/// that a signal interrupts is tried again, and is no fault.
#[derive(Drop)]
pub struct WriterReplies<W: Write + Drop, N: Write + Drop> {
    out: W,
    notes: N,
    faults: u64,
}

impl<W: Write + Drop, N: Write + Drop> WriterReplies<W, N> {
    /// Takes the writers, with a count of faults of 0.
    pub fn new(out: W, notes: N) -> Self
        ensures said { ⟦<WriterReplies<W, N> as Replies>⟧.said result ≡ None }
        ensures moments { ⟦<WriterReplies<W, N> as Replies>⟧.moments result ≡ None }
        ensures texts { ⟦<WriterReplies<W, N> as Replies>⟧.texts result ≡ None }
        ensures noted { ⟦<WriterReplies<W, N> as Replies>⟧.noted result ≡ N.contents notes }
        ensures faults { ⟦<WriterReplies<W, N> as Replies>⟧.faults result ≡ 0 }
        ensures unwritten { (out_of result ≡ out) × (notes_of result ≡ notes) }
    {
        WriterReplies {
            out,
            notes,
            faults: 0,
        }
    }

    // Writes a text to the first writer.
    fn put(&mut self, bytes: &[u8]) -> Result<(), Failed>
        ensures written { PutsOut (W.contents (out_of self.old)) (W.contents (out_of self.new)) bytes.now result }
        ensures noted { ⟦<WriterReplies<W, N> as Replies>⟧.noted self.new
            ≡ ⟦<WriterReplies<W, N> as Replies>⟧.noted self.old }
        ensures cause { HasCause (⟦<WriterReplies<W, N> as Replies>⟧.faults self.old)
            (⟦<WriterReplies<W, N> as Replies>⟧.faults self.new) result }
        ensures quiet { OnOk result (⟦<WriterReplies<W, N> as Replies>⟧.faults self.new
            ≡ ⟦<WriterReplies<W, N> as Replies>⟧.faults self.old) }
    {
        match put_all(&mut self.out, bytes) {
            Ok(()) => Ok(()),
            Err(e) => {
                self.faults = self.faults.saturating_add(1);
                Err(e)
            }
        }
    }
}

// One write, which is tried again if a signal interrupts it.
fn write_retrying<W: Write>(writer: &mut W, bytes: &[u8]) -> Result<usize, Failed>
    ensures bound { WritesAtMost result bytes.now }
    ensures bytes { WriteAppends (W.contents writer.old) (W.contents writer.new) result bytes.now }
{
    for _ in 0..INTERRUPTIONS {
        match writer.write(bytes) {
            Ok(count) => return Ok(count),
            Err(e) => {
                if e.kind() != ErrorKind::Interrupted {
                    return Err(Failed);
                }
            }
        }
    }
    Err(Failed)
}

// Writes all, or a front.
fn put_all<W: Write>(writer: &mut W, bytes: &[u8]) -> Result<(), Failed>
    ensures { PutsOut (W.contents writer.old) (W.contents writer.new) bytes.now result }
{
    let mut done = 0;
    while done < bytes.len() {
        match write_retrying(writer, &bytes[done..]) {
            Ok(0) => return Err(Failed),
            Ok(count) => done += count,
            Err(e) => return Err(e),
        }
    }
    Ok(())
}

impl<W: Write + Drop, N: Write + Drop> Replies for WriterReplies<W, N> {
    ghost said = { λ r. None };

    ghost moments = { λ r. None };

    ghost texts = { λ r. None };

    ghost noted = { λ r. N.contents r.notes };

    ghost faults = { λ r. r.faults };

    fn say(&mut self, acked: &Acked, bytes: &[u8]) -> Result<(), Failed>
        requires { bytes.now ≡ answer_text acked.now.reply }
        ensures written { PutsOut (W.contents (out_of self.old)) (W.contents (out_of self.new)) bytes.now result }
        ensures said { PutsOut (⟦<WriterReplies<W, N> as Replies>⟧.said self.old)
            (⟦<WriterReplies<W, N> as Replies>⟧.said self.new) bytes.now result }
        ensures moments { OnOk result (Appends (⟦<WriterReplies<W, N> as Replies>⟧.moments self.old)
            (⟦<WriterReplies<W, N> as Replies>⟧.moments self.new) (acked.now.disk_moment ∷ [])) }
        ensures unsaid { OnErr result (⟦<WriterReplies<W, N> as Replies>⟧.moments self.new
            ≡ ⟦<WriterReplies<W, N> as Replies>⟧.moments self.old) }
        ensures only_says { OnlySays ⟦<WriterReplies<W, N> as Replies>⟧ self.old self.new (IsErr result) }
    {
        let _ = acked;
        self.put(bytes)
    }

    fn say_part(&mut self, acked: &Acked, bytes: &[u8]) -> Result<(), Failed>
        requires { IsPartOf bytes.now (answer_text acked.now.reply) }
        ensures written { PutsOut (W.contents (out_of self.old)) (W.contents (out_of self.new)) bytes.now result }
        ensures said { PutsOut (⟦<WriterReplies<W, N> as Replies>⟧.said self.old)
            (⟦<WriterReplies<W, N> as Replies>⟧.said self.new) bytes.now result }
        ensures moments { ⟦<WriterReplies<W, N> as Replies>⟧.moments self.new
            ≡ ⟦<WriterReplies<W, N> as Replies>⟧.moments self.old }
        ensures only_says { OnlySays ⟦<WriterReplies<W, N> as Replies>⟧ self.old self.new (IsErr result) }
    {
        let _ = acked;
        self.put(bytes)
    }

    fn told(&mut self, acked: &Acked) -> Result<(), Failed>
        requires { EndsWith (⟦<WriterReplies<W, N> as Replies>⟧.said self.old) (answer_text acked.now.reply) }
        ensures unwritten { out_of self.new ≡ out_of self.old }
        ensures said { ⟦<WriterReplies<W, N> as Replies>⟧.said self.new
            ≡ ⟦<WriterReplies<W, N> as Replies>⟧.said self.old }
        ensures moments { OnOk result (Appends (⟦<WriterReplies<W, N> as Replies>⟧.moments self.old)
            (⟦<WriterReplies<W, N> as Replies>⟧.moments self.new) (acked.now.disk_moment ∷ [])) }
        ensures untold { OnErr result (⟦<WriterReplies<W, N> as Replies>⟧.moments self.new
            ≡ ⟦<WriterReplies<W, N> as Replies>⟧.moments self.old) }
        ensures only_says { OnlySays ⟦<WriterReplies<W, N> as Replies>⟧ self.old self.new (IsErr result) }
    {
        let _ = acked;
        Ok(())
    }

    fn say_bad(&mut self, bad: &Bad, bytes: &[u8]) -> Result<(), Failed>
        requires { bytes.now ≡ bad_text_of bad.now }
        ensures written { PutsOut (W.contents (out_of self.old)) (W.contents (out_of self.new)) bytes.now result }
        ensures said { PutsOut (⟦<WriterReplies<W, N> as Replies>⟧.said self.old)
            (⟦<WriterReplies<W, N> as Replies>⟧.said self.new) bytes.now result }
        ensures moments { ⟦<WriterReplies<W, N> as Replies>⟧.moments self.new
            ≡ ⟦<WriterReplies<W, N> as Replies>⟧.moments self.old }
        ensures only_says { OnlySays ⟦<WriterReplies<W, N> as Replies>⟧ self.old self.new (IsErr result) }
    {
        let _ = bad;
        self.put(bytes)
    }

    fn text(&mut self, bytes: &[u8]) -> Result<(), Failed>
        ensures written { PutsOut (W.contents (out_of self.old)) (W.contents (out_of self.new)) bytes.now result }
        ensures texts { PutsOut (⟦<WriterReplies<W, N> as Replies>⟧.texts self.old)
            (⟦<WriterReplies<W, N> as Replies>⟧.texts self.new) bytes.now result }
        ensures said { ⟦<WriterReplies<W, N> as Replies>⟧.said self.new
            ≡ ⟦<WriterReplies<W, N> as Replies>⟧.said self.old }
        ensures moments { ⟦<WriterReplies<W, N> as Replies>⟧.moments self.new
            ≡ ⟦<WriterReplies<W, N> as Replies>⟧.moments self.old }
        ensures noted { ⟦<WriterReplies<W, N> as Replies>⟧.noted self.new
            ≡ ⟦<WriterReplies<W, N> as Replies>⟧.noted self.old }
        ensures cause { HasCause (⟦<WriterReplies<W, N> as Replies>⟧.faults self.old)
            (⟦<WriterReplies<W, N> as Replies>⟧.faults self.new) result }
        ensures quiet { OnOk result (⟦<WriterReplies<W, N> as Replies>⟧.faults self.new
            ≡ ⟦<WriterReplies<W, N> as Replies>⟧.faults self.old) }
    {
        self.put(bytes)
    }

    fn note(&mut self, bytes: &[u8])
        ensures unwritten { out_of self.new ≡ out_of self.old }
        ensures said { ⟦<WriterReplies<W, N> as Replies>⟧.said self.new
            ≡ ⟦<WriterReplies<W, N> as Replies>⟧.said self.old }
        ensures moments { ⟦<WriterReplies<W, N> as Replies>⟧.moments self.new
            ≡ ⟦<WriterReplies<W, N> as Replies>⟧.moments self.old }
        ensures texts { ⟦<WriterReplies<W, N> as Replies>⟧.texts self.new
            ≡ ⟦<WriterReplies<W, N> as Replies>⟧.texts self.old }
        ensures noted { NotesLine (⟦<WriterReplies<W, N> as Replies>⟧.noted self.old)
            (⟦<WriterReplies<W, N> as Replies>⟧.noted self.new) bytes.now
            (⟦<WriterReplies<W, N> as Replies>⟧.faults self.old)
            (⟦<WriterReplies<W, N> as Replies>⟧.faults self.new) }
        ensures later { ⟦<WriterReplies<W, N> as Replies>⟧.faults self.old
            ≤ ⟦<WriterReplies<W, N> as Replies>⟧.faults self.new }
    {
        match put_all(&mut self.notes, bytes) {
            Ok(()) => {}
            Err(_) => self.faults = self.faults.saturating_add(1),
        }
    }
}
