// Replies in memory.
ghost use Rattle.std.specs.Prelude.{◌≡◌, ◌+◌, ◌-◌, ◌^◌, ◌≤◌, ◌++◌, [], ◌∷◌, Some, map, min};
ghost use Rattle.std.specs.Bool.{Decides};
ghost use Rattle.std.specs.List.{Contains};
ghost use Rattle.office_base.specs.Faults.{Rose};
ghost use Rattle.http_text.specs.Replies.{answer_text};
ghost use Rattle.http_front.specs.Puts.{EndsWith, IsPartOf, NotesLine};
ghost use Rattle.http_front.specs.Texts.{bad_text_of};

use crate::bad::Bad;
use crate::replies::Replies;
use desk_core::Acked;
use office_base::Failed;
use std::alloc::Global;
use std::snapshot::Snapshot;

/// Replies, other texts and notes in memory, with failures at chosen calls.
#[derive(Drop)]
pub struct MemoryReplies {
    replies: Vec<u8>,
    answers: Vec<Snapshot<Acked>>,
    texts: Vec<u8>,
    notes: Vec<u8>,
    failing: Vec<u64>,
    calls: u64,
    faults: u64,
}

impl MemoryReplies {
    ghost use Rattle.http_front.specs.MemorySinks.{sink_failing, sink_calls};

    /// Makes replies in which nothing was said. The calls of `say`, `say_part`, `told`, `say_bad` and `text` whose
    /// numbers are in `failing`, counted together from 1, fail, and nothing of them is kept; so does a call for which
    /// memory runs out.
    pub fn new(alloc: Global, failing: Vec<u64>) -> Self
        ensures said { ⟦<MemoryReplies as Replies>⟧.said result ≡ Some [] }
        ensures moments { ⟦<MemoryReplies as Replies>⟧.moments result ≡ Some [] }
        ensures texts { ⟦<MemoryReplies as Replies>⟧.texts result ≡ Some [] }
        ensures noted { ⟦<MemoryReplies as Replies>⟧.noted result ≡ Some [] }
        ensures faults { ⟦<MemoryReplies as Replies>⟧.faults result ≡ 0 }
        ensures failing { sink_failing result ≡ failing.items }
        ensures calls { sink_calls result ≡ 0 }
    {
        MemoryReplies {
            replies: Vec::new(alloc),
            answers: Vec::new(alloc),
            texts: Vec::new(alloc),
            notes: Vec::new(alloc),
            failing,
            calls: 0,
            faults: 0,
        }
    }

    /// Reads the bytes of all replies.
    pub fn said(&self) -> &[u8]
        ensures { Some result.now ≡ ⟦<MemoryReplies as Replies>⟧.said self.now }
    {
        &self.replies
    }

    /// Reads the bytes of all other texts.
    pub fn texts(&self) -> &[u8]
        ensures { Some result.now ≡ ⟦<MemoryReplies as Replies>⟧.texts self.now }
    {
        &self.texts
    }

    /// Reads all bytes that were noted.
    pub fn notes(&self) -> &[u8]
        ensures { Some result.now ≡ ⟦<MemoryReplies as Replies>⟧.noted self.now }
    {
        &self.notes
    }

    // Whether this call is to fail.
    fn fails(&mut self) -> bool
        ensures same { self.new ≡ record self.old { calls = self.new.calls } }
        ensures counted { self.new.calls ≡ min (self.old.calls + 1) (2 ^ 64 - 1) }
        ensures fails { Decides result (Contains self.old.failing.items self.new.calls) }
    {
        self.calls = self.calls.saturating_add(1);
        self.failing.contains(&self.calls)
    }

    // Counts a call that fails.
    fn fail(&mut self) -> Failed
        ensures same { self.new ≡ record self.old { faults = self.new.faults } }
        ensures later { self.old.faults ≤ self.new.faults }
        ensures rose { Rose self.old.faults self.new.faults }
    {
        self.faults = self.faults.saturating_add(1);
        Failed
    }
}

impl Replies for MemoryReplies {
    ghost use Rattle.http_front.specs.MemorySinks.{IsSinkCall, kept_of, sink_faults, sink_failing, sink_calls};

    ghost said = { λ r. Some r.replies.items };

    ghost moments = { λ r. Some (map (λ answer. answer.value.disk_moment) r.answers.items) };

    ghost texts = { λ r. Some r.texts.items };

    ghost noted = { λ r. Some r.notes.items };

    ghost faults = { λ r. r.faults };

    fn say(&mut self, acked: &Acked, bytes: &[u8]) -> Result<(), Failed>
        requires { bytes.now ≡ answer_text acked.now.reply }
        ensures call { IsSinkCall self.old self.new (record (kept_of self.old) {
          said = (kept_of self.old).said ++ bytes.now;
          moments = (kept_of self.old).moments ++ acked.now.disk_moment ∷ [];
        }) result }
    {
        if self.fails() || self.answers.reserve(1).is_err() {
            return Err(self.fail());
        }
        match self.replies.extend_from_slice(bytes) {
            Ok(()) => {
                self.answers.push_reserved(Snapshot::of(acked));
                Ok(())
            }
            Err(_) => Err(self.fail()),
        }
    }

    fn say_part(&mut self, acked: &Acked, bytes: &[u8]) -> Result<(), Failed>
        requires { IsPartOf bytes.now (answer_text acked.now.reply) }
        ensures call { IsSinkCall self.old self.new
            (record (kept_of self.old) { said = (kept_of self.old).said ++ bytes.now }) result }
    {
        let _ = acked;
        if self.fails() {
            return Err(self.fail());
        }
        match self.replies.extend_from_slice(bytes) {
            Ok(()) => Ok(()),
            Err(_) => Err(self.fail()),
        }
    }

    fn told(&mut self, acked: &Acked) -> Result<(), Failed>
        requires { EndsWith (⟦<MemoryReplies as Replies>⟧.said self.old) (answer_text acked.now.reply) }
        ensures call { IsSinkCall self.old self.new (record (kept_of self.old) {
          moments = (kept_of self.old).moments ++ acked.now.disk_moment ∷ [];
        }) result }
    {
        if self.fails() || self.answers.reserve(1).is_err() {
            return Err(self.fail());
        }
        self.answers.push_reserved(Snapshot::of(acked));
        Ok(())
    }

    fn say_bad(&mut self, bad: &Bad, bytes: &[u8]) -> Result<(), Failed>
        requires { bytes.now ≡ bad_text_of bad.now }
        ensures call { IsSinkCall self.old self.new
            (record (kept_of self.old) { said = (kept_of self.old).said ++ bytes.now }) result }
    {
        if self.fails() {
            return Err(self.fail());
        }
        match self.replies.extend_from_slice(bytes) {
            Ok(()) => Ok(()),
            Err(_) => Err(self.fail()),
        }
    }

    fn text(&mut self, bytes: &[u8]) -> Result<(), Failed>
        ensures call { IsSinkCall self.old self.new
            (record (kept_of self.old) { texts = (kept_of self.old).texts ++ bytes.now }) result }
    {
        if self.fails() {
            return Err(self.fail());
        }
        match self.texts.extend_from_slice(bytes) {
            Ok(()) => Ok(()),
            Err(_) => Err(self.fail()),
        }
    }

    fn note(&mut self, bytes: &[u8])
        ensures said { ⟦<MemoryReplies as Replies>⟧.said self.new ≡ ⟦<MemoryReplies as Replies>⟧.said self.old }
        ensures moments { ⟦<MemoryReplies as Replies>⟧.moments self.new
            ≡ ⟦<MemoryReplies as Replies>⟧.moments self.old }
        ensures texts { ⟦<MemoryReplies as Replies>⟧.texts self.new ≡ ⟦<MemoryReplies as Replies>⟧.texts self.old }
        ensures noted { NotesLine (⟦<MemoryReplies as Replies>⟧.noted self.old)
            (⟦<MemoryReplies as Replies>⟧.noted self.new) bytes.now (sink_faults self.old) (sink_faults self.new) }
        ensures later { sink_faults self.old ≤ sink_faults self.new }
        ensures calls { sink_calls self.new ≡ sink_calls self.old }
        ensures failing { sink_failing self.new ≡ sink_failing self.old }
    {
        match self.notes.extend_from_slice(bytes) {
            Ok(()) => {}
            Err(_) => self.faults = self.faults.saturating_add(1),
        }
    }
}
