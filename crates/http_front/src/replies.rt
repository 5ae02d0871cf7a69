// Where texts go.
ghost use Rattle.std.specs.Prelude.{◌≡◌, ◌≤◌, ℕ, List, [], ◌∷◌, Option, None, OnOk, OnErr};
ghost use Rattle.std.specs.Io.KnownBytes.{Appends};
ghost use Rattle.office_base.specs.Faults.{HasCause};
ghost use Rattle.http_text.specs.Replies.{answer_text};
ghost use Rattle.http_front.specs.Puts.{PutsOut, EndsWith, IsPartOf, NotesLine};
ghost use Rattle.http_front.specs.Texts.{bad_text_of};

use crate::bad::Bad;
use desk_core::Acked;
use office_base::Failed;

/// A sink of replies and other texts, with a second one for notes.
pub trait Replies {
    /// The bytes of the replies that were said, if they are known.
    ghost said: { Self → Option (List ℕ) };

    /// The disk's moments of the answers among them, in order, if they are known.
    ghost moments: { Self → Option (List ℕ) };

    /// The bytes of the other texts, if they are known.
    ghost texts: { Self → Option (List ℕ) };

    /// The bytes that were noted, if they are known.
    ghost noted: { Self → Option (List ℕ) };

    /// How often it failed.
    ghost faults: { Self → ℕ };

    /// Says the reply of an answer, with its text.
    ///
    /// # Errors
    ///
    /// `Failed`: a front of the bytes may have gone out, and the count of faults rose.
    fn say(&mut self, acked: &Acked, bytes: &[u8]) -> Result<(), Failed>
        requires { bytes.now ≡ answer_text acked.now.reply }
        ensures said { PutsOut (said self.old) (said self.new) bytes.now result }
        ensures moments { OnOk result (Appends (moments self.old) (moments self.new) (acked.now.disk_moment ∷ [])) }
        ensures unsaid { OnErr result (moments self.new ≡ moments self.old) }
        ensures texts { texts self.new ≡ texts self.old }
        ensures noted { noted self.new ≡ noted self.old }
        ensures cause { HasCause (faults self.old) (faults self.new) result }
        ensures quiet { OnOk result (faults self.new ≡ faults self.old) };

    /// Says a part of the reply of an answer, which is told after its last part.
    ///
    /// # Errors
    ///
    /// `Failed`: a front of the bytes may have gone out, and the count of faults rose.
    fn say_part(&mut self, acked: &Acked, bytes: &[u8]) -> Result<(), Failed>
        requires { IsPartOf bytes.now (answer_text acked.now.reply) }
        ensures said { PutsOut (said self.old) (said self.new) bytes.now result }
        ensures unknown { said self.old ≡ None → said self.new ≡ None }
        ensures moments { moments self.new ≡ moments self.old }
        ensures texts { texts self.new ≡ texts self.old }
        ensures noted { noted self.new ≡ noted self.old }
        ensures cause { HasCause (faults self.old) (faults self.new) result }
        ensures quiet { OnOk result (faults self.new ≡ faults self.old) };

    /// Adds the disk's moment of an answer whose reply was said in parts. The reply is the last that was said.
    ///
    /// # Errors
    ///
    /// `Failed`: the moment was not added, and the count of faults rose.
    fn told(&mut self, acked: &Acked) -> Result<(), Failed>
        requires { EndsWith (said self.old) (answer_text acked.now.reply) }
        ensures moments { OnOk result (Appends (moments self.old) (moments self.new) (acked.now.disk_moment ∷ [])) }
        ensures untold { OnErr result (moments self.new ≡ moments self.old) }
        ensures said { said self.new ≡ said self.old }
        ensures texts { texts self.new ≡ texts self.old }
        ensures noted { noted self.new ≡ noted self.old }
        ensures cause { HasCause (faults self.old) (faults self.new) result }
        ensures quiet { OnOk result (faults self.new ≡ faults self.old) };

    /// Says the reply to a message that has no answer of the office, with its text.
    ///
    /// # Errors
    ///
    /// `Failed`: a front of the bytes may have gone out, and the count of faults rose.
    fn say_bad(&mut self, bad: &Bad, bytes: &[u8]) -> Result<(), Failed>
        requires { bytes.now ≡ bad_text_of bad.now }
        ensures said { PutsOut (said self.old) (said self.new) bytes.now result }
        ensures moments { moments self.new ≡ moments self.old }
        ensures texts { texts self.new ≡ texts self.old }
        ensures noted { noted self.new ≡ noted self.old }
        ensures cause { HasCause (faults self.old) (faults self.new) result }
        ensures quiet { OnOk result (faults self.new ≡ faults self.old) };

    /// Puts out a text that is no reply.
    ///
    /// # Errors
    ///
    /// `Failed`: a front of the bytes may have gone out, and the count of faults rose.
    fn text(&mut self, bytes: &[u8]) -> Result<(), Failed>
        ensures texts { PutsOut (texts self.old) (texts self.new) bytes.now result }
        ensures said { said self.new ≡ said self.old }
        ensures moments { moments self.new ≡ moments self.old }
        ensures noted { noted self.new ≡ noted self.old }
        ensures cause { HasCause (faults self.old) (faults self.new) result }
        ensures quiet { OnOk result (faults self.new ≡ faults self.old) };

    /// Notes a line. Of one that is lost a front may have been noted, and the count of faults rose.
    fn note(&mut self, bytes: &[u8])
        ensures said { said self.new ≡ said self.old }
        ensures moments { moments self.new ≡ moments self.old }
        ensures texts { texts self.new ≡ texts self.old }
        ensures noted { NotesLine (noted self.old) (noted self.new) bytes.now (faults self.old) (faults self.new) }
        ensures later { faults self.old ≤ faults self.new };
}
