// An answer of the office whose effect is durable.
ghost use Rattle.std.specs.Prelude.{◌≡◌, Err};
ghost use Rattle.office_types.specs.Fits.{AnswerFits};
ghost use Rattle.office_types.specs.declared.refusal.Refusal.TheVariants.{NoMemory};

use office_types::{Refusal, Reply};
use std::marker::Model;
use std::snapshot::Snapshot;

/// An answer of the office, given once its effect is on the disk. Only a desk makes one.
///
/// Its moment in milliseconds, the clock's number and the disk's moment are for contracts alone.
#[derive(Drop)]
pub struct Acked {
    moment: u64,
    told: u64,
    reply: Result<Reply, Refusal>,
    position: u64,
    at: Snapshot<u64>,
}

impl Model for Acked {
    ghost use Rattle.std.specs.Prelude.{◌≡◌, Err};
    ghost use Rattle.office_types.specs.Fits.{AnswerFits};
    ghost use Rattle.office_types.specs.declared.refusal.Refusal.TheVariants.{NoMemory};
    ghost use Rattle.desk_core.specs.Answers.{Answer};

    ghost Value = { Answer };

    ghost view = { λ a. record {
      moment = a.moment;
      told = a.told;
      reply = a.reply;
      position = a.position;
      disk_moment = a.at.value;
    } };

    // Want of memory is no answer of the office, and each answer is one that can be printed.
    ghost invariant = { λ a. (a.reply ≡ Err NoMemory → ⊥) × AnswerFits a.reply };
}

impl Acked {
    pub(crate) fn new(
        moment: u64,
        told: u64,
        reply: Result<Reply, Refusal>,
        position: u64,
        at: Snapshot<u64>,
    ) -> Acked
        requires enough { reply ≡ Err NoMemory → ⊥ }
        requires reply_fits { AnswerFits reply }
        ensures { result
            ≡ record { moment = moment; told = told; reply = reply; position = position; disk_moment = at.value } }
    {
        Acked {
            moment,
            told,
            reply,
            position,
            at,
        }
    }

    /// Reads the office's answer.
    pub fn reply(&self) -> &Result<Reply, Refusal>
        ensures value { result.now ≡ self.now.reply }
        ensures fits { AnswerFits result.now }
    {
        &self.reply
    }

    /// Reads the offset of the journal's end gate at the answer, in bytes from the file's start.
    ///
    /// Every later image of the journal begins with the entries before it.
    pub fn position(&self) -> u64
        ensures { result ≡ self.now.position }
    {
        self.position
    }
}
