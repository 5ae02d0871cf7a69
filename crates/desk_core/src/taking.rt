// Which entries of a journal are taken.
ghost use Rattle.std.specs.Prelude.{◌≡◌, ◌⊎◌, true, Ok, None, IfErr, OnOk, IfSome};
ghost use Rattle.kept_replies.specs.Queue.{kept_in};
ghost use Rattle.office_types.specs.declared.reply.Reply.TheVariants.{NothingDue};
ghost use Rattle.plain_office.specs.Office as plain;
ghost use Rattle.plain_office.specs.Run.{accept, is_not_before};
ghost use Rattle.plain_office.specs.Step.{is_accepted};
ghost use Rattle.office_machine.specs.Once.{StandsFor};

use meter_journal::OpenFault;
use moments::Moment;
use office_machine::Office;
use office_types::{Entry, Refusal, Reply};

/// Tells whether an entry of this moment may follow those up to the last moment. Takes no memory.
pub fn is_in_order(last: Option<Moment>, at: Moment) -> bool
    ensures { result ≡ is_not_before last at }
{
    match last {
        Some(last) => last.ms() <= at.ms(),
        None => true,
    }
}

/// Tells whether the entry at this gate may be taken: no reply is kept under its token.
///
/// Cost: one search of the tokens.
///
/// # Errors
///
/// `Damaged` at the gate: a reply is kept under the token, and so the office does not accept the entry. `NoMemory`:
/// memory ran out.
pub fn entry_is_new(office: &Office, entry: &Entry, gate: u64) -> Result<(), OpenFault>
    ensures new { OnOk result (IfSome entry.now.token (λ token. kept_in token office.now.kept.queue ≡ None)) }
    ensures fails { IfErr result (λ e. (e ≡ OpenFault.NoMemory) ⊎ ((e ≡ OpenFault.Damaged gate)
        × ((p : plain.Office) → StandsFor office.now p → accept p entry.now ≡ None))) }
{
    match &entry.token {
        None => Ok(()),
        Some(token) => match office.recall(token, &entry.command) {
            Ok(None) => Ok(()),
            Ok(Some(reply)) => {
                drop(reply);
                Err(OpenFault::Damaged { offset: gate })
            }
            Err(refusal) => Err(entry_refused(refusal, gate)),
        },
    }
}

/// Tells why the entry at this gate is not taken whose command is refused so: the office does not accept it, or memory
/// ran out. Takes no memory.
pub fn entry_refused(refusal: Refusal, gate: u64) -> OpenFault
    ensures memory { refusal ≡ Refusal.NoMemory → result ≡ OpenFault.NoMemory }
    ensures damaged { (refusal ≡ Refusal.NoMemory → ⊥) → result ≡ OpenFault.Damaged gate }
{
    match refusal {
        Refusal::NoMemory => OpenFault::NoMemory,
        other => {
            drop(other);
            OpenFault::Damaged { offset: gate }
        }
    }
}

/// Takes the entry at this gate whose command is answered so. Takes no memory.
///
/// # Errors
///
/// `Damaged` at the gate: an act that finds nothing due is no entry.
pub fn entry_taken(reply: &Reply, gate: u64) -> Result<(), OpenFault>
    ensures ok { OnOk result (is_accepted (Ok reply.now) ≡ true) }
    ensures damaged { IfErr result (λ e. (e ≡ OpenFault.Damaged gate) × (reply.now ≡ NothingDue)) }
{
    match reply {
        Reply::NothingDue => Err(OpenFault::Damaged { offset: gate }),
        _ => Ok(()),
    }
}
