// Reads what is kept of commands with a token.
ghost use Rattle.std.specs.Prelude.{◌≡◌, ◌++◌, IfOk};
ghost use Rattle.office_types.specs.Tokens.{takes_token};
ghost use Rattle.entry_codec.specs.Fields.{moment_format};
ghost use Rattle.entry_codec.specs.Reading.{Finds};
ghost use Rattle.entry_codec.specs.Spelling.{EntryFits, spelling};
ghost use Rattle.checkpoint.specs.Parts.{if_spelled, command_texts, command_format, kept_format};

use crate::field_readers::{flag_in, token_in};
use crate::spelled::Spelled;
use entry_codec::{Entry, EntryFault, decode, long_counted_in, moment_in, u64_in};
use office_base::NoMemory;
use office_types::{Command, Kept};
use std::alloc::{AllocError, Global};

// Whether the command may carry a token.
fn does_take_token(command: &Command) -> bool
    ensures { result ≡ takes_token command.now }
{
    match command {
        Command::SetRules { .. } | Command::Act { .. } | Command::SetTariff { .. } => false,
        _ => true,
    }
}

// The bytes of moment 0, and this text after them.
#[tactic(auto, unfolding(entry_codec::specs::Fields::moment_format))]
fn entry_with(alloc: Global, text: &[u8]) -> Result<Vec<u8>, AllocError>
    ensures { IfOk result (λ entry. entry.items ≡ moment_format.written 0 ++ text.now) }
{
    let mut entry = Vec::with_capacity(alloc, 64)?;
    entry.extend_from_slice(&[0; 8])?;
    entry.extend_from_slice(text)?;
    Ok(entry)
}

// The command of an entry at moment 0, if this is the one text of it without a token.
#[tactic(auto, using(crate::proofs::CommandTexts::if_of, crate::proofs::CommandTexts::if_with_token, crate::proofs::CommandTexts::if_not_taken))]
fn command_with(text: &[u8], entry: Entry) -> Option<Command>
    requires fits { EntryFits entry }
    requires spelled { moment_format.written 0 ++ text.now ≡ spelling entry }
    ensures { result ≡ if_spelled text.now entry }
{
    if entry.token.is_some() {
        drop(entry);
        return None;
    }
    if !does_take_token(&entry.command) {
        drop(entry);
        return None;
    }
    Some(entry.command)
}

// The command that has this text.
fn command_of(alloc: Global, text: &[u8]) -> Result<Option<Command>, NoMemory>
    ensures { Finds (λ command. command) result (command_texts.value text.now) }
{
    let bytes = entry_with(alloc, text)?;
    match decode(alloc, &bytes) {
        Ok(entry) => Ok(command_with(text, entry)),
        Err(e) => match e {
            EntryFault::NoMemory => Err(NoMemory),
            _ => Ok(None),
        },
    }
}

#[tactic(auto, unfolding(crate::specs::Parts::command_format, crate::specs::Parts::four))]
fn command_in(alloc: Global, bytes: &[u8]) -> Result<Option<(Command, &[u8])>, NoMemory>
    ensures { Finds (λ x. (x.0, x.1.now)) result (command_format.front bytes.now) }
{
    let Some((text, rest)) = long_counted_in(bytes) else {
        return Ok(None);
    };
    let Some(command) = command_of(alloc, text)? else {
        return Ok(None);
    };
    Ok(Some((command, rest)))
}

impl Spelled for Kept {
    ghost format = { kept_format };

    #[tactic(auto, unfolding(crate::specs::Parts::kept_format, crate::specs::Parts::eight))]
    fn read(alloc: Global, bytes: &[u8]) -> Result<Option<(Kept, &[u8])>, NoMemory> {
        let Some((token, rest)) = token_in(alloc, bytes)? else {
            return Ok(None);
        };
        let (moment, rest) = match moment_in(rest) {
            Some(read) => read,
            None => return Ok(None),
        };
        let Some((marker, rest)) = flag_in(rest) else {
            return Ok(None);
        };
        let Some((told, rest)) = u64_in(rest) else {
            return Ok(None);
        };
        let Some((command, rest)) = command_in(alloc, rest)? else {
            return Ok(None);
        };
        let kept = Kept {
            token,
            moment,
            marker,
            told,
            command,
        };
        Ok(Some((kept, rest)))
    }
}
