// Reading an entry.
ghost use Rattle.std.specs.Prelude.{◌≡◌, ◌<◌, ◌++◌, ℕ, true, List, slice_index, option_map, IfOk, Ok};
ghost use Rattle.office_types.specs.declared.command.Entry.{Entry};
ghost use Rattle.entry_codec.specs.Fields.{moment_format};
ghost use Rattle.entry_codec.specs.Kinds.{Values, head_format, fields_of, parts_of, command_of, is_own};
ghost use Rattle.entry_codec.specs.Spelling.{EntryFits, written_values, are_values, spelling};
ghost use Rattle.entry_codec.specs.Reading.{EntryGives, value_at, values_at, token_at, command_at, entry_of};

use crate::command_readers::fields_of_kind;
use crate::fault::EntryFault;
use crate::field_readers::{fault_at, token_of};
use crate::fields::{u8_in, u64_in};
use crate::kinds::Kind;
use moments::Moment;
use office_types::{Command, Entry, Token};
use std::alloc::Global;

// The kind of a command, and whether a token follows.
#[tactic(auto, unfolding(crate::specs::Reading::value_at, crate::specs::Kinds::head_format))]
fn head_in(total: usize, bytes: &[u8]) -> Result<((Kind, bool), &[u8]), EntryFault>
    ensures { EntryGives (λ x. (x.0, x.1.now)) result (value_at head_format total bytes.now) }
{
    let Some((number, rest)) = u8_in(bytes) else {
        return Err(fault_at(total, bytes));
    };
    match Kind::of_head(number) {
        Some(head) => Ok((head, rest)),
        None => Err(fault_at(total, bytes)),
    }
}

// The token, if the kind says that there is one.
#[tactic(auto, unfolding(crate::specs::Reading::token_at))]
fn token_in(
    alloc: Global,
    carried: bool,
    total: usize,
    bytes: &[u8],
) -> Result<(Option<Token>, &[u8]), EntryFault>
    ensures { EntryGives (λ x. (x.0, x.1.now)) result (token_at carried total bytes.now) }
{
    if !carried {
        return Ok((None, bytes));
    }
    let (token, rest) = token_of(alloc, total, bytes)?;
    Ok((Some(token), rest))
}

// A kind, the token after it, its fields, and no bytes after them.
#[tactic(auto, unfolding(crate::specs::Reading::command_at))]
fn command_in(
    alloc: Global,
    total: usize,
    bytes: &[u8],
) -> Result<(Option<Token>, Command), EntryFault>
    ensures { EntryGives (λ c. c) result (command_at total bytes.now) }
{
    let ((kind, carried), rest) = head_in(total, bytes)?;
    let (token, rest) = token_in(alloc, carried, total, rest)?;
    let (command, rest) = fields_of_kind(alloc, kind, total, rest)?;
    if !rest.is_empty() {
        drop(token);
        drop(command);
        return Err(fault_at(total, rest));
    }
    Ok((token, command))
}

/// The moment at which an entry begins.
#[tactic(auto, unfolding(crate::specs::Fields::moment_format))]
pub fn moment_in(bytes: &[u8]) -> Option<(Moment, &[u8])>
    ensures { option_map (λ x. (x.0, x.1.now)) result ≡ moment_format.front bytes.now }
{
    let (ms, rest) = u64_in(bytes)?;
    match Moment::of(ms) {
        Ok(moment) => Some((moment, rest)),
        Err(_) => None,
    }
}

#[tactic(auto, unfolding(crate::specs::Reading::entry_of, crate::specs::Reading::value_at))]
fn whole_entry(alloc: Global, bytes: &[u8]) -> Result<Entry, EntryFault>
    ensures { EntryGives (λ e. e) result (entry_of bytes.now) }
{
    let total = bytes.len();
    let Some((moment, rest)) = moment_in(bytes) else {
        return Err(fault_at(total, bytes));
    };
    let (token, command) = command_in(alloc, total, rest)?;
    Ok(Entry {
        moment,
        token,
        command,
    })
}

/// Reads the entry that all of the bytes spell.
///
/// Cost: one pass over the bytes, and memory for the name, the key and the tags; for rules a second pass over their
/// text, which is printed again, and memory for its JSON. It takes memory only for what the bytes hold, whatever
/// lengths they claim.
///
/// # Errors
///
/// `BadEntry`: the bytes are not the spelling of an entry; fields are tested from left to right. `NoMemory`: memory ran
/// out before a later field was tested.
pub fn decode(alloc: Global, bytes: &[u8]) -> Result<Entry, EntryFault>
    // The bytes are the spelling of the entry that is read.
    ensures found { IfOk result (λ e. EntryFits e × (bytes.now ≡ spelling e)) }
    // Each spelling of an entry is read, unless memory runs out.
    ensures only { (e : Entry) → EntryFits e → bytes.now ≡ spelling e → EntryGives (λ x. x) result (Ok e) }
    // Which fault is reported, and at which offset.
    ensures exact { EntryGives (λ e. e) result (entry_of bytes.now) }
{
    whole_entry(alloc, bytes)
}

/// States that no two entries have the same spelling.
pub fn one_spelling()
    ensures same { (a b : Entry) → EntryFits a → EntryFits b → spelling a ≡ spelling b → a ≡ b }
{}

/// States of each row of the table: the values of its fields are read back from their bytes, and nothing else is read.
/// Values that do not belong to another kind are those of the row's command.
pub fn each_row_reads_back()
    ensures again { (kind : Kind) (values : Values (fields_of kind)) (total : ℕ) (rest : List ℕ)
        → are_values (fields_of kind) values ≡ true
        → values_at (fields_of kind) total (written_values (fields_of kind) values ++ rest) ≡ Ok (values, rest) }
    ensures only { (kind : Kind) (read : Values (fields_of kind) × List ℕ) (total : ℕ) (bytes : List ℕ)
        → ((i : ℕ) → slice_index bytes i < 256) → values_at (fields_of kind) total bytes ≡ Ok read
        → (bytes ≡ written_values (fields_of kind) read.0 ++ read.1) × (are_values (fields_of kind) read.0 ≡ true) }
    ensures parts { (kind : Kind) (values : Values (fields_of kind)) → are_values (fields_of kind) values ≡ true
        → is_own kind values ≡ true → parts_of (command_of kind values) ≡ record { kind = kind; values = values } }
{}
