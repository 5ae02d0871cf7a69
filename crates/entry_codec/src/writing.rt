// Writing an entry.
ghost use Rattle.std.specs.Prelude.{◌≡◌, ◌≤◌, ◌++◌, length, IfOk, OnOk, IfSome, option_copied};
ghost use Rattle.office_types.specs.declared.command.Entry.{Entry};
ghost use Rattle.office_types.specs.Entries.{entry_with};
ghost use Rattle.office_types.specs.Tokens.{IsToken, MayCarry};
ghost use Rattle.entry_codec.specs.Kinds.{parts_of};
ghost use Rattle.entry_codec.specs.Spelling.{CommandFits, EntryFits, IsEntry, entry_limit, command_spelling, spelling};

use crate::command_writers::put_fields;
use crate::field_writers::put_head;
use crate::kinds::Kind;
use moments::Moment;
use office_base::NoMemory;
use office_types::{Command, Entry, Token};
use std::alloc::{AllocError, Global};

/// The most bytes of an entry's spelling: 256 MiB. Own rule: the longest entry sets a bucket's rules. Their text has at
/// most 170,001,650 bytes (1,000 rules of 170,000 each), and the entry 170,001,728. The limit is the next power of two.
/// A reader can refuse a longer entry before it takes memory for it.
pub const ENTRY_LIMIT: u64 = 268_435_456;

// Most entries are shorter: a buffer of this size need not grow for one.
const USUAL_BYTES: usize = 96;

#[tactic(auto, unfolding(crate::specs::Spelling::command_spelling))]
fn put_command(
    out: &mut Vec<u8>,
    token: Option<&Token>,
    command: &Command,
) -> Result<(), AllocError>
    ensures bytes { OnOk result (out.new.items
        ≡ out.old.items ++ command_spelling (option_copied token.entry) command.now) }
    ensures token { OnOk result (IfSome (option_copied token.entry) IsToken) }
    ensures fits { OnOk result (CommandFits command.now) }
{
    put_head(out, Kind::of_command(command), token)?;
    put_fields(out, command)
}

#[tactic(auto, unfolding(crate::specs::Spelling::spelling, crate::specs::Fields::moment_format))]
fn written(
    alloc: Global,
    moment: Moment,
    token: Option<&Token>,
    command: &Command,
) -> Result<Vec<u8>, NoMemory>
    requires { MayCarry (option_copied token) command.now }
    ensures bytes { IfOk result
        (λ bytes. bytes.items ≡ spelling (entry_with moment (option_copied token.entry) command.now)) }
    ensures fits { IfOk result (λ _. EntryFits (entry_with moment (option_copied token.entry) command.now)) }
{
    let mut out = Vec::with_capacity(alloc, USUAL_BYTES)?;
    out.extend_from_slice(&moment.ms().to_be_bytes())?;
    put_command(&mut out, token, command)?;
    Ok(out)
}

/// Writes the one spelling of the entry that a command has at a moment, with or without a token. Only a command that
/// may carry a token has one.
///
/// Own rule: the moment in ms in eight bytes, the kind of the command in one, then its fields, most significant byte
/// first. So an entry can be read back from its bytes only. With a token the kind is 80 (hexadecimal) higher, and the
/// token follows it, after its length in one byte. Cost: one pass over the fields, and memory for the bytes; rules are
/// printed, which takes memory for their JSON.
///
/// # Errors
///
/// `NoMemory`: memory ran out.
pub fn encode_command(
    alloc: Global,
    moment: Moment,
    token: Option<&Token>,
    command: &Command,
) -> Result<Vec<u8>, NoMemory>
    requires carries { MayCarry (option_copied token) command.now }
    ensures bytes { IfOk result
        (λ bytes. bytes.items ≡ spelling (entry_with moment (option_copied token.entry) command.now)) }
    // The bytes are an entry, which `decode` reads back.
    ensures entry { IfOk result
        (λ bytes. EntryFits (entry_with moment (option_copied token.entry) command.now) × IsEntry bytes.items) }
{
    written(alloc, moment, token, command)
}

/// Writes the one spelling of an entry, as `encode_command` does.
///
/// # Errors
///
/// `NoMemory`: memory ran out.
pub fn encode(alloc: Global, entry: &Entry) -> Result<Vec<u8>, NoMemory>
    requires carries { MayCarry entry.now.token entry.now.command }
    ensures bytes { IfOk result (λ bytes. bytes.items ≡ spelling entry.now) }
    // The bytes are an entry, which `decode` reads back.
    ensures entry { IfOk result (λ bytes. EntryFits entry.now × IsEntry bytes.items) }
{
    encode_command(alloc, entry.moment, entry.token.as_ref(), &entry.command)
}

/// States that no entry has a spelling of more than `ENTRY_LIMIT` bytes.
pub fn short_spelling()
    ensures short { (e : Entry) → EntryFits e → length (spelling e) ≤ entry_limit }
    // An entry that sets no rules is far shorter: at most ten of the longest tags, and a token.
    ensures other { (e : Entry) → EntryFits e → ((parts_of e.command).kind ≡ Kind.SetRules → ⊥)
        → length (spelling e) ≤ 16_575 }
{}
