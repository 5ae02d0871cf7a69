// Writes what is kept of commands with a token.
ghost use Rattle.std.specs.Prelude.{◌≡◌, ◌++◌, ◌<◌, ◌≤◌, ◌^◌, true, IfOk, OnOk, length, drop};
ghost use Rattle.std.specs.List.{AllByRecursion};
ghost use Rattle.office_types.specs.Tokens.{takes_token};
ghost use Rattle.office_types.specs.declared.kept.Kept.{Kept};
ghost use Rattle.entry_codec.specs.Fields.{token_format};
ghost use Rattle.entry_codec.specs.Formats.{list, counted_text};
ghost use Rattle.checkpoint.specs.Parts.{four, HasText, is_kept_command, command_format, kept_format};

use crate::number_writers::{put_count, put_flag, put_moment, put_u64};
use entry_codec::{encode_command, put_long_text};
use moments::Moment;
use office_base::NoMemory;
use office_types::{Command, Kept, Token};
use std::alloc::{AllocError, Global};

fn first_moment() -> Moment
    ensures { result ≡ 0 }
{
    match Moment::of(0) {
        Ok(moment) => moment,
        Err(_) => unreachable!(),
    }
}

// The entry of a command at moment 0, without a token: its text follows the 8 bytes of the moment.
#[tactic(auto, using(crate::proofs::CommandTexts::has_text, crate::proofs::CommandTexts::is_short, crate::proofs::CommandTexts::is_kept))]
fn entry_of(alloc: Global, command: &Command) -> Result<Vec<u8>, NoMemory>
    requires { takes_token command.now ≡ true }
    ensures text { IfOk result (λ entry. HasText command.now entry.items) }
    ensures short { IfOk result (λ entry. length entry.items < 2 ^ 32) }
    ensures kept { IfOk result (λ _. is_kept_command command.now ≡ true) }
{
    encode_command(alloc, first_moment(), None, command)
}

// The bytes that follow the moment of an entry, after their length.
#[tactic(auto, using(crate::proofs::CommandTexts::take_rest), unfolding(crate::specs::Parts::four))]
fn put_text(out: &mut Vec<u8>, entry: &[u8]) -> Result<(), AllocError>
    requires moment { 8 ≤ length entry.now }
    requires short { length entry.now < 2 ^ 32 }
    ensures bytes { OnOk result
        (out.new.items ≡ out.old.items ++ (counted_text four).written (drop 8 entry.now)) }
    ensures has { OnOk result ((counted_text four).has (drop 8 entry.now) ≡ true) }
{
    put_long_text(out, &entry[8..])
}

// A command's text after its length. The text is what follows the moment in an entry without a token.
#[tactic(auto, unfolding(crate::specs::Parts::command_format))]
fn put_command(out: &mut Vec<u8>, command: &Command) -> Result<(), AllocError>
    requires { takes_token command.now ≡ true }
    ensures bytes { OnOk result (out.new.items ≡ out.old.items ++ command_format.written command.now) }
    ensures has { OnOk result (command_format.has command.now ≡ true) }
{
    let Ok(entry) = entry_of(*out.allocator(), command) else {
        return Err(AllocError);
    };
    put_text(out, &entry)
}

#[tactic(auto, unfolding(entry_codec::specs::Fields::token_format))]
fn put_token(out: &mut Vec<u8>, token: &Token) -> Result<(), AllocError>
    ensures bytes { OnOk result (out.new.items ≡ out.old.items ++ token_format.written token.now) }
    ensures has { OnOk result (token_format.has token.now ≡ true) }
{
    let bytes = token.bytes();
    out.push(bytes.len() as u8)?;
    out.extend_from_slice(bytes)
}

#[tactic(auto, unfolding(crate::specs::Parts::kept_format))]
fn put_kept(out: &mut Vec<u8>, kept: &Kept) -> Result<(), AllocError>
    requires { takes_token kept.now.command ≡ true }
    ensures bytes { OnOk result (out.new.items ≡ out.old.items ++ kept_format.written kept.now) }
    ensures has { OnOk result (kept_format.has kept.now ≡ true) }
{
    put_token(out, &kept.token)?;
    put_moment(out, kept.moment)?;
    put_flag(out, kept.marker)?;
    put_u64(out, kept.told)?;
    put_command(out, &kept.command)
}

pub(crate) fn put_all_kept(out: &mut Vec<u8>, all: &[Kept]) -> Result<(), AllocError>
    requires { AllByRecursion (λ kept. takes_token kept.command ≡ true) all.now }
    ensures bytes { OnOk result (out.new.items ≡ out.old.items ++ (list four kept_format).written all.now) }
    ensures has { OnOk result ((list four kept_format).has all.now ≡ true) }
{
    put_count(out, all.len())?;
    for kept in all {
        put_kept(out, kept)?;
    }
    Ok(())
}
