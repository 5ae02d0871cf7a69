// What is kept of commands with a token.
ghost use Rattle.std.specs.Prelude.{◌≡◌, IfOk};
ghost use Rattle.std.specs.List.{list_all, list_any};
ghost use Rattle.std.specs.Str.{bytes_eq};
ghost use Rattle.office_types.specs.Tokens.{takes_token};
ghost use Rattle.restorable.specs.Tests.{is_kept, tokens_differ, are_kept};

use office_base::NoMemory;
use office_types::{Command, Kept, Token, marker_told, number_told};

// The most replies that are kept.
const MOST_KEPT: usize = 10_000;

// Whether the command may carry a token.
fn does_take_token(command: &Command) -> bool
    ensures { result ≡ takes_token command.now }
{
    match command {
        Command::SetRules { .. } | Command::Act { .. } | Command::SetTariff { .. } => false,
        _ => true,
    }
}

fn is_kept(kept: &Kept) -> Result<bool, NoMemory>
    ensures { IfOk result (λ yes. yes ≡ is_kept kept.now) }
{
    if !does_take_token(&kept.command) {
        return Ok(false);
    }
    let reply = kept.reply()?;
    Ok(kept.marker == marker_told(&reply) && kept.told == number_told(&reply))
}

fn is_each_kept(all: &[Kept]) -> Result<bool, NoMemory>
    ensures { IfOk result (λ yes. yes ≡ list_all is_kept all.now) }
{
    for kept in all {
        if !is_kept(kept)? {
            return Ok(false);
        }
    }
    Ok(true)
}

fn is_same(a: &Token, b: &Token) -> bool
    ensures { result ≡ bytes_eq a.now b.now }
{
    a == b
}

fn has_token(token: &Token, all: &[Kept]) -> bool
    ensures { result ≡ list_any (λ other. bytes_eq token.now other.token) all.now }
{
    all.iter().any(|other| is_same(token, &other.token))
}

// Whether no two kept replies have the same token.
fn do_tokens_differ(all: &[Kept]) -> bool
    ensures { result ≡ tokens_differ all.now }
{
    for i in 0..all.len() {
        if has_token(&all[i].token, &all[i + 1..]) {
            return false;
        }
    }
    true
}

// Whether they are replies that an office may keep.
pub(crate) fn are_kept(all: &[Kept]) -> Result<bool, NoMemory>
    ensures { IfOk result (λ yes. yes ≡ are_kept all.now) }
{
    if all.len() > MOST_KEPT {
        return Ok(false);
    }
    if !is_each_kept(all)? {
        return Ok(false);
    }
    Ok(do_tokens_differ(all))
}
