// The words that the office takes, as a command of clap.
ghost use Rattle.std.specs.Prelude.{◌≡◌, IfOk, false};
ghost use Rattle.clap.specs.Walk.{rule_of};
ghost use Rattle.clap.specs.Simple.{App, new_shape, with_subcommand};
ghost use Rattle.command_line.specs.Words.{option, needed_option, needed_word, flag};
ghost use Rattle.command_line.specs.Words.{serve_words, report_words, explain_words};
ghost use Rattle.command_line.specs.Words.{gen_words, bill_words, forecast_words, alone};
ghost use Rattle.command_line.specs.Words.{office_top, office_words, IsWholeCommand, GetsOption, GetsSubcommand};

use clap::{Arg, ArgAction, Command};
use std::alloc::{AllocError, Global};

// An option with one value.
fn option<'a>(alloc: Global, name: &'a str) -> Arg<'a>
    ensures rule { rule_of result ≡ option name.entry.now }
    ensures local { result.global ≡ false }
{
    Arg::new(alloc, name).long(name).action(ArgAction::Set)
}

// An option that must be given.
fn needed_option<'a>(alloc: Global, name: &'a str) -> Arg<'a>
    ensures rule { rule_of result ≡ needed_option name.entry.now }
    ensures local { result.global ≡ false }
{
    option(alloc, name).required(true)
}

// A word that must be given, at its position.
fn needed_word<'a>(alloc: Global, name: &'a str) -> Arg<'a>
    ensures rule { rule_of result ≡ needed_word name.entry.now }
    ensures local { result.global ≡ false }
{
    Arg::new(alloc, name).action(ArgAction::Set).required(true)
}

// An option without a value.
fn flag<'a>(alloc: Global, name: &'a str) -> Arg<'a>
    ensures rule { rule_of result ≡ flag name.entry.now }
    ensures local { result.global ≡ false }
{
    Arg::new(alloc, name).long(name).action(ArgAction::SetTrue)
}

// A subcommand without options.
fn bare<'a>(alloc: Global, name: &'a str) -> Command<'a>
    ensures { IsWholeCommand (alone (new_shape name.entry.now)) result }
{
    Command::new(alloc, name)
}

// Adds an option.
fn with_option<'a>(command: Command<'a>, arg: Arg<'a>) -> Result<Command<'a>, AllocError>
    requires { arg.global ≡ false }
    ensures { IfOk result (GetsOption command.entry arg.entry) }
{
    command.arg(arg)
}

// Adds a subcommand.
fn with_subcommand<'a>(command: Command<'a>, sub: Command<'a>) -> Result<Command<'a>, AllocError>
    ensures { IfOk result (GetsSubcommand command.entry sub.entry) }
{
    command.subcommand(sub)
}

// Adds a subcommand, if there was memory to make it.
fn with_made<'a>(
    command: Command<'a>,
    sub: Result<Command<'a>, AllocError>,
) -> Result<Command<'a>, AllocError>
    ensures { (app below : App) → IsWholeCommand app command.entry → IfOk sub.entry (IsWholeCommand below)
        → IfOk result (IsWholeCommand (with_subcommand app below.top)) }
{
    match sub {
        Ok(sub) => with_subcommand(command, sub),
        Err(e) => {
            drop(command);
            Err(e)
        }
    }
}

// `serve --listen ADDRESS [--workers N] [--connections K]`.
fn serve<'a>(alloc: Global) -> Result<Command<'a>, AllocError>
    ensures { IfOk result (IsWholeCommand (alone serve_words)) }
{
    let command = with_option(bare(alloc, "serve"), needed_option(alloc, "listen"))?;
    let command = with_option(command, option(alloc, "workers"))?;
    with_option(command, option(alloc, "connections"))
}

// `report MONTH [--text]`.
fn report<'a>(alloc: Global) -> Result<Command<'a>, AllocError>
    ensures { IfOk result (IsWholeCommand (alone report_words)) }
{
    let command = with_option(bare(alloc, "report"), needed_word(alloc, "month"))?;
    with_option(command, flag(alloc, "text"))
}

// `explain [--workers N]`.
fn explain<'a>(alloc: Global) -> Result<Command<'a>, AllocError>
    ensures { IfOk result (IsWholeCommand (alone explain_words)) }
{
    with_option(bare(alloc, "explain"), option(alloc, "workers"))
}

// `gen NUMBER COUNT`.
fn generate<'a>(alloc: Global) -> Result<Command<'a>, AllocError>
    ensures { IfOk result (IsWholeCommand (alone gen_words)) }
{
    let command = with_option(bare(alloc, "gen"), needed_word(alloc, "number"))?;
    with_option(command, needed_word(alloc, "count"))
}

// `bill MONTH`.
fn bill<'a>(alloc: Global) -> Result<Command<'a>, AllocError>
    ensures { IfOk result (IsWholeCommand (alone bill_words)) }
{
    with_option(bare(alloc, "bill"), needed_word(alloc, "month"))
}

// `forecast BUCKET DATE`.
fn forecast<'a>(alloc: Global) -> Result<Command<'a>, AllocError>
    ensures { IfOk result (IsWholeCommand (alone forecast_words)) }
{
    let command = with_option(bare(alloc, "forecast"), needed_word(alloc, "bucket"))?;
    with_option(command, needed_word(alloc, "date"))
}

// The command without its subcommands.
fn top<'a>(alloc: Global) -> Command<'a>
    ensures { IsWholeCommand office_top result }
{
    Command::new(alloc, "office")
        .no_binary_name(true)
        .disable_help_flag(true)
        .disable_help_subcommand(true)
        .disable_version_flag(true)
        .subcommand_required(true)
}

/// Builds the command that the office reads.
pub(crate) fn office<'a>(alloc: Global) -> Result<Command<'a>, AllocError>
    ensures { IfOk result (IsWholeCommand office_words) }
{
    let command = with_subcommand(top(alloc), bare(alloc, "init"))?;
    let command = with_subcommand(command, bare(alloc, "run"))?;
    let command = with_made(command, serve(alloc))?;
    let command = with_made(command, report(alloc))?;
    let command = with_made(command, explain(alloc))?;
    let command = with_made(command, generate(alloc))?;
    let command = with_made(command, bill(alloc))?;
    with_made(command, forecast(alloc))
}
