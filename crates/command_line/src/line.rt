// What a command line asks for.
ghost use Rattle.std.specs.Prelude.{◌≡◌, ◌≢◌, Some, None, ◌≤◌, IfOk, IfSome, IsErrOf, map, string_bytes, option_map};
ghost use Rattle.std.specs.Prelude.{option_and_then};
ghost use Rattle.command_line.specs.Lines.{asked, asked_by, subcommand_line, line_of, options_of, serve_of, report_of};
ghost use Rattle.command_line.specs.Lines.{explain_of, gen_of, bill_of, forecast_of, month_of_text, midnight_of_text};
ghost use Rattle.command_line.specs.Lines.{bucket_of_text, is_set, number_between};

use crate::numbers::{number, number_of};
use crate::words::office;
use clap::ArgMatches;
use clap::error::ErrorKind;
use moments::{Moment, Month, read_date, read_month};
use office_base::{BucketName, NameRefusal};
use std::alloc::{AllocError, Global};
use std::fmt::{self, Debug, Formatter, Write};

/// The most workers that serve.
const MOST_WORKERS: u32 = 64;

/// The number of workers if the words name none. Own rule: a small machine has as many processors.
const WORKERS: u32 = 4;

/// The most commands of a load. Own rule: a journal keeps as many.
const MOST_COMMANDS: u64 = 1_000_000;

/// The most connections of a worker, and the default. Own rule: no worker serves as many in practice.
const CONNECTIONS: u32 = u32::MAX;

/// What a command line asks for.
#[derive(Debug, Drop)]
pub enum CommandLine {
    /// Make the journal, unless it is made: `init`.
    Init,
    /// Answer the messages of the input: `run`.
    Run,
    /// Answer the messages of connections: `serve --listen ADDRESS [--workers N] [--connections K]`.
    Serve {
        /// The address to listen on, as it was written.
        listen: String,
        /// How many workers serve, from 1 to 64.
        workers: u32,
        /// After how many connections each worker ends, at least 1.
        connections: u32,
    },
    /// What a month costs: `report MONTH [--text]`.
    Report(ReportAsked),
    /// The table of stays: `explain [--workers N]`.
    Explain {
        /// How many workers make it, from 1 to 64.
        workers: u32,
    },
    /// A reproducible load: `gen NUMBER COUNT`.
    Gen {
        /// The seed from which it is generated.
        number: u64,
        /// The number of its commands, at most 1,000,000.
        count: u32,
    },
    /// The bills of a closed month, posted: `bill MONTH`.
    Bill(BillAsked),
    /// What a configuration would do to a bucket by a day: `forecast BUCKET DATE`.
    Forecast(ForecastAsked),
}

/// Which report a command line asks for.
#[derive(Debug, Drop)]
pub struct ReportAsked {
    pub month: Month,
    /// Whether it is a table to read; otherwise it is CSV.
    pub as_text: bool,
}

/// Which bills a command line asks for.
#[derive(Debug, Drop)]
pub struct BillAsked {
    pub month: Month,
}

/// Which forecast a command line asks for.
#[derive(Drop)]
pub struct ForecastAsked {
    /// The bucket that would get the configuration.
    pub bucket: BucketName,
    /// The midnight up to which it is forecast.
    pub day: Moment,
}

impl Debug for ForecastAsked {
    fn fmt<W: Write>(&self, f: &mut Formatter<W>) -> fmt::Result {
        f.debug_struct("ForecastAsked")
            .field("bucket", &self.bucket.text())
            .field("day", &self.day)
            .finish()
    }
}

/// Why words were not read.
#[derive(Clone, Copy, Debug, PartialEq, Eq)]
pub enum LineFault {
    /// They are not a command line.
    NotALine,
    /// Memory ran out.
    NoMemory,
}

impl From<AllocError> for LineFault {
    ghost use Rattle.std.specs.Prelude.{◌≡◌};
    ghost use Rattle.command_line.specs.declared.line.LineFault.TheVariants.{NoMemory};

    ghost from_gives = { λ _ e. e ≡ NoMemory };

    fn from(_e: AllocError) -> LineFault {
        LineFault::NoMemory
    }
}

/// Reads the words after the program's name.
///
/// # Errors
///
/// `NotALine`: they are not a command line. `NoMemory`: memory ran out before that was known.
pub fn read_line(alloc: Global, words: &[String]) -> Result<CommandLine, LineFault>
    ensures read { IfOk result (λ line. asked (map string_bytes words.now) ≡ Some (line_of line)) }
    ensures refused { IsErrOf result LineFault.NotALine → asked (map string_bytes words.now) ≡ None }
{
    match office(alloc)?.try_get_matches_from(words) {
        Ok(matches) => command(alloc, &matches),
        Err(error) => Err(fault(error.kind())),
    }
}

// Why clap did not read the words.
fn fault(kind: ErrorKind) -> LineFault
    ensures { result ≡ LineFault.NotALine → kind ≢ ErrorKind.OutOfMemory }
{
    if kind == ErrorKind::OutOfMemory {
        return LineFault::NoMemory;
    }
    LineFault::NotALine
}

// What the words that clap read ask for.
fn command(alloc: Global, matches: &ArgMatches) -> Result<CommandLine, LineFault>
    ensures read { IfOk result (λ line. asked_by matches.now ≡ Some (line_of line)) }
    ensures refused { IsErrOf result LineFault.NotALine → asked_by matches.now ≡ None }
{
    match matches.subcommand() {
        Some((name, given)) => named(alloc, name, given),
        None => Err(LineFault::NotALine),
    }
}

// What a subcommand asks for.
fn named(alloc: Global, name: &str, given: &ArgMatches) -> Result<CommandLine, LineFault>
    ensures read { IfOk result (λ line. subcommand_line (name.now, options_of given.now) ≡ Some (line_of line)) }
    ensures refused { IsErrOf result LineFault.NotALine → subcommand_line (name.now, options_of given.now) ≡ None }
{
    if name == "init" {
        return Ok(CommandLine::Init);
    }
    if name == "run" {
        return Ok(CommandLine::Run);
    }
    if name == "serve" {
        return serve(alloc, given);
    }
    if name == "report" {
        return report(given);
    }
    if name == "explain" {
        return explain(given);
    }
    if name == "gen" {
        return generate(given);
    }
    if name == "bill" {
        return bill(given);
    }
    if name == "forecast" {
        return forecast(alloc, given);
    }
    Err(LineFault::NotALine)
}

// The month that a text names.
fn month(text: &str) -> Option<Month>
    ensures { result ≡ month_of_text text.now }
{
    read_month(text).ok()
}

// Whether a flag was given, judging by what clap keeps for it.
fn is_set(text: Option<&str>) -> bool
    ensures { result ≡ is_set (option_map (λ t. t.now) text.entry) }
{
    match text {
        Some(text) => text == "true",
        None => false,
    }
}

// What the words of `bill` ask for.
fn bill(given: &ArgMatches) -> Result<CommandLine, LineFault>
    ensures read { IfOk result (λ line. bill_of (options_of given.now) ≡ Some (line_of line)) }
    ensures refused { IsErrOf result LineFault.NotALine → bill_of (options_of given.now) ≡ None }
{
    let Some(text) = given.get_str("month") else {
        return Err(LineFault::NotALine);
    };
    match month(text) {
        Some(month) => Ok(CommandLine::Bill(BillAsked { month })),
        None => Err(LineFault::NotALine),
    }
}

// The midnight that a text names.
fn midnight(text: &str) -> Option<Moment>
    ensures { result ≡ midnight_of_text text.now }
{
    read_date(text).ok()
}

// The name of a bucket that a text is.
fn bucket(alloc: Global, text: &str) -> Result<BucketName, LineFault>
    ensures read { IfOk result (λ name. bucket_of_text text.now ≡ Some name) }
    ensures refused { IsErrOf result LineFault.NotALine → bucket_of_text text.now ≡ None }
{
    match BucketName::read(alloc, text) {
        Ok(name) => Ok(name),
        Err(NameRefusal::BadBucketName) => Err(LineFault::NotALine),
        Err(_) => Err(LineFault::NoMemory),
    }
}

// What the words of `forecast` ask for.
fn forecast(alloc: Global, given: &ArgMatches) -> Result<CommandLine, LineFault>
    ensures read { IfOk result (λ line. forecast_of (options_of given.now) ≡ Some (line_of line)) }
    ensures refused { IsErrOf result LineFault.NotALine → forecast_of (options_of given.now) ≡ None }
{
    let Some(name) = given.get_str("bucket") else {
        return Err(LineFault::NotALine);
    };
    let Some(date) = given.get_str("date") else {
        return Err(LineFault::NotALine);
    };
    let Some(day) = midnight(date) else {
        return Err(LineFault::NotALine);
    };
    match bucket(alloc, name) {
        Ok(bucket) => Ok(CommandLine::Forecast(ForecastAsked { bucket, day })),
        Err(fault) => Err(fault),
    }
}

// What the words of `report` ask for.
fn report(given: &ArgMatches) -> Result<CommandLine, LineFault>
    ensures read { IfOk result (λ line. report_of (options_of given.now) ≡ Some (line_of line)) }
    ensures refused { IsErrOf result LineFault.NotALine → report_of (options_of given.now) ≡ None }
{
    let Some(text) = given.get_str("month") else {
        return Err(LineFault::NotALine);
    };
    let Some(month) = month(text) else {
        return Err(LineFault::NotALine);
    };
    Ok(CommandLine::Report(ReportAsked {
        month,
        as_text: is_set(given.get_str("text")),
    }))
}

// What the options of `explain` ask for.
fn explain(given: &ArgMatches) -> Result<CommandLine, LineFault>
    ensures read { IfOk result (λ line. explain_of (options_of given.now) ≡ Some (line_of line)) }
    ensures refused { IsErrOf result LineFault.NotALine → explain_of (options_of given.now) ≡ None }
{
    match number_of(given.get_str("workers"), WORKERS, MOST_WORKERS) {
        Some(workers) => Ok(CommandLine::Explain { workers }),
        None => Err(LineFault::NotALine),
    }
}

// The number from 0 to `most` that a word spells, if the word is there.
fn number_given(text: Option<&str>, most: u64) -> Option<u64>
    ensures exact { result ≡ option_and_then (number_between 0 most) (option_map (λ t. t.now) text.entry) }
    ensures within { IfSome result (λ n. n ≤ most) }
{
    match text {
        Some(text) => number(text, 0, most),
        None => None,
    }
}

// What the words of `gen` ask for.
fn generate(given: &ArgMatches) -> Result<CommandLine, LineFault>
    ensures read { IfOk result (λ line. gen_of (options_of given.now) ≡ Some (line_of line)) }
    ensures refused { IsErrOf result LineFault.NotALine → gen_of (options_of given.now) ≡ None }
{
    let Some(number) = number_given(given.get_str("number"), u64::MAX) else {
        return Err(LineFault::NotALine);
    };
    let Some(count) = number_given(given.get_str("count"), MOST_COMMANDS) else {
        return Err(LineFault::NotALine);
    };
    Ok(CommandLine::Gen {
        number,
        count: count as u32,
    })
}

// What the options of `serve` ask for.
fn serve(alloc: Global, given: &ArgMatches) -> Result<CommandLine, LineFault>
    ensures read { IfOk result (λ line. serve_of (options_of given.now) ≡ Some (line_of line)) }
    ensures refused { IsErrOf result LineFault.NotALine → serve_of (options_of given.now) ≡ None }
{
    let Some(listen) = given.get_str("listen") else {
        return Err(LineFault::NotALine);
    };
    let Some(workers) = number_of(given.get_str("workers"), WORKERS, MOST_WORKERS) else {
        return Err(LineFault::NotALine);
    };
    let Some(connections) = number_of(given.get_str("connections"), CONNECTIONS, CONNECTIONS) else {
        return Err(LineFault::NotALine);
    };
    Ok(CommandLine::Serve {
        listen: String::from_str(alloc, listen)?,
        workers,
        connections,
    })
}
