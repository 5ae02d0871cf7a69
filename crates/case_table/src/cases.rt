// The cases of a document. README.md says what each name means.
use anyhow::{Context, Result, bail};
use moments::read_date;
use std::alloc::Global;
use toml::Value;
use toml::value::{Datetime, Offset};

/// The contents of a document.
#[derive(Drop)]
pub struct Document {
    pub case: Vec<Case>,
}

/// What is done over one disk, in the order of the fields.
#[derive(Drop)]
pub struct Case {
    pub name: String,
    /// The journal file at the start: `made`, or its bytes in hexadecimal digits; if it is missing, the file has no
    /// bytes.
    pub journal: Option<String>,
    /// The numbers of the disk's calls that fail, counted from 1. Call 1 writes the journal file.
    pub failing: Vec<u64>,
    /// The sizes of the pieces in which input comes, in bytes. The whole case is done once for each.
    pub cuts: Vec<usize>,
    pub write: Vec<Write>,
    pub step: Vec<Step>,
    pub command: Vec<Command>,
    /// The months for which the keeper of bills has an empty list at the start. A call posts each of them.
    pub kept_months: Vec<String>,
    /// The numbers of the calls of the keeper of bills that fail, counted from 1 over all commands.
    pub failing_keeper: Vec<u64>,
    /// Whether the bytes of the journal file are printed at the end.
    pub shown: bool,
    pub stops: Option<Stops>,
}

/// A write to the journal file by another hand.
#[derive(Drop)]
pub struct Write {
    /// The offset, in bytes.
    pub at: u64,
    /// The bytes, in hexadecimal digits.
    pub bytes: String,
    /// Whether the file is synced before.
    pub synced: bool,
}

/// A message of a session.
#[derive(Drop)]
pub struct Step {
    /// The number that the clock gives.
    pub at: Value,
    /// The method and the target.
    pub ask: String,
    /// The value of a header field Office-Token.
    pub token: Option<String>,
    pub body: Option<String>,
    /// The first and the last of the numbers for which the message is sent. Each replaces `{n}` in the message.
    pub numbers: Option<[u64; 2]>,
}

/// One command of the program.
#[derive(Drop)]
pub struct Command {
    pub words: Vec<String>,
    /// The numbers that the clock gives; it repeats the last one.
    pub clock: Vec<Value>,
    pub input: Option<String>,
    /// How many spaces come before the input.
    pub spaces: usize,
    /// The numbers of the reads of the input that fail, counted from 1.
    pub failing_reads: Vec<u64>,
    /// The numbers of the replies and other texts whose writing fails, counted from 1.
    pub failing_texts: Vec<u64>,
    /// What the clients of the connections send: one text for each connection.
    pub connections: Vec<String>,
    /// The numbers of the port's calls that fail, counted from 1. Call 1 is the one that listens.
    pub failing_port: Vec<u64>,
}

/// Stops of the disk: what a message is answered over each crash image of the journal file.
#[derive(Drop)]
pub struct Stops {
    /// The disk stops after each number of calls from the first of these to the second.
    pub calls: [u64; 2],
    /// The number that the clock gives.
    pub at: Value,
    /// The method and the target.
    pub ask: String,
}

/// The bytes that pairs of hexadecimal digits spell; spaces are ignored.
pub fn bytes_of(alloc: Global, digits: &str) -> Result<Vec<u8>> {
    let close = digits.replace(alloc, " ", "")?;
    hex::decode(alloc, close.as_str()).context("hexadecimal digits")
}

/// Reads a number of the clock: a TOML moment in UTC, a number of milliseconds since 1970, or a text of its digits.
pub fn number_of(alloc: Global, value: &Value) -> Result<u64> {
    match value {
        Value::Datetime(moment) => milliseconds(alloc, moment),
        Value::Integer(number) => u64::try_from(*number).context("a number below 0"),
        Value::String(digits) => digits.as_str().parse::<u64>().context("digits"),
        _ => bail!("what the clock tells is no moment"),
    }
}

fn milliseconds(alloc: Global, moment: &Datetime) -> Result<u64> {
    let (Some(date), Some(time), Some(Offset::Z)) = (moment.date, moment.time, moment.offset) else {
        bail!("a moment has a date, a time and the offset Z");
    };
    let day = format!(in alloc; "{:04}-{:02}-{:02}", date.year, date.month, date.day)?;
    let Ok(midnight) = read_date(day.as_str()) else {
        bail!("{day} is not before 2100");
    };
    let seconds = since_midnight(time.hour, time.minute, time.second.unwrap_or(0));
    let thousandths = u64::from(time.nanosecond.unwrap_or(0)) / 1_000_000;
    Ok(
        midnight
            .ms()
            .saturating_add(seconds.saturating_mul(1000))
            .saturating_add(thousandths),
    )
}

// The seconds since a midnight.
fn since_midnight(hour: u8, minute: u8, second: u8) -> u64 {
    (hour as u64 * 60 + minute as u64) * 60 + second as u64
}
