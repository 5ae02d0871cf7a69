// Forecasting what a configuration would do to a bucket, and what it would cost.
ghost use Rattle.std.specs.Prelude.{◌≡◌, ◌≤◌, ◌⊎◌, ◌<◌, ◌^◌, max, false, IsTrue};
ghost use Rattle.moments.specs.Months.{month_at};
ghost use Rattle.moments.specs.Time.{end_of_time};
ghost use Rattle.office_base.specs.Faults.{Rose};
ghost use Rattle.plain_office.specs.Office as plain;
ghost use Rattle.plain_office.specs.Run.{is_not_before};
ghost use Rattle.office_machine.specs.Once.{StandsFor};
ghost use Rattle.desk_core.specs.Calls.{moment_after};
ghost use Rattle.desk_core.specs.Histories.{IsSound};
ghost use Rattle.desk_core.specs.Opening.{Opens};
ghost use Rattle.forecast.specs.Forecasts.{Outlook};
ghost use Rattle.forecast.specs.Telling.{Foretells};
ghost use Rattle.forecast_text.specs.Tables.{forecast_text};
ghost use Rattle.http_front.specs.Counts.{stream_ends};
ghost use Rattle.office_commands.specs.Lines.{IsForecastExit};
ghost use Rattle.office_commands.specs.Running.{journal_limit, around, IsPutOut, RunsOut, FailsToOpen};
ghost use Rattle.office_commands.specs.Running.{SaysNoReply, NotesNothing};
ghost use Rattle.office_commands.specs.Forecasting.{proposal, IsForetoldExit, MayRefuse, MayFail, IsRefusalNumber};
ghost use Rattle.office_commands.specs.Forecasting.{RefusesForecast, TellsFailure};
ghost use Rattle.office_commands.specs.Forecasting.{TellsProposal, TellsFault, ForecastsBy};
ghost use Rattle.office_commands.specs.Forecasting.{ForecastsBucket, Forecasts};

use crate::configuration::{ConfigurationFault, fault_number, read_configuration};
use crate::end::{End, JOURNAL_LIMIT};
use crate::lines::{INPUT, REFUSED, end_line, note_line, note_refused};
use crate::running::{end_at_clock, first_moment, refuse};
use crate::saying::{run_out, say};
use command_line::ForecastAsked;
use desk_core::{Clock, Desk};
use disk_core::Disk;
use forecast::{Forecast, ForecastFault};
use forecast_text::print_forecast;
use http_front::{Replies, SessionEnd};
use http_wire::Source;
use moments::{Moment, month_of};
use office_machine::Office;
use office_types::Refusal;
use rules_core::RuleSet;
use std::alloc::Global;

/// The number of a day that is before the moment of the forecast. Own rule.
const PAST_DAY: u64 = 140;

/// The number of a configuration that is too long, as of the body of a message. Own rule.
const TOO_LONG: u64 = 124;

// Notes why there is no forecast, and returns the exit code.
fn refuse_forecast<W: Replies>(out: &mut W, number: u64) -> u8
    ensures refuses { RefusesForecast W.Replies number out.old out.new result }
    ensures later { W.faults out.old ≤ W.faults out.new }
{
    note_refused(out, number);
    REFUSED
}

// Notes that the input failed, and returns the exit code.
fn end_at_input<W: Replies>(out: &mut W) -> u8
    ensures tells { TellsFault W.Replies ConfigurationFault.ReadFault out.old out.new result }
    ensures status { result ≡ 3 }
    ensures later { W.faults out.old ≤ W.faults out.new }
{
    note_line(out, end_line(SessionEnd::ReadFault, false));
    INPUT
}

// Notes why the input is not a configuration, and returns the exit code.
fn refuse_input<W: Replies>(out: &mut W, fault: &ConfigurationFault) -> u8
    ensures tells { TellsFault W.Replies fault.now out.old out.new result }
    ensures unsaid { SaysNoReply W.Replies out.old out.new }
    ensures later { W.faults out.old ≤ W.faults out.new }
    ensures statuses { (result ≡ 3) ⊎ ((result ≡ 6) ⊎ (result ≡ 14)) }
    ensures read_fault { result ≡ 3 → fault.now ≡ ConfigurationFault.ReadFault }
    ensures read_done { fault.now ≡ ConfigurationFault.ReadFault → result ≡ 3 }
{
    match fault {
        ConfigurationFault::TooLong => refuse_forecast(out, TOO_LONG),
        ConfigurationFault::Refused(fault) => refuse_forecast(out, fault_number(fault)),
        ConfigurationFault::ReadFault => end_at_input(out),
        ConfigurationFault::NoMemory => run_out(out),
    }
}

// The number of a refusal of a configuration.
fn refusal_number(refusal: &Refusal) -> u64
    requires { MayRefuse refusal.now }
    ensures { IsRefusalNumber refusal.now result }
{
    match refusal {
        Refusal::NoSuchBucket => 81,
        Refusal::Full { .. } => 90,
        _ => unreachable!(),
    }
}

// Notes why a forecast is not begun, and returns the exit code.
fn refuse_proposal<W: Replies>(out: &mut W, fault: &ForecastFault) -> u8
    requires { MayFail fault.now }
    ensures tells { TellsFailure W.Replies fault.now out.old out.new result }
    ensures unsaid { SaysNoReply W.Replies out.old out.new }
    ensures later { W.faults out.old ≤ W.faults out.new }
    ensures statuses { (result ≡ 6) ⊎ (result ≡ 14) }
{
    match fault {
        ForecastFault::PastDay { .. } => refuse_forecast(out, PAST_DAY),
        ForecastFault::Refused(refusal) => refuse_forecast(out, refusal_number(refusal)),
        ForecastFault::NoMemory => run_out(out),
    }
}

fn later(one: Moment, other: Moment) -> Moment
    ensures { result ≡ max one other }
{
    if one.ms() < other.ms() { other } else { one }
}

// The later of the clock's number and the last moment.
fn moment_for(told: Moment, last: Option<Moment>) -> Moment
    ensures same { result ≡ moment_after told last }
    ensures later { IsTrue (is_not_before last result) }
{
    match last {
        Some(last) => later(told, last),
        None => told,
    }
}

// Prints a forecast with the months from one moment to another, and returns the exit code.
fn say_forecast<W: Replies>(
    alloc: Global,
    out: &mut W,
    forecast: &mut Forecast,
    from: Moment,
    until: Moment,
) -> u8
    requires { forecast.old.first ≡ month_at from }
    ensures tells { (outlook : Outlook) → Foretells forecast.old outlook
        → IsPutOut W.Replies (forecast_text (record { first = month_at from; last = month_at until }) outlook)
        out.old out.new result
        ⊎ RunsOut W.Replies out.old out.new result }
    ensures unsaid { SaysNoReply W.Replies out.old out.new }
    ensures later { W.faults out.old ≤ W.faults out.new }
    ensures statuses { IsForetoldExit result }
    ensures write_fault { result ≡ 4 → Rose (W.faults out.old) (W.faults out.new) }
    ensures unnoted { result ≡ 0 → NotesNothing W.Replies out.old out.new }
{
    match print_forecast(alloc, forecast, month_of(from), month_of(until)) {
        Ok(text) => say(out, &text),
        Err(_) => run_out(out),
    }
}

// Prints what an office would do with a configuration, and returns the exit code.
fn propose<W: Replies>(
    alloc: Global,
    out: &mut W,
    office: &Office,
    t: Moment,
    asked: &ForecastAsked,
    rules: RuleSet,
) -> u8
    requires stands { (p : plain.Office) × StandsFor office.now p }
    requires later { IsTrue (is_not_before office.now.records.last t) }
    requires few { office.now.records.accepted ≤ 2 ^ 41 }
    ensures tells { (p : plain.Office) → StandsFor office.now p
        → TellsProposal W.Replies (proposal asked.now rules t) p out.old out.new result }
    ensures unsaid { SaysNoReply W.Replies out.old out.new }
    ensures later { W.faults out.old ≤ W.faults out.new }
    ensures statuses { IsForetoldExit result }
    ensures write_fault { result ≡ 4 → Rose (W.faults out.old) (W.faults out.new) }
    ensures unnoted { result ≡ 0 → NotesNothing W.Replies out.old out.new }
{
    match Forecast::begin(office, t, &asked.bucket, rules, asked.day) {
        Ok(mut forecast) => {
            let status = say_forecast(alloc, out, &mut forecast, t, asked.day);
            drop(forecast);
            status
        }
        Err(fault) => {
            let status = refuse_proposal(out, &fault);
            drop(fault);
            status
        }
    }
}

// Reads the input, prints the forecast of an open desk as of a number that its clock gave before, and returns the exit
// code.
fn foretell_by<S: Source, W: Replies, D: Disk + Drop, C: Clock + Drop>(
    alloc: Global,
    input: &mut S,
    out: &mut W,
    desk: &Desk<D, C>,
    told: Moment,
    asked: &ForecastAsked,
) -> u8
    requires stands { (office : plain.Office) × StandsFor desk.now.office office }
    requires fresh { desk.now.stale ≡ false }
    ensures forecasts { (office : plain.Office) → StandsFor desk.now.office office
        → ForecastsBy W.Replies office asked.now (stream_ends (S.left input.old) (S.left input.new)) told
        out.old out.new result }
    ensures unsaid { SaysNoReply W.Replies out.old out.new }
    ensures later { (S.faults input.old ≤ S.faults input.new) × (W.faults out.old ≤ W.faults out.new) }
    ensures statuses { (result ≡ 3) ⊎ IsForetoldExit result }
    ensures read_fault { result ≡ 3 → Rose (S.faults input.old) (S.faults input.new) }
    ensures read_done { (result ≡ 3 → ⊥) → S.faults input.new ≡ S.faults input.old }
    ensures write_fault { result ≡ 4 → Rose (W.faults out.old) (W.faults out.new) }
    ensures unnoted { result ≡ 0 → NotesNothing W.Replies out.old out.new }
{
    match read_configuration(alloc, input) {
        Ok(rules) => {
            let office = desk.office();
            let t = moment_for(told, office.last());
            propose(alloc, out, office, t, asked, rules)
        }
        Err(fault) => {
            let status = refuse_input(out, &fault);
            drop(fault);
            status
        }
    }
}

// Prints the forecast of an open desk, and closes it.
fn foretell_then_close<S: Source, W: Replies, D: Disk + Drop, C: Clock + Drop>(
    alloc: Global,
    input: &mut S,
    out: &mut W,
    desk: Desk<D, C>,
    told: Moment,
    asked: &ForecastAsked,
) -> End<D, C>
    requires opens { (disk : D) × (clock : C) × Opens D.Disk disk clock journal_limit desk }
    requires fresh { desk.stale ≡ false }
    ensures forecasts { (disk : D) (clock : C) → Opens D.Disk disk clock journal_limit desk
        → ForecastsBucket D.Disk W.Replies asked.now (stream_ends (S.left input.old) (S.left input.new)) told
        (around disk clock out.old) (around result.disk result.clock out.new) result.status }
    ensures disk { result.disk ≡ desk.disk }
    ensures unsaid { SaysNoReply W.Replies out.old out.new }
    ensures later { (S.faults input.old ≤ S.faults input.new) × (W.faults out.old ≤ W.faults out.new) }
    ensures statuses { (result.status ≡ 3) ⊎ IsForetoldExit result.status }
    ensures read_fault { result.status ≡ 3 → Rose (S.faults input.old) (S.faults input.new) }
    ensures read_done { (result.status ≡ 3 → ⊥) → S.faults input.new ≡ S.faults input.old }
    ensures write_fault { result.status ≡ 4 → Rose (W.faults out.old) (W.faults out.new) }
    ensures unnoted { result.status ≡ 0 → NotesNothing W.Replies out.old out.new }
{
    let status = foretell_by(alloc, input, out, &desk, told, asked);
    // The journal did not grow, so no checkpoint is saved.
    let (disk, clock, _) = desk.finish();
    End {
        status,
        disk,
        clock,
    }
}

// Opens the office, and prints the forecast.
fn work<S: Source, W: Replies, D: Disk + Drop, C: Clock + Drop>(
    alloc: Global,
    input: &mut S,
    out: &mut W,
    disk: D,
    clock: C,
    told: Moment,
    asked: &ForecastAsked,
) -> End<D, C>
    ensures works { ForecastsBucket D.Disk W.Replies asked.now (stream_ends (S.left input.old) (S.left input.new)) told
        (around disk clock out.old) (around result.disk result.clock out.new) result.status
        ⊎ (FailsToOpen D.Disk C.Clock W.Replies (around disk clock out.old)
        (around result.disk result.clock out.new) result.status × (input.new ≡ input.old)) }
    ensures sound { IsTrue D.honest → IsSound (D.state disk) → result.status ≡ 5 → ⊥ }
    ensures unopened { result.status ≡ 5 → input.new ≡ input.old }
    ensures unsaid { SaysNoReply W.Replies out.old out.new }
    ensures later { (S.faults input.old ≤ S.faults input.new) × ((W.faults out.old ≤ W.faults out.new)
        × (D.fault_count disk ≤ D.fault_count result.disk)) }
    ensures statuses { IsForecastExit result.status }
    ensures disk_fault { result.status ≡ 2 → Rose (D.fault_count disk) (D.fault_count result.disk) }
    ensures read_fault { result.status ≡ 3 → Rose (S.faults input.old) (S.faults input.new) }
    ensures read_done { (result.status ≡ 3 → ⊥) → S.faults input.new ≡ S.faults input.old }
    ensures write_fault { result.status ≡ 4 → Rose (W.faults out.old) (W.faults out.new) }
    ensures only { (result.status ≡ 7 → ⊥) × (result.status ≡ 9 → ⊥) }
    ensures unnoted { result.status ≡ 0 → NotesNothing W.Replies out.old out.new }
{
    match Desk::open(alloc, disk, clock, JOURNAL_LIMIT) {
        Ok(desk) => foretell_then_close(alloc, input, out, desk, told, asked),
        Err((fault, disk, clock)) => refuse(out, fault, disk, clock),
    }
}

/// Does `forecast`: asks the clock once, opens the office if that number is below the end of time, and reads a
/// lifecycle configuration from the input. It prints what the configuration would do to a bucket by a day, and what
/// that would cost.
///
/// The forecast is as of that number, or of the last accepted command if that is later. Nothing is written to the
/// journal, and the input is read only if the office was opened.
///
/// The exit code is 8 if the clock is at its end, 3 if a read of the input failed, and 14 if there is no forecast.
/// There is none if the input has more than 1,048,576 bytes or is not a configuration, the day is before the moment of
/// the forecast, or the office refuses the configuration.
pub fn foretell<S: Source, W: Replies, D: Disk + Drop, C: Clock + Drop>(
    alloc: Global,
    input: &mut S,
    out: &mut W,
    disk: D,
    mut clock: C,
    asked: &ForecastAsked,
) -> End<D, C>
    ensures forecasts { Forecasts D.Disk C.Clock W.Replies input.old input.new asked.now
        (stream_ends (S.left input.old) (S.left input.new))
        (around disk clock out.old) (around result.disk result.clock out.new) result.status }
    ensures sound { IsTrue D.honest → IsSound (D.state disk) → result.status ≡ 5 → ⊥ }
    ensures unopened { (result.status ≡ 5) ⊎ (result.status ≡ 8) → input.new ≡ input.old }
    ensures unsaid { SaysNoReply W.Replies out.old out.new }
    ensures later { (S.faults input.old ≤ S.faults input.new) × ((W.faults out.old ≤ W.faults out.new)
        × (D.fault_count disk ≤ D.fault_count result.disk)) }
    ensures statuses { (result.status ≡ 8) ⊎ IsForecastExit result.status }
    ensures disk_fault { result.status ≡ 2 → Rose (D.fault_count disk) (D.fault_count result.disk) }
    ensures read_fault { result.status ≡ 3 → Rose (S.faults input.old) (S.faults input.new) }
    ensures read_done { (result.status ≡ 3 → ⊥) → S.faults input.new ≡ S.faults input.old }
    ensures write_fault { result.status ≡ 4 → Rose (W.faults out.old) (W.faults out.new) }
    ensures only { (result.status ≡ 7 → ⊥) × (result.status ≡ 9 → ⊥) }
    ensures unnoted { result.status ≡ 0 → NotesNothing W.Replies out.old out.new }
{
    let Some(told) = first_moment(&mut clock) else {
        return end_at_clock(out, disk, clock);
    };
    work(alloc, input, out, disk, clock, told, asked)
}
