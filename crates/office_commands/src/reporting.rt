// Printing the report of a month.
ghost use Rattle.std.specs.Prelude.{◌≡◌, ◌≤◌, ◌⊎◌, ◌<◌, ◌^◌, List, false, Ok, IfOk, IsTrue};
ghost use Rattle.moments.specs.Time.{end_of_time};
ghost use Rattle.office_base.specs.Faults.{Rose};
ghost use Rattle.office_types.specs.Fits.{AnswerFits};
ghost use Rattle.office_types.specs.declared.command.Entry.{Entry};
ghost use Rattle.office_types.specs.declared.reply.Reply.TheVariants as report_of;
ghost use Rattle.office_types.specs.Reports.{charges};
ghost use Rattle.desk_core.specs.Histories.{IsSound};
ghost use Rattle.desk_core.specs.Opening.{Opens};
ghost use Rattle.office_commands.specs.Lines.{tariff_note, IsReportExit};
ghost use Rattle.office_commands.specs.Running.{journal_limit, around, IsNoted, IsSilent, RunsOut, FailsToOpen};
ghost use Rattle.office_commands.specs.Running.{SaysNoReply, NotesNothing};
ghost use Rattle.office_commands.specs.Reporting.{report_bytes, IsReportReply, TellsReport, TellsMonth, Reports};

use crate::end::{End, JOURNAL_LIMIT};
use crate::lines::{NO_TARIFF, note_line, tariff_line};
use crate::running::{end_at_clock, first_moment, refuse};
use crate::saying::{run_out, say};
use command_line::ReportAsked;
use desk_core::{Clock, Desk};
use disk_core::Disk;
use http_front::Replies;
use moments::Month;
use office_base::NoMemory;
use office_types::{Query, Refusal, Reply, ReportLine};
use std::alloc::Global;
use usage_report::{report_csv, report_text};

fn print(alloc: Global, lines: &[ReportLine], as_text: bool) -> Result<Vec<u8>, NoMemory>
    requires { charges lines.now < 2 ^ 128 }
    ensures { IfOk result (λ v. v.items ≡ report_bytes as_text lines.now) }
{
    if as_text {
        report_text(alloc, lines)
    } else {
        report_csv(alloc, lines)
    }
}

// Notes that there is no tariff, and returns the exit code.
fn refuse_report<W: Replies>(out: &mut W) -> u8
    ensures told { (result ≡ 10) × IsSilent W.Replies out.old out.new
        × IsNoted W.Replies out.old out.new tariff_note }
    ensures later { W.faults out.old ≤ W.faults out.new }
{
    note_line(out, tariff_line());
    NO_TARIFF
}

// Prints the lines of a report, and returns the exit code.
fn say_lines<W: Replies>(alloc: Global, out: &mut W, lines: &[ReportLine], as_text: bool) -> u8
    requires fits { charges lines.now < 2 ^ 128 }
    ensures tells { TellsReport W.Replies as_text (Ok (report_of.Report lines.now)) out.old out.new result
        ⊎ RunsOut W.Replies out.old out.new result }
    ensures unsaid { SaysNoReply W.Replies out.old out.new }
    ensures later { W.faults out.old ≤ W.faults out.new }
    ensures statuses { (result ≡ 0) ⊎ ((result ≡ 4) ⊎ (result ≡ 6)) }
    ensures write_fault { result ≡ 4 → Rose (W.faults out.old) (W.faults out.new) }
    ensures unnoted { result ≡ 0 → NotesNothing W.Replies out.old out.new }
{
    match print(alloc, lines, as_text) {
        Ok(text) => say(out, &text),
        Err(_) => run_out(out),
    }
}

// Prints the office's reply, and returns the exit code.
fn say_reply<W: Replies>(
    alloc: Global,
    out: &mut W,
    reply: &Result<Reply, Refusal>,
    as_text: bool,
) -> u8
    requires of_report { IsReportReply reply.now }
    requires fits { AnswerFits reply.now }
    ensures tells { TellsReport W.Replies as_text reply.now out.old out.new result
        ⊎ RunsOut W.Replies out.old out.new result }
    ensures unsaid { SaysNoReply W.Replies out.old out.new }
    ensures later { W.faults out.old ≤ W.faults out.new }
    ensures statuses { (result ≡ 10) ⊎ ((result ≡ 0) ⊎ ((result ≡ 4) ⊎ (result ≡ 6))) }
    ensures write_fault { result ≡ 4 → Rose (W.faults out.old) (W.faults out.new) }
    ensures unnoted { result ≡ 0 → NotesNothing W.Replies out.old out.new }
{
    match reply {
        Ok(Reply::Report { lines }) => say_lines(alloc, out, lines.as_slice(), as_text),
        Ok(_) => unreachable!(),
        Err(refusal) => match refusal {
            Refusal::NoTariff => refuse_report(out),
            Refusal::NoMemory => run_out(out),
            _ => unreachable!(),
        },
    }
}

// Prints the report of an open desk, as of a number that its clock gave before.
fn say_report<W: Replies, D: Disk + Drop, C: Clock + Drop>(
    alloc: Global,
    out: &mut W,
    desk: Desk<D, C>,
    told: u64,
    month: Month,
    as_text: bool,
) -> End<D, C>
    requires opens { (disk : D) × (clock : C)
        × Opens D.Disk disk clock journal_limit desk }
    requires fresh { desk.stale ≡ false }
    requires begun { told < end_of_time }

    ensures tells { (disk : D) (clock : C)
        → Opens D.Disk disk clock journal_limit desk
        → TellsMonth D.Disk W.Replies month as_text told (around disk clock out.old)
        (around result.disk result.clock out.new) result.status }
    ensures disk { result.disk ≡ desk.disk }
    ensures unsaid { SaysNoReply W.Replies out.old out.new }
    ensures later { W.faults out.old ≤ W.faults out.new }
    ensures statuses { (result.status ≡ 10)
        ⊎ ((result.status ≡ 0) ⊎ ((result.status ≡ 4) ⊎ (result.status ≡ 6))) }
    ensures write_fault { result.status ≡ 4 → Rose (W.faults out.old) (W.faults out.new) }
    ensures unnoted { result.status ≡ 0 → NotesNothing W.Replies out.old out.new }
{
    let query = Query::Report(month);
    let reply = desk.look(told, &query);
    drop(query);
    // The journal did not grow, so no checkpoint is saved.
    let (disk, clock, _) = desk.finish();
    let status = say_reply(alloc, out, &reply, as_text);
    drop(reply);
    End {
        status,
        disk,
        clock,
    }
}

// Opens the office, and prints the report.
fn work<W: Replies, D: Disk + Drop, C: Clock + Drop>(
    alloc: Global,
    out: &mut W,
    disk: D,
    clock: C,
    told: u64,
    month: Month,
    as_text: bool,
) -> End<D, C>
    requires begun { told < end_of_time }

    ensures works { TellsMonth D.Disk W.Replies month as_text told (around disk clock out.old)
        (around result.disk result.clock out.new) result.status
        ⊎ FailsToOpen D.Disk C.Clock W.Replies (around disk clock out.old)
        (around result.disk result.clock out.new) result.status }
    ensures sound { IsTrue D.honest → IsSound (D.state disk) → result.status ≡ 5 → ⊥ }
    ensures unsaid { SaysNoReply W.Replies out.old out.new }
    ensures later { (W.faults out.old ≤ W.faults out.new) × (D.fault_count disk ≤ D.fault_count result.disk) }
    ensures statuses { IsReportExit result.status }
    ensures disk_fault { result.status ≡ 2 → Rose (D.fault_count disk) (D.fault_count result.disk) }
    ensures write_fault { result.status ≡ 4 → Rose (W.faults out.old) (W.faults out.new) }
    ensures only { (result.status ≡ 3 → ⊥) × ((result.status ≡ 7 → ⊥) × (result.status ≡ 9 → ⊥)) }
    ensures unnoted { result.status ≡ 0 → NotesNothing W.Replies out.old out.new }
{
    match Desk::open(alloc, disk, clock, JOURNAL_LIMIT) {
        Ok(desk) => say_report(alloc, out, desk, told, month, as_text),
        Err((fault, disk, clock)) => refuse(out, fault, disk, clock),
    }
}

/// Does `report`: asks the clock once, and prints what the month costs if that number is below the end of time.
///
/// The report is as of that number, in milliseconds, or of the last accepted command if that is later. Nothing is
/// written to the journal. The exit code is 8 if the clock is at its end, and 10 if no tariff is set.
pub fn report<W: Replies, D: Disk + Drop, C: Clock + Drop>(
    alloc: Global,
    out: &mut W,
    disk: D,
    mut clock: C,
    asked: &ReportAsked,
) -> End<D, C>
    ensures reports { Reports D.Disk C.Clock W.Replies asked.now.month asked.now.as_text (around disk clock out.old)
        (around result.disk result.clock out.new) result.status }
    ensures sound { IsTrue D.honest → IsSound (D.state disk) → result.status ≡ 5 → ⊥ }
    ensures unsaid { SaysNoReply W.Replies out.old out.new }
    ensures later { (W.faults out.old ≤ W.faults out.new) × (D.fault_count disk ≤ D.fault_count result.disk) }
    ensures statuses { (result.status ≡ 8) ⊎ IsReportExit result.status }
    ensures disk_fault { result.status ≡ 2 → Rose (D.fault_count disk) (D.fault_count result.disk) }
    ensures write_fault { result.status ≡ 4 → Rose (W.faults out.old) (W.faults out.new) }
    ensures only { (result.status ≡ 3 → ⊥) × ((result.status ≡ 7 → ⊥) × (result.status ≡ 9 → ⊥)) }
    ensures unnoted { result.status ≡ 0 → NotesNothing W.Replies out.old out.new }
{
    let Some(told) = first_moment(&mut clock) else {
        return end_at_clock(out, disk, clock);
    };
    work(
        alloc,
        out,
        disk,
        clock,
        told.ms(),
        asked.month,
        asked.as_text,
    )
}
