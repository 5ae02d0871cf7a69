// Posting the bills of a closed month.
ghost use Rattle.std.specs.Prelude.{◌≡◌, ◌≤◌, ◌⊎◌, ◌<◌, ◌+◌, ◌++◌, ◌^◌, List, length, take, decimal, false, Err};
ghost use Rattle.std.specs.Prelude.{IsTrue};
ghost use Rattle.moments.specs.Time.{end_of_time};
ghost use Rattle.office_base.specs.Faults.{Rose};
ghost use Rattle.office_types.specs.Fits.{AnswerFits};
ghost use Rattle.office_types.specs.Reports.{charges};
ghost use Rattle.bill_posting.specs.Bills.{bills_of};
ghost use Rattle.bill_posting.specs.declared.posting.PostFault.TheVariants.{KeeperFault};
ghost use Rattle.plain_office.specs.Office as plain;
ghost use Rattle.office_machine.specs.Once.{StandsFor};
ghost use Rattle.desk_core.specs.Histories.{IsSound};
ghost use Rattle.desk_core.specs.Opening.{Opens};
ghost use Rattle.office_commands.specs.Lines.{IsBillExit};
ghost use Rattle.office_commands.specs.Running.{journal_limit, around, IsPutOut, FailsToOpen};
ghost use Rattle.office_commands.specs.Running.{SaysNoReply, NotesNothing};
ghost use Rattle.office_commands.specs.Billing.{posting_words, receipt_line, billing};
ghost use Rattle.office_commands.specs.Billing.{EndsBilling, TellsPosting, PostsLines, PostsReply};
ghost use Rattle.office_commands.specs.Billing.{BillsBy, BillsMonth, Bills, MayBePosted, IsPostExit, IsPosted};

use crate::end::{End, JOURNAL_LIMIT};
use crate::lines::{
    KEEPER, MONTH_OPEN, OTHER_BILLS, keeper_line, note_line, open_month_line, other_bills_line, put,
};
use crate::running::{end_at_clock, first_moment, refuse};
use crate::saying::{run_out, say};
use bill_book::BillKeeper;
use bill_posting::{PostFault, Receipt, post_month};
use command_line::BillAsked;
use desk_core::{Clock, Desk};
use disk_core::Disk;
use http_front::Replies;
use moments::Month;
use office_types::{Query, Refusal, Reply, ReportLine};
use std::alloc::Global;

// How the printed line begins, for bills posted before or now.
fn beginning(before: bool) -> &'static [u8]
    ensures text { result.now ≡ posting_words before }
    ensures short { length result.now ≤ 15 }
{
    if before {
        b"already posted "
    } else {
        b"bills "
    }
}

// Writes a number at an index of the room, and returns the index after it.
fn put_number(room: &mut [u8], at: usize, number: u128) -> usize
    requires { at + 40 ≤ length room.old }
    ensures end { result ≡ at + length (decimal number) }
    ensures short { result ≤ at + 40 }
    ensures text { take (at + length (decimal number)) room.new ≡ take at room.old ++ decimal number }
{
    let mut buffer = itoa::Buffer::new();
    let digits = buffer.format(number).as_bytes();
    put(room, at, digits)
}

// Writes the line for a posted month into the room, and returns its length.
#[tactic(auto, unfolding(crate::specs::Billing::receipt_line))]
fn put_receipt(room: &mut [u8], receipt: &Receipt) -> usize
    requires { 120 ≤ length room.old }
    ensures small { result ≤ 120 }
    ensures line { take result room.new ≡ receipt_line receipt.now }
{
    let end = put(room, 0, beginning(receipt.before));
    let end = put_number(room, end, receipt.bills as u128);
    let end = put(room, end, b" total ");
    let end = put_number(room, end, receipt.total);
    put(room, end, b"\n")
}

// Prints what was posted, and returns the exit code. Takes no memory: the line is written into a room of its own.
fn say_receipt<W: Replies>(out: &mut W, receipt: &Receipt) -> u8
    ensures told { IsPutOut W.Replies (receipt_line receipt.now) out.old out.new result }
    ensures unsaid { SaysNoReply W.Replies out.old out.new }
    ensures later { W.faults out.old ≤ W.faults out.new }
    ensures statuses { (result ≡ 0) ⊎ (result ≡ 4) }
    ensures write_fault { result ≡ 4 → Rose (W.faults out.old) (W.faults out.new) }
    ensures unnoted { result ≡ 0 → NotesNothing W.Replies out.old out.new }
{
    let mut room = [0; 120];
    let size = put_receipt(&mut room, receipt);
    say(out, &room[..size])
}

// Notes why a month was not billed, and returns the exit code.
fn end_billing<W: Replies>(out: &mut W, status: u8, line: &[u8]) -> u8
    ensures ends { EndsBilling W.Replies status line.now out.old out.new result }
    ensures later { W.faults out.old ≤ W.faults out.new }
{
    note_line(out, line);
    status
}

// Prints the result of posting, and returns the exit code.
fn say_posting<W: Replies>(out: &mut W, posted: &Result<Receipt, PostFault>) -> u8
    ensures tells { TellsPosting W.Replies posted.now out.old out.new result }
    ensures unsaid { SaysNoReply W.Replies out.old out.new }
    ensures later { W.faults out.old ≤ W.faults out.new }
    ensures statuses { IsPostExit result }
    ensures write_fault { result ≡ 4 → Rose (W.faults out.old) (W.faults out.new) }
    ensures unnoted { result ≡ 0 → NotesNothing W.Replies out.old out.new }
    ensures keeper_fault { result ≡ 11 → posted.now ≡ Err KeeperFault }
    ensures done { result ≡ 0 → IsPosted posted.now }
{
    match posted {
        Ok(receipt) => say_receipt(out, receipt),
        Err(fault) => match fault {
            PostFault::OtherBills { .. } => end_billing(out, OTHER_BILLS, other_bills_line()),
            PostFault::KeeperFault => end_billing(out, KEEPER, keeper_line()),
            PostFault::NoMemory => run_out(out),
        },
    }
}

// Posts the bills of a report's lines, and prints the result.
fn post_lines<W: Replies, K: BillKeeper>(
    alloc: Global,
    out: &mut W,
    keeper: &mut K,
    month: Month,
    lines: &[ReportLine],
) -> u8
    requires total { charges lines.now < 2 ^ 128 }
    requires count { length lines.now < 2 ^ 32 }
    requires few { length (bills_of lines.now) ≤ 1_000 }
    ensures posts { PostsLines W.Replies K.BillKeeper lines.now (billing month keeper.old keeper.new)
        out.old out.new result }
    ensures unsaid { SaysNoReply W.Replies out.old out.new }
    ensures later { (W.faults out.old ≤ W.faults out.new) × (K.faults keeper.old ≤ K.faults keeper.new) }
    ensures statuses { IsPostExit result }
    ensures write_fault { result ≡ 4 → Rose (W.faults out.old) (W.faults out.new) }
    ensures unnoted { result ≡ 0 → NotesNothing W.Replies out.old out.new }
    ensures keeper_fault { result ≡ 11 → Rose (K.faults keeper.old) (K.faults keeper.new) }
    ensures keeper_done { result ≡ 0 → K.faults keeper.new ≡ K.faults keeper.old }
{
    let posted = post_month(alloc, keeper, month, lines);
    say_posting(out, &posted)
}

// Posts the bills of the office's reply to the query for the report, and prints the result.
fn post_reply<W: Replies, K: BillKeeper>(
    alloc: Global,
    out: &mut W,
    keeper: &mut K,
    month: Month,
    reply: &Result<Reply, Refusal>,
) -> u8
    requires of_month { MayBePosted reply.now }
    requires fits { AnswerFits reply.now }
    ensures posts { PostsReply W.Replies K.BillKeeper reply.now (billing month keeper.old keeper.new)
        out.old out.new result }
    ensures unsaid { SaysNoReply W.Replies out.old out.new }
    ensures later { (W.faults out.old ≤ W.faults out.new) × (K.faults keeper.old ≤ K.faults keeper.new) }
    ensures statuses { IsPostExit result }
    ensures write_fault { result ≡ 4 → Rose (W.faults out.old) (W.faults out.new) }
    ensures unnoted { result ≡ 0 → NotesNothing W.Replies out.old out.new }
    ensures keeper_fault { result ≡ 11 → Rose (K.faults keeper.old) (K.faults keeper.new) }
    ensures keeper_done { result ≡ 0 → K.faults keeper.new ≡ K.faults keeper.old }
{
    match reply {
        Ok(Reply::Report { lines }) => post_lines(alloc, out, keeper, month, lines.as_slice()),
        Ok(_) => unreachable!(),
        Err(refusal) => match refusal {
            Refusal::NoMemory => run_out(out),
            _ => unreachable!(),
        },
    }
}

// Bills a month with an open desk, as of a number that its clock gave before, and returns the exit code. The keeper is
// asked only if the month is closed.
fn bill_by<W: Replies, K: BillKeeper, D: Disk + Drop, C: Clock + Drop>(
    alloc: Global,
    out: &mut W,
    keeper: &mut K,
    desk: &Desk<D, C>,
    told: u64,
    month: Month,
) -> u8
    requires stands { (office : plain.Office) × StandsFor desk.now.office office }
    requires fresh { desk.now.stale ≡ false }
    requires begun { told < end_of_time }
    ensures bills { (office : plain.Office) → StandsFor desk.now.office office
        → BillsBy W.Replies K.BillKeeper office (billing month keeper.old keeper.new) told out.old out.new result }
    ensures unsaid { SaysNoReply W.Replies out.old out.new }
    ensures later { (W.faults out.old ≤ W.faults out.new) × (K.faults keeper.old ≤ K.faults keeper.new) }
    ensures statuses { (result ≡ 12) ⊎ IsPostExit result }
    ensures write_fault { result ≡ 4 → Rose (W.faults out.old) (W.faults out.new) }
    ensures unnoted { result ≡ 0 → NotesNothing W.Replies out.old out.new }
    ensures keeper_fault { result ≡ 11 → Rose (K.faults keeper.old) (K.faults keeper.new) }
    ensures keeper_done { result ≡ 0 → K.faults keeper.new ≡ K.faults keeper.old }
{
    if !desk.office().closed(month) {
        return end_billing(out, MONTH_OPEN, open_month_line());
    }
    let query = Query::Report(month);
    let reply = desk.look(told, &query);
    drop(query);
    let status = post_reply(alloc, out, keeper, month, &reply);
    drop(reply);
    status
}

// Bills a month with an open desk, and closes it.
fn bill_then_close<W: Replies, K: BillKeeper, D: Disk + Drop, C: Clock + Drop>(
    alloc: Global,
    out: &mut W,
    keeper: &mut K,
    desk: Desk<D, C>,
    told: u64,
    month: Month,
) -> End<D, C>
    requires opens { (disk : D) × (clock : C) × Opens D.Disk disk clock journal_limit desk }
    requires fresh { desk.stale ≡ false }
    requires begun { told < end_of_time }

    ensures bills { (disk : D) (clock : C) → Opens D.Disk disk clock journal_limit desk
        → BillsMonth D.Disk W.Replies K.BillKeeper (billing month keeper.old keeper.new) told
        (around disk clock out.old) (around result.disk result.clock out.new) result.status }
    ensures disk { result.disk ≡ desk.disk }
    ensures unsaid { SaysNoReply W.Replies out.old out.new }
    ensures later { (W.faults out.old ≤ W.faults out.new) × (K.faults keeper.old ≤ K.faults keeper.new) }
    ensures statuses { (result.status ≡ 12) ⊎ IsPostExit result.status }
    ensures write_fault { result.status ≡ 4 → Rose (W.faults out.old) (W.faults out.new) }
    ensures unnoted { result.status ≡ 0 → NotesNothing W.Replies out.old out.new }
    ensures keeper_fault { result.status ≡ 11 → Rose (K.faults keeper.old) (K.faults keeper.new) }
    ensures keeper_done { result.status ≡ 0 → K.faults keeper.new ≡ K.faults keeper.old }
{
    let status = bill_by(alloc, out, keeper, &desk, told, month);
    // The journal did not grow, so no checkpoint is saved.
    let (disk, clock, _) = desk.finish();
    End {
        status,
        disk,
        clock,
    }
}

// Opens the office, and bills a month.
fn work<W: Replies, K: BillKeeper, D: Disk + Drop, C: Clock + Drop>(
    alloc: Global,
    out: &mut W,
    keeper: &mut K,
    disk: D,
    clock: C,
    told: u64,
    month: Month,
) -> End<D, C>
    requires begun { told < end_of_time }

    ensures works { BillsMonth D.Disk W.Replies K.BillKeeper (billing month keeper.old keeper.new) told
        (around disk clock out.old) (around result.disk result.clock out.new) result.status
        ⊎ (FailsToOpen D.Disk C.Clock W.Replies (around disk clock out.old)
        (around result.disk result.clock out.new) result.status × (keeper.new ≡ keeper.old)) }
    ensures sound { IsTrue D.honest → IsSound (D.state disk) → result.status ≡ 5 → ⊥ }
    ensures unopened { result.status ≡ 5 → keeper.new ≡ keeper.old }
    ensures unsaid { SaysNoReply W.Replies out.old out.new }
    ensures later { (W.faults out.old ≤ W.faults out.new) × ((K.faults keeper.old ≤ K.faults keeper.new)
        × (D.fault_count disk ≤ D.fault_count result.disk)) }
    ensures statuses { IsBillExit result.status }
    ensures disk_fault { result.status ≡ 2 → Rose (D.fault_count disk) (D.fault_count result.disk) }
    ensures write_fault { result.status ≡ 4 → Rose (W.faults out.old) (W.faults out.new) }
    ensures only { (result.status ≡ 3 → ⊥) × ((result.status ≡ 7 → ⊥) × (result.status ≡ 9 → ⊥)) }
    ensures unnoted { result.status ≡ 0 → NotesNothing W.Replies out.old out.new }
    ensures keeper_fault { result.status ≡ 11 → Rose (K.faults keeper.old) (K.faults keeper.new) }
    ensures keeper_done { result.status ≡ 0 → K.faults keeper.new ≡ K.faults keeper.old }
{
    match Desk::open(alloc, disk, clock, JOURNAL_LIMIT) {
        Ok(desk) => bill_then_close(alloc, out, keeper, desk, told, month),
        Err((fault, disk, clock)) => refuse(out, fault, disk, clock),
    }
}

/// Does `bill`: asks the clock once, opens the office if that number is below the end of time, and posts the bills of a
/// closed month to a keeper.
///
/// It prints what was posted: `bills N total T`, or `already posted N total T` if the keeper had these bills. The bills
/// are those of the month's report. Nothing is written to the journal. If memory ran out (6), the keeper's book is as
/// before.
///
/// The exit code is 8 if the clock is at its end, 11 if the keeper failed, 12 if the month is not closed, and 13 if the
/// keeper has other bills of the month. If the keeper failed, or the text was lost (4), the month may have been posted,
/// whole and with these bills. It may be billed again.
pub fn bill<W: Replies, K: BillKeeper, D: Disk + Drop, C: Clock + Drop>(
    alloc: Global,
    out: &mut W,
    keeper: &mut K,
    disk: D,
    mut clock: C,
    asked: &BillAsked,
) -> End<D, C>
    ensures bills { Bills D.Disk C.Clock W.Replies K.BillKeeper (billing asked.now.month keeper.old keeper.new)
        (around disk clock out.old) (around result.disk result.clock out.new) result.status }
    ensures sound { IsTrue D.honest → IsSound (D.state disk) → result.status ≡ 5 → ⊥ }
    ensures unopened { (result.status ≡ 5) ⊎ (result.status ≡ 8) → keeper.new ≡ keeper.old }
    ensures unsaid { SaysNoReply W.Replies out.old out.new }
    ensures later { (W.faults out.old ≤ W.faults out.new) × ((K.faults keeper.old ≤ K.faults keeper.new)
        × (D.fault_count disk ≤ D.fault_count result.disk)) }
    ensures statuses { (result.status ≡ 8) ⊎ IsBillExit result.status }
    ensures disk_fault { result.status ≡ 2 → Rose (D.fault_count disk) (D.fault_count result.disk) }
    ensures write_fault { result.status ≡ 4 → Rose (W.faults out.old) (W.faults out.new) }
    ensures only { (result.status ≡ 3 → ⊥) × ((result.status ≡ 7 → ⊥) × (result.status ≡ 9 → ⊥)) }
    ensures unnoted { result.status ≡ 0 → NotesNothing W.Replies out.old out.new }
    ensures keeper_fault { result.status ≡ 11 → Rose (K.faults keeper.old) (K.faults keeper.new) }
    ensures keeper_done { result.status ≡ 0 → K.faults keeper.new ≡ K.faults keeper.old }
{
    let Some(told) = first_moment(&mut clock) else {
        return end_at_clock(out, disk, clock);
    };
    work(alloc, out, keeper, disk, clock, told.ms(), asked.month)
}
