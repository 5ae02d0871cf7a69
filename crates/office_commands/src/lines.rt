// The exit codes of commands and the lines that they print.
ghost use Rattle.std.specs.Prelude.{false, ◌≡◌, ◌+◌, ◌≤◌, ◌++◌, length, take};
ghost use Rattle.http_front.specs.declared.answering.SessionEnd.TheVariants.{NoMemory};
ghost use Rattle.meter_journal.specs.declared.fault.OpenFault.TheVariants.{Damaged};
ghost use Rattle.office_commands.specs.Lines.{session_exit, fault_exit, made_line, usage_note};
ghost use Rattle.office_commands.specs.Lines.{clock_note, tariff_note, end_note, fault_note};
ghost use Rattle.office_commands.specs.Lines.{open_month_note, other_bills_note, keeper_note, refused_note};
ghost use Rattle.office_commands.specs.Running.{IsNoted, IsSilent};

use http_front::{Replies, SessionEnd};
use meter_journal::{Made, OpenFault};
use std::io::ErrorKind;

/// The exit code of words that are not a command line.
pub const USAGE: u8 = 1;

/// The exit code if memory ran out.
pub const MEMORY: u8 = 6;

/// The exit code if a text could not be written.
pub(crate) const OUTPUT: u8 = 4;

/// The exit code of a report without a tariff.
pub(crate) const NO_TARIFF: u8 = 10;

/// The exit code if the keeper of bills failed.
pub(crate) const KEEPER: u8 = 11;

/// The exit code of billing a month that is not closed.
pub(crate) const MONTH_OPEN: u8 = 12;

/// The exit code if other bills of the month are kept.
pub(crate) const OTHER_BILLS: u8 = 13;

/// The exit code if there is no forecast for a proposal.
pub(crate) const REFUSED: u8 = 14;

/// The exit code if the input failed.
pub(crate) const INPUT: u8 = 3;

/// The exit code if the clock is at its end.
pub(crate) const CLOCK_END: u8 = 8;

/// The exit code if a call of the disk failed.
pub const STORE: u8 = 2;

// The exit code of a run whose session ended so, with a desk that is then stale or not.
pub(crate) fn run_exit(end: SessionEnd, stale: bool) -> u8
    ensures { result ≡ session_exit end stale }
{
    match end {
        SessionEnd::WriteFault => OUTPUT,
        SessionEnd::ReadFault => INPUT,
        SessionEnd::Spent => 9,
        SessionEnd::NoMemory => if stale { STORE } else { MEMORY },
        SessionEnd::Ended => if stale { STORE } else { 0 },
    }
}

pub(crate) fn open_exit(fault: OpenFault) -> u8
    ensures status { result ≡ fault_exit fault }
    ensures some { result ≡ 0 → ⊥ }
{
    match fault {
        OpenFault::NotMade => 5,
        OpenFault::Foreign => 5,
        OpenFault::Damaged { .. } => 5,
        OpenFault::StoreFault => STORE,
        OpenFault::NoMemory => MEMORY,
    }
}

pub(crate) fn made_text(made: Made) -> &'static [u8]
    ensures { result.now ≡ made_line made }
{
    match made {
        Made::Now => b"made\n",
        Made::Before => b"already made\n",
    }
}

/// Gives the note on words that are not a command line. Takes no memory.
#[tactic(auto, unfolding(crate::specs::Lines::usage_note))]
pub fn usage() -> &'static [u8]
    ensures { result.now ≡ usage_note }
{
    b"usage: office init; run; serve --listen A [--workers N] [--connections K]; report MONTH [--text]; explain \
[--workers N]; gen NUMBER COUNT; bill MONTH; forecast BUCKET DATE\n"
}

#[tactic(auto, unfolding(crate::specs::Lines::clock_note))]
pub(crate) fn clock_line() -> &'static [u8]
    ensures { result.now ≡ clock_note }
{
    b"clock: at its end\n"
}

#[tactic(auto, unfolding(crate::specs::Lines::tariff_note))]
pub(crate) fn tariff_line() -> &'static [u8]
    ensures { result.now ≡ tariff_note }
{
    b"report: no tariff\n"
}

#[tactic(auto, unfolding(crate::specs::Lines::open_month_note))]
pub(crate) fn open_month_line() -> &'static [u8]
    ensures { result.now ≡ open_month_note }
{
    b"bill: month not closed\n"
}

#[tactic(auto, unfolding(crate::specs::Lines::other_bills_note))]
pub(crate) fn other_bills_line() -> &'static [u8]
    ensures { result.now ≡ other_bills_note }
{
    b"bill: other bills kept\n"
}

#[tactic(auto, unfolding(crate::specs::Lines::keeper_note))]
pub(crate) fn keeper_line() -> &'static [u8]
    ensures { result.now ≡ keeper_note }
{
    b"bills: failed\n"
}

/// Gives the note on a session that ended so, with a desk that is then stale or not; it is empty if all was done. Takes
/// no memory.
#[tactic(auto, unfolding(crate::specs::Lines::end_note))]
pub fn end_line(end: SessionEnd, stale: bool) -> &'static [u8]
    ensures { result.now ≡ end_note end stale }
{
    match end {
        SessionEnd::WriteFault => b"output: failed\n",
        SessionEnd::ReadFault => b"input: failed\n",
        SessionEnd::Spent => b"input: too long\n",
        SessionEnd::NoMemory => if stale {
            b"store: failed\n"
        } else {
            b"memory: refused\n"
        },
        SessionEnd::Ended => if stale { b"store: failed\n" } else { b"" },
    }
}

/// Notes a line, or nothing if it is empty. Takes no memory.
pub fn note_line<W: Replies>(out: &mut W, line: &[u8])
    ensures silent { IsSilent W.Replies out.old out.new }
    ensures noted { IsNoted W.Replies out.old out.new line.now }
    ensures later { W.faults out.old ≤ W.faults out.new }
{
    if !line.is_empty() {
        out.note(line);
    }
}

const DAMAGED: &[u8] = b"journal: damaged at ";

// Writes a text at an index of the room, and returns the index after it.
pub(crate) fn put(room: &mut [u8], at: usize, text: &[u8]) -> usize
    requires { at + length text.now ≤ length room.old }
    ensures end { result ≡ at + length text.now }
    ensures text { take (at + length text.now) room.new ≡ take at room.old ++ text.now }
{
    let end = at + text.len();
    room[at..end].copy_from_slice(text);
    end
}

// Writes the line of a damaged journal into the room, and returns its length.
#[tactic(auto, unfolding(crate::specs::Lines::fault_note))]
fn put_damage(room: &mut [u8], offset: u64) -> usize
    requires { 48 ≤ length room.old }
    ensures small { result ≤ 48 }
    ensures line { take result room.new ≡ fault_note (Damaged offset) }
{
    let mut buffer = itoa::Buffer::new();
    let digits = buffer.format(offset).as_bytes();
    let front = put(room, 0, DAMAGED);
    let end = put(room, front, digits);
    put(room, end, b"\n")
}

// Writes the line of a refused forecast into the room, and returns its length.
#[tactic(auto, unfolding(crate::specs::Lines::refused_note))]
fn put_refused(room: &mut [u8], number: u64) -> usize
    requires { 48 ≤ length room.old }
    ensures small { result ≤ 48 }
    ensures line { take result room.new ≡ refused_note number }
{
    let mut buffer = itoa::Buffer::new();
    let digits = buffer.format(number).as_bytes();
    let front = put(room, 0, b"forecast: refused ");
    let end = put(room, front, digits);
    put(room, end, b"\n")
}

// Notes that there is no forecast, for the reason with this number. Takes no memory.
pub(crate) fn note_refused<W: Replies>(out: &mut W, number: u64)
    ensures silent { IsSilent W.Replies out.old out.new }
    ensures noted { IsNoted W.Replies out.old out.new (refused_note number) }
    ensures later { W.faults out.old ≤ W.faults out.new }
{
    let mut room = [0; 48];
    let size = put_refused(&mut room, number);
    note_line(out, &room[..size]);
}

fn note_damage<W: Replies>(out: &mut W, offset: u64)
    ensures silent { IsSilent W.Replies out.old out.new }
    ensures noted { IsNoted W.Replies out.old out.new (fault_note (Damaged offset)) }
    ensures later { W.faults out.old ≤ W.faults out.new }
{
    let mut room = [0; 48];
    let size = put_damage(&mut room, offset);
    note_line(out, &room[..size]);
}

// Notes why a journal was not opened, or not made.
#[tactic(auto, unfolding(crate::specs::Lines::fault_note))]
pub(crate) fn note_fault<W: Replies>(out: &mut W, fault: OpenFault)
    ensures silent { IsSilent W.Replies out.old out.new }
    ensures noted { IsNoted W.Replies out.old out.new (fault_note fault) }
    ensures later { W.faults out.old ≤ W.faults out.new }
{
    match fault {
        OpenFault::NotMade => out.note(b"journal: not made\n"),
        OpenFault::Foreign => out.note(b"journal: foreign\n"),
        OpenFault::Damaged { offset } => note_damage(out, offset),
        OpenFault::StoreFault => out.note(b"store: failed\n"),
        OpenFault::NoMemory => out.note(b"memory: refused\n"),
    }
}

/// Notes why there are no words, and returns the exit code: 6 if memory ran out (`kind` is `OutOfMemory`), otherwise 1,
/// because one of them is not UTF-8.
pub fn refuse_words<W: Replies>(out: &mut W, kind: ErrorKind) -> u8
    ensures memory { kind ≡ ErrorKind.OutOfMemory → (result ≡ session_exit NoMemory false)
        × IsNoted W.Replies out.old out.new (end_note NoMemory false) }
    ensures usage { (kind ≡ ErrorKind.OutOfMemory → ⊥) → (result ≡ 1)
        × IsNoted W.Replies out.old out.new usage_note }
    ensures silent { IsSilent W.Replies out.old out.new }
{
    if kind == ErrorKind::OutOfMemory {
        note_line(out, end_line(SessionEnd::NoMemory, false));
        return run_exit(SessionEnd::NoMemory, false);
    }
    note_line(out, usage());
    USAGE
}
