// Answering the messages of a stream.
ghost use Rattle.std.specs.Prelude.{◌≡◌, ◌≤◌, ◌⊎◌, ◌<◌, ◌+◌, ◌-◌, ◌^◌, ◌∷◌, []};
ghost use Rattle.std.specs.Prelude.{min, List, Option, None, IfSome, false, IsTrue};
ghost use Rattle.std.specs.Io.KnownBytes.{Appends};
ghost use Rattle.moments.specs.Time.{end_of_time};
ghost use Rattle.office_base.specs.Faults.{Rose};
ghost use Rattle.http_wire.specs.Held.{take_limit};
ghost use Rattle.office_types.specs.declared.command.Entry.{Entry};
ghost use Rattle.desk_core.specs.Histories.{IsSound};
ghost use Rattle.desk_core.specs.Opening.{Opens};
ghost use Rattle.http_front.specs.Counts.{GaveBytes, stream_ends};
ghost use Rattle.office_commands.specs.Lines.{end_after, store_after, fault_exit, fault_note, IsSessionExit, IsRunExit};
ghost use Rattle.office_commands.specs.Running.{journal_limit, around, IsNoted, IsSilent, NotesNothing};
ghost use Rattle.office_commands.specs.Running.{AnswersStream, FailsToOpen, Ends, Runs};

use crate::end::{End, JOURNAL_LIMIT};
use crate::lines::{CLOCK_END, clock_line, end_line, note_fault, note_line, open_exit, run_exit};
use desk_core::{Clock, Desk, SaveFault};
use disk_core::Disk;
use http_front::{Replies, SessionEnd, session};
use http_wire::Source;
use meter_journal::OpenFault;
use moments::Moment;
use std::alloc::Global;

/// Whether the store failed: the desk is stale at its end, or the disk failed while its checkpoint was saved.
pub fn store_failed(stale: bool, saved: &Result<(), SaveFault>) -> bool
    ensures { result ≡ store_after stale saved.now }
{
    match saved {
        Err(SaveFault::StoreFault) => true,
        _ => stale,
    }
}

// How a session ended, after its office was closed.
fn ended(end: SessionEnd, saved: &Result<(), SaveFault>) -> SessionEnd
    ensures { result ≡ end_after end saved.now }
{
    match end {
        SessionEnd::Ended => match saved {
            Err(SaveFault::NoMemory) => SessionEnd::NoMemory,
            _ => SessionEnd::Ended,
        },
        other => other,
    }
}

// Runs one session on an open desk.
fn answer<S: Source, W: Replies, D: Disk + Drop, C: Clock + Drop>(
    alloc: Global,
    input: &mut S,
    out: &mut W,
    mut desk: Desk<D, C>,
) -> End<D, C>
    requires fresh { desk.stale ≡ false }

    ensures answers { (disk : D) (clock : C)
        → Opens D.Disk disk clock journal_limit desk
        → AnswersStream D.Disk C.Clock W.Replies (stream_ends (S.left input.old) (S.left input.new))
        (around disk clock out.old)
        (around result.disk result.clock out.new) result.status }
    ensures later { (S.faults input.old ≤ S.faults input.new) × (W.faults out.old ≤ W.faults out.new)
        × (D.fault_count desk.disk ≤ D.fault_count result.disk) }
    ensures statuses { IsSessionExit result.status }
    ensures disk_fault { result.status ≡ 2 → Rose (D.fault_count desk.disk) (D.fault_count result.disk) }
    ensures read_fault { result.status ≡ 3 → Rose (S.faults input.old) (S.faults input.new) }
    ensures read_done { (result.status ≡ 3 → ⊥) → S.faults input.new ≡ S.faults input.old }
    ensures spent { result.status ≡ 9 → GaveBytes (S.left input.old) (S.left input.new) take_limit }
    ensures write_fault { result.status ≡ 4 → Rose (W.faults out.old) (W.faults out.new) }
    ensures unnoted { result.status ≡ 0 → NotesNothing W.Replies out.old out.new }
{
    let end = session(alloc, input, out, &mut desk);
    let stale = desk.stale();
    let (disk, clock, saved) = desk.finish();
    let store = store_failed(stale, &saved);
    let outcome = ended(end, &saved);
    note_line(out, end_line(outcome, store));
    End {
        status: run_exit(outcome, store),
        disk,
        clock,
    }
}

/// Notes why the office was not opened, and ends with the exit code for it. Takes no memory.
pub fn refuse<W: Replies, D: Disk + Drop, C: Clock + Drop>(
    out: &mut W,
    fault: OpenFault,
    disk: D,
    clock: C,
) -> End<D, C>
    ensures status { result.status ≡ fault_exit fault }
    ensures some { result.status ≡ 0 → ⊥ }
    ensures disk { result.disk ≡ disk }
    ensures clock { result.clock ≡ clock }
    ensures silent { IsSilent W.Replies out.old out.new }
    ensures noted { IsNoted W.Replies out.old out.new (fault_note fault) }
    ensures later { W.faults out.old ≤ W.faults out.new }
{
    note_fault(out, fault);
    End {
        status: open_exit(fault),
        disk,
        clock,
    }
}

// Opens the office, and runs one session on it.
fn work<S: Source, W: Replies, D: Disk + Drop, C: Clock + Drop>(
    alloc: Global,
    input: &mut S,
    out: &mut W,
    disk: D,
    clock: C,
) -> End<D, C>
    ensures works { AnswersStream D.Disk C.Clock W.Replies (stream_ends (S.left input.old) (S.left input.new))
        (around disk clock out.old)
        (around result.disk result.clock out.new) result.status
        ⊎ (FailsToOpen D.Disk C.Clock W.Replies (around disk clock out.old) (around result.disk result.clock out.new)
        result.status × (input.new ≡ input.old)) }
    ensures sound { IsTrue D.honest → IsSound (D.state disk) → result.status ≡ 5 → ⊥ }
    ensures no_text { W.texts out.new ≡ W.texts out.old }
    ensures later { (S.faults input.old ≤ S.faults input.new) × (W.faults out.old ≤ W.faults out.new)
        × (D.fault_count disk ≤ D.fault_count result.disk) }
    ensures statuses { IsRunExit result.status }
    ensures unopened { result.status ≡ 5 → input.new ≡ input.old }
    ensures disk_fault { result.status ≡ 2 → Rose (D.fault_count disk) (D.fault_count result.disk) }
    ensures read_fault { result.status ≡ 3 → Rose (S.faults input.old) (S.faults input.new) }
    ensures read_done { (result.status ≡ 3 → ⊥) → S.faults input.new ≡ S.faults input.old }
    ensures spent { result.status ≡ 9 → GaveBytes (S.left input.old) (S.left input.new) take_limit }
    ensures write_fault { result.status ≡ 4 → Rose (W.faults out.old) (W.faults out.new) }
    ensures unnoted { result.status ≡ 0 → NotesNothing W.Replies out.old out.new }
{
    match Desk::open(alloc, disk, clock, JOURNAL_LIMIT) {
        Ok(desk) => answer(alloc, input, out, desk),
        Err((fault, disk, clock)) => refuse(out, fault, disk, clock),
    }
}

// The next number of the clock, if it is below the end of time.
pub(crate) fn first_moment<C: Clock>(clock: &mut C) -> Option<Moment>
    ensures once { C.count clock.new ≡ min (C.count clock.old + 1) (2 ^ 64 - 1) }
    ensures told { C.count clock.new < 2 ^ 64 - 1
        → Appends (C.told clock.old) (C.told clock.new) (C.last clock.new ∷ []) }
    ensures begun { IfSome result (λ moment. (moment ≡ C.last clock.new) × (moment < end_of_time)) }
    ensures ended { result ≡ None → end_of_time ≤ C.last clock.new }
{
    Moment::of(clock.now()).ok()
}

/// Asks the clock once, and returns whether its number is below the end of time. Takes no memory.
pub fn has_begun<C: Clock>(clock: &mut C) -> bool
    ensures once { C.count clock.new ≡ min (C.count clock.old + 1) (2 ^ 64 - 1) }
    ensures told { C.count clock.new < 2 ^ 64 - 1
        → Appends (C.told clock.old) (C.told clock.new) (C.last clock.new ∷ []) }
    ensures begun { IsTrue result → C.last clock.new < end_of_time }
    ensures ended { result ≡ false → end_of_time ≤ C.last clock.new }
{
    first_moment(clock).is_some()
}

/// Notes that the clock is at its end, and ends with exit code 8. Takes no memory.
pub fn end_at_clock<W: Replies, D: Disk + Drop, C: Clock + Drop>(
    out: &mut W,
    disk: D,
    clock: C,
) -> End<D, C>
    ensures ends { Ends D.Disk C.Clock W.Replies (around disk clock out.old)
        (around result.disk result.clock out.new) result.status }
    ensures later { W.faults out.old ≤ W.faults out.new }
{
    note_line(out, clock_line());
    End {
        status: CLOCK_END,
        disk,
        clock,
    }
}

/// Does `run`: asks the clock once, and opens the office over the journal if that number is below the end of time. It
/// answers the messages of the input in order, each after its effect is durable, and closes the office.
///
/// The input is read only if the office was opened; a line on a fault goes to the notes.
pub fn run<S: Source, W: Replies, D: Disk + Drop, C: Clock + Drop>(
    alloc: Global,
    input: &mut S,
    out: &mut W,
    disk: D,
    mut clock: C,
) -> End<D, C>
    ensures runs { Runs D.Disk C.Clock W.Replies input.old input.new
        (stream_ends (S.left input.old) (S.left input.new)) (around disk clock out.old)
        (around result.disk result.clock out.new) result.status }
    ensures sound { IsTrue D.honest → IsSound (D.state disk) → result.status ≡ 5 → ⊥ }
    ensures no_text { W.texts out.new ≡ W.texts out.old }
    ensures later { (S.faults input.old ≤ S.faults input.new) × (W.faults out.old ≤ W.faults out.new)
        × (D.fault_count disk ≤ D.fault_count result.disk) }
    ensures statuses { (result.status ≡ 8) ⊎ IsRunExit result.status }
    ensures unopened { (result.status ≡ 5) ⊎ (result.status ≡ 8) → input.new ≡ input.old }
    ensures disk_fault { result.status ≡ 2 → Rose (D.fault_count disk) (D.fault_count result.disk) }
    ensures read_fault { result.status ≡ 3 → Rose (S.faults input.old) (S.faults input.new) }
    ensures read_done { (result.status ≡ 3 → ⊥) → S.faults input.new ≡ S.faults input.old }
    ensures spent { result.status ≡ 9 → GaveBytes (S.left input.old) (S.left input.new) take_limit }
    ensures write_fault { result.status ≡ 4 → Rose (W.faults out.old) (W.faults out.new) }
    ensures unnoted { result.status ≡ 0 → NotesNothing W.Replies out.old out.new }
{
    if !has_begun(&mut clock) {
        return end_at_clock(out, disk, clock);
    }
    work(alloc, input, out, disk, clock)
}
