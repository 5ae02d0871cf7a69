// The program over any source, replies, disk, clock, port and keeper of bills.
ghost use Rattle.std.specs.Prelude.{◌≡◌, ◌≤◌, false};
ghost use Rattle.http_front.specs.declared.answering.SessionEnd.TheVariants.{NoMemory};
ghost use Rattle.office_commands.specs.Lines.{usage_note, end_note};
ghost use Rattle.office_commands.specs.Running.{IsNoted, IsSilent};
ghost use Rattle.office_program.specs.Commands.{asks};
ghost use Rattle.office_program.specs.Program.{Obeys, Touches, HasExitCause, StaysSound, LeavesSound, BeginsSound};
ghost use Rattle.office_program.specs.Program.{MustBeDone, MustBill, MustForecast};
ghost use Rattle.office_program.specs.Survival.{Survives};
ghost use Rattle.office_program.specs.Workers.{IsBalanced};
ghost use Rattle.office_program.specs.Worlds.{parts, world};

use crate::carrying::{carry_out, sound_now};
use crate::serve::serve;
use bill_book::BillKeeper;
use command_line::{CommandLine, LineFault, read_line};
use desk_core::Clock;
use disk_core::Disk;
use http_front::{Replies, SessionEnd};
use http_wire::Source;
use office_commands::{End, MEMORY, USAGE, end_line, note_line, usage};
use serving::{Gate, Port};
use std::alloc::Global;
use std::sync::Wait;
use std::thread::Threads;

// Notes that words are not a command line, or that memory ran out before they were read, and returns the exit code.
fn refuse_line<W: Replies>(out: &mut W, fault: LineFault) -> u8
    ensures usage { fault ≡ LineFault.NotALine → (result ≡ 1) × IsNoted W.Replies out.old out.new usage_note }
    ensures memory { fault ≡ LineFault.NoMemory → (result ≡ 6)
        × IsNoted W.Replies out.old out.new (end_note NoMemory false) }
    ensures silent { IsSilent W.Replies out.old out.new }
    ensures later { W.faults out.old ≤ W.faults out.new }
{
    match fault {
        LineFault::NotALine => {
            note_line(out, usage());
            USAGE
        }
        LineFault::NoMemory => {
            note_line(out, end_line(SessionEnd::NoMemory, false));
            MEMORY
        }
    }
}

/// Does one command of the program: `init`, `run`, `serve`, `report`, `explain`, `gen`, `bill` or `forecast`. The words
/// are those after the program's name.
///
/// `init` makes the journal unless it is made, and prints which of the two it was.
///
/// `run` asks the clock once and opens the office over the journal. It answers the messages of the input in order, each
/// after its effect is durable, and closes the office.
///
/// `serve` does the same with the messages of connections: it asks the clock once, opens the office, and listens.
/// Workers answer the connections side by side, each worker up to its number of connections. Then it closes the office.
///
/// `report` asks the clock once, opens the office, and prints what a month costs. It is as of that number, or of the
/// last accepted command if that is later.
///
/// `explain` reads the journal and prints every stay in it, from which a bill can be checked by hand.
///
/// `gen` generates commands from a number, runs them on a disk in memory, and prints how many were accepted.
///
/// `bill` asks the clock once, opens the office, posts the bills of a closed month's report to the keeper, and prints
/// their number and their total. If the keeper has these bills already, nothing is posted.
///
/// `forecast` asks the clock once, opens the office, and reads a lifecycle configuration from the input. It prints what
/// the configuration would do to a bucket by a day, and what that would cost. It is as of that number, or of the last
/// accepted command if that is later.
///
/// `report`, `explain`, `bill` and `forecast` write nothing to the journal. A line on a fault goes to the notes.
///
/// The exit code is
///
/// - 0 if all was done;
/// - 1 if the words are not a command line;
/// - 2 if the disk failed in a call of `init` or of the opening, in a read of `explain`, in a call after which no other
/// ask was answered, or while the checkpoint was saved;
/// - 3 if the input could not be read;
/// - 4 if a text could not be written;
/// - 5 if the journal is not made, foreign or damaged;
/// - 6 if memory ran out;
/// - 7 if the port did not listen or gave no connection;
/// - 8 if the first number that the clock gave a `run`, a `serve`, a `report`, a `bill` or a `forecast` is not below
/// the end of time, 4,102,444,800,000 milliseconds; nothing else was done then;
/// - 9 if 2^40 bytes of input were taken and more is needed;
/// - 10 if a report has no tariff;
/// - 11 if the keeper of bills failed;
/// - 12 if the month to be billed is not closed;
/// - 13 if the keeper has other bills of the month;
/// - 14 if there is no forecast: the input has more than 1,048,576 bytes or is not a configuration, the day is before
/// the moment of the forecast, or the office refuses the configuration.
///
/// If several hold, it is the one that is found first: 1 or 6 of the words, 8 of the clock, and 5, 2 or 6 of the
/// opening, of `init` and of `explain`. At the end it is the first of 4, 3, 9, 7, 2, 6, 10, 12, 11, 13, 14. After 11,
/// and after 4 of a `bill`, the month may have been posted, whole and with these bills. It may be billed again. A
/// connection that fails, or in whose session memory runs out, ends by itself and gives no exit code.
pub fn office<S, W, D, C, P, G, K, R>(
    rt: &R,
    alloc: Global,
    words: &[String],
    input: &mut S,
    out: &mut W,
    disk: D,
    clock: C,
    port: &mut P,
    gate: &G,
    keeper: &mut K,
) -> End<D, C>
where
    S: Source,
    W: Replies,
    D: Disk + Drop + Send,
    C: Clock + Drop + Send,
    P: Port + Send,
    P::Source: Send,
    P::Replies: Send,
    G: Gate + Sync,
    K: BillKeeper,
    R: Threads + Wait + Sync,

    // The claim. On an honest and sound disk no call was answered, and a crash at any moment leaves what it would have
    // left at the entry; or an office was opened and answered calls as the plain office allows, and a crash leaves the
    // history after some number of the first calls, with each one that was acknowledged by then.
    ensures survives { Survives
        (parts S.Source D.Disk C.Clock W.Replies P.Port (G.let_through gate.now) K.BillKeeper) (asks words.now)
        (world disk clock out.old input.old port.old keeper.old)
        (world result.disk result.clock out.new input.new port.new keeper.new) }

    // What each command does, if memory suffices to read the words. Words that are none are refused.
    ensures does { Obeys
        (parts S.Source D.Disk C.Clock W.Replies P.Port (G.let_through gate.now) K.BillKeeper) (asks words.now)
        (world disk clock out.old input.old port.old keeper.old)
        (world result.disk result.clock out.new input.new port.new keeper.new) result.status }

    // Each command touches only its own part. Whatever the exit code, each connection that the port gave was given
    // back, ended.
    ensures only { Touches
        (parts S.Source D.Disk C.Clock W.Replies P.Port (G.let_through gate.now) K.BillKeeper) (asks words.now)
        (world disk clock out.old input.old port.old keeper.old)
        (world result.disk result.clock out.new input.new port.new keeper.new) result.status }
    ensures balanced { IsBalanced P.Port port.old port.new }

    // Each status has its cause.
    ensures causes { HasExitCause
        (parts S.Source D.Disk C.Clock W.Replies P.Port (G.let_through gate.now) K.BillKeeper) (asks words.now)
        (world disk clock out.old input.old port.old keeper.old)
        (world result.disk result.clock out.new input.new port.new keeper.new) result.status }

    // An honest and sound disk is never refused as not made, foreign or damaged, and it stays sound at every moment. A
    // disk is sound if in each image that a crash may leave of its three files the journal has a history, and each slot
    // that decodes fits it.
    ensures sound { StaysSound (parts S.Source D.Disk C.Clock W.Replies P.Port (G.let_through gate.now) K.BillKeeper)
        (world disk clock out.old input.old port.old keeper.old)
        (world result.disk result.clock out.new input.new port.new keeper.new) result.status }

    // What a crash at any moment leaves of such a disk is sound when the machine starts again. So the next run begins on
    // a sound disk too.
    ensures restarts { LeavesSound
        (parts S.Source D.Disk C.Clock W.Replies P.Port (G.let_through gate.now) K.BillKeeper)
        (world disk clock out.old input.old port.old keeper.old)
        (world result.disk result.clock out.new input.new port.new keeper.new) }

    // From `init` on an honest disk is sound, if it had no journal and no slot that decodes with entries.
    ensures begins { BeginsSound (parts S.Source D.Disk C.Clock W.Replies P.Port (G.let_through gate.now) K.BillKeeper)
        (asks words.now) (world disk clock out.old input.old port.old keeper.old)
        (world result.disk result.clock out.new input.new port.new keeper.new) result.status }

    // A command line is done if nothing outside fails and the clock is not at its end; a closed month is billed; what
    // can be forecast is forecast.
    ensures complete { MustBeDone
        (parts S.Source D.Disk C.Clock W.Replies P.Port (G.let_through gate.now) K.BillKeeper) (asks words.now)
        (world disk clock out.old input.old port.old keeper.old)
        (world result.disk result.clock out.new input.new port.new keeper.new) result.status }
    ensures billable { MustBill
        (parts S.Source D.Disk C.Clock W.Replies P.Port (G.let_through gate.now) K.BillKeeper) (asks words.now)
        (world disk clock out.old input.old port.old keeper.old)
        (world result.disk result.clock out.new input.new port.new keeper.new) result.status }
    ensures forecastable { MustForecast
        (parts S.Source D.Disk C.Clock W.Replies P.Port (G.let_through gate.now) K.BillKeeper) (asks words.now)
        (world disk clock out.old input.old port.old keeper.old)
        (world result.disk result.clock out.new input.new port.new keeper.new) result.status }
{
    sound_now(&disk);
    match read_line(alloc, words) {
        Ok(command) => match command {
            CommandLine::Serve {
                listen,
                workers,
                connections,
            } => serve(
                rt,
                alloc,
                out,
                disk,
                clock,
                port,
                listen.as_str(),
                gate,
                workers,
                connections,
            ),
            other => carry_out(rt, alloc, &other, input, out, disk, clock, keeper),
        },
        Err(fault) => {
            let status = refuse_line(out, fault);
            End {
                status,
                disk,
                clock,
            }
        }
    }
}
