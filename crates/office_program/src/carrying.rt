// Each command but `serve`, which needs no port.
ghost use Rattle.std.specs.Prelude.{◌≡◌, List, Some, IsTrue};
ghost use Rattle.disk_core.specs.Fronts.{Narrower};
ghost use Rattle.disk_core.specs.Moments.{KeepsTo};
ghost use Rattle.http_wire.specs.Held.{take_limit};
ghost use Rattle.http_front.specs.Counts.{GaveBytes};
ghost use Rattle.office_types.specs.declared.command.Entry.{Entry};
ghost use Rattle.desk_core.specs.Histories.{HasAcceptedHistory, IsSound};
ghost use Rattle.meter_journal.specs.Reading.{IsForeign};
ghost use Rattle.command_line.specs.Lines.{line_of};
ghost use Rattle.office_program.specs.Commands.{TouchesOwn, IsCaused};
ghost use Rattle.office_program.specs.Carrying.{NeedsNoPort, setting, counts, CarriesOut};
ghost use Rattle.office_program.specs.Carrying.{MustBeDone, MustBill, MustForecast};

use bill_book::BillKeeper;
use command_line::CommandLine;
use desk_core::Clock;
use disk_core::Disk;
use http_front::Replies;
use http_wire::Source;
use office_commands::{End, bill, foretell, init, load, report, run, stays};
use std::alloc::Global;
use std::thread::Threads;

// States that on a sound disk what is read has a history, and that the disk stays sound and has the same images while
// nobody writes. It does nothing. A disk is sound if in each image that a crash may leave of its three files the
// journal has a history, and each slot that decodes fits it.
pub(crate) fn sound_now<D: Disk>(disk: &D)
    ensures reads { IsTrue D.honest → IsSound (D.state disk.now) → (history : List Entry)
        × HasAcceptedHistory history (D.state disk.now).journal.seen }
    ensures still { IsTrue D.honest → IsSound (D.state disk.now)
        → KeepsTo D.Disk disk.now disk.now IsSound }
    ensures left { KeepsTo D.Disk disk.now disk.now (Narrower (D.state disk.now)) }
{}

/// Does one command of the program that needs no port: any but `serve`.
///
/// What each command does, and its exit codes, is said at `office`. There is no handle on which it could wait forever.
/// So each command ends if its calls of the disk, the clock, the input, the output and the keeper do.
pub fn carry_out<S, W, D, C, K, R>(
    rt: &R,
    alloc: Global,
    command: &CommandLine,
    input: &mut S,
    out: &mut W,
    mut disk: D,
    clock: C,
    keeper: &mut K,
) -> End<D, C>
where
    S: Source,
    W: Replies,
    D: Disk + Drop,
    C: Clock + Drop,
    K: BillKeeper,
    R: Threads + Sync,
    requires no_port { NeedsNoPort (line_of command.now) }

    // What each command line does.
    ensures does { CarriesOut S.Source D.Disk C.Clock W.Replies K.BillKeeper (line_of command.now)
        (setting disk clock out.old input.old keeper.old)
        (setting result.disk result.clock out.new input.new keeper.new) result.status }

    // Each command line touches only its own part.
    ensures only { TouchesOwn W.Replies (Some (line_of command.now)) (input.new ≡ input.old) (Unit {0})
        (keeper.new ≡ keeper.old) out.old out.new result.status }

    // Each status has its cause, and the cause is never a port.
    ensures causes { IsCaused (Some (line_of command.now))
        (counts S.Source D.Disk C.Clock W.Replies K.BillKeeper (setting disk clock out.old input.old keeper.old))
        (counts S.Source D.Disk C.Clock W.Replies K.BillKeeper
        (setting result.disk result.clock out.new input.new keeper.new))
        (IsTrue D.honest → IsForeign (D.state disk).journal.seen)
        (GaveBytes (S.left input.old) (S.left input.new) take_limit) result.status }

    // A sound disk is opened, and stays sound at every moment.
    ensures sound { IsTrue D.honest → IsSound (D.state disk)
        → (result.status ≡ 5 → ⊥) × KeepsTo D.Disk disk result.disk IsSound }

    // If nothing outside fails, a command is done. So is a billing that can be made, and a forecast that can be made.
    ensures complete { MustBeDone S.Source D.Disk C.Clock W.Replies K.BillKeeper (line_of command.now)
        (setting disk clock out.old input.old keeper.old)
        (setting result.disk result.clock out.new input.new keeper.new) result.status }
    ensures billable { MustBill S.Source D.Disk C.Clock W.Replies K.BillKeeper (line_of command.now)
        (setting disk clock out.old input.old keeper.old)
        (setting result.disk result.clock out.new input.new keeper.new) result.status }
    ensures forecastable { MustForecast S.Source D.Disk C.Clock W.Replies K.BillKeeper (line_of command.now)
        (setting disk clock out.old input.old keeper.old)
        (setting result.disk result.clock out.new input.new keeper.new) result.status }
{
    sound_now(&disk);
    match command {
        CommandLine::Init => {
            let status = init(out, &mut disk);
            End {
                status,
                disk,
                clock,
            }
        }
        CommandLine::Run => run(alloc, input, out, disk, clock),
        CommandLine::Serve { .. } => unreachable!(),
        CommandLine::Report(asked) => report(alloc, out, disk, clock, asked),
        CommandLine::Explain { workers } => stays(rt, alloc, out, disk, clock, *workers),
        CommandLine::Bill(asked) => bill(alloc, out, keeper, disk, clock, asked),
        CommandLine::Forecast(asked) => foretell(alloc, input, out, disk, clock, asked),
        CommandLine::Gen { number, count } => {
            let status = load(alloc, out, *number, *count);
            End {
                status,
                disk,
                clock,
            }
        }
    }
}
