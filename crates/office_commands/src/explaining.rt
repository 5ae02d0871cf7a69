// Printing the table of stays.
ghost use Rattle.std.specs.Prelude.{◌≡◌, ◌≤◌, List, IsTrue};
ghost use Rattle.office_base.specs.Faults.{Rose};
ghost use Rattle.office_types.specs.declared.command.Entry.{Entry};
ghost use Rattle.desk_core.specs.Histories.{HasAcceptedHistory};
ghost use Rattle.office_commands.specs.Lines.{IsRunExit};
ghost use Rattle.office_commands.specs.Running.{around, SaysNoReply, NotesNothing};
ghost use Rattle.office_commands.specs.Explaining.{Explains};

use crate::end::End;
use crate::running::refuse;
use crate::saying::say;
use desk_core::Clock;
use disk_core::Disk;
use http_front::Replies;
use stay_explain::explain;
use std::alloc::Global;
use std::thread::Threads;

/// Does `explain`: reads the journal, and prints the table of its stays, made by up to this many threads.
///
/// The table is the same for any number of threads. Nothing is written, and the clock is not asked.
pub fn stays<W: Replies, D: Disk + Drop, C: Clock + Drop, R: Threads + Sync>(
    rt: &R,
    alloc: Global,
    out: &mut W,
    mut disk: D,
    clock: C,
    workers: u32,
) -> End<D, C>
    requires few { (1 ≤ workers) × (workers ≤ 64) }
    ensures explains { Explains D.Disk C.Clock W.Replies (around disk clock out.old)
        (around result.disk result.clock out.new) result.status }
    ensures sound { IsTrue D.honest → (history : List Entry)
        → HasAcceptedHistory history (D.state disk).journal.seen → result.status ≡ 5 → ⊥ }
    ensures unsaid { SaysNoReply W.Replies out.old out.new }
    ensures later { (W.faults out.old ≤ W.faults out.new) × (D.fault_count disk ≤ D.fault_count result.disk) }
    ensures statuses { IsRunExit result.status }
    ensures disk_fault { result.status ≡ 2 → Rose (D.fault_count disk) (D.fault_count result.disk) }
    ensures write_fault { result.status ≡ 4 → Rose (W.faults out.old) (W.faults out.new) }
    ensures only { (result.status ≡ 3 → ⊥) × ((result.status ≡ 7 → ⊥) × (result.status ≡ 9 → ⊥)) }
    ensures unnoted { result.status ≡ 0 → NotesNothing W.Replies out.old out.new }
{
    match explain(rt, alloc, &mut disk, workers) {
        Ok(text) => {
            let status = say(out, &text);
            End {
                status,
                disk,
                clock,
            }
        }
        Err(fault) => refuse(out, fault, disk, clock),
    }
}
