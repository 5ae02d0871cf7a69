// Making the journal.
ghost use Rattle.std.specs.Prelude.{◌≡◌, ◌≤◌, IsTrue};
ghost use Rattle.office_base.specs.Faults.{Rose};
ghost use Rattle.meter_journal.specs.Reading.{IsForeign};
ghost use Rattle.office_commands.specs.Lines.{IsRunExit};
ghost use Rattle.office_commands.specs.Making.{Inits};
ghost use Rattle.office_commands.specs.Running.{SaysNoReply, NotesNothing};

use crate::lines::{made_text, note_fault, open_exit};
use crate::saying::say;
use disk_core::Disk;
use http_front::Replies;
use meter_journal::create;

/// Does `init`: makes the journal unless it is made, prints which of the two it was, and returns the exit code.
///
/// Takes no memory. If the journal could not be made, or the text was lost, it notes a line.
pub fn init<W: Replies, D: Disk>(out: &mut W, disk: &mut D) -> u8
    ensures inits { Inits D.Disk W.Replies disk.old disk.new out.old out.new result }
    ensures unsaid { SaysNoReply W.Replies out.old out.new }
    ensures foreign { IsTrue D.honest → result ≡ 5 → IsForeign (D.state disk.old).journal.seen }
    ensures later { (W.faults out.old ≤ W.faults out.new) × (D.fault_count disk.old ≤ D.fault_count disk.new) }
    ensures statuses { IsRunExit result }
    ensures not_read { result ≡ 3 → ⊥ }
    ensures not_spent { result ≡ 9 → ⊥ }
    ensures disk_fault { result ≡ 2 → Rose (D.fault_count disk.old) (D.fault_count disk.new) }
    ensures write_fault { result ≡ 4 → Rose (W.faults out.old) (W.faults out.new) }
    ensures unnoted { result ≡ 0 → NotesNothing W.Replies out.old out.new }
{
    match create(disk) {
        Ok(made) => say(out, made_text(made)),
        Err(fault) => {
            note_fault(out, fault);
            open_exit(fault)
        }
    }
}
