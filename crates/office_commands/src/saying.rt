// Printing the text of a command.
ghost use Rattle.std.specs.Prelude.{◌≡◌, ◌≤◌, ◌⊎◌};
ghost use Rattle.office_base.specs.Faults.{Rose};
ghost use Rattle.office_commands.specs.Running.{IsPutOut, RunsOut, SaysNoReply, NotesNothing};

use crate::lines::{MEMORY, OUTPUT, end_line, note_line};
use http_front::{Replies, SessionEnd};

// Prints a text, and returns the exit code.
pub(crate) fn say<W: Replies>(out: &mut W, text: &[u8]) -> u8
    ensures told { IsPutOut W.Replies text.now out.old out.new result }
    ensures unsaid { SaysNoReply W.Replies out.old out.new }
    ensures statuses { (result ≡ 0) ⊎ (result ≡ 4) }
    ensures later { W.faults out.old ≤ W.faults out.new }
    ensures write_fault { result ≡ 4 → Rose (W.faults out.old) (W.faults out.new) }
    ensures unnoted { result ≡ 0 → NotesNothing W.Replies out.old out.new }
{
    match out.text(text) {
        Ok(()) => 0,
        Err(_) => {
            note_line(out, end_line(SessionEnd::WriteFault, false));
            OUTPUT
        }
    }
}

// Notes that memory ran out, and returns the exit code.
pub(crate) fn run_out<W: Replies>(out: &mut W) -> u8
    ensures told { RunsOut W.Replies out.old out.new result }
    ensures status { result ≡ 6 }
    ensures later { W.faults out.old ≤ W.faults out.new }
{
    note_line(out, end_line(SessionEnd::NoMemory, false));
    MEMORY
}
