// Printing the counts of a generated load.
ghost use Rattle.std.specs.Prelude.{◌≡◌, ◌≤◌, ◌⊎◌, ◌++◌, IfOk, OnOk, decimal};
ghost use Rattle.office_base.specs.Faults.{Rose};
ghost use Rattle.office_commands.specs.Loading.{tally_line, TellsLoad};
ghost use Rattle.office_commands.specs.Running.{SaysNoReply, NotesNothing};

use crate::saying::{run_out, say};
use generator::{Tally, generate};
use http_front::Replies;
use std::alloc::{AllocError, Global};

// Writes a count after its name.
fn put(line: &mut Vec<u8>, name: &[u8], count: u64) -> Result<(), AllocError>
    ensures { OnOk result (line.new.items ≡ line.old.items ++ name.now ++ decimal count) }
{
    line.extend_from_slice(name)?;
    line.extend_from_slice(itoa::Buffer::new().format(count).as_bytes())
}

#[tactic(auto, unfolding(crate::specs::Loading::tally_line))]
fn line_of(alloc: Global, tally: &Tally) -> Result<Vec<u8>, AllocError>
    ensures { IfOk result (λ line. line.items ≡ tally_line tally.now) }
{
    let mut line = Vec::new(alloc);
    put(&mut line, b"commands ", tally.made)?;
    put(&mut line, b" accepted ", tally.accepted)?;
    put(&mut line, b" refused ", tally.refused)?;
    put(&mut line, b" nothing ", tally.nothing)?;
    put(&mut line, b" versions ", tally.versions)?;
    put(&mut line, b" uploads ", tally.uploads)?;
    put(&mut line, b" journal ", tally.journal)?;
    line.extend_from_slice(b"\n")?;
    Ok(line)
}

/// Does `gen`: generates this many commands from a number, runs them on a disk in memory, and prints their counts. It
/// returns the exit code, which is 6 if memory ran out.
pub fn load<W: Replies>(alloc: Global, out: &mut W, number: u64, count: u32) -> u8
    ensures tells { TellsLoad W.Replies number count out.old out.new result }
    ensures unsaid { SaysNoReply W.Replies out.old out.new }
    ensures later { W.faults out.old ≤ W.faults out.new }
    ensures statuses { (result ≡ 0) ⊎ ((result ≡ 4) ⊎ (result ≡ 6)) }
    ensures write_fault { result ≡ 4 → Rose (W.faults out.old) (W.faults out.new) }
    ensures unnoted { result ≡ 0 → NotesNothing W.Replies out.old out.new }
{
    let Ok(tally) = generate(alloc, number, count) else {
        return run_out(out);
    };
    match line_of(alloc, &tally) {
        Ok(line) => say(out, &line),
        Err(_) => run_out(out),
    }
}
