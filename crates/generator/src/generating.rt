// A load.
ghost use Rattle.std.specs.Prelude.{◌≡◌, IfOk};
ghost use Rattle.generator.specs.Generated.{tally};

use crate::tally::Tally;
use crate::work::Work;
use office_base::NoMemory;
use std::alloc::Global;

/// Makes this many commands, generated from a number, on a new office over a disk in memory, and counts what came of
/// them.
///
/// Own rule: the same number gives the same commands and the same counts, whatever runs them. The journal's limit is
/// 1,073,741,824 bytes, and the clock starts at 2024-01-01 00:00 UTC.
/// Cost: for each command, that of the office and of the journal; the disk in memory keeps each of its calls.
///
/// # Errors
///
/// `NoMemory`: memory ran out, or the journal was full.
pub fn generate(alloc: Global, number: u64, count: u32) -> Result<Tally, NoMemory>
    ensures { IfOk result (λ counts. counts ≡ tally number count) }
{
    let mut work = Work::begin(alloc, number)?;
    'making: for _made in 0..count {
        match work.make(alloc) {
            Ok(()) => {}
            Err(error) => {
                drop(work);
                return Err(error);
            }
        }
    }
    work.end(alloc)
}
