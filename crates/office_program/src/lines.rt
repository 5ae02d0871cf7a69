// The exit codes of `serve`, and the lines that it notes.
ghost use Rattle.std.specs.Prelude.{◌≡◌};
ghost use Rattle.office_program.specs.Workers.{workers_exit, workers_note};

use office_commands::{MEMORY, STORE};
use serving::WorkerEnd;

// The exit code of workers that ended so, with a desk that is then stale or not.
pub(crate) fn serve_exit(end: WorkerEnd, stale: bool) -> u8
    ensures { result ≡ workers_exit end stale }
{
    match end {
        WorkerEnd::PortFault => 7,
        WorkerEnd::NoMemory => if stale { STORE } else { MEMORY },
        WorkerEnd::Done => if stale { STORE } else { 0 },
    }
}

#[tactic(auto, unfolding(crate::specs::Workers::workers_note))]
pub(crate) fn served_line(end: WorkerEnd, stale: bool) -> &'static [u8]
    ensures { result.now ≡ workers_note end stale }
{
    match end {
        WorkerEnd::PortFault => b"port: failed\n",
        WorkerEnd::NoMemory => if stale {
            b"store: failed\n"
        } else {
            b"memory: refused\n"
        },
        WorkerEnd::Done => if stale { b"store: failed\n" } else { b"" },
    }
}
