// Calls without an answer of the office.
use meter_journal::OpenFault;

/// Why a call has no answer of the office.
#[derive(Clone, Copy, Debug, PartialEq, Eq)]
pub enum DeskFault {
    /// A disk call of this submit failed. The command is in the journal as a whole, or not at all.
    StoreFault {
        /// The clock's number of this call, in milliseconds; `None` where the clock was not read.
        told: Option<u64>,
        /// The disk's count of faults at the end of the call.
        faults: u64,
    },
    /// 113: the command's frame would pass the journal's limit, whether or not the office would accept it, and no
    /// reply is kept under its token. No record changed.
    JournalFull,
    /// The journal was opened again in this call, and is not made, foreign or damaged. The desk stays stale. An
    /// honest disk has no such journal.
    Broken(OpenFault),
    /// 115: memory ran out. No record changed, and a stale desk stays stale.
    NoMemory,
}
