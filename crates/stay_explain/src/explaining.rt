// Explains a journal.
ghost use Rattle.std.specs.Prelude.{◌≡◌, ◌<◌, ◌≤◌, ◌++◌, ◌∷◌, [], length, List, IsTrue, IfErr, IfOk, OnOk};
ghost use Rattle.office_types.specs.Tokens.{MayCarry};
ghost use Rattle.office_types.specs.declared.command.Entry.{Entry};
ghost use Rattle.disk_core.specs.Moments.{OnlyReads};
ghost use Rattle.meter_journal.specs.Reading.{IsMade, HasStoreCause};
ghost use Rattle.bucket_account.specs.Standing.{most_commands};
ghost use Rattle.desk_core.specs.Damage.{OpenFails, IsNotTaken};
ghost use Rattle.stay_explain.specs.Explaining.{ReadsLedger, ReadsTable};
ghost use Rattle.stay_explain.specs.Ledgers.{IsLedgerOf};

use crate::ledger::Ledger;
use crate::working::table_text;
use disk_core::Disk;
use meter_journal::{OpenFault, Window, frame_in, measure};
use office_base::NoMemory;
use office_types::Entry;
use std::alloc::Global;
use std::thread::Threads;

/// The place of the first gate.
const FIRST: u64 = 10;

/// Takes the entry at this gate.
fn take(ledger: &mut Ledger, alloc: Global, entry: Entry, gate: u64) -> Result<(), OpenFault>
    requires known { (history : List Entry) × IsLedgerOf history ledger.old }
    requires few { ledger.old.office.records.accepted < most_commands }
    requires carries { MayCarry entry.token entry.command }
    ensures ok { OnOk result ((history : List Entry) → IsLedgerOf history ledger.old
        → IsLedgerOf (history ++ entry ∷ []) ledger.new) }
    ensures fault { IfErr result (λ fault. IsNotTaken gate ledger.old.office entry fault) }
{
    let taken = ledger.take(alloc, &entry, gate);
    drop(entry);
    taken
}

/// Reads the entries of a made journal, whose file has this length, into the ledger of no entries, and books their
/// stays.
fn read_into<D: Disk>(
    alloc: Global,
    disk: &mut D,
    end: u64,
    ledger: &mut Ledger,
) -> Result<(), OpenFault>
    requires known { IsTrue D.tells → end ≡ length (D.state disk.old).journal.seen }
    requires made { IsTrue D.tells → IsMade (D.state disk.old).journal.seen }
    requires empty { IsLedgerOf [] ledger.old }
    ensures read { OnOk result (ReadsLedger D.Disk disk.old ledger.new) }
    ensures fails { IsTrue D.tells → IfErr result (λ fault. OpenFails fault (D.state disk.old).journal.seen) }
    ensures untouched { OnlyReads D.Disk disk.old disk.new }
    ensures cause { HasStoreCause (D.fault_count disk.old) (D.fault_count disk.new) result }
{
    let mut window = Window::new(alloc)?;
    let mut gate = FIRST;
    'reading: loop {
        match frame_in(alloc, disk, gate, end, &mut window) {
            Ok(Some((entry, next))) => {
                if let Err(fault) = take(ledger, alloc, entry, gate) {
                    return Err(fault);
                }
                gate = next;
            }
            Ok(None) => return Ok(()),
            Err(fault) => return Err(fault),
        }
    }
}

/// Reads the entries of a made journal, whose file has this length, and books their stays.
fn read<D: Disk>(alloc: Global, disk: &mut D, end: u64) -> Result<Ledger, OpenFault>
    requires known { IsTrue D.tells → end ≡ length (D.state disk.old).journal.seen }
    requires made { IsTrue D.tells → IsMade (D.state disk.old).journal.seen }
    ensures read { IfOk result (λ ledger. ReadsLedger D.Disk disk.old ledger) }
    ensures fails { IsTrue D.tells → IfErr result (λ fault. OpenFails fault (D.state disk.old).journal.seen) }
    ensures untouched { OnlyReads D.Disk disk.old disk.new }
    ensures cause { HasStoreCause (D.fault_count disk.old) (D.fault_count disk.new) result }
{
    let mut ledger = Ledger::new(alloc);
    match read_into(alloc, disk, end, &mut ledger) {
        Ok(()) => Ok(ledger),
        Err(fault) => {
            drop(ledger);
            Err(fault)
        }
    }
}

/// Prints the table of stays of a journal: a CSV of every interval in which a version or a part was billed.
///
/// Buckets are in byte order of their names, and the stays of a bucket are in the order in which they were opened. A
/// stay's own line comes before its line in STANDARD. `workers` is how many threads may print buckets at once; the
/// table is the same for every number. Nothing is written.
///
/// # Errors
///
/// `NotMade`, `Foreign` and `Damaged`: as at the opening of a desk over this file, if it is read from its first gate.
/// `StoreFault`: a call of the disk failed. `NoMemory`: memory ran out.
pub fn explain<D: Disk, R: Threads + Sync>(
    rt: &R,
    alloc: Global,
    disk: &mut D,
    workers: u32,
) -> Result<Vec<u8>, OpenFault>
    requires workers { (1 ≤ workers) × (workers ≤ 64) }
    ensures table { IfOk result (λ text. ReadsTable D.Disk disk.old text.items) }
    ensures fault { IsTrue D.tells → IfErr result (λ fault. OpenFails fault (D.state disk.old).journal.seen) }
    ensures untouched { OnlyReads D.Disk disk.old disk.new }
    ensures cause { HasStoreCause (D.fault_count disk.old) (D.fault_count disk.new) result }
{
    let end = measure(disk)?;
    let ledger = read(alloc, disk, end)?;
    match table_text(rt, alloc, ledger.tables(), workers) {
        Ok(text) => {
            drop(ledger);
            Ok(text)
        }
        Err(NoMemory) => {
            drop(ledger);
            Err(OpenFault::NoMemory)
        }
    }
}
