// Opening a journal again.
ghost use Rattle.std.specs.Prelude.{◌≡◌, ◌⊎◌, ◌+◌, ◌<◌, ◌≤◌, ◌++◌, ◌∷◌, [], ℕ, List};
ghost use Rattle.std.specs.Prelude.{length, IsTrue, Some, None, Ok, Err, IfOk, IfErr, OnOk};
ghost use Rattle.disk_core.specs.Fronts.{Narrower};
ghost use Rattle.disk_core.specs.Moments.{KeepsTo, OnlyReads, WritesNothing};
ghost use Rattle.office_types.specs.declared.command.Entry.{Entry};
ghost use Rattle.office_types.specs.Tokens.{MayCarry};
ghost use Rattle.plain_office.specs.Office as plain;
ghost use Rattle.bucket_account.specs.Standing.{most_commands};
ghost use Rattle.meter_journal.specs.Reading.{IsMade, HasStoreCause};
ghost use Rattle.desk_core.specs.Submitting.{Reopens, IsOffice, Unopened};
ghost use Rattle.desk_core.specs.Damage.{HasReplayed, IsNotTaken, ReplayFails, OpenFailsOn, IsBroken};
ghost use Rattle.desk_core.specs.Offices.{StandsSince};
ghost use Rattle.desk_core.specs.Rereading.{BeginsOn};

use crate::clock::Clock;
use crate::engine::Engine;
use crate::fault::DeskFault;
use crate::taking::{entry_is_new, entry_refused, entry_taken, is_in_order};
use checkpoint::load;
use disk_core::Disk;
use meter_journal::{Journal, OpenFault, Window};
use office_machine::Office;
use office_types::Entry;
use slots::SaveFault;
use std::alloc::Global;
use std::mem;

// The office from which the journal is read on, and the place where that begins; `None`: its first gate.
#[derive(Drop)]
struct LoadedOffice {
    office: Office,
    from: Option<u64>,
}

// Loads the checkpoint, and restores the office that it keeps; an office that is new where there is none.
fn beginning<D: Disk>(alloc: Global, disk: &mut D) -> Result<LoadedOffice, OpenFault>
    ensures begins { IfOk result (λ b. BeginsOn D.Disk disk.old b.office b.from) }
    ensures untouched { OnlyReads D.Disk disk.old disk.new }
    ensures fault { IfErr result (λ e. (e ≡ OpenFault.StoreFault) ⊎ (e ≡ OpenFault.NoMemory)) }
    ensures cause { HasStoreCause (D.fault_count disk.old) (D.fault_count disk.new) result }
{
    match load(alloc, disk) {
        Err(SaveFault::StoreFault) => Err(OpenFault::StoreFault),
        Err(SaveFault::NoMemory) => Err(OpenFault::NoMemory),
        Ok(None) => Ok(LoadedOffice {
            office: Office::new(alloc),
            from: None,
        }),
        Ok(Some((snapshot, place))) => match Office::restore(alloc, snapshot) {
            Err(_) => Err(OpenFault::NoMemory),
            Ok(office) => Ok(LoadedOffice {
                office,
                from: Some(place),
            }),
        },
    }
}

// Puts an office in the place of another, which it drops.
fn put_office(place: &mut Office, office: Office)
    ensures { place.new ≡ office }
{
    drop(mem::replace(place, office));
}

// Makes the change of an entry again. Where the office does not accept it, the journal is damaged at its gate.
fn make_again(office: &mut Office, entry: &Entry, gate: u64) -> Result<(), OpenFault>
    requires few { office.old.records.accepted < most_commands }
    requires carries { MayCarry entry.now.token entry.now.command }
    ensures ok { OnOk result ((start : plain.Office) (entries : List Entry) → StandsSince start entries office.old
        → StandsSince start (entries ++ entry.now ∷ []) office.new) }
    ensures counted { OnOk result (office.new.records.accepted ≡ office.old.records.accepted + 1) }
    ensures damaged { IfErr result (λ e.
        IsNotTaken gate office.old entry.now e) }
{
    if !is_in_order(office.last(), entry.moment) {
        return Err(OpenFault::Damaged { offset: gate });
    }
    if let Err(fault) = entry_is_new(office, entry, gate) {
        return Err(fault);
    }
    match office.apply(entry.moment, entry.token.as_ref(), &entry.command) {
        Ok(reply) => {
            let taken = entry_taken(&reply, gate);
            drop(reply);
            taken
        }
        Err(refusal) => Err(entry_refused(refusal, gate)),
    }
}

// Makes the change of an entry again, and drops the entry.
fn take(office: &mut Office, entry: Entry, gate: u64) -> Result<(), OpenFault>
    requires few { office.old.records.accepted < most_commands }
    requires carries { MayCarry entry.token entry.command }
    ensures ok { OnOk result ((start : plain.Office) (entries : List Entry) → StandsSince start entries office.old
        → StandsSince start (entries ++ entry ∷ []) office.new) }
    ensures counted { OnOk result (office.new.records.accepted ≡ office.old.records.accepted + 1) }
    ensures damaged { IfErr result (λ e.
        IsNotTaken gate office.old entry e) }
{
    let taken = make_again(office, &entry, gate);
    drop(entry);
    taken
}

// Reads all entries from the journal's gate on, whose file has this length, and makes their changes again.
fn replay<D: Disk>(
    alloc: Global,
    journal: &mut Journal<D>,
    end: u64,
    office: &mut Office,
) -> Result<(), OpenFault>
    requires known { IsTrue D.tells → end ≡ length (D.state journal.old.disk).journal.seen }
    requires fresh { office.old.records.accepted ≡ 0 }

    ensures read { OnOk result (HasReplayed D.Disk office.old journal.old.gate
        journal.old.disk journal.new.gate office.new) }
    ensures fails { IsTrue D.tells → (file : List ℕ) → (D.state journal.old.disk).journal.seen ≡ file
        → IsMade file → IfErr result (λ e. ReplayFails e office.old journal.old.gate file) }
    ensures untouched { OnlyReads D.Disk journal.old.disk journal.new.disk }
    ensures limit { journal.new.limit ≡ journal.old.limit }
    ensures cause { HasStoreCause (D.fault_count journal.old.disk) (D.fault_count journal.new.disk) result }
{
    let mut window = Window::new(alloc)?;
    'reading: loop {
        let gate = journal.end();
        let read = match journal.next_in(alloc, end, &mut window) {
            Ok(read) => read,
            Err(fault) => return Err(fault),
        };
        match read {
            None => return Ok(()),
            Some(entry) => match take(office, entry, gate) {
                Ok(()) => {}
                Err(fault) => return Err(fault),
            },
        }
    }
}

impl<D: Disk + Drop, C: Clock + Drop> Engine<D, C> {
    // Loads the checkpoint, syncs and reads the journal file from its position on, and makes the changes of the entries
    // again. Nothing is written, and the clock tells no number.
    pub(crate) fn open(&mut self) -> Result<(), OpenFault>
        ensures opens { OnOk result (Reopens D.Disk self.old self.new) }
        ensures writes { WritesNothing D.Disk self.old.disk self.new.disk }
        ensures fails { IsTrue D.tells → IfErr result (λ e. OpenFailsOn e (D.state self.old.disk)) }
        ensures any_moment { IsTrue D.honest
            → KeepsTo D.Disk self.old.disk self.new.disk (Narrower (D.state self.old.disk)) }
        ensures clock { self.new.clock ≡ self.old.clock }
        ensures limit { self.new.limit ≡ self.old.limit }
        ensures stale { self.new.stale ≡ self.old.stale }
        ensures opened_at { self.new.opened_at ≡ self.old.opened_at }
        ensures cause { HasStoreCause (D.fault_count self.old.disk) (D.fault_count self.new.disk) result }
    {
        let beginning = match beginning(self.alloc, self.journal.disk_mut()) {
            Ok(beginning) => beginning,
            Err(fault) => return Err(fault),
        };
        let end = match self.journal.open(beginning.from) {
            Ok(end) => end,
            Err(fault) => {
                drop(beginning);
                return Err(fault);
            }
        };
        put_office(&mut self.office, beginning.office);
        replay(self.alloc, &mut self.journal, end, &mut self.office)
    }

    // Opens the journal of a stale desk again, before a call.
    pub(crate) fn refresh(&mut self) -> Result<(), DeskFault>
        ensures office { OnOk result (IsOffice D.Disk self.old self.new) }
        ensures any_moment { IsTrue D.honest
            → KeepsTo D.Disk self.old.disk self.new.disk (Narrower (D.state self.old.disk)) }
        ensures unopened { IfErr result (λ fault. Unopened D.Disk self.old self.new (Err fault)) }
        ensures stale { self.new.stale ≡ self.old.stale }
        ensures opened_at { self.new.opened_at ≡ self.old.opened_at }
    {
        if !self.stale {
            return Ok(());
        }
        match self.open() {
            Ok(()) => Ok(()),
            Err(fault) => Err(self.unopened(fault)),
        }
    }

    // What a call says whose journal could not be opened again.
    pub(crate) fn unopened(&self, fault: OpenFault) -> DeskFault
        ensures broken { IsBroken fault → result ≡ DeskFault.Broken fault }
        ensures store { fault ≡ OpenFault.StoreFault
            → result ≡ DeskFault.StoreFault None (D.fault_count self.now.disk) }
        ensures memory { fault ≡ OpenFault.NoMemory → result ≡ DeskFault.NoMemory }
    {
        match fault {
            OpenFault::StoreFault => DeskFault::StoreFault {
                told: None,
                faults: self.journal.disk().faults(),
            },
            OpenFault::NoMemory => DeskFault::NoMemory,
            broken => DeskFault::Broken(broken),
        }
    }
}
