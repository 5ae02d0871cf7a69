// A desk: an office over its journal that opens it again after a fault.
ghost use Rattle.std.specs.Prelude.{◌≡◌, ◌⊎◌, ◌<◌, ◌≤◌, ◌-◌, ◌^◌, ◌++◌, ◌∷◌};
ghost use Rattle.std.specs.Prelude.{[], List, true, false, IsTrue, IsOk, IfOk, IfErr, Err};
ghost use Rattle.office_base.specs.Faults.{Rose};
ghost use Rattle.disk_core.specs.Fronts.{Narrower};
ghost use Rattle.disk_core.specs.Moments.{KeepsTo, WritesNothing};
ghost use Rattle.moments.specs.Time.{end_of_time};
ghost use Rattle.office_types.specs.Fits.{AnswerFits};
ghost use Rattle.plain_office.specs.Office as plain;
ghost use Rattle.office_machine.specs.Once as machine;
ghost use Rattle.office_types.specs.declared.command.Entry.{Entry};
ghost use Rattle.slots.specs.Causes.{HasSaveCause};
ghost use Rattle.desk_core.specs.Answers.{Call};
ghost use Rattle.desk_core.specs.Closing.{Closes};
ghost use Rattle.desk_core.specs.Submitting.{IsOffice, HasCauses, Submits, Unopened};
ghost use Rattle.desk_core.specs.Damage.{OpenFailsOn};
ghost use Rattle.desk_core.specs.Desk.{DeskView, HoldsHistory, StandsFor, GoesOn};
ghost use Rattle.desk_core.specs.Desk.{TellsFault, IsLast, IsStamped, stale_after};
ghost use Rattle.desk_core.specs.Histories.{IsSound};
ghost use Rattle.desk_core.specs.Looking.{IsRead, IsReadAfter, IsReplyOf};
ghost use Rattle.desk_core.specs.Numbers.{IsNumber};
ghost use Rattle.desk_core.specs.Offices.{most_accepted};
ghost use Rattle.desk_core.specs.Opening.{Opens};
ghost use Rattle.desk_core.specs.Serving.{Opened};

use crate::acked::Acked;
use crate::clock::Clock;
use crate::engine::Engine;
use crate::fault::DeskFault;
use disk_core::Disk;
use meter_journal::OpenFault;
use office_machine::Office;
use office_types::{Ask, Query, Refusal, Reply};
use slots::SaveFault;
use std::alloc::Global;
use std::marker::Model;

/// One office with its journal and a clock. Calls on it are made one after another.
///
/// After a fault of the store it is stale: its next call opens the journal again, and goes on from what is read.
#[derive(Drop)]
pub struct Desk<D: Disk + Drop, C: Clock + Drop> {
    engine: Engine<D, C>,
}

impl<D: Disk + Drop, C: Clock + Drop> Model for Desk<D, C> {
    ghost use Rattle.std.specs.Prelude.{◌≡◌, false, IsTrue};
    ghost use Rattle.desk_core.specs.Desk.{DeskView, IsReady};
    ghost use Rattle.desk_core.specs.Reading.{IsOpenable};

    ghost Value = { DeskView D C };

    ghost view = { λ d. d.engine };

    // A desk that is not stale holds its journal as it was read, and an honest disk can be opened again.
    ghost invariant = { λ d. (d.engine.stale ≡ false → IsReady D.Disk d.engine)
        × (IsTrue D.honest → IsOpenable (D.state d.engine.disk)) };
}

impl<D: Disk + Drop, C: Clock + Drop> Desk<D, C> {
    /// Opens the office: restores it from the checkpoint, if there is one, and replays the journal from its position.
    ///
    /// The journal file is synced and read; nothing is written, and the clock is not read. `limit` is that of the
    /// journal file, in bytes. Without a checkpoint the whole journal is replayed.
    /// Cost: the time and memory of the checkpoint and of every entry after its position.
    ///
    /// # Errors
    ///
    /// The disk and the clock come back beside the fault. `StoreFault`: the disk did not do a call. `NotMade`,
    /// `Foreign`: as the head of the journal file says. `Damaged` at an offset, the first of these gates: the file
    /// ends before the gate, or the gate is open and no whole frame with a next gate stands there, or its bytes are
    /// no entry, or its moment is before that of the entry before, or a reply is kept under its token there, or the
    /// office does not accept its command there.
    /// `NoMemory`: memory ran out.
    pub fn open(
        alloc: Global,
        disk: D,
        clock: C,
        limit: u64,
    ) -> Result<Desk<D, C>, (OpenFault, D, C)>
        requires { limit ≤ 2 ^ 45 }

        // The journal was read from where the slots say. If the disk is honest and sound, the desk stands for no call
        // yet, from the history of its journal on.
        ensures opens { IfOk result (λ desk. Opens D.Disk disk clock limit desk) }

        // If it is not opened, the bytes that are read tell why, unless the disk failed or memory ran out.
        ensures fails { IsTrue D.tells → IfErr result (λ e. OpenFailsOn e.0 (D.state disk)) }

        // So a sound disk is refused only if it failed or memory ran out.
        ensures sound { IsTrue D.honest → IsSound (D.state disk)
            → IfErr result (λ e. (e.0 ≡ OpenFault.StoreFault) ⊎ (e.0 ≡ OpenFault.NoMemory)) }

        // Nothing is written, whatever disk it is.
        ensures writes { IfErr result (λ e. WritesNothing D.Disk disk e.1) }

        // Then each image of the disk is one that it had, at every moment of the call.
        ensures any_moment { IsTrue D.honest
            → IfErr result (λ e. KeepsTo D.Disk disk e.1 (Narrower (D.state disk))) }
        ensures clock { IfErr result (λ e. e.2 ≡ clock) }
        ensures later { IfErr result (λ e. D.fault_count disk ≤ D.fault_count e.1) }
        ensures fault { IfErr result (λ e. e.0 ≡ OpenFault.StoreFault → Rose (D.fault_count disk) (D.fault_count e.1)) }
        // Where anything else is told, the disk did not fail.
        ensures quiet { IfErr result
            (λ e. (e.0 ≡ OpenFault.StoreFault → ⊥) → D.fault_count e.1 ≡ D.fault_count disk) }
    {
        let mut engine = Engine::over(alloc, disk, clock, limit);
        match engine.open() {
            Ok(()) => {
                engine.note_opening();
                Ok(Desk { engine })
            }
            Err(fault) => {
                let (disk, clock) = engine.give_back();
                Err((fault, disk, clock))
            }
        }
    }

    /// Answers an ask, once its effect is on the disk.
    ///
    /// A stale desk opens its journal again first, as `open` does. The moment of the call is the later of the
    /// clock's number and the moment of the last accepted command (own rule: time does not go back, whatever a
    /// clock tells). Where that is not below the end of time, the answer is `ClockEnd`, and nothing is done. A
    /// command that the office accepts is added to the journal before it is answered; a query changes nothing and
    /// makes no call of the disk. A command with a token under which a reply is kept gets that reply, or is refused
    /// where it is another command, and nothing is written; a token that the command may not carry is passed over. The
    /// kept replies follow from the journal's entries, so an opening again has them too. Cost: what the office needs,
    /// and for an accepted command the journal's append: four writes and two syncs. On a stale desk also that of
    /// opening.
    ///
    /// # Errors
    ///
    /// `NoMemory`: memory ran out; a stale desk stays stale. `JournalFull`: the command's frame would pass the
    /// journal's limit, whether or not the office would accept the command, and no reply is kept under its token. In
    /// both no record is changed. `StoreFault`: the disk did not do a call; the command, which the office accepts, is
    /// in the journal as a whole or not at all, or the journal could not be opened again, and the clock was not asked;
    /// the desk is stale. `Broken`: the journal was opened again, and is not made, foreign or damaged; the desk stays
    /// stale. An honest disk has no such journal.
    pub fn submit(&mut self, ask: &Ask) -> Result<Acked, DeskFault>
        // Whatever list of calls the desk stood for, it stands for that list with this call at its end, and each
        // image of the disk at every moment of the call has the history after some number of its first calls. The
        // office that answers is the desk's own, or of a stale desk one that was opened again, where it could be.
        ensures submits { Submits D.Disk C.Clock self.old ask.now result self.new }
    {
        self.answer_current(ask)
    }

    // Answers an ask, from a stale desk once its journal was opened again: the fields of `Submits`, one by one.
    fn answer_current(&mut self, ask: &Ask) -> Result<Acked, DeskFault>
        // Whatever list of calls the desk stood for, it stands for that list with this call at its end, and each
        // image of the disk at every moment of the call has the history after some number of its first calls.
        ensures stands { (opened : Opened) (calls : List Call) → StandsFor D.Disk opened calls self.old
            → GoesOn D.Disk opened (calls ++ record { ask = ask.now; said = result } ∷ []) self.old.disk self.new }

        // The office that answers is the desk's own, or of a stale desk one that was opened again, where it could be.
        ensures causes { Unopened D.Disk self.old self.new result
            ⊎ ((office : DeskView D C) × IsOffice D.Disk self.old office
            × HasCauses D.Disk C.Clock office ask.now result self.new) }

        // So an honest disk has no broken journal.
        ensures not_broken { IsTrue D.honest → (fault : OpenFault) → (result ≡ Err (DeskFault.Broken fault) → ⊥) }

        ensures number { C.count self.new.clock < 2 ^ 64 - 1
            → IsNumber (C.told self.old.clock) (C.told self.new.clock) result }
        ensures last_told { IsLast (C.last self.new.clock) result }
        ensures stamped { IsStamped result self.new.gate (D.moment self.new.disk) }
        ensures cause { TellsFault result (D.fault_count self.old.disk) (D.fault_count self.new.disk) }
        ensures stale { self.new.stale ≡ stale_after self.old.stale result }
        // A desk grows stale only where the disk failed.
        ensures grows_stale { self.new.stale ≡ true → (self.old.stale ≡ true)
            ⊎ Rose (D.fault_count self.old.disk) (D.fault_count self.new.disk) }
        ensures limit { self.new.limit ≡ self.old.limit }
        ensures opened_at { self.new.opened_at ≡ self.old.opened_at }
        ensures clock_later { C.count self.old.clock ≤ C.count self.new.clock }
        ensures disk_later { D.fault_count self.old.disk ≤ D.fault_count self.new.disk }
    {
        let was_stale = self.engine.stale();
        if let Err(fault) = self.engine.refresh() {
            return Err(fault);
        }
        let said = self.engine.answer_now(ask);
        self.engine.mark(was_stale, &said);
        said
    }

    /// Answers a query as of a number that its clock told before, or as of the moment of the last accepted command,
    /// where that is later. The desk is not stale, and the number is below the end of time. Asks neither the disk
    /// nor the clock, and changes nothing.
    ///
    /// # Errors
    ///
    /// Each is the refusal that the office gives; or `NoMemory`: memory ran out.
    pub fn look(&self, told: u64, query: &Query) -> Result<Reply, Refusal>
        requires fresh { self.now.stale ≡ false }
        requires begun { told < end_of_time }
        ensures reads { (opened : Opened) (calls : List Call)
            → StandsFor D.Disk opened calls self.now
            → IsReadAfter D.honest opened calls told query.now result }
        // On every disk it is the reply of the plain office that the one in memory stands for.
        ensures answered { (office : plain.Office) → machine.StandsFor self.now.office office
            → IsReplyOf told query.now office result }
        // Whichever history the desk holds, it is of that one.
        ensures own { (history : List Entry) → HoldsHistory D.Disk history self.now
            → IsRead told query.now history result }
        ensures fits { AnswerFits result }
    {
        self.engine.look(told, query)
    }

    /// Gives the office, as it is after the history that the desk holds. The desk is not stale. Takes no memory.
    pub fn office(&self) -> &Office
        requires fresh { self.now.stale ≡ false }
        ensures same { result.now ≡ self.now.office }
        // It has accepted no more commands than its journal has room for.
        ensures few { result.now.records.accepted ≤ most_accepted }
    {
        self.engine.office()
    }

    /// Tells whether the journal has to be opened again: a call answered `StoreFault` or `Broken`, and none since
    /// then an `Acked` or `JournalFull`. Takes no memory.
    pub fn stale(&self) -> bool
        ensures { result ≡ self.now.stale }
    {
        self.engine.stale()
    }

    /// Ends the work of the desk, and gives the disk and the clock back. If the journal has not to be opened again and
    /// grew since the desk was opened, a checkpoint of its end is saved first. The journal file stays as it is.
    ///
    /// Cost: if a checkpoint is saved, time and memory for all records, and at most five writes and five syncs.
    ///
    /// # Errors
    ///
    /// No checkpoint is saved; the journal is complete. `StoreFault`: the disk failed. `NoMemory`: out of memory, and
    /// nothing was written.
    pub fn finish(self) -> (D, C, Result<(), SaveFault>)
        ensures closes { Closes D.Disk self result.0 result.2 }
        ensures clock { result.1 ≡ self.clock }
        ensures cause { HasSaveCause (D.fault_count self.disk) (D.fault_count result.0) result.2 }
    {
        let mut engine = self.engine;
        let saved = engine.keep_checkpoint();
        let (disk, clock) = engine.give_back();
        (disk, clock, saved)
    }
}
