// An office over its journal.
ghost use Rattle.std.specs.Prelude.{◌≡◌, ◌⊎◌, ◌+◌, ◌-◌, ◌<◌, ◌≤◌, ◌^◌};
ghost use Rattle.std.specs.Prelude.{length, true, false, IsTrue, IfSome, option_copied, Some, None, Ok, Err};
ghost use Rattle.moments.specs.Time.{end_of_time};
ghost use Rattle.office_types.specs.declared.command.Entry.{Entry};
ghost use Rattle.office_types.specs.declared.command.Ask.{Ask};
ghost use Rattle.office_types.specs.declared.command.Ask.TheVariants as ask_of;
ghost use Rattle.office_types.specs.declared.refusal.Refusal.TheVariants.{NoMemory};
ghost use Rattle.office_types.specs.Fits.{ReplyFits, AnswerFits};
ghost use Rattle.office_types.specs.Entries.{entry_with};
ghost use Rattle.office_types.specs.Tokens.{MayCarry};
ghost use Rattle.kept_replies.specs.Queue.{kept_in};
ghost use Rattle.plain_office.specs.Office as plain;
ghost use Rattle.plain_office.specs.Run.{is_not_before};
ghost use Rattle.office_machine.specs.Once.{StandsFor};
ghost use Rattle.entry_codec.specs.Spelling.{EntryFits, IsEntry, spelling};
ghost use Rattle.meter_journal.specs.History.{end_gate, IsAtRest};
ghost use Rattle.desk_core.specs.Asked.{AsksFor};
ghost use Rattle.desk_core.specs.Calls.{moment_after};
ghost use Rattle.desk_core.specs.Desk.{DeskView, HoldsTail, IsReady, IsLast, IsStamped, stale_after};
ghost use Rattle.desk_core.specs.Submitting.{PassesLimit, RepliesInTime, HasCauses};
ghost use Rattle.desk_core.specs.Looking.{IsReplyOf};
ghost use Rattle.desk_core.specs.Numbers.{IsNumber};
ghost use Rattle.desk_core.specs.Offices.{Tail};
ghost use Rattle.desk_core.specs.Reading.{IsOpenable};
ghost use Rattle.desk_core.specs.Answering.{call_time, AddsEntry, AnswersInTime, AnswersAt, AnswersAsk};

use crate::acked::Acked;
use crate::clock::Clock;
use crate::fault::DeskFault;
use disk_core::Disk;
use entry_codec::encode_command;
use meter_journal::{AppendFault, Journal};
use moments::Moment;
use office_machine::Office;
use office_types::{Ask, Command, Query, Refusal, Reply, Token};
use std::alloc::Global;
use std::marker::Model;

// The office after the entries of a journal, with the journal's end, now and when it was opened, and a clock, and
// whether the journal has to be opened again.
#[derive(Drop)]
pub(crate) struct Engine<D: Disk + Drop, C: Clock + Drop> {
    pub(crate) alloc: Global,
    pub(crate) office: Office,
    pub(crate) journal: Journal<D>,
    pub(crate) opened_at: u64,
    pub(crate) clock: C,
    pub(crate) stale: bool,
}

impl<D: Disk + Drop, C: Clock + Drop> Model for Engine<D, C> {
    ghost use Rattle.std.specs.Prelude.{◌≤◌, ◌^◌};
    ghost use Rattle.desk_core.specs.Desk.{DeskView};

    ghost Value = { DeskView D C };

    ghost view = { λ e. record {
      disk = e.journal.disk;
      clock = e.clock;
      office = e.office;
      gate = e.journal.gate;
      opened_at = e.opened_at;
      limit = e.journal.limit;
      stale = e.stale;
    } };

    ghost invariant = { λ e. e.journal.limit ≤ 2 ^ 45 };
}

// The later of the clock's number and the last moment.
fn moment_for(told: u64, last: Option<Moment>) -> u64
    ensures same { result ≡ moment_after told last }
    ensures later { IsTrue (is_not_before last result) }
{
    match last {
        Some(moment) => told.max(moment.ms()),
        None => told,
    }
}

impl<D: Disk + Drop, C: Clock + Drop> Engine<D, C> {
    // An office whose journal was not read yet.
    pub(crate) fn over(alloc: Global, disk: D, clock: C, limit: u64) -> Self
        requires { limit ≤ 2 ^ 45 }
        ensures disk { result.disk ≡ disk }
        ensures clock { result.clock ≡ clock }
        ensures limit { result.limit ≡ limit }
        ensures fresh { result.stale ≡ false }
    {
        Engine {
            alloc,
            office: Office::new(alloc),
            journal: Journal::over(disk, limit),
            opened_at: 0,
            clock,
            stale: false,
        }
    }

    pub(crate) fn stale(&self) -> bool
        ensures { result ≡ self.now.stale }
    {
        self.stale
    }

    // Marks whether the journal has to be opened again, after a call of an office of which this was so or not before.
    pub(crate) fn mark(&mut self, was_stale: bool, said: &Result<Acked, DeskFault>)
        ensures { self.new ≡ record self.old { stale = stale_after was_stale said.now } }
    {
        self.stale = match said {
            Ok(_) => false,
            Err(DeskFault::StoreFault { .. }) => true,
            Err(DeskFault::JournalFull) => false,
            Err(DeskFault::Broken(_)) => true,
            Err(DeskFault::NoMemory) => was_stale,
        };
    }

    // Notes that the desk was opened here, at the journal's end.
    pub(crate) fn note_opening(&mut self)
        ensures { self.new ≡ record self.old { opened_at = self.old.gate } }
    {
        self.opened_at = self.journal.end();
    }

    pub(crate) fn give_back(self) -> (D, C)
        ensures disk { result.0 ≡ self.disk }
        ensures clock { result.1 ≡ self.clock }
    {
        drop(self.office);
        (self.journal.give_back(), self.clock)
    }

    fn answer(&self, moment: u64, told: u64, reply: Result<Reply, Refusal>) -> Acked
        requires enough { reply ≡ Err NoMemory → ⊥ }
        requires reply_fits { AnswerFits reply }
        ensures { result
            ≡ record {
              moment = moment;
              told = told;
              reply = reply;
              position = self.now.gate;
              disk_moment = D.moment self.now.disk;
            } }
    {
        Acked::new(
            moment,
            told,
            reply,
            self.journal.end(),
            self.journal.disk().stamp(),
        )
    }

    // Adds the entry of a command that the office did.
    fn append_then_answer(
        &mut self,
        moment: Moment,
        told: u64,
        reply: Reply,
        bytes: &[u8],
    ) -> Result<Acked, DeskFault>
        requires reply_fits { ReplyFits reply }
        requires entry { IsEntry bytes.now }
        requires fits { self.old.gate + 6 + length bytes.now ≤ self.old.limit }
        requires at_rest { IsTrue D.honest → (before : Tail)
            × IsAtRest before.head (D.state self.old.disk) self.old.gate before.entries }

        ensures adds { (before : Tail) (e : Entry) → EntryFits e → bytes.now ≡ spelling e
            → self.old.gate ≡ end_gate before.head before.entries
            → (IsTrue D.honest → IsAtRest before.head (D.state self.old.disk) self.old.gate before.entries)
            → AddsEntry D.Disk (call_time moment told) (Ok reply) before e self.old self.new result }
        ensures office { self.new.office ≡ self.old.office }
        ensures clock { self.new.clock ≡ self.old.clock }
        ensures limit { self.new.limit ≡ self.old.limit }
        ensures opened_at { self.new.opened_at ≡ self.old.opened_at }
        ensures later { D.fault_count self.old.disk ≤ D.fault_count self.new.disk }
    {
        match self.journal.append(bytes) {
            Ok(_) => Ok(self.answer(moment.ms(), told, Ok(reply))),
            Err(AppendFault::JournalFull) => {
                drop(reply);
                Err(DeskFault::JournalFull)
            }
            Err(AppendFault::StoreFault) => {
                drop(reply);
                Err(DeskFault::StoreFault {
                    told: Some(told),
                    faults: self.journal.disk().faults(),
                })
            }
        }
    }

    // Does a command at a moment, under whose token no reply is kept, and adds its entry where the office accepts it.
    fn apply_then_append(
        &mut self,
        moment: Moment,
        told: u64,
        token: Option<&Token>,
        command: &Command,
        bytes: &[u8],
    ) -> Result<Acked, DeskFault>
        requires spelled { bytes.now ≡ spelling (entry_with moment (option_copied token) command.now) }
        requires entry { EntryFits (entry_with moment (option_copied token) command.now) }
        requires new { IfSome (option_copied token) (λ one. kept_in one self.old.office.kept.queue ≡ None) }
        requires later { IsTrue (is_not_before self.old.office.records.last moment) }
        requires fits { self.old.gate + 6 + length bytes.now ≤ self.old.limit }
        requires ready { IsReady D.Disk self.old }

        ensures keeps { (question : Ask) (before : Tail) (hold : HoldsTail D.Disk before self.old)
            → AsksFor question (option_copied token.entry) command.now
            → AnswersInTime D.Disk (call_time moment told) question hold.office.plain before self.old self.new result }
        ensures replies { (question : Ask) (office : plain.Office) → StandsFor self.old.office office
            → AsksFor question (option_copied token.entry) command.now
            → RepliesInTime moment question office result self.new.office }
        ensures clock { self.new.clock ≡ self.old.clock }
        ensures limit { self.new.limit ≡ self.old.limit }
        ensures opened_at { self.new.opened_at ≡ self.old.opened_at }
        ensures later { D.fault_count self.old.disk ≤ D.fault_count self.new.disk }
    {
        match self.office.apply(moment, token, command) {
            Ok(reply) => match reply {
                Reply::NothingDue => { Ok(self.answer(moment.ms(), told, Ok(Reply::NothingDue))) }
                done => self.append_then_answer(moment, told, done, bytes),
            },
            Err(refusal) => match refusal {
                Refusal::NoMemory => Err(DeskFault::NoMemory),
                other => Ok(self.answer(moment.ms(), told, Err(other))),
            },
        }
    }

    // Does a command at a moment, under whose token no reply is kept, where its frame fits.
    fn run_command(
        &mut self,
        moment: Moment,
        told: u64,
        token: Option<&Token>,
        command: &Command,
    ) -> Result<Acked, DeskFault>
        requires carries { MayCarry (option_copied token) command.now }
        requires new { IfSome (option_copied token) (λ one. kept_in one self.old.office.kept.queue ≡ None) }
        requires later { IsTrue (is_not_before self.old.office.records.last moment) }
        requires ready { IsReady D.Disk self.old }

        ensures keeps { (question : Ask) (before : Tail) (hold : HoldsTail D.Disk before self.old)
            → AsksFor question (option_copied token.entry) command.now
            → AnswersInTime D.Disk (call_time moment told) question hold.office.plain before self.old self.new result }
        ensures replies { (question : Ask) (office : plain.Office) → StandsFor self.old.office office
            → AsksFor question (option_copied token.entry) command.now
            → RepliesInTime moment question office result self.new.office }
        ensures full { self.old.limit < self.old.gate + 6
            + length (spelling (entry_with moment (option_copied token.entry) command.now))
            → (result ≡ Err DeskFault.JournalFull) ⊎ (result ≡ Err DeskFault.NoMemory) }
        ensures clock { self.new.clock ≡ self.old.clock }
        ensures limit { self.new.limit ≡ self.old.limit }
        ensures opened_at { self.new.opened_at ≡ self.old.opened_at }
        ensures later { D.fault_count self.old.disk ≤ D.fault_count self.new.disk }
    {
        let Ok(bytes) = encode_command(self.alloc, moment, token, command) else {
            return Err(DeskFault::NoMemory);
        };
        if !self.journal.fits(bytes.len() as u64) {
            return Err(DeskFault::JournalFull);
        }
        self.apply_then_append(moment, told, token, command, &bytes)
    }

    // Does a command with a token at a moment, or gives its first reply again, for which nothing is written. A token
    // that the command may not carry counts as none.
    fn run_once(
        &mut self,
        moment: Moment,
        told: u64,
        token: &Token,
        command: &Command,
    ) -> Result<Acked, DeskFault>
        requires later { IsTrue (is_not_before self.old.office.records.last moment) }
        requires ready { IsReady D.Disk self.old }

        ensures keeps { (before : Tail) (hold : HoldsTail D.Disk before self.old)
            → AnswersInTime D.Disk (call_time moment told)
            (ask_of.Once token.now command.now) hold.office.plain before self.old self.new result }
        ensures replies { (office : plain.Office) → StandsFor self.old.office office
            → RepliesInTime moment (ask_of.Once token.now command.now) office result self.new.office }
        ensures full { PassesLimit moment self.old (ask_of.Once token.now command.now)
            → (result ≡ Err DeskFault.JournalFull) ⊎ (result ≡ Err DeskFault.NoMemory) }
        ensures clock { self.new.clock ≡ self.old.clock }
        ensures limit { self.new.limit ≡ self.old.limit }
        ensures opened_at { self.new.opened_at ≡ self.old.opened_at }
        ensures later { D.fault_count self.old.disk ≤ D.fault_count self.new.disk }
    {
        if !command.takes_token() {
            return self.run_command(moment, told, None, command);
        }
        match self.office.recall(token, command) {
            Ok(Some(reply)) => Ok(self.answer(moment.ms(), told, Ok(reply))),
            Ok(None) => self.run_command(moment, told, Some(token), command),
            Err(refusal) => match refusal {
                Refusal::NoMemory => Err(DeskFault::NoMemory),
                other => Ok(self.answer(moment.ms(), told, Err(other))),
            },
        }
    }

    // Answers a query at a moment.
    fn answer_query(&self, moment: Moment, told: u64, query: &Query) -> Result<Acked, DeskFault>
        requires later { IsTrue (is_not_before self.now.office.records.last moment) }
        requires ready { IsReady D.Disk self.now }

        ensures keeps { (before : Tail) (hold : HoldsTail D.Disk before self.now)
            → AnswersInTime D.Disk (call_time moment told)
            (ask_of.Query query.now) hold.office.plain before self.now self.now result }
        ensures replies { (office : plain.Office) → StandsFor self.now.office office
            → RepliesInTime moment (ask_of.Query query.now) office result self.now.office }
    {
        match self.office.answer(moment, query) {
            Ok(reply) => Ok(self.answer(moment.ms(), told, Ok(reply))),
            Err(refusal) => match refusal {
                Refusal::NoMemory => Err(DeskFault::NoMemory),
                refused => Ok(self.answer(moment.ms(), told, Err(refused))),
            },
        }
    }

    // The office, as it is in memory.
    pub(crate) fn office(&self) -> &Office
        ensures { result.now ≡ self.now.office }
    {
        &self.office
    }

    // Answers a query as of a number that the clock told before.
    pub(crate) fn look(&self, told: u64, query: &Query) -> Result<Reply, Refusal>
        requires begun { told < end_of_time }

        ensures reads { (office : plain.Office) → StandsFor self.now.office office
            → IsReplyOf told query.now office result }
        ensures fits { AnswerFits result }
    {
        match Moment::of(moment_for(told, self.office.last())) {
            Ok(moment) => self.office.answer(moment, query),
            Err(_) => unreachable!(),
        }
    }

    // Answers an ask at a moment, which may be past the end of time.
    fn answer_at(&mut self, moment: u64, told: u64, ask: &Ask) -> Result<Acked, DeskFault>
        requires later { IsTrue (is_not_before self.old.office.records.last moment) }
        requires ready { IsReady D.Disk self.old }

        ensures answers { (before : Tail) (hold : HoldsTail D.Disk before self.old)
            → AnswersAt D.Disk (call_time moment told) ask.now hold.office.plain before self.old self.new result }
        ensures replies { (office : plain.Office) → StandsFor self.old.office office → moment < end_of_time
            → RepliesInTime moment ask.now office result self.new.office }
        ensures full { PassesLimit moment self.old ask.now
            → (result ≡ Err DeskFault.JournalFull) ⊎ (result ≡ Err DeskFault.NoMemory) }
        ensures clock { self.new.clock ≡ self.old.clock }
        ensures limit { self.new.limit ≡ self.old.limit }
        ensures opened_at { self.new.opened_at ≡ self.old.opened_at }
        ensures later { D.fault_count self.old.disk ≤ D.fault_count self.new.disk }
    {
        let Ok(at) = Moment::of(moment) else {
            return Ok(self.answer(moment, told, Err(Refusal::ClockEnd { moment })));
        };
        match ask {
            Ask::Command(command) => self.run_command(at, told, None, command),
            Ask::Once { token, command } => self.run_once(at, told, token, command),
            Ask::Query(query) => self.answer_query(at, told, query),
        }
    }

    // Asks the clock, and answers at its number.
    pub(crate) fn answer_now(&mut self, ask: &Ask) -> Result<Acked, DeskFault>
        requires ready { IsReady D.Disk self.old }

        ensures asks { AnswersAsk D.Disk (C.last self.new.clock) ask.now self.old self.new result }
        ensures tells { HasCauses D.Disk C.Clock self.old ask.now result self.new }
        ensures number { C.count self.new.clock < 2 ^ 64 - 1
            → IsNumber (C.told self.old.clock) (C.told self.new.clock) result }
        ensures last { IsLast (C.last self.new.clock) result }
        ensures stamped { IsStamped result self.new.gate (D.moment self.new.disk) }
        // It takes a further call, but after a fault of the store.
        ensures ready { stale_after false result ≡ false → IsReady D.Disk self.new }
        // Its journal can be opened again.
        ensures openable { IsTrue D.honest → IsOpenable (D.state self.new.disk) }
        ensures limit { self.new.limit ≡ self.old.limit }
        ensures opened_at { self.new.opened_at ≡ self.old.opened_at }
        ensures clock_later { C.count self.old.clock ≤ C.count self.new.clock }
        ensures disk_later { D.fault_count self.old.disk ≤ D.fault_count self.new.disk }
    {
        let told = self.clock.now();
        let moment = moment_for(told, self.office.last());
        self.answer_at(moment, told, ask)
    }
}
