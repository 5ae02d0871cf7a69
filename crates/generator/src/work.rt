// Making generated commands on a desk.
ghost use Rattle.std.specs.Prelude.{◌≡◌, ◌+◌, ◌-◌, ◌^◌, ◌<◌, ◌≤◌, ◌∷◌, []};
ghost use Rattle.std.specs.Prelude.{min, ℕ, List, false, IsTrue, OnOk, IfOk, IsSomeAnd};
ghost use Rattle.std.specs.Io.KnownBytes.{Appends};
ghost use Rattle.office_types.specs.declared.command.Ask.TheVariants as ask_of;
ghost use Rattle.office_types.specs.declared.command.Entry.{Entry};
ghost use Rattle.office_types.specs.declared.command.Query.TheVariants as query;
ghost use Rattle.plain_office.specs.Run.{run};
ghost use Rattle.desk_core.specs.Calls.{IsAnswered};
ghost use Rattle.desk_core.specs.Histories.{SlotsFit};
ghost use Rattle.generator.specs.Places.{place_after};
ghost use Rattle.generator.specs.Generated.{progress, tally};
ghost use Rattle.generator.specs.Working.{HoldsSoundly, IsDeskAfter, IsWork, AreKept, IsCounted, shown_in};

use crate::clock::PlaceClock;
use crate::draft::bucket_name;
use crate::place::Place;
use crate::tally::Tally;
use desk_core::{Acked, Clock, Desk};
use disk_core::{Disk, MemoryDisk};
use meter_journal::{Made, create};
use office_base::{BucketName, NoMemory};
use office_types::{Ask, Command, Query, Refusal, Reply};
use std::alloc::Global;

// The limit of the journal, in bytes.
const JOURNAL_LIMIT: u64 = 1_073_741_824;

// How the commands were answered.
#[derive(Clone, Copy)]
pub(crate) struct AnswerCounts {
    pub(crate) accepted: u64,
    pub(crate) refused: u64,
    pub(crate) nothing: u64,
}

impl AnswerCounts {
    fn none() -> AnswerCounts
        ensures { result ≡ record { accepted = 0; refused = 0; nothing = 0 } }
    {
        AnswerCounts {
            accepted: 0,
            refused: 0,
            nothing: 0,
        }
    }

    fn note(&mut self, reply: &Result<Reply, Refusal>)
        requires { self.old.accepted + self.old.refused + self.old.nothing < 2 ^ 64 - 1 }
        ensures { IsCounted self.old reply.now self.new }
    {
        match reply {
            Ok(Reply::NothingDue) => self.nothing += 1,
            Ok(_) => self.accepted += 1,
            Err(_) => self.refused += 1,
        }
    }
}

// What the first buckets hold, and where the journal ends.
#[derive(Clone, Copy)]
pub(crate) struct Kept {
    pub(crate) versions: u64,
    pub(crate) uploads: u64,
    pub(crate) position: u64,
}

// A desk on which the commands of a number are made, the place of the next one, and how those before it were answered.
#[derive(Drop)]
pub(crate) struct Work {
    number: u64,
    desk: Desk<MemoryDisk, PlaceClock>,
    place: Place,
    answers: AnswerCounts,
    // Names are written into this text before they are read.
    text: String,
}

// Asks a desk that is not stale. Over a disk that does not fail, only memory can run out.
fn ask<D: Disk + Drop, C: Clock + Drop>(desk: &mut Desk<D, C>, ask: &Ask) -> Result<Acked, NoMemory>
    ensures answers { IsTrue D.honest → (history : List Entry) → HoldsSoundly D.Disk history desk.old
        → desk.old.stale ≡ false
        → IfOk result (λ said. (after : List Entry)
        × IsSomeAnd (run history) (λ office. IsAnswered desk.old.limit ask.now office said history after)
        × HoldsSoundly D.Disk after desk.new) }
    ensures fresh { OnOk result (desk.new.stale ≡ false) }
    ensures once { desk.old.stale ≡ false
        → OnOk result (C.count desk.new.clock ≡ min (C.count desk.old.clock + 1) (2 ^ 64 - 1)) }
    ensures number { C.count desk.new.clock < 2 ^ 64 - 1
        → IfOk result (λ said. Appends (C.told desk.old.clock) (C.told desk.new.clock) (said.told ∷ [])) }
{
    match desk.submit(ask) {
        Ok(said) => Ok(said),
        Err(_) => Err(NoMemory),
    }
}

// Asks the desk of a load.
fn ask_next(desk: &mut Desk<MemoryDisk, PlaceClock>, question: &Ask) -> Result<Acked, NoMemory>
    ensures { (number told : ℕ) (history : List Entry) → told < 2 ^ 33 → IsDeskAfter number told history desk.old
        → IfOk result (λ said. (after : List Entry)
        × IsSomeAnd (run history) (λ office. IsAnswered desk.old.limit question.now office said history after)
        × (said.told ≡ (place_after number (told + 1)).moment)
        × IsDeskAfter number (told + 1) after desk.new) }
{
    ask(desk, question)
}

// Asks for a command, and drops it.
fn ask_command(desk: &mut Desk<MemoryDisk, PlaceClock>, command: Command) -> Result<Acked, NoMemory>
    ensures { (number told : ℕ) (history : List Entry) → told < 2 ^ 33 → IsDeskAfter number told history desk.old
        → IfOk result (λ said. (after : List Entry)
        × IsSomeAnd (run history)
        (λ office. IsAnswered desk.old.limit (ask_of.Command command) office said history after)
        × (said.told ≡ (place_after number (told + 1)).moment)
        × IsDeskAfter number (told + 1) after desk.new) }
{
    let question = Ask::Command(command);
    let said = ask_next(desk, &question);
    drop(question);
    said
}

// Asks what a bucket holds.
fn ask_bucket(
    desk: &mut Desk<MemoryDisk, PlaceClock>,
    bucket: BucketName,
) -> Result<Acked, NoMemory>
    ensures { (number told : ℕ) (history : List Entry) → told < 2 ^ 33 → IsDeskAfter number told history desk.old
        → IfOk result (λ said. (after : List Entry)
        × IsSomeAnd (run history)
        (λ office. IsAnswered desk.old.limit (ask_of.Query (query.Bucket bucket)) office said history after)
        × (said.told ≡ (place_after number (told + 1)).moment)
        × IsDeskAfter number (told + 1) after desk.new) }
{
    let question = Ask::Query(Query::Bucket(bucket));
    let said = ask_next(desk, &question);
    drop(question);
    said
}

// Makes the journal, and opens the desk over it.
fn open<D: Disk + Drop, C: Clock + Drop>(
    alloc: Global,
    mut disk: D,
    clock: C,
) -> Result<Desk<D, C>, NoMemory>
    ensures holds { IsTrue D.honest → SlotsFit [] (D.state disk)
        → IfOk result (λ desk. HoldsSoundly D.Disk [] desk) }
    ensures fresh { IfOk result (λ desk. desk.stale ≡ false) }
    ensures clock { IfOk result (λ desk. desk.clock ≡ clock) }
{
    let Ok(Made::Now) = create(&mut disk) else {
        return Err(NoMemory);
    };
    match Desk::open(alloc, disk, clock, JOURNAL_LIMIT) {
        Ok(desk) => Ok(desk),
        Err(_) => Err(NoMemory),
    }
}

// What a reply shows of a bucket: its versions and its uploads. A bucket that is not there holds nothing.
fn shown(reply: &Result<Reply, Refusal>) -> (u32, u32)
    ensures { result ≡ shown_in reply.now }
{
    match reply {
        Ok(
            Reply::BucketShown {
                versions,
                uploads,
                ..
            },
        ) => (*versions, *uploads),
        _ => (0, 0),
    }
}

impl Kept {
    fn none() -> Kept
        ensures { result ≡ record { versions = 0; uploads = 0; position = 10 } }
    {
        Kept {
            versions: 0,
            uploads: 0,
            position: 10,
        }
    }

    // Adds what a reply shows of a further bucket.
    fn add(&mut self, said: &Acked)
        requires { self.old.versions + self.old.uploads < 2 ^ 63 }
        ensures versions { self.new.versions ≡ self.old.versions + (shown_in said.now.reply).0 }
        ensures uploads { self.new.uploads ≡ self.old.uploads + (shown_in said.now.reply).1 }
        ensures position { self.new.position ≡ said.now.position }
        ensures small { self.new.versions + self.new.uploads ≤ self.old.versions + self.old.uploads + 2 ^ 33 }
    {
        let (versions, uploads) = shown(said.reply());
        self.versions += u64::from(versions);
        self.uploads += u64::from(uploads);
        self.position = said.position();
    }
}

// Asks what the four buckets hold.
fn kept_in(alloc: Global, desk: &mut Desk<MemoryDisk, PlaceClock>) -> Result<Kept, NoMemory>
    ensures { (number made : ℕ) → made < 2 ^ 32 → IsDeskAfter number made (progress number made).accepted desk.old
        → IfOk result (λ kept. AreKept 4 (progress number made) kept) }
{
    let mut kept = Kept::none();
    let mut text = String::new(alloc);
    for bucket in 0..4 {
        let said = ask_bucket(desk, bucket_name(alloc, &mut text, bucket)?)?;
        kept.add(&said);
        drop(said);
    }
    Ok(kept)
}

// Asks what the four buckets hold, and drops the desk.
fn kept_at_end(alloc: Global, mut desk: Desk<MemoryDisk, PlaceClock>) -> Result<Kept, NoMemory>
    ensures { (number made : ℕ) → made < 2 ^ 32 → IsDeskAfter number made (progress number made).accepted desk
        → IfOk result (λ kept. AreKept 4 (progress number made) kept) }
{
    let kept = kept_in(alloc, &mut desk);
    drop(desk);
    kept
}

impl Work {
    pub(crate) fn begin(alloc: Global, number: u64) -> Result<Work, NoMemory>
        ensures { IfOk result (λ work. IsWork work × (work.number ≡ number) × (work.place.made ≡ 0)) }
    {
        let disk = MemoryDisk::new(alloc, Vec::new(alloc));
        let desk = open(alloc, disk, PlaceClock::new(number))?;
        Ok(Work {
            number,
            desk,
            place: Place::before(number),
            answers: AnswerCounts::none(),
            text: String::new(alloc),
        })
    }

    // Makes the next command.
    pub(crate) fn make(&mut self, alloc: Global) -> Result<(), NoMemory>
        requires work { IsWork self.old }
        requires made { self.old.place.made < 2 ^ 32 }
        ensures work { OnOk result (IsWork self.new) }
        ensures number { OnOk result (self.new.number ≡ self.old.number) }
        ensures made { OnOk result (self.new.place.made ≡ self.old.place.made + 1) }
    {
        let command = self.place.next().command(alloc, &mut self.text)?;
        let said = ask_command(&mut self.desk, command)?;
        self.answers.note(said.reply());
        drop(said);
        Ok(())
    }

    // Counts what came of the commands.
    pub(crate) fn end(self, alloc: Global) -> Result<Tally, NoMemory>
        requires work { IsWork self }
        requires made { self.place.made < 2 ^ 32 }
        ensures { IfOk result (λ counts. counts ≡ tally self.number self.place.made) }
    {
        let kept = kept_at_end(alloc, self.desk)?;
        Ok(Tally {
            made: self.place.made,
            accepted: self.answers.accepted,
            refused: self.answers.refused,
            nothing: self.answers.nothing,
            versions: kept.versions,
            uploads: kept.uploads,
            journal: kept.position + 1,
        })
    }
}
