ghost use Rattle.std.specs.Prelude.{◌≡◌};
ghost use Rattle.plain_office.specs.Run.{is_not_before};

use crate::given::{bucket, equal, moment};
use class_rules::Class;
use moments::{Moment, Month};
use office_base::{Key, Size, Tags, VersionId};
use office_machine::Office;
use office_types::{Ask, ClassMeters, Command, Query, Refusal, Reply, Token, What};
use rules_json::read_rules;
use std::alloc::Global;
use std::marker::Model;
use std::process::Abort;

// 2024-01-01 00:00 UTC, and the milliseconds of a day.
const NEW_YEAR: u64 = 1_704_067_200_000;

const DAY: u64 = 86_400_000;

// What an office is asked about a bucket with this name.
#[derive(Clone, Copy)]
enum Wish<'a> {
    Make(&'a str),
    // A put under this key, of this many bytes, with this many tags.
    Put(&'a str, &'a str, u64, Class, u64),
    Show(&'a str),
    // The meters of this month of a year.
    Meters(&'a str, u16, u8),
}

// What was used of STANDARD and STANDARD_IA in byte-milliseconds, and the early-deletion quantity of the latter;
// nothing else was used.
#[derive(Clone, Copy, Debug, PartialEq, Eq)]
struct Used {
    standard: u128,
    infrequent: u128,
    early: u128,
}

// What was answered.
#[derive(Clone, Copy, Debug, PartialEq, Eq)]
enum Heard {
    Made,
    Stored,
    // Stored at another moment, in milliseconds.
    StoredAt(u64),
    // The number of versions.
    Shown(u32),
    Metered(Used),
    Exists,
    Missing,
    Full(What, u64),
    // The token is kept with a command of this kind.
    Reused(u8),
    // Another refusal, or a reply to something else.
    Other,
}

// An office after a few commands.
#[derive(Drop)]
struct Tried {
    office: Office,
    asked: u64,
}

impl Model for Tried {
    ghost use Rattle.std.specs.Prelude.{◌≤◌};
    ghost use Rattle.office_machine.specs.Once.{OfficeView};

    ghost Value = { OfficeView };

    ghost view = { λ t. t.office };

    ghost invariant = { λ t. t.office.records.accepted ≤ t.asked };
}

// A name with a number at its end.
fn numbered(rt: &impl Abort, alloc: Global, name: &str, number: u64) -> String {
    format!(in alloc; "{name}-{number}").expect(rt, "memory")
}

// This many tags, with different keys.
fn tags(rt: &impl Abort, alloc: Global, number: u64) -> Tags {
    let mut pairs = Vec::new(alloc);
    for n in 0..number {
        let key = numbered(rt, alloc, "key", n);
        let value = String::from_str(alloc, "value").expect(rt, "memory");
        pairs.push((key, value)).expect(rt, "memory");
    }
    Tags::read(alloc, pairs).expect(rt, "tags")
}

fn put(
    rt: &impl Abort,
    alloc: Global,
    name: &str,
    key: &str,
    size: Size,
    class: Class,
    number: u64,
) -> Command {
    Command::Put {
        bucket: bucket(rt, alloc, name),
        key: Key::read(alloc, key.as_bytes()).expect(rt, "a key"),
        size,
        class,
        tags: tags(rt, alloc, number),
    }
}

// The ask for a wish.
fn asked(rt: &impl Abort, alloc: Global, wish: Wish<'_>) -> Ask {
    match wish {
        Wish::Make(name) => Ask::Command(Command::CreateBucket {
            bucket: bucket(rt, alloc, name),
        }),
        Wish::Put(name, key, size, class, number) => {
            let size = Size::of(size).expect(rt, "a size");
            Ask::Command(put(rt, alloc, name, key, size, class, number))
        }
        Wish::Show(name) => Ask::Query(Query::Bucket(bucket(rt, alloc, name))),
        Wish::Meters(name, year, number) => {
            let month = Month::of(year, number).expect(rt, "a month");
            Ask::Query(Query::Meters(bucket(rt, alloc, name), month))
        }
    }
}

fn read_token(rt: &impl Abort, alloc: Global, text: &str) -> Token {
    let read = Token::read(alloc, text.as_bytes()).expect(rt, "memory");
    read.expect(rt, "a token")
}

// A command with a token.
fn once(rt: &impl Abort, token: Token, ask: Ask) -> Ask {
    match ask {
        Ask::Command(command) => Ask::Once { token, command },
        _ => panic!(rt; "no command"),
    }
}

impl Tried {
    fn new(alloc: Global) -> Tried {
        Tried {
            office: Office::new(alloc),
            asked: 0,
        }
    }

    // Does what is wished, and returns the answer.
    fn turn(&mut self, rt: &impl Abort, alloc: Global, ms: u64, wish: Wish<'_>) -> Heard {
        self.heard(rt, ms, asked(rt, alloc, wish), wish)
    }

    // What is heard if this is asked for a wish.
    fn heard(&mut self, rt: &impl Abort, ms: u64, ask: Ask, wish: Wish<'_>) -> Heard {
        let said = self.said(rt, moment(rt, ms), &ask);
        drop(ask);
        let heard = answer_of(&said, ms, wish);
        drop(said);
        heard
    }

    fn said(&mut self, rt: &impl Abort, moment: Moment, ask: &Ask) -> Result<Reply, Refusal> {
        match ask {
            Ask::Command(command) => self.ask(rt, moment, command),
            Ask::Query(query) => self.show(rt, moment, query),
            Ask::Once { token, command } => self.ask_once(rt, moment, token, command),
        }
    }

    fn ask(
        &mut self,
        rt: &impl Abort,
        moment: Moment,
        command: &Command,
    ) -> Result<Reply, Refusal> {
        assert!(rt; self.is_later(moment));
        assert!(rt; self.asked < 1_000_000);
        self.asked += 1;
        self.office.apply(moment, None, command)
    }

    // Asks for a command with a token. Its kept reply is given, or the command is done.
    fn ask_once(
        &mut self,
        rt: &impl Abort,
        moment: Moment,
        token: &Token,
        command: &Command,
    ) -> Result<Reply, Refusal> {
        assert!(rt; command.takes_token());
        assert!(rt; self.is_later(moment));
        assert!(rt; self.asked < 1_000_000);
        match self.office.recall(token, command) {
            Ok(Some(reply)) => return Ok(reply),
            Ok(None) => {}
            Err(refusal) => return Err(refusal),
        }
        self.asked += 1;
        self.office.apply(moment, Some(token), command)
    }

    // Does what is wished with a token, and returns the answer.
    fn turn_once(
        &mut self,
        rt: &impl Abort,
        alloc: Global,
        ms: u64,
        token: &str,
        wish: Wish<'_>,
    ) -> Heard {
        let token = read_token(rt, alloc, token);
        let ask = once(rt, token, asked(rt, alloc, wish));
        self.heard(rt, ms, ask, wish)
    }

    fn show(&self, rt: &impl Abort, moment: Moment, query: &Query) -> Result<Reply, Refusal> {
        assert!(rt; self.is_later(moment));
        self.office.answer(moment, query)
    }

    // Whether the moment is not before the last one.
    fn is_later(&self, moment: Moment) -> bool
        ensures { result ≡ is_not_before self.now.records.last moment }
    {
        match self.office.last() {
            Some(last) => last.ms() <= moment.ms(),
            None => true,
        }
    }

    fn last_ms(&self) -> Option<u64> {
        match self.office.last() {
            Some(last) => Some(last.ms()),
            None => None,
        }
    }
}

// What is heard at a moment, if it is an answer to the wish.
fn answer_of(said: &Result<Reply, Refusal>, ms: u64, wish: Wish<'_>) -> Heard {
    match said {
        Ok(reply) => {
            if is_about(reply, wish) {
                told(reply, ms)
            } else {
                Heard::Other
            }
        }
        Err(refusal) => refused(refusal),
    }
}

// Whether a reply has the names of the wish and nothing that was not wished.
fn is_about(reply: &Reply, wish: Wish<'_>) -> bool {
    match wish {
        Wish::Make(name) => match reply {
            Reply::BucketMade { bucket } => bucket.text() == name,
            _ => false,
        },
        Wish::Put(..) => match reply {
            Reply::Stored { version, .. } => *version == VersionId::Null,
            _ => false,
        },
        Wish::Show(name) => match reply {
            Reply::BucketShown {
                bucket,
                rules,
                uploads,
                ..
            } => bucket.text() == name && *rules == 0 && *uploads == 0,
            _ => false,
        },
        Wish::Meters(name, year, number) => match reply {
            Reply::MetersShown { bucket, month, .. } => {
                bucket.text() == name && month.year() == year && month.month() == number
            }
            _ => false,
        },
    }
}

fn told(reply: &Reply, ms: u64) -> Heard {
    match reply {
        Reply::BucketMade { .. } => Heard::Made,
        Reply::Stored { moment, .. } => stored(moment.ms(), ms),
        Reply::BucketShown { versions, .. } => Heard::Shown(*versions),
        Reply::MetersShown { classes, .. } => metered(classes.as_slice()),
        _ => Heard::Other,
    }
}

fn stored(at: u64, ms: u64) -> Heard {
    if at == ms {
        Heard::Stored
    } else {
        Heard::StoredAt(at)
    }
}

fn refused(refusal: &Refusal) -> Heard {
    match refusal {
        Refusal::BucketExists => Heard::Exists,
        Refusal::NoSuchBucket => Heard::Missing,
        Refusal::Full { what, limit } => Heard::Full(*what, *limit),
        Refusal::TokenReused { kind } => Heard::Reused(*kind),
        _ => Heard::Other,
    }
}

fn metered(meters: &[ClassMeters]) -> Heard {
    let [standard, infrequent, ..] = meters else {
        return Heard::Other;
    };
    let used = Used {
        standard: standard.byte_ms,
        infrequent: infrequent.byte_ms,
        early: infrequent.early_byte_ms,
    };
    let wanted = [
        used.of(Class::Standard),
        used.of(Class::StandardIa),
        used.of(Class::OnezoneIa),
        used.of(Class::GlacierIr),
        used.of(Class::Glacier),
        used.of(Class::DeepArchive),
    ];
    if meters == wanted.as_slice() {
        Heard::Metered(used)
    } else {
        Heard::Other
    }
}

impl Used {
    fn of(self, class: Class) -> ClassMeters {
        let (byte_ms, early_byte_ms) = match class {
            Class::Standard => (self.standard, 0),
            Class::StandardIa => (self.infrequent, self.early),
            _ => (0, 0),
        };
        ClassMeters {
            class,
            byte_ms,
            early_byte_ms,
            moves: 0,
        }
    }
}

// The moment, the wish, the answer, and the moment of the last accepted command afterwards.
type Row = (u64, Wish<'static>, Heard, u64);

fn assert_rows(rt: &impl Abort, alloc: Global, table: usize, rows: &[Row]) {
    let mut tried = Tried::new(alloc);
    equal(rt, &table, &tried.last_ms(), &None);
    for (index, (ms, wish, answer, last)) in rows.iter().enumerate() {
        let found = (tried.turn(rt, alloc, *ms, *wish), tried.last_ms());
        equal(rt, &(table, index), &found, &(*answer, Some(*last)));
    }
    drop(tried);
}

const MADE: Heard = Heard::Made;

const EXISTS: Heard = Heard::Exists;

const MISSING: Heard = Heard::Missing;

const STANDARD: Class = Class::Standard;

const LOGS: Wish<'static> = Wish::Show("logs");

const DATA: Wish<'static> = Wish::Show("data");

const NAMES: &[Row] = &[
    (5, Wish::Make("logs"), MADE, 5),
    (5, Wish::Make("data"), MADE, 5),
    (6, Wish::Make("logs"), EXISTS, 5),
    (7, Wish::Make("zoo"), MADE, 7),
    (8, Wish::Make("data"), EXISTS, 7),
    (9, Wish::Make("log"), MADE, 9),
    (9, Wish::Make("logs-2"), MADE, 9),
    (10, Wish::Make("logs"), EXISTS, 9),
];

const PUTS: &[Row] = &[
    (5, Wish::Make("logs"), MADE, 5),
    (5, Wish::Make("data"), MADE, 5),
    (6, Wish::Put("logs", "a", 1, STANDARD, 0), Heard::Stored, 6),
    (6, LOGS, Heard::Shown(1), 6),
    (6, DATA, Heard::Shown(0), 6),
    (6, Wish::Put("logs", "b", 1, STANDARD, 0), Heard::Stored, 6),
    (6, LOGS, Heard::Shown(2), 6),
    (6, DATA, Heard::Shown(0), 6),
    (7, Wish::Put("logs", "a", 1, STANDARD, 0), Heard::Stored, 7),
    (7, LOGS, Heard::Shown(2), 7),
    (7, DATA, Heard::Shown(0), 7),
    (8, Wish::Put("zoo", "a", 1, STANDARD, 0), MISSING, 7),
    (8, LOGS, Heard::Shown(2), 7),
    (8, DATA, Heard::Shown(0), 7),
    (9, Wish::Put("data", "a", 1, STANDARD, 0), Heard::Stored, 9),
    (9, LOGS, Heard::Shown(2), 9),
    (9, DATA, Heard::Shown(1), 9),
    (9, Wish::Put("log", "a", 1, STANDARD, 0), MISSING, 9),
    (9, LOGS, Heard::Shown(2), 9),
    (9, DATA, Heard::Shown(1), 9),
    (
        10,
        Wish::Put("logs", "a/b", 1, STANDARD, 0),
        Heard::Stored,
        10,
    ),
    (10, LOGS, Heard::Shown(3), 10),
    (10, DATA, Heard::Shown(1), 10),
    (11, Wish::Show("zoo"), MISSING, 10),
];

const TWO_PUTS: &[Row] = &[
    (NEW_YEAR, Wish::Make("logs"), MADE, NEW_YEAR),
    (
        NEW_YEAR,
        Wish::Put("logs", "a", 1_000, STANDARD, 0),
        Heard::Stored,
        NEW_YEAR,
    ),
    (
        NEW_YEAR + DAY,
        Wish::Put("logs", "a", 2_000, STANDARD, 0),
        Heard::Stored,
        NEW_YEAR + DAY,
    ),
    (
        NEW_YEAR + DAY,
        Wish::Meters("logs", 2024, 1),
        Heard::Metered(Used {
            standard: 86_400_000_000,
            infrequent: 0,
            early: 0,
        }),
        NEW_YEAR + DAY,
    ),
    (
        NEW_YEAR + 2 * DAY,
        Wish::Meters("logs", 2024, 1),
        Heard::Metered(Used {
            standard: 259_200_000_000,
            infrequent: 0,
            early: 0,
        }),
        NEW_YEAR + DAY,
    ),
    (
        NEW_YEAR + 2 * DAY,
        Wish::Meters("logs", 2023, 12),
        Heard::Metered(Used {
            standard: 0,
            infrequent: 0,
            early: 0,
        }),
        NEW_YEAR + DAY,
    ),
    (
        NEW_YEAR + 2 * DAY,
        Wish::Meters("logs", 2024, 2),
        Heard::Metered(Used {
            standard: 0,
            infrequent: 0,
            early: 0,
        }),
        NEW_YEAR + DAY,
    ),
    (
        NEW_YEAR + 32 * DAY,
        Wish::Meters("logs", 2024, 2),
        Heard::Metered(Used {
            standard: 172_800_000_000,
            infrequent: 0,
            early: 0,
        }),
        NEW_YEAR + DAY,
    ),
];

const REPLACED: &[Row] = &[
    (NEW_YEAR, Wish::Make("logs"), MADE, NEW_YEAR),
    (
        NEW_YEAR,
        Wish::Put("logs", "a", 200_000, Class::StandardIa, 0),
        Heard::Stored,
        NEW_YEAR,
    ),
    (
        NEW_YEAR + 10 * DAY,
        Wish::Put("logs", "a", 0, STANDARD, 0),
        Heard::Stored,
        NEW_YEAR + 10 * DAY,
    ),
    (
        NEW_YEAR + 10 * DAY,
        Wish::Meters("logs", 2024, 1),
        Heard::Metered(Used {
            standard: 0,
            infrequent: 172_800_000_000_000,
            early: 345_600_000_000_000,
        }),
        NEW_YEAR + 10 * DAY,
    ),
    (
        NEW_YEAR + 31 * DAY,
        Wish::Meters("logs", 2024, 1),
        Heard::Metered(Used {
            standard: 0,
            infrequent: 172_800_000_000_000,
            early: 345_600_000_000_000,
        }),
        NEW_YEAR + 10 * DAY,
    ),
    (
        NEW_YEAR + 31 * DAY,
        Wish::Meters("logs", 2024, 2),
        Heard::Metered(Used {
            standard: 0,
            infrequent: 0,
            early: 0,
        }),
        NEW_YEAR + 10 * DAY,
    ),
];

// 100 bytes in STANDARD_IA are billed as 131,072.
const LEFT_EARLY: &[Row] = &[
    (NEW_YEAR, Wish::Make("logs"), MADE, NEW_YEAR),
    (
        NEW_YEAR,
        Wish::Put("logs", "a", 100, Class::StandardIa, 0),
        Heard::Stored,
        NEW_YEAR,
    ),
    (
        NEW_YEAR + 10 * DAY,
        Wish::Put("logs", "a", 0, STANDARD, 0),
        Heard::Stored,
        NEW_YEAR + 10 * DAY,
    ),
    (
        NEW_YEAR + 10 * DAY,
        Wish::Meters("logs", 2024, 1),
        Heard::Metered(Used {
            standard: 0,
            infrequent: 113_246_208_000_000,
            early: 226_492_416_000_000,
        }),
        NEW_YEAR + 10 * DAY,
    ),
];

const LEFT_AT_THE_LEAST_DURATION: &[Row] = &[
    (NEW_YEAR, Wish::Make("logs"), MADE, NEW_YEAR),
    (
        NEW_YEAR,
        Wish::Put("logs", "a", 100, Class::StandardIa, 0),
        Heard::Stored,
        NEW_YEAR,
    ),
    (
        NEW_YEAR + 30 * DAY,
        Wish::Put("logs", "a", 0, STANDARD, 0),
        Heard::Stored,
        NEW_YEAR + 30 * DAY,
    ),
    (
        NEW_YEAR + 30 * DAY,
        Wish::Meters("logs", 2024, 1),
        Heard::Metered(Used {
            standard: 0,
            infrequent: 339_738_624_000_000,
            early: 0,
        }),
        NEW_YEAR + 30 * DAY,
    ),
];

const TAGGED: &[Row] = &[
    (5, Wish::Make("logs"), MADE, 5),
    (6, Wish::Put("logs", "a", 1, STANDARD, 10), Heard::Stored, 6),
    (7, Wish::Put("logs", "a", 1, STANDARD, 1), Heard::Stored, 7),
    (8, Wish::Put("logs", "b", 1, STANDARD, 2), Heard::Stored, 8),
    (9, LOGS, Heard::Shown(2), 8),
];

const OFFICES: &[&[Row]] = &[
    NAMES,
    PUTS,
    TWO_PUTS,
    REPLACED,
    LEFT_EARLY,
    LEFT_AT_THE_LEAST_DURATION,
    TAGGED,
];

#[test]
fn commands_and_queries(rt: HostRuntime) {
    for (table, rows) in OFFICES.iter().enumerate() {
        assert_rows(&rt, rt.alloc(), table, *rows);
    }
}

// The moment, the token, the wish, the answer, and the moment of the last accepted command afterwards.
type OnceRow = (u64, &'static str, Wish<'static>, Heard, u64);

// A refused command keeps no reply; an accepted one gets its first reply again, at any moment.
const ONCE: &[OnceRow] = &[
    (5, "t1", Wish::Make("logs"), MADE, 5),
    (6, "t1", Wish::Make("logs"), MADE, 5),
    (6, "t1", Wish::Make("data"), Heard::Reused(1), 5),
    (
        6,
        "t1",
        Wish::Put("logs", "a", 1, STANDARD, 0),
        Heard::Reused(1),
        5,
    ),
    (7, "t2", Wish::Make("logs"), EXISTS, 5),
    (8, "t2", Wish::Make("data"), MADE, 8),
    (9, "t2", Wish::Make("logs"), Heard::Reused(1), 8),
    (
        10,
        "put",
        Wish::Put("logs", "a", 1, STANDARD, 1),
        Heard::Stored,
        10,
    ),
    (
        20,
        "put",
        Wish::Put("logs", "a", 1, STANDARD, 1),
        Heard::StoredAt(10),
        10,
    ),
    (
        20,
        "put",
        Wish::Put("logs", "a", 1, STANDARD, 2),
        Heard::Reused(5),
        10,
    ),
    (
        20,
        "put",
        Wish::Put("logs", "a", 2, STANDARD, 1),
        Heard::Reused(5),
        10,
    ),
    (20, "put", Wish::Make("zoo"), Heard::Reused(5), 10),
    (
        21,
        "PUT",
        Wish::Put("logs", "a", 1, STANDARD, 1),
        Heard::Stored,
        21,
    ),
];

#[test]
fn a_command_with_a_token_acts_once(rt: HostRuntime) {
    let alloc = rt.alloc();
    let mut tried = Tried::new(alloc);
    for (index, (ms, token, wish, answer, last)) in ONCE.iter().enumerate() {
        let heard = tried.turn_once(&rt, alloc, *ms, *token, *wish);
        let found = (heard, tried.last_ms());
        equal(&rt, &index, &found, &(*answer, Some(*last)));
    }
    drop(tried);
}

fn fill_the_replies(rt: &impl Abort, alloc: Global, tried: &mut Tried) {
    let put = Wish::Put("logs", "a", 1, STANDARD, 0);
    for number in 0u64..9_999 {
        let token = numbered(rt, alloc, "t", number);
        let heard = tried.turn_once(rt, alloc, 6, &token, put);
        equal(rt, &number, &heard, &Heard::Stored);
    }
}

const MAKE: Wish<'static> = Wish::Make("logs");

const PUT: Wish<'static> = Wish::Put("logs", "a", 1, STANDARD, 0);

// The answers after 9,999 further commands with tokens: the first reply is kept until one more is accepted.
const LAST: &[(u64, &str, Wish<'static>, Heard)] = &[
    (7, "first", MAKE, MADE),
    (8, "t-9999", PUT, Heard::Stored),
    (9, "first", MAKE, EXISTS),
    (9, "t-0", PUT, Heard::StoredAt(6)),
];

// A reply is kept until 10,000 commands with other tokens were accepted.
#[test]
fn ten_thousand_replies_are_kept(rt: HostRuntime) {
    let alloc = rt.alloc();
    let mut tried = Tried::new(alloc);
    let first = tried.turn_once(&rt, alloc, 5, "first", MAKE);
    equal(&rt, &"first", &first, &MADE);
    fill_the_replies(&rt, alloc, &mut tried);
    for (ms, token, wish, wanted) in LAST {
        let heard = tried.turn_once(&rt, alloc, *ms, *token, *wish);
        equal(&rt, &(*token, *ms), &heard, wanted);
    }
    drop(tried);
}

// A bucket is made under one of a thousand names.
fn make_numbered(rt: &impl Abort, alloc: Global, tried: &mut Tried, number: u64) -> Heard {
    let name = numbered(rt, alloc, "bucket", number);
    tried.turn(rt, alloc, 100, Wish::Make(&name))
}

#[test]
fn a_thousand_buckets(rt: HostRuntime) {
    let alloc = rt.alloc();
    let mut tried = Tried::new(alloc);
    for number in 0u64..2_000 {
        let heard = make_numbered(&rt, alloc, &mut tried, 1_000 - number % 1_000);
        let wanted = if number < 1_000 { MADE } else { EXISTS };
        equal(&rt, &number, &heard, &wanted);
    }
    let heard = tried.turn(&rt, alloc, 101, Wish::Make("one-more"));
    equal(&rt, &"one more", &heard, &Heard::Full(What::Buckets, 1_000));
    equal(&rt, &"the last", &tried.last_ms(), &Some(100));
    drop(tried);
}

// Objects move to STANDARD_IA 30 days after they were created.
const ARCHIVING: &str = "{\"Rules\":[{\"ID\":\"archive\",\"Filter\":{\"Prefix\":\"\"},\
    \"Status\":\"Enabled\",\"Transitions\":[{\"Days\":30,\"StorageClass\":\"STANDARD_IA\"}]}]}";

fn archiving(rt: &impl Abort, alloc: Global) -> Command {
    match read_rules(alloc, ARCHIVING.as_bytes()) {
        Ok(rules) => Command::SetRules {
            bucket: bucket(rt, alloc, "logs"),
            rules,
        },
        Err(_) => panic!(rt; "no rules"),
    }
}

fn queued(rt: &impl Abort, alloc: Global, tried: &Tried, name: &str) -> Option<u64> {
    tried.office.queued(&bucket(rt, alloc, name))
}

// The moment of the puts: 2023-12-10 09:00 UTC.
const AT: u64 = 1_702_198_800_000;

fn put_numbered(rt: &impl Abort, alloc: Global, tried: &mut Tried, number: u64) -> Heard {
    let key = numbered(rt, alloc, "object", number);
    let wish = Wish::Put("logs", &key, 1_000_000, STANDARD, 0);
    tried.turn(rt, alloc, AT, wish)
}

// Whether the rules are set.
fn set_rules(rt: &impl Abort, alloc: Global, tried: &mut Tried) -> bool {
    let command = archiving(rt, alloc);
    let said = tried.ask(rt, moment(rt, AT), &command);
    drop(command);
    let is_set = said.is_ok();
    drop(said);
    is_set
}

// A thousand objects wait for the rule, whenever each of them is due.
#[test]
fn a_thousand_queued(rt: HostRuntime) {
    let alloc = rt.alloc();
    let mut tried = Tried::new(alloc);
    equal(&rt, &"made", &tried.turn(&rt, alloc, AT, MAKE), &MADE);
    assert!(rt; set_rules(&rt, alloc, &mut tried));
    equal(
        &rt,
        &"before",
        &queued(&rt, alloc, &tried, "logs"),
        &Some(0),
    );
    for number in 0u64..1_000 {
        let heard = put_numbered(&rt, alloc, &mut tried, number);
        equal(&rt, &number, &heard, &Heard::Stored);
    }
    equal(
        &rt,
        &"after",
        &queued(&rt, alloc, &tried, "logs"),
        &Some(1_000),
    );
    equal(&rt, &"others", &queued(&rt, alloc, &tried, "others"), &None);
    drop(tried);
}
