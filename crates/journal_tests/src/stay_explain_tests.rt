ghost use Rattle.office_types.specs.Tokens.{MayCarry};

use crate::given::{bucket, disk_with, equal, equal_bytes, key, no_tags, size, token};
use class_rules::Class;
use entry_codec::encode;
use meter_journal::OpenFault;
use moments::Moment;
use office_base::{NoMemory, Nth, VersionId};
use office_types::{Command, Entry, Token};
use rules_json::read_rules;
use stay_explain::explain;
use std::alloc::Global;
use std::process::Abort;
use std::thread::Threads;

// 2024-01-01 00:00 UTC, and the milliseconds of a day.
const NEW_YEAR: u64 = 1_704_067_200_000;

const DAY: u64 = 86_400_000;

const HEADER: &str = "bucket,key,item,class,bytes,from,to\n";

// The bytes of a journal before the first gate.
const HEAD: [u8; 10] = [0xA5, 0x4D, 0x45, 0x54, 0x45, 0x52, 0x4A, 0x52, 0x4E, 0x31];

// Objects go to GLACIER after 30 days, and unfinished uploads go after 7.
const RULES: &str = "{\"Rules\":[{\"ID\":\"all\",\"Filter\":{\"Prefix\":\"\"},\
    \"Status\":\"Enabled\",\
    \"Transitions\":[{\"Days\":30,\"StorageClass\":\"GLACIER\"}],\
    \"AbortIncompleteMultipartUpload\":{\"DaysAfterInitiation\":7}}]}";

// A command in a few words. All but the first and the last are on the bucket logs.
#[derive(Clone, Copy)]
enum Wish<'a> {
    Make(&'a str),
    Enable,
    Suspend,
    Rules,
    Put(&'a str, u64, Class),
    Delete(&'a str),
    // The version of this number.
    Gone(&'a str, u64),
    Start(&'a str, Class),
    Part(u64, u32, u64),
    Complete(u64),
    Abort(u64),
    Act,
    PutIn(&'a str, &'a str),
    // A bucket is made with this token.
    Once(&'a str, &'a str),
}

fn put(
    rt: &impl Abort,
    alloc: Global,
    name: &str,
    text: &str,
    bytes: u64,
    class: Class,
) -> Command {
    Command::Put {
        bucket: bucket(rt, alloc, name),
        key: key(rt, alloc, text),
        size: size(rt, bytes),
        class,
        tags: no_tags(rt, alloc),
    }
}

fn gone(rt: &impl Abort, alloc: Global, text: &str, number: u64) -> Command {
    Command::DeleteVersion {
        bucket: bucket(rt, alloc, "logs"),
        key: key(rt, alloc, text),
        id: VersionId::Number(Nth::of(number).expect(rt, "a version")),
    }
}

fn start(rt: &impl Abort, alloc: Global, text: &str, class: Class) -> Command {
    Command::StartUpload {
        bucket: bucket(rt, alloc, "logs"),
        key: key(rt, alloc, text),
        class,
        tags: no_tags(rt, alloc),
    }
}

fn delete(rt: &impl Abort, alloc: Global, text: &str) -> Command {
    Command::Delete {
        bucket: bucket(rt, alloc, "logs"),
        key: key(rt, alloc, text),
    }
}

fn set_rules(rt: &impl Abort, alloc: Global) -> Command {
    match read_rules(alloc, RULES.as_bytes()) {
        Ok(rules) => Command::SetRules {
            bucket: bucket(rt, alloc, "logs"),
            rules,
        },
        Err(_) => panic!(rt; "no rules"),
    }
}

// A command on the bucket logs without a key.
fn plain(rt: &impl Abort, alloc: Global, wish: Wish<'_>) -> Command {
    let bucket = bucket(rt, alloc, "logs");
    match wish {
        Wish::Enable => Command::SetVersioning {
            bucket,
            enabled: true,
        },
        Wish::Suspend => Command::SetVersioning {
            bucket,
            enabled: false,
        },
        Wish::Part(upload, part, size) => Command::PutPart {
            bucket,
            upload,
            part,
            size,
        },
        Wish::Complete(upload) => Command::Complete { bucket, upload },
        Wish::Abort(upload) => Command::Abort { bucket, upload },
        _ => Command::Act { bucket },
    }
}

fn command(rt: &impl Abort, alloc: Global, wish: Wish<'_>) -> Command {
    match wish {
        Wish::Make(name) | Wish::Once(_, name) => Command::CreateBucket {
            bucket: bucket(rt, alloc, name),
        },
        Wish::Rules => set_rules(rt, alloc),
        Wish::Put(text, bytes, class) => put(rt, alloc, "logs", text, bytes, class),
        Wish::PutIn(name, text) => put(rt, alloc, name, text, 1, Class::Standard),
        Wish::Delete(text) => delete(rt, alloc, text),
        Wish::Gone(text, number) => gone(rt, alloc, text, number),
        Wish::Start(text, class) => start(rt, alloc, text, class),
        _ => plain(rt, alloc, wish),
    }
}

// The token of a command that carries one.
fn token_of(rt: &impl Abort, alloc: Global, wish: Wish<'_>) -> Option<Token> {
    match wish {
        Wish::Once(text, _) => Some(token(rt, alloc, text)),
        _ => None,
    }
}

fn encoded(alloc: Global, entry: Entry) -> Result<Vec<u8>, NoMemory>
    requires { MayCarry entry.token entry.command }
{
    let bytes = encode(alloc, &entry);
    drop(entry);
    bytes
}

// The bytes of a command this many milliseconds after New Year.
fn spelled(rt: &impl Abort, alloc: Global, after: u64, wish: Wish<'_>) -> Vec<u8> {
    let moment = Moment::of(NEW_YEAR.saturating_add(after)).expect(rt, "a moment");
    let command = command(rt, alloc, wish);
    let bytes = match token_of(rt, alloc, wish) {
        None => encoded(
            alloc,
            Entry {
                moment,
                token: None,
                command,
            },
        ),
        Some(token) => {
            assert!(rt; command.takes_token(), "it may not carry a token");
            encoded(
                alloc,
                Entry {
                    moment,
                    token: Some(token),
                    command,
                },
            )
        }
    };
    bytes.expect(rt, "an entry")
}

// Adds the frame of an entry with these bytes, after an open gate.
fn add(rt: &impl Abort, bytes: &mut Vec<u8>, spelling: &[u8]) {
    let size = u32::try_from(spelling.len()).expect(rt, "a short entry");
    bytes.push(0xA5).expect(rt, "memory");
    bytes
        .extend_from_slice(&size.to_be_bytes())
        .expect(rt, "memory");
    bytes.extend_from_slice(spelling).expect(rt, "memory");
}

// The journal of these commands, each this many milliseconds after New Year.
fn journal(rt: &impl Abort, alloc: Global, wishes: &[(u64, Wish<'_>)]) -> Vec<u8> {
    let mut bytes = HEAD.to_vec(alloc).expect(rt, "memory");
    for (after, wish) in wishes {
        add(rt, &mut bytes, &spelled(rt, alloc, *after, *wish));
    }
    bytes.push(0).expect(rt, "memory");
    bytes
}

// The table with these lines.
fn table(rt: &impl Abort, alloc: Global, lines: &str) -> String {
    let mut table = String::from_str(alloc, HEADER).expect(rt, "memory");
    table.push_str(lines).expect(rt, "memory");
    table
}

// The table of a journal, made by this many workers, from 1 to 64.
fn explained(
    rt: &(impl Abort + Threads + Sync),
    alloc: Global,
    bytes: &[u8],
    workers: u32,
) -> Vec<u8> {
    let mut disk = disk_with(rt, alloc, bytes, &[]);
    explain(rt, alloc, &mut disk, workers.clamp(1, 64)).expect(rt, "a table")
}

// Commands, each this many milliseconds after New Year, and the lines of the table.
type Row = (&'static [(u64, Wish<'static>)], &'static str);

const TABLES: &[Row] = &[
    (&[], ""),
    (
        &[
            (0, Wish::Make("logs")),
            (0, Wish::Put("a", 1, Class::Standard)),
        ],
        "logs,a,v:null,STANDARD,1,2024-01-01T00:00:00.000Z,open\n",
    ),
    // A null version is replaced at the moment at which it was put.
    (
        &[
            (0, Wish::Make("logs")),
            (5, Wish::Put("a,b", 1, Class::Glacier)),
            (5, Wish::Put("a,b", 1, Class::Glacier)),
        ],
        "logs,\"a,b\",v:null,GLACIER,32769,2024-01-01T00:00:00.005Z,2024-01-01T00:00:00.005Z\n\
         logs,\"a,b\",v:null,STANDARD,8192,2024-01-01T00:00:00.005Z,2024-01-01T00:00:00.005Z\n\
         logs,\"a,b\",v:null,GLACIER,32769,2024-01-01T00:00:00.005Z,open\n\
         logs,\"a,b\",v:null,STANDARD,8192,2024-01-01T00:00:00.005Z,open\n",
    ),
    // Entries with tokens, after one without.
    (
        &[
            (0, Wish::Make("logs")),
            (1, Wish::Once("t1", "barn")),
            (1, Wish::Once("t2", "lake")),
            (2, Wish::PutIn("barn", "k")),
        ],
        "barn,k,v:null,STANDARD,1,2024-01-01T00:00:00.002Z,open\n",
    ),
    // Versions and markers; buckets in the order of their names.
    (
        &[
            (0, Wish::Make("logs")),
            (0, Wish::Make("barn")),
            (0, Wish::PutIn("barn", "k")),
            (0, Wish::Put("a", 7, Class::Standard)),
            (1, Wish::Enable),
            (2, Wish::Put("a", 8, Class::Standard)),
            (3, Wish::Delete("a")),
            (4, Wish::Gone("a", 1)),
            (5, Wish::Suspend),
            (6, Wish::Delete("a")),
        ],
        "barn,k,v:null,STANDARD,1,2024-01-01T00:00:00.000Z,open\n\
         logs,a,v:null,STANDARD,7,2024-01-01T00:00:00.000Z,2024-01-01T00:00:00.006Z\n\
         logs,a,v:1,STANDARD,8,2024-01-01T00:00:00.002Z,2024-01-01T00:00:00.004Z\n\
         logs,a,v:2,STANDARD,1,2024-01-01T00:00:00.003Z,open\n\
         logs,a,v:null,STANDARD,1,2024-01-01T00:00:00.006Z,open\n",
    ),
    // Six buckets, of which one has half of the stays and one has none.
    (
        &[
            (0, Wish::Make("pond")),
            (0, Wish::Make("barn")),
            (0, Wish::Make("lake")),
            (0, Wish::Make("yard")),
            (0, Wish::Make("cave")),
            (0, Wish::Make("well")),
            (0, Wish::PutIn("yard", "k")),
            (1, Wish::PutIn("pond", "k")),
            (2, Wish::PutIn("lake", "k")),
            (3, Wish::PutIn("lake", "k")),
            (4, Wish::PutIn("lake", "m")),
            (5, Wish::PutIn("barn", "k")),
            (6, Wish::PutIn("lake", "k")),
            (7, Wish::PutIn("cave", "k")),
        ],
        "barn,k,v:null,STANDARD,1,2024-01-01T00:00:00.005Z,open\n\
         cave,k,v:null,STANDARD,1,2024-01-01T00:00:00.007Z,open\n\
         lake,k,v:null,STANDARD,1,2024-01-01T00:00:00.002Z,2024-01-01T00:00:00.003Z\n\
         lake,k,v:null,STANDARD,1,2024-01-01T00:00:00.003Z,2024-01-01T00:00:00.006Z\n\
         lake,m,v:null,STANDARD,1,2024-01-01T00:00:00.004Z,open\n\
         lake,k,v:null,STANDARD,1,2024-01-01T00:00:00.006Z,open\n\
         pond,k,v:null,STANDARD,1,2024-01-01T00:00:00.001Z,open\n\
         yard,k,v:null,STANDARD,1,2024-01-01T00:00:00.000Z,open\n",
    ),
    // A part is put twice, and the upload is completed; another one is aborted, and a third one by a rule.
    (
        &[
            (0, Wish::Make("logs")),
            (0, Wish::Start("u", Class::Glacier)),
            (1, Wish::Part(1, 1, 1000)),
            (2, Wish::Part(1, 1, 1000)),
            (3, Wish::Part(1, 2, 5)),
            (4, Wish::Complete(1)),
            (5, Wish::Start("w", Class::Standard)),
            (6, Wish::Part(2, 3, 9)),
            (7, Wish::Abort(2)),
            (8, Wish::Start("w", Class::Standard)),
            (9, Wish::Part(3, 3, 9)),
            (10, Wish::Rules),
            (20 * DAY, Wish::Act),
        ],
        "logs,u,u:1/1,STANDARD,1000,2024-01-01T00:00:00.001Z,2024-01-01T00:00:00.002Z\n\
         logs,u,u:1/1,STANDARD,1000,2024-01-01T00:00:00.002Z,2024-01-01T00:00:00.004Z\n\
         logs,u,u:1/2,STANDARD,5,2024-01-01T00:00:00.003Z,2024-01-01T00:00:00.004Z\n\
         logs,u,v:null,GLACIER,33773,2024-01-01T00:00:00.004Z,open\n\
         logs,u,v:null,STANDARD,8192,2024-01-01T00:00:00.004Z,open\n\
         logs,w,u:2/3,STANDARD,9,2024-01-01T00:00:00.006Z,2024-01-01T00:00:00.007Z\n\
         logs,w,u:3/3,STANDARD,9,2024-01-01T00:00:00.009Z,2024-01-09T00:00:00.000Z\n",
    ),
    // A late transition has the moment at which it was due; its stay has the place of the act.
    (
        &[
            (0, Wish::Make("logs")),
            (0, Wish::Rules),
            (0, Wish::Put("a", 200_000, Class::Standard)),
            (50 * DAY, Wish::Put("b", 1, Class::Standard)),
            (51 * DAY, Wish::Act),
            (51 * DAY, Wish::Delete("a")),
        ],
        "logs,a,v:null,STANDARD,200000,2024-01-01T00:00:00.000Z,2024-01-31T00:00:00.000Z\n\
         logs,b,v:null,STANDARD,1,2024-02-20T00:00:00.000Z,open\n\
         logs,a,v:null,GLACIER,232768,2024-01-31T00:00:00.000Z,2024-02-21T00:00:00.000Z\n\
         logs,a,v:null,STANDARD,8192,2024-01-31T00:00:00.000Z,2024-02-21T00:00:00.000Z\n",
    ),
];

// The table of these commands' journal is the same for any number of workers.
#[test]
fn tables(rt: HostRuntime) {
    let alloc = rt.alloc();
    for (index, (wishes, lines)) in TABLES.iter().enumerate() {
        let bytes = journal(&rt, alloc, *wishes);
        let wanted = table(&rt, alloc, *lines);
        for workers in &[1u32, 2, 4, 64] {
            let found = explained(&rt, alloc, &bytes, *workers);
            equal_bytes(&rt, &(index, *workers), &found, wanted.as_bytes());
        }
    }
}

// The fault of a journal, on a disk of which these calls fail.
fn fault_of(
    rt: &(impl Abort + Threads + Sync),
    alloc: Global,
    bytes: &[u8],
    failing: &[u64],
) -> Option<OpenFault> {
    let mut disk = disk_with(rt, alloc, bytes, failing);
    explain(rt, alloc, &mut disk, 4).err()
}

// The fault of the journal of these commands, the last of which the office does not accept.
fn refused(
    rt: &(impl Abort + Threads + Sync),
    alloc: Global,
    wishes: &[(u64, Wish<'_>)],
) -> Option<OpenFault> {
    fault_of(rt, alloc, &journal(rt, alloc, wishes), &[])
}

// Two commands, the second of which the office does not accept, and the gate of its entry.
const REFUSED: &[(&[(u64, Wish<'static>)], u64)] = &[
    (&[(0, Wish::Make("logs")), (0, Wish::Make("logs"))], 30),
    (&[(1, Wish::Make("logs")), (0, Wish::Make("barn"))], 30),
    (&[(1, Wish::Make("logs")), (1, Wish::Act)], 30),
    (
        &[(1, Wish::Make("logs")), (1, Wish::Once("t1", "logs"))],
        30,
    ),
    // A reply is kept under the token of the first.
    (
        &[(1, Wish::Once("t1", "logs")), (1, Wish::Once("t1", "logs"))],
        33,
    ),
    (
        &[(1, Wish::Once("t1", "logs")), (2, Wish::Once("t1", "barn"))],
        33,
    ),
];

// The call of the disk that fails, and the fault of a journal of two entries. Call 2 reads its length, call 3 its head,
// and call 4 all its frames.
const FAILED: &[(u64, Option<OpenFault>)] = &[
    (2, Some(OpenFault::StoreFault)),
    (3, Some(OpenFault::StoreFault)),
    (4, Some(OpenFault::StoreFault)),
    (5, None),
];

// Bytes that are no journal, and their fault.
const NO_JOURNALS: &[(&[u8], Option<OpenFault>)] = &[
    (&[], Some(OpenFault::NotMade)),
    (b"another file of another kind", Some(OpenFault::Foreign)),
];

const TWO: &[(u64, Wish<'static>)] = &[(0, Wish::Make("logs")), (0, Wish::Make("barn"))];

#[test]
fn faults(rt: HostRuntime) {
    let alloc = rt.alloc();
    for (bytes, fault) in NO_JOURNALS {
        equal(&rt, bytes, &fault_of(&rt, alloc, *bytes, &[]), fault);
    }
    for (index, (wishes, offset)) in REFUSED.iter().enumerate() {
        let damaged = Some(OpenFault::Damaged { offset: *offset });
        equal(&rt, &index, &refused(&rt, alloc, *wishes), &damaged);
    }
    let two = journal(&rt, alloc, TWO);
    for (failing, fault) in FAILED {
        let found = fault_of(&rt, alloc, &two, &[*failing]);
        equal(&rt, failing, &found, fault);
    }
}
