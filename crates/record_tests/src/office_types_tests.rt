use crate::given::{equal, id, key, moment, month, size, tags};
use class_rules::Class;
use office_base::BucketName;
use office_types::{Command, Kept, Reply, Token, marker_told, number_told};
use stacks::Versioning;
use std::alloc::Global;
use std::process::Abort;
use tariff::{BoxedTariff, Tariff};

const SIXTY_FOUR: &[u8] = b"0123456789012345678901234567890123456789012345678901234567890123";

const SIXTY_FIVE: &[u8] = b"01234567890123456789012345678901234567890123456789012345678901234";

// Bytes, and whether they are a token: 1 to 64 bytes from 21 to 7E (hexadecimal).
const TOKENS: [(&[u8], bool); 14] = [
    (b"", false),
    (b"t1", true),
    (b"!", true),
    (b"~", true),
    (b"\x20", false),
    (b"\x7f", false),
    (b"\0", false),
    (b"\x80", false),
    (b"\xff", false),
    (b"a b", false),
    (b"t1\n", false),
    (b"t\xc3\xa9", false),
    (SIXTY_FOUR, true),
    (SIXTY_FIVE, false),
];

// Whether a token, if there is one, has these bytes.
fn has_bytes(token: &Option<Token>, bytes: &[u8]) -> Option<bool> {
    match token {
        Some(token) => Some(token.bytes() == bytes),
        None => None,
    }
}

#[test]
fn tokens_are_visible_bytes(rt: HostRuntime) {
    for (bytes, is_token) in &TOKENS {
        let read = Token::read(rt.alloc(), bytes).expect(&rt, "memory");
        let wanted = if *is_token { Some(true) } else { None };
        equal(&rt, bytes, &has_bytes(&read, bytes), &wanted);
    }
}

fn token(rt: &impl Abort, alloc: Global, bytes: &[u8]) -> Token {
    match Token::read(alloc, bytes) {
        Ok(Some(token)) => token,
        _ => panic!(rt; "no token"),
    }
}

// Two tokens, and whether they are the same.
const PAIRS: [(&[u8], &[u8], bool); 4] = [
    (b"t1", b"t1", true),
    (b"t1", b"t2", false),
    (b"put", b"PUT", false),
    (b"t1", b"t11", false),
];

#[test]
fn tokens_are_compared_by_their_bytes(rt: HostRuntime) {
    let alloc = rt.alloc();
    for (one, other, are_same) in &PAIRS {
        let (one, other) = (token(&rt, alloc, one), token(&rt, alloc, other));
        equal(&rt, &other.bytes(), &(one == other), are_same);
        let copy = one.copy().expect(&rt, "memory");
        assert!(rt; copy == one);
    }
}

// Commands on the bucket `logs`.
#[derive(Clone, Copy, Debug)]
enum Wish {
    Make,
    Version(bool),
    DropRules,
    // A put of this many bytes under the key `a`, in this class, with a tag of this value.
    Put(u64, Class, &'static str),
    Delete(&'static [u8]),
    DeleteVersion(u64),
    Tag(&'static str),
    Start(Class),
    Part(u32),
    Complete(u64),
    Abort(u64),
    Act,
    Prices,
    // A month of 2024.
    Close(u8),
}

fn wished(rt: &impl Abort, alloc: Global, wish: Wish) -> Command {
    let bucket = BucketName::read(alloc, "logs").expect(rt, "a name");
    match wish {
        Wish::Make => Command::CreateBucket { bucket },
        Wish::Version(enabled) => Command::SetVersioning { bucket, enabled },
        Wish::DropRules => Command::DropRules { bucket },
        Wish::Put(bytes, class, value) => Command::Put {
            bucket,
            key: key(rt, alloc, b"a"),
            size: size(rt, bytes),
            class,
            tags: one_tag(rt, alloc, value),
        },
        Wish::Delete(bytes) => Command::Delete {
            bucket,
            key: key(rt, alloc, bytes),
        },
        Wish::DeleteVersion(number) => Command::DeleteVersion {
            bucket,
            key: key(rt, alloc, b"a"),
            id: id(number),
        },
        Wish::Tag(value) => Command::SetTags {
            bucket,
            key: key(rt, alloc, b"a"),
            id: id(1),
            tags: one_tag(rt, alloc, value),
        },
        Wish::Start(class) => Command::StartUpload {
            bucket,
            key: key(rt, alloc, b"a"),
            class,
            tags: one_tag(rt, alloc, "v"),
        },
        Wish::Part(part) => Command::PutPart {
            bucket,
            upload: 1,
            part,
            size: 5,
        },
        Wish::Complete(upload) => Command::Complete { bucket, upload },
        Wish::Abort(upload) => Command::Abort { bucket, upload },
        Wish::Act => Command::Act { bucket },
        Wish::Prices => Command::SetTariff {
            tariff: prices(rt, alloc),
        },
        Wish::Close(number) => Command::Close {
            month: month(rt, 2024, number),
        },
    }
}

fn one_tag(rt: &impl Abort, alloc: Global, value: &'static str) -> office_base::Tags {
    tags(rt, alloc, &[("k", value)])
}

fn prices(rt: &impl Abort, alloc: Global) -> BoxedTariff {
    let tariff = Tariff::of([1_000; 6], [1_000; 5]).expect(rt, "a tariff");
    BoxedTariff::new(alloc, tariff).expect(rt, "memory")
}

const STANDARD: Class = Class::Standard;

// Different commands, the number of each kind in the journal, and whether it may carry a token.
const KINDS: [(Wish, u8, bool); 22] = [
    (Wish::Make, 0x01, true),
    (Wish::Version(true), 0x02, true),
    (Wish::Version(false), 0x02, true),
    (Wish::DropRules, 0x04, true),
    (Wish::Put(5, STANDARD, "v"), 0x05, true),
    (Wish::Put(6, STANDARD, "v"), 0x05, true),
    (Wish::Put(5, Class::Glacier, "v"), 0x05, true),
    (Wish::Put(5, STANDARD, "w"), 0x05, true),
    (Wish::Delete(b"a"), 0x06, true),
    (Wish::Delete(b"b"), 0x06, true),
    (Wish::DeleteVersion(0), 0x07, true),
    (Wish::DeleteVersion(1), 0x07, true),
    (Wish::Tag("v"), 0x08, true),
    (Wish::Start(STANDARD), 0x09, true),
    (Wish::Part(1), 0x0A, true),
    (Wish::Part(2), 0x0A, true),
    (Wish::Complete(1), 0x0B, true),
    (Wish::Abort(1), 0x0C, true),
    (Wish::Act, 0x0D, false),
    (Wish::Prices, 0x0E, false),
    (Wish::Close(1), 0x0F, true),
    (Wish::Close(2), 0x0F, true),
];

// The number of a command's kind, and whether it may carry a token.
fn kind_of(rt: &impl Abort, alloc: Global, wish: Wish) -> (u8, bool) {
    let command = wished(rt, alloc, wish);
    (command.kind(), command.takes_token())
}

#[test]
fn kinds_of_commands(rt: HostRuntime) {
    for (wish, kind, takes_token) in &KINDS {
        let told = kind_of(&rt, rt.alloc(), *wish);
        equal(&rt, wish, &told, &(*kind, *takes_token));
    }
}

fn copied(rt: &impl Abort, alloc: Global, wish: Wish) -> Command {
    wished(rt, alloc, wish).copy().expect(rt, "memory")
}

// Whether two commands are equal.
fn are_same(rt: &impl Abort, alloc: Global, one: Wish, other: Command) -> bool {
    wished(rt, alloc, one).is_same(&other)
}

// A command that may carry a token equals itself and its copy, and no other one of the table.
#[test]
fn commands_that_are_the_same(rt: HostRuntime) {
    let alloc = rt.alloc();
    for (place, (wish, _, takes_token)) in KINDS.iter().enumerate() {
        let found = are_same(&rt, alloc, *wish, copied(&rt, alloc, *wish));
        equal(&rt, wish, &found, takes_token);
        for (at, (asked, _, _)) in KINDS.iter().enumerate() {
            let found = are_same(&rt, alloc, *wish, wished(&rt, alloc, *asked));
            let wanted = at == place && *takes_token;
            equal(&rt, &(place, at), &found, &wanted);
        }
    }
}

// What is kept of a command's reply: whether it reports a delete marker, its number, and the reply.
#[derive(Clone, Copy, Debug, PartialEq, Eq)]
enum Said {
    Made,
    Versioning(Versioning),
    Rules(u32),
    Stored(u64),
    Marked(u64),
    Removed,
    VersionRemoved(u64),
    Tagged(u32),
    Started(u64),
    Part(u32),
    Aborted(u64),
    Closed(u8),
    Other,
}

const KEPT: [(Wish, bool, u64, Said); 15] = [
    (Wish::Make, false, 0, Said::Made),
    (
        Wish::Version(true),
        false,
        0,
        Said::Versioning(Versioning::Enabled),
    ),
    (
        Wish::Version(false),
        false,
        0,
        Said::Versioning(Versioning::Suspended),
    ),
    (Wish::DropRules, false, 0, Said::Rules(0)),
    (Wish::Put(5, STANDARD, "v"), false, 3, Said::Stored(3)),
    (Wish::Put(5, STANDARD, "v"), false, 0, Said::Stored(0)),
    (Wish::Delete(b"a"), true, 4, Said::Marked(4)),
    (Wish::Delete(b"a"), false, 0, Said::Removed),
    (Wish::DeleteVersion(2), false, 2, Said::VersionRemoved(2)),
    (Wish::Tag("v"), false, 0, Said::Tagged(1)),
    (Wish::Start(STANDARD), false, 7, Said::Started(7)),
    (Wish::Part(9), false, 0, Said::Part(9)),
    (Wish::Complete(7), false, 5, Said::Stored(5)),
    (Wish::Abort(8), false, 8, Said::Aborted(8)),
    (Wish::Close(2), false, 0, Said::Closed(2)),
];

// 2024-03-01 00:00 UTC, when the commands were accepted.
const MARCH: u64 = 1_709_251_200_000;

fn told_by(reply: &Reply) -> Said {
    match reply {
        Reply::BucketMade { bucket } if bucket.text() == "logs" => Said::Made,
        Reply::VersioningSet { versioning } => Said::Versioning(*versioning),
        Reply::RulesSet { rules } => Said::Rules(*rules),
        Reply::Stored { moment, version } if moment.ms() == MARCH => {
            stored(*version == id(0), number_told(reply))
        }
        Reply::Deleted { marker } => match marker {
            Some(_) => Said::Marked(number_told(reply)),
            None => Said::Removed,
        },
        Reply::VersionDeleted { .. } => Said::VersionRemoved(number_told(reply)),
        Reply::TagsSet { tags } => Said::Tagged(*tags),
        Reply::UploadStarted { upload } => Said::Started(*upload),
        Reply::PartStored { part } => Said::Part(*part),
        Reply::Aborted { upload } => Said::Aborted(*upload),
        Reply::Closed { month } if month.year() == 2024 => Said::Closed(month.month()),
        _ => Said::Other,
    }
}

// The null version is reported as 0, and no other version is.
fn stored(is_null: bool, number: u64) -> Said {
    if is_null == (number == 0) {
        Said::Stored(number)
    } else {
        Said::Other
    }
}

// The reply that is kept of a command with a token.
fn reply_kept(rt: &impl Abort, alloc: Global, wish: Wish, marker: bool, told: u64) -> Reply {
    let kept = Kept {
        token: token(rt, alloc, b"t1"),
        moment: moment(rt, MARCH),
        marker,
        told,
        command: wished(rt, alloc, wish),
    };
    kept.reply().expect(rt, "memory")
}

#[test]
fn a_kept_reply_is_given_again(rt: HostRuntime) {
    for (index, (wish, marker, told, wanted)) in KEPT.iter().enumerate() {
        let reply = reply_kept(&rt, rt.alloc(), *wish, *marker, *told);
        let found = (told_by(&reply), marker_told(&reply), number_told(&reply));
        equal(&rt, &index, &found, &(*wanted, *marker, *told));
    }
}
