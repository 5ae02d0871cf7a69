ghost use Rattle.std.specs.Prelude.{◌<◌, ◌^◌};
ghost use Rattle.office_types.specs.Fits.{AnswerFits, RefusalFits, ReplyFits};

use crate::given::{digits, equal, id, joined, key, moment, month, name, size, tags, text};
use class_rules::Class;
use due_core::{ActionKind, Target};
use http_text::{PIECE_ROOM, StackPieces, is_short, print_answer, put_answer};
use office_base::{Items, Key, Text, VersionId};
use office_types::{ClassMeters, LineKind, Price, Refusal, Reply, ReportLine, What};
use rules_json::read_rules;
use stacks::{Kind, Stack, Version, Versioning};
use std::alloc::Global;
use std::collections::BTreeMap;
use std::process::Abort;
use tariff::{Tariff, Tier, Tiers};
use uploads::{Part, Upload};

const JSON: &str = "application/json";

const OK: &str = "200 OK";

const CREATED: &str = "201 Created";

const NOT_FOUND: &str = "404 Not Found";

const CONFLICT: &str = "409 Conflict";

const FULL: &str = "507 Insufficient Storage";

// A whole reply.
fn reply_of(rt: &impl Abort, alloc: Global, status: &str, media: &str, body: &str) -> String {
    let length = digits(rt, alloc, body.len() as u64);
    let (media_is, length_is) = ("\r\ncontent-type: ", "\r\ncontent-length: ");
    let head = ["HTTP/1.1 ", status, media_is, media, length_is, &length];
    let head = joined(rt, alloc, &head);
    joined(rt, alloc, &[&head, "\r\n\r\n", body])
}

// The reply as printed into a room of 16,384 bytes.
fn printed(rt: &impl Abort, alloc: Global, answer: &Result<Reply, Refusal>) -> Vec<u8>
    requires { AnswerFits answer.now }
{
    assert!(rt; is_short(answer));
    let mut room = vec![in alloc; 0u8; 16384].expect(rt, "memory");
    let size = put_answer(&mut room, answer);
    assert!(rt; size <= room.len());
    room.truncate(size);
    room
}

fn is_printed(
    rt: &impl Abort,
    alloc: Global,
    answer: Result<Reply, Refusal>,
    status: &str,
    body: &str,
)
    requires { AnswerFits answer }
{
    let room = printed(rt, alloc, &answer);
    drop(answer);
    let wanted = reply_of(rt, alloc, status, JSON, body);
    assert!(rt; room.as_slice() == wanted.as_bytes(), "{body}");
}

// The numbers of refusals, their names, and the statuses of the replies.
const SHORT: &[(u16, &str, &str)] = &[
    (50, "NoSuchKey", NOT_FOUND),
    (51, "NoSuchVersion", NOT_FOUND),
    (52, "IsMarker", CONFLICT),
    (60, "NoSuchUpload", NOT_FOUND),
    (61, "BadPart", CONFLICT),
    (62, "NoParts", CONFLICT),
    (80, "BucketExists", CONFLICT),
    (81, "NoSuchBucket", NOT_FOUND),
    (82, "NoRules", NOT_FOUND),
    (83, "NotEnabledBefore", CONFLICT),
    (86, "AlreadyClosed", CONFLICT),
    (88, "NoTariff", CONFLICT),
    (115, "NoMemory", "500 Internal Server Error"),
];

fn refusal(number: u16) -> Refusal
    ensures { RefusalFits result }
{
    match number {
        50 => Refusal::NoSuchKey,
        51 => Refusal::NoSuchVersion,
        52 => Refusal::IsMarker,
        60 => Refusal::NoSuchUpload,
        61 => Refusal::BadPart,
        62 => Refusal::NoParts,
        80 => Refusal::BucketExists,
        81 => Refusal::NoSuchBucket,
        82 => Refusal::NoRules,
        83 => Refusal::NotEnabledBefore,
        86 => Refusal::AlreadyClosed,
        88 => Refusal::NoTariff,
        _ => Refusal::NoMemory,
    }
}

fn short_body(rt: &impl Abort, alloc: Global, name: &str, number: u16) -> String {
    let number = digits(rt, alloc, u64::from(number));
    joined(
        rt,
        alloc,
        &["{\"error\":\"", name, "\",\"number\":", &number, "}"],
    )
}

#[test]
fn short_refusals(rt: HostRuntime) {
    for (number, name, status) in SHORT {
        let body = short_body(&rt, rt.alloc(), name, *number);
        is_printed(&rt, rt.alloc(), Err(refusal(*number)), status, &body);
    }
}

// The target of an action: a version, 0 for the null version, or an upload.
#[derive(Clone, Copy)]
enum On {
    Version(u64),
    Upload(u64),
}

fn target(on: On) -> Target {
    match on {
        On::Version(number) => Target::Version(id(number)),
        On::Upload(number) => Target::Upload(number),
    }
}

// A refusal that has more than its name.
#[derive(Clone, Copy)]
enum More {
    MonthNotOver,
    EarlierMonthOpen,
    Due(&'static [u8], On),
    ClockEnd,
    Full(What, u64),
    TokenReused(u8),
}

fn telling(rt: &impl Abort, alloc: Global, told: More) -> Refusal
    ensures { RefusalFits result }
{
    match told {
        More::MonthNotOver => Refusal::MonthNotOver {
            end: 1_706_745_600_000,
        },
        More::EarlierMonthOpen => Refusal::EarlierMonthOpen {
            month: month(rt, 2024, 2),
        },
        More::Due(bytes, on) => Refusal::DueActions {
            bucket: name(rt, alloc, "logs"),
            key: key(rt, alloc, bytes),
            target: target(on),
        },
        More::ClockEnd => Refusal::ClockEnd {
            moment: 4_102_444_800_000,
        },
        More::Full(what, limit) => Refusal::Full { what, limit },
        More::TokenReused(kind) => Refusal::TokenReused { kind },
    }
}

const TELLING: &[(More, &str, &str)] = &[
    (
        More::MonthNotOver,
        CONFLICT,
        "{\"end\":\"2024-02-01T00:00:00.000Z\",\"error\":\"MonthNotOver\",\"number\":84}",
    ),
    (
        More::EarlierMonthOpen,
        CONFLICT,
        "{\"error\":\"EarlierMonthOpen\",\"month\":\"2024-02\",\"number\":87}",
    ),
    (
        More::Due(b"a\"b", On::Version(0)),
        CONFLICT,
        "{\"bucket\":\"logs\",\"error\":\"DueActions\",\"key\":\"a\\\"b\",\"number\":85,\"version\":\"null\"}",
    ),
    (
        More::Due(b"a", On::Upload(7)),
        CONFLICT,
        "{\"bucket\":\"logs\",\"error\":\"DueActions\",\"key\":\"a\",\"number\":85,\"upload\":7}",
    ),
    (
        More::ClockEnd,
        CONFLICT,
        "{\"error\":\"ClockEnd\",\"moment\":4102444800000,\"number\":91}",
    ),
    (
        More::Full(What::Buckets, 1_000),
        FULL,
        "{\"error\":\"Full\",\"limit\":1000,\"number\":90,\"what\":\"Buckets\"}",
    ),
    (
        More::Full(What::Versions, 200_000),
        FULL,
        "{\"error\":\"Full\",\"limit\":200000,\"number\":90,\"what\":\"Versions\"}",
    ),
    (
        More::Full(What::Uploads, 20_000),
        FULL,
        "{\"error\":\"Full\",\"limit\":20000,\"number\":90,\"what\":\"Uploads\"}",
    ),
    (
        More::Full(What::Parts, 500_000),
        FULL,
        "{\"error\":\"Full\",\"limit\":500000,\"number\":90,\"what\":\"Parts\"}",
    ),
    (
        More::Full(What::Names, 536_870_912),
        FULL,
        "{\"error\":\"Full\",\"limit\":536870912,\"number\":90,\"what\":\"Names\"}",
    ),
    (
        More::Full(What::Rules, 67_108_864),
        FULL,
        "{\"error\":\"Full\",\"limit\":67108864,\"number\":90,\"what\":\"Rules\"}",
    ),
    (
        More::Full(What::Tariffs, 100),
        FULL,
        "{\"error\":\"Full\",\"limit\":100,\"number\":90,\"what\":\"Tariffs\"}",
    ),
    (
        More::TokenReused(1),
        CONFLICT,
        "{\"error\":\"TokenReused\",\"kind\":1,\"number\":92}",
    ),
    (
        More::TokenReused(15),
        CONFLICT,
        "{\"error\":\"TokenReused\",\"kind\":15,\"number\":92}",
    ),
];

#[test]
fn refusals_that_tell_more(rt: HostRuntime) {
    for (told, status, body) in TELLING {
        let refusal = telling(&rt, rt.alloc(), *told);
        is_printed(&rt, rt.alloc(), Err(refusal), status, body);
    }
}

// A reply about buckets, or about objects; 0 is the null version.
#[derive(Clone, Copy)]
enum Replied {
    BucketMade,
    VersioningSet(Versioning),
    RulesSet(u32),
    BucketShown,
    TariffSet,
    Closed,
    Stored(u64),
    Marked(u64),
    Deleted,
    VersionDeleted(u64),
    TagsSet(u32),
    UploadStarted(u64),
    PartStored(u32),
    Aborted(u64),
    NothingDue,
}

fn reply(rt: &impl Abort, alloc: Global, replied: Replied) -> Reply
    ensures { ReplyFits result }
{
    match replied {
        Replied::BucketMade => Reply::BucketMade {
            bucket: name(rt, alloc, "logs"),
        },
        Replied::VersioningSet(versioning) => Reply::VersioningSet { versioning },
        Replied::RulesSet(rules) => Reply::RulesSet { rules },
        Replied::BucketShown => Reply::BucketShown {
            bucket: name(rt, alloc, "logs"),
            rules: 0,
            uploads: 0,
            versioning: Versioning::Unversioned,
            versions: 1,
        },
        Replied::TariffSet => Reply::TariffSet,
        Replied::Closed => Reply::Closed {
            month: month(rt, 2024, 1),
        },
        Replied::Stored(number) => Reply::Stored {
            moment: moment(rt, 1_704_067_200_000),
            version: id(number),
        },
        Replied::Marked(number) => Reply::Deleted {
            marker: Some(id(number)),
        },
        Replied::Deleted => Reply::Deleted { marker: None },
        Replied::VersionDeleted(number) => Reply::VersionDeleted {
            removed: id(number),
        },
        Replied::TagsSet(tags) => Reply::TagsSet { tags },
        Replied::UploadStarted(upload) => Reply::UploadStarted { upload },
        Replied::PartStored(part) => Reply::PartStored { part },
        Replied::Aborted(upload) => Reply::Aborted { upload },
        Replied::NothingDue => Reply::NothingDue,
    }
}

const REPLIES: &[(Replied, &str, &str)] = &[
    (Replied::BucketMade, CREATED, "{\"bucket\":\"logs\"}"),
    (
        Replied::VersioningSet(Versioning::Enabled),
        OK,
        "{\"versioning\":\"Enabled\"}",
    ),
    (
        Replied::VersioningSet(Versioning::Suspended),
        OK,
        "{\"versioning\":\"Suspended\"}",
    ),
    (Replied::RulesSet(2), OK, "{\"rules\":2}"),
    (Replied::RulesSet(0), OK, "{\"rules\":0}"),
    (
        Replied::BucketShown,
        OK,
        "{\"bucket\":\"logs\",\"rules\":0,\"uploads\":0,\"versioning\":\"Unversioned\",\"versions\":1}",
    ),
    (Replied::TariffSet, OK, "{\"tariff\":\"set\"}"),
    (Replied::Closed, OK, "{\"closed\":\"2024-01\"}"),
    (
        Replied::Stored(0),
        CREATED,
        "{\"moment\":\"2024-01-01T00:00:00.000Z\",\"version\":\"null\"}",
    ),
    (
        Replied::Stored(3),
        CREATED,
        "{\"moment\":\"2024-01-01T00:00:00.000Z\",\"version\":\"3\"}",
    ),
    (Replied::Marked(4), OK, "{\"marker\":\"4\"}"),
    (Replied::Deleted, OK, "{\"removed\":\"null\"}"),
    (Replied::VersionDeleted(3), OK, "{\"removed\":\"3\"}"),
    (Replied::TagsSet(2), OK, "{\"tags\":2}"),
    (Replied::UploadStarted(1), CREATED, "{\"upload\":1}"),
    (Replied::PartStored(5), OK, "{\"part\":5}"),
    (Replied::Aborted(1), OK, "{\"aborted\":1}"),
    (Replied::NothingDue, OK, "{\"action\":\"none\"}"),
];

#[test]
fn replies(rt: HostRuntime) {
    for (replied, status, body) in REPLIES {
        let reply = reply(&rt, rt.alloc(), *replied);
        is_printed(&rt, rt.alloc(), Ok(reply), status, body);
    }
}

// An action by a rule, on 2024-01-10.
fn chosen(
    rt: &impl Abort,
    alloc: Global,
    kind: ActionKind,
    key: Key,
    target: Target,
    rule: String,
    marker: Option<u64>,
) -> Reply
    ensures { ReplyFits result }
{
    let rule = Text::of(rule);
    assert!(rt; rule.char_count() <= 255);
    Reply::Chosen {
        kind,
        key,
        target,
        rule,
        since: moment(rt, 1_704_844_800_000),
        marker: match marker {
            Some(number) => Some(id(number)),
            None => None,
        },
    }
}

// The kind of an action, its key, its target, its rule, the delete marker that it put, and the body.
const ACTIONS: &[(ActionKind, &[u8], On, &str, Option<u64>, &str)] = &[
    (
        ActionKind::Remove,
        b"a",
        On::Version(0),
        "r2",
        None,
        "{\"action\":\"remove\",\"key\":\"a\",\"moment\":\"2024-01-10T00:00:00.000Z\",\"rule\":\"r2\",\
\"version\":\"null\"}",
    ),
    (
        ActionKind::Transition(Class::StandardIa),
        b"a",
        On::Version(1),
        "r1",
        None,
        "{\"action\":\"transition\",\"class\":\"STANDARD_IA\",\"key\":\"a\",\"moment\":\"2024-01-10T00:00:00.000Z\",\
\"rule\":\"r1\",\"version\":\"1\"}",
    ),
    (
        ActionKind::Marker,
        b"a",
        On::Version(1),
        "r2",
        Some(2),
        "{\"action\":\"marker\",\"key\":\"a\",\"marker\":\"2\",\"moment\":\"2024-01-10T00:00:00.000Z\",\
\"rule\":\"r2\",\"version\":\"1\"}",
    ),
    (
        ActionKind::Marker,
        b"a",
        On::Version(1),
        "r2",
        None,
        "{\"action\":\"marker\",\"key\":\"a\",\"moment\":\"2024-01-10T00:00:00.000Z\",\"rule\":\"r2\",\
\"version\":\"1\"}",
    ),
    (
        ActionKind::Abort,
        b"\t\x01",
        On::Upload(1),
        "r",
        None,
        "{\"action\":\"abort\",\"key\":\"\\t\\u0001\",\"moment\":\"2024-01-10T00:00:00.000Z\",\"rule\":\"r\",\
\"upload\":1}",
    ),
];

#[test]
fn actions(rt: HostRuntime) {
    let alloc = rt.alloc();
    for (kind, bytes, on, rule, marker, body) in ACTIONS {
        let (key, rule) = (key(&rt, alloc, bytes), text(&rt, alloc, rule));
        let reply = chosen(&rt, alloc, *kind, key, target(*on), rule, *marker);
        is_printed(&rt, alloc, Ok(reply), OK, body);
    }
}

const LONGEST_KEY: [u8; 1_024] = [1; 1_024];

#[test]
fn the_longest_action(rt: HostRuntime) {
    let alloc = rt.alloc();
    let rule = "\u{2}".repeat(alloc, 255).expect(&rt, "memory");
    let kind = ActionKind::Transition(Class::DeepArchive);
    let target = Target::Version(id(18_446_744_073_709_551_615));
    let key = key(&rt, alloc, &LONGEST_KEY);
    let reply = chosen(&rt, alloc, kind, key, target, rule, None);
    // 1,024 and 255 bytes, each escaped as six characters, and the text between them.
    let answer = Ok(reply);
    let size = printed(&rt, alloc, &answer).len();
    drop(answer);
    equal(&rt, &"the longest", &size, &7_881);
}

fn used(class: Class, byte_ms: u128, early_byte_ms: u128, moves: u64) -> ClassMeters {
    ClassMeters {
        class,
        byte_ms,
        early_byte_ms,
        moves,
    }
}

fn meters_shown(rt: &impl Abort, alloc: Global) -> Reply
    ensures { ReplyFits result }
{
    let classes = vec![in alloc;
        used(Class::Standard, 259_200_000_000, 0, 0),
        used(Class::StandardIa, 0, 345_600_000_000_000, 1),
        used(Class::OnezoneIa, 0, 0, 0),
        used(Class::GlacierIr, 0, 0, 0),
        used(Class::Glacier, 0, 0, 0),
        used(Class::DeepArchive, u128::MAX, 0, u64::MAX),
    ];
    Reply::MetersShown {
        bucket: name(rt, alloc, "logs"),
        month: month(rt, 2024, 1),
        classes: Items::of(classes.expect(rt, "memory")),
    }
}

const METERS: &str = "{\"bucket\":\"logs\",\"classes\":[\
{\"byte_ms\":\"259200000000\",\"class\":\"STANDARD\",\"early_byte_ms\":\"0\",\"moves\":0},\
{\"byte_ms\":\"0\",\"class\":\"STANDARD_IA\",\"early_byte_ms\":\"345600000000000\",\"moves\":1},\
{\"byte_ms\":\"0\",\"class\":\"ONEZONE_IA\",\"early_byte_ms\":\"0\",\"moves\":0},\
{\"byte_ms\":\"0\",\"class\":\"GLACIER_IR\",\"early_byte_ms\":\"0\",\"moves\":0},\
{\"byte_ms\":\"0\",\"class\":\"GLACIER\",\"early_byte_ms\":\"0\",\"moves\":0},\
{\"byte_ms\":\"340282366920938463463374607431768211455\",\"class\":\"DEEP_ARCHIVE\",\"early_byte_ms\":\"0\",\
\"moves\":18446744073709551615}],\"month\":\"2024-01\"}";

#[test]
fn meters(rt: HostRuntime) {
    let shown = Ok(meters_shown(&rt, rt.alloc()));
    is_kept(&rt, rt.alloc(), shown, JSON, METERS);
}

#[test]
fn a_short_room(rt: HostRuntime) {
    let mut room = [7u8; 10];
    let size = put_answer(&mut room, &Err(Refusal::NoMemory));
    equal(&rt, &"the size", &size, &123);
    assert!(rt; &room[..4] == b"HTTP".as_slice());
}

// Checks the reply that is printed into memory of its own.
fn is_kept(rt: &impl Abort, alloc: Global, answer: Result<Reply, Refusal>, media: &str, body: &str)
    requires { AnswerFits answer }
{
    let text = print_answer(alloc, &answer);
    drop(answer);
    let text = text.expect(rt, "memory");
    let wanted = reply_of(rt, alloc, OK, media, body);
    assert!(rt; text.as_slice() == wanted.as_bytes(), "{body}");
}

// An object with two tags, given out of order, of the second day of 2024.
fn object(rt: &impl Abort, alloc: Global) -> Version {
    let second = moment(rt, 1_704_153_600_000);
    Version {
        id: id(2),
        kind: Kind::Object {
            size: size(rt, 5),
            class: Class::Glacier,
            tags: tags(rt, alloc, &[("kind", "raw"), ("keep", "n\"o")]),
            entered: second,
        },
        created: second,
        ceased: second,
    }
}

// The object above a delete marker, which ceased to be current when the object was put.
fn two_versions(rt: &impl Abort, alloc: Global) -> Stack {
    let marker = Version {
        id: VersionId::Null,
        kind: Kind::Marker,
        created: moment(rt, 1_704_067_200_000),
        ceased: moment(rt, 1_704_153_600_000),
    };
    let versions = vec![in alloc; object(rt, alloc), marker].expect(rt, "memory");
    let stack = Stack::of(moment(rt, 1_704_153_600_000), versions).expect(rt, "memory");
    stack.expect(rt, "a stack")
}

const VERSIONS: &str = "{\"changed\":\"2024-01-02T00:00:00.000Z\",\"key\":\"a\",\"versions\":[\
{\"class\":\"GLACIER\",\"created\":\"2024-01-02T00:00:00.000Z\",\"entered\":\"2024-01-02T00:00:00.000Z\",\
\"kind\":\"object\",\"size\":5,\"tags\":{\"keep\":\"n\\\"o\",\"kind\":\"raw\"},\"version\":\"2\"},\
{\"created\":\"2024-01-01T00:00:00.000Z\",\"kind\":\"marker\",\"noncurrent_since\":\"2024-01-02T00:00:00.000Z\",\
\"version\":\"null\"}]}";

#[test]
fn the_versions_of_a_key(rt: HostRuntime) {
    let shown = Ok(Reply::StackShown {
        key: key(&rt, rt.alloc(), b"a"),
        stack: two_versions(&rt, rt.alloc()),
    });
    is_kept(&rt, rt.alloc(), shown, JSON, VERSIONS);
}

#[test]
fn two_versions_are_one_piece(rt: HostRuntime) {
    let (key, stack) = (key(&rt, rt.alloc(), b"a"), two_versions(&rt, rt.alloc()));
    let wanted = reply_of(&rt, rt.alloc(), OK, JSON, VERSIONS);
    let mut room = vec![in rt.alloc(); 0u8; PIECE_ROOM].expect(&rt, "memory");
    let mut pieces = StackPieces::new(&key, &stack).expect(&rt, "pieces");
    let size = pieces.next(room.as_mut_slice()).expect(&rt, "a piece");
    assert!(rt; &room[..size] == wanted.as_bytes());
    assert!(rt; pieces.next(room.as_mut_slice()).is_none());
}

// Parts 1 and 3; part 3 was put first.
fn two_parts(rt: &impl Abort, alloc: Global) -> BTreeMap<u32, Part> {
    let put = moment(rt, 1_704_067_200_000);
    let mut parts = BTreeMap::new(alloc);
    for (number, size) in &[(3, 7), (1, 5)] {
        let part = Part { size: *size, put };
        let before: Result<_, _> = parts.insert(*number, part);
        assert!(rt; before.is_ok());
    }
    parts
}

fn upload_of_parts(rt: &impl Abort, alloc: Global) -> Upload {
    let at = moment(rt, 1_704_067_200_000);
    let (key, tags) = (key(rt, alloc, b"a"), tags(rt, alloc, &[]));
    let parts = two_parts(rt, alloc);
    Upload::of(key, Class::Glacier, tags, at, at, parts).expect(rt, "an upload")
}

const UPLOAD: &str =
    "{\"class\":\"GLACIER\",\"key\":\"a\",\"parts\":[{\"part\":1,\"size\":5},{\"part\":3,\"size\":7}],\
\"started\":\"2024-01-01T00:00:00.000Z\",\"tags\":{},\"upload\":1}";

#[test]
fn an_upload(rt: HostRuntime) {
    let shown = Ok(Reply::UploadShown {
        number: 1,
        upload: upload_of_parts(&rt, rt.alloc()),
    });
    is_kept(&rt, rt.alloc(), shown, JSON, UPLOAD);
}

const STORAGE: [u32; 6] = [23_000, 12_500, 10_000, 4_000, 3_600, 990];

const TRANSITION: [u32; 5] = [10, 11, 20, 30, 50];

// The first tariff has one price a class; the second has tiers, and begins in a later month.
const PRICES: &str = "{\"tariffs\":[{\"from\":\"1970-01\",\
\"storage\":{\"DEEP_ARCHIVE\":990,\"GLACIER\":3600,\"GLACIER_IR\":4000,\"ONEZONE_IA\":10000,\
\"STANDARD\":23000,\"STANDARD_IA\":12500},\"transition\":{\"DEEP_ARCHIVE\":50,\"GLACIER\":30,\"GLACIER_IR\":20,\
\"ONEZONE_IA\":11,\"STANDARD_IA\":10}},{\"from\":\"2024-03\",\
\"storage\":{\"DEEP_ARCHIVE\":990,\"GLACIER\":3600,\"GLACIER_IR\":4000,\"ONEZONE_IA\":10000,\
\"STANDARD\":[{\"price\":23000,\"upto\":1},{\"price\":20000,\"upto\":4294967295},{\"price\":0}],\"STANDARD_IA\":12500},\
\"transition\":{\"DEEP_ARCHIVE\":50,\"GLACIER\":30,\"GLACIER_IR\":20,\"ONEZONE_IA\":11,\"STANDARD_IA\":10}}]}";

const THREE_TIERS: [Tier; 3] = [
    Tier {
        upto: Some(1),
        price: 23_000,
    },
    Tier {
        upto: Some(4_294_967_295),
        price: 20_000,
    },
    Tier {
        upto: None,
        price: 0,
    },
];

#[test]
fn the_prices(rt: HostRuntime) {
    let alloc = rt.alloc();
    let flat = Tariff::of(STORAGE, TRANSITION).expect(&rt, "a tariff");
    let mut tiered = flat;
    tiered.from = month(&rt, 2024, 3);
    tiered.storage[0] = Tiers::from_slice(&THREE_TIERS).expect(&rt, "tiers");
    let tariffs = vec![in alloc; flat, tiered].expect(&rt, "memory");
    let shown = Ok(Reply::TariffShown {
        tariffs: Items::of(tariffs),
    });
    is_kept(&rt, alloc, shown, JSON, PRICES);
}

const RULES: &[u8] =
    b"{\"Rules\": [{\"Status\": \"Enabled\", \"ID\": \"rest\", \"Expiration\": {\"Days\": 60}}]}";

const CONFIGURATION: &str =
    "{\"Rules\":[{\"Expiration\":{\"Days\":60},\"Filter\":{\"Prefix\":\"\"},\"ID\":\"rest\",\
\"Status\":\"Enabled\"}],\"TransitionDefaultMinimumObjectSize\":\"all_storage_classes_128K\"}";

#[test]
fn a_configuration(rt: HostRuntime) {
    let Ok(rules) = read_rules(rt.alloc(), RULES) else {
        panic!(rt; "no configuration")
    };
    let shown = Ok(Reply::RulesShown { rules });
    is_kept(&rt, rt.alloc(), shown, JSON, CONFIGURATION);
}

// A report of January 2024 with one line of STANDARD.
fn january(rt: &impl Abort, alloc: Global, quantity: u128, price: Price, charge: u128) -> Reply
    requires { charge < 2 ^ 64 }
    ensures { ReplyFits result }
{
    let line = ReportLine {
        bucket: name(rt, alloc, "logs"),
        kind: LineKind::Storage,
        class: Class::Standard,
        quantity,
        price,
        charge,
    };
    Reply::Report {
        lines: Items::of(vec![in alloc; line].expect(rt, "memory")),
    }
}

const REPORT: &str =
    "bucket,line,class,quantity,price,charge\nlogs,storage,STANDARD,2875910101401600000,23000,23000\n,total,,,,23000\n";

const IN_TIERS: &str =
    "bucket,line,class,quantity,price,charge\nlogs,storage,STANDARD,8627730304204800000,tiered,63000\n\
,total,,,,63000\n";

// A GiB for the whole month at 23,000; and three GiB, the first at 23,000 and the others at 20,000.
#[test]
fn a_report(rt: HostRuntime) {
    let alloc = rt.alloc();
    let one = Price::One(23_000);
    let report = Ok(january(&rt, alloc, 2_875_910_101_401_600_000, one, 23_000));
    is_kept(&rt, alloc, report, "text/csv", REPORT);
    let report = Ok(january(&rt, alloc, 8_627_730_304_204_800_000, Price::Tiered, 63_000));
    is_kept(&rt, alloc, report, "text/csv", IN_TIERS);
}
