ghost use Rattle.std.specs.Prelude.{option_copied};
ghost use Rattle.office_types.specs.Tokens.{MayCarry};

use crate::given::{equal, key, moment, month, name, size, tags};
use class_rules::Class;
use entry_codec::{Command, Entry, EntryFault, decode, encode};
use office_types::Token;
use std::alloc::Global;
use std::process::Abort;
use tariff::{BoxedTariff, Tariff, Tier, Tiers};

// 2024-01-01 00:00 UTC.
const NEW_YEAR: u64 = 1_704_067_200_000;

// A bucket `logs` made at NEW_YEAR.
const LOGS: [u8; 15] = [
    0x00, 0x00, 0x01, 0x8c, 0xc2, 0x51, 0xf4, 0x00, 0x01, 0x00, 0x04, 0x6c, 0x6f, 0x67, 0x73,
];

// The same with the token `t1`.
const LOGS_ONCE: [u8; 18] = [
    0x00, 0x00, 0x01, 0x8c, 0xc2, 0x51, 0xf4, 0x00, 0x81, 0x02, 0x74, 0x31, 0x00, 0x04, 0x6c, 0x6f,
    0x67, 0x73,
];

// 1,000 bytes put there at NEW_YEAR under the key `a`, in GLACIER, with the tags keep: no and kind: raw.
const TAGGED: [u8; 49] = [
    0x00, 0x00, 0x01, 0x8c, 0xc2, 0x51, 0xf4, 0x00, 0x05, 0x00, 0x04, 0x6c, 0x6f, 0x67, 0x73, 0x00,
    0x01, 0x61, 0x00, 0x00, 0x00, 0x00, 0x00, 0x00, 0x03, 0xe8, 0x04, 0x02, 0x00, 0x04, 0x6b, 0x65,
    0x65, 0x70, 0x00, 0x02, 0x6e, 0x6f, 0x00, 0x04, 0x6b, 0x69, 0x6e, 0x64, 0x00, 0x03, 0x72, 0x61,
    0x77,
];

// These parts, one after the other.
fn together(rt: &impl Abort, alloc: Global, parts: &[&[u8]]) -> Vec<u8> {
    let mut bytes = Vec::new(alloc);
    for part in parts {
        bytes.extend_from_slice(part).expect(rt, "memory");
    }
    bytes
}

// NEW_YEAR, and these bytes after it.
fn entry_of(rt: &impl Abort, alloc: Global, behind: &[u8]) -> Vec<u8> {
    together(rt, alloc, &[&NEW_YEAR.to_be_bytes(), behind])
}

// The fault of NEW_YEAR and these bytes; none if they are an entry.
fn fault_of(rt: &impl Abort, alloc: Global, behind: &[u8]) -> Option<EntryFault> {
    let bytes = entry_of(rt, alloc, behind);
    decode(alloc, &bytes).err()
}

fn bad(offset: u64) -> Option<EntryFault> {
    Some(EntryFault::BadEntry { offset })
}

// Whether the entry of a command at NEW_YEAR, with a token or without, has these bytes.
fn is_written(
    rt: &impl Abort,
    alloc: Global,
    token: Option<Token>,
    command: Command,
    wanted: &[u8],
) -> bool
    requires { MayCarry token command }
{
    let entry = Entry {
        moment: moment(rt, NEW_YEAR),
        token,
        command,
    };
    let written = encode(alloc, &entry);
    drop(entry);
    let written = written.expect(rt, "memory");
    written.as_slice() == wanted
}

// Whether the entry that is read from NEW_YEAR and these bytes is written as the same bytes.
fn is_written_again(rt: &impl Abort, alloc: Global, behind: &[u8]) -> bool {
    let bytes = entry_of(rt, alloc, behind);
    let entry = decode(alloc, &bytes).expect(rt, "an entry");
    let written = encode(alloc, &entry);
    drop(entry);
    let written = written.expect(rt, "memory");
    written.as_slice() == bytes.as_slice()
}

// A put of 1,000 bytes under the key `a` of the bucket `logs`.
fn tagged_put(rt: &impl Abort, alloc: Global) -> Command {
    Command::Put {
        bucket: name(rt, alloc, "logs"),
        key: key(rt, alloc, b"a"),
        size: size(rt, 1_000),
        class: Class::Glacier,
        tags: tags(rt, alloc, &[("kind", "raw"), ("keep", "no")]),
    }
}

#[test]
fn commands_are_written(rt: HostRuntime) {
    let alloc = rt.alloc();
    let bucket = name(&rt, alloc, "logs");
    assert!(rt; is_written(&rt, alloc, None, Command::CreateBucket { bucket }, &LOGS));
    assert!(rt; is_written(&rt, alloc, None, tagged_put(&rt, alloc), &TAGGED));
}

#[test]
fn a_command_is_written_with_its_token(rt: HostRuntime) {
    let alloc = rt.alloc();
    let bucket = name(&rt, alloc, "logs");
    let token = Token::read(alloc, b"t1").expect(&rt, "memory");
    assert!(rt; token.is_some());
    assert!(rt;
        is_written(
            &rt,
            alloc,
            token,
            Command::CreateBucket { bucket },
            &LOGS_ONCE
        )
    );
}

// From 2024-01 on: STANDARD at 23,000 up to a GiB-month and at 20,000 above, every other class at one price.
const TIERED: [u8; 94] = [
    0x00, 0x00, 0x01, 0x8c, 0xc2, 0x51, 0xf4, 0x00, 0x10, 0x07, 0xe8, 0x01, 0x02, 0x00, 0x00, 0x00,
    0x01, 0x00, 0x00, 0x59, 0xd8, 0x00, 0x00, 0x00, 0x00, 0x00, 0x00, 0x4e, 0x20, 0x01, 0x00, 0x00,
    0x00, 0x00, 0x00, 0x00, 0x30, 0xd4, 0x01, 0x00, 0x00, 0x00, 0x00, 0x00, 0x00, 0x27, 0x10, 0x01,
    0x00, 0x00, 0x00, 0x00, 0x00, 0x00, 0x0f, 0xa0, 0x01, 0x00, 0x00, 0x00, 0x00, 0x00, 0x00, 0x0e,
    0x10, 0x01, 0x00, 0x00, 0x00, 0x00, 0x00, 0x00, 0x03, 0xde, 0x00, 0x00, 0x00, 0x0a, 0x00, 0x00,
    0x00, 0x0b, 0x00, 0x00, 0x00, 0x14, 0x00, 0x00, 0x00, 0x1e, 0x00, 0x00, 0x00, 0x32,
];

const TWO_TIERS: [Tier; 2] = [
    Tier {
        upto: Some(1),
        price: 23_000,
    },
    Tier {
        upto: None,
        price: 20_000,
    },
];

// The tariff of these tiers of STANDARD from January 2024 on.
fn tiered(rt: &impl Abort, alloc: Global, tiers: &[Tier]) -> BoxedTariff {
    let mut tariff = Tariff::of(
        [0, 12_500, 10_000, 4_000, 3_600, 990],
        [10, 11, 20, 30, 50],
    ).expect(rt, "a tariff");
    tariff.from = month(rt, 2024, 1);
    tariff.storage[0] = Tiers::from_slice(tiers).expect(rt, "tiers");
    BoxedTariff::new(alloc, tariff).expect(rt, "memory")
}

#[test]
fn a_tariff_in_tiers_is_written(rt: HostRuntime) {
    let alloc = rt.alloc();
    let tariff = tiered(&rt, alloc, &TWO_TIERS);
    assert!(rt; is_written(&rt, alloc, None, Command::SetTariff { tariff }, &TIERED));
}

// The bytes after the moment, by the table of kinds.
const ENTRIES: &[&[u8]] = &[
    b"\x01\0\x04logs",
    b"\x02\0\x04logs\x01",
    b"\x02\0\x04logs\x02",
    b"\x04\0\x04logs",
    b"\x05\0\x04logs\0\x01a\0\0\0\0\0\0\x03\xe8\x05\0",
    b"\x05\0\x04logs\0\x01a\0\0\x05\0\0\0\0\0\0\x01\0\x01k\0\0",
    b"\x06\0\x04logs\0\x01a",
    b"\x07\0\x04logs\0\x01a\0\0\0\0\0\0\0\0",
    b"\x07\0\x04logs\0\x01a\xff\xff\xff\xff\xff\xff\xff\xff",
    b"\x08\0\x04logs\0\x01a\0\0\0\0\0\0\0\x03\x02\0\x01a\0\0\0\x01b\0\x01v",
    b"\x09\0\x04logs\0\x01a\x04\0",
    b"\x0a\0\x04logs\0\0\0\0\0\0\0\x01\0\0\0\x05\0\0\0\0\0\0\x03\xe8",
    b"\x0a\0\x04logs\0\0\0\0\0\0\0\0\xff\xff\xff\xff\xff\xff\xff\xff\xff\xff\xff\xff",
    b"\x0b\0\x04logs\0\0\0\0\0\0\0\x01",
    b"\x0c\0\x04logs\xff\xff\xff\xff\xff\xff\xff\xff",
    b"\x0d\0\x04logs",
    b"\x0e\0\x10\0\0\0\0\0\x01\0\0\0\x02\0\0\0\x03\0\0\0\x04\0\0\0\x05\0\0\0\x06\0\0\0\x07\0\0\0\x08\0\0\0\0\0\x10\0\0",
    b"\x0f\x07\xb2\x01",
    b"\x0f\x08\x33\x0c",
    b"\x10\x07\xb2\x02\x01\0\0\0\0\0\x10\0\0\x01\0\0\0\0\0\0\0\0\x01\0\0\0\0\0\0\0\x03\x01\0\0\0\0\0\0\0\x04\
\x01\0\0\0\0\0\0\0\x05\x01\0\0\0\0\0\0\0\x06\0\0\0\x07\0\0\0\x08\0\0\0\0\0\x10\0\0\0\0\0\x0b",
    b"\x10\x07\xb2\x01\x02\xff\xff\xff\xff\0\0\0\x01\0\0\0\0\0\0\0\x02\x01\0\0\0\0\0\0\0\x02\x01\0\0\0\0\0\0\0\x03\
\x01\0\0\0\0\0\0\0\x04\x01\0\0\0\0\0\0\0\x05\x01\0\0\0\0\0\0\0\x06\0\0\0\x07\0\0\0\x08\0\0\0\x09\0\0\0\x0a\0\0\0\x0b",
    b"\x81\x02t1\0\x04logs",
    b"\x81\x02!~\0\x04logs",
    b"\x81\x40\
0123456789012345678901234567890123456789012345678901234567890123\0\x04logs",
    b"\x82\x01t\0\x04logs\x02",
    b"\x84\x02t1\0\x04logs",
    b"\x85\x02t1\0\x04logs\0\x01a\0\0\x05\0\0\0\0\0\0\x01\0\x01k\0\0",
    b"\x86\x02t1\0\x04logs\0\x01a",
    b"\x87\x02t1\0\x04logs\0\x01a\0\0\0\0\0\0\0\0",
    b"\x88\x02t1\0\x04logs\0\x01a\0\0\0\0\0\0\0\x03\x01\0\x01a\0\0",
    b"\x89\x02t1\0\x04logs\0\x01a\x04\0",
    b"\x8a\x02t1\0\x04logs\0\0\0\0\0\0\0\x01\0\0\0\x05\0\0\0\0\0\0\x03\xe8",
    b"\x8b\x02t1\0\x04logs\0\0\0\0\0\0\0\x01",
    b"\x8c\x02t1\0\x04logs\0\0\0\0\0\0\0\x01",
    b"\x8f\x02t1\x08\x33\x0c",
];

#[test]
fn every_kind_is_read_and_written(rt: HostRuntime) {
    for (index, behind) in ENTRIES.iter().enumerate() {
        let is_so = is_written_again(&rt, rt.alloc(), behind);
        equal(&rt, &index, &is_so, &true);
    }
}

// The bytes after the moment, and the offset of the first field that is invalid.
const FAULTS: &[(&[u8], u64)] = &[
    (b"", 8),
    (b"\x11\0\x04logs", 8),
    (b"\x01\0\x04log", 9),
    (b"\x01\0\x04Logs", 9),
    (b"\x01\0\x04logs\0", 15),
    (b"\x02\0\x04logs\x03", 15),
    (b"\x02\0\x04logs\x01\x01", 16),
    (b"\x06\0\x04logs\0\0", 15),
    (b"\x05\0\x04logs\0\x01a\0\0\x05\0\0\0\0\x01\0\0", 18),
    (b"\x05\0\x04logs\0\x01a\0\0\0\0\0\0\0\x01\x06\0", 26),
    (
        b"\x05\0\x04logs\0\x01a\0\0\0\0\0\0\0\x01\0\x02\0\x01b\0\0\0\x01a\0\0",
        27,
    ),
    (b"\x07\0\x04logs\0\x01a\0\0\0\0\0\0\0", 18),
    (b"\x08\0\x04logs\0\x01a\0\0\0\0\0\0\0\x01\x0b", 26),
    (b"\x09\0\x04logs\0\x01a\x06\0", 18),
    (b"\x09\0\x04logs\0\x01a\0", 19),
    (b"\x0a\0\x04logs\0\0\0\0\0\0\0", 15),
    (b"\x0a\0\x04logs\0\0\0\0\0\0\0\x01\0\0\0", 23),
    (
        b"\x0a\0\x04logs\0\0\0\0\0\0\0\x01\0\0\0\x01\0\0\0\0\0\0\0",
        27,
    ),
    (b"\x0b\0\x04logs\0\0\0\0\0\0\0", 15),
    (b"\x0c\0\x04logs\0\0\0\0\0\0\0\x01\0", 23),
    (b"\x0e\0\x10\0\0\0\0\0\0\0\x10\0\x01", 17),
    (
        b"\x0e\0\0\0\0\0\0\0\0\0\0\0\0\0\0\0\0\0\0\0\0\0\0\0\0\xff\xff\xff\xff",
        33,
    ),
    (
        b"\x0e\0\0\0\0\0\0\0\0\0\0\0\0\0\0\0\0\0\0\0\0\0\0\0\0\0\0\0\0\0\0\0\0\0\0\0\0\0\0\0\0\0\0\0",
        49,
    ),
    (b"\x0f\x07\xb1\x01", 9),
    (b"\x0f\x07\xe8\0", 11),
    (b"\x0f\x07\xe8\x0d", 11),
    (b"\x0f\x07\xe8\x0c\0", 12),
];

// The same for entries with tokens. Rules, acts and prices carry none.
const TOKEN_FAULTS: &[(&[u8], u64)] = &[
    (b"\x80\x02t1\0\x04logs", 8),
    (b"\x83\x02t1\0\x04logs\0\0\0\0", 8),
    (b"\x8d\x02t1\0\x04logs", 8),
    (
        b"\x8e\x02t1\0\0\0\0\0\0\0\0\0\0\0\0\0\0\0\0\0\0\0\0\0\0\0\0\0\0\0\0\0\0\0\0\0\0\0\0\0\0\0\0\0\0\0\0",
        8,
    ),
    (b"\x90\x02t1\x07\xe8\x01", 8),
    (b"\x91\x02t1\0\x04logs", 8),
    (b"\x81", 9),
    (b"\x81\0\0\x04logs", 9),
    (
        b"\x81\x41\
01234567890123456789012345678901234567890123456789012345678901234\0\x04logs",
        9,
    ),
    (b"\x81\x01 \0\x04logs", 9),
    (b"\x81\x01\x7f\0\x04logs", 9),
    (b"\x81\x02t\xc3\0\x04logs", 9),
    (b"\x81\x03t1", 9),
    (b"\x81\x02t1\0\x04Logs", 12),
    (b"\x81\x02t1\0\x04logs\0", 18),
    (b"\x8f\x01t\x07\xe8\x0d", 13),
];

// The front and the rest of an entry with tiers: six classes with one tier at price 0, and the prices of five moves.
const FROM_2024: &[u8] = b"\x10\x07\xe8\x01";

const FIVE_CLASSES: &[u8] =
    b"\x01\0\0\0\0\0\0\0\0\x01\0\0\0\0\0\0\0\0\x01\0\0\0\0\0\0\0\0\x01\0\0\0\0\0\0\0\0\x01\0\0\0\0\0\0\0\0";

const ONE_CLASS: &[u8] = b"\x01\0\0\0\0\0\0\0\0";

const MOVES: &[u8] = b"\0\0\0\0\0\0\0\0\0\0\0\0\0\0\0\0\0\0\0\0";

const NO_BYTES: &[u8] = b"";

// The parts after the moment, and the offset of the first field that is invalid. The tiers of a class are one field.
const TIER_FAULTS: &[(&[&[u8]], u64)] = &[
    (&[b"\x10\0\x04", b"\x01", ONE_CLASS, FIVE_CLASSES, MOVES], 9),
    (
        &[b"\x10\x08\x34", b"\x01", ONE_CLASS, FIVE_CLASSES, MOVES],
        9,
    ),
    (
        &[b"\x10\x07\xe8", b"\0", ONE_CLASS, FIVE_CLASSES, MOVES],
        11,
    ),
    (
        &[b"\x10\x07\xe8", b"\x0d", ONE_CLASS, FIVE_CLASSES, MOVES],
        11,
    ),
    // No tier, and nine tiers.
    (&[FROM_2024, b"\0", NO_BYTES, FIVE_CLASSES, MOVES], 12),
    (
        &[
            FROM_2024,
            b"\x09\0\0\0\x01\0\0\0\0\0\0\0\x02\0\0\0\0\0\0\0\x03\0\0\0\0\0\0\0\x04\0\0\0\0\0\0\0\x05\0\0\0\0",
            b"\0\0\0\x06\0\0\0\0\0\0\0\x07\0\0\0\0\0\0\0\x08\0\0\0\0\0\0\0\0\0\0\0\0",
            FIVE_CLASSES,
            MOVES,
        ],
        12,
    ),
    // The last tier has an end; a tier before the last has none; an end that does not rise.
    (
        &[
            FROM_2024,
            b"\x01\0\0\0\x05\0\0\0\0",
            NO_BYTES,
            FIVE_CLASSES,
            MOVES,
        ],
        12,
    ),
    (
        &[
            FROM_2024,
            b"\x02\0\0\0\0\0\0\0\0\0\0\0\0\0\0\0\0",
            NO_BYTES,
            FIVE_CLASSES,
            MOVES,
        ],
        12,
    ),
    (
        &[
            FROM_2024,
            b"\x03\0\0\0\x05\0\0\0\0\0\0\0\x05\0\0\0\0\0\0\0\0\0\0\0\0",
            NO_BYTES,
            FIVE_CLASSES,
            MOVES,
        ],
        12,
    ),
    // A price above the largest, cut off, and in the second class.
    (
        &[
            FROM_2024,
            b"\x01\0\0\0\0\0\x10\0\x01",
            NO_BYTES,
            FIVE_CLASSES,
            MOVES,
        ],
        12,
    ),
    (
        &[
            FROM_2024,
            b"\x01\0\0\0\0\0\0\0",
            NO_BYTES,
            NO_BYTES,
            NO_BYTES,
        ],
        12,
    ),
    (
        &[
            FROM_2024,
            ONE_CLASS,
            b"\x01\0\0\0\0\0\x10\0\x01",
            NO_BYTES,
            NO_BYTES,
        ],
        21,
    ),
    // The first price of a move, too large, and the last one, cut off.
    (
        &[FROM_2024, ONE_CLASS, FIVE_CLASSES, b"\0\x10\0\x01", MOVES],
        66,
    ),
    (
        &[
            FROM_2024,
            ONE_CLASS,
            FIVE_CLASSES,
            b"\0\0\0\0\0\0\0\0\0\0\0\0\0\0\0\0\0\0\0",
            NO_BYTES,
        ],
        82,
    ),
    // One byte too many.
    (&[FROM_2024, ONE_CLASS, FIVE_CLASSES, MOVES, b"\0"], 86),
    // What the shorter kind spells, from January 1970 with one tier for each class; bytes after it are reported later.
    (
        &[
            b"\x10\x07\xb2\x01",
            ONE_CLASS,
            FIVE_CLASSES,
            MOVES,
            NO_BYTES,
        ],
        8,
    ),
    (
        &[b"\x10\x07\xb2\x01", ONE_CLASS, FIVE_CLASSES, MOVES, b"\0"],
        8,
    ),
];

#[test]
fn a_fault_names_its_field(rt: HostRuntime) {
    for (index, (behind, offset)) in FAULTS.iter().enumerate() {
        let found = fault_of(&rt, rt.alloc(), behind);
        equal(&rt, &index, &found, &bad(*offset));
    }
}

#[test]
fn a_fault_names_its_field_behind_a_token(rt: HostRuntime) {
    for (index, (behind, offset)) in TOKEN_FAULTS.iter().enumerate() {
        let found = fault_of(&rt, rt.alloc(), behind);
        equal(&rt, &index, &found, &bad(*offset));
    }
}

#[test]
fn a_fault_names_its_field_of_tiers(rt: HostRuntime) {
    for (index, (parts, offset)) in TIER_FAULTS.iter().enumerate() {
        let behind = together(&rt, rt.alloc(), parts);
        let found = fault_of(&rt, rt.alloc(), &behind);
        equal(&rt, &index, &found, &bad(*offset));
    }
}

// A rule as it is written.
const RULE: &[u8] =
    b"{\"Expiration\":{\"Days\":9},\"Filter\":{\"Prefix\":\"\"},\"ID\":\"a\",\"Status\":\"Enabled\"}";

// A rule with a space; with its fields in another order; without its id; with a flaw; and a text that is not JSON.
const OTHER_TEXTS: &[&[u8]] = &[
    b"{\"Expiration\":{\"Days\":9}, \"Filter\":{\"Prefix\":\"\"},\"ID\":\"a\",\"Status\":\"Enabled\"}",
    b"{\"ID\":\"a\",\"Expiration\":{\"Days\":9},\"Filter\":{\"Prefix\":\"\"},\"Status\":\"Enabled\"}",
    b"{\"Expiration\":{\"Days\":9},\"Filter\":{\"Prefix\":\"\"},\"Status\":\"Enabled\"}",
    b"{\"Expiration\":{\"Days\":0},\"Filter\":{\"Prefix\":\"\"},\"ID\":\"a\",\"Status\":\"Enabled\"}",
    b"{",
];

// The bytes after the moment of an entry that sets the rules of `logs`, with this text of one rule.
fn set_rules(rt: &impl Abort, alloc: Global, rule: &[u8]) -> Vec<u8> {
    let (head, tail) = (
        b"{\"Rules\":[".as_slice(),
        b"],\"TransitionDefaultMinimumObjectSize\":\"all_storage_classes_128K\"}".as_slice(),
    );
    assert!(rt; head.len() < 100 && rule.len() < 1_000 && tail.len() < 100);
    let length = ((head.len() + rule.len() + tail.len()) as u32).to_be_bytes();
    let parts = [b"\x03\0\x04logs", length.as_slice(), head, rule, tail];
    together(rt, alloc, &parts)
}

#[test]
fn rules_have_one_text(rt: HostRuntime) {
    let printed = set_rules(&rt, rt.alloc(), RULE);
    assert!(rt; is_written_again(&rt, rt.alloc(), &printed));
}

#[test]
fn other_texts_of_rules(rt: HostRuntime) {
    for (index, rule) in OTHER_TEXTS.iter().enumerate() {
        let behind = set_rules(&rt, rt.alloc(), rule);
        equal(&rt, &index, &fault_of(&rt, rt.alloc(), &behind), &bad(15));
    }
}
