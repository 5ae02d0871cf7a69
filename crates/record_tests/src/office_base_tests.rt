use crate::given::{Pair, equal, id, key, pairs, tags, text};
use office_base::{BucketName, Items, Key, NameRefusal, Nth, Size, TagList, Tags, Text, VersionId};
use std::alloc::Global;
use std::cmp::Ordering;
use std::process::Abort;

const SIXTY_THREE: &str = "abcdefghijklmnopqrstuvwxyz-0123456789.abcdefghijklmnopqrstuvwxy";

const SIXTY_FOUR: &str = "abcdefghijklmnopqrstuvwxyz-0123456789.abcdefghijklmnopqrstuvwxyz";

const NAMES: [&str; 8] = [
    "abc",
    "0-9",
    "a.b",
    "logs",
    "my-bucket.2024",
    "a..b",
    "192.168.5.4",
    SIXTY_THREE,
];

fn name(rt: &impl Abort, alloc: Global, text: &str) -> BucketName {
    BucketName::read(alloc, text).expect(rt, "a name")
}

// Whether a name and its copy have this text.
fn is_kept(rt: &impl Abort, name: &BucketName, text: &str) -> bool {
    let copy = name.copy().expect(rt, "memory");
    name.text() == text && copy.text() == text
}

#[test]
fn names_in_range(rt: HostRuntime) {
    for text in &NAMES {
        let name = name(&rt, rt.alloc(), text);
        equal(&rt, text, &is_kept(&rt, &name, text), &true);
    }
}

const NO_NAMES: [&str; 12] = [
    "", "ab", "Logs", "logs_2", "lo gs", "-logs", "logs-", ".logs", "logs.", "lo/gs", "lögs",
    SIXTY_FOUR,
];

fn name_refusal(alloc: Global, text: &str) -> Option<NameRefusal> {
    match BucketName::read(alloc, text) {
        Ok(_) => None,
        Err(refusal) => Some(refusal),
    }
}

#[test]
fn names_out_of_range(rt: HostRuntime) {
    equal(
        &rt,
        &"lengths",
        &(SIXTY_THREE.len(), SIXTY_FOUR.len()),
        &(63, 64),
    );
    for text in &NO_NAMES {
        let refusal = name_refusal(rt.alloc(), text);
        equal(&rt, text, &refusal, &Some(NameRefusal::BadBucketName));
    }
}

// Names in the order of their bytes.
const ORDERED: [&str; 8] = ["0bc", "a-c", "a.c", "a0c", "abc", "abc-d", "abcd", "abd"];

fn order(rt: &impl Abort, alloc: Global, left: &str, right: &str) -> Ordering {
    name(rt, alloc, left).cmp(&name(rt, alloc, right))
}

#[test]
fn names_in_the_order_of_their_bytes(rt: HostRuntime) {
    for (i, left) in ORDERED.iter().enumerate() {
        for (j, right) in ORDERED.iter().enumerate() {
            let order = order(&rt, rt.alloc(), left, right);
            equal(&rt, &(i, j), &order, &i.cmp(&j));
        }
    }
}

const KEYS: [&[u8]; 4] = [b"/", b"logs/2024.txt", b"gr\xc3\xbcn", &[b'k'; 1_024]];

// Whether a key has these bytes, and equals its copy.
fn is_same_key(rt: &impl Abort, key: &Key, bytes: &[u8]) -> bool {
    let copy = key.copy().expect(rt, "memory");
    key.bytes() == bytes && copy == *key
}

#[test]
fn keys_in_range(rt: HostRuntime) {
    for bytes in &KEYS {
        let key = key(&rt, rt.alloc(), bytes);
        equal(&rt, &bytes.len(), &is_same_key(&rt, &key, bytes), &true);
    }
}

const NO_KEYS: [&[u8]; 4] = [b"", b"\xff", b"gr\xc3", &[b'k'; 1_025]];

fn key_refusal(alloc: Global, bytes: &[u8]) -> Option<NameRefusal> {
    match Key::read(alloc, bytes) {
        Ok(_) => None,
        Err(refusal) => Some(refusal),
    }
}

#[test]
fn keys_out_of_range(rt: HostRuntime) {
    for bytes in &NO_KEYS {
        let refusal = key_refusal(rt.alloc(), bytes);
        equal(&rt, &bytes.len(), &refusal, &Some(NameRefusal::BadKey));
    }
}

fn size(bytes: u64) -> Result<u64, NameRefusal> {
    match Size::of(bytes) {
        Ok(size) => Ok(size.bytes()),
        Err(refusal) => Err(refusal),
    }
}

#[test]
fn sizes(rt: HostRuntime) {
    let largest = 5_497_558_138_880;
    equal(&rt, &"the largest", &size(largest), &Ok(largest));
    equal(
        &rt,
        &"one more",
        &size(largest + 1),
        &Err(NameRefusal::BadSize),
    );
}

// Texts, and the numbers of the versions that they name; 0 is the null version.
const IDS: [(&str, Option<u64>); 11] = [
    ("null", Some(0)),
    ("1", Some(1)),
    ("18446744073709551615", Some(u64::MAX)),
    ("18446744073709551616", None),
    ("0", None),
    ("01", None),
    ("+1", None),
    ("-1", None),
    ("1 ", None),
    ("Null", None),
    ("", None),
];

#[test]
fn version_ids(rt: HostRuntime) {
    equal(&rt, &0, &Nth::of(0), &None);
    for (text, number) in &IDS {
        let wanted = match number {
            Some(number) => Some(id(*number)),
            None => None,
        };
        equal(&rt, text, &VersionId::read(text), &wanted);
    }
}

// Whether these pairs are given, in order.
fn are(given: &[(String, String)], wanted: &[Pair]) -> bool {
    for ((key, value), wanted) in given.iter().zip(wanted) {
        if key.as_str() != wanted.0 || value.as_str() != wanted.1 {
            return false;
        }
    }
    given.len() == wanted.len()
}

const TEN: [Pair; 10] = [
    ("a", ""),
    ("b", ""),
    ("c", ""),
    ("d", ""),
    ("e", ""),
    ("f", ""),
    ("g", ""),
    ("h", ""),
    ("i", ""),
    ("j", ""),
];

const ELEVEN: [Pair; 11] = [
    ("a", ""),
    ("b", ""),
    ("c", ""),
    ("d", ""),
    ("e", ""),
    ("f", ""),
    ("g", ""),
    ("h", ""),
    ("i", ""),
    ("j", ""),
    ("k", ""),
];

const GIVEN: [Pair; 4] = [("kind", "raw"), ("Keep", "no"), ("ä", ""), ("a", "x")];

const KEPT: [Pair; 4] = [("Keep", "no"), ("a", "x"), ("kind", "raw"), ("ä", "")];

// Pairs, and how many tags they make.
const TAGS: [(&[Pair], Result<usize, NameRefusal>); 5] = [
    (&GIVEN, Ok(4)),
    (&TEN, Ok(10)),
    (&ELEVEN, Err(NameRefusal::BadTags)),
    (&[("", "x")], Err(NameRefusal::BadTags)),
    (
        &[("k", "x"), ("l", "x"), ("k", "y")],
        Err(NameRefusal::BadTags),
    ),
];

fn tag_count(alloc: Global, pairs: Vec<(String, String)>) -> Result<usize, NameRefusal> {
    match Tags::read(alloc, pairs) {
        Ok(tags) => Ok(tags.pairs().len()),
        Err(refusal) => Err(refusal),
    }
}

#[test]
fn tags_by_their_pairs(rt: HostRuntime) {
    for (index, (given, wanted)) in TAGS.iter().enumerate() {
        let count = tag_count(rt.alloc(), pairs(&rt, rt.alloc(), given));
        equal(&rt, &index, &count, wanted);
    }
}

#[test]
fn tags_in_the_order_of_their_keys(rt: HostRuntime) {
    let tags = tags(&rt, rt.alloc(), &GIVEN);
    let copy = tags.copy().expect(&rt, "memory");
    assert!(rt; are(copy.pairs(), &KEPT));
}

// A tag whose key and value each repeat a text this often, and whether it is a tag.
const LONG_TAGS: [(&str, usize, &str, usize, Result<usize, NameRefusal>); 3] = [
    ("ä", 128, "ß", 256, Ok(1)),
    ("k", 129, "x", 1, Err(NameRefusal::BadTags)),
    ("k", 1, "v", 257, Err(NameRefusal::BadTags)),
];

fn repeated(rt: &impl Abort, alloc: Global, text: &str, times: usize) -> String {
    assert!(rt; text.len() < 8 && times < 1_000);
    text.repeat(alloc, times).expect(rt, "memory")
}

#[test]
fn lengths_of_tags(rt: HostRuntime) {
    for (key, long, value, wide, wanted) in &LONG_TAGS {
        let alloc = rt.alloc();
        let pair = (
            repeated(&rt, alloc, key, *long),
            repeated(&rt, alloc, value, *wide),
        );
        let mut pairs = Vec::new(alloc);
        pairs.push(pair).expect(&rt, "memory");
        equal(&rt, &(*long, *wide), &tag_count(alloc, pairs), wanted);
    }
}

#[test]
fn texts_as_they_were_given(rt: HostRuntime) {
    let text = Text::of(text(&rt, rt.alloc(), "logs/ä"));
    let copy = text.copy().expect(&rt, "memory");
    assert!(rt; copy.as_str() == "logs/ä" && text.char_count() == 6);
}

fn list(rt: &impl Abort, alloc: Global, given: &[Pair]) -> TagList {
    TagList::of(pairs(rt, alloc, given))
}

#[test]
fn lists_of_tags(rt: HostRuntime) {
    let wanted = [("kind", "raw"), ("a", "x")];
    let list = list(&rt, rt.alloc(), &wanted);
    let copy = list.copy().expect(&rt, "memory");
    assert!(rt; are(copy.pairs(), &wanted));
    assert!(rt; list.are_tags());
}

#[test]
fn lists_that_are_no_tags(rt: HostRuntime) {
    let repeated = list(&rt, rt.alloc(), &[("a", "x"), ("a", "y")]);
    assert!(rt; !repeated.are_tags() && !repeated.is_empty());
}

#[test]
fn items_as_they_were_given(rt: HostRuntime) {
    let items = Items::of(vec![in rt.alloc(); 3u32, 1, 2].expect(&rt, "memory"));
    assert!(rt; items.as_slice() == [3u32, 1, 2].as_slice());
}
