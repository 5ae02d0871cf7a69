use crate::fault_rows::{DATE_ROWS, FIELD_ROWS, JSON_ROWS};
use crate::flaw_rows::{ORDER_ROWS, RANGE_ROWS, SPELLING_ROWS};
use crate::given::{equal_text, joined, text};
use rules_json::{RulesFault, print_rules, read_rules};
use std::alloc::Global;
use std::process::Abort;

// An answer as one line: the printed configuration, or the fault.
fn told(rt: &impl Abort, alloc: Global, bytes: &[u8]) -> String {
    match read_rules(alloc, bytes) {
        Ok(rules) => print_rules(alloc, &rules).expect(rt, "memory"),
        Err(fault) => told_fault(rt, alloc, &fault),
    }
}

fn told_fault(rt: &impl Abort, alloc: Global, fault: &RulesFault) -> String {
    match fault {
        RulesFault::NotADate => text(rt, alloc, "NotADate"),
        RulesFault::NotMidnight => text(rt, alloc, "NotMidnight"),
        RulesFault::NotJson => text(rt, alloc, "NotJson"),
        RulesFault::UnknownField { name } => named(rt, alloc, "UnknownField", name.as_str()),
        RulesFault::WrongShape { field } => named(rt, alloc, "WrongShape", field.as_str()),
        RulesFault::UnsupportedClass { name } => {
            named(rt, alloc, "UnsupportedClass", name.as_str())
        }
        RulesFault::Flaw { flaw, rule } => {
            format!(in alloc; "{flaw:?} {rule}").expect(rt, "memory")
        }
        RulesFault::NoMemory => text(rt, alloc, "NoMemory"),
    }
}

fn named(rt: &impl Abort, alloc: Global, kind: &str, name: &str) -> String {
    joined(rt, alloc, &[kind, " ", name])
}

// A text in a frame; in all three, ' is written for ".
fn framed(rt: &impl Abort, alloc: Global, head: &str, quoted: &str, tail: &str) -> String {
    let mut text = String::new(alloc);
    for part in &[head, quoted, tail] {
        for c in part.chars() {
            let c = if c == '\'' { '"' } else { c };
            text.push(c).expect(rt, "memory");
        }
    }
    text
}

// The document of a row. A text that begins with ' has the fields of a rule. One that begins with a comma has the
// fields after the status of an enabled rule.
fn document(rt: &impl Abort, alloc: Global, row: &str) -> String {
    let (head, tail) = match row.as_bytes() {
        [b'\'', ..] => ("{'Rules':[{", "}]}"),
        [b',', ..] => ("{'Rules':[{'Status':'Enabled'", "}]}"),
        _ => ("", ""),
    };
    framed(rt, alloc, head, row, tail)
}

// The answer of a row. A text that begins with ' has the fields of a rule as they are printed.
fn answer(rt: &impl Abort, alloc: Global, row: &str) -> String {
    let (head, tail) = match row.as_bytes() {
        [b'\'', ..] => (
            "{'Rules':[{",
            "}],'TransitionDefaultMinimumObjectSize':'all_storage_classes_128K'}",
        ),
        _ => ("", ""),
    };
    framed(rt, alloc, head, row, tail)
}

fn are_answered(rt: &impl Abort, alloc: Global, rows: &[(&str, &str)]) {
    for (row, wanted) in rows {
        let told = told(rt, alloc, document(rt, alloc, row).as_bytes());
        equal_text(rt, row, &told, &answer(rt, alloc, wanted));
    }
}

#[test]
fn texts_and_their_names(rt: HostRuntime) {
    are_answered(&rt, rt.alloc(), JSON_ROWS);
}

#[test]
fn fields_in_their_order(rt: HostRuntime) {
    are_answered(&rt, rt.alloc(), FIELD_ROWS);
}

#[test]
fn dates(rt: HostRuntime) {
    are_answered(&rt, rt.alloc(), DATE_ROWS);
}

#[test]
fn ids_and_ranges(rt: HostRuntime) {
    are_answered(&rt, rt.alloc(), RANGE_ROWS);
}

#[test]
fn flaws_in_their_order(rt: HostRuntime) {
    are_answered(&rt, rt.alloc(), ORDER_ROWS);
}

#[test]
fn spellings(rt: HostRuntime) {
    are_answered(&rt, rt.alloc(), SPELLING_ROWS);
}

// A document with a part repeated this often after the head, and another repeated as often before the tail; and its
// answer.
const LONG_ROWS: &[(&str, &str, &str, usize, &str, &str)] = &[
    // Lists within lists.
    ("", "[", "]", 127, "", "WrongShape "),
    ("", "[", "]", 128, "", "NotJson"),
    ("{'Rules':", "[", "]", 126, "}", "WrongShape Rules"),
    ("{'Rules':", "[", "]", 127, "}", "NotJson"),
    ("", "{'Rules':", "7}", 0, "7", "WrongShape "),
    // Many rules.
    (
        "{'Rules':[{'Status':'Enabled'}",
        ",{'Status':'Enabled'}",
        "",
        999,
        "]}",
        "NoAction 1",
    ),
    (
        "{'Rules':[{'Status':'Enabled'}",
        ",{'Status':'Enabled'}",
        "",
        1000,
        "]}",
        "TooManyRules 0",
    ),
    (
        "{'Rules':[",
        "{'Status':'Enabled','Expiration':{'Days':1}},",
        "",
        999,
        "{'Status':'Enabled'}]}",
        "NoAction 1000",
    ),
    (
        "{'Rules':[",
        "{'Status':'Enabled','Expiration':{'Days':1}},",
        "",
        999,
        "{'ID':'rule-999','Status':'Enabled'}]}",
        "DoubleId 1000",
    ),
    (
        "{'Rules':[",
        "{'Status':'Enabled','Expiration':{'Days':1}},",
        "",
        1000,
        "{'Status':7}]}",
        "WrongShape Status",
    ),
    // Ids, counted in characters. With 255 characters, a later flaw is reported.
    (",'ID':'", "a", "", 255, "'", "NoAction 1"),
    (",'ID':'", "a", "", 256, "'", "LongId 1"),
    (",'ID':'", "é", "", 255, "'", "NoAction 1"),
    (",'ID':'", "é", "", 256, "'", "LongId 1"),
    // Prefixes, counted in bytes.
    (
        ",'Expiration':{'Days':0},'Prefix':'",
        "a",
        "",
        1024,
        "'",
        "BadDays 1",
    ),
    (
        ",'Expiration':{'Days':0},'Prefix':'",
        "a",
        "",
        1025,
        "'",
        "BadFilter 1",
    ),
    (
        ",'Expiration':{'Days':0},'Filter':{'Prefix':'",
        "é",
        "",
        512,
        "'}",
        "BadDays 1",
    ),
    (
        ",'Expiration':{'Days':0},'Filter':{'Prefix':'",
        "é",
        "",
        513,
        "'}",
        "BadFilter 1",
    ),
    // Keys and values of tags, counted in characters, and the number of tags.
    (
        ",'Expiration':{'Days':0},'Filter':{'Tag':{'Value':'','Key':'",
        "é",
        "",
        128,
        "'}}",
        "BadDays 1",
    ),
    (
        ",'Expiration':{'Days':0},'Filter':{'Tag':{'Value':'','Key':'",
        "é",
        "",
        129,
        "'}}",
        "BadFilter 1",
    ),
    (
        ",'Expiration':{'Days':0},'Filter':{'Tag':{'Key':'a','Value':'",
        "é",
        "",
        256,
        "'}}",
        "BadDays 1",
    ),
    (
        ",'Expiration':{'Days':0},'Filter':{'Tag':{'Key':'a','Value':'",
        "é",
        "",
        257,
        "'}}",
        "BadFilter 1",
    ),
];

fn repeated(rt: &impl Abort, alloc: Global, text: &str, times: usize) -> String {
    assert!(rt; text.len() < 1_000 && times < 10_000);
    text.repeat(alloc, times).expect(rt, "memory")
}

fn long_document(
    rt: &impl Abort,
    alloc: Global,
    head: &str,
    parts: (&str, &str),
    times: usize,
    tail: &str,
) -> String {
    let front = repeated(rt, alloc, parts.0, times);
    let back = repeated(rt, alloc, parts.1, times);
    document(rt, alloc, &joined(rt, alloc, &[head, &front, &back, tail]))
}

#[test]
fn long_documents_and_their_answers(rt: HostRuntime) {
    for (head, part, other, times, tail, wanted) in LONG_ROWS {
        let text = long_document(&rt, rt.alloc(), head, (part, other), *times, tail);
        let told = told(&rt, rt.alloc(), text.as_bytes());
        equal_text(&rt, &(*head, *times), &told, wanted);
    }
}

#[test]
fn a_document_that_is_no_text(rt: HostRuntime) {
    let told = told(&rt, rt.alloc(), b"{\"Rules\":[{\"ID\":\"\xff\"}]}");
    equal_text(&rt, &"no text", &told, "NotJson");
}
