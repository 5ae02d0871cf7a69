use crate::given::{digits, equal_text, joined, text};
use http_bodies::{BodyFault, read_part, read_put, read_status, read_tags, read_upload};
use office_base::Tags;
use std::alloc::Global;
use std::process::Abort;

fn told_fault(rt: &impl Abort, alloc: Global, fault: &BodyFault) -> String {
    match fault {
        BodyFault::BadBody { field } => joined(rt, alloc, &["BadBody ", field]),
        BodyFault::UnsupportedClass { name } => joined(rt, alloc, &["UnsupportedClass ", name]),
        BodyFault::BadSize => text(rt, alloc, "BadSize"),
        BodyFault::BadTags => text(rt, alloc, "BadTags"),
        BodyFault::NoMemory => text(rt, alloc, "NoMemory"),
    }
}

// A text, and the tags after it.
fn with_tags(rt: &impl Abort, mut text: String, tags: &Tags) -> String {
    for (key, value) in tags.pairs() {
        for part in &[" ", key.as_str(), "=", value.as_str()] {
            text.push_str(part).expect(rt, "memory");
        }
    }
    text
}

// The size, the class and the tags, or the fault.
fn told_put(rt: &impl Abort, alloc: Global, bytes: &[u8]) -> String {
    match read_put(alloc, bytes) {
        Ok(body) => {
            let size = digits(rt, alloc, body.size.bytes());
            let told = joined(rt, alloc, &[&size, " ", body.class.name()]);
            with_tags(rt, told, &body.tags)
        }
        Err(fault) => told_fault(rt, alloc, &fault),
    }
}

fn told_upload(rt: &impl Abort, alloc: Global, bytes: &[u8]) -> String {
    match read_upload(alloc, bytes) {
        Ok(body) => with_tags(rt, text(rt, alloc, body.class.name()), &body.tags),
        Err(fault) => told_fault(rt, alloc, &fault),
    }
}

fn told_tags(rt: &impl Abort, alloc: Global, bytes: &[u8]) -> String {
    match read_tags(alloc, bytes) {
        Ok(tags) => with_tags(rt, text(rt, alloc, "tags"), &tags),
        Err(fault) => told_fault(rt, alloc, &fault),
    }
}

fn told_part(rt: &impl Abort, alloc: Global, bytes: &[u8]) -> String {
    match read_part(alloc, bytes) {
        Ok(size) => digits(rt, alloc, size),
        Err(fault) => told_fault(rt, alloc, &fault),
    }
}

fn told_status(rt: &impl Abort, alloc: Global, bytes: &[u8]) -> String {
    match read_status(alloc, bytes) {
        Ok(enabled) => text(rt, alloc, if enabled { "enabled" } else { "suspended" }),
        Err(fault) => told_fault(rt, alloc, &fault),
    }
}

#[derive(Clone, Copy)]
enum Body {
    Put,
    Upload,
    Tags,
    Part,
    Status,
}

// An answer as one line.
fn told(rt: &impl Abort, alloc: Global, body: Body, bytes: &[u8]) -> String {
    match body {
        Body::Put => told_put(rt, alloc, bytes),
        Body::Upload => told_upload(rt, alloc, bytes),
        Body::Tags => told_tags(rt, alloc, bytes),
        Body::Part => told_part(rt, alloc, bytes),
        Body::Status => told_status(rt, alloc, bytes),
    }
}

fn are_told(rt: &impl Abort, alloc: Global, body: Body, rows: &[(&str, &str)]) {
    for (text, answer) in rows {
        equal_text(rt, text, &told(rt, alloc, body, text.as_bytes()), answer);
    }
}

// RFC 8259 for the texts, the S3 User Guide for sizes, classes and tags.
const PUTS: &[(&str, &str)] = &[
    ("{\"size\":0}", "0 STANDARD"),
    ("{\"size\":5497558138880}", "5497558138880 STANDARD"),
    (" \t\r\n{ \"size\" : 7 } \n", "7 STANDARD"),
    ("{\"class\":\"GLACIER_IR\",\"size\":1}", "1 GLACIER_IR"),
    (
        "{\"size\":1,\"tags\":{\"kind\":\"raw\",\"Keep\":\"no\"}}",
        "1 STANDARD Keep=no kind=raw",
    ),
    ("{\"size\":1,\"tags\":{}}", "1 STANDARD"),
    ("{\"s\\u0069ze\":1}", "1 STANDARD"),
    // The last value of a name counts.
    ("{\"size\":1,\"size\":2}", "2 STANDARD"),
    ("{\"size\":\"1\",\"size\":2}", "2 STANDARD"),
    ("{\"size\":2,\"size\":\"1\"}", "BadBody size"),
    (
        "{\"size\":1,\"tags\":{\"a\":1,\"a\":\"x\"}}",
        "1 STANDARD a=x",
    ),
    (
        "{\"size\":1,\"tags\":{\"a\":\"x\",\"a\":\"y\"}}",
        "1 STANDARD a=y",
    ),
    // Not a JSON object.
    ("[]", "BadBody "),
    ("null", "BadBody "),
    ("7", "BadBody "),
    ("\"size\"", "BadBody "),
    (" ", "BadBody "),
    ("{", "BadBody "),
    ("{\"size\":1} x", "BadBody "),
    ("{\"size\":1,}", "BadBody "),
    ("{\"size\":01}", "BadBody "),
    ("{\"size\":1e400}", "BadBody "),
    ("{size:1}", "BadBody "),
    ("\u{feff}{\"size\":1}", "BadBody "),
    // A field that is none of the three: the first in byte order, before the others are looked at.
    ("{\"size\":1,\"b\":0,\"a\":0}", "BadBody a"),
    ("{\"a\":0}", "BadBody a"),
    ("{\"size\":1,\"Size\":1}", "BadBody Size"),
    ("{\"size\":\"1\",\"zone\":null,\"tags\":7}", "BadBody zone"),
    ("{\"size\":1,\"\":2}", "BadBody "),
    // The size is missing or not a whole number.
    ("", "BadBody size"),
    ("{}", "BadBody size"),
    ("{\"class\":1,\"tags\":2}", "BadBody size"),
    ("{\"size\":1.0}", "BadBody size"),
    ("{\"size\":1e3}", "BadBody size"),
    ("{\"size\":-0}", "BadBody size"),
    ("{\"size\":-1}", "BadBody size"),
    ("{\"size\":18446744073709551616}", "BadBody size"),
    ("{\"size\":\"1\"}", "BadBody size"),
    ("{\"size\":null}", "BadBody size"),
    ("{\"size\":[1]}", "BadBody size"),
    // The class and the tags are of another kind.
    ("{\"size\":1,\"class\":null}", "BadBody class"),
    ("{\"size\":1,\"class\":5,\"tags\":5}", "BadBody class"),
    ("{\"size\":5497558138881,\"class\":1}", "BadBody class"),
    ("{\"size\":1,\"tags\":null}", "BadBody tags"),
    ("{\"size\":1,\"tags\":[]}", "BadBody tags"),
    ("{\"size\":1,\"tags\":{\"a\":1}}", "BadBody tags"),
    (
        "{\"size\":1,\"tags\":{\"a\":\"x\",\"b\":null}}",
        "BadBody tags",
    ),
    (
        "{\"size\":5497558138881,\"class\":\"FOO\",\"tags\":{\"\":1}}",
        "BadBody tags",
    ),
    // A value is out of range.
    ("{\"size\":5497558138881,\"class\":\"FOO\"}", "BadSize"),
    ("{\"size\":18446744073709551615}", "BadSize"),
    (
        "{\"size\":1,\"class\":\"standard\",\"tags\":{\"\":\"x\"}}",
        "UnsupportedClass standard",
    ),
    ("{\"size\":1,\"class\":\"\"}", "UnsupportedClass "),
    ("{\"size\":1,\"tags\":{\"\":\"x\"}}", "BadTags"),
];

#[test]
fn bodies_of_puts(rt: HostRuntime) {
    are_told(&rt, rt.alloc(), Body::Put, PUTS);
}

const UPLOADS: &[(&str, &str)] = &[
    ("", "STANDARD"),
    (
        "{\"tags\":{\"a\":\"x\"},\"class\":\"GLACIER\"}",
        "GLACIER a=x",
    ),
    ("[]", "BadBody "),
    ("{\"size\":1,\"class\":1}", "BadBody size"),
    ("{\"class\":null,\"tags\":1}", "BadBody class"),
    ("{\"class\":\"FOO\",\"tags\":1}", "BadBody tags"),
    (
        "{\"class\":\"FOO\",\"tags\":{\"\":\"x\"}}",
        "UnsupportedClass FOO",
    ),
    ("{\"tags\":{\"\":\"x\"}}", "BadTags"),
];

#[test]
fn starts_of_uploads(rt: HostRuntime) {
    are_told(&rt, rt.alloc(), Body::Upload, UPLOADS);
}

const TAGS: &[(&str, &str)] = &[
    (
        "{\"tags\":{\"kind\":\"raw\",\"Keep\":\"no\"}}",
        "tags Keep=no kind=raw",
    ),
    ("{\"tags\":{}}", "tags"),
    ("null", "BadBody "),
    ("", "BadBody tags"),
    ("{\"Tags\":{}}", "BadBody Tags"),
    ("{\"tags\":null}", "BadBody tags"),
    ("{\"tags\":{\"a\":1}}", "BadBody tags"),
    ("{\"tags\":{\"\":\"x\"}}", "BadTags"),
];

#[test]
fn tags_of_versions(rt: HostRuntime) {
    are_told(&rt, rt.alloc(), Body::Tags, TAGS);
}

const PARTS: &[(&str, &str)] = &[
    ("{\"size\":0}", "0"),
    // The range of a part's size is not checked here.
    ("{\"size\":18446744073709551615}", "18446744073709551615"),
    ("{\"size\":18446744073709551616}", "BadBody size"),
    ("{\"size\":\"1\"}", "BadBody size"),
    ("", "BadBody size"),
    ("{\"size\":1,\"class\":\"GLACIER\"}", "BadBody class"),
    ("{", "BadBody "),
];

#[test]
fn sizes_of_parts(rt: HostRuntime) {
    are_told(&rt, rt.alloc(), Body::Part, PARTS);
}

const SETTINGS: &[(&str, &str)] = &[
    ("{\"Status\":\"Enabled\"}", "enabled"),
    ("{\"Status\":\"Suspended\"}", "suspended"),
    ("{\"Status\":\"enabled\"}", "BadBody Status"),
    ("{\"Status\":\"\"}", "BadBody Status"),
    ("{\"Status\":true}", "BadBody Status"),
    ("", "BadBody Status"),
    (
        "{\"Status\":\"Off\",\"MFADelete\":\"Off\"}",
        "BadBody MFADelete",
    ),
    ("[]", "BadBody "),
];

#[test]
fn settings_of_versioning(rt: HostRuntime) {
    are_told(&rt, rt.alloc(), Body::Status, SETTINGS);
}

#[test]
fn a_body_that_is_no_text(rt: HostRuntime) {
    let bytes = b"{\"size\":1,\"tags\":{\"a\":\"\xff\"}}";
    let told = told(&rt, rt.alloc(), Body::Put, bytes);
    equal_text(&rt, &"no text", &told, "BadBody ");
}

// Ten tags, and eleven.
const COUNTS: &[(&str, &str)] = &[
    (
        "{\"size\":1,\"tags\":{\"a\":\"\",\"b\":\"\",\"c\":\"\",\"d\":\"\",\"e\":\"\",\"f\":\"\",\"g\":\"\",\"h\":\"\",\
\"i\":\"\",\"j\":\"\"}}",
        "1 STANDARD a= b= c= d= e= f= g= h= i= j=",
    ),
    (
        "{\"size\":1,\"tags\":{\"a\":\"\",\"b\":\"\",\"c\":\"\",\"d\":\"\",\"e\":\"\",\"f\":\"\",\"g\":\"\",\"h\":\"\",\
\"i\":\"\",\"j\":\"\",\"k\":\"\"}}",
        "BadTags",
    ),
];

#[test]
fn the_bound_of_tags(rt: HostRuntime) {
    are_told(&rt, rt.alloc(), Body::Put, COUNTS);
}

// A body whose field nests this many arrays.
fn nested(rt: &impl Abort, alloc: Global, depth: usize) -> String {
    assert!(rt; depth < 1_000);
    let open = "[".repeat(alloc, depth).expect(rt, "memory");
    let close = "]".repeat(alloc, depth).expect(rt, "memory");
    joined(rt, alloc, &["{\"a\":", &open, &close, "}"])
}

const DEPTHS: &[(usize, &str)] = &[(126, "BadBody a"), (127, "BadBody ")];

#[test]
fn the_bound_of_depth(rt: HostRuntime) {
    for (depth, answer) in DEPTHS {
        let text = nested(&rt, rt.alloc(), *depth);
        let told = told(&rt, rt.alloc(), Body::Put, text.as_bytes());
        equal_text(&rt, depth, &told, answer);
    }
}
