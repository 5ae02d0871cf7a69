use crate::meanings::{NO, meant_by_bad, meant_by_command, meant_by_query, put};
use http_asks::{Bad, Heard, Reader};
use http_wire::{MemorySource, MessageStop};
use office_types::{Ask, Command, Query, Token};
use std::alloc::Global;
use std::process::Abort;
use std::test::Fail;

const NEXT: &str = "GET /buckets/next HTTP/1.1\r\n\r\n";

// Hears one message, writes what it means, and returns whether no other message is heard after it.
fn hear(
    alloc: Global,
    reader: &mut Reader,
    source: &mut MemorySource,
    text: &mut String,
) -> Result<bool, Fail> {
    let heard = reader.next(alloc, source);
    let is_last = put_heard(text, &heard);
    drop(heard);
    is_last
}

// Writes what a message means, and returns whether no other message is heard after it.
fn put_heard(text: &mut String, heard: &Result<Heard, MessageStop>) -> Result<bool, Fail> {
    let (meaning, ending, is_last) = match heard {
        Ok(
            Heard::Asked {
                ask: Ask::Command(command) | Ask::Once { command, .. },
                last,
            },
        ) => (meant_by_command(command), after(*last), *last),
        Ok(
            Heard::Asked {
                ask: Ask::Query(query),
                last,
            },
        ) => (meant_by_query(query), after(*last), *last),
        Ok(Heard::Bad { bad, last }) => (meant_by_bad(bad), after(*last), *last),
        Ok(Heard::End) => (("End", [NO, NO, NO, NO, NO]), "", true),
        Err(MessageStop::ReadFault) => (("ReadFault", [NO, NO, NO, NO, NO]), "; ", false),
        Err(_) => (("Stop", [NO, NO, NO, NO, NO]), "", true),
    };
    put(text, &meaning)?;
    if let Some(token) = token_of(heard) {
        write!(text, " with {}", str::from_utf8(token.bytes())?)?;
    }
    text.push_str(ending)?;
    Ok(is_last)
}

// The token of what is heard.
fn token_of(heard: &Result<Heard, MessageStop>) -> Option<&Token> {
    match heard {
        Ok(
            Heard::Asked {
                ask: Ask::Once { token, .. },
                ..
            },
        ) => Some(token),
        _ => None,
    }
}

// What is written after the meaning of a message.
fn after(is_last: bool) -> &'static str {
    if is_last { " last" } else { "; " }
}

// Hears messages one after another, up to the end or the last message of the session, and at most four.
fn hear_all(
    alloc: Global,
    reader: &mut Reader,
    source: &mut MemorySource,
    text: &mut String,
) -> Result<(), Fail> {
    for _ in 0..4 {
        if hear(alloc, reader, source, text)? {
            break;
        }
    }
    Ok(())
}

// What is heard of a source.
fn heard_of(alloc: Global, source: &mut MemorySource) -> Result<String, Fail> {
    let mut reader = Reader::new(alloc)?;
    let mut text = String::new(alloc);
    let heard = hear_all(alloc, &mut reader, source, &mut text);
    drop(reader);
    heard?;
    Ok(text)
}

fn source_of(
    alloc: Global,
    bytes: &[u8],
    cut: usize,
    failing: &[u64],
) -> Result<MemorySource, Fail> {
    let bytes = bytes.to_vec(alloc)?;
    Ok(MemorySource::new(bytes, cut, failing.to_vec(alloc)?))
}

// What is heard of bytes in reads of at most `cut` bytes, some of which fail.
fn heard(alloc: Global, bytes: &[u8], cut: usize, failing: &[u64]) -> Result<String, Fail> {
    let mut source = source_of(alloc, bytes, cut, failing)?;
    let text = heard_of(alloc, &mut source);
    drop(source);
    text
}

// Checks what is heard of a stream, in reads of each of these lengths.
fn assert_heard(
    rt: &impl Abort,
    alloc: Global,
    stream: &str,
    cuts: &[usize],
    wanted: &str,
) -> Result<(), Fail> {
    for cut in cuts {
        let text = heard(alloc, stream.as_bytes(), *cut, &[])?;
        assert_eq!(rt; text.as_str(), wanted, "{stream} in reads of {cut}");
    }
    Ok(())
}

// By single bytes, and at once.
const CUTS: &[usize] = &[1, 65_536];

// The first line of a request, its body, and what it means. RFC 9112 for the messages, RFC 8259 for the bodies, the S3
// User Guide for names, keys, sizes, classes and tags.
type Row = (&'static str, &'static str, &'static str);

// Checks what is heard of the request of each row, with the next one after it.
fn assert_requests(rt: &impl Abort, alloc: Global, rows: &[Row]) -> Result<(), Fail> {
    for (start, body, meaning) in rows {
        let stream = format!(in alloc;
            "{start} HTTP/1.1\r\nContent-Length: {}\r\n\r\n{body}{NEXT}",
            body.len()
        )?;
        let wanted = format!(in alloc; "{meaning}; Bucket next; End")?;
        assert_heard(rt, alloc, &stream, CUTS, &wanted)?;
    }
    Ok(())
}

const BUCKETS: &[Row] = &[
    ("PUT /buckets/logs", "", "CreateBucket logs"),
    ("GET /buckets/logs", "", "Bucket logs"),
    ("PUT /buckets/my.log-2", "", "CreateBucket my.log-2"),
    // A body is ignored.
    ("PUT /buckets/logs", "{\"size\":1}", "CreateBucket logs"),
    ("GET /buckets/logs", "no JSON", "Bucket logs"),
    ("PUT /buckets/lo", "", "BadBucketName"),
    ("PUT /buckets/Logs", "", "BadBucketName"),
    ("GET /buckets/lo", "", "BadBucketName"),
    // A name is not decoded.
    ("PUT /buckets/lo%67s", "", "BadBucketName"),
    (
        "PUT /buckets/logs/versioning",
        "{\"Status\":\"Enabled\"}",
        "SetVersioning logs true",
    ),
    (
        "PUT /buckets/logs/versioning",
        "{\"Status\":\"Suspended\"}",
        "SetVersioning logs false",
    ),
    (
        "PUT /buckets/logs/versioning",
        "{\"Status\":\"Off\"}",
        "BadBody Status",
    ),
    ("PUT /buckets/lo/versioning", "[]", "BadBucketName"),
    ("POST /buckets/logs/act", "", "Act logs"),
    ("POST /buckets/lo/act", "", "BadBucketName"),
    ("GET /buckets/logs/due", "", "Due logs"),
    ("GET /buckets/lo/due", "", "BadBucketName"),
];

const LIFECYCLES: &[Row] = &[
    (
        "PUT /buckets/logs/lifecycle",
        "{\"Rules\":[{\"Status\":\"Enabled\",\"Expiration\":{\"Days\":365}}]}",
        "SetRules logs 1",
    ),
    (
        "PUT /buckets/logs/lifecycle",
        "{\"Rules\":[]}",
        "SetRules logs 0",
    ),
    ("GET /buckets/logs/lifecycle", "", "Rules logs"),
    ("DELETE /buckets/logs/lifecycle", "", "DropRules logs"),
    ("GET /buckets/lo/lifecycle", "", "BadBucketName"),
    ("DELETE /buckets/lo/lifecycle", "", "BadBucketName"),
    // The body goes unchanged to the reader of configurations, even if it is empty.
    ("PUT /buckets/logs/lifecycle", "", "NotJson"),
    ("PUT /buckets/lo/lifecycle", "", "BadBucketName"),
    ("PUT /buckets/logs/lifecycle", "[]", "WrongShape "),
    (
        "PUT /buckets/logs/lifecycle",
        "{\"Rules\":7}",
        "WrongShape Rules",
    ),
    (
        "PUT /buckets/logs/lifecycle",
        "{\"Rules\":[],\"Owner\":\"x\"}",
        "UnknownField Owner",
    ),
    (
        "PUT /buckets/logs/lifecycle",
        "{\"Rules\":[{\"Status\":\"Enabled\",\"Expiration\":{\"Date\":\"2024-02-30\"}}]}",
        "NotADate",
    ),
    (
        "PUT /buckets/logs/lifecycle",
        "{\"Rules\":[{\"Status\":\"Enabled\",\"Expiration\":{\"Date\":\"2024-02-03T04:00:00Z\"}}]}",
        "NotMidnight",
    ),
    (
        "PUT /buckets/logs/lifecycle",
        "{\"Rules\":[{\"Status\":\"Enabled\",\"Transitions\":[{\"Days\":30,\"StorageClass\":\"FOO\"}]}]}",
        "UnsupportedClass FOO",
    ),
    (
        "PUT /buckets/logs/lifecycle",
        "{\"Rules\":[{\"Status\":\"Enabled\",\"Expiration\":{\"Days\":0}}]}",
        "Flaw BadDays 1",
    ),
];

const OBJECTS: &[Row] = &[
    (
        "PUT /buckets/logs/objects/a",
        "{\"size\":5}",
        "Put logs a 5 STANDARD",
    ),
    (
        "PUT /buckets/logs/objects/a",
        "{\"size\":5,\"class\":\"GLACIER\"}",
        "Put logs a 5 GLACIER",
    ),
    (
        "PUT /buckets/logs/objects/a",
        "{\"size\":5,\"tags\":{\"kind\":\"raw\"}}",
        "Put logs a 5 STANDARD kind=raw",
    ),
    (
        "PUT /buckets/logs/objects/a%2Fb",
        "{\"size\":0}",
        "Put logs a/b 0 STANDARD",
    ),
    (
        "PUT /buckets/logs/objects/%zz",
        "{\"size\":5}",
        "Put logs %zz 5 STANDARD",
    ),
    (
        "PUT /buckets/logs/objects//",
        "{\"size\":5}",
        "Put logs / 5 STANDARD",
    ),
    (
        "PUT /buckets/logs/objects/a//b",
        "{\"size\":5}",
        "Put logs a//b 5 STANDARD",
    ),
    ("PUT /buckets/logs/objects/%ff", "{\"size\":5}", "BadKey"),
    // A bad name is reported before a bad key, and a bad key before a bad body.
    ("PUT /buckets/lo/objects/%ff", "[]", "BadBucketName"),
    ("PUT /buckets/logs/objects/%ff", "[]", "BadKey"),
    ("PUT /buckets/logs/objects/a", "[]", "BadBody "),
    ("PUT /buckets/logs/objects/a", "", "BadBody size"),
    (
        "PUT /buckets/logs/objects/a",
        "{\"size\":5,\"acl\":\"x\"}",
        "BadBody acl",
    ),
    (
        "PUT /buckets/logs/objects/a",
        "{\"size\":5497558138880}",
        "Put logs a 5497558138880 STANDARD",
    ),
    (
        "PUT /buckets/logs/objects/a",
        "{\"size\":5497558138881}",
        "BadSize",
    ),
    (
        "PUT /buckets/logs/objects/a",
        "{\"size\":5,\"class\":\"FOO\"}",
        "UnsupportedClass FOO",
    ),
    (
        "PUT /buckets/logs/objects/a",
        "{\"size\":5,\"tags\":{\"\":\"x\"}}",
        "BadTags",
    ),
    ("GET /buckets/logs/objects/a/b", "[]", "Stack logs a/b"),
    ("GET /buckets/lo/objects/%ff", "", "BadBucketName"),
    ("GET /buckets/logs/objects/%ff", "", "BadKey"),
    ("DELETE /buckets/logs/objects/a", "", "Delete logs a"),
    ("DELETE /buckets/lo/objects/%ff", "", "BadBucketName"),
    ("DELETE /buckets/logs/objects/%ff", "", "BadKey"),
];

const VERSIONS: &[Row] = &[
    (
        "DELETE /buckets/logs/versions/null/a%20b",
        "",
        "DeleteVersion logs a b null",
    ),
    (
        "DELETE /buckets/logs/versions/18446744073709551615/a/b",
        "",
        "DeleteVersion logs a/b 18446744073709551615",
    ),
    (
        "DELETE /buckets/logs/versions/18446744073709551616/a",
        "",
        "NoSuchVersion",
    ),
    ("DELETE /buckets/logs/versions/0/a", "", "NoSuchVersion"),
    ("DELETE /buckets/logs/versions/01/a", "", "NoSuchVersion"),
    ("DELETE /buckets/logs/versions/+1/a", "", "NoSuchVersion"),
    // The parts are checked from left to right: the name, the id, the key.
    ("DELETE /buckets/lo/versions/01/%ff", "", "BadBucketName"),
    ("DELETE /buckets/logs/versions/01/%ff", "", "NoSuchVersion"),
    ("DELETE /buckets/logs/versions/1/%ff", "", "BadKey"),
    (
        "PUT /buckets/logs/tags/3/a",
        "{\"tags\":{\"b\":\"y\",\"a\":\"x\"}}",
        "SetTags logs a 3 a=x b=y",
    ),
    (
        "PUT /buckets/logs/tags/null/a",
        "{\"tags\":{}}",
        "SetTags logs a null",
    ),
    ("PUT /buckets/logs/tags/3/a", "", "BadBody tags"),
    ("PUT /buckets/lo/tags/x/%ff", "[]", "BadBucketName"),
    ("PUT /buckets/logs/tags/x/%ff", "[]", "NoSuchVersion"),
    ("PUT /buckets/logs/tags/3/%ff", "[]", "BadKey"),
    ("PUT /buckets/logs/tags/3/a", "[]", "BadBody "),
];

const UPLOADS: &[Row] = &[
    (
        "POST /buckets/logs/uploads/a/b",
        "{\"class\":\"GLACIER\",\"tags\":{\"k\":\"v\"}}",
        "StartUpload logs a/b GLACIER k=v",
    ),
    (
        "POST /buckets/logs/uploads/a",
        "",
        "StartUpload logs a STANDARD",
    ),
    ("POST /buckets/lo/uploads/%ff", "[]", "BadBucketName"),
    ("POST /buckets/logs/uploads/%ff", "[]", "BadKey"),
    (
        "POST /buckets/logs/uploads/a",
        "{\"size\":1}",
        "BadBody size",
    ),
    ("GET /buckets/logs/upload/1", "", "Upload logs 1"),
    (
        "POST /buckets/logs/upload/18446744073709551615",
        "",
        "Complete logs 18446744073709551615",
    ),
    ("DELETE /buckets/logs/upload/20", "", "Abort logs 20"),
    ("GET /buckets/logs/upload/0", "", "NoSuchUpload"),
    ("POST /buckets/logs/upload/01", "", "NoSuchUpload"),
    (
        "DELETE /buckets/logs/upload/18446744073709551616",
        "",
        "NoSuchUpload",
    ),
    ("GET /buckets/logs/upload/null", "", "NoSuchUpload"),
    ("GET /buckets/lo/upload/null", "", "BadBucketName"),
    (
        "PUT /buckets/logs/parts/7/00001",
        "{\"size\":18446744073709551615}",
        "PutPart logs 7 1 18446744073709551615",
    ),
    (
        "PUT /buckets/logs/parts/7/99999",
        "{\"size\":0}",
        "PutPart logs 7 99999 0",
    ),
    (
        "PUT /buckets/logs/parts/7/0",
        "{\"size\":0}",
        "PutPart logs 7 0 0",
    ),
    (
        "PUT /buckets/logs/parts/7/000001",
        "{\"size\":0}",
        "BadPart",
    ),
    ("PUT /buckets/logs/parts/7/+1", "{\"size\":0}", "BadPart"),
    ("PUT /buckets/logs/parts/7/1a", "{\"size\":0}", "BadPart"),
    // The parts are checked from left to right: the name, the upload, the part; then the body.
    ("PUT /buckets/lo/parts/0/x", "[]", "BadBucketName"),
    ("PUT /buckets/logs/parts/0/x", "[]", "NoSuchUpload"),
    ("PUT /buckets/logs/parts/7/x", "[]", "BadPart"),
    ("PUT /buckets/logs/parts/7/1", "[]", "BadBody "),
];

const METERS: &[Row] = &[
    ("GET /buckets/logs/meters/2024-01", "", "Meters logs 2024/1"),
    (
        "GET /buckets/logs/meters/2099-12",
        "",
        "Meters logs 2099/12",
    ),
    (
        "GET /buckets/logs/meters/1970-01",
        "{",
        "Meters logs 1970/1",
    ),
    ("GET /buckets/logs/meters/2024-13", "", "NotAMonth"),
    ("GET /buckets/logs/meters/2024-1", "", "NotAMonth"),
    ("GET /buckets/logs/meters/1969-12", "", "NotAMonth"),
    ("GET /buckets/logs/meters/2100-01", "", "NotAMonth"),
    ("GET /buckets/lo/meters/2024-13", "", "BadBucketName"),
];

const PRICES: &str =
    "[storage]\nSTANDARD = 6\nSTANDARD_IA = 5\nONEZONE_IA = 4\nGLACIER_IR = 3\nGLACIER = 2\n\
DEEP_ARCHIVE = 1\n[transition]\nSTANDARD_IA = 0\nONEZONE_IA = 7\nGLACIER_IR = 8\nGLACIER = 9\nDEEP_ARCHIVE = 10\n";

const TIERS: &str =
    "from = \"2024-01\"\n[storage]\nSTANDARD = [{ upto = 1, price = 23000 }, { price = 20000 }]\n\
STANDARD_IA = 5\nONEZONE_IA = 4\nGLACIER_IR = 3\nGLACIER = 2\nDEEP_ARCHIVE = 1\n[transition]\nSTANDARD_IA = 0\n\
ONEZONE_IA = 7\nGLACIER_IR = 8\nGLACIER = 9\nDEEP_ARCHIVE = 10\n";

// TOML v1.1.0 for the bodies.
const MONTHS: &[Row] = &[
    (
        "PUT /tariff",
        PRICES,
        "SetTariff 1970/1 6 5 4 3 2 1 0 7 8 9 10",
    ),
    (
        "PUT /tariff",
        TIERS,
        "SetTariff 2024/1 1:23000 20000 5 4 3 2 1 0 7 8 9 10",
    ),
    (
        "PUT /tariff",
        "[storage]\nSTANDARD = [{ upto = 5, price = 2 }, { upto = 5, price = 1 }, { price = 0 }]\n",
        "BadTiers STANDARD",
    ),
    ("PUT /tariff", "from = \"2024-13\"\n", "BadFrom"),
    ("GET /tariff", "", "Tariff"),
    ("GET /tariff", "[", "Tariff"),
    // The body goes unchanged to the reader of tariffs, even if it is empty.
    ("PUT /tariff", "{\"storage\":{}}", "NotToml"),
    ("PUT /tariff", "", "MissingClass STANDARD in storage"),
    (
        "PUT /tariff",
        "[storage]\nSTANDARD = -1\n",
        "BadPrice STANDARD in storage",
    ),
    (
        "PUT /tariff",
        "[storage]\n[transition]\nSTANDARD = 1\n",
        "TariffField STANDARD",
    ),
    ("POST /months/2024-02/close", "", "Close 2024/2"),
    ("POST /months/2024-13/close", "", "NotAMonth"),
    ("POST /months/1969-12/close", "", "NotAMonth"),
    ("GET /months/2099-12/report", "", "Report 2099/12"),
    ("GET /months/1970-01/report", "x", "Report 1970/1"),
    ("GET /months/2100-01/report", "", "NotAMonth"),
    ("GET /months/2024-1/report", "", "NotAMonth"),
];

const NOT_SERVED: &[Row] = &[
    // The method is checked before the parts of the path; the body is read and ignored.
    ("put /buckets/logs", "", "BadMethod"),
    ("Get /buckets/logs", "", "BadMethod"),
    ("put /buckets/lo", "", "BadMethod"),
    ("DELETE /buckets/logs", "", "BadMethod"),
    ("GET /", "", "NoRoute"),
    ("GET /bucket/logs", "", "NoRoute"),
    ("GET /buckets/logs?list-type=2", "", "NoRoute"),
    ("GET /buckets/lo/versioning", "", "BadMethod"),
    ("POST /buckets/logs/lifecycle", "{}", "BadMethod"),
    ("POST /buckets/logs/objects/a", "", "BadMethod"),
    ("GET /buckets/logs/versions/0/a", "", "BadMethod"),
    ("GET /buckets/logs/tags/0/a", "", "BadMethod"),
    ("GET /buckets/logs/uploads/a", "", "BadMethod"),
    ("PUT /buckets/logs/upload/0", "", "BadMethod"),
    ("GET /buckets/logs/parts/0/x", "", "BadMethod"),
    ("GET /buckets/logs/act", "", "BadMethod"),
    ("POST /buckets/logs/due", "", "BadMethod"),
    ("PUT /buckets/logs/meters/2024-01", "", "BadMethod"),
    ("PUT /buckets/logs/objects/", "{\"size\":5}", "NoRoute"),
    ("DELETE /tariff", "", "BadMethod"),
    ("DELETE /tariff", "GET / HTTP/1.1\r\n\r\n", "BadMethod"),
    ("GET buckets/logs", "", "NoRoute"),
    ("PUT /buckets/logs/", "[", "NoRoute"),
    ("GET /months/2024-13/close", "", "BadMethod"),
    ("PUT /months/2024-01/report", "", "BadMethod"),
];

#[test]
fn requests(rt: HostRuntime) -> Result<(), Fail> {
    for rows in &[
        BUCKETS, LIFECYCLES, OBJECTS, VERSIONS, UPLOADS, METERS, MONTHS, NOT_SERVED,
    ] {
        assert_requests(&rt, rt.alloc(), *rows)?;
    }
    Ok(())
}

// A stream, and what is heard of it.
const ENDINGS: &[(&str, &str)] = &[
    ("", "End"),
    (
        "PUT /buckets/logs HTTP/1.1\r\nConnection: close\r\n\r\nGET /",
        "CreateBucket logs last",
    ),
    (
        "GET /buckets/logs HTTP/1.0\r\n\r\nGET /",
        "Bucket logs last",
    ),
    (
        "GET /buckets/lo HTTP/1.1\r\nconnection: Close\r\n\r\n",
        "BadBucketName last",
    ),
    (
        "PUT /buckets/logs HTTP/1.1\r\nContent-Length: 40\r\n\r\n0123456789012345678901234567890123456789GET \
/buckets/logs HTTP/1.0\r\n\r\n",
        "CreateBucket logs; Bucket logs last",
    ),
    (
        "PUT /buckets/logs HTTP/1.1\r\nContent-Length: 40\r\n\r\n012345678901234567890123456789012345678",
        "CutShort last",
    ),
    (
        "PUT /buckets/logs HTTP/1.1\r\n\r\nPUT /buckets/logs HTTP/1.1\r\nHost",
        "CreateBucket logs; CutShort last",
    ),
    (
        "PUT /buckets/logs HTTP/1.1\r\nTransfer-Encoding: chunked\r\n\r\n0\r\n\r\n",
        "ChunkedBody last",
    ),
    (
        "PUT /buckets/logs HTTP/1.1\r\nContent-Length: 1048577\r\n\r\n",
        "BodyTooLarge last",
    ),
    ("G(T", "BadHead last"),
    ("PUT /buckets\x01", "BadHead last"),
    // Only another message may come after a message.
    (
        "GET /buckets/logs HTTP/1.1\r\n\r\n\r\n",
        "Bucket logs; CutShort last",
    ),
    ("GET / HTTP/1.0\r\n\r\nGET /", "NoRoute last"),
    (
        "DELETE /tariff HTTP/1.1\r\nConnection: keep-alive\r\nconnection: CLOSE\r\n\r\n",
        "BadMethod last",
    ),
    // The refusals of a head come in their order, and before those of the target.
    (
        "GET / HTTP/1.1\r\nContent-Length: 1\r\nContent-Length: 1\r\ntransfer-encoding: gzip\r\n\r\n",
        "ChunkedBody last",
    ),
    (
        "GET / HTTP/1.1\r\nContent-Length: 9999999\r\ncontent-length: 9999999\r\n\r\n",
        "BadHead last",
    ),
    (
        "GET / HTTP/1.1\r\nContent-Length: +5\r\n\r\nhello",
        "BadHead last",
    ),
    ("GET / HTTP/1.1\r\nContent-Length:\r\n\r\n", "BadHead last"),
    (
        "GET / HTTP/1.1\r\nContent-Length: 9999999999999999999999999999999999999999\r\n\r\n",
        "BodyTooLarge last",
    ),
    (
        "GET / HTTP/1.1\r\nContent-Length: 5\r\n\r\nhell",
        "CutShort last",
    ),
    (
        "GET / HTTP/1.1\r\nContent-Length: 0005\r\n\r\nhelloGET /tariff HTTP/1.1\r\n\r\n",
        "NoRoute; Tariff; End",
    ),
];

#[test]
fn the_last_messages_of_a_session(rt: HostRuntime) -> Result<(), Fail> {
    for (stream, wanted) in ENDINGS {
        assert_heard(&rt, rt.alloc(), *stream, CUTS, *wanted)?;
    }
    Ok(())
}

// The first line and the fields of a request, its body, and what it means. A token is 1 to 64 visible characters.
const TOKENS: &[Row] = &[
    (
        "PUT /buckets/logs HTTP/1.1\r\nOffice-Token: t1",
        "",
        "CreateBucket logs with t1",
    ),
    (
        "PUT /buckets/logs HTTP/1.1\r\noffice-TOKEN:t1",
        "",
        "CreateBucket logs with t1",
    ),
    (
        "PUT /buckets/logs/objects/a HTTP/1.1\r\nOffice-Token: !~",
        "{\"size\":5}",
        "Put logs a 5 STANDARD with !~",
    ),
    (
        "POST /months/2024-02/close HTTP/1.1\r\nOffice-Token: a,b",
        "",
        "Close 2024/2 with a,b",
    ),
    (
        "DELETE /buckets/logs/lifecycle HTTP/1.1\r\nOffice-Token: \
0123456789012345678901234567890123456789012345678901234567890123",
        "",
        "DropRules logs with 0123456789012345678901234567890123456789012345678901234567890123",
    ),
    (
        "DELETE /buckets/logs/lifecycle HTTP/1.1\r\nOffice-Token: \
01234567890123456789012345678901234567890123456789012345678901234",
        "",
        "BadToken",
    ),
    (
        "PUT /buckets/logs HTTP/1.1\r\nOffice-Token: t 1",
        "",
        "BadToken",
    ),
    (
        "PUT /buckets/logs HTTP/1.1\r\nOffice-Token:",
        "",
        "BadToken",
    ),
    (
        "PUT /buckets/logs HTTP/1.1\r\nOffice-Token: t\u{e9}",
        "",
        "BadToken",
    ),
    (
        "PUT /buckets/logs HTTP/1.1\r\nOffice-Token: t1\r\nHost: x\r\noffice-token: t1",
        "",
        "BadToken",
    ),
    // Rules, acts and prices carry no token; an invalid token is reported first.
    (
        "PUT /buckets/logs/lifecycle HTTP/1.1\r\nOffice-Token: t1",
        "{\"Rules\":[]}",
        "TokenNotServed",
    ),
    (
        "POST /buckets/logs/act HTTP/1.1\r\nOffice-Token: t1",
        "",
        "TokenNotServed",
    ),
    (
        "PUT /tariff HTTP/1.1\r\nOffice-Token: t1",
        PRICES,
        "TokenNotServed",
    ),
    (
        "POST /buckets/logs/act HTTP/1.1\r\nOffice-Token: t 1",
        "",
        "BadToken",
    ),
    (
        "POST /buckets/logs/act HTTP/1.1\r\nOffice-Token: t1\r\nOffice-Token: t2",
        "",
        "BadToken",
    ),
    // Only with a command is the field looked at.
    (
        "GET /buckets/logs HTTP/1.1\r\nOffice-Token: t 1",
        "",
        "Bucket logs",
    ),
    (
        "GET /tariff HTTP/1.1\r\nOffice-Token: t1\r\nOffice-Token: t2",
        "",
        "Tariff",
    ),
    (
        "PUT /buckets/lo HTTP/1.1\r\nOffice-Token: t 1",
        "",
        "BadBucketName",
    ),
    (
        "PUT /tariff HTTP/1.1\r\nOffice-Token: t1",
        "",
        "MissingClass STANDARD in storage",
    ),
    ("PUT /bucket HTTP/1.1\r\nOffice-Token: t 1", "", "NoRoute"),
    (
        "DELETE /tariff HTTP/1.1\r\nOffice-Token: t 1",
        "",
        "BadMethod",
    ),
];

#[test]
fn requests_with_a_token(rt: HostRuntime) -> Result<(), Fail> {
    let alloc = rt.alloc();
    for (start, body, meaning) in TOKENS {
        let stream = format!(in alloc;
            "{start}\r\nContent-Length: {}\r\n\r\n{body}{NEXT}",
            body.len()
        )?;
        let wanted = format!(in alloc; "{meaning}; Bucket next; End")?;
        assert_heard(&rt, alloc, &stream, CUTS, &wanted)?;
    }
    Ok(())
}

// The head of a request for a target of this many letters.
fn long_target(alloc: Global, letters: usize) -> Result<String, Fail> {
    let mut stream = String::new(alloc);
    stream.push_str("GET /")?;
    for _ in 0..letters {
        stream.push('a')?;
    }
    Ok(stream)
}

#[test]
fn a_head_has_at_most_so_many_bytes(rt: HostRuntime) -> Result<(), Fail> {
    let alloc = rt.alloc();
    let mut stream = long_target(alloc, 8_187)?;
    assert_heard(&rt, alloc, &stream, &[500, 65_536], "HeadTooLarge last")?;
    // A bad byte after them changes nothing.
    stream.push('\x01')?;
    assert_heard(&rt, alloc, &stream, &[500, 65_536], "HeadTooLarge last")?;
    stream = long_target(alloc, 8_186)?;
    assert_heard(&rt, alloc, &stream, &[500, 65_536], "CutShort last")?;
    stream.push('\x01')?;
    assert_heard(&rt, alloc, &stream, &[500, 65_536], "BadHead last")?;
    // The last of them ends the head.
    stream = long_target(alloc, 8_174)?;
    stream.push_str(" HTTP/1.1\r\n\r\n")?;
    stream.push_str(NEXT)?;
    assert_heard(
        &rt,
        alloc,
        &stream,
        &[500, 65_536],
        "NoRoute; Bucket next; End",
    )
}

#[test]
fn a_body_longer_than_the_buffer(rt: HostRuntime) -> Result<(), Fail> {
    let alloc = rt.alloc();
    let mut stream = String::new(alloc);
    stream.push_str("PUT /buckets/logs/objects/a HTTP/1.1\r\nContent-Length: 9010\r\n\r\n")?;
    for _ in 0..9_000 {
        stream.push(' ')?;
    }
    stream.push_str("{\"size\":7}")?;
    stream.push_str(NEXT)?;
    assert_heard(
        &rt,
        alloc,
        &stream,
        &[1_000, 65_536],
        "Put logs a 7 STANDARD; Bucket next; End",
    )
}

#[test]
fn a_read_that_fails_changes_no_message(rt: HostRuntime) -> Result<(), Fail> {
    let text = heard(rt.alloc(), NEXT.as_bytes(), 16, &[2])?;
    assert_eq!(rt; text.as_str(), "ReadFault; Bucket next; End");
    Ok(())
}
