ghost use Rattle.http_text.specs.Shorts.{IsShort};

use crate::given::{bucket, equal, equal_bytes, made_desk};
use class_rules::Class;
use desk_core::{Acked, DeskFault};
use http_bodies::BodyFault;
use http_front::{
    Bad, MemoryReplies, MemorySource, ReaderSource, Replies, SessionEnd, Source, Teller,
    WriterReplies, print_bad, print_fault, print_query, print_reply, session,
};
use http_text::is_short;
use meter_journal::OpenFault;
use office_types::{Ask, Command};
use rules_core::RuleFlaw;
use rules_json::RulesFault;
use std::alloc::Global;
use std::process::Abort;
use tariff::{TariffFault, TariffTable};

const MADE: &[u8] =
    b"HTTP/1.1 201 Created\r\ncontent-type: application/json\r\ncontent-length: 17\r\n\r\n{\"bucket\":\"logs\"}";

const FULL: &[u8] =
    b"HTTP/1.1 507 Insufficient Storage\r\ncontent-type: application/json\r\ncontent-length: 36\r\n\r\n\
{\"error\":\"JournalFull\",\"number\":113}";

const FAILED: &[u8] =
    b"HTTP/1.1 503 Service Unavailable\r\ncontent-type: application/json\r\ncontent-length: 35\r\n\r\n\
{\"error\":\"StoreFault\",\"number\":114}";

const LACKS: &[u8] =
    b"HTTP/1.1 500 Internal Server Error\r\ncontent-type: application/json\r\ncontent-length: 33\r\n\r\n\
{\"error\":\"NoMemory\",\"number\":115}";

const NO_METHOD: &[u8] =
    b"HTTP/1.1 405 Method Not Allowed\r\ncontent-type: application/json\r\ncontent-length: 34\r\n\r\n\
{\"error\":\"BadMethod\",\"number\":122}";

const NO_ROUTE: &[u8] =
    b"HTTP/1.1 404 Not Found\r\ncontent-type: application/json\r\ncontent-length: 32\r\n\r\n\
{\"error\":\"NoRoute\",\"number\":121}";

const NO_HEAD: &[u8] =
    b"HTTP/1.1 400 Bad Request\r\ncontent-type: application/json\r\ncontent-length: 32\r\n\r\n\
{\"error\":\"BadHead\",\"number\":120}";

const LARGE_BODY: &[u8] =
    b"HTTP/1.1 413 Payload Too Large\r\ncontent-type: application/json\r\ncontent-length: 37\r\n\r\n\
{\"error\":\"BodyTooLarge\",\"number\":124}";

const CODED: &[u8] =
    b"HTTP/1.1 501 Not Implemented\r\ncontent-type: application/json\r\ncontent-length: 36\r\n\r\n\
{\"error\":\"ChunkedBody\",\"number\":125}";

const LARGE_HEAD: &[u8] =
    b"HTTP/1.1 431 Request Header Fields Too Large\r\ncontent-type: application/json\r\n\
content-length: 37\r\n\r\n{\"error\":\"HeadTooLarge\",\"number\":126}";

const CUT: &[u8] =
    b"HTTP/1.1 400 Bad Request\r\ncontent-type: application/json\r\ncontent-length: 33\r\n\r\n\
{\"error\":\"CutShort\",\"number\":127}";

const PUT: &[u8] = b"PUT /buckets/logs HTTP/1.1\r\nHost: x\r\n\r\n";

/// Answers each ask that the journal is full, except those with these numbers, counted from 1.
#[derive(Drop)]
struct FullTeller {
    asks: u64,
    store_fails: u64,
    lacks: u64,
}

impl Teller for FullTeller {
    ghost moves = { λ _ _ _ _. Unit {0} };

    fn ask(&mut self, _ask: &Ask) -> Result<Acked, DeskFault> {
        self.asks = self.asks.saturating_add(1);
        if self.asks == self.store_fails {
            return Err(DeskFault::StoreFault {
                told: None,
                faults: 1,
            });
        }
        if self.asks == self.lacks {
            return Err(DeskFault::NoMemory);
        }
        Err(DeskFault::JournalFull)
    }

    fn answered(&mut self) {}
}

/// The calls that fail, each kind counted from 1: reads, texts, an ask with a store fault, and an ask that runs out of
/// memory (0: none).
#[derive(Clone, Copy)]
struct Failing {
    reads: &'static [u64],
    texts: &'static [u64],
    store: u64,
    memory: u64,
}

const NOTHING: &Failing = &Failing {
    reads: &[],
    texts: &[],
    store: 0,
    memory: 0,
};

fn joined(rt: &impl Abort, alloc: Global, pieces: &[&[u8]]) -> Vec<u8> {
    let mut all = Vec::new(alloc);
    for piece in pieces {
        all.extend_from_slice(*piece).expect(rt, "memory");
    }
    all
}

fn list(rt: &impl Abort, alloc: Global, numbers: &[u64]) -> Vec<u64> {
    numbers.to_vec(alloc).expect(rt, "memory")
}

/// Has one session. Only this function calls `session`.
fn talk<S: Source, W: Replies, T: Teller>(
    alloc: Global,
    source: &mut S,
    out: &mut W,
    teller: &mut T,
) -> SessionEnd {
    session(alloc, source, out, teller)
}

/// Has one session over a stream, given in pieces and read in cuts of this many bytes. Returns its end and the replies.
fn had(
    rt: &impl Abort,
    alloc: Global,
    stream: &[&[u8]],
    cut: usize,
    failing: &Failing,
) -> (SessionEnd, MemoryReplies) {
    let bytes = joined(rt, alloc, stream);
    let mut source = MemorySource::new(bytes, cut, list(rt, alloc, failing.reads));
    let mut out = MemoryReplies::new(alloc, list(rt, alloc, failing.texts));
    let mut teller = FullTeller {
        asks: 0,
        store_fails: failing.store,
        lacks: failing.memory,
    };
    let end = talk(alloc, &mut source, &mut out, &mut teller);
    (end, out)
}

/// Has one session, and checks its end and the replies, also given in pieces.
fn assert_session(
    rt: &impl Abort,
    alloc: Global,
    stream: &[&[u8]],
    cut: usize,
    failing: &Failing,
    wanted: (SessionEnd, &[&[u8]]),
) {
    let (end, out) = had(rt, alloc, stream, cut, failing);
    equal(rt, &(stream, cut), &end, &wanted.0);
    let replies = joined(rt, alloc, wanted.1);
    equal_bytes(rt, &(stream, cut), out.said(), &replies);
}

// The front of the reply to a refused message, up to the size of its body; and the text between the two.
const BAD: &[u8] =
    b"HTTP/1.1 400 Bad Request\r\ncontent-type: application/json\r\ncontent-length: ";

const GAP: &[u8] = b"\r\n\r\n";

const ENDED: SessionEnd = SessionEnd::Ended;

const ERROR: &[u8] = b"500 Internal Server Error";

const UNAVAILABLE: &[u8] = b"503 Service Unavailable";

const LOST: &[u8] = b"{\"error\":\"StoreFault\",\"number\":114}";

const LACK: &[u8] = b"{\"error\":\"NoMemory\",\"number\":115}";

// The status, and the size and the text of the body. RFC 9110, "Status Codes"; RFC 4918, "507 Insufficient Storage".
const FAULTS: &[(DeskFault, &[u8], &[u8], &[u8])] = &[
    (
        DeskFault::StoreFault {
            told: Some(5),
            faults: 1,
        },
        UNAVAILABLE,
        b"35",
        LOST,
    ),
    (
        DeskFault::JournalFull,
        b"507 Insufficient Storage",
        b"36",
        b"{\"error\":\"JournalFull\",\"number\":113}",
    ),
    (
        DeskFault::Broken(OpenFault::NotMade),
        ERROR,
        b"32",
        b"{\"error\":\"NotMade\",\"number\":110}",
    ),
    (
        DeskFault::Broken(OpenFault::Foreign),
        ERROR,
        b"32",
        b"{\"error\":\"Foreign\",\"number\":111}",
    ),
    (
        DeskFault::Broken(OpenFault::Damaged { offset: 30 }),
        ERROR,
        b"44",
        b"{\"error\":\"Damaged\",\"number\":112,\"offset\":30}",
    ),
    (
        DeskFault::Broken(OpenFault::StoreFault),
        UNAVAILABLE,
        b"35",
        LOST,
    ),
    (DeskFault::Broken(OpenFault::NoMemory), ERROR, b"33", LACK),
    (DeskFault::NoMemory, ERROR, b"33", LACK),
];

// A text of a row.
type Text = &'static [u8];

// A reply with this status, and this size and text of its body.
fn reply_of(rt: &impl Abort, alloc: Global, status: Text, size: Text, body: Text) -> Vec<u8> {
    joined(
        rt,
        alloc,
        &[
            b"HTTP/1.1 ",
            status,
            b"\r\ncontent-type: application/json\r\ncontent-length: ",
            size,
            GAP,
            body,
        ],
    )
}

// Whether the call's reply is printed into a room as this.
fn is_printed_into_room(fault: &DeskFault, reply: &[u8]) -> bool {
    let mut room = [0u8; 200];
    print_fault(&mut room, fault) == Ok(reply.len()) && room.starts_with(reply)
}

fn printed(rt: &impl Abort, alloc: Global, bad: Bad) -> Vec<u8> {
    let text = print_bad(alloc, &bad);
    drop(bad);
    text.expect(rt, "memory")
}

#[test]
fn faults_are_printed_exactly(rt: HostRuntime) {
    let alloc = rt.alloc();
    for (fault, status, size, body) in FAULTS {
        let reply = reply_of(&rt, alloc, *status, *size, *body);
        equal(&rt, fault, &is_printed_into_room(fault, &reply), &true);
        let found = printed(&rt, alloc, Bad::Desk(*fault));
        equal_bytes(&rt, fault, &found, &reply);
    }
    let mut short = [0u8; 124];
    assert!(rt; print_fault(&mut short, &DeskFault::JournalFull).is_err());
}

// A refusal without any text from the message.
#[derive(Clone, Copy)]
enum Refused {
    NotADate,
    NotMidnight,
    MarkerRule,
    NotJson,
    NoSuchVersion,
    NoSuchUpload,
    BadPart,
    NotToml,
    MissingClass,
    BadPrice,
    BadTiers,
    BadFrom,
    BadToken,
    TokenNotServed,
}

fn bad_of(refused: Refused) -> Bad {
    Bad::Message(match refused {
        Refused::NotADate => http_asks::Bad::Rules(RulesFault::NotADate),
        Refused::NotMidnight => http_asks::Bad::Rules(RulesFault::NotMidnight),
        Refused::MarkerRule => http_asks::Bad::Rules(RulesFault::Flaw {
            flaw: RuleFlaw::MarkerRule,
            rule: 1,
        }),
        Refused::NotJson => http_asks::Bad::Rules(RulesFault::NotJson),
        Refused::NoSuchVersion => http_asks::Bad::NoSuchVersion,
        Refused::NoSuchUpload => http_asks::Bad::NoSuchUpload,
        Refused::BadPart => http_asks::Bad::BadPart,
        Refused::NotToml => http_asks::Bad::Tariff(TariffFault::NotToml),
        Refused::MissingClass => http_asks::Bad::Tariff(TariffFault::MissingClass {
            table: TariffTable::Storage,
            class: Class::Glacier,
        }),
        Refused::BadPrice => http_asks::Bad::Tariff(TariffFault::BadPrice {
            table: TariffTable::Transition,
            class: Class::StandardIa,
        }),
        Refused::BadTiers => http_asks::Bad::Tariff(TariffFault::BadTiers {
            class: Class::Standard,
        }),
        Refused::BadFrom => http_asks::Bad::Tariff(TariffFault::BadFrom),
        Refused::BadToken => http_asks::Bad::BadToken,
        Refused::TokenNotServed => http_asks::Bad::TokenNotServed,
    })
}

// RFC 9110, "Status Codes".
const REFUSALS: &[(Refused, &[u8], &[u8], &[u8])] = &[
    (
        Refused::NotADate,
        b"400 Bad Request",
        b"31",
        b"{\"error\":\"NotADate\",\"number\":2}",
    ),
    (
        Refused::NotMidnight,
        b"400 Bad Request",
        b"34",
        b"{\"error\":\"NotMidnight\",\"number\":3}",
    ),
    (
        Refused::MarkerRule,
        b"400 Bad Request",
        b"43",
        b"{\"error\":\"MarkerRule\",\"number\":32,\"rule\":1}",
    ),
    (
        Refused::NotJson,
        b"400 Bad Request",
        b"31",
        b"{\"error\":\"NotJson\",\"number\":40}",
    ),
    (
        Refused::NoSuchVersion,
        b"404 Not Found",
        b"37",
        b"{\"error\":\"NoSuchVersion\",\"number\":51}",
    ),
    (
        Refused::NoSuchUpload,
        b"404 Not Found",
        b"36",
        b"{\"error\":\"NoSuchUpload\",\"number\":60}",
    ),
    (
        Refused::BadPart,
        b"409 Conflict",
        b"31",
        b"{\"error\":\"BadPart\",\"number\":61}",
    ),
    (
        Refused::NotToml,
        b"400 Bad Request",
        b"31",
        b"{\"error\":\"NotToml\",\"number\":70}",
    ),
    (
        Refused::MissingClass,
        b"400 Bad Request",
        b"72",
        b"{\"class\":\"GLACIER\",\"error\":\"MissingClass\",\"number\":71,\"table\":\"storage\"}",
    ),
    (
        Refused::BadPrice,
        b"400 Bad Request",
        b"75",
        b"{\"class\":\"STANDARD_IA\",\"error\":\"BadPrice\",\"number\":72,\"table\":\"transition\"}",
    ),
    (
        Refused::BadTiers,
        b"400 Bad Request",
        b"51",
        b"{\"class\":\"STANDARD\",\"error\":\"BadTiers\",\"number\":74}",
    ),
    (
        Refused::BadFrom,
        b"400 Bad Request",
        b"31",
        b"{\"error\":\"BadFrom\",\"number\":75}",
    ),
    (
        Refused::BadToken,
        b"400 Bad Request",
        b"33",
        b"{\"error\":\"BadToken\",\"number\":128}",
    ),
    (
        Refused::TokenNotServed,
        b"400 Bad Request",
        b"39",
        b"{\"error\":\"TokenNotServed\",\"number\":129}",
    ),
];

fn unsupported(rt: &impl Abort, alloc: Global, name: &str) -> Bad {
    let name = String::from_str(alloc, name).expect(rt, "memory");
    Bad::Message(http_asks::Bad::Body(BodyFault::UnsupportedClass { name }))
}

#[test]
fn refusals_are_printed_exactly(rt: HostRuntime) {
    let alloc = rt.alloc();
    for (index, (refused, status, size, body)) in REFUSALS.iter().enumerate() {
        let reply = reply_of(&rt, alloc, *status, *size, *body);
        let found = printed(&rt, alloc, bad_of(*refused));
        equal_bytes(&rt, &index, &found, &reply);
    }
    let body = b"{\"error\":\"UnsupportedClass\",\"name\":\"FOO\",\"number\":43}";
    let reply = reply_of(&rt, alloc, b"400 Bad Request", b"53", body);
    let found = printed(&rt, alloc, unsupported(&rt, alloc, "FOO"));
    equal_bytes(&rt, &"a class", &found, &reply);
}

// The requests for the same bucket, the cut, what fails, how the session ends, and the replies.
const FAILURES: &[(&[&[u8]], usize, Failing, SessionEnd, &[&[u8]])] = &[
    (
        &[PUT, PUT],
        7,
        Failing {
            reads: &[9],
            texts: &[],
            store: 0,
            memory: 0,
        },
        SessionEnd::ReadFault,
        &[FULL],
    ),
    (
        &[PUT, PUT],
        99,
        Failing {
            reads: &[1],
            texts: &[],
            store: 0,
            memory: 0,
        },
        SessionEnd::ReadFault,
        &[],
    ),
    (
        &[PUT, PUT],
        99,
        Failing {
            reads: &[],
            texts: &[2],
            store: 0,
            memory: 0,
        },
        SessionEnd::WriteFault,
        &[FULL],
    ),
    // A session goes on after a store fault, and ends if memory runs out.
    (
        &[PUT, PUT, PUT],
        99,
        Failing {
            reads: &[],
            texts: &[],
            store: 2,
            memory: 0,
        },
        SessionEnd::Ended,
        &[FULL, FAILED, FULL],
    ),
    (
        &[PUT, PUT],
        99,
        Failing {
            reads: &[],
            texts: &[],
            store: 0,
            memory: 1,
        },
        SessionEnd::NoMemory,
        &[LACKS],
    ),
];

#[test]
fn each_message_is_answered_once(rt: HostRuntime) {
    let alloc = rt.alloc();
    for cut in 0..21 {
        let wanted: &[&[u8]] = &[FULL, FULL];
        assert_session(&rt, alloc, &[PUT, PUT], cut, NOTHING, (ENDED, wanted));
    }
    for (stream, cut, failing, end, said) in FAILURES {
        assert_session(&rt, alloc, *stream, *cut, failing, (*end, *said));
    }
}

// Messages whose framing is refused, each with its reply (RFC 9110, "Status Codes"; RFC 6585).
const REFUSED_FRAMINGS: &[(&[u8], &[u8])] = &[
    (
        b"PUT /buckets/logs HTTP/1.1\r\nTransfer-Encoding: chunked\r\n\r\n",
        CODED,
    ),
    (
        b"GET / HTTP/1.1\r\nContent-Length: 1048577\r\n\r\n",
        LARGE_BODY,
    ),
    (
        b"GET / HTTP/1.1\r\nContent-Length: 0\r\nContent-Length: 0\r\n\r\n",
        NO_HEAD,
    ),
    (b"PUT /buckets\x01", NO_HEAD),
    (b"\x01\x02", NO_HEAD),
    (b"PUT /buckets/logs HTTP/1.1\r\nHost:", CUT),
    (
        b"PUT /buckets/logs HTTP/1.1\r\nContent-Length: 5\r\n\r\nhell",
        CUT,
    ),
    (b"\r\n", CUT),
];

// Messages whose target leads nowhere, or whose resource does not serve the method, each with its reply.
const NOT_SERVED: &[(&[u8], &[u8])] = &[
    (b"GET / HTTP/1.1\r\n\r\n", NO_ROUTE),
    (b"PUT /bucket/logs HTTP/1.1\r\n\r\n", NO_ROUTE),
    (b"GET /tariff?a HTTP/1.1\r\n\r\n", NO_ROUTE),
    (b"DELETE /tariff HTTP/1.1\r\n\r\n", NO_METHOD),
    (
        b"POST /buckets/lo HTTP/1.1\r\nContent-Length: 3\r\n\r\nGET",
        NO_METHOD,
    ),
];

fn letters(rt: &impl Abort, alloc: Global, count: usize) -> Vec<u8> {
    vec![in alloc; b'a'; count].expect(rt, "memory")
}

fn assert_last(rt: &impl Abort, alloc: Global, message: &[u8], reply: &[u8]) {
    assert_session(rt, alloc, &[message], 1000, NOTHING, (ENDED, &[reply]));
    let replies = [FULL, reply];
    assert_session(rt, alloc, &[PUT, message], 13, NOTHING, (ENDED, &replies));
}

#[test]
fn a_refused_framing_is_the_last(rt: HostRuntime) {
    let alloc = rt.alloc();
    for (message, reply) in REFUSED_FRAMINGS {
        assert_last(&rt, alloc, *message, *reply);
    }
    let letters = letters(&rt, alloc, 8187);
    let long = joined(&rt, alloc, &[b"GET /", &letters]);
    assert_last(&rt, alloc, &long, LARGE_HEAD);
}

#[test]
fn a_session_goes_on_after_what_is_not_served(rt: HostRuntime) {
    let alloc = rt.alloc();
    for (message, reply) in NOT_SERVED {
        for cut in &[1usize, 17, 1000] {
            let replies = [*reply, FULL];
            let stream = [*message, PUT];
            assert_session(&rt, alloc, &stream, *cut, NOTHING, (ENDED, &replies));
        }
    }
}

// A message that is refused, and the size and the text of the reply's body.
const REFUSED: &[(&[u8], &[u8], &[u8])] = &[
    (
        b"GET /buckets/logs/meters/2024-13 HTTP/1.1\r\n\r\n",
        b"32",
        b"{\"error\":\"NotAMonth\",\"number\":4}",
    ),
    (b"PUT /buckets/lo HTTP/1.1\r\n\r\n", b"37", BAD_NAME),
    (b"GET /buckets/lo HTTP/1.1\r\n\r\n", b"37", BAD_NAME),
    (
        b"PUT /buckets/logs/objects/k HTTP/1.1\r\nContent-Length: 26\r\n\r\n{\"size\":1,\"tags\":{\"\":\"x\"}}",
        b"31",
        b"{\"error\":\"BadTags\",\"number\":12}",
    ),
    (
        b"PUT /buckets/logs/objects/k HTTP/1.1\r\nContent-Length: 22\r\n\r\n{\"size\":5497558138881}",
        b"31",
        b"{\"error\":\"BadSize\",\"number\":13}",
    ),
    (
        b"PUT /buckets/logs/objects/k HTTP/1.1\r\nContent-Length: 24\r\n\r\n{\"size\":1,\"class\":\"FOO\"}",
        b"53",
        b"{\"error\":\"UnsupportedClass\",\"name\":\"FOO\",\"number\":43}",
    ),
    (
        b"PUT /buckets/logs/objects/k HTTP/1.1\r\nContent-Length: 25\r\n\r\n{\"size\":1,\"class\":\"A\\\"B\"}",
        b"54",
        b"{\"error\":\"UnsupportedClass\",\"name\":\"A\\\"B\",\"number\":43}",
    ),
    (
        b"PUT /buckets/logs/objects/k HTTP/1.1\r\nContent-Length: 12\r\n\r\n{\"size\":\"1\"}",
        b"47",
        b"{\"error\":\"BadBody\",\"field\":\"size\",\"number\":123}",
    ),
    (
        b"PUT /buckets/logs/objects/k HTTP/1.1\r\nContent-Length: 2\r\n\r\n[]",
        b"43",
        b"{\"error\":\"BadBody\",\"field\":\"\",\"number\":123}",
    ),
    (
        b"PUT /tariff HTTP/1.1\r\nContent-Length: 5\r\n\r\nx = 1",
        b"47",
        b"{\"error\":\"UnknownField\",\"name\":\"x\",\"number\":73}",
    ),
];

const BAD_NAME: &[u8] = b"{\"error\":\"BadBucketName\",\"number\":10}";

// Checks that a message is refused with 400, a size and a text of the body, and that the session goes on.
fn assert_refused(rt: &impl Abort, alloc: Global, message: &[u8], (size, body): (&[u8], &[u8])) {
    let replies = [BAD, size, GAP, body, FULL];
    assert_session(rt, alloc, &[message, PUT], 17, NOTHING, (ENDED, &replies));
}

#[test]
fn a_session_goes_on_after_a_refusal(rt: HostRuntime) {
    let alloc = rt.alloc();
    for (message, size, body) in REFUSED {
        assert_refused(&rt, alloc, *message, (*size, *body));
    }
    let key = letters(&rt, alloc, 1025);
    let pieces: &[&[u8]] = &[b"PUT /buckets/logs/objects/", &key, b" HTTP/1.1\r\n\r\n"];
    let message = joined(&rt, alloc, pieces);
    let body = b"{\"error\":\"BadKey\",\"number\":11}";
    assert_refused(&rt, alloc, &message, (b"30", body));
}

// The last message of a session, and its reply.
const LAST: &[(&[u8], &[&[u8]])] = &[
    (
        b"PUT /buckets/logs HTTP/1.1\r\nConnection: close\r\n\r\n",
        &[FULL],
    ),
    (b"PUT /buckets/logs HTTP/1.0\r\n\r\n", &[FULL]),
    (
        b"PUT /buckets/lo HTTP/1.1\r\nConnection: close\r\n\r\n",
        &[BAD, b"37", GAP, BAD_NAME],
    ),
    (
        b"GET /buckets/lo HTTP/1.0\r\n\r\n",
        &[BAD, b"37", GAP, BAD_NAME],
    ),
];

#[test]
fn a_last_message_ends_the_session(rt: HostRuntime) {
    for (message, said) in LAST {
        let stream = &[*message, PUT];
        assert_session(&rt, rt.alloc(), stream, 17, NOTHING, (ENDED, *said));
    }
}

/// Has one session over a reader and writers of std. Returns its end, the replies and the notes.
fn had_by_std(alloc: Global, bytes: &[u8]) -> (SessionEnd, Vec<u8>, Vec<u8>) {
    let mut said: Vec<u8> = Vec::new(alloc);
    let mut noted: Vec<u8> = Vec::new(alloc);
    let mut source = ReaderSource::new(bytes);
    let mut out = WriterReplies::new(&mut said, &mut noted);
    let mut teller = FullTeller {
        asks: 0,
        store_fails: 0,
        lacks: 0,
    };
    let end = talk(alloc, &mut source, &mut out, &mut teller);
    (end, said, noted)
}

#[test]
fn a_session_runs_over_readers_and_writers_of_std(rt: HostRuntime) {
    let alloc = rt.alloc();
    let pieces: &[&[u8]] = &[PUT, PUT, b"DELETE /buckets/logs HTTP/1.1\r\n\r\n"];
    let (end, said, noted) = had_by_std(alloc, &joined(&rt, alloc, pieces));
    equal(&rt, &"the end", &end, &ENDED);
    let replies = joined(&rt, alloc, &[FULL, FULL, NO_METHOD]);
    equal_bytes(&rt, &"the replies", &said, &replies);
    equal(&rt, &"the notes", &noted.len(), &0);
}

/// Has one session over a desk that makes a bucket, and then refuses a message.
fn had_over_desk(rt: &impl Abort, alloc: Global, out: &mut MemoryReplies) -> SessionEnd {
    let stream = joined(rt, alloc, &[PUT, b"PUT /buckets/lo HTTP/1.1\r\n\r\n"]);
    let mut source = MemorySource::new(stream, 50, Vec::new(alloc));
    let mut desk = made_desk(rt, alloc);
    let end = talk(alloc, &mut source, out, &mut desk);
    drop(desk);
    end
}

#[test]
fn failing_replies_are_counted_together(rt: HostRuntime) {
    let alloc = rt.alloc();
    let mut out = MemoryReplies::new(alloc, list(&rt, alloc, &[1, 3]));
    assert!(rt; out.text(b"office\n").is_err());
    let end = had_over_desk(&rt, alloc, &mut out);
    equal(&rt, &"the end", &end, &SessionEnd::WriteFault);
    equal_bytes(&rt, &"the replies", out.said(), MADE);
    assert!(rt; out.text(b"office\n").is_ok());
    equal_bytes(&rt, &"the texts", out.texts(), b"office\n");
}

// The answer to a bucket that is made.
fn made(rt: &impl Abort, alloc: Global) -> Acked {
    let ask = Ask::Command(Command::CreateBucket {
        bucket: bucket(rt, alloc, "logs"),
    });
    let mut desk = made_desk(rt, alloc);
    let answer = desk.submit(&ask);
    drop(ask);
    drop(desk);
    match answer {
        Ok(acked) => acked,
        Err(_) => panic!(rt; "no answer"),
    }
}

// Whether an answer is printed into a room as this, and not into a room of one byte less.
fn is_printed_as(acked: &Acked, reply: &[u8]) -> bool
    requires { IsShort acked.now.reply }
{
    let mut room = [0u8; 200];
    let mut short = [0u8; 92];
    print_reply(&mut room, acked) == Ok(reply.len())
        && room.starts_with(reply)
        && print_reply(&mut short, acked).is_err()
}

#[test]
fn a_query_is_printed_as_a_reply(rt: HostRuntime) {
    let acked = made(&rt, rt.alloc());
    assert!(rt; is_short(acked.reply()));
    assert!(rt; is_printed_as(&acked, MADE));
    let text = print_query(rt.alloc(), &acked).expect(&rt, "memory");
    drop(acked);
    equal_bytes(&rt, &"a query", &text, MADE);
}
