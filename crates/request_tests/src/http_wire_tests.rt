ghost use Rattle.std.specs.Prelude.{◌≤◌, length};

use http_wire::{
    Buffer, FramingRefusal, Front, MemorySource, Message, MessageStop, Next, Source, front_of,
    read_message,
};
use httparse::spans::EMPTY_HEADER_SPAN;
use std::alloc::Global;
use std::process::Abort;
use std::test::Fail;

const WHOLE: u8 = 1;

const OPEN: u8 = 2;

const HOPELESS: u8 = 3;

fn kind(bytes: &[u8]) -> u8 {
    let mut spans = [EMPTY_HEADER_SPAN; 4096];
    if bytes.len() > 8192 {
        return 0;
    }
    match front_of(bytes, &mut spans) {
        Front::Whole(_) => WHOLE,
        Front::Open => OPEN,
        Front::Hopeless => HOPELESS,
    }
}

const HEADS: &[(&[u8], u8)] = &[
    (b"", OPEN),
    (b"GET / HTTP/1.1\r\n\r\n", WHOLE),
    (b"\r\n\n\r\nGET / HTTP/1.1\n\n", WHOLE),
    (b"\rG", HOPELESS),
    (b" GET / HTTP/1.1\r\n\r\n", HOPELESS),
    (b"GET  / HTTP/1.1\r\n\r\n", HOPELESS),
    (b"GET / HTTP/1.1 \r\n", HOPELESS),
    (b"GET / HTTP/1.2\r\n", HOPELESS),
    (b"GET / HTTP/1.1\r\nA: b\r\n c\r\n\r\n", HOPELESS),
    (b"GET / HTTP/1.1\r\nA : b\r\n\r\n", HOPELESS),
    (b"GET / HTTP/1.1\r\nA:\r\n\r\n", WHOLE),
    (b"GET / HTTP/1.1\r\nA: b\r\nB:c\n\r\n", WHOLE),
    (b"GET /\xff", OPEN),
    (b"GET /\xff HTTP", HOPELESS),
    (b"PUT /buckets\x01", HOPELESS),
    (b"GET /a?b#c{} HTTP/1.0\n\n", WHOLE),
    (b"GET /\xc3\xa9 HTTP/1.0\n\n", WHOLE),
    (b"G(T", HOPELESS),
];

#[test]
fn heads_are_read_by_their_grammar(rt: HostRuntime) {
    for (bytes, wanted) in HEADS {
        assert_eq!(rt; kind(*bytes), *wanted, "{bytes:?}");
    }
}

// Whether one read into a room of `size` bytes, at most eight, gives these bytes, or fails if there are none.
fn gives(source: &mut MemorySource, size: usize, wanted: Option<&[u8]>) -> bool {
    let mut room = [0u8; 8];
    let room = &mut room[..size.min(8)];
    match source.read(room) {
        Ok(count) => wanted.is_some() && room.get(..count) == wanted,
        Err(_) => wanted.is_none(),
    }
}

// The sizes of rooms, and what is read into them one after another. Pieces have 4 bytes, and the second read fails.
const PIECES: &[(usize, Option<&[u8]>)] = &[
    (8, Some(b"abcd")),
    (8, None),
    (1, Some(b"e")),
    (8, Some(b"f")),
    (8, Some(b"")),
];

#[test]
fn bytes_come_in_pieces_and_fail_where_chosen(rt: HostRuntime) -> Result<(), Fail> {
    let alloc = rt.alloc();
    let mut source = MemorySource::new(b"abcdef".to_vec(alloc)?, 4, [2].to_vec(alloc)?);
    for (size, wanted) in PIECES {
        assert!(rt; gives(&mut source, *size, *wanted), "{wanted:?}");
    }
    // A piece has at least one byte.
    let mut slow = MemorySource::new(b"ab".to_vec(alloc)?, 0, Vec::new(alloc));
    assert!(rt; gives(&mut slow, 8, Some(b"a")));
    Ok(())
}

#[derive(Clone, Copy)]
enum Seen<'a> {
    Message { body: &'a [u8], last: bool },
    Refused(FramingRefusal),
    End,
    ReadFault,
}

/// Whether the message is the expected one.
fn is_message(message: &Message, buffer: &Buffer, wanted: &Seen<'_>) -> bool
    requires { message.now.used ≤ length buffer.now.bytes }
{
    match wanted {
        Seen::Message { body, last } => { message.last() == *last && message.body(buffer) == *body }
        _ => false,
    }
}

/// Whether the message after those already read is the expected one.
fn reads_one(
    alloc: Global,
    source: &mut MemorySource,
    buffer: &mut Buffer,
    wanted: &Seen<'_>,
) -> bool {
    match read_message(alloc, source, buffer) {
        Ok(Next::Request(message)) => {
            let same = is_message(&message, buffer, wanted);
            buffer.drop_front(message.used());
            same
        }
        Ok(Next::Refused(bad)) => matches!(wanted, Seen::Refused(refusal) if bad == *refusal),
        Ok(Next::End) => matches!(wanted, Seen::End),
        Err(MessageStop::ReadFault) => matches!(wanted, Seen::ReadFault),
        Err(_) => false,
    }
}

/// Whether these are the next messages of a source.
fn reads_all(alloc: Global, source: &mut MemorySource, wanted: &[Seen<'_>]) -> Result<bool, Fail> {
    let mut buffer = Buffer::new(alloc)?;
    for seen in wanted {
        if !reads_one(alloc, source, &mut buffer, seen) {
            return Ok(false);
        }
    }
    Ok(true)
}

/// Reads these messages, in pieces of each length.
fn assert_reads(
    rt: &impl Abort,
    alloc: Global,
    bytes: &[u8],
    wanted: &[Seen<'_>],
) -> Result<(), Fail> {
    for cut in &[1, 7, 1_000_000] {
        let mut source = MemorySource::new(bytes.to_vec(alloc)?, *cut, Vec::new(alloc));
        assert!(rt;
            reads_all(alloc, &mut source, wanted)?,
            "{bytes:?} in pieces of {cut}"
        );
    }
    Ok(())
}

const FRONTS: &[(&[u8], Seen<'static>)] = &[
    (b"", Seen::End),
    (
        b"GET / HTTP/1.1\r\n\r\n",
        Seen::Message {
            body: b"",
            last: false,
        },
    ),
    (
        b"PUT / HTTP/1.1\r\nContent-Length: 3\r\n\r\nabcd",
        Seen::Message {
            body: b"abc",
            last: false,
        },
    ),
    (
        b"PUT / HTTP/1.1\r\nCONTENT-length:\t02 \t\r\n\r\nabcd",
        Seen::Message {
            body: b"ab",
            last: false,
        },
    ),
    (
        b"PUT / HTTP/1.1\nContent-Length: 0010\n\n0123456789",
        Seen::Message {
            body: b"0123456789",
            last: false,
        },
    ),
    (
        b"PUT / HTTP/1.1\r\nContent-Length: 000000000000000000000000000000000000000000000000000000000001\r\n\r\n\
abcd",
        Seen::Message {
            body: b"a",
            last: false,
        },
    ),
    (
        b"PUT / HTTP/1.1\r\nContent-Length: 0\r\n\r\n",
        Seen::Message {
            body: b"",
            last: false,
        },
    ),
    (
        b"GET / HTTP/1.0\r\n\r\n",
        Seen::Message {
            body: b"",
            last: true,
        },
    ),
    (
        b"GET / HTTP/1.0\r\nConnection: keep-alive\r\n\r\n",
        Seen::Message {
            body: b"",
            last: true,
        },
    ),
    (
        b"GET / HTTP/1.1\r\nConnection: close\r\n\r\n",
        Seen::Message {
            body: b"",
            last: true,
        },
    ),
    (
        b"GET / HTTP/1.1\r\ncONNECTION:  CLose\r\n\r\n",
        Seen::Message {
            body: b"",
            last: true,
        },
    ),
    (
        b"GET / HTTP/1.1\r\nConnection: a\r\nConnection: close\r\n\r\n",
        Seen::Message {
            body: b"",
            last: true,
        },
    ),
    (
        b"GET / HTTP/1.1\r\nConnection: close, a\r\n\r\n",
        Seen::Message {
            body: b"",
            last: false,
        },
    ),
    (
        b"GET / HTTP/1.1\r\nKeep: close\r\n\r\n",
        Seen::Message {
            body: b"",
            last: false,
        },
    ),
    (b"G(T", Seen::Refused(FramingRefusal::BadHead)),
    (
        b"PUT / HTTP/1.1\r\nContent-Length: +5\r\n\r\nabcde",
        Seen::Refused(FramingRefusal::BadHead),
    ),
    (
        b"PUT / HTTP/1.1\r\nContent-Length:\r\n\r\n",
        Seen::Refused(FramingRefusal::BadHead),
    ),
    (
        b"PUT / HTTP/1.1\r\nContent-Length: 5 5\r\n\r\nabcde",
        Seen::Refused(FramingRefusal::BadHead),
    ),
    (
        b"PUT / HTTP/1.1\r\nContent-Length: 0x5\r\n\r\nabcde",
        Seen::Refused(FramingRefusal::BadHead),
    ),
    (
        b"PUT / HTTP/1.1\r\nContent-Length: 5\r\ncontent-length: 5\r\n\r\nabcde",
        Seen::Refused(FramingRefusal::BadHead),
    ),
    (
        b"PUT / HTTP/1.1\r\nContent-Length: 1048577\r\n\r\n",
        Seen::Refused(FramingRefusal::BodyTooLarge),
    ),
    (
        b"PUT / HTTP/1.1\r\nContent-Length: 9999999999999999999999999999999999999999\r\n\r\n",
        Seen::Refused(FramingRefusal::BodyTooLarge),
    ),
    (
        b"PUT / HTTP/1.1\r\nTransfer-Encoding: gzip\r\n\r\n",
        Seen::Refused(FramingRefusal::ChunkedBody),
    ),
    (
        b"PUT / HTTP/1.1\r\nContent-Length: 5\r\nContent-Length: 5\r\ntransfer-encoding:\r\n\r\n",
        Seen::Refused(FramingRefusal::ChunkedBody),
    ),
    (
        b"PUT / HTTP/1.1\r\nContent-Length: 1048577\r\nContent-Length: 1048577\r\n\r\n",
        Seen::Refused(FramingRefusal::BadHead),
    ),
    (b"GET / HT", Seen::Refused(FramingRefusal::CutShort)),
    (b"\r\n", Seen::Refused(FramingRefusal::CutShort)),
    (
        b"PUT / HTTP/1.1\r\nContent-Length: 5\r\n\r\nabcd",
        Seen::Refused(FramingRefusal::CutShort),
    ),
    (
        b"PUT / HTTP/1.1\r\nContent-Length: 1048576\r\n\r\nabcd",
        Seen::Refused(FramingRefusal::CutShort),
    ),
    (
        b"PUT / HTTP/1.1\r\nContent-Length: 1\r\n\r\n",
        Seen::Refused(FramingRefusal::CutShort),
    ),
];

#[test]
fn one_thing_stands_at_the_front(rt: HostRuntime) -> Result<(), Fail> {
    for (bytes, wanted) in FRONTS {
        assert_reads(&rt, rt.alloc(), *bytes, &[*wanted])?;
    }
    Ok(())
}

#[test]
fn messages_stand_behind_one_another(rt: HostRuntime) -> Result<(), Fail> {
    let stream =
        b"PUT /a HTTP/1.1\r\nContent-Length: 3\r\n\r\nabc\r\nPUT /b HTTP/1.1\r\nContent-Length: 2\r\n\r\ndeGET / \
HTTP/1.0\r\n\r\nG";
    let wanted = [
        Seen::Message {
            body: b"abc",
            last: false,
        },
        Seen::Message {
            body: b"de",
            last: false,
        },
        Seen::Message {
            body: b"",
            last: true,
        },
        Seen::Refused(FramingRefusal::CutShort),
    ];
    assert_reads(&rt, rt.alloc(), stream, &wanted)
}

const LONG: &[(&[u8], usize)] = &[
    (b"PUT /a HTTP/1.1\r\nContent-Length: 8000\r\n\r\n", 8_000),
    (b"PUT /a HTTP/1.1\r\nContent-Length: 8192\r\n\r\n", 8_192),
    (
        b"PUT /a HTTP/1.1\r\nContent-Length: 100000\r\n\r\n",
        100_000,
    ),
];

// A body of this many bytes.
fn body_of(alloc: Global, length: usize) -> Result<Vec<u8>, Fail> {
    let mut body = Vec::new(alloc);
    for n in 0..length {
        body.push((n % 251) as u8)?;
    }
    Ok(body)
}

// A message with this head and body, and another message after it.
fn stream_of(alloc: Global, head: &[u8], body: &[u8]) -> Result<Vec<u8>, Fail> {
    let mut stream = head.to_vec(alloc)?;
    stream.extend_from_slice(body)?;
    stream.extend_from_slice(b"PUT /b HTTP/1.1\r\nContent-Length: 2\r\n\r\nde")?;
    Ok(stream)
}

#[test]
fn long_bodies_leave_what_follows(rt: HostRuntime) -> Result<(), Fail> {
    let alloc = rt.alloc();
    for (head, length) in LONG {
        let body = body_of(alloc, *length)?;
        let stream = stream_of(alloc, *head, &body)?;
        let wanted = [
            Seen::Message {
                body: &body,
                last: false,
            },
            Seen::Message {
                body: b"de",
                last: false,
            },
            Seen::End,
        ];
        assert_reads(&rt, alloc, &stream, &wanted)?;
    }
    Ok(())
}

#[test]
fn a_head_is_whole_within_8192_bytes(rt: HostRuntime) -> Result<(), Fail> {
    let alloc = rt.alloc();
    let mut head = b"GET / HTTP/1.1\r\nA: ".to_vec(alloc)?;
    for _ in head.len()..8_188 {
        head.push(b'a')?;
    }
    head.extend_from_slice(b"\r\n\r")?;
    assert_reads(
        &rt,
        alloc,
        &head,
        &[Seen::Refused(FramingRefusal::CutShort)],
    )?;
    head.push(b'\n')?;
    assert_reads(
        &rt,
        alloc,
        &head,
        &[Seen::Message {
            body: b"",
            last: false,
        }],
    )?;
    head.truncate(8_191);
    head.push(b'\r')?;
    assert_reads(&rt, alloc, &head, &[Seen::Refused(FramingRefusal::BadHead)])?;
    let long = vec![in alloc; b'A'; 8_192]?;
    assert_reads(
        &rt,
        alloc,
        &long,
        &[Seen::Refused(FramingRefusal::HeadTooLarge)],
    )
}

const CUT_BODIES: &[&[u8]] = &[
    b"PUT / HTTP/1.1\r\nContent-Length: 300\r\n\r\nabc",
    b"PUT / HTTP/1.1\r\nContent-Length: 30000\r\n\r\nabc",
];

#[test]
fn a_source_fails_in_a_body(rt: HostRuntime) -> Result<(), Fail> {
    let alloc = rt.alloc();
    for bytes in CUT_BODIES {
        let mut source = MemorySource::new(bytes.to_vec(alloc)?, 64, [2].to_vec(alloc)?);
        assert!(rt;
            reads_all(alloc, &mut source, &[Seen::ReadFault])?,
            "{bytes:?}"
        );
    }
    Ok(())
}
