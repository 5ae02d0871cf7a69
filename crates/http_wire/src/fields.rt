// The fields that frame a message (RFC 9112, "Message Body Length" and "Persistence").
ghost use Rattle.std.specs.Prelude.{ℕ, ◌≡◌, ◌-◌, ◌^◌, ◌&&◌, ◌||◌, ◌==◌, length, map, min, All, codes};
ghost use Rattle.std.specs.Prelude.{option_map};
ghost use Rattle.std.specs.List.{list_any};
ghost use Rattle.httparse.specs.Grammar.{RequestHead};
ghost use Rattle.httparse.specs.Spans.{IsHeaderWithin, header_bytes, name_and_value, span_bytes};
ghost use Rattle.http_wire.specs.Messages.{same_word, number_of, is_last, token_fields};
ghost use Rattle.http_wire.specs.Framing.{Frames, values_named, found_of};
ghost use Rattle.http_wire.specs.Parts.{IsFound, LiesIn};

use crate::framing::FramingRefusal;
use httparse::spans::{HeaderSpan, Span};

/// The most bytes that a body has.
const BODY_ROOM: u64 = 1_048_576;

/// The fields of one name.
#[derive(Clone, Copy)]
pub enum Found {
    /// There is none.
    Absent,
    /// There is one. This is where its value is in the buffer.
    Once(Span),
    /// There are several.
    Repeated,
}

/// Whether the texts are the same, regardless of ASCII case.
fn is_word(text: &[u8], word: &[u8]) -> bool
    ensures { result ≡ same_word text.now word.now }
{
    text.eq_ignore_ascii_case(word)
}

/// Whether the field has this name.
fn has_name(bytes: &[u8], header: HeaderSpan, name: &[u8]) -> bool
    requires within { IsHeaderWithin (length bytes.now) header }
    ensures { result ≡ same_word (span_bytes bytes.now header.name) name.now }
{
    is_word(header.name.of(bytes), name)
}

/// Looks for the fields of a name.
fn named(bytes: &[u8], headers: &[HeaderSpan], name: &[u8]) -> Found
    requires within { All (IsHeaderWithin (length bytes.now)) headers.now }
    ensures { result ≡ found_of (values_named bytes.now name.now headers.now) }
{
    let mut found = Found::Absent;
    for header in headers {
        if has_name(bytes, *header, name) {
            found = match found {
                Found::Absent => Found::Once(header.value),
                _ => Found::Repeated,
            };
        }
    }
    found
}

/// The number that one or more digits spell; the greatest u64 if it is greater.
fn number(text: &[u8]) -> Option<u64>
    ensures { result ≡ option_map (λ n. min n (2 ^ 64 - 1)) (number_of text.now) }
{
    if text.is_empty() {
        return None;
    }
    let mut number: u64 = 0;
    for byte in text {
        if !byte.is_ascii_digit() {
            return None;
        }
        number = number
            .saturating_mul(10)
            .saturating_add(u64::from(*byte - b'0'));
    }
    Some(number)
}

/// How many bytes the body has after a head with these fields.
///
/// # Errors
///
/// `ChunkedBody`: there is a field Transfer-Encoding. `BadHead`: there are two fields Content-Length, or the value of
/// the one is not a number. `BodyTooLarge`: it is above 1,048,576 bytes.
pub(crate) fn body_size(bytes: &[u8], headers: &[HeaderSpan]) -> Result<usize, FramingRefusal>
    requires within { All (IsHeaderWithin (length bytes.now)) headers.now }
    ensures { (h : RequestHead) → map (header_bytes bytes.now) headers.now ≡ map name_and_value h.fields
        → Frames h result }
{
    match named(bytes, headers, b"Transfer-Encoding") {
        Found::Absent => {}
        _ => return Err(FramingRefusal::ChunkedBody),
    }
    let value = match named(bytes, headers, b"Content-Length") {
        Found::Absent => return Ok(0),
        Found::Once(value) => value,
        Found::Repeated => return Err(FramingRefusal::BadHead),
    };
    match number(value.of(bytes)) {
        Some(size) if size <= BODY_ROOM => Ok(size as usize),
        Some(_) => Err(FramingRefusal::BodyTooLarge),
        None => Err(FramingRefusal::BadHead),
    }
}

/// Looks for the fields that carry a token.
pub(crate) fn token_of(bytes: &[u8], headers: &[HeaderSpan]) -> Found
    requires within { All (IsHeaderWithin (length bytes.now)) headers.now }
    ensures is { (h : RequestHead) → map (header_bytes bytes.now) headers.now ≡ map name_and_value h.fields
        → IsFound bytes.now result (token_fields h) }
    ensures lies { (n : ℕ) → All (IsHeaderWithin n) headers.now → LiesIn n result }
{
    named(bytes, headers, b"Office-Token")
}

/// Whether the field is Connection, with the value `close`.
fn closes(bytes: &[u8], header: HeaderSpan) -> bool
    requires within { IsHeaderWithin (length bytes.now) header }
    ensures { result
        ≡ (same_word (span_bytes bytes.now header.name) (codes "Connection")
        && same_word (span_bytes bytes.now header.value) (codes "close")) }
{
    has_name(bytes, header, b"Connection") && is_word(header.value.of(bytes), b"close")
}

/// Whether a message of this version and with these fields is the last of its session.
pub(crate) fn is_closing(bytes: &[u8], version: u8, headers: &[HeaderSpan]) -> bool
    requires within { All (IsHeaderWithin (length bytes.now)) headers.now }
    ensures { (h : RequestHead) → version ≡ h.minor
        → map (header_bytes bytes.now) headers.now ≡ map name_and_value h.fields → result ≡ is_last h }
{
    version == 0 || any_closes(bytes, headers)
}

/// Whether one of the fields is Connection, with the value `close`.
fn any_closes(bytes: &[u8], headers: &[HeaderSpan]) -> bool
    requires within { All (IsHeaderWithin (length bytes.now)) headers.now }
    ensures { result
        ≡ list_any (λ h. same_word (span_bytes bytes.now h.name) (codes "Connection")
        && same_word (span_bytes bytes.now h.value) (codes "close")) headers.now }
{
    for header in headers {
        if closes(bytes, *header) {
            return true;
        }
    }
    false
}
