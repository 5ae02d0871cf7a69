// The head of a request at the front of some bytes.
ghost use Rattle.std.specs.Prelude.{◌≡◌, ◌↔◌, ◌<◌, ◌≤◌, length, take, slice_index, IsTrue, IsFalse, IfSome, IsNone};
ghost use Rattle.std.specs.List.{list_all};
ghost use Rattle.httparse.specs.Grammar.{EndsInTarget, AllPass, HasNoRequest, NeverHasRequest, is_uri_byte};
ghost use Rattle.http_wire.specs.Heads.{no_space};
ghost use Rattle.httparse.specs.Spans.{IsRequestOf, IsRequestWithin};
ghost use Rattle.http_wire.specs.Heads.{IsHopeless, IsOpen, OnWhole};

use httparse::spans::{HeaderSpan, RequestSpans, parse_request};
use httparse::{Status, is_uri_token};

/// What some bytes begin with.
pub enum Front {
    /// A whole head.
    Whole(RequestSpans),
    /// The beginning of a head, which further bytes may complete.
    Open,
    /// Neither, whatever bytes follow.
    Hopeless,
}

/// Looks for a head at the front of at most 8,192 bytes.
pub fn front_of(bytes: &[u8], spans: &mut [HeaderSpan]) -> Front
    requires room { 4096 ≤ length spans.old }
    requires short { length bytes.now ≤ 8192 }
    ensures whole { OnWhole result (IsRequestOf bytes.now spans.new) }
    ensures within { OnWhole result (IsRequestWithin bytes.now spans.new) }
    ensures open { result ≡ Front.Open → IsOpen bytes.now }
    ensures hopeless { result ≡ Front.Hopeless → IsHopeless bytes.now }
{
    match parse_request(bytes, spans) {
        Ok(Status::Complete(head)) => Front::Whole(head),
        Ok(Status::Partial) => Front::Open,
        Err(_) => {
            if ends_in_target(bytes, spans) {
                Front::Open
            } else {
                Front::Hopeless
            }
        }
    }
}

/// Whether the bytes end inside a request's target.
fn ends_in_target(bytes: &[u8], spans: &mut [HeaderSpan]) -> bool
    requires room { 4096 ≤ length spans.old }
    requires short { length bytes.now ≤ 8192 }
    ensures { IsTrue result ↔ EndsInTarget bytes.now }
{
    match first_space(bytes) {
        Some(space) => {
            is_partial(&bytes[..space + 1], spans) && all_in_target(&bytes[space + 1..])
        }
        None => false,
    }
}

/// Whether the bytes are the beginning of a head.
fn is_partial(bytes: &[u8], spans: &mut [HeaderSpan]) -> bool
    requires room { 4096 ≤ length spans.old }
    requires short { length bytes.now ≤ 8192 }
    ensures yes { IsTrue result → IsOpen bytes.now }
    ensures no { IsFalse result → HasNoRequest bytes.now → NeverHasRequest bytes.now }
{
    matches!(parse_request(bytes, spans), Ok(Status::Partial))
}

/// Where the first space is.
fn first_space(bytes: &[u8]) -> Option<usize>
    ensures found { IfSome result (λ at. (at < length bytes.now) × (slice_index bytes.now at ≡ 32)
        × AllPass no_space (take at bytes.now)) }
    ensures none { IsNone result → AllPass no_space bytes.now }
{
    bytes.iter().position(|b| *b == b' ')
}

/// Whether every byte is allowed in a target.
fn all_in_target(bytes: &[u8]) -> bool
    ensures { result ≡ list_all is_uri_byte bytes.now }
{
    bytes.iter().all(|b| is_uri_token(*b))
}
