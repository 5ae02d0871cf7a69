// Replies, printed into a room or into memory.
ghost use Rattle.std.specs.Prelude.{◌≡◌, ◌<◌, ◌≤◌, ◌^◌, ◌++◌, true, false, [], length, unwrap_or, Ok, IfOk};
ghost use Rattle.http.specs.StatusCode.{reason_phrase};
ghost use Rattle.office_types.specs.Fits.{AnswerFits};
ghost use Rattle.office_types.specs.declared.reply.Reply.TheVariants.{RulesShown, Report};
ghost use Rattle.office_types.specs.Reports.{charges};
ghost use Rattle.http_text.specs.Replies.{answer_text, body_text, head_text, head_with};
ghost use Rattle.http_text.specs.Replies.{refusal_status, reply_status, status_of};
ghost use Rattle.http_text.specs.Room.{Puts};
ghost use Rattle.http_text.specs.Shorts.{IsInParts, IsShort, IsShortReply};

use crate::body::put_body;
use crate::room::{put, put_number};
use http::StatusCode;
use office_base::NoMemory;
use office_types::{Refusal, Reply, ReportLine};
use rules_core::RuleSet;
use rules_json::print_rules;
use std::alloc::Global;
use usage_report::report_csv;

fn reply_status(reply: &Reply) -> StatusCode
    ensures { result ≡ reply_status reply.now }
{
    match reply {
        Reply::BucketMade { .. } | Reply::Stored { .. } | Reply::UploadStarted { .. } => {
            StatusCode::CREATED
        }
        _ => StatusCode::OK,
    }
}

fn refusal_status(refusal: &Refusal) -> StatusCode
    ensures { result ≡ refusal_status refusal.now }
{
    match refusal {
        Refusal::NoSuchBucket
        | Refusal::NoRules
        | Refusal::NoSuchKey
        | Refusal::NoSuchVersion
        | Refusal::NoSuchUpload => StatusCode::NOT_FOUND,
        Refusal::BucketExists
        | Refusal::NotEnabledBefore
        | Refusal::IsMarker
        | Refusal::BadPart
        | Refusal::NoParts
        | Refusal::MonthNotOver { .. }
        | Refusal::AlreadyClosed
        | Refusal::EarlierMonthOpen { .. }
        | Refusal::NoTariff
        | Refusal::DueActions { .. }
        | Refusal::ClockEnd { .. }
        | Refusal::TokenReused { .. } => StatusCode::CONFLICT,
        Refusal::Full { .. } => StatusCode::INSUFFICIENT_STORAGE,
        Refusal::NoMemory => StatusCode::INTERNAL_SERVER_ERROR,
    }
}

fn status(answer: &Result<Reply, Refusal>) -> StatusCode
    ensures { result ≡ status_of answer.now }
{
    match answer {
        Ok(reply) => reply_status(reply),
        Err(refusal) => refusal_status(refusal),
    }
}

/// The phrase of a status; empty if it has none.
fn phrase(status: StatusCode) -> &'static str
    ensures { result.now ≡ unwrap_or (reason_phrase status) [] }
{
    match status.canonical_reason() {
        Some(phrase) => phrase,
        None => "",
    }
}

fn put_head_with(room: &mut [u8], at: usize, media: &str, status: StatusCode, size: usize) -> usize
    ensures { Puts room.old at room.new result (head_with media.now status size) }
{
    let at = put(room, at, b"HTTP/1.1 ");
    let at = put_number(room, at, u64::from(status.as_u16()));
    let at = put(room, at, b" ");
    let at = put(room, at, phrase(status).as_bytes());
    let at = put(room, at, b"\r\ncontent-type: ");
    let at = put(room, at, media.as_bytes());
    let at = put(room, at, b"\r\ncontent-length: ");
    let at = put_number(room, at, size as u64);
    put(room, at, b"\r\n\r\n")
}

/// Writes the head of a reply with a JSON body of `size` bytes, and returns the index after it.
#[tactic(auto, unfolding(crate::specs::Replies::head_text))]
pub fn put_head(room: &mut [u8], at: usize, status: StatusCode, size: usize) -> usize
    ensures { Puts room.old at room.new result (head_text status size) }
{
    put_head_with(room, at, "application/json", status, size)
}

// Writes a reply whose body is a finished text.
fn put_text_reply(room: &mut [u8], media: &str, body: &[u8]) -> usize
    ensures { Puts room.old 0 room.new result (head_with media.now 200 (length body.now) ++ body.now) }
{
    let at = put_head_with(room, 0, media, StatusCode::OK, body.len());
    put(room, at, body)
}

// The number of bytes of a body.
#[tactic(auto, using(crate::proofs::Whole::counted, crate::proofs::Whole::short_in_parts))]
fn size_of(answer: &Result<Reply, Refusal>) -> usize
    requires fits { AnswerFits answer.now }
    requires short { IsShort answer.now }
    ensures same { result ≡ length (body_text answer.now) }
    ensures small { length (body_text answer.now) ≤ 16_000 }
{
    put_body(&mut [], 0, answer)
}

/// Whether the reply to an answer always fits in 16,384 bytes. This holds for refusals and replies to commands. Of the
/// replies to queries it holds for a bucket, its meters of at most six classes, and the lifecycle action that is due.
pub fn is_short(answer: &Result<Reply, Refusal>) -> bool
    ensures short { result ≡ true → IsShort answer.now }
    ensures long { result ≡ false → ¬ (IsShort answer.now) }
{
    match answer {
        Ok(reply) => is_short_reply(reply),
        Err(_) => true,
    }
}

fn is_short_reply(reply: &Reply) -> bool
    ensures short { result ≡ true → IsShortReply reply.now }
    ensures long { result ≡ false → ¬ (IsShortReply reply.now) }
{
    match reply {
        Reply::RulesShown { .. }
        | Reply::StackShown { .. }
        | Reply::UploadShown { .. }
        | Reply::TariffShown { .. }
        | Reply::Report { .. } => false,
        Reply::MetersShown { classes, .. } => classes.as_slice().len() <= 6,
        _ => true,
    }
}

/// Writes the reply to a short answer to the front of a room, as far as it fits, and returns the length of the reply in
/// bytes. Takes no memory; 16,384 bytes of room are always enough.
#[tactic(auto, using(crate::proofs::Whole::short_in_parts))]
pub fn put_answer(room: &mut [u8], answer: &Result<Reply, Refusal>) -> usize
    requires fits { AnswerFits answer.now }
    requires short { IsShort answer.now }
    ensures puts { Puts room.old 0 room.new result (answer_text answer.now) }
    ensures small { length (answer_text answer.now) ≤ 16384 }
{
    let at = put_head(room, 0, status(answer), size_of(answer));
    put_body(room, at, answer)
}

// Writes the reply to an answer whose body has `size` bytes.
fn put_sized(room: &mut [u8], answer: &Result<Reply, Refusal>, size: usize) -> usize
    requires fits { AnswerFits answer.now }
    requires in_parts { IsInParts answer.now }
    ensures { Puts room.old 0 room.new result (head_text (status_of answer.now) size ++ body_text answer.now) }
{
    let at = put_head(room, 0, status(answer), size);
    put_body(room, at, answer)
}

// Prints an answer from its parts: first it counts them, then it writes them.
fn print_parts(alloc: Global, answer: &Result<Reply, Refusal>) -> Result<Vec<u8>, NoMemory>
    requires fits { AnswerFits answer.now }
    requires in_parts { IsInParts answer.now }
    ensures text { IfOk result (λ v. v.items ≡ answer_text answer.now) }
{
    let size = put_body(&mut [], 0, answer);
    let whole = put_sized(&mut [], answer, size);
    let Ok(mut text) = vec![in alloc; 0u8; whole] else {
        return Err(NoMemory);
    };
    put_sized(text.as_mut_slice(), answer, size);
    Ok(text)
}

// Prints a reply whose body is a finished text.
fn print_text(alloc: Global, media: &str, body: &[u8]) -> Result<Vec<u8>, NoMemory>
    ensures text { IfOk result (λ v. v.items ≡ head_with media.now 200 (length body.now) ++ body.now) }
{
    let whole = put_text_reply(&mut [], media, body);
    let mut text = vec![in alloc; 0u8; whole]?;
    put_text_reply(text.as_mut_slice(), media, body);
    Ok(text)
}

fn print_configuration(alloc: Global, rules: &RuleSet) -> Result<Vec<u8>, NoMemory>
    ensures text { IfOk result (λ v. v.items ≡ answer_text (Ok (RulesShown rules.now))) }
{
    let body = print_rules(alloc, rules)?;
    print_text(alloc, "application/json", body.as_bytes())
}

fn print_report(alloc: Global, lines: &[ReportLine]) -> Result<Vec<u8>, NoMemory>
    requires { charges lines.now < 2 ^ 128 }
    ensures text { IfOk result (λ v. v.items ≡ answer_text (Ok (Report lines.now))) }
{
    let body = report_csv(alloc, lines)?;
    print_text(alloc, "text/csv", &body)
}

/// Prints the reply to any answer into memory of exactly its size.
///
/// Cost: two passes over what the answer holds, one to count and one to write. A lifecycle configuration and a report
/// are first printed as texts of their own, which are copied once and held beside the reply meanwhile.
///
/// # Errors
///
/// `NoMemory`: memory ran out.
pub fn print_answer(alloc: Global, answer: &Result<Reply, Refusal>) -> Result<Vec<u8>, NoMemory>
    requires fits { AnswerFits answer.now }
    ensures text { IfOk result (λ v. v.items ≡ answer_text answer.now) }
{
    match answer {
        Ok(Reply::RulesShown { rules }) => print_configuration(alloc, rules),
        Ok(Reply::Report { lines }) => print_report(alloc, lines.as_slice()),
        _ => print_parts(alloc, answer),
    }
}
