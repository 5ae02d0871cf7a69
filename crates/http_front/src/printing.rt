// Replies to messages that were asked, printed without memory or into a room of their own.
ghost use Rattle.std.specs.Prelude.{◌≡◌, ◌<◌, ◌≤◌, ◌^◌, length, take, IfOk, OnOk, OnErr, IsOk};
ghost use Rattle.http_text.specs.Room.{Puts};
ghost use Rattle.http_text.specs.Replies.{answer_text};
ghost use Rattle.http_text.specs.Shorts.{IsShort};
ghost use Rattle.http_front.specs.Texts.{damaged_text, fault_body, fault_status, fault_text, open_body, open_status};

use desk_core::{Acked, DeskFault};
use http::StatusCode;
use http_text::{print_answer, put, put_answer, put_error, put_head, put_number, room_len};
use meter_journal::OpenFault;
use office_base::NoMemory;
use std::alloc::Global;

/// The room is shorter than the text.
#[derive(Clone, Copy, Debug, PartialEq, Eq)]
pub struct NoRoom;

fn open_status(fault: OpenFault) -> StatusCode
    ensures { result ≡ open_status fault }
{
    match fault {
        OpenFault::StoreFault => StatusCode::SERVICE_UNAVAILABLE,
        _ => StatusCode::INTERNAL_SERVER_ERROR,
    }
}

fn fault_status(fault: &DeskFault) -> StatusCode
    ensures { result ≡ fault_status fault.now }
{
    match fault {
        DeskFault::StoreFault { .. } => StatusCode::SERVICE_UNAVAILABLE,
        DeskFault::JournalFull => StatusCode::INSUFFICIENT_STORAGE,
        DeskFault::Broken(fault) => open_status(*fault),
        DeskFault::NoMemory => StatusCode::INTERNAL_SERVER_ERROR,
    }
}

#[tactic(auto, using(crate::proofs::PrintLemmas::damaged_small))]
fn put_damaged(room: &mut [u8], at: usize, offset: u64) -> usize
    ensures puts { Puts room.old at room.new result (damaged_text offset) }
    ensures small { length (damaged_text offset) ≤ 16_000 }
{
    let at = put(room, at, b"{\"error\":\"Damaged\",\"number\":");
    let at = put_number(room, at, 112);
    let at = put(room, at, b",\"offset\":");
    let at = put_number(room, at, offset);
    put(room, at, b"}")
}

fn put_open(room: &mut [u8], at: usize, fault: OpenFault) -> usize
    ensures puts { Puts room.old at room.new result (open_body fault) }
    ensures small { length (open_body fault) ≤ 16_000 }
{
    match fault {
        OpenFault::NotMade => put_error(room, at, "NotMade", 110),
        OpenFault::Foreign => put_error(room, at, "Foreign", 111),
        OpenFault::Damaged { offset } => put_damaged(room, at, offset),
        OpenFault::StoreFault => put_error(room, at, "StoreFault", 114),
        OpenFault::NoMemory => put_error(room, at, "NoMemory", 115),
    }
}

fn put_fault_body(room: &mut [u8], at: usize, fault: &DeskFault) -> usize
    ensures puts { Puts room.old at room.new result (fault_body fault.now) }
    ensures small { length (fault_body fault.now) ≤ 16_000 }
{
    match fault {
        DeskFault::StoreFault { .. } => put_error(room, at, "StoreFault", 114),
        DeskFault::JournalFull => put_error(room, at, "JournalFull", 113),
        DeskFault::Broken(fault) => put_open(room, at, *fault),
        DeskFault::NoMemory => put_error(room, at, "NoMemory", 115),
    }
}

// The bytes of the body.
#[tactic(auto, using(http_text::proofs::Whole::counted))]
fn body_size(fault: &DeskFault) -> usize
    ensures same { result ≡ length (fault_body fault.now) }
    ensures small { length (fault_body fault.now) ≤ 16_000 }
{
    put_fault_body(&mut [], 0, fault)
}

// Writes the reply at the front of a room, as far as the room goes, and answers how many bytes it has.
fn put_fault(room: &mut [u8], fault: &DeskFault) -> usize
    ensures puts { Puts room.old 0 room.new result (fault_text fault.now) }
    ensures small { length (fault_text fault.now) ≤ 16384 }
{
    let at = put_head(room, 0, fault_status(fault), body_size(fault));
    put_fault_body(room, at, fault)
}

// Whether a text that ends there fits the room.
fn ended(room: &[u8], end: usize) -> Result<usize, NoRoom>
    ensures ok { IfOk result (λ size. (size ≡ end) × (end ≤ length room.now)) }
    ensures err { OnErr result (length room.now < end) }
    ensures short { length room.now < 2 ^ 63 }
{
    if end <= room_len(room) {
        Ok(end)
    } else {
        Err(NoRoom)
    }
}

/// Prints the reply of a short answer to the front of a room, and answers how many bytes it has: every answer to a
/// command is short. Takes no memory; 16,384 bytes of room are always enough.
///
/// # Errors
///
/// `NoRoom`: the room is shorter than the text.
pub fn print_reply(room: &mut [u8], acked: &Acked) -> Result<usize, NoRoom>
    requires short { IsShort acked.now.reply }
    ensures text { IfOk result (λ size. (size ≡ length (answer_text acked.now.reply))
        × (take size room.new ≡ answer_text acked.now.reply)) }
    ensures fits { OnOk result (length (answer_text acked.now.reply) ≤ length room.old) }
    ensures no_room { OnErr result (length room.old < length (answer_text acked.now.reply)) }
    ensures enough { 16384 ≤ length room.old → IsOk result }
{
    let end = put_answer(room, acked.reply());
    ended(room, end)
}

/// Prints the reply of any answer into memory of exactly its size.
///
/// Cost: two passes over what the answer holds.
///
/// # Errors
///
/// `NoMemory`: memory ran out.
pub fn print_query(alloc: Global, acked: &Acked) -> Result<Vec<u8>, NoMemory>
    ensures text { IfOk result (λ v. v.items ≡ answer_text acked.now.reply) }
{
    print_answer(alloc, acked.reply())
}

/// Prints the reply of a call without an answer of the office to the front of a room, and answers how many bytes it
/// has. Takes no memory; 16,384 bytes of room are always enough.
///
/// # Errors
///
/// `NoRoom`: the room is shorter than the text.
pub fn print_fault(room: &mut [u8], fault: &DeskFault) -> Result<usize, NoRoom>
    ensures text { IfOk result (λ size. (size ≡ length (fault_text fault.now))
        × (take size room.new ≡ fault_text fault.now)) }
    ensures fits { OnOk result (length (fault_text fault.now) ≤ length room.old) }
    ensures no_room { OnErr result (length room.old < length (fault_text fault.now)) }
    ensures enough { 16384 ≤ length room.old → IsOk result }
{
    let end = put_fault(room, fault);
    ended(room, end)
}

// Prints the same into memory of exactly its size.
pub(crate) fn print_call(alloc: Global, fault: &DeskFault) -> Result<Vec<u8>, NoMemory>
    ensures text { IfOk result (λ v. v.items ≡ fault_text fault.now) }
{
    let size = put_fault(&mut [], fault);
    let mut text = vec![in alloc; 0u8; size]?;
    put_fault(text.as_mut_slice(), fault);
    Ok(text)
}
