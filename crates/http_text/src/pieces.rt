// The reply that shows the versions of a key, in pieces.
ghost use Rattle.std.specs.Prelude.{◌≡◌, ◌⊎◌, ◌<◌, ◌≤◌, ◌+◌, ◌++◌, ℕ, List, [], length, take, drop};
ghost use Rattle.std.specs.Prelude.{◌-◌, ◌^◌, MatchOption, IfSome, IfNone, OnSome, Ok};
ghost use Rattle.office_types.specs.declared.reply.Reply.TheVariants.{StackShown};
ghost use Rattle.http_text.specs.Pieces.{first_text, later_text, rest_text, front_text, pieces_left, pieces_count, left_count, Begins};
ghost use Rattle.http_text.specs.Replies.{answer_text, body_text, head_text};
ghost use Rattle.http_text.specs.Room.{Puts};

use crate::members::put_moment;
use crate::printing::put_head;
use crate::room::{put, put_quoted};
use crate::stack_body::{put_next, put_stack, put_version};
use http::StatusCode;
use office_base::Key;
use stacks::{Stack, Version};

/// The room that a piece needs, in bytes.
pub const PIECE_ROOM: usize = 131_072;

// From how many bytes on a piece takes no further version.
const FULL: usize = 32_768;

// What is left of a reply: all of it, or its last versions, or nothing.
#[derive(Clone, Copy, Drop)]
enum Left<'a> {
    All,
    Later(&'a [Version]),
    Nothing,
}

/// The reply that shows the versions of a key, printed piece by piece: a piece has some 32 KiB, and at most what one
/// version takes beyond.
#[derive(Clone, Copy, Drop)]
pub struct StackPieces<'a> {
    key: &'a Key,
    stack: &'a Stack,
    size: usize,
    left: Left<'a>,
}

// Writes the current version, if there is one.
#[tactic(auto, using(crate::proofs::RoomLemmas::puts_nothing))]
fn put_first(room: &mut [u8], at: usize, versions: &[Version]) -> usize
    ensures puts { Puts room.old at room.new result (first_text versions.now) }
    ensures small { length (first_text versions.now) ≤ 94_000 }
{
    match versions {
        [] => at,
        [current, ..] => put_version(room, at, current, None),
    }
}

// Writes the head, and the body up to the current version.
fn put_front(room: &mut [u8], key: &Key, stack: &Stack, size: usize) -> usize
    ensures puts { Puts room.old 0 room.new result (head_text 200 size ++ front_text key.now stack.now) }
    ensures small { length (head_text 200 size ++ front_text key.now stack.now) ≤ 102_000 }
{
    let at = put_head(room, 0, StatusCode::OK, size);
    let at = put_moment(room, at, b"{\"changed\":", stack.changed().ms());
    let at = put(room, at, b",\"key\":");
    let at = put_quoted(room, at, key.bytes());
    let at = put(room, at, b",\"versions\":[");
    put_first(room, at, stack.versions())
}

// The versions after the current one.
fn noncurrent(versions: &[Version]) -> &[Version]
    ensures { result.now ≡ drop 1 versions.now }
{
    match versions {
        [] => versions,
        [_, noncurrent @ ..] => noncurrent,
    }
}

// Writes noncurrent versions into a room from an index on, until the piece is full. Returns where it ends, and the
// versions left.
fn put_some<'a>(room: &mut [u8], at: usize, versions: &'a [Version]) -> (usize, &'a [Version])
    ensures text { (whole : List ℕ) → Begins room.old at 102_000 (rest_text versions.now) whole
        → Begins room.new result.0 127_000 (rest_text result.1.now) whole }
    ensures fewer { (length result.1.now < length versions.now) ⊎ ((result.1.now ≡ []) ⊎ (32_768 ≤ at)) }
    ensures within { length result.1.now ≤ length versions.now }
{
    let mut at = at;
    let mut left = versions;
    'versions: while at < FULL {
        let [version, rest @ ..] = left else {
            return (at, left);
        };
        at = put_next(room, at, version);
        left = rest;
    }
    (at, left)
}

impl<'a> StackPieces<'a> {
    /// Makes the pieces of the reply that shows the versions of a key. None if its body has 2^64 - 1 bytes or more.
    ///
    /// Cost: one pass over the versions; no memory.
    pub fn new(key: &'a Key, stack: &'a Stack) -> Option<StackPieces<'a>>
        ensures text { IfSome result (λ pieces. pieces_left pieces ≡ answer_text (Ok (StackShown key.now stack.now))) }
        ensures none { IfNone result (2 ^ 64 - 1 ≤ length (body_text (Ok (StackShown key.now stack.now)))) }
    {
        let size = put_stack(&mut [], 0, key, stack);
        if size == usize::MAX {
            return None;
        }
        Some(StackPieces {
            key,
            stack,
            size,
            left: Left::All,
        })
    }

    // Writes noncurrent versions into a room from an index on, and the end if there are no more. Returns where the piece
    // ends.
    fn fill(&mut self, room: &mut [u8], at: usize, versions: &'a [Version]) -> usize
        ensures text { (whole : List ℕ) → 131_072 ≤ length room.old
            → Begins room.old at 102_000 (rest_text versions.now) whole
            → (whole ≡ take result room.new ++ pieces_left self.new) }
        ensures within { (whole : List ℕ) → 131_072 ≤ length room.old
            → Begins room.old at 102_000 (rest_text versions.now) whole → (result ≤ length room.new) }
        ensures fewer { (pieces_count self.new < length versions.now + 1) ⊎ (32_768 ≤ at) }
        ensures not_more { pieces_count self.new ≤ length versions.now + 1 }
    {
        let (at, left) = put_some(room, at, versions);
        if left.is_empty() {
            self.left = Left::Nothing;
            put(room, at, b"]}")
        } else {
            self.left = Left::Later(left);
            at
        }
    }

    /// Prints the next piece to the front of a room, and returns how many bytes it has. None if nothing is left. Takes
    /// no memory.
    pub fn next(&mut self, room: &mut [u8]) -> Option<usize>
        requires room { 131_072 ≤ length room.old }
        ensures text { MatchOption result (pieces_left self.old ≡ [])
            (λ size. pieces_left self.old ≡ take size room.new ++ pieces_left self.new) }
        ensures within { IfSome result (λ size. size ≤ length room.new) }
        ensures fewer { OnSome result (pieces_count self.new < pieces_count self.old) }
    {
        match self.left {
            Left::All => {
                let at = put_front(room, self.key, self.stack, self.size);
                Some(self.fill(room, at, noncurrent(self.stack.versions())))
            }
            Left::Later(versions) => Some(self.fill(room, 0, versions)),
            Left::Nothing => None,
        }
    }
}
