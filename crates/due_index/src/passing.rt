// Which noncurrent versions of a key a search may pass over.
ghost use Rattle.std.specs.Prelude.{◌≡◌, ◌≤◌, ◌<◌, ℕ, length, true, false, Some, slice_get, IfSome};
ghost use Rattle.stacks.specs.Ceasing.{cease_in_order};
ghost use Rattle.stacks.specs.declared.version.Version.{Version as VersionRecord};
ghost use Rattle.due_index.specs.Blocks.{IsPassed, AreClear, is_marked};

use crate::blocks::{Block, Blocks};
use due_core::ActionKind;
use moments::Moment;
use stacks::{Stack, Version};

/// Where a search goes on: how many versions are left, and until which moment, in milliseconds, the marks need not be
/// read again.
#[derive(Clone, Copy)]
pub(crate) struct Pass {
    pub(crate) left: usize,
    pub(crate) until: u64,
}

// Finds the first block that ends at a moment or after it; how many there are if none does.
fn first_block(blocks: &[Block], ceased: Moment) -> usize {
    blocks.partition_point(|block| block.until.ms() < ceased.ms())
}

// The version at this place, newest first, is the first one that ceased until a moment, if they ceased in order.
fn is_first_until(versions: &[Version], place: usize, until: Moment) -> bool
    ensures some { result ≡ true → 1 ≤ place }
    ensures until { (version : VersionRecord) → result ≡ true → slice_get versions.now place ≡ Some version
        → version.ceased ≤ until }
{
    place > 0
        && place < versions.len()
        && versions[place - 1].ceased.ms() > until.ms()
        && versions[place].ceased.ms() <= until.ms()
}

// Counts the versions, newest first, that are left after those that ceased until a moment. Tries a guess first.
fn left_after(versions: &[Version], left: usize, until: Moment, guess: usize) -> usize
    requires some { 1 ≤ left }
    requires within { left ≤ length versions.now }
    ensures some { 1 ≤ result }
    ensures fewer { result ≤ left }
    ensures until { (version : VersionRecord) → result < left → slice_get versions.now result ≡ Some version
        → version.ceased ≤ until }
{
    if guess < left && is_first_until(versions, guess, until) {
        return guess;
    }
    let found = versions[1..left].partition_point(|version| version.ceased.ms() > until.ms()) + 1;
    if found < left && versions[found].ceased.ms() <= until.ms() {
        found
    } else {
        left
    }
}

// Goes on from a block that does not take this kind of step of the rule at this place, as long as the next one begins
// where the last one ends and does not take it either. Gives the place of the last such block.
fn last_clear(blocks: &[Block], first: usize, place: usize, kind: ActionKind) -> usize
    requires within { first < length blocks.now }
    requires clear { IfSome (slice_get blocks.now first) (λ block. is_marked block.marks place kind ≡ false) }
    requires few { place ≤ 1_000 }
    ensures from { first ≤ result }
    ensures within { result < length blocks.now }
    ensures clear { AreClear blocks.now first result place kind }
{
    let mut last = first;
    while last + 1 < blocks.len()
        && blocks[last].is_joined_by(&blocks[last + 1])
        && !blocks[last + 1].is_marked(place, kind)
    {
        last += 1;
    }
    last
}

// Passes over the oldest versions that are left, as far as the blocks say that they do not take this kind of step of
// the rule at this place.
fn passed(blocks: &Blocks, of_key: &Stack, left: usize, place: usize, kind: ActionKind) -> Pass
    requires order { cease_in_order of_key.now.changed of_key.now.versions ≡ true }
    requires some { 1 ≤ left }
    requires within { left ≤ length of_key.now.versions }
    requires few { place ≤ 1_000 }
    ensures some { 1 ≤ result.left }
    ensures fewer { result.left ≤ left }
    ensures passed { (j : ℕ) (version : VersionRecord) → result.left ≤ j → j < left
        → slice_get of_key.now.versions j ≡ Some version → IsPassed blocks.now place kind version }
{
    let versions = of_key.versions();
    let mut left = left;
    let mut at = first_block(&blocks.list, versions[left - 1].ceased);
    while left > 1 && at < blocks.list.len() {
        let block = &blocks.list[at];
        let oldest = versions[left - 1].ceased;
        if !block.has(oldest) {
            return Pass {
                left,
                until: oldest.ms(),
            };
        }
        if block.is_marked(place, kind) {
            return Pass {
                left,
                until: block.until.ms(),
            };
        }
        let last = last_clear(&blocks.list, at, place, kind);
        let end = &blocks.list[last];
        let guess = versions.len().saturating_sub(end.end);
        left = left_after(versions, left, end.until, guess);
        at = last + 1;
    }
    Pass {
        left,
        until: u64::MAX,
    }
}

/// Passes over the oldest versions that are left, if they ceased in order and the marks were not read yet for the
/// oldest one.
pub(crate) fn passed_from(
    at: Pass,
    oldest: Moment,
    in_order: bool,
    blocks: &Blocks,
    of_key: &Stack,
    place: usize,
    kind: ActionKind,
) -> Pass
    requires order { in_order ≡ true → cease_in_order of_key.now.changed of_key.now.versions ≡ true }
    requires some { 1 ≤ at.left }
    requires within { at.left ≤ length of_key.now.versions }
    requires few { place ≤ 1_000 }
    ensures some { 1 ≤ result.left }
    ensures fewer { result.left ≤ at.left }
    ensures passed { (j : ℕ) (version : VersionRecord) → result.left ≤ j → j < at.left
        → slice_get of_key.now.versions j ≡ Some version → IsPassed blocks.now place kind version }
{
    if in_order && oldest.ms() > at.until {
        passed(blocks, of_key, at.left, place, kind)
    } else {
        at
    }
}
