// Keeping the blocks of a key right.
ghost use Rattle.std.specs.Prelude.{◌≡◌, ◌≤◌, ◌<◌, ◌+◌, ℕ, length, true, IfSome, All, Some, slice_get, option_copied};
ghost use Rattle.office_base.specs.declared.version_id.VersionId.{VersionId as Id};
ghost use Rattle.stacks.specs.declared.version.Version.{Version as VersionRecord};
ghost use Rattle.stacks.specs.Ceasing.{cease_in_order};
ghost use Rattle.stacks.specs.Stacks.{version_at};
ghost use Rattle.due_index.specs.Blocks.{IsRightFor, AreRight, AreRightBut, HasSpan, but_first};

use crate::blocks::{Block, Blocks, block_of, clear, mark};
use moments::Moment;
use office_base::{Key, VersionId};
use rules_core::{Rule, SizeMode, matches_upload};
use stacks::{Stack, Version};
use std::alloc::Global;

// A block is made of this many versions; the last one, of the newest versions, has fewer and grows.
const SIZE: usize = 256;

/// A key with at most this many versions has no blocks.
pub(crate) const FEW: usize = SIZE;

// Above this product of versions and rules a key has blocks.
const MANY: usize = 250_000;

// Counts the rules whose prefix begins the key.
fn rules_on(rules: &[Rule], key: &Key) -> usize {
    let mut count: usize = 0;
    for rule in rules.iter() {
        if rule.enabled && matches_upload(&rule.filter, key) {
            count = count.saturating_add(1);
        }
    }
    count
}

// A search without blocks may look at too many versions.
fn needs_blocks(rules: &[Rule], key: &Key, versions: &[Version]) -> bool
    requires few { length rules.now ≤ 1_000 }
{
    versions.len() > FEW
        && versions.len().saturating_mul(rules.len()) > MANY
        && versions.len().saturating_mul(rules_on(rules, key)) > MANY
}

// Finds the place among the noncurrent versions, newest first, of the first one that ceased no later than a moment.
fn first_until(noncurrent: &[Version], until: Moment) -> usize
    ensures { result ≤ length noncurrent.now }
{
    noncurrent.partition_point(|version| version.ceased.ms() > until.ms())
}

// Finds the place of the first one that ceased before a moment.
fn first_before(noncurrent: &[Version], from: Moment) -> usize
    ensures { result ≤ length noncurrent.now }
{
    noncurrent.partition_point(|version| version.ceased.ms() >= from.ms())
}

// Counts the noncurrent versions of a block.
fn count_in(noncurrent: &[Version], from: Moment, until: Moment) -> usize {
    first_before(noncurrent, from).saturating_sub(first_until(noncurrent, until))
}

// The version at a place, if there is one, ceased after a moment.
fn is_after(noncurrent: &[Version], at: usize, until: Moment) -> bool
    ensures { result ≡ true → IfSome (slice_get noncurrent.now at) (λ version. until < version.ceased) }
{
    match noncurrent.get(at) {
        Some(version) => version.ceased.ms() > until.ms(),
        None => true,
    }
}

// The version at a place, if there is one, ceased before a moment.
fn is_before(noncurrent: &[Version], at: usize, from: Moment) -> bool
    ensures { result ≡ true → IfSome (slice_get noncurrent.now at) (λ version. version.ceased < from) }
{
    match noncurrent.get(at) {
        Some(version) => version.ceased.ms() < from.ms(),
        None => true,
    }
}

// Finds the noncurrent versions that ceased from one moment until another. It gives None only if the versions are not in
// order, which the proof need not know.
fn versions_in(of_key: &Stack, from: Moment, until: Moment) -> Option<&[Version]>
    requires order { cease_in_order of_key.now.changed of_key.now.versions ≡ true }
    ensures { IfSome result (λ part. HasSpan from until part.now (but_first of_key.now.versions)) }
{
    let noncurrent = but_first(of_key.versions());
    let start = first_until(noncurrent, until);
    let end = first_before(noncurrent, from);
    if start > end {
        return None;
    }
    // The versions on either side are not of the span.
    if start > 0 && !is_after(noncurrent, start - 1, until) {
        return None;
    }
    if !is_before(noncurrent, end, from) {
        return None;
    }
    Some(&noncurrent[start..end])
}

// Makes the block of the noncurrent versions that ceased from one moment until another; None if there are none, or if
// memory ran out.
fn block_in(
    alloc: Global,
    mode: SizeMode,
    rules: &[Rule],
    key: &Key,
    of_key: &Stack,
    from: Moment,
    until: Moment,
) -> Option<Block>
    requires few { length rules.now ≤ 1_000 }
    requires order { cease_in_order of_key.now.changed of_key.now.versions ≡ true }
    ensures { IfSome result (λ block. All (IsRightFor mode rules.now key.now block) (but_first of_key.now.versions)) }
{
    let part = versions_in(of_key, from, until)?;
    if part.is_empty() {
        return None;
    }
    let Ok(mut block) = block_of(alloc, mode, rules, key, part, from, until) else {
        return None;
    };
    block.end = end_of(but_first(of_key.versions()), &block);
    Some(block)
}

// Clears the marks of a block that no version needs.
fn refresh(block: &mut Block, mode: SizeMode, rules: &[Rule], key: &Key, of_key: &Stack)
    requires few { length rules.now ≤ 1_000 }
    requires order { cease_in_order of_key.now.changed of_key.now.versions ≡ true }
    requires right { All (IsRightFor mode rules.now key.now block.old) (but_first of_key.now.versions) }
    ensures { All (IsRightFor mode rules.now key.now block.new) (but_first of_key.now.versions) }
{
    if let Some(part) = versions_in(of_key, block.from, block.until) {
        clear(block, mode, rules, key, part);
    }
}

// Finds the version with an id, if there is an id and one has it.
fn touched_version(of_key: &Stack, touched: Option<VersionId>) -> Option<&Version>
    ensures { (id : Id) → touched ≡ Some id → option_copied result ≡ version_at id of_key.now.versions }
{
    match touched {
        Some(id) => of_key.version(id),
        None => None,
    }
}

// Marks in each block that has the version what the version takes. Returns the place of the first one that may have it.
fn mark_version(
    blocks: &mut Blocks,
    mode: SizeMode,
    rules: &[Rule],
    key: &Key,
    version: &Version,
) -> usize
    requires few { length rules.now ≤ 1_000 }
    ensures right { All (λ block. IsRightFor mode rules.now key.now block version.now) blocks.new }
    ensures others { (v : VersionRecord) → All (λ block. IsRightFor mode rules.now key.now block v) blocks.old
        → All (λ block. IsRightFor mode rules.now key.now block v) blocks.new }
{
    for block in blocks.list.iter_mut() {
        if block.has(version.ceased) {
            mark(block, mode, rules, key, version);
        }
    }
    first_block(blocks, version.ceased)
}

// The same, if there is a version. Returns how many blocks there are if there is none.
fn mark_if_any(
    blocks: &mut Blocks,
    mode: SizeMode,
    rules: &[Rule],
    key: &Key,
    version: Option<&Version>,
) -> usize
    requires few { length rules.now ≤ 1_000 }
    ensures right { IfSome (option_copied version.entry)
        (λ v. All (λ block. IsRightFor mode rules.now key.now block v) blocks.new) }
    ensures others { (v : VersionRecord) → All (λ block. IsRightFor mode rules.now key.now block v) blocks.old
        → All (λ block. IsRightFor mode rules.now key.now block v) blocks.new }
{
    match version {
        Some(version) => mark_version(blocks, mode, rules, key, version),
        None => blocks.list.len(),
    }
}

// Marks what the newest noncurrent version takes, and the one that was touched. Returns the place of the first block
// that may have the touched one.
fn mark_changed(
    blocks: &mut Blocks,
    mode: SizeMode,
    rules: &[Rule],
    key: &Key,
    of_key: &Stack,
    touched: Option<VersionId>,
) -> usize
    requires few { length rules.now ≤ 1_000 }
    requires rest { AreRightBut touched mode rules.now key.now blocks.old (but_first of_key.now.versions) }
    ensures { AreRight mode rules.now key.now blocks.new (but_first of_key.now.versions) }
{
    let noncurrent = but_first(of_key.versions());
    let newest = noncurrent.first();
    let touched = touched_version(of_key, touched);
    mark_if_any(blocks, mode, rules, key, newest);
    mark_if_any(blocks, mode, rules, key, touched)
}

// Makes one block of a block and the next one.
fn join(
    blocks: &mut Blocks,
    alloc: Global,
    mode: SizeMode,
    rules: &[Rule],
    key: &Key,
    of_key: &Stack,
    at: usize,
)
    requires few { length rules.now ≤ 1_000 }
    requires two { at + 1 < length blocks.old }
    requires order { cease_in_order of_key.now.changed of_key.now.versions ≡ true }
    requires right { AreRight mode rules.now key.now blocks.old (but_first of_key.now.versions) }
    ensures { AreRight mode rules.now key.now blocks.new (but_first of_key.now.versions) }
{
    let next = blocks.list.remove(at + 1);
    match block_in(
        alloc,
        mode,
        rules,
        key,
        of_key,
        blocks.list[at].from,
        next.until,
    ) {
        Some(block) => blocks.list[at] = block,
        None => drop(blocks.list.remove(at)),
    }
}

// Clears the marks of the block at a place that no version needs, or joins it with the next one if both are small. The
// first and the last one go if they have no versions.
fn remake(
    blocks: &mut Blocks,
    alloc: Global,
    mode: SizeMode,
    rules: &[Rule],
    key: &Key,
    of_key: &Stack,
    at: usize,
)
    requires few { length rules.now ≤ 1_000 }
    requires order { cease_in_order of_key.now.changed of_key.now.versions ≡ true }
    requires right { AreRight mode rules.now key.now blocks.old (but_first of_key.now.versions) }
    ensures { AreRight mode rules.now key.now blocks.new (but_first of_key.now.versions) }
{
    if at >= blocks.list.len() {
        return;
    }
    if is_at_an_end(&blocks.list, at) && is_empty(&blocks.list[at], but_first(of_key.versions())) {
        drop(blocks.list.remove(at));
        return;
    }
    if are_small(&blocks.list, at, but_first(of_key.versions())) {
        join(blocks, alloc, mode, rules, key, of_key, at);
        return;
    }
    refresh(&mut blocks.list[at], mode, rules, key, of_key);
}

// A block is the first or the last one: where it goes, it leaves no gap.
fn is_at_an_end(blocks: &[Block], at: usize) -> bool {
    at == 0 || at.saturating_add(1) >= blocks.len()
}

// A block has no versions.
fn is_empty(block: &Block, noncurrent: &[Version]) -> bool {
    count_in(noncurrent, block.from, block.until) == 0
}

// A block and the next one have no more versions than one is made of.
fn are_small(blocks: &[Block], at: usize, noncurrent: &[Version]) -> bool
    requires within { at < length blocks.now }
    ensures { result ≡ true → at + 1 < length blocks.now }
{
    if at + 1 >= blocks.len() {
        return false;
    }
    let (block, next) = (&blocks[at], &blocks[at + 1]);
    count_in(noncurrent, block.from, next.until) <= SIZE
}

// Takes the newest noncurrent version into the last block, if no other one is newer than the block.
fn grow(block: &mut Block, mode: SizeMode, rules: &[Rule], key: &Key, of_key: &Stack)
    requires few { length rules.now ≤ 1_000 }
    requires order { cease_in_order of_key.now.changed of_key.now.versions ≡ true }
    requires right { All (IsRightFor mode rules.now key.now block.old) (but_first of_key.now.versions) }
    ensures { All (IsRightFor mode rules.now key.now block.new) (but_first of_key.now.versions) }
{
    let noncurrent = but_first(of_key.versions());
    if noncurrent.is_empty() || !is_until(noncurrent, 1, block.until) {
        return;
    }
    let newest = &noncurrent[0];
    mark(block, mode, rules, key, newest);
    block.until = newest.ceased;
    block.end = noncurrent.len();
}

// The version at a place, if there is one, ceased no later than a moment.
fn is_until(noncurrent: &[Version], at: usize, until: Moment) -> bool
    ensures { result ≡ true → IfSome (slice_get noncurrent.now at) (λ version. version.ceased ≤ until) }
{
    match noncurrent.get(at) {
        Some(version) => version.ceased.ms() <= until.ms(),
        None => true,
    }
}

// Lets the last block grow by the newest noncurrent version, if that is the only one newer than it and the block is small.
fn grow_last(blocks: &mut Blocks, mode: SizeMode, rules: &[Rule], key: &Key, of_key: &Stack)
    requires few { length rules.now ≤ 1_000 }
    requires order { cease_in_order of_key.now.changed of_key.now.versions ≡ true }
    requires right { AreRight mode rules.now key.now blocks.old (but_first of_key.now.versions) }
    ensures { AreRight mode rules.now key.now blocks.new (but_first of_key.now.versions) }
{
    if blocks.list.is_empty() {
        return;
    }
    let last = blocks.list.len() - 1;
    if may_grow(&blocks.list[last], but_first(of_key.versions())) {
        grow(&mut blocks.list[last], mode, rules, key, of_key);
    }
}

// One noncurrent version is newer than the block, and the block is small.
fn may_grow(block: &Block, noncurrent: &[Version]) -> bool {
    first_until(noncurrent, block.until) == 1
        && count_in(noncurrent, block.from, block.until) < SIZE
}

// A block after these begins where the last of them ends, so that no version is between them; the first one, with its
// oldest version.
fn start_of(blocks: &[Block], oldest: Moment) -> Moment {
    let Some(last) = blocks.last() else {
        return oldest;
    };
    match Moment::of(last.until.ms() + 1) {
        Ok(from) => from,
        Err(_) => oldest,
    }
}

// Makes blocks of the newest versions that are in none.
fn extend(
    blocks: &mut Blocks,
    alloc: Global,
    mode: SizeMode,
    rules: &[Rule],
    key: &Key,
    of_key: &Stack,
)
    requires few { length rules.now ≤ 1_000 }
    requires order { cease_in_order of_key.now.changed of_key.now.versions ≡ true }
    requires right { AreRight mode rules.now key.now blocks.old (but_first of_key.now.versions) }
    ensures { AreRight mode rules.now key.now blocks.new (but_first of_key.now.versions) }
{
    let noncurrent = but_first(of_key.versions());
    let mut left = match blocks.list.last() {
        Some(block) => first_until(noncurrent, block.until),
        None => noncurrent.len(),
    };
    while left > 0 {
        let size = left.min(SIZE);
        let until = noncurrent[left - size].ceased;
        let from = start_of(&blocks.list, noncurrent[left - 1].ceased);
        // Those that ceased at the same moment are of the block too.
        let newer = first_until(noncurrent, until);
        if newer >= left {
            return;
        }
        let Some(block) = block_in(alloc, mode, rules, key, of_key, from, until) else {
            return;
        };
        if blocks.list.push(block).is_err() {
            return;
        }
        left = newer;
    }
}

fn but_first(versions: &[Version]) -> &[Version]
    ensures { result.now ≡ but_first versions.now }
{
    match versions.len() {
        0 => versions,
        _ => &versions[1..],
    }
}

// Finds the first block whose versions were fewer or more when the ends were counted; how many there are if none is.
fn first_changed(blocks: &Blocks, noncurrent: &[Version]) -> usize {
    blocks
        .list
        .partition_point(|block| end_of(noncurrent, block) == block.end)
}

// Finds the first block that ends at a moment or after it; how many there are if none does.
fn first_block(blocks: &Blocks, ceased: Moment) -> usize {
    blocks
        .list
        .partition_point(|block| block.until.ms() < ceased.ms())
}

// Counts the versions that are not newer than a block.
fn end_of(noncurrent: &[Version], block: &Block) -> usize {
    noncurrent.len() - first_until(noncurrent, block.until)
}

// Counts the ends of the blocks anew from one on.
fn count_ends(blocks: &mut Blocks, noncurrent: &[Version], from: usize)
    ensures { blocks.new ≡ blocks.old }
{
    for at in from..blocks.list.len() {
        let block = &mut blocks.list[at];
        block.end = end_of(noncurrent, block);
    }
}

/// Keeps the blocks of a key right after a change of its versions: the newest noncurrent one, and the one with this id,
/// may be new or other than before; others may be gone.
pub(crate) fn renew(
    blocks: &mut Blocks,
    alloc: Global,
    mode: SizeMode,
    rules: &[Rule],
    key: &Key,
    of_key: &Stack,
    touched: Option<VersionId>,
)
    requires few { length rules.now ≤ 1_000 }
    requires rest { AreRightBut touched mode rules.now key.now blocks.old (but_first of_key.now.versions) }
    ensures { AreRight mode rules.now key.now blocks.new (but_first of_key.now.versions) }
{
    if !of_key.is_in_order() || !needs_blocks(rules, key, of_key.versions()) {
        blocks.list.clear();
        return;
    }
    let marked = mark_changed(blocks, mode, rules, key, of_key, touched);
    let noncurrent = but_first(of_key.versions());
    let changed = first_changed(blocks, noncurrent);
    let first = changed.min(marked);
    remake(blocks, alloc, mode, rules, key, of_key, changed);
    remake(blocks, alloc, mode, rules, key, of_key, marked);
    grow_last(blocks, mode, rules, key, of_key);
    extend(blocks, alloc, mode, rules, key, of_key);
    count_ends(blocks, noncurrent, first);
}
