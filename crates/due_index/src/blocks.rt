// Blocks of the noncurrent versions of a key that has many.
ghost use Rattle.std.specs.Prelude.{◌≡◌, ◌≤◌, ◌<◌, ◌+◌, [], All, ℕ, length, slice_get, IfOk, true, false, Some, nat_le, ◌&&◌};
ghost use Rattle.std.specs.List.{list_any};
ghost use Rattle.rules_core.specs.declared.rule.Rule.{Rule as RuleRecord};
ghost use Rattle.due_core.specs.declared.action.ActionKind.{ActionKind as Kind};
ghost use Rattle.due_index.specs.Search.{takes_step, steps_of};
ghost use Rattle.due_index.specs.Blocks.{kind_code, is_marked, IsMarkedFor, KeepsMarks};

use crate::noncurrent::{Step, move_step, removal_step, takes_step};
use class_rules::rank;
use due_core::ActionKind;
use moments::Moment;
use office_base::{Key, NoMemory};
use rules_core::{Rule, SizeMode, matches_upload};
use stacks::Version;
use std::alloc::Global;
use std::marker::Model;

// How many kinds of action there are.
const KINDS: usize = 9;

/// The noncurrent versions of a key that ceased to be current from one moment until another, and which steps of the
/// rules one of them may take.
#[derive(Drop)]
pub(crate) struct Block {
    pub(crate) from: Moment,
    pub(crate) until: Moment,
    /// How many noncurrent versions were not newer than the block when this was counted last.
    pub(crate) end: usize,
    pub(crate) marks: Vec<bool>,
}

impl Model for Block {
    ghost use Rattle.due_index.specs.Blocks.{BlockRecord};

    ghost Value = { BlockRecord };

    ghost view = { λ b. record { from = b.from; until = b.until; marks = b.marks.items } };
}

/// The blocks of a key, the oldest versions first.
#[derive(Drop)]
pub(crate) struct Blocks {
    pub(crate) list: Vec<Block>,
}

impl Model for Blocks {
    ghost use Rattle.std.specs.Prelude.{List};
    ghost use Rattle.due_index.specs.Blocks.{BlockRecord};

    ghost Value = { List BlockRecord };

    ghost view = { λ b. b.list.items };
}

impl Blocks {
    /// Gives no blocks. Takes no memory.
    pub(crate) fn new(alloc: Global) -> Blocks
        ensures { result ≡ [] }
    {
        Blocks {
            list: Vec::new(alloc),
        }
    }
}

fn kind_code(kind: ActionKind) -> usize
    ensures { result ≡ kind_code kind }
{
    match kind {
        ActionKind::Remove => 0,
        ActionKind::Transition(to) => rank(to) as usize + 1,
        ActionKind::Marker => 7,
        ActionKind::Abort => 8,
    }
}

// Reads the mark of a rule and a kind; one that is not there counts as set.
fn is_marked(marks: &[bool], place: usize, kind: ActionKind) -> bool
    requires few { place ≤ 1_000 }
    ensures { result ≡ is_marked marks.now place kind }
{
    match marks.get(place * KINDS + kind_code(kind)) {
        Some(mark) => *mark,
        None => true,
    }
}

// Sets the mark of a rule and a kind, if there is one.
fn set(marks: &mut Vec<bool>, place: usize, kind: ActionKind, to: bool)
    requires few { place ≤ 1_000 }
    ensures here { to ≡ true → is_marked marks.new.items place kind ≡ true }
    ensures others { (p : ℕ) (k : Kind) → (p ≡ place × k ≡ kind → ⊥)
        → is_marked marks.new.items p k ≡ is_marked marks.old.items p k }
{
    let at = place * KINDS + kind_code(kind);
    if at < marks.len() {
        marks[at] = to;
    }
}

// One of these versions takes the kind of step.
fn any_takes(mode: SizeMode, rule: &Rule, kind: ActionKind, key: &Key, versions: &[Version]) -> bool
    ensures { result ≡ list_any (takes_step mode rule.now.filter kind key.now) versions.now }
{
    versions.iter().any(|version| takes_step(mode, &rule.filter, kind, key, version))
}

impl Block {
    /// The block may have a version that takes this kind of step of the rule at this place, from 0.
    pub(crate) fn is_marked(&self, place: usize, kind: ActionKind) -> bool
        requires few { place ≤ 1_000 }
        ensures { result ≡ is_marked self.now.marks place kind }
    {
        is_marked(&self.marks, place, kind)
    }

    /// The moment is in the block's time.
    pub(crate) fn has(&self, ceased: Moment) -> bool
        ensures { result ≡ nat_le self.now.from ceased && nat_le ceased self.now.until }
    {
        self.from.ms() <= ceased.ms() && ceased.ms() <= self.until.ms()
    }

    /// The next block begins no later than right after this one.
    pub(crate) fn is_joined_by(&self, next: &Block) -> bool
        ensures { result ≡ true → next.now.from ≤ self.now.until + 1 }
    {
        next.from.ms() <= self.until.ms() + 1
    }
}

// Clears the mark of a step of the rule at a place if none of these versions takes it.
fn clear_step(
    marks: &mut Vec<bool>,
    mode: SizeMode,
    rule: &Rule,
    place: usize,
    kind: ActionKind,
    key: &Key,
    versions: &[Version],
)
    requires few { place ≤ 1_000 }
    ensures here { All (λ version. (takes_step mode rule.now.filter kind key.now version ≡ true
        → is_marked marks.old.items place kind ≡ true) → takes_step mode rule.now.filter kind key.now version ≡ true
        → is_marked marks.new.items place kind ≡ true) versions.now }
    ensures others { (p : ℕ) (k : Kind) → (p ≡ place × k ≡ kind → ⊥)
        → is_marked marks.new.items p k ≡ is_marked marks.old.items p k }
{
    if is_marked(marks, place, kind) {
        let taken = any_takes(mode, rule, kind, key, versions);
        set(marks, place, kind, taken);
    }
}

// Clears the marks of the steps of the rule at a place that none of these versions takes.
fn clear_rule(
    marks: &mut Vec<bool>,
    mode: SizeMode,
    rule: &Rule,
    place: usize,
    key: &Key,
    versions: &[Version],
)
    requires few { place ≤ 1_000 }
    ensures here { All (λ version. IsMarkedFor mode key.now place rule.now marks.old.items version
        → IsMarkedFor mode key.now place rule.now marks.new.items version) versions.now }
    ensures others { (p : ℕ) (k : Kind) → (p ≡ place → ⊥)
        → is_marked marks.new.items p k ≡ is_marked marks.old.items p k }
{
    if let Some(expiration) = rule.noncurrent_expiration {
        let step = removal_step(expiration);
        clear_step(marks, mode, rule, place, step.kind, key, versions);
    }
    for asked in rule.noncurrent_moves.as_slice() {
        let step = move_step(*asked);
        clear_step(marks, mode, rule, place, step.kind, key, versions);
    }
}

/// Clears the marks of a block for the steps of the rules that none of these versions takes.
///
/// Cost: each step of the rules whose mark is set is looked for in the versions, up to the first one that takes it.
pub(crate) fn clear(
    block: &mut Block,
    mode: SizeMode,
    rules: &[Rule],
    key: &Key,
    versions: &[Version],
)
    requires few { length rules.now ≤ 1_000 }
    ensures from { block.new.from ≡ block.old.from }
    ensures until { block.new.until ≡ block.old.until }
    ensures marked { (place : ℕ) (rule : RuleRecord) → slice_get rules.now place ≡ Some rule
        → All (λ version. IsMarkedFor mode key.now place rule block.old.marks version
        → IsMarkedFor mode key.now place rule block.new.marks version) versions.now }
{
    for place in 0..rules.len() {
        let rule = &rules[place];
        if rule.enabled && matches_upload(&rule.filter, key) {
            clear_rule(&mut block.marks, mode, rule, place, key, versions);
        }
    }
}

/// Makes the block of these versions, which ceased from one moment until another.
///
/// # Errors
///
/// `NoMemory`: memory ran out.
pub(crate) fn block_of(
    alloc: Global,
    mode: SizeMode,
    rules: &[Rule],
    key: &Key,
    versions: &[Version],
    from: Moment,
    until: Moment,
) -> Result<Block, NoMemory>
    requires few { length rules.now ≤ 1_000 }
    ensures from { IfOk result (λ block. block.from ≡ from) }
    ensures until { IfOk result (λ block. block.until ≡ until) }
    ensures marked { IfOk result (λ block. (place : ℕ) (rule : RuleRecord) → slice_get rules.now place ≡ Some rule
        → All (IsMarkedFor mode key.now place rule block.marks) versions.now) }
{
    let mut block = Block {
        from,
        until,
        end: 0,
        marks: all_set(alloc, rules.len() * KINDS)?,
    };
    clear(&mut block, mode, rules, key, versions);
    Ok(block)
}

// This many marks, all set.
fn all_set(alloc: Global, count: usize) -> Result<Vec<bool>, NoMemory>
    ensures { IfOk result (λ marks. (p : ℕ) (k : Kind) → is_marked marks.items p k ≡ true) }
{
    Ok(vec![in alloc; true; count]?)
}

// Marks what a version takes of the rule at a place.
fn mark_rule(
    marks: &mut Vec<bool>,
    mode: SizeMode,
    rule: &Rule,
    place: usize,
    key: &Key,
    version: &Version,
)
    requires few { place ≤ 1_000 }
    ensures here { IsMarkedFor mode key.now place rule.now marks.new.items version.now }
    ensures kept { KeepsMarks marks.old.items marks.new.items }
{
    if let Some(expiration) = rule.noncurrent_expiration {
        mark_step(
            marks,
            mode,
            rule,
            place,
            removal_step(expiration),
            key,
            version,
        );
    }
    for asked in rule.noncurrent_moves.as_slice() {
        mark_step(marks, mode, rule, place, move_step(*asked), key, version);
    }
}

// Marks a step of the rule at a place, if the version takes it.
fn mark_step(
    marks: &mut Vec<bool>,
    mode: SizeMode,
    rule: &Rule,
    place: usize,
    step: Step,
    key: &Key,
    version: &Version,
)
    requires few { place ≤ 1_000 }
    ensures here { takes_step mode rule.now.filter step.kind key.now version.now ≡ true
        → is_marked marks.new.items place step.kind ≡ true }
    ensures kept { KeepsMarks marks.old.items marks.new.items }
{
    if takes_step(mode, &rule.filter, step.kind, key, version) {
        set(marks, place, step.kind, true);
    }
}

/// Marks in a block what a version takes of the rules.
pub(crate) fn mark(block: &mut Block, mode: SizeMode, rules: &[Rule], key: &Key, version: &Version)
    requires few { length rules.now ≤ 1_000 }
    ensures from { block.new.from ≡ block.old.from }
    ensures until { block.new.until ≡ block.old.until }
    ensures kept { KeepsMarks block.old.marks block.new.marks }
    ensures marked { (place : ℕ) (rule : RuleRecord) → slice_get rules.now place ≡ Some rule
        → IsMarkedFor mode key.now place rule block.new.marks version.now }
{
    for place in 0..rules.len() {
        mark_rule(&mut block.marks, mode, &rules[place], place, key, version);
    }
}
