// What a rule asks for the noncurrent versions of a key, searched from the oldest version on.
ghost use Rattle.std.specs.Prelude.{◌≡◌, ◌≤◌, ◌-◌, map, option_to_list};
ghost use Rattle.due_core.specs.RuleActions.{matches_version, keeps_newer};
ghost use Rattle.due_index.specs.Search.{on_key, with_each, IsFirstOf, IsOfStep, IsOfSteps, removal_step, move_step};
ghost use Rattle.due_index.specs.Search.{admits_step, takes_step, step_of_version, steps_of};
ghost use Rattle.due_index.specs.Blocks.{AreRightIn, AreRightAt, but_first};

use crate::asked::{Aim, Placed, Setting, keeps_newer, later, matches_version};
use crate::blocks::Blocks;
use crate::passing::{Pass, passed_from};
use crate::place::Place;
use class_rules::may_go;
use due_core::{ActionKind, Target};
use office_base::Key;
use rules_core::{Filter, Noncurrent, NoncurrentMove, Rule, SizeMode, size_admits};
use stacks::{Kind, Stack, Version};

/// A removal or a move that a rule asks for noncurrent versions.
#[derive(Clone, Copy)]
pub(crate) struct Step {
    pub(crate) kind: ActionKind,
    /// How many newer noncurrent versions are kept.
    pub(crate) newer: Option<u32>,
    /// This many days after the version became noncurrent.
    pub(crate) days: u32,
}

pub(crate) fn removal_step(expiration: Noncurrent) -> Step
    ensures { result ≡ removal_step expiration }
{
    Step {
        kind: ActionKind::Remove,
        newer: expiration.newer,
        days: expiration.days,
    }
}

pub(crate) fn move_step(step: NoncurrentMove) -> Step
    ensures { result ≡ move_step step }
{
    Step {
        kind: ActionKind::Transition(step.to),
        newer: step.newer,
        days: step.days,
    }
}

// The kind of step fits the version: a move needs an object that may move to the class.
fn admits_step(mode: SizeMode, filter: &Filter, kind: ActionKind, of: &Kind) -> bool
    ensures { result ≡ admits_step mode filter.now kind of.now }
{
    match kind {
        ActionKind::Transition(to) => match of {
            Kind::Object { size, class, .. } => {
                may_go(*class, to) && size_admits(mode, filter, to, *size)
            }
            Kind::Marker => false,
        },
        ActionKind::Remove | ActionKind::Marker | ActionKind::Abort => true,
    }
}

// The rule's filter matches the version, and the kind of step fits it.
pub(crate) fn takes_step(
    mode: SizeMode,
    filter: &Filter,
    kind: ActionKind,
    key: &Key,
    version: &Version,
) -> bool
    ensures { result ≡ takes_step mode filter.now kind key.now version.now }
{
    matches_version(filter, key, version) && admits_step(mode, filter, kind, &version.kind)
}

// Looks at a removal or a move of one noncurrent version, and returns whether it applies to the version.
#[tactic(auto, using(crate::proofs::Searching::due_come))]
fn step_of_version(
    best: &mut Option<Place>,
    setting: &Setting,
    rule: &Rule,
    number: u32,
    key: &Key,
    of_key: &Stack,
    step: Step,
    placed: &Placed<'_>,
) -> bool
    ensures takes { result ≡ takes_step setting.now.mode rule.now.filter step.kind key.now placed.now.version }
    ensures first { on_key key.now best.new ≡ with_each (on_key key.now best.old)
        (step_of_version setting.now (key.now, of_key.now) (number, rule.now) step placed.now) }
{
    if !takes_step(setting.mode, &rule.filter, step.kind, key, placed.version) {
        return false;
    }
    let aim = Aim {
        key,
        target: Target::Version(placed.version.id),
        age: placed.older,
        rule: number,
        not_before: later(of_key.changed(), setting.rules_since),
    };
    aim.in_days(best, step.kind, placed.version.ceased, step.days);
    true
}

// Searches a removal or a move for the noncurrent versions of a key. If they ceased in order, the oldest one to which
// it applies comes first.
fn step_of_key(
    best: &mut Option<Place>,
    setting: &Setting,
    rule: &Rule,
    number: u32,
    key: &Key,
    of_key: &Stack,
    step: Step,
    blocks: &Blocks,
)
    requires some { 1 ≤ number }
    requires number { number ≤ 1_000 }
    requires right { AreRightIn setting.now.mode key.now (number - 1) rule.now step blocks.now
        (but_first of_key.now.versions) }
    ensures { IsFirstOf (on_key key.now best.old) (IsOfStep setting.now (key.now, of_key.now) (number, rule.now) step)
        (on_key key.now best.new) }
{
    let versions = of_key.versions();
    let in_order = of_key.is_in_order();
    let place = number as usize - 1;
    let mut i = versions.len();
    // The marks were read for the versions that ceased until this moment, in milliseconds.
    let mut until = if blocks.list.is_empty() { u64::MAX } else { 0 };
    while i > 1 {
        let at = Pass { left: i, until };
        let pass = passed_from(
            at,
            versions[i - 1].ceased,
            in_order,
            blocks,
            of_key,
            place,
            step.kind,
        );
        if pass.left <= 1 {
            return;
        }
        until = pass.until;
        i = pass.left - 1;
        if !keeps_newer(step.newer, i as u64 - 1) {
            return;
        }
        let placed = Placed {
            version: &versions[i],
            newer: i as u64,
            older: (versions.len() - i - 1) as u64,
        };
        let takes = step_of_version(best, setting, rule, number, key, of_key, step, &placed);
        if takes && in_order {
            return;
        }
    }
}

// Searches the removal that the rule asks for the noncurrent versions of a key.
fn removal(
    best: &mut Option<Place>,
    setting: &Setting,
    rule: &Rule,
    number: u32,
    key: &Key,
    of_key: &Stack,
    blocks: &Blocks,
)
    requires some { 1 ≤ number }
    requires number { number ≤ 1_000 }
    requires right { AreRightAt setting.now.mode key.now (number - 1) rule.now blocks.now
        (but_first of_key.now.versions) }
    ensures { IsFirstOf (on_key key.now best.old)
        (IsOfSteps setting.now (key.now, of_key.now) (number, rule.now)
        (map removal_step (option_to_list rule.now.noncurrent_expiration)))
        (on_key key.now best.new) }
{
    match rule.noncurrent_expiration {
        Some(expiration) => step_of_key(
            best,
            setting,
            rule,
            number,
            key,
            of_key,
            removal_step(expiration),
            blocks,
        ),
        None => {}
    }
}

// Searches the moves that the rule asks for the noncurrent versions of a key.
fn moves(
    best: &mut Option<Place>,
    setting: &Setting,
    rule: &Rule,
    number: u32,
    key: &Key,
    of_key: &Stack,
    blocks: &Blocks,
)
    requires some { 1 ≤ number }
    requires number { number ≤ 1_000 }
    requires right { AreRightAt setting.now.mode key.now (number - 1) rule.now blocks.now
        (but_first of_key.now.versions) }
    ensures { IsFirstOf (on_key key.now best.old)
        (IsOfSteps setting.now (key.now, of_key.now) (number, rule.now) (map move_step rule.now.noncurrent_moves))
        (on_key key.now best.new) }
{
    for asked in rule.noncurrent_moves.as_slice() {
        step_of_key(
            best,
            setting,
            rule,
            number,
            key,
            of_key,
            move_step(*asked),
            blocks,
        );
    }
}

/// Searches what the rule asks for the noncurrent versions of a key: its removal, and each of its moves.
pub(crate) fn noncurrent(
    best: &mut Option<Place>,
    setting: &Setting,
    rule: &Rule,
    number: u32,
    key: &Key,
    of_key: &Stack,
    blocks: &Blocks,
)
    requires some { 1 ≤ number }
    requires number { number ≤ 1_000 }
    requires right { AreRightAt setting.now.mode key.now (number - 1) rule.now blocks.now
        (but_first of_key.now.versions) }
    ensures { IsFirstOf (on_key key.now best.old)
        (IsOfSteps setting.now (key.now, of_key.now) (number, rule.now) (steps_of rule.now))
        (on_key key.now best.new) }
{
    removal(best, setting, rule, number, key, of_key, blocks);
    moves(best, setting, rule, number, key, of_key, blocks);
}
