// A tournament over slots.
ghost use Rattle.std.specs.Prelude.{◌≡◌, ◌⊎◌, ◌+◌, ◌*◌, ◌/◌, ◌^◌, ◌<◌, ◌≤◌, length, IfOk, Some, option_copied};
ghost use Rattle.due_core.specs.Choice.{comes_before};
ghost use Rattle.due_index.specs.Queue.{slot_at};
ghost use Rattle.due_index.specs.Tournament.{order_of, is_sooner, IsExact, IsNotAfter, IsTournament};
ghost use Rattle.due_index.specs.Tournament.{IsTournamentOff, HasLeaves};

use crate::place::{coldness, kind_place};
use due_core::Candidate;
use office_base::NoMemory;
use std::alloc::{AllocError, Global};
use std::cmp::Ordering;

// The slot of the first action of the slots below, and that action's moment and kind as one number; the greatest number
// if there is no action.
#[derive(Clone, Copy)]
pub(crate) struct Node {
    pub(crate) order: u64,
    pub(crate) slot: usize,
}

// The moment and the kind as one number.
fn order_of(held: Option<&Candidate>) -> u64
    ensures { result ≡ order_of (option_copied held.entry) }
{
    match held {
        Some(held) => held.action.since.ms() * 4 + u64::from(kind_place(held.action.kind)),
        None => u64::MAX,
    }
}

// The first comes before the second; both have the same moment and kind.
#[tactic(auto, using(crate::proofs::Orders::tied_orders))]
fn comes_before(a: &Candidate, b: &Candidate) -> bool
    requires { order_of (Some a.now) ≡ order_of (Some b.now) }
    ensures { result ≡ comes_before a.now b.now }
{
    match a.action.key.cmp(&b.action.key) {
        Ordering::Equal => {}
        decided => return decided.is_lt(),
    }
    let colder = coldness(b.action.kind).cmp(&coldness(a.action.kind));
    let decided = a.age.cmp(&b.age);
    decided
        .then(colder.then(a.action.rule.cmp(&b.action.rule)))
        .is_lt()
}

// The content of a slot.
pub(crate) fn slot_at(slots: &[Option<Candidate>], slot: usize) -> Option<&Candidate>
    ensures { option_copied result ≡ slot_at slot slots.now }
{
    match slots.get(slot) {
        Some(held) => held.as_ref(),
        None => None,
    }
}

// The first comes before the second; both have the same order.
fn is_sooner(a: Option<&Candidate>, b: Option<&Candidate>) -> bool
    requires { order_of (option_copied a) ≡ order_of (option_copied b) }
    ensures { result ≡ is_sooner (option_copied a.entry) (option_copied b.entry) }
{
    match a {
        Some(a) => match b {
            Some(b) => comes_before(a, b),
            None => true,
        },
        None => false,
    }
}

// The leaf of a slot.
fn leaf(slots: &[Option<Candidate>], slot: usize) -> Node
    ensures slot { result.slot ≡ slot }
    ensures exact { IsExact slots.now result }
{
    Node {
        order: order_of(slot_at(slots, slot)),
        slot,
    }
}

// The one of two nodes whose action comes first.
#[tactic(auto, using(crate::proofs::Orders::less_orders, crate::proofs::Orders::sooner_itself, crate::proofs::Orders::sooner_back,))]
fn earlier(slots: &[Option<Candidate>], a: Node, b: Node) -> Node
    requires a { IsExact slots.now a }
    requires b { IsExact slots.now b }
    ensures either { (result ≡ a) ⊎ (result ≡ b) }
    ensures first { IsNotAfter slots.now result a }
    ensures second { IsNotAfter slots.now result b }
{
    if a.order < b.order {
        return a;
    }
    if b.order < a.order {
        return b;
    }
    if is_sooner(slot_at(slots, b.slot), slot_at(slots, a.slot)) {
        b
    } else {
        a
    }
}

// Updates the nodes above a slot whose content has changed.
pub(crate) fn rise(slots: &[Option<Candidate>], nodes: &mut [Node], slot: usize)
    requires slot { slot < length slots.now }
    requires below { IsTournamentOff slots.now nodes.old (length nodes.old / 2 + slot) }
    ensures { IsTournament slots.now nodes.new }
{
    let mut i = nodes.len() / 2 + slot;
    nodes[i] = leaf(slots, slot);
    while i > 1 {
        i = i / 2;
        nodes[i] = earlier(slots, nodes[2 * i], nodes[2 * i + 1]);
    }
}

// Makes the tournament, with this many leaves.
pub(crate) fn tournament(
    alloc: Global,
    slots: &[Option<Candidate>],
    half: usize,
) -> Result<Vec<Node>, NoMemory>
    requires few { half < 2 ^ 40 }
    requires fits { length slots.now ≤ half }
    ensures { IfOk result (λ nodes. IsTournament slots.now nodes.items × (length nodes.items ≡ 2 * half)) }
{
    let mut nodes = leaves(alloc, slots, half)?;
    play(slots, &mut nodes, half);
    Ok(nodes)
}

// The leaves, and room for the nodes above them.
fn leaves(alloc: Global, slots: &[Option<Candidate>], half: usize) -> Result<Vec<Node>, AllocError>
    requires { half < 2 ^ 40 }
    ensures { IfOk result (λ nodes. HasLeaves slots.now nodes.items half) }
{
    let mut nodes = Vec::with_capacity(alloc, 2 * half)?;
    nodes.resize(2 * half, Node { order: 0, slot: 0 })?;
    for i in 0..half {
        nodes[half + i] = leaf(slots, i);
    }
    Ok(nodes)
}

// Makes the nodes above the leaves.
fn play(slots: &[Option<Candidate>], nodes: &mut [Node], half: usize)
    requires fits { length slots.now ≤ half }
    requires leaves { HasLeaves slots.now nodes.old half }
    ensures tournament { IsTournament slots.now nodes.new }
    ensures size { length nodes.new ≡ 2 * half }
{
    let mut i = half;
    while i > 1 {
        i -= 1;
        nodes[i] = earlier(slots, nodes[2 * i], nodes[2 * i + 1]);
    }
}
