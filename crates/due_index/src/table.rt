// The enabled rules of a configuration, in the order of their prefixes.
ghost use Rattle.std.specs.Prelude.{◌≡◌, ◌≤◌, ◌<◌, ◌+◌, ◌∷◌, ◌++◌, [], ℕ, length};
ghost use Rattle.std.specs.Prelude.{OnOk, IfOk, if◌then◌else◌, slice_index_or};
ghost use Rattle.std.specs.List.Sorted.{IsPermutation};
ghost use Rattle.office_base.specs.Maps.{bytes_cmp};
ghost use Rattle.due_index.specs.Table.{prefix_at, is_enabled, AreEnabled, IsByPrefix};
ghost use Rattle.due_index.specs.Table.{IsNotBelow, NoneBegins, IsLinked, IsTable};

use office_base::NoMemory;
use rules_core::Rule;
use std::alloc::Global;
use std::cmp::Ordering;
use std::marker::Model;

/// The places of the enabled rules in their configuration, from 0, in the order of their prefixes.
///
/// A prefix of a text is not above the text, and begins every text between the two. So from the last prefix that is not
/// above a text, the parents lead to all prefixes of it.
#[derive(Drop)]
pub(crate) struct RuleTable {
    order: Vec<usize>,
    // For each rule the place in the table, from 1, of the nearest rule before it whose prefix begins its own; 0 if
    // there is none.
    parents: Vec<usize>,
}

impl Model for RuleTable {
    ghost use Rattle.due_index.specs.Table.{TableRecord};

    ghost Value = { TableRecord };

    ghost view = { λ t. record { order = t.order.items; parents = t.parents.items } };
}

// Reads the prefix of the rule at a place.
fn prefix_at(rules: &[Rule], place: usize) -> &[u8]
    ensures { result.now ≡ prefix_at rules.now place }
{
    match rules.get(place) {
        Some(rule) => rule.filter.prefix.as_str().as_bytes(),
        None => &[],
    }
}

// Adds the place of a rule, if the rule is enabled.
fn take_up(order: &mut Vec<usize>, rule: &Rule, place: usize) -> Result<(), NoMemory>
    ensures { OnOk result (order.new.items
        ≡ (if rule.now.enabled then order.old.items ++ place ∷ [] else order.old.items)) }
{
    if !rule.enabled {
        return Ok(());
    }
    Ok(order.push(place)?)
}

// Gives the places of the enabled rules.
fn enabled(alloc: Global, rules: &[Rule]) -> Result<Vec<usize>, NoMemory>
    ensures { IfOk result (λ order. AreEnabled rules.now order.items) }
{
    let mut order = Vec::new(alloc);
    for i in 0..rules.len() {
        take_up(&mut order, &rules[i], i)?;
    }
    Ok(order)
}

// Compares the prefixes of the rules at two places.
fn compare(rules: &[Rule], a: usize, b: usize) -> Ordering
    ensures { result ≡ bytes_cmp (prefix_at rules.now a) (prefix_at rules.now b) }
{
    prefix_at(rules, a).cmp(prefix_at(rules, b))
}

// Sorts places of rules by their prefixes.
fn sort(rules: &[Rule], order: &mut Vec<usize>) -> Result<(), NoMemory>
    ensures same { IsPermutation order.old.items order.new.items }
    ensures by_prefix { OnOk result (IsByPrefix rules.now order.new.items) }
{
    match order.sort_by(|a, b| compare(rules, *a, *b)) {
        Ok(()) => Ok(()),
        Err(_) => Err(NoMemory),
    }
}

// Finds the nearest place up to this one, from 1, whose prefix begins the text; 0 if there is none.
fn climb(rules: &[Rule], order: &[usize], parents: &[usize], from: usize, text: &[u8]) -> usize
    requires within { from ≤ length parents.now }
    requires size { length parents.now ≤ length order.now }
    requires by_prefix { IsByPrefix rules.now order.now }
    requires linked { IsLinked rules.now order.now parents.now }
    requires below { IsNotBelow rules.now order.now text.now from }
    ensures down { result ≤ from }
    ensures none { NoneBegins rules.now order.now text.now result from }
{
    let mut next = from;
    while next > 0 {
        if text.starts_with(prefix_at(rules, order[next - 1])) {
            return next;
        }
        next = parents[next - 1];
    }
    next
}

// Finds for each place the nearest one before it whose prefix begins its own.
fn parents_of(alloc: Global, rules: &[Rule], order: &[usize]) -> Result<Vec<usize>, NoMemory>
    requires { IsByPrefix rules.now order.now }
    ensures linked { IfOk result (λ parents. IsLinked rules.now order.now parents.items) }
    ensures size { IfOk result (λ parents. length parents.items ≡ length order.now) }
{
    let mut parents = Vec::new(alloc);
    for i in 0..order.len() {
        let parent = climb(rules, order, &parents, i, prefix_at(rules, order[i]));
        if parents.push(parent).is_err() {
            return Err(NoMemory);
        }
    }
    Ok(parents)
}

// Finds the first place whose prefix is above the text; the length if there is none.
fn last_before(rules: &[Rule], order: &[usize], text: &[u8]) -> usize
    requires { IsByPrefix rules.now order.now }
    ensures within { result ≤ length order.now }
    ensures below { IsNotBelow rules.now order.now text.now result }
    ensures none { NoneBegins rules.now order.now text.now result (length order.now) }
{
    order.partition_point(|place| !text.cmp(prefix_at(rules, *place)).is_lt())
}

impl RuleTable {
    /// Gives the table without rules. Takes no memory.
    pub(crate) fn new(alloc: Global) -> RuleTable
        ensures { IsTable result [] }
    {
        RuleTable {
            order: Vec::new(alloc),
            parents: Vec::new(alloc),
        }
    }

    /// Makes the table of these rules.
    ///
    /// # Errors
    ///
    /// `NoMemory`: memory ran out.
    pub(crate) fn of(alloc: Global, rules: &[Rule]) -> Result<RuleTable, NoMemory>
        ensures { IfOk result (λ table. IsTable table rules.now) }
    {
        let mut order = enabled(alloc, rules)?;
        sort(rules, &mut order)?;
        let parents = parents_of(alloc, rules, &order)?;
        Ok(RuleTable { order, parents })
    }

    /// Finds the first place, from 0, whose prefix is above a text; the length if there is none.
    pub(crate) fn start(&self, rules: &[Rule], text: &[u8]) -> usize
        requires { IsTable self.now rules.now }
        ensures within { result ≤ length self.now.order }
        ensures below { IsNotBelow rules.now self.now.order text.now result }
        ensures none { NoneBegins rules.now self.now.order text.now result (length self.now.order) }
    {
        last_before(rules, &self.order, text)
    }

    /// Reads the rule at a place of the table.
    pub(crate) fn rule(&self, at: usize) -> usize
        requires { at < length self.now.order }
        ensures { result ≡ slice_index_or self.now.order at 0 }
    {
        self.order[at]
    }

    /// Reads the parent of a place of the table.
    pub(crate) fn parent(&self, at: usize) -> usize
        requires { at < length self.now.parents }
        ensures { result ≡ slice_index_or self.now.parents at 0 }
    {
        self.parents[at]
    }
}
