// What a search keeps of the candidates.
ghost use Rattle.std.specs.Prelude.{◌≡◌, [], map, IfOk, option_map, unwrap_or};
ghost use Rattle.due_core.specs.Choice.{IsInOrder, IsQueue};
ghost use Rattle.due_core.specs.Search.{nothing_found, none_of_all, took, with_come};

use crate::Action;
use crate::found::{Found, precedence, sooner};
use moments::Moment;
use office_base::NoMemory;
use std::alloc::Global;
use std::marker::Model;

/// The first of the candidates whose moment has come, or all of them.
#[derive(Drop)]
pub(crate) struct Findings<'a> {
    /// The first so far, in a search for the first.
    first: Option<Found<'a>>,
    /// All so far, in a search for all.
    all: Option<Vec<Found<'a>>>,
}

impl<'a> Model for Findings<'a> {
    ghost use Rattle.std.specs.Prelude.{option_map};
    ghost use Rattle.due_core.specs.Search.{Findings as FindingsRecord};

    ghost Value = { FindingsRecord };

    ghost view = { λ k. record { first = k.first; all = option_map (λ v. v.items) k.all } };
}

impl<'a> Findings<'a> {
    /// Starts a search for the first.
    pub(crate) fn first() -> Self
        ensures { result ≡ nothing_found }
    {
        Findings {
            first: None,
            all: None,
        }
    }

    /// Starts a search for all.
    pub(crate) fn all(alloc: Global) -> Self
        ensures { result ≡ none_of_all }
    {
        Findings {
            first: None,
            all: Some(Vec::new(alloc)),
        }
    }

    // Keeps the next candidate.
    fn take(&mut self, next: Found<'a>) -> Result<(), NoMemory>
        ensures { IfOk result (λ _. self.new ≡ took self.old next.entry) }
    {
        if let Some(all) = &mut self.all {
            return Ok(all.push(next)?);
        }
        self.first = Some(sooner(self.first.take(), next));
        Ok(())
    }

    /// Looks at the next candidate, and keeps it if its moment has come.
    pub(crate) fn look(&mut self, next: Found<'a>, t: Moment) -> Result<(), NoMemory>
        ensures { IfOk result (λ _. self.new ≡ with_come t self.old next.entry) }
    {
        if next.since.ms() <= t.ms() {
            self.take(next)
        } else {
            Ok(())
        }
    }

    /// Gives the action of the first candidate.
    pub(crate) fn action(&self) -> Result<Option<Action>, NoMemory>
        ensures { IfOk result (λ action. action ≡ option_map (λ found. found.action) self.now.first) }
    {
        match &self.first {
            Some(found) => Ok(Some(found.action()?)),
            None => Ok(None),
        }
    }

    /// Gives all candidates, in the order in which they were looked at.
    pub(crate) fn into_all(self, alloc: Global) -> Vec<Found<'a>>
        ensures { result.items ≡ unwrap_or self.entry.all [] }
    {
        match self.all {
            Some(all) => all,
            None => Vec::new(alloc),
        }
    }
}

// Sorts candidates into the order in which they are done.
fn sort(found: &mut Vec<Found<'_>>) -> Result<(), NoMemory>
    ensures { IfOk result (λ _. IsInOrder found.old.items found.new.items) }
{
    match found.sort_by(|a, b| precedence(a, b)) {
        Ok(()) => Ok(()),
        Err(_) => Err(NoMemory),
    }
}

// Gives the actions of candidates.
fn actions(alloc: Global, found: &[Found<'_>]) -> Result<Vec<Action>, NoMemory>
    ensures { IfOk result (λ actions. actions.items ≡ map (λ candidate. candidate.action) found.now) }
{
    let mut actions = Vec::new(alloc);
    for candidate in found {
        if actions.push(candidate.action()?).is_err() {
            return Err(NoMemory);
        }
    }
    Ok(actions)
}

/// Gives the actions of candidates in the order in which they are done.
pub(crate) fn queue(alloc: Global, found: Vec<Found<'_>>) -> Result<Vec<Action>, NoMemory>
    ensures { IfOk result (λ queue. IsQueue found.entry.items queue.items) }
{
    let mut ordered = found;
    sort(&mut ordered)?;
    actions(alloc, &ordered)
}
