// A candidate, and which of two comes first.
ghost use Rattle.std.specs.Prelude.{◌≡◌, IfOk};
ghost use Rattle.due_core.specs.Choice.{kind_place, coldness, precedence, comes_before};
ghost use Rattle.due_core.specs.Search.{sooner};

use crate::{Action, ActionKind, Target};
use class_rules::rank;
use moments::Moment;
use office_base::{Key, NoMemory};
use std::cmp::Ordering;
use std::marker::Model;

/// A candidate whose key is that of its target.
#[derive(Drop)]
pub(crate) struct Found<'a> {
    pub(crate) kind: ActionKind,
    pub(crate) key: &'a Key,
    pub(crate) target: Target,
    pub(crate) rule: u32,
    pub(crate) since: Moment,
    pub(crate) age: u64,
}

impl<'a> Model for Found<'a> {
    ghost use Rattle.due_core.specs.declared.action.Candidate.{Candidate};

    ghost Value = { Candidate };

    ghost view = { λ f. record {
      action = record { kind = f.kind; key = f.key.now; target = f.target; rule = f.rule; since = f.since };
      age = f.age;
    } };
}

// The place of a kind in the order: removals, transitions, delete markers, aborts.
fn kind_place(kind: ActionKind) -> u8
    ensures { result ≡ kind_place kind }
{
    match kind {
        ActionKind::Remove => 0,
        ActionKind::Transition(_) => 1,
        ActionKind::Marker => 2,
        ActionKind::Abort => 3,
    }
}

// The rank of the class to which an action moves; 0 for other kinds.
fn coldness(kind: ActionKind) -> u8
    ensures { result ≡ coldness kind }
{
    match kind {
        ActionKind::Transition(to) => rank(to),
        _ => 0,
    }
}

/// Own rule: by moment, kind, key, older version or lower upload, colder class, and place of the rule.
pub(crate) fn precedence(a: &Found<'_>, b: &Found<'_>) -> Ordering
    ensures { result ≡ precedence a.now b.now }
{
    match a.since.ms().cmp(&b.since.ms()) {
        Ordering::Equal => {}
        decided => return decided,
    }
    match kind_place(a.kind).cmp(&kind_place(b.kind)) {
        Ordering::Equal => {}
        decided => return decided,
    }
    match a.key.cmp(b.key) {
        Ordering::Equal => {}
        decided => return decided,
    }
    let colder = coldness(b.kind).cmp(&coldness(a.kind));
    a.age.cmp(&b.age).then(colder.then(a.rule.cmp(&b.rule)))
}

fn comes_before(a: &Found<'_>, b: &Found<'_>) -> bool
    ensures { result ≡ comes_before a.now b.now }
{
    precedence(a, b).is_lt()
}

/// The earlier of the first candidate so far and the next one.
pub(crate) fn sooner<'a>(best: Option<Found<'a>>, next: Found<'a>) -> Found<'a>
    ensures { result ≡ sooner best.entry next.entry }
{
    match best {
        Some(best) => {
            if comes_before(&next, &best) {
                next
            } else {
                best
            }
        }
        None => next,
    }
}

impl<'a> Found<'a> {
    /// Gives the action, with a key of its own. Fails only if memory runs out.
    pub(crate) fn action(&self) -> Result<Action, NoMemory>
        ensures { IfOk result (λ action. action ≡ self.now.action) }
    {
        let key = self.key.copy()?;
        Ok(Action {
            kind: self.kind,
            key,
            target: self.target,
            rule: self.rule,
            since: self.since,
        })
    }
}
