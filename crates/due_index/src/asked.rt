// What one rule asks for one version or upload.
ghost use Rattle.std.specs.Prelude.{◌≡◌, ◌∷◌, ◌==◌, ℕ, List, [], map, max, if◌then◌else◌};
ghost use Rattle.moments.specs.Time.{due, next_midnight};
ghost use Rattle.due_core.specs.RuleActions.{expirations, expiring, expiration_actions, transition_actions};
ghost use Rattle.due_core.specs.RuleActions.{lone_marker_actions, object_actions, matches_version};
ghost use Rattle.due_core.specs.RuleActions.{keeps_newer, admits_move, due_when, version_actions, upload_actions};
ghost use Rattle.due_core.specs.Search.{sooner};
ghost use Rattle.due_index.specs.Places.{candidate_of};
ghost use Rattle.due_index.specs.Search.{on_key, with_each_due, current_placed};

use crate::place::Place;
use class_rules::{Class, may_go};
use due_core::{ActionKind, Target};
use moments::{Moment, due_after, up};
use office_base::{Key, Size};
use rules_core::{
    Expiration, Filter, Rule, SizeMode, Transition, When, matches, matches_marker, size_admits,
};
use stacks::{Kind, Version, Versioning};
use std::marker::Model;
use uploads::Upload;

/// A target, a rule that matches it, and the moment before which no action on it takes effect.
#[derive(Drop)]
pub(crate) struct Aim<'a> {
    pub(crate) key: &'a Key,
    pub(crate) target: Target,
    pub(crate) age: u64,
    pub(crate) rule: u32,
    pub(crate) not_before: Moment,
}

impl<'a> Model for Aim<'a> {
    ghost use Rattle.due_index.specs.Search.{Aim as AimRecord};

    ghost Value = { AimRecord };

    ghost view = { λ a. record {
      key = a.key.now;
      target = a.target;
      age = a.age;
      rule = a.rule;
      not_before = a.not_before;
    } };
}

/// What a rule's transitions need to know of an object.
#[derive(Drop)]
struct Held {
    size: Size,
    class: Class,
}

impl Held {
    // The object may move to the class.
    fn admits(&self, mode: SizeMode, rule: &Rule, to: Class) -> bool
        ensures { result ≡ admits_move mode rule.now.filter self.now.class self.now.size to }
    {
        may_go(self.class, to) && size_admits(mode, &rule.filter, to, self.size)
    }
}

/// What the actions of a bucket's rules depend on.
#[derive(Clone, Copy)]
pub(crate) struct Setting {
    pub(crate) versioning: Versioning,
    pub(crate) mode: SizeMode,
    pub(crate) rules_since: Moment,
}

/// A version in its stack: how many versions of the key are newer, and how many are older.
#[derive(Drop)]
pub(crate) struct Placed<'a> {
    pub(crate) version: &'a Version,
    pub(crate) newer: u64,
    pub(crate) older: u64,
}

impl<'a> Model for Placed<'a> {
    ghost use Rattle.due_core.specs.RuleActions.{Placed as PlacedRecord};

    ghost Value = { PlacedRecord };

    ghost view = { λ p. record { version = p.version.now; newer = p.newer; older = p.older } };
}

// The later of two moments.
pub(crate) fn later(a: Moment, b: Moment) -> Moment
    ensures { result ≡ max a b }
{
    if a.ms() < b.ms() { b } else { a }
}

// The filter matches the version.
pub(crate) fn matches_version(filter: &Filter, key: &Key, version: &Version) -> bool
    ensures { result ≡ matches_version filter.now key.now version.now }
{
    match &version.kind {
        Kind::Object { size, tags, .. } => matches(filter, key, tags, *size),
        Kind::Marker => matches_marker(filter, key),
    }
}

// There are at least as many newer versions as the rule keeps.
pub(crate) fn keeps_newer(wanted: Option<u32>, newer: u64) -> bool
    ensures { result ≡ keeps_newer wanted newer }
{
    wanted.unwrap_or(0) as u64 <= newer
}

// What an expiration does to a current object.
fn expiring(versioning: Versioning) -> ActionKind
    ensures { result ≡ expiring versioning }
{
    match versioning {
        Versioning::Unversioned => ActionKind::Remove,
        Versioning::Enabled | Versioning::Suspended => ActionKind::Marker,
    }
}

// The earlier of the first action so far and the next one, which is on the same key.
fn sooner(best: Option<Place>, next: Place) -> Place
    ensures { (key : List ℕ) → candidate_of key result ≡ sooner (on_key key best) (candidate_of key next) }
{
    match best {
        Some(best) => { if next.comes_before(&best) { next } else { best } }
        None => next,
    }
}

impl<'a> Aim<'a> {
    // Looks at an action that is due at a moment. It takes effect no earlier than its target or the rules changed.
    fn at(&self, best: &mut Option<Place>, kind: ActionKind, due: Moment)
        ensures { on_key self.now.key best.new
            ≡ with_each_due self.now (on_key self.now.key best.old) ((kind, due) ∷ []) }
    {
        let since = if due.ms() < self.not_before.ms() {
            self.not_before
        } else {
            due
        };
        let next = Place {
            since,
            kind,
            target: self.target,
            age: self.age,
            rule: self.rule,
        };
        *best = Some(sooner(*best, next));
    }

    // Looks at an action that is due this many days after a moment.
    pub(crate) fn in_days(
        &self,
        best: &mut Option<Place>,
        kind: ActionKind,
        from: Moment,
        days: u32,
    )
        ensures { on_key self.now.key best.new
            ≡ with_each_due self.now (on_key self.now.key best.old) ((kind, due from days) ∷ []) }
    {
        match due_after(from, days) {
            Ok(due) => self.at(best, kind, due),
            Err(_) => {}
        }
    }

    // Looks at an action that is due days after the creation, or at a date.
    fn expiring(
        &self,
        best: &mut Option<Place>,
        kind: ActionKind,
        created: Moment,
        expiration: &Expiration,
    )
        ensures { on_key self.now.key best.new
            ≡ with_each_due self.now (on_key self.now.key best.old)
            (map (λ at. (kind, at)) (expirations created expiration.now)) }
    {
        if let Some(days) = expiration.days {
            self.in_days(best, kind, created, days);
        }
        match expiration.date {
            Some(date) => self.at(best, kind, date),
            None => {}
        }
    }

    // Looks at one move of a current object.
    fn transition(
        &self,
        best: &mut Option<Place>,
        mode: SizeMode,
        rule: &Rule,
        object: &Held,
        created: Moment,
        transition: &Transition,
    )
        ensures { on_key self.now.key best.new
            ≡ with_each_due self.now (on_key self.now.key best.old)
            (if admits_move mode rule.now.filter object.now.class object.now.size transition.now.to
            then (ActionKind.Transition transition.now.to, due_when created transition.now.when) ∷ [] else []) }
    {
        if !object.admits(mode, rule, transition.to) {
            return;
        }
        let kind = ActionKind::Transition(transition.to);
        match transition.when {
            When::Days(days) => self.in_days(best, kind, created, days),
            When::Date(date) => self.at(best, kind, date),
        }
    }

    // Looks at the moves of a current object.
    fn transitions(
        &self,
        best: &mut Option<Place>,
        mode: SizeMode,
        rule: &Rule,
        object: &Held,
        created: Moment,
    )
        ensures { on_key self.now.key best.new
            ≡ with_each_due self.now (on_key self.now.key best.old)
            (transition_actions mode rule.now object.now.size object.now.class created) }
    {
        for transition in rule.transitions.as_slice() {
            self.transition(best, mode, rule, object, created, transition);
        }
    }

    // Looks at what expires a current object.
    fn expiration(
        &self,
        best: &mut Option<Place>,
        versioning: Versioning,
        rule: &Rule,
        created: Moment,
    )
        ensures { on_key self.now.key best.new
            ≡ with_each_due self.now (on_key self.now.key best.old) (expiration_actions versioning rule.now created) }
    {
        match &rule.expiration {
            Some(expiration) => self.expiring(best, expiring(versioning), created, expiration),
            None => {}
        }
    }

    // Looks at what removes a delete marker that is the only version of its key.
    fn lone_marker(&self, best: &mut Option<Place>, rule: &Rule, created: Moment, changed: Moment)
        ensures { on_key self.now.key best.new
            ≡ with_each_due self.now (on_key self.now.key best.old) (lone_marker_actions rule.now created changed) }
    {
        match &rule.expiration {
            Some(expiration) => {
                self.expiring(best, ActionKind::Remove, created, expiration);
                if expiration.lone_marker {
                    self.at_midnight(best, ActionKind::Remove, changed)
                } else {}
            }
            None => {}
        }
    }

    // Looks at an action that is due at the first midnight that is not before a moment.
    fn at_midnight(&self, best: &mut Option<Place>, kind: ActionKind, from: Moment)
        ensures { on_key self.now.key best.new
            ≡ with_each_due self.now (on_key self.now.key best.old) ((kind, next_midnight from) ∷ []) }
    {
        match up(from) {
            Ok(due) => self.at(best, kind, due),
            Err(_) => {}
        }
    }

    // Looks at all that a rule asks for a current object.
    fn object(
        &self,
        best: &mut Option<Place>,
        setting: &Setting,
        rule: &Rule,
        object: &Held,
        created: Moment,
    )
        ensures { on_key self.now.key best.new
            ≡ with_each_due self.now (on_key self.now.key best.old)
            (object_actions setting.now.versioning setting.now.mode rule.now object.now.size object.now.class created) }
    {
        self.expiration(best, setting.versioning, rule, created);
        self.transitions(best, setting.mode, rule, object, created);
    }

    // Looks at all that a rule asks for a current delete marker.
    fn marker(
        &self,
        best: &mut Option<Place>,
        rule: &Rule,
        older: u64,
        created: Moment,
        changed: Moment,
    )
        ensures { on_key self.now.key best.new
            ≡ with_each_due self.now (on_key self.now.key best.old)
            (if older == 0 then lone_marker_actions rule.now created changed else []) }
    {
        if older == 0 {
            self.lone_marker(best, rule, created, changed)
        } else {}
    }

    /// Looks at all that a rule asks for a current version.
    #[tactic(auto, unfolding(due_core::specs::RuleActions::version_actions))]
    pub(crate) fn current(
        &self,
        best: &mut Option<Place>,
        setting: &Setting,
        rule: &Rule,
        version: &Version,
        older: u64,
        changed: Moment,
    )
        ensures { on_key self.now.key best.new
            ≡ with_each_due self.now (on_key self.now.key best.old)
            (version_actions setting.now.versioning setting.now.mode changed rule.now
            (current_placed version.now older)) }
    {
        match &version.kind {
            Kind::Object { size, class, .. } => {
                let object = Held {
                    size: *size,
                    class: *class,
                };
                self.object(best, setting, rule, &object, version.created)
            }
            Kind::Marker => self.marker(best, rule, older, version.created, changed),
        }
    }

    /// Looks at what a rule asks for an upload.
    pub(crate) fn upload(&self, best: &mut Option<Place>, rule: &Rule, upload: &Upload)
        ensures { on_key self.now.key best.new
            ≡ with_each_due self.now (on_key self.now.key best.old) (upload_actions rule.now upload.now) }
    {
        match rule.abort_days {
            Some(days) => self.in_days(best, ActionKind::Abort, upload.started(), days),
            None => {}
        }
    }
}
