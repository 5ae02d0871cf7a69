// What one rule asks for one version or upload.
ghost use Rattle.std.specs.Prelude.{◌≡◌, ◌∷◌, ◌-◌, ◌==◌, [], map, IfOk, if◌then◌else◌};
ghost use Rattle.moments.specs.Time.{due, next_midnight};
ghost use Rattle.due_core.specs.RuleActions.{expirations, expiring, expiration_actions, transition_actions};
ghost use Rattle.due_core.specs.RuleActions.{noncurrent_removals, noncurrent_transitions, lone_marker_actions};
ghost use Rattle.due_core.specs.RuleActions.{keeps_newer, admits_move, due_when, version_actions, upload_actions};
ghost use Rattle.due_core.specs.Search.{with_each_due, asked_of_object};

use crate::findings::Findings;
use crate::found::Found;
use crate::{ActionKind, Target};
use class_rules::{Class, may_go};
use moments::{Moment, due_after, up};
use office_base::{Key, NoMemory, Size};
use rules_core::{Expiration, Rule, SizeMode, Transition, When, size_admits};
use stacks::{Kind, Version, Versioning};
use std::marker::Model;
use uploads::Upload;

/// A target, a rule that matches it, the moment before which no action on it takes effect, and the moment of the
/// search.
#[derive(Drop)]
pub(crate) struct Aim<'a> {
    pub(crate) key: &'a Key,
    pub(crate) target: Target,
    pub(crate) age: u64,
    pub(crate) rule: u32,
    pub(crate) not_before: Moment,
    pub(crate) t: Moment,
}

impl<'a> Model for Aim<'a> {
    ghost use Rattle.due_core.specs.Search.{Aim as AimRecord};

    ghost Value = { AimRecord };

    ghost view = { λ a. record {
      key = a.key.now;
      target = a.target;
      age = a.age;
      rule = a.rule;
      not_before = a.not_before;
      t = a.t;
    } };
}

/// What a rule's transitions need to know of an object.
#[derive(Drop)]
struct Held {
    size: Size,
    class: Class,
}

impl Held {
    // The object may move to the class.
    fn admits(&self, mode: SizeMode, rule: &Rule, to: Class) -> bool
        ensures { result ≡ admits_move mode rule.now.filter self.now.class self.now.size to }
    {
        may_go(self.class, to) && size_admits(mode, &rule.filter, to, self.size)
    }
}

/// What the actions of a bucket's rules depend on.
#[derive(Drop)]
pub(crate) struct Setting {
    pub(crate) versioning: Versioning,
    pub(crate) mode: SizeMode,
    pub(crate) rules_since: Moment,
    /// The moment of the search.
    pub(crate) t: Moment,
}

/// A version in its stack: how many versions of the key are newer, and how many are older.
#[derive(Drop)]
pub(crate) struct Placed<'a> {
    pub(crate) version: &'a Version,
    pub(crate) newer: u64,
    pub(crate) older: u64,
}

impl<'a> Model for Placed<'a> {
    ghost use Rattle.due_core.specs.RuleActions.{Placed as PlacedRecord};

    ghost Value = { PlacedRecord };

    ghost view = { λ p. record { version = p.version.now; newer = p.newer; older = p.older } };
}

// There are at least as many newer versions as the rule keeps.
fn keeps_newer(wanted: Option<u32>, newer: u64) -> bool
    ensures { result ≡ keeps_newer wanted newer }
{
    wanted.unwrap_or(0) as u64 <= newer
}

// What an expiration does to a current object.
fn expiring(versioning: Versioning) -> ActionKind
    ensures { result ≡ expiring versioning }
{
    match versioning {
        Versioning::Unversioned => ActionKind::Remove,
        Versioning::Enabled | Versioning::Suspended => ActionKind::Marker,
    }
}

impl<'a> Aim<'a> {
    // Looks at an action that is due at a moment. It takes effect no earlier than its target or the rules changed.
    fn at(&self, kept: &mut Findings<'a>, kind: ActionKind, due: Moment) -> Result<(), NoMemory>
        ensures { IfOk result (λ _. kept.new ≡ with_each_due self.now kept.old ((kind, due) ∷ [])) }
    {
        let since = if due.ms() < self.not_before.ms() {
            self.not_before
        } else {
            due
        };
        let found = Found {
            kind,
            key: self.key,
            target: self.target,
            rule: self.rule,
            since,
            age: self.age,
        };
        kept.look(found, self.t)
    }

    // Looks at an action that is due this many days after a moment.
    fn in_days(
        &self,
        kept: &mut Findings<'a>,
        kind: ActionKind,
        from: Moment,
        days: u32,
    ) -> Result<(), NoMemory>
        ensures { IfOk result (λ _. kept.new ≡ with_each_due self.now kept.old ((kind, due from days) ∷ [])) }
    {
        match due_after(from, days) {
            Ok(due) => self.at(kept, kind, due),
            Err(_) => Ok(()),
        }
    }

    // Looks at an action that is due days after the creation, or at a date.
    fn expiring(
        &self,
        kept: &mut Findings<'a>,
        kind: ActionKind,
        created: Moment,
        expiration: &Expiration,
    ) -> Result<(), NoMemory>
        ensures { IfOk result (λ _. kept.new
            ≡ with_each_due self.now kept.old (map (λ at. (kind, at)) (expirations created expiration.now))) }
    {
        if let Some(days) = expiration.days {
            self.in_days(kept, kind, created, days)?;
        }
        match expiration.date {
            Some(date) => self.at(kept, kind, date),
            None => Ok(()),
        }
    }

    // Looks at one move of a current object.
    fn transition(
        &self,
        kept: &mut Findings<'a>,
        mode: SizeMode,
        rule: &Rule,
        object: &Held,
        created: Moment,
        transition: &Transition,
    ) -> Result<(), NoMemory>
        ensures { IfOk result (λ _. kept.new ≡ with_each_due self.now kept.old
            (if admits_move mode rule.now.filter object.now.class object.now.size transition.now.to
            then (ActionKind.Transition transition.now.to, due_when created transition.now.when) ∷ [] else [])) }
    {
        if !object.admits(mode, rule, transition.to) {
            return Ok(());
        }
        let kind = ActionKind::Transition(transition.to);
        match transition.when {
            When::Days(days) => self.in_days(kept, kind, created, days),
            When::Date(date) => self.at(kept, kind, date),
        }
    }

    // Looks at the moves of a current object.
    fn transitions(
        &self,
        kept: &mut Findings<'a>,
        mode: SizeMode,
        rule: &Rule,
        object: &Held,
        created: Moment,
    ) -> Result<(), NoMemory>
        ensures { IfOk result (λ _. kept.new ≡ with_each_due self.now kept.old
            (transition_actions mode rule.now object.now.size object.now.class created)) }
    {
        for transition in rule.transitions.as_slice() {
            self.transition(kept, mode, rule, object, created, transition)?;
        }
        Ok(())
    }

    // Looks at the moves of a noncurrent object.
    fn noncurrent_moves(
        &self,
        kept: &mut Findings<'a>,
        mode: SizeMode,
        rule: &Rule,
        object: &Held,
        newer: u64,
        ceased: Moment,
    ) -> Result<(), NoMemory>
        ensures { IfOk result (λ _. kept.new ≡ with_each_due self.now kept.old
            (noncurrent_transitions mode rule.now object.now.size object.now.class newer ceased)) }
    {
        for step in rule.noncurrent_moves.as_slice() {
            if keeps_newer(step.newer, newer) && object.admits(mode, rule, step.to) {
                let kind = ActionKind::Transition(step.to);
                self.in_days(kept, kind, ceased, step.days)?;
            }
        }
        Ok(())
    }

    // Looks at the removal of a noncurrent version.
    fn noncurrent_removal(
        &self,
        kept: &mut Findings<'a>,
        rule: &Rule,
        newer: u64,
        ceased: Moment,
    ) -> Result<(), NoMemory>
        ensures { IfOk result (λ _. kept.new
            ≡ with_each_due self.now kept.old (noncurrent_removals rule.now newer ceased)) }
    {
        match rule.noncurrent_expiration {
            Some(expiration) => {
                if keeps_newer(expiration.newer, newer) {
                    self.in_days(kept, ActionKind::Remove, ceased, expiration.days)
                } else {
                    Ok(())
                }
            }
            None => Ok(()),
        }
    }

    // Looks at what expires a current object.
    fn expiration(
        &self,
        kept: &mut Findings<'a>,
        versioning: Versioning,
        rule: &Rule,
        created: Moment,
    ) -> Result<(), NoMemory>
        ensures { IfOk result (λ _. kept.new
            ≡ with_each_due self.now kept.old (expiration_actions versioning rule.now created)) }
    {
        match &rule.expiration {
            Some(expiration) => self.expiring(kept, expiring(versioning), created, expiration),
            None => Ok(()),
        }
    }

    // Looks at what removes a delete marker that is the only version of its key.
    fn lone_marker(
        &self,
        kept: &mut Findings<'a>,
        rule: &Rule,
        created: Moment,
        changed: Moment,
    ) -> Result<(), NoMemory>
        ensures { IfOk result (λ _. kept.new
            ≡ with_each_due self.now kept.old (lone_marker_actions rule.now created changed)) }
    {
        match &rule.expiration {
            Some(expiration) => {
                self.expiring(kept, ActionKind::Remove, created, expiration)?;
                if expiration.lone_marker {
                    self.at_midnight(kept, ActionKind::Remove, changed)
                } else {
                    Ok(())
                }
            }
            None => Ok(()),
        }
    }

    // Looks at an action that is due at the first midnight that is not before a moment.
    fn at_midnight(
        &self,
        kept: &mut Findings<'a>,
        kind: ActionKind,
        from: Moment,
    ) -> Result<(), NoMemory>
        ensures { IfOk result (λ _. kept.new ≡ with_each_due self.now kept.old ((kind, next_midnight from) ∷ [])) }
    {
        match up(from) {
            Ok(due) => self.at(kept, kind, due),
            Err(_) => Ok(()),
        }
    }

    // Looks at all that a rule asks for an object with this many newer versions.
    fn object(
        &self,
        kept: &mut Findings<'a>,
        setting: &Setting,
        rule: &Rule,
        object: &Held,
        version: &Version,
        newer: u64,
    ) -> Result<(), NoMemory>
        ensures { IfOk result (λ _. kept.new ≡ with_each_due self.now kept.old
            (asked_of_object setting.now rule.now object.now version.now newer)) }
    {
        if newer == 0 {
            self.expiration(kept, setting.versioning, rule, version.created)?;
            return self.transitions(kept, setting.mode, rule, object, version.created);
        }
        let ceased = version.ceased;
        self.noncurrent_removal(kept, rule, newer - 1, ceased)?;
        self.noncurrent_moves(kept, setting.mode, rule, object, newer - 1, ceased)
    }

    // Looks at all that a rule asks for a delete marker.
    fn marker(
        &self,
        kept: &mut Findings<'a>,
        rule: &Rule,
        placed: &Placed<'a>,
        changed: Moment,
    ) -> Result<(), NoMemory>
        ensures { IfOk result (λ _. kept.new ≡ with_each_due self.now kept.old
            (if placed.now.newer == 0
            then (if placed.now.older == 0 then lone_marker_actions rule.now placed.now.version.created changed else [])
            else noncurrent_removals rule.now (placed.now.newer - 1) placed.now.version.ceased)) }
    {
        if placed.newer == 0 {
            if placed.older == 0 {
                self.lone_marker(kept, rule, placed.version.created, changed)
            } else {
                Ok(())
            }
        } else {
            self.noncurrent_removal(kept, rule, placed.newer - 1, placed.version.ceased)
        }
    }

    /// Looks at all that a rule asks for a version.
    #[tactic(auto, unfolding(crate::specs::RuleActions::version_actions))]
    pub(crate) fn version(
        &self,
        kept: &mut Findings<'a>,
        setting: &Setting,
        rule: &Rule,
        placed: &Placed<'a>,
        changed: Moment,
    ) -> Result<(), NoMemory>
        ensures { IfOk result (λ _. kept.new ≡ with_each_due self.now kept.old
            (version_actions setting.now.versioning setting.now.mode changed rule.now placed.now)) }
    {
        match &placed.version.kind {
            Kind::Object { size, class, .. } => {
                let object = Held {
                    size: *size,
                    class: *class,
                };
                self.object(kept, setting, rule, &object, placed.version, placed.newer)
            }
            Kind::Marker => self.marker(kept, rule, placed, changed),
        }
    }

    /// Looks at what a rule asks for an upload.
    pub(crate) fn upload(
        &self,
        kept: &mut Findings<'a>,
        rule: &Rule,
        upload: &Upload,
    ) -> Result<(), NoMemory>
        ensures { IfOk result (λ _. kept.new ≡ with_each_due self.now kept.old (upload_actions rule.now upload.now)) }
    {
        match rule.abort_days {
            Some(days) => self.in_days(kept, ActionKind::Abort, upload.started(), days),
            None => Ok(()),
        }
    }
}
