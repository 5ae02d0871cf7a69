// The stack of a key that had more than one version.
ghost use Rattle.std.specs.Prelude.{◌≡◌, ◌≤◌, IfOk, OnOk, OnErr, true, false};
ghost use Rattle.std.specs.Bool.{IsTrue};
ghost use Rattle.std.specs.List.{list_any};
ghost use Rattle.office_base.specs.declared.version_id.VersionId.{VersionId};
ghost use Rattle.stacks.specs.Stacks.{StackRecord, stack_of, has_id, new_stack, is_stack, IsStack};
ghost use Rattle.stacks.specs.Stacks.{is_entered_until, found, version_at, tags_at};
ghost use Rattle.stacks.specs.Ceasing.{cease_in_order};
ghost use Rattle.stacks.specs.Stacks.{class_at, after_adding, after_removal, after_tags, after_move};

use crate::StackRefusal;
use crate::orderly::do_cease_in_order;
use crate::short_moment::ShortMoment;
use crate::version::{Kind, Version, new};
use crate::versions::Versions;
use class_rules::Class;
use moments::Moment;
use office_base::{Tags, VersionId};
use std::alloc::{AllocError, Global};
use std::marker::Model;

/// A stack whose versions are in a list, however many there are.
#[derive(Drop)]
pub(crate) struct Listed {
    versions: Versions,
    changed: ShortMoment,
    // Each noncurrent version ceased to be current no later than the newer ones.
    in_order: bool,
}

impl Model for Listed {
    ghost use Rattle.std.specs.Prelude.{◌≡◌, true};
    ghost use Rattle.std.specs.Bool.{IsTrue};
    ghost use Rattle.stacks.specs.Ceasing.{cease_in_order};
    ghost use Rattle.stacks.specs.Stacks.{StackRecord, is_stack};

    ghost Value = { StackRecord };

    ghost view = { λ s. record { changed = s.changed; versions = s.versions } };

    ghost invariant = { λ s. IsTrue (is_stack s.changed s.versions)
        × (s.in_order ≡ true → cease_in_order s.changed s.versions ≡ true) };
}

impl Listed {
    // Gives a list without versions. Takes no memory.
    pub(crate) fn new(alloc: Global, at: Moment) -> Listed
        ensures { result ≡ new_stack at }
    {
        Listed {
            versions: Versions::new(alloc),
            changed: ShortMoment::of(at),
            in_order: true,
        }
    }

    // Gives the list of these versions. Takes no memory.
    pub(crate) fn of(changed: Moment, versions: Vec<Version>) -> Listed
        requires { IsTrue (is_stack changed versions.items) }
        ensures { result ≡ stack_of changed versions.items }
    {
        let in_order = do_cease_in_order(changed, &versions);
        Listed {
            versions: Versions::of(versions),
            changed: ShortMoment::of(changed),
            in_order,
        }
    }

    pub(crate) fn changed(&self) -> Moment
        ensures { result ≡ self.now.changed }
    {
        self.changed.moment()
    }

    pub(crate) fn versions(&self) -> &[Version]
        ensures same { result.now ≡ self.now.versions }
        ensures stack { IsStack self.now }
    {
        self.versions.as_slice()
    }

    pub(crate) fn is_in_order(&self) -> bool
        ensures { result ≡ true → cease_in_order self.now.changed self.now.versions ≡ true }
    {
        self.in_order
    }

    pub(crate) fn copy(&self) -> Result<Listed, AllocError>
        ensures { IfOk result (λ stack. stack ≡ self.now) }
    {
        let versions = self.versions.copy()?;
        Ok(Listed {
            versions,
            changed: ShortMoment::of(self.changed.moment()),
            in_order: self.in_order,
        })
    }

    // Puts a version on top; no other version has its id.
    pub(crate) fn add(&mut self, id: VersionId, kind: Kind, at: Moment) -> Result<(), AllocError>
        requires later { self.old.changed ≤ at }
        requires free { list_any (has_id id) self.old.versions ≡ false }
        requires entered { is_entered_until at at kind ≡ true }
        ensures ok { OnOk result (self.new ≡ after_adding id kind at self.old) }
        ensures err { OnErr result (self.new ≡ self.old) }
    {
        let version = new(id, kind, at);
        self.versions.add(version, at)?;
        self.changed = ShortMoment::of(at);
        Ok(())
    }

    // Puts a version on top, in place of the null version, and gives that one.
    pub(crate) fn replace_null(
        &mut self,
        kind: Kind,
        at: Moment,
    ) -> Result<Option<Version>, AllocError>
        requires later { self.old.changed ≤ at }
        requires entered { is_entered_until at at kind ≡ true }
        ensures ok { OnOk result (self.new ≡ after_adding VersionId.Null kind at self.old) }
        ensures gone { IfOk result (λ gone. gone ≡ version_at VersionId.Null self.old.versions) }
        ensures err { OnErr result (self.new ≡ self.old) }
    {
        let version = new(VersionId::Null, kind, at);
        let gone = self.versions.replace(version, at)?;
        self.changed = ShortMoment::of(at);
        Ok(gone)
    }

    pub(crate) fn remove(&mut self, id: VersionId, at: Moment) -> Result<Version, StackRefusal>
        requires later { self.old.changed ≤ at }
        ensures answer { result ≡ found id self.old.versions }
        ensures ok { OnOk result (self.new ≡ after_removal id at self.old) }
        ensures err { OnErr result (self.new ≡ self.old) }
    {
        let gone = self.versions.remove(id)?;
        self.changed = ShortMoment::of(at);
        Ok(gone)
    }

    pub(crate) fn set_tags(
        &mut self,
        id: VersionId,
        tags: Tags,
        at: Moment,
    ) -> Result<Tags, StackRefusal>
        requires later { self.old.changed ≤ at }
        ensures answer { result ≡ tags_at id self.old.versions }
        ensures ok { OnOk result (self.new ≡ after_tags id tags at self.old) }
        ensures err { OnErr result (self.new ≡ self.old) }
    {
        let before = self.versions.set_tags(id, tags)?;
        self.changed = ShortMoment::of(at);
        Ok(before)
    }

    pub(crate) fn move_class(
        &mut self,
        id: VersionId,
        to: Class,
        at: Moment,
    ) -> Result<Class, StackRefusal>
        requires later { self.old.changed ≤ at }
        ensures answer { result ≡ class_at id self.old.versions }
        ensures ok { OnOk result (self.new ≡ after_move id to at self.old) }
        ensures err { OnErr result (self.new ≡ self.old) }
    {
        let before = self.versions.move_class(id, to, at)?;
        self.changed = ShortMoment::of(at);
        Ok(before)
    }
}
