// The only version of a key, and what a change of its stack does to it.
ghost use Rattle.std.specs.Prelude.{◌≡◌, ◌≤◌, ◌+◌, [], ◌∷◌, IfOk, OnOk, OnErr, true, false, vec_len, vec_capacity};
ghost use Rattle.std.specs.Bool.{IsTrue};
ghost use Rattle.stacks.specs.Stacks.{stack_of, has_id, is_stack, is_entered_until, found, tags_at, class_at};
ghost use Rattle.stacks.specs.Stacks.{without, changed_at, with_tags, with_class, after_adding};

use crate::StackRefusal;
use crate::listed::Listed;
use crate::version::{Kind, Version, filler, is_named, new};
use class_rules::Class;
use moments::Moment;
use office_base::{Tags, VersionId};
use std::alloc::{AllocError, Global};
use std::mem;

// Takes the version out, if it has this id. A filler is left.
pub(crate) fn take(version: &mut Version, id: VersionId) -> Result<Version, StackRefusal>
    ensures answer { result ≡ found id (version.old ∷ []) }
    ensures ok { OnOk result (without id (version.old ∷ []) ≡ []) }
    ensures err { OnErr result (version.new ≡ version.old) }
{
    if !is_named(version, id) {
        return Err(StackRefusal::NoSuchVersion);
    }
    Ok(mem::replace(version, filler()))
}

// Replaces the tags, if the version has this id, and gives those before.
pub(crate) fn set_tags(
    version: &mut Version,
    id: VersionId,
    tags: Tags,
) -> Result<Tags, StackRefusal>
    ensures answer { result ≡ tags_at id (version.old ∷ []) }
    ensures after { version.new ∷ [] ≡ changed_at id (with_tags tags) (version.old ∷ []) }
    ensures err { OnErr result (version.new ≡ version.old) }
{
    if !is_named(version, id) {
        return Err(StackRefusal::NoSuchVersion);
    }
    version.set_tags(tags)
}

// Moves the object to a class, if the version has this id, and gives the one before.
pub(crate) fn move_class(
    version: &mut Version,
    id: VersionId,
    to: Class,
    at: Moment,
) -> Result<Class, StackRefusal>
    ensures answer { result ≡ class_at id (version.old ∷ []) }
    ensures after { version.new ∷ [] ≡ changed_at id (with_class to at) (version.old ∷ []) }
    ensures err { OnErr result (version.new ≡ version.old) }
{
    if !is_named(version, id) {
        return Err(StackRefusal::NoSuchVersion);
    }
    version.move_class(to, at)
}

// The list of a version that is put above the only one, whose id is another. `items` is empty, with room for two.
fn both(mut items: Vec<Version>, above: Version, below: Version, at: Moment) -> Listed
    requires empty { items.items ≡ [] }
    requires room { vec_len items + 2 ≤ vec_capacity items }
    requires stack { IsTrue (is_stack at (above ∷ record below { ceased = at } ∷ [])) }
    ensures { result ≡ stack_of at (above ∷ record below { ceased = at } ∷ []) }
{
    items.push_reserved(above);
    items.push_reserved(Version {
        ceased: at,
        ..below
    });
    Listed::of(at, items)
}

// Makes the list of a version that is put above this one, whose id is another. A filler is left. If memory runs out,
// the version stays.
pub(crate) fn listed(
    version: &mut Version,
    alloc: Global,
    id: VersionId,
    kind: Kind,
    changed: Moment,
    at: Moment,
) -> Result<Box<Listed>, AllocError>
    requires later { changed ≤ at }
    requires stack { IsTrue (is_stack changed (version.old ∷ [])) }
    requires other { has_id id version.old ≡ false }
    requires entered { is_entered_until at at kind ≡ true }
    ensures ok { IfOk result (λ list. list.value ≡ after_adding id kind at (stack_of changed (version.old ∷ []))) }
    ensures err { OnErr result (version.new ≡ version.old) }
{
    let mut list = Box::new(alloc, Listed::new(alloc, at))?;
    let items = Vec::with_capacity(alloc, 2)?;
    let below = mem::replace(version, filler());
    *list = both(items, new(id, kind, at), below, at);
    Ok(list)
}
