// Which stays a command ends and begins.
ghost use Rattle.std.specs.Prelude.{◌≡◌, ◌++◌, ◌∷◌, [], ℕ, map, length, Some, None, OnOk, IfOk};
ghost use Rattle.std.specs.Prelude.{option_copied, option_map};
ghost use Rattle.class_rules.specs.Lines.{lines_of, marker_line};
ghost use Rattle.stacks.specs.Stacks as stack;
ghost use Rattle.stacks.specs.Stacks.{kind_with_class};
ghost use Rattle.stacks.specs.declared.version.Versioning.{Versioning};
ghost use Rattle.due_core.specs.Choice.{choice};
ghost use Rattle.plain_office.specs.Office.{of_version};
ghost use Rattle.plain_office.specs.Books.{lines_of_kind};
ghost use Rattle.plain_office.specs.Changes.{next_id, versions_of};
ghost use Rattle.stay_explain.specs.Plans as plans;
ghost use Rattle.stay_explain.specs.Plans.{plan_of, part_items};
ghost use Rattle.stay_explain.specs.Rows.{item_of};

use crate::row::{Item, item_of};
use bucket_account::Account;
use class_rules::{Class, Lines, billed, marker_lines, part_lines};
use due_core::{Action, ActionKind, Bucket, Target};
use moments::Moment;
use office_base::{Key, NoMemory, VersionId};
use office_types::Command;
use stacks::{Kind, Version, Versioning};
use std::alloc::Global;
use std::marker::Model;
use uploads::Upload;

/// What a command books in its bucket: under a key the stays of these items end at a moment, and then one may begin.
#[derive(Drop)]
pub(crate) struct Booking {
    pub key: Key,
    pub ends: Vec<Item>,
    pub begins: Option<(Item, Lines)>,
    pub at: Moment,
}

impl Model for Booking {
    ghost use Rattle.std.specs.Prelude.{map, option_map};
    ghost use Rattle.class_rules.specs.Lines.{lines_of};
    ghost use Rattle.stay_explain.specs.Plans.{Plan};
    ghost use Rattle.stay_explain.specs.Rows.{item_of};

    ghost Value = { Plan };

    ghost view = { λ b. record {
      key = b.key;
      ends = map item_of b.ends.items;
      begins = option_map (λ begun. (item_of begun.0, lines_of begun.1)) b.begins;
      at = b.at;
    } };
}

type Maybe = Result<Option<Booking>, NoMemory>;

fn planned(key: &Key, ends: Vec<Item>, begins: Option<(Item, Lines)>, at: Moment) -> Maybe
    ensures { IfOk result (λ made. made ≡ Some (record {
      key = key.now;
      ends = map item_of ends.items;
      begins = option_map (λ begun. (item_of begun.0, lines_of begun.1)) begins;
      at = at;
    })) }
{
    let key = key.copy()?;
    Ok(Some(Booking {
        key,
        ends,
        begins,
        at,
    }))
}

fn with(ends: &mut Vec<Item>, item: Item) -> Result<(), NoMemory>
    ensures { OnOk result (map item_of ends.new.items ≡ map item_of ends.old.items ++ item_of item ∷ []) }
{
    Ok(ends.push(item)?)
}

/// Returns the item of the bucket's next version.
fn next_item(bucket: &Bucket) -> Item
    ensures { item_of result ≡ of_version (next_id bucket.now) }
{
    match bucket.versioning {
        Versioning::Enabled => Item::Number(bucket.next_version),
        Versioning::Unversioned | Versioning::Suspended => Item::Null,
    }
}

/// A version comes. These items go, and then the null version, if the new version is the null version.
fn comes(bucket: &Bucket, key: &Key, ends: Vec<Item>, lines: Lines, at: Moment) -> Maybe
    ensures { IfOk result (λ made.
        made ≡ Some (plans.comes bucket.now key.now (map item_of ends.items) (lines_of lines) at)) }
{
    let mut ends = ends;
    if !matches!(bucket.versioning, Versioning::Enabled) {
        with(&mut ends, Item::Null)?;
    }
    planned(key, ends, Some((next_item(bucket), lines)), at)
}

/// A version goes.
fn goes(alloc: Global, key: &Key, item: Item, at: Moment) -> Maybe
    ensures { IfOk result (λ made. made ≡ Some (plans.goes key.now (item_of item) at)) }
{
    let mut ends = Vec::new(alloc);
    with(&mut ends, item)?;
    planned(key, ends, None, at)
}

fn marker_of(key: &Key) -> Lines
    ensures { lines_of result ≡ marker_line (length key.now) }
{
    marker_lines(key.bytes().len() as u64)
}

/// A key is deleted.
fn deleted(alloc: Global, bucket: &Bucket, key: &Key, at: Moment) -> Maybe
    ensures { IfOk result (λ made. made ≡ Some (plans.deleted bucket.now.versioning bucket.now key.now at)) }
{
    match bucket.versioning {
        Versioning::Unversioned => goes(alloc, key, Item::Null, at),
        Versioning::Enabled | Versioning::Suspended => {
            comes(bucket, key, Vec::new(alloc), marker_of(key), at)
        }
    }
}

fn find(versions: &[Version], id: VersionId) -> Option<&Version>
    ensures { option_copied result ≡ stack.version_at id versions.now }
{
    versions.iter().find(|version| version.id == id)
}

fn version_at<'a>(bucket: &'a Bucket, key: &Key, id: VersionId) -> Option<&'a Version>
    ensures { option_copied result ≡ stack.version_at id (versions_of key.now bucket.now) }
{
    match bucket.stacks.get(key) {
        Some(stack) => find(stack.versions(), id),
        None => None,
    }
}

/// What is billed of a version in another class.
fn lines_in(key: &Key, kind: &Kind, to: Class) -> Lines
    ensures { (at : ℕ) → lines_of result ≡ lines_of_kind key.now (kind_with_class to at kind.now) }
{
    match kind {
        Kind::Object { size, .. } => billed(to, size.bytes()),
        Kind::Marker => marker_of(key),
    }
}

/// A version leaves its class for another one.
fn moves(alloc: Global, bucket: &Bucket, key: &Key, id: &VersionId, to: Class, at: Moment) -> Maybe
    ensures { IfOk result (λ made. made
        ≡ plans.moves key.now id.now to at (stack.version_at id.now (versions_of key.now bucket.now))) }
{
    let Some(version) = version_at(bucket, key, *id) else {
        return Ok(None);
    };
    let item = item_of(*id);
    let lines = lines_in(key, &version.kind, to);
    let mut ends = Vec::new(alloc);
    with(&mut ends, item)?;
    planned(key, ends, Some((item, lines)), at)
}

/// A part is put, in the place of the one with its number.
fn part_put(alloc: Global, upload: &Upload, number: u64, part: u32, size: u64, at: Moment) -> Maybe
    ensures { IfOk result (λ made. made ≡ plans.part_put number part size at (Some upload.now)) }
{
    let item = Item::Part(number, part);
    let mut ends = Vec::new(alloc);
    with(&mut ends, item)?;
    let lines = part_lines(upload.class(), size);
    planned(upload.key(), ends, Some((item, lines)), at)
}

fn parts_of(alloc: Global, upload: &Upload, number: u64) -> Result<Vec<Item>, NoMemory>
    ensures { IfOk result (λ items. map item_of items.items ≡ part_items number upload.now.parts) }
{
    let mut items = Vec::new(alloc);
    for (part, _) in upload.parts().iter() {
        with(&mut items, Item::Part(number, *part))?;
    }
    Ok(items)
}

/// An upload goes with all its parts.
fn dropped(alloc: Global, upload: &Upload, number: u64, at: Moment) -> Maybe
    ensures { IfOk result (λ made. made ≡ plans.dropped number at (Some upload.now)) }
{
    let ends = parts_of(alloc, upload, number)?;
    planned(upload.key(), ends, None, at)
}

/// The parts of an upload go, and the object of their bytes comes.
fn completed(alloc: Global, bucket: &Bucket, upload: &Upload, number: u64, at: Moment) -> Maybe
    ensures { IfOk result (λ made. made ≡ plans.completed bucket.now number at (Some upload.now)) }
{
    let Ok(size) = upload.whole() else {
        return Ok(None);
    };
    let ends = parts_of(alloc, upload, number)?;
    let lines = billed(upload.class(), size.bytes());
    comes(bucket, upload.key(), ends, lines, at)
}

/// A lifecycle action is done to a version.
fn done_to_version(alloc: Global, bucket: &Bucket, action: &Action, id: &VersionId) -> Maybe
    ensures { IfOk result (λ made. made ≡ plans.action_done bucket.now action.now.key action.now.since action.now.kind
        (Target.Version id.now)) }
{
    let (key, since) = (&action.key, action.since);
    match action.kind {
        ActionKind::Remove => goes(alloc, key, item_of(*id), since),
        ActionKind::Transition(to) => moves(alloc, bucket, key, id, to, since),
        ActionKind::Marker => comes(bucket, key, Vec::new(alloc), marker_of(key), since),
        ActionKind::Abort => Ok(None),
    }
}

/// A lifecycle action is done to an upload.
fn done_to_upload(alloc: Global, bucket: &Bucket, action: &Action, number: u64) -> Maybe
    ensures { IfOk result (λ made. made ≡ plans.action_done bucket.now action.now.key action.now.since action.now.kind
        (Target.Upload number)) }
{
    match action.kind {
        ActionKind::Abort => match bucket.uploads.get(&number) {
            Some(upload) => dropped(alloc, upload, number, action.since),
            None => Ok(None),
        },
        _ => Ok(None),
    }
}

/// A lifecycle action is done.
fn done(alloc: Global, bucket: &Bucket, action: &Action) -> Maybe
    ensures { IfOk result (λ made. made
        ≡ plans.action_done bucket.now action.now.key action.now.since action.now.kind action.now.target) }
{
    match action.target {
        Target::Version(id) => done_to_version(alloc, bucket, action, &id),
        Target::Upload(number) => done_to_upload(alloc, bucket, action, number),
    }
}

/// The first lifecycle action that is due is done.
fn acted(alloc: Global, account: &Account, t: Moment) -> Maybe
    ensures { IfOk result (λ made. made ≡ plans.acted account.now.bucket (choice account.now.bucket t)) }
{
    match account.chosen(t)? {
        Some(action) => done(alloc, account.bucket(), &action),
        None => Ok(None),
    }
}

/// Returns which stays of its bucket a command ends and begins that is accepted at a moment.
///
/// Cost: a few searches; an act takes the first of the bucket's queue of next actions. If there is no queue because
/// memory ran out, it reads all versions and uploads of the bucket.
#[tactic(auto, unfolding(crate::specs::Plans::plan_of))]
pub(crate) fn plan(alloc: Global, account: &Account, t: Moment, command: &Command) -> Maybe
    ensures { IfOk result (λ made. made ≡ plan_of t command.now account.now.bucket) }
{
    let bucket = account.bucket();
    match command {
        Command::Put {
            key,
            size,
            class,
            ..
        } => comes(
            bucket,
            key,
            Vec::new(alloc),
            billed(*class, size.bytes()),
            t,
        ),
        Command::Delete { key, .. } => deleted(alloc, bucket, key, t),
        Command::DeleteVersion { key, id, .. } => goes(alloc, key, item_of(*id), t),
        Command::PutPart {
            upload,
            part,
            size,
            ..
        } => match bucket.uploads.get(upload) {
            Some(found) => part_put(alloc, found, *upload, *part, *size, t),
            None => Ok(None),
        },
        Command::Complete { upload, .. } => match bucket.uploads.get(upload) {
            Some(found) => completed(alloc, bucket, found, *upload, t),
            None => Ok(None),
        },
        Command::Abort { upload, .. } => match bucket.uploads.get(upload) {
            Some(found) => dropped(alloc, found, *upload, t),
            None => Ok(None),
        },
        Command::Act { .. } => acted(alloc, account, t),
        _ => Ok(None),
    }
}
