// A row of the table: a stay, and whose it is.
ghost use Rattle.std.specs.Prelude.{◌≡◌};
ghost use Rattle.plain_office.specs.Office.{of_version};
ghost use Rattle.stay_explain.specs.Rows.{item_of};

use class_rules::Lines;
use moments::Moment;
use office_base::{Key, VersionId};

/// What is stored under a key: its null version, a version with a number, or a part of an unfinished upload.
#[derive(Clone, Copy, Debug, PartialEq, Eq, PartialOrd, Ord)]
pub enum Item {
    Null,
    Number(u64),
    Part(u64, u32),
}

/// Returns the item of a version.
pub(crate) fn item_of(id: VersionId) -> Item
    ensures { item_of result ≡ of_version id }
{
    match id {
        VersionId::Null => Item::Null,
        VersionId::Number(number) => Item::Number(number.get()),
    }
}

/// Whose stay it is: an item under a key.
#[derive(PartialEq, Eq, PartialOrd, Ord, Drop)]
pub struct Owner {
    pub key: Key,
    pub item: Item,
}

/// A stay: its lines from a moment to another, or without an end yet.
#[derive(Drop)]
pub struct Row {
    pub owner: Owner,
    pub lines: Lines,
    pub from: Moment,
    pub to: Option<Moment>,
}
