//! Names, keys, tags, sizes and version ids in range, and the answers that all crates share.
#![tactic(auto)]

mod bucket_name;
mod failed;
mod items;
mod key;
mod refusal;
mod size;
mod tags;
mod text;
mod version_id;

pub use bucket_name::BucketName;
pub use failed::{Failed, NoMemory};
pub use items::Items;
pub use key::Key;
pub use refusal::NameRefusal;
pub use size::Size;
pub use tags::{TagList, Tags, tag_order};
pub use text::Text;
pub use version_id::{Nth, VersionId};
