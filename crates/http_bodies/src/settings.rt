// The bodies that set the versioning of a bucket, or the tags of a version.
ghost use Rattle.http_bodies.specs.Flaws.{BodySays};
ghost use Rattle.http_bodies.specs.Settings.{versioning_of, tagging_of};

use crate::body::{needed_texts, read_object, status};
use crate::fault::BodyFault;
use crate::ranges::tags_in_range;
use json::Scratch;
use office_base::Tags;
use std::alloc::Global;

/// Reads whether the versioning of a bucket is to be enabled: a JSON object with `Status`, `Enabled` (true) or
/// `Suspended` (false). An empty body counts as `{}`.
///
/// Rule: S3 User Guide, "Enabling versioning on buckets".
/// Cost: one pass over the bytes, and one over their values for each field; memory for the values.
///
/// # Errors
///
/// `BadBody` with an empty field: the bytes are not a JSON object. `BadBody` with a field: it is not `Status` (if
/// several are not, the first in byte order); `Status` is missing, or is neither of the two texts. `NoMemory`: memory
/// ran out.
#[tactic(auto, unfolding(crate::specs::Settings::versioning_of))]
pub fn read_status(alloc: Global, bytes: &[u8]) -> Result<bool, BodyFault>
    ensures exact { BodySays (λ enabled. enabled) result (versioning_of bytes.now) }
{
    let mut scratch = Scratch::new(alloc);
    let document = read_object(alloc, bytes, &mut scratch, &["Status"])?;
    status(alloc, &document.root(), "Status")
}

/// Reads the tags that a version is to have: a JSON object with `tags`, an object of texts. An empty body counts as
/// `{}`.
///
/// Rule: S3 User Guide, "Categorizing your objects using tags". Own rule: the field is required, and may have no tags.
/// Cost: one pass over the bytes, and one over their values for each field; memory for the values.
///
/// # Errors
///
/// `BadBody` with an empty field: the bytes are not a JSON object. `BadBody` with a field: it is not `tags` (if several
/// are not, the first in byte order); `tags` is missing or not an object of texts. `BadTags`: the tags are out of
/// range. `NoMemory`: memory ran out.
#[tactic(auto, unfolding(crate::specs::Settings::tagging_of))]
pub fn read_tags(alloc: Global, bytes: &[u8]) -> Result<Tags, BodyFault>
    ensures exact { BodySays (λ tags. tags) result (tagging_of bytes.now) }
{
    let mut scratch = Scratch::new(alloc);
    let document = read_object(alloc, bytes, &mut scratch, &["tags"])?;
    let texts = needed_texts(alloc, &document.root(), "tags")?;
    tags_in_range(alloc, Some(texts))
}
