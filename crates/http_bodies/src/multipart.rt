// The bodies of a multipart upload.
ghost use Rattle.http_bodies.specs.Flaws.{BodySays};
ghost use Rattle.http_bodies.specs.Multipart.{upload_said, part_of};

use crate::body::{read_object, text, texts, whole_number};
use crate::fault::BodyFault;
use crate::ranges::{class_in_range, tags_in_range};
use class_rules::Class;
use json::Scratch;
use office_base::Tags;
use std::alloc::Global;

/// The contents of the body that starts a multipart upload.
#[derive(Drop)]
pub struct UploadBody {
    /// The storage class of the object; STANDARD if the body names none.
    pub class: Class,
    /// Its tags.
    pub tags: Tags,
}

/// Reads the body that starts a multipart upload: a JSON object with two optional fields. `class` is the name of a
/// storage class, and `tags` is an object of texts. An empty body counts as `{}`.
///
/// Rule: S3 User Guide, "Uploading and copying objects using multipart upload", "Understanding and managing Amazon S3
/// storage classes" and "Categorizing your objects using tags". Own rules: those of `read_put`.
/// Cost: one pass over the bytes, and one over their values for each field; memory for the values.
///
/// # Errors
///
/// The first of these that applies. `BadBody` with an empty field: the bytes are not a JSON object. `BadBody` with a
/// field: it is neither of the two (if several are not, the first in byte order); `class` is not a text; `tags` is not
/// an object of texts. `UnsupportedClass`, `BadTags`: a value is out of range. `NoMemory`: memory ran out.
#[tactic(auto, unfolding(crate::specs::Multipart::upload_said, crate::specs::Multipart::upload_in_range))]
pub fn read_upload(alloc: Global, bytes: &[u8]) -> Result<UploadBody, BodyFault>
    ensures exact { BodySays (λ body. body) result (upload_said bytes.now) }
{
    let mut scratch = Scratch::new(alloc);
    let document = read_object(alloc, bytes, &mut scratch, &["class", "tags"])?;
    let body = document.root();
    let class = text(alloc, &body, "class")?;
    let texts = texts(alloc, &body, "tags")?;
    Ok(UploadBody {
        class: class_in_range(alloc, class)?,
        tags: tags_in_range(alloc, texts)?,
    })
}

/// Reads the size of a part in bytes: a JSON object with `size`, a whole number. An empty body counts as `{}`.
///
/// Own rules: a whole number is written as an integer; the range of a part's size is not checked here.
/// Cost: one pass over the bytes, and one over their values for each field; memory for the values.
///
/// # Errors
///
/// `BadBody` with an empty field: the bytes are not a JSON object. `BadBody` with a field: it is not `size` (if several
/// are not, the first in byte order); `size` is missing or not a whole number from 0 to 2^64 - 1. `NoMemory`: memory
/// ran out.
#[tactic(auto, unfolding(crate::specs::Multipart::part_of))]
pub fn read_part(alloc: Global, bytes: &[u8]) -> Result<u64, BodyFault>
    ensures exact { BodySays (λ size. size) result (part_of bytes.now) }
{
    let mut scratch = Scratch::new(alloc);
    let document = read_object(alloc, bytes, &mut scratch, &["size"])?;
    whole_number(alloc, &document.root(), "size")
}
