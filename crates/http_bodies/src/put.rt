// The body of a PUT of an object.
ghost use Rattle.http_bodies.specs.Flaws.{BodySays};
ghost use Rattle.http_bodies.specs.Puts.{put_of};

use crate::body::{read_object, text, texts, whole_number};
use crate::fault::BodyFault;
use crate::ranges::{class_in_range, size_in_range, tags_in_range};
use class_rules::Class;
use json::Scratch;
use office_base::{Size, Tags};
use std::alloc::Global;

/// The contents of the body of a PUT of an object.
#[derive(Drop)]
pub struct PutBody {
    /// The size of the object.
    pub size: Size,
    /// Its storage class; STANDARD if the body names none.
    pub class: Class,
    /// Its tags.
    pub tags: Tags,
}

/// Reads the body of a PUT of an object: a JSON object with `size`, a whole number of bytes, and two optional fields.
/// `class` is the name of a storage class, and `tags` is an object of texts. An empty body counts as `{}`.
///
/// Rule: RFC 8259; S3 User Guide, "Uploading objects" (sizes), "Understanding and managing Amazon S3 storage classes"
/// and "Categorizing your objects using tags". Own rules: if a name occurs twice in an object, the last value counts; a
/// missing class is STANDARD; null does not count as missing; a whole number is written as an integer, not as `1.0` or
/// `1e3`.
/// Cost: one pass over the bytes, and one over their values for each field; memory for the values.
///
/// # Errors
///
/// The first of these that applies. `BadBody` with an empty field: the bytes are not a JSON object, or serde_json does
/// not read them (not UTF-8, more than 127 deep, a number too large for a float). `BadBody` with a field: it is none of
/// the three (if several are not, the first in byte order); `size` is missing or not a whole number from 0 to 2^64 - 1;
/// `class` is not a text; `tags` is not an object of texts. `BadSize`, `UnsupportedClass`, `BadTags`: a value is out of
/// range. `NoMemory`: memory ran out.
#[tactic(auto, unfolding(crate::specs::Puts::put_of, crate::specs::Puts::put_in_range))]
pub fn read_put(alloc: Global, bytes: &[u8]) -> Result<PutBody, BodyFault>
    ensures exact { BodySays (λ body. body) result (put_of bytes.now) }
{
    let mut scratch = Scratch::new(alloc);
    let document = read_object(alloc, bytes, &mut scratch, &["size", "class", "tags"])?;
    let body = document.root();
    let size = whole_number(alloc, &body, "size")?;
    let class = text(alloc, &body, "class")?;
    let texts = texts(alloc, &body, "tags")?;
    Ok(PutBody {
        size: size_in_range(size)?,
        class: class_in_range(alloc, class)?,
        tags: tags_in_range(alloc, texts)?,
    })
}
