// The values of fields, in range.
ghost use Rattle.std.specs.Prelude.{◌≡◌, option_map, IfSome};
ghost use Rattle.http_bodies.specs.Flaws.{BodySays, body_flaw_of, unsupported_class};
ghost use Rattle.http_bodies.specs.Pairs.{pairs_of};
ghost use Rattle.http_bodies.specs.Ranges.{size_in_range, class_in_range, tags_in_range};

use crate::fault::BodyFault;
use crate::pairs::{Texts, owned};
use class_rules::Class;
use office_base::{NameRefusal, Size, Tags};
use std::alloc::Global;

pub(crate) fn size_in_range(bytes: u64) -> Result<Size, BodyFault>
    ensures { BodySays (λ size. size) result (size_in_range bytes) }
{
    match Size::of(bytes) {
        Ok(size) => Ok(size),
        Err(_) => Err(BodyFault::BadSize),
    }
}

// The fault of a name that is not that of a class.
fn unsupported(alloc: Global, name: &str) -> BodyFault
    ensures { IfSome (body_flaw_of result) (λ flaw. flaw ≡ unsupported_class name.now) }
{
    match String::from_str(alloc, name) {
        Ok(name) => BodyFault::UnsupportedClass { name },
        Err(_) => BodyFault::NoMemory,
    }
}

pub(crate) fn class_in_range(alloc: Global, name: Option<&str>) -> Result<Class, BodyFault>
    ensures { BodySays (λ class. class) result (class_in_range (option_map (λ n. n.now) name.entry)) }
{
    match name {
        Some(name) => match Class::named(name) {
            Some(class) => Ok(class),
            None => Err(unsupported(alloc, name)),
        },
        None => Ok(Class::Standard),
    }
}

// The most tags that there may be. More pairs are refused before they are copied.
const MOST_TAGS: usize = 10;

#[tactic(auto, unfolding(office_base::specs::Tags::are_tags, office_base::specs::Tags::by_key))]
pub(crate) fn tags_in_range(alloc: Global, texts: Option<Texts<'_>>) -> Result<Tags, BodyFault>
    ensures { BodySays (λ tags. tags) result (tags_in_range (option_map (λ found. pairs_of found.entries)
        texts.entry)) }
{
    let pairs = match texts {
        Some(texts) => {
            if texts.len() > MOST_TAGS {
                return Err(BodyFault::BadTags);
            }
            owned(alloc, texts)?
        }
        None => Vec::new(alloc),
    };
    match Tags::read(alloc, pairs) {
        Ok(tags) => Ok(tags),
        Err(NameRefusal::NoMemory) => Err(BodyFault::NoMemory),
        Err(_) => Err(BodyFault::BadTags),
    }
}
