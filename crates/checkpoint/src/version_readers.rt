// Reads versions and stacks.
ghost use Rattle.std.specs.Prelude.{◌≡◌, IfOk, IfSome, option_map};
ghost use Rattle.stacks.specs.Stacks.{is_stack};
ghost use Rattle.entry_codec.specs.Formats.{◌such_that◌};
ghost use Rattle.entry_codec.specs.Reading.{Finds};
ghost use Rattle.checkpoint.specs.Combining.{exactly};
ghost use Rattle.checkpoint.specs.Parts.{object_of, object_or_none, object_format, version_head};
ghost use Rattle.checkpoint.specs.Parts.{version_format, stack_format};

use crate::field_readers::{class_in, flag_in, id_in, key_in, size_in};
use crate::spelled::{Spelled, items_in};
use class_rules::Class;
use entry_codec::{moment_in, tags_in, u32_in};
use moments::Moment;
use office_base::{Key, NoMemory, Size, Tags, VersionId};
use stacks::{Kind, Stack, Version};
use std::alloc::Global;

// What is written of each version.
#[derive(Drop)]
struct Head {
    id: VersionId,
    marker: bool,
    created: Moment,
    ceased: Moment,
}

// The fields of an object.
#[derive(Drop)]
struct Object {
    size: Size,
    class: Class,
    entered: Moment,
    tags: Tags,
}

#[tactic(auto, unfolding(crate::specs::Parts::version_head))]
fn head_in(bytes: &[u8]) -> Option<(Head, &[u8])>
    ensures { option_map (λ x. ((x.0.id, (x.0.marker, (x.0.created, x.0.ceased))), x.1.now)) result
        ≡ version_head.front bytes.now }
{
    let (id, rest) = match id_in(bytes) {
        Some(read) => read,
        None => return None,
    };
    let (marker, rest) = flag_in(rest)?;
    let (created, rest) = match moment_in(rest) {
        Some(read) => read,
        None => return None,
    };
    let (ceased, rest) = match moment_in(rest) {
        Some(read) => read,
        None => return None,
    };
    Some((
        Head {
            id,
            marker,
            created,
            ceased,
        },
        rest,
    ))
}

#[tactic(auto, unfolding(crate::specs::Parts::object_format))]
fn object_in(alloc: Global, bytes: &[u8]) -> Result<Option<(Object, &[u8])>, NoMemory>
    ensures { Finds (λ x. ((x.0.size, (x.0.class, (x.0.entered, x.0.tags))), x.1.now)) result
        (object_format.front bytes.now) }
{
    let Some((size, rest)) = size_in(bytes) else {
        return Ok(None);
    };
    let Some((class, rest)) = class_in(rest) else {
        return Ok(None);
    };
    let Some((entered, rest)) = moment_in(rest) else {
        return Ok(None);
    };
    let Some((tags, rest)) = tags_in(alloc, rest)? else {
        return Ok(None);
    };
    Ok(Some((
        Object {
            size,
            class,
            entered,
            tags,
        },
        rest,
    )))
}

// The kind that follows the head: nothing more for a marker.
fn kind_in(alloc: Global, marker: bool, bytes: &[u8]) -> Result<Option<(Kind, &[u8])>, NoMemory>
    ensures { Finds (λ x. (object_of x.0, x.1.now)) result ((object_or_none marker).front bytes.now) }
{
    if marker {
        return Ok(Some((Kind::Marker, bytes)));
    }
    let Some((object, rest)) = object_in(alloc, bytes)? else {
        return Ok(None);
    };
    let kind = Kind::Object {
        size: object.size,
        class: object.class,
        tags: object.tags,
        entered: object.entered,
    };
    Ok(Some((kind, rest)))
}

impl Spelled for Version {
    ghost format = { version_format };

    #[tactic(auto, unfolding(crate::specs::Parts::version_format))]
    fn read(alloc: Global, bytes: &[u8]) -> Result<Option<(Version, &[u8])>, NoMemory> {
        let Some((head, rest)) = head_in(bytes) else {
            return Ok(None);
        };
        let Some((kind, rest)) = kind_in(alloc, head.marker, rest)? else {
            return Ok(None);
        };
        let version = Version {
            id: head.id,
            kind,
            created: head.created,
            ceased: head.ceased,
        };
        Ok(Some((version, rest)))
    }
}

// This many versions, newest first, as a stack that changed last at this moment. A version of its own goes into the
// stack without a list.
#[tactic(auto, unfolding(entry_codec::specs::Formats::front_items))]
fn versions_in(
    alloc: Global,
    changed: Moment,
    count: usize,
    bytes: &[u8],
) -> Result<Option<(Stack, &[u8])>, NoMemory>
    ensures versions { Finds (λ x. (x.0.versions, x.1.now)) result
        ((exactly count version_format such_that is_stack changed).front bytes.now) }
    ensures changed { IfOk result (λ found. IfSome found (λ x. x.0.changed ≡ changed)) }
{
    let (stack, rest) = if count == 1 {
        let Some((version, rest)) = Version::read(alloc, bytes)? else {
            return Ok(None);
        };
        (Stack::of_one(alloc, changed, version)?, rest)
    } else {
        let Some((versions, rest)) = items_in(alloc, count, bytes)? else {
            return Ok(None);
        };
        (Stack::of(changed, versions)?, rest)
    };
    match stack {
        Some(stack) => Ok(Some((stack, rest))),
        None => Ok(None),
    }
}

impl Spelled for (Key, Stack) {
    ghost format = { stack_format };

    #[tactic(auto, unfolding(crate::specs::Parts::stack_format, crate::specs::Parts::four))]
    fn read(alloc: Global, bytes: &[u8]) -> Result<Option<((Key, Stack), &[u8])>, NoMemory> {
        let Some((key, rest)) = key_in(alloc, bytes)? else {
            return Ok(None);
        };
        let Some((changed, rest)) = moment_in(rest) else {
            return Ok(None);
        };
        let Some((count, rest)) = u32_in(rest) else {
            return Ok(None);
        };
        match versions_in(alloc, changed, count as usize, rest)? {
            Some((stack, rest)) => Ok(Some(((key, stack), rest))),
            None => Ok(None),
        }
    }
}
