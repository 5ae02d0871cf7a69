// Reads uploads and their parts.
ghost use Rattle.entry_codec.specs.Fields.{moment_format};
ghost use Rattle.entry_codec.specs.Reading.{Finds};
ghost use Rattle.checkpoint.specs.Parts.{part_format, upload_parts_format, upload_format, uploads_format};

use crate::field_readers::{class_in, key_in};
use crate::maps::map_of;
use crate::spelled::{Spelled, list_in};
use entry_codec::{moment_in, tags_in, u32_in, u64_in};
use office_base::NoMemory;
use std::alloc::Global;
use std::collections::BTreeMap;
use uploads::{Part, Upload};

impl Spelled for (u32, Part) {
    ghost format = { part_format };

    #[tactic(auto, unfolding(crate::specs::Parts::part_format, crate::specs::Parts::four, crate::specs::Parts::eight))]
    fn read(_alloc: Global, bytes: &[u8]) -> Result<Option<((u32, Part), &[u8])>, NoMemory> {
        let Some((number, rest)) = u32_in(bytes) else {
            return Ok(None);
        };
        let Some((size, rest)) = u64_in(rest) else {
            return Ok(None);
        };
        let (put, rest) = match moment_in(rest) {
            Some(read) => read,
            None => return Ok(None),
        };
        Ok(Some(((number, Part { size, put }), rest)))
    }
}

// The parts of an upload, by their numbers.
#[tactic(auto, unfolding(crate::specs::Parts::upload_parts_format))]
fn parts_in(alloc: Global, bytes: &[u8]) -> Result<Option<(BTreeMap<u32, Part>, &[u8])>, NoMemory>
    ensures { Finds (λ x. (x.0.entries, x.1.now)) result (upload_parts_format.front bytes.now) }
{
    let Some((parts, rest)) = list_in(alloc, bytes)? else {
        return Ok(None);
    };
    match map_of(alloc, parts)? {
        Some(parts) => Ok(Some((parts, rest))),
        None => Ok(None),
    }
}

// An upload, if its parts are some that it may have.
impl Spelled for (u64, Upload) {
    ghost format = { upload_format };

    #[tactic(auto, unfolding(crate::specs::Parts::upload_format, crate::specs::Parts::fields_format, crate::specs::Parts::eight))]
    fn read(alloc: Global, bytes: &[u8]) -> Result<Option<((u64, Upload), &[u8])>, NoMemory> {
        let Some((number, rest)) = u64_in(bytes) else {
            return Ok(None);
        };
        let Some((key, rest)) = key_in(alloc, rest)? else {
            return Ok(None);
        };
        let Some((class, rest)) = class_in(rest) else {
            return Ok(None);
        };
        let Some((tags, rest)) = tags_in(alloc, rest)? else {
            return Ok(None);
        };
        let Some((started, rest)) = moment_in(rest) else {
            return Ok(None);
        };
        let Some((changed, rest)) = moment_in(rest) else {
            return Ok(None);
        };
        let Some((parts, rest)) = parts_in(alloc, rest)? else {
            return Ok(None);
        };
        match Upload::of(key, class, tags, started, changed, parts) {
            Some(upload) => Ok(Some(((number, upload), rest))),
            None => Ok(None),
        }
    }
}
