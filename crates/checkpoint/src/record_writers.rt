// Writes tariffs, versions, uploads and sums, and lists of them.
ghost use Rattle.std.specs.Prelude.{◌≡◌, ◌++◌, true, OnOk};
ghost use Rattle.std.specs.Int.{w8};
ghost use Rattle.uploads.specs.Uploads.{IsUpload};
ghost use Rattle.entry_codec.specs.Fields.{moment_format};
ghost use Rattle.entry_codec.specs.Formats.{number, list, pair};
ghost use Rattle.checkpoint.specs.Parts.{four, month_format, tariff_format, version_format};
ghost use Rattle.checkpoint.specs.Parts.{stack_format, stacks_format};
ghost use Rattle.checkpoint.specs.Parts.{part_format, upload_parts_format, upload_format, uploads_format, sums_format};

use crate::number_writers::{
    put_count, put_flag, put_moment, put_month, put_u32, put_u64, put_u128,
};
use accrual::MonthSums;
use entry_codec::{put_class, put_id, put_key, put_prices, put_size, put_storage, put_tags};
use moments::Month;
use office_base::Key;
use stacks::{Kind, Stack, Version};
use std::alloc::AllocError;
use std::collections::BTreeMap;
use tariff::Tariff;
use uploads::{Part, Upload};

#[tactic(auto, unfolding(crate::specs::Parts::tariff_format))]
fn put_tariff(out: &mut Vec<u8>, tariff: &Tariff) -> Result<(), AllocError>
    ensures bytes { OnOk result (out.new.items ≡ out.old.items ++ tariff_format.written tariff.now) }
    ensures has { OnOk result (tariff_format.has tariff.now ≡ true) }
{
    put_month(out, tariff.from)?;
    put_storage(out, &tariff.storage)?;
    put_prices(out, &tariff.transition)
}

// The tariffs after their number in one byte.
pub(crate) fn put_tariffs(out: &mut Vec<u8>, tariffs: &[Tariff]) -> Result<(), AllocError>
    ensures bytes { OnOk result
        (out.new.items ≡ out.old.items ++ (list (number w8) tariff_format).written tariffs.now) }
    ensures has { OnOk result ((list (number w8) tariff_format).has tariffs.now ≡ true) }
{
    if tariffs.len() > 255 {
        return Err(AllocError);
    }
    out.push(tariffs.len() as u8)?;
    for tariff in tariffs {
        put_tariff(out, tariff)?;
    }
    Ok(())
}

// The closed months, each with its tariff.
pub(crate) fn put_closed(out: &mut Vec<u8>, closed: &[(Month, Tariff)]) -> Result<(), AllocError>
    ensures bytes { OnOk result
        (out.new.items ≡ out.old.items ++ (list four (pair month_format tariff_format)).written closed.now) }
    ensures has { OnOk result ((list four (pair month_format tariff_format)).has closed.now ≡ true) }
{
    put_count(out, closed.len())?;
    for month in closed {
        put_month(out, month.0)?;
        put_tariff(out, &month.1)?;
    }
    Ok(())
}

#[tactic(auto, unfolding(crate::specs::Parts::version_format, crate::specs::Parts::version_head, crate::specs::Parts::object_format))]
fn put_version(out: &mut Vec<u8>, version: &Version) -> Result<(), AllocError>
    ensures bytes { OnOk result (out.new.items ≡ out.old.items ++ version_format.written version.now) }
    ensures has { OnOk result (version_format.has version.now ≡ true) }
{
    put_id(out, version.id)?;
    match &version.kind {
        Kind::Marker => {
            put_flag(out, true)?;
            put_moment(out, version.created)?;
            put_moment(out, version.ceased)
        }
        Kind::Object {
            size,
            class,
            tags,
            entered,
        } => {
            put_flag(out, false)?;
            put_moment(out, version.created)?;
            put_moment(out, version.ceased)?;
            put_size(out, *size)?;
            put_class(out, *class)?;
            put_moment(out, *entered)?;
            put_tags(out, tags)
        }
    }
}

fn put_versions(out: &mut Vec<u8>, versions: &[Version]) -> Result<(), AllocError>
    ensures bytes { OnOk result
        (out.new.items ≡ out.old.items ++ (list four version_format).written versions.now) }
    ensures has { OnOk result ((list four version_format).has versions.now ≡ true) }
{
    put_count(out, versions.len())?;
    for version in versions {
        put_version(out, version)?;
    }
    Ok(())
}

#[tactic(auto, unfolding(crate::specs::Parts::stack_format))]
fn put_stack(out: &mut Vec<u8>, key: &Key, stack: &Stack) -> Result<(), AllocError>
    ensures bytes { OnOk result (out.new.items ≡ out.old.items ++ stack_format.written (key.now, stack.now)) }
    ensures has { OnOk result (stack_format.has (key.now, stack.now) ≡ true) }
{
    put_key(out, key)?;
    put_moment(out, stack.changed())?;
    put_versions(out, stack.versions())
}

#[tactic(auto, unfolding(crate::specs::Parts::part_format))]
fn put_part(out: &mut Vec<u8>, number: u32, part: &Part) -> Result<(), AllocError>
    ensures bytes { OnOk result (out.new.items ≡ out.old.items ++ part_format.written (number, part.now)) }
    ensures has { OnOk result (part_format.has (number, part.now) ≡ true) }
{
    put_u32(out, number)?;
    put_u64(out, part.size)?;
    put_moment(out, part.put)
}

// The stacks of a bucket, by their keys.
#[tactic(auto, using(crate::proofs::Rising::rise_of), unfolding(crate::specs::Parts::stacks_format))]
pub(crate) fn put_stacks(out: &mut Vec<u8>, stacks: &BTreeMap<Key, Stack>) -> Result<(), AllocError>
    ensures bytes { OnOk result (out.new.items ≡ out.old.items ++ stacks_format.written stacks.now.entries) }
    ensures has { OnOk result (stacks_format.has stacks.now.entries ≡ true) }
{
    put_count(out, stacks.len())?;
    for (key, stack) in stacks.iter() {
        put_stack(out, key, stack)?;
    }
    Ok(())
}

#[tactic(auto, using(crate::proofs::Rising::rise_of), unfolding(crate::specs::Parts::upload_parts_format))]
fn put_parts(out: &mut Vec<u8>, parts: &BTreeMap<u32, Part>) -> Result<(), AllocError>
    ensures bytes { OnOk result (out.new.items ≡ out.old.items ++ upload_parts_format.written parts.now.entries) }
    ensures has { OnOk result (upload_parts_format.has parts.now.entries ≡ true) }
{
    put_count(out, parts.len())?;
    for (number, part) in parts.iter() {
        put_part(out, *number, part)?;
    }
    Ok(())
}

// When an upload started and changed last, and its parts.
fn put_progress(out: &mut Vec<u8>, upload: &Upload) -> Result<(), AllocError>
    ensures bytes { OnOk result
        (out.new.items ≡ out.old.items ++ (pair moment_format (pair moment_format upload_parts_format)).written
        (upload.now.started, (upload.now.changed, upload.now.parts))) }
    ensures has { OnOk result ((pair moment_format (pair moment_format upload_parts_format)).has
        (upload.now.started, (upload.now.changed, upload.now.parts)) ≡ true) }
    ensures upload { IsUpload upload.now }
{
    let parts = upload.parts();
    put_moment(out, upload.started())?;
    put_moment(out, upload.changed())?;
    put_parts(out, parts)
}

#[tactic(auto, unfolding(crate::specs::Parts::upload_format, crate::specs::Parts::fields_format))]
fn put_upload(out: &mut Vec<u8>, number: u64, upload: &Upload) -> Result<(), AllocError>
    ensures bytes { OnOk result (out.new.items ≡ out.old.items ++ upload_format.written (number, upload.now)) }
    ensures has { OnOk result (upload_format.has (number, upload.now) ≡ true) }
{
    put_u64(out, number)?;
    put_key(out, upload.key())?;
    put_class(out, upload.class())?;
    put_tags(out, upload.tags())?;
    put_progress(out, upload)
}

// The uploads of a bucket, by their numbers.
#[tactic(auto, using(crate::proofs::Rising::rise_of), unfolding(crate::specs::Parts::uploads_format))]
pub(crate) fn put_uploads(
    out: &mut Vec<u8>,
    uploads: &BTreeMap<u64, Upload>,
) -> Result<(), AllocError>
    ensures bytes { OnOk result (out.new.items ≡ out.old.items ++ uploads_format.written uploads.now.entries) }
    ensures has { OnOk result (uploads_format.has uploads.now.entries ≡ true) }
{
    put_count(out, uploads.len())?;
    for (number, upload) in uploads.iter() {
        put_upload(out, *number, upload)?;
    }
    Ok(())
}
