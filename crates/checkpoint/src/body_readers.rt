// Reads the body of a slot.
ghost use Rattle.std.specs.Prelude.{◌≡◌};
ghost use Rattle.std.specs.Int.{w8};
ghost use Rattle.entry_codec.specs.Formats.{number, list};
ghost use Rattle.entry_codec.specs.Reading.{Finds};
ghost use Rattle.checkpoint.specs.Parts.{tariff_format};
ghost use Rattle.checkpoint.specs.Bodies.{front_format, lists_format, bucket_of, joined, body_format};

use crate::bucket_readers::{BucketHead, Stacks, Sums, Uploads};
use crate::field_readers::{first_open_in, last_in};
use crate::spelled::{Spelled, items_in, list_in};
use due_core::Bucket;
use entry_codec::u8_in;
use moments::{Moment, Month};
use office_base::NoMemory;
use office_snapshot::{BucketPart, Snapshot};
use std::alloc::Global;
use tariff::Tariff;

// What the office has once.
#[derive(Drop)]
struct Front {
    last: Option<Moment>,
    first_open: Option<Month>,
    tariffs: Vec<Tariff>,
    closed: Vec<(Month, Tariff)>,
}

// The lists of all buckets.
#[derive(Drop)]
struct Lists {
    stacks: Vec<Stacks>,
    uploads: Vec<Uploads>,
    sums: Vec<Sums>,
}

// The tariffs after their number in one byte.
fn tariffs_in(alloc: Global, bytes: &[u8]) -> Result<Option<(Vec<Tariff>, &[u8])>, NoMemory>
    ensures { Finds (λ x. (x.0.items, x.1.now)) result ((list (number w8) tariff_format).front bytes.now) }
{
    let Some((count, rest)) = u8_in(bytes) else {
        return Ok(None);
    };
    items_in(alloc, count as usize, rest)
}

#[tactic(auto, unfolding(crate::specs::Bodies::front_format))]
fn front_in(alloc: Global, bytes: &[u8]) -> Result<Option<(Front, &[u8])>, NoMemory>
    ensures { Finds
        (λ x. ((x.0.last, (x.0.first_open, (x.0.tariffs.items, x.0.closed.items))), x.1.now))
        result (front_format.front bytes.now) }
{
    let Some((last, rest)) = last_in(bytes) else {
        return Ok(None);
    };
    let Some((first_open, rest)) = first_open_in(rest) else {
        return Ok(None);
    };
    let Some((tariffs, rest)) = tariffs_in(alloc, rest)? else {
        return Ok(None);
    };
    let Some((closed, rest)) = list_in(alloc, rest)? else {
        return Ok(None);
    };
    let front = Front {
        last,
        first_open,
        tariffs,
        closed,
    };
    Ok(Some((front, rest)))
}

// The lists of this many buckets.
#[tactic(auto, unfolding(crate::specs::Bodies::lists_format))]
fn lists_in(alloc: Global, count: usize, bytes: &[u8]) -> Result<Option<(Lists, &[u8])>, NoMemory>
    ensures { Finds (λ x. ((x.0.stacks.items, (x.0.uploads.items, x.0.sums.items)), x.1.now))
        result ((lists_format count).front bytes.now) }
{
    let Some((stacks, rest)) = items_in(alloc, count, bytes)? else {
        return Ok(None);
    };
    let Some((uploads, rest)) = items_in(alloc, count, rest)? else {
        return Ok(None);
    };
    let Some((sums, rest)) = items_in(alloc, count, rest)? else {
        return Ok(None);
    };
    let lists = Lists {
        stacks,
        uploads,
        sums,
    };
    Ok(Some((lists, rest)))
}

fn part_of(head: BucketHead, stacks: Stacks, uploads: Uploads, sums: Sums) -> BucketPart
    ensures { result ≡ bucket_of head stacks uploads sums }
{
    BucketPart {
        name: head.name,
        bucket: Bucket {
            versioning: head.versioning,
            rules: head.rules,
            rules_since: head.rules_since,
            stacks: stacks.stacks,
            uploads: uploads.uploads,
            next_version: head.next_version,
            next_upload: head.next_upload,
        },
        sums: sums.sums,
    }
}

// The buckets of these heads and lists; None if there are not as many of each.
fn joined(
    alloc: Global,
    heads: Vec<BucketHead>,
    lists: Lists,
) -> Result<Option<Vec<BucketPart>>, NoMemory>
    ensures { Finds (λ parts. parts.items) result
        (joined heads.items lists.stacks.items lists.uploads.items lists.sums.items) }
{
    let mut parts = Vec::new(alloc);
    let mut stacks = lists.stacks.into_iter();
    let mut uploads = lists.uploads.into_iter();
    let mut sums = lists.sums.into_iter();
    for head in heads {
        let Some(its_stacks) = stacks.next() else {
            drop(head);
            return Ok(None);
        };
        let Some(its_uploads) = uploads.next() else {
            drop(head);
            drop(its_stacks);
            return Ok(None);
        };
        let Some(its_sums) = sums.next() else {
            drop(head);
            drop(its_stacks);
            drop(its_uploads);
            return Ok(None);
        };
        if parts
            .push(part_of(head, its_stacks, its_uploads, its_sums))
            .is_err()
        {
            return Err(NoMemory);
        }
    }
    if stacks.next().is_some() {
        return Ok(None);
    }
    if uploads.next().is_some() {
        return Ok(None);
    }
    if sums.next().is_some() {
        return Ok(None);
    }
    Ok(Some(parts))
}

// The snapshot at the front of the bytes, and the bytes after it.
#[tactic(auto, unfolding(crate::specs::Bodies::body_format, crate::specs::Bodies::parts_format, crate::specs::Bodies::buckets_format))]
pub(crate) fn snapshot_in(
    alloc: Global,
    bytes: &[u8],
) -> Result<Option<(Snapshot, &[u8])>, NoMemory>
    ensures { Finds (λ x. (x.0, x.1.now)) result (body_format.front bytes.now) }
{
    let Some((front, rest)) = front_in(alloc, bytes)? else {
        return Ok(None);
    };
    let Some((heads, rest)) = list_in(alloc, rest)? else {
        return Ok(None);
    };
    let Some((lists, rest)) = lists_in(alloc, heads.len(), rest)? else {
        drop(front);
        return Ok(None);
    };
    let Some((kept, rest)) = list_in(alloc, rest)? else {
        drop(front);
        drop(lists);
        return Ok(None);
    };
    let Some(buckets) = joined(alloc, heads, lists)? else {
        drop(front);
        return Ok(None);
    };
    let snapshot = Snapshot {
        last: front.last,
        first_open: front.first_open,
        tariffs: front.tariffs,
        closed: front.closed,
        buckets,
        kept,
    };
    Ok(Some((snapshot, rest)))
}
