// Reads fields. A reader takes the value of its field from the front of the bytes that are left of an entry of `total`
// bytes, and returns the bytes after it.
ghost use Rattle.std.specs.Prelude.{◌≡◌, Some, None, if◌then◌else◌};
ghost use Rattle.office_base.specs.Names.{is_bucket_name};
ghost use Rattle.entry_codec.specs.declared.fault.EntryFault.TheVariants.{BadEntry};
ghost use Rattle.entry_codec.specs.Fields as field;
ghost use Rattle.entry_codec.specs.Fields.{ranks, statuses, ids, format, token_format};
ghost use Rattle.entry_codec.specs.Reading.{EntryGives, Finds, place, value_at};

use crate::fault::EntryFault;
use crate::fields::{counted_in, short_counted_in, tags_in, u8_in, u32_in, u64_in};
use class_rules::Class;
use office_base::{BucketName, Key, NameRefusal, NoMemory, Nth, Size, Tags, VersionId};
use office_types::Token;
use std::alloc::Global;

// The fault of the field at the front of the bytes that are left of an entry of `total` bytes.
pub(crate) fn fault_at(total: usize, bytes: &[u8]) -> EntryFault
    ensures { result ≡ BadEntry (place total bytes.now) }
{
    EntryFault::BadEntry {
        offset: total.saturating_sub(bytes.len()) as u64,
    }
}

/// Reads a bucket name, which is all of the bytes; `None` if they are not a valid name.
#[tactic(auto, using(office_base::proofs::Utf8::name_is_text))]
pub fn name_in(alloc: Global, bytes: &[u8]) -> Result<Option<BucketName>, NoMemory>
    ensures { Finds (λ name. name) result (if is_bucket_name bytes.now then Some bytes.now else None) }
{
    let Ok(text) = str::from_utf8(bytes) else {
        return Ok(None);
    };
    match BucketName::read(alloc, text) {
        Ok(name) => Ok(Some(name)),
        Err(NameRefusal::NoMemory) => Err(NoMemory),
        Err(_) => Ok(None),
    }
}

#[tactic(auto, unfolding(crate::specs::Reading::value_at, crate::specs::Fields::format))]
pub(crate) fn name_of(
    alloc: Global,
    total: usize,
    bytes: &[u8],
) -> Result<(BucketName, &[u8]), EntryFault>
    ensures { EntryGives (λ x. (x.0, x.1.now)) result (value_at (format field.Name) total bytes.now) }
{
    let Some((name, rest)) = counted_in(bytes) else {
        return Err(fault_at(total, bytes));
    };
    match name_in(alloc, name)? {
        Some(name) => Ok((name, rest)),
        None => Err(fault_at(total, bytes)),
    }
}

#[tactic(auto, unfolding(crate::specs::Reading::value_at, crate::specs::Fields::format))]
pub(crate) fn key_of(alloc: Global, total: usize, bytes: &[u8]) -> Result<(Key, &[u8]), EntryFault>
    ensures { EntryGives (λ x. (x.0, x.1.now)) result (value_at (format field.Key) total bytes.now) }
{
    let Some((key, rest)) = counted_in(bytes) else {
        return Err(fault_at(total, bytes));
    };
    match Key::read(alloc, key) {
        Ok(key) => Ok((key, rest)),
        Err(NameRefusal::NoMemory) => Err(EntryFault::NoMemory),
        Err(_) => Err(fault_at(total, bytes)),
    }
}

#[tactic(auto, unfolding(crate::specs::Reading::value_at, crate::specs::Fields::format))]
pub(crate) fn size_of(total: usize, bytes: &[u8]) -> Result<(Size, &[u8]), EntryFault>
    ensures { EntryGives (λ x. (x.0, x.1.now)) result (value_at (format field.Size) total bytes.now) }
{
    let Some((number, rest)) = u64_in(bytes) else {
        return Err(fault_at(total, bytes));
    };
    match Size::of(number) {
        Ok(size) => Ok((size, rest)),
        Err(_) => Err(fault_at(total, bytes)),
    }
}

/// Returns the storage class of a rank; `None` above the last rank.
pub fn class_of_rank(rank: u8) -> Option<Class>
    ensures { result ≡ ranks.value rank }
{
    match rank {
        0 => Some(Class::Standard),
        1 => Some(Class::StandardIa),
        2 => Some(Class::OnezoneIa),
        3 => Some(Class::GlacierIr),
        4 => Some(Class::Glacier),
        5 => Some(Class::DeepArchive),
        _ => None,
    }
}

#[tactic(auto, unfolding(crate::specs::Reading::value_at, crate::specs::Fields::format))]
pub(crate) fn class_of(total: usize, bytes: &[u8]) -> Result<(Class, &[u8]), EntryFault>
    ensures { EntryGives (λ x. (x.0, x.1.now)) result (value_at (format field.Rank) total bytes.now) }
{
    let Some((rank, rest)) = u8_in(bytes) else {
        return Err(fault_at(total, bytes));
    };
    match class_of_rank(rank) {
        Some(class) => Ok((class, rest)),
        None => Err(fault_at(total, bytes)),
    }
}

#[tactic(auto, unfolding(crate::specs::Reading::value_at))]
pub(crate) fn tags_of(
    alloc: Global,
    total: usize,
    bytes: &[u8],
) -> Result<(Tags, &[u8]), EntryFault>
    ensures { EntryGives (λ x. (x.0, x.1.now)) result (value_at (format field.Tags) total bytes.now) }
{
    match tags_in(alloc, bytes)? {
        Some(read) => Ok(read),
        None => Err(fault_at(total, bytes)),
    }
}

fn status_of_number(status: u8) -> Option<bool>
    ensures { result ≡ statuses.value status }
{
    match status {
        1 => Some(true),
        2 => Some(false),
        _ => None,
    }
}

// Whether versioning is enabled; else it is suspended.
#[tactic(auto, unfolding(crate::specs::Reading::value_at, crate::specs::Fields::format))]
pub(crate) fn status_of(total: usize, bytes: &[u8]) -> Result<(bool, &[u8]), EntryFault>
    ensures { EntryGives (λ x. (x.0, x.1.now)) result (value_at (format field.Status) total bytes.now) }
{
    let Some((status, rest)) = u8_in(bytes) else {
        return Err(fault_at(total, bytes));
    };
    match status_of_number(status) {
        Some(enabled) => Ok((enabled, rest)),
        None => Err(fault_at(total, bytes)),
    }
}

/// Returns the version id of a number: null for 0.
pub fn id_of_number(number: u64) -> VersionId
    ensures { ids.value number ≡ Some result }
{
    match Nth::of(number) {
        Some(number) => VersionId::Number(number),
        None => VersionId::Null,
    }
}

#[tactic(auto, unfolding(crate::specs::Reading::value_at, crate::specs::Fields::format))]
pub(crate) fn id_of(total: usize, bytes: &[u8]) -> Result<(VersionId, &[u8]), EntryFault>
    ensures { EntryGives (λ x. (x.0, x.1.now)) result (value_at (format field.Id) total bytes.now) }
{
    match u64_in(bytes) {
        Some((number, rest)) => Ok((id_of_number(number), rest)),
        None => Err(fault_at(total, bytes)),
    }
}

#[tactic(auto, unfolding(crate::specs::Reading::value_at, crate::specs::Fields::format))]
pub(crate) fn u32_of(total: usize, bytes: &[u8]) -> Result<(u32, &[u8]), EntryFault>
    ensures { EntryGives (λ x. (x.0, x.1.now)) result (value_at (format field.Number4) total bytes.now) }
{
    match u32_in(bytes) {
        Some(read) => Ok(read),
        None => Err(fault_at(total, bytes)),
    }
}

#[tactic(auto, unfolding(crate::specs::Reading::value_at, crate::specs::Fields::format))]
pub(crate) fn u64_of(total: usize, bytes: &[u8]) -> Result<(u64, &[u8]), EntryFault>
    ensures { EntryGives (λ x. (x.0, x.1.now)) result (value_at (format field.Number8) total bytes.now) }
{
    match u64_in(bytes) {
        Some(read) => Ok(read),
        None => Err(fault_at(total, bytes)),
    }
}

// A token after its length in one byte.
#[tactic(auto, unfolding(crate::specs::Reading::value_at, crate::specs::Fields::token_format))]
pub(crate) fn token_of(
    alloc: Global,
    total: usize,
    bytes: &[u8],
) -> Result<(Token, &[u8]), EntryFault>
    ensures { EntryGives (λ x. (x.0, x.1.now)) result (value_at token_format total bytes.now) }
{
    let Some((token, rest)) = short_counted_in(bytes) else {
        return Err(fault_at(total, bytes));
    };
    match Token::read(alloc, token)? {
        Some(token) => Ok((token, rest)),
        None => Err(fault_at(total, bytes)),
    }
}
