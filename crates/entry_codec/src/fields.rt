// Reads the parts of fields. A reader takes its value from the front of the bytes, and returns it with the bytes after
// it; it returns `None` if no such value is there.
ghost use Rattle.std.specs.Prelude.{◌≡◌, option_map, IfOk};
ghost use Rattle.std.specs.Int.{w8, w16, w32, w64};
ghost use Rattle.office_base.specs.Tags.{tag_of, tags_of, is_tag_before, keys_rise};
ghost use Rattle.entry_codec.specs.Formats.{number, counted_text, front_items};
ghost use Rattle.entry_codec.specs.Fields as field;
ghost use Rattle.entry_codec.specs.Fields.{utf8_text, tag_format, format};
ghost use Rattle.entry_codec.specs.Reading.{Finds};

use office_base::{NameRefusal, NoMemory, Tags};
use std::alloc::{AllocError, Global};

// The most tags of an object.
const MOST_TAGS: u8 = 10;

/// Reads one byte; returns it and the bytes after it.
pub fn u8_in(bytes: &[u8]) -> Option<(u8, &[u8])>
    ensures { option_map (λ x. (x.0, x.1.now)) result ≡ (number w8).front bytes.now }
{
    if bytes.is_empty() {
        return None;
    }
    let (front, rest) = bytes.split_at(1);
    Some((front[0], rest))
}

/// Reads a number of two bytes, high byte first; returns it and the bytes after it.
pub fn u16_in(bytes: &[u8]) -> Option<(u16, &[u8])>
    ensures { option_map (λ x. (x.0, x.1.now)) result ≡ (number w16).front bytes.now }
{
    if bytes.len() < 2 {
        return None;
    }
    let (front, rest) = bytes.split_at(2);
    Some((u16::from_be_bytes([front[0], front[1]]), rest))
}

/// Reads a number of four bytes, high byte first; returns it and the bytes after it.
pub fn u32_in(bytes: &[u8]) -> Option<(u32, &[u8])>
    ensures { option_map (λ x. (x.0, x.1.now)) result ≡ (number w32).front bytes.now }
{
    if bytes.len() < 4 {
        return None;
    }
    let (front, rest) = bytes.split_at(4);
    Some((
        u32::from_be_bytes([front[0], front[1], front[2], front[3]]),
        rest,
    ))
}

/// Reads a number of eight bytes, high byte first; returns it and the bytes after it.
pub fn u64_in(bytes: &[u8]) -> Option<(u64, &[u8])>
    ensures { option_map (λ x. (x.0, x.1.now)) result ≡ (number w64).front bytes.now }
{
    if bytes.len() < 8 {
        return None;
    }
    let (front, rest) = bytes.split_at(8);
    let number = u64::from_be_bytes([
        front[0], front[1], front[2], front[3], front[4], front[5], front[6], front[7],
    ]);
    Some((number, rest))
}

/// Reads a length in one byte, and that many bytes.
pub fn short_counted_in(bytes: &[u8]) -> Option<(&[u8], &[u8])>
    ensures { option_map (λ x. (x.0.now, x.1.now)) result ≡ (counted_text (number w8)).front bytes.now }
{
    let (len, rest) = u8_in(bytes)?;
    if rest.len() < len as usize {
        return None;
    }
    Some(rest.split_at(len as usize))
}

/// Reads a length in two bytes, and that many bytes.
pub fn counted_in(bytes: &[u8]) -> Option<(&[u8], &[u8])>
    ensures { option_map (λ x. (x.0.now, x.1.now)) result ≡ (counted_text (number w16)).front bytes.now }
{
    let (len, rest) = u16_in(bytes)?;
    if rest.len() < len as usize {
        return None;
    }
    Some(rest.split_at(len as usize))
}

/// Reads a length in four bytes, and that many bytes.
pub fn long_counted_in(bytes: &[u8]) -> Option<(&[u8], &[u8])>
    ensures { option_map (λ x. (x.0.now, x.1.now)) result ≡ (counted_text (number w32)).front bytes.now }
{
    let (len, rest) = u32_in(bytes)?;
    if rest.len() < len as usize {
        return None;
    }
    Some(rest.split_at(len as usize))
}

// A length in two bytes, and that many bytes in UTF-8.
#[tactic(auto, using(office_base::proofs::Utf8::utf8_tests), unfolding(crate::specs::Fields::utf8_text))]
fn text_in(bytes: &[u8]) -> Option<(&str, &[u8])>
    ensures { option_map (λ x. (x.0.now, x.1.now)) result ≡ utf8_text.front bytes.now }
{
    let (text, rest) = counted_in(bytes)?;
    match str::from_utf8(text) {
        Ok(text) => Some((text, rest)),
        Err(_) => None,
    }
}

// A key and a value, each in UTF-8.
#[tactic(auto, unfolding(crate::specs::Fields::tag_format))]
fn tag_in(alloc: Global, bytes: &[u8]) -> Result<Option<((String, String), &[u8])>, NoMemory>
    ensures { Finds (λ x. (tag_of x.0, x.1.now)) result (tag_format.front bytes.now) }
{
    let Some((key, rest)) = text_in(bytes) else {
        return Ok(None);
    };
    let Some((value, rest)) = text_in(rest) else {
        return Ok(None);
    };
    let pair = pair_of(alloc, key, value)?;
    Ok(Some((pair, rest)))
}

fn pair_of(alloc: Global, key: &str, value: &str) -> Result<(String, String), AllocError>
    ensures { IfOk result (λ pair. tag_of pair ≡ (key.now, value.now)) }
{
    Ok((
        String::from_str(alloc, key)?,
        String::from_str(alloc, value)?,
    ))
}

// This many pairs, one after the other.
fn pairs_in(
    alloc: Global,
    count: u8,
    bytes: &[u8],
) -> Result<Option<(Vec<(String, String)>, &[u8])>, NoMemory>
    ensures { Finds (λ x. (tags_of x.0.items, x.1.now)) result (front_items tag_format count bytes.now) }
{
    let mut pairs = Vec::new(alloc);
    let mut rest = bytes;
    for _ in 0..count {
        let Some((pair, after)) = tag_in(alloc, rest)? else {
            return Ok(None);
        };
        if pairs.push(pair).is_err() {
            return Err(NoMemory);
        }
        rest = after;
    }
    Ok(Some((pairs, rest)))
}

fn is_before(first: &(String, String), second: &(String, String)) -> bool
    ensures { result ≡ is_tag_before (tag_of first.now) (tag_of second.now) }
{
    first.0.as_str() < second.0.as_str()
}

// Whether the keys rise.
fn rise(pairs: &[(String, String)]) -> bool
    ensures { result ≡ keys_rise (tags_of pairs.now) }
{
    match pairs {
        [first, rest @ ..] => match rest {
            [second, ..] => is_before(first, second) && rise(rest),
            [] => true,
        },
        [] => true,
    }
}

/// Reads tags: their number in one byte, and the pairs, whose keys rise.
pub fn tags_in(alloc: Global, bytes: &[u8]) -> Result<Option<(Tags, &[u8])>, NoMemory>
    ensures { Finds (λ x. (x.0, x.1.now)) result ((format field.Tags).front bytes.now) }
{
    let Some((count, rest)) = u8_in(bytes) else {
        return Ok(None);
    };
    if count > MOST_TAGS {
        return Ok(None);
    }
    let Some((pairs, rest)) = pairs_in(alloc, count, rest)? else {
        return Ok(None);
    };
    if !rise(&pairs) {
        return Ok(None);
    }
    match Tags::read(alloc, pairs) {
        Ok(tags) => Ok(Some((tags, rest))),
        Err(e) => match e {
            NameRefusal::NoMemory => Err(NoMemory),
            _ => Ok(None),
        },
    }
}
