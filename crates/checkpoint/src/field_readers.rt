// Reads fields. A reader takes its value from the front of the bytes, and returns it with the bytes after it; it
// returns `None` if no such value is there.
ghost use Rattle.std.specs.Prelude.{◌≡◌, option_map};
ghost use Rattle.entry_codec.specs.Fields as field;
ghost use Rattle.entry_codec.specs.Fields.{format, moment_format, token_format};
ghost use Rattle.entry_codec.specs.Reading.{Finds};
ghost use Rattle.checkpoint.specs.Combining.{flag_format};
ghost use Rattle.checkpoint.specs.Parts.{sixteen, month_format, last_format, open_format};

use class_rules::Class;
use entry_codec::{
    class_of_rank, counted_in, id_of_number, short_counted_in, u8_in, u16_in, u64_in,
};
use moments::{Moment, Month};
use office_base::{Key, NameRefusal, NoMemory, Size, VersionId};
use office_types::Token;
use std::alloc::Global;

#[tactic(auto, unfolding(crate::specs::Parts::sixteen, crate::specs::Parts::eight))]
pub(crate) fn u128_in(bytes: &[u8]) -> Option<(u128, &[u8])>
    ensures { option_map (λ x. (x.0, x.1.now)) result ≡ sixteen.front bytes.now }
{
    let (upper, rest) = u64_in(bytes)?;
    let (lower, rest) = u64_in(rest)?;
    Some((
        upper as u128 * 0x1_0000_0000_0000_0000 + lower as u128,
        rest,
    ))
}

#[tactic(auto, unfolding(crate::specs::Combining::flag_format))]
pub(crate) fn flag_in(bytes: &[u8]) -> Option<(bool, &[u8])>
    ensures { option_map (λ x. (x.0, x.1.now)) result ≡ flag_format.front bytes.now }
{
    let (flag, rest) = u8_in(bytes)?;
    match flag {
        0 => Some((false, rest)),
        1 => Some((true, rest)),
        _ => None,
    }
}

#[tactic(auto, unfolding(crate::specs::Parts::month_format))]
pub(crate) fn month_in(bytes: &[u8]) -> Option<(Month, &[u8])>
    ensures { option_map (λ x. (x.0, x.1.now)) result ≡ month_format.front bytes.now }
{
    let (year, rest) = u16_in(bytes)?;
    let (month, rest) = u8_in(rest)?;
    match Month::of(year, month) {
        Some(month) => Some((month, rest)),
        None => None,
    }
}

// The last moment; all ones for none.
#[tactic(auto, unfolding(crate::specs::Parts::last_format, crate::specs::Parts::eight))]
pub(crate) fn last_in(bytes: &[u8]) -> Option<(Option<Moment>, &[u8])>
    ensures { option_map (λ x. (x.0, x.1.now)) result ≡ last_format.front bytes.now }
{
    let (number, rest) = u64_in(bytes)?;
    if number == u64::MAX {
        return Some((None, rest));
    }
    match Moment::of(number) {
        Ok(moment) => Some((Some(moment), rest)),
        Err(_) => None,
    }
}

// The first open month; zeros for none.
#[tactic(auto, unfolding(crate::specs::Parts::open_format))]
pub(crate) fn first_open_in(bytes: &[u8]) -> Option<(Option<Month>, &[u8])>
    ensures { option_map (λ x. (x.0, x.1.now)) result ≡ open_format.front bytes.now }
{
    let (year, rest) = u16_in(bytes)?;
    let (month, rest) = u8_in(rest)?;
    if year == 0 && month == 0 {
        return Some((None, rest));
    }
    match Month::of(year, month) {
        Some(month) => Some((Some(month), rest)),
        None => None,
    }
}

#[tactic(auto, unfolding(entry_codec::specs::Fields::format))]
pub(crate) fn id_in(bytes: &[u8]) -> Option<(VersionId, &[u8])>
    ensures { option_map (λ x. (x.0, x.1.now)) result ≡ (format field.Id).front bytes.now }
{
    let (number, rest) = u64_in(bytes)?;
    Some((id_of_number(number), rest))
}

#[tactic(auto, unfolding(entry_codec::specs::Fields::format))]
pub(crate) fn size_in(bytes: &[u8]) -> Option<(Size, &[u8])>
    ensures { option_map (λ x. (x.0, x.1.now)) result ≡ (format field.Size).front bytes.now }
{
    let (number, rest) = u64_in(bytes)?;
    match Size::of(number) {
        Ok(size) => Some((size, rest)),
        Err(_) => None,
    }
}

#[tactic(auto, unfolding(entry_codec::specs::Fields::format))]
pub(crate) fn class_in(bytes: &[u8]) -> Option<(Class, &[u8])>
    ensures { option_map (λ x. (x.0, x.1.now)) result ≡ (format field.Rank).front bytes.now }
{
    let (rank, rest) = u8_in(bytes)?;
    match class_of_rank(rank) {
        Some(class) => Some((class, rest)),
        None => None,
    }
}

#[tactic(auto, unfolding(entry_codec::specs::Fields::format))]
pub(crate) fn key_in(alloc: Global, bytes: &[u8]) -> Result<Option<(Key, &[u8])>, NoMemory>
    ensures { Finds (λ x. (x.0, x.1.now)) result ((format field.Key).front bytes.now) }
{
    let Some((key, rest)) = counted_in(bytes) else {
        return Ok(None);
    };
    match Key::read(alloc, key) {
        Ok(key) => Ok(Some((key, rest))),
        Err(NameRefusal::NoMemory) => Err(NoMemory),
        Err(_) => Ok(None),
    }
}

#[tactic(auto, unfolding(entry_codec::specs::Fields::token_format))]
pub(crate) fn token_in(alloc: Global, bytes: &[u8]) -> Result<Option<(Token, &[u8])>, NoMemory>
    ensures { Finds (λ x. (x.0, x.1.now)) result (token_format.front bytes.now) }
{
    let Some((token, rest)) = short_counted_in(bytes) else {
        return Ok(None);
    };
    match Token::read(alloc, token)? {
        Some(token) => Ok(Some((token, rest))),
        None => Ok(None),
    }
}
