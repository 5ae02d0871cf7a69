// Writes fields. A writer adds a value as an entry has it.
ghost use Rattle.std.specs.Prelude.{◌≡◌, ◌++◌, ◌<◌, ◌^◌, length, true, IsTrue, IfSome, OnOk, option_copied};
ghost use Rattle.std.specs.Int.{w16, w32};
ghost use Rattle.office_base.specs.Tags.{is_tag, tag_of};
ghost use Rattle.office_types.specs.Tokens.{IsToken};
ghost use Rattle.entry_codec.specs.Formats.{number, counted_text};
ghost use Rattle.entry_codec.specs.Spelling.{head_spelling};
ghost use Rattle.entry_codec.specs.Fields as field;
ghost use Rattle.entry_codec.specs.Fields.{tag_format, format, id_code, is_id};

use crate::kinds::Kind;
use class_rules::{Class, rank};
use office_base::{BucketName, Key, Size, Tags, VersionId};
use office_types::Token;
use std::alloc::AllocError;

fn put_text(out: &mut Vec<u8>, bytes: &[u8]) -> Result<(), AllocError>
    requires { length bytes.now < 2 ^ 16 }
    ensures { OnOk result (out.new.items ≡ out.old.items ++ (counted_text (number w16)).written bytes.now) }
{
    out.extend_from_slice(&(bytes.len() as u16).to_be_bytes())?;
    out.extend_from_slice(bytes)
}

/// Writes a text after its length in four bytes.
pub fn put_long_text(out: &mut Vec<u8>, bytes: &[u8]) -> Result<(), AllocError>
    requires { length bytes.now < 2 ^ 32 }
    ensures { OnOk result (out.new.items ≡ out.old.items ++ (counted_text (number w32)).written bytes.now) }
{
    out.extend_from_slice(&(bytes.len() as u32).to_be_bytes())?;
    out.extend_from_slice(bytes)
}

// A kind, and the token after it, if there is one.
#[tactic(auto, unfolding(crate::specs::Spelling::head_spelling, crate::specs::Kinds::head_format, crate::specs::Fields::token_format))]
pub(crate) fn put_head(
    out: &mut Vec<u8>,
    kind: Kind,
    token: Option<&Token>,
) -> Result<(), AllocError>
    ensures bytes { OnOk result (out.new.items ≡ out.old.items ++ head_spelling (option_copied token.entry) kind) }
    ensures token { OnOk result (IfSome (option_copied token.entry) IsToken) }
{
    match token {
        Some(token) => {
            out.push(kind.head(true))?;
            let bytes = token.bytes();
            out.push(bytes.len() as u8)?;
            out.extend_from_slice(bytes)
        }
        None => {
            out.push(kind.head(false))?;
            Ok(())
        }
    }
}

#[tactic(auto, unfolding(crate::specs::Fields::tag_format, crate::specs::Fields::utf8_text))]
fn put_tag(out: &mut Vec<u8>, pair: &(String, String)) -> Result<(), AllocError>
    requires { IsTrue (is_tag (tag_of pair.now)) }
    ensures { OnOk result (out.new.items ≡ out.old.items ++ tag_format.written (tag_of pair.now)) }
{
    put_text(out, pair.0.as_bytes())?;
    put_text(out, pair.1.as_bytes())
}

/// Writes tags: their number in a byte, and the pairs.
#[tactic(auto, using(crate::proofs::Fitting::tags_have))]
pub fn put_tags(out: &mut Vec<u8>, tags: &Tags) -> Result<(), AllocError>
    ensures bytes { OnOk result (out.new.items ≡ out.old.items ++ (format field.Tags).written tags.now) }
    ensures has { OnOk result ((format field.Tags).has tags.now ≡ true) }
{
    let pairs = tags.pairs();
    out.extend_from_slice(&(pairs.len() as u8).to_be_bytes())?;
    for pair in pairs {
        put_tag(out, pair)?;
    }
    Ok(())
}

/// Writes a bucket's name after its length in two bytes.
#[tactic(auto, using(crate::proofs::Fitting::name_has), unfolding(crate::specs::Fields::format))]
pub fn put_name(out: &mut Vec<u8>, name: &BucketName) -> Result<(), AllocError>
    ensures bytes { OnOk result (out.new.items ≡ out.old.items ++ (format field.Name).written name.now) }
    ensures has { OnOk result ((format field.Name).has name.now ≡ true) }
{
    put_text(out, name.text().as_bytes())
}

/// Writes a key after its length in two bytes.
#[tactic(auto, using(crate::proofs::Fitting::key_has), unfolding(crate::specs::Fields::format))]
pub fn put_key(out: &mut Vec<u8>, key: &Key) -> Result<(), AllocError>
    ensures bytes { OnOk result (out.new.items ≡ out.old.items ++ (format field.Key).written key.now) }
    ensures has { OnOk result ((format field.Key).has key.now ≡ true) }
{
    put_text(out, key.bytes())
}

/// Writes a size in bytes, in eight bytes.
#[tactic(auto, using(crate::proofs::Fitting::size_has), unfolding(crate::specs::Fields::format))]
pub fn put_size(out: &mut Vec<u8>, size: Size) -> Result<(), AllocError>
    ensures bytes { OnOk result (out.new.items ≡ out.old.items ++ (format field.Size).written size) }
    ensures has { OnOk result ((format field.Size).has size ≡ true) }
{
    out.extend_from_slice(&size.bytes().to_be_bytes())
}

/// Writes a storage class as its rank, in one byte.
#[tactic(auto, using(crate::proofs::Fitting::rank_has), unfolding(crate::specs::Fields::format))]
pub fn put_class(out: &mut Vec<u8>, class: Class) -> Result<(), AllocError>
    ensures bytes { OnOk result (out.new.items ≡ out.old.items ++ (format field.Rank).written class) }
    ensures has { OnOk result ((format field.Rank).has class ≡ true) }
{
    out.push(rank(class))?;
    Ok(())
}

#[tactic(auto, using(crate::proofs::Fitting::status_has), unfolding(crate::specs::Fields::format))]
pub(crate) fn put_status(out: &mut Vec<u8>, enabled: bool) -> Result<(), AllocError>
    ensures bytes { OnOk result (out.new.items ≡ out.old.items ++ (format field.Status).written enabled) }
    ensures has { OnOk result ((format field.Status).has enabled ≡ true) }
{
    out.push(if enabled { 1 } else { 2 })?;
    Ok(())
}

fn number_of(id: VersionId) -> u64
    ensures code { result ≡ id_code id }
    ensures is { is_id id ≡ true }
{
    match id {
        VersionId::Null => 0,
        VersionId::Number(number) => number.get(),
    }
}

/// Writes a version id in eight bytes: 0 for null, else its number.
#[tactic(auto, using(crate::proofs::Fitting::id_has), unfolding(crate::specs::Fields::format))]
pub fn put_id(out: &mut Vec<u8>, id: VersionId) -> Result<(), AllocError>
    ensures bytes { OnOk result (out.new.items ≡ out.old.items ++ (format field.Id).written id) }
    ensures has { OnOk result ((format field.Id).has id ≡ true) }
{
    out.extend_from_slice(&number_of(id).to_be_bytes())
}

#[tactic(auto, using(crate::proofs::Fitting::number4_has), unfolding(crate::specs::Fields::format))]
pub(crate) fn put_u32(out: &mut Vec<u8>, n: u32) -> Result<(), AllocError>
    ensures bytes { OnOk result (out.new.items ≡ out.old.items ++ (format field.Number4).written n) }
    ensures has { OnOk result ((format field.Number4).has n ≡ true) }
{
    out.extend_from_slice(&n.to_be_bytes())
}

#[tactic(auto, using(crate::proofs::Fitting::number8_has), unfolding(crate::specs::Fields::format))]
pub(crate) fn put_u64(out: &mut Vec<u8>, n: u64) -> Result<(), AllocError>
    ensures bytes { OnOk result (out.new.items ≡ out.old.items ++ (format field.Number8).written n) }
    ensures has { OnOk result ((format field.Number8).has n ≡ true) }
{
    out.extend_from_slice(&n.to_be_bytes())
}
