// The object that a body is, and its fields.
ghost use Rattle.std.specs.Prelude.{◌≡◌, [], option_map, option_and_then, ok_or, map};
ghost use Rattle.serde_json.specs.Find.{as_str};
ghost use Rattle.json_fields.specs.Fields.{json_of, whole_number};
ghost use Rattle.json_fields.specs.Elements.{data_of, document_data};
ghost use Rattle.http_bodies.specs.Bodies.{if_object, body_object};
ghost use Rattle.http_bodies.specs.Bodies.{text_pairs, held, if_held};
ghost use Rattle.http_bodies.specs.Pairs.{pairs_of};
ghost use Rattle.http_bodies.specs.Flaws.{BodySays, bad_body, with_fields, body_with};
ghost use Rattle.http_bodies.specs.Settings.{status_named, versioning_status};

use crate::fault::{BodyFault, bad_field};
use crate::pairs::{Texts, text_pairs};
use json::Scratch;
use json_fields::{Document, Element, read_document};
use std::alloc::Global;

// The bytes of a body; those of an object without fields if it is empty.
#[tactic(auto, using(crate::proofs::BodyLemmas::of_some, crate::proofs::BodyLemmas::of_none))]
fn or_object(bytes: &[u8]) -> &[u8]
    ensures { option_and_then if_object (json_of result.now) ≡ body_object bytes.now }
{
    if bytes.is_empty() { b"{}" } else { bytes }
}

// Reads the object that a body is.
fn read_body<'a>(
    alloc: Global,
    bytes: &'a [u8],
    scratch: &'a mut Scratch,
) -> Result<Document<'a>, BodyFault>
    ensures { BodySays document_data result (ok_or (body_object bytes.now) (bad_body [])) }
{
    match read_document(alloc, or_object(bytes), scratch)? {
        Some(document) => {
            if document.root().is_object() {
                Ok(document)
            } else {
                Err(bad_field(alloc, ""))
            }
        }
        None => Err(bad_field(alloc, "")),
    }
}

// Refuses a field that is not one of these.
fn check_fields(alloc: Global, body: &Element<'_, '_>, known: &[&str]) -> Result<(), BodyFault>
    ensures { BodySays (λ _. data_of body.now) result (with_fields (map (λ k. k.now) known.now) (data_of body.now)) }
{
    match body.first_unknown(known) {
        Some(name) => Err(bad_field(alloc, name)),
        None => Ok(()),
    }
}

// Reads the object that a body is, if it has no other fields than these.
pub(crate) fn read_object<'a>(
    alloc: Global,
    bytes: &'a [u8],
    scratch: &'a mut Scratch,
    known: &[&str],
) -> Result<Document<'a>, BodyFault>
    ensures { BodySays document_data result (body_with (map (λ k. k.now) known.now) bytes.now) }
{
    let document = read_body(alloc, bytes, scratch)?;
    check_fields(alloc, &document.root(), known)?;
    Ok(document)
}

// The whole number of a required field.
pub(crate) fn whole_number(
    alloc: Global,
    body: &Element<'_, '_>,
    name: &str,
) -> Result<u64, BodyFault>
    ensures { BodySays (λ n. n) result (ok_or (held whole_number name.now (data_of body.now)) (bad_body name.now)) }
{
    match body.get(name) {
        Some(value) => match value.as_u64() {
            Some(number) => Ok(number),
            None => Err(bad_field(alloc, name)),
        },
        None => Err(bad_field(alloc, name)),
    }
}

fn status_named(word: &str) -> Option<bool>
    ensures { result ≡ status_named word.now }
{
    if word == "Enabled" {
        return Some(true);
    }
    if word == "Suspended" {
        return Some(false);
    }
    None
}

fn status_in(value: &Element<'_, '_>) -> Option<bool>
    ensures { result ≡ versioning_status (data_of value.now) }
{
    match value.as_str() {
        Some(word) => status_named(word),
        None => None,
    }
}

// Whether versioning is enabled, by a required field.
pub(crate) fn status(alloc: Global, body: &Element<'_, '_>, name: &str) -> Result<bool, BodyFault>
    ensures { BodySays (λ enabled. enabled) result
        (ok_or (held versioning_status name.now (data_of body.now)) (bad_body name.now)) }
{
    match body.get(name) {
        Some(value) => match status_in(&value) {
            Some(enabled) => Ok(enabled),
            None => Err(bad_field(alloc, name)),
        },
        None => Err(bad_field(alloc, name)),
    }
}

// The text of an optional field.
pub(crate) fn text<'a>(
    alloc: Global,
    body: &Element<'_, 'a>,
    name: &str,
) -> Result<Option<&'a str>, BodyFault>
    ensures { BodySays (λ found. option_map (λ t. t.now) found) result
        (ok_or (if_held as_str name.now (data_of body.now)) (bad_body name.now)) }
{
    match body.get(name) {
        Some(value) => match value.as_str() {
            Some(text) => Ok(Some(text)),
            None => Err(bad_field(alloc, name)),
        },
        None => Ok(None),
    }
}

// The texts that the field of this name holds, by their names.
fn texts_of<'a>(alloc: Global, value: &Element<'_, 'a>, name: &str) -> Result<Texts<'a>, BodyFault>
    ensures { BodySays (λ texts. pairs_of texts.entries) result
        (ok_or (text_pairs (data_of value.now)) (bad_body name.now)) }
{
    match text_pairs(alloc, value)? {
        Some(texts) => Ok(texts),
        None => Err(bad_field(alloc, name)),
    }
}

// The texts of a required field, by their names.
pub(crate) fn needed_texts<'a>(
    alloc: Global,
    body: &Element<'_, 'a>,
    name: &str,
) -> Result<Texts<'a>, BodyFault>
    ensures { BodySays (λ texts. pairs_of texts.entries) result
        (ok_or (held text_pairs name.now (data_of body.now)) (bad_body name.now)) }
{
    match body.get(name) {
        Some(value) => texts_of(alloc, &value, name),
        None => Err(bad_field(alloc, name)),
    }
}

// The texts of an optional field, by their names.
pub(crate) fn texts<'a>(
    alloc: Global,
    body: &Element<'_, 'a>,
    name: &str,
) -> Result<Option<Texts<'a>>, BodyFault>
    ensures { BodySays (λ found. option_map (λ texts. pairs_of texts.entries) found) result
        (ok_or (if_held text_pairs name.now (data_of body.now)) (bad_body name.now)) }
{
    match body.get(name) {
        Some(value) => Ok(Some(texts_of(alloc, &value, name)?)),
        None => Ok(None),
    }
}
