// The pairs of texts that an object holds.
ghost use Rattle.std.specs.Prelude.{◌≡◌, option_map, IfOk};
ghost use Rattle.office_base.specs.Tags.{tags_of};
ghost use Rattle.json_fields.specs.Elements.{data_of, fields_left};
ghost use Rattle.http_bodies.specs.Bodies.{text_members, text_pairs};
ghost use Rattle.http_bodies.specs.Pairs.{pairs_of};

use json_fields::{Element, ObjectFields};
use std::alloc::{AllocError, Global};
use std::collections::BTreeMap;

// Texts by their names.
pub(crate) type Texts<'a> = BTreeMap<&'a str, &'a str>;

// The texts of the fields, by their names. If a name comes twice, the last text counts. None if a value that counts is
// no text.
fn texts<'a>(
    alloc: Global,
    mut fields: ObjectFields<'_, 'a>,
) -> Result<Option<Texts<'a>>, AllocError>
    ensures { IfOk result (λ found. option_map (λ texts. pairs_of texts.entries) found
        ≡ text_members (fields_left fields.entry)) }
{
    let mut texts = BTreeMap::new(alloc);
    'fields: while let Some((name, value)) = fields.next() {
        if !texts.contains_key(&name) {
            match value.as_str() {
                Some(text) => {
                    let _old = texts.insert(name, text)?;
                }
                None => return Ok(None),
            }
        }
    }
    Ok(Some(texts))
}

// The pairs of an object whose values are all texts, in the byte order of the names. None if this is no such object.
#[tactic(auto, using(crate::proofs::PairLemmas::object_pairs, crate::proofs::PairLemmas::no_pairs))]
pub(crate) fn text_pairs<'a>(
    alloc: Global,
    value: &Element<'_, 'a>,
) -> Result<Option<Texts<'a>>, AllocError>
    ensures { IfOk result (λ found. option_map (λ texts. pairs_of texts.entries) found
        ≡ text_pairs (data_of value.now)) }
{
    match value.fields() {
        Some(fields) => texts(alloc, fields),
        None => Ok(None),
    }
}

// The texts with their names, as owned pairs.
pub(crate) fn owned(alloc: Global, texts: Texts<'_>) -> Result<Vec<(String, String)>, AllocError>
    ensures { IfOk result (λ pairs. tags_of pairs.items ≡ pairs_of texts.entry.entries) }
{
    let mut pairs = Vec::with_capacity(alloc, texts.len())?;
    for (name, text) in texts {
        pairs.push((
            String::from_str(alloc, name)?,
            String::from_str(alloc, text)?,
        ))?;
    }
    Ok(pairs)
}
