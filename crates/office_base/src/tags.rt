// The tags of an object.
ghost use Rattle.std.specs.Prelude.{◌≡◌, ◌≤◌, ◌==◌, ◌↔◌, ◌⊎◌, true, false, length, IfOk, OnOk, IfErr, IsErrOf, List};
ghost use Rattle.std.specs.Prelude.{IsPermutation, nat_le, string_bytes};
ghost use Rattle.std.specs.List.{list_all, list_any, prefix_len};
ghost use Rattle.std.specs.Str.{is_utf8, bytes_eq};
ghost use Rattle.office_base.specs.Tags.{Tag, keys_rise, char_count, is_tag, has_key, keys_differ, are_tags};
ghost use Rattle.office_base.specs.Tags.{is_tag_before, with_tag, by_key, AreTags, tag_of, tags_of};

use crate::NameRefusal;
use std::alloc::{AllocError, Global};
use std::marker::Model;

/// The tags of an object: at most 10 pairs of a key and a value. The keys differ, and the pairs are in the byte order
/// of the keys.
///
/// Rule: S3 User Guide, "Categorizing your objects using tags". Own rule: the order, so that equal sets of tags have
/// one text.
#[derive(Drop)]
pub struct Tags {
    pairs: Vec<(String, String)>,
}

impl Model for Tags {
    ghost use Rattle.std.specs.Prelude.{List};
    ghost use Rattle.office_base.specs.Tags.{Tag, AreTags, tags_of};

    ghost Value = { List Tag };

    ghost view = { λ t. tags_of t.pairs.items };

    ghost invariant = { λ t. AreTags (tags_of t.pairs.items) };
}

#[tactic(auto, using(crate::proofs::Utf8::utf8_is))]
pub(crate) fn count_chars(text: &str) -> usize
    ensures count { result ≡ char_count text.now }
    ensures utf8 { is_utf8 text.now ≡ true }
{
    text.chars().count()
}

/// Pairs of a key and a value as a caller gave them, in any order and of any length. `are_tags` returns whether they
/// are valid tags.
#[derive(Drop)]
pub struct TagList {
    pairs: Vec<(String, String)>,
}

impl Model for TagList {
    ghost use Rattle.std.specs.Prelude.{List};
    ghost use Rattle.office_base.specs.Tags.{Tag, tags_of};

    ghost Value = { List Tag };

    ghost view = { λ t. tags_of t.pairs.items };
}

#[tactic(auto, unfolding(crate::specs::Tags::is_tag))]
fn is_in_range(tag: &(String, String)) -> bool
    ensures { result ≡ is_tag (tag_of tag.now) }
{
    let key = count_chars(&tag.0);
    let value = count_chars(&tag.1);
    1 <= key && key <= 128 && value <= 256
}

fn each_in_range(pairs: &[(String, String)]) -> bool
    ensures { result ≡ list_all (λ pair. is_tag (tag_of pair)) pairs.now }
{
    pairs.iter().all(|pair| is_in_range(pair))
}

fn are_in_range(pairs: &[(String, String)]) -> bool
    ensures { result ≡ list_all is_tag (tags_of pairs.now) }
{
    each_in_range(pairs)
}

fn any_has(pairs: &[(String, String)], key: &str) -> bool
    ensures { result ≡ list_any (λ pair. bytes_eq (string_bytes pair.0) key.now) pairs.now }
{
    pairs.iter().any(|pair| pair.0.as_str() == key)
}

fn holds_key(pairs: &[(String, String)], key: &str) -> bool
    ensures { result ≡ has_key (tags_of pairs.now) key.now }
{
    any_has(pairs, key)
}

fn differ(pairs: &[(String, String)]) -> bool
    ensures { result ≡ keys_differ (tags_of pairs.now) }
{
    match pairs {
        [] => true,
        [first, rest @ ..] => !holds_key(rest, &first.0) && differ(rest),
    }
}

fn is_before(tag: &(String, String), other: &(String, String)) -> bool
    ensures { result ≡ is_tag_before (tag_of tag.now) (tag_of other.now) }
{
    tag.0.as_str() < other.0.as_str()
}

// How many of the tags come before this one.
fn place_of(kept: &[(String, String)], tag: &(String, String)) -> usize
    ensures place { result ≡ prefix_len (λ other. is_tag_before (tag_of other) (tag_of tag.now)) kept.now }
    ensures within { result ≤ length kept.now }
{
    kept.iter()
        .take_while(|other| is_before(other, tag))
        .count()
}

fn put(kept: &mut Vec<(String, String)>, tag: (String, String)) -> Result<(), AllocError>
    ensures { OnOk result (tags_of kept.new.items ≡ with_tag (tag_of tag) (tags_of kept.old.items)) }
{
    let place = place_of(kept, &tag);
    kept.insert(place, tag)?;
    Ok(())
}

fn in_order(
    alloc: Global,
    mut pairs: Vec<(String, String)>,
) -> Result<Vec<(String, String)>, AllocError>
    ensures { IfOk result (λ kept. tags_of kept.items ≡ by_key (tags_of pairs.items)) }
{
    let mut kept = Vec::new(alloc);
    while let Some(pair) = pairs.pop() {
        put(&mut kept, pair)?;
    }
    Ok(kept)
}

#[tactic(auto, using(crate::proofs::InOrder::length_tags))]
fn are_few(pairs: &[(String, String)]) -> bool
    ensures { result ≡ nat_le (length (tags_of pairs.now)) 10 }
{
    pairs.len() <= 10
}

fn copies(pairs: &Vec<(String, String)>) -> Result<Vec<(String, String)>, AllocError>
    ensures { IfOk result (λ copies. tags_of copies.items ≡ tags_of pairs.now.items) }
{
    let copies = pairs.clone()?;
    Ok(copies)
}

// The pairs are valid tags.
#[tactic(auto, unfolding(crate::specs::Tags::are_tags))]
fn is_valid(pairs: &[(String, String)]) -> bool
    ensures { result ≡ are_tags (tags_of pairs.now) }
{
    if !are_few(pairs) {
        return false;
    }
    if !are_in_range(pairs) {
        return false;
    }
    differ(pairs)
}

impl Tags {
    /// Reads tags from pairs in any order, and keeps them in the byte order of their keys.
    ///
    /// Cost: a pass over the pairs for each pair; memory for the list.
    ///
    /// # Errors
    ///
    /// `BadTags`: there are more than 10, a key is repeated, a key does not have 1 to 128 characters, or a value has
    /// more than 256.
    /// `NoMemory`: memory ran out.
    pub fn read(alloc: Global, pairs: Vec<(String, String)>) -> Result<Tags, NameRefusal>
        ensures ok { IfOk result (λ tags. (tags ≡ by_key (tags_of pairs.items)) × AreTags tags) }
        ensures bad { IsErrOf result NameRefusal.BadTags ↔ (are_tags (tags_of pairs.items) ≡ false) }
        ensures refusal { IfErr result (λ e. (e ≡ NameRefusal.BadTags) ⊎ (e ≡ NameRefusal.NoMemory)) }
    {
        if !is_valid(&pairs) {
            return Err(NameRefusal::BadTags);
        }
        let pairs = in_order(alloc, pairs)?;
        Ok(Tags { pairs })
    }

    /// Copies the tags. Fails only if memory runs out.
    pub fn copy(&self) -> Result<Tags, AllocError>
        ensures { IfOk result (λ tags. tags ≡ self.now) }
    {
        let pairs = copies(&self.pairs)?;
        Ok(Tags { pairs })
    }

    /// Reads the pairs of a key and a value.
    pub fn pairs(&self) -> &[(String, String)]
        ensures same { tags_of result.now ≡ self.now }
        ensures tags { AreTags self.now }
    {
        &self.pairs
    }
}

impl TagList {
    /// Takes the pairs over. Takes no memory.
    pub fn of(pairs: Vec<(String, String)>) -> TagList
        ensures { result ≡ tags_of pairs.items }
    {
        TagList { pairs }
    }

    /// Reads the pairs.
    pub fn pairs(&self) -> &[(String, String)]
        ensures { tags_of result.now ≡ self.now }
    {
        &self.pairs
    }

    /// Returns whether there is no pair.
    #[tactic(auto, using(crate::proofs::InOrder::length_tags))]
    pub fn is_empty(&self) -> bool
        ensures { result ≡ (length self.now == 0) }
    {
        self.pairs.is_empty()
    }

    /// Returns whether `Tags::read` would take the pairs. Takes no memory.
    pub fn are_tags(&self) -> bool
        ensures { result ≡ are_tags self.now }
    {
        is_valid(&self.pairs)
    }

    /// Copies the pairs. Fails only if memory runs out.
    pub fn copy(&self) -> Result<TagList, AllocError>
        ensures { IfOk result (λ tags. tags ≡ self.now) }
    {
        let pairs = copies(&self.pairs)?;
        Ok(TagList { pairs })
    }
}

/// States what the order of tags is: the same tags, with ascending keys if the keys differ. Tags whose keys already
/// ascend keep their order.
#[tactic(auto, using(crate::proofs::InOrder::order_of_tags))]
pub fn tag_order()
    ensures same { (tags : List Tag) → IsPermutation tags (by_key tags) }
    ensures rises { (tags : List Tag) → keys_differ tags ≡ true → keys_rise (by_key tags) ≡ true }
    ensures kept { (tags : List Tag) → keys_rise tags ≡ true → by_key tags ≡ tags }
{}
