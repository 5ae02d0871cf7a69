// Looking into an object.
ghost use Rattle.std.specs.Prelude.{◌≡◌, Some, option_map, is_some, map, length, nat_lt};
ghost use Rattle.serde_json.specs.Find.{get, as_object};
ghost use Rattle.json_fields.specs.Fields.{names_of, first_unknown};
ghost use Rattle.json_fields.specs.Names.{earlier, names_in};
ghost use Rattle.json_fields.specs.Elements.{data_of, fields_left};

use crate::element::{Element, ObjectFields};
use crate::fields::is_known;

// The first of two names in byte order.
fn earlier<'a>(first: Option<&'a str>, name: &'a str) -> &'a str
    ensures { Some result.now ≡ earlier (option_map (λ n. n.now) first.entry) (Some name.now) }
{
    match first {
        Some(first) => { if first > name { name } else { first } }
        None => name,
    }
}

// Whether there are two names among the fields.
fn has_two_names(mut fields: ObjectFields<'_, '_>) -> bool
    ensures { result ≡ nat_lt 1 (length (names_of (fields_left fields.entry))) }
{
    let Some((first, _)) = fields.next() else {
        return false;
    };
    'others: while let Some((name, _)) = fields.next() {
        if name != first {
            return true;
        }
    }
    false
}

impl<'t, 'a> Element<'t, 'a> {
    /// Whether this is an object.
    pub fn is_object(&self) -> bool
        ensures { result ≡ is_some (as_object (data_of self.now)) }
    {
        self.fields().is_some()
    }

    /// The value of the last field with this name; None if there is none, or this is no object.
    #[tactic(auto, using(crate::proofs::NameLemmas::in_object, crate::proofs::NameLemmas::in_no_object))]
    pub fn get(&self, name: &str) -> Option<Element<'t, 'a>>
        ensures { option_map data_of result ≡ get name.now (data_of self.now) }
    {
        let mut fields = self.fields()?;
        'search: while let Some((key, value)) = fields.next() {
            if key == name {
                return Some(value);
            }
        }
        None
    }

    /// Finds the first field, in the byte order of the names, whose name is not one of these. None if there is no such
    /// field, or this is no object. Names are compared unescaped, byte by byte. Takes no memory.
    pub fn first_unknown(&self, known: &[&str]) -> Option<&'a str>
        ensures { option_map (λ name. name.now) result
            ≡ first_unknown (map (λ k. k.now) known.now) (data_of self.now) }
    {
        let mut fields = self.fields()?;
        let mut first = None;
        'names: while let Some((name, _)) = fields.next() {
            if !is_known(known, name) {
                first = Some(earlier(first, name));
            }
        }
        first
    }

    /// Whether this is an object with fields of two names.
    pub fn has_two_names(&self) -> bool
        ensures { result ≡ nat_lt 1 (names_in (data_of self.now)) }
    {
        match self.fields() {
            Some(fields) => has_two_names(fields),
            None => false,
        }
    }
}
