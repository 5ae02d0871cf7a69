// The values of a document.
ghost use Rattle.std.specs.Prelude.{◌≡◌, ◌<◌, [], ◌∷◌, option_map, MatchOption, OnSome};
ghost use Rattle.serde_json.specs.Data.{no_items, no_members, put, item};
ghost use Rattle.serde_json.specs.Data.{Items as DataItems};
ghost use Rattle.serde_json.specs.Find.{as_str, as_bool, as_array, as_object};
ghost use Rattle.json_fields.specs.Fields.{whole_number};
ghost use Rattle.json_fields.specs.Nodes.{text_in, value_of};
ghost use Rattle.json_fields.specs.Elements.{data_of, elements_left, elements_count, fields_left, fields_count};

use crate::node::{Node, below, split};

/// A value in a document. A copy takes no memory.
#[derive(Clone, Copy, Drop)]
pub struct Element<'t, 'a> {
    nodes: &'t [Node<'a>],
}

/// The elements of an array that are still to come, from the last to the first.
#[derive(Clone, Copy, Drop)]
pub struct Elements<'t, 'a> {
    left: usize,
    nodes: &'t [Node<'a>],
}

/// The fields of an object that are still to come, from the last to the first in the text. A name may come again.
#[derive(Clone, Copy, Drop)]
pub struct ObjectFields<'t, 'a> {
    left: usize,
    nodes: &'t [Node<'a>],
}

// The text of the last value, and the empty text if it is no string.
fn text_in<'a>(nodes: &[Node<'a>]) -> &'a str
    ensures { result.now ≡ text_in (value_of nodes.now) }
{
    match split(nodes) {
        Some((node, _)) => match node {
            Node::Text(text) => text,
            Node::Null | Node::Truth(_) | Node::Number(_) | Node::Array(_) | Node::Object(_) => "",
        },
        None => "",
    }
}

impl<'t, 'a> Element<'t, 'a> {
    pub(crate) fn last(nodes: &'t [Node<'a>]) -> Element<'t, 'a>
        ensures { data_of result ≡ value_of nodes.now }
    {
        Element { nodes }
    }

    /// The text of a string; None if this is no string.
    pub fn as_str(&self) -> Option<&'a str>
        ensures { option_map (λ t. t.now) result ≡ as_str (data_of self.now) }
    {
        let (node, _) = split(self.nodes)?;
        match node {
            Node::Text(text) => Some(text),
            Node::Null | Node::Truth(_) | Node::Number(_) | Node::Array(_) | Node::Object(_) => {
                None
            }
        }
    }

    /// The truth value; None if this is none.
    pub fn as_bool(&self) -> Option<bool>
        ensures { result ≡ as_bool (data_of self.now) }
    {
        let (node, _) = split(self.nodes)?;
        match node {
            Node::Truth(truth) => Some(truth),
            Node::Null | Node::Number(_) | Node::Text(_) | Node::Array(_) | Node::Object(_) => None,
        }
    }

    /// A whole number from 0 to 2^64 - 1, written as an integer; None if this is none.
    pub fn as_u64(&self) -> Option<u64>
        ensures { result ≡ whole_number (data_of self.now) }
    {
        let (node, _) = split(self.nodes)?;
        match node {
            Node::Number(number) => number.as_u64(),
            Node::Null | Node::Truth(_) | Node::Text(_) | Node::Array(_) | Node::Object(_) => None,
        }
    }

    /// The elements of an array; None if this is no array.
    pub fn elements(&self) -> Option<Elements<'t, 'a>>
        ensures { option_map (λ es. elements_left es no_items) result ≡ as_array (data_of self.now) }
    {
        let (node, nodes) = split(self.nodes)?;
        match node {
            Node::Array(left) => Some(Elements { left, nodes }),
            Node::Null | Node::Truth(_) | Node::Number(_) | Node::Text(_) | Node::Object(_) => None,
        }
    }

    /// The fields of an object; None if this is no object.
    pub fn fields(&self) -> Option<ObjectFields<'t, 'a>>
        ensures { option_map fields_left result ≡ as_object (data_of self.now) }
    {
        let (node, nodes) = split(self.nodes)?;
        match node {
            Node::Object(left) => Some(ObjectFields { left, nodes }),
            Node::Null | Node::Truth(_) | Node::Number(_) | Node::Text(_) | Node::Array(_) => None,
        }
    }
}

impl<'t, 'a> Elements<'t, 'a> {
    /// Takes the last element that is left. None if there is none.
    #[tactic(auto, using(crate::proofs::WalkLemmas::items_from_step, crate::proofs::WalkLemmas::items_from_end, crate::proofs::WalkLemmas::items_from_over))]
    pub fn next(&mut self) -> Option<Element<'t, 'a>>
        ensures value { (more : DataItems) → MatchOption result (elements_left self.old more ≡ more)
            (λ e. elements_left self.old more ≡ elements_left self.new (item (data_of e) more)) }
        ensures fewer { OnSome result (elements_count self.new < elements_count self.old) }
    {
        if self.left == 0 || self.nodes.is_empty() {
            return None;
        }
        let last = Element { nodes: self.nodes };
        self.nodes = below(self.nodes, 1);
        self.left -= 1;
        Some(last)
    }
}

impl<'t, 'a> ObjectFields<'t, 'a> {
    /// Takes the last field that is left: its name and its value. None if there is none.
    #[tactic(auto, using(crate::proofs::WalkLemmas::members_from_step, crate::proofs::WalkLemmas::members_from_end, crate::proofs::WalkLemmas::members_from_over))]
    pub fn next(&mut self) -> Option<(&'a str, Element<'t, 'a>)>
        ensures value { MatchOption result (fields_left self.old ≡ no_members)
            (λ f. fields_left self.old ≡ put f.0.now (data_of f.1) (fields_left self.new)) }
        ensures fewer { OnSome result (fields_count self.new < fields_count self.old) }
    {
        let value = below(self.nodes, 1);
        if self.left < 2 || value.is_empty() {
            return None;
        }
        let name = text_in(self.nodes);
        self.nodes = below(value, 1);
        self.left -= 2;
        Some((name, Element { nodes: value }))
    }
}
