// A value as a row of nodes.
ghost use Rattle.std.specs.Prelude.{◌≡◌, ◌<◌, ◌≤◌, [], length, drop, MatchOption, IfSome};
ghost use Rattle.json_fields.specs.Nodes.{inside, onto, values_of};

use serde_json::Number;

// One value that holds no other, or the end of an array or an object. The values in an array or an object stand before
// it. The name of a member is a text after the value of the member.
#[derive(Clone, Copy, Drop)]
pub(crate) enum Node<'a> {
    Null,
    Truth(bool),
    Number(Number),
    Text(&'a str),
    // How many values of those that stand before it are its items.
    Array(usize),
    // The same, with the names counted as well.
    Object(usize),
}

impl<'a> Node<'a> {
    // How many of the values before it are inside it.
    fn inside(&self) -> usize
        ensures { result ≡ inside self.now }
    {
        match self {
            Node::Null | Node::Truth(_) | Node::Number(_) | Node::Text(_) => 0,
            Node::Array(count) | Node::Object(count) => *count,
        }
    }
}

// The last node, and those before it.
#[tactic(auto, using(crate::proofs::NodeLemmas::values_of_push, crate::proofs::NodeLemmas::values_of_none))]
pub(crate) fn split<'t, 'a>(nodes: &'t [Node<'a>]) -> Option<(Node<'a>, &'t [Node<'a>])>
    ensures value { MatchOption result (values_of nodes.now ≡ [])
        (λ p. values_of nodes.now ≡ onto (values_of p.1.now) p.0) }
    ensures shorter { IfSome result (λ p. length p.1.now < length nodes.now) }
{
    match nodes.split_last() {
        Some((node, before)) => Some((*node, before)),
        None => None,
    }
}

// The nodes without those of the last so many values.
pub(crate) fn below<'t, 'a>(nodes: &'t [Node<'a>], count: usize) -> &'t [Node<'a>]
    ensures value { values_of result.now ≡ drop count (values_of nodes.now) }
    ensures shorter { length result.now ≤ length nodes.now }
{
    let mut end = nodes.len();
    let mut left = count;
    while left > 0 && end > 0 {
        end -= 1;
        left = (left - 1).saturating_add(nodes[end].inside());
    }
    &nodes[..end]
}
