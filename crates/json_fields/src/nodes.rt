// From the tokens of a text to nodes.
ghost use Rattle.std.specs.Prelude.{◌≡◌, ◌+◌, ◌<◌, ◌≤◌, ◌∷◌, length, drop, Some, None, Err, IfOk, OnOk, vec_len};
ghost use Rattle.json.specs.Json.{value, items, members};
ghost use Rattle.serde_json.specs.Data.{no_items, no_members};
ghost use Rattle.serde_json.specs.Read.{of_json, of_items, of_members, converted};
ghost use Rattle.json_fields.specs.Nodes.{items_from, members_from, onto, values_of, value_of};
ghost use Rattle.json_fields.specs.declared.unread.Unread.TheVariants.{NotJson};

use crate::node::Node;
use crate::number::number;
use crate::unread::Unread;
use json::{Reader, Token};
use std::alloc::AllocError;

// Puts a node after the others.
#[tactic(auto, using(crate::proofs::NodeLemmas::values_of_push))]
fn put<'a>(nodes: &mut Vec<Node<'a>>, node: Node<'a>) -> Result<(), AllocError>
    ensures value { OnOk result (values_of nodes.new.items ≡ onto (values_of nodes.old.items) node.entry) }
    ensures longer { OnOk result (vec_len nodes.new ≡ vec_len nodes.old + 1) }
{
    nodes.push(node)?;
    Ok(())
}

// Reads a value, in which arrays and objects nest at most so deep.
#[cycle(read)]
pub(crate) fn read<'a>(
    nodes: &mut Vec<Node<'a>>,
    reader: &mut Reader<'a>,
    depth: usize,
) -> Result<(), Unread>
    ensures ok { OnOk result
        (converted of_json (value depth reader.old) ≡ Some (value_of nodes.new.items, reader.new)) }
    ensures pushed { OnOk result
        (values_of nodes.new.items ≡ value_of nodes.new.items ∷ values_of nodes.old.items) }
    ensures longer { OnOk result (vec_len nodes.old < vec_len nodes.new) }
    ensures shorter { OnOk result (length reader.new < length reader.old) }
    ensures err { result ≡ Err NotJson → converted of_json (value depth reader.old) ≡ None }
{
    let token = reader.next().ok_or(Unread::NotJson)?;
    match token {
        Token::String(text) => Ok(put(nodes, Node::Text(text))?),
        Token::Number(text) => match number(text) {
            Some(number) => Ok(put(nodes, Node::Number(number))?),
            None => Err(Unread::NotJson),
        },
        Token::Bool(truth) => Ok(put(nodes, Node::Truth(truth))?),
        Token::Null => Ok(put(nodes, Node::Null)?),
        Token::EndObject | Token::EndArray | Token::Key(_) | Token::Bad => Err(Unread::NotJson),
        Token::BeginArray => {
            if depth == 0 {
                return Err(Unread::NotJson);
            }
            let count = read_items(nodes, reader, depth - 1)?;
            Ok(put(nodes, Node::Array(count))?)
        }
        Token::BeginObject => {
            if depth == 0 {
                return Err(Unread::NotJson);
            }
            let count = read_members(nodes, reader, depth - 1)?;
            Ok(put(nodes, Node::Object(count))?)
        }
    }
}

// Reads the items of an array, and returns how many they are.
#[cycle(read)]
fn read_items<'a>(
    nodes: &mut Vec<Node<'a>>,
    reader: &mut Reader<'a>,
    depth: usize,
) -> Result<usize, Unread>
    ensures ok { IfOk result (λ n. converted of_items (items (value depth) (length reader.old) reader.old)
        ≡ Some (items_from n (values_of nodes.new.items) no_items, reader.new)) }
    ensures pushed { IfOk result (λ n. drop n (values_of nodes.new.items) ≡ values_of nodes.old.items) }
    ensures longer { OnOk result (vec_len nodes.old ≤ vec_len nodes.new) }
    ensures shorter { OnOk result (length reader.new < length reader.old) }
    ensures err { result ≡ Err NotJson
        → converted of_items (items (value depth) (length reader.old) reader.old) ≡ None }
{
    let mut count = 0usize;
    'items: while !reader.take_end_array() {
        read(nodes, reader, depth)?;
        count += 1;
    }
    Ok(count)
}

// Reads the members of an object, and returns how many values and names they are.
#[cycle(read)]
fn read_members<'a>(
    nodes: &mut Vec<Node<'a>>,
    reader: &mut Reader<'a>,
    depth: usize,
) -> Result<usize, Unread>
    ensures ok { IfOk result (λ n. converted (λ ms. of_members ms no_members)
        (members (value depth) (length reader.old) reader.old)
        ≡ Some (members_from n (values_of nodes.new.items), reader.new)) }
    ensures pushed { IfOk result (λ n. drop n (values_of nodes.new.items) ≡ values_of nodes.old.items) }
    ensures longer { OnOk result (vec_len nodes.old ≤ vec_len nodes.new) }
    ensures shorter { OnOk result (length reader.new < length reader.old) }
    ensures err { result ≡ Err NotJson → converted (λ ms. of_members ms no_members)
        (members (value depth) (length reader.old) reader.old) ≡ None }
{
    let mut count = 0usize;
    'members: while let Some(name) = reader.next_key()? {
        read(nodes, reader, depth)?;
        put(nodes, Node::Text(name))?;
        count += 2;
    }
    Ok(count)
}
