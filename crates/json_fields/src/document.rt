// The value of a text, as a row of nodes.
ghost use Rattle.std.specs.Prelude.{◌≡◌, option_map, IfOk};
ghost use Rattle.serde_json.specs.Read.{read as read_as_data};
ghost use Rattle.json_fields.specs.Fields.{json_of};
ghost use Rattle.json_fields.specs.Elements.{data_of, document_data};

use crate::element::Element;
use crate::node::Node;
use crate::nodes::read;
use crate::unread::Unread;
use json::{Reader, Scratch};
use std::alloc::{AllocError, Global};

// How deep arrays and objects may nest: as deep as serde_json lets them.
const MAX_DEPTH: usize = 127;

/// The value of a text. It takes 12 bytes of memory for a byte of the text, and 24 more; names and strings are borrowed.
#[derive(Drop)]
pub struct Document<'a> {
    nodes: Vec<Node<'a>>,
}

impl<'a> Document<'a> {
    /// The whole value.
    pub fn root(&self) -> Element<'_, 'a>
        ensures { data_of result ≡ document_data self.now }
    {
        Element::last(&self.nodes)
    }
}

// Reads the value of a text.
#[tactic(auto, using(crate::proofs::Turns::text_read, crate::proofs::Turns::text_and_more, crate::proofs::Turns::text_refused))]
fn read_text<'a>(
    alloc: Global,
    text: &'a str,
    scratch: &'a mut Scratch,
) -> Result<Option<Document<'a>>, AllocError>
    ensures { IfOk result (λ found. option_map document_data found ≡ read_as_data text.now) }
{
    let mut reader = Reader::new(text, scratch)?;
    // A value takes two bytes of the text at least, but for the last.
    let mut nodes = Vec::with_capacity(alloc, text.len() / 2 + 1)?;
    match read(&mut nodes, &mut reader, MAX_DEPTH) {
        Ok(()) => {
            if reader.next().is_none() {
                Ok(Some(Document { nodes }))
            } else {
                Ok(None)
            }
        }
        Err(Unread::NotJson) => Ok(None),
        Err(Unread::NoMemory) => Err(AllocError),
    }
}

/// Reads the value of a JSON text in UTF-8; None if serde_json reads no value. If a name is twice in an object, the
/// last value counts. `scratch` has the strings with escapes, and takes a byte of memory for a byte of the text.
///
/// Rule: RFC 8259.
///
/// # Errors
///
/// Memory ran out.
#[tactic(auto, using(crate::proofs::JsonLemmas::json_of_text, crate::proofs::JsonLemmas::no_text))]
pub fn read_document<'a>(
    alloc: Global,
    bytes: &'a [u8],
    scratch: &'a mut Scratch,
) -> Result<Option<Document<'a>>, AllocError>
    ensures { IfOk result (λ found. option_map document_data found ≡ json_of bytes.now) }
{
    match simdutf8::compat::from_utf8(bytes) {
        Ok(text) => read_text(alloc, text, scratch),
        Err(_) => Ok(None),
    }
}
