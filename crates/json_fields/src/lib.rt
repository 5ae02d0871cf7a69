//! The value of a JSON text as a row of nodes, and the fields of an object.
#![tactic(auto)]

mod document;
mod element;
mod fields;
mod lookups;
mod node;
mod nodes;
mod number;
mod unread;

pub use document::{Document, read_document};
pub use element::{Element, Elements, ObjectFields};
