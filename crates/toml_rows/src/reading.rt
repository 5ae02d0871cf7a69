// Documents.
ghost use Rattle.std.specs.Prelude.{◌≡◌, ◌<◌, ◌≤◌, length, IfOk};
ghost use Rattle.toml_parser.specs.Strings.{recursion_limit};
ghost use Rattle.toml_parser.specs.Reading.{Reads, Shortens, key_view};
ghost use Rattle.toml.specs.Parse as spec;
ghost use Rattle.toml_rows.specs.Rows.{row_of};
ghost use Rattle.toml_rows.specs.Documents.{IsDocument, GivesTable, ReadsLine, Defines, definition_view};

use crate::keys::Keys;
use crate::tables::{open_element, open_table, put};
use crate::values::{key_equals, value};
use std::alloc::{AllocError, Global};
use toml_parser::text::{byte_at, first, skip, skip_blank, skip_ws};
use toml_parser::{ErrorKind, Key, ParseError, RECURSION_LIMIT, dotted_key};

// What stands on a line: a pair with the text of its value, a header, or a header in double brackets.
#[derive(Clone, Copy)]
pub(crate) enum Definition<'s> {
    Pair(&'s str),
    Table,
    Element,
}

/// Reads the keys of a document.
pub(crate) fn document(alloc: Global, s: &str) -> Result<Keys<'_>, ParseError>
    ensures { GivesTable recursion_limit result (spec.parse_document s.now) }
{
    // A part takes at least two bytes of the text.
    let mut keys = Keys::with_room(alloc, s.len() / 2)?;
    let mut section = 0;
    let mut rest = skip_bom(s);
    'lines: loop {
        let start = skip_blank(rest, true);
        if start.is_empty() {
            return Ok(keys);
        }
        let (key, what, after) = line(alloc, start)?;
        section = define(&mut keys, section, &key, what)?;
        rest = after;
    }
}

/// Reads a document of TOML v1.1.0. None if the text is not one, nests more than 80 deep, or has an integer outside 64
/// bits.
///
/// # Errors
///
/// `AllocError`: memory ran out, or there are more than 2^32 - 2 parts, or their names take 2^32 bytes or more.
pub fn read(alloc: Global, s: &str) -> Result<Option<Keys<'_>>, AllocError>
    ensures { IfOk result (λ found. IsDocument s.now found) }
{
    match document(alloc, s) {
        Ok(keys) => Ok(Some(keys)),
        Err(e) => match e {
            ParseError::OutOfMemory => Err(AllocError),
            _ => Ok(None),
        },
    }
}

#[tactic(auto, unfolding(toml::specs::Parse::skip_bom))]
fn skip_bom(s: &str) -> &str
    ensures rest { result.now ≡ spec.skip_bom s.now }
    ensures within { length result.now ≤ length s.now }
{
    if first(s) == 0xEF && byte_at(s, 1) == 0xBB && byte_at(s, 2) == 0xBF {
        &s[3..]
    } else {
        s
    }
}

// Gives the table that the next pairs go into.
fn define<'s>(
    keys: &mut Keys<'s>,
    section: u32,
    key: &Key,
    what: Definition<'s>,
) -> Result<u32, ParseError>
    ensures { Defines (row_of keys.old) (row_of keys.new) section (key_view key.now, definition_view what.entry)
        result }
{
    match what {
        Definition::Pair(text) => {
            put(keys, section, key, text)?;
            Ok(section)
        }
        Definition::Table => {
            let table = open_table(keys, key)?;
            Ok(table)
        }
        Definition::Element => {
            let element = open_element(keys, key)?;
            Ok(element)
        }
    }
}

#[tactic(auto, unfolding(toml::specs::Parse::line))]
fn line(alloc: Global, s: &str) -> Result<(Key, Definition<'_>, &str), ParseError>
    ensures value { ReadsLine result (spec.line s.now) }
    ensures shorter { IfOk result (λ p. length p.2.now < length s.now) }
{
    let (key, what, rest) = expression(alloc, s)?;
    let end = skip_ws(rest);
    if end.is_empty() || matches!(first(end), b'#' | b'\n' | b'\r') {
        Ok((key, what, rest))
    } else {
        Err(ParseError::at(ErrorKind::EndOfLine, end))
    }
}

fn expression(alloc: Global, s: &str) -> Result<(Key, Definition<'_>, &str), ParseError>
    ensures value { ReadsLine result (spec.expression s.now) }
    ensures shorter { IfOk result (λ p. length p.2.now < length s.now) }
{
    if first(s) == b'[' && byte_at(s, 1) == b'[' {
        let (key, rest) = header_key(alloc, skip(s, 2))?;
        if first(rest) != b']' {
            return Err(ParseError::at(ErrorKind::UnclosedArrayTable, rest));
        }
        Ok((key, Definition::Element, skip(rest, 1)))
    } else if first(s) == b'[' {
        let (key, rest) = header_key(alloc, skip(s, 1))?;
        Ok((key, Definition::Table, rest))
    } else {
        let (key, at_value) = key_equals(alloc, s)?;
        let rest = value(alloc, at_value, RECURSION_LIMIT)?;
        Ok((key, Definition::Pair(at_value), rest))
    }
}

// The key of a header and its first closing bracket.
#[tactic(auto, unfolding(toml::specs::Parse::header_key))]
fn header_key(alloc: Global, s: &str) -> Result<(Key, &str), ParseError>
    ensures value { Reads key_view result (spec.header_key s.now) }
    ensures shorter { Shortens s.now result }
{
    let (key, rest) = dotted_key(alloc, skip_ws(s))?;
    if first(rest) != b']' {
        return Err(ParseError::at(ErrorKind::UnclosedTable, rest));
    }
    Ok((key, skip(rest, 1)))
}
