// Values: each is read to its end, and what it says is dropped.
ghost use Rattle.std.specs.Prelude.{◌≡◌, ℕ, ◌<◌, ◌≤◌, length, IfOk};
ghost use Rattle.toml_parser.specs.Reading.{Gives, Reads, Shortens, key_view};
ghost use Rattle.toml.specs.Data.{no_items};
ghost use Rattle.toml.specs.Tables.{no_nodes};
ghost use Rattle.toml.specs.Parse as spec;
ghost use Rattle.toml_rows.specs.Documents.{rest_of, ReadsTable};

use crate::keys::Keys;
use crate::tables::put;
use std::alloc::Global;
use toml_parser::text::{first, skip, skip_blank, skip_ws};
use toml_parser::{ErrorKind, Key, ParseError, dotted_key, quoted, starts_string, unquoted};

/// Reads a value with arrays and inline tables at most `depth` deep, and gives the text after it.
#[cycle(value)]
pub(crate) fn value(alloc: Global, s: &str, depth: usize) -> Result<&str, ParseError>
    ensures value { Gives (λ rest. rest.now) result (rest_of (spec.val depth s.now)) }
    ensures shorter { IfOk result (λ rest. length rest.now < length s.now) }
{
    let byte = first(s);
    if byte != b'[' && byte != b'{' {
        return atom(alloc, s);
    }
    if depth == 0 {
        return Err(ParseError::at(ErrorKind::Recursion, s));
    }
    if byte == b'[' {
        let rest = array(alloc, skip(s, 1), depth - 1)?;
        Ok(rest)
    } else {
        let (_, rest) = inline_table(alloc, skip(s, 1), depth - 1, 0)?;
        Ok(rest)
    }
}

#[tactic(auto, unfolding(toml::specs::Parse::atom))]
fn atom(alloc: Global, s: &str) -> Result<&str, ParseError>
    ensures value { Gives (λ rest. rest.now) result (rest_of (spec.atom s.now)) }
    ensures shorter { IfOk result (λ rest. length rest.now < length s.now) }
{
    if starts_string(s) {
        let (_, rest) = quoted(alloc, s)?;
        Ok(rest)
    } else {
        let (_, rest) = unquoted(alloc, s)?;
        Ok(rest)
    }
}

#[cycle(value)]
fn array(alloc: Global, s: &str, depth: usize) -> Result<&str, ParseError>
    ensures value { (n : ℕ) → length s.now < n
        → Gives (λ rest. rest.now) result (rest_of (spec.items (spec.val depth) n no_items s.now)) }
    ensures shorter { IfOk result (λ rest. length rest.now < length s.now) }
{
    let mut rest = s;
    'items: loop {
        let start = skip_blank(rest, true);
        if first(start) == b']' {
            return Ok(skip(start, 1));
        }
        let after = value(alloc, start, depth)?;
        rest = after_element(after, b']', ErrorKind::Array)?;
    }
}

/// Reads the rest of an inline table; `room` is for how many parts room is taken ahead.
#[cycle(value)]
pub(crate) fn inline_table(
    alloc: Global,
    s: &str,
    depth: usize,
    room: usize,
) -> Result<(Keys<'_>, &str), ParseError>
    ensures value { (n : ℕ) → length s.now < n
        → ReadsTable depth result (spec.members (spec.val depth) n no_nodes s.now) }
    ensures shorter { Shortens s.now result }
{
    let mut keys = Keys::with_room(alloc, room)?;
    let mut rest = s;
    'members: loop {
        let start = skip_blank(rest, true);
        if first(start) == b'}' {
            return Ok((keys, skip(start, 1)));
        }
        let (key, at_value) = key_equals(alloc, start)?;
        let after = value(alloc, at_value, depth)?;
        put(&mut keys, 0, &key, at_value)?;
        rest = after_element(after, b'}', ErrorKind::InlineTable)?;
    }
}

// After a comma, or at the closing bracket.
#[tactic(auto, unfolding(toml::specs::Parse::after_element))]
pub(crate) fn after_element(s: &str, closing: u8, missing: ErrorKind) -> Result<&str, ParseError>
    ensures value { Gives (λ rest. rest.now) result (spec.after_element closing s.now) }
    ensures within { IfOk result (λ rest. length rest.now ≤ length s.now) }
{
    let rest = skip_blank(s, true);
    if first(rest) == b',' {
        Ok(skip(rest, 1))
    } else if first(rest) == closing {
        Ok(rest)
    } else {
        Err(ParseError::at(missing, rest))
    }
}

// A key, `=` and the white space after it.
#[tactic(auto, unfolding(toml::specs::Parse::key_equals))]
pub(crate) fn key_equals(alloc: Global, s: &str) -> Result<(Key, &str), ParseError>
    ensures value { Reads key_view result (spec.key_equals s.now) }
    ensures shorter { Shortens s.now result }
{
    let (key, rest) = dotted_key(alloc, s)?;
    if first(rest) != b'=' {
        return Err(ParseError::at(ErrorKind::MissingEquals, rest));
    }
    Ok((key, skip_ws(skip(rest, 1))))
}
