// What values say.
ghost use Rattle.std.specs.Prelude.{◌≡◌, ℕ, ◌<◌, length, option_map, string_bytes, IfOk};
ghost use Rattle.toml.specs.Data.{as_integer, as_str, no_items};
ghost use Rattle.toml.specs.Parse as spec;
ghost use Rattle.toml_rows.specs.Reading.{data_at};
ghost use Rattle.toml_rows.specs.Walking.{IsInline, IsList, ReadsItems};

use crate::keys::Keys;
use crate::values::{after_element, inline_table, value};
use std::alloc::{AllocError, Global};
use toml_parser::text::{first, skip, skip_blank};
use toml_parser::{ErrorKind, ParseError, Scalar, quoted, starts_string, unquoted};

/// Reads the inline table that a text begins with; None if it begins with no valid inline table at most `depth` deep.
///
/// # Errors
///
/// `AllocError`: memory ran out.
pub fn inline(alloc: Global, text: &str, depth: usize) -> Result<Option<Keys<'_>>, AllocError>
    ensures { IfOk result (λ found. IsInline depth text.now found) }
{
    if depth == 0 {
        return Ok(None);
    }
    if first(text) != b'{' {
        return Ok(None);
    }
    // A part takes at least two bytes of the text.
    match inline_table(alloc, skip(text, 1), depth - 1, text.len() / 2) {
        Ok((keys, _)) => Ok(Some(keys)),
        Err(e) => match e {
            ParseError::OutOfMemory => Err(AllocError),
            _ => Ok(None),
        },
    }
}

/// Gives the text from each element on, of the array that a text begins with. None if it begins with no valid array at
/// most `depth` deep.
///
/// # Errors
///
/// `AllocError`: memory ran out.
pub fn elements(alloc: Global, text: &str, depth: usize) -> Result<Option<Vec<&str>>, AllocError>
    ensures { IfOk result (λ found. IsList depth text.now found) }
{
    if depth == 0 {
        return Ok(None);
    }
    if first(text) != b'[' {
        return Ok(None);
    }
    match rest_of_array(alloc, skip(text, 1), depth - 1) {
        Ok(found) => Ok(Some(found)),
        Err(e) => match e {
            ParseError::OutOfMemory => Err(AllocError),
            _ => Ok(None),
        },
    }
}

fn rest_of_array(alloc: Global, s: &str, depth: usize) -> Result<Vec<&str>, ParseError>
    ensures { (n : ℕ) → length s.now < n → ReadsItems depth result (spec.items (spec.val depth) n no_items s.now) }
{
    let mut found = Vec::new(alloc);
    let mut rest = s;
    'items: loop {
        let start = skip_blank(rest, true);
        if first(start) == b']' {
            return Ok(found);
        }
        let after = value(alloc, start, depth)?;
        found.push(start)?;
        rest = after_element(after, b']', ErrorKind::Array)?;
    }
}

/// Reads the integer that a text begins with; None if it begins with another value or none.
///
/// # Errors
///
/// `AllocError`: memory ran out.
pub fn integer(alloc: Global, text: &str) -> Result<Option<i64>, AllocError>
    ensures { IfOk result (λ n. (depth : ℕ) → n ≡ as_integer (data_at depth text.now)) }
{
    let byte = first(text);
    if byte == b'[' {
        return Ok(None);
    }
    if byte == b'{' {
        return Ok(None);
    }
    if starts_string(text) {
        return Ok(None);
    }
    match unquoted(alloc, text) {
        Ok((scalar, _)) => Ok(integer_of(scalar)),
        Err(e) => match e {
            ParseError::OutOfMemory => Err(AllocError),
            _ => Ok(None),
        },
    }
}

fn integer_of(scalar: Scalar) -> Option<i64>
    ensures { result ≡ as_integer (spec.scalar_data scalar) }
{
    match scalar {
        Scalar::Integer(n) => Some(n),
        _ => None,
    }
}

/// Reads the string that a text begins with; None if it begins with another value or none.
///
/// # Errors
///
/// `AllocError`: memory ran out.
pub fn string(alloc: Global, text: &str) -> Result<Option<String>, AllocError>
    ensures { IfOk result (λ found. (depth : ℕ) → option_map string_bytes found ≡ as_str (data_at depth text.now)) }
{
    if !starts_string(text) {
        return Ok(None);
    }
    match quoted(alloc, text) {
        Ok((text, _)) => Ok(Some(text)),
        Err(e) => match e {
            ParseError::OutOfMemory => Err(AllocError),
            _ => Ok(None),
        },
    }
}
