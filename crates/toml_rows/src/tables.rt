// The rules by which keys and headers define tables.
ghost use Rattle.std.specs.Prelude.{◌≡◌, ℕ, ◌<◌, List, IfOk};
ghost use Rattle.toml_parser.specs.Reading.{path_view, key_view};
ghost use Rattle.toml.specs.Tables.{along_header, along_dots, at_key, put, key_value, std_table, array_table};
ghost use Rattle.toml_rows.specs.Rows.{row_of, HasKey, NextOf};
ghost use Rattle.toml_rows.specs.Reading.{Passes, Marks, Enters, Follows, Edits, Opens, OpensAt, mark_header, mark_dots, data_at};

use crate::keys::Keys;
use crate::row::{NONE, Seat, What};
use std::alloc::AllocError;
use toml_parser::{ErrorKind, Key, ParseError};

fn fault() -> ParseError {
    ParseError::at(ErrorKind::DuplicateKey, "")
}

// A header goes through a table, or into the last element of an array of tables.
fn pass_header(keys: &Keys, part: u32) -> Result<u32, ParseError>
    ensures { Passes (row_of keys.now) part result }
{
    match keys.what(part) {
        What::Implicit | What::Dotted | What::Header => Ok(part),
        What::Tables(last) => Ok(last),
        _ => Err(fault()),
    }
}

// A dotted key goes through a table that no header defined.
fn pass_dots(keys: &mut Keys, part: u32) -> Result<u32, ParseError>
    ensures { part < (row_of keys.old).count → Marks (row_of keys.old) (row_of keys.new) part result }
{
    match keys.what(part) {
        What::Implicit => {
            keys.set(part, What::Dotted);
            Ok(part)
        }
        What::Dotted => Ok(part),
        _ => Err(fault()),
    }
}

// The table of a name on a header's path; it is made if it is missing.
fn enter_header(keys: &mut Keys, table: u32, name: &str) -> Result<u32, ParseError>
    ensures { (depth : ℕ) → Enters depth (row_of keys.old) (row_of keys.new) table name.now (mark_header name.now)
        result }
{
    match keys.find(table, name) {
        Seat::Found(part) => {
            let inner = pass_header(keys, part)?;
            Ok(inner)
        }
        Seat::Free(at, high) => Ok(keys.add(table, name, at, high, What::Implicit)?),
    }
}

// The same of a dotted key.
fn enter_dots(keys: &mut Keys, table: u32, name: &str) -> Result<u32, ParseError>
    ensures { (depth : ℕ) → Enters depth (row_of keys.old) (row_of keys.new) table name.now (mark_dots name.now)
        result }
{
    match keys.find(table, name) {
        Seat::Found(part) => {
            let inner = pass_dots(keys, part)?;
            Ok(inner)
        }
        Seat::Free(at, high) => Ok(keys.add(table, name, at, high, What::Dotted)?),
    }
}

// The table at the end of a header's path.
fn through_header(keys: &mut Keys, table: u32, path: &[String]) -> Result<u32, ParseError>
    ensures { (depth : ℕ) → Follows depth (row_of keys.old) (row_of keys.new) table (path_view path.now)
        (along_header (path_view path.now)) result }
{
    let [name, rest @ ..] = path else {
        return Ok(table);
    };
    let inner = enter_header(keys, table, name.as_str())?;
    let end = through_header(keys, inner, rest)?;
    Ok(end)
}

// The table at the end of a dotted path.
fn through_dots(keys: &mut Keys, table: u32, path: &[String]) -> Result<u32, ParseError>
    ensures { (depth : ℕ) → Follows depth (row_of keys.old) (row_of keys.new) table (path_view path.now)
        (along_dots (path_view path.now)) result }
{
    let [name, rest @ ..] = path else {
        return Ok(table);
    };
    let inner = enter_dots(keys, table, name.as_str())?;
    let end = through_dots(keys, inner, rest)?;
    Ok(end)
}

// A key is defined once.
fn define_value<'s>(
    keys: &mut Keys<'s>,
    table: u32,
    name: &str,
    text: &'s str,
) -> Result<(), ParseError>
    ensures { (depth : ℕ) → Edits depth (row_of keys.old) (row_of keys.new) table
        (at_key name.now (key_value (data_at depth text.now))) result }
{
    let value = keys.push_value(text)?;
    match keys.find(table, name) {
        Seat::Found(_) => Err(fault()),
        Seat::Free(at, high) => {
            keys.add(table, name, at, high, What::Value(value))?;
            Ok(())
        }
    }
}

/// Puts a pair into a table.
pub(crate) fn put<'s>(
    keys: &mut Keys<'s>,
    table: u32,
    key: &Key,
    text: &'s str,
) -> Result<(), ParseError>
    ensures { (depth : ℕ) → Edits depth (row_of keys.old) (row_of keys.new) table
        (put (key_view key.now) (data_at depth text.now)) result }
{
    let inner = through_dots(keys, table, &key.path)?;
    define_value(keys, inner, key.last.as_str(), text)?;
    Ok(())
}

// A header may name a table that other headers only passed through.
fn define_table(keys: &mut Keys, table: u32, name: &str) -> Result<u32, ParseError>
    ensures { (depth : ℕ) → Opens depth (row_of keys.old) (row_of keys.new) table name.now (at_key name.now std_table)
        result }
{
    match keys.find(table, name) {
        Seat::Found(part) => match keys.what(part) {
            What::Implicit => {
                keys.set(part, What::Header);
                Ok(part)
            }
            _ => Err(fault()),
        },
        Seat::Free(at, high) => Ok(keys.add(table, name, at, high, What::Header)?),
    }
}

/// Opens the table of a header.
pub(crate) fn open_table(keys: &mut Keys, key: &Key) -> Result<u32, ParseError>
    ensures { (depth : ℕ) → OpensAt depth (row_of keys.old) (row_of keys.new) (key_view key.now) std_table result }
{
    let table = through_header(keys, 0, &key.path)?;
    let opened = define_table(keys, table, key.last.as_str())?;
    Ok(opened)
}

// Adds an element to the array at a part.
fn next_element(keys: &mut Keys, part: u32, before: u32) -> Result<u32, AllocError>
    ensures { (t : ℕ) (k : List ℕ) → HasKey (row_of keys.old) part t k
        → (row_of keys.old).named ≡ (row_of keys.old).count
        → IfOk result (λ n. NextOf (row_of keys.old) (row_of keys.new) part before n) }
{
    let element = keys.push(part, "", What::Element(before))?;
    keys.set(part, What::Tables(element));
    Ok(element)
}

// A header in double brackets adds an element to an array of tables.
fn define_element(keys: &mut Keys, table: u32, name: &str) -> Result<u32, ParseError>
    ensures { (depth : ℕ) → Opens depth (row_of keys.old) (row_of keys.new) table name.now
        (at_key name.now array_table) result }
{
    match keys.find(table, name) {
        Seat::Found(part) => match keys.what(part) {
            What::Tables(last) => Ok(next_element(keys, part, last)?),
            _ => Err(fault()),
        },
        Seat::Free(at, high) => {
            let part = keys.add(table, name, at, high, What::Header)?;
            Ok(next_element(keys, part, NONE)?)
        }
    }
}

/// Opens the next element of an array of tables.
pub(crate) fn open_element(keys: &mut Keys, key: &Key) -> Result<u32, ParseError>
    ensures { (depth : ℕ) → OpensAt depth (row_of keys.old) (row_of keys.new) (key_view key.now) array_table result }
{
    let table = through_header(keys, 0, &key.path)?;
    let opened = define_element(keys, table, key.last.as_str())?;
    Ok(opened)
}
