// Walking over a row.
ghost use Rattle.std.specs.Prelude.{◌≡◌, ℕ, ◌+◌, ◌<◌, ◌↔◌, slice_index_or, [], IsTrue, IfOk, option_map};
ghost use Rattle.toml.specs.Data.{Items, Members, get_member};
ghost use Rattle.toml.specs.Tables.{Nodes};
ghost use Rattle.toml_rows.specs.Reading.{Holds};
ghost use Rattle.toml_rows.specs.Rows.{is_key, row_of};
ghost use Rattle.toml_rows.specs.Documents.{IsTable};
ghost use Rattle.toml_rows.specs.Walking.{IsArray, AreElements, IsLeft, Finds, SeenAs, knows, IsUnknown, IsBefore, IsLeast, first_unknown};

use crate::keys::Keys;
use crate::row::{NONE, Seat, What};
use std::alloc::{AllocError, Global};
use std::cmp::Ordering;

/// What stands at a key.
#[derive(Clone, Copy)]
pub enum Found<'s> {
    /// A value; the text from it on.
    Value(&'s str),
    /// A table; its number.
    Table(u32),
    /// An array of tables; the number of its last element.
    Tables(u32),
}

impl<'s> Keys<'s> {
    /// Looks for a name in a table; None if the table does not have it. Takes no memory.
    pub fn get(&self, table: u32, name: &str) -> Option<Found<'s>>
        ensures { (depth : ℕ) (ms : Members) → IsTable depth (row_of self.now) table ms
            → Finds depth (row_of self.now) result (get_member name.now ms) }
    {
        match self.find(table, name) {
            Seat::Found(part) => self.found(part),
            Seat::Free(_, _) => None,
        }
    }

    // What stands at a part.
    fn found(&self, part: u32) -> Option<Found<'s>>
        ensures { SeenAs (row_of self.now) part ((row_of self.now).what part) result }
    {
        match self.what(part) {
            What::Value(value) => Some(Found::Value(self.text(value))),
            What::Implicit | What::Dotted | What::Header => Some(Found::Table(part)),
            What::Tables(last) => Some(Found::Tables(last)),
            What::Element(_) => None,
        }
    }

    // The text from a value on.
    fn text(&self, value: u32) -> &'s str
        ensures { result.now ≡ slice_index_or (row_of self.now).values value [] }
    {
        match self.values.get(value as usize) {
            Some(text) => text,
            None => "",
        }
    }

    /// Gives the first name of a table, in the byte order of the names, that is none of these; None if there is no such
    /// name. Takes no memory.
    pub fn first_unknown(&self, table: u32, known: &[&str]) -> Option<&str>
        ensures { (depth : ℕ) (ms : Members) → IsTable depth (row_of self.now) table ms
            → option_map (λ name. name.now) result
            ≡ first_unknown (knows known.now) ms }
    {
        let mut least = None;
        'parts: for part in 0..self.parts.len() {
            least = self.least_of(table, known, part, least);
        }
        match least {
            Some(part) => Some(self.names.get(part)),
            None => None,
        }
    }

    // The first of the names up to this part, if `least` is the first before it.
    fn least_of(
        &self,
        table: u32,
        known: &[&str],
        part: usize,
        least: Option<usize>,
    ) -> Option<usize>
        ensures { part < (row_of self.now).count
            → IsLeast (row_of self.now) table (knows known.now) part least
            → IsLeast (row_of self.now) table (knows known.now) (part + 1) result }
    {
        if !self.is_unknown(table, known, part) {
            return least;
        }
        match least {
            Some(other) => {
                if is_before(self.names.get(part), self.names.get(other)) {
                    Some(part)
                } else {
                    Some(other)
                }
            }
            None => Some(part),
        }
    }

    /// Gives the tables of an array of tables, in the order of the text, by the last of them.
    pub fn elements_of(&self, alloc: Global, last: u32) -> Result<Vec<u32>, AllocError>
        ensures { IfOk result (λ ts. (depth : ℕ) (ds : Items) → IsArray depth (row_of self.now) last ds
            → AreElements depth (row_of self.now) ts.items ds) }
    {
        let mut found = Vec::new(alloc);
        let mut at = last;
        'elements: for _turn in 0..self.parts.len() {
            at = self.take_element(&mut found, at)?;
        }
        found.reverse();
        Ok(found)
    }

    // Adds an element, and gives the one before it.
    fn take_element(&self, found: &mut Vec<u32>, at: u32) -> Result<u32, AllocError>
        ensures { IfOk result (λ next. (depth : ℕ) (tables : ℕ → Nodes) (elements : ℕ → Items) (ds : Items) (turn : ℕ)
            → Holds depth (row_of self.now) tables elements
            → IsLeft depth (row_of self.now) tables elements ds found.old.items at turn
            → IsLeft depth (row_of self.now) tables elements ds found.new.items next (turn + 1)) }
    {
        if at == NONE {
            return Ok(NONE);
        }
        found.push(at)?;
        Ok(self.before(at))
    }

    // The element before this one.
    fn before(&self, part: u32) -> u32
        ensures { (b : ℕ) → (row_of self.now).what part ≡ What.Element b → result ≡ b }
    {
        match self.what(part) {
            What::Element(before) => before,
            _ => NONE,
        }
    }

    fn is_unknown(&self, table: u32, known: &[&str], part: usize) -> bool
        ensures { part < (row_of self.now).count
            → (IsTrue result ↔ IsUnknown (row_of self.now) table (knows known.now) part) }
    {
        let Some(here) = self.parts.get(part) else {
            return false;
        };
        if here.table != table {
            return false;
        }
        if !is_named(here.what) {
            return false;
        }
        !is_among(known, self.names.get(part))
    }
}

fn is_named(what: What) -> bool
    ensures { result ≡ is_key what }
{
    match what {
        What::Element(_) => false,
        _ => true,
    }
}

fn is_among(known: &[&str], name: &str) -> bool
    ensures { result ≡ knows known.now name.now }
{
    known.iter().any(|k| name == *k)
}

fn is_before(a: &str, b: &str) -> bool
    ensures { IsTrue result ↔ IsBefore a.now b.now }
{
    match a.cmp(b) {
        Ordering::Less => true,
        _ => false,
    }
}
