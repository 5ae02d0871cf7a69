// The keys of a document in one row, and the search for one of them.
ghost use Rattle.std.specs.Prelude.{◌≡◌, ℕ, ◌<◌, ◌↔◌, false, IsTrue, IfOk, length};
ghost use Rattle.toml.specs.Data.{no_members};
ghost use Rattle.toml_rows.specs.Documents.{IsTable};
ghost use Rattle.toml_rows.specs.Rows.{is_key, row_of, key_bit, IsFoundBy, IsFree, IsSeat, IsEmpty, Pushes, Relinks, Adds, Puts, with_value};

use crate::names::Names;
use crate::row::{NONE, Part, Seat, What};
use std::alloc::{AllocError, Global};

/// How many bits of a table's number come before those of a name.
const TABLE_BITS: usize = 21;

/// The keys of a document.
#[derive(Drop)]
pub struct Keys<'s> {
    pub(crate) parts: Vec<Part>,
    pub(crate) names: Names,
    /// The text from each value on.
    pub(crate) values: Vec<&'s str>,
}

// A bit of a key.
fn bit(table: u32, name: &str, turn: usize) -> bool
    ensures { result ≡ key_bit table name.now turn }
{
    if turn < TABLE_BITS {
        return table / 2u32.pow(turn as u32) % 2 == 1;
    }
    let place = turn - TABLE_BITS;
    match name.as_bytes().get(place / 8) {
        Some(byte) => *byte / 2u8.pow((place % 8) as u32) % 2 == 1,
        None => false,
    }
}

impl<'s> Keys<'s> {
    /// No keys: the empty table.
    #[tactic(auto, using(crate::proofs::LoopLemmas::empty_table))]
    pub fn new(alloc: Global) -> Result<Keys<'s>, AllocError>
        ensures row { IfOk result (λ keys. IsEmpty (row_of keys)) }
        ensures table { IfOk result (λ keys. (depth : ℕ) → IsTable depth (row_of keys) 0 no_members) }
    {
        Keys::with_room(alloc, 0)
    }

    /// No keys, with room for so many parts: a row that grows is copied, and both copies stand for a while.
    pub(crate) fn with_room(alloc: Global, room: usize) -> Result<Keys<'s>, AllocError>
        ensures { IfOk result (λ keys. IsEmpty (row_of keys)) }
    {
        let mut parts = Vec::with_capacity(alloc, room)?;
        let mut names = Names::new(alloc);
        names.push("")?;
        let root = Part {
            table: NONE,
            low: NONE,
            high: NONE,
            what: What::Element(NONE),
        };
        match parts.push(root) {
            Ok(()) => Ok(Keys {
                parts,
                names,
                values: Vec::new(alloc),
            }),
            Err(_) => Err(AllocError),
        }
    }

    /// What a part holds.
    pub(crate) fn what(&self, part: u32) -> What
        ensures { result ≡ (row_of self.now).what part }
    {
        match self.parts.get(part as usize) {
            Some(part) => part.what,
            None => What::Element(NONE),
        }
    }

    /// The table that has a part.
    pub(crate) fn table(&self, part: u32) -> u32
        ensures { result ≡ (row_of self.now).table part }
    {
        match self.parts.get(part as usize) {
            Some(part) => part.table,
            None => NONE,
        }
    }

    fn link(&self, part: u32, high: bool) -> u32
        ensures { result ≡ (row_of self.now).link part high }
    {
        match self.parts.get(part as usize) {
            Some(part) => { if high { part.high } else { part.low } }
            None => NONE,
        }
    }

    fn is(&self, part: u32, table: u32, name: &str) -> bool
        ensures { IsTrue result ↔ ((row_of self.now).table part ≡ table) × ((row_of self.now).name part ≡ name.now) }
    {
        self.table(part) == table && self.names.get(part as usize) == name
    }

    /// Looks for a key.
    #[tactic(auto, using(crate::proofs::RowLemmas::turn_first))]
    pub(crate) fn find(&self, table: u32, name: &str) -> Seat
        ensures { (level : ℕ → ℕ) → IsFoundBy (row_of self.now) level → is_key ((row_of self.now).what 0) ≡ false
            → IsSeat (row_of self.now) level table name.now result }
    {
        let mut at = 0;
        'turns: for turn in 0..self.parts.len() {
            let high = bit(table, name, turn);
            let next = self.link(at, high);
            if next == NONE {
                return Seat::Free(at, high);
            }
            if self.is(next, table, name) {
                return Seat::Found(next);
            }
            at = next;
        }
        Seat::Free(NONE, false)
    }

    /// Adds a part at the end, without links; the links of the others are as before.
    pub(crate) fn push(&mut self, table: u32, name: &str, what: What) -> Result<u32, AllocError>
        ensures { (row_of self.old).named ≡ (row_of self.old).count
            → IfOk result (λ n. Pushes (row_of self.old) (row_of self.new) table name.now what n) }
    {
        let number = self.parts.len();
        if number >= 4_294_967_294 {
            return Err(AllocError);
        }
        self.names.push(name)?;
        let part = Part {
            table,
            low: NONE,
            high: NONE,
            what,
        };
        match self.parts.push(part) {
            Ok(()) => Ok(number as u32),
            Err(_) => Err(AllocError),
        }
    }

    fn set_link(&mut self, part: u32, high: bool, next: u32)
        ensures { part < (row_of self.old).count → Relinks (row_of self.old) (row_of self.new) part high next }
    {
        if let Some(part) = self.parts.get_mut(part as usize) {
            if high {
                part.high = next;
            } else {
                part.low = next;
            }
        }
    }

    /// Adds a key that is not there.
    pub(crate) fn add(
        &mut self,
        table: u32,
        name: &str,
        at: u32,
        high: bool,
        what: What,
    ) -> Result<u32, AllocError>
        ensures { (level : ℕ → ℕ) → IsFoundBy (row_of self.old) level
            → IsFree (row_of self.old) level table name.now at high
            → IsTrue (is_key what) → (row_of self.old).named ≡ (row_of self.old).count
            → IfOk result (λ n. Adds (row_of self.old) (row_of self.new) table name.now what n) }
    {
        let number = self.push(table, name, what)?;
        self.set_link(at, high, number);
        Ok(number)
    }

    /// Sets what a part holds.
    pub(crate) fn set(&mut self, part: u32, what: What)
        ensures { part < (row_of self.old).count → Puts (row_of self.old) (row_of self.new) part what }
    {
        if let Some(part) = self.parts.get_mut(part as usize) {
            part.what = what;
        }
    }

    /// Adds a value's text.
    pub(crate) fn push_value(&mut self, text: &'s str) -> Result<u32, AllocError>
        ensures row { IfOk result (λ _. row_of self.new ≡ with_value (row_of self.old) text.now) }
        ensures number { IfOk result (λ v. v ≡ length (row_of self.old).values) }
    {
        let number = self.values.len();
        if number >= 4_294_967_295 {
            return Err(AllocError);
        }
        match self.values.push(text) {
            Ok(()) => Ok(number as u32),
            Err(_) => Err(AllocError),
        }
    }
}
