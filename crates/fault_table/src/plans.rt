// The bytes and the messages of a table.
use crate::tables::Table;
use anyhow::{Context, Result};
use case_table::{Session, Step, add_messages, bytes_of, number_of};
use std::alloc::Global;

/// The size of the pieces in which input comes, in bytes.
const CUT: usize = 8192;

/// The byte of a gate of the journal that is open.
const OPEN: u8 = 0xA5;

/// What a table has, as bytes and as messages.
#[derive(Drop)]
pub struct Plan {
    pub journal: Vec<u8>,
    pub first: Vec<u8>,
    pub second: Vec<u8>,
    /// The messages of the first session, those that show what is there included.
    pub step: Session,
    /// The messages of each later session.
    pub show: Session,
    // The journal up to its end gate, without the entry and with it.
    before: Vec<u8>,
    after: Vec<u8>,
}

fn add_steps(alloc: Global, session: &mut Session, steps: &[Step]) -> Result<()> {
    for step in steps {
        let at = number_of(alloc, &step.at)?;
        add_messages(alloc, session, step, at)?;
    }
    Ok(())
}

// The bytes of a slot, by its number from 0 on; none where there is no slot.
fn slot_of(alloc: Global, table: &Table, number: usize) -> Result<Vec<u8>> {
    match table.slots.get(number) {
        Some(digits) => bytes_of(alloc, digits.as_str()),
        None => Ok(Vec::new(alloc)),
    }
}

// These bytes, an open gate, the length of an entry, and the entry.
fn joined(alloc: Global, before: &[u8], entry: &[u8]) -> Result<Vec<u8>> {
    let size = u32::try_from(entry.len()).context("an entry is too long")?;
    let mut after = before.to_vec(alloc)?;
    after.push(OPEN)?;
    after.extend_from_slice(&size.to_be_bytes())?;
    after.extend_from_slice(entry)?;
    Ok(after)
}

// Whether a file has these bytes, and a closed gate after them.
fn ends_after(file: &[u8], front: &[u8]) -> bool {
    match file.strip_prefix(front) {
        None => false,
        Some(rest) => match rest.first() {
            None => false,
            Some(gate) => *gate != OPEN,
        },
    }
}

/// Reads the bytes of a table, and makes its messages.
pub fn plan_of(alloc: Global, table: &Table) -> Result<Plan> {
    let journal = bytes_of(alloc, table.journal.as_str())?;
    let before = match journal.split_last() {
        Some((_, front)) => front.to_vec(alloc)?,
        None => Vec::new(alloc),
    };
    let after = joined(alloc, &before, &bytes_of(alloc, table.entry.as_str())?)?;
    let mut step = Session::new(alloc, CUT)?;
    add_steps(alloc, &mut step, &table.step)?;
    add_steps(alloc, &mut step, &table.show)?;
    let mut show = Session::new(alloc, CUT)?;
    add_steps(alloc, &mut show, &table.show)?;
    Ok(Plan {
        journal,
        first: slot_of(alloc, table, 0)?,
        second: slot_of(alloc, table, 1)?,
        step,
        show,
        before,
        after,
    })
}

impl Plan {
    /// What these images of the journal have: the journal of the start, or the entry after it.
    pub fn history_in(&self, images: &[Vec<u8>]) -> &'static str {
        let mut with = false;
        let mut without = false;
        for image in images {
            if ends_after(image, &self.after) {
                with = true;
            } else if ends_after(image, &self.before) {
                without = true;
            } else {
                return " | images damaged";
            }
        }
        match (with, without) {
            (true, true) => " | images both",
            (true, false) => " | images with",
            (false, true) => " | images without",
            (false, false) => " | images no image",
        }
    }
}
