// Each byte of the journal changed, and each length to which it is cut, beside the slots of a table.
use crate::sessions::hear;
use anyhow::Result;
use fault_table::{Plan, Ranges, Table, disk_of, with_byte};
use std::alloc::Global;
use std::sync::Wait;
use std::thread::Threads;

// What is said over this journal.
fn open<R: Threads + Wait + Sync>(
    rt: &R,
    alloc: Global,
    table: &Table,
    plan: &Plan,
    journal: &[u8],
) -> Result<String> {
    let disk = disk_of(alloc, journal, &plan.first, &plan.second, &[])?;
    let heard = hear(rt, alloc, table, &plan.show, disk)?;
    Ok(heard.told)
}

fn tell_bytes<R: Threads + Wait + Sync>(
    rt: &R,
    alloc: Global,
    page: &mut String,
    table: &Table,
    plan: &Plan,
    what: &str,
    value: u8,
) -> Result<()> {
    let mut ranges = Ranges::new();
    for at in 0..plan.journal.len() {
        let journal = with_byte(alloc, &plan.journal, at, value)?;
        let told = open(rt, alloc, table, plan, &journal)?;
        ranges.add(page, what, at, told)?;
    }
    ranges.put(page, what)?;
    Ok(())
}

fn tell_lengths<R: Threads + Wait + Sync>(
    rt: &R,
    alloc: Global,
    page: &mut String,
    table: &Table,
    plan: &Plan,
) -> Result<()> {
    let mut ranges = Ranges::new();
    for length in 0..=plan.journal.len() {
        let mut journal = plan.journal.to_vec(alloc)?;
        journal.truncate(length);
        let told = open(rt, alloc, table, plan, &journal)?;
        ranges.add(page, "cut to", length, told)?;
    }
    ranges.put(page, "cut to")?;
    Ok(())
}

/// Prints what is said over each damage.
pub fn tell_damage<R: Threads + Wait + Sync>(
    rt: &R,
    alloc: Global,
    page: &mut String,
    table: &Table,
    plan: &Plan,
) -> Result<()> {
    tell_bytes(rt, alloc, page, table, plan, "37 at", 0x37)?;
    tell_bytes(rt, alloc, page, table, plan, "00 at", 0x00)?;
    tell_lengths(rt, alloc, page, table, plan)
}
