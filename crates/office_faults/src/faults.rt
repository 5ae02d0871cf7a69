// A session, a later one, and one more that is begun again until it is opened: over each disk of which one call fails,
// or two, or all from one on.
use crate::sessions::{Heard, hear};
use anyhow::{Result, bail};
use disk_core::{Disk, FileNo, MemoryDisk};
use fault_table::{Plan, Table, Tally, disk_of};
use std::alloc::Global;
use std::fmt::Write;
use std::sync::Wait;
use std::thread::Threads;

/// A session makes fewer calls.
const LIMIT: u64 = 1000;

// What images of the journal have, if they are looked at.
fn images_word(plan: &Plan, disk: &MemoryDisk, looks: bool) -> Result<&'static str> {
    if !looks {
        return Ok("");
    }
    match disk.images(FileNo::Journal, u64::MAX) {
        Ok(images) => Ok(plan.history_in(&images)),
        Err(_) => bail!("no memory"),
    }
}

// Both sessions over a disk whose calls with these numbers fail: what was said, and what images of the journal had
// between them.
fn hear_both<R: Threads + Wait + Sync>(
    rt: &R,
    alloc: Global,
    table: &Table,
    plan: &Plan,
    failing: &[u64],
    looks: bool,
) -> Result<Heard> {
    let disk = disk_of(alloc, &plan.journal, &plan.first, &plan.second, failing)?;
    let heard = hear(rt, alloc, table, &plan.step, disk)?;
    let word = images_word(plan, &heard.disk, looks)?;
    let later = hear(rt, alloc, table, &plan.show, heard.disk)?;
    let told = format!(in alloc; "{}{word} | {}", heard.told, later.told)?;
    Ok(Heard {
        told,
        status: later.status,
        disk: later.disk,
    })
}

// How many calls of the disk both sessions make if none fails.
fn count_calls<R: Threads + Wait + Sync>(
    rt: &R,
    alloc: Global,
    table: &Table,
    plan: &Plan,
) -> Result<u64> {
    for number in 1..LIMIT {
        let heard = hear_both(rt, alloc, table, plan, &[number], false)?;
        if heard.disk.faults() == 0 {
            return Ok(number.saturating_sub(1));
        }
    }
    bail!("a session makes too many calls")
}

// What the three sessions say if these calls fail.
fn hear_failing<R: Threads + Wait + Sync>(
    rt: &R,
    alloc: Global,
    table: &Table,
    plan: &Plan,
    failing: &[u64],
    looks: bool,
) -> Result<String> {
    let Heard {
        mut told,
        mut disk,
        ..
    } = hear_both(rt, alloc, table, plan, failing, looks)?;
    for _ in 0..LIMIT {
        let last = hear(rt, alloc, table, &plan.show, disk)?;
        disk = last.disk;
        if last.status == 0 {
            told.push_str(" | ")?;
            told.push_str(last.told.as_str())?;
            return Ok(told);
        }
    }
    told.push_str(" | not opened")?;
    Ok(told)
}

fn tell_pairs<R: Threads + Wait + Sync>(
    rt: &R,
    alloc: Global,
    page: &mut String,
    table: &Table,
    plan: &Plan,
    calls: u64,
) -> Result<()> {
    let mut tally = Tally::new(alloc);
    for one in 1..=calls {
        for other in one.saturating_add(1)..=calls {
            tally.add(hear_failing(rt, alloc, table, plan, &[one, other], false)?)?;
        }
    }
    page.push_str("  two calls fail\n")?;
    tally.put(page)?;
    Ok(())
}

/// Prints what is said, and how often, where one call fails, two calls, and all from one on.
pub fn tell_faults<R: Threads + Wait + Sync>(
    rt: &R,
    alloc: Global,
    page: &mut String,
    table: &Table,
    plan: &Plan,
) -> Result<()> {
    let calls = count_calls(rt, alloc, table, plan)?;
    let mut single = Tally::new(alloc);
    let mut onward = Tally::new(alloc);
    for one in 1..=calls {
        single.add(hear_failing(rt, alloc, table, plan, &[one], true)?)?;
        let mut rest = Vec::new(alloc);
        for number in one..=calls {
            rest.push(number)?;
        }
        onward.add(hear_failing(rt, alloc, table, plan, &rest, true)?)?;
    }
    writeln!(page, "  one of {calls} calls fails")?;
    single.put(page)?;
    tell_pairs(rt, alloc, page, table, plan, calls)?;
    page.push_str("  all calls from one on fail\n")?;
    onward.put(page)?;
    Ok(())
}
