// Stops of a disk after each number of its calls: what is said over the images of its files.
use crate::sessions::hear;
use anyhow::{Result, bail};
use disk_core::{FileNo, MemoryDisk};
use fault_table::{Plan, SETUP, Table, Tally, disk_of, with_byte};
use std::alloc::Global;
use std::collections::BTreeSet;
use std::fmt::Write;
use std::sync::Wait;
use std::thread::Threads;

/// Images of a file, each once.
type Images = BTreeSet<Vec<u8>>;

fn images_of(alloc: Global, disk: &MemoryDisk, file: FileNo, calls: u64) -> Result<Images> {
    let Ok(images) = disk.images(file, calls.saturating_add(SETUP)) else {
        bail!("no memory");
    };
    let mut distinct = BTreeSet::new(alloc);
    for image in images {
        distinct.insert(image)?;
    }
    Ok(distinct)
}

// What is said over this journal beside each pair of images of the slots.
fn open_pairs<R: Threads + Wait + Sync>(
    rt: &R,
    alloc: Global,
    table: &Table,
    plan: &Plan,
    journal: &[u8],
    firsts: &Images,
    seconds: &Images,
    tally: &mut Tally,
) -> Result<()> {
    for first in firsts {
        for second in seconds {
            let disk = disk_of(alloc, journal, first, second, &[])?;
            let heard = hear(rt, alloc, table, &plan.show, disk)?;
            tally.add(heard.told)?;
        }
    }
    Ok(())
}

// What is said over each image of the journal beside each pair of images of the slots. Where a byte is set, the office
// opens only from a checkpoint behind it.
fn tell_stop<R: Threads + Wait + Sync>(
    rt: &R,
    alloc: Global,
    page: &mut String,
    table: &Table,
    plan: &Plan,
    disk: &MemoryDisk,
    calls: u64,
) -> Result<()> {
    let firsts = images_of(alloc, disk, FileNo::Slot0, calls)?;
    let seconds = images_of(alloc, disk, FileNo::Slot1, calls)?;
    let mut tally = Tally::new(alloc);
    let mut unread = Tally::new(alloc);
    for journal in &images_of(alloc, disk, FileNo::Journal, calls)? {
        open_pairs(
            rt, alloc, table, plan, journal, &firsts, &seconds, &mut tally,
        )?;
        if let Some(at) = table.unread {
            let journal = with_byte(alloc, journal, at, 0x37)?;
            open_pairs(
                rt,
                alloc,
                table,
                plan,
                &journal,
                &firsts,
                &seconds,
                &mut unread,
            )?;
        }
    }
    writeln!(page, "  after call {calls}")?;
    tally.put(page)?;
    if let Some(at) = table.unread {
        writeln!(page, "   with 37 at {at}")?;
        unread.put(page)?;
    }
    Ok(())
}

/// Prints what the first session said, and what is said after each stop.
pub fn tell_stops<R: Threads + Wait + Sync>(
    rt: &R,
    alloc: Global,
    page: &mut String,
    table: &Table,
    plan: &Plan,
) -> Result<()> {
    let Some(range) = &table.calls else {
        bail!("no numbers of calls");
    };
    let disk = disk_of(
        alloc,
        &plan.journal,
        &plan.first,
        &plan.second,
        &table.failing,
    )?;
    let heard = hear(rt, alloc, table, &plan.step, disk)?;
    writeln!(page, "  {}", heard.told)?;
    for calls in range[0]..=range[1] {
        tell_stop(rt, alloc, page, table, plan, &heard.disk, calls)?;
    }
    Ok(())
}
