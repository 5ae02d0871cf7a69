// The disk with which a case starts, and its images.
use crate::cases::{Case, bytes_of};
use anyhow::{Result, bail};
use disk_core::{Disk, FileNo, MemoryDisk};
use std::alloc::Global;
use std::collections::BTreeMap;

/// The journal file without entries.
const MADE: &[u8] = b"\xA5METERJRN1\x00";

// Writes to the journal file, at an offset up to its end.
fn write_journal(disk: &mut MemoryDisk, at: u64, bytes: &[u8]) -> Result<()> {
    let Ok(length) = disk.length(FileNo::Journal) else {
        bail!("the length of the journal is not told");
    };
    if length < at {
        bail!("a write at {at} is past the end");
    }
    if disk.write_at(FileNo::Journal, at, bytes).is_err() {
        bail!("a write at {at} failed");
    }
    Ok(())
}

/// A disk with this journal file. Its call 1 is the write of the file.
pub fn disk_of(alloc: Global, journal: &[u8], failing: &[u64]) -> Result<MemoryDisk> {
    let mut disk = MemoryDisk::new(alloc, failing.to_vec(alloc)?);
    if disk.write_at(FileNo::Journal, 0, journal).is_err() {
        bail!("the journal was not written");
    }
    Ok(disk)
}

/// The disk with which a case starts.
pub fn start(alloc: Global, case: &Case) -> Result<MemoryDisk> {
    let journal = match &case.journal {
        None => Vec::new(alloc),
        Some(word) if word.as_str() == "made" => MADE.to_vec(alloc)?,
        Some(digits) => bytes_of(alloc, digits.as_str())?,
    };
    let mut disk = disk_of(alloc, &journal, &case.failing)?;
    for write in &case.write {
        if write.synced && disk.sync(FileNo::Journal).is_err() {
            bail!("the journal was not synced");
        }
        write_journal(&mut disk, write.at, &bytes_of(alloc, write.bytes.as_str())?)?;
    }
    Ok(disk)
}

/// How often each image occurs among these.
pub fn count_images(alloc: Global, images: Vec<Vec<u8>>) -> Result<BTreeMap<Vec<u8>, u64>> {
    let mut counts = BTreeMap::new(alloc);
    for image in images {
        let times = counts.get(&image).copied().unwrap_or(0u64);
        counts.insert(image, times.saturating_add(1))?;
    }
    Ok(counts)
}
