// Disks with three files.
use anyhow::{Result, bail};
use disk_core::{Disk, FileNo, MemoryDisk};
use std::alloc::{AllocError, Global};

/// The calls of a disk before the first one of the program: a write and a sync of each file.
pub const SETUP: u64 = 6;

fn put(disk: &mut MemoryDisk, file: FileNo, bytes: &[u8]) -> Result<()> {
    if disk.write_at(file, 0, bytes).is_err() {
        bail!("a file was not written");
    }
    if disk.sync(file).is_err() {
        bail!("a file was not synced");
    }
    Ok(())
}

/// A disk with these files, synced, of which the calls with these numbers fail, counted from the first one after that.
pub fn disk_of(
    alloc: Global,
    journal: &[u8],
    first: &[u8],
    second: &[u8],
    failing: &[u64],
) -> Result<MemoryDisk> {
    let mut numbers = Vec::new(alloc);
    for number in failing {
        numbers.push(number.saturating_add(SETUP))?;
    }
    let mut disk = MemoryDisk::new(alloc, numbers);
    put(&mut disk, FileNo::Journal, journal)?;
    put(&mut disk, FileNo::Slot0, first)?;
    put(&mut disk, FileNo::Slot1, second)?;
    Ok(disk)
}

/// The same bytes, but for this one; the same where there is none.
pub fn with_byte(alloc: Global, bytes: &[u8], at: usize, value: u8) -> Result<Vec<u8>, AllocError> {
    let mut copy = bytes.to_vec(alloc)?;
    if let Some(byte) = copy.get_mut(at) {
        *byte = value;
    }
    Ok(copy)
}
