// The two slots, over bodies that begin with 1.
ghost use Rattle.std.specs.Prelude.{◌≡◌, get_or};

use crate::parts::equal;
use disk_core::{Disk, FileNo, MemoryDisk};
use office_base::NoMemory;
use slots::{Body, load, save};
use std::alloc::Global;

// The second slot after a save of the bytes 1, 4 at position 20.
const SECOND: [u8; 19] = [0xA7, 0, 0, 0, 0, 0, 0, 0, 20, 0, 0, 0, 0, 0, 0, 0, 2, 1, 4];

// Bytes that begin with 1.
#[derive(Drop)]
struct Plain {
    bytes: Vec<u8>,
}

impl Body for Plain {
    ghost spells = { λ bytes plain. (plain.bytes.items ≡ bytes) × (get_or bytes 0 0 ≡ 1) };

    fn read(alloc: Global, bytes: &[u8]) -> Result<Option<Plain>, NoMemory> {
        if bytes.len() == 0 || bytes[0] != 1 {
            return Ok(None);
        }
        match bytes.to_vec(alloc) {
            Ok(bytes) => Ok(Some(Plain { bytes })),
            Err(_) => Err(NoMemory),
        }
    }
}

// The position and the length of the body that are loaded; zeros if there is none.
fn loaded(alloc: Global, disk: &mut MemoryDisk) -> (u64, usize) {
    match load::<MemoryDisk, Plain>(alloc, disk) {
        Ok(Some((plain, position))) => (position, plain.bytes.len()),
        Ok(None) => (0, 0),
        Err(_) => (999, 999),
    }
}

fn saves(alloc: Global, disk: &mut MemoryDisk, position: u64, body: &[u8]) -> bool {
    save::<MemoryDisk, Plain>(alloc, disk, position, body).is_ok()
}

// Whether the second slot has these bytes.
fn second_has(disk: &mut MemoryDisk, wanted: &[u8; 19]) -> bool {
    let Ok(end) = disk.length(FileNo::Slot1) else {
        return false;
    };
    if end != 19 {
        return false;
    }
    let mut bytes = [0; 19];
    if disk.read_at(FileNo::Slot1, 0, &mut bytes).is_err() {
        return false;
    }
    bytes == *wanted
}

// A save's position and body, and the position and the length of the body that are loaded after it. A body that spells
// nothing is passed over, and the next save replaces it.
const SAVES: &[(u64, &[u8], (u64, usize))] = &[
    (10, &[1, 2, 3], (10, 3)),
    (20, &[1, 4], (20, 2)),
    (30, &[9, 4], (20, 2)),
    (25, &[1], (25, 1)),
];

#[test]
fn saves_and_loads(rt: HostRuntime) {
    let alloc = rt.alloc();
    let mut disk = MemoryDisk::new(alloc, Vec::new(alloc));
    equal(&rt, &"no save", &loaded(alloc, &mut disk), &(0, 0));
    for (position, body, wanted) in SAVES {
        assert!(rt; saves(alloc, &mut disk, *position, *body));
        equal(&rt, position, &loaded(alloc, &mut disk), wanted);
        if *position == 20 {
            assert!(rt; second_has(&mut disk, &SECOND));
        }
    }
}
