ghost use Rattle.std.specs.Prelude.{◌≤◌};

use crate::given::equal;
use disk_core::{Disk, Failed, FileDisk, FileNo, MemoryDisk};
use std::alloc::Global;
use std::fs::{self, File, OpenOptions};
use std::process::Abort;
use std::rt::Files;

// A call of a disk: bytes are written at the front of a file, the file is cut to nothing, or it is synced.
#[derive(Clone, Copy)]
enum Step {
    Write(&'static [u8]),
    Clear,
    Sync,
}

// Makes a call of the disk.
fn does<D: Disk>(disk: &mut D, file: FileNo, step: Step) -> Result<(), Failed> {
    match step {
        Step::Write(bytes) => disk.write_at(file, 0, bytes),
        Step::Clear => disk.cut(file, 0),
        Step::Sync => disk.sync(file),
    }
}

// A disk after these calls. None of its calls fails.
fn disk_after(rt: &impl Abort, alloc: Global, file: FileNo, steps: &[Step]) -> MemoryDisk {
    let mut disk = MemoryDisk::new(alloc, Vec::new(alloc));
    for step in steps {
        does(&mut disk, file, *step).expect(rt, "the call succeeds");
    }
    disk
}

// Whether the journal's file holds these bytes.
fn holds<D: Disk>(rt: &impl Abort, disk: &mut D, want: [u8; 3]) -> bool {
    let length = disk.length(FileNo::Journal).expect(rt, "a length");
    if length != 3 {
        return false;
    }
    let mut room = [0; 3];
    disk.read_at(FileNo::Journal, 0, &mut room)
        .expect(rt, "a read");
    room == want
}

// Calls of a disk whose second and fourth calls fail: the answer to each call, and the count of faults after it.
const NUMBERED: &[(Step, Result<(), Failed>, u64)] = &[
    (Step::Write(&[1, 2, 3]), Ok(()), 0),
    (Step::Sync, Err(Failed), 1),
    (Step::Sync, Ok(()), 1),
    (Step::Write(&[4]), Err(Failed), 2),
];

#[test]
fn the_numbered_calls_fail(rt: HostRuntime) {
    let alloc = rt.alloc();
    let failing = vec![in alloc; 2, 4].expect(&rt, "memory");
    let mut disk = MemoryDisk::new(alloc, failing);
    for (index, (step, answer, faults)) in NUMBERED.iter().enumerate() {
        let found = (does(&mut disk, FileNo::Journal, *step), disk.faults());
        equal(&rt, &index, &found, &(*answer, *faults));
    }
    assert!(rt; holds(&rt, &mut disk, [4, 2, 3]));
}

fn open<R: Files<File = File>>(rt: &R, path: &str) -> Option<File> {
    let mut options = OpenOptions::new();
    options.read(true).write(true).create(true);
    options.open(rt, path).ok()
}

#[test]
fn files_hold_what_was_written(rt: HostRuntime) {
    let mut disk = FileDisk::new(open(&rt, "journal.tmp"), None, None);
    assert!(rt; does(&mut disk, FileNo::Journal, Step::Write(&[1, 2])).is_ok());
    assert!(rt; disk.write_at(FileNo::Journal, 1, &[3, 4, 5]).is_ok());
    assert!(rt; disk.cut(FileNo::Journal, 3).is_ok());
    assert!(rt; does(&mut disk, FileNo::Journal, Step::Sync).is_ok());
    assert!(rt; holds(&rt, &mut disk, [1, 3, 4]));
    equal(&rt, &"no call failed", &disk.faults(), &0);
    assert!(rt; does(&mut disk, FileNo::Slot0, Step::Sync).is_err());
    assert!(rt; disk.length(FileNo::Slot1).is_err());
    equal(&rt, &"two calls failed", &disk.faults(), &2);
    fs::remove_file(&rt, "journal.tmp").expect(&rt, "the file is removed");
}

fn memory_block(alloc: Global, block: u64) -> u64
    requires { block ≤ 4096 }
{
    MemoryDisk::with_block(alloc, Vec::new(alloc), block).block()
}

#[test]
fn a_disk_tells_its_block(rt: HostRuntime) {
    let alloc = rt.alloc();
    let no_file: Option<File> = None;
    let of_files = FileDisk::new(no_file, None, None).block();
    equal(&rt, &"files", &of_files, &4_096);
    let of_memory = MemoryDisk::new(alloc, Vec::new(alloc)).block();
    equal(&rt, &"memory", &of_memory, &0);
    equal(&rt, &"memory in blocks", &memory_block(alloc, 16), &16);
}

// A number of calls, and how many images a file has after them. Lengths 0; 0 and 3; 3; 3 and 3; 0, 3 and 3: for n bytes
// there are n + 1 places, with 9 pairs of fillings at each.
const CHOICES: &[(u64, usize)] = &[(0, 9), (1, 45), (2, 36), (3, 72), (4, 81), (9, 81)];

// What a crash after this many calls may leave of a file.
fn images(rt: &impl Abort, disk: &MemoryDisk, file: FileNo, after: u64) -> Vec<Vec<u8>> {
    disk.images(file, after).expect(rt, "memory")
}

#[test]
fn each_choice_gives_an_image(rt: HostRuntime) {
    let steps = [
        Step::Write(&[1, 2, 3]),
        Step::Sync,
        Step::Write(&[4]),
        Step::Clear,
    ];
    let disk = disk_after(&rt, rt.alloc(), FileNo::Journal, &steps);
    for (after, count) in CHOICES {
        let of_journal = images(&rt, &disk, FileNo::Journal, *after).len();
        equal(&rt, &("journal", *after), &of_journal, count);
        let of_slot = images(&rt, &disk, FileNo::Slot0, *after).len();
        equal(&rt, &("slot", *after), &of_slot, &9);
    }
}

fn has_image(images: &[Vec<u8>], want: &[u8]) -> bool {
    for image in images {
        if image.as_slice() == want {
            return true;
        }
    }
    false
}

fn are_all(images: &[Vec<u8>], want: &[u8]) -> bool {
    for image in images {
        if image.as_slice() != want {
            return false;
        }
    }
    true
}

// A number of calls, an image, and whether the file has it after them.
const IMAGES: &[(u64, &[u8], bool)] = &[
    (3, &[1, 2, 3], true),
    (3, &[1, 5, 3], true),
    (3, &[1, 0x37, 3], true),
    (3, &[4, 2, 3], true),
    (3, &[4, 5, 3], true),
    (3, &[4, 0x37, 3], true),
    (3, &[0x37, 2, 3], true),
    (3, &[0x37, 5, 3], true),
    (3, &[0x37, 0x37, 3], true),
    (3, &[], false),
    (4, &[], true),
    (4, &[1, 2, 3], true),
    (4, &[0, 0x37, 3], true),
];

#[test]
fn pending_bytes_are_filled(rt: HostRuntime) {
    let steps = [
        Step::Write(&[1, 2, 3]),
        Step::Sync,
        Step::Write(&[4, 5]),
        Step::Clear,
    ];
    let disk = disk_after(&rt, rt.alloc(), FileNo::Journal, &steps);
    for (after, image, is_there) in IMAGES {
        let found = has_image(&images(&rt, &disk, FileNo::Journal, *after), *image);
        equal(&rt, &(*after, *image), &found, is_there);
    }
}

// A file that was synced, a number of calls, and its only image after them.
const SYNCED: &[(FileNo, u64, &[u8])] = &[
    (FileNo::Slot1, 3, &[3, 2]),
    (FileNo::Slot1, 0, &[]),
    (FileNo::Slot0, 3, &[]),
];

#[test]
fn a_synced_file_has_one_image(rt: HostRuntime) {
    let steps = [Step::Write(&[1, 2]), Step::Write(&[3])];
    let mut disk = disk_after(&rt, rt.alloc(), FileNo::Slot1, &steps);
    assert!(rt; !are_all(&images(&rt, &disk, FileNo::Slot1, 2), &[3, 2]));
    assert!(rt; does(&mut disk, FileNo::Slot1, Step::Sync).is_ok());
    for (file, after, image) in SYNCED {
        let is_so = are_all(&images(&rt, &disk, *file, *after), *image);
        assert!(rt; is_so, "{file:?} after {after} calls");
    }
}

// Whether each image whose first byte is 9 also has the bytes written after it.
fn first_tells(images: &[Vec<u8>]) -> bool {
    for image in images {
        if image.starts_with(&[9]) && image.as_slice() != [9, 2, 3, 4, 5].as_slice() {
            return false;
        }
    }
    true
}

const FIVE: Step = Step::Write(&[1, 2, 3, 4, 5]);

const NINE: Step = Step::Write(&[9]);

#[test]
fn a_sync_between_keeps_order(rt: HostRuntime) {
    let steps = [FIVE, Step::Sync, NINE, Step::Sync];
    let disk = disk_after(&rt, rt.alloc(), FileNo::Journal, &steps);
    for after in 0..5 {
        let is_so = first_tells(&images(&rt, &disk, FileNo::Journal, after));
        assert!(rt; is_so, "after {after} calls");
    }
    let last = images(&rt, &disk, FileNo::Journal, 4);
    assert!(rt; are_all(&last, &[9, 2, 3, 4, 5]));
}

#[test]
fn without_a_sync_between_no_order_is_kept(rt: HostRuntime) {
    let steps = [FIVE, NINE, Step::Sync];
    let disk = disk_after(&rt, rt.alloc(), FileNo::Journal, &steps);
    assert!(rt; !first_tells(&images(&rt, &disk, FileNo::Journal, 2)));
}
