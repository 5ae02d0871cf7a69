// What a crash may leave of one file of a disk in memory.
ghost use Rattle.std.specs.Prelude.{◌≡◌, ◌<◌, ◌≤◌, [], length, get_or, IfOk, OnOk};
ghost use Rattle.std.specs.Bool.{Decides};
ghost use Rattle.std.specs.List.{Contains};
ghost use Rattle.disk_core.specs.Files.{State, file_in, shortened, synced_file};
ghost use Rattle.disk_core.specs.Kept.{call_of, calls_of, count_all};
ghost use Rattle.disk_core.specs.Replay.{after_call, after, written_in};
ghost use Rattle.disk_core.specs.Pending.{file_of, AreImages, KeepsGiven};
ghost use Rattle.disk_core.specs.Choices.{IsPending, filled, IsChosen, Gives, GivesEach};

use crate::FileNo;
use crate::call_list::DiskCall;
use crate::contents::overwrite;
use std::alloc::{AllocError, Global};

// What a byte holds that may hold anything.
#[derive(Clone, Copy)]
pub enum Filling {
    // What the last sync left there, or 0.
    Old,
    // What a read gives there, or 0.
    New,
    // The same byte everywhere.
    Mark,
}

const MARK: u8 = 0x37;

// A length of the file, a place in it, and what the bytes before and behind that place hold that may hold anything.
#[derive(Clone, Copy)]
pub struct Choice {
    size: usize,
    place: usize,
    before: Filling,
    behind: Filling,
}

const FILLINGS: [(Filling, Filling); 9] = [
    (Filling::Old, Filling::Old),
    (Filling::Old, Filling::New),
    (Filling::Old, Filling::Mark),
    (Filling::New, Filling::Old),
    (Filling::New, Filling::New),
    (Filling::New, Filling::Mark),
    (Filling::Mark, Filling::Old),
    (Filling::Mark, Filling::New),
    (Filling::Mark, Filling::Mark),
];

fn byte_or_zero(bytes: &[u8], at: usize) -> u8
    ensures { result ≡ get_or bytes.now at 0 }
{
    if at < bytes.len() { bytes[at] } else { 0 }
}

// What a read of the file gives, what the last sync left, and the lengths and written ranges since, the newest first.
#[derive(Drop)]
pub struct Pending {
    seen: Vec<u8>,
    synced: Vec<u8>,
    lengths: Vec<usize>,
    written: Vec<(usize, usize)>,
}

impl Pending {
    fn empty(alloc: Global) -> Result<Self, AllocError>
        ensures { IfOk result (λ pending. file_of pending ≡ synced_file []) }
    {
        let mut lengths = Vec::new(alloc);
        lengths.push(0)?;
        Ok(Pending {
            seen: Vec::new(alloc),
            synced: Vec::new(alloc),
            lengths,
            written: Vec::new(alloc),
        })
    }

    // A write past the end begins at the end.
    fn write(&mut self, at: usize, bytes: &[u8]) -> Result<(), AllocError>
        ensures { OnOk result (file_of self.new ≡ written_in at bytes.now (file_of self.old)) }
    {
        let place = at.min(self.seen.len());
        overwrite(&mut self.seen, place, bytes)?;
        self.lengths.insert(0, self.seen.len())?;
        self.written.insert(0, (place, bytes.len()))?;
        Ok(())
    }

    fn cut(&mut self, to: usize) -> Result<(), AllocError>
        ensures { OnOk result (file_of self.new ≡ shortened to (file_of self.old)) }
    {
        self.seen.truncate(to);
        self.lengths.insert(0, self.seen.len())?;
        Ok(())
    }

    fn settle(&mut self) -> Result<(), AllocError>
        ensures { OnOk result (file_of self.new ≡ synced_file self.old.seen.items) }
    {
        self.synced.clear();
        self.synced.extend_from_slice(&self.seen)?;
        self.lengths.clear();
        self.lengths.push(self.seen.len())?;
        self.written.clear();
        Ok(())
    }

    // Goes on by one call of the disk, with its bytes.
    fn go_on(&mut self, file: FileNo, call: &DiskCall, bytes: &[u8]) -> Result<(), AllocError>
        ensures { (s : State) → file_of self.old ≡ file_in file s
            → OnOk result (file_of self.new ≡ file_in file (after_call (call_of call.now bytes.now) s)) }
    {
        match call {
            DiskCall::Write { file: of, at, .. } if *of == file => self.write(*at as usize, bytes),
            DiskCall::Cut { file: of, to } if *of == file => self.cut(*to as usize),
            DiskCall::Sync { file: of } if *of == file => self.settle(),
            _ => Ok(()),
        }
    }

    // Finds what these calls leave of the file. The bytes of their writes come one after another.
    pub fn of(
        calls: &[DiskCall],
        bytes: &[u8],
        file: FileNo,
        alloc: Global,
    ) -> Result<Self, AllocError>
        requires { count_all calls.now ≤ length bytes.now }
        ensures { IfOk result (λ pending. file_of pending ≡ file_in file (after (calls_of calls.now bytes.now))) }
    {
        let mut pending = Pending::empty(alloc)?;
        let mut rest = bytes;
        for call in calls {
            let (own, others) = rest.split_at(call.count());
            pending.go_on(file, call, own)?;
            rest = others;
        }
        Ok(pending)
    }

    // Whether the byte may hold anything.
    fn is_pending(&self, at: usize) -> bool
        ensures { Decides result (IsPending (file_of self.now) at) }
    {
        if at >= self.synced.len() {
            return true;
        }
        for range in &self.written {
            if range.0 <= at && at - range.0 < range.1 {
                return true;
            }
        }
        false
    }

    fn byte(&self, at: usize, filling: Filling) -> u8
        ensures pending { IsPending (file_of self.now) at → result ≡ filled filling (file_of self.now) at }
        ensures others { (IsPending (file_of self.now) at → ⊥) → result ≡ get_or self.now.synced.items at 0 }
    {
        if !self.is_pending(at) {
            return self.synced[at];
        }
        match filling {
            Filling::Old => byte_or_zero(&self.synced, at),
            Filling::New => byte_or_zero(&self.seen, at),
            Filling::Mark => MARK,
        }
    }

    // Makes the image of a choice.
    fn image(&self, choice: Choice, alloc: Global) -> Result<Vec<u8>, AllocError>
        ensures { IfOk result (λ image. IsChosen (file_of self.now) choice image.items) }
    {
        let mut image = Vec::new(alloc);
        for at in 0..choice.size {
            let filling = if at < choice.place {
                choice.before
            } else {
                choice.behind
            };
            image.push(self.byte(at, filling))?;
        }
        Ok(image)
    }

    // Adds the image of a choice.
    fn add(
        &self,
        choice: Choice,
        images: &mut Vec<Vec<u8>>,
        alloc: Global,
    ) -> Result<(), AllocError>
        requires size { Contains self.now.lengths.items choice.size }
        requires images { AreImages (file_of self.now) images.old.items }
        ensures images { OnOk result (AreImages (file_of self.now) images.new.items) }
        ensures kept { OnOk result (KeepsGiven (file_of self.now) images.old.items images.new.items) }
        ensures given { OnOk result (Gives (file_of self.now) images.new.items choice) }
    {
        let image = self.image(choice, alloc)?;
        images.push(image)?;
        Ok(())
    }

    // Adds an image for each pair of fillings.
    fn add_fillings(
        &self,
        size: usize,
        place: usize,
        images: &mut Vec<Vec<u8>>,
        alloc: Global,
    ) -> Result<(), AllocError>
        requires size { Contains self.now.lengths.items size }
        requires images { AreImages (file_of self.now) images.old.items }
        ensures images { OnOk result (AreImages (file_of self.now) images.new.items) }
        ensures kept { OnOk result (KeepsGiven (file_of self.now) images.old.items images.new.items) }
        ensures given { OnOk result ((before behind : Filling) → Gives (file_of self.now) images.new.items
            (record { size = size; place = place; before = before; behind = behind })) }
    {
        for (before, behind) in FILLINGS {
            self.add(
                Choice {
                    size,
                    place,
                    before,
                    behind,
                },
                images,
                alloc,
            )?;
        }
        Ok(())
    }

    // Adds an image for each place and pair of fillings.
    fn add_places(
        &self,
        size: usize,
        images: &mut Vec<Vec<u8>>,
        alloc: Global,
    ) -> Result<(), AllocError>
        requires size { Contains self.now.lengths.items size }
        requires images { AreImages (file_of self.now) images.old.items }
        ensures images { OnOk result (AreImages (file_of self.now) images.new.items) }
        ensures kept { OnOk result (KeepsGiven (file_of self.now) images.old.items images.new.items) }
        ensures given { OnOk result ((choice : Choice) → choice.size ≡ size → choice.place ≤ size
            → Gives (file_of self.now) images.new.items choice) }
    {
        for place in 0..size {
            self.add_fillings(size, place, images, alloc)?;
        }
        self.add_fillings(size, size, images, alloc)
    }

    // Gives an image for each length, place and pair of fillings.
    pub fn images(&self, alloc: Global) -> Result<Vec<Vec<u8>>, AllocError>
        ensures images { IfOk result (λ images. AreImages (file_of self.now) images.items) }
        ensures each { IfOk result (λ images. GivesEach (file_of self.now) images.items) }
    {
        let mut images = Vec::new(alloc);
        for size in &self.lengths {
            self.add_places(*size, &mut images, alloc)?;
        }
        Ok(images)
    }
}
