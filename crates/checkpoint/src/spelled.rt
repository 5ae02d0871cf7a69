// Values that are read from the front of bytes, and lists of them.
ghost use Rattle.std.specs.Prelude.{◌≡◌, ℕ, List};
ghost use Rattle.entry_codec.specs.Formats.{Format, front_items, list};
ghost use Rattle.entry_codec.specs.Reading.{Finds};
ghost use Rattle.checkpoint.specs.Parts.{four};

use entry_codec::u32_in;
use office_base::NoMemory;
use std::alloc::Global;

// A value with a format.
pub(crate) trait Spelled: Drop {
    // How the value is written in bytes.
    ghost format: { Format Self };

    // Reads the value at the front of the bytes, and returns it with the bytes after it; `None` if no such value is
    // there.
    fn read(alloc: Global, bytes: &[u8]) -> Result<Option<(Self, &[u8])>, NoMemory>
        ensures { Finds (λ x. (x.0, x.1.now)) result (format.front bytes.now) };
}

// A value has at least about so many bytes. If it has fewer, the list grows.
const BYTES_OF_ONE: usize = 32;

// This many values, one after the other. Room for them is taken at once, but no more than the bytes can fill.
pub(crate) fn items_in<T: Spelled>(
    alloc: Global,
    count: usize,
    bytes: &[u8],
) -> Result<Option<(Vec<T>, &[u8])>, NoMemory>
    ensures { Finds (λ x. (x.0.items, x.1.now)) result (front_items T.format count bytes.now) }
{
    let mut items = Vec::with_capacity(alloc, count.min(bytes.len() / BYTES_OF_ONE))?;
    let mut rest = bytes;
    for _ in 0..count {
        let Some((item, after)) = T::read(alloc, rest)? else {
            return Ok(None);
        };
        if items.push(item).is_err() {
            return Err(NoMemory);
        }
        rest = after;
    }
    Ok(Some((items, rest)))
}

// The values after their number.
#[tactic(auto, unfolding(crate::specs::Parts::four))]
pub(crate) fn list_in<T: Spelled>(
    alloc: Global,
    bytes: &[u8],
) -> Result<Option<(Vec<T>, &[u8])>, NoMemory>
    ensures { Finds (λ x. (x.0.items, x.1.now)) result ((list four T.format).front bytes.now) }
{
    let Some((count, rest)) = u32_in(bytes) else {
        return Ok(None);
    };
    items_in(alloc, count as usize, rest)
}
