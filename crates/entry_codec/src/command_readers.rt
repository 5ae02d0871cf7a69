// Reads commands, a function for each kind. Each takes the fields of its kind from the front of the bytes that are left
// of an entry of `total` bytes, and returns the bytes after them.
ghost use Rattle.std.specs.Prelude.{◌≡◌, ◌-◌, IfOk, IfErr};
ghost use Rattle.office_types.specs.declared.command.Command.TheVariants as command;
ghost use Rattle.entry_codec.specs.declared.fault.EntryFault.TheVariants.{BadEntry, NoMemory};
ghost use Rattle.entry_codec.specs.Reading.{EntryGives, kind_at, place};

use crate::fault::EntryFault;
use crate::field_readers::{
    class_of, fault_at, id_of, key_of, name_of, size_of, status_of, tags_of, u32_of, u64_of,
};
use crate::kinds::Kind;
use crate::months::{read_month, read_year};
use crate::prices::prices_of;
use crate::rules::rules_of;
use crate::tiers::{free, is_plain, storage_of};
use office_types::Command;
use std::alloc::Global;
use tariff::{BoxedTariff, Tariff};

#[tactic(auto, unfolding(crate::specs::Reading::kind_at))]
fn create_bucket(alloc: Global, total: usize, bytes: &[u8]) -> Result<(Command, &[u8]), EntryFault>
    ensures { EntryGives (λ x. (x.0, x.1.now)) result (kind_at Kind.CreateBucket total bytes.now) }
{
    let (bucket, rest) = name_of(alloc, total, bytes)?;
    Ok((Command::CreateBucket { bucket }, rest))
}

#[tactic(auto, unfolding(crate::specs::Reading::kind_at))]
fn set_versioning(alloc: Global, total: usize, bytes: &[u8]) -> Result<(Command, &[u8]), EntryFault>
    ensures { EntryGives (λ x. (x.0, x.1.now)) result (kind_at Kind.SetVersioning total bytes.now) }
{
    let (bucket, rest) = name_of(alloc, total, bytes)?;
    let (enabled, rest) = status_of(total, rest)?;
    Ok((Command::SetVersioning { bucket, enabled }, rest))
}

#[tactic(auto, unfolding(crate::specs::Reading::kind_at))]
fn set_rules(alloc: Global, total: usize, bytes: &[u8]) -> Result<(Command, &[u8]), EntryFault>
    ensures { EntryGives (λ x. (x.0, x.1.now)) result (kind_at Kind.SetRules total bytes.now) }
{
    let (bucket, rest) = name_of(alloc, total, bytes)?;
    let (rules, rest) = rules_of(alloc, total, rest)?;
    Ok((Command::SetRules { bucket, rules }, rest))
}

#[tactic(auto, unfolding(crate::specs::Reading::kind_at))]
fn drop_rules(alloc: Global, total: usize, bytes: &[u8]) -> Result<(Command, &[u8]), EntryFault>
    ensures { EntryGives (λ x. (x.0, x.1.now)) result (kind_at Kind.DropRules total bytes.now) }
{
    let (bucket, rest) = name_of(alloc, total, bytes)?;
    Ok((Command::DropRules { bucket }, rest))
}

#[tactic(auto, unfolding(crate::specs::Reading::kind_at))]
fn put(alloc: Global, total: usize, bytes: &[u8]) -> Result<(Command, &[u8]), EntryFault>
    ensures { EntryGives (λ x. (x.0, x.1.now)) result (kind_at Kind.Put total bytes.now) }
{
    let (bucket, rest) = name_of(alloc, total, bytes)?;
    let (key, rest) = key_of(alloc, total, rest)?;
    // A `?` would move a `Size` beside a borrow, which has no rule in the check.
    let (size, rest) = match size_of(total, rest) {
        Ok(read) => read,
        Err(e) => return Err(e),
    };
    let (class, rest) = class_of(total, rest)?;
    let (tags, rest) = tags_of(alloc, total, rest)?;
    Ok((
        Command::Put {
            bucket,
            key,
            size,
            class,
            tags,
        },
        rest,
    ))
}

#[tactic(auto, unfolding(crate::specs::Reading::kind_at))]
fn delete(alloc: Global, total: usize, bytes: &[u8]) -> Result<(Command, &[u8]), EntryFault>
    ensures { EntryGives (λ x. (x.0, x.1.now)) result (kind_at Kind.Delete total bytes.now) }
{
    let (bucket, rest) = name_of(alloc, total, bytes)?;
    let (key, rest) = key_of(alloc, total, rest)?;
    Ok((Command::Delete { bucket, key }, rest))
}

#[tactic(auto, unfolding(crate::specs::Reading::kind_at))]
fn delete_version(alloc: Global, total: usize, bytes: &[u8]) -> Result<(Command, &[u8]), EntryFault>
    ensures { EntryGives (λ x. (x.0, x.1.now)) result (kind_at Kind.DeleteVersion total bytes.now) }
{
    let (bucket, rest) = name_of(alloc, total, bytes)?;
    let (key, rest) = key_of(alloc, total, rest)?;
    let (id, rest) = match id_of(total, rest) {
        Ok(read) => read,
        Err(e) => return Err(e),
    };
    Ok((Command::DeleteVersion { bucket, key, id }, rest))
}

#[tactic(auto, unfolding(crate::specs::Reading::kind_at))]
fn set_tags(alloc: Global, total: usize, bytes: &[u8]) -> Result<(Command, &[u8]), EntryFault>
    ensures { EntryGives (λ x. (x.0, x.1.now)) result (kind_at Kind.SetTags total bytes.now) }
{
    let (bucket, rest) = name_of(alloc, total, bytes)?;
    let (key, rest) = key_of(alloc, total, rest)?;
    let (id, rest) = match id_of(total, rest) {
        Ok(read) => read,
        Err(e) => return Err(e),
    };
    let (tags, rest) = tags_of(alloc, total, rest)?;
    Ok((
        Command::SetTags {
            bucket,
            key,
            id,
            tags,
        },
        rest,
    ))
}

#[tactic(auto, unfolding(crate::specs::Reading::kind_at))]
fn start_upload(alloc: Global, total: usize, bytes: &[u8]) -> Result<(Command, &[u8]), EntryFault>
    ensures { EntryGives (λ x. (x.0, x.1.now)) result (kind_at Kind.StartUpload total bytes.now) }
{
    let (bucket, rest) = name_of(alloc, total, bytes)?;
    let (key, rest) = key_of(alloc, total, rest)?;
    let (class, rest) = class_of(total, rest)?;
    let (tags, rest) = tags_of(alloc, total, rest)?;
    Ok((
        Command::StartUpload {
            bucket,
            key,
            class,
            tags,
        },
        rest,
    ))
}

#[tactic(auto, unfolding(crate::specs::Reading::kind_at))]
fn put_part(alloc: Global, total: usize, bytes: &[u8]) -> Result<(Command, &[u8]), EntryFault>
    ensures { EntryGives (λ x. (x.0, x.1.now)) result (kind_at Kind.PutPart total bytes.now) }
{
    let (bucket, rest) = name_of(alloc, total, bytes)?;
    let (upload, rest) = u64_of(total, rest)?;
    let (part, rest) = u32_of(total, rest)?;
    let (size, rest) = u64_of(total, rest)?;
    Ok((
        Command::PutPart {
            bucket,
            upload,
            part,
            size,
        },
        rest,
    ))
}

#[tactic(auto, unfolding(crate::specs::Reading::kind_at))]
fn complete(alloc: Global, total: usize, bytes: &[u8]) -> Result<(Command, &[u8]), EntryFault>
    ensures { EntryGives (λ x. (x.0, x.1.now)) result (kind_at Kind.Complete total bytes.now) }
{
    let (bucket, rest) = name_of(alloc, total, bytes)?;
    let (upload, rest) = u64_of(total, rest)?;
    Ok((Command::Complete { bucket, upload }, rest))
}

#[tactic(auto, unfolding(crate::specs::Reading::kind_at))]
fn abort(alloc: Global, total: usize, bytes: &[u8]) -> Result<(Command, &[u8]), EntryFault>
    ensures { EntryGives (λ x. (x.0, x.1.now)) result (kind_at Kind.Abort total bytes.now) }
{
    let (bucket, rest) = name_of(alloc, total, bytes)?;
    let (upload, rest) = u64_of(total, rest)?;
    Ok((Command::Abort { bucket, upload }, rest))
}

#[tactic(auto, unfolding(crate::specs::Reading::kind_at))]
fn act(alloc: Global, total: usize, bytes: &[u8]) -> Result<(Command, &[u8]), EntryFault>
    ensures { EntryGives (λ x. (x.0, x.1.now)) result (kind_at Kind.Act total bytes.now) }
{
    let (bucket, rest) = name_of(alloc, total, bytes)?;
    Ok((Command::Act { bucket }, rest))
}

fn boxed(alloc: Global, tariff: Tariff) -> Result<BoxedTariff, EntryFault>
    ensures ok { IfOk result (λ boxed. boxed ≡ tariff) }
    ensures err { IfErr result (λ e. e ≡ NoMemory) }
{
    Ok(BoxedTariff::new(alloc, tariff)?)
}

// The prices of storage, and then those of moves.
fn plain_tariff(
    alloc: Global,
    total: usize,
    bytes: &[u8],
) -> Result<(BoxedTariff, &[u8]), EntryFault>
    ensures { EntryGives (λ x. (command.SetTariff x.0, x.1.now)) result (kind_at Kind.SetTariff total bytes.now) }
{
    let mut storage = [0; 6];
    let mut transition = [0; 5];
    let rest = match prices_of(total, bytes, &mut storage) {
        Ok(rest) => rest,
        Err(e) => return Err(e),
    };
    let rest = match prices_of(total, rest, &mut transition) {
        Ok(rest) => rest,
        Err(e) => return Err(e),
    };
    match Tariff::of(storage, transition) {
        Some(tariff) => Ok((boxed(alloc, tariff)?, rest)),
        None => Err(fault_at(total, bytes)),
    }
}

// The fault of the kind, which is the byte before these bytes.
fn kind_fault(total: usize, bytes: &[u8]) -> EntryFault
    ensures { result ≡ BadEntry (place total bytes.now - 1) }
{
    EntryFault::BadEntry {
        offset: total.saturating_sub(bytes.len()).saturating_sub(1) as u64,
    }
}

// The first month, the tiers of storage, and then the prices of moves.
fn tiered_tariff(
    alloc: Global,
    total: usize,
    bytes: &[u8],
) -> Result<(BoxedTariff, &[u8]), EntryFault>
    ensures { EntryGives (λ x. (command.SetTariff x.0, x.1.now)) result (kind_at Kind.SetTiers total bytes.now) }
{
    let (year, rest) = match read_year(total, bytes) {
        Ok(read) => read,
        Err(e) => return Err(e),
    };
    let (from, rest) = match read_month(total, year, rest) {
        Ok(read) => read,
        Err(e) => return Err(e),
    };
    let mut storage = [free(); 6];
    let rest = match storage_of(total, rest, &mut storage) {
        Ok(rest) => rest,
        Err(e) => return Err(e),
    };
    let mut transition = [0; 5];
    let rest = match prices_of(total, rest, &mut transition) {
        Ok(rest) => rest,
        Err(e) => return Err(e),
    };
    let tariff = Tariff {
        from,
        storage,
        transition,
    };
    if is_plain(&tariff) {
        return Err(kind_fault(total, bytes));
    }
    Ok((boxed(alloc, tariff)?, rest))
}

fn set_tariff(alloc: Global, total: usize, bytes: &[u8]) -> Result<(Command, &[u8]), EntryFault>
    ensures { EntryGives (λ x. (x.0, x.1.now)) result (kind_at Kind.SetTariff total bytes.now) }
{
    let (tariff, rest) = plain_tariff(alloc, total, bytes)?;
    Ok((Command::SetTariff { tariff }, rest))
}

fn set_tiers(alloc: Global, total: usize, bytes: &[u8]) -> Result<(Command, &[u8]), EntryFault>
    ensures { EntryGives (λ x. (x.0, x.1.now)) result (kind_at Kind.SetTiers total bytes.now) }
{
    let (tariff, rest) = tiered_tariff(alloc, total, bytes)?;
    Ok((Command::SetTariff { tariff }, rest))
}

#[tactic(auto, unfolding(crate::specs::Reading::kind_at))]
fn close(total: usize, bytes: &[u8]) -> Result<(Command, &[u8]), EntryFault>
    ensures { EntryGives (λ x. (x.0, x.1.now)) result (kind_at Kind.Close total bytes.now) }
{
    let (year, rest) = read_year(total, bytes)?;
    match read_month(total, year, rest) {
        Ok((month, rest)) => Ok((Command::Close { month }, rest)),
        Err(e) => Err(e),
    }
}

// The command of a kind.
pub(crate) fn fields_of_kind(
    alloc: Global,
    kind: Kind,
    total: usize,
    bytes: &[u8],
) -> Result<(Command, &[u8]), EntryFault>
    ensures { EntryGives (λ x. (x.0, x.1.now)) result (kind_at kind total bytes.now) }
{
    match kind {
        Kind::CreateBucket => create_bucket(alloc, total, bytes),
        Kind::SetVersioning => set_versioning(alloc, total, bytes),
        Kind::SetRules => set_rules(alloc, total, bytes),
        Kind::DropRules => drop_rules(alloc, total, bytes),
        Kind::Put => put(alloc, total, bytes),
        Kind::Delete => delete(alloc, total, bytes),
        Kind::DeleteVersion => delete_version(alloc, total, bytes),
        Kind::SetTags => set_tags(alloc, total, bytes),
        Kind::StartUpload => start_upload(alloc, total, bytes),
        Kind::PutPart => put_part(alloc, total, bytes),
        Kind::Complete => complete(alloc, total, bytes),
        Kind::Abort => abort(alloc, total, bytes),
        Kind::Act => act(alloc, total, bytes),
        Kind::SetTariff => set_tariff(alloc, total, bytes),
        Kind::Close => close(total, bytes),
        Kind::SetTiers => set_tiers(alloc, total, bytes),
    }
}
