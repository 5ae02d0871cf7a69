// Whether an office is restored from a snapshot.
ghost use Rattle.std.specs.Prelude.{◌≡◌, IfOk};
ghost use Rattle.std.specs.Bool.{Decides};
ghost use Rattle.office_snapshot.specs.Restorable.{IsRestorable};
ghost use Rattle.restorable.specs.Tests.{is_blank, is_orderly_at, is_restorable};

use crate::amounts::are_within;
use crate::kept::are_kept;
use crate::months::{are_closed, do_tariffs_rise, end_of_closed};
use crate::quiet::are_quiet;
use crate::records::{are_orderly_parts, do_names_rise};
use moments::{Moment, Month};
use office_base::NoMemory;
use office_snapshot::Snapshot;
use std::alloc::Global;

fn is_blank(snapshot: &Snapshot) -> bool
    ensures { result ≡ is_blank snapshot.now }
{
    snapshot.buckets.is_empty()
        && snapshot.tariffs.is_empty()
        && snapshot.closed.is_empty()
        && snapshot.kept.is_empty()
}

// Whether it is a snapshot that an office may have with this last moment and this first open month.
fn is_orderly_at(
    alloc: Global,
    last: Moment,
    first_open: Month,
    snapshot: &Snapshot,
) -> Result<bool, NoMemory>
    ensures { IfOk result (λ yes. yes ≡ is_orderly_at last first_open snapshot.now) }
{
    if !are_within(alloc, snapshot)? {
        return Ok(false);
    }
    if !do_names_rise(&snapshot.buckets) || !are_orderly_parts(last, &snapshot.buckets) {
        return Ok(false);
    }
    if !do_tariffs_rise(&snapshot.tariffs) || !are_closed(last, first_open, &snapshot.closed) {
        return Ok(false);
    }
    if !are_kept(&snapshot.kept)? {
        return Ok(false);
    }
    are_quiet(end_of_closed(&snapshot.closed), &snapshot.buckets)
}

fn passes(alloc: Global, snapshot: &Snapshot) -> Result<bool, NoMemory>
    ensures { IfOk result (λ yes. yes ≡ is_restorable snapshot.now.last snapshot.now.first_open snapshot.now) }
{
    match &snapshot.last {
        None => match &snapshot.first_open {
            None => Ok(is_blank(snapshot)),
            Some(_) => Ok(false),
        },
        Some(last) => match &snapshot.first_open {
            None => Ok(false),
            Some(first_open) => is_orderly_at(alloc, *last, *first_open, snapshot),
        },
    }
}

/// Reports whether an office can be restored from the snapshot.
///
/// Cost: some passes over the snapshot. Each token is compared with each other one. Memory is taken for the text of one
/// configuration at a time.
///
/// # Errors
///
/// `NoMemory`: out of memory.
#[tactic(auto, using(crate::proofs::Deciding::decides))]
pub fn is_restorable(alloc: Global, snapshot: &Snapshot) -> Result<bool, NoMemory>
    ensures { IfOk result (λ yes. Decides yes (IsRestorable snapshot.now)) }
{
    passes(alloc, snapshot)
}
