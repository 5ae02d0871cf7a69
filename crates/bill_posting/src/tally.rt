// The bills of a report.
ghost use Rattle.std.specs.Prelude.{◌≡◌, ◌+◌, ◌<◌, ◌^◌, ◌++◌, [], ◌∷◌, length, map, OnOk, IfOk, sum_by};
ghost use Rattle.office_types.specs.Reports.{charges};
ghost use Rattle.bill_book.specs.Bills.{total_of, RiseByBucket};
ghost use Rattle.bill_posting.specs.Bills.{with_line, tallies_of, tallied_total, tallied_lines, bill_of, bills_of};

use bill_book::Bill;
use office_base::{BucketName, NoMemory};
use office_types::ReportLine;
use std::alloc::Global;
use std::collections::BTreeMap;

// What the lines of a bucket so far charge together, and how many they are.
#[derive(Clone, Copy)]
pub(crate) struct Tally {
    pub(crate) total: u128,
    pub(crate) lines: u32,
}

// Adds a line to the tally of its bucket.
#[tactic(auto, using(crate::proofs::Tallies::within_total, crate::proofs::Tallies::within_lines))]
fn add_line(tallies: &mut BTreeMap<BucketName, Tally>, line: &ReportLine) -> Result<(), NoMemory>
    requires total { tallied_total tallies.old.entries + line.now.charge < 2 ^ 128 }
    requires lines { tallied_lines tallies.old.entries + 1 < 2 ^ 32 }
    ensures { OnOk result (tallies.new.entries ≡ with_line tallies.old.entries line.now) }
{
    let tally = match tallies.get(&line.bucket) {
        Some(tally) => Tally {
            total: tally.total + line.charge,
            lines: tally.lines + 1,
        },
        None => Tally {
            total: line.charge,
            lines: 1,
        },
    };
    let bucket = line.bucket.copy()?;
    tallies.insert(bucket, tally)?;
    Ok(())
}

fn tally_lines(alloc: Global, lines: &[ReportLine]) -> Result<BTreeMap<BucketName, Tally>, NoMemory>
    requires total { charges lines.now < 2 ^ 128 }
    requires count { length lines.now < 2 ^ 32 }
    ensures { IfOk result (λ tallies. tallies.entries ≡ tallies_of lines.now) }
{
    let mut tallies = BTreeMap::new(alloc);
    for line in lines {
        add_line(&mut tallies, line)?;
    }
    Ok(tallies)
}

// Lists the bills of a report.
#[tactic(auto, unfolding(crate::specs::Bills::bills_of))]
pub(crate) fn bills_of(alloc: Global, lines: &[ReportLine]) -> Result<Vec<Bill>, NoMemory>
    requires total { charges lines.now < 2 ^ 128 }
    requires count { length lines.now < 2 ^ 32 }
    ensures bills { IfOk result (λ bills. bills.items ≡ bills_of lines.now) }
    ensures adds_up { IfOk result (λ bills. total_of bills.items ≡ charges lines.now) }
    ensures rise { IfOk result (λ bills. RiseByBucket bills.items) }
{
    let tallies = tally_lines(alloc, lines)?;
    let mut bills = Vec::new(alloc);
    for (bucket, tally) in tallies {
        let bill = Bill {
            bucket,
            total: tally.total,
            lines: tally.lines,
        };
        if bills.push(bill).is_err() {
            return Err(NoMemory);
        }
    }
    Ok(bills)
}
