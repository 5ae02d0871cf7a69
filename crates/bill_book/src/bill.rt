// What a bucket owes for a month.
ghost use Rattle.std.specs.Prelude.{◌≡◌, IfOk};

use office_base::BucketName;
use std::alloc::{AllocError, Global};

/// What a bucket owes for a month.
#[derive(Drop)]
pub struct Bill {
    pub bucket: BucketName,
    /// What its lines of the month's report charge together, in whole units.
    pub total: u128,
    /// How many lines of the report these are.
    pub lines: u32,
}

impl Bill {
    /// Copies the bill. Fails only if memory runs out.
    pub fn copy(&self) -> Result<Bill, AllocError>
        ensures { IfOk result (λ bill. bill ≡ self.now) }
    {
        let bucket = self.bucket.copy()?;
        Ok(Bill {
            bucket,
            total: self.total,
            lines: self.lines,
        })
    }
}

// Copies bills, in their order.
pub(crate) fn copies(alloc: Global, bills: &[Bill]) -> Result<Vec<Bill>, AllocError>
    ensures { IfOk result (λ copies. copies.items ≡ bills.now) }
{
    let mut copies = Vec::new(alloc);
    for bill in bills {
        copies.push(bill.copy()?)?;
    }
    Ok(copies)
}
