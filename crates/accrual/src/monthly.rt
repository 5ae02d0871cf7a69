// Taking the sums of the months from rows, and making rows of sums.
ghost use Rattle.std.specs.Prelude.{◌≡◌, ◌<◌, ◌≤◌, ◌+◌, ℕ, length, get_or, IfOk, IfSome, IfNone, IsFalse, All};
ghost use Rattle.std.specs.List.{list_all};
ghost use Rattle.moments.specs.Months.{months};
ghost use Rattle.class_rules.specs.Classes.{rank_of};
ghost use Rattle.class_rules.specs.declared.class.Class.{Class};
ghost use Rattle.accrual.specs.Rows.{nothing, kept_in, ended_in, HasRowIn, AreBefore};
ghost use Rattle.accrual.specs.Bounds.{IsSound};
ghost use Rattle.accrual.specs.Sums.{AreSumsIn, IsMonthOf, HasNoSum, HaveRisingMonths, IsSmallMonth, IsSmall};
ghost use Rattle.accrual.specs.Sums.{is_nothing, is_zero, summed_numbers};

use crate::rows::{Before, NONE_BEFORE, NOTHING, Numbers, Rows};
use class_rules::Class;
use moments::Month;
use std::alloc::{AllocError, Global};

/// What a bucket used in a month, without stays that have not ended: a number for each class, the warmest first.
#[derive(Clone, Copy, Debug, PartialEq, Eq)]
pub struct MonthSums {
    pub month: Month,
    /// The byte-milliseconds, inside the month, of the stays that have ended.
    pub ended: [u128; 6],
    /// The early quantities, in byte-milliseconds.
    pub early: [u128; 6],
    /// The lifecycle transitions to the class.
    pub moves: [u64; 6],
}

impl MonthSums {
    // Returns whether all numbers are 0.
    fn is_nothing(&self) -> bool
        ensures { result ≡ is_nothing self.now }
    {
        are_zero(&self.ended) && are_zero(&self.early) && are_none(&self.moves)
    }
}

impl Rows {
    // Lists the sums of each month in which not all are 0.
    pub(crate) fn sums(&self) -> Result<Vec<MonthSums>, AllocError>
        requires sound { IsSound self.now }
        ensures sums { IfOk result (λ sums. AreSumsIn self.now sums.items) }
        ensures rising { IfOk result (λ sums. HaveRisingMonths sums.items) }
        ensures some { IfOk result (λ sums. All (λ month. IsFalse (is_nothing month)) sums.items) }
    {
        let mut all = Vec::new(*self.rows.allocator());
        let end = self.first + self.rows.len() as u64;
        let mut before = [NONE_BEFORE; 6];
        for number in self.first..end {
            let sums = self.sums_in(number, &before);
            before = self.all_past(number, &before);
            if let Some(sums) = sums {
                all.push(sums)?;
            }
        }
        Ok(all)
    }

    // Gives the sums of a month, given the sums before it; None if all are 0.
    fn sums_in(&self, month: u64, before: &[Before; 6]) -> Option<MonthSums>
        requires row { HasRowIn self.now month }
        requires sound { IsSound self.now }
        requires before { AreBefore self.now month before.now }
        ensures sums { IfSome result (λ sums. IsMonthOf self.now month sums) }
        ensures some { IfSome result (λ sums. IsFalse (is_nothing sums)) }
        ensures none { IfNone result ((class : Class) → HasNoSum self.now month (rank_of class)) }
    {
        let sums = sums_of(
            Month::numbered(month),
            self.all_ended(Month::numbered(month), before),
            &self.rows[(month - self.first) as usize],
        );
        if sums.is_nothing() {
            return None;
        }
        Some(sums)
    }

    // Lists the byte-milliseconds, inside the month, of the stays that have ended, given the sums before it.
    fn all_ended(&self, month: Month, before: &[Before; 6]) -> [u128; 6]
        requires sound { IsSound self.now }
        requires before { AreBefore self.now month before.now }
        ensures { (class : Class) → get_or result (rank_of class) 0 ≡ ended_in self.now month (rank_of class) }
    {
        [
            self.ended(month, Class::Standard, before[0]),
            self.ended(month, Class::StandardIa, before[1]),
            self.ended(month, Class::OnezoneIa, before[2]),
            self.ended(month, Class::GlacierIr, before[3]),
            self.ended(month, Class::Glacier, before[4]),
            self.ended(month, Class::DeepArchive, before[5]),
        ]
    }

    // The sums before the next month, given those before this one.
    fn all_past(&self, month: u64, before: &[Before; 6]) -> [Before; 6]
        requires sound { IsSound self.now }
        requires before { AreBefore self.now month before.now }
        ensures { AreBefore self.now (month + 1) result }
    {
        [
            self.past(month, Class::Standard, before[0]),
            self.past(month, Class::StandardIa, before[1]),
            self.past(month, Class::OnezoneIa, before[2]),
            self.past(month, Class::GlacierIr, before[3]),
            self.past(month, Class::Glacier, before[4]),
            self.past(month, Class::DeepArchive, before[5]),
        ]
    }

    // Makes rows that start with these sums, with no stay that has not ended.
    pub(crate) fn from_sums(alloc: Global, sums: &[MonthSums]) -> Result<Rows, AllocError>
        requires rising { HaveRisingMonths sums.now }
        requires small { All IsSmallMonth sums.now }
        ensures sums { IfOk result (λ rows. AreSumsIn rows sums.now) }
        ensures small { IfOk result (λ rows. (month : ℕ) (class : Class)
            → IsSmall (kept_in rows month (rank_of class))) }
        ensures run { IfOk result (λ rows. rows.first + length rows.rows.items ≤ months) }
    {
        let mut rows = Rows::new(alloc);
        for month in sums {
            let number = month.month.number();
            rows.reserve(number, number)?;
            rows.put_row(number, row_of(month));
        }
        Ok(rows)
    }
}

fn are_none(counts: &[u64; 6]) -> bool
    ensures { result ≡ list_all is_zero counts.now }
{
    counts.iter().all(|n| *n == 0)
}

fn are_zero(numbers: &[u128; 6]) -> bool
    ensures { result ≡ list_all is_zero numbers.now }
{
    numbers.iter().all(|n| *n == 0)
}

// The sums of a month, given its row and the byte-milliseconds of the stays that have ended.
fn sums_of(month: Month, ended: [u128; 6], row: &[Numbers; 6]) -> MonthSums
    ensures month { result.month ≡ month }
    ensures ended { result.ended ≡ ended }
    ensures early { (class : Class)
        → get_or result.early (rank_of class) 0 ≡ (get_or row.now (rank_of class) nothing).early }
    ensures moves { (class : Class)
        → get_or result.moves (rank_of class) 0 ≡ (get_or row.now (rank_of class) nothing).moves }
{
    let [a, b, c, d, e, f] = *row;
    MonthSums {
        month,
        ended,
        early: [a.early, b.early, c.early, d.early, e.early, f.early],
        moves: [a.moves, b.moves, c.moves, d.moves, e.moves, f.moves],
    }
}

// The row of a month that starts with these sums.
fn row_of(sums: &MonthSums) -> [Numbers; 6]
    ensures { (class : Class) → get_or result (rank_of class) nothing ≡ summed_numbers sums.now (rank_of class) }
{
    [
        kept_of(sums, 0),
        kept_of(sums, 1),
        kept_of(sums, 2),
        kept_of(sums, 3),
        kept_of(sums, 4),
        kept_of(sums, 5),
    ]
}

// What is kept for the class with this rank in a month that starts with these sums.
fn kept_of(sums: &MonthSums, rank: usize) -> Numbers
    requires { rank < 6 }
    ensures { result ≡ summed_numbers sums.now rank }
{
    Numbers {
        edges: sums.ended[rank],
        early: sums.early[rank],
        moves: sums.moves[rank],
        ..NOTHING
    }
}
