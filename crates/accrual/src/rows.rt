// The kept numbers, a row for each month.
ghost use Rattle.std.specs.Prelude.{IfOk, OnOk, OnErr, ◌^◌, ◌≡◌, ◌<◌, ◌≤◌, ◌+◌, ◌-◌, ℕ, length, slice_set};
ghost use Rattle.class_rules.specs.Classes.{rank_of};
ghost use Rattle.accrual.specs.Rows.{kept_in, HasRowIn, IsPut, IsRowPut, IsAdded, HasRoom, IsWithin, IsModest, IsShort};
ghost use Rattle.accrual.specs.Rows.{HasBooked, IsBooked, weighed, running_each, arrived_each, departed_each};
ghost use Rattle.accrual.specs.Rows.{IsBefore, ended_in};
ghost use Rattle.accrual.specs.Bounds.{IsSound};
ghost use Rattle.class_rules.specs.declared.class.Class.{Class};
ghost use Rattle.moments.specs.Months.{months};
ghost use Rattle.accrual.specs.Totals.{IsBilled};

use class_rules::{Class, Lines, rank};
use moments::{Month, month_window};
use std::alloc::{AllocError, Global};

/// What is kept for a class in a month.
#[derive(Clone, Copy, Debug, PartialEq, Eq)]
pub(crate) struct Numbers {
    // For stays that have ended: the byte-milliseconds from each start in the month to the month's end, and from the
    // month's start to each end in it.
    pub(crate) edges: u128,
    // The bytes of the stays that began in the month and have ended.
    pub(crate) arrived: u128,
    // The bytes of the stays that ended in the month.
    pub(crate) departed: u128,
    // The bytes of the stays that began in the month and have not ended.
    pub(crate) running: u128,
    // The byte-milliseconds of these stays from the month's start to their beginnings.
    pub(crate) lead: u128,
    // The early quantities, in byte-milliseconds.
    pub(crate) early: u128,
    // The moves to the class.
    pub(crate) moves: u64,
}

/// The sums of a class over the months before one.
#[derive(Clone, Copy)]
pub(crate) struct Before {
    // The bytes of the stays that began and have not ended.
    pub(crate) running: u128,
    // The bytes of the stays that began and have ended.
    pub(crate) arrived: u128,
    // The bytes of the stays that ended.
    pub(crate) departed: u128,
}

/// Rows for consecutive months, with six classes in each, the warmest first.
#[derive(Drop)]
pub(crate) struct Rows {
    // The month of the first row, from 0 for January 1970.
    pub(crate) first: u64,
    pub(crate) rows: Vec<[Numbers; 6]>,
}

pub(crate) const NOTHING: Numbers = Numbers {
    edges: 0,
    arrived: 0,
    departed: 0,
    running: 0,
    lead: 0,
    early: 0,
    moves: 0,
};

pub(crate) const NONE_BEFORE: Before = Before {
    running: 0,
    arrived: 0,
    departed: 0,
};

impl Rows {
    // Copies the rows.
    #[tactic(auto, unfolding(crate::specs::Rows::kept_in))]
    pub(crate) fn copy(&self) -> Result<Rows, AllocError>
        ensures same { IfOk result (λ rows. (month rank : ℕ) → kept_in rows month rank ≡ kept_in self.now month rank) }
        ensures run { IfOk result (λ rows.
            rows.first + length rows.rows.items ≡ self.now.first + length self.now.rows.items) }
    {
        let rows = self.rows.clone()?;
        Ok(Rows {
            first: self.first,
            rows,
        })
    }

    // Makes an empty list of rows.
    pub(crate) fn new(alloc: Global) -> Rows
        ensures first { result.first ≡ 0 }
        ensures none { length result.rows.items ≡ 0 }
    {
        Rows {
            first: 0,
            rows: Vec::new(alloc),
        }
    }

    // Reads what is kept; nothing if there is no row.
    #[tactic(auto, using(crate::proofs::Places::kept_anywhere))]
    pub(crate) fn kept(&self, month: u64, class: Class) -> Numbers
        ensures { result ≡ kept_in self.now month (rank_of class) }
    {
        if month < self.first || month - self.first >= self.rows.len() as u64 {
            return NOTHING;
        }
        self.rows[(month - self.first) as usize][rank(class) as usize]
    }

    // Writes what is kept.
    pub(crate) fn put(&mut self, month: u64, class: Class, kept: Numbers)
        requires { HasRowIn self.old month }
        ensures { IsPut self.old self.new month (rank_of class) kept }
    {
        place(&mut self.rows[(month - self.first) as usize], class, kept);
    }

    // Writes a month's row.
    pub(crate) fn put_row(&mut self, month: u64, row: [Numbers; 6])
        requires { HasRowIn self.old month }
        ensures { IsRowPut self.old self.new month row }
    {
        self.rows[(month - self.first) as usize] = row;
    }

    // Adds to what is kept.
    pub(crate) fn add(&mut self, month: u64, class: Class, more: Numbers)
        requires row { HasRowIn self.old month }
        requires room { HasRoom (kept_in self.old month (rank_of class)) more }
        ensures { IsAdded self.old self.new month (rank_of class) more }
    {
        let kept = self.kept(month, class);
        let sums = Numbers {
            edges: kept.edges + more.edges,
            arrived: kept.arrived + more.arrived,
            departed: kept.departed + more.departed,
            running: kept.running + more.running,
            lead: kept.lead + more.lead,
            early: kept.early + more.early,
            moves: kept.moves + more.moves,
        };
        self.put(month, class, sums);
    }

    // Subtracts from what is kept.
    fn remove(&mut self, month: u64, class: Class, less: Numbers)
        requires row { HasRowIn self.old month }
        requires within { IsWithin less (kept_in self.old month (rank_of class)) }
        ensures { IsAdded self.new self.old month (rank_of class) less }
    {
        let kept = self.kept(month, class);
        let rest = Numbers {
            edges: kept.edges - less.edges,
            arrived: kept.arrived - less.arrived,
            departed: kept.departed - less.departed,
            running: kept.running - less.running,
            lead: kept.lead - less.lead,
            early: kept.early - less.early,
            moves: kept.moves - less.moves,
        };
        self.put(month, class, rest);
    }

    // Books stays with these lines in the month, given what each of their bytes counts.
    pub(crate) fn book(&mut self, lines: &Lines, month: u64, each: &Numbers)
        requires row { HasRowIn self.old month }
        requires modest { (class : Class) → IsModest (kept_in self.old month (rank_of class)) }
        requires billed { IsBilled lines.now }
        requires short { IsShort each.now }
        ensures { IsBooked self.old self.new lines.now month each.now }
    {
        self.add(month, lines.class, weighed(lines.bytes, each));
        if lines.standard != 0 {
            self.add(month, Class::Standard, weighed(lines.standard, each));
        }
    }

    // Undoes a call of `book`.
    pub(crate) fn unbook(&mut self, lines: &Lines, month: u64, each: &Numbers)
        requires row { HasRowIn self.old month }
        requires within { HasBooked self.old lines.now month each.now }
        requires short { IsShort each.now }
        ensures { IsBooked self.new self.old lines.now month each.now }
    {
        self.remove(month, lines.class, weighed(lines.bytes, each));
        if lines.standard != 0 {
            self.remove(month, Class::Standard, weighed(lines.standard, each));
        }
    }

    // The byte-milliseconds, inside the month, of the stays that have ended, given the sums before it.
    pub(crate) fn ended(&self, month: Month, class: Class, before: Before) -> u128
        requires sound { IsSound self.now }
        requires before { IsBefore self.now month (rank_of class) before }
        ensures { result ≡ ended_in self.now month (rank_of class) }
    {
        let (start, end) = month_window(month);
        let length = (end - start) as u128;
        let kept = self.kept(month.number(), class);
        let gross = kept.edges + before.arrived * length;
        gross - (before.departed + kept.departed) * length
    }

    // The sums before the next month, given those before this one.
    pub(crate) fn past(&self, month: u64, class: Class, before: Before) -> Before
        requires sound { IsSound self.now }
        requires before { IsBefore self.now month (rank_of class) before }
        ensures { IsBefore self.now (month + 1) (rank_of class) result }
    {
        let kept = self.kept(month, class);
        Before {
            running: before.running + kept.running,
            arrived: before.arrived + kept.arrived,
            departed: before.departed + kept.departed,
        }
    }

    // Sums over the rows before the month.
    pub(crate) fn before(&self, month: u64, class: Class) -> Before
        requires sound { IsSound self.now }
        ensures { IsBefore self.now month (rank_of class) result }
    {
        let end = month.min(self.first + self.rows.len() as u64);
        let mut sums = NONE_BEFORE;
        for earlier in self.first..end {
            sums = self.past(earlier, class, sums);
        }
        sums
    }

    // Makes rows for these months, and for all months between them and the existing rows.
    pub(crate) fn reserve(&mut self, from: u64, to: u64) -> Result<(), AllocError>
        requires order { from ≤ to }
        requires to { to < months }
        requires run { self.old.first + length self.old.rows.items ≤ months }
        ensures rows { OnOk result ((month : ℕ) → from ≤ month → month ≤ to → HasRowIn self.new month) }
        ensures kept { (month : ℕ) → HasRowIn self.old month → HasRowIn self.new month }
        ensures same { (month rank : ℕ) → kept_in self.new month rank ≡ kept_in self.old month rank }
        ensures run { self.new.first + length self.new.rows.items ≤ months }
    {
        self.begin_by(from)?;
        self.end_later(to)
    }

    // Makes the rows begin in this month or an earlier one.
    #[tactic(auto, using(crate::proofs::Places::kept_nowhere))]
    fn begin_by(&mut self, from: u64) -> Result<(), AllocError>
        requires from { from < months }
        requires run { self.old.first + length self.old.rows.items ≤ months }
        ensures first { OnOk result (self.new.first ≤ from) }
        ensures kept { (month : ℕ) → HasRowIn self.old month → HasRowIn self.new month }
        ensures same { (month rank : ℕ) → kept_in self.new month rank ≡ kept_in self.old month rank }
        ensures run { self.new.first + length self.new.rows.items ≤ months }
    {
        if self.rows.is_empty() {
            self.first = from;
            return Ok(());
        }
        if from < self.first {
            return self.begin_earlier(from);
        }
        Ok(())
    }

    // Adds rows in front, up to this month.
    fn begin_earlier(&mut self, from: u64) -> Result<(), AllocError>
        requires earlier { from < self.old.first }
        requires run { self.old.first + length self.old.rows.items ≤ months }
        ensures first { OnOk result (self.new.first ≡ from) }
        ensures kept { (month : ℕ) → HasRowIn self.old month → HasRowIn self.new month }
        ensures same { (month rank : ℕ) → kept_in self.new month rank ≡ kept_in self.old month rank }
        ensures run { self.new.first + length self.new.rows.items ≡ self.old.first + length self.old.rows.items }
        ensures err { OnErr result (self.new ≡ self.old) }
    {
        let more = (self.first - from) as usize;
        let mut rows = Vec::with_capacity(*self.rows.allocator(), more + self.rows.len())?;
        rows.resize(more, [NOTHING; 6])?;
        rows.extend_from_slice(&self.rows)?;
        self.rows = rows;
        self.first = from;
        Ok(())
    }

    // Adds rows at the end, up to this month.
    fn end_later(&mut self, to: u64) -> Result<(), AllocError>
        requires to { to < months }
        requires run { self.old.first + length self.old.rows.items ≤ months }
        requires from { self.old.first ≤ to }
        ensures rows { OnOk result (HasRowIn self.new to) }
        ensures first { self.new.first ≡ self.old.first }
        ensures kept { (month : ℕ) → HasRowIn self.old month → HasRowIn self.new month }
        ensures same { (month rank : ℕ) → kept_in self.new month rank ≡ kept_in self.old month rank }
        ensures run { self.new.first + length self.new.rows.items ≤ months }
    {
        let wanted = (to + 1 - self.first) as usize;
        if self.rows.len() < wanted {
            self.rows.resize(wanted, [NOTHING; 6])?;
        }
        Ok(())
    }
}

// Writes what is kept for a class in a row.
fn place(row: &mut [Numbers; 6], class: Class, kept: Numbers)
    ensures classes { length row.old ≡ 6 }
    ensures row { row.new ≡ slice_set row.old (rank_of class) kept }
{
    row[rank(class) as usize] = kept;
}

// The numbers of this many bytes.
fn weighed(bytes: u64, each: &Numbers) -> Numbers
    requires { IsShort each.now }
    ensures { result ≡ weighed bytes each.now }
{
    let bytes = bytes as u128;
    Numbers {
        edges: bytes * each.edges,
        arrived: bytes * each.arrived,
        departed: bytes * each.departed,
        running: bytes * each.running,
        lead: bytes * each.lead,
        ..NOTHING
    }
}

// What each byte counts of a stay without an end; `ms` is from the month's start to its beginning.
pub(crate) fn running_each(ms: u64) -> Numbers
    ensures { result ≡ running_each ms }
{
    Numbers {
        running: 1,
        lead: ms as u128,
        ..NOTHING
    }
}

// What each byte counts of a stay that has ended, in the month in which it began; `ms` is from its beginning to the
// month's end.
pub(crate) fn arrived_each(ms: u64) -> Numbers
    ensures { result ≡ arrived_each ms }
{
    Numbers {
        edges: ms as u128,
        arrived: 1,
        ..NOTHING
    }
}

// What each byte counts of a stay that has ended, in the month in which it ended; `ms` is from the month's start to its
// end.
pub(crate) fn departed_each(ms: u64) -> Numbers
    ensures { result ≡ departed_each ms }
{
    Numbers {
        edges: ms as u128,
        departed: 1,
        ..NOTHING
    }
}
