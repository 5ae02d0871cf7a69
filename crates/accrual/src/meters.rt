// The meters of one bucket.
ghost use Rattle.std.specs.Prelude.{◌≡◌, ◌+◌, ◌^◌, ◌<◌, ◌≤◌, ℕ, List, ◌++◌, ◌∷◌, OnOk, IfOk, IsFalse, All};
ghost use Rattle.office_base.specs.Sizes.{largest_size};
ghost use Rattle.moments.specs.Months.{month_at};
ghost use Rattle.class_rules.specs.Lines.{lines_of};
ghost use Rattle.accrual.specs.Books.{Stay, Book, empty_book, open_stay, ended_stay, book_with_stay, with_move};
ghost use Rattle.accrual.specs.Books.{IsBookedBy};
ghost use Rattle.accrual.specs.Meters.{meter, early_quantity, move_count};
ghost use Rattle.accrual.specs.Sums.{AreSumsOf, HasAllEnded, HaveRisingMonths, IsSmallMonth, is_nothing};
ghost use Rattle.accrual.specs.Totals.{HasRow, AreTotalsOf, HasOpenStay, IsBilled, most_bookings, with_early_of};

use crate::monthly::MonthSums;
use crate::rows::{NOTHING, Numbers, Rows, arrived_each, departed_each, running_each};
use class_rules::{Class, Lines, least_duration};
use moments::{Moment, Month, month_of, month_window};
use office_base::NoMemory;
use std::alloc::Global;
use std::marker::Model;

/// What a bucket used, by month and storage class: byte-milliseconds, early quantities and moves. Meters keep running
/// totals by month and no stays, so their size depends on the number of months.
///
/// Rule: S3 User Guide, "Understanding your AWS billing and usage reports for Amazon S3": usage is bytes times time.
#[derive(Drop)]
pub struct Meters {
    rows: Rows,
    // The number of calls of `open`, `early` and `moved`.
    booked: u64,
}

impl Model for Meters {
    ghost use Rattle.accrual.specs.Totals.{Totals};
    ghost use Rattle.accrual.specs.Bounds.{IsBounded};

    ghost Value = { Totals };

    ghost view = { λ m. record { rows = m.rows; booked = m.booked } };

    ghost invariant = { λ m. IsBounded m.rows m.booked };
}

impl Meters {
    /// Gives meters with nothing booked and no rows. Takes no memory.
    pub fn new(alloc: Global) -> Meters
        ensures stands { AreTotalsOf result empty_book }
        ensures booked { result.booked ≡ 0 }
    {
        Meters {
            rows: Rows::new(alloc),
            booked: 0,
        }
    }

    /// Reads how many calls of `open`, `early` and `moved` there were. A call of `end` is not counted: it counts with
    /// its `open`.
    pub fn booked(&self) -> u64
        ensures { result ≡ self.now.booked }
    {
        self.booked
    }

    /// Makes meters that start with these sums, with no stay that has not ended. The months are in strictly ascending
    /// order, the byte-milliseconds below 2^120 and the moves below 2^62.
    ///
    /// # Errors
    ///
    /// `NoMemory`: memory ran out.
    pub fn from_sums(alloc: Global, sums: &[MonthSums]) -> Result<Meters, NoMemory>
        requires rising { HaveRisingMonths sums.now }
        requires small { All IsSmallMonth sums.now }
        ensures stands { IfOk result (λ meters. (book : Book) → HasAllEnded book → AreSumsOf book sums.now
            → AreTotalsOf meters book) }
        ensures booked { IfOk result (λ meters. meters.booked ≡ 0) }
    {
        let rows = Rows::from_sums(alloc, sums)?;
        Ok(Meters { rows, booked: 0 })
    }

    /// Lists the sums of the months, in order, without stays that have not ended. A month in which all sums are 0 is
    /// left out.
    ///
    /// # Errors
    ///
    /// `NoMemory`: memory ran out.
    pub fn sums(&self) -> Result<Vec<MonthSums>, NoMemory>
        ensures exact { IfOk result (λ sums. (book : Book) → AreTotalsOf self.now book → AreSumsOf book sums.items) }
        ensures rising { IfOk result (λ sums. HaveRisingMonths sums.items) }
        ensures some { IfOk result (λ sums. All (λ month. IsFalse (is_nothing month)) sums.items) }
    {
        Ok(self.rows.sums()?)
    }

    /// Copies the meters: the copy agrees with the same books.
    ///
    /// # Errors
    ///
    /// `NoMemory`: memory ran out.
    pub fn copy(&self) -> Result<Meters, NoMemory>
        ensures stands { IfOk result (λ meters. (book : Book) → AreTotalsOf self.now book → AreTotalsOf meters book) }
        ensures booked { IfOk result (λ meters. meters.booked ≡ self.now.booked) }
    {
        let rows = self.rows.copy()?;
        Ok(Meters {
            rows,
            booked: self.booked,
        })
    }

    /// Makes rows for these months, and for all months between them and the existing rows.
    ///
    /// # Errors
    ///
    /// `NoMemory`: memory ran out. The meters then still agree with the same books.
    pub fn reserve(&mut self, from: Month, to: Month) -> Result<(), NoMemory>
        requires { from ≤ to }
        ensures rows { OnOk result ((month : ℕ) → from ≤ month → month ≤ to → HasRow self.new month) }
        ensures kept { (month : ℕ) → HasRow self.old month → HasRow self.new month }
        ensures stands { (book : Book) → AreTotalsOf self.old book → AreTotalsOf self.new book }
        ensures booked { self.new.booked ≡ self.old.booked }
    {
        match self.rows.reserve(from.number(), to.number()) {
            Ok(()) => Ok(()),
            Err(_) => Err(NoMemory),
        }
    }

    /// Books the start of a stay with these lines. Takes no memory.
    pub fn open(&mut self, lines: &Lines, from: Moment)
        requires row { HasRow self.old (month_at from) }
        requires few { self.old.booked < most_bookings }
        requires billed { IsBilled lines.now }
        ensures stands { (book : Book) → AreTotalsOf self.old book
            → AreTotalsOf self.new (book_with_stay (open_stay (lines_of lines.now) from) book) }
        ensures rows { (month : ℕ) → HasRow self.old month → HasRow self.new month }
        ensures booked { self.new.booked ≡ self.old.booked + 1 }
    {
        let month = month_of(from);
        let (start, _) = month_window(month);
        self.rows
            .book(lines, month.number(), &running_each(from.ms() - start));
        self.booked += 1;
    }

    /// Books the end of a stay with these lines, which began at `from` and had not ended. Takes no memory.
    pub fn end(&mut self, lines: &Lines, from: Moment, at: Moment)
        requires later { from ≤ at }
        requires rows { (month : ℕ) → month_at from ≤ month → month ≤ month_at at → HasRow self.old month }
        requires billed { IsBilled lines.now }
        requires opened { (book : Book) × AreTotalsOf self.old book × HasOpenStay (lines_of lines.now) from book }
        ensures stands { (book : Book) (before after : List Stay) → AreTotalsOf self.old book
            → book.stays ≡ before ++ open_stay (lines_of lines.now) from ∷ after
            → AreTotalsOf self.new (record book { stays = before ++ ended_stay (lines_of lines.now) from at ∷ after }) }
        ensures rows { (month : ℕ) → HasRow self.old month → HasRow self.new month }
        ensures booked { self.new.booked ≡ self.old.booked }
    {
        let first = month_of(from);
        let (start, end) = month_window(first);
        self.rows
            .unbook(lines, first.number(), &running_each(from.ms() - start));
        self.rows
            .book(lines, first.number(), &arrived_each(end - from.ms()));
        let last = month_of(at);
        let (start, _) = month_window(last);
        self.rows
            .book(lines, last.number(), &departed_each(at.ms() - start));
    }

    /// Books the early quantity of an object that entered this class at `entered`, has this many bytes on its own line,
    /// and leaves at `at`. It is the bytes times the rest of the minimum storage duration, in byte-milliseconds. Takes
    /// no memory.
    ///
    /// Rule: S3 User Guide, "Understanding and managing Amazon S3 storage classes": minimum storage durations.
    pub fn early(&mut self, class: Class, bytes: u64, entered: Moment, at: Moment)
        requires later { entered ≤ at }
        requires row { HasRow self.old (month_at at) }
        requires few { self.old.booked < most_bookings }
        requires billed { bytes ≤ largest_size + 32_768 }
        ensures stands { (book : Book) → AreTotalsOf self.old book
            → AreTotalsOf self.new (with_early_of class bytes entered at book) }
        ensures rows { (month : ℕ) → HasRow self.old month → HasRow self.new month }
        ensures booked { self.new.booked ≡ self.old.booked + 1 }
    {
        let until = entered.ms() + least_duration(class);
        let owed = bytes as u128 * until.saturating_sub(at.ms()) as u128;
        let more = Numbers {
            early: owed,
            ..NOTHING
        };
        self.rows.add(month_of(at).number(), class, more);
        self.booked += 1;
    }

    /// Books one lifecycle transition to this class. Takes no memory.
    pub fn moved(&mut self, to: Class, at: Moment)
        requires row { HasRow self.old (month_at at) }
        requires few { self.old.booked < most_bookings }
        ensures stands { (book : Book) → AreTotalsOf self.old book
            → AreTotalsOf self.new (with_move (record { class = to; moment = at }) book) }
        ensures rows { (month : ℕ) → HasRow self.old month → HasRow self.new month }
        ensures booked { self.new.booked ≡ self.old.booked + 1 }
    {
        let more = Numbers {
            moves: 1,
            ..NOTHING
        };
        self.rows.add(month_of(at).number(), to, more);
        self.booked += 1;
    }

    /// Reads the byte-milliseconds of a month and a class, as seen at a moment that is not before anything booked.
    /// Takes no memory.
    pub fn reading(&self, month: Month, class: Class, t: Moment) -> u128
        ensures exact { (book : Book) → AreTotalsOf self.now book → IsBookedBy t book
            → result ≡ meter month class t book }
        ensures small { result < 2 ^ 121 }
    {
        let (start, end) = month_window(month);
        let ms = t.ms().min(end).saturating_sub(start);
        let kept = self.rows.kept(month.number(), class);
        let sums = self.rows.before(month.number(), class);
        let bytes = sums.running + kept.running;
        self.rows.ended(month, class, sums) + (bytes * ms as u128).saturating_sub(kept.lead)
    }

    /// Reads the early quantities of a month and a class, in byte-milliseconds. Takes no memory.
    pub fn early_of(&self, month: Month, class: Class) -> u128
        ensures exact { (book : Book) → AreTotalsOf self.now book → result ≡ early_quantity month class book }
        ensures small { result < 2 ^ 121 }
    {
        self.rows.kept(month.number(), class).early
    }

    /// Reads how many lifecycle transitions to the class the month had. Takes no memory.
    pub fn moves_of(&self, month: Month, class: Class) -> u64
        ensures exact { (book : Book) → AreTotalsOf self.now book → result ≡ move_count month class book }
        ensures small { result < 2 ^ 63 }
    {
        self.rows.kept(month.number(), class).moves
    }
}
