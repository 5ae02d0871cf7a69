//! What the rows of a table of bills mean.
#![tactic(auto)]

ghost use Rattle.std.specs.Prelude.{◌≡◌, ◌<◌, ◌^◌, ℕ, pos, true, false, List, [], length, decimal, filter};
ghost use Rattle.std.specs.List.{AllByRecursion};
ghost use Rattle.sqlite.specs.Order.{Row};
ghost use Rattle.moments.specs.Months.{months};
ghost use Rattle.bill_book.specs.declared.bill.Bill.{Bill};
ghost use Rattle.bill_book.specs.Bills.{RiseByBucket, total_of};
ghost use Rattle.bill_book.specs.Books.{AddsMonth};
ghost use Rattle.bill_rows.specs.Months.{month_text};
ghost use Rattle.bill_rows.specs.Books.{AreHeaded, bills_in, book_of, has_header};
ghost use Rattle.bill_rows.specs.Rows.{IsMonth, in_month};
ghost use Rattle.bill_rows.specs.Answers.{AreRead};
ghost use Rattle.bill_rows.specs.Puts.{PutsMonth, PutsRow};
ghost use Rattle.bill_rows.specs.WellMade.{IsWellMade};

/// States that different months are written differently.
#[tactic(auto, using(crate::proofs::Texts::one_month))]
pub fn months_are_told_apart()
    ensures { (a b : ℕ) → a < months → b < months → month_text a ≡ month_text b → a ≡ b }
{}

/// States that a month that is put into the rows is added to the book that they mean, that each month with a row still
/// has its header, and that well made rows stay well made.
pub fn a_month_is_added()
    ensures adds { (k : ℕ) (total : List ℕ) (count : ℕ) (bills : List Bill) (before after : List Row) → k < months
        → AreHeaded before → PutsMonth (month_text k) total count bills true before after → RiseByBucket bills
        → AllByRecursion (λ (b : Bill). b.total < 2 ^ 128) bills → AddsMonth k bills (book_of before) (book_of after) }
    ensures headed { (k : ℕ) (total : List ℕ) (count : ℕ) (bills : List Bill) (before after : List Row) → k < months
        → AreHeaded before → PutsMonth (month_text k) total count bills true before after → AreHeaded after }
    ensures made { (k : ℕ) (bills : List Bill) (before after : List Row) → k < months → IsWellMade before
        → PutsMonth (month_text k) (decimal (total_of bills)) (length bills) bills true before after
        → RiseByBucket bills → AllByRecursion (λ (b : Bill). b.total < 2 ^ 128) bills → total_of bills < 2 ^ 128
        → IsWellMade after }
{}

/// States that what is read of a month is what the rows have of it: its bills, and nothing if and only if it has no
/// header.
#[tactic(auto, using(crate::proofs::Read::absent_read))]
pub fn a_month_is_read()
    ensures there { (month : List ℕ) (rows answer : List Row) (bills : List Bill) → IsMonth month rows answer
        → AreRead answer bills → has_header month rows ≡ true }
    ensures bills { (month : List ℕ) (rows answer : List Row) (bills : List Bill) → IsMonth month rows answer
        → AreRead answer bills → bills_in month rows ≡ bills }
    ensures absent { (month : List ℕ) (rows answer : List Row) → IsMonth month rows answer → answer ≡ []
        → has_header month rows ≡ false }
{}

/// States that a month had no row before its header was put in, if one row of it is read after that. The bills put in
/// for a month without rows are all that it has then, whatever the other rows of the table are.
pub fn a_month_stands_alone()
    ensures none { (month total : List ℕ) (count : ℕ) (before between answer : List Row)
        → PutsRow month [] total (pos count) before between → IsMonth month between answer → length answer ≡ 1
        → filter (in_month month) before ≡ [] }
    ensures bills { (month total : List ℕ) (count : ℕ) (bills : List Bill) (before after : List Row)
        → PutsMonth month total count bills true before after → filter (in_month month) before ≡ []
        → RiseByBucket bills → AllByRecursion (λ (b : Bill). b.total < 2 ^ 128) bills → bills_in month after ≡ bills }
{}
