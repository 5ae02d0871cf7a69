// Laws of posting.
ghost use Rattle.std.specs.Prelude.{◌≡◌, ℕ, List, length, sum_by};
ghost use Rattle.office_types.specs.declared.reply.ReportLine.{ReportLine};
ghost use Rattle.office_types.specs.Reports.{charges};
ghost use Rattle.bill_book.specs.declared.bill.Bill.{Bill};
ghost use Rattle.bill_book.specs.Bills.{total_of};
ghost use Rattle.bill_book.specs.Books.{Book};
ghost use Rattle.bill_posting.specs.Bills.{bills_of, AreBillsOf};
ghost use Rattle.bill_posting.specs.Laws.{Call, LeadTo, ActsOnce};

/// States what the bills of a report are: one for each bucket that has a line, in byte order, with the sum of the
/// charges and the number of its lines; and together they come to what the report charges, of all its lines.
#[tactic(auto, using(crate::proofs::Tallies::are_bills_of, crate::proofs::Tallies::bills_add_up, crate::proofs::Tallies::bills_count_up))]
pub fn bills_of_a_report()
    ensures own { (lines : List ReportLine) → AreBillsOf lines (bills_of lines) }
    ensures total { (lines : List ReportLine) → total_of (bills_of lines) ≡ charges lines }
    ensures lines { (lines : List ReportLine) → sum_by (λ (bill : Bill). bill.lines) (bills_of lines) ≡ length lines }
{}

/// States that posting acts once: whatever months are posted, in whatever order and however often, and whatever is
/// answered, the bills of a month are those of the first call that posted it, and no later call changes them.
#[tactic(auto, using(crate::proofs::Once::acts_once))]
pub fn posting_acts_once()
    ensures { (month : ℕ) (old : Book) (calls : List Call) (new : Book) → LeadTo old calls new
        → ActsOnce month old calls new }
{}
