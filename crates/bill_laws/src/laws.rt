// What posting asks of a report holds of every one.
ghost use Rattle.std.specs.Prelude.{◌≡◌, ℕ, ◌<◌, ◌≤◌, ◌^◌, List, Ok, length};
ghost use Rattle.office_types.specs.declared.command.Query.TheVariants as query;
ghost use Rattle.office_types.specs.declared.reply.Reply.TheVariants.{Report};
ghost use Rattle.office_types.specs.declared.reply.ReportLine.{ReportLine};
ghost use Rattle.plain_office.specs.Office.{Office};
ghost use Rattle.plain_office.specs.Orderly.{IsOrderly};
ghost use Rattle.plain_office.specs.Answers.{answer};
ghost use Rattle.bill_posting.specs.Bills.{bills_of};

/// States that every report has fewer than 2^32 lines, and names at most as many buckets as an office may have.
#[tactic(auto, using(crate::proofs::Reports::few_lines, crate::proofs::Reports::few_buckets))]
pub fn a_report_may_be_posted()
    ensures count { (t month : ℕ) (p : Office) (lines : List ReportLine) → IsOrderly p
        → answer t (query.Report month) p ≡ Ok (Report lines) → length lines < 2 ^ 32 }
    ensures few { (t month : ℕ) (p : Office) (lines : List ReportLine) → IsOrderly p
        → answer t (query.Report month) p ≡ Ok (Report lines) → length (bills_of lines) ≤ 1_000 }
{}
