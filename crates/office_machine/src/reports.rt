// The report of a month.
ghost use Rattle.std.specs.Prelude.{◌≡◌, ◌+◌, ◌*◌, ◌^◌, ◌≤◌, ◌==◌, ℕ, true, IsTrue, OnOk, IfOk, IfErr};
ghost use Rattle.std.specs.Prelude.{List, [], ◌∷◌, ◌++◌, length, filter, flat_map};
ghost use Rattle.plain_office.specs.Office as plain;
ghost use Rattle.plain_office.specs.Answers.{answer};
ghost use Rattle.plain_office.specs.Charges.{tariff_for, metered_lines, price_told, has_quantity};
ghost use Rattle.plain_office.specs.Run.{is_not_before};
ghost use Rattle.std.specs.List.{AllByRecursion};
ghost use Rattle.tariff.specs.Charges.{charge_of, move_charge_of};
ghost use Rattle.tariff.specs.Prices.{are_tiers};
ghost use Rattle.office_types.specs.Fits.{AnswerFits};
ghost use Rattle.office_types.specs.declared.command.Query.TheVariants as query;
ghost use Rattle.office_types.specs.Reports.{charges};
ghost use Rattle.office_machine.specs.AnswerParts.{IsAnswer, IsBookedIn, closed_at};
ghost use Rattle.office_machine.specs.AnswerParts.{entry_lines};
ghost use Rattle.office_machine.specs.Lines.{report_line};
ghost use Rattle.office_machine.specs.Standing.{StandsForOffice, StandForAccounts};

use crate::commands::copy_of;
use crate::machine::Machine;
use crate::queries::used_of;
use crate::tariffs::in_force;
use bucket_account::Account;
use class_rules::Class;
use moments::{Moment, Month};
use office_base::{BucketName, Items};
use office_types::{ClassMeters, LineKind, Price, Refusal, Reply, ReportLine};
use std::alloc::Global;
use std::collections::BTreeMap;
use tariff::{Tariff, Tiers, charge, move_charge};

impl Machine {
    pub(crate) fn show_report(&self, t: Moment, month: Month) -> Result<Reply, Refusal>
        requires later { IsTrue (is_not_before self.now.last t) }
        ensures reply { (p : plain.Office) → StandsForOffice self.now p
            → IsAnswer (answer t (query.Report month) p) result }
        ensures fits { AnswerFits result }
    {
        let Some(tariff) = self.tariff_for(month) else {
            return Err(Refusal::NoTariff);
        };
        let lines = lines_of(self.alloc, &self.accounts, &tariff, month, t)?;
        Ok(Reply::Report {
            lines: Items::of(lines),
        })
    }

    /// Returns the tariff of a month: the one of its closing, or else the one in force in it.
    fn tariff_for(&self, month: Month) -> Option<Tariff>
        ensures { (p : plain.Office) → StandsForOffice self.now p → result ≡ tariff_for month p }
    {
        match closed_at(&self.closed, month) {
            Some(tariff) => Some(tariff),
            None => in_force(&self.tariffs, month),
        }
    }
}

/// Lists the lines of a month's report, in one pass over the buckets.
fn lines_of(
    alloc: Global,
    accounts: &BTreeMap<BucketName, Account>,
    tariff: &Tariff,
    month: Month,
    t: Moment,
) -> Result<Vec<ReportLine>, Refusal>
    ensures exact { IfOk result (λ lines. (plainly : List (List ℕ × plain.Account))
        → StandForAccounts accounts.now.entries plainly → AllByRecursion (IsBookedIn t) plainly
        → lines.items ≡ flat_map (entry_lines tariff.now month t) plainly) }
    ensures small { IfOk result (λ lines. charges lines.items ≤ 18 * 2 ^ 100 * length accounts.now.entries) }
    ensures refusal { IfErr result (λ refusal. refusal ≡ Refusal.NoMemory) }
{
    let mut lines = Vec::new(alloc);
    for (name, account) in accounts.iter() {
        push_bucket(&mut lines, tariff, month, name, &used_of(account, month, t))?;
    }
    Ok(lines)
}

/// Finds the prices of a closed month.
pub(crate) fn closed_at(closed: &[(Month, Tariff)], month: Month) -> Option<Tariff>
    ensures { result ≡ closed_at month closed.now }
{
    match closed.iter().find(|entry| is_of(entry, month)) {
        Some(entry) => Some(entry.1),
        None => None,
    }
}

fn is_of(entry: &(Month, Tariff), month: Month) -> bool
    ensures { result ≡ (entry.now.0 == month) }
{
    entry.0 == month
}

/// Adds the lines of a bucket.
fn push_bucket(
    lines: &mut Vec<ReportLine>,
    tariff: &Tariff,
    month: Month,
    name: &BucketName,
    used: &[ClassMeters; 6],
) -> Result<(), Refusal>
    ensures lines { OnOk result (lines.new.items
        ≡ lines.old.items ++ flat_map (metered_lines tariff.now month name.now) used.now) }
    ensures small { OnOk result (charges lines.new.items ≤ charges lines.old.items + 18 * 2 ^ 100) }
    ensures refusal { IfErr result (λ refusal. refusal ≡ Refusal.NoMemory) }
{
    for one in used {
        push_class(lines, tariff, month, name, one)?;
    }
    Ok(())
}

/// Adds the lines of what a bucket used of a class.
fn push_class(
    lines: &mut Vec<ReportLine>,
    tariff: &Tariff,
    month: Month,
    name: &BucketName,
    used: &ClassMeters,
) -> Result<(), Refusal>
    ensures lines { OnOk result (lines.new.items
        ≡ lines.old.items ++ metered_lines tariff.now month name.now used.now) }
    ensures small { OnOk result (charges lines.new.items ≤ charges lines.old.items + 3 * 2 ^ 100) }
    ensures refusal { IfErr result (λ refusal. refusal ≡ Refusal.NoMemory) }
{
    let class = used.class;
    let tiers = tariff.storage_tiers(class);
    let stored = storage(LineKind::Storage, used.byte_ms, tiers, month);
    push_line(lines, name, class, stored)?;
    let early = storage(LineKind::Early, used.early_byte_ms, tiers, month);
    push_line(lines, name, class, early)?;
    let moved = transitions(used.moves, tariff.move_price(class));
    push_line(lines, name, class, moved)
}

/// A line of a bucket and a class.
#[derive(Clone, Copy)]
struct Line {
    kind: LineKind,
    quantity: u128,
    price: Price,
    charge: u128,
}

/// Returns the price of one tier, or that there are several.
#[tactic(auto, using(crate::proofs::Charges::several_told))]
fn price_of(tiers: &Tiers) -> Price
    ensures told { result ≡ price_told tiers.now }
    ensures kept { are_tiers tiers.now ≡ true }
{
    let list = tiers.list();
    if list.len() == 1 {
        Price::One(list[0].price)
    } else {
        Price::Tiered
    }
}

/// Charges a quantity of byte-milliseconds through the tiers of a class.
#[tactic(auto, using(crate::proofs::Charges::charge_small))]
fn storage(kind: LineKind, quantity: u128, tiers: &Tiers, month: Month) -> Line
    ensures line { result ≡ record {
      kind = kind;
      quantity = quantity;
      price = price_told tiers.now;
      charge = charge_of quantity tiers.now month;
    } }
    ensures small { result.charge ≤ 2 ^ 100 }
{
    let price = price_of(tiers);
    Line {
        kind,
        quantity,
        price,
        charge: charge(quantity, tiers, month),
    }
}

/// Charges lifecycle transitions at a price for 1,000.
#[tactic(auto, using(crate::proofs::Charges::moves_small))]
fn transitions(moves: u64, price: u32) -> Line
    ensures line { result ≡ record {
      kind = LineKind.Transitions;
      quantity = moves;
      price = Price.One price;
      charge = move_charge_of moves price;
    } }
    ensures small { result.charge ≤ 2 ^ 100 }
{
    Line {
        kind: LineKind::Transitions,
        quantity: moves as u128,
        price: Price::One(price),
        charge: move_charge(moves, price),
    }
}

/// Adds a line, if its quantity is not 0.
fn push_line(
    lines: &mut Vec<ReportLine>,
    name: &BucketName,
    class: Class,
    line: Line,
) -> Result<(), Refusal>
    ensures lines { OnOk result (lines.new.items
        ≡ lines.old.items ++ filter has_quantity (report_line name.now class line ∷ [])) }
    ensures small { OnOk result (charges lines.new.items ≤ charges lines.old.items + line.charge) }
    ensures refusal { IfErr result (λ refusal. refusal ≡ Refusal.NoMemory) }
{
    if line.quantity == 0 {
        return Ok(());
    }
    let bucket = copy_of(name)?;
    let row = ReportLine {
        bucket,
        kind: line.kind,
        class,
        quantity: line.quantity,
        price: line.price,
        charge: line.charge,
    };
    Ok(lines.push(row)?)
}
