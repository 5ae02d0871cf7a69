// Closes a month.
ghost use Rattle.std.specs.Prelude.{◌≡◌, ◌<◌, IfOk, IfErr, IsTrue};
ghost use Rattle.due_core.specs.Choice.{choice};
ghost use Rattle.plain_office.specs.Office as plain;
ghost use Rattle.plain_office.specs.Step.{step, close};
ghost use Rattle.plain_office.specs.Run.{is_not_before};
ghost use Rattle.office_types.specs.Fits.{AnswerFits, RefusalFits};
ghost use Rattle.office_types.specs.declared.command.Command.TheVariants as command;
ghost use Rattle.bucket_account.specs.Standing.{most_commands};
ghost use Rattle.office_machine.specs.Closing.{closing_with, first_due, due_refusal};
ghost use Rattle.office_machine.specs.Standing.{StandsForOffice, Does, accepted_after};

use crate::commands::{copy_of, first_of};
use crate::machine::Machine;
use crate::tariffs::in_force;
use bucket_account::Account;
use due_core::Action;
use moments::{Moment, Month, month_window};
use office_base::BucketName;
use office_types::{Refusal, Reply};
use std::collections::BTreeMap;
use tariff::Tariff;

impl Machine {
    /// Closes a month, and keeps the tariff in force in it.
    ///
    /// Own rule: months are closed in order, once they are over and all that is due in them is done.
    pub(crate) fn close(&mut self, t: Moment, month: Month) -> Result<Reply, Refusal>
        requires later { IsTrue (is_not_before self.old.last t) }
        requires few { self.old.accepted < most_commands }
        ensures step { (p : plain.Office) → StandsForOffice self.old p
            → Does (step t (command.Close month) p) p self.new result }
        ensures accepted { self.new.accepted ≡ accepted_after result self.old.accepted }
        ensures fits { AnswerFits result }
    {
        let tariff = self.closing_tariff(t, month)?;
        let (_, end) = month_window(month);
        if let Some(refusal) = due_before(&self.accounts, t, end)? {
            return Err(refusal);
        }
        if self.closed.push((month, tariff)).is_err() {
            return Err(Refusal::NoMemory);
        }
        self.last = Some(t);
        self.first_month = Some(first_of(self.first_month, t));
        self.accepted += 1;
        Ok(Reply::Closed { month })
    }

    /// Returns the prices with which a month may be closed: it is over, it is the first open month, and a tariff is in
    /// force in it.
    fn closing_tariff(&self, t: Moment, month: Month) -> Result<Tariff, Refusal>
        ensures tests { (p : plain.Office) → StandsForOffice self.now p
            → close t month p ≡ closing_with t month p result }
        ensures fits { IfErr result RefusalFits }
    {
        let number = month.number();
        let (_, end) = month_window(month);
        if t.ms() < end {
            return Err(Refusal::MonthNotOver { end });
        }
        let open = first_of(self.first_month, t).number() + self.closed.len() as u64;
        if number < open {
            return Err(Refusal::AlreadyClosed);
        }
        if open < number {
            return Err(Refusal::EarlierMonthOpen {
                month: Month::numbered(open),
            });
        }
        match in_force(&self.tariffs, month) {
            Some(tariff) => Ok(tariff),
            None => Err(Refusal::NoTariff),
        }
    }
}

/// Returns the refusal of closing a month: the first bucket whose choice stands before the month's end, if there is
/// one.
fn due_before(
    accounts: &BTreeMap<BucketName, Account>,
    t: Moment,
    end: u64,
) -> Result<Option<Refusal>, Refusal>
    ensures exact { IfOk result (λ refusal. refusal ≡ due_refusal (first_due t end accounts.now.entries)) }
    ensures refusal { IfErr result (λ refusal. refusal ≡ Refusal.NoMemory) }
{
    for (name, account) in accounts.iter() {
        if let Some(action) = choice_of(account, t)? {
            if action.since.ms() < end {
                return Ok(Some(Refusal::DueActions {
                    bucket: copy_of(name)?,
                    key: action.key,
                    target: action.target,
                }));
            }
        }
    }
    Ok(None)
}

/// Returns the lifecycle action of a bucket that is due first.
pub(crate) fn choice_of(account: &Account, t: Moment) -> Result<Option<Action>, Refusal>
    ensures exact { IfOk result (λ action. action ≡ choice account.now.bucket t) }
    ensures refusal { IfErr result (λ refusal. refusal ≡ Refusal.NoMemory) }
{
    Ok(account.chosen(t)?)
}
