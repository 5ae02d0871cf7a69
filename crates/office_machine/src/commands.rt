// The commands that make a bucket, change one, or set the prices.
ghost use Rattle.std.specs.Prelude.{◌≡◌, ◌<◌, unwrap_or, Ok, IfOk, IfErr, IsTrue};
ghost use Rattle.plain_office.specs.Office as plain;
ghost use Rattle.plain_office.specs.Step.{step, is_accepted};
ghost use Rattle.plain_office.specs.Orderly.{SizeFits};
ghost use Rattle.plain_office.specs.Run.{is_not_before};
ghost use Rattle.office_types.specs.Fits.{AnswerFits};
ghost use Rattle.office_types.specs.declared.command.Command.TheVariants as command;
ghost use Rattle.moments.specs.Months.{month_at};
ghost use Rattle.bucket_account.specs.Changing.{IsOnBucket};
ghost use Rattle.bucket_account.specs.Standing.{most_commands};
ghost use Rattle.office_machine.specs.Standing.{StandsForOffice, Does, accepted_after};

use crate::machine::Machine;
use crate::restoring::put;
use crate::tariffs::with_tariff;
use bucket_account::{Account, Counts};
use moments::{Moment, Month, month_of};
use office_base::BucketName;
use office_types::{Command, Refusal, Reply, What};
use tariff::Tariff;

impl Machine {
    pub(crate) fn create_bucket(&mut self, t: Moment, name: &BucketName) -> Result<Reply, Refusal>
        requires later { IsTrue (is_not_before self.old.last t) }
        requires few { self.old.accepted < most_commands }
        ensures step { (p : plain.Office) → StandsForOffice self.old p
            → Does (step t (command.CreateBucket name.now) p) p self.new result }
        ensures accepted { self.new.accepted ≡ accepted_after result self.old.accepted }
        ensures fits { AnswerFits result }
    {
        if self.accounts.contains_key(name) {
            return Err(Refusal::BucketExists);
        }
        let counts = Counts {
            buckets: self.counts.buckets + 1,
            ..self.counts
        };
        let counts = counts.within(&[What::Buckets])?;
        let shown = copy_of(name)?;
        let kept = copy_of(name)?;
        put(&mut self.accounts, kept, Account::new(self.alloc, t))?;
        self.counts = counts;
        self.last = Some(t);
        self.first_month = Some(first_of(self.first_month, t));
        self.accepted += 1;
        Ok(Reply::BucketMade { bucket: shown })
    }

    /// Does a command on the bucket that it names.
    pub(crate) fn on_bucket(
        &mut self,
        t: Moment,
        name: &BucketName,
        command: &Command,
    ) -> Result<Reply, Refusal>
        requires later { IsTrue (is_not_before self.old.last t) }
        requires few { self.old.accepted < most_commands }
        requires named { IsOnBucket name.now command.now }
        requires size { SizeFits command.now }
        ensures step { (p : plain.Office) → StandsForOffice self.old p → Does (step t command.now p) p self.new result }
        ensures accepted { self.new.accepted ≡ accepted_after result self.old.accepted }
        ensures fits { AnswerFits result }
    {
        let counts = self.counts;
        let Some(account) = self.accounts.get_mut(name) else {
            return Err(Refusal::NoSuchBucket);
        };
        let done = account.apply(self.alloc, t, command, counts)?;
        if !is_accepted(&done.reply) {
            return Ok(done.reply);
        }
        self.counts = done.counts;
        self.last = Some(t);
        self.first_month = Some(first_of(self.first_month, t));
        self.accepted += 1;
        Ok(done.reply)
    }

    /// Sets a tariff, in the place of the one with the same first month.
    pub(crate) fn set_tariff(&mut self, t: Moment, tariff: &Tariff) -> Result<Reply, Refusal>
        requires later { IsTrue (is_not_before self.old.last t) }
        requires few { self.old.accepted < most_commands }
        ensures step { (p : plain.Office) → StandsForOffice self.old p
            → Does (step t (command.SetTariff tariff.now) p) p self.new result }
        ensures accepted { self.new.accepted ≡ accepted_after result self.old.accepted }
        ensures fits { AnswerFits result }
    {
        let tariffs = with_tariff(self.alloc, tariff, &self.tariffs)?;
        let counts = Counts {
            tariffs: tariffs.len() as u64,
            ..self.counts
        };
        let counts = counts.within(&[What::Tariffs])?;
        self.tariffs = tariffs;
        self.counts = counts;
        self.last = Some(t);
        self.first_month = Some(first_of(self.first_month, t));
        self.accepted += 1;
        Ok(Reply::TariffSet)
    }
}

/// Reports whether this is the reply to an accepted command: each reply is, except `NothingDue`.
pub(crate) fn is_accepted(reply: &Reply) -> bool
    ensures { result ≡ is_accepted (Ok reply.now) }
{
    !matches!(reply, Reply::NothingDue)
}

/// Returns the month of the first accepted command, if one is accepted at this moment.
pub(crate) fn first_of(first: Option<Month>, t: Moment) -> Month
    ensures { result ≡ unwrap_or first (month_at t) }
{
    match first {
        Some(month) => month,
        None => month_of(t),
    }
}

pub(crate) fn copy_of(name: &BucketName) -> Result<BucketName, Refusal>
    ensures ok { IfOk result (λ copy. copy ≡ name.now) }
    ensures refusal { IfErr result (λ refusal. refusal ≡ Refusal.NoMemory) }
{
    Ok(name.copy()?)
}
