// A forecast over a copy of the office.
ghost use Rattle.std.specs.Prelude.{◌≡◌, ◌↔◌, ◌+◌, ◌^◌, ◌<◌, ◌≤◌, ℕ, map, Some};
ghost use Rattle.std.specs.Prelude.{None, Ok, Err, OnOk, IfOk, IfErr, IsTrue};
ghost use Rattle.moments.specs.Months.{month_at};
ghost use Rattle.class_rules.specs.Classes.{all_classes};
ghost use Rattle.office_base.specs.Maps.{at_name};
ghost use Rattle.office_types.specs.declared.command.Command.{Command};
ghost use Rattle.office_types.specs.declared.reply.Reply.{Reply};
ghost use Rattle.office_types.specs.declared.refusal.Refusal.{Refusal};
ghost use Rattle.plain_office.specs.Office as plain;
ghost use Rattle.plain_office.specs.Office.{book_of};
ghost use Rattle.plain_office.specs.Charges.{class_meters, in_force};
ghost use Rattle.plain_office.specs.Once.{step_with};
ghost use Rattle.plain_office.specs.Run.{is_not_before};
ghost use Rattle.plain_office.specs.Step.{is_accepted};
ghost use Rattle.office_machine.specs.Once.{StandsFor};
ghost use Rattle.forecast.specs.Forecasts.{Proposal, Outlook, proposed};
ghost use Rattle.forecast.specs.Telling.{Foretells, Begins, TellsNext, IsDone, IsSet};
ghost use Rattle.forecast.specs.Faults.{is_wanting, fault_of, IsOfOffice};

use crate::fault::ForecastFault;
use crate::lines::{ForecastLine, lines_of};
use class_rules::Class;
use moments::{Moment, Month, month_of};
use office_base::{BucketName, NoMemory};
use office_machine::{Office, in_force};
use office_types::{ClassMeters, Command, Query, Refusal, Reply};
use rules_core::RuleSet;
use std::alloc::Global;
use std::marker::Model;
use tariff::Tariff;

/// What a lifecycle configuration that is set at a moment would do to a bucket until a later one, and charge.
///
/// It works on a copy of the office, and sets the configuration there. The office that it was made of stays.
#[derive(Drop)]
pub struct Forecast {
    // The copy, in which the configuration is set.
    office: Office,
    bucket: BucketName,
    // An act on the bucket.
    act: Command,
    // The month in which the configuration is set.
    first: Month,
    // The moment up to which the bucket is swept.
    until: Moment,
}

impl Model for Forecast {
    ghost use Rattle.std.specs.Prelude.{◌≡◌};
    ghost use Rattle.office_types.specs.declared.command.Command.TheVariants.{Act};
    ghost use Rattle.forecast.specs.Telling.{ForecastView, IsUnderWay};

    ghost Value = { ForecastView };

    ghost view = { λ f. record { office = f.office; bucket = f.bucket; first = f.first; until = f.until } };

    ghost invariant = { λ f.
        IsUnderWay (record { office = f.office; bucket = f.bucket; first = f.first; until = f.until })
        × (f.act ≡ Act f.bucket) };
}

impl Forecast {
    /// Begins the forecast of a configuration that would be set at `t`, with the bucket swept at `u`. `t` is not before
    /// the last accepted command of the office, which has accepted at most 2^41 commands.
    ///
    /// Cost: a copy of the office, and one `SetRules` in it, which reads all versions and uploads of the bucket.
    ///
    /// # Errors
    ///
    /// `PastDay`: `u` is before `t`. `Refused`: the office refuses the configuration. `NoMemory`: memory ran out.
    pub fn begin(
        office: &Office,
        t: Moment,
        bucket: &BucketName,
        rules: RuleSet,
        u: Moment,
    ) -> Result<Forecast, ForecastFault>
        requires later { IsTrue (is_not_before office.now.records.last t) }
        requires few { office.now.records.accepted ≤ 2 ^ 41 }
        ensures past_day { (day : ℕ) → (result ≡ Err (ForecastFault.PastDay day)) ↔ ((day ≡ t) × (u < t)) }
        ensures refused { (p : plain.Office) (refusal : Refusal) → StandsFor office.now p
            → result ≡ Err (ForecastFault.Refused refusal)
            → (t ≤ u)
            × ((proposed (record { bucket = bucket.now; rules = rules; from = t; until = u }) p).1 ≡ Err refusal) }
        ensures begun { IfOk result (λ forecast. (p : plain.Office) → StandsFor office.now p
            → Begins (record { bucket = bucket.now; rules = rules; from = t; until = u }) p forecast) }
        ensures first { IfOk result (λ forecast. forecast.first ≡ month_at t) }
    {
        if u.ms() < t.ms() {
            return Err(ForecastFault::PastDay { t });
        }
        let Ok(name) = bucket.copy() else {
            return Err(ForecastFault::NoMemory);
        };
        let Ok(act) = act_on(bucket) else {
            return Err(ForecastFault::NoMemory);
        };
        let Ok(mut copy) = office.copy() else {
            drop(act);
            return Err(ForecastFault::NoMemory);
        };
        match set_rules(&mut copy, t, bucket, rules) {
            Ok(()) => Ok(Forecast {
                office: copy,
                bucket: name,
                act,
                first: month_of(t),
                until: u,
            }),
            Err(fault) => {
                drop(act);
                drop(copy);
                Err(fault)
            }
        }
    }

    /// Does the bucket's next lifecycle action that is due by the day, and returns its reply; `None` if none is left.
    ///
    /// Cost: an `Act`, which takes the first of the bucket's queue of next actions.
    ///
    /// # Errors
    ///
    /// `NoMemory`: memory ran out. The next call gives the same action.
    pub fn next(&mut self) -> Result<Option<Reply>, NoMemory>
        ensures tells { (outlook : Outlook) → Foretells self.old outlook → TellsNext outlook self.new result }
        ensures done { result ≡ Ok None → IsDone self.new }
        ensures first { self.new.first ≡ self.old.first }
    {
        let Ok(reply) = self.office.apply(self.until, None, &self.act) else {
            return Err(NoMemory);
        };
        if is_done(&reply) {
            return Ok(Some(reply));
        }
        Ok(None)
    }

    /// Lists what the bucket would use in a month, cut at the day, and what that would cost. The lines are by class
    /// from the warmest; in a class, what is stored, what leaves too early, and the transitions. The month is not
    /// before the one in which the configuration is set, and `next` has returned `None`.
    ///
    /// Cost: six readings of the meters, and a copy of the tariffs.
    ///
    /// # Errors
    ///
    /// `NoMemory`: memory ran out.
    pub fn lines(&self, alloc: Global, month: Month) -> Result<Vec<ForecastLine>, NoMemory>
        requires done { IsDone self.now }
        requires month { self.now.first ≤ month }
        ensures exact { (outlook : Outlook) → Foretells self.now outlook
            → IfOk result (λ lines. lines.items ≡ outlook.lines month) }
    {
        let tariff = self.tariff_in(month)?;
        let lines = lines_of(alloc, &tariff, month, &self.used_in(month))?;
        Ok(lines)
    }

    /// Returns the tariff in force in a month.
    fn tariff_in(&self, month: Month) -> Result<Option<Tariff>, NoMemory>
        ensures { IfOk result (λ tariff. (p : plain.Office) → StandsFor self.now.office p
            → tariff ≡ in_force month p.tariffs) }
    {
        match self.office.answer(self.until, &Query::Tariff) {
            Ok(Reply::TariffShown { tariffs }) => Ok(in_force(tariffs.as_slice(), month)),
            Err(Refusal::NoTariff) => Ok(None),
            _ => Err(NoMemory),
        }
    }

    /// Reads what the bucket used in a month, from the warmest class to the coldest.
    fn used_in(&self, month: Month) -> [ClassMeters; 6]
        ensures { (p : plain.Office) (account : plain.Account) → StandsFor self.now.office p
            → at_name self.now.bucket p.accounts ≡ Some account
            → result ≡ map (class_meters month self.now.until (book_of account.books)) all_classes }
    {
        let Some(account) = self.office.account(&self.bucket) else {
            unreachable!()
        };
        let t = self.until;
        [
            account.used(month, Class::Standard, t),
            account.used(month, Class::StandardIa, t),
            account.used(month, Class::OnezoneIa, t),
            account.used(month, Class::GlacierIr, t),
            account.used(month, Class::Glacier, t),
            account.used(month, Class::DeepArchive, t),
        ]
    }
}

/// Sets the configuration of the bucket in the office.
fn set_rules(
    office: &mut Office,
    t: Moment,
    bucket: &BucketName,
    rules: RuleSet,
) -> Result<(), ForecastFault>
    requires later { IsTrue (is_not_before office.old.records.last t) }
    requires few { office.old.records.accepted ≤ 2 ^ 41 }
    ensures set { OnOk result ((p : plain.Office) → StandsFor office.old p
        → IsSet (step_with t None (Command.SetRules bucket.now rules) p) office.new) }
    ensures accepted { office.new.records.accepted ≤ office.old.records.accepted + 1 }
    ensures refused { (p : plain.Office) (refusal : Refusal) → StandsFor office.old p
        → result ≡ Err (ForecastFault.Refused refusal)
        → (step_with t None (Command.SetRules bucket.now rules) p).1 ≡ Err refusal }
    ensures fault { IfErr result (λ fault. IsOfOffice fault) }
{
    let bucket = bucket.copy()?;
    let command = Command::SetRules { bucket, rules };
    let applied = office.apply(t, None, &command);
    drop(command);
    match applied {
        Ok(reply) => {
            drop(reply);
            Ok(())
        }
        Err(refusal) => Err(fault_of(refusal)),
    }
}

/// Reports whether the refusal is that memory ran out.
fn is_wanting(refusal: &Refusal) -> bool
    ensures { result ≡ is_wanting refusal.now }
{
    matches!(refusal, Refusal::NoMemory)
}

/// Returns the fault that a refusal of the office becomes.
fn fault_of(refusal: Refusal) -> ForecastFault
    ensures { result ≡ fault_of refusal }
{
    if is_wanting(&refusal) {
        drop(refusal);
        ForecastFault::NoMemory
    } else {
        ForecastFault::Refused(refusal)
    }
}

/// Returns an act on the bucket.
fn act_on(bucket: &BucketName) -> Result<Command, NoMemory>
    ensures { IfOk result (λ asked. asked ≡ Command.Act bucket.now) }
{
    let bucket = bucket.copy()?;
    Ok(Command::Act { bucket })
}

/// Reports whether this is the reply to an action that was done: each reply is, except `NothingDue`.
fn is_done(reply: &Reply) -> bool
    ensures { result ≡ is_accepted (Ok reply.now) }
{
    !matches!(reply, Reply::NothingDue)
}
