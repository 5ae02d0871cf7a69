// The queries on one bucket, and the prices.
ghost use Rattle.std.specs.Prelude.{◌≡◌, ◌≤◌, ℕ, map, IfOk, IfErr, IsTrue};
ghost use Rattle.accrual.specs.Books.{Book, IsBookedBy};
ghost use Rattle.accrual.specs.Totals.{AreTotalsOf};
ghost use Rattle.class_rules.specs.Classes.{all_classes};
ghost use Rattle.office_base.specs.Tags.{char_count};
ghost use Rattle.plain_office.specs.Office as plain;
ghost use Rattle.plain_office.specs.Answers.{answer, rules_told, stack_told, upload_told, due_told};
ghost use Rattle.plain_office.specs.Charges.{class_meters};
ghost use Rattle.plain_office.specs.Run.{is_not_before};
ghost use Rattle.plain_office.specs.Step.{rule_id};
ghost use Rattle.office_types.specs.Fits.{AnswerFits};
ghost use Rattle.office_types.specs.declared.command.Query.TheVariants as query;
ghost use Rattle.office_machine.specs.AnswerParts.{IsAnswer};
ghost use Rattle.office_machine.specs.Standing.{StandsForOffice};

use crate::closing::choice_of;
use crate::commands::copy_of;
use crate::machine::Machine;
use crate::tariffs::copy_of_all;
use bucket_account::{Account, rule_id};
use class_rules::Class;
use due_core::{Action, Bucket};
use moments::{Moment, Month};
use office_base::{BucketName, Items, Key, Text};
use office_types::{ClassMeters, Refusal, Reply};
use rules_core::RuleSet;
use std::alloc::Global;

impl Machine {
    pub(crate) fn show_bucket(&self, name: &BucketName) -> Result<Reply, Refusal>
        ensures reply { (t : ℕ) (p : plain.Office) → StandsForOffice self.now p
            → IsAnswer (answer t (query.Bucket name.now) p) result }
        ensures fits { AnswerFits result }
    {
        let Some(account) = self.accounts.get(name) else {
            return Err(Refusal::NoSuchBucket);
        };
        Ok(Reply::BucketShown {
            bucket: copy_of(name)?,
            rules: account.rules(),
            uploads: account.uploads(),
            versioning: account.versioning(),
            versions: account.versions(),
        })
    }

    pub(crate) fn show_rules(&self, name: &BucketName) -> Result<Reply, Refusal>
        ensures reply { (t : ℕ) (p : plain.Office) → StandsForOffice self.now p
            → IsAnswer (answer t (query.Rules name.now) p) result }
        ensures fits { AnswerFits result }
    {
        match self.accounts.get(name) {
            Some(account) => rules_of(account.bucket()),
            None => Err(Refusal::NoSuchBucket),
        }
    }

    pub(crate) fn show_stack(&self, name: &BucketName, key: &Key) -> Result<Reply, Refusal>
        ensures reply { (t : ℕ) (p : plain.Office) → StandsForOffice self.now p
            → IsAnswer (answer t (query.Stack name.now key.now) p) result }
        ensures fits { AnswerFits result }
    {
        match self.accounts.get(name) {
            Some(account) => stack_of(account.bucket(), key),
            None => Err(Refusal::NoSuchBucket),
        }
    }

    pub(crate) fn show_upload(&self, name: &BucketName, number: u64) -> Result<Reply, Refusal>
        ensures reply { (t : ℕ) (p : plain.Office) → StandsForOffice self.now p
            → IsAnswer (answer t (query.Upload name.now number) p) result }
        ensures fits { AnswerFits result }
    {
        match self.accounts.get(name) {
            Some(account) => upload_of(account.bucket(), number),
            None => Err(Refusal::NoSuchBucket),
        }
    }

    pub(crate) fn show_due(&self, t: Moment, name: &BucketName) -> Result<Reply, Refusal>
        ensures reply { (p : plain.Office) → StandsForOffice self.now p
            → IsAnswer (answer t (query.Due name.now) p) result }
        ensures fits { AnswerFits result }
    {
        match self.accounts.get(name) {
            Some(account) => due_of(self.alloc, account, t),
            None => Err(Refusal::NoSuchBucket),
        }
    }

    pub(crate) fn show_meters(
        &self,
        t: Moment,
        name: &BucketName,
        month: Month,
    ) -> Result<Reply, Refusal>
        requires later { IsTrue (is_not_before self.now.last t) }
        ensures reply { (p : plain.Office) → StandsForOffice self.now p
            → IsAnswer (answer t (query.Meters name.now month) p) result }
        ensures fits { AnswerFits result }
    {
        let Some(account) = self.accounts.get(name) else {
            return Err(Refusal::NoSuchBucket);
        };
        let bucket = copy_of(name)?;
        let classes = listed(self.alloc, &used_of(account, month, t))?;
        Ok(Reply::MetersShown {
            bucket,
            month,
            classes,
        })
    }

    pub(crate) fn show_tariff(&self) -> Result<Reply, Refusal>
        ensures reply { (t : ℕ) (p : plain.Office) → StandsForOffice self.now p
            → IsAnswer (answer t query.Tariff p) result }
        ensures fits { AnswerFits result }
    {
        if self.tariffs.is_empty() {
            return Err(Refusal::NoTariff);
        }
        let tariffs = copy_of_all(self.alloc, &self.tariffs)?;
        Ok(Reply::TariffShown {
            tariffs: Items::of(tariffs),
        })
    }
}

fn rules_of(bucket: &Bucket) -> Result<Reply, Refusal>
    ensures reply { IsAnswer (rules_told bucket.now) result }
    ensures fits { AnswerFits result }
{
    match &bucket.rules {
        Some(rules) => {
            let rules = rules.copy()?;
            Ok(Reply::RulesShown { rules })
        }
        None => Err(Refusal::NoRules),
    }
}

fn stack_of(bucket: &Bucket, key: &Key) -> Result<Reply, Refusal>
    ensures reply { IsAnswer (stack_told key.now bucket.now) result }
    ensures fits { AnswerFits result }
{
    let Some(stack) = bucket.stacks.get(key) else {
        return Err(Refusal::NoSuchKey);
    };
    let key = key.copy()?;
    let stack = stack.copy()?;
    Ok(Reply::StackShown { key, stack })
}

fn upload_of(bucket: &Bucket, number: u64) -> Result<Reply, Refusal>
    ensures reply { IsAnswer (upload_told number bucket.now) result }
    ensures fits { AnswerFits result }
{
    match bucket.uploads.get(&number) {
        Some(upload) => {
            let upload = upload.copy()?;
            Ok(Reply::UploadShown { number, upload })
        }
        None => Err(Refusal::NoSuchUpload),
    }
}

fn due_of(alloc: Global, account: &Account, t: Moment) -> Result<Reply, Refusal>
    ensures reply { IsAnswer (due_told t account.now.bucket) result }
    ensures fits { AnswerFits result }
{
    let Some(
        Action {
            kind,
            key,
            target,
            rule,
            since,
        },
    ) = choice_of(account, t)?
    else {
        return Ok(Reply::NothingDue);
    };
    Ok(Reply::Chosen {
        kind,
        key,
        target,
        rule: id_of(alloc, &account.bucket().rules, rule)?,
        since,
        marker: None,
    })
}

/// Returns the id of the rule at this place, from 1; the empty text if there is no such rule.
fn id_of(alloc: Global, rules: &Option<RuleSet>, place: u32) -> Result<Text, Refusal>
    ensures same { IfOk result (λ id. id ≡ rule_id rules.now place) }
    ensures short { IfOk result (λ id. char_count id ≤ 255) }
    ensures refusal { IfErr result (λ refusal. refusal ≡ Refusal.NoMemory) }
{
    Ok(rule_id(alloc, rules, place)?)
}

fn listed(alloc: Global, classes: &[ClassMeters; 6]) -> Result<Items<ClassMeters>, Refusal>
    ensures exact { IfOk result (λ list. list ≡ classes.now) }
    ensures refusal { IfErr result (λ refusal. refusal ≡ Refusal.NoMemory) }
{
    let mut all = Vec::new(alloc);
    all.extend_from_slice(classes)?;
    Ok(Items::of(all))
}

/// Reads what a bucket used in a month, from the warmest class to the coldest.
pub(crate) fn used_of(account: &Account, month: Month, t: Moment) -> [ClassMeters; 6]
    ensures { (book : Book) → AreTotalsOf account.now.meters book → IsBookedBy t book
        → result ≡ map (class_meters month t book) all_classes }
{
    [
        account.used(month, Class::Standard, t),
        account.used(month, Class::StandardIa, t),
        account.used(month, Class::OnezoneIa, t),
        account.used(month, Class::GlacierIr, t),
        account.used(month, Class::Glacier, t),
        account.used(month, Class::DeepArchive, t),
    ]
}
