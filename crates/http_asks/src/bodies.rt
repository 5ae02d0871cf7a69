// What the bodies of requests say.
ghost use Rattle.std.specs.Prelude.{◌≡◌, Ok, IfOk, IfErr};
ghost use Rattle.http_bodies.specs.Multipart.{upload_said, part_of};
ghost use Rattle.http_bodies.specs.Puts.{put_of};
ghost use Rattle.http_bodies.specs.Settings.{versioning_of, tagging_of};
ghost use Rattle.rules_json.specs.Reading.{rules_of};
ghost use Rattle.tariff.specs.Reading.{tariff_of};
ghost use Rattle.http_asks.specs.Faults.{OnBroken, HasFault, HasPriceFlaw, IsFromBody};

use crate::bad::Fault;
use http_bodies::{PutBody, UploadBody, read_part, read_put, read_status, read_tags, read_upload};
use office_base::Tags;
use rules_core::RuleSet;
use rules_json::read_rules;
use std::alloc::Global;
use tariff::Tariff;

#[tactic(auto, using(crate::proofs::AskLemmas::flaw_told))]
pub(crate) fn put_body(alloc: Global, bytes: &[u8]) -> Result<PutBody, Fault>
    ensures { IsFromBody (put_of bytes.now) result }
{
    Ok(read_put(alloc, bytes)?)
}

#[tactic(auto, using(crate::proofs::AskLemmas::flaw_told))]
pub(crate) fn status_body(alloc: Global, bytes: &[u8]) -> Result<bool, Fault>
    ensures { IsFromBody (versioning_of bytes.now) result }
{
    Ok(read_status(alloc, bytes)?)
}

#[tactic(auto, using(crate::proofs::AskLemmas::flaw_told))]
pub(crate) fn tags_body(alloc: Global, bytes: &[u8]) -> Result<Tags, Fault>
    ensures { IsFromBody (tagging_of bytes.now) result }
{
    Ok(read_tags(alloc, bytes)?)
}

#[tactic(auto, using(crate::proofs::AskLemmas::flaw_told))]
pub(crate) fn upload_body(alloc: Global, bytes: &[u8]) -> Result<UploadBody, Fault>
    ensures { IsFromBody (upload_said bytes.now) result }
{
    Ok(read_upload(alloc, bytes)?)
}

#[tactic(auto, using(crate::proofs::AskLemmas::flaw_told))]
pub(crate) fn part_body(alloc: Global, bytes: &[u8]) -> Result<u64, Fault>
    ensures { IsFromBody (part_of bytes.now) result }
{
    Ok(read_part(alloc, bytes)?)
}

#[tactic(auto, using(crate::proofs::AskLemmas::fault_told))]
pub(crate) fn rules_body(alloc: Global, bytes: &[u8]) -> Result<RuleSet, Fault>
    ensures ok { IfOk result (λ rules. rules_of bytes.now ≡ Ok rules) }
    ensures err { IfErr result (λ fault. OnBroken fault (HasFault (rules_of bytes.now))) }
{
    Ok(read_rules(alloc, bytes)?)
}

#[tactic(auto, using(crate::proofs::AskLemmas::price_flaw_told))]
pub(crate) fn tariff_body(alloc: Global, bytes: &[u8]) -> Result<Tariff, Fault>
    ensures ok { IfOk result (λ tariff. tariff_of bytes.now ≡ Ok tariff) }
    ensures err { IfErr result (λ fault. OnBroken fault (HasPriceFlaw (tariff_of bytes.now))) }
{
    Ok(Tariff::read(alloc, bytes)?)
}
