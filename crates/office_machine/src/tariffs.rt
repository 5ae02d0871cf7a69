// The tariffs that were set, by their first months.
ghost use Rattle.std.specs.Prelude.{◌≡◌, ◌∷◌, [], ◌++◌, nat_lt, nat_le, filter};
ghost use Rattle.std.specs.Prelude.{Some, None, OnOk, IfOk, IfErr, if◌then◌else◌};
ghost use Rattle.plain_office.specs.Charges.{in_force};
ghost use Rattle.plain_office.specs.Step.{with_tariff};
ghost use Rattle.office_machine.specs.AnswerParts.{latest};

use moments::Month;
use office_types::Refusal;
use std::alloc::Global;
use tariff::Tariff;

/// Reports whether a tariff begins before a month.
fn is_before(tariff: &Tariff, month: Month) -> bool
    ensures { result ≡ nat_lt tariff.now.from month }
{
    tariff.from.number() < month.number()
}

/// Reports whether a tariff begins after a month.
fn is_behind(tariff: &Tariff, month: Month) -> bool
    ensures { result ≡ nat_lt month tariff.now.from }
{
    month.number() < tariff.from.number()
}

fn push(all: &mut Vec<Tariff>, tariff: &Tariff) -> Result<(), Refusal>
    ensures pushed { OnOk result (all.new.items ≡ all.old.items ++ tariff.now ∷ []) }
    ensures refusal { IfErr result (λ refusal. refusal ≡ Refusal.NoMemory) }
{
    Ok(all.push(*tariff)?)
}

fn push_earlier(all: &mut Vec<Tariff>, others: &[Tariff], month: Month) -> Result<(), Refusal>
    ensures pushed { OnOk result
        (all.new.items ≡ all.old.items ++ filter (λ other. nat_lt other.from month) others.now) }
    ensures refusal { IfErr result (λ refusal. refusal ≡ Refusal.NoMemory) }
{
    for other in others {
        if is_before(other, month) {
            push(all, other)?;
        }
    }
    Ok(())
}

fn push_later(all: &mut Vec<Tariff>, others: &[Tariff], month: Month) -> Result<(), Refusal>
    ensures pushed { OnOk result
        (all.new.items ≡ all.old.items ++ filter (λ other. nat_lt month other.from) others.now) }
    ensures refusal { IfErr result (λ refusal. refusal ≡ Refusal.NoMemory) }
{
    for other in others {
        if is_behind(other, month) {
            push(all, other)?;
        }
    }
    Ok(())
}

/// Returns the tariffs with this one added. It replaces the one with the same first month.
pub(crate) fn with_tariff(
    alloc: Global,
    tariff: &Tariff,
    others: &[Tariff],
) -> Result<Vec<Tariff>, Refusal>
    ensures exact { IfOk result (λ all. all.items ≡ with_tariff tariff.now others.now) }
    ensures refusal { IfErr result (λ refusal. refusal ≡ Refusal.NoMemory) }
{
    let mut all = Vec::new(alloc);
    push_earlier(&mut all, others, tariff.from)?;
    push(&mut all, tariff)?;
    push_later(&mut all, others, tariff.from)?;
    Ok(all)
}

fn has_begun(tariff: &Tariff, month: Month) -> bool
    ensures { result ≡ nat_le tariff.now.from month }
{
    tariff.from.number() <= month.number()
}

/// Returns this tariff if it has begun, or else the one that was found before.
fn begun_or(tariff: &Tariff, month: Month, found: Option<Tariff>) -> Option<Tariff>
    ensures { result ≡ (if nat_le tariff.now.from month then Some tariff.now else found) }
{
    if has_begun(tariff, month) {
        Some(*tariff)
    } else {
        found
    }
}

/// Returns the last of these tariffs that begins by a month.
fn latest(tariffs: &[Tariff], month: Month) -> Option<Tariff>
    ensures { result ≡ latest month None tariffs.now }
{
    let mut found = None;
    for tariff in tariffs {
        found = begun_or(tariff, month, found);
    }
    found
}

/// Returns the tariff in force in a month: the last of these that begins by then. The tariffs are in the order of their
/// first months.
#[tactic(auto, using(crate::proofs::ByMonths::latest_is))]
pub fn in_force(tariffs: &[Tariff], month: Month) -> Option<Tariff>
    ensures { result ≡ in_force month tariffs.now }
{
    latest(tariffs, month)
}

/// Copies the tariffs, for an answer.
pub(crate) fn copy_of_all(alloc: Global, tariffs: &[Tariff]) -> Result<Vec<Tariff>, Refusal>
    ensures exact { IfOk result (λ all. all.items ≡ tariffs.now) }
    ensures refusal { IfErr result (λ refusal. refusal ≡ Refusal.NoMemory) }
{
    let mut all = Vec::new(alloc);
    all.extend_from_slice(tariffs)?;
    Ok(all)
}
