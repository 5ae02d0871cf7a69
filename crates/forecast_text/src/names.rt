// The fields of the tables.
ghost use Rattle.std.specs.Prelude.{◌≡◌, ◌++◌, IfOk, codes};
ghost use Rattle.moments.specs.Texts.{two_digits};
ghost use Rattle.office_base.specs.Versions.{id_text};
ghost use Rattle.usage_report.specs.Lines.{line_name};
ghost use Rattle.http_text.specs.Names.{action_name, month_text};
ghost use Rattle.forecast_text.specs.Tables.{item_text, class_text, charge_text};

use due_core::{ActionKind, Target};
use moments::Month;
use office_base::{NoMemory, VersionId};
use office_types::LineKind;
use std::alloc::{AllocError, Global};

pub(crate) fn action_name(kind: ActionKind) -> &'static str
    ensures { result.now ≡ action_name kind }
{
    match kind {
        ActionKind::Remove => "remove",
        ActionKind::Transition(_) => "transition",
        ActionKind::Marker => "marker",
        ActionKind::Abort => "abort",
    }
}

pub(crate) fn class_text(kind: ActionKind) -> &'static str
    ensures { result.now ≡ class_text kind }
{
    match kind {
        ActionKind::Transition(to) => to.name(),
        _ => "",
    }
}

// A text of two parts.
fn joined(alloc: Global, a: &str, b: &str) -> Result<Vec<u8>, AllocError>
    ensures { IfOk result (λ text. text.items ≡ a.now ++ b.now) }
{
    let mut text = Vec::new(alloc);
    text.extend_from_slice(a.as_bytes())?;
    text.extend_from_slice(b.as_bytes())?;
    Ok(text)
}

fn version_text(alloc: Global, id: VersionId) -> Result<Vec<u8>, AllocError>
    ensures { IfOk result (λ text. text.items ≡ codes "v:" ++ id_text id) }
{
    match id {
        VersionId::Null => joined(alloc, "v:", "null"),
        VersionId::Number(number) => {
            joined(alloc, "v:", itoa::Buffer::new().format(number.get()))
        }
    }
}

fn target_text(alloc: Global, target: Target) -> Result<Vec<u8>, AllocError>
    ensures { IfOk result (λ text. text.items ≡ item_text target) }
{
    match target {
        Target::Version(id) => version_text(alloc, id),
        Target::Upload(number) => joined(alloc, "u:", itoa::Buffer::new().format(number)),
    }
}

// What an action is done to.
pub(crate) fn item_text(alloc: Global, target: Target) -> Result<Vec<u8>, NoMemory>
    ensures { IfOk result (λ text. text.items ≡ item_text target) }
{
    Ok(target_text(alloc, target)?)
}

pub(crate) fn line_name(kind: LineKind) -> &'static str
    ensures { result.now ≡ line_name kind }
{
    match kind {
        LineKind::Storage => "storage",
        LineKind::Early => "early",
        LineKind::Transitions => "transitions",
    }
}

// A charge as its digits, which are in the buffer; empty if there is none.
pub(crate) fn charge_text(digits: &mut itoa::Buffer, charge: Option<u128>) -> &str
    ensures { result.now ≡ charge_text charge }
{
    match charge {
        Some(charge) => digits.format(charge),
        None => "",
    }
}

fn two_of(number: u16) -> [u8; 2]
    ensures { result ≡ two_digits number }
{
    [b'0' + (number / 10 % 10) as u8, b'0' + (number % 10) as u8]
}

// A month as 2024-01.
#[tactic(auto, unfolding(http_text::specs::Names::month_text))]
pub(crate) fn month_text(month: Month) -> [u8; 7]
    ensures { result ≡ month_text month }
{
    let [y0, y1] = two_of(month.year() / 100);
    let [y2, y3] = two_of(month.year());
    let [m0, m1] = two_of(month.month() as u16);
    [y0, y1, y2, y3, b'-', m0, m1]
}
