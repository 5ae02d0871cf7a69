// The table of actions.
ghost use Rattle.std.specs.Prelude.{◌≡◌, [], ◌∷◌, Option, OnOk, IfOk, IsOk};
ghost use Rattle.office_base.specs.declared.version_id.VersionId.{VersionId};
ghost use Rattle.std.specs.List.{flat_map};
ghost use Rattle.std.specs.Io.KnownBytes.{append_known};
ghost use Rattle.csv.specs.Writing.{default_writer, row_text};
ghost use Rattle.csv_sheet.specs.Sheets.{IsAtRowStart, bytes_written};
ghost use Rattle.office_types.specs.declared.reply.Reply.TheVariants.{Chosen};
ghost use Rattle.forecast.specs.Forecasts.{Outlook};
ghost use Rattle.forecast.specs.Telling.{Foretells, IsDone};
ghost use Rattle.forecast_text.specs.Tables.{actions_header, action_rows, actions_csv, text_of_rows};

use crate::names::{action_name, class_text, item_text};
use csv_sheet::{Sheet, finish, put_row, start};
use due_core::{ActionKind, Target};
use forecast::Forecast;
use moments::{Moment, print_moment};
use office_base::{Key, NoMemory, Text};
use office_types::Reply;
use std::alloc::Global;

// Writes a row of six texts.
fn put_texts<'a>(
    sheet: &mut Sheet,
    since: &'a [u8],
    action: &'a [u8],
    key: &'a [u8],
    item: &'a [u8],
    class: &'a [u8],
    rule: &'a [u8],
) -> Result<(), NoMemory>
    requires { IsAtRowStart sheet.old }
    ensures ready { OnOk result (IsAtRowStart sheet.new) }
    ensures bytes { OnOk result
        (bytes_written sheet.new ≡ append_known (bytes_written sheet.old) (row_text default_writer
        (since.now ∷ action.now ∷ key.now ∷ item.now ∷ class.now ∷ rule.now ∷ []))) }
{
    put_row(sheet, &[since, action, key, item, class, rule])
}

fn put_header(sheet: &mut Sheet) -> Result<(), NoMemory>
    requires { IsAtRowStart sheet.old }
    ensures ready { OnOk result (IsAtRowStart sheet.new) }
    ensures bytes { OnOk result (bytes_written sheet.new
        ≡ append_known (bytes_written sheet.old) (row_text default_writer actions_header)) }
{
    put_texts(
        sheet, b"since", b"action", b"key", b"item", b"class", b"rule",
    )
}

// Writes the row of an action, whatever delete marker it made.
fn put_action(
    sheet: &mut Sheet,
    alloc: Global,
    kind: ActionKind,
    key: &Key,
    target: Target,
    rule: &Text,
    since: Moment,
) -> Result<(), NoMemory>
    requires { IsAtRowStart sheet.old }
    ensures ready { OnOk result (IsAtRowStart sheet.new) }
    ensures bytes { (marker : Option VersionId) → OnOk result (bytes_written sheet.new
        ≡ append_known (bytes_written sheet.old)
        (text_of_rows (action_rows (Chosen kind key.now target rule.now since marker)))) }
{
    let item = item_text(alloc, target)?;
    put_texts(
        sheet,
        &print_moment(since.ms()),
        action_name(kind).as_bytes(),
        key.bytes(),
        &item,
        class_text(kind).as_bytes(),
        rule.as_str().as_bytes(),
    )
}

// Writes the row of a reply to an act.
fn put_reply(sheet: &mut Sheet, alloc: Global, reply: &Reply) -> Result<(), NoMemory>
    requires { IsAtRowStart sheet.old }
    ensures ready { OnOk result (IsAtRowStart sheet.new) }
    ensures bytes { OnOk result (bytes_written sheet.new
        ≡ append_known (bytes_written sheet.old) (text_of_rows (action_rows reply.now))) }
{
    match reply {
        Reply::Chosen {
            kind,
            key,
            target,
            rule,
            since,
            ..
        } => put_action(sheet, alloc, *kind, key, *target, rule, *since),
        _ => Ok(()),
    }
}

/// Does all actions of the forecast, and prints the table of them: a row for each, in order.
///
/// # Errors
///
/// `NoMemory`: memory ran out.
pub(crate) fn actions_text(alloc: Global, forecast: &mut Forecast) -> Result<Vec<u8>, NoMemory>
    ensures text { (outlook : Outlook) → Foretells forecast.old outlook
        → IfOk result (λ text. text.items ≡ actions_csv outlook.replies) }
    ensures lines { (outlook : Outlook) → Foretells forecast.old outlook
        → OnOk result (Foretells forecast.new (record outlook { replies = [] })) }
    ensures done { IsOk result → IsDone forecast.new }
    ensures first { forecast.new.first ≡ forecast.old.first }
{
    let mut sheet = start(alloc);
    put_header(&mut sheet)?;
    'telling: for _ in 0..u64::MAX {
        match forecast.next()? {
            Some(reply) => put_reply(&mut sheet, alloc, &reply)?,
            None => return finish(sheet),
        }
    }
    // No office accepts this many acts.
    Err(NoMemory)
}
