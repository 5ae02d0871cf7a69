// Both tables.
ghost use Rattle.std.specs.Prelude.{◌≡◌, ◌≤◌, ◌++◌, ◌∷◌, IfOk, OnOk};
ghost use Rattle.forecast.specs.Forecasts.{Outlook};
ghost use Rattle.forecast.specs.Telling.{Foretells};
ghost use Rattle.forecast_text.specs.Tables.{forecast_text};

use crate::actions::actions_text;
use crate::months::lines_text;
use forecast::Forecast;
use moments::Month;
use office_base::NoMemory;
use std::alloc::{AllocError, Global};

// Adds an empty line and a table to the end of the first one.
fn put_behind(text: &mut Vec<u8>, table: &[u8]) -> Result<(), AllocError>
    ensures { OnOk result (text.new.items ≡ text.old.items ++ 10 ∷ table.now) }
{
    text.push(b'\n')?;
    text.extend_from_slice(table)
}

fn joined(actions: Vec<u8>, lines: &[u8]) -> Result<Vec<u8>, NoMemory>
    ensures { IfOk result (λ text. text.items ≡ actions.items ++ 10 ∷ lines.now) }
{
    let mut text = actions;
    put_behind(&mut text, lines)?;
    Ok(text)
}

/// Does all actions of a forecast, and prints it: a table of the actions, an empty line, and a table of what the months
/// from the first to the last would cost.
///
/// The headers are `since,action,key,item,class,rule` and `month,line,class,quantity,charge`. Both tables are CSV (RFC
/// 4180, but lines end in a line feed). Moments are in UTC. Quantities are in byte-milliseconds; those of transitions
/// are numbers of objects. Charges are in whole units, and empty if no tariff is in force. The first month is not
/// before that in which the configuration is set.
///
/// Cost: an act for each action, a read of six meters for each month, and memory for the text.
///
/// # Errors
///
/// `NoMemory`: memory ran out.
#[tactic(auto, unfolding(crate::specs::Tables::forecast_text))]
pub fn print_forecast(
    alloc: Global,
    forecast: &mut Forecast,
    first: Month,
    last: Month,
) -> Result<Vec<u8>, NoMemory>
    requires { forecast.old.first ≤ first }
    ensures { (outlook : Outlook) → Foretells forecast.old outlook
        → IfOk result (λ text. text.items ≡ forecast_text (record { first = first; last = last }) outlook) }
{
    let actions = actions_text(alloc, forecast)?;
    let lines = lines_text(alloc, forecast, first, last)?;
    joined(actions, &lines)
}
