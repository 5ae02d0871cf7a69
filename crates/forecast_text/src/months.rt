// The table of what the months would cost.
ghost use Rattle.std.specs.Prelude.{◌≡◌, ◌≤◌, ◌+◌, ◌-◌, [], ◌∷◌, map, OnOk, IfOk};
ghost use Rattle.std.specs.Io.KnownBytes.{append_known};
ghost use Rattle.csv.specs.Writing.{default_writer, row_text};
ghost use Rattle.csv_sheet.specs.Sheets.{IsAtRowStart, bytes_written};
ghost use Rattle.forecast.specs.Forecasts.{Outlook};
ghost use Rattle.forecast.specs.Telling.{Foretells, IsDone};
ghost use Rattle.forecast_text.specs.Tables.{lines_header, line_row, month_rows, lines_csv, text_of_rows};

use crate::names::{charge_text, line_name, month_text};
use csv_sheet::{Sheet, finish, put_row, start};
use forecast::{Forecast, ForecastLine};
use moments::Month;
use office_base::NoMemory;
use std::alloc::Global;

// Writes a row of five texts.
fn put_texts<'a>(
    sheet: &mut Sheet,
    month: &'a [u8],
    line: &'a [u8],
    class: &'a [u8],
    quantity: &'a [u8],
    charge: &'a [u8],
) -> Result<(), NoMemory>
    requires { IsAtRowStart sheet.old }
    ensures ready { OnOk result (IsAtRowStart sheet.new) }
    ensures bytes { OnOk result
        (bytes_written sheet.new ≡ append_known (bytes_written sheet.old) (row_text default_writer
        (month.now ∷ line.now ∷ class.now ∷ quantity.now ∷ charge.now ∷ []))) }
{
    put_row(sheet, &[month, line, class, quantity, charge])
}

fn put_header(sheet: &mut Sheet) -> Result<(), NoMemory>
    requires { IsAtRowStart sheet.old }
    ensures ready { OnOk result (IsAtRowStart sheet.new) }
    ensures bytes { OnOk result (bytes_written sheet.new
        ≡ append_known (bytes_written sheet.old) (row_text default_writer lines_header)) }
{
    put_texts(sheet, b"month", b"line", b"class", b"quantity", b"charge")
}

fn put_line(sheet: &mut Sheet, month: Month, line: &ForecastLine) -> Result<(), NoMemory>
    requires { IsAtRowStart sheet.old }
    ensures ready { OnOk result (IsAtRowStart sheet.new) }
    ensures bytes { OnOk result (bytes_written sheet.new
        ≡ append_known (bytes_written sheet.old) (row_text default_writer (line_row month line.now))) }
{
    let mut digits = itoa::Buffer::new();
    put_texts(
        sheet,
        &month_text(month),
        line_name(line.kind).as_bytes(),
        line.class.name().as_bytes(),
        itoa::Buffer::new().format(line.quantity).as_bytes(),
        charge_text(&mut digits, line.charge).as_bytes(),
    )
}

fn put_lines(sheet: &mut Sheet, month: Month, lines: &[ForecastLine]) -> Result<(), NoMemory>
    requires { IsAtRowStart sheet.old }
    ensures ready { OnOk result (IsAtRowStart sheet.new) }
    ensures bytes { OnOk result (bytes_written sheet.new
        ≡ append_known (bytes_written sheet.old) (text_of_rows (map (line_row month) lines.now))) }
{
    for line in lines {
        put_line(sheet, month, line)?;
    }
    Ok(())
}

fn put_month(
    sheet: &mut Sheet,
    alloc: Global,
    forecast: &Forecast,
    month: Month,
) -> Result<(), NoMemory>
    requires ready { IsAtRowStart sheet.old }
    requires done { IsDone forecast.now }
    requires month { forecast.now.first ≤ month }
    ensures ready { OnOk result (IsAtRowStart sheet.new) }
    ensures bytes { (outlook : Outlook) → Foretells forecast.now outlook → OnOk result (bytes_written sheet.new
        ≡ append_known (bytes_written sheet.old) (text_of_rows (month_rows outlook.lines month))) }
{
    let lines = forecast.lines(alloc, month)?;
    put_lines(sheet, month, &lines)
}

/// Prints the table of what the months from the first to the last would cost, with the lines of each month in order.
///
/// # Errors
///
/// `NoMemory`: memory ran out.
pub(crate) fn lines_text(
    alloc: Global,
    forecast: &Forecast,
    first: Month,
    last: Month,
) -> Result<Vec<u8>, NoMemory>
    requires done { IsDone forecast.now }
    requires month { forecast.now.first ≤ first }
    ensures { (outlook : Outlook) → Foretells forecast.now outlook
        → IfOk result (λ text. text.items ≡ lines_csv first last outlook.lines) }
{
    let mut sheet = start(alloc);
    put_header(&mut sheet)?;
    for number in first.number()..last.number() + 1 {
        put_month(&mut sheet, alloc, forecast, Month::numbered(number))?;
    }
    finish(sheet)
}
