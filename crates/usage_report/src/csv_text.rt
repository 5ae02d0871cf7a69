// The report of a month as CSV.
ghost use Rattle.std.specs.Prelude.{◌≡◌, ◌<◌, ◌^◌, [], ◌∷◌, IfOk, OnOk};
ghost use Rattle.std.specs.Io.KnownBytes.{append_known};
ghost use Rattle.office_types.specs.Reports.{charges};
ghost use Rattle.csv.specs.Writing.{default_writer, row_text};
ghost use Rattle.usage_report.specs.Csv.{report_row, report_csv, total_row};
ghost use Rattle.csv_sheet.specs.Sheets.{IsAtRowStart, bytes_written};

use crate::names::{line_name, price_text};
use csv_sheet::{Sheet, finish, put_row, start};
use office_base::NoMemory;
use office_types::ReportLine;
use std::alloc::Global;

// A row of six texts.
fn put_texts<'a>(
    sheet: &mut Sheet,
    bucket: &'a str,
    kind: &'a str,
    class: &'a str,
    quantity: &'a str,
    price: &'a str,
    charge: &'a str,
) -> Result<(), NoMemory>
    requires { IsAtRowStart sheet.old }
    ensures ready { OnOk result (IsAtRowStart sheet.new) }
    ensures bytes { OnOk result
        (bytes_written sheet.new ≡ append_known (bytes_written sheet.old) (row_text default_writer
        (bucket.now ∷ kind.now ∷ class.now ∷ quantity.now ∷ price.now ∷ charge.now ∷ []))) }
{
    put_row(
        sheet,
        &[
            bucket.as_bytes(),
            kind.as_bytes(),
            class.as_bytes(),
            quantity.as_bytes(),
            price.as_bytes(),
            charge.as_bytes(),
        ],
    )
}

fn put_line(sheet: &mut Sheet, line: &ReportLine) -> Result<(), NoMemory>
    requires { IsAtRowStart sheet.old }
    ensures ready { OnOk result (IsAtRowStart sheet.new) }
    ensures bytes { OnOk result (bytes_written sheet.new
        ≡ append_known (bytes_written sheet.old) (row_text default_writer (report_row line.now))) }
{
    let mut digits = itoa::Buffer::new();
    put_texts(
        sheet,
        line.bucket.text(),
        line_name(line.kind),
        line.class.name(),
        itoa::Buffer::new().format(line.quantity),
        price_text(&mut digits, line.price),
        itoa::Buffer::new().format(line.charge),
    )
}

fn put_total(sheet: &mut Sheet, total: u128) -> Result<(), NoMemory>
    requires { IsAtRowStart sheet.old }
    ensures ready { OnOk result (IsAtRowStart sheet.new) }
    ensures bytes { OnOk result (bytes_written sheet.new
        ≡ append_known (bytes_written sheet.old) (row_text default_writer (total_row total))) }
{
    put_texts(
        sheet,
        "",
        "total",
        "",
        "",
        "",
        itoa::Buffer::new().format(total),
    )
}

/// Writes the lines of a report and their total as CSV (RFC 4180, but lines end in a line feed), with the header
/// `bucket,line,class,quantity,price,charge`. Quantities are in byte-milliseconds, or for transitions a number of
/// objects. Prices and charges are in units.
///
/// Cost: a pass over the lines; memory for the text.
///
/// # Errors
///
/// `NoMemory`: memory ran out.
pub fn report_csv(alloc: Global, lines: &[ReportLine]) -> Result<Vec<u8>, NoMemory>
    requires { charges lines.now < 2 ^ 128 }
    ensures { IfOk result (λ v. v.items ≡ report_csv lines.now) }
{
    let mut sheet = start(alloc);
    put_texts(
        &mut sheet, "bucket", "line", "class", "quantity", "price", "charge",
    )?;
    let mut total = 0;
    for line in lines {
        put_line(&mut sheet, line)?;
        total += line.charge;
    }
    put_total(&mut sheet, total)?;
    finish(sheet)
}
