// The report of a month as a table to read.
ghost use Rattle.std.specs.Prelude.{◌≡◌, ◌<◌, ◌^◌, ◌-◌, ◌++◌, ◌∷◌, [], length, replicate, IfOk, OnOk, decimal};
ghost use Rattle.office_types.specs.Reports.{charges};
ghost use Rattle.usage_report.specs.Lines.{line_name};
ghost use Rattle.usage_report.specs.Tables.{left_aligned, right_aligned, table_line, line_text, total_text};
ghost use Rattle.usage_report.specs.Tables.{report_text};

use crate::names::line_name;
use office_base::NoMemory;
use office_types::ReportLine;
use std::alloc::{AllocError, Global};

const SPACES: &[u8; 28] = b"                            ";

fn put(out: &mut Vec<u8>, text: &[u8]) -> Result<(), AllocError>
    ensures { OnOk result (out.new.items ≡ out.old.items ++ text.now) }
{
    out.extend_from_slice(text)
}

// Pads a text to the width of a column, at most 28 characters, with spaces.
fn fill(out: &mut Vec<u8>, text: &[u8], width: usize) -> Result<(), AllocError>
    requires { width < 29 }
    ensures { OnOk result (out.new.items ≡ out.old.items ++ replicate (width - length text.now) 32) }
{
    put(out, &SPACES[..width.saturating_sub(text.len())])
}

fn put_left(out: &mut Vec<u8>, text: &[u8], width: usize) -> Result<(), AllocError>
    requires { width < 29 }
    ensures { OnOk result (out.new.items ≡ out.old.items ++ left_aligned width text.now) }
{
    put(out, text)?;
    fill(out, text, width)
}

fn put_right(out: &mut Vec<u8>, text: &[u8], width: usize) -> Result<(), AllocError>
    requires { width < 29 }
    ensures { OnOk result (out.new.items ≡ out.old.items ++ right_aligned width text.now) }
{
    fill(out, text, width)?;
    put(out, text)
}

// Writes the three columns of names, each with a space after it.
fn put_names(out: &mut Vec<u8>, bucket: &[u8], kind: &[u8], class: &[u8]) -> Result<(), AllocError>
    ensures { OnOk result (out.new.items ≡ out.old.items
        ++ (left_aligned 24 bucket.now ++ 32 ∷ left_aligned 12 kind.now ++ 32 ∷ left_aligned 14 class.now ++ 32 ∷ [])) }
{
    put_left(out, bucket, 24)?;
    put(out, b" ")?;
    put_left(out, kind, 12)?;
    put(out, b" ")?;
    put_left(out, class, 14)?;
    put(out, b" ")
}

// Writes the two columns of numbers, and ends the line.
fn put_numbers(out: &mut Vec<u8>, quantity: &[u8], charge: u128) -> Result<(), AllocError>
    ensures { OnOk result (out.new.items ≡ out.old.items
        ++ (right_aligned 28 quantity.now ++ 32 ∷ right_aligned 16 (decimal charge) ++ 10 ∷ [])) }
{
    put_right(out, quantity, 28)?;
    put(out, b" ")?;
    put_right(out, itoa::Buffer::new().format(charge).as_bytes(), 16)?;
    put(out, b"\n")
}

// Writes a line of five columns.
#[tactic(auto, unfolding(crate::specs::Tables::table_line))]
fn put_row(
    out: &mut Vec<u8>,
    bucket: &str,
    kind: &str,
    class: &str,
    quantity: &str,
    charge: u128,
) -> Result<(), AllocError>
    ensures { OnOk result (out.new.items ≡ out.old.items
        ++ table_line bucket.now kind.now class.now quantity.now charge) }
{
    put_names(out, bucket.as_bytes(), kind.as_bytes(), class.as_bytes())?;
    put_numbers(out, quantity.as_bytes(), charge)
}

fn put_line(out: &mut Vec<u8>, line: &ReportLine) -> Result<(), AllocError>
    ensures { OnOk result (out.new.items ≡ out.old.items ++ line_text line.now) }
{
    put_row(
        out,
        line.bucket.text(),
        line_name(line.kind),
        line.class.name(),
        itoa::Buffer::new().format(line.quantity),
        line.charge,
    )
}

fn put_total(out: &mut Vec<u8>, total: u128) -> Result<(), AllocError>
    ensures { OnOk result (out.new.items ≡ out.old.items ++ total_text total) }
{
    put_row(out, "", "total", "", "", total)
}

// Writes a line for each line of the report, and one for the total.
fn put_report(out: &mut Vec<u8>, lines: &[ReportLine]) -> Result<(), AllocError>
    requires fits { charges lines.now < 2 ^ 128 }
    requires empty { out.old.items ≡ [] }
    ensures { OnOk result (out.new.items ≡ report_text lines.now) }
{
    let mut total = 0;
    for line in lines {
        put_line(out, line)?;
        total += line.charge;
    }
    put_total(out, total)
}

/// Writes the lines of a report and their total as a table: a line of text for each. The columns are the bucket (24
/// characters), the kind (12), the class (14), and right-aligned the quantity (28) and the charge (16). A longer text
/// is unchanged. Quantities are in byte-milliseconds, or for transitions a number of objects. Charges are in units.
///
/// Cost: a pass over the lines; memory for the text.
///
/// # Errors
///
/// `NoMemory`: memory ran out.
pub fn report_text(alloc: Global, lines: &[ReportLine]) -> Result<Vec<u8>, NoMemory>
    requires { charges lines.now < 2 ^ 128 }
    ensures { IfOk result (λ v. v.items ≡ report_text lines.now) }
{
    let mut out = Vec::new(alloc);
    put_report(&mut out, lines)?;
    Ok(out)
}
