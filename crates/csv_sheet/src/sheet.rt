// The rows of a CSV text.
ghost use Rattle.std.specs.Prelude.{◌≡◌, [], map, Some, IfOk, OnOk};
ghost use Rattle.std.specs.Io.KnownBytes.{append_known};
ghost use Rattle.csv.specs.Writing.{default_writer, row_text};
ghost use Rattle.csv_sheet.specs.Sheets.{IsAtRowStart, bytes_written};

use csv::{Writer, WriterBuilder};
use office_base::NoMemory;
use std::alloc::Global;

/// A CSV text in memory (RFC 4180, but rows end in a line feed).
pub type Sheet = Writer<Vec<u8>>;

/// Starts an empty text. Takes no memory.
pub fn start(alloc: Global) -> Sheet
    ensures ready { IsAtRowStart result }
    ensures empty { bytes_written result ≡ Some [] }
{
    WriterBuilder::new().from_writer(Vec::new(alloc))
}

/// Writes a row. A field is put in quotation marks only if it needs them.
///
/// # Errors
///
/// Memory ran out. It is then unspecified how much of the row is written.
pub fn put_row(sheet: &mut Sheet, fields: &[&[u8]]) -> Result<(), NoMemory>
    requires { IsAtRowStart sheet.old }
    ensures ready { OnOk result (IsAtRowStart sheet.new) }
    ensures bytes { OnOk result (bytes_written sheet.new
        ≡ append_known (bytes_written sheet.old) (row_text default_writer (map (λ f. f.now) fields.now))) }
{
    match sheet.write_fields(fields) {
        Ok(()) => Ok(()),
        Err(_) => Err(NoMemory),
    }
}

/// Gives the text.
///
/// # Errors
///
/// Memory ran out.
pub fn finish(sheet: Sheet) -> Result<Vec<u8>, NoMemory>
    ensures { IfOk result (λ text. bytes_written sheet ≡ Some text.items) }
{
    match sheet.into_inner() {
        Ok(bytes) => Ok(bytes),
        Err(_) => Err(NoMemory),
    }
}
