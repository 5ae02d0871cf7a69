// The rows of the table, as CSV.
ghost use Rattle.std.specs.Prelude.{◌≡◌, ◌++◌, [], ◌∷◌, map, Some, IfOk, OnOk};
ghost use Rattle.std.specs.List.{flat_map};
ghost use Rattle.std.specs.Io.KnownBytes.{append_known};
ghost use Rattle.csv.specs.Writing.{default_writer, row_text};
ghost use Rattle.stay_explain.specs.Rows.{item_of, booked_of};
ghost use Rattle.csv_sheet.specs.Sheets.{IsAtRowStart, bytes_written};
ghost use Rattle.stay_explain.specs.Table.{end_text, stays_header, item_text, stay_row};
ghost use Rattle.stay_explain.specs.Table.{stay_rows, table_rows, tables_csv};

use crate::row::{Item, Row};
use crate::table::Table;
use class_rules::Class;
use csv_sheet::{Sheet, finish, put_row, start};
use moments::{Moment, print_moment};
use office_base::{BucketName, NoMemory};
use std::alloc::{AllocError, Global};

// A row of seven texts.
fn put_texts<'a>(
    sheet: &mut Sheet,
    bucket: &'a [u8],
    key: &'a [u8],
    item: &'a [u8],
    class: &'a [u8],
    bytes: &'a [u8],
    from: &'a [u8],
    to: &'a [u8],
) -> Result<(), NoMemory>
    requires { IsAtRowStart sheet.old }
    ensures ready { OnOk result (IsAtRowStart sheet.new) }
    ensures bytes { OnOk result
        (bytes_written sheet.new ≡ append_known (bytes_written sheet.old) (row_text default_writer
        (bucket.now ∷ key.now ∷ item.now ∷ class.now ∷ bytes.now ∷ from.now ∷ to.now ∷ []))) }
{
    put_row(sheet, &[bucket, key, item, class, bytes, from, to])
}

fn put_header(sheet: &mut Sheet) -> Result<(), NoMemory>
    requires { IsAtRowStart sheet.old }
    ensures ready { OnOk result (IsAtRowStart sheet.new) }
    ensures bytes { OnOk result (bytes_written sheet.new
        ≡ append_known (bytes_written sheet.old) (row_text default_writer stays_header)) }
{
    put_texts(
        sheet, b"bucket", b"key", b"item", b"class", b"bytes", b"from", b"to",
    )
}

// A text of these parts.
fn joined(alloc: Global, a: &str, b: &str, c: &str, d: &str) -> Result<Vec<u8>, AllocError>
    ensures { IfOk result (λ text. text.items ≡ a.now ++ b.now ++ c.now ++ d.now) }
{
    let mut text = Vec::new(alloc);
    text.extend_from_slice(a.as_bytes())?;
    text.extend_from_slice(b.as_bytes())?;
    text.extend_from_slice(c.as_bytes())?;
    text.extend_from_slice(d.as_bytes())?;
    Ok(text)
}

fn item_text(alloc: Global, item: Item) -> Result<Vec<u8>, AllocError>
    ensures { IfOk result (λ text. text.items ≡ item_text (item_of item)) }
{
    match item {
        Item::Null => joined(alloc, "v:", "null", "", ""),
        Item::Number(number) => { joined(alloc, "v:", itoa::Buffer::new().format(number), "", "") }
        Item::Part(upload, part) => joined(
            alloc,
            "u:",
            itoa::Buffer::new().format(upload),
            "/",
            itoa::Buffer::new().format(part),
        ),
    }
}

// A line of a stay, whose item and end have these texts.
fn put_line(
    sheet: &mut Sheet,
    bucket: &BucketName,
    row: &Row,
    item: &[u8],
    end: &[u8],
    class: Class,
    bytes: u64,
) -> Result<(), NoMemory>
    requires ready { IsAtRowStart sheet.old }
    requires item { item.now ≡ item_text (item_of row.now.owner.item) }
    requires end { end.now ≡ end_text row.now.to }
    ensures ready { OnOk result (IsAtRowStart sheet.new) }
    ensures bytes { OnOk result (bytes_written sheet.new ≡ append_known (bytes_written sheet.old)
        (row_text default_writer (stay_row bucket.now (booked_of row.now) (class, bytes)))) }
{
    put_texts(
        sheet,
        bucket.text().as_bytes(),
        row.owner.key.bytes(),
        item,
        class.name().as_bytes(),
        itoa::Buffer::new().format(bytes).as_bytes(),
        &print_moment(row.from.ms()),
        end,
    )
}

// The lines of a stay, whose item and end have these texts: its own line, and then the one in STANDARD.
fn put_lines(
    sheet: &mut Sheet,
    bucket: &BucketName,
    row: &Row,
    item: &[u8],
    end: &[u8],
) -> Result<(), NoMemory>
    requires ready { IsAtRowStart sheet.old }
    requires item { item.now ≡ item_text (item_of row.now.owner.item) }
    requires end { end.now ≡ end_text row.now.to }
    ensures ready { OnOk result (IsAtRowStart sheet.new) }
    ensures bytes { OnOk result (bytes_written sheet.new ≡ append_known (bytes_written sheet.old)
        (flat_map (row_text default_writer) (stay_rows bucket.now (booked_of row.now)))) }
{
    put_line(
        sheet,
        bucket,
        row,
        item,
        end,
        row.lines.class,
        row.lines.bytes,
    )?;
    if row.lines.standard == 0 {
        return Ok(());
    }
    put_line(
        sheet,
        bucket,
        row,
        item,
        end,
        Class::Standard,
        row.lines.standard,
    )
}

fn put_stay(
    sheet: &mut Sheet,
    alloc: Global,
    bucket: &BucketName,
    row: &Row,
) -> Result<(), NoMemory>
    requires { IsAtRowStart sheet.old }
    ensures ready { OnOk result (IsAtRowStart sheet.new) }
    ensures bytes { OnOk result (bytes_written sheet.new ≡ append_known (bytes_written sheet.old)
        (flat_map (row_text default_writer) (stay_rows bucket.now (booked_of row.now)))) }
{
    let item = item_text(alloc, row.owner.item)?;
    match row.to {
        Some(to) => put_lines(sheet, bucket, row, &item, &print_moment(to.ms())),
        None => put_lines(sheet, bucket, row, &item, b"open"),
    }
}

fn put_stays(
    sheet: &mut Sheet,
    alloc: Global,
    bucket: &BucketName,
    rows: &[Row],
) -> Result<(), NoMemory>
    requires { IsAtRowStart sheet.old }
    ensures ready { OnOk result (IsAtRowStart sheet.new) }
    ensures bytes { OnOk result (bytes_written sheet.new ≡ append_known (bytes_written sheet.old)
        (flat_map (row_text default_writer) (table_rows (bucket.now, map booked_of rows.now)))) }
{
    for row in rows {
        put_stay(sheet, alloc, bucket, row)?;
    }
    Ok(())
}

fn put_table(sheet: &mut Sheet, alloc: Global, table: &Table<'_>) -> Result<(), NoMemory>
    requires { IsAtRowStart sheet.old }
    ensures ready { OnOk result (IsAtRowStart sheet.new) }
    ensures bytes { OnOk result (bytes_written sheet.new ≡ append_known (bytes_written sheet.old)
        (flat_map (row_text default_writer) (table_rows table.now))) }
{
    put_stays(sheet, alloc, table.bucket, table.rows)
}

/// Prints the header.
pub(crate) fn header_text(alloc: Global) -> Result<Vec<u8>, NoMemory>
    ensures { IfOk result (λ text. text.items ≡ row_text default_writer stays_header) }
{
    let mut sheet = start(alloc);
    put_header(&mut sheet)?;
    finish(sheet)
}

/// Prints the header, and then the stays of these buckets.
pub(crate) fn page_text(alloc: Global, tables: &[Table<'_>]) -> Result<Vec<u8>, NoMemory>
    ensures { IfOk result (λ text. text.items ≡ tables_csv tables.now) }
{
    let mut sheet = start(alloc);
    put_header(&mut sheet)?;
    for table in tables {
        put_table(&mut sheet, alloc, table)?;
    }
    finish(sheet)
}
