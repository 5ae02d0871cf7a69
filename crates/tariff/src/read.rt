// Reading tariffs from TOML documents.
ghost use Rattle.std.specs.Prelude.{◌≡◌, ℕ, true, length, Option, option_and_then, is_some, unwrap_or, IfOk};
ghost use Rattle.toml.specs.Data.{Data, Members, no_members, string, as_table, get_member};
ghost use Rattle.toml_rows.specs.Reading.{data_at};
ghost use Rattle.toml_rows.specs.Rows.{row_of, Row};
ghost use Rattle.toml_rows.specs.Documents.{IsTable};
ghost use Rattle.toml_rows.specs.Walking.{Says, knows, first_unknown};
ghost use Rattle.std.specs.List.{list_all};
ghost use Rattle.tariff.specs.Faults.{TariffGives};
ghost use Rattle.tariff.specs.Prices.{is_price};
ghost use Rattle.tariff.specs.Opened.{ReadsDocument, IsOpened, is_there};
ghost use Rattle.tariff.specs.Reading.{table_name, classes_of, with_fields, with_classes, unless_other, from_name, from_of, month_said, tariff_of};
ghost use Rattle.tariff.specs.Reading.{price_in, each_of, tiers_in};
ghost use Rattle.tariff.specs.Opened.{tariff_in};

use crate::fault::{TariffFault, TariffTable, unknown};
use crate::prices::Tariff;
use crate::tier::{price_of, tiers_of};
use crate::tiers::Tiers;
use class_rules::Class;
use moments::{Month, read_month};
use std::alloc::{AllocError, Global};
use toml_parser::RECURSION_LIMIT;
use toml_rows::{Found, Keys, inline, string};

/// The classes of the `storage` table, from the warmest on.
const STORED_IN: [Class; 6] = [
    Class::Standard,
    Class::StandardIa,
    Class::OnezoneIa,
    Class::GlacierIr,
    Class::Glacier,
    Class::DeepArchive,
];

/// A table of the document: a table of its row, one with a row of its own, or none, with an empty row.
#[derive(Drop)]
enum Opened<'s> {
    Inside(u32),
    Own(Keys<'s>),
    Missing(Keys<'s>),
}

impl Tariff {
    /// Reads a tariff from a TOML document with two tables. `storage` has for each class a price per GiB stored for a
    /// month, and `transition` for each class but STANDARD a price per 1,000 moves to it. Prices are in whole units. In
    /// `storage` a class may have a list of tiers in place of a price, as `[{ upto = 50, price = 23 }, { price = 22
    /// }]`, with the ends in GiB-months. The field `from` is the first month of the tariff, as `"2024-01"`.
    ///
    /// Rule: TOML v1.1.0. Own rules: the names and the order of the faults; a missing table is empty; without `from`
    /// the first month is January 1970; a price is an integer, not `1.0`. A document nests at most 80 deep and has
    /// integers of 64 bits.
    /// Cost: one pass over the bytes, and another one over each inline table, list and number that is looked at. A name
    /// that is not known is looked for in all keys, at most once for each of eight tiers and of the tables. Measured: at
    /// most some 14 bytes of memory for each byte of the text, and 21 if the allocator copies a buffer that grows.
    ///
    /// # Errors
    ///
    /// Reports the first of these faults. `NotToml` (70): the bytes are not a TOML document. `UnknownField` (73): the
    /// document has another field than the three, or one of the two tables is not a table (the first in byte order).
    /// `BadFrom` (75): `from` is not a text `YYYY-MM` from 1970-01 to 2099-12. `UnknownField` again: a table has a name
    /// that is not that of one of its classes (`storage` first, in the byte order of the names). Then, for `storage`
    /// and then `transition`, class by class from the warmest on: `MissingClass` (71): the table has nothing for the
    /// class. `BadTiers` (74): the value in `storage` is a list, but not of one to eight tables with a `price` and,
    /// except for the last, an `upto`. Each `upto` is a whole number from 1 to 2^32 - 1 above the one before it.
    /// `BadPrice` (72): a price is not a whole number from 0 to `MOST_PRICE`. `NoMemory`: memory ran out.
    pub fn read(alloc: Global, bytes: &[u8]) -> Result<Tariff, TariffFault>
        ensures exact { TariffGives (λ tariff. tariff) result (tariff_of bytes.now) }
    {
        let document = read_document(alloc, bytes)?;
        let tariff = read_tariff(alloc, &document)?;
        Ok(tariff)
    }
}

fn read_document(alloc: Global, bytes: &[u8]) -> Result<Keys<'_>, TariffFault>
    ensures { ReadsDocument bytes.now result }
{
    let Ok(text) = std::str::from_utf8(bytes) else {
        return Err(TariffFault::NotToml);
    };
    match toml_rows::read(alloc, text) {
        Ok(found) => match found {
            Some(keys) => Ok(keys),
            None => Err(TariffFault::NotToml),
        },
        Err(_) => Err(TariffFault::NoMemory),
    }
}

// Opens a table of the document.
fn open<'s>(alloc: Global, document: &Keys<'s>, name: &str) -> Result<Opened<'s>, AllocError>
    ensures { IfOk result (λ opened. (ms : Members) → IsTable 80 (row_of document.now) 0 ms
        → IsOpened (row_of document.now) opened (option_and_then as_table (get_member name.now ms))) }
{
    match document.get(0, name) {
        Some(found) => {
            let opened = open_found(alloc, found)?;
            Ok(opened)
        }
        None => {
            let empty = Keys::new(alloc)?;
            Ok(Opened::Missing(empty))
        }
    }
}

fn open_found<'s>(alloc: Global, found: Found<'s>) -> Result<Opened<'s>, AllocError>
    ensures { IfOk result (λ opened. (row : Row) (d : Data) → Says 80 row found.entry d
        → IsOpened row opened (as_table d)) }
{
    match found {
        Found::Table(table) => Ok(Opened::Inside(table)),
        Found::Value(text) => match inline(alloc, text, RECURSION_LIMIT)? {
            Some(keys) => Ok(Opened::Own(keys)),
            None => {
                let empty = Keys::new(alloc)?;
                Ok(Opened::Missing(empty))
            }
        },
        Found::Tables(_) => {
            let empty = Keys::new(alloc)?;
            Ok(Opened::Missing(empty))
        }
    }
}

fn is_there(opened: &Opened) -> bool
    ensures { result ≡ is_there opened.now }
{
    match opened {
        Opened::Missing(_) => false,
        _ => true,
    }
}

// Refuses a name that is none of these.
fn refuse_unknown(alloc: Global, keys: &Keys, table: u32, known: &[&str]) -> Result<(), TariffFault>
    ensures { (depth : ℕ) (ms : Members) → IsTable depth (row_of keys.now) table ms
        → TariffGives (λ _. ms) result (unless_other ms (first_unknown (knows known.now) ms)) }
{
    match keys.first_unknown(table, known) {
        Some(name) => unknown(alloc, name),
        None => Ok(()),
    }
}

// Refuses a field other than the two tables and the first month.
fn check_fields(
    alloc: Global,
    document: &Keys,
    storage: bool,
    transition: bool,
) -> Result<(), TariffFault>
    ensures { (ms : Members) → IsTable 80 (row_of document.now) 0 ms
        → storage ≡ is_some (option_and_then as_table (get_member (table_name TariffTable.Storage) ms))
        → transition ≡ is_some (option_and_then as_table (get_member (table_name TariffTable.Transition) ms))
        → TariffGives (λ _. ms) result (with_fields ms) }
{
    if storage {
        if transition {
            refuse_unknown(alloc, document, 0, &["from", "storage", "transition"])
        } else {
            refuse_unknown(alloc, document, 0, &["from", "storage"])
        }
    } else if transition {
        refuse_unknown(alloc, document, 0, &["from", "transition"])
    } else {
        refuse_unknown(alloc, document, 0, &["from"])
    }
}

// Refuses a name other than those of the table's classes.
fn check_classes(
    alloc: Global,
    table: TariffTable,
    keys: &Keys,
    number: u32,
) -> Result<(), TariffFault>
    ensures { (depth : ℕ) (ms : Members) → IsTable depth (row_of keys.now) number ms
        → TariffGives (λ _. ms) result (with_classes table ms) }
{
    match table {
        TariffTable::Storage => refuse_unknown(
            alloc,
            keys,
            number,
            &[
                "STANDARD",
                "STANDARD_IA",
                "ONEZONE_IA",
                "GLACIER_IR",
                "GLACIER",
                "DEEP_ARCHIVE",
            ],
        ),
        TariffTable::Transition => refuse_unknown(
            alloc,
            keys,
            number,
            &[
                "STANDARD_IA",
                "ONEZONE_IA",
                "GLACIER_IR",
                "GLACIER",
                "DEEP_ARCHIVE",
            ],
        ),
    }
}

// The month that a value says.
fn month_of(alloc: Global, found: Found) -> Result<Option<Month>, AllocError>
    ensures { IfOk result (λ month. (depth : ℕ) (row : Row) (d : Data) → Says depth row found.entry d
        → month ≡ month_said d) }
{
    match found {
        Found::Value(text) => month_in(alloc, text),
        _ => Ok(None),
    }
}

fn month_in(alloc: Global, text: &str) -> Result<Option<Month>, AllocError>
    ensures { IfOk result (λ month. (depth : ℕ) → month ≡ month_said (data_at depth text.now)) }
{
    match string(alloc, text)? {
        Some(text) => Ok(month_of_text(text.as_str())),
        None => Ok(None),
    }
}

fn month_of_text(text: &str) -> Option<Month>
    ensures { result ≡ month_said (string text.now) }
{
    match read_month(text) {
        Ok(month) => Some(month),
        Err(_) => None,
    }
}

// The first month.
fn read_from(alloc: Global, document: &Keys) -> Result<Month, TariffFault>
    ensures { (ms : Members) → IsTable 80 (row_of document.now) 0 ms
        → TariffGives (λ month. month) result (from_of (get_member from_name ms)) }
{
    match document.get(0, "from") {
        Some(found) => match month_of(alloc, found)? {
            Some(month) => Ok(month),
            None => Err(TariffFault::BadFrom),
        },
        None => Ok(Month::numbered(0)),
    }
}

impl TariffTable {
    // The classes for which the table has a price, from the warmest on.
    fn classes(self) -> &'static [Class]
        ensures { result.now ≡ classes_of self }
    {
        match self {
            TariffTable::Storage => &STORED_IN,
            TariffTable::Transition => &STORED_IN[1..],
        }
    }
}

// The price that a table has for a class.
fn read_price(
    alloc: Global,
    table: TariffTable,
    keys: &Keys,
    number: u32,
    class: Class,
) -> Result<u32, TariffFault>
    ensures value { (depth : ℕ) (ms : Members) → IsTable depth (row_of keys.now) number ms
        → TariffGives (λ price. price) result (price_in table ms class) }
    ensures range { IfOk result (λ price. is_price price ≡ true) }
{
    match keys.get(number, class.name()) {
        Some(found) => match price_of(alloc, found)? {
            Some(price) => Ok(price),
            None => Err(TariffFault::BadPrice { table, class }),
        },
        None => Err(TariffFault::MissingClass { table, class }),
    }
}

// Reads the prices of a table's classes into `prices`.
fn read_prices(
    alloc: Global,
    table: TariffTable,
    keys: &Keys,
    number: u32,
    prices: &mut [u32],
) -> Result<(), TariffFault>
    requires { length prices.old ≡ length (classes_of table) }
    ensures value { (depth : ℕ) (ms : Members) → IsTable depth (row_of keys.now) number ms
        → TariffGives (λ _. prices.new) result (each_of (price_in table ms) (classes_of table)) }
    ensures range { list_all is_price prices.old ≡ true → list_all is_price prices.new ≡ true }
{
    for (place, class) in table.classes().iter().enumerate() {
        prices[place] = read_price(alloc, table, keys, number, *class)?;
    }
    Ok(())
}

// The tiers that the storage table has for a class.
fn read_tiers(
    alloc: Global,
    keys: &Keys,
    number: u32,
    depth: usize,
    class: Class,
) -> Result<Tiers, TariffFault>
    ensures { (ms : Members) → IsTable depth (row_of keys.now) number ms
        → TariffGives (λ tiers. tiers) result (tiers_in ms class) }
{
    match keys.get(number, class.name()) {
        Some(found) => {
            let tiers = tiers_of(alloc, class, keys, found, depth)?;
            Ok(tiers)
        }
        None => Err(TariffFault::MissingClass {
            table: TariffTable::Storage,
            class,
        }),
    }
}

// Reads the tiers that the storage table has for each class.
fn read_storage(
    alloc: Global,
    keys: &Keys,
    number: u32,
    depth: usize,
) -> Result<[Tiers; 6], TariffFault>
    ensures { (ms : Members) → IsTable depth (row_of keys.now) number ms
        → TariffGives (λ tiers. tiers) result (each_of (tiers_in ms) (classes_of TariffTable.Storage)) }
{
    let standard = read_tiers(alloc, keys, number, depth, Class::Standard)?;
    let standard_ia = read_tiers(alloc, keys, number, depth, Class::StandardIa)?;
    let onezone_ia = read_tiers(alloc, keys, number, depth, Class::OnezoneIa)?;
    let glacier_ir = read_tiers(alloc, keys, number, depth, Class::GlacierIr)?;
    let glacier = read_tiers(alloc, keys, number, depth, Class::Glacier)?;
    let deep_archive = read_tiers(alloc, keys, number, depth, Class::DeepArchive)?;
    Ok([
        standard,
        standard_ia,
        onezone_ia,
        glacier_ir,
        glacier,
        deep_archive,
    ])
}

// The same of a table that was opened.
fn check_opened(
    alloc: Global,
    table: TariffTable,
    document: &Keys,
    opened: &Opened,
) -> Result<(), TariffFault>
    ensures { (o : Option Members) → IsOpened (row_of document.now) opened.now o
        → TariffGives (λ _. unwrap_or o no_members) result (with_classes table (unwrap_or o no_members)) }
{
    match opened {
        Opened::Inside(number) => check_classes(alloc, table, document, *number),
        Opened::Own(keys) => check_classes(alloc, table, keys, 0),
        Opened::Missing(keys) => check_classes(alloc, table, keys, 0),
    }
}

fn storage_opened(
    alloc: Global,
    document: &Keys,
    opened: &Opened,
) -> Result<[Tiers; 6], TariffFault>
    ensures { (o : Option Members) → IsOpened (row_of document.now) opened.now o
        → TariffGives (λ tiers. tiers) result (each_of (tiers_in (unwrap_or o no_members))
        (classes_of TariffTable.Storage)) }
{
    match opened {
        Opened::Inside(number) => read_storage(alloc, document, *number, RECURSION_LIMIT),
        Opened::Own(keys) => read_storage(alloc, keys, 0, RECURSION_LIMIT - 1),
        Opened::Missing(keys) => read_storage(alloc, keys, 0, RECURSION_LIMIT - 1),
    }
}

fn prices_opened(
    alloc: Global,
    table: TariffTable,
    document: &Keys,
    opened: &Opened,
    prices: &mut [u32],
) -> Result<(), TariffFault>
    requires { length prices.old ≡ length (classes_of table) }
    ensures value { (o : Option Members) → IsOpened (row_of document.now) opened.now o
        → TariffGives (λ _. prices.new) result (each_of (price_in table (unwrap_or o no_members)) (classes_of table)) }
    ensures range { list_all is_price prices.old ≡ true → list_all is_price prices.new ≡ true }
{
    match opened {
        Opened::Inside(number) => {
            read_prices(alloc, table, document, *number, prices)?;
            Ok(())
        }
        Opened::Own(keys) => {
            read_prices(alloc, table, keys, 0, prices)?;
            Ok(())
        }
        Opened::Missing(keys) => {
            read_prices(alloc, table, keys, 0, prices)?;
            Ok(())
        }
    }
}

// The tariff of a document.
fn read_tariff(alloc: Global, document: &Keys) -> Result<Tariff, TariffFault>
    ensures { (ms : Members) → IsTable 80 (row_of document.now) 0 ms
        → TariffGives (λ tariff. tariff) result (tariff_in ms) }
{
    let storage = open(alloc, document, "storage")?;
    let transition = open(alloc, document, "transition")?;
    check_fields(alloc, document, is_there(&storage), is_there(&transition))?;
    let from = read_from(alloc, document)?;
    check_opened(alloc, TariffTable::Storage, document, &storage)?;
    check_opened(alloc, TariffTable::Transition, document, &transition)?;
    let stored = storage_opened(alloc, document, &storage)?;
    let mut moved = [0; 5];
    prices_opened(
        alloc,
        TariffTable::Transition,
        document,
        &transition,
        &mut moved,
    )?;
    Ok(Tariff {
        from,
        storage: stored,
        transition: moved,
    })
}
