// Reading the prices and the tiers of a class.
ghost use Rattle.std.specs.Prelude.{◌≡◌, ℕ, true, IfOk, IfSome, Option, codes};
ghost use Rattle.toml.specs.Data.{Data, Items, Members, array, as_integer, get_member};
ghost use Rattle.toml.specs.Tables.{Nodes};
ghost use Rattle.toml_rows.specs.Rows.{row_of, Row};
ghost use Rattle.toml_rows.specs.Reading.{data_at, Holds};
ghost use Rattle.toml_rows.specs.Documents.{IsTable};
ghost use Rattle.toml_rows.specs.Walking.{Says, Finds, IsArray, items_of, data_of_all, tables_of};
ghost use Rattle.tariff.specs.Faults.{TariffGives};
ghost use Rattle.tariff.specs.Opened.{price_by, upto_by, one_at};
ghost use Rattle.tariff.specs.Prices.{is_price};
ghost use Rattle.tariff.specs.Reading.{price_of, upto_of, end_said, tier_by, tier_among, tier_said, tiers_said, in_range, tiers_of};

use crate::fault::{TariffFault, TariffTable};
use crate::prices::MOST_PRICE;
use crate::tiers::{MOST_TIERS, Tier, Tiers, have_ends};
use class_rules::Class;
use std::alloc::{AllocError, Global};
use toml_rows::{Found, Keys, elements, inline, integer};

// The integer that a value is.
fn integer_in(alloc: Global, found: Found) -> Result<Option<i64>, AllocError>
    ensures { IfOk result (λ n. (depth : ℕ) (row : Row) (d : Data) → Says depth row found.entry d → n ≡ as_integer d) }
{
    match found {
        Found::Value(text) => {
            let number = integer(alloc, text)?;
            Ok(number)
        }
        _ => Ok(None),
    }
}

fn price_by(number: Option<i64>) -> Option<u32>
    ensures { result ≡ price_by number }
{
    match number {
        Some(number) => {
            if number < 0 || number > MOST_PRICE as i64 {
                None
            } else {
                Some(number as u32)
            }
        }
        None => None,
    }
}

// The price that a value is.
#[tactic(auto, using(crate::proofs::ValueReading::price_in_range))]
pub(crate) fn price_of(alloc: Global, found: Found) -> Result<Option<u32>, AllocError>
    ensures value { IfOk result (λ price. (depth : ℕ) (row : Row) (d : Data) → Says depth row found.entry d
        → price ≡ price_of d) }
    ensures range { IfOk result (λ price. IfSome price (λ p. is_price p ≡ true)) }
{
    let number = integer_in(alloc, found)?;
    Ok(price_by(number))
}

fn upto_by(number: Option<i64>) -> Option<u32>
    ensures { result ≡ upto_by number }
{
    match number {
        Some(number) => {
            if number < 1 || number > 4_294_967_295 {
                None
            } else {
                Some(number as u32)
            }
        }
        None => None,
    }
}

// The end of a tier that a value is.
fn upto_of(alloc: Global, found: Found) -> Result<Option<u32>, AllocError>
    ensures { IfOk result (λ upto. (depth : ℕ) (row : Row) (d : Data) → Says depth row found.entry d
        → upto ≡ upto_of d) }
{
    let number = integer_in(alloc, found)?;
    Ok(upto_by(number))
}

// The optional end of a tier; None if the value is invalid.
fn end_said(alloc: Global, found: Option<Found>) -> Result<Option<Option<u32>>, AllocError>
    ensures { IfOk result (λ end. (depth : ℕ) (row : Row) (o : Option Data) → Finds depth row found.entry o
        → end ≡ end_said o) }
{
    match found {
        Some(found) => match upto_of(alloc, found)? {
            Some(upto) => Ok(Some(Some(upto))),
            None => Ok(None),
        },
        None => Ok(Some(None)),
    }
}

// A tier, given its price and its optional end.
fn tier_by(
    alloc: Global,
    price: Option<Found>,
    end: Option<Option<u32>>,
) -> Result<Option<Tier>, AllocError>
    ensures { IfOk result (λ tier. (depth : ℕ) (row : Row) (o : Option Data) → Finds depth row price.entry o
        → tier ≡ tier_by o end) }
{
    let Some(found) = price else {
        return Ok(None);
    };
    let Some(upto) = end else {
        return Ok(None);
    };
    let price = price_of(alloc, found)?;
    Ok(Some(Tier {
        upto,
        price: price.unwrap_or(MOST_PRICE + 1),
    }))
}

// The tier that a table says.
fn tier_among(alloc: Global, keys: &Keys, table: u32) -> Result<Option<Tier>, AllocError>
    ensures { IfOk result (λ tier. (depth : ℕ) (ms : Members) → IsTable depth (row_of keys.now) table ms
        → tier ≡ tier_among ms) }
{
    match keys.first_unknown(table, &["price", "upto"]) {
        Some(_) => Ok(None),
        None => {
            let tier = known_tier(alloc, keys, table)?;
            Ok(tier)
        }
    }
}

fn known_tier(alloc: Global, keys: &Keys, table: u32) -> Result<Option<Tier>, AllocError>
    ensures { IfOk result (λ tier. (depth : ℕ) (ms : Members) → IsTable depth (row_of keys.now) table ms
        → tier ≡ tier_by (get_member (codes "price") ms) (end_said (get_member (codes "upto") ms))) }
{
    let price = keys.get(table, "price");
    let upto = keys.get(table, "upto");
    let end = end_said(alloc, upto)?;
    let tier = tier_by(alloc, price, end)?;
    Ok(tier)
}

// The tier that an element of a list says.
fn tier_said(alloc: Global, text: &str, depth: usize) -> Result<Option<Tier>, AllocError>
    ensures { IfOk result (λ tier. tier ≡ tier_said (data_at depth text.now)) }
{
    match inline(alloc, text, depth)? {
        Some(keys) => {
            let tier = tier_among(alloc, &keys, 0)?;
            Ok(tier)
        }
        None => Ok(None),
    }
}

// The tiers that a list says; their ends and prices are not checked yet.
fn tiers_in_list(
    alloc: Global,
    class: Class,
    texts: &[&str],
    depth: usize,
) -> Result<Vec<Tier>, TariffFault>
    ensures { TariffGives (λ tiers. tiers.items) result (tiers_said class (items_of (data_of_all depth texts.now))) }
{
    let mut tiers = Vec::new(alloc);
    for text in texts {
        let said = tier_said(alloc, text, depth)?;
        let Some(tier) = said else {
            return Err(TariffFault::BadTiers { class });
        };
        if tiers.push(tier).is_err() {
            return Err(TariffFault::NoMemory);
        }
    }
    Ok(tiers)
}

// The same of an array of tables.
fn tiers_in_tables(
    alloc: Global,
    class: Class,
    keys: &Keys,
    numbers: &[u32],
) -> Result<Vec<Tier>, TariffFault>
    ensures { (depth : ℕ) (tables : ℕ → Nodes) (before : ℕ → Items) → Holds depth (row_of keys.now) tables before
        → TariffGives (λ tiers. tiers.items) result (tiers_said class (items_of (tables_of tables numbers.now))) }
{
    let mut tiers = Vec::new(alloc);
    for number in numbers {
        let said = tier_among(alloc, keys, *number)?;
        let Some(tier) = said else {
            return Err(TariffFault::BadTiers { class });
        };
        if tiers.push(tier).is_err() {
            return Err(TariffFault::NoMemory);
        }
    }
    Ok(tiers)
}

// The tiers of a class, if they are valid.
fn in_range(class: Class, tiers: Vec<Tier>) -> Result<Tiers, TariffFault>
    ensures { TariffGives (λ tiers. tiers) result (in_range class tiers.items) }
{
    if !have_ends(&tiers) {
        return Err(TariffFault::BadTiers { class });
    }
    match Tiers::of(tiers) {
        Some(tiers) => Ok(tiers),
        None => Err(TariffFault::BadPrice {
            table: TariffTable::Storage,
            class,
        }),
    }
}

// One tier with the price that an integer is.
#[tactic(auto, using(crate::proofs::ValueReading::price_in_range))]
fn one_of(class: Class, number: Option<i64>) -> Result<Tiers, TariffFault>
    ensures { TariffGives (λ tiers. tiers) result (one_at class (price_by number)) }
{
    match price_by(number) {
        Some(price) => match Tiers::one(price) {
            Some(tiers) => Ok(tiers),
            None => Err(TariffFault::BadPrice {
                table: TariffTable::Storage,
                class,
            }),
        },
        None => Err(TariffFault::BadPrice {
            table: TariffTable::Storage,
            class,
        }),
    }
}

// The tiers that the text of a value says for a class. No more elements are looked at than there may be tiers.
fn tiers_of_text(
    alloc: Global,
    class: Class,
    text: &str,
    depth: usize,
) -> Result<Tiers, TariffFault>
    ensures { TariffGives (λ tiers. tiers) result (tiers_of class (data_at depth text.now)) }
{
    match elements(alloc, text, depth)? {
        Some(texts) => {
            if texts.len() > MOST_TIERS {
                return Err(TariffFault::BadTiers { class });
            }
            let tiers = tiers_in_list(alloc, class, &texts, depth.saturating_sub(1))?;
            in_range(class, tiers)
        }
        None => {
            let number = integer(alloc, text)?;
            one_of(class, number)
        }
    }
}

// The tiers that an array of tables says for a class. No more tables are looked at than there may be tiers.
fn tiers_of_tables(
    alloc: Global,
    class: Class,
    keys: &Keys,
    last: u32,
) -> Result<Tiers, TariffFault>
    ensures { (depth : ℕ) (ds : Items) → IsArray depth (row_of keys.now) last ds
        → TariffGives (λ tiers. tiers) result (tiers_of class (array ds)) }
{
    let numbers = keys.elements_of(alloc, last)?;
    if numbers.len() > MOST_TIERS {
        return Err(TariffFault::BadTiers { class });
    }
    let tiers = tiers_in_tables(alloc, class, keys, &numbers)?;
    in_range(class, tiers)
}

// The tiers that a value says for a class.
pub(crate) fn tiers_of(
    alloc: Global,
    class: Class,
    keys: &Keys,
    found: Found,
    depth: usize,
) -> Result<Tiers, TariffFault>
    ensures { (d : Data) → Says depth (row_of keys.now) found.entry d
        → TariffGives (λ tiers. tiers) result (tiers_of class d) }
{
    match found {
        Found::Value(text) => {
            let tiers = tiers_of_text(alloc, class, text, depth)?;
            Ok(tiers)
        }
        Found::Tables(last) => {
            let tiers = tiers_of_tables(alloc, class, keys, last)?;
            Ok(tiers)
        }
        Found::Table(_) => Err(TariffFault::BadPrice {
            table: TariffTable::Storage,
            class,
        }),
    }
}
