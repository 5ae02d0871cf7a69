// The pages of the table. A page has the stays of some buckets that follow one another, and one worker prints it.
ghost use Rattle.std.specs.Prelude.{◌≡◌, ◌≤◌, ◌++◌, ◌∷◌, [], IfOk, OnOk};
ghost use Rattle.stay_explain.specs.Pages.{tables_of};
ghost use Rattle.stay_explain.specs.Table.{tables_csv};

use crate::printing::page_text;
use crate::row::Row;
use crate::stays::Stays;
use crate::table::Table;
use office_base::{BucketName, NoMemory};
use std::alloc::Global;
use std::collections::BTreeMap;
use std::marker::Model;
use std::mem;

/// A page: the tables of some buckets that follow one another, and their text with a header once it is printed.
#[derive(Drop)]
pub(crate) struct Page<'a> {
    tables: Vec<Table<'a>>,
    // `None` before the page is printed, or if memory ran out.
    text: Option<Vec<u8>>,
}

impl<'a> Model for Page<'a> {
    ghost use Rattle.std.specs.Prelude.{◌≡◌, IfSome};
    ghost use Rattle.stay_explain.specs.Ledgers.{Tables};
    ghost use Rattle.stay_explain.specs.Table.{tables_csv};

    ghost Value = { Tables };

    ghost view = { λ p. p.tables.items };

    ghost invariant = { λ p. IfSome p.text (λ text. text.items ≡ tables_csv p.tables.items) };
}

impl<'a> Page<'a> {
    fn new(tables: Vec<Table<'a>>) -> Page<'a>
        ensures { result ≡ tables.entry.items }
    {
        Page { tables, text: None }
    }

    /// Prints the header and the rows of the tables.
    pub(crate) fn print(&mut self, alloc: Global)
        ensures { self.new ≡ self.old }
    {
        self.text = page_text(alloc, &self.tables).ok();
    }

    /// Reads the text of a page that was printed.
    ///
    /// # Errors
    ///
    /// `NoMemory`: memory ran out when it was printed.
    pub(crate) fn text(&self) -> Result<&[u8], NoMemory>
        ensures { IfOk result (λ text. text.now ≡ tables_csv self.now) }
    {
        match &self.text {
            Some(text) => Ok(text.as_slice()),
            None => Err(NoMemory),
        }
    }

    /// Gives the text of a page that was printed.
    ///
    /// # Errors
    ///
    /// `NoMemory`: memory ran out when it was printed.
    pub(crate) fn into_text(self) -> Result<Vec<u8>, NoMemory>
        ensures { IfOk result (λ text. text.items ≡ tables_csv self.entry) }
    {
        let Page { text, .. } = self;
        match text {
            Some(text) => Ok(text),
            None => Err(NoMemory),
        }
    }

    /// Counts the bytes of the text; 0 if there is none.
    pub(crate) fn size(&self) -> usize {
        match &self.text {
            Some(text) => text.len(),
            None => 0,
        }
    }
}

/// How much of a worker's time a table costs: one for each stay, and one for the bucket.
fn weight(rows: &[Row]) -> usize {
    rows.len().saturating_add(1)
}

/// Pages that are filled one after another.
#[derive(Drop)]
struct Filling<'a> {
    pages: Vec<Page<'a>>,
    // The tables on the page that is being filled, and its weight.
    tables: Vec<Table<'a>>,
    weight: usize,
}

impl<'a> Model for Filling<'a> {
    ghost use Rattle.std.specs.Prelude.{◌++◌};
    ghost use Rattle.stay_explain.specs.Ledgers.{Tables};
    ghost use Rattle.stay_explain.specs.Pages.{tables_of};

    ghost Value = { Tables };

    ghost view = { λ f. tables_of f.pages.items ++ f.tables.items };
}

impl<'a> Filling<'a> {
    fn new(alloc: Global) -> Filling<'a>
        ensures { result ≡ [] }
    {
        Filling {
            pages: Vec::new(alloc),
            tables: Vec::new(alloc),
            weight: 0,
        }
    }

    // Ends the page that is being filled.
    fn end_page(&mut self, alloc: Global) -> Result<(), NoMemory>
        ensures { OnOk result (self.new ≡ self.old) }
    {
        let tables = mem::replace(&mut self.tables, Vec::new(alloc));
        self.weight = 0;
        Ok(self.pages.push(Page::new(tables))?)
    }

    // Adds a table; on a new page if the one that is being filled has this weight.
    fn add(&mut self, alloc: Global, table: Table<'a>, limit: usize) -> Result<(), NoMemory>
        ensures { OnOk result (self.new ≡ self.old ++ table.entry ∷ []) }
    {
        if self.weight >= limit {
            self.end_page(alloc)?;
        }
        self.weight = self.weight.saturating_add(weight(table.rows));
        Ok(self.tables.push(table)?)
    }

    // Returns the pages, with the one that is being filled.
    fn finish(self) -> Result<Vec<Page<'a>>, NoMemory>
        ensures { IfOk result (λ pages. tables_of pages.items ≡ self.entry) }
    {
        let Filling {
            mut pages,
            tables,
            ..
        } = self;
        pages.push(Page::new(tables))?;
        Ok(pages)
    }
}

/// The weight that a page of these tables needs, so that there are no more pages than workers.
fn limit(tables: &BTreeMap<BucketName, Stays>, workers: u32) -> usize
    requires { 1 ≤ workers }
{
    let whole = tables.values().fold(
        0,
        |sum: usize, stays| sum.saturating_add(weight(stays.rows())),
    );
    whole.div_ceil(workers as usize)
}

/// Divides the tables into pages with about the same number of stays, no more pages than workers. No table is divided.
pub(crate) fn divide(
    alloc: Global,
    tables: &BTreeMap<BucketName, Stays>,
    workers: u32,
) -> Result<Vec<Page<'_>>, NoMemory>
    requires { 1 ≤ workers }
    ensures { IfOk result (λ pages. tables_of pages.items ≡ tables.now.entries) }
{
    let limit = limit(tables, workers);
    let mut pages = Filling::new(alloc);
    for (bucket, stays) in tables.iter() {
        let rows = stays.rows();
        pages.add(alloc, Table { bucket, rows }, limit)?;
    }
    pages.finish()
}
