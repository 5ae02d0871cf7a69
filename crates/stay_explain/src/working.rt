// Prints the table with threads.
ghost use Rattle.std.specs.Prelude.{◌≡◌, ◌≤◌, ◌++◌, IfOk, OnOk};
ghost use Rattle.csv.specs.Writing.{default_writer, row_text};
ghost use Rattle.stay_explain.specs.Pages.{rows_csv, tables_of};
ghost use Rattle.stay_explain.specs.Table.{stays_header, tables_csv};

use crate::pages::{Page, divide};
use crate::printing::header_text;
use crate::stays::Stays;
use office_base::{BucketName, NoMemory};
use std::alloc::Global;
use std::collections::BTreeMap;
use std::thread;
use std::thread::Threads;

/// Prints the pages, in at most this many threads.
fn print_all<R: Threads + Sync>(rt: &R, alloc: Global, pages: &mut [Page<'_>], workers: u32)
    requires { 1 ≤ workers }
    ensures { pages.new ≡ pages.old }
{
    let threads = workers as usize;
    thread::for_each_mut(rt, pages, threads, &|_, page| page.print(alloc));
}

/// How many bytes the texts of these pages have together.
fn size_of(pages: &[Page<'_>]) -> usize {
    pages
        .iter()
        .fold(0, |sum: usize, page| sum.saturating_add(page.size()))
}

/// Adds the rows of these pages, which have this header, to a text.
fn add_rows(text: &mut Vec<u8>, header: &[u8], pages: &[Page<'_>]) -> Result<(), NoMemory>
    requires { header.now ≡ row_text default_writer stays_header }
    ensures { OnOk result (text.new.items ≡ text.old.items ++ rows_csv (tables_of pages.now)) }
{
    for page in pages {
        let table = page.text()?;
        let (_, rows) = table.split_at(header.len());
        if text.extend_from_slice(rows).is_err() {
            return Err(NoMemory);
        }
    }
    Ok(())
}

/// Joins the pages in their order, under one header. The text of the first page is taken over, and the memory for the
/// others is taken at once.
fn bind(alloc: Global, mut pages: Vec<Page<'_>>) -> Result<Vec<u8>, NoMemory>
    ensures { IfOk result (λ text. text.items ≡ tables_csv (tables_of pages.entry.items)) }
{
    let header = header_text(alloc)?;
    if pages.is_empty() {
        return Ok(header);
    }
    let first = pages.remove(0);
    let mut text = first.into_text()?;
    text.reserve_exact(size_of(&pages))?;
    add_rows(&mut text, &header, &pages)?;
    Ok(text)
}

/// Writes the header and the stays of each bucket. At most this many threads print the buckets. If one is enough, or no
/// more can be made, the caller's thread prints them.
pub(crate) fn table_text<R: Threads + Sync>(
    rt: &R,
    alloc: Global,
    tables: &BTreeMap<BucketName, Stays>,
    workers: u32,
) -> Result<Vec<u8>, NoMemory>
    requires { 1 ≤ workers }
    ensures { IfOk result (λ text. text.items ≡ tables_csv tables.now.entries) }
{
    let mut pages = divide(alloc, tables, workers)?;
    print_all(rt, alloc, pages.as_mut_slice(), workers);
    bind(alloc, pages)
}
