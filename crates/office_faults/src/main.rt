//! Does the tables of a TOML document over the program, each on disks in memory that fail, stop or are damaged, and
//! prints what came of it.
#![tactic(auto)]

mod damage;
mod faults;
mod sessions;
mod stops;

use crate::damage::tell_damage;
use crate::faults::tell_faults;
use crate::stops::tell_stops;
use anyhow::{Context, Result, bail};
use case_table::read_document;
use fault_table::{Document, Table, plan_of};
use std::alloc::Global;
use std::io;
use std::process::ExitCode;
use std::sync::Wait;
use std::thread::Threads;

// Does a table, and gives what is printed of it.
fn tell_table<R: Threads + Wait + Sync>(rt: &R, alloc: Global, table: &Table) -> Result<String> {
    let mut page = format!(in alloc; "case: {}\n", table.name)?;
    let plan = plan_of(alloc, table)?;
    match table.does.as_str() {
        "damage" => tell_damage(rt, alloc, &mut page, table, &plan)?,
        "stops" => tell_stops(rt, alloc, &mut page, table, &plan)?,
        "faults" => tell_faults(rt, alloc, &mut page, table, &plan)?,
        other => bail!("{other} is not done"),
    }
    Ok(page)
}

// Prints each table of the document, in order.
fn print_tables<R: Threads + Wait + Sync + Print>(rt: &R, alloc: Global, text: &str) -> Result<()> {
    let document: Document = read_document(alloc, text)?;
    for table in &document.table {
        let page = tell_table(rt, alloc, table).context(format_args!("table {:?}", table.name))?;
        rt.print(page)?;
    }
    Ok(())
}

fn main(rt: HostRuntime) -> ExitCode {
    let alloc = rt.alloc();
    let printed = match io::read_to_string(alloc, rt.stdin()) {
        Ok(text) => print_tables(&rt, alloc, text.as_str()),
        Err(e) => Err(e.into()),
    };
    match printed {
        Ok(()) => ExitCode::from(0),
        Err(e) => {
            let _ = eprintln!(rt; "office_faults: {e:#}");
            ExitCode::from(1)
        }
    }
}
