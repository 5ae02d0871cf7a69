//! Runs the cases of a TOML document over the program, each on a disk in memory, and prints what the program did.
#![tactic(auto)]

mod doing;

use crate::doing::tell_case;
use anyhow::{Context, Result};
use case_table::{Document, read_document};
use std::alloc::Global;
use std::io;
use std::process::ExitCode;
use std::sync::Wait;
use std::thread::Threads;

// Prints each case of the document, in order.
fn print_cases<R: Threads + Wait + Sync + Print>(rt: &R, alloc: Global, text: &str) -> Result<()> {
    let document: Document = read_document(alloc, text)?;
    for case in &document.case {
        let page = tell_case(rt, alloc, case).context(format_args!("case {:?}", case.name))?;
        rt.print(page)?;
    }
    Ok(())
}

fn main(rt: HostRuntime) -> ExitCode {
    let alloc = rt.alloc();
    let printed = match io::read_to_string(alloc, rt.stdin()) {
        Ok(text) => print_cases(&rt, alloc, text.as_str()),
        Err(e) => Err(e.into()),
    };
    match printed {
        Ok(()) => ExitCode::from(0),
        Err(e) => {
            let _ = eprintln!(rt; "office_cases: {e:#}");
            ExitCode::from(1)
        }
    }
}
