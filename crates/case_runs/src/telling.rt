// How the outputs of the program are printed.
use crate::Ran;
use case_table::{put_bytes, put_lines, tell_replies};
use std::alloc::{AllocError, Global};
use std::fmt::Write;

// Adds the lines of these replies, each after an indent.
fn put_replies(page: &mut String, replies: &[String]) -> Result<(), AllocError> {
    for reply in replies {
        put_lines(page, "  ", reply.as_str())?;
    }
    Ok(())
}

// Adds what was written on each connection.
fn put_connections(page: &mut String, alloc: Global, ran: &Ran) -> Result<(), AllocError> {
    for nth in 1..u64::MAX {
        let Some(said) = ran.port.said(nth) else {
            return Ok(());
        };
        writeln!(page, "connection {nth}")?;
        let replies = tell_replies(alloc, said)?;
        let put = put_replies(page, &replies);
        drop(replies);
        put?;
    }
    Ok(())
}

/// Returns what a command did apart from its replies: its status, texts, connections and notes.
pub fn tell_others(alloc: Global, ran: &Ran) -> Result<String, AllocError> {
    let mut page = format!(in alloc; "status {}\n", ran.status)?;
    put_bytes(&mut page, alloc, "text", ran.out.texts())?;
    put_connections(&mut page, alloc, ran)?;
    put_bytes(&mut page, alloc, "noted", ran.out.notes())?;
    Ok(page)
}

/// Returns everything that a command did.
pub fn tell(alloc: Global, ran: &Ran) -> Result<String, AllocError> {
    let mut page = String::new(alloc);
    for reply in &tell_replies(alloc, ran.out.said())? {
        page.push_str(reply.as_str())?;
    }
    page.push_str(tell_others(alloc, ran)?.as_str())?;
    Ok(page)
}
