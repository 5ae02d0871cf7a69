// What is printed in brief of a session.
use anyhow::Result;
use case_table::tell_replies;
use std::alloc::{AllocError, Global};

// The word for a reply that is known, or the reply itself: the number of its status, and its body.
fn word_of(alloc: Global, known: &[Vec<String>], reply: &str) -> Result<String, AllocError> {
    let (head, body) = reply.split_once("\n").unwrap_or((reply, ""));
    let (number, _) = head.split_once(" ").unwrap_or((head, ""));
    let text = format!(in alloc; "{number} {}", body.trim())?;
    for pair in known {
        if let [word, reply] = pair.as_slice() {
            if *reply == text {
                return word.clone();
            }
        }
    }
    Ok(text)
}

/// The replies and notes of a session and its exit code, in one line.
pub fn brief_of(
    alloc: Global,
    known: &[Vec<String>],
    said: &[u8],
    notes: &[u8],
    status: u8,
) -> Result<String> {
    let mut line = String::new(alloc);
    for reply in &tell_replies(alloc, said)? {
        line.push_str(word_of(alloc, known, reply.as_str())?.as_str())?;
        line.push_str(", ")?;
    }
    let end = format!(in alloc; "{status}")?;
    line.push_str(end.as_str())?;
    let note = str::from_utf8(notes).unwrap_or("no text").trim();
    if !note.is_empty() {
        line.push_str(" ")?;
        line.push_str(note)?;
    }
    Ok(line)
}
