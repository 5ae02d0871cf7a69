// How texts and replies are printed.
use anyhow::Result;
use std::alloc::{AllocError, Global};
use std::fmt::Write;

/// Adds the lines of a text, each after an indent. A last line without a line end gets one.
pub fn put_lines(page: &mut String, indent: &str, text: &str) -> Result<(), AllocError> {
    for line in text.split_inclusive("\n") {
        page.push_str(indent)?;
        page.push_str(line)?;
    }
    if !text.is_empty() && !text.ends_with("\n") {
        page.push_str("\n")?;
    }
    Ok(())
}

/// Adds the lines of a text that occurs this often, with the count if it is not 1.
pub fn put_times(page: &mut String, times: u64, text: &str) -> Result<(), AllocError> {
    match times {
        0 => Ok(()),
        1 => put_lines(page, "    ", text),
        _ => {
            writeln!(page, "    {times} times")?;
            put_lines(page, "      ", text)
        }
    }
}

/// A reply of HTTP at the front of a text.
#[derive(Drop)]
struct FirstReply<'a> {
    status: &'a str,
    media: &'a str,
    /// The number of the body's bytes, as the head gives it.
    length: &'a str,
    body: &'a str,
    rest: &'a str,
}

// The reply at the front, if its head has these two fields and no other, and the body is whole.
fn first_reply(said: &str) -> Option<FirstReply<'_>> {
    let (head, rest) = said.split_once("\r\n\r\n")?;
    let (status, fields) = head
        .strip_prefix("HTTP/1.1 ")?
        .split_once("\r\ncontent-type: ")?;
    let (media, length) = fields.split_once("\r\ncontent-length: ")?;
    let (body, rest) = rest.split_at_checked(length.parse::<usize>().ok()?)?;
    Some(FirstReply {
        status,
        media,
        length,
        body,
        rest,
    })
}

/// Adds bytes that were written, with a line that has their number; nothing if there are none.
pub fn put_bytes(
    page: &mut String,
    alloc: Global,
    what: &str,
    bytes: &[u8],
) -> Result<(), AllocError> {
    if bytes.is_empty() {
        return Ok(());
    }
    writeln!(page, "{what}, {} bytes", bytes.len())?;
    match str::from_utf8(bytes) {
        Ok(text) => put_lines(page, "  ", text),
        Err(_) => put_lines(page, "  ", hex::encode(alloc, bytes)?.as_str()),
    }
}

/// Returns the status, the media type and length, and the body of each reply. Bytes that are not a reply come last, as
/// they are.
pub fn tell_replies(alloc: Global, said: &[u8]) -> Result<Vec<String>, AllocError> {
    let mut replies = Vec::new(alloc);
    let mut rest = str::from_utf8(said).unwrap_or("");
    for _ in 0..said.len() {
        let Some(reply) = first_reply(rest) else {
            break;
        };
        let FirstReply {
            status,
            media,
            length,
            ..
        } = reply;
        let mut told = format!(in alloc; "{status}, {media}, {length} bytes\n")?;
        put_lines(&mut told, "  ", reply.body)?;
        replies.push(told)?;
        rest = reply.rest;
    }
    let others = match str::from_utf8(said) {
        Ok(_) => rest.as_bytes(),
        Err(_) => said,
    };
    if !others.is_empty() {
        let mut told = String::new(alloc);
        put_bytes(&mut told, alloc, "no reply", others)?;
        replies.push(told)?;
    }
    Ok(replies)
}

/// Adds replies. Equal replies right after one another are added once, with their count. If they are numbered, from
/// the first number on, each has `{n}` in place of its own number.
pub fn put_counted(
    page: &mut String,
    alloc: Global,
    numbered: bool,
    first: u64,
    replies: &[String],
) -> Result<()> {
    let mut last = String::new(alloc);
    let mut times = 0u64;
    for (place, reply) in replies.iter().enumerate() {
        let told = if numbered {
            let number = format!(in alloc; "{}", first.saturating_add(place as u64))?;
            reply.as_str().replace(alloc, number.as_str(), "{n}")?
        } else {
            reply.clone()?
        };
        if told != last {
            put_times(page, times, last.as_str())?;
            last = told;
            times = 0;
        }
        times = times.saturating_add(1);
    }
    put_times(page, times, last.as_str())?;
    Ok(())
}
