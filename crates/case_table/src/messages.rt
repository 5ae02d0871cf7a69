// The messages of a session.
use crate::cases::Step;
use anyhow::Result;
use std::alloc::{AllocError, Global};

// The message of a step for a number, as a client sends it.
fn message_of(alloc: Global, step: &Step, number: &str) -> Result<String> {
    let ask = step.ask.as_str().replace(alloc, "{n}", number)?;
    let body = match &step.body {
        Some(body) => body.as_str().replace(alloc, "{n}", number)?,
        None => String::new(alloc),
    };
    let length = body.len();
    let field = token_field(alloc, step, number)?;
    let text = format!(in alloc;
        "{ask} HTTP/1.1\r\nHost: x\r\n{field}Content-Length: {length}\r\n\r\n{body}"
    )?;
    Ok(text)
}

// The header field with the token of a step; empty if it has none.
fn token_field(alloc: Global, step: &Step, number: &str) -> Result<String> {
    let Some(token) = &step.token else {
        return Ok(String::new(alloc));
    };
    let token = token.as_str().replace(alloc, "{n}", number)?;
    let field = format!(in alloc; "Office-Token: {token}\r\n")?;
    Ok(field)
}

/// The messages of a session so far, and what was said to them.
#[derive(Drop)]
pub struct Session {
    /// The words of the command that answers them.
    pub words: Vec<String>,
    /// The size of the pieces in which input comes, in bytes.
    pub cut: usize,
    pub input: String,
    pub clock: Vec<u64>,
    pub said: Vec<u8>,
}

impl Session {
    /// A session without messages. The first number of the clock is that of the run itself.
    pub fn new(alloc: Global, cut: usize) -> Result<Session, AllocError> {
        let mut words = Vec::new(alloc);
        words.push(String::from_str(alloc, "run")?)?;
        Ok(Session {
            words,
            cut,
            input: String::new(alloc),
            clock: vec![in alloc; 0]?,
            said: Vec::new(alloc),
        })
    }
}

/// Adds the messages of a step to a session, and returns them.
pub fn add_messages(alloc: Global, session: &mut Session, step: &Step, at: u64) -> Result<String> {
    let [first, last] = step.numbers.unwrap_or([0, 0]);
    let mut messages = String::new(alloc);
    for n in first..=last {
        let number = format!(in alloc; "{n}")?;
        let message = message_of(alloc, step, number.as_str())?;
        messages.push_str(message.as_str())?;
        session.clock.push(at)?;
    }
    session.input.push_str(messages.as_str())?;
    Ok(messages)
}
