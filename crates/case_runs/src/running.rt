// One command of the program, over a disk in memory.
use anyhow::{Result, bail};
use bill_book::MapKeeper;
use case_table::{Command, number_of};
use desk_core::ListClock;
use disk_core::MemoryDisk;
use http_front::MemoryReplies;
use http_wire::MemorySource;
use office_program::{End, office};
use serving::{MemoryPort, OpenGate};
use std::alloc::Global;
use std::sync::Wait;
use std::thread::Threads;

/// What a command of the program is given, except the disk.
#[derive(Drop)]
pub struct Given<'a> {
    words: &'a [String],
    clock: Vec<u64>,
    source: MemorySource,
    out: MemoryReplies,
    port: MemoryPort,
}

/// What a command of the program left.
#[derive(Drop)]
pub struct Ran {
    pub status: u8,
    pub out: MemoryReplies,
    pub port: MemoryPort,
    pub disk: MemoryDisk,
}

/// Does one command that posts no bills.
pub fn run<R: Threads + Wait + Sync>(rt: &R, alloc: Global, given: Given, disk: MemoryDisk) -> Ran {
    let mut keeper = MapKeeper::new(alloc, Vec::new(alloc));
    run_with(rt, alloc, given, disk, &mut keeper)
}

/// Does one command, with a keeper of bills. Only this function calls the program.
pub fn run_with<R: Threads + Wait + Sync>(
    rt: &R,
    alloc: Global,
    given: Given,
    disk: MemoryDisk,
    keeper: &mut MapKeeper,
) -> Ran {
    let Given {
        words,
        clock,
        mut source,
        mut out,
        mut port,
    } = given;
    let End { status, disk, .. } = office(
        rt,
        alloc,
        words,
        &mut source,
        &mut out,
        disk,
        ListClock::new(clock),
        &mut port,
        &OpenGate,
        keeper,
    );
    Ran {
        status,
        out,
        port,
        disk,
    }
}

// A port on which these texts come. Its calls with these numbers fail.
fn port_of(alloc: Global, texts: &[String], failing: &[u64]) -> Result<MemoryPort> {
    let mut lines = Vec::new(alloc);
    for text in texts {
        lines.push(text.as_bytes().to_vec(alloc)?)?;
    }
    match MemoryPort::new(alloc, lines, failing.to_vec(alloc)?) {
        Ok(port) => Ok(port),
        Err(_) => bail!("no memory"),
    }
}

/// What a run over these messages is given. Its input comes in pieces of this size.
pub fn given_messages<'a>(
    alloc: Global,
    words: &'a [String],
    clock: Vec<u64>,
    input: &str,
    cut: usize,
) -> Result<Given<'a>> {
    let input = input.as_bytes().to_vec(alloc)?;
    let port = port_of(alloc, &[], &[])?;
    Ok(Given {
        words,
        clock,
        source: MemorySource::new(input, cut, Vec::new(alloc)),
        out: MemoryReplies::new(alloc, Vec::new(alloc)),
        port,
    })
}

// The input of a command, with the spaces before it.
fn input_of(alloc: Global, command: &Command) -> Result<Vec<u8>> {
    let mut input = vec![in alloc; b' '; command.spaces]?;
    if let Some(text) = &command.input {
        input.extend_from_slice(text.as_bytes())?;
    }
    Ok(input)
}

/// What a command of a case is given.
pub fn given_command(alloc: Global, command: &Command, cut: usize) -> Result<Given<'_>> {
    let mut clock = Vec::new(alloc);
    for value in &command.clock {
        clock.push(number_of(alloc, value)?)?;
    }
    let input = input_of(alloc, command)?;
    let reads = command.failing_reads.to_vec(alloc)?;
    let texts = command.failing_texts.to_vec(alloc)?;
    let port = port_of(alloc, &command.connections, &command.failing_port)?;
    Ok(Given {
        words: &command.words,
        clock,
        source: MemorySource::new(input, cut, reads),
        out: MemoryReplies::new(alloc, texts),
        port,
    })
}
