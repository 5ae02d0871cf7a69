// One session over a disk.
use anyhow::Result;
use case_runs::{given_messages, run};
use case_table::Session;
use disk_core::MemoryDisk;
use fault_table::{Table, brief_of};
use std::alloc::Global;
use std::sync::Wait;
use std::thread::Threads;

/// What a session said in brief, its exit code, and the disk that it left.
#[derive(Drop)]
pub struct Heard {
    pub told: String,
    pub status: u8,
    pub disk: MemoryDisk,
}

/// Sends these messages over this disk. Only this function runs the program.
pub fn hear<R: Threads + Wait + Sync>(
    rt: &R,
    alloc: Global,
    table: &Table,
    session: &Session,
    disk: MemoryDisk,
) -> Result<Heard> {
    let clock = session.clock.to_vec(alloc)?;
    let input = session.input.as_str();
    let given = given_messages(alloc, &session.words, clock, input, session.cut)?;
    let ran = run(rt, alloc, given, disk);
    let told = brief_of(
        alloc,
        &table.known,
        ran.out.said(),
        ran.out.notes(),
        ran.status,
    )?;
    Ok(Heard {
        told,
        status: ran.status,
        disk: ran.disk,
    })
}
