//! An office that meters object storage and keeps its records in a journal.
#![tactic(auto)]

use bill_keeper::SqliteKeeper;
use command_line::{CommandLine, LineFault, read_line};
use desk_core::SystemClock;
use disk_core::FileDisk;
use http_front::WriterReplies;
use http_wire::ReaderSource;
use office_program::{office, refuse_words};
use serving::{OpenGate, TcpPort};
use std::alloc::{Alloc, Global};
use std::env;
use std::fs::{self, File, OpenOptions};
use std::io::{self, ErrorKind};
use std::process::ExitCode;
use std::rt::{Env, Files};

/// The folder of the program's files, inside the folder in which the program is started.
const FOLDER: &str = "office-data";

fn open_file<R: Files>(rt: &R, path: &str) -> io::Result<R::File> {
    let mut options = OpenOptions::new();
    options.read(true).write(true).create(true);
    options.open(rt, path)
}

// A file that the disk can do without. There is none if it cannot be opened.
fn open_spare<R: Files>(rt: &R, path: &str) -> io::Result<Option<R::File>> {
    match open_file(rt, path) {
        Ok(file) => Ok(Some(file)),
        Err(e) if e.kind() == ErrorKind::OutOfMemory => Err(e),
        Err(_) => Ok(None),
    }
}

// Makes the names of the files and of their folder durable, so that a file that was made is still found after a loss of
// power.
fn sync_names<R: Files<File = File>>(rt: &R) -> io::Result<()> {
    File::open(rt, FOLDER)?.sync_all()?;
    File::open(rt, ".")?.sync_all()
}

// The journal's file, locked. The lock belongs to the open file, so it ends when the file is closed or the process
// ends. There is none if the file cannot be opened, or another process holds the lock.
fn open_journal<R: Files<File = File>>(rt: &R) -> io::Result<File> {
    let file = open_file(rt, "office-data/journal")?;
    file.try_lock()?;
    Ok(file)
}

// The files of the folder, which is made if it is missing. There are none if the folder cannot be made, the journal
// cannot be opened, or the names cannot be made durable.
fn open_files<R: Files<File = File>>(rt: &R) -> io::Result<FileDisk<File>> {
    fs::create_dir_all(rt, FOLDER)?;
    let journal = open_journal(rt)?;
    let first = open_spare(rt, "office-data/check.0")?;
    let second = open_spare(rt, "office-data/check.1")?;
    sync_names(rt)?;
    Ok(FileDisk::new(Some(journal), first, second))
}

// Whether the words ask for something that works on the files.
fn asks_for_files<R: Alloc<A = Global>>(rt: &R, words: &[String]) -> io::Result<bool> {
    match read_line(rt.alloc(), words) {
        Ok(CommandLine::Gen { .. }) | Err(LineFault::NotALine) => Ok(false),
        Ok(_) => Ok(true),
        Err(LineFault::NoMemory) => Err(ErrorKind::OutOfMemory.into()),
    }
}

// The disk of a command. It has no files if the words need none, if a file might get the number of a standard stream,
// or if the files cannot be opened.
//
// # Errors
//
// Memory ran out.
fn open_disk<R: Files<File = File> + Alloc<A = Global>>(
    rt: &R,
    words: &[String],
    held: bool,
) -> io::Result<FileDisk<File>> {
    if !asks_for_files(rt, words)? || !held {
        return Ok(FileDisk::new(None, None, None));
    }
    match open_files(rt) {
        Err(e) if e.kind() != ErrorKind::OutOfMemory => Ok(FileDisk::new(None, None, None)),
        opened => opened,
    }
}

// Takes the number of a standard stream that is closed, so that no file of the disk gets it and no reply is written to
// such a file. It opens `/dev/null`, or `/` if that cannot be opened, only to read, so that a write of a reply fails.
fn hold_number<R: Files>(rt: &R) -> Option<R::File> {
    match File::open(rt, "/dev/null") {
        Ok(file) => Some(file),
        Err(_) => File::open(rt, "/").ok(),
    }
}

// Takes the numbers of all closed standard streams, or none of them.
fn hold_numbers<R: Files>(rt: &R) -> Option<[R::File; 3]> {
    Some([hold_number(rt)?, hold_number(rt)?, hold_number(rt)?])
}

// The words after the program's name.
fn words_of<R: Env + Alloc<A = Global>>(rt: &R) -> io::Result<Vec<String>> {
    let mut words: Vec<String> = env::args(rt)?.collect(rt.alloc())?;
    if !words.is_empty() {
        words.remove(0);
    }
    Ok(words)
}

// What a command needs of the system.
#[derive(Drop)]
struct Begun {
    // Held while the command works.
    numbers: Option<[File; 3]>,
    words: Vec<String>,
    disk: FileDisk<File>,
    // What the keeper of bills needs, which opens its file at its first call.
    host: HostRuntime,
    bills: String,
}

// Makes what a command needs.
//
// # Errors
//
// A word is no text, or memory ran out.
fn begin(rt: &HostRuntime) -> io::Result<Begun> {
    let numbers = hold_numbers(rt);
    let words = words_of(rt)?;
    let disk = open_disk(rt, &words, numbers.is_some())?;
    let bills = String::from_str(rt.alloc(), "office-data/bills.db")?;
    Ok(Begun {
        numbers,
        words,
        disk,
        host: rt.clone()?,
        bills,
    })
}

fn main(rt: HostRuntime) -> ExitCode {
    let mut out = WriterReplies::new(rt.stdout(), rt.stderr());
    let begun = match begin(&rt) {
        Ok(begun) => begun,
        Err(e) => return ExitCode::from(refuse_words(&mut out, e.kind())),
    };
    let Begun {
        numbers: _numbers,
        words,
        disk,
        host,
        bills,
    } = begun;
    let mut input = ReaderSource::new(rt.stdin());
    let mut port = TcpPort::new(&rt);
    let mut keeper = SqliteKeeper::at(host, bills);
    let end = office(
        &rt,
        rt.alloc(),
        &words,
        &mut input,
        &mut out,
        disk,
        SystemClock::new(&rt),
        &mut port,
        &OpenGate,
        &mut keeper,
    );
    ExitCode::from(end.status)
}
