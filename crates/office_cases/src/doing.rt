// What is done in a case, in order, and what is printed of it.
use anyhow::{Result, bail};
use bill_book::{BillKeeper, MapKeeper};
use case_runs::{Given, Ran, given_command, given_messages, run, run_with, tell, tell_others};
use case_table::{
    Case, Command, Session, Step, Stops, add_messages, count_images, disk_of, number_of,
    put_counted, put_lines, put_times, start, tell_replies,
};
use disk_core::{Disk, FileNo, MemoryDisk};
use meter_journal::read_all;
use moments::read_month;
use std::alloc::Global;
use std::collections::BTreeMap;
use std::fmt::Write;
use std::sync::Wait;
use std::thread::Threads;

/// The size of the pieces in which input comes, in bytes, if a case gives none.
const CUT: usize = 8192;

// A session with these messages. The first number of the clock is that of the run itself.
fn session_with(alloc: Global, cut: usize, clock: Vec<u64>, input: String) -> Result<Session> {
    let mut session = Session::new(alloc, cut)?;
    session.clock = clock;
    session.input = input;
    Ok(session)
}

// What the run of a session is given.
fn given_session(alloc: Global, session: &Session) -> Result<Given<'_>> {
    let clock = session.clock.to_vec(alloc)?;
    let input = session.input.as_str();
    given_messages(alloc, &session.words, clock, input, session.cut)
}

// Sends all messages of a session in one run over this disk.
fn run_session<R: Threads + Wait + Sync>(
    rt: &R,
    alloc: Global,
    session: &Session,
    disk: MemoryDisk,
) -> Result<Ran> {
    match given_session(alloc, session) {
        Ok(given) => Ok(run(rt, alloc, given, disk)),
        Err(fault) => {
            drop(disk);
            Err(fault)
        }
    }
}

// The disk that a run left, unless printing what the run did failed.
fn disk_after(told: Result<()>, ran: Ran) -> Result<MemoryDisk> {
    let Ran {
        status: _,
        out,
        port,
        disk,
    } = ran;
    drop(out);
    drop(port);
    match told {
        Ok(()) => Ok(disk),
        Err(fault) => {
            drop(disk);
            Err(fault)
        }
    }
}

// Adds the messages of a step to a session. Returns them as a session of their own.
fn add_step(alloc: Global, session: &mut Session, step: &Step) -> Result<Session> {
    let at = number_of(alloc, &step.at)?;
    let messages = add_messages(alloc, session, step, at)?;
    let clock = vec![in alloc; 0, at]?;
    session_with(alloc, session.cut, clock, messages)
}

// Prints the replies to the messages of a step.
fn tell_answers(alloc: Global, page: &mut String, step: &Step, said: &[u8]) -> Result<()> {
    let [first, _] = step.numbers.unwrap_or([0, 0]);
    let replies = tell_replies(alloc, said)?;
    let told = put_counted(page, alloc, step.numbers.is_some(), first, &replies);
    drop(replies);
    told
}

// Prints what the run of a step did. The session has the replies from then on.
fn tell_ran(
    alloc: Global,
    page: &mut String,
    session: &mut Session,
    step: &Step,
    ran: &Ran,
) -> Result<()> {
    session.said.extend_from_slice(ran.out.said())?;
    match &step.token {
        Some(token) => writeln!(page, "  {} with {token}", step.ask)?,
        None => writeln!(page, "  {}", step.ask)?,
    }
    tell_answers(alloc, page, step, ran.out.said())?;
    let others = tell_others(alloc, ran)?;
    let others = others
        .as_str()
        .strip_prefix("status 0\n")
        .unwrap_or(others.as_str());
    put_lines(page, "    ", others)?;
    Ok(())
}

// Sends the messages of a step in a run of their own over this disk, and prints the replies. Returns the disk.
fn tell_step<R: Threads + Wait + Sync>(
    rt: &R,
    alloc: Global,
    page: &mut String,
    session: &mut Session,
    step: &Step,
    disk: MemoryDisk,
) -> Result<MemoryDisk> {
    let own = match add_step(alloc, session, step) {
        Ok(own) => own,
        Err(fault) => {
            drop(disk);
            return Err(fault);
        }
    };
    let ran = run_session(rt, alloc, &own, disk);
    drop(own);
    let ran = ran?;
    let told = tell_ran(alloc, page, session, step, &ran);
    disk_after(told, ran)
}

// Does the steps of a case, each over the disk that the one before left. Returns the disk that the last one left.
fn tell_steps<R: Threads + Wait + Sync>(
    rt: &R,
    alloc: Global,
    page: &mut String,
    session: &mut Session,
    case: &Case,
) -> Result<MemoryDisk> {
    let mut disk = start(alloc, case)?;
    for step in &case.step {
        disk = tell_step(rt, alloc, page, session, step, disk)?;
    }
    Ok(disk)
}

// Sends all messages in one run over the disk with which the case starts.
fn run_whole<R: Threads + Wait + Sync>(
    rt: &R,
    alloc: Global,
    session: &Session,
    case: &Case,
) -> Result<Ran> {
    let disk = start(alloc, case)?;
    run_session(rt, alloc, session, disk)
}

// Whether a run got these replies, and left the same journal as is on this disk.
fn is_same(alloc: Global, said: &[u8], anew: &mut MemoryDisk, ran: &mut Ran) -> bool {
    let journals = (read_all(alloc, anew), read_all(alloc, &mut ran.disk));
    match &journals {
        (Ok(first), Ok(second)) => first == second && ran.out.said() == said,
        _ => false,
    }
}

// Prints whether one run did the same, and what it did if not.
fn tell_same(alloc: Global, page: &mut String, same: bool, ran: &Ran) -> Result<()> {
    if same {
        page.push_str("  in one run the same\n")?;
    } else {
        page.push_str("  in one run not the same\n")?;
        put_lines(page, "    ", tell(alloc, ran)?.as_str())?;
    }
    Ok(())
}

// Prints whether all messages in one run over another disk get the same replies and leave the same journal. Returns
// that disk.
fn tell_whole<R: Threads + Wait + Sync>(
    rt: &R,
    alloc: Global,
    page: &mut String,
    session: &Session,
    case: &Case,
    mut anew: MemoryDisk,
) -> Result<MemoryDisk> {
    let mut ran = match run_whole(rt, alloc, session, case) {
        Ok(ran) => ran,
        Err(fault) => {
            drop(anew);
            return Err(fault);
        }
    };
    let same = is_same(alloc, &session.said, &mut anew, &mut ran);
    drop(anew);
    let told = tell_same(alloc, page, same, &ran);
    disk_after(told, ran)
}

// Does the steps of a case, each in a run of its own and then all in one run. Returns the disk of the one run.
fn tell_session<R: Threads + Wait + Sync>(
    rt: &R,
    alloc: Global,
    page: &mut String,
    case: &Case,
    cut: usize,
) -> Result<MemoryDisk> {
    if case.step.is_empty() {
        return start(alloc, case);
    }
    let mut session = Session::new(alloc, cut)?;
    let left = match tell_steps(rt, alloc, page, &mut session, case) {
        Ok(anew) => tell_whole(rt, alloc, page, &session, case, anew),
        Err(fault) => Err(fault),
    };
    drop(session);
    left
}

// Prints what a command of a case did.
fn tell_done(alloc: Global, page: &mut String, command: &Command, ran: &Ran) -> Result<()> {
    writeln!(page, "  office {:?}", command.words)?;
    put_lines(page, "    ", tell(alloc, ran)?.as_str())?;
    Ok(())
}

fn tell_command<R: Threads + Wait + Sync>(
    rt: &R,
    alloc: Global,
    page: &mut String,
    command: &Command,
    cut: usize,
    disk: MemoryDisk,
    keeper: &mut MapKeeper,
) -> Result<MemoryDisk> {
    let given = match given_command(alloc, command, cut) {
        Ok(given) => given,
        Err(fault) => {
            drop(disk);
            return Err(fault);
        }
    };
    let ran = run_with(rt, alloc, given, disk, keeper);
    let told = tell_done(alloc, page, command, &ran);
    disk_after(told, ran)
}

// The keeper of bills with which a case starts.
fn keeper_of(alloc: Global, case: &Case) -> Result<MapKeeper> {
    let mut keeper = MapKeeper::new(alloc, case.failing_keeper.to_vec(alloc)?);
    for text in &case.kept_months {
        let Ok(month) = read_month(text.as_str()) else {
            bail!("{text} is no month");
        };
        if keeper.post(month, &[]).is_err() {
            bail!("the bills of {text} were not kept");
        }
    }
    Ok(keeper)
}

// Prints what the disk holds.
fn tell_disk(alloc: Global, page: &mut String, case: &Case, disk: &mut MemoryDisk) -> Result<()> {
    if !case.failing.is_empty() {
        writeln!(page, "  faults of the disk: {}", disk.faults())?;
    }
    let Ok(journal) = read_all(alloc, disk) else {
        page.push_str("  journal: not read\n")?;
        return Ok(());
    };
    writeln!(page, "  journal: {} bytes", journal.len())?;
    if case.shown {
        for row in journal.chunks(16) {
            writeln!(page, "    {}", hex::encode(alloc, row)?)?;
        }
    }
    Ok(())
}

// The session of the one message that is sent after each stop.
fn stops_session(alloc: Global, stops: &Stops) -> Result<Session> {
    let message = format!(in alloc; "{} HTTP/1.1\r\nHost: x\r\n\r\n", stops.ask)?;
    let at = number_of(alloc, &stops.at)?;
    let clock = vec![in alloc; at]?;
    session_with(alloc, CUT, clock, message)
}

// What is said over a crash image of the journal.
fn told_over<R: Threads + Wait + Sync>(
    rt: &R,
    alloc: Global,
    session: &Session,
    image: &[u8],
) -> Result<String> {
    let disk = disk_of(alloc, image, &[])?;
    let ran = run_session(rt, alloc, session, disk)?;
    let told = tell(alloc, &ran);
    drop(ran);
    Ok(told?)
}

// Adds what is said over an image that occurs this often.
fn add_image<R: Threads + Wait + Sync>(
    rt: &R,
    alloc: Global,
    session: &Session,
    image: &[u8],
    count: u64,
    tally: &mut BTreeMap<String, u64>,
) -> Result<()> {
    let told = told_over(rt, alloc, session, image)?;
    let times = tally.get(&told).copied().unwrap_or(0u64);
    tally.insert(told, times.saturating_add(count))?;
    Ok(())
}

// Prints the replies to the message of a session over crash images of the journal, each reply once, with its count.
fn tell_images<R: Threads + Wait + Sync>(
    rt: &R,
    alloc: Global,
    page: &mut String,
    session: &Session,
    images: Vec<Vec<u8>>,
) -> Result<()> {
    let counts = count_images(alloc, images)?;
    let mut tally = BTreeMap::new(alloc);
    for (image, count) in &counts {
        add_image(rt, alloc, session, image, *count, &mut tally)?;
    }
    for (told, times) in &tally {
        put_times(page, *times, told.as_str())?;
    }
    Ok(())
}

fn tell_stops<R: Threads + Wait + Sync>(
    rt: &R,
    alloc: Global,
    page: &mut String,
    stops: &Stops,
    disk: &MemoryDisk,
) -> Result<()> {
    let session = stops_session(alloc, stops)?;
    let [first, last] = stops.calls;
    for calls in first..=last {
        let Ok(images) = disk.images(FileNo::Journal, calls) else {
            bail!("no memory");
        };
        writeln!(
            page,
            "  after {calls} calls of the disk: {} images",
            images.len()
        )?;
        tell_images(rt, alloc, page, &session, images)?;
    }
    Ok(())
}

// Does a whole case over input in pieces of this size.
fn tell_pieces<R: Threads + Wait + Sync>(
    rt: &R,
    alloc: Global,
    case: &Case,
    cut: usize,
) -> Result<String> {
    let mut page = String::new(alloc);
    let mut disk = tell_session(rt, alloc, &mut page, case, cut)?;
    let mut keeper = keeper_of(alloc, case)?;
    for command in &case.command {
        disk = tell_command(rt, alloc, &mut page, command, cut, disk, &mut keeper)?;
    }
    if let Some(stops) = &case.stops {
        tell_stops(rt, alloc, &mut page, stops, &disk)?;
    }
    tell_disk(alloc, &mut page, case, &mut disk)?;
    Ok(page)
}

/// Does a case, and returns what is printed of it.
pub fn tell_case<R: Threads + Wait + Sync>(rt: &R, alloc: Global, case: &Case) -> Result<String> {
    let mut page = format!(in alloc; "case: {}\n", case.name)?;
    let (first, others) = match case.cuts.split_first() {
        Some((first, others)) => (*first, others),
        None => (CUT, &[][..]),
    };
    let told = tell_pieces(rt, alloc, case, first)?;
    page.push_str(told.as_str())?;
    for cut in others {
        let again = tell_pieces(rt, alloc, case, *cut)?;
        if again != told {
            writeln!(page, "  not the same in pieces of {cut}")?;
            put_lines(&mut page, "  ", again.as_str())?;
        }
    }
    Ok(page)
}
