//! Counts by turns or under a lock, in a number of threads, for a script that measures both.
#![tactic(auto)]

ghost use Rattle.std.specs.Prelude.{◌≡◌, ◌+◌, ◌<◌, ◌≤◌};
ghost use Rattle.turn_core.specs.Passes.{IsPassOf, view};

use std::alloc::{Alloc, Global};
use std::process::ExitCode;
use std::rt::Env;
use std::sync::{Mutex, Wait};
use std::thread::{Threads, join};
use std::{env, io};
use turn_core::{Pass, Turned, Turns};

/// The turns of one run.
const TURNS: u64 = 4_000_000;

#[derive(Drop)]
struct Counter {
    count: u64,
}

impl Turned for Counter {
    type Ask = ();

    type Say = u64;

    ghost stands = { λ first now calls. Unit {0} };

    ghost lawful = { λ first calls. Unit {0} };

    ghost is_lawful = { λ first now calls h. h };

    fn take(&mut self, _ask: &()) -> u64 {
        self.count = self.count.wrapping_add(1);
        self.count
    }
}

fn take_turns<R: Wait>(
    rt: &R,
    turns: &Turns<Counter>,
    mut pass: Pass<Counter>,
    count: u64,
) -> Pass<Counter>
    requires own { IsPassOf turns.now pass }
    ensures own { IsPassOf turns.now result }
    ensures share { (view result).share ≡ (view pass).share }
{
    for _ in 0..count {
        turns.turn(rt, &mut pass, &());
    }
    pass
}

// Takes turns in a number of threads, each with a pass of its own.
fn in_threads<R: Threads + Wait + Sync>(
    rt: &R,
    turns: &Turns<Counter>,
    mut pass: Pass<Counter>,
    threads: u64,
    count: u64,
) -> Pass<Counter>
    requires own { IsPassOf turns.now pass }
    requires share { threads < (view pass).share }
    ensures own { IsPassOf turns.now result }
    ensures share { (view result).share ≡ (view pass).share }
{
    if threads <= 1 {
        return take_turns(rt, turns, pass, count);
    }
    let other = turns.split(&mut pass);
    let (mut pass, other) = join(
        rt,
        move || -> Pass<Counter>
            requires { IsPassOf turns.now pass × (threads < 1 + (view pass).share) × (1 < threads) }
            ensures { IsPassOf turns.entry.now result × ((view result).share ≡ (view pass).share) }
        { in_threads(rt, turns, pass, threads - 1, count) },
        move || -> Pass<Counter>
            requires { IsPassOf turns.now other }
            ensures { IsPassOf turns.entry.now result × ((view result).share ≡ (view other).share) }
        { take_turns(rt, turns, other, count) },
    );
    turns.meet(&mut pass, other);
    pass
}

// Takes all turns, and returns what the counter has at the end.
fn by_turns<R: Threads + Wait + Sync>(
    rt: &R,
    alloc: Global,
    threads: u64,
    count: u64,
) -> Option<u64>
    requires { threads ≤ 64 }
{
    let Ok((turns, pass)) = Turns::new(alloc, Counter { count: 0 }) else {
        return None;
    };
    let pass = in_threads(rt, &turns, pass, threads, count);
    Some(turns.close(pass).count)
}

fn lock_often<R: Wait>(rt: &R, counter: &Mutex<u64>, count: u64) {
    for _ in 0..count {
        let mut held = counter.lock(rt);
        *held = held.wrapping_add(1);
    }
}

fn lock_in_threads<R: Threads + Wait + Sync>(
    rt: &R,
    counter: &Mutex<u64>,
    threads: u64,
    count: u64,
) {
    if threads <= 1 {
        return lock_often(rt, counter, count);
    }
    join(
        rt,
        || -> ()
            requires { 1 < threads }
        { lock_in_threads(rt, counter, threads - 1, count) },
        || lock_often(rt, counter, count),
    );
}

// The same under a lock.
fn by_lock<R: Threads + Wait + Sync>(rt: &R, threads: u64, count: u64) -> u64 {
    let counter = Mutex::new(0);
    lock_in_threads(rt, &counter, threads, count);
    counter.into_inner()
}

// The words after the program's name.
fn words_of<R: Env + Alloc<A = Global>>(rt: &R) -> io::Result<Vec<String>> {
    let mut words: Vec<String> = env::args(rt)?.collect(rt.alloc())?;
    if !words.is_empty() {
        words.remove(0);
    }
    Ok(words)
}

// Whether all was counted; None unless the words are `turns` or `lock`, and then a number of threads from 1 to 64.
fn counted<R: Threads + Wait + Sync>(rt: &R, alloc: Global, words: &[String]) -> Option<bool> {
    let [how, threads] = words else {
        return None;
    };
    let threads = threads.as_str().parse::<u64>().ok()?;
    if threads == 0 || 64 < threads {
        return None;
    }
    let count = TURNS / threads;
    let found = match how.as_str() {
        "turns" => by_turns(rt, alloc, threads, count)?,
        "lock" => by_lock(rt, threads, count),
        _ => return None,
    };
    Some(found == TURNS - TURNS % threads)
}

fn main(rt: HostRuntime) -> ExitCode {
    let Ok(words) = words_of(&rt) else {
        return ExitCode::from(1);
    };
    match counted(&rt, rt.alloc(), &words) {
        Some(true) => ExitCode::from(0),
        _ => ExitCode::from(1),
    }
}
