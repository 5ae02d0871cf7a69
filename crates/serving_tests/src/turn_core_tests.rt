// A counter that threads take in turns.
ghost use Rattle.std.specs.Prelude.{◌≡◌, ◌+◌, ◌<◌, ◌^◌, length, map};
ghost use Rattle.std.specs.List.{range_with_len};
ghost use Rattle.turn_core.specs.Calls.{calls_under};
ghost use Rattle.turn_core.specs.Passes.{IsPassOf, view};
ghost use Rattle.turn_core.specs.Views.{newcomer};

use crate::given::equal;
use std::hint::spin_loop;
use std::process::Abort;
use std::sync::Wait;
use std::thread::{Threads, join};
use turn_core::{Pass, Turned, Turns};

/// Returns how many calls there were.
#[derive(Drop)]
struct Counter {
    count: u64,
}

impl Turned for Counter {
    type Ask = ();

    type Say = u64;

    ghost stands = { λ first now calls. first.count + length calls < 2 ^ 64
        → (now.count ≡ first.count + length calls)
        × (map (λ c. c.1) calls ≡ map (λ k. first.count + 1 + k) (range_with_len 0 (length calls))) };

    ghost lawful = { λ first calls. first.count + length calls < 2 ^ 64
        → map (λ c. c.1) calls ≡ map (λ k. first.count + 1 + k) (range_with_len 0 (length calls)) };

    ghost is_lawful = { λ first now calls h small. (h small).1 };

    fn take(&mut self, _ask: &()) -> u64 {
        self.count = self.count.wrapping_add(1);
        linger(self.count);
        self.count
    }
}

// Makes every hundredth call so long that a pass which waits for it parks.
fn linger(count: u64) {
    if count % 100 != 0 {
        return;
    }
    for _ in 0..200_000u32 {
        spin_loop();
    }
}

// Takes some turns, and returns the answers with the pass.
fn take_turns<R: Wait>(
    rt: &R,
    turns: &Turns<Counter>,
    mut pass: Pass<Counter>,
    mut told: Vec<u64>,
) -> (Vec<u64>, Pass<Counter>)
    requires { IsPassOf turns.now pass }
    ensures { IsPassOf turns.now result.1 × ((view result.1).share ≡ (view pass).share) }
{
    for number in told.iter_mut() {
        *number = turns.turn(rt, &mut pass, &());
    }
    (told, pass)
}

// Each of two threads takes one turn. Returns the two answers.
fn each_takes_turns<T: Turned + Send, R: Threads + Wait + Sync>(
    rt: &R,
    turns: &Turns<T>,
    one: &mut Pass<T>,
    two: &mut Pass<T>,
    ask: &T::Ask,
) -> (T::Say, T::Say)
where
    T::Ask: Sync,
    T::Say: Send,
    requires one { IsPassOf turns.now one.old }
    requires two { IsPassOf turns.now two.old }
{
    join(
        rt,
        || -> T::Say
            requires { IsPassOf turns.now one.now }
        { turns.turn(rt, one, ask) },
        || -> T::Say
            requires { IsPassOf turns.now two.now }
        { turns.turn(rt, two, ask) },
    )
}

// Three calls by one pass, and one by another that is split off and rejoined.
fn three_and_one<R: Wait>(rt: &R, turns: &Turns<Counter>, pass: &mut Pass<Counter>) -> [u64; 4]
    requires own { IsPassOf turns.now pass.old }
    requires new { view pass.old ≡ newcomer (record { count = 0 }) }
    ensures own { IsPassOf turns.now pass.new }
    ensures shares { (view pass.new).share ≡ (view pass.old).share }
    ensures all { length (view pass.new).seen ≡ 4 }
    ensures first { length (calls_under 0 (view pass.new).seen) ≡ 3 }
    ensures second { length (calls_under 1 (view pass.new).seen) ≡ 1 }
{
    let first = turns.turn(rt, pass, &());
    let second = turns.turn(rt, pass, &());
    let third = turns.turn(rt, pass, &());
    let mut other = turns.split(pass);
    let fourth = turns.turn(rt, &mut other, &());
    turns.meet(pass, other);
    [first, second, third, fourth]
}

// Each of two threads takes turns with a pass of its own.
fn in_two_threads<R: Threads + Wait + Sync>(
    rt: &R,
    turns: &Turns<Counter>,
    first: (Vec<u64>, Pass<Counter>),
    second: (Vec<u64>, Pass<Counter>),
) -> ((Vec<u64>, Pass<Counter>), (Vec<u64>, Pass<Counter>))
    requires first { IsPassOf turns.now first.1 }
    requires second { IsPassOf turns.now second.1 }
    ensures first { IsPassOf turns.now result.0.1 × ((view result.0.1).share ≡ (view first.1).share) }
    ensures second { IsPassOf turns.now result.1.1 × ((view result.1.1).share ≡ (view second.1).share) }
{
    let (first_told, first_pass) = first;
    let (second_told, second_pass) = second;
    join(
        rt,
        move || -> (Vec<u64>, Pass<Counter>)
            requires { IsPassOf turns.now first_pass }
            ensures { IsPassOf turns.entry.now result.1 × ((view result.1).share ≡ (view first_pass).share) }
        { take_turns(rt, turns, first_pass, first_told) },
        move || -> (Vec<u64>, Pass<Counter>)
            requires { IsPassOf turns.now second_pass }
            ensures { IsPassOf turns.entry.now result.1 × ((view result.1).share ≡ (view second_pass).share) }
        { take_turns(rt, turns, second_pass, second_told) },
    )
}

#[test]
fn four_calls_are_counted(rt: HostRuntime) {
    let Ok((turns, mut pass)) = Turns::new(rt.alloc(), Counter { count: 0 }) else {
        panic!(rt; "no memory")
    };
    assert!(rt; three_and_one(&rt, &turns, &mut pass) == [1, 2, 3, 4]);
    equal(&rt, &"the pass", &pass.calls(), &3);
    equal(&rt, &"all", &turns.close(pass).count, &4);
}

fn counts_from_one(told: &[u64]) -> bool {
    for (index, number) in told.iter().enumerate() {
        if *number != (index as u64).wrapping_add(1) {
            return false;
        }
    }
    true
}

// Whether the answers to two threads are each of the numbers up to 20,000 once.
fn are_each_once(rt: &impl Abort, mut told: Vec<u64>, more: &[u64]) -> bool {
    told.extend_from_slice(more).expect(rt, "memory");
    told.sort().expect(rt, "memory");
    told.len() == 20_000 && counts_from_one(&told)
}

// Two threads take 10,000 turns each, and each of the numbers up to 20,000 is returned once.
#[test]
fn two_threads_are_told_each_number_once(rt: HostRuntime) {
    let first_told = vec![in rt.alloc(); 0; 10_000].expect(&rt, "memory");
    let second_told = vec![in rt.alloc(); 0; 10_000].expect(&rt, "memory");
    let Ok((turns, mut pass)) = Turns::new(rt.alloc(), Counter { count: 0 }) else {
        panic!(rt; "no memory")
    };
    let other = turns.split(&mut pass);
    let ((told, mut pass), (more, other)) = in_two_threads(
        &rt,
        &turns,
        (first_told, pass),
        (second_told, other),
    );
    assert!(rt; pass.calls() == 10_000 && other.calls() == 10_000);
    turns.meet(&mut pass, other);
    equal(&rt, &"all", &turns.close(pass).count, &20_000);
    assert!(rt; are_each_once(&rt, told, &more));
}
