// The kept replies.
ghost use Rattle.std.specs.Prelude.{◌≡◌, ◌⊎◌, ℕ, ◌<◌, ◌≤◌, ◌^◌, ◌+◌, [], ◌∷◌, ◌++◌, IsSome, IfSome};
ghost use Rattle.std.specs.Prelude.{IfOk, OnOk, OnErr, Ok, Err, Some, None, length, drop, option_copied};
ghost use Rattle.std.specs.List.{AllByRecursion};
ghost use Rattle.std.specs.VecDeque.{deque_len, deque_capacity};
ghost use Rattle.office_base.specs.Maps.{at_name, with_name};
ghost use Rattle.office_types.specs.Kept.{number_told, reply_of, tells_marker};
ghost use Rattle.plain_office.specs.Once.{kept_at, recalled};
ghost use Rattle.plain_office.specs.Orderly.{AreKept};
ghost use Rattle.kept_replies.specs.Queue.{ReplyQueue, plain_reply, plain_replies, kept_in, kept_of, with_kept, IsTold};
ghost use Rattle.kept_replies.specs.Indexed.{IsIndexed, without_held, found_at};

use moments::Moment;
use office_base::NoMemory;
use office_types::{Command, Kept, Refusal, Reply, Token, marker_told, number_told};
use std::alloc::Global;
use std::collections::{BTreeMap, VecDeque};
use std::marker::Model;

/// How many replies are kept. Own rule.
pub const MOST_KEPT: usize = 10_000;

/// The replies to the last commands that were accepted with a token, each under its token.
///
/// A reply is kept in two steps, so that keeping it cannot fail after its command was done: `hold` takes the memory,
/// and `keep` stores the reply.
#[derive(Drop)]
pub struct KeptReplies {
    // The number of each token's reply, counted over all that were ever kept. It may have tokens that are not in the
    // queue: a number only says where to look.
    numbers: BTreeMap<Token, u64>,
    // Oldest first.
    queue: VecDeque<Kept>,
    // How many replies were dropped. It is also the number of the oldest one.
    dropped: u64,
    // A token and its command, whose reply is not known yet.
    held: Option<(Token, Command)>,
}

impl Model for KeptReplies {
    ghost use Rattle.std.specs.Prelude.{◌+◌, ◌<◌, ◌≤◌, length, IsSome};
    ghost use Rattle.std.specs.VecDeque.{deque_len, deque_capacity};
    ghost use Rattle.kept_replies.specs.Queue.{ReplyQueue};
    ghost use Rattle.kept_replies.specs.Indexed.{IsIndexed, IsHeld};

    ghost Value = { ReplyQueue };

    ghost view = { λ k. record { queue = k.queue.items; dropped = k.dropped; held = k.held } };

    ghost invariant = { λ k. IsIndexed k.dropped k.numbers.entries k.queue.items
        × IsHeld (k.dropped + length k.queue.items) k.numbers.entries k.held
        × (IsSome k.held → deque_len k.queue < deque_capacity k.queue)
        × (length k.queue.items ≤ 10_000) };
}

impl KeptReplies {
    /// Makes an empty store of replies. Takes no memory.
    pub fn new(alloc: Global) -> KeptReplies
        ensures { result ≡ record { queue = []; dropped = 0; held = None } }
    {
        KeptReplies {
            numbers: BTreeMap::new(alloc),
            queue: VecDeque::new(alloc),
            dropped: 0,
            held: None,
        }
    }

    /// Makes a store of these replies, oldest first. Each has a token of its own.
    ///
    /// Cost: a search of the tokens for each.
    ///
    /// # Errors
    ///
    /// `NoMemory`: memory ran out.
    pub fn of(alloc: Global, kept: Vec<Kept>) -> Result<KeptReplies, NoMemory>
        requires { AreKept (plain_replies kept.items) }
        ensures { IfOk result (λ all. all ≡ record { queue = kept.items; dropped = 0; held = None }) }
    {
        let mut numbers = BTreeMap::new(alloc);
        let mut queue = VecDeque::new(alloc);
        for one in kept {
            take_up(&mut numbers, &mut queue, one)?;
        }
        Ok(KeptReplies {
            numbers,
            queue,
            dropped: 0,
            held: None,
        })
    }

    /// Lists the kept replies, oldest first, each with the two parts of its reply that do not follow from its command.
    ///
    /// Cost: a copy of each token and command.
    ///
    /// # Errors
    ///
    /// `NoMemory`: memory ran out.
    pub fn list(&self, alloc: Global) -> Result<Vec<Kept>, NoMemory>
        ensures same { IfOk result (λ all. plain_replies all.items ≡ plain_replies self.now.queue) }
        ensures told { IfOk result (λ all. AllByRecursion IsTold all.items) }
    {
        copies_of_all(alloc, &self.queue)
    }

    /// Finds what is kept under a token; None if there is nothing. Takes no memory.
    ///
    /// Cost: one search of the tokens.
    pub fn find(&self, token: &Token) -> Option<&Kept>
        ensures { option_copied result ≡ kept_in token.now self.now.queue }
    {
        let number = number_under(&self.numbers, token);
        reply_at(&self.queue, self.dropped, number, token)
    }

    /// Recalls the reply to a command that carries a token; None if no reply is kept under the token.
    ///
    /// Cost: one search of the tokens; if a reply is kept, a pass over both commands.
    ///
    /// # Errors
    ///
    /// `TokenReused`: the token is kept with another command. `NoMemory`: memory ran out.
    pub fn recall(&self, token: &Token, command: &Command) -> Result<Option<Reply>, Refusal>
        ensures { (result ≡ recalled (kept_at token.now (plain_replies self.now.queue)) command.now)
            ⊎ (result ≡ Err Refusal.NoMemory) }
    {
        match self.find(token) {
            Some(kept) => told_again(kept, command),
            None => Ok(None),
        }
    }

    /// Takes the memory to keep the reply to a command under its token. No reply is kept under it yet.
    ///
    /// Cost: one search of the tokens. The command is copied once, the token twice: for the queue and for the index.
    ///
    /// # Errors
    ///
    /// `NoMemory`: memory ran out; nothing is held.
    pub fn hold(&mut self, token: &Token, command: &Command) -> Result<(), NoMemory>
        requires new { kept_in token.now self.old.queue ≡ None }
        requires free { self.old.held ≡ None }
        requires few { self.old.dropped + 10_001 < 2 ^ 64 }
        ensures ok { OnOk result (self.new ≡ record self.old { held = Some (token.now, command.now) }) }
        ensures err { OnErr result (self.new ≡ self.old) }
    {
        let held = copies_of(token, command)?;
        let number = self.dropped + self.queue.len() as u64;
        match make_ready(&mut self.numbers, &mut self.queue, token, number) {
            Ok(()) => {
                drop(self.held.replace(held));
                Ok(())
            }
            Err(error) => {
                drop(held);
                Err(error)
            }
        }
    }

    /// Drops the held token and its command, if the command was not accepted. Takes no memory.
    ///
    /// Cost: one search of the tokens.
    pub fn let_go(&mut self)
        ensures { self.new ≡ record self.old { held = None } }
    {
        let held = self.held.take();
        drop_number(&mut self.numbers, &held);
        drop(held);
    }

    /// Keeps the reply to the held command, which was accepted at the moment. If too many are then kept, the oldest is
    /// dropped. Takes no memory.
    ///
    /// Cost: if the oldest is dropped, one search of the tokens.
    pub fn keep(&mut self, moment: Moment, reply: &Reply)
        requires held { IsSome self.old.held }
        requires few { self.old.dropped + 10_001 < 2 ^ 64 }
        ensures queue { IfSome self.old.held
            (λ held. self.new.queue ≡ with_kept (kept_of moment reply.now held) self.old.queue) }
        ensures free { self.new.held ≡ None }
        ensures count { self.new.dropped + length self.new.queue ≡ self.old.dropped + length self.old.queue + 1 }
    {
        let Some((token, command)) = self.held.take() else {
            unreachable!()
        };
        let kept = Kept {
            token,
            moment,
            marker: marker_told(reply),
            told: number_told(reply),
            command,
        };
        self.dropped = push(&mut self.numbers, &mut self.queue, self.dropped, kept);
    }
}

fn copies_of(token: &Token, command: &Command) -> Result<(Token, Command), NoMemory>
    ensures { IfOk result (λ x. (x.0 ≡ token.now) × (x.1 ≡ command.now)) }
{
    let token = token.copy()?;
    let command = command.copy()?;
    Ok((token, command))
}

// Makes room for one more reply, and puts its number under a copy of its token.
fn make_ready(
    numbers: &mut BTreeMap<Token, u64>,
    queue: &mut VecDeque<Kept>,
    token: &Token,
    number: u64,
) -> Result<(), NoMemory>
    ensures items { queue.new.items ≡ queue.old.items }
    ensures room { OnOk result (deque_len queue.new < deque_capacity queue.new) }
    ensures still { deque_len queue.old < deque_capacity queue.old → deque_len queue.new < deque_capacity queue.new }
    ensures put { OnOk result (numbers.new.entries ≡ with_name token.now number numbers.old.entries) }
    ensures same { OnErr result (numbers.new.entries ≡ numbers.old.entries) }
{
    let key = token.copy()?;
    make_room(queue)?;
    put_number(numbers, key, number)
}

// Makes room for one more reply.
fn make_room(queue: &mut VecDeque<Kept>) -> Result<(), NoMemory>
    ensures same { queue.new.items ≡ queue.old.items }
    ensures room { OnOk result (deque_len queue.new < deque_capacity queue.new) }
    ensures still { deque_len queue.old < deque_capacity queue.old → deque_len queue.new < deque_capacity queue.new }
{
    Ok(queue.reserve(1)?)
}

fn put_number(numbers: &mut BTreeMap<Token, u64>, token: Token, number: u64) -> Result<(), NoMemory>
    ensures put { OnOk result (numbers.new.entries ≡ with_name token number numbers.old.entries) }
    ensures same { OnErr result (numbers.new.entries ≡ numbers.old.entries) }
{
    numbers.insert(token, number)?;
    Ok(())
}

fn drop_number(numbers: &mut BTreeMap<Token, u64>, held: &Option<(Token, Command)>)
    ensures { numbers.new.entries ≡ without_held held.now numbers.old.entries }
{
    if let Some(held) = held {
        numbers.remove(&held.0);
    }
}

// Adds a reply, and drops the oldest if there are then too many. Gives how many were dropped in all.
fn push(
    numbers: &mut BTreeMap<Token, u64>,
    queue: &mut VecDeque<Kept>,
    dropped: u64,
    kept: Kept,
) -> u64
    requires room { deque_len queue.old < deque_capacity queue.old }
    requires few { length queue.old.items ≤ 10_000 }
    requires count { dropped + 10_001 < 2 ^ 64 }
    requires indexed { IsIndexed dropped numbers.old.entries queue.old.items }
    requires under { at_name kept.token numbers.old.entries ≡ Some (dropped + length queue.old.items) }
    ensures queue { queue.new.items ≡ with_kept kept queue.old.items }
    ensures indexed { IsIndexed result numbers.new.entries queue.new.items }
    ensures few { length queue.new.items ≤ 10_000 }
    ensures count { result + length queue.new.items ≡ dropped + length queue.old.items + 1 }
{
    queue.push_back_reserved(kept);
    if queue.len() > MOST_KEPT {
        drop_oldest(numbers, queue);
        return dropped + 1;
    }
    dropped
}

fn number_under(numbers: &BTreeMap<Token, u64>, token: &Token) -> Option<u64>
    ensures { result ≡ at_name token.now numbers.now.entries }
{
    match numbers.get(token) {
        Some(number) => Some(*number),
        None => None,
    }
}

// The reply with this number, if it has this token; the oldest one has the number `first`.
fn reply_at<'a>(
    queue: &'a VecDeque<Kept>,
    first: u64,
    number: Option<u64>,
    token: &Token,
) -> Option<&'a Kept>
    ensures { option_copied result ≡ found_at first token.now queue.now.items number }
{
    let Some(number) = number else {
        return None;
    };
    if number < first {
        return None;
    }
    match queue.get((number - first) as usize) {
        Some(kept) => {
            if kept.token == *token {
                Some(kept)
            } else {
                None
            }
        }
        None => None,
    }
}

fn told_again(kept: &Kept, command: &Command) -> Result<Option<Reply>, Refusal>
    ensures { (result ≡ recalled (Some (plain_reply kept.now)) command.now) ⊎ (result ≡ Err Refusal.NoMemory) }
{
    if !kept.command.is_same(command) {
        return Err(Refusal::TokenReused {
            kind: kept.command.kind(),
        });
    }
    let reply = kept.reply()?;
    Ok(Some(reply))
}

// Drops the oldest reply, and its token.
fn drop_oldest(numbers: &mut BTreeMap<Token, u64>, queue: &mut VecDeque<Kept>)
    ensures queue { queue.new.items ≡ drop 1 queue.old.items }
    ensures numbers { (first : ℕ) → 0 < length queue.old.items → IsIndexed first numbers.old.entries queue.old.items
        → IsIndexed (first + 1) numbers.new.entries queue.new.items }
{
    if let Some(oldest) = queue.pop_front() {
        numbers.remove(&oldest.token);
        drop(oldest);
    }
}

// Adds one of the replies from which a store is made, under the number of its place.
fn take_up(
    numbers: &mut BTreeMap<Token, u64>,
    queue: &mut VecDeque<Kept>,
    kept: Kept,
) -> Result<(), NoMemory>
    requires few { length queue.old.items < 10_000 }
    requires new { kept_in kept.token queue.old.items ≡ None }
    requires indexed { IsIndexed 0 numbers.old.entries queue.old.items }
    ensures queue { OnOk result (queue.new.items ≡ queue.old.items ++ kept ∷ []) }
    ensures indexed { OnOk result (IsIndexed 0 numbers.new.entries queue.new.items) }
{
    let number = queue.len() as u64;
    match make_ready(numbers, queue, &kept.token, number) {
        Ok(()) => {
            queue.push_back_reserved(kept);
            Ok(())
        }
        Err(error) => {
            drop(kept);
            Err(error)
        }
    }
}

// Copies a kept command, with the two parts that its reply has.
fn copy_of(kept: &Kept) -> Result<Kept, NoMemory>
    ensures same { IfOk result (λ copy. plain_reply copy ≡ plain_reply kept.now) }
    ensures told { IfOk result IsTold }
{
    let (marker, told) = told_of(kept)?;
    let (token, command) = copies_of(&kept.token, &kept.command)?;
    Ok(Kept {
        token,
        moment: kept.moment,
        marker,
        told,
        command,
    })
}

// The two parts that a kept reply has.
fn told_of(kept: &Kept) -> Result<(bool, u64), NoMemory>
    ensures { IfOk result (λ x. (x.0 ≡ tells_marker (reply_of kept.now)) × (x.1 ≡ number_told (reply_of kept.now))) }
{
    let reply = kept.reply()?;
    let told = (marker_told(&reply), number_told(&reply));
    drop(reply);
    Ok(told)
}

fn copies_of_all(alloc: Global, queue: &VecDeque<Kept>) -> Result<Vec<Kept>, NoMemory>
    ensures same { IfOk result (λ all. plain_replies all.items ≡ plain_replies queue.now.items) }
    ensures told { IfOk result (λ all. AllByRecursion IsTold all.items) }
{
    let mut all = Vec::new(alloc);
    for kept in queue.iter() {
        push_copy(&mut all, kept)?;
    }
    Ok(all)
}

fn push_copy(all: &mut Vec<Kept>, kept: &Kept) -> Result<(), NoMemory>
    ensures same { OnOk result
        (plain_replies all.new.items ≡ plain_replies all.old.items ++ plain_reply kept.now ∷ []) }
    ensures told { OnOk result (AllByRecursion IsTold all.old.items → AllByRecursion IsTold all.new.items) }
{
    let copy = copy_of(kept)?;
    Ok(all.push(copy)?)
}
