// Places for long replies.
use std::sync::{Condvar, Mutex, Wait};

/// How many long replies are in memory at once.
const PLACES: u32 = 16;

/// The places for long replies. A worker takes one before it asks for a reply that may be long, and gives it back once
/// the reply is short, or is no longer in memory.
///
/// No clause says how many places are taken at once, or that a worker gets one: a lock's value is known by its type
/// alone. The live tests show it.
#[derive(Drop)]
pub(crate) struct LongReplies {
    free: Mutex<u32>,
    freed: Condvar,
}

impl LongReplies {
    pub(crate) fn new() -> LongReplies {
        LongReplies {
            free: Mutex::new(PLACES),
            freed: Condvar::new(),
        }
    }

    /// Returns the places if so many workers have to share them. If there is a place for each worker, none is taken.
    pub(crate) fn shared_by(&self, workers: u32) -> Option<&LongReplies> {
        if workers > PLACES { Some(self) } else { None }
    }

    /// Takes a place, and waits without end until one is free.
    pub(crate) fn take<R: Wait>(&self, rt: &R) {
        let mut free = self
            .freed
            .wait_while(rt, self.free.lock(rt), |free| *free == 0);
        *free -= 1;
    }

    /// Gives a place back that was taken.
    pub(crate) fn give_back<R: Wait>(&self, rt: &R) {
        let mut free = self.free.lock(rt);
        *free = free.saturating_add(1);
        drop(free);
        self.freed.notify_one();
    }
}
