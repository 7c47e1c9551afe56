//! The keys that the next requests of a user's connections seem to ask for. The worker reads what
//! holds them ahead, for all these connections at once, so that their requests don't wait for
//! memory one after another. Nothing rests on a guess, and no clause speaks of it.
use crate::link::requests::REQUESTS;
use std::alloc::{AllocError, Global};
use tc_item::hash;
use tc_session::Session;

/// The most keys that are read ahead at once.
const KEYS: usize = 128;

/// The hashes of up to 128 keys, and which places of a turn's list were searched for them.
#[derive(Drop)]
pub struct Ahead {
    hashes: Vec<u64>,
    /// The place behind the last one searched.
    next: usize,
}

impl Ahead {
    /// Makes an empty list, with room for all keys.
    pub fn new(alloc: Global) -> Result<Ahead, AllocError> {
        Ok(Ahead {
            hashes: Vec::with_capacity(alloc, KEYS)?,
            next: 0,
        })
    }

    /// Whether the connection at a place was searched in this turn.
    pub fn is_seen(&self, at: usize) -> bool {
        at < self.next
    }

    /// Clears the list, and starts at a place.
    pub fn begin(&mut self, at: usize) {
        self.hashes.clear();
        self.next = at;
    }

    /// Notes that the next connection, at this place, was searched.
    pub fn note_seen(&mut self, at: usize) {
        self.next = at.saturating_add(1);
    }

    /// Whether there is no room for another key.
    pub fn is_full(&self) -> bool {
        self.hashes.len() >= KEYS
    }

    /// Returns the hashes of the keys.
    pub fn hashes(&self) -> &[u64] {
        self.hashes.as_slice()
    }

    /// Adds the keys of a session's next requests: of up to 16 requests, as far as there is room.
    pub(crate) fn look(&mut self, session: &Session) {
        let mut at = 0;
        for _ in 0..REQUESTS {
            if self.is_full() {
                return;
            }
            let Some(peeked) = session.peek(at) else {
                return;
            };
            let _ = self.hashes.push(hash(peeked.key));
            let Some(end) = peeked.end else {
                return;
            };
            at = at.saturating_add(end);
        }
    }
}
