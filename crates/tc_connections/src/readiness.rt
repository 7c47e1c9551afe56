//! What the poll of one worker reported of each of its sockets, and what the worker did.
use crate::counts::Counts;
use std::alloc::{AllocError, Global};
use std::sync::atomic::AtomicU64;
use std::sync::atomic::Ordering::SeqCst;

/// A socket may be read.
pub const READABLE: u64 = 1;

/// A socket's peer sends no more, or the socket failed. It stays readable, so that a read finds the
/// end.
pub const ENDING: u64 = 2;

/// A socket may be written.
pub const WRITABLE: u64 = 4;

/// A socket has the place.
const TAKEN: u64 = 8;

/// A socket that the worker's poll watches.
#[derive(Drop)]
struct Watched {
    said: AtomicU64,
    /// The worker's key of the socket.
    key: AtomicU64,
    /// The socket's place among the connections.
    connection: AtomicU64,
}

/// A place for each socket of a worker, and what the worker did. Only the worker's thread writes
/// the words. They are atomic since its inlet and its wires share them.
#[derive(Drop)]
pub struct Readiness {
    places: Vec<Watched>,
    counts: Counts,
}

impl Readiness {
    /// Makes `count` places, for one of `workers` workers.
    pub fn new(alloc: Global, count: usize, workers: usize) -> Result<Readiness, AllocError> {
        let counts = Counts::new(alloc, workers)?;
        let mut places = Vec::with_capacity(alloc, count)?;
        for _ in 0..count {
            places.push(Watched {
                said: AtomicU64::new(0),
                key: AtomicU64::new(0),
                connection: AtomicU64::new(0),
            })?;
        }
        Ok(Readiness { places, counts })
    }

    /// Returns what the worker did.
    pub fn counts(&self) -> &Counts {
        &self.counts
    }

    /// Returns how many places there are.
    pub fn len(&self) -> usize {
        self.places.len()
    }

    /// Takes a free place for a socket with this place among the connections, and marks it as
    /// readable and writable. `None` if none is free.
    pub fn claim(&self, connection: usize) -> Option<usize> {
        for at in 0..self.places.len() {
            let place = &self.places[at];
            if place.said.load(SeqCst) == 0 {
                place.connection.store(connection as u64, SeqCst);
                place.said.store(TAKEN | READABLE | WRITABLE, SeqCst);
                return Some(at);
            }
        }
        None
    }

    /// Returns the place among the connections of the socket that has this place; `None` if none
    /// has it.
    pub fn connection(&self, at: usize) -> Option<usize> {
        let place = self.places.get(at)?;
        if place.said.load(SeqCst) & TAKEN == 0 {
            return None;
        }
        Some(place.connection.load(SeqCst) as usize)
    }

    /// Frees a place.
    pub fn free(&self, at: usize) {
        if let Some(place) = self.places.get(at) {
            place.said.store(0, SeqCst);
        }
    }

    /// Whether one of these bits of a place is set.
    pub fn has(&self, at: usize, bit: u64) -> bool {
        match self.places.get(at) {
            Some(place) => place.said.load(SeqCst) & bit != 0,
            None => false,
        }
    }

    /// Sets these bits of a place.
    pub fn set(&self, at: usize, bits: u64) {
        if let Some(place) = self.places.get(at) {
            place.said.fetch_or(bits, SeqCst);
        }
    }

    /// Clears these bits of a place.
    pub fn clear(&self, at: usize, bits: u64) {
        if let Some(place) = self.places.get(at) {
            place.said.fetch_and(!bits, SeqCst);
        }
    }

    /// Sets the worker's key of the socket that has a place.
    pub fn set_key(&self, at: usize, key: usize) {
        if let Some(place) = self.places.get(at) {
            place.key.store(key as u64, SeqCst);
        }
    }

    /// Returns the worker's key of the socket that has a place; `None` if none has it.
    pub fn key(&self, at: usize) -> Option<usize> {
        let place = self.places.get(at)?;
        if place.said.load(SeqCst) & TAKEN == 0 {
            return None;
        }
        Some(place.key.load(SeqCst) as usize)
    }
}
