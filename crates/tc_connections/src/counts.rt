//! What one worker did since it began. The worker writes it, and whoever deals out the work reads
//! it.
use std::alloc::{AllocError, Global};
use std::sync::atomic::AtomicU64;
use std::sync::atomic::Ordering::SeqCst;

/// Microseconds that a look at the poll takes by itself; they don't count as waiting.
const LOOKING: u64 = 5;

/// What a worker did for the users of a home.
#[derive(Drop)]
struct Tally {
    calls: AtomicU64,
    bytes: AtomicU64,
}

/// A worker's waits, in microseconds, and its work by home.
#[derive(Drop)]
pub struct Counts {
    /// Microseconds that it waited, without the current wait.
    waited: AtomicU64,
    /// When its current wait began, in microseconds since the server began; 0 if it doesn't wait.
    since: AtomicU64,
    /// Microseconds of its longest turn since `take_longest_turn` was last called.
    longest: AtomicU64,
    tallies: Vec<Tally>,
}

impl Counts {
    /// Makes the counts of a worker that did nothing, for `homes` homes.
    pub fn new(alloc: Global, homes: usize) -> Result<Counts, AllocError> {
        let mut tallies = Vec::with_capacity(alloc, homes)?;
        for _ in 0..homes {
            tallies.push(Tally {
                calls: AtomicU64::new(0),
                bytes: AtomicU64::new(0),
            })?;
        }
        Ok(Counts {
            waited: AtomicU64::new(0),
            since: AtomicU64::new(0),
            longest: AtomicU64::new(0),
            tallies,
        })
    }

    /// Returns how many homes there are.
    pub fn homes(&self) -> usize {
        self.tallies.len()
    }

    /// Adds `calls` reads and writes, of `bytes` bytes in all, for the users of a home.
    pub fn note(&self, home: usize, calls: u64, bytes: u64) {
        if let Some(tally) = self.tallies.get(home) {
            tally.calls.fetch_add(calls, SeqCst);
            tally.bytes.fetch_add(bytes, SeqCst);
        }
    }

    /// The worker ends a turn of so many microseconds.
    pub fn note_turn(&self, micros: u64) {
        if micros > self.longest.load(SeqCst) {
            self.longest.store(micros, SeqCst);
        }
    }

    /// Returns the microseconds of the worker's longest turn since the last such call.
    pub fn take_longest_turn(&self) -> u64 {
        self.longest.swap(0, SeqCst)
    }

    /// The worker begins to wait at `now`, in microseconds since the server began.
    pub fn wait_from(&self, now: u64) {
        self.since.store(now, SeqCst);
    }

    /// The worker stops waiting at `now`.
    pub fn wait_until(&self, now: u64) {
        let since = self.since.load(SeqCst).saturating_add(LOOKING);
        self.since.store(0, SeqCst);
        self.waited.fetch_add(now.saturating_sub(since), SeqCst);
    }

    /// Returns how many microseconds the worker waited, with its current wait up to `now`.
    pub fn waited(&self, now: u64) -> u64 {
        let waited = self.waited.load(SeqCst);
        match self.since.load(SeqCst) {
            0 => waited,
            since => waited.saturating_add(now.saturating_sub(since)),
        }
    }

    /// Returns how often the worker read and wrote for the users of a home.
    pub fn calls(&self, home: usize) -> u64 {
        match self.tallies.get(home) {
            Some(tally) => tally.calls.load(SeqCst),
            None => 0,
        }
    }

    /// Returns how many bytes the worker read and wrote for the users of a home.
    pub fn bytes(&self, home: usize) -> u64 {
        match self.tallies.get(home) {
            Some(tally) => tally.bytes.load(SeqCst),
            None => 0,
        }
    }
}
