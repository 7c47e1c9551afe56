//! A wire in memory, which compares what it is sent with what it expects.
ghost use Rattle.std.specs.Prelude.{None, ◌≡◌, ◌<◌, ◌≤◌, length};

use std::alloc::Global;
use std::sync::atomic::AtomicU64;
use std::sync::atomic::Ordering::SeqCst;
use std::sync::{Arc, Wait};
use tc_links::{Got, Parts, Put, Remark, Wire};
use tc_users::UserNo;

/// How the bytes of a wire arrive.
#[derive(Clone, Copy, Debug, PartialEq, Eq)]
pub enum Cut {
    /// In two pieces, cut at this byte; all at once if it is 0.
    At(usize),
    /// A byte at a time.
    Bytes,
}

/// What a wire answers once all its bytes are read, or earlier.
#[derive(Clone, Copy, Debug, PartialEq, Eq)]
pub enum Ending {
    /// Its reads report the end.
    Ends,
    /// Its reads report nothing yet, for ever. No inlet watches it, so its worker reads it each
    /// turn.
    Stays,
    /// Its reads report nothing yet, for ever. An inlet watches it, so its worker lets it rest.
    Rests,
    /// Its read of this number, counted from 1, fails.
    FailsAtRead(u64),
    /// Its write of this number, counted from 1, fails.
    FailsAtWrite(u64),
    /// Its writes of this number and the next take 0 bytes, and meanwhile it has nothing to read.
    /// An inlet watches it, and it ends once all is read.
    TakesNothingAt(u64),
}

/// What a wire gives, and what it expects to be sent.
#[derive(Clone, Copy, Debug)]
pub struct Plan {
    pub sends: &'static [u8],
    pub cut: Cut,
    pub ending: Ending,
    pub expects: &'static [u8],
}

/// What a scene sees of a wire.
#[derive(Drop)]
pub struct Seen {
    /// How many of the expected bytes it was sent, in order.
    pub told: AtomicU64,
    /// How many writes were not the next expected bytes.
    pub odd: AtomicU64,
    pub reads: AtomicU64,
}

impl Seen {
    pub fn new() -> Seen {
        Seen {
            told: AtomicU64::new(0),
            odd: AtomicU64::new(0),
            reads: AtomicU64::new(0),
        }
    }

    /// Returns whether the wire was sent all expected bytes and nothing else.
    pub fn has_heard(&self, plan: &Plan) -> bool {
        self.odd.load(SeqCst) == 0 && self.told.load(SeqCst) == plan.expects.len() as u64
    }
}

/// A wire in memory that follows a plan.
#[derive(Drop)]
pub struct Memory {
    plan: Plan,
    at: usize,
    told: usize,
    reads: u64,
    writes: u64,
    /// Whether its last write took 0 bytes.
    waits: bool,
    seen: Arc<Seen, Global>,
}

impl Memory {
    pub fn new(plan: Plan, seen: Arc<Seen, Global>) -> Memory {
        Memory {
            plan,
            at: 0,
            told: 0,
            reads: 0,
            writes: 0,
            waits: false,
            seen,
        }
    }

    /// Returns how many bytes the next read gives at most.
    fn next_piece(&self) -> usize {
        let left = self.plan.sends.len().saturating_sub(self.at);
        match self.plan.cut {
            Cut::At(place) if self.at < place => left.min(place - self.at),
            Cut::At(_) => left,
            Cut::Bytes => left.min(1),
        }
    }

    /// Returns the byte that the wire gives at a place.
    fn byte(&self, at: usize) -> u8 {
        match self.plan.sends.get(at) {
            Some(byte) => *byte,
            None => b'x',
        }
    }

    /// Gives the next piece, as far as there is room. Returns its length, 0 if all is read.
    fn give(&mut self, into: &mut [u8]) -> usize
        ensures { result ≤ length into.old }
    {
        let n = self.next_piece().min(into.len());
        for i in 0..n {
            into[i] = self.byte(self.at.saturating_add(i));
        }
        self.at = self.at.saturating_add(n);
        n
    }

    /// Returns whether the current write takes 0 bytes.
    fn takes_nothing(&self) -> bool {
        match self.plan.ending {
            Ending::TakesNothingAt(n) => matches!(self.writes.checked_sub(n), Some(0 | 1)),
            _ => false,
        }
    }

    /// Takes bytes. Counts them as heard if they are the next expected ones, otherwise as one odd
    /// write.
    fn hear(&mut self, from: &[u8]) {
        let end = self.told.saturating_add(from.len());
        match self.plan.expects.get(self.told..end) {
            Some(part) if part == from => {
                self.told = end;
                self.seen.told.store(end as u64, SeqCst);
            }
            _ => {
                self.seen.odd.fetch_add(1, SeqCst);
            }
        }
    }
}

impl Wire for Memory {
    ghost gave = { λ _. None };

    ghost took = { λ _. None };

    fn read(&mut self, into: &mut [u8]) -> Got {
        self.reads = self.reads.saturating_add(1);
        self.seen.reads.fetch_add(1, SeqCst);
        if self.plan.ending == Ending::FailsAtRead(self.reads) {
            return Got::Failed;
        }
        if self.waits {
            return Got::Later;
        }
        match (self.give(into), self.plan.ending) {
            (0, Ending::Ends | Ending::TakesNothingAt(_)) => Got::Ended,
            (0, _) => Got::Later,
            (n, _) => Got::Bytes(n),
        }
    }

    fn write(&mut self, from: &Parts<'_>) -> Put {
        self.writes = self.writes.saturating_add(1);
        self.waits = self.takes_nothing();
        if self.waits {
            return Put::Wrote(0);
        }
        if self.plan.ending == Ending::FailsAtWrite(self.writes) {
            return Put::Failed;
        }
        let (first, _) = from.split_first();
        self.hear(first);
        Put::Wrote(first.len())
    }

    fn set_key(&mut self, _key: usize) -> bool {
        matches!(self.plan.ending, Ending::Rests | Ending::TakesNothingAt(_))
    }

    fn set_user(&mut self, _user: UserNo) {}

    fn note<R: Wait>(&mut self, _rt: &R, _remark: Remark) {}
}
