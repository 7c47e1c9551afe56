//! A stream in memory, which knows what it gave and took.
ghost use Rattle.std.specs.Prelude.{◌≤◌, Some, take, vec_len};

use mio::{Registry, Token};
use std::alloc::{AllocError, Global};
use std::io::{self, ErrorKind, IoSlice, Write};
use std::sync::Arc;
use std::sync::atomic::AtomicU64;
use std::sync::atomic::Ordering::SeqCst;
use tc_net::Stream;

/// The errors with which a stream answers calls before one gives or takes bytes.
#[derive(Clone, Copy, Debug, PartialEq, Eq)]
pub enum Trouble {
    Never,
    Interrupted,
    WouldBlock,
    /// One call is interrupted, and the next would block.
    Both,
}

/// How a stream behaves.
#[derive(Clone, Copy)]
pub struct Habits {
    /// The most bytes of a read.
    pub piece: usize,
    /// The most bytes of the first write; `later` has those of each later one.
    pub first: usize,
    pub later: usize,
    pub trouble: Trouble,
    /// After three times this many reads every read fails; `writes` is the same for writes.
    pub reads: u32,
    pub writes: u32,
}

/// A stream that gives and takes all at once, and never fails.
pub const EASY: Habits = Habits {
    piece: usize::MAX,
    first: usize::MAX,
    later: usize::MAX,
    trouble: Trouble::Never,
    reads: u32::MAX,
    writes: u32::MAX,
};

/// The calls of one direction of a stream. If it has trouble, at least every third call gives or
/// takes bytes.
#[derive(Clone, Copy)]
struct Calls {
    trouble: Trouble,
    count: u32,
    /// Calls after three times this many fail.
    most: u32,
}

impl Calls {
    fn new(trouble: Trouble, most: u32) -> Calls {
        Calls {
            trouble,
            count: 0,
            most,
        }
    }

    /// Counts a call. Returns the error with which it fails, if it does.
    fn fault(&mut self) -> Option<ErrorKind> {
        let count = self.count;
        self.count = count.saturating_add(1);
        if count / 3 >= self.most {
            return Some(ErrorKind::ConnectionReset);
        }
        match (count % 3, self.trouble) {
            (0, Trouble::Interrupted | Trouble::Both) => Some(ErrorKind::Interrupted),
            (1, Trouble::WouldBlock | Trouble::Both) => Some(ErrorKind::WouldBlock),
            _ => None,
        }
    }
}

/// The bytes that a stream took. A call takes a few at a time.
#[derive(Drop)]
struct Heard {
    bytes: Vec<u8>,
    /// How many more bytes the current call takes.
    room: usize,
}

impl Write for Heard {
    ghost contents = { λ h. Some h.bytes.items };

    fn write(&mut self, from: &[u8]) -> io::Result<usize> {
        let n = from.len().min(self.room);
        if self.bytes.extend_from_slice(&from[..n]).is_err() {
            return Err(ErrorKind::OutOfMemory.into());
        }
        self.room -= n;
        Ok(n)
    }

    fn flush(&mut self) -> io::Result<()> {
        Ok(())
    }
}

/// What a client sends, and what it expects.
#[derive(Drop)]
pub struct Said {
    pub sends: Vec<u8>,
    pub expects: Vec<u8>,
}

/// A client's stream: the bytes that it gives, how many it gave, and the bytes that it took.
#[derive(Drop)]
pub struct Reel {
    sends: Vec<u8>,
    at: usize,
    heard: Heard,
    habits: Habits,
    reads: Calls,
    writes: Calls,
    /// How many bytes it took, or `u64::MAX` if they are not the front of `expects`.
    told: Arc<AtomicU64, Global>,
    expects: Vec<u8>,
    ghost within: { at ≤ vec_len sends },
}

impl Reel {
    /// Returns a client's stream with these habits. It stores in `told` how many bytes it took.
    pub fn new(
        alloc: Global,
        said: &Said,
        habits: Habits,
        told: Arc<AtomicU64, Global>,
    ) -> Result<Reel, AllocError> {
        Ok(Reel {
            sends: Vec::from_slice(alloc, &said.sends)?,
            at: 0,
            heard: Heard {
                bytes: Vec::new(alloc),
                room: 0,
            },
            habits,
            reads: Calls::new(habits.trouble, habits.reads),
            writes: Calls::new(habits.trouble, habits.writes),
            told,
            expects: Vec::from_slice(alloc, &said.expects)?,
        })
    }

    /// Stores in `told` how many bytes the stream took, or `u64::MAX` if they are not the front of
    /// `expects`.
    fn tell(&self) {
        let heard = self.heard.bytes.as_slice();
        let told = match self.expects.get(..heard.len()) {
            Some(front) if front == heard => heard.len() as u64,
            _ => u64::MAX,
        };
        self.told.store(told, SeqCst);
    }

    /// Returns how many bytes the next call takes at most.
    fn room(&self) -> usize {
        if self.heard.bytes.is_empty() {
            self.habits.first
        } else {
            self.habits.later
        }
    }
}

impl Stream for Reel {
    ghost gave = { λ r. Some (take r.at r.sends.items) };

    ghost took = { λ r. Some r.heard.bytes.items };

    fn receive(&mut self, into: &mut [u8]) -> io::Result<usize> {
        if let Some(fault) = self.reads.fault() {
            return Err(fault.into());
        }
        let n = (self.sends.len() - self.at)
            .min(into.len())
            .min(self.habits.piece);
        let part = &mut into[..n];
        part.copy_from_slice(&self.sends[self.at..self.at + n]);
        self.at += n;
        Ok(n)
    }

    fn send(&mut self, from: &[u8]) -> io::Result<usize> {
        if let Some(fault) = self.writes.fault() {
            return Err(fault.into());
        }
        self.heard.room = self.room();
        let taken = self.heard.write(from);
        self.tell();
        taken
    }

    fn send_slices(&mut self, from: &[IoSlice<'_>]) -> io::Result<usize> {
        if let Some(fault) = self.writes.fault() {
            return Err(fault.into());
        }
        self.heard.room = self.room();
        let taken = self.heard.write_vectored(from);
        self.tell();
        taken
    }

    fn register(&mut self, _registry: &Registry, _token: Token) -> bool {
        true
    }

    fn deregister(&mut self, _registry: &Registry) {}
}
