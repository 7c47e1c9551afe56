//! A wire over a socket.
ghost use Rattle.std.specs.Prelude.{◌≡◌};
ghost use Rattle.std.specs.Io.{WritesAtMost};
ghost use Rattle.std.specs.Io.KnownBytes.{WriteAppends};

use crate::remarks::notice_of;
use crate::stream::Stream;
use mio::net::TcpStream;
use mio::{Registry, Token};
use std::alloc::Global;
use std::io::{self, ErrorKind, IoSlice};
use std::sync::{Arc, Wait};
use tc_connections::{Connections, ENDING, READABLE, Readiness, WRITABLE};
use tc_fairness::Traffic;
use tc_links::{Change, Got, News, Parts, Put, Remark, Wire, home_of};
use tc_users::UserNo;

/// After this many reads without a write, the socket counts them for its worker.
const MOST_UNNOTED: u64 = 16;

/// A socket's place in the readiness of its worker, until it is dropped.
struct Watch {
    readiness: Arc<Readiness, Global>,
    at: usize,
    /// The home of its user, once known.
    home: Option<usize>,
}

impl Drop for Watch {
    fn drop(self) {
        let Watch {
            readiness,
            at,
            home: _,
        } = self;
        readiness.free(at);
    }
}

/// Returns the home of a user among those that a worker counts by; `None` if there are none.
fn home_of_user(readiness: &Readiness, user: UserNo) -> Option<usize> {
    match readiness.counts().homes() {
        0 => None,
        homes => Some(home_of(user, homes)),
    }
}

/// A socket that calls the system only if the poll reported it. It has a place among the
/// connections until it is dropped. Its bytes are its stream's.
pub struct Socket<S: Stream = TcpStream> {
    stream: S,
    /// None while it is on its way to a worker.
    watch: Option<Watch>,
    connections: Arc<Connections, Global>,
    place: usize,
    /// The user that logged in.
    user: Option<UserNo>,
    /// What its worker did and has not counted yet.
    done: Traffic,
}

impl<S: Stream> Drop for Socket<S> {
    fn drop(self) {
        let Socket {
            stream,
            watch,
            connections,
            place,
            user: _,
            done: _,
        } = self;
        drop(stream);
        drop(watch);
        connections.leave(place);
    }
}

impl<S: Stream> Socket<S> {
    /// Makes a wire with this place among the connections, before a worker has it.
    pub(crate) fn new(stream: S, connections: Arc<Connections, Global>, place: usize) -> Socket<S>
        ensures { result.stream ≡ stream }
    {
        Socket {
            stream,
            watch: None,
            connections,
            place,
            user: None,
            done: Traffic::default(),
        }
    }

    /// Takes a place in a worker's readiness, and returns whether there was one.
    pub(crate) fn claim(&mut self, readiness: Arc<Readiness, Global>) -> bool
        ensures { self.new.stream ≡ self.old.stream }
    {
        let Some(at) = readiness.claim(self.place) else {
            return false;
        };
        let home = self.home_on(&readiness);
        self.watch = Some(Watch {
            readiness,
            at,
            home,
        });
        true
    }

    /// Takes a place in a worker's readiness and registers with its poll. Returns whether both
    /// succeeded; if not, it has no place.
    pub(crate) fn join(&mut self, registry: &Registry, readiness: Arc<Readiness, Global>) -> bool
        ensures gives_nothing { S.gave self.new.stream ≡ S.gave self.old.stream }
        ensures takes_nothing { S.took self.new.stream ≡ S.took self.old.stream }
    {
        if !self.claim(readiness) {
            return false;
        }
        let is_registered = match &self.watch {
            Some(watch) => self.stream.register(registry, Token(watch.at)),
            None => false,
        };
        if !is_registered {
            self.watch = None;
        }
        is_registered
    }

    /// Returns the home to which its worker's work counts.
    fn home_on(&self, readiness: &Readiness) -> Option<usize> {
        home_of_user(readiness, self.user?)
    }

    /// Adds a call of the system that moved `bytes` bytes.
    fn count(&mut self, bytes: usize)
        ensures { self.new.stream ≡ self.old.stream }
    {
        self.done.calls = self.done.calls.saturating_add(1);
        self.done.bytes = self.done.bytes.saturating_add(bytes as u64);
    }

    /// Adds what its worker did to the worker's counts.
    fn note_done(&mut self)
        ensures { self.new.stream ≡ self.old.stream }
    {
        if let Some(watch) = &self.watch
            && let Some(home) = watch.home
        {
            let counts = watch.readiness.counts();
            counts.note(home, self.done.calls, self.done.bytes);
        }
        self.done = Traffic::default();
    }

    /// Adds a read of `bytes` bytes. A write mostly follows soon, and counts both in one step.
    fn count_read(&mut self, bytes: usize)
        ensures { self.new.stream ≡ self.old.stream }
    {
        self.count(bytes);
        if self.done.calls >= MOST_UNNOTED {
            self.note_done();
        }
    }

    /// Adds a write of `bytes` bytes, and counts all that was done.
    fn count_write(&mut self, bytes: usize)
        ensures { self.new.stream ≡ self.old.stream }
    {
        self.count(bytes);
        self.note_done();
    }

    /// Leaves the worker's poll and gives up its place in the readiness.
    pub(crate) fn leave(&mut self, registry: &Registry)
        ensures gives_nothing { S.gave self.new.stream ≡ S.gave self.old.stream }
        ensures takes_nothing { S.took self.new.stream ≡ S.took self.old.stream }
    {
        self.stream.deregister(registry);
        self.watch = None;
    }

    /// Whether this bit of its readiness is set.
    fn has(&self, bit: u64) -> bool {
        match &self.watch {
            Some(watch) => watch.readiness.has(watch.at, bit),
            None => false,
        }
    }

    /// Clears a bit of its readiness, since the system answered that nothing can be done.
    fn clear(&self, bit: u64) {
        if let Some(watch) = &self.watch {
            watch.readiness.clear(watch.at, bit);
        }
    }

    /// Clears `READABLE` after a short read of `n` bytes into `room`. The edge-triggered poll
    /// reports later bytes, but reports an end only once, so an ending socket stays readable.
    fn note_read(&self, n: usize, room: usize) {
        if n < room && !self.has(ENDING) {
            self.clear(READABLE);
        }
    }

    /// Hands the first bytes to the system in one call, without a copy: one slice, or up to four.
    fn send(&mut self, from: &Parts<'_>) -> io::Result<usize>
        ensures within { WritesAtMost result from.now }
        ensures takes { WriteAppends (S.took self.old.stream) (S.took self.new.stream) result
            from.now }
        ensures gives_nothing { S.gave self.new.stream ≡ S.gave self.old.stream }
    {
        let (first, behind) = from.split_first();
        if behind.is_empty() {
            return self.stream.send(first);
        }
        let (second, behind) = behind.split_first();
        let (third, behind) = behind.split_first();
        let (fourth, _) = behind.split_first();
        self.stream.send_slices(&[
            IoSlice::new(first),
            IoSlice::new(second),
            IoSlice::new(third),
            IoSlice::new(fourth),
        ])
    }
}

impl<S: Stream> Wire for Socket<S> {
    ghost gave = { λ s. S.gave s.stream };

    ghost took = { λ s. S.took s.stream };

    fn read(&mut self, into: &mut [u8]) -> Got {
        if self.connections.is_over(self.place) {
            return Got::Failed;
        }
        if !self.has(READABLE) {
            return Got::Later;
        }
        match self.stream.receive(into) {
            Ok(0) => Got::Ended,
            Ok(n) => {
                self.connections.note_heard(self.place);
                self.count_read(n);
                self.note_read(n, into.len());
                Got::Bytes(n)
            }
            Err(e) if e.kind() == ErrorKind::WouldBlock => {
                self.clear(READABLE);
                Got::Later
            }
            Err(e) if e.kind() == ErrorKind::Interrupted => Got::Bytes(0),
            Err(_) => Got::Failed,
        }
    }

    fn write(&mut self, from: &Parts<'_>) -> Put {
        if self.connections.is_over(self.place) {
            return Put::Failed;
        }
        if !self.has(WRITABLE) {
            return Put::Later;
        }
        match self.send(from) {
            Ok(n) => {
                self.connections.note_taken(self.place, true);
                self.count_write(n);
                Put::Wrote(n)
            }
            Err(e) if e.kind() == ErrorKind::WouldBlock => {
                self.connections.note_taken(self.place, false);
                self.clear(WRITABLE);
                Put::Later
            }
            Err(e) if e.kind() == ErrorKind::Interrupted => Put::Wrote(0),
            Err(_) => Put::Failed,
        }
    }

    fn set_key(&mut self, key: usize) -> bool {
        match &self.watch {
            Some(watch) => {
                watch.readiness.set_key(watch.at, key);
                true
            }
            None => false,
        }
    }

    fn set_user(&mut self, user: UserNo) {
        self.connections.bind(self.place, user);
        self.user = Some(user);
        if let Some(watch) = &mut self.watch {
            watch.home = home_of_user(&watch.readiness, user);
        }
    }

    fn note<R: Wait>(&mut self, rt: &R, remark: Remark) {
        if remark == Remark::HoldsUp {
            self.connections.oust(self.place);
        }
        if let Remark::News(News::LoginRefused(_)) = remark {
            self.connections.count_refused_login();
        }
        if let Some(peer) = self.connections.peer_at(self.place) {
            self.connections
                .note(rt, notice_of(peer, self.user, remark));
        }
    }
}

/// The change of a worker that takes a socket over: a place in its readiness, and its poll.
#[derive(Drop)]
pub(crate) struct Join<'a> {
    pub(crate) registry: &'a Registry,
    pub(crate) readiness: Arc<Readiness, Global>,
}

impl<'a, S: Stream> Change<Socket<S>> for Join<'a> {
    fn change(self, wire: &mut Socket<S>) -> bool {
        let Join {
            registry,
            readiness,
        } = self;
        wire.join(registry, readiness)
    }
}

/// The change of a worker that passes a socket on: it leaves the poll and the readiness.
#[derive(Drop)]
pub(crate) struct Leave<'a> {
    pub(crate) registry: &'a Registry,
}

impl<'a, S: Stream> Change<Socket<S>> for Leave<'a> {
    fn change(self, wire: &mut Socket<S>) -> bool {
        wire.leave(self.registry);
        true
    }
}
