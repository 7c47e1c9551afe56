//! A worker's inlet: the connections that the listener and other workers hand over, and the poll in
//! which the worker waits.
ghost use Rattle.std.specs.Prelude.{◌≡◌};

use crate::clocking::micros_since;
use crate::handover::{Arrival, Intake, Outlet, handover};
use crate::socket::{Join, Leave, Socket};
use mio::event::Event;
use mio::net::TcpStream;
use mio::{Events, Poll, Token, Waker};
use std::alloc::{AllocError, Global};
use std::io;
use std::io::ErrorKind;
use std::net::Net;
use std::sync::{Arc, Wait};
use std::time::{Clock, Duration, Instant};
use tc_connections::{Connections, ENDING, READABLE, Readiness, WRITABLE};
use tc_links::{Change, Inlet, Patience, Taken, Talk};

/// The most events that one wait reports.
const EVENTS: usize = 256;

/// The most connections of one worker.
const PLACES: usize = 1_024;

/// The most connections that the inlet takes between two looks at the poll.
const UNPOLLED: u32 = 64;

/// Milliseconds that a worker waits before it tries a connection again, or before it looks whether
/// its last connection is gone at the server's end.
const BRIEF: u64 = 10;

/// Milliseconds that a worker waits if it has nothing to do. An event of its poll ends the wait.
/// Marks that wake nobody (`Connections::ousts`, `retries`) are found after this time at the
/// latest, and so would be a lost event.
const LONG: u64 = 1_000;

/// A worker's inlet: poll, channel and readiness.
#[derive(Drop)]
pub(crate) struct EventLoop<R: Wait + Clock + Drop> {
    rt: R,
    /// When the server began; `None` if the clock can't be read.
    begun: Option<Instant>,
    alloc: Global,
    intake: Intake,
    /// The outlets to all workers, by number; empty if connections stay where they arrived.
    outlets: Vec<Outlet>,
    poll: Poll,
    events: Events,
    readiness: Arc<Readiness, Global>,
    connections: Arc<Connections, Global>,
    /// The keys of the sockets that have something to do. It has room for one key of each place.
    woken: Vec<usize>,
    /// The last look found a connection, so another may wait.
    brought: bool,
    /// How many connections the inlet took since it looked at the poll.
    unpolled: u32,
    /// Value of `Connections::ousts` at the last scan for marked connections.
    ousts: u64,
    /// Value of `Connections::retries` at the last scan for stuck connections.
    retries: u64,
    /// When the worker's current turn began, in microseconds since the server began; 0 before its
    /// first look at the poll.
    turn_began: u64,
    /// The server is ending, and all sockets were woken for that.
    is_ending: bool,
}

/// Returns the bits that an event sets in its socket's readiness.
fn bits_of(event: &Event) -> u64 {
    let is_over = event.is_error() || event.is_write_closed();
    let mut bits = 0;
    if event.is_readable() {
        bits |= READABLE;
    }
    if event.is_read_closed() || is_over {
        bits |= READABLE | ENDING;
    }
    if event.is_writable() || is_over {
        bits |= WRITABLE;
    }
    bits
}

/// Makes the readiness of one of `workers` workers.
fn share_readiness(alloc: Global, workers: usize) -> io::Result<Arc<Readiness, Global>> {
    match Arc::new(alloc, Readiness::new(alloc, PLACES, workers)?) {
        Ok(readiness) => Ok(readiness),
        Err(_) => Err(io::Error::from(ErrorKind::OutOfMemory)),
    }
}

/// Takes room for the events of one wait, and for a key of each place.
fn make_room(alloc: Global) -> Result<(Events, Vec<usize>), AllocError> {
    let woken = Vec::with_capacity(alloc, PLACES)?;
    Ok((Events::with_capacity(alloc, EVENTS)?, woken))
}

/// Makes a poll, and the two ends of its worker's channel.
fn open_poll<N: Net + AllocGlobal>(net: &N) -> io::Result<(Poll, Outlet, Intake)> {
    let poll = Poll::new(net)?;
    let waker = Waker::new(poll.registry(), Token(usize::MAX))?;
    let (outlet, intake) = handover(net.alloc(), waker)?;
    Ok((poll, outlet, intake))
}

impl<R: Wait + Clock + Drop> EventLoop<R> {
    /// Makes the inlet of one of `workers` workers, which passes no connection on yet, and the
    /// outlet to it.
    pub(crate) fn new<N: Net + AllocGlobal>(
        net: &N,
        rt: R,
        connections: Arc<Connections, Global>,
        begun: Option<Instant>,
        workers: usize,
    ) -> io::Result<(EventLoop<R>, Outlet)> {
        let alloc = net.alloc();
        let readiness = share_readiness(alloc, workers)?;
        let (events, woken) = make_room(alloc)?;
        let (poll, outlet, intake) = open_poll(net)?;
        let event_loop = EventLoop {
            rt,
            begun,
            alloc,
            intake,
            outlets: Vec::new(alloc),
            poll,
            events,
            readiness,
            connections,
            woken,
            brought: false,
            unpolled: 0,
            ousts: 0,
            retries: 0,
            turn_began: 0,
            is_ending: false,
        };
        Ok((event_loop, outlet))
    }

    /// Sets the outlets to all workers, in the order of the workers' numbers.
    pub(crate) fn set_outlets(&mut self, outlets: Vec<Outlet>) {
        self.outlets = outlets;
    }

    /// Names the socket of a place to the worker. The worker takes the keys after each look, so the
    /// room for one key of each place suffices; a key that exceeds it is lost only if memory is
    /// refused.
    fn name(&mut self, at: usize) {
        if let Some(key) = self.readiness.key(at) {
            let _ = self.woken.push(key);
        }
    }

    /// Returns how many milliseconds the poll waits.
    fn wait(&self, patience: Patience) -> u64 {
        match patience {
            _ if self.brought => 0,
            Patience::Hurried => 0,
            Patience::Long if !self.is_ending => LONG,
            Patience::Brief | Patience::Long => BRIEF,
        }
    }

    /// Looks at the poll, but only once in `UNPOLLED` connections while many wait.
    fn look(&mut self, patience: Patience) {
        if self.brought && self.unpolled < UNPOLLED {
            self.unpolled += 1;
            return;
        }
        self.unpolled = 0;
        self.listen(patience);
        self.wake_ousted();
        self.wake_stuck();
    }

    /// Once a second, wakes the sockets of stuck connections as if they could be written.
    fn wake_stuck(&mut self) {
        let retries = self.connections.retries();
        if retries == self.retries {
            return;
        }
        self.retries = retries;
        for at in 0..self.readiness.len() {
            if let Some(place) = self.readiness.connection(at)
                && self.connections.is_stuck(place)
            {
                self.readiness.set(at, WRITABLE);
                self.name(at);
            }
        }
    }

    /// Wakes the sockets of connections that are marked to go.
    fn wake_ousted(&mut self) {
        let ousts = self.connections.ousts();
        if ousts == self.ousts {
            return;
        }
        self.ousts = ousts;
        for at in 0..self.readiness.len() {
            if let Some(place) = self.readiness.connection(at)
                && self.connections.is_over(place)
            {
                self.name(at);
            }
        }
    }

    /// Returns a handle of the worker's readiness and counts.
    pub(crate) fn readiness(&self) -> Result<Arc<Readiness, Global>, AllocError> {
        Arc::try_clone(&self.readiness)
    }

    /// Returns the microseconds since the server began; `None` if the clock can't be read.
    fn now(&self) -> Option<u64> {
        micros_since(&self.rt, &self.begun)
    }

    /// Ends the worker's turn at `now`, and begins its next one.
    fn end_turn(&mut self, now: u64) {
        if self.turn_began > 0 {
            let turn = now.saturating_sub(self.turn_began);
            self.readiness.counts().note_turn(turn);
        }
        self.turn_began = now;
    }

    /// Ends the worker's turn, and waits for `wait` milliseconds at most, which counts as waiting
    /// and is part of no turn. A wait of 0 is not counted.
    fn poll_for(&mut self, wait: u64) {
        if let Some(now) = self.now() {
            self.end_turn(now);
            if wait > 0 {
                self.readiness.counts().wait_from(now);
            }
        }
        let _ = self
            .poll
            .poll(&mut self.events, Some(Duration::from_millis(wait)));
        if wait > 0
            && let Some(now) = self.now()
        {
            self.readiness.counts().wait_until(now);
            self.turn_began = now;
        }
    }

    /// Waits, and sets the readiness of the sockets that the poll reports.
    fn listen(&mut self, patience: Patience) {
        self.poll_for(self.wait(patience));
        for event in self.events.iter() {
            let at = event.token().0;
            self.readiness.set(at, bits_of(event));
            if let Some(key) = self.readiness.key(at) {
                let _ = self.woken.push(key);
            }
        }
    }

    /// Wakes all sockets, once, so that they learn of the server's end.
    fn wake_all(&mut self) {
        if self.is_ending {
            return;
        }
        self.is_ending = true;
        for at in 0..self.readiness.len() {
            self.name(at);
        }
    }

    /// Returns the change that makes the poll watch a wire; `None` if memory is refused.
    fn joining(&self) -> Option<Join<'_>> {
        match Arc::try_clone(&self.readiness) {
            Ok(readiness) => Some(Join {
                registry: self.poll.registry(),
                readiness,
            }),
            Err(_) => None,
        }
    }

    /// Makes the poll watch a connection's wire, and returns whether it does.
    fn watch(&self, link: &mut Talk<Socket>) -> bool
        ensures { link.new ≡ link.old }
    {
        match self.joining() {
            Some(join) => link.change_wire(join),
            None => false,
        }
    }

    /// Makes a wire of a new connection. One that the poll can't watch is closed.
    fn give(&self, conn: u32, place: usize, stream: TcpStream) -> Taken<Socket, Talk<Socket>> {
        let Ok(connections) = Arc::try_clone(&self.connections) else {
            self.connections.leave(place);
            return Taken::Nothing;
        };
        let mut wire = Socket::new(stream, connections, place);
        let Some(join) = self.joining() else {
            return Taken::Nothing;
        };
        if !join.change(&mut wire) {
            return Taken::Nothing;
        }
        Taken::Given(conn, wire)
    }

    /// Takes over a connection from another worker. One that the poll can't watch is closed.
    fn give_on(&self, mut link: Talk<Socket>) -> Taken<Socket, Talk<Socket>> {
        if !self.watch(&mut link) {
            return Taken::Nothing;
        }
        Taken::Passed(link)
    }
}

impl<R: Wait + Clock + Drop> Inlet<Socket, Talk<Socket>> for EventLoop<R> {
    fn take(&mut self, patience: Patience) -> Taken<Socket, Talk<Socket>> {
        self.look(patience);
        // Read before the channel, so that no connection is left in it.
        let has_ended = self.connections.has_ended();
        let arrival = self.intake.take(&self.rt);
        self.brought = arrival.is_some();
        match arrival {
            Some(
                Arrival::New {
                    conn,
                    place,
                    stream,
                },
            ) => self.give(conn, place, stream),
            Some(Arrival::Passed(link)) => self.give_on(Box::into_inner(link)),
            None if has_ended => {
                self.wake_all();
                Taken::Ended
            }
            None => Taken::Nothing,
        }
    }

    fn woken(&mut self) -> Option<usize> {
        self.woken.pop()
    }

    fn pass_on(&mut self, to: usize, mut link: Talk<Socket>) -> Result<(), Talk<Socket>> {
        let Some(outlet) = self.outlets.get_mut(to) else {
            return Err(link);
        };
        link.change_wire(Leave {
            registry: self.poll.registry(),
        });
        let mut back = match Box::new(self.alloc, link) {
            Ok(link) => match outlet.send(&self.rt, Arrival::Passed(link)) {
                Err(Arrival::Passed(back)) => Box::into_inner(back),
                Ok(()) | Err(Arrival::New { .. }) => return Ok(()),
            },
            Err(refused) => refused.value,
        };
        // A connection that this poll can't watch again is closed.
        if self.watch(&mut back) {
            return Err(back);
        }
        Ok(())
    }
}
