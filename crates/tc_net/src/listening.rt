//! The listener: accepts connections and hands them to the workers in turn.
use crate::handover::{Arrival, Outlet};
use mio::net::{TcpListener, TcpStream};
use mio::{Events, Interest, Poll, Token};
use std::alloc::Global;
use std::io;
use std::net::{Net, SocketAddr};
use std::sync::{Arc, Wait};
use std::time::Duration;
use tc_connections::{Connections, Notice, canonical};

/// The most events that one wait reports.
const EVENTS: usize = 16;

/// Milliseconds that the listener waits for a connection before it checks whether enough were
/// closed.
const WAIT: u64 = 20;

/// The same for a server without a count of closed connections. That one ends only if the crew
/// could not start.
const LONG_WAIT: u64 = 500;

/// The most connections that it accepts before it checks whether it is done.
const BURST: u32 = 1_024;

/// The system's error numbers if the process, or the whole system, has no descriptor left
/// (errno(3)).
const EMFILE: i32 = 24;

const ENFILE: i32 = 23;

/// The listener, before its thread starts.
#[derive(Drop)]
pub(crate) struct Listening {
    listener: TcpListener,
    poll: Poll,
    events: Events,
    outlets: Vec<Outlet>,
    connections: Arc<Connections, Global>,
    /// It ends once this many connections were closed.
    until: Option<u64>,
    /// The number of the next connection, counted from 0.
    number: u64,
    /// The number of connections for which the process has descriptors.
    room: u64,
    /// A connection beyond these, and its peer. It enters once another closes.
    held: Option<(TcpStream, SocketAddr)>,
    /// Connections wait for descriptors, and the operator has a notice of it.
    is_short: bool,
}

impl Listening {
    pub(crate) fn new<N: Net + AllocGlobal>(
        net: &N,
        addr: SocketAddr,
        outlets: Vec<Outlet>,
        connections: Arc<Connections, Global>,
        until: Option<u64>,
    ) -> io::Result<Listening> {
        let mut listener = TcpListener::bind(net, addr)?;
        let poll = Poll::new(net)?;
        poll.registry()
            .register(&mut listener, Token(0), Interest::READABLE)?;
        let events = Events::with_capacity(net.alloc(), EVENTS)?;
        Ok(Listening {
            listener,
            poll,
            events,
            outlets,
            connections,
            until,
            number: 0,
            room: u64::MAX,
            held: None,
            is_short: false,
        })
    }

    /// Sets how many connections the process has descriptors for.
    pub(crate) fn set_room(&mut self, room: u64) {
        self.room = room;
    }

    /// Returns where it listens. If port 0 was asked for, the port is the one that the system
    /// chose.
    pub(crate) fn address(&self) -> io::Result<SocketAddr> {
        self.listener.local_addr()
    }

    /// Whether it must end.
    fn is_done(&self) -> bool {
        if self.connections.has_ended() {
            return true;
        }
        match self.until {
            Some(until) => self.connections.closed() >= until,
            None => false,
        }
    }

    /// The number of connections that it let in and that are open.
    fn open(&self) -> u64 {
        self.number.saturating_sub(self.connections.closed())
    }

    /// Notes for the operator that no descriptor is left for another connection, once for all that
    /// wait.
    fn note_shortage<R: Wait>(&mut self, rt: &R) {
        if !self.is_short {
            self.is_short = true;
            self.connections
                .note(rt, Notice::NoDescriptor { open: self.open() });
        }
    }

    /// Handles an error of `accept`: no descriptor is left, or else no connection waits.
    fn note_refusal<R: Wait>(&mut self, rt: &R, error: &io::Error) {
        let number = error.raw_os_error().unwrap_or(0);
        if number == EMFILE || number == ENFILE {
            self.note_shortage(rt);
        } else {
            self.is_short = false;
        }
    }

    /// Returns a connection that waits, with its peer: the held one, or the system's next.
    fn next<R: Wait>(&mut self, rt: &R) -> Option<(TcpStream, SocketAddr)> {
        if self.held.is_some() {
            return self.held.take();
        }
        match self.listener.accept() {
            Ok((stream, address)) => Some((stream, canonical(address))),
            Err(error) => {
                self.note_refusal(rt, &error);
                None
            }
        }
    }

    /// Accepts connections until none waits, no descriptor is left, or `BURST` were accepted.
    fn take_all<R: Wait>(&mut self, rt: &R) {
        for _ in 0..BURST {
            let Some((stream, peer)) = self.next(rt) else {
                return;
            };
            if self.open() >= self.room {
                self.held = Some((stream, peer));
                self.note_shortage(rt);
                return;
            }
            self.let_in(rt, stream, peer);
        }
    }

    /// Gives a connection a place and hands it to a worker; closes it if there is no place.
    fn let_in<R: Wait>(&mut self, rt: &R, stream: TcpStream, peer: SocketAddr) {
        if self.connections.make_room() {
            self.connections.note(rt, Notice::UnboundFull { peer });
            self.wake_workers();
        }
        let number = self.number;
        self.number = number.wrapping_add(1);
        let Some(place) = self.connections.enter(number.saturating_add(1), peer) else {
            self.connections.note(rt, Notice::NoPlace { peer });
            return;
        };
        if !self.hand_over(rt, number, place, stream) {
            self.connections.leave(place);
        }
    }

    /// Hands a connection to the worker whose turn it is, and returns whether its channel took it.
    /// If not, the connection is closed.
    fn hand_over<R: Wait>(&mut self, rt: &R, number: u64, place: usize, stream: TcpStream) -> bool {
        let _ = stream.set_nodelay(true);
        let count = self.outlets.len() as u64;
        if count == 0 {
            return false;
        }
        let conn = (number % 4_294_967_296) as u32;
        let arrival = Arrival::New {
            conn,
            place,
            stream,
        };
        let outlet = &mut self.outlets[(number % count) as usize];
        outlet.send(rt, arrival).is_ok()
    }

    /// How long it waits for a connection before it checks whether it is done.
    fn patience(&self) -> Duration {
        match self.until {
            Some(_) => Duration::from_millis(WAIT),
            None => Duration::from_millis(LONG_WAIT),
        }
    }

    /// Wakes all workers, so that they look for marks and for the server's end.
    fn wake_workers(&self) {
        for outlet in &self.outlets {
            outlet.wake();
        }
    }

    /// Accepts connections until it is done, then marks the server as ended. It returns the
    /// outlets, which must outlive the workers: a wake is lost if its waker is dropped.
    pub(crate) fn run<R: Wait>(mut self, rt: &R) -> Vec<Outlet> {
        let patience = self.patience();
        for _ in rt.forever() {
            if self.is_done() {
                break;
            }
            let _ = self.poll.poll(&mut self.events, Some(patience));
            self.take_all(rt);
        }
        self.connections.end();
        self.wake_workers();
        self.into_outlets()
    }

    fn into_outlets(self) -> Vec<Outlet> {
        let Listening {
            listener: _,
            poll: _,
            events: _,
            outlets,
            connections: _,
            until: _,
            number: _,
            room: _,
            held: _,
            is_short: _,
        } = self;
        outlets
    }
}
