//! The metrics' listener, which the keeper's thread serves between the keeper's turns.
use crate::audience::Audience;
use crate::counting::Counting;
use crate::peer::{Peer, Stage};
use mio::net::TcpListener;
use std::alloc::{AllocError, Global};
use std::io;
use std::net::{Net, SocketAddr};
use std::sync::Wait;
use tc_connections::{Cause, Connections, Timeout};
use tc_grammar::Command;
use tc_item::NoMemory;
use tc_locked::{CallFault, Clock, Hall, Naming, Seat};
use tc_metrics::{Answer, Closed, ServerFigures, UserFigures, WorkerFigures, render, reply};
use tc_plain::Cache;
use tc_stats::{Counters, Outcome};
use tc_users::{UserNo, Users};

/// The most clients at a time.
const MOST_PEERS: usize = 16;

/// The connection number under which the metrics' calls are entered. The listener gives it to one
/// connection in 2^32.
const CONN: u32 = u32::MAX;

/// Where the figures come from.
#[derive(Drop)]
pub(crate) struct Sources<'a, R: Wait, C: Cache, N: Naming, A: Audience> {
    pub(crate) rt: &'a R,
    pub(crate) hall: &'a Hall<C, N>,
    pub(crate) clock: &'a Clock,
    pub(crate) connections: &'a Connections,
    /// What workers did; `None` if users have no workers of their own.
    pub(crate) counting: &'a Option<Counting>,
    /// Microseconds since the server began; 0 if the clock can't be read.
    pub(crate) now: u64,
    pub(crate) audience: &'a A,
}

/// The metrics' listener and its clients.
#[derive(Drop)]
pub(crate) struct Scraping {
    alloc: Global,
    listener: TcpListener,
    peers: Vec<Peer>,
    /// Figures of each user, in the order of the users' numbers.
    figures: Vec<UserFigures>,
    /// Figures of each worker, by number.
    workers: Vec<WorkerFigures>,
}

/// Returns the figures of users that have done nothing.
fn first_figures(alloc: Global, users: &Users) -> Result<Vec<UserFigures>, NoMemory> {
    let mut figures = Vec::new(alloc);
    for row in users.rows() {
        figures.push(UserFigures {
            name: Vec::from_slice(alloc, row.name.as_bytes())?,
            connections: 0,
            calls: 0,
            journal: 0,
            refused_logins: 0,
            no_memory: 0,
            closed: Closed::default(),
            counters: Counters::new(),
        })?;
    }
    Ok(figures)
}

/// Returns the server's own figures.
fn figures_of<A: Audience>(connections: &Connections, audience: &A) -> ServerFigures {
    let (open_fds, max_fds) = match audience.descriptors() {
        Some(now) => (now.open, now.allowed),
        None => (0, 0),
    };
    ServerFigures {
        unbound: connections.count_unbound(),
        refused_logins: connections.refused_logins(),
        limited: connections.limited(),
        left_out: connections.left_out(),
        resident: audience.resident(),
        cpu_millis: audience.cpu_millis(),
        open_fds,
        max_fds,
        uptime: connections.second().saturating_sub(1),
    }
}

/// Counts each user's open connections.
fn count_connections(figures: &mut [UserFigures], connections: &Connections) {
    for user in figures.iter_mut() {
        user.connections = 0;
    }
    for at in 0..connections.len() {
        if let Some(user) = connections.user_at(at) {
            let place = (user.number() as usize).saturating_sub(1);
            if let Some(figures) = figures.get_mut(place) {
                figures.connections = figures.connections.saturating_add(1);
            }
        }
    }
}

/// Returns how many of a user's connections each limit closed.
fn closed_of(connections: &Connections, user: UserNo) -> Closed {
    Closed {
        connections: connections.total(Some(user), Cause::UserFull),
        idle: connections.total(Some(user), Cause::TimedOut(Timeout::Idle)),
        stalled: connections.total(Some(user), Cause::TimedOut(Timeout::Stalled)),
        half_block: connections.total(Some(user), Cause::HoldsUp),
    }
}

/// Gets a user's `stats` by one call of the hall, and the size of its page.
fn ask<R: Wait, C: Cache, N: Naming, A: Audience>(
    from: &Sources<'_, R, C, N, A>,
    alloc: Global,
    seat: &mut Seat<N>,
    user: UserNo,
    figures: &mut UserFigures,
) -> Result<(), CallFault> {
    let now = from.clock.now();
    let receipt = from
        .hall
        .call(from.rt, alloc, seat, user, now, CONN, &Command::Stats)?;
    figures.calls = receipt.slip.number;
    figures.journal = from.hall.journal_bytes(from.rt, user);
    let connections = from.connections;
    figures.refused_logins = connections.total(Some(user), Cause::LoginRefused);
    figures.no_memory = connections.total(Some(user), Cause::NoMemory);
    figures.closed = closed_of(connections, user);
    if let Outcome::Stats(statistics) = &receipt.slip.outcome {
        figures.counters = *statistics.counters();
    }
    Ok(())
}

/// Gets each user's `stats`.
fn ask_all<R: Wait, C: Cache, N: Naming, A: Audience>(
    from: &Sources<'_, R, C, N, A>,
    alloc: Global,
    seat: &mut Seat<N>,
    figures: &mut [UserFigures],
) -> Result<(), CallFault> {
    for number in 1..=from.hall.users() {
        if let Some(figures) = figures.get_mut((number as usize).saturating_sub(1)) {
            ask(from, alloc, seat, UserNo::new(number), figures)?;
        }
    }
    Ok(())
}

impl Scraping {
    /// Listens on an address.
    pub(crate) fn new<R: Net + AllocGlobal>(
        net: &R,
        address: SocketAddr,
        users: &Users,
    ) -> io::Result<Scraping> {
        let alloc = net.alloc();
        let listener = TcpListener::bind(net, address)?;
        let Ok(figures) = first_figures(alloc, users) else {
            return Err(io::Error::from(io::ErrorKind::OutOfMemory));
        };
        let peers = Vec::with_capacity(alloc, MOST_PEERS)?;
        Ok(Scraping {
            alloc,
            listener,
            peers,
            figures,
            workers: Vec::new(alloc),
        })
    }

    /// Returns where it listens. If port 0 was asked for, the port is the one that the system
    /// chose.
    pub(crate) fn address(&self) -> io::Result<SocketAddr> {
        self.listener.local_addr()
    }

    /// Accepts clients that wait, while there are fewer than 16.
    fn let_in(&mut self, second: u64) -> Result<(), AllocError> {
        for _ in self.peers.len()..MOST_PEERS {
            let Ok((stream, _address)) = self.listener.accept() else {
                return Ok(());
            };
            self.peers.push(Peer::new(self.alloc, stream, second))?;
        }
        Ok(())
    }

    /// Renders the metrics.
    fn tell<R: Wait, C: Cache, N: Naming, A: Audience>(
        &mut self,
        from: &Sources<'_, R, C, N, A>,
        seat: &mut Seat<N>,
    ) -> Result<Vec<u8>, CallFault> {
        count_connections(&mut self.figures, from.connections);
        ask_all(from, self.alloc, seat, &mut self.figures)?;
        if let Some(counting) = from.counting {
            counting.tell(from.now, self.figures.len(), &mut self.workers);
        }
        let server = figures_of(from.connections, from.audience);
        let version = from.audience.version();
        let (users, workers) = (&self.figures, &self.workers);
        Ok(render(self.alloc, users, workers, version, &server)?)
    }

    /// Makes the reply to a request. If memory for the metrics is refused, it is a 503 without
    /// text.
    fn reply<R: Wait, C: Cache, N: Naming, A: Audience>(
        &mut self,
        from: &Sources<'_, R, C, N, A>,
        seat: &mut Seat<N>,
        answer: Answer,
    ) -> Result<Vec<u8>, NoMemory> {
        if answer != Answer::Told && answer != Answer::Headed {
            return reply(self.alloc, answer, b"");
        }
        match self.tell(from, seat) {
            Ok(text) => reply(self.alloc, answer, &text),
            Err(_) => reply(self.alloc, Answer::Refused, b""),
        }
    }

    /// Serves one client, and returns whether it stays.
    fn serve<R: Wait, C: Cache, N: Naming, A: Audience>(
        &mut self,
        from: &Sources<'_, R, C, N, A>,
        seat: &mut Seat<N>,
        at: usize,
    ) -> bool {
        let Some(peer) = self.peers.get_mut(at) else {
            return true;
        };
        let answer = match peer.turn(from.connections.second()) {
            Stage::Waits => return true,
            Stage::Done => return false,
            Stage::Asks(answer) => answer,
        };
        let Ok(reply) = self.reply(from, seat, answer) else {
            return false;
        };
        if let Some(peer) = self.peers.get_mut(at) {
            peer.set_reply(reply);
        }
        true
    }

    /// Accepts clients, and reads and writes what their sockets allow. It never waits for a client,
    /// but it takes each user's lock to ask for that user's `stats`.
    pub(crate) fn turn<R: Wait, C: Cache, N: Naming, A: Audience>(
        &mut self,
        from: &Sources<'_, R, C, N, A>,
        seat: &mut Seat<N>,
    ) {
        // A client for whom there is no memory is closed.
        let _ = self.let_in(from.connections.second());
        let mut at = 0;
        for _ in 0..self.peers.len() {
            if at >= self.peers.len() {
                return;
            }
            if self.serve(from, seat, at) {
                at += 1;
            } else if at < self.peers.len() {
                let _ = self.peers.swap_remove(at);
            }
        }
    }
}
