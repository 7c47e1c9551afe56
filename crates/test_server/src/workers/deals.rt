//! Turns that a worker deals out by user. Texts are by hand from doc/protocol.txt.
ghost use Rattle.std.specs.Prelude.{None};

use super::talks::worker_of;
use super::words::Words;
use crate::stage::{Scene, Within, play};
use std::alloc::Global;
use std::process::Abort;
use std::sync::atomic::AtomicU64;
use std::sync::atomic::Ordering::SeqCst;
use std::sync::{Arc, Wait};
use std::test::*;
use tc_links::{Got, Open, Parts, Patience, Put, Remark, Wire};
use tc_locked::{Clock, Hall, Naming, Seat};
use tc_plain::Cache;
use tc_users::{UserNo, Users};
use tc_workers::Worker;

/// Logs alice in.
pub(super) const ALICE: &[u8] = b"set a 0 0 9\r\nalice one\r\n";

/// Logs bob in.
pub(super) const BOB: &[u8] = b"set a 0 0 7\r\nbob one\r\n";

/// Fifteen flushes. Ten of them use up a user's share of a turn.
const FLUSHES: &[u8] = b"flush_all\r\nflush_all\r\nflush_all\r\nflush_all\r\nflush_all\r\n\
    flush_all\r\nflush_all\r\nflush_all\r\nflush_all\r\nflush_all\r\n\
    flush_all\r\nflush_all\r\nflush_all\r\nflush_all\r\nflush_all\r\n";

/// Looks up a key that holds nothing.
pub(super) const GETS: &[u8] = b"get k\r\n";

/// The bytes of the reply to a login.
pub(super) const LOGGED_IN: u64 = 8;

/// The bytes of the replies to a login and ten flushes.
const FLUSHED: u64 = LOGGED_IN + 40;

/// The bytes of the reply to a `get` that finds nothing.
pub(super) const MISSED: u64 = 5;

/// How many connections alice has.
pub(super) const MANY: usize = 4;

/// Who is connected.
#[derive(Clone, Copy, Debug, PartialEq, Eq)]
pub enum Guests {
    Alice,
    AliceAndBob,
}

/// How many bytes each connection was sent, bob's last, and whether all wires fail.
#[derive(Drop)]
pub(super) struct Ledger {
    sent: Words,
    over: AtomicU64,
}

impl Ledger {
    pub(super) fn new(alloc: Global) -> Result<Ledger, Fail> {
        Ok(Ledger {
            sent: Words::new(alloc, MANY + 1)?,
            over: AtomicU64::new(0),
        })
    }

    /// Makes all wires fail from the next read on.
    fn end(&self) {
        self.over.store(1, SeqCst);
    }

    fn is_over(&self) -> bool {
        self.over.load(SeqCst) == 1
    }

    /// Returns how many bytes a connection was sent.
    pub(super) fn sent(&self, at: usize) -> u64 {
        self.sent.load(at)
    }

    /// Returns how many of alice's connections were sent exactly the replies to a login and ten
    /// flushes.
    fn flushed(&self) -> usize {
        self.sent.count(MANY, FLUSHED)
    }
}

/// A wire that logs in, and asks the same at each later read.
#[derive(Drop)]
pub(super) struct Asking {
    at: usize,
    /// What the next read gives.
    next: &'static [u8],
    asks: &'static [u8],
    ledger: Arc<Ledger, Global>,
}

impl Wire for Asking {
    ghost gave = { λ _. None };

    ghost took = { λ _. None };

    fn read(&mut self, into: &mut [u8]) -> Got {
        if self.ledger.is_over() {
            return Got::Failed;
        }
        let n = self.next.len().min(into.len());
        let part = &mut into[..n];
        part.copy_from_slice(&self.next[..n]);
        self.next = self.asks;
        Got::Bytes(n)
    }

    fn write(&mut self, from: &Parts<'_>) -> Put {
        self.ledger.sent.add(self.at, from.len());
        Put::Wrote(from.len())
    }

    fn set_key(&mut self, _key: usize) -> bool {
        false
    }

    fn set_user(&mut self, _user: UserNo) {}

    fn note<R: Wait>(&mut self, _rt: &R, _remark: Remark) {}
}

/// Adds a connection that logs in, and asks the same at each later read.
pub(super) fn join<N: Naming, R: Abort>(
    rt: &R,
    worker: &mut Worker<Asking, N>,
    ledger: &Arc<Ledger, Global>,
    at: usize,
    login: &'static [u8],
    asks: &'static [u8],
) -> Result<(), Fail> {
    let wire = Asking {
        at,
        next: login,
        asks,
        ledger: Arc::try_clone(ledger)?,
    };
    let conn = u32::try_from(at).unwrap_or(u32::MAX);
    assert!(rt; worker.add(conn, wire).is_ok());
    Ok(())
}

/// Adds alice's connections, and bob's if he is a guest.
fn join_all<N: Naming, R: Abort>(
    rt: &R,
    worker: &mut Worker<Asking, N>,
    ledger: &Arc<Ledger, Global>,
    guests: Guests,
) -> Result<(), Fail> {
    for at in 0..MANY {
        join(rt, worker, ledger, at, ALICE, FLUSHES)?;
    }
    match guests {
        Guests::Alice => Ok(()),
        Guests::AliceAndBob => join(rt, worker, ledger, MANY, BOB, GETS),
    }
}

/// Takes a turn, in which all log in.
fn log_in<C: Cache, N: Naming, R: Wait + Abort>(
    rt: &R,
    hall: &Hall<C, N>,
    users: &Users,
    worker: &mut Worker<Asking, N>,
    ledger: &Ledger,
) {
    worker.turn(rt, hall, users, &Clock::new(), &Open);
    for at in 0..MANY {
        assert!(rt; ledger.sent(at) == LOGGED_IN);
    }
}

/// Takes a turn. Expects that this many of alice's connections have flushed, and the bytes that bob
/// was sent.
fn turn<C: Cache, N: Naming, R: Wait + Abort>(
    rt: &R,
    hall: &Hall<C, N>,
    users: &Users,
    worker: &mut Worker<Asking, N>,
    ledger: &Ledger,
    flushed: usize,
    bob: u64,
) {
    let patience = worker.turn(rt, hall, users, &Clock::new(), &Open);
    assert!(rt; patience == Patience::Hurried);
    assert!(rt; ledger.flushed() == flushed && ledger.sent(MANY) == bob);
}

/// Takes turns in which all wires fail, those of connections that the last turn left out among
/// them. Expects that none is kept or listed.
fn fail_all<C: Cache, N: Naming, R: Wait + Abort>(
    rt: &R,
    hall: &Hall<C, N>,
    users: &Users,
    worker: &mut Worker<Asking, N>,
    ledger: &Ledger,
) {
    ledger.end();
    for _ in 0..MANY {
        worker.turn(rt, hall, users, &Clock::new(), &Open);
    }
    let patience = worker.turn(rt, hall, users, &Clock::new(), &Open);
    assert!(rt; worker.is_idle() && patience == Patience::Long);
}

/// Serves alice's connections, alone or with bob's. Alone, all of hers are served in one turn. With
/// bob, whom each turn serves, one of hers is served a turn, each once before any is served twice.
/// At the end all wires fail.
pub fn deal<C: Cache, N: Naming, R: Wait + Abort>(
    rt: &R,
    alloc: Global,
    hall: &Hall<C, N>,
    users: &Users,
    seats: &mut Vec<Seat<N>>,
    guests: Guests,
) -> Result<(), Fail> {
    let mut worker = worker_of(rt, alloc, seats);
    let ledger = Arc::new(alloc, Ledger::new(alloc)?)?;
    join_all(rt, &mut worker, &ledger, guests)?;
    log_in(rt, hall, users, &mut worker, &ledger);
    if guests == Guests::Alice {
        turn(rt, hall, users, &mut worker, &ledger, MANY, 0);
        return Ok(());
    }
    for n in 1..MANY + 1 {
        let bob = LOGGED_IN + MISSED * n as u64;
        turn(rt, hall, users, &mut worker, &ledger, n, bob);
    }
    fail_all(rt, hall, users, &mut worker, &ledger);
    Ok(())
}

/// Guards throughput: a user who shares a worker with nobody must not be held to one share.
#[test]
fn a_user_alone_is_served_whole(rt: HostRuntime) -> Result<(), Fail> {
    play(
        &rt,
        rt.alloc(),
        1,
        16,
        Scene::Within(Within::Deals(Guests::Alice)),
    )
}

/// Guards bob's latency: alice must not gain a larger part of a worker by opening more connections.
#[test]
fn many_connections_of_one_user_take_no_turn_from_another(rt: HostRuntime) -> Result<(), Fail> {
    play(
        &rt,
        rt.alloc(),
        1,
        16,
        Scene::Within(Within::Deals(Guests::AliceAndBob)),
    )
}
