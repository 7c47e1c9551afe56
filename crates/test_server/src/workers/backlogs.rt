//! Many connections of one user that do not take their replies. Texts are by hand from
//! doc/protocol.txt.
ghost use Rattle.std.specs.Prelude.{None};

use super::deals::{ALICE, BOB};
use super::talks::worker_of;
use super::words::Words;
use crate::hall::commands::set_of;
use crate::stage::{Scene, Within, call, first, play_fast};
use std::alloc::Global;
use std::process::Abort;
use std::sync::atomic::AtomicU64;
use std::sync::atomic::Ordering::SeqCst;
use std::sync::{Arc, Wait};
use std::test::*;
use tc_grammar::Command;
use tc_links::{Got, Open, Parts, Put, Remark, Wire};
use tc_locked::{Clock, Hall, Naming, Seat};
use tc_plain::Cache;
use tc_users::{UserNo, Users};
use tc_workers::Worker;

/// How many connections alice has. Bob has one more.
const HERS: usize = 10;

/// How often each of them looks up `a` and `b`.
const ROUNDS: usize = 50;

/// The bytes of each item's data.
const DATA: usize = 10_000;

/// What a connection asks over and over.
const ASKS: &[u8] = b"get a\r\nget b\r\n";

/// The reply to a login.
const STORED: &[u8] = b"STORED\r\n";

/// How many bytes each of alice's connections is sent in all.
const ALL: u64 = 8 + 100 * 10_024;

/// How many bytes may wait for alice before her connections are full.
const ALLOWED: u64 = 8_388_608;

/// How many bytes may wait with one more reply on each of her connections.
const BOUND: u64 = ALLOWED + 10 * 10_024;

/// Enough turns until nothing more is done for her.
const FILLING: u32 = 16;

/// Enough further turns until all is sent.
const DRAINING: u32 = 16;

/// What the wires and the scene share.
#[derive(Drop)]
struct Sight {
    /// 1 if alice's wires take bytes, otherwise 0.
    is_open: AtomicU64,
    /// All bytes that each of alice's connections must be sent.
    expects: Vec<u8>,
    /// How many writes to alice were not the next expected bytes.
    odd: AtomicU64,
    /// By connection: the bytes that were sent, and those that waited after the last write.
    sent: Words,
    waits: Words,
}

impl Sight {
    fn new(alloc: Global) -> Result<Sight, Fail> {
        Ok(Sight {
            is_open: AtomicU64::new(0),
            expects: all_replies(alloc)?,
            odd: AtomicU64::new(0),
            sent: Words::new(alloc, HERS + 1)?,
            waits: Words::new(alloc, HERS + 1)?,
        })
    }

    /// Returns how many bytes wait for alice.
    fn backlog(&self) -> u64 {
        self.waits.sum(HERS)
    }

    /// Returns how many of alice's connections were sent everything.
    fn served(&self) -> usize {
        self.sent.count(HERS, ALL)
    }
}

/// Returns all bytes that a connection of alice's must be sent.
fn all_replies(alloc: Global) -> Result<Vec<u8>, Fail> {
    let mut all = Vec::from_slice(alloc, STORED)?;
    for _ in 0..ROUNDS {
        add_reply(alloc, &mut all, b"VALUE a 7 10000\r\n", b'a')?;
        add_reply(alloc, &mut all, b"VALUE b 7 10000\r\n", b'b')?;
    }
    Ok(all)
}

/// Appends a reply that shows the item of this letter.
fn add_reply(alloc: Global, all: &mut Vec<u8>, head: &[u8], letter: u8) -> Result<(), Fail> {
    all.extend_from_slice(head)?;
    all.extend_from_slice(&Vec::from_elem(alloc, letter, DATA)?)?;
    all.extend_from_slice(b"\r\nEND\r\n")?;
    Ok(())
}

/// A wire that logs in, and asks over and over after that.
#[derive(Drop)]
struct Asker {
    at: usize,
    login: &'static [u8],
    /// How many bytes it gave so far, and how many it gives in all.
    given: usize,
    most: usize,
    taken: usize,
    sight: Arc<Sight, Global>,
}

impl Asker {
    /// Returns the byte at a place of all that the wire gives.
    fn byte(&self, at: usize) -> u8 {
        let asks = at.saturating_sub(self.login.len());
        match self.login.get(at) {
            Some(byte) => *byte,
            None => ASKS[asks % ASKS.len()],
        }
    }

    /// Takes bytes. Those of alice's connections must be the next expected ones.
    fn hear(&mut self, from: &[u8]) {
        let end = self.taken.saturating_add(from.len());
        let is_next = match self.sight.expects.get(self.taken..end) {
            Some(part) => part == from,
            None => false,
        };
        if self.at < HERS && !is_next {
            self.sight.odd.fetch_add(1, SeqCst);
        }
        self.taken = end;
        self.sight.sent.store(self.at, self.taken);
    }

    /// Returns whether the wire takes bytes. Bob's always does.
    fn is_open(&self) -> bool {
        self.at >= HERS || self.sight.is_open.load(SeqCst) == 1
    }
}

impl Wire for Asker {
    ghost gave = { λ _. None };

    ghost took = { λ _. None };

    fn read(&mut self, into: &mut [u8]) -> Got {
        let n = into.len().min(self.most.saturating_sub(self.given));
        if n == 0 {
            return Got::Later;
        }
        for i in 0..n {
            let at = self.given.saturating_add(i);
            into[i] = self.byte(at);
        }
        self.given = self.given.saturating_add(n);
        Got::Bytes(n)
    }

    fn write(&mut self, from: &Parts<'_>) -> Put {
        if !self.is_open() {
            self.sight.waits.store(self.at, from.len());
            return Put::Later;
        }
        let (part, _) = from.split_first();
        self.hear(part);
        let left = from.len().saturating_sub(part.len());
        self.sight.waits.store(self.at, left);
        Put::Wrote(part.len())
    }

    fn set_key(&mut self, _key: usize) -> bool {
        false
    }

    fn set_user(&mut self, _user: UserNo) {}

    fn note<R: Wait>(&mut self, _rt: &R, _remark: Remark) {}
}

/// Returns a `set` of a large item, all of whose bytes are its key's.
fn large_set(alloc: Global, key: &[u8; 1]) -> Result<Command, Fail> {
    let data = Vec::from_elem(alloc, key[0], DATA)?;
    set_of(alloc, key, 0, &data)
}

/// Stores a large item for alice.
fn store_large<C: Cache, N: Naming, R: Wait + Abort>(
    rt: &R,
    alloc: Global,
    hall: &Hall<C, N>,
    seat: &mut Seat<N>,
    key: &[u8; 1],
) -> Result<(), Fail> {
    let set = large_set(alloc, key)?;
    call(rt, alloc, hall, seat, 1, 0, &set)?;
    Ok(())
}

/// Stores alice's two items.
fn store_both<C: Cache, N: Naming, R: Wait + Abort>(
    rt: &R,
    alloc: Global,
    hall: &Hall<C, N>,
    seat: &mut Seat<N>,
) -> Result<(), Fail> {
    store_large(rt, alloc, hall, seat, b"a")?;
    store_large(rt, alloc, hall, seat, b"b")
}

/// Adds a connection that logs in and asks over and over, until it gave `most` bytes in all.
fn join<N: Naming, R: Abort>(
    rt: &R,
    worker: &mut Worker<Asker, N>,
    sight: &Arc<Sight, Global>,
    at: usize,
    login: &'static [u8],
    most: usize,
) -> Result<(), Fail> {
    let wire = Asker {
        at,
        login,
        given: 0,
        most,
        taken: 0,
        sight: Arc::try_clone(sight)?,
    };
    let conn = u32::try_from(at).unwrap_or(u32::MAX);
    assert!(rt; worker.add(conn, wire).is_ok());
    Ok(())
}

/// Takes turns. After each, expects that no more waits for alice than `BOUND`, and that bob was
/// sent more.
fn turn_often<C: Cache, N: Naming, R: Wait + Abort>(
    rt: &R,
    hall: &Hall<C, N>,
    users: &Users,
    worker: &mut Worker<Asker, N>,
    sight: &Sight,
    turns: u32,
) {
    let clock = Clock::new();
    for _ in 0..turns {
        let before = sight.sent.load(HERS);
        worker.turn(rt, hall, users, &clock, &Open);
        assert!(rt; sight.backlog() <= BOUND);
        assert!(rt; sight.sent.load(HERS) > before);
    }
}

/// Serves alice's connections, which take nothing at first, and bob's. Expects a bounded backlog,
/// and all of alice's replies once she takes them.
pub fn hold<C: Cache, N: Naming, R: Wait + Abort>(
    rt: &R,
    alloc: Global,
    hall: &Hall<C, N>,
    users: &Users,
    seats: &mut Vec<Seat<N>>,
) -> Result<(), Fail> {
    let mut worker = worker_of(rt, alloc, seats);
    store_both(rt, alloc, hall, first(rt, seats))?;
    let sight = Arc::new(alloc, Sight::new(alloc)?)?;
    for at in 0..HERS {
        let most = ALICE.len() + ROUNDS * ASKS.len();
        join(rt, &mut worker, &sight, at, ALICE, most)?;
    }
    join(rt, &mut worker, &sight, HERS, BOB, usize::MAX)?;
    turn_often(rt, hall, users, &mut worker, &sight, FILLING);
    assert!(rt; sight.backlog() > ALLOWED && sight.served() == 0);
    sight.is_open.store(1, SeqCst);
    turn_often(rt, hall, users, &mut worker, &sight, DRAINING);
    assert!(rt; sight.odd.load(SeqCst) == 0 && sight.served() == HERS);
    Ok(())
}

/// Guards the server's memory, and bob, against a user who asks much and reads nothing. Her replies
/// must still arrive whole.
#[test]
fn what_waits_is_bounded_by_user_and_sent_in_the_end(rt: HostRuntime) -> Result<(), Fail> {
    play_fast(&rt, rt.alloc(), 2, 16, Scene::Within(Within::HoldsBack))
}
