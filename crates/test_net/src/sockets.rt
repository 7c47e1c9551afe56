//! Sockets over a stream in memory. Texts are by hand from doc/protocol.txt.
ghost use Rattle.std.specs.Prelude.{◌≡◌, map};
ghost use Rattle.tc_fresh.specs.Beginning.{fresh_cache};

use crate::streams::{EASY, Habits, Reel, Said, Trouble};
use std::alloc::Global;
use std::hash::RandomState;
use std::marker::Brand;
use std::net::SocketAddr;
use std::process::Abort;
use std::sync::atomic::AtomicU64;
use std::sync::atomic::Ordering::SeqCst;
use std::sync::{Arc, Wait};
use std::test::*;
use tc_kinds::begin_all;
use tc_links::Open;
use tc_locked::{Clock, Hall, Naming, Opened, Seat};
use tc_net::{Rouser, Socket, unpolled};
use tc_plain::{Cache, Journal, Plain};
use tc_users::{Text, UserSpec, Users};
use tc_workers::Worker;

/// Enough turns for each connection.
const TURNS: u32 = 400;

/// Logs alice in, without a reply.
const LOGIN: &[u8] = b"set a 0 0 9 noreply\r\nalice one\r\n";

/// Stores two bytes under `k` without a reply, and looks `k` up.
const SMALL: &[u8] = b"set k 7 0 2 noreply\r\nhi\r\nget k\r\n";

const SMALL_REPLY: &[u8] = b"VALUE k 7 2\r\nhi\r\nEND\r\n";

/// Stores large data under `k` without a reply; the data follows.
const LARGE: &[u8] = b"set k 7 0 16384 noreply\r\n";

/// The bytes of the large data: enough that the session sends them from the item's own memory.
const SIZE: usize = 16_384;

/// Ends the large data's block, and looks `k` up two times in one request.
const ASKS: &[u8] = b"\r\nget k k\r\n";

/// The slices of the reply are `VALUE`, the data, a line end with `VALUE`, the data, and a line end
/// with `END`.
const VALUE: &[u8] = b"VALUE k 7 16384\r\n";

const END: &[u8] = b"END\r\n";

/// The place in the reply, in bytes, at which each of its five slices ends.
const BOUNDS: [usize; 5] = [17, 16_401, 16_420, 32_804, 32_811];

/// Returns the texts, joined.
fn joined(alloc: Global, texts: &[&[u8]]) -> Result<Vec<u8>, Fail> {
    let mut all = Vec::new(alloc);
    for text in texts {
        all.extend_from_slice(text)?;
    }
    Ok(all)
}

/// Returns a small `set` and a `get`, and their reply.
fn small_request(alloc: Global) -> Result<Said, Fail> {
    Ok(Said {
        sends: joined(alloc, &[LOGIN, SMALL])?,
        expects: joined(alloc, &[SMALL_REPLY])?,
    })
}

/// Returns a large `set` and a `get` of its key twice, and their reply. The data repeats only after
/// 251 bytes, so that a shift shows.
fn large_request(alloc: Global) -> Result<Said, Fail> {
    let mut data = Vec::with_capacity(alloc, SIZE)?;
    for i in 0..SIZE {
        data.push((i % 251) as u8)?;
    }
    Ok(Said {
        sends: joined(alloc, &[LOGIN, LARGE, &data, ASKS])?,
        expects: joined(alloc, &[VALUE, &data, b"\r\n", VALUE, &data, b"\r\n", END])?,
    })
}

/// Serves a connection from its first byte to its end. Returns how many bytes it was sent, or
/// `u64::MAX` if they are not the front of what it expects.
fn hear<C: Cache, N: Naming, R: Wait + Abort>(
    rt: &R,
    alloc: Global,
    hall: &Hall<C, N>,
    users: &Users,
    worker: &mut Worker<Socket<Reel>, N>,
    said: &Said,
    habits: Habits,
) -> Result<u64, Fail> {
    let told = Arc::new(alloc, AtomicU64::new(0))?;
    let stream = Reel::new(alloc, said, habits, Arc::try_clone(&told)?)?;
    let peer = "127.0.0.1:9".parse::<SocketAddr>()?;
    let (socket, rouser) = unpolled(alloc, stream, peer)?;
    assert!(rt; worker.add(1, socket).is_ok());
    take_turns(rt, hall, users, worker, &rouser);
    assert!(rt; worker.is_idle());
    Ok(told.load(SeqCst))
}

/// Takes turns until the connection is gone. Before each, the socket becomes readable and writable.
fn take_turns<C: Cache, N: Naming, R: Wait>(
    rt: &R,
    hall: &Hall<C, N>,
    users: &Users,
    worker: &mut Worker<Socket<Reel>, N>,
    rouser: &Rouser,
) {
    for _ in 0..TURNS {
        if worker.is_idle() {
            return;
        }
        rouser.rouse();
        worker.wake(0);
        worker.turn(rt, hall, users, &Clock::new(), &Open);
    }
}

/// Serves connections that read 1 to 8 bytes at a time, with each kind of trouble, and expects the
/// whole reply.
fn expect_reads<C: Cache, N: Naming, R: Wait + Abort>(
    rt: &R,
    alloc: Global,
    hall: &Hall<C, N>,
    users: &Users,
    worker: &mut Worker<Socket<Reel>, N>,
) -> Result<(), Fail> {
    let said = small_request(alloc)?;
    let whole = SMALL_REPLY.len() as u64;
    for trouble in [
        Trouble::Never,
        Trouble::Interrupted,
        Trouble::WouldBlock,
        Trouble::Both,
    ] {
        for piece in 1..=8 {
            let habits = Habits {
                piece,
                first: piece,
                later: piece,
                trouble,
                ..EASY
            };
            let heard = hear(rt, alloc, hall, users, worker, &said, habits)?;
            assert!(rt; heard == whole, "{trouble:?} {piece}");
        }
    }
    Ok(())
}

/// Serves a connection whose first write takes `first` bytes and later ones 10,000, and expects the
/// whole reply.
fn expect_write<C: Cache, N: Naming, R: Wait + Abort>(
    rt: &R,
    alloc: Global,
    hall: &Hall<C, N>,
    users: &Users,
    worker: &mut Worker<Socket<Reel>, N>,
    said: &Said,
    first: usize,
) -> Result<(), Fail> {
    let habits = Habits {
        first,
        later: 10_000,
        trouble: Trouble::Both,
        ..EASY
    };
    let heard = hear(rt, alloc, hall, users, worker, said, habits)?;
    assert!(rt; heard == said.expects.len() as u64, "{first}");
    Ok(())
}

/// Tries first writes of 1 to 20 bytes, and of lengths that end near the end of each slice.
fn expect_writes<C: Cache, N: Naming, R: Wait + Abort>(
    rt: &R,
    alloc: Global,
    hall: &Hall<C, N>,
    users: &Users,
    worker: &mut Worker<Socket<Reel>, N>,
) -> Result<(), Fail> {
    let said = large_request(alloc)?;
    for first in 1..=20 {
        expect_write(rt, alloc, hall, users, worker, &said, first)?;
    }
    for bound in BOUNDS {
        for more in 0..4 {
            let first = bound.saturating_sub(2).saturating_add(more);
            expect_write(rt, alloc, hall, users, worker, &said, first)?;
        }
    }
    Ok(())
}

/// Serves streams that fail, and expects that nothing is sent after the failure.
fn expect_failures<C: Cache, N: Naming, R: Wait + Abort>(
    rt: &R,
    alloc: Global,
    hall: &Hall<C, N>,
    users: &Users,
    worker: &mut Worker<Socket<Reel>, N>,
) -> Result<(), Fail> {
    let said = large_request(alloc)?;
    let unread = Habits {
        piece: 9,
        reads: 1,
        ..EASY
    };
    assert!(rt; hear(rt, alloc, hall, users, worker, &said, unread)? == 0);
    let unsent = Habits {
        first: 16_410,
        later: 1,
        writes: 1,
        ..EASY
    };
    assert!(rt; hear(rt, alloc, hall, users, worker, &said, unsent)? == 16_412);
    Ok(())
}

/// Serves all connections with one worker, one after the other.
fn serve_all<C: Cache, N: Naming, R: Wait + Abort>(
    rt: &R,
    alloc: Global,
    hall: &Hall<C, N>,
    users: &Users,
    mut seats: Vec<Seat<N>>,
) -> Result<(), Fail> {
    let Some(seat) = seats.pop() else {
        panic!(rt; "no seat")
    };
    let Ok(mut worker) = Worker::new(alloc, seat) else {
        panic!(rt; "no memory")
    };
    expect_reads(rt, alloc, hall, users, &mut worker)?;
    expect_writes(rt, alloc, hall, users, &mut worker)?;
    expect_failures(rt, alloc, hall, users, &mut worker)
}

/// Opens the hall `N` over fresh caches with one seat and pages of 16 entries, and serves all
/// connections in it.
fn serve_in<C: Cache, N: Naming, R: Wait + Abort>(
    rt: &R,
    alloc: Global,
    opened: Opened,
    users: &Users,
    caches: Vec<C>,
    keeps: Journal,
) -> Result<(), Fail>
    requires name { opened ≡ N.table }
    requires fresh { map C.settled caches.items ≡ map fresh_cache users.now }
    requires begins { N.terms.begins ≡ map fresh_cache users.now }
    requires seats { N.terms.seats ≡ 1 }
    requires journal { N.terms.journal ≡ 16 }
    requires keeps { N.terms.keeps ≡ keeps }
{
    let (hall, seats) = Hall::<C, N>::new(alloc, opened, users, caches, 1, 16, keeps)?;
    serve_all(rt, alloc, &hall, users, seats)
}

/// Returns a table of alice alone.
fn one_user(alloc: Global) -> Result<Users, Fail> {
    let mut users = Users::new(alloc);
    users.push(UserSpec {
        name: Text::copy(alloc, b"alice")?,
        token: Text::copy(alloc, b"one")?,
        second: None,
        budget: 65_536,
        largest: 20_000,
    })?;
    Ok(users)
}

/// Serves all connections for one user, with or without a journal.
fn serve_one<R: Wait + Abort>(
    rt: &R,
    alloc: Global,
    hasher: RandomState,
    keeps: Journal,
) -> Result<(), Fail> {
    let users = one_user(alloc)?;
    let caches = begin_all::<Plain>(alloc, &users, hasher)?;
    let opened = Opened::new(alloc)?;
    serve_in::<Plain, Brand, R>(rt, alloc, opened, &users, caches, keeps)
}

/// Guards replies when the system takes or gives few bytes, interrupts a call or has nothing yet:
/// no byte may be lost, doubled or moved.
#[test]
fn a_socket_over_a_stream_in_memory_is_served(rt: HostRuntime) -> Result<(), Fail> {
    let hasher = RandomState::new(&rt)?;
    serve_one(&rt, rt.alloc(), hasher, Journal::On)?;
    serve_one(&rt, rt.alloc(), hasher, Journal::Off)
}
