//! One or two connections of one worker, one after the other or in the same turns.

use super::table::{APPENDS, ASKS, EMPTY_WRITES, Mishap, READS, RESTS, SILENT, STORES, WRITES};
use super::wires::{Ending, Memory, Plan, Seen};
use crate::stage::{Scene, Within, play};
use std::alloc::Global;
use std::process::Abort;
use std::random::RandomSource;
use std::sync::atomic::Ordering::SeqCst;
use std::sync::{Arc, Wait};
use std::test::*;
use std::thread::Threads;
use std::time::Clock as Time;
use tc_links::{Open, Patience, Wire};
use tc_locked::{Clock, Hall, Naming, Seat};
use tc_plain::Cache;
use tc_users::Users;
use tc_workers::Worker;

/// Enough turns for each stream of the tables, at a byte a turn.
const TURNS: u64 = 256;

/// Returns a worker with the last seat.
pub fn worker_of<W: Wire + Drop, N: Naming, R: Abort>(
    rt: &R,
    alloc: Global,
    seats: &mut Vec<Seat<N>>,
) -> Worker<W, N> {
    let Some(seat) = seats.pop() else {
        panic!(rt; "no seat")
    };
    match Worker::new(alloc, seat) {
        Ok(worker) => worker,
        Err(_) => panic!(rt; "no memory"),
    }
}

/// Takes all turns of a worker.
fn take_turns<C: Cache, N: Naming, R: Wait>(
    rt: &R,
    hall: &Hall<C, N>,
    users: &Users,
    worker: &mut Worker<Memory, N>,
) {
    let clock = Clock::new();
    for _ in 0..TURNS {
        worker.turn(rt, hall, users, &clock, &Open);
    }
}

/// Adds connection 1 over a wire, and takes all turns.
fn serve<C: Cache, N: Naming, R: Wait + Abort>(
    rt: &R,
    hall: &Hall<C, N>,
    users: &Users,
    worker: &mut Worker<Memory, N>,
    wire: Memory,
) {
    assert!(rt; worker.add(1, wire).is_ok());
    take_turns(rt, hall, users, worker);
}

/// Expects a wire to have been sent exactly its plan's bytes. Its connection must be dropped,
/// unless it stays; one that stays must have been read each turn.
fn expect_heard(rt: &impl Abort, seen: &Seen, plan: &Plan, idle: bool) {
    assert!(rt; seen.has_heard(plan));
    match plan.ending {
        Ending::Stays => assert!(rt; !idle && seen.reads.load(SeqCst) == TURNS),
        _ => assert!(rt; idle),
    }
}

/// Serves one connection from its first byte on, and expects its replies.
fn talk_once<C: Cache, N: Naming, R: Wait + Abort>(
    rt: &R,
    alloc: Global,
    hall: &Hall<C, N>,
    users: &Users,
    worker: &mut Worker<Memory, N>,
    plan: &Plan,
) -> Result<(), Fail> {
    let seen = Arc::new(alloc, Seen::new())?;
    let wire = Memory::new(*plan, Arc::try_clone(&seen)?);
    serve(rt, hall, users, worker, wire);
    expect_heard(rt, &seen, plan, worker.is_idle());
    Ok(())
}

/// Serves two connections, one after the other, and expects what each is sent and whether it is
/// dropped.
pub fn talk<C: Cache, N: Naming, R: Wait + Abort>(
    rt: &R,
    alloc: Global,
    hall: &Hall<C, N>,
    users: &Users,
    seats: &mut Vec<Seat<N>>,
    one: &Plan,
    other: &Plan,
) -> Result<(), Fail> {
    let mut worker = worker_of(rt, alloc, seats);
    talk_once(rt, alloc, hall, users, &mut worker, one)?;
    talk_once(rt, alloc, hall, users, &mut worker, other)
}

/// Takes a connection's first two turns. In the first it logs in, and its look-up waits. In the
/// second the worker answers, reads once more and may wait.
fn rest_once<C: Cache, N: Naming, R: Wait + Abort>(
    rt: &R,
    alloc: Global,
    hall: &Hall<C, N>,
    users: &Users,
    worker: &mut Worker<Memory, N>,
) -> Result<(), Fail> {
    let seen = Arc::new(alloc, Seen::new())?;
    let wire = Memory::new(RESTS, Arc::try_clone(&seen)?);
    assert!(rt; worker.add(1, wire).is_ok());
    let patience = worker.turn(rt, hall, users, &Clock::new(), &Open);
    assert!(rt; patience == Patience::Hurried && seen.reads.load(SeqCst) == 1);
    let patience = worker.turn(rt, hall, users, &Clock::new(), &Open);
    assert!(rt; patience == Patience::Long && !worker.is_idle());
    assert!(rt; seen.has_heard(&RESTS) && seen.reads.load(SeqCst) == 2);
    Ok(())
}

/// Serves one connection whose wire an inlet watches, for two turns.
pub fn rest<C: Cache, N: Naming, R: Wait + Abort>(
    rt: &R,
    alloc: Global,
    hall: &Hall<C, N>,
    users: &Users,
    seats: &mut Vec<Seat<N>>,
) -> Result<(), Fail> {
    let mut worker = worker_of(rt, alloc, seats);
    rest_once(rt, alloc, hall, users, &mut worker)
}

/// Adds a connection of this number, over a wire that follows this plan.
fn join<N: Naming, R: Abort>(
    rt: &R,
    worker: &mut Worker<Memory, N>,
    number: u32,
    plan: &Plan,
    seen: &Arc<Seen, Global>,
) -> Result<(), Fail> {
    let wire = Memory::new(*plan, Arc::try_clone(seen)?);
    assert!(rt; worker.add(number, wire).is_ok());
    Ok(())
}

/// Serves two connections in the same turns; the worker gets the second one first. Expects what
/// each is sent, and that both are dropped.
pub fn talk_beside<C: Cache, N: Naming, R: Wait + Abort>(
    rt: &R,
    alloc: Global,
    hall: &Hall<C, N>,
    users: &Users,
    seats: &mut Vec<Seat<N>>,
    one: &Plan,
    other: &Plan,
) -> Result<(), Fail> {
    let mut worker = worker_of(rt, alloc, seats);
    let second = Arc::new(alloc, Seen::new())?;
    join(rt, &mut worker, 2, other, &second)?;
    let first = Arc::new(alloc, Seen::new())?;
    join(rt, &mut worker, 1, one, &first)?;
    take_turns(rt, hall, users, &mut worker);
    assert!(rt; first.has_heard(one) && second.has_heard(other) && worker.is_idle());
    Ok(())
}

/// Plays a row of mishaps: two streams in the same turns, once for each read or write of the row.
fn expect_beside<R: Threads + Wait + Abort + Time + RandomSource + Copy + Send + Sync + Drop>(
    rt: &R,
    alloc: Global,
    row: &Mishap,
) -> Result<(), Fail> {
    for n in row.from..=row.to {
        let beside = Scene::Within(Within::Beside(row.storing(n), row.contending()));
        play(rt, alloc, 1, 16, beside)?;
    }
    Ok(())
}

/// Plays all rows of a table of mishaps.
fn expect_all<R: Threads + Wait + Abort + Time + RandomSource + Copy + Send + Sync + Drop>(
    rt: &R,
    alloc: Global,
    rows: &[Mishap],
) -> Result<(), Fail> {
    for row in rows {
        expect_beside(rt, alloc, row)?;
    }
    Ok(())
}

/// Guards stored data when a connection breaks: what was done before a wire failed stays done,
/// though its reply is lost. What a wire did not take must be sent in a later turn.
#[test]
fn what_was_done_stays_done_whatever_comes_of_its_wire(rt: HostRuntime) -> Result<(), Fail> {
    expect_all(&rt, rt.alloc(), READS)?;
    expect_all(&rt, rt.alloc(), WRITES)?;
    expect_all(&rt, rt.alloc(), EMPTY_WRITES)
}

/// Guards idle clients: a silent connection must be kept, and read if no inlet reports it.
#[test]
fn a_wire_that_has_nothing_yet_is_kept_and_asked_each_turn(rt: HostRuntime) -> Result<(), Fail> {
    play(
        &rt,
        rt.alloc(),
        1,
        16,
        Scene::Within(Within::Talks(ASKS, SILENT)),
    )
}

/// Guards the processor: a worker with idle connections must wait, not spin.
#[test]
fn a_watched_wire_rests_in_the_turn_that_answers_it(rt: HostRuntime) -> Result<(), Fail> {
    play(&rt, rt.alloc(), 1, 16, Scene::Within(Within::Rests))
}

/// Guards a fixed order within a turn: the worker serves connections by number, not by when it got
/// them.
#[test]
fn a_turn_goes_by_the_numbers_of_connections(rt: HostRuntime) -> Result<(), Fail> {
    play(
        &rt,
        rt.alloc(),
        1,
        16,
        Scene::Within(Within::Beside(STORES, APPENDS)),
    )
}
