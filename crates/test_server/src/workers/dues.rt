//! Many items of one user that are due in one second. Texts are by hand from doc/protocol.txt.

use super::deals::{ALICE, Asking, BOB, GETS, LOGGED_IN, Ledger, MANY, MISSED, join};
use super::talks::worker_of;
use crate::hall::commands::set_of;
use crate::stage::{Scene, Within, call, first, play_fast};
use std::alloc::Global;
use std::process::Abort;
use std::sync::{Arc, Wait};
use std::test::*;
use tc_item::Moment;
use tc_links::{Open, Patience};
use tc_locked::{Clock, Hall, Naming, Seat};
use tc_plain::Cache;
use tc_users::Users;
use tc_workers::Worker;

/// How many items are due: more than two turns take out, and fewer than three do.
const ITEMS: u64 = 5_000;

/// The second at which they are stored.
const STORED: u64 = 10;

/// The second at which they are due.
const DUE: u64 = 30;

/// The bytes of the reply to a `get` that finds one byte.
const HIT: u64 = 21;

/// How many connections alice has.
const HERS: usize = 2;

/// Returns one of 26 letters.
fn letter(n: u64) -> u8 {
    b'a' + (n % 26) as u8
}

/// Returns the key of an item: its number in letters.
fn key_of(n: u64) -> [u8; 3] {
    [letter(n / 676), letter(n / 26), letter(n)]
}

/// Stores alice's items, and one byte under `k`, all due at `DUE`.
fn store_all<C: Cache, N: Naming, R: Wait + Abort>(
    rt: &R,
    alloc: Global,
    hall: &Hall<C, N>,
    seat: &mut Seat<N>,
) -> Result<(), Fail> {
    let exptime = (DUE - STORED) as i64;
    for n in 0..ITEMS {
        let set = set_of(alloc, &key_of(n), exptime, b"a")?;
        call(rt, alloc, hall, seat, 1, STORED, &set)?;
    }
    let set = set_of(alloc, b"k", exptime, b"a")?;
    call(rt, alloc, hall, seat, 1, STORED, &set)?;
    Ok(())
}

/// The second of a turn, and how many bytes each of alice's connections, and bob's, was sent after
/// it.
struct Step {
    second: u64,
    alice: u64,
    bob: u64,
}

/// All look up `k` in each turn. Once alice's items are due, three turns take them out. She is
/// served in the last of these, and bob in each.
const STEPS: [Step; 6] = [
    Step {
        second: STORED,
        alice: LOGGED_IN,
        bob: LOGGED_IN,
    },
    Step {
        second: STORED,
        alice: LOGGED_IN + HIT,
        bob: LOGGED_IN + MISSED,
    },
    Step {
        second: DUE,
        alice: LOGGED_IN + HIT,
        bob: LOGGED_IN + 2 * MISSED,
    },
    Step {
        second: DUE,
        alice: LOGGED_IN + HIT,
        bob: LOGGED_IN + 3 * MISSED,
    },
    Step {
        second: DUE,
        alice: LOGGED_IN + HIT + MISSED,
        bob: LOGGED_IN + 4 * MISSED,
    },
    Step {
        second: DUE,
        alice: LOGGED_IN + HIT + 2 * MISSED,
        bob: LOGGED_IN + 5 * MISSED,
    },
];

/// Takes the turn of a step, and expects what was sent.
fn make<C: Cache, N: Naming, R: Wait + Abort>(
    rt: &R,
    hall: &Hall<C, N>,
    users: &Users,
    worker: &mut Worker<Asking, N>,
    clock: &Clock,
    ledger: &Ledger,
    step: &Step,
) {
    if let Some(moment) = Moment::try_new(step.second) {
        clock.advance(moment);
    }
    let patience = worker.turn(rt, hall, users, clock, &Open);
    assert!(rt; patience == Patience::Hurried);
    for at in 0..HERS {
        assert!(rt; ledger.sent(at) == step.alice);
    }
    assert!(rt; ledger.sent(MANY) == step.bob);
}

/// Adds alice's two connections and bob's.
fn join_both<N: Naming, R: Abort>(
    rt: &R,
    worker: &mut Worker<Asking, N>,
    ledger: &Arc<Ledger, Global>,
) -> Result<(), Fail> {
    for at in 0..HERS {
        join(rt, worker, ledger, at, ALICE, GETS)?;
    }
    join(rt, worker, ledger, MANY, BOB, GETS)
}

/// Serves alice's two connections and bob's, before her items are due and after.
pub fn fall_due<C: Cache, N: Naming, R: Wait + Abort>(
    rt: &R,
    alloc: Global,
    hall: &Hall<C, N>,
    users: &Users,
    seats: &mut Vec<Seat<N>>,
) -> Result<(), Fail> {
    store_all(rt, alloc, hall, first(rt, seats))?;
    let ledger = Arc::new(alloc, Ledger::new(alloc)?)?;
    let mut worker = worker_of(rt, alloc, seats);
    join_both(rt, &mut worker, &ledger)?;
    let clock = Clock::new();
    for step in &STEPS {
        make(rt, hall, users, &mut worker, &clock, &ledger, step);
    }
    Ok(())
}

/// Guards bob's latency: the expiry of alice's items must cost her turns, not his.
#[test]
fn many_items_due_at_once_hold_their_user_alone(rt: HostRuntime) -> Result<(), Fail> {
    play_fast(&rt, rt.alloc(), 2, 1_024, Scene::Within(Within::FallsDue))
}
