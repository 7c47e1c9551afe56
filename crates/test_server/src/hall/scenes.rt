//! Scenes with one or two seats: outcomes and moments of calls, and the close of a hall.
ghost use Rattle.std.specs.Prelude.{◌≡◌};

use super::commands::{get, set, shows, shows_nothing};
use crate::stage::{Closing, Scene, Within, call, closed, count, first, play};
use std::alloc::Global;
use std::process::Abort;
use std::sync::Wait;
use std::test::*;
use tc_grammar::Command;
use tc_item::Moment;
use tc_locked::{CallFault, Clock, Hall, Lease, Missing, Naming, Receipt, Seat};
use tc_plain::{Cache, Journal};
use tc_users::UserNo;

/// Guards expiry: a clock that is set back must not bring expired items back.
#[test]
fn the_clock_takes_the_later_moment(rt: HostRuntime) {
    let clock = Clock::new();
    clock.advance(Moment::new(7));
    assert!(&rt; clock.now() == Moment::new(7));
    clock.advance(Moment::new(3));
    assert!(&rt; clock.now() == Moment::new(7));
}

/// Guards users from one another: bob must not read what alice stored under the same key. The
/// journal must take the bytes that operators plan for.
#[test]
fn a_seat_reads_its_own_set_back(rt: HostRuntime) -> Result<(), Fail> {
    play(&rt, rt.alloc(), 1, 16, Scene::Within(Within::ReadsBack))
}

/// Stores for alice. Expects that alice gets the data and bob does not, and the bytes that their
/// pages keep.
pub fn read_back<C: Cache, N: Naming, R: Wait + Abort>(
    rt: &R,
    alloc: Global,
    hall: &Hall<C, N>,
    seat: &mut Seat<N>,
    keeps: Journal,
) -> Result<(), Fail> {
    assert!(rt; hall.users() == 2);
    store_for_one(rt, alloc, hall, seat)?;
    read_ahead(rt, alloc, hall, 1);
    // User 3 does not exist.
    read_ahead(rt, alloc, hall, 3);
    let get = get(alloc)?;
    let found = find_both(rt, alloc, hall, seat, &get);
    drop(get);
    let (one, other) = found?;
    assert!(rt; one && !other);
    assert!(rt; journals(rt, hall) == kept(keeps));
    Ok(())
}

/// Returns the bytes that the pages of users 1 to 3 should keep; user 3 does not exist. An entry
/// takes 208 bytes, and 3 more for the data that it sets or shows. Without a journal a page keeps
/// none.
fn kept(keeps: Journal) -> [u64; 3] {
    match keeps {
        Journal::On => [422, 208, 0],
        Journal::Off => [0; 3],
    }
}

/// Returns the bytes that the pages of users 1 to 3 keep; user 3 does not exist.
fn journals<C: Cache, N: Naming, R: Wait>(rt: &R, hall: &Hall<C, N>) -> [u64; 3] {
    [
        hall.journal_bytes(rt, UserNo::new(1)),
        hall.journal_bytes(rt, UserNo::new(2)),
        hall.journal_bytes(rt, UserNo::new(3)),
    ]
}

/// Reads ahead for a user, for two hashes whose keys need not be held.
fn read_ahead<C: Cache, N: Naming, R: Wait>(rt: &R, alloc: Global, hall: &Hall<C, N>, user: u32) {
    let mut lease = Lease::none();
    hall.read_ahead(rt, &mut lease, UserNo::new(user), &[0, u64::MAX]);
    lease.release();
}

/// Stores `abc` for alice at second 5.
fn store_for_one<C: Cache, N: Naming, R: Wait + Abort>(
    rt: &R,
    alloc: Global,
    hall: &Hall<C, N>,
    seat: &mut Seat<N>,
) -> Result<(), Fail> {
    let set = set(alloc, b"abc")?;
    call(rt, alloc, hall, seat, 1, 5, &set)?;
    Ok(())
}

/// Returns whether a look-up shows the data to alice, and to bob.
fn find_both<C: Cache, N: Naming, R: Wait + Abort>(
    rt: &R,
    alloc: Global,
    hall: &Hall<C, N>,
    seat: &mut Seat<N>,
    get: &Command,
) -> Result<(bool, bool), Fail> {
    let one = finds(rt, alloc, hall, seat, 1, get)?;
    let other = finds(rt, alloc, hall, seat, 2, get)?;
    Ok((one, other))
}

/// Returns whether a look-up shows the data to a user. It must show the data or nothing.
fn finds<C: Cache, N: Naming, R: Wait + Abort>(
    rt: &R,
    alloc: Global,
    hall: &Hall<C, N>,
    seat: &mut Seat<N>,
    user: u32,
    get: &Command,
) -> Result<bool, Fail> {
    let receipt = call(rt, alloc, hall, seat, user, 5, get)?;
    let outcome = &receipt.slip.outcome;
    let (finds, misses) = (shows(outcome, b"abc"), shows_nothing(outcome));
    drop(receipt);
    assert!(rt; finds || misses);
    Ok(finds)
}

/// A call for a user at a second, and the second that its entry should have.
struct Late {
    user: u32,
    second: u64,
    entered: u64,
}

/// Calls before the maintenance of bob's book.
const EARLY: [Late; 2] = [
    Late {
        user: 1,
        second: 5,
        entered: 5,
    },
    Late {
        user: 1,
        second: 9,
        entered: 9,
    },
];

/// Calls after the maintenance of bob's book at second 50.
const LATE: [Late; 2] = [
    Late {
        user: 1,
        second: 7,
        entered: 9,
    },
    Late {
        user: 2,
        second: 20,
        entered: 50,
    },
];

/// Guards the history's order: a worker with an old moment must not serve what another saw expire.
#[test]
fn a_late_call_is_entered_at_the_books_moment(rt: HostRuntime) -> Result<(), Fail> {
    play(&rt, rt.alloc(), 1, 16, Scene::Within(Within::CallsLate))
}

/// Makes calls before and after a maintenance of bob's book, and expects the second of each entry.
pub fn call_late<C: Cache, N: Naming, R: Wait + Abort>(
    rt: &R,
    alloc: Global,
    hall: &Hall<C, N>,
    seat: &mut Seat<N>,
) -> Result<(), Fail> {
    let set = set(alloc, b"abc")?;
    call_all(rt, alloc, hall, seat, &set, &EARLY)?;
    hall.maintain(rt, UserNo::new(2), Moment::new(50), 64);
    call_all(rt, alloc, hall, seat, &set, &LATE)
}

/// Makes each call, and expects the second of its entry.
fn call_all<C: Cache, N: Naming, R: Wait + Abort>(
    rt: &R,
    alloc: Global,
    hall: &Hall<C, N>,
    seat: &mut Seat<N>,
    command: &Command,
    calls: &[Late],
) -> Result<(), Fail> {
    for late in calls {
        let second = entered_at(rt, alloc, hall, seat, command, late)?;
        assert!(rt; second == late.entered);
    }
    Ok(())
}

/// Makes a call. Returns the second of its entry.
fn entered_at<C: Cache, N: Naming, R: Wait + Abort>(
    rt: &R,
    alloc: Global,
    hall: &Hall<C, N>,
    seat: &mut Seat<N>,
    command: &Command,
    late: &Late,
) -> Result<u64, Fail> {
    let receipt = call(rt, alloc, hall, seat, late.user, late.second, command)?;
    Ok(second_of(&receipt))
}

/// Returns the second of a receipt's entry.
fn second_of<N: Naming>(receipt: &Receipt<N>) -> u64 {
    receipt.slip.moment.seconds()
}

/// Guards against a slip in user numbers, which start at 1: no call may reach a neighbour's cache.
#[test]
fn a_call_on_no_user_is_refused(rt: HostRuntime) -> Result<(), Fail> {
    play(&rt, rt.alloc(), 1, 16, Scene::Within(Within::CallsNobody))
}

/// Calls on users 0 and 3, which do not exist, and expects both to be refused.
pub fn call_nobody<C: Cache, N: Naming, R: Wait + Abort>(
    rt: &R,
    alloc: Global,
    hall: &Hall<C, N>,
    seat: &mut Seat<N>,
) -> Result<(), Fail> {
    let get = get(alloc)?;
    let first = has_no_user(rt, alloc, hall, seat, 0, &get);
    let last = has_no_user(rt, alloc, hall, seat, 3, &get);
    assert!(rt; first && last);
    Ok(())
}

/// Makes a call. Returns whether it is refused because the user does not exist.
fn has_no_user<C: Cache, N: Naming, R: Wait>(
    rt: &R,
    alloc: Global,
    hall: &Hall<C, N>,
    seat: &mut Seat<N>,
    user: u32,
    command: &Command,
) -> bool {
    let user = UserNo::new(user);
    let called = hall.call(rt, alloc, seat, user, Moment::FIRST, 1, command);
    matches!(called, Err(CallFault::NoUser))
}

/// Guards audits: a hall must not close while a worker can still write to it.
#[test]
fn a_hall_that_lacks_a_seat_is_not_closed(rt: HostRuntime) -> Result<(), Fail> {
    play(&rt, rt.alloc(), 2, 16, Scene::Closing(Closing::ClosesTwice))
}

/// Stores with the first of two seats. Closes the hall twice: without the last seat, which must
/// fail, and with it.
pub fn close_twice<C: Cache, N: Naming, R: Wait + Abort>(
    rt: &R,
    alloc: Global,
    hall: Hall<C, N>,
    mut seats: Vec<Seat<N>>,
    all: usize,
) -> Result<(), Fail>
    requires { all ≡ N.terms.seats }
{
    store_for_one(rt, alloc, &hall, first(rt, &mut seats))?;
    let last = seats.pop().ok_or("no seat")?;
    let missing = refused(rt, hall, seats);
    close_with(rt, missing, last, all)
}

/// Closes a hall with too few seats, and returns the hall and the seats that come back.
fn refused<C: Cache, N: Naming, R: Abort>(
    rt: &R,
    hall: Hall<C, N>,
    seats: Vec<Seat<N>>,
) -> Missing<C, N> {
    match hall.close(seats) {
        Err(missing) => missing,
        Ok(_) => panic!(rt; "closed without the last seat"),
    }
}

/// Closes a hall with the missing seat, and expects the count of each seat.
fn close_with<C: Cache, N: Naming, R: Abort>(
    rt: &R,
    missing: Missing<C, N>,
    last: Seat<N>,
    all: usize,
) -> Result<(), Fail>
    requires { all ≡ N.terms.seats }
{
    let Missing { hall, mut seats } = missing;
    seats.push(last)?;
    let closed = closed(rt, hall, seats);
    assert!(rt; count(rt, &closed, all, 0, 1) == 1 && count(rt, &closed, all, 1, 1) == 0);
    Ok(())
}
