//! A page on which items are touched, evicted, expired and flushed, and the state that it began
//! with. The outcomes are by hand: a budget of 65,536 bytes holds three items of 20,000 bytes and a
//! small one.
use super::commands::{flush, get_of, set_of, touch_of};
use super::replayed::has_page;
use crate::stage::{Closing, Scene, call, closed, first, play};
use std::alloc::Global;
use std::process::Abort;
use std::sync::Wait;
use std::test::*;
use tc_grammar::Command;
use tc_locked::{Hall, Naming, Seat};
use tc_plain::{Cache, Journal};
use tc_stats::Outcome;

/// What a step does with its key.
#[derive(Clone, Copy)]
enum Ask {
    /// Sets `len` bytes, which are due after `exptime` seconds, or never if it is 0.
    Set { exptime: i64, len: usize },
    Get,
    Touch { exptime: i64 },
    Flush,
}

/// The expected outcome.
#[derive(Clone, Copy)]
enum Want {
    Stored,
    Touched,
    Done,
    Hit,
    Miss,
}

/// The second of a call, its key, what it does, and its expected outcome.
type Step = (u64, &'static [u8], Ask, Want);

/// Three `set`s. Thirteen `get`s after them fill the first page.
const FIRST: [Step; 3] = [
    (5, b"a", LARGE, Want::Stored),
    (5, b"b", DUE_AT_25, Want::Stored),
    (5, b"s", SMALL, Want::Stored),
];

/// The second page.
const SECOND: [Step; 12] = [
    (6, b"s", Ask::Touch { exptime: 100 }, Want::Touched),
    (6, b"c", LARGE, Want::Stored),
    (6, b"d", LARGE, Want::Stored),
    (6, b"d", Ask::Get, Want::Miss),
    (30, b"b", Ask::Get, Want::Miss),
    (30, b"a", Ask::Get, Want::Hit),
    (30, b"d", LARGE, Want::Stored),
    (30, b"d", Ask::Get, Want::Hit),
    (31, b"s", Ask::Flush, Want::Done),
    (31, b"a", Ask::Get, Want::Miss),
    (32, b"a", SMALL, Want::Stored),
    (32, b"a", Ask::Get, Want::Hit),
];

const LARGE: Ask = Ask::Set {
    exptime: 0,
    len: 20_000,
};

const DUE_AT_25: Ask = Ask::Set {
    exptime: 20,
    len: 20_000,
};

const SMALL: Ask = Ask::Set { exptime: 0, len: 3 };

/// Returns the command of a step.
fn command(alloc: Global, key: &[u8], ask: Ask) -> Result<Command, Fail> {
    match ask {
        Ask::Set { exptime, len } => set_of(alloc, key, exptime, &vec![in alloc; b'd'; len]?),
        Ask::Get => get_of(alloc, key),
        Ask::Touch { exptime } => touch_of(alloc, key, exptime),
        Ask::Flush => Ok(flush()),
    }
}

/// Returns whether an outcome is the expected one.
fn meets(outcome: &Outcome, want: Want) -> bool {
    match (outcome, want) {
        (Outcome::Stored, Want::Stored) => true,
        (Outcome::Touched, Want::Touched) => true,
        (Outcome::Done, Want::Done) => true,
        (Outcome::Values(hits), Want::Hit) => !hits.is_empty(),
        (Outcome::Values(hits), Want::Miss) => hits.is_empty(),
        _ => false,
    }
}

/// Makes a step's call for alice, and expects its outcome.
fn do_step<C: Cache, N: Naming, R: Wait + Abort>(
    rt: &R,
    alloc: Global,
    hall: &Hall<C, N>,
    seat: &mut Seat<N>,
    step: &Step,
) -> Result<(), Fail> {
    let (second, key, ask, want) = *step;
    let command = command(alloc, key, ask)?;
    let is_met = comes_to(rt, alloc, hall, seat, second, &command, want);
    drop(command);
    assert!(rt; is_met?);
    Ok(())
}

/// Makes a call for alice. Returns whether its outcome is the expected one.
fn comes_to<C: Cache, N: Naming, R: Wait + Abort>(
    rt: &R,
    alloc: Global,
    hall: &Hall<C, N>,
    seat: &mut Seat<N>,
    second: u64,
    command: &Command,
    want: Want,
) -> Result<bool, Fail> {
    let receipt = call(rt, alloc, hall, seat, 1, second, command)?;
    Ok(meets(&receipt.slip.outcome, want))
}

/// Fills the first page, and makes the calls of the second.
fn do_pages<C: Cache, N: Naming, R: Wait + Abort>(
    rt: &R,
    alloc: Global,
    hall: &Hall<C, N>,
    seat: &mut Seat<N>,
) -> Result<(), Fail> {
    for step in &FIRST {
        do_step(rt, alloc, hall, seat, step)?;
    }
    for _ in 0..13 {
        do_step(rt, alloc, hall, seat, &(5, b"a", Ask::Get, Want::Hit))?;
    }
    for step in &SECOND {
        do_step(rt, alloc, hall, seat, step)?;
    }
    Ok(())
}

/// Makes the calls of two pages, closes the hall, and expects the second page to replay from its
/// opening.
pub fn change_all<C: Cache, N: Naming, R: Wait + Abort>(
    rt: &R,
    alloc: Global,
    hall: Hall<C, N>,
    mut seats: Vec<Seat<N>>,
    keeps: Journal,
) -> Result<(), Fail> {
    do_pages(rt, alloc, &hall, first(rt, &mut seats))?;
    let closed = closed(rt, hall, seats);
    assert!(rt; has_page(alloc, &closed, keeps, 1, SECOND.len())?);
    Ok(())
}

/// Guards audits: a page must replay even if it begins in the middle of a cache's life.
#[test]
fn a_page_with_every_change_replays(rt: HostRuntime) -> Result<(), Fail> {
    play(&rt, rt.alloc(), 1, 16, Scene::Closing(Closing::ChangesAll))
}
