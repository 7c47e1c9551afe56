//! Pages of 16 entries: which receipts still have an entry once pages were turned.
ghost use Rattle.std.specs.Prelude.{◌≡◌};

use super::commands::{get, set, shows};
use super::replayed::has_page;
use crate::stage::{Closing, Scene, call, closed, count, first, play};
use std::alloc::Global;
use std::process::Abort;
use std::sync::Wait;
use std::test::*;
use tc_grammar::Command;
use tc_locked::{Closed, Hall, Naming, Receipt, Seat, Unread};
use tc_plain::{Cache, Journal};

/// Guards audits: a turned page must drop its entries, and the last page must keep all of its own.
#[test]
fn forty_calls_turn_two_pages(rt: HostRuntime) -> Result<(), Fail> {
    play(&rt, rt.alloc(), 1, 16, Scene::Closing(Closing::TurnsPages))
}

/// Makes a `set` and 39 `get`s on pages of 16 entries, closes the hall, and expects the last page
/// alone.
pub fn turn_two_pages<C: Cache, N: Naming, R: Wait + Abort>(
    rt: &R,
    alloc: Global,
    hall: Hall<C, N>,
    mut seats: Vec<Seat<N>>,
    all: usize,
    keeps: Journal,
) -> Result<(), Fail>
    requires { all ≡ N.terms.seats }
{
    let receipts = set_and_forty(rt, alloc, &hall, first(rt, &mut seats))?;
    let closed = closed(rt, hall, seats);
    assert!(rt; count(rt, &closed, all, 0, 1) == 40);
    expect_forty(rt, alloc, &closed, keeps, &receipts)
}

/// Makes a `set` and 39 `get`s that show its data. Returns their receipts.
fn set_and_forty<C: Cache, N: Naming, R: Wait + Abort>(
    rt: &R,
    alloc: Global,
    hall: &Hall<C, N>,
    seat: &mut Seat<N>,
) -> Result<Vec<Receipt<N>>, Fail> {
    let mut receipts = Vec::with_capacity(alloc, 40)?;
    add_set(rt, alloc, hall, seat, &mut receipts)?;
    add_gets(rt, alloc, hall, seat, &mut receipts)?;
    Ok(receipts)
}

/// Makes a `set`, and appends its receipt.
fn add_set<C: Cache, N: Naming, R: Wait + Abort>(
    rt: &R,
    alloc: Global,
    hall: &Hall<C, N>,
    seat: &mut Seat<N>,
    receipts: &mut Vec<Receipt<N>>,
) -> Result<(), Fail> {
    let set = set(alloc, b"abc")?;
    let called = call(rt, alloc, hall, seat, 1, 5, &set);
    drop(set);
    receipts.push(called?)?;
    Ok(())
}

/// Makes 39 `get`s, and appends their receipts.
fn add_gets<C: Cache, N: Naming, R: Wait + Abort>(
    rt: &R,
    alloc: Global,
    hall: &Hall<C, N>,
    seat: &mut Seat<N>,
    receipts: &mut Vec<Receipt<N>>,
) -> Result<(), Fail> {
    let get = get(alloc)?;
    for _ in 0..39 {
        add_shown(rt, alloc, hall, seat, &get, receipts)?;
    }
    Ok(())
}

/// Makes a `get`, which must show the data, and appends its receipt.
fn add_shown<C: Cache, N: Naming, R: Wait + Abort>(
    rt: &R,
    alloc: Global,
    hall: &Hall<C, N>,
    seat: &mut Seat<N>,
    get: &Command,
    receipts: &mut Vec<Receipt<N>>,
) -> Result<(), Fail> {
    let receipt = call(rt, alloc, hall, seat, 1, 5, get)?;
    let is_shown = shows(&receipt.slip.outcome, b"abc");
    receipts.push(receipt)?;
    assert!(rt; is_shown);
    Ok(())
}

/// Expects eight entries on the last page, which must replay, and none for the first 32 receipts.
fn expect_forty<C: Cache, N: Naming, R: Abort>(
    rt: &R,
    alloc: Global,
    closed: &Closed<C, N>,
    keeps: Journal,
    receipts: &[Receipt<N>],
) -> Result<(), Fail> {
    assert!(rt; has_last_eight(closed, keeps, receipts));
    assert!(rt; has_page(alloc, closed, keeps, 1, 8)?);
    Ok(())
}

/// Returns whether the first 32 receipts have no entry, and the last eight have theirs. Without a
/// journal those exist but cannot be read.
fn has_last_eight<C: Cache, N: Naming>(
    closed: &Closed<C, N>,
    keeps: Journal,
    receipts: &[Receipt<N>],
) -> bool {
    for (place, receipt) in receipts.iter().enumerate() {
        let is_met = match closed.entry_of(receipt) {
            Ok(None) => place < 32,
            Ok(Some(_)) => place >= 32 && keeps == Journal::On,
            Err(unread) => place >= 32 && keeps == Journal::Off && unread == Unread::Off,
        };
        if !is_met {
            return false;
        }
    }
    receipts.len() == 40
}
