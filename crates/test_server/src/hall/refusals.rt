//! A call that may be refused memory. If it is, the book, its page and its counts stay as before.
ghost use Rattle.std.specs.Prelude.{◌≡◌};

use super::commands::set;
use super::replayed::has_page;
use crate::stage::{Closing, Scene, call, closed, count, first, play};
use std::alloc::Global;
use std::process::Abort;
use std::sync::Wait;
use std::test::*;
use tc_grammar::Command;
use tc_item::Moment;
use tc_locked::{CallFault, Hall, Naming, Seat};
use tc_plain::{Cache, Journal};
use tc_users::UserNo;

/// Guards data and audits when memory is short: a refused call must leave no trace, and an accepted
/// one a full one.
#[test]
fn a_refused_call_on_a_full_page_changes_nothing(rt: HostRuntime) -> Result<(), Fail> {
    play(&rt, rt.alloc(), 1, 3, Scene::Closing(Closing::FillsPage))
}

/// Fills a page of three entries, makes one more call, and closes the hall.
pub fn call_on_a_full_page<C: Cache, N: Naming, R: Wait + Abort>(
    rt: &R,
    alloc: Global,
    hall: Hall<C, N>,
    mut seats: Vec<Seat<N>>,
    all: usize,
    keeps: Journal,
) -> Result<(), Fail>
    requires { all ≡ N.terms.seats }
{
    let refused = fill_page_and_call(rt, alloc, &hall, first(rt, &mut seats))?;
    close_after(rt, alloc, hall, seats, all, keeps, refused)
}

/// Fills a page. Returns whether one more call is refused.
fn fill_page_and_call<C: Cache, N: Naming, R: Wait + Abort>(
    rt: &R,
    alloc: Global,
    hall: &Hall<C, N>,
    seat: &mut Seat<N>,
) -> Result<bool, Fail> {
    let set = set(alloc, b"abc")?;
    fill_page(rt, alloc, hall, seat, &set)?;
    Ok(is_refused(rt, alloc, hall, seat, &set))
}

/// Makes three calls at second 5.
fn fill_page<C: Cache, N: Naming, R: Wait + Abort>(
    rt: &R,
    alloc: Global,
    hall: &Hall<C, N>,
    seat: &mut Seat<N>,
    command: &Command,
) -> Result<(), Fail> {
    for _ in 0..3 {
        call(rt, alloc, hall, seat, 1, 5, command)?;
    }
    Ok(())
}

/// Makes a call at second 6. Returns whether memory is refused to it.
fn is_refused<C: Cache, N: Naming, R: Wait>(
    rt: &R,
    alloc: Global,
    hall: &Hall<C, N>,
    seat: &mut Seat<N>,
    command: &Command,
) -> bool {
    let called = hall.call(rt, alloc, seat, UserNo::new(1), Moment::new(6), 1, command);
    matches!(called, Err(CallFault::NoMemory))
}

/// Closes the hall. A refused call must leave the page and the count; an accepted one must begin a
/// page and be counted.
fn close_after<C: Cache, N: Naming, R: Abort>(
    rt: &R,
    alloc: Global,
    hall: Hall<C, N>,
    seats: Vec<Seat<N>>,
    all: usize,
    keeps: Journal,
    refused: bool,
) -> Result<(), Fail>
    requires { all ≡ N.terms.seats }
{
    let (counted, entries) = if refused { (3, 3) } else { (4, 1) };
    let closed = closed(rt, hall, seats);
    assert!(rt; count(rt, &closed, all, 0, 1) == counted);
    assert!(rt; has_page(alloc, &closed, keeps, 1, entries)?);
    Ok(())
}
