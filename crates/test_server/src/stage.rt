//! Two users, a hall over their caches, and the scenes that tests play in it.
ghost use Rattle.std.specs.Prelude.{◌≡◌, ◌<◌, map};
ghost use Rattle.tc_fresh.specs.Beginning.{fresh_cache};

use crate::hall::{busy, crowd, pages, refusals, scenes};
use crate::workers::crews::{self, Hold};
use crate::workers::deals::{self, Guests};
use crate::workers::wires::Plan;
use crate::workers::{backlogs, dues, moves, talks, tapes};
use std::alloc::Global;
use std::hash::RandomState;
use std::marker::Brand;
use std::process::Abort;
use std::random::RandomSource;
use std::sync::Wait;
use std::test::*;
use std::thread::Threads;
use std::time::Clock as Time;
use tc_grammar::Command;
use tc_item::Moment;
use tc_kinds::{Kind, begin_all};
use tc_locked::{Closed, Hall, Naming, Opened, Receipt, Seat};
use tc_partition::Fast;
use tc_plain::{Cache, Journal, Plain};
use tc_users::{Text, UserNo, UserSpec, Users};

/// A scene that a test plays in a hall.
#[derive(Clone, Copy)]
pub enum Scene {
    Within(Within),
    Closing(Closing),
}

/// A scene that leaves the hall open.
#[derive(Clone, Copy)]
pub enum Within {
    /// A seat reads back its own `set`.
    ReadsBack,
    /// Calls at moments earlier than a user's book.
    CallsLate,
    /// Calls on users that do not exist.
    CallsNobody,
    /// One worker serves two connections, one after the other.
    Talks(Plan, Plan),
    /// A connection rests once it has nothing more to say.
    Rests,
    /// One worker serves two connections in the same turns. It gets the second one first.
    Beside(Plan, Plan),
    /// Alice has many connections that take their replies late, and bob has one.
    HoldsBack,
    /// Alice has many busy connections, with or without one of bob's.
    Deals(Guests),
    /// Many of alice's items are due in one second.
    FallsDue,
    /// A client talks over a wire that knows its bytes.
    Tapes,
    /// Both users connect to the worker of alice.
    Comes,
    /// Bob gets his replies while a gate holds alice's worker.
    Holds(Hold),
}

/// A scene that closes the hall.
#[derive(Clone, Copy)]
pub enum Closing {
    /// Closes the hall without its last seat, and then with it.
    ClosesTwice,
    /// Makes one more call than a page holds.
    FillsPage,
    /// Makes a `set` and 39 `get`s on pages of 16 entries.
    TurnsPages,
    /// Fills a page on which items are touched, evicted, expired and flushed.
    ChangesAll,
    /// Makes a hundred calls in each of eight threads while a keeper maintains.
    EightThreads,
    /// Makes a hundred calls in each of eight workers.
    Counts,
}

/// Users, an empty cache for each, and the table for their hall.
#[derive(Drop)]
pub struct Beginning<C: Cache> {
    pub opened: Opened,
    pub users: Users,
    pub caches: Vec<C>,
    ghost fresh: { map C.settled caches.items ≡ map fresh_cache users },
}

/// Returns each user's budget in a scene, in bytes.
fn budget_of(scene: &Scene) -> u64 {
    match scene {
        Scene::Within(Within::FallsDue) => 1_048_576,
        _ => 65_536,
    }
}

/// Returns a user's row with the token `one` and a largest item of 20,000 bytes.
fn row(alloc: Global, name: &[u8], budget: u64) -> Result<UserSpec, Fail> {
    Ok(UserSpec {
        name: Text::copy(alloc, name)?,
        token: Text::copy(alloc, b"one")?,
        second: None,
        budget,
        largest: 20_000,
    })
}

fn add(alloc: Global, users: &mut Users, name: &[u8], budget: u64) -> Result<(), Fail> {
    let row = row(alloc, name, budget)?;
    users.push(row)?;
    Ok(())
}

/// Returns the table of alice, user 1, and bob, user 2.
fn two_users(alloc: Global, budget: u64) -> Result<Users, Fail> {
    let mut users = Users::new(alloc);
    add(alloc, &mut users, b"alice", budget)?;
    add(alloc, &mut users, b"bob", budget)?;
    Ok(users)
}

/// Returns the two users with empty caches of one kind and this budget.
fn begin<C: Kind>(alloc: Global, hasher: RandomState, budget: u64) -> Result<Beginning<C>, Fail> {
    let users = two_users(alloc, budget)?;
    let caches = begin_all(alloc, &users, hasher)?;
    Ok(Beginning {
        opened: Opened::new(alloc)?,
        users,
        caches,
    })
}

/// Plays a scene that leaves the hall open.
fn perform_within<
    C: Cache + Send + Sync,
    N: Naming + Send + Sync,
    R: Threads + Wait + Abort + Time + Copy + Send + Sync + Drop,
>(
    rt: &R,
    alloc: Global,
    hall: &Hall<C, N>,
    users: &Users,
    seats: &mut Vec<Seat<N>>,
    keeps: Journal,
    scene: &Within,
) -> Result<(), Fail> {
    match scene {
        Within::ReadsBack => scenes::read_back(rt, alloc, hall, first(rt, seats), keeps),
        Within::CallsLate => scenes::call_late(rt, alloc, hall, first(rt, seats)),
        Within::CallsNobody => scenes::call_nobody(rt, alloc, hall, first(rt, seats)),
        Within::Talks(one, other) => talks::talk(rt, alloc, hall, users, seats, one, other),
        Within::Rests => talks::rest(rt, alloc, hall, users, seats),
        Within::Beside(one, other) => {
            talks::talk_beside(rt, alloc, hall, users, seats, one, other)
        }
        Within::HoldsBack => backlogs::hold(rt, alloc, hall, users, seats),
        Within::Deals(guests) => deals::deal(rt, alloc, hall, users, seats, *guests),
        Within::FallsDue => dues::fall_due(rt, alloc, hall, users, seats),
        Within::Comes => moves::come(rt, alloc, hall, users, seats),
        Within::Tapes => tapes::serve_tape(rt, alloc, hall, users, seats),
        Within::Holds(hold) => crews::hold_alice(rt, alloc, hall, users, seats, *hold),
    }
}

/// Plays a scene in a hall of `all` seats.
fn perform<
    C: Cache + Send + Sync,
    N: Naming + Send + Sync,
    R: Threads + Wait + Abort + Time + Copy + Send + Sync + Drop,
>(
    rt: &R,
    alloc: Global,
    hall: Hall<C, N>,
    users: &Users,
    mut seats: Vec<Seat<N>>,
    all: usize,
    keeps: Journal,
    scene: &Scene,
) -> Result<(), Fail>
    requires { all ≡ N.terms.seats }
{
    match scene {
        Scene::Within(scene) => {
            perform_within(rt, alloc, &hall, users, &mut seats, keeps, scene)
        }
        Scene::Closing(scene) => match scene {
            Closing::ClosesTwice => scenes::close_twice(rt, alloc, hall, seats, all),
            Closing::FillsPage => {
                refusals::call_on_a_full_page(rt, alloc, hall, seats, all, keeps)
            }
            Closing::TurnsPages => pages::turn_two_pages(rt, alloc, hall, seats, all, keeps),
            Closing::ChangesAll => busy::change_all(rt, alloc, hall, seats, keeps),
            Closing::EightThreads => crowd::eight_threads(rt, alloc, hall, seats, keeps),
            Closing::Counts => crews::count(rt, alloc, hall, users, seats, all),
        },
    }
}

/// Opens the hall `N` of a beginning, and plays a scene in it.
fn perform_on<
    C: Cache + Send + Sync,
    N: Naming + Send + Sync,
    R: Threads + Wait + Abort + Time + Copy + Send + Sync + Drop,
>(
    rt: &R,
    alloc: Global,
    beginning: Beginning<C>,
    seats: usize,
    journal: usize,
    keeps: Journal,
    scene: &Scene,
) -> Result<(), Fail>
    requires name { beginning.opened ≡ N.table }
    requires begins { N.terms.begins ≡ map fresh_cache beginning.users }
    requires seats { (seats ≡ N.terms.seats) × (0 < seats) }
    requires journal { (journal ≡ N.terms.journal) × (0 < journal) }
    requires keeps { keeps ≡ N.terms.keeps }
{
    let Beginning {
        opened,
        users,
        caches,
    } = beginning;
    let (hall, given) = Hall::<C, N>::new(alloc, opened, &users, caches, seats, journal, keeps)?;
    perform(rt, alloc, hall, &users, given, seats, keeps, scene)
}

/// Plays a scene over one kind of cache, with or without a journal.
fn play_once<C: Kind + Send + Sync, R: Threads + Wait + Abort + Time + Copy + Send + Sync + Drop>(
    rt: &R,
    alloc: Global,
    hasher: RandomState,
    seats: usize,
    journal: usize,
    keeps: Journal,
    scene: &Scene,
) -> Result<(), Fail>
    requires { (0 < seats) × (0 < journal) }
{
    let beginning = begin::<C>(alloc, hasher, budget_of(scene))?;
    perform_on::<C, Brand, R>(rt, alloc, beginning, seats, journal, keeps, scene)
}

/// Plays a scene over one kind of cache twice: with a journal and without.
fn play_over<C: Kind + Send + Sync, R: Threads + Wait + Abort + Time + Copy + Send + Sync + Drop>(
    rt: &R,
    alloc: Global,
    hasher: RandomState,
    seats: usize,
    journal: usize,
    scene: &Scene,
) -> Result<(), Fail>
    requires { (0 < seats) × (0 < journal) }
{
    play_once::<C, R>(rt, alloc, hasher, seats, journal, Journal::On, scene)?;
    play_once::<C, R>(rt, alloc, hasher, seats, journal, Journal::Off, scene)
}

/// Plays a scene over each kind of cache, with a journal and without. The hall has `seats` seats,
/// and a page has `journal` entries.
pub fn play<R: Threads + Wait + Abort + Time + RandomSource + Copy + Send + Sync + Drop>(
    rt: &R,
    alloc: Global,
    seats: usize,
    journal: usize,
    scene: Scene,
) -> Result<(), Fail>
    requires { (0 < seats) × (0 < journal) }
{
    let hasher = RandomState::new(rt)?;
    play_over::<Plain, R>(rt, alloc, hasher, seats, journal, &scene)?;
    play_over::<Fast, R>(rt, alloc, hasher, seats, journal, &scene)
}

/// Plays a scene over the fast cache alone, with a journal and without.
pub fn play_fast<R: Threads + Wait + Abort + Time + RandomSource + Copy + Send + Sync + Drop>(
    rt: &R,
    alloc: Global,
    seats: usize,
    journal: usize,
    scene: Scene,
) -> Result<(), Fail>
    requires { (0 < seats) × (0 < journal) }
{
    let hasher = RandomState::new(rt)?;
    play_over::<Fast, R>(rt, alloc, hasher, seats, journal, &scene)
}

/// Returns the first seat.
pub fn first<'a, N: Naming, R: Abort>(rt: &R, seats: &'a mut Vec<Seat<N>>) -> &'a mut Seat<N> {
    assert!(rt; !seats.is_empty());
    &mut seats[0]
}

/// Makes one call for connection 1, at a second below 2^40.
pub fn call<C: Cache, N: Naming, R: Wait + Abort>(
    rt: &R,
    alloc: Global,
    hall: &Hall<C, N>,
    seat: &mut Seat<N>,
    user: u32,
    second: u64,
    command: &Command,
) -> Result<Receipt<N>, Fail> {
    assert!(rt; second < 1 << 40);
    let now = Moment::new(second);
    Ok(hall.call(rt, alloc, seat, UserNo::new(user), now, 1, command)?)
}

/// Closes a hall with all its seats.
pub fn closed<C: Cache, N: Naming, R: Abort>(
    rt: &R,
    hall: Hall<C, N>,
    seats: Vec<Seat<N>>,
) -> Closed<C, N> {
    match hall.close(seats) {
        Ok(closed) => closed,
        Err(_) => panic!(rt; "not closed"),
    }
}

/// Returns how many entries one of `all` seats wrote for a user.
pub fn count<C: Cache, N: Naming, R: Abort>(
    rt: &R,
    closed: &Closed<C, N>,
    all: usize,
    seat_no: usize,
    user: u32,
) -> u64
    requires { all ≡ N.terms.seats }
{
    assert!(rt; seat_no < all);
    closed.count(seat_no, UserNo::new(user))
}
