//! A hall's beginning: its table, its seats and its books.
ghost use Rattle.std.specs.Prelude.{◌≡◌, ℕ, ◌+◌, ◌^◌, ◌<◌, ◌≤◌, [], length, map, All, IfOk, Some, vec_len, vec_capacity};
ghost use Rattle.tc_model.specs.Connection.{user_at};
ghost use Rattle.tc_locked.specs.Views.{first_view};
ghost use Rattle.tc_locked.specs.Calls.{new_seats};
ghost use Rattle.tc_fresh.specs.Beginning.{fresh_cache, IsEmptyCache};
ghost use Rattle.tc_locked.specs.Books.{fresh_book};

use crate::book::Book;
use crate::closing::Room;
use crate::hall::Hall;
use crate::hall_book::HallBook;
use crate::naming::{HallTable, Naming, Shared, TableSeat, WORDS};
use crate::seat::Seat;
use crate::view::{NewBook, NewSeat};
use std::alloc::Global;
use std::marker::{Model, PhantomData};
use std::sync::Mutex;
use tc_item::NoMemory;
use tc_plain::{Cache, Journal};
use tc_users::{UserNo, Users};

/// The table of a hall that is not made yet. Contracts see its identity, which names the hall.
#[derive(Drop)]
pub struct Opened {
    table: HallTable,
    first: TableSeat,
}

impl Model for Opened {
    ghost use Rattle.std.specs.Prelude.{◌≡◌, ◌≤◌, []};
    ghost use Rattle.atomic_table.specs.Seated.{TableId, table_id_coded};
    ghost use Rattle.tc_locked.specs.Views.{first_view, table_words};

    ghost Value = { TableId };

    ghost coded = { table_id_coded };

    ghost view = { λ o. o.table.shared.table_id };

    ghost invariant = { λ o. (o.first.table_id ≡ o.table.shared.table_id)
        × (table_words ≤ o.table.shared.table_id.words)
        × (o.first.me ≡ (first_view 1 0, [])) };
}

impl Opened {
    /// Makes a table for one hall. Fails if memory is refused.
    pub fn new(alloc: Global) -> Result<Opened, NoMemory> {
        let (table, first) = HallTable::of_words(alloc, &[0; WORDS], &())?;
        Ok(Opened { table, first })
    }
}

/// Splits off the callers' seats 0 to `seats` - 1 and appends them to `out`.
fn make_seats<N: Naming>(
    table: &Shared,
    first: &mut TableSeat,
    seats: usize,
    out: &mut Vec<Seat<N>>,
)
    requires table { (table.now.table_id ≡ N.table) × (0 < table.now.table_id.words) }
    requires first { (first.old.table_id ≡ N.table) × (first.old.me ≡ (first_view 1 0, [])) }
    requires room { (vec_len out.old ≡ 0)
        × (out.old.items ≡ [])
        × (seats ≤ vec_capacity out.old)
        × (seats ≡ N.terms.seats) }
    ensures first { (first.new.table_id ≡ N.table) × (first.new.me ≡ (first_view 1 seats, [])) }
    ensures seats { out.new.items ≡ new_seats seats }
{
    for number in 0..seats {
        let inner = table.split_seat::<NewSeat>(first);
        out.push_reserved(Seat {
            inner,
            number,
            of: PhantomData,
        });
    }
}

/// Returns the user of this number.
fn numbered(number: u64) -> UserNo
    requires few { number < 2 ^ 32 }
    ensures { result ≡ number }
{
    UserNo::new(number as u32)
}

/// Makes the next user's book for the hall, with a seat of its own.
fn make_book<C: Cache, N: Naming>(
    table: &Shared,
    first: &mut TableSeat,
    user: UserNo,
    book: Book<C>,
) -> HallBook<C, N>
    requires table { (table.now.table_id ≡ N.table) × (0 < table.now.table_id.words) }
    requires first { (first.old.table_id ≡ N.table)
        × (first.old.me ≡ (first_view user N.terms.seats, [])) }
    requires begins { (user_at N.terms.begins user ≡ Some book.opening)
        × IsEmptyCache book.opening }
    requires book { book ≡ fresh_book book.opening N.terms.seats N.terms.keeps }
    ensures first { (first.new.table_id ≡ N.table)
        × (first.new.me ≡ (first_view (user + 1) N.terms.seats, [])) }
    ensures kept { result ≡ record { user = user; book = book; log = [] } }
{
    let own = table.split_seat::<NewBook>(first);
    HallBook {
        user,
        book,
        badge: own.into_badge(),
        of: PhantomData,
    }
}

/// Makes a book for each cache, each under a lock, and appends them to `out`.
fn make_books<C: Cache, N: Naming>(
    alloc: Global,
    table: &Shared,
    first: &mut TableSeat,
    caches: Vec<C>,
    seats: usize,
    keeps: Journal,
    out: &mut Vec<Mutex<HallBook<C, N>>>,
) -> Result<(), NoMemory>
    requires table { (table.now.table_id ≡ N.table) × (0 < table.now.table_id.words) }
    requires first { (first.old.table_id ≡ N.table)
        × (first.old.me ≡ (first_view 1 N.terms.seats, [])) }
    requires seats { seats ≡ N.terms.seats }
    requires keeps { keeps ≡ N.terms.keeps }
    requires begins { (map C.settled caches.items ≡ N.terms.begins)
        × All IsEmptyCache N.terms.begins }
    requires few { length caches.items < 2 ^ 32 }
    requires room { (vec_len out.old ≡ 0) × (vec_len caches ≤ vec_capacity out.old) }
    ensures books { IfOk result (λ _. vec_len out.new ≡ vec_len caches) }
{
    let mut number = 1u64;
    for cache in caches {
        let book = Book::open(alloc, cache, seats, keeps)?;
        let user = numbered(number);
        out.push_reserved(Mutex::new(make_book(table, first, user, book)));
        number += 1;
    }
    Ok(())
}

/// Returns how many users there are. Each has a cache.
fn count_users<C: Cache>(users: &Users, caches: &Vec<C>) -> usize
    requires caches { map C.settled caches.now.items ≡ map fresh_cache users.now }
    ensures users { result ≡ length users.now }
    ensures caches { result ≡ vec_len caches.now }
    ensures few { length caches.now.items < 2 ^ 32 }
    ensures most { result < 2 ^ 32 }
{
    users.len()
}

impl<C: Cache, N: Naming> Hall<C, N> {
    /// Makes a hall and its seats, which are numbered from 0 and have written nothing. Each user
    /// has a book over the fresh cache at the user's place.
    ///
    /// A page has `journal` entries. `keeps` says whether memory keeps them; otherwise they exist
    /// in proofs alone, and can't be read when the hall has ended. Fails if memory is refused.
    pub fn new(
        alloc: Global,
        opened: Opened,
        users: &Users,
        caches: Vec<C>,
        seats: usize,
        journal: usize,
        keeps: Journal,
    ) -> Result<(Hall<C, N>, Vec<Seat<N>>), NoMemory>
        requires name { opened ≡ N.table }
        requires begins { N.terms.begins ≡ map fresh_cache users.now }
        requires caches { map C.settled caches.items ≡ map fresh_cache users.now }
        requires seats { (seats ≡ N.terms.seats) × (0 < seats) }
        requires journal { (journal ≡ N.terms.journal) × (0 < journal) }
        requires keeps { keeps ≡ N.terms.keeps }
        ensures users { IfOk result (λ r. r.0 ≡ length users.now) }
        ensures seats { IfOk result (λ r. r.1.items ≡ new_seats seats) }
    {
        let users = count_users(users, &caches);
        let mut out = Vec::with_capacity(alloc, seats)?;
        let mut books = Vec::with_capacity(alloc, users)?;
        let room = Vec::with_capacity(alloc, users)?;
        let Opened { table, mut first } = opened;
        make_seats(&table.shared, &mut first, seats, &mut out);
        let room = Room {
            books: room,
            of: PhantomData,
        };
        make_books(
            alloc,
            &table.shared,
            &mut first,
            caches,
            seats,
            keeps,
            &mut books,
        )?;
        let hall = Hall {
            table,
            books,
            journal,
            keeps,
            seats,
            room: Mutex::new(room),
        };
        Ok((hall, out))
    }
}
