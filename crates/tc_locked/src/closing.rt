//! A hall's end: all seats become one, which knows that seats and books agree.
ghost use Rattle.std.specs.Prelude.{◌≡◌, ◌≢◌, ◌+◌, slice_get, Some, ℕ, ◌<◌, ◌≤◌, ◌++◌, ◌∷◌, [], length};
ghost use Rattle.std.specs.Prelude.{slice_index, map, vec_len, vec_capacity, IfOk, IfErr, IfSome, IfNone};
ghost use Rattle.tc_locked.specs.Views.{both_of, seat_view, book_view};
ghost use Rattle.tc_locked.specs.Rule.{Tied, Apart};
ghost use Rattle.tc_plain.specs.declared.shared.journal.Journal.TheVariants.{Off as IsOff};
ghost use Rattle.tc_locked.specs.declared.unread.Unread.TheVariants.{Off};
ghost use Rattle.tc_locked.specs.HallBooks.{IsHallBook};
ghost use Rattle.tc_locked.specs.declared.call_entry.CallEntry.{CallEntry};
ghost use Rattle.tc_locked.specs.Books.{IsNumberAt};
ghost use Rattle.tc_locked.specs.Closing.{seat_face, add_seats, shut_of, TookBooks, HasLegalPage, all_agree};

use crate::audit::{Audit, audit_page};
use crate::book::Book;
use crate::call_entry::CallEntry;
use crate::hall_book::HallBook;
use crate::naming::{Naming, Shared, TableSeat};
use crate::seat::Seat;
use crate::unread::Unread;
use crate::view::{Compared, Together};
use std::alloc::Global;
use std::marker::{Model, PhantomData};
use std::sync::Mutex;
use tc_plain::{Cache, Plain};
use tc_users::UserNo;

/// A book that has left its lock.
#[derive(Drop)]
pub struct Shut<C: Cache> {
    pub(crate) user: UserNo,
    pub(crate) book: Book<C>,
}

impl<C: Cache> Model for Shut<C> {
    ghost use Rattle.tc_locked.specs.Closing.{ShutState};

    ghost Value = { ShutState };

    ghost view = { λ s. record { user = s.user; book = s.book } };
}

impl<C: Cache> Shut<C> {
    /// Returns the number of the book's user.
    pub fn user(&self) -> u32
        ensures { result ≡ self.now.user }
    {
        self.user.number()
    }

    /// Returns how many entries a seat made in it, over all pages.
    pub fn count(&self, seat_no: usize) -> u64
        requires { seat_no < length self.now.book.counts }
        ensures { result ≡ slice_index self.now.book.counts seat_no }
    {
        self.book.count(seat_no)
    }

    /// Returns the entry of this page and number; none if the page was turned. Fails only if the
    /// journal is off.
    pub fn entry(&self, page: u64, number: u64) -> Result<Option<&CallEntry>, Unread>
        ensures other { IfOk result (λ found. page ≢ self.now.book.turns
            → IfSome found (λ _. ⊥)) }
        ensures found { IfOk result (λ found. page ≡ self.now.book.turns → (j : ℕ) (e : CallEntry)
            → slice_get self.now.book.entries j ≡ Some e
            → IsNumberAt number j self.now.book
            → IfSome found (λ x. x.now ≡ e) × IfNone found ⊥) }
        ensures off { IfErr result (λ _. self.now.book.keeps ≡ IsOff) }
    {
        if page != self.book.turns() {
            return Ok(None);
        }
        self.book.entry(number)
    }

    /// Returns the opening of the page as lists. `Unread::Off` only if the journal is off,
    /// `Unread::NoMemory` if memory is refused.
    pub fn opening(&self, alloc: Global) -> Result<Plain, Unread>
        ensures opening { IfOk result (λ plain. plain ≡ self.now.book.opening) }
        ensures off { IfErr result (λ fault. fault ≡ Off → self.now.book.keeps ≡ IsOff) }
        ensures legal { HasLegalPage self.now.book }
    {
        self.book.opening(alloc)
    }

    /// Returns the entries of the page, in order. Fails only if the journal is off.
    pub fn page(&self) -> Result<&[CallEntry], Unread>
        ensures entries { IfOk result (λ entries. entries.now ≡ self.now.book.entries) }
        ensures off { IfErr result (λ _. self.now.book.keeps ≡ IsOff) }
        ensures legal { HasLegalPage self.now.book }
    {
        self.book.page()
    }

    /// Replays the page's calls from its opening and compares the outcomes. `Unread::Off` only if
    /// the journal is off, `Unread::NoMemory` if memory is refused.
    pub fn audit(&self, alloc: Global) -> Result<Audit, Unread>
        ensures audited { IfOk result (λ audit. audit ≡ all_agree self.now.book) }
        ensures off { IfErr result (λ fault. fault ≡ Off → self.now.book.keeps ≡ IsOff) }
    {
        let page = self.book.page()?;
        let opening = self.book.opening(alloc)?;
        let audit = audit_page(alloc, opening, page)?;
        Ok(audit)
    }
}

/// Room for all books of the hall N when it ends. No thread reads it before that.
#[derive(Drop)]
pub struct Room<C: Cache, N: Naming> {
    pub(crate) books: Vec<Shut<C>>,
    pub(crate) of: PhantomData<N>,
}

impl<C: Cache, N: Naming> Model for Room<C, N> {
    ghost use Rattle.std.specs.Prelude.{◌≡◌, ◌≤◌, ℕ, length, [], vec_len, vec_capacity};

    ghost Value = { ℕ };

    ghost view = { λ r. vec_len r.books };

    ghost invariant = { λ r. (vec_len r.books ≡ 0)
        × (r.books.items ≡ [])
        × (length N.terms.begins ≤ vec_capacity r.books) };
}

impl<C: Cache, N: Naming> Room<C, N> {
    /// Returns the room, which is empty.
    pub(crate) fn into_books(self) -> Vec<Shut<C>>
        ensures none { (vec_len result ≡ 0) × (result.items ≡ []) }
        ensures room { length N.terms.begins ≤ vec_capacity result }
    {
        let Room { books, of: _ } = self;
        books
    }
}

/// Joins a caller's seat to `all`.
fn take_seat<N: Naming>(table: &Shared, all: &mut TableSeat, seat: Seat<N>)
    requires table { (table.now.table_id ≡ N.table) × (0 < table.now.table_id.words) }
    requires all { all.old.table_id ≡ N.table }
    ensures { (all.new.table_id ≡ N.table)
        × (all.new.me ≡ (both_of all.old.me.0 (seat_view seat.number seat.notes), all.old.me.1)) }
{
    let Seat {
        inner,
        number: _,
        of: _,
    } = seat;
    table.join_seat::<Together>(all, inner);
}

/// Joins a book's seat to `all`, and returns the book.
fn take_book<C: Cache, N: Naming>(
    table: &Shared,
    all: &mut TableSeat,
    hall_book: HallBook<C, N>,
) -> Shut<C>
    requires table { (table.now.table_id ≡ N.table) × (0 < table.now.table_id.words) }
    requires all { all.old.table_id ≡ N.table }
    ensures shut { result ≡ shut_of hall_book }
    ensures kept { IsHallBook N.terms hall_book }
    ensures all { (all.new.table_id ≡ N.table)
        × (all.new.me ≡ (both_of all.old.me.0 (book_view hall_book.user hall_book.log), all.old.me.1)) }
{
    let HallBook {
        user,
        book,
        badge,
        of: _,
    } = hall_book;
    table.join_seat::<Together>(all, badge.into_seat());
    Shut { user, book }
}

/// Joins all callers' seats to `all`.
pub fn take_seats<N: Naming>(table: &Shared, all: &mut TableSeat, seats: Vec<Seat<N>>)
    requires table { (table.now.table_id ≡ N.table) × (0 < table.now.table_id.words) }
    requires all { all.old.table_id ≡ N.table }
    ensures { (all.new.table_id ≡ N.table)
        × (all.new.me ≡ (add_seats all.old.me.0 (map seat_face seats.items), all.old.me.1)) }
{
    for seat in seats {
        take_seat(table, all, seat);
    }
}

/// Joins all books' seats to `all`, and appends the books to `out`, the last lock's first.
pub fn take_books<C: Cache, N: Naming>(
    table: &Shared,
    all: &mut TableSeat,
    mut locks: Vec<Mutex<HallBook<C, N>>>,
    out: &mut Vec<Shut<C>>,
)
    requires table { (table.now.table_id ≡ N.table) × (0 < table.now.table_id.words) }
    requires all { all.old.table_id ≡ N.table }
    requires room { (vec_len out.old ≡ 0)
        × (out.old.items ≡ [])
        × (vec_len locks ≤ vec_capacity out.old) }
    ensures seat { (all.new.table_id ≡ N.table) × (all.new.me.1 ≡ all.old.me.1) }
    ensures books { TookBooks N.terms all.old.me.0 out.new.items all.new.me.0 }
    ensures count { vec_len out.new ≡ vec_len locks }
{
    while let Some(lock) = locks.pop() {
        out.push_reserved(take_book(table, all, lock.into_inner()));
    }
}

/// Shows that the lists of seats and books in `all` agree (`Tied`).
pub fn compare(table: &Shared, all: &mut TableSeat)
    requires { (all.old.table_id ≡ table.now.table_id) × (0 < table.now.table_id.words) }
    ensures same { (all.new.table_id ≡ all.old.table_id) × (all.new.me ≡ all.old.me) }
    ensures tied { Tied all.new.me.0 }
    ensures apart { Apart all.new.me.0.books }
{
    table.load::<Compared>(all, 0);
}
