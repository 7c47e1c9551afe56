//! A hall: each user's book under a lock of its own.
ghost use Rattle.std.specs.Prelude.{◌≡◌, ◌↔◌, ◌<◌, ◌≤◌, ◌++◌, ◌∷◌, [], length, IfOk, OnOk, IfErr, OnErr, vec_len};
ghost use Rattle.tc_locked.specs.Closing.{AreHallBooks, AllTied, AllThere, AllFresh};
ghost use Rattle.tc_locked.specs.Calls.{IsUser, IsAnswered};
ghost use Rattle.tc_locked.specs.Refusals.{refusal};
ghost use Rattle.tc_locked.specs.declared.call_fault.CallFault.TheVariants.{NoUser, NoMemory as OutOfMemory};
ghost use Rattle.tc_plain.specs.Keeping.{kept_by};

use crate::call_fault::CallFault;
use crate::called::Called;
use crate::closed::{Closed, Missing};
use crate::closing::{Room, compare, take_books, take_seats};
use crate::hall_book::HallBook;
use crate::kept_command::KeptCommand;
use crate::lease::Lease;
use crate::locking::lock_soon;
use crate::naming::{HallTable, Naming};
use crate::receipt::Receipt;
use crate::refusals::{Refusals, Refused};
use crate::seat::Seat;
use std::alloc::Global;
use std::marker::{Model, PhantomData};
use std::sync::{Mutex, Wait};
use tc_grammar::Command;
use tc_item::Moment;
use tc_plain::{Cache, Journal, Progress};
use tc_users::UserNo;

/// The books of all users of the hall N. Contracts see the number of users.
#[derive(Drop)]
pub struct Hall<C: Cache, N: Naming> {
    pub(crate) table: HallTable,
    pub(crate) books: Vec<Mutex<HallBook<C, N>>>,
    /// How many entries a full page has.
    pub(crate) journal: usize,
    /// Whether pages keep their entries in memory.
    pub(crate) keeps: Journal,
    /// How many seats the hall began with.
    pub(crate) seats: usize,
    /// Room for the books when the hall ends. Its own lock lets threads share the hall.
    pub(crate) room: Mutex<Room<C, N>>,
}

impl<C: Cache, N: Naming> Model for Hall<C, N> {
    ghost use Rattle.std.specs.Prelude.{◌≡◌, ◌<◌, ◌≤◌, ◌^◌, ℕ, length, vec_len};
    ghost use Rattle.tc_locked.specs.Views.{table_words};

    ghost Value = { ℕ };

    ghost view = { λ h. vec_len h.books };

    ghost invariant = { λ h. (h.table.shared.table_id ≡ N.table)
        × (table_words ≤ h.table.shared.table_id.words)
        × (h.journal ≡ N.terms.journal)
        × (h.keeps ≡ N.terms.keeps)
        × (0 < h.journal)
        × (h.seats ≡ N.terms.seats)
        × (0 < h.seats)
        × (vec_len h.books ≡ length N.terms.begins)
        × (vec_len h.books < 2 ^ 32) };
}

/// Copies a command to keep if the journal is on. The copy shares the command's data.
fn copy_to_keep(
    alloc: Global,
    command: &Command,
    keeps: Journal,
) -> Result<Option<KeptCommand>, CallFault>
    ensures copy { IfOk result (λ copy. copy ≡ kept_by keeps command.now) }
    ensures refused { IfErr result (λ fault. fault ≡ OutOfMemory) }
{
    match keeps {
        Journal::On => {
            let Ok(copy) = KeptCommand::of(alloc, command) else {
                return Err(CallFault::NoMemory);
            };
            Ok(Some(copy))
        }
        Journal::Off => Ok(None),
    }
}

impl<C: Cache, N: Naming> Hall<C, N> {
    /// Returns how many users there are. Their numbers are 1 to this.
    pub fn users(&self) -> u32
        ensures count { result ≡ self.now }
        ensures begins { self.now ≡ length N.terms.begins }
    {
        self.books.len() as u32
    }

    /// Runs a `call` that keeps the user's lock in `lease`. It runs `held` once it has the lock,
    /// and adds a refusal to `refusals`.
    pub fn call_with<'a, R: Wait, F: FnOnce()>(
        &'a self,
        rt: &R,
        alloc: Global,
        seat: &mut Seat<N>,
        refusals: &mut Refusals<N>,
        lease: &mut Lease<'a, C, N>,
        user: UserNo,
        now: Moment,
        conn: u32,
        command: &Command,
        held: F,
    ) -> Result<Receipt<N>, CallFault>
        requires held { F.pre held }
        ensures receipt { IfOk result (λ receipt. receipt.user ≡ user) }
        ensures answered { IfOk result (λ receipt. IsAnswered self.now user seat.old now conn
            command.now receipt.slip seat.new) }
        ensures unknown { IfErr result (λ fault. (fault ≡ NoUser) ↔ (IsUser self.now user → ⊥)) }
        ensures unchanged_on_err { OnErr result (seat.new ≡ seat.old) }
        ensures refused { IfErr result (λ fault. refusals.new
            ≡ refusals.old ++ refusal user conn fault command.now ∷ []) }
        ensures none_refused { OnOk result (refusals.new ≡ refusals.old) }
    {
        let called = self.try_call(rt, alloc, seat, lease, user, now, conn, command, held);
        if let Err(fault) = &called {
            let fault = *fault;
            refusals.add(Refused { user, conn, fault }, command);
        }
        called
    }

    /// Does the work of `call` and `call_with`.
    fn try_call<'a, R: Wait, F: FnOnce()>(
        &'a self,
        rt: &R,
        alloc: Global,
        seat: &mut Seat<N>,
        lease: &mut Lease<'a, C, N>,
        user: UserNo,
        now: Moment,
        conn: u32,
        command: &Command,
        held: F,
    ) -> Result<Receipt<N>, CallFault>
        requires held { F.pre held }
        ensures receipt { IfOk result (λ receipt. receipt.user ≡ user) }
        ensures answered { IfOk result (λ receipt. IsAnswered self.now user seat.old now conn
            command.now receipt.slip seat.new) }
        ensures unknown { IfErr result (λ fault. (fault ≡ NoUser) ↔ (IsUser self.now user → ⊥)) }
        ensures unchanged_on_err { OnErr result (seat.new ≡ seat.old) }
    {
        let number = user.number();
        if number == 0 || number > self.users() {
            return Err(CallFault::NoUser);
        }
        // Copied before the thread takes the lock, so that nobody waits for the copy.
        let copy = copy_to_keep(alloc, command, self.keeps)?;
        let at = (number - 1) as usize;
        let mut guard = lease.lock(rt, number, &self.books[at]);
        held();
        let book = &mut *guard;
        if book.user() != number {
            // A lock's type doesn't say which place it has. No hall is made with a book in
            // another's place.
            drop(copy);
            return Err(CallFault::OtherBook);
        }
        let Called { slip, entry: _ } = book.call(
            alloc,
            &mut lease.left,
            &self.table.shared,
            seat,
            self.journal,
            now,
            conn,
            command,
            copy,
        )?;
        lease.keep(number, guard, command);
        Ok(Receipt {
            user,
            slip,
            of: PhantomData,
        })
    }

    /// Runs one command for a seat in the user's book. It fails with `NoUser` exactly if the hall
    /// has no such user. A refusal leaves the seat unchanged.
    pub fn call<R: Wait>(
        &self,
        rt: &R,
        alloc: Global,
        seat: &mut Seat<N>,
        user: UserNo,
        now: Moment,
        conn: u32,
        command: &Command,
    ) -> Result<Receipt<N>, CallFault>
        ensures receipt { IfOk result (λ receipt. receipt.user ≡ user) }
        ensures answered { IfOk result (λ receipt. IsAnswered self.now user seat.old now conn
            command.now receipt.slip seat.new) }
        ensures unknown { IfErr result (λ fault. (fault ≡ NoUser) ↔ (IsUser self.now user → ⊥)) }
        ensures unchanged_on_err { OnErr result (seat.new ≡ seat.old) }
    {
        let mut lease = Lease::none();
        self.try_call(rt, alloc, seat, &mut lease, user, now, conn, command, || ())
    }

    /// Does at most `limit` pieces of deferred work of a user's cache; nothing for an unknown user.
    /// No clause says how much it does: the user's calls do the rest.
    pub fn maintain<R: Wait>(&self, rt: &R, user: UserNo, now: Moment, limit: u32) -> Progress {
        let number = user.number();
        if number == 0 || number > self.users() {
            return Progress::Done;
        }
        lock_soon(&self.books[(number - 1) as usize], rt).maintain(now, limit)
    }

    /// Prefetches what look-ups of keys with these hashes will read in a user's cache, under the
    /// user's lock, which `lease` keeps for the next calls. It changes nothing, and does nothing
    /// for an unknown user.
    pub fn read_ahead<'a, R: Wait>(
        &'a self,
        rt: &R,
        lease: &mut Lease<'a, C, N>,
        user: UserNo,
        hashes: &[u64],
    ) {
        let number = user.number();
        if number == 0 || number > self.users() {
            return;
        }
        let guard = lease.lock(rt, number, &self.books[(number - 1) as usize]);
        guard.read_ahead(hashes);
        lease.hold(number, guard);
    }

    /// Returns how many bytes the entries of a user's page keep, with the data that they share with
    /// the cache; 0 for an unknown user or if the journal is off. No clause covers it: it is a
    /// figure for the operator.
    pub fn journal_bytes<R: Wait>(&self, rt: &R, user: UserNo) -> u64 {
        let number = user.number();
        if number == 0 || number > self.users() {
            return 0;
        }
        lock_soon(&self.books[(number - 1) as usize], rt).journal_bytes()
    }

    /// Ends the hall. It fails exactly if it gets fewer than all seats, and returns the hall and
    /// those seats.
    ///
    /// Otherwise each book is legal over all pages (`kept`). Each seat's entries in each book are
    /// what the seat wrote there (`tied`). Each hit is what the entries before it last left under
    /// its key (`fresh`). Each user has a book (`there`).
    pub fn close(self, mut seats: Vec<Seat<N>>) -> Result<Closed<C, N>, Missing<C, N>>
        ensures seats { IfOk result (λ closed. closed.seats ≡ seats.items) }
        ensures books { IfOk result (λ closed. length closed.books ≡ self) }
        ensures kept { IfOk result (λ closed. AreHallBooks N.terms closed.books) }
        ensures tied { IfOk result (λ closed. AllTied closed.books closed.seats) }
        ensures fresh { IfOk result (λ closed. AllFresh closed.books) }
        ensures there { IfOk result (λ closed. AllThere N.terms closed.books) }
        ensures all { IfOk result (λ _. N.terms.seats ≤ vec_len seats) }
        ensures missing { IfErr result (λ m. (vec_len seats < N.terms.seats)
            × (m.hall ≡ self)
            × (m.seats.items ≡ seats.items)) }
    {
        if seats.len() < self.seats {
            return Err(Missing { hall: self, seats });
        }
        let Hall {
            table,
            books: locks,
            journal: _,
            keeps: _,
            seats: _,
            room,
        } = self;
        let mut books = room.into_inner().into_books();
        let mut all = seats.remove(0).into_inner();
        take_seats(&table.shared, &mut all, seats);
        take_books(&table.shared, &mut all, locks, &mut books);
        compare(&table.shared, &mut all);
        Ok(Closed {
            all,
            books,
            of: PhantomData,
        })
    }
}
