//! A hall that has ended.
ghost use Rattle.std.specs.Prelude.{◌≡◌, ◌<◌, length, IfOk, IfErr, IfSome, IfNone, option_map, option_copied};
ghost use Rattle.tc_plain.specs.declared.shared.journal.Journal.TheVariants.{Off as IsOff};
ghost use Rattle.tc_locked.specs.declared.unread.Unread.TheVariants.{Off};
ghost use Rattle.tc_locked.specs.Calls.{IsUser};
ghost use Rattle.tc_locked.specs.Closing.{IsBookOf, AreHallBooks, AllTied, IsCountOf, HasNote, IsNoteOf, OnPage, TurnedPage, book_of};
ghost use Rattle.tc_locked.specs.Closing.{HasLegalPage, all_agree};
ghost use Rattle.tc_locked.specs.declared.view.Note.{Note};

use crate::audit::Audit;
use crate::call_entry::CallEntry;
use crate::closing::Shut;
use crate::hall::Hall;
use crate::naming::{Naming, TableSeat};
use crate::receipt::Receipt;
use crate::seat::Seat;
use crate::unread::Unread;
use std::alloc::Global;
use std::marker::{Model, PhantomData};
use tc_plain::{Cache, Plain};
use tc_users::UserNo;

/// `Hall::close` got too few seats: the hall and those seats, unchanged.
#[derive(Drop)]
pub struct Missing<C: Cache, N: Naming> {
    pub hall: Hall<C, N>,
    pub seats: Vec<Seat<N>>,
}

/// A hall that has ended. Contracts see its books and its seats.
#[derive(Drop)]
pub struct Closed<C: Cache, N: Naming> {
    pub(crate) all: TableSeat,
    pub(crate) books: Vec<Shut<C>>,
    pub(crate) of: PhantomData<N>,
}

impl<C: Cache, N: Naming> Model for Closed<C, N> {
    ghost use Rattle.std.specs.Prelude.{◌≡◌, length, map};
    ghost use Rattle.tc_locked.specs.Closing.{ClosedState, with_logs, seat_of, AreHallBooks, AllTied, AllThere};

    ghost Value = { ClosedState };

    ghost view = { λ c. record {
      books = with_logs c.books.items c.all.me.0.books;
      seats = map seat_of c.all.me.0.seats;
    } };

    ghost invariant = { λ c. AreHallBooks N.terms (with_logs c.books.items c.all.me.0.books)
        × AllTied (with_logs c.books.items c.all.me.0.books) (map seat_of c.all.me.0.seats)
        × (length (with_logs c.books.items c.all.me.0.books) ≡ length c.books.items)
        × AllThere N.terms (with_logs c.books.items c.all.me.0.books) };
}

impl<C: Cache, N: Naming> Closed<C, N> {
    /// Returns the book of a user; none exactly if there is no such user.
    fn find(&self, user: UserNo) -> Option<&Shut<C>>
        ensures none { IfNone result (IsUser (length N.terms.begins) user → ⊥) }
        ensures some { IfSome result (λ shut. IsBookOf user self.now.books shut.now) }
        ensures known { IfSome result (λ _. IsUser (length N.terms.begins) user) }
        ensures keeps { IfSome result (λ shut. shut.now.book.keeps ≡ N.terms.keeps) }
        ensures first { option_map (λ shut. shut.book) (option_copied result)
            ≡ book_of user self.now.books }
        ensures kept { AreHallBooks N.terms self.now.books }
        ensures tied { AllTied self.now.books self.now.seats }
    {
        let number = user.number();
        for shut in &self.books {
            if shut.user() == number {
                return Some(shut);
            }
        }
        None
    }

    /// Returns how many entries the seat wrote into the user's book, over all pages; 0 for an
    /// unknown user.
    pub fn count(&self, seat_no: usize, user: UserNo) -> u64
        requires seat { seat_no < N.terms.seats }
        ensures unknown { (IsUser (length N.terms.begins) user → ⊥) → result ≡ 0 }
        ensures count { IsUser (length N.terms.begins) user
            → IsCountOf seat_no user self.now.seats result }
    {
        match self.find(user) {
            Some(shut) => shut.count(seat_no),
            None => 0,
        }
    }

    /// Returns the entry of a receipt; none exactly if its page was turned. Fails only if the
    /// hall's journal is off.
    pub fn entry_of(&self, receipt: &Receipt<N>) -> Result<Option<&CallEntry>, Unread>
        ensures found { IfOk result (λ found. (n : Note) → HasNote self.now.seats n
            → IsNoteOf receipt.now.user receipt.now.slip n
            → IsUser (length N.terms.begins) receipt.now.user
            → IfSome found
            (λ entry. (entry.now ≡ n.entry) × OnPage receipt.now.user self.now.books n.page)
            × IfNone found (TurnedPage receipt.now.user self.now.books n.page)) }
        ensures off { IfErr result (λ _. N.terms.keeps ≡ IsOff) }
    {
        match self.find(receipt.user) {
            Some(shut) => shut.entry(receipt.slip.page, receipt.slip.number),
            None => Ok(None),
        }
    }

    /// Returns the opening of the last page of a user's book as lists; none exactly if there is no
    /// such user. `Unread::Off` only if the hall's journal is off, `Unread::NoMemory` if memory is
    /// refused.
    pub fn opening(&self, alloc: Global, user: UserNo) -> Result<Option<Plain>, Unread>
        ensures opening { IfOk result (λ opening. opening
            ≡ option_map (λ book. book.opening) (book_of user self.now.books)) }
        ensures known { IfOk result (λ opening. IfSome opening
            (λ _. IsUser (length N.terms.begins) user)) }
        ensures unknown { IfOk result (λ opening. IfNone opening
            (IsUser (length N.terms.begins) user → ⊥)) }
        ensures off { IfErr result (λ fault. fault ≡ Off → N.terms.keeps ≡ IsOff) }
        ensures legal { IfSome (book_of user self.now.books) HasLegalPage }
    {
        match self.find(user) {
            Some(shut) => Ok(Some(shut.opening(alloc)?)),
            None => Ok(None),
        }
    }

    /// Returns the entries of the last page of a user's book, in order; none exactly if there is no
    /// such user. Fails only if the hall's journal is off.
    pub fn page(&self, user: UserNo) -> Result<Option<&[CallEntry]>, Unread>
        ensures page { IfOk result (λ page. option_copied page
            ≡ option_map (λ book. book.entries) (book_of user self.now.books)) }
        ensures known { IfOk result (λ page. IfSome page
            (λ _. IsUser (length N.terms.begins) user)) }
        ensures unknown { IfOk result (λ page. IfNone page
            (IsUser (length N.terms.begins) user → ⊥)) }
        ensures off { IfErr result (λ _. N.terms.keeps ≡ IsOff) }
        ensures legal { IfSome (book_of user self.now.books) HasLegalPage }
    {
        match self.find(user) {
            Some(shut) => match shut.page() {
                Ok(page) => Ok(Some(page)),
                Err(unread) => Err(unread),
            },
            None => Ok(None),
        }
    }

    /// Replays the calls of a user's last page on the reference, from the page's opening, and
    /// compares each outcome with the one answered. It returns none exactly if there is no such
    /// user. `Unread::Off` only if the hall's journal is off, `Unread::NoMemory` if memory is
    /// refused. It needs the memory of two caches of the user, and takes as long as the page's
    /// calls take on lists.
    ///
    /// The contract proves for every hall that all outcomes agree (`audited`). So a difference
    /// shows a fault in what no proof covers: the processor, the memory or the compiler.
    pub fn audit(&self, alloc: Global, user: UserNo) -> Result<Option<Audit>, Unread>
        ensures audited { IfOk result (λ audit. audit
            ≡ option_map all_agree (book_of user self.now.books)) }
        ensures known { IfOk result (λ audit. IfSome audit
            (λ _. IsUser (length N.terms.begins) user)) }
        ensures unknown { IfOk result (λ audit. IfNone audit
            (IsUser (length N.terms.begins) user → ⊥)) }
        ensures off { IfErr result (λ fault. fault ≡ Off → N.terms.keeps ≡ IsOff) }
    {
        match self.find(user) {
            Some(shut) => match shut.audit(alloc) {
                Ok(audit) => Ok(Some(audit)),
                Err(unread) => Err(unread),
            },
            None => Ok(None),
        }
    }
}
