//! What lies under a user's lock: the user's book, with the book's own seat of the hall's table.
ghost use Rattle.std.specs.Prelude.{◌≡◌, ◌<◌, ◌≤◌, IfOk, OnOk, IfErr, OnErr, length};
ghost use Rattle.tc_plain.specs.Keeping.{kept_by};
ghost use Rattle.tc_locked.specs.Views.{table_words, of_user};
ghost use Rattle.tc_locked.specs.Books.{entry_of, slip_of, paged, after_maintain, IsBookFault};
ghost use Rattle.tc_locked.specs.HallBooks.{hall_book_after, seat_after};

use crate::book::Book;
use crate::call_fault::CallFault;
use crate::called::Called;
use crate::entering::note_both;
use crate::kept_command::KeptCommand;
use crate::naming::{Naming, Shared};
use crate::seat::Seat;
use crate::view::View;
use atomic_table::Badge;
use std::alloc::Global;
use std::marker::{Model, PhantomData};
use std::mem;
use tc_grammar::Command;
use tc_item::Moment;
use tc_plain::{Cache, Plain, Progress};
use tc_users::UserNo;

/// A book of the hall N. Contracts see its user, its state and the notes of all its pages.
#[derive(Drop)]
pub struct HallBook<C: Cache, N: Naming> {
    pub(crate) user: UserNo,
    pub(crate) book: Book<C>,
    pub(crate) badge: Badge<View>,
    pub(crate) of: PhantomData<N>,
}

impl<C: Cache, N: Naming> Model for HallBook<C, N> {
    ghost use Rattle.std.specs.Prelude.{◌≡◌, ◌∷◌, []};
    ghost use Rattle.tc_locked.specs.Views.{book_view};
    ghost use Rattle.tc_locked.specs.HallBooks.{HallBookState, log_of, IsHallBook};

    ghost Value = { HallBookState };

    ghost view = { λ k. record { user = k.user; book = k.book; log = log_of k.badge.views } };

    ghost invariant = { λ k. (k.badge.table_id ≡ N.table)
        × (k.badge.views ≡ book_view k.user (log_of k.badge.views) ∷ [])
        × IsHallBook N.terms (record { user = k.user; book = k.book; log = log_of k.badge.views }) };
}

impl<C: Cache, N: Naming> HallBook<C, N> {
    /// Runs a paged call of the book, and notes the entry with the caller's seat and the book's. It
    /// never blocks, and a refusal changes nothing. The frozen opening of a turned page goes to
    /// `left`.
    pub fn call(
        &mut self,
        alloc: Global,
        left: &mut Option<Plain>,
        table: &Shared,
        seat: &mut Seat<N>,
        journal: usize,
        now: Moment,
        conn: u32,
        command: &Command,
        copy: Option<KeptCommand>,
    ) -> Result<Called, CallFault>
        requires table { (table.now.table_id ≡ N.table)
            × (table_words ≤ table.now.table_id.words) }
        requires journal { (journal ≡ N.terms.journal) × (0 < journal) }
        requires copy { copy ≡ kept_by N.terms.keeps command.now }
        ensures slip { IfOk result (λ called. called.slip ≡ slip_of (paged journal self.old.book)
            (entry_of self.old.book seat.old.number now conn command.now)) }
        ensures kept { OnOk result (self.new
            ≡ hall_book_after journal self.old seat.old.number now conn command.now) }
        ensures seat { OnOk result (seat.new
            ≡ seat_after journal self.old seat.old now conn command.now) }
        ensures tally { IfOk result (λ called. called.slip.tally
            ≡ length (of_user self.old.user seat.new.notes)) }
        ensures fault { IfErr result (IsBookFault self.old.book.number) }
        ensures unchanged_on_err { OnErr result ((self.new ≡ self.old) × (seat.new ≡ seat.old)) }
    {
        let called = self.book.call_paged(
            alloc,
            left,
            journal,
            seat.number,
            now,
            conn,
            command,
            copy,
        )?;
        let badge = mem::replace(&mut self.badge, Badge::blank());
        self.badge = note_both(
            table,
            &mut seat.inner,
            seat.number,
            badge,
            self.user,
            called.slip.page,
            &called.entry,
        );
        Ok(called)
    }

    /// Does at most `limit` pieces of the cache's deferred work (`Cache::maintain`).
    pub fn maintain(&mut self, now: Moment, limit: u32) -> Progress
        ensures { self.new ≡ record {
          user = self.old.user;
          book = after_maintain self.old.book now;
          log = self.old.log;
        } }
    {
        self.book.maintain(now, limit)
    }

    /// Prefetches what look-ups of keys with these hashes will read.
    pub(crate) fn read_ahead(&self, hashes: &[u64]) {
        self.book.read_ahead(hashes);
    }

    /// Returns how many bytes the entries of its page keep; 0 if the journal is off.
    pub(crate) fn journal_bytes(&self) -> u64 {
        self.book.journal_bytes()
    }

    /// Returns the number of the book's user.
    pub(crate) fn user(&self) -> u32
        ensures { result ≡ self.now.user }
    {
        self.user.number()
    }
}
