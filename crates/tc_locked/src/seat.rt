//! A caller's seat.
ghost use Rattle.std.specs.Prelude.{◌≡◌, ◌<◌, length, []};
ghost use Rattle.tc_locked.specs.Views.{seat_view};

use crate::naming::{Naming, TableSeat};
use std::marker::{Model, PhantomData};

/// A seat of the hall N. Contracts see its number and the notes of what it wrote.
#[derive(Drop)]
pub struct Seat<N: Naming> {
    pub(crate) inner: TableSeat,
    pub(crate) number: usize,
    pub(crate) of: PhantomData<N>,
}

impl<N: Naming> Model for Seat<N> {
    ghost use Rattle.std.specs.Prelude.{◌≡◌, ◌<◌, []};
    ghost use Rattle.tc_locked.specs.Views.{seat_view};
    ghost use Rattle.tc_locked.specs.HallBooks.{SeatState, notes_of};

    ghost Value = { SeatState };

    ghost view = { λ s. record { number = s.number; notes = notes_of s.inner.me.0.seats } };

    ghost invariant = { λ s. (s.inner.table_id ≡ N.table)
        × (s.number < N.terms.seats)
        × (s.inner.me ≡ (seat_view s.number (notes_of s.inner.me.0.seats), [])) };
}

impl<N: Naming> Seat<N> {
    /// Returns its number, from 0 in the order of the hall's list.
    pub fn number(&self) -> usize
        ensures number { result ≡ self.now.number }
        ensures below { self.now.number < N.terms.seats }
    {
        self.number
    }

    pub(crate) fn into_inner(self) -> TableSeat
        ensures { (result.table_id ≡ N.table)
            × (result.me ≡ (seat_view self.number self.notes, [])) }
    {
        let Seat {
            inner,
            number: _,
            of: _,
        } = self;
        inner
    }
}
