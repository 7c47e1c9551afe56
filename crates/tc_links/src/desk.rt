//! Where a worker calls the hall.
ghost use Rattle.std.specs.Prelude.{◌≡◌, []};

use std::marker::Model;
use tc_locked::{Naming, Refusals, Seat};
use tc_session::Declined;

/// A seat of the hall N, the calls that the hall refused it, and the requests that were declined.
/// Contracts see these three.
#[derive(Drop)]
pub struct Desk<N: Naming> {
    pub seat: Seat<N>,
    pub refusals: Refusals<N>,
    pub declined: Declined,
}

impl<N: Naming> Model for Desk<N> {
    ghost use Rattle.tc_links.specs.Talks.{DeskState};

    ghost Value = { DeskState };

    ghost view = { λ d. record { seat = d.seat; refused = d.refusals; declined = d.declined } };
}

impl<N: Naming> Desk<N> {
    /// Makes a desk with no refused call and no declined request.
    pub fn new(seat: Seat<N>) -> Desk<N>
        ensures { result ≡ record { seat = seat; refused = []; declined = [] } }
    {
        Desk {
            seat,
            refusals: Refusals::new(),
            declined: Declined::new(),
        }
    }

    /// Returns its seat.
    pub fn into_seat(self) -> Seat<N>
        ensures { result ≡ self.seat }
    {
        let Desk {
            seat,
            refusals: _,
            declined: _,
        } = self;
        seat
    }
}
