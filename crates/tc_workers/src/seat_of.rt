//! What a worker's thread returns.
ghost use Rattle.std.specs.Prelude.{◌≡◌};

use crate::worker::Worker;
use std::snapshot::Snapshot;
use std::thread::Promise;
use tc_links::Wire;
use tc_locked::{Naming, Seat};

/// The promise that a thread returns the seat of its worker: one of the same number.
#[derive(Drop)]
pub(crate) struct SeatOf<W: Wire + Drop, N: Naming> {
    pub(crate) worker: Snapshot<Worker<W, N>>,
}

impl<W: Wire + Drop, N: Naming> Promise<Seat<N>> for SeatOf<W, N> {
    ghost kept_by = { λ promise seat. seat.number ≡ promise.worker.value.desk.seat.number };
}
