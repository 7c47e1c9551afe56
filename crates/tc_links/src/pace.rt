//! How far a connection got in a turn.

/// The result of a step of a connection's turn, or of all its steps.
#[derive(Clone, Copy, PartialEq, Eq)]
pub enum Pace {
    /// Nothing can be done before more bytes come or there is room to write.
    Rests,
    /// Nothing was done, and it must be tried again.
    Tries,
    /// Bytes were read or written, or a request was done.
    GetsOn,
}

impl Pace {
    /// Returns the result of two steps.
    pub fn and(self, other: Pace) -> Pace {
        match (self, other) {
            (Pace::GetsOn, _) | (_, Pace::GetsOn) => Pace::GetsOn,
            (Pace::Tries, _) | (_, Pace::Tries) => Pace::Tries,
            (Pace::Rests, Pace::Rests) => Pace::Rests,
        }
    }
}

/// What becomes of a connection after its turn.
#[derive(Clone, Copy, PartialEq, Eq)]
pub enum Onward {
    GoesOn(Pace),
    /// It must be dropped.
    Done,
}
