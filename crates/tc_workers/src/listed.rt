//! The list of connections that a turn goes over.

/// Since when a listed connection is left out of turns.
#[derive(Clone, Copy, PartialEq, Eq, PartialOrd, Ord)]
pub(crate) enum Waits {
    /// Since this turn.
    Since(u64),
    No,
}

/// A listed connection: its number, its key at the worker, whether it is admitted to the turn, and
/// since when it is left out.
#[derive(Clone, Copy)]
pub(crate) struct Listed {
    conn: u32,
    is_admitted: bool,
    pub(crate) key: usize,
    waits: Waits,
}

impl Listed {
    /// Makes an entry that was not left out.
    pub(crate) fn new(conn: u32, key: usize) -> Listed {
        Listed {
            conn,
            is_admitted: false,
            key,
            waits: Waits::No,
        }
    }

    /// Returns its place in a turn: entries that were left out come first, the longest wait before
    /// the others, and then by number.
    pub(crate) fn rank(&self) -> (Waits, u32) {
        (self.waits, self.conn)
    }

    /// Notes whether it is admitted to this turn. If not, it is left out.
    pub(crate) fn admit(&mut self, is_admitted: bool, turn: u64) {
        self.is_admitted = is_admitted;
        if !is_admitted {
            self.note(false, turn);
        }
    }

    /// Whether it is admitted to the turn.
    pub(crate) fn is_admitted(&self) -> bool {
        self.is_admitted
    }

    /// Notes whether this turn serves it or leaves it out.
    pub(crate) fn note(&mut self, is_served: bool, turn: u64) {
        self.waits = match self.waits {
            _ if is_served => Waits::No,
            Waits::No => Waits::Since(turn),
            since => since,
        };
    }

    /// Whether it was left out of the turn.
    pub(crate) fn waits(&self) -> bool {
        self.waits != Waits::No
    }
}

/// A connection that another worker must serve: its key here, and that worker.
#[derive(Clone, Copy)]
pub(crate) struct Leaving {
    pub(crate) key: usize,
    pub(crate) to: usize,
}
