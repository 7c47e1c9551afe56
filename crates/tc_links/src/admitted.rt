//! As whom and when a connection was admitted to a turn.
use crate::pace::Pace;
use tc_fairness::LEAST_OUT;
use tc_item::Moment;

/// A connection's admission to a turn.
#[derive(Clone, Copy, PartialEq, Eq)]
pub struct Admitted {
    /// The user whose account the connection was on; 0 before its login.
    pub user: usize,
    /// The moment to which that user's cache was maintained. The connection's requests are done at
    /// it.
    pub now: Moment,
    /// The connection is full with more than this many bytes that wait to be sent.
    pub most_out: usize,
    /// Whether the connection may read.
    pub is_read: bool,
}

impl Admitted {
    /// The admission before the first turn.
    pub fn not_yet() -> Admitted {
        Admitted {
            user: 0,
            now: Moment::FIRST,
            most_out: LEAST_OUT,
            is_read: true,
        }
    }

    /// Returns the pace of a connection that reads nothing. One that waits for others of its user
    /// tries again.
    pub fn pace_unread(&self) -> Pace {
        if self.is_read {
            Pace::Rests
        } else {
            Pace::Tries
        }
    }
}
