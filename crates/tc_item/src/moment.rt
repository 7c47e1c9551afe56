//! Moments, and the due of an item.
ghost use Rattle.std.specs.Prelude.{◌≡◌, ◌<◌, ◌≤◌, max, MatchOption};
ghost use Rattle.tc_item.specs.Bounds.{moment_limit};
ghost use Rattle.tc_item.specs.Expiry.{is_before};

use crate::MOMENT_LIMIT;
use std::marker::Model;

/// A time: whole seconds since 1970 (Unix time), below 2^40.
#[derive(Clone, Copy, Debug, PartialEq, Eq, PartialOrd, Ord, Hash)]
pub struct Moment {
    seconds: u64,
}

impl Model for Moment {
    ghost use Rattle.std.specs.Prelude.{ℕ, ◌<◌};
    ghost use Rattle.tc_item.specs.Bounds.{moment_limit};

    ghost Value = { ℕ };

    ghost view = { λ m. m.seconds };

    ghost invariant = { λ m. m.seconds < moment_limit };

    ghost inverse = { λ n. record { seconds = n } };
}

impl Moment {
    /// The moment 0, at which a clock starts.
    pub const FIRST: Moment = Moment { seconds: 0 };

    /// The latest moment, 2^40 - 1.
    pub const LAST: Moment = Moment {
        seconds: MOMENT_LIMIT - 1,
    };

    /// Returns the moment of this many seconds since 1970.
    pub fn new(seconds: u64) -> Moment
        requires { seconds < moment_limit }
        ensures { result ≡ seconds }
    {
        Moment { seconds }
    }

    /// Returns the moment of this many seconds; `None` from 2^40 on.
    pub fn try_new(seconds: u64) -> Option<Moment>
        ensures { MatchOption result (moment_limit ≤ seconds) (λ m. m ≡ seconds) }
    {
        if seconds < MOMENT_LIMIT {
            Some(Moment::new(seconds))
        } else {
            None
        }
    }

    /// Returns the seconds since 1970.
    pub fn seconds(self) -> u64
        ensures seconds { result ≡ self }
        ensures bounded { result < moment_limit }
    {
        self.seconds
    }

    /// Returns the later of two moments.
    pub fn later(self, other: Moment) -> Moment
        ensures { result ≡ max self other }
    {
        if self < other { other } else { self }
    }
}

/// Until when an item is alive: for ever, or before this second since 1970.
#[derive(Clone, Copy, Debug, PartialEq, Eq)]
pub enum Due {
    Never,
    At(u64),
}

impl Due {
    /// Whether `moment` is before this due, so that the item is alive then.
    pub fn is_after(self, moment: Moment) -> bool
        ensures { result ≡ is_before moment self }
    {
        match self {
            Due::Never => true,
            Due::At(second) => moment.seconds() < second,
        }
    }
}
