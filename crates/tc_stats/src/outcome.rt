//! The outcome of a command.
ghost use Rattle.std.specs.Prelude.{◌≡◌, IfOk, IsTrue, ◌↔◌};

use crate::{Hits, Statistics};
use std::alloc::Global;
use tc_item::NoMemory;

/// The outcome of a command in a user's cache (doc/protocol.txt).
#[derive(PartialEq, Eq, Drop)]
pub enum Outcome {
    /// The data was stored.
    Stored,
    /// `add`, `replace`, `append` or `prepend` did not store, since its condition was not met.
    NotStored,
    /// `cas` found another cas number.
    Exists,
    /// The cache holds no item under the key.
    NotFound,
    /// The item was removed.
    Deleted,
    /// The item has its new due.
    Touched,
    /// The data is this number after the count.
    Number(u64),
    /// The hits of a look-up, in the order asked.
    Values(Hits),
    /// The command was done and has nothing to show.
    Done,
    /// The user's counters.
    Stats(Statistics),
    /// The server's version was asked for.
    Version,
    /// The item would be too large for the cache.
    TooLarge,
    /// The item's data is no number.
    NotNumeric,
    /// The last cas number of the user is taken.
    CasWorn,
}

impl Outcome {
    /// Returns an equal outcome. Hits share their data, and counters get a box of their own.
    pub fn copy(&self, alloc: Global) -> Result<Outcome, NoMemory>
        ensures { IfOk result (λ outcome. outcome ≡ self.now) }
    {
        match self {
            Outcome::Stored => Ok(Outcome::Stored),
            Outcome::NotStored => Ok(Outcome::NotStored),
            Outcome::Exists => Ok(Outcome::Exists),
            Outcome::NotFound => Ok(Outcome::NotFound),
            Outcome::Deleted => Ok(Outcome::Deleted),
            Outcome::Touched => Ok(Outcome::Touched),
            Outcome::Number(number) => Ok(Outcome::Number(*number)),
            Outcome::Values(hits) => Ok(Outcome::Values(hits.copy(alloc)?)),
            Outcome::Done => Ok(Outcome::Done),
            Outcome::Stats(statistics) => Ok(Outcome::Stats(statistics.copy(alloc)?)),
            Outcome::Version => Ok(Outcome::Version),
            Outcome::TooLarge => Ok(Outcome::TooLarge),
            Outcome::NotNumeric => Ok(Outcome::NotNumeric),
            Outcome::CasWorn => Ok(Outcome::CasWorn),
        }
    }

    /// Whether two outcomes are equal: `==` with a contract that says so.
    pub fn is(&self, other: &Outcome) -> bool
        ensures same { IsTrue result ↔ (self.now ≡ other.now) }
    {
        match self {
            Outcome::Stored => matches!(other, Outcome::Stored),
            Outcome::NotStored => matches!(other, Outcome::NotStored),
            Outcome::Exists => matches!(other, Outcome::Exists),
            Outcome::NotFound => matches!(other, Outcome::NotFound),
            Outcome::Deleted => matches!(other, Outcome::Deleted),
            Outcome::Touched => matches!(other, Outcome::Touched),
            Outcome::Number(number) => match other {
                Outcome::Number(found) => number == found,
                _ => false,
            },
            Outcome::Values(hits) => match other {
                Outcome::Values(found) => hits == found,
                _ => false,
            },
            Outcome::Done => matches!(other, Outcome::Done),
            Outcome::Stats(statistics) => match other {
                Outcome::Stats(found) => statistics == found,
                _ => false,
            },
            Outcome::Version => matches!(other, Outcome::Version),
            Outcome::TooLarge => matches!(other, Outcome::TooLarge),
            Outcome::NotNumeric => matches!(other, Outcome::NotNumeric),
            Outcome::CasWorn => matches!(other, Outcome::CasWorn),
        }
    }
}
