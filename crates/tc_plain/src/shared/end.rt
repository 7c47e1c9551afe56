//! How commands that show no item end.
ghost use Rattle.std.specs.Prelude.{◌≡◌};
ghost use Rattle.tc_stats.specs.declared.outcome.Outcome.TheVariants.{Done};
ghost use Rattle.tc_plain.specs.Keeping.{kept_by};
ghost use Rattle.tc_plain.specs.Plans.{outcome_of};

use crate::{Acted, Journal, KeptOutcome};
use tc_stats::Outcome;

/// How a command that shows no item ends: an outcome that takes no memory.
#[derive(Clone, Copy, PartialEq, Eq)]
pub enum End {
    Stored,
    NotStored,
    Exists,
    NotFound,
    Deleted,
    Touched,
    /// The new number of `incr` or `decr`.
    Number(u64),
    Done,
    Version,
    /// The data is longer than the user's largest item, or the item weighs more than main may.
    TooLarge,
    /// The data under the key is no number of 64 bits.
    NotNumeric,
    /// No cas number is left.
    CasWorn,
}

impl End {
    /// Returns the end as an outcome.
    fn outcome(self) -> Outcome
        ensures { result ≡ outcome_of self }
    {
        match self {
            End::Stored => Outcome::Stored,
            End::NotStored => Outcome::NotStored,
            End::Exists => Outcome::Exists,
            End::NotFound => Outcome::NotFound,
            End::Deleted => Outcome::Deleted,
            End::Touched => Outcome::Touched,
            End::Number(number) => Outcome::Number(number),
            End::Done => Outcome::Done,
            End::Version => Outcome::Version,
            End::TooLarge => Outcome::TooLarge,
            End::NotNumeric => Outcome::NotNumeric,
            End::CasWorn => Outcome::CasWorn,
        }
    }

    /// Returns the result of a command that ends like this. It fills `room`, which exists if the
    /// journal is on.
    pub(crate) fn acted(self, room: Option<KeptOutcome>, keep: Journal) -> Acted
        requires { room ≡ kept_by keep Done }
        ensures answer { result.answer ≡ outcome_of self }
        ensures kept { result.kept ≡ kept_by keep (outcome_of self) }
    {
        let kept = match room {
            Some(mut kept) => {
                kept.set(self.outcome());
                Some(kept)
            }
            None => None,
        };
        Acted {
            answer: self.outcome(),
            kept,
        }
    }
}
