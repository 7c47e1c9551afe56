//! The result of a command on a cache.
ghost use Rattle.std.specs.Prelude.{◌≡◌, IfOk};
ghost use Rattle.tc_stats.specs.declared.outcome.Outcome.TheVariants.{Values, Stats, Done};
ghost use Rattle.tc_plain.specs.Keeping.{kept_by};

use crate::{Journal, KeptOutcome};
use std::alloc::Global;
use tc_item::NoMemory;
use tc_stats::{Counters, Hits, Outcome, Statistics};

/// The result of a command: the outcome to answer, and the same to keep if the journal is on.
#[derive(Drop)]
pub struct Acted {
    pub answer: Outcome,
    pub kept: Option<KeptOutcome>,
}

/// Copies hits to keep if the journal is on. The copy shares their data. Fails if memory is
/// refused.
pub fn keep_hits(alloc: Global, hits: &Hits, keep: Journal) -> Result<Option<KeptOutcome>, NoMemory>
    ensures { IfOk result (λ kept. kept ≡ kept_by keep (Values hits.now)) }
{
    match keep {
        Journal::On => {
            let hits = hits.copy(alloc)?;
            Ok(Some(KeptOutcome::of(alloc, Outcome::Values(hits))?))
        }
        Journal::Off => Ok(None),
    }
}

/// Copies counters to keep if the journal is on. Fails if memory is refused.
pub(crate) fn keep_statistics(
    alloc: Global,
    statistics: &Statistics,
    keep: Journal,
) -> Result<Option<KeptOutcome>, NoMemory>
    ensures { IfOk result (λ kept. kept ≡ kept_by keep (Stats statistics.now)) }
{
    match keep {
        Journal::On => {
            let statistics = statistics.copy(alloc)?;
            Ok(Some(KeptOutcome::of(alloc, Outcome::Stats(statistics))?))
        }
        Journal::Off => Ok(None),
    }
}

/// Replaces the numbers of the kept counters, if any are kept.
pub(crate) fn with_numbers(
    kept: Option<KeptOutcome>,
    was: &Counters,
    numbers: Counters,
    keep: Journal,
) -> Option<KeptOutcome>
    requires { kept ≡ kept_by keep (Stats was.now) }
    ensures { result ≡ kept_by keep (Stats numbers) }
{
    match kept {
        Some(mut kept) => {
            kept.set_numbers(numbers);
            Some(kept)
        }
        None => None,
    }
}

/// Makes room for an outcome to keep if the journal is on. The room holds `Done` until it is
/// filled. Fails if memory is refused.
pub(crate) fn keep_room(alloc: Global, keep: Journal) -> Result<Option<KeptOutcome>, NoMemory>
    ensures { IfOk result (λ room. room ≡ kept_by keep Done) }
{
    match keep {
        Journal::On => Ok(Some(KeptOutcome::of(alloc, Outcome::Done)?)),
        Journal::Off => Ok(None),
    }
}
