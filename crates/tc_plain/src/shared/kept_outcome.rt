//! An outcome that an entry keeps.
ghost use Rattle.std.specs.Prelude.{◌≡◌, IfOk};
ghost use Rattle.tc_stats.specs.declared.counters.Counters.{Counters};
ghost use Rattle.tc_stats.specs.declared.outcome.Outcome.TheVariants.{Stats};

use std::alloc::Global;
use std::marker::Model;
use tc_item::NoMemory;
use tc_stats::{Counters, Outcome};

/// An outcome in a box of its own, so that a command that keeps none doesn't move that much room
/// around.
#[derive(Drop)]
pub struct KeptOutcome {
    outcome: Box<Outcome>,
}

impl Model for KeptOutcome {
    ghost use Rattle.tc_stats.specs.declared.outcome.Outcome.{Outcome};

    ghost Value = { Outcome };

    ghost view = { λ k. k.outcome.value };
}

impl KeptOutcome {
    /// Boxes an outcome. Fails if memory is refused.
    pub(crate) fn of(alloc: Global, outcome: Outcome) -> Result<KeptOutcome, NoMemory>
        ensures { IfOk result (λ kept. kept ≡ outcome) }
    {
        let outcome = Box::new(alloc, outcome)?;
        Ok(KeptOutcome { outcome })
    }

    /// Replaces the outcome.
    pub(crate) fn set(&mut self, outcome: Outcome)
        ensures { self.new ≡ outcome }
    {
        *self.outcome = outcome;
    }

    /// Replaces the numbers of the counters, if the outcome has any.
    pub(crate) fn set_numbers(&mut self, numbers: Counters)
        ensures { (was : Counters) → self.old ≡ Stats was → self.new ≡ Stats numbers }
    {
        if let Outcome::Stats(statistics) = &mut *self.outcome {
            statistics.set(numbers);
        }
    }

    /// Returns the outcome.
    pub fn into_outcome(self) -> Outcome
        ensures { result ≡ self }
    {
        let KeptOutcome { outcome } = self;
        Box::into_inner(outcome)
    }
}
