//! The law that every cache keeps.
ghost use Rattle.std.specs.Prelude.{◌≡◌, IfOk, OnErr};
ghost use Rattle.tc_plain.specs.UserCache.{UserCache, advance};
ghost use Rattle.tc_plain.specs.Doing.{act};
ghost use Rattle.tc_plain.specs.Keeping.{IsActed};

use crate::{Acted, Journal, Plain, Progress};
use std::alloc::Global;
use tc_grammar::Command;
use tc_item::{Moment, NoMemory};

/// One user's cache in any representation. It keeps no record of its earlier states.
pub trait Cache: Drop {
    /// The state that the cache has once all deferred work is done.
    ghost settled: { Self → UserCache };

    /// Runs one command at the later of `now` and the cache's moment. It returns the outcome to
    /// answer, and the same to keep if `keep` is on (`IsActed`). The cache takes all memory before
    /// its state changes, so a refusal changes nothing.
    fn act(
        &mut self,
        alloc: Global,
        now: Moment,
        command: &Command,
        keep: Journal,
    ) -> Result<Acted, NoMemory>
        ensures acted { IfOk result (λ r. IsActed keep
            (act (settled self.old) now command.now) r (settled self.new)) }
        ensures unchanged_on_err { OnErr result (settled self.new ≡ settled self.old) };

    /// Does at most `limit` pieces of deferred work, as the cache counts them. The state advances
    /// to the moment and changes in nothing else. The result says whether it stopped at the limit,
    /// which is no part of the state.
    fn maintain(&mut self, now: Moment, limit: u32) -> Progress
        ensures advanced { settled self.new ≡ advance (settled self.old) now };

    /// Prefetches what look-ups of keys with these hashes (`tc_item::hash`) will read, so that they
    /// wait for memory together. It changes nothing.
    fn read_ahead(&self, hashes: &[u64]);

    /// Copies the cache's state into lists. Fails if memory is refused.
    fn freeze(&self, alloc: Global) -> Result<Plain, NoMemory>
        ensures settled { IfOk result (λ plain. plain ≡ settled self.now) };
}
