//! A user's counters, as the rows of `stats` show them.
ghost use Rattle.std.specs.Prelude.{◌≡◌, IfOk, IsTrue, ◌↔◌};
ghost use Rattle.std.specs.Cmp.{partial_equiv_from_equiv};
ghost use Rattle.tc_stats.specs.Sameness.{are_same_counters, same_counters-equivalence};

use std::alloc::Global;
use std::marker::Model;
use tc_item::NoMemory;

/// A user's counters, in the order of the rows of `stats` (doc/protocol.txt, "Statistics"). Counts
/// stop at 2^64-1. The cache sets `curr_items`, `bytes`, `limit_maxbytes` and `item_size_max` to
/// what it holds and may hold.
#[derive(Clone, Copy, Debug, Default, PartialEq, Eq)]
pub struct Counters {
    /// The number of items held.
    pub curr_items: u64,
    /// Storage commands that stored.
    pub total_items: u64,
    /// The weight of all items held, in bytes.
    pub bytes: u64,
    /// Keys that `get`, `gets`, `gat` and `gats` asked for.
    pub cmd_get: u64,
    /// Storage commands, whatever their outcome.
    pub cmd_set: u64,
    /// `flush_all` commands.
    pub cmd_flush: u64,
    /// Keys that `touch`, `gat` and `gats` asked for.
    pub cmd_touch: u64,
    /// Keys found by `get`, `gets`, `gat` and `gats`.
    pub get_hits: u64,
    /// Keys that these did not find.
    pub get_misses: u64,
    /// `delete` commands that found nothing.
    pub delete_misses: u64,
    /// `delete` commands that removed an item.
    pub delete_hits: u64,
    /// `incr` commands that found nothing.
    pub incr_misses: u64,
    /// `incr` commands that counted.
    pub incr_hits: u64,
    /// `decr` commands that found nothing.
    pub decr_misses: u64,
    /// `decr` commands that counted.
    pub decr_hits: u64,
    /// `cas` commands that found nothing.
    pub cas_misses: u64,
    /// `cas` commands that stored.
    pub cas_hits: u64,
    /// `cas` commands that found another cas number.
    pub cas_badval: u64,
    /// Keys found by `touch`, `gat` and `gats`.
    pub touch_hits: u64,
    /// Keys that these did not find.
    pub touch_misses: u64,
    /// Items that the eviction policy dropped.
    pub evictions: u64,
    /// The partition's budget, in bytes.
    pub limit_maxbytes: u64,
    /// The most data of an item, in bytes.
    pub item_size_max: u64,
    /// Storage commands whose item was too large for the cache.
    pub store_too_large: u64,
}

/// Boxed counters, so that the rare outcome that carries them makes no other outcome larger.
#[derive(Drop)]
pub struct Statistics {
    counters: Box<Counters>,
}

impl Model for Statistics {
    ghost use Rattle.tc_stats.specs.declared.counters.Counters.{Counters};

    ghost Value = { Counters };

    ghost view = { λ s. s.counters.value };
}

impl Statistics {
    /// Puts counters in a box.
    pub fn new(alloc: Global, counters: Counters) -> Result<Statistics, NoMemory>
        ensures { IfOk result (λ statistics. statistics ≡ counters) }
    {
        let counters = Box::new(alloc, counters)?;
        Ok(Statistics { counters })
    }

    /// Returns the counters.
    pub fn counters(&self) -> &Counters
        ensures { result.now ≡ self.now }
    {
        &self.counters
    }

    /// Replaces the counters.
    pub fn set(&mut self, counters: Counters)
        ensures { self.new ≡ counters }
    {
        *self.counters = counters;
    }

    /// Copies the counters to another box.
    pub fn copy(&self, alloc: Global) -> Result<Statistics, NoMemory>
        ensures { IfOk result (λ statistics. statistics ≡ self.now) }
    {
        Statistics::new(alloc, *self.counters)
    }
}

impl PartialEq for Statistics {
    ghost eq = { are_same_counters };

    ghost laws = { partial_equiv_from_equiv same_counters-equivalence };

    fn eq(&self, other: &Statistics) -> bool
        ensures value { result ≡ are_same_counters self.now other.now }
        ensures same { IsTrue result ↔ (self.now ≡ other.now) }
    {
        self.counters() == other.counters()
    }
}

impl Eq for Statistics {
    ghost laws = { same_counters-equivalence };
}
