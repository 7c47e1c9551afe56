//! Hashes whose counters are saturated.
//!
//! A record doesn't raise a counter of 15. If all four counters of a hash are at 15, a record
//! changes only the number of records, until the counters are halved. Most records concern a few
//! keys, whose counters are saturated. A hash found here saves reading four places in memory.
ghost use Rattle.std.specs.Prelude.{◌≡◌, ℕ, ◌<◌, ◌≤◌, ◌^◌, true, slice_index, slice_set, IfOk};

use std::alloc::Global;
use std::marker::Model;
use tc_item::NoMemory;

/// The value of a free place. It is never found as a hash.
const BLANK: u64 = 0;

/// The table has a place of 8 bytes for each 2^4 counters of a row, so it takes as much memory as a
/// row.
const FEWER: u32 = 4;

/// Remembered hashes, each in the place of its lowest bits, where it replaces an earlier one.
#[derive(Drop)]
pub(crate) struct Saturated {
    hashes: Vec<u64>,
}

impl Model for Saturated {
    ghost use Rattle.std.specs.Prelude.{List, ℕ};

    ghost Value = { List ℕ };

    ghost view = { λ s. s.hashes.items };
}

impl Saturated {
    /// Makes an empty table for a sketch of this width. Fails if memory is refused.
    pub(crate) fn new(alloc: Global, width: u32) -> Result<Saturated, NoMemory>
        requires at_least { 8 ≤ width }
        requires at_most { width ≤ 22 }
        ensures { IfOk result (λ s. (k : ℕ) → slice_index s k ≡ 0) }
    {
        Ok(Saturated {
            hashes: Vec::from_elem(alloc, BLANK, 1 << (width - FEWER))?,
        })
    }

    /// Returns the place of a hash.
    fn place(&self, hash: u64) -> usize {
        hash as usize & self.hashes.len().wrapping_sub(1)
    }

    /// Returns whether a hash is remembered.
    pub(crate) fn has(&self, hash: u64) -> bool
        ensures { result ≡ true → (0 < hash) × ((k : ℕ) × (slice_index self.now k ≡ hash)) }
    {
        let at = self.place(hash);
        at < self.hashes.len() && self.hashes[at] == hash && hash != BLANK
    }

    /// Remembers a hash, and forgets the one in its place.
    pub(crate) fn note(&mut self, hash: u64)
        ensures { (k : ℕ) × (self.new ≡ slice_set self.old k hash) }
    {
        let at = self.place(hash);
        if at < self.hashes.len() {
            self.hashes[at] = hash;
        }
    }

    /// Forgets all hashes.
    pub(crate) fn clear(&mut self)
        ensures { (k : ℕ) → slice_index self.new k ≡ 0 }
    {
        self.hashes.fill(BLANK);
    }
}
