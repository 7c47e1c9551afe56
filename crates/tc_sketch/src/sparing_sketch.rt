//! A sketch that saves reads: it remembers hashes whose counters no record raises.
//!
//! Each call has the contract of the same call of `Sketch`.
ghost use Rattle.std.specs.Prelude.{◌≡◌, ◌≤◌, IfOk};
ghost use Rattle.tc_sketch.specs.Sketch.{empty_sketch, aged, recorded, freq};
ghost use Rattle.tc_sketch.specs.Steps.{counted_in, one_more};
ghost use Rattle.tc_sketch.specs.CountingLaw.{CountsRecords};

use crate::lanes::MOST_COUNTED;
use crate::saturated::Saturated;
use crate::sketch::Sketch;
use std::alloc::Global;
use std::marker::Model;
use tc_item::NoMemory;

/// How often each hash was recorded lately. Contracts see it as a sketch.
#[derive(Drop)]
pub struct SparingSketch {
    sketch: Sketch,
    /// Hashes whose counters no record raises.
    saturated: Saturated,
}

impl Model for SparingSketch {
    ghost use Rattle.tc_sketch.specs.Sketch.{Sketch};
    ghost use Rattle.tc_sketch.specs.Steps.{AreSaturated};

    ghost Value = { Sketch };

    ghost view = { λ s. s.sketch };

    ghost invariant = { λ s. AreSaturated s.saturated s.sketch };
}

impl SparingSketch {
    /// Makes a sketch of 2^`width` counters a row, all 0. Fails if memory is refused.
    pub fn new(alloc: Global, width: u32) -> Result<SparingSketch, NoMemory>
        requires at_least { 8 ≤ width }
        requires at_most { width ≤ 22 }
        ensures { IfOk result (λ s. s ≡ empty_sketch width) }
    {
        let saturated = Saturated::new(alloc, width)?;
        let sketch = Sketch::new(alloc, width)?;
        Ok(SparingSketch { sketch, saturated })
    }

    /// Raises the four counters of a hash, or remembers the hash if all four are at 15.
    fn raise(&mut self, hash: u64)
        ensures { self.new ≡ counted_in hash self.old }
    {
        if self.sketch.freq(hash) == MOST_COUNTED {
            self.saturated.note(hash);
            return;
        }
        self.sketch.raise(hash);
    }

    /// Counts a record, and halves all counters and forgets all saturated hashes if that is due.
    #[inline(always)]
    fn count_one(&mut self)
        ensures { self.new ≡ aged (one_more self.old) }
    {
        if self.sketch.count_one() {
            self.saturated.clear();
        }
    }

    /// Records that a key with this hash was seen.
    #[inline(always)]
    pub fn record(&mut self, hash: u64)
        ensures recorded { self.new ≡ recorded self.old hash }
        ensures counting { CountsRecords self.new }
    {
        if !self.saturated.has(hash) {
            self.raise(hash);
        }
        self.count_one();
    }

    /// Prefetches what a record of this hash writes, so that several wait for memory together. The
    /// result has no meaning.
    pub fn read(&self, hash: u64) -> u64 {
        if self.saturated.has(hash) {
            return 0;
        }
        self.sketch.read(hash)
    }

    /// Returns how often a key with this hash was seen lately: the least of its four counters, 0 to
    /// 15.
    pub fn freq(&self, hash: u64) -> u8
        ensures value { result ≡ freq self.now hash }
        ensures at_most { result ≤ 15 }
    {
        self.sketch.freq(hash)
    }

    /// Copies the sketch alone. Fails if memory is refused.
    pub fn copy(&self) -> Result<Sketch, NoMemory>
        ensures { IfOk result (λ s. s ≡ self.now) }
    {
        self.sketch.copy()
    }
}
