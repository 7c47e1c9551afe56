//! The ring of records.
ghost use Rattle.std.specs.Prelude.{◌≡◌, ◌↔◌, ◌≤◌, ◌∷◌, ◌++◌, [], length, IfOk, IsErr, OnErr, OnOk, IsTrue, MatchOption};
ghost use Rattle.std.specs.Prelude.{slice_get};
ghost use Rattle.tc_readbuf.specs.Places.{places};

use crate::look_up::LookUp;
use circular_buffer::HeapCircularBuffer;
use std::alloc::Global;
use std::error::Error;
use std::fmt;
use std::marker::Model;
use tc_item::{Moment, NoMemory};

/// The most records that may wait.
pub const PLACES: usize = 128;

/// The ring has `PLACES` records already. Nothing changed.
#[derive(Clone, Copy, Debug, PartialEq, Eq)]
pub struct Full;

impl fmt::Display for Full {
    fn fmt<W: fmt::Write>(&self, f: &mut fmt::Formatter<W>) -> fmt::Result {
        write!(f, "{PLACES} records wait already")
    }
}

impl Error for Full {}

/// Up to 128 records, oldest first. A record is what a look-up found, and its moment.
#[derive(Drop)]
pub struct ReadBuf {
    ring: HeapCircularBuffer<(LookUp, Moment)>,
}

impl Model for ReadBuf {
    ghost use Rattle.std.specs.Prelude.{◌≡◌, ◌≤◌, ℕ, List, length};
    ghost use Rattle.tc_readbuf.specs.Places.{places};
    ghost use Rattle.tc_readbuf.specs.declared.look_up.LookUp.{LookUp};

    ghost Value = { List (LookUp × ℕ) };

    ghost view = { λ b. b.ring.items };

    ghost invariant = { λ b. record {
      room : b.ring.capacity ≡ places;
      within : length b.ring.items ≤ places;
    } };
}

impl ReadBuf {
    /// Returns an empty ring with room for 128 records. Nothing else takes memory.
    pub fn new(alloc: Global) -> Result<ReadBuf, NoMemory>
        ensures { IfOk result (λ b. b ≡ []) }
    {
        let ring = HeapCircularBuffer::with_capacity(alloc, PLACES)?;
        Ok(ReadBuf { ring })
    }

    /// Appends what a look-up found at `moment`. Fails, and changes nothing, only if 128 records
    /// wait.
    #[inline(always)]
    pub fn note(&mut self, noted: LookUp, moment: Moment) -> Result<(), Full>
        ensures noted { OnOk result (self.new ≡ self.old ++ (noted, moment) ∷ []) }
        ensures full { IsErr result ↔ (length self.old ≡ places) }
        ensures unchanged_on_err { OnErr result (self.new ≡ self.old) }
    {
        match self.ring.try_push_back((noted, moment)) {
            Ok(()) => Ok(()),
            Err(_record) => Err(Full),
        }
    }

    /// Removes and returns the oldest record, if there is one.
    pub fn take(&mut self) -> Option<(LookUp, Moment)>
        ensures { MatchOption result ((self.old ≡ []) × (self.new ≡ []))
            (λ first. self.old ≡ first ∷ self.new) }
    {
        self.ring.pop_front()
    }

    /// Returns the record at an index, the oldest at 0; `None` if there are not so many.
    pub fn get(&self, place: usize) -> Option<(LookUp, Moment)>
        ensures { result ≡ slice_get self.now place }
    {
        self.ring.get(place).copied()
    }

    /// Whether 128 records wait.
    pub fn is_full(&self) -> bool
        ensures { IsTrue result ↔ (length self.now ≡ places) }
    {
        self.ring.is_full()
    }

    /// Returns the number of records, at most 128.
    #[inline(always)]
    pub fn len(&self) -> usize
        ensures count { result ≡ length self.now }
        ensures at_most { result ≤ places }
    {
        self.ring.len()
    }

    /// Whether no record waits.
    pub fn is_empty(&self) -> bool
        ensures { IsTrue result ↔ (self.now ≡ []) }
    {
        self.ring.is_empty()
    }
}
