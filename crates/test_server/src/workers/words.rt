//! Counters through which wires report, and which scenes read.
use std::alloc::Global;
use std::sync::atomic::AtomicU64;
use std::sync::atomic::Ordering::SeqCst;
use std::test::*;

/// Atomic words, by number from 0.
#[derive(Drop)]
pub(super) struct Words(Vec<AtomicU64>);

impl Words {
    /// Returns this many words, each of them 0.
    pub(super) fn new(alloc: Global, count: usize) -> Result<Words, Fail> {
        let mut words = Vec::with_capacity(alloc, count)?;
        for _ in 0..count {
            words.push(AtomicU64::new(0))?;
        }
        Ok(Words(words))
    }

    /// Returns a word, or 0 if there is none.
    pub(super) fn load(&self, at: usize) -> u64 {
        match self.0.get(at) {
            Some(word) => word.load(SeqCst),
            None => 0,
        }
    }

    /// Stores a value in a word, if there is one.
    pub(super) fn store(&self, at: usize, value: usize) {
        if let Some(word) = self.0.get(at) {
            word.store(value as u64, SeqCst);
        }
    }

    /// Adds to a word, if there is one.
    pub(super) fn add(&self, at: usize, more: usize) {
        if let Some(word) = self.0.get(at) {
            word.fetch_add(more as u64, SeqCst);
        }
    }

    /// Returns the sum of the first words.
    pub(super) fn sum(&self, first: usize) -> u64 {
        let mut sum = 0u64;
        for at in 0..first {
            sum = sum.saturating_add(self.load(at));
        }
        sum
    }

    /// Returns how many of the first words have this value.
    pub(super) fn count(&self, first: usize, value: u64) -> usize {
        let mut count = 0usize;
        for at in 0..first {
            if self.load(at) == value {
                count = count.saturating_add(1);
            }
        }
        count
    }
}
