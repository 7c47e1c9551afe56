//! Unused tables, freed in pieces.
use slab::{IntoIter, Slab};
use std::alloc::Global;
use std::vec;
use tc_index::{Index, Shard};
use tc_plain::Entry;
use tc_slru::Lists;
use tc_wheel::Wheel;

/// The most bytes that one place takes in any of the tables.
const PLACE: u64 = 72;

/// The bytes that a shard of the index takes from the start.
const SHARD: u64 = 450;

/// Small shards of the index are freed together, up to about this many bytes.
const SMALL: u64 = 8_192;

/// Tables that are out of use, each of up to some 60 MiB.
#[derive(Drop)]
pub struct Tables {
    /// The entries that are left, by their slots.
    entries: Option<IntoIter<Entry>>,
    lists: Option<Lists>,
    wheel: Option<Wheel>,
    /// The shards of the index that are left.
    shards: vec::IntoIter<Shard, Global>,
    /// The most bytes that the lists take, and the most that the wheel takes.
    weight: u64,
    /// How many shards make one piece.
    together: u64,
    /// About how many bytes these take.
    shards_weight: u64,
}

impl Tables {
    /// Takes over tables that are out of use.
    pub fn of(index: Index, entries: Slab<Entry>, lists: Lists, wheel: Wheel) -> Tables {
        let places = wheel.slots() as u64;
        let weight = places.saturating_mul(PLACE);
        let shards = index.into_shards();
        let count = (shards.len() as u64).max(1);
        let shard = (weight / count).max(SHARD);
        let together = SMALL.div_ceil(shard);
        Tables {
            entries: Some(entries.into_iter()),
            lists: Some(lists),
            wheel: Some(wheel),
            shards,
            weight,
            together,
            shards_weight: shard.saturating_mul(together),
        }
    }

    /// Takes the entry of the lowest slot out.
    fn take(&mut self) -> Option<Entry> {
        let (_, entry) = self.entries.as_mut()?.next()?;
        Some(entry)
    }

    /// Frees one table, and returns whether there was one.
    fn shed(&mut self) -> bool {
        self.entries.take().is_some() || self.lists.take().is_some() || self.wheel.take().is_some()
    }

    /// Frees the next shard, or several small ones. Returns their weight in bytes, if any was left.
    fn shed_shards(&mut self) -> Option<u64> {
        drop(self.shards.next()?);
        for _ in 1..self.together {
            drop(self.shards.next());
        }
        Some(self.shards_weight)
    }

    /// Frees one piece, and returns its weight in bytes, if any is left. A piece is an entry, or
    /// once none is left a table, and last some shards of the index.
    pub fn let_piece_go(&mut self) -> Option<u64> {
        match self.take() {
            Some(entry) => Some(entry.weight()),
            None => {
                if self.shed() {
                    Some(self.weight)
                } else {
                    self.shed_shards()
                }
            }
        }
    }
}
