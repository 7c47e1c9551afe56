//! Hints: where keys were last found, by their hashes.
//!
//! A hint is a slot number of 24 bits below a tag, which is eight bits of the key's hash. Four
//! hints form a set and are adjacent in memory. Each hash has one set.
//!
//! A hint may be wrong or missing, so no contract relies on it. The caller compares the key in the
//! hinted slot with its own, and searches the index if they differ. A correct hint saves the index
//! search: two or three dependent memory accesses, and a keyed hash of all the key's bytes.
use std::alloc::Global;
use tc_item::Slot;

/// Number of hints in a set.
const WAYS: usize = 4;

/// Number of slots for each set. A set has twice as many hints, so that fewer are lost.
const SLOTS_A_SET: usize = WAYS / 2;

/// Hints name the slots below this. The tag is above it.
const SLOTS: u32 = 1 << 24;

/// An empty place in a set.
const BLANK: u32 = 0;

/// A power of two of sets, or none until `fit` made room.
#[derive(Drop)]
pub struct Hints {
    sets: Vec<[u32; WAYS]>,
    /// How many hints replaced another key's. This number picks the place of the next replacement
    /// in any set, which is as good as a random choice. With a counter in each set, five keys of
    /// one set that are looked up in turn would never be found by a hint.
    replaced: usize,
}

/// Returns the tag of a hash: its highest eight bits, in the place that a hint has for them.
fn tag(hash: u64) -> u32 {
    (hash >> 32) as u32 & !(SLOTS - 1)
}

/// Returns the least slot that a set has under a tag, or at least `SLOTS` if it has none. A blank
/// place reads as slot 0 under tag 0. The code has no branch: a mispredicted one costs more than
/// reading all four.
fn slot_under(set: &[u32; WAYS], tag: u32) -> u32 {
    let [first, second, third, fourth] = *set;
    let least = (first ^ tag).min(second ^ tag);
    least.min((third ^ tag).min(fourth ^ tag))
}

/// Returns the place of a hash's set. Both halves of the hash count.
fn place_in(sets: &[[u32; WAYS]], hash: u64) -> usize {
    (hash ^ (hash >> 32)) as usize & sets.len().wrapping_sub(1)
}

/// Returns the slot that these sets have for a hash.
fn slot_in(sets: &[[u32; WAYS]], hash: u64) -> Slot {
    match sets.get(place_in(sets, hash)) {
        Some(set) => Slot(slot_under(set, tag(hash)) as usize),
        None => Slot(0),
    }
}

/// Returns the place in a set that has a hint with this one's tag, or is blank.
fn place_for(set: &[u32; WAYS], hint: u32) -> Option<usize> {
    for (place, other) in set.iter().enumerate() {
        if *other == BLANK || (*other ^ hint) < SLOTS {
            return Some(place);
        }
    }
    None
}

/// Writes a hint to a place, unless it is there already: other processors may have a copy of its
/// cache line.
fn put(set: &mut [u32; WAYS], place: usize, hint: u32) {
    if let Some(there) = set.get_mut(place)
        && *there != hint
    {
        *there = hint;
    }
}

impl Hints {
    /// No hints, and no room for any.
    pub fn new(alloc: Global) -> Hints {
        Hints {
            sets: Vec::new(alloc),
            replaced: 0,
        }
    }

    /// Returns where a key of this hash was last found. Without a hint it is any slot, or one that
    /// doesn't exist.
    pub fn slot(&self, hash: u64) -> Slot {
        slot_in(&self.sets, hash)
    }

    /// Does the same for each of these hashes, as many as `slots` has places.
    pub fn find_all(&self, hashes: &[u64], slots: &mut [Slot]) {
        let sets = self.sets.as_slice();
        for (slot, hash) in slots.iter_mut().zip(hashes) {
            *slot = slot_in(sets, *hash);
        }
    }

    /// Notes where a key of this hash is, if a hint can name the slot.
    pub fn note(&mut self, hash: u64, slot: Slot) {
        let at = place_in(&self.sets, hash);
        if let (Some(set), Ok(slot)) = (self.sets.get_mut(at), u32::try_from(slot.0))
            && slot < SLOTS
        {
            let hint = tag(hash) | slot;
            let place = match place_for(set, hint) {
                Some(place) => place,
                None => {
                    self.replaced = self.replaced.wrapping_add(1);
                    self.replaced % WAYS
                }
            };
            put(set, place, hint);
        }
    }

    /// Makes room for the hints of this many slots. If the room doubles, about half of the hints
    /// are lost. If memory is refused, nothing changes.
    pub fn fit(&mut self, slots: usize) {
        let wanted = slots.div_ceil(SLOTS_A_SET);
        if wanted <= self.sets.len() {
            return;
        }
        if let Some(sets) = wanted.checked_next_power_of_two() {
            let _ = self.sets.resize(sets, [BLANK; WAYS]);
        }
    }
}
