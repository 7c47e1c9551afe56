//! The entries of one user's cache, by slot: the entries, an index by tags of keys, the lists and
//! the wheel.
//!
//! A slot is a number. It is filled with an entry and emptied again. The index has slots under the
//! tags of their keys. The lists have slots with their weights, front to back. The wheel has slots
//! with a due.
//!
//! What is always true (`AreSlots` in `specs/Held.antt`):
//! 1. `agree`: no key is held twice, and entries, lists and wheel agree (`Agree` in
//!    `specs/Agreement.antt`):
//!    1. `indexed`: the slot of a key holds an entry of that key.
//!    2. `found`: and no other slot does.
//!    3. `listed`: a slot that holds an entry is in the lists once, and every other slot in none.
//!    4. `weighed`: each place in the lists has the weight of its entry.
//!    5. `timed`: the wheel has the slots whose entries have a due that a moment can reach, with
//!       that due.
//! 2. `tagged`: the index has each slot that holds an entry once, under the tag of its key, and no
//!    other slot.
//! 3. `within`: the wheel has room for each slot that holds an entry.
//!
//! So the index finds what the lists hold under a key.
ghost use Rattle.std.specs.Prelude.{◌≡◌, ℕ, true, IfOk, length, ◌+◌, ◌<◌, ◌≤◌, ◌^◌, Some, None, IsSome, OnOk, slice_index_or};
ghost use Rattle.tc_model.specs.Areas.{total, accessed};
ghost use Rattle.std.specs.Option.{option_copied};
ghost use Rattle.tc_plain.specs.Entries.{weight, has_key, with_item, with_due};
ghost use Rattle.tc_plain.specs.EvictionState.{held, no_entries, entries_of};
ghost use Rattle.tc_slru.specs.InAreas.{fronted_in};
ghost use Rattle.tc_plain.specs.declared.shared.entry.Entry.{Entry};
ghost use Rattle.tc_plain.specs.BySlot.{entry_or};
ghost use Rattle.tc_slots.specs.Held.{IsFound, FindsSlot};

mod copying;
mod leaving;

use crate::aside::Aside;
use crate::steps::{
    grow, is_of, key_tag, put, put_due, reached, reached_by, take_in, time, weight_at,
};
use crate::tables::Tables;
use slab::Slab;
use std::alloc::Global;
use std::hash::RandomState;
use std::marker::Model;
use std::mem;
use tc_index::Index;
use tc_item::{Due, Key, NoMemory, Slot};
use tc_plain::{Entry, Limits};
use tc_slru::{Area, Lists};
use tc_wheel::Wheel;

/// Tables with places for this many slots are large: some 900 KiB.
const LARGE: usize = 4096;

/// Tables are mostly empty if less than one place in this many holds an entry.
const SPARSE_OF: usize = 4;

/// How many bytes of main each shard of the index serves. They hold some 7,000 small entries, and
/// 16,000 at most.
const MAIN_OF_SHARD: u64 = 1 << 20;

/// Returns how many shards to ask for an index over `main` bytes.
fn shards_for(main: u64) -> usize
    requires { main < 2 ^ 32 }
{
    (main / MAIN_OF_SHARD) as usize
}

/// The entries of one user's cache.
#[derive(Drop)]
pub struct Slots {
    index: Index,
    hasher: RandomState,
    entries: Slab<Entry>,
    lists: Lists,
    wheel: Wheel,
    /// Tables that wait to be freed.
    aside: Aside,
}

impl Model for Slots {
    ghost use Rattle.tc_slots.specs.Held.{Held};

    ghost Value = { Held };

    ghost use Rattle.tc_slots.specs.Held.{held_of, AreSlots};

    ghost view = { held_of };

    ghost invariant = { AreSlots };
}

impl Slots {
    /// Makes empty tables without room for entries, under these limits. It takes memory for the
    /// index's shards, and for the marks of the lists and of the wheel.
    pub fn new(alloc: Global, hasher: RandomState, limits: Limits) -> Result<Slots, NoMemory>
        requires small { limits.main < 2 ^ 32 }
        ensures limits { IfOk result (λ s. s.limits ≡ limits) }
        ensures areas { IfOk result (λ s. s.areas ≡ no_entries) }
    {
        let index = Index::new(alloc, shards_for(limits.main))?;
        let lists = Lists::new(alloc, limits.window, limits.main, limits.protected)?;
        let wheel = Wheel::new(alloc)?;
        Ok(Slots {
            index,
            hasher,
            entries: Slab::new(alloc),
            lists,
            wheel,
            aside: Aside::new(alloc),
        })
    }

    /// Makes empty tables without room for entries, with the same limits and hasher.
    fn fresh(&self, alloc: Global) -> Result<Slots, NoMemory>
        ensures limits { IfOk result (λ s. s.limits ≡ self.now.limits) }
        ensures areas { IfOk result (λ s. s.areas ≡ no_entries) }
    {
        let index = self.index.fresh(alloc)?;
        let lists = self.lists.fresh(alloc)?;
        let wheel = Wheel::new(alloc)?;
        Ok(Slots {
            index,
            hasher: self.hasher,
            entries: Slab::new(alloc),
            lists,
            wheel,
            aside: Aside::new(alloc),
        })
    }

    /// Makes empty tables with room for `count` entries, with the same limits and hasher.
    pub(crate) fn fresh_for(&self, alloc: Global, count: usize) -> Result<Slots, NoMemory>
        requires some { 0 < count }
        ensures limits { IfOk result (λ s. s.limits ≡ self.now.limits) }
        ensures areas { IfOk result (λ s. s.areas ≡ no_entries) }
        ensures room { IfOk result (λ s. s.has_room ≡ true) }
    {
        let mut fresh = self.fresh(alloc)?;
        fresh.make_entry_room(count)?;
        Ok(fresh)
    }

    /// Returns whether the tables are large and mostly empty.
    pub fn are_sparse(&self) -> bool {
        let places = self.wheel.slots();
        places >= LARGE && self.count() < places / SPARSE_OF
    }

    /// Returns the allocator of the tables.
    pub fn allocator(&self) -> Global {
        self.index.allocator()
    }

    /// Makes room to set tables aside.
    pub(crate) fn make_room_aside(&mut self) -> Result<(), NoMemory>
        ensures { self.new ≡ self.old }
    {
        self.aside.make_room()
    }

    /// Sets these tables aside in `held`, after those that were set aside here. `held` has none
    /// aside.
    pub(crate) fn set_aside(self, held: &mut Slots)
        ensures { held.new ≡ held.old }
    {
        let Slots {
            index,
            hasher: _,
            entries,
            lists,
            wheel,
            aside,
        } = self;
        drop(mem::replace(&mut held.aside, aside));
        held.aside.add(Tables::of(index, entries, lists, wheel));
    }

    /// Makes room for `count` more entries. A refusal leaves the entries unchanged.
    fn make_entry_room(&mut self, count: usize) -> Result<(), NoMemory>
        requires { 0 < count }
        ensures room { OnOk result (self.new.has_room ≡ true) }
        ensures areas { self.new.areas ≡ self.old.areas }
        ensures limits { self.new.limits ≡ self.old.limits }
        ensures slots { self.new.slots ≡ self.old.slots }
    {
        grow(
            &mut self.index,
            &mut self.entries,
            &mut self.lists,
            &mut self.wheel,
            count,
        )
    }

    /// Makes room for one more entry. A refusal leaves the entries unchanged.
    pub fn make_room(&mut self) -> Result<(), NoMemory>
        ensures room { OnOk result (self.new.has_room ≡ true) }
        ensures areas { self.new.areas ≡ self.old.areas }
        ensures limits { self.new.limits ≡ self.old.limits }
        ensures slots { self.new.slots ≡ self.old.slots }
    {
        self.make_entry_room(1)
    }

    /// Frees at most `most` pieces of tables that were set aside: first entries, after them tables
    /// and shards.
    pub fn let_go(&mut self, most: usize)
        ensures { self.new ≡ self.old }
    {
        self.aside.let_go(most);
    }

    /// Returns the slot of what a key holds, from the index.
    #[inline(never)]
    pub fn find(&self, key: &Key) -> Option<Slot>
        ensures { FindsSlot result key.now self.now }
    {
        let tag = key_tag(&self.hasher, key);
        self.index.find(tag, |slot| is_of(&self.entries, slot, key))
    }

    /// Returns whether a slot holds an entry of this key.
    fn is_of(&self, slot: Slot, key: &Key) -> bool
        ensures { result ≡ true → IsFound key.now slot.0 self.now }
    {
        let _ = &self.index;
        is_of(&self.entries, slot, key)
    }

    /// Returns the slot of what a key holds. It searches the index only if `slot` doesn't hold the
    /// key.
    #[inline(always)]
    fn find_from(&self, slot: Slot, key: &Key) -> Option<Slot>
        ensures { FindsSlot result key.now self.now }
    {
        if self.is_of(slot, key) {
            return Some(slot);
        }
        self.find(key)
    }

    /// Returns the slot of what a key holds, which was found in this slot or holds nothing. It
    /// searches the index only if the slot doesn't hold the key any more.
    pub fn find_again(&self, place: Option<Slot>, key: &Key) -> Option<Slot>
        requires { place ≡ None → held key.now self.now.areas ≡ None }
        ensures { FindsSlot result key.now self.now }
    {
        let _ = &self.index;
        match place {
            Some(slot) => self.find_from(slot, key),
            None => None,
        }
    }

    /// Returns what a slot holds.
    pub fn entry(&self, slot: Slot) -> Option<&Entry>
        ensures { option_copied result ≡ slice_index_or self.now.slots slot.0 None }
    {
        self.entries.get(slot.0)
    }

    /// Prefetches the entry of a slot, which spans two cache lines: whether there is one is
    /// on the first, and its cas number on the second. The result has no meaning, here and in
    /// the next three.
    pub fn read_entry(&self, slot: Slot) -> u64 {
        match self.entries.get(slot.0) {
            Some(entry) => entry.item.cas,
            None => 0,
        }
    }

    /// Prefetches the front of the data of what a slot holds, which is next to the count of its
    /// holders.
    pub fn read_data(&self, slot: Slot) -> u64 {
        let Some(entry) = self.entries.get(slot.0) else {
            return 0;
        };
        match entry.item.blob.as_slice() {
            [first, ..] => u64::from(*first),
            [] => 0,
        }
    }

    /// Prefetches a slot's node in the lists.
    pub fn read_node(&self, slot: Slot) -> u64 {
        u64::from(self.lists.holds(slot))
    }

    /// Prefetches the nodes next to a slot's in the lists, which an access changes.
    pub fn read_links(&self, slot: Slot) -> u64 {
        if self.lists.holds(slot) {
            self.lists.read(slot)
        } else {
            0
        }
    }

    /// Returns the key of what a slot holds; no bytes if it is empty.
    pub fn key_at(&self, slot: Slot) -> &[u8]
        ensures { result.now ≡ (entry_or (slice_index_or self.now.slots slot.0 None)).key }
    {
        match self.entries.get(slot.0) {
            Some(entry) => entry.key.as_bytes(),
            None => &[],
        }
    }

    /// Shows that what a slot holds is what its key holds.
    pub fn owning(&self)
        ensures { (n : ℕ) (e : Entry) → slice_index_or self.now.slots n None ≡ Some e
            → held e.key self.now.areas ≡ Some e }
    {
        let _ = &self.index;
    }

    /// Returns how many entries there are.
    pub fn count(&self) -> usize
        ensures { result ≡ length (entries_of self.now.areas) }
    {
        let _ = &self.index;
        self.entries.len()
    }

    /// Returns what all entries weigh together, in bytes.
    pub fn weigh(&self) -> u64
        requires { total weight self.now.areas < 2 ^ 64 }
        ensures { result ≡ total weight self.now.areas }
    {
        let weights = self.lists.weights();
        weights.window + weights.probation + weights.protected
    }

    /// Returns the most that one entry may weigh, which is main's limit in bytes.
    pub fn heaviest(&self) -> u64
        ensures { result ≡ self.now.limits.main }
    {
        let _ = &self.index;
        self.lists.heaviest()
    }

    /// Puts an entry at the front of a list and returns its slot. Its key holds nothing before.
    pub fn fill(&mut self, area: Area, entry: Entry) -> Slot
        requires room { self.old.has_room ≡ true }
        requires free { held entry.key self.old.areas ≡ None }
        requires light { weight entry ≤ self.old.limits.main }
        requires fits { total weight self.old.areas + weight entry < 2 ^ 64 }
        ensures limits { self.new.limits ≡ self.old.limits }
        ensures areas { self.new.areas ≡ fronted_in area entry self.old.areas }
    {
        let weight = entry.weight();
        let due = reached_by(&entry);
        let slot = take_in(&mut self.index, &self.hasher, &mut self.entries, entry);
        self.lists.push(area, slot, weight);
        time(&mut self.wheel, slot, due);
        slot
    }

    /// Replaces what the entry's key holds in this slot. It counts as an access.
    pub fn replace(&mut self, slot: Slot, entry: Entry)
        requires found { IsFound entry.key slot.0 self.old }
        requires light { weight entry ≤ self.old.limits.main }
        requires fits { total weight self.old.areas + weight entry < 2 ^ 64 }
        ensures limits { self.new.limits ≡ self.old.limits }
        ensures areas { self.new.areas ≡ accessed weight self.old.limits
            (has_key entry.key) entry self.old.areas }
        ensures room { self.old.has_room ≡ true → self.new.has_room ≡ true }
    {
        let weight = entry.weight();
        let due = reached_by(&entry);
        put(&mut self.entries, slot, entry);
        self.lists.access(slot, weight);
        self.wheel.remove(slot);
        time(&mut self.wheel, slot, due);
    }

    /// Accesses what a key holds in this slot, and gives it this due.
    pub fn touch(&mut self, key: &Key, slot: Slot, due: Due)
        requires found { IsFound key.now slot.0 self.old }
        requires light { (e : Entry) → held key.now self.old.areas ≡ Some e
            → weight e ≤ self.old.limits.main }
        requires fits { (e : Entry) → held key.now self.old.areas ≡ Some e
            → total weight self.old.areas + weight e < 2 ^ 64 }
        ensures limits { self.new.limits ≡ self.old.limits }
        ensures areas { (e : Entry) → held key.now self.old.areas ≡ Some e
            → self.new.areas ≡ accessed weight self.old.limits (has_key key.now) (with_item e
            (with_due due e.item)) self.old.areas }
        ensures room { self.old.has_room ≡ true → self.new.has_room ≡ true }
    {
        let weight = weight_at(&self.entries, slot);
        put_due(&mut self.entries, slot, due);
        self.lists.access(slot, weight);
        self.wheel.remove(slot);
        time(&mut self.wheel, slot, reached(due));
    }

    /// Accesses what a key holds in this slot.
    pub fn access(&mut self, key: &Key, slot: Slot)
        requires found { IsFound key.now slot.0 self.old }
        requires light { (e : Entry) → held key.now self.old.areas ≡ Some e
            → weight e ≤ self.old.limits.main }
        requires fits { (e : Entry) → held key.now self.old.areas ≡ Some e
            → total weight self.old.areas + weight e < 2 ^ 64 }
        ensures limits { self.new.limits ≡ self.old.limits }
        ensures areas { (e : Entry) → held key.now self.old.areas ≡ Some e
            → self.new.areas ≡ accessed weight self.old.limits (has_key key.now) e self.old.areas }
        ensures slots { self.new.slots ≡ self.old.slots }
        ensures room { self.old.has_room ≡ true → self.new.has_room ≡ true }
    {
        let weight = weight_at(&self.entries, slot);
        self.lists.access(slot, weight);
    }

    /// Accesses what a slot holds.
    pub fn access_at(&mut self, slot: Slot)
        requires held { IsSome (slice_index_or self.old.slots slot.0 None) }
        requires light { (e : Entry) → slice_index_or self.old.slots slot.0 None ≡ Some e
            → weight e ≤ self.old.limits.main }
        requires fits { (e : Entry) → slice_index_or self.old.slots slot.0 None ≡ Some e
            → total weight self.old.areas + weight e < 2 ^ 64 }
        ensures limits { self.new.limits ≡ self.old.limits }
        ensures areas { (e : Entry) → slice_index_or self.old.slots slot.0 None ≡ Some e
            → self.new.areas ≡ accessed weight self.old.limits (has_key e.key) e self.old.areas }
        ensures slots { self.new.slots ≡ self.old.slots }
    {
        let weight = self.lists.weight_of(slot);
        self.lists.access(slot, weight);
    }
}
