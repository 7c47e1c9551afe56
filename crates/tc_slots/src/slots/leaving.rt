//! How entries leave: by key, all at once, by eviction and by expiry.
ghost use Rattle.std.specs.Prelude.{◌≡◌, ℕ, true, false, length, ◌+◌, ◌≤◌, Some, None, is_some, IsSome, slice_index_or, slice_set};
ghost use Rattle.tc_model.specs.Areas.{Limits as AreaLimits, settle};
ghost use Rattle.tc_stats.specs.UserCounters.{more};
ghost use Rattle.tc_plain.specs.AreaLists.{frequency_in};
ghost use Rattle.tc_plain.specs.Soundness.{AreSound};
ghost use Rattle.tc_plain.specs.Entries.{weight, lives};
ghost use Rattle.tc_plain.specs.EvictionState.{held, filtered, no_entries};
ghost use Rattle.tc_plain.specs.Placing.{without_key};
ghost use Rattle.tc_plain.specs.declared.shared.entry.Entry.{Entry};
ghost use Rattle.tc_slots.specs.Held.{filled, DropsEntry};

use crate::slots::Slots;
use crate::steps::{drop_next, vacate};
use tc_item::{Key, Moment, Slot};
use tc_sketch::SparingSketch;

impl Slots {
    /// Removes a slot's entry.
    pub fn empty(&mut self, slot: Slot)
        requires { IsSome (slice_index_or self.old.slots slot.0 None) }
        ensures limits { self.new.limits ≡ self.old.limits }
        ensures areas { (e : Entry) → slice_index_or self.old.slots slot.0 None ≡ Some e
            → self.new.areas ≡ without_key e.key self.old.areas }
        ensures slots { self.new.slots ≡ slice_set self.old.slots slot.0 None }
        ensures room { self.old.has_room ≡ true → self.new.has_room ≡ true }
    {
        vacate(&mut self.index, &self.hasher, &mut self.entries, slot);
        self.lists.remove(slot);
        self.wheel.remove(slot);
    }

    /// Removes what a key holds, and returns whether it held anything.
    pub fn remove(&mut self, key: &Key) -> bool
        ensures held { result ≡ is_some (held key.now self.old.areas) }
        ensures areas { self.new.areas ≡ without_key key.now self.old.areas }
        ensures limits { self.new.limits ≡ self.old.limits }
        ensures room { self.old.has_room ≡ true → self.new.has_room ≡ true }
    {
        match self.find(key) {
            Some(slot) => {
                self.empty(slot);
                true
            }
            None => false,
        }
    }

    /// Removes and frees all entries, in one pass over each of the four tables.
    fn clear_in_place(&mut self)
        ensures limits { self.new.limits ≡ self.old.limits }
        ensures areas { self.new.areas ≡ no_entries }
        ensures room { self.old.has_room ≡ true → self.new.has_room ≡ true }
    {
        self.index.clear();
        self.entries.clear();
        self.lists.clear();
        self.wheel.clear();
    }

    /// Removes all entries. It puts new tables in use, and sets the old ones aside to be freed
    /// later. If memory for that is refused, it frees all entries at once.
    pub fn clear(&mut self)
        ensures limits { self.new.limits ≡ self.old.limits }
        ensures areas { self.new.areas ≡ no_entries }
        ensures room { self.old.has_room ≡ true → self.new.has_room ≡ true }
    {
        if self.count() > 0 {
            match self.begin_anew() {
                Ok(()) => {}
                Err(_) => self.clear_in_place(),
            }
        }
    }

    /// Drops the next entry that settle drops, and returns whether there was one.
    pub fn settle_next(&mut self, sketch: &SparingSketch) -> bool
        ensures limits { self.new.limits ≡ self.old.limits }
        ensures next { DropsEntry result sketch.now self.old self.new }
        ensures fewer { result ≡ true → filled self.new.slots + 1 ≡ filled self.old.slots }
        ensures room { self.old.has_room ≡ true → self.new.has_room ≡ true }
    {
        match drop_next(&mut self.lists, &self.entries, sketch) {
            Some(victim) => {
                vacate(&mut self.index, &self.hasher, &mut self.entries, victim);
                self.wheel.remove(victim);
                true
            }
            None => false,
        }
    }

    /// Brings each area within its limit. Returns `evictions` plus the number of dropped entries.
    pub fn settle(&mut self, sketch: &SparingSketch, mut evictions: u64) -> u64
        ensures areas { self.new.areas ≡ (settle weight
            (frequency_in sketch.now) self.old.limits self.old.areas).areas }
        ensures counted { result ≡ more evictions (length (settle weight
            (frequency_in sketch.now) self.old.limits self.old.areas).dropped) }
        ensures limits { self.new.limits ≡ self.old.limits }
        ensures room { self.old.has_room ≡ true → self.new.has_room ≡ true }
    {
        while self.settle_next(sketch) {
            evictions = evictions.saturating_add(1);
        }
        evictions
    }

    /// Removes one entry that is not alive at the moment, and returns whether there was one.
    pub fn expire_next(&mut self, moment: Moment) -> bool
        ensures limits { self.new.limits ≡ self.old.limits }
        ensures kept { filtered (lives moment) self.new.areas ≡ filtered (lives moment) self.old.areas }
        ensures none { result ≡ false → filtered (lives moment) self.new.areas ≡ self.new.areas }
        ensures alive { (n : ℕ) (e : Entry) → slice_index_or self.old.slots n None ≡ Some e
            → lives moment e ≡ true → slice_index_or self.new.slots n None ≡ Some e }
        ensures fewer { result ≡ true → filled self.new.slots + 1 ≡ filled self.old.slots }
        ensures sound { (limits : AreaLimits) → AreSound limits self.old.areas
            → AreSound limits self.new.areas }
        ensures room { self.old.has_room ≡ true → self.new.has_room ≡ true }
    {
        let _seconds = moment.seconds();
        match self.wheel.advance(moment) {
            Some(due) => {
                vacate(&mut self.index, &self.hasher, &mut self.entries, due);
                self.lists.remove(due);
                true
            }
            None => false,
        }
    }

    /// Removes all entries that are not alive at the moment.
    pub fn expire(&mut self, moment: Moment)
        ensures limits { self.new.limits ≡ self.old.limits }
        ensures areas { self.new.areas ≡ filtered (lives moment) self.old.areas }
        ensures alive { (n : ℕ) (e : Entry) → slice_index_or self.old.slots n None ≡ Some e
            → lives moment e ≡ true → slice_index_or self.new.slots n None ≡ Some e }
        ensures room { self.old.has_room ≡ true → self.new.has_room ≡ true }
    {
        while self.expire_next(moment) {}
    }
}
