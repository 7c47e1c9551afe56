//! What look-ups touch of one user's cache.
ghost use Rattle.std.specs.Prelude.{◌≡◌, ℕ, max, false, None, IsSome, slice_index_or, ◌<◌, ◌≤◌, ◌+◌, ◌^◌, true, is_some, length};
ghost use Rattle.std.specs.Prelude.{Some, IfOk, OnOk, OnErr, MatchOption, List};
ghost use Rattle.tc_item.specs.KeyHash.{hash};
ghost use Rattle.tc_model.specs.Areas.{total, settle};
ghost use Rattle.tc_stats.specs.UserCounters.{more};
ghost use Rattle.tc_plain.specs.declared.shared.entry.Entry.{Entry};
ghost use Rattle.tc_plain.specs.Entries.{weight, lives, with_item};
ghost use Rattle.tc_plain.specs.EvictionState.{is_flush_due, advanced, held, no_entries};
ghost use Rattle.tc_plain.specs.Placing.{frequency, used, without_key};
ghost use Rattle.tc_plain.specs.Doing.{flushed, looked_up};
ghost use Rattle.tc_plain.specs.AreaLists.{areas_of, change_of, live_of as lists_live};
ghost use Rattle.tc_plain.specs.Soundness.{AreSound};
ghost use Rattle.tc_plain.specs.UserCache.{UserCache};
ghost use Rattle.tc_plain.specs.Plans.{outcome_of, planned, IsLightPlan};
ghost use Rattle.tc_slots.specs.Held.{IsFound, FindsSlot};
ghost use Rattle.tc_partition.specs.Deferred.{Miss, hit, do_note, peeked};
ghost use Rattle.tc_partition.specs.WaitingSlots.{SeeksSlot, IsEntryAt, IsPlaced};
ghost use Rattle.tc_readbuf.specs.declared.look_up.LookUp.{LookUp};
ghost use Rattle.tc_partition.specs.LiveSlots.{live_of, plan_of};
ghost use Rattle.tc_partition.specs.Working.{is_new, IsAimed};

use crate::hints::Hints;
use crate::work::Work;
use std::alloc::Global;
use tc_item::{Due, Key, Moment, NoMemory, Slot, alive, have_read};
use tc_plain::{End, Entry, EvictionState, Limits, is_flush_due};
use tc_readbuf::LookUp;
use tc_sketch::SparingSketch;
use tc_slots::Slots;
use tc_slru::Area;
use tc_stats::Counters;

/// The most keys that are prefetched together.
pub(crate) const TOGETHER: usize = 64;

/// What look-ups touch: the entries, how often each key was seen, and when entries go.
#[derive(Drop)]
pub struct LiveSlots {
    /// The entries held.
    pub held: Slots,
    /// Where keys were last found.
    pub hints: Hints,
    /// How often each key was seen lately.
    pub sketch: SparingSketch,
    /// The second at which all entries go, if a delayed flush is pending.
    pub flush: Option<u64>,
    /// The latest moment that the cache was advanced to.
    pub moment: Moment,
}

/// Returns whether what a key holds in this slot is alive at the moment. A given due replaces the
/// entry's own.
fn lives_on(slots: &Slots, key: &Key, slot: Slot, due: Option<Due>, moment: Moment) -> bool
    requires { IsFound key.now slot.0 slots.now }
    ensures { (e : Entry) → held key.now slots.now.areas ≡ Some e
        → result ≡ lives moment (with_item e (change_of due e.item)) }
{
    match due {
        Some(due) => due.is_after(moment),
        None => match slots.entry(slot) {
            Some(entry) => alive(&entry.item, moment),
            None => false,
        },
    }
}

impl LiveSlots {
    /// Removes all entries, and forgets their hints.
    fn clear(&mut self)
        ensures live { live_of self.new ≡ record (live_of self.old) { areas = no_entries } }
        ensures room { self.old.held.has_room ≡ true → self.new.held.has_room ≡ true }
    {
        self.held.clear();
        self.hints = Hints::new(self.held.allocator());
    }

    /// Advances to the moment, if that is later than its own: a due flush removes all entries,
    /// otherwise those that expired go.
    pub(crate) fn advance(&mut self, now: Moment)
        ensures live { live_of self.new ≡ advanced (live_of self.old) now }
        ensures alive { (n : ℕ) (e : Entry) → slice_index_or self.old.held.slots n None ≡ Some e
            → is_flush_due self.old.flush (max self.old.moment now) ≡ false
            → lives (max self.old.moment now) e ≡ true
            → slice_index_or self.new.held.slots n None ≡ Some e }
        ensures room { self.old.held.has_room ≡ true → self.new.held.has_room ≡ true }
    {
        self.moment = self.moment.later(now);
        if is_flush_due(self.flush, self.moment) {
            self.flush = None;
            self.clear();
        } else {
            self.held.expire(self.moment);
        }
    }

    /// Prefetches what look-ups of keys with these hashes will read and change.
    pub(crate) fn read_ahead(&self, hashes: &[u64]) {
        let mut slots = [Slot(0); TOGETHER];
        for some in hashes.chunks(TOGETHER) {
            self.read_together(some, &mut slots);
            self.read_changes(some, &slots);
        }
    }

    /// Returns the slot that a hint names for the key at place `at`, for callers that go through
    /// these hashes in order. At each multiple of `TOGETHER` it prefetches the next keys, and
    /// `slots` keeps what their hints name.
    pub(crate) fn next_hint(&self, hashes: &[u64], at: usize, slots: &mut [Slot; TOGETHER]) -> Slot
        requires { at < length hashes.now }
    {
        let place = at % TOGETHER;
        if place == 0 {
            self.read_together(&hashes[at..], slots);
        }
        slots[place]
    }

    /// Prefetches what look-ups of keys with these hashes will read, as many as `slots` has places,
    /// and fills `slots` with what their hints name. An entry's address comes from its hint, and
    /// the data's from the entry. So it reads all hints, then all entries, then their data.
    fn read_together(&self, hashes: &[u64], slots: &mut [Slot; TOGETHER]) {
        self.hints.find_all(hashes, slots);
        let mut sum: u64 = 0;
        for (slot, _) in slots.iter().zip(hashes) {
            sum = sum.wrapping_add(self.held.read_entry(*slot));
        }
        for (slot, _) in slots.iter().zip(hashes) {
            sum = sum.wrapping_add(self.held.read_data(*slot));
        }
        have_read(sum);
    }

    /// Prefetches what hits in these slots of keys with these hashes will change: all list nodes,
    /// and after that the nodes that they link to.
    fn read_changes(&self, hashes: &[u64], slots: &[Slot; TOGETHER]) {
        let mut sum: u64 = 0;
        for (slot, _) in slots.iter().zip(hashes) {
            sum = sum.wrapping_add(self.held.read_node(*slot));
        }
        for (slot, hash) in slots.iter().zip(hashes) {
            sum = sum.wrapping_add(self.read_changed(*slot, *hash));
        }
        have_read(sum);
    }

    /// Prefetches what a hit in this slot of a key of this hash changes: its links in the lists,
    /// and its counters. The result has no meaning, and neither has that of `read_noted`.
    fn read_changed(&self, slot: Slot, hash: u64) -> u64 {
        self.held.read_links(slot) ^ self.sketch.read(hash)
    }

    /// Prefetches what a noted look-up will change.
    pub(crate) fn read_noted(&self, noted: LookUp) -> u64 {
        match noted {
            LookUp::Hit(slot, hash) => self.read_changed(slot, hash),
            LookUp::Miss(hash) => self.sketch.read(hash),
        }
    }

    /// Returns what a key holds, and its slot. `slot` is the first guess: if the key is there, the
    /// index is not searched.
    #[inline(always)]
    fn find_entry(&self, slot: Slot, key: &Key) -> Option<(Slot, &Entry)>
        ensures { MatchOption result (held key.now self.now.held.areas ≡ None)
            (λ found. IsEntryAt found.0.0 key.now found.1.now self.now
            × (held key.now self.now.held.areas ≡ Some found.1.now)) }
    {
        self.held.owning();
        if let Some(entry) = self.held.entry(slot)
            && entry.key == *key
        {
            return Some((slot, entry));
        }
        let other = self.held.find(key)?;
        match self.held.entry(other) {
            Some(held) => Some((other, held)),
            None => None,
        }
    }

    /// Returns what a key will hold at the moment, and its slot. `slot` is the first guess.
    #[inline(always)]
    pub(crate) fn seek_entry(&self, slot: Slot, key: &Key, moment: Moment) -> Option<(Slot, &Entry)>
        requires { AreSound self.now.held.limits self.now.held.areas }
        ensures { MatchOption result (peeked moment key.now (live_of self.now) ≡ None)
            (λ found. IsEntryAt found.0.0 key.now found.1.now self.now
            × (peeked moment key.now (live_of self.now) ≡ Some found.1.now)) }
    {
        if is_flush_due(self.flush, moment) {
            return None;
        }
        let found = self.find_entry(slot, key)?;
        if alive(&found.1.item, moment) {
            Some(found)
        } else {
            None
        }
    }

    /// Returns the slot of what a key will hold at the moment. `slot` is the first guess.
    #[inline(always)]
    pub(crate) fn seek_from(&self, slot: Slot, key: &Key, moment: Moment) -> Option<Slot>
        requires { AreSound self.now.held.limits self.now.held.areas }
        ensures { SeeksSlot result moment key.now self.now }
    {
        match self.seek_entry(slot, key, moment) {
            Some((slot, _)) => Some(slot),
            None => None,
        }
    }

    /// Returns the entry in the slot that was found for a key.
    pub(crate) fn held_at(&self, place: Option<Slot>) -> Option<&Entry>
        ensures { (moment : ℕ) (key : List ℕ) → SeeksSlot place moment key self.now
            → MatchOption result (peeked moment key (live_of self.now) ≡ None)
            (λ e. peeked moment key (live_of self.now) ≡ Some e.now) }
    {
        match place {
            Some(slot) => self.held.entry(slot),
            None => None,
        }
    }

    /// Looks up one key and returns whether it is held. If a due is given, its entry gets it.
    pub(crate) fn look(&mut self, key: &Key, due: Option<Due>) -> bool
        requires sound { AreSound self.old.held.limits self.old.held.areas }
        requires weight { total weight self.old.held.areas < 2 ^ 32 }
        ensures live { live_of self.new ≡ (looked_up (change_of due) key.now
            (held key.now self.old.held.areas) (live_of self.old)).1 }
        ensures found { result ≡ is_some (held key.now self.old.held.areas) }
    {
        let place = self.held.find(key);
        self.look_at(place, key, due)
    }

    /// Looks up one key that was found in this slot or holds nothing, and returns whether it is
    /// held. If a due is given, its entry gets it.
    pub(crate) fn look_at(&mut self, place: Option<Slot>, key: &Key, due: Option<Due>) -> bool
        requires sound { AreSound self.old.held.limits self.old.held.areas }
        requires weight { total weight self.old.held.areas < 2 ^ 32 }
        requires missed { place ≡ None → held key.now self.old.held.areas ≡ None }
        ensures live { live_of self.new ≡ (looked_up (change_of due) key.now
            (held key.now self.old.held.areas) (live_of self.old)).1 }
        ensures found { result ≡ is_some (held key.now self.old.held.areas) }
    {
        self.sketch.record(key.fnv_hash());
        let Some(slot) = self.held.find_again(place, key) else {
            return false;
        };
        if !lives_on(&self.held, key, slot, due, self.moment) {
            self.held.empty(slot);
            return true;
        }
        match due {
            Some(due) => self.held.touch(key, slot, due),
            None => self.held.access(key, slot),
        }
        true
    }

    /// Does one look-up of the key in a slot, which has this hash.
    pub(crate) fn hit_at(&mut self, slot: Slot, key_hash: u64)
        requires held { IsPlaced self.old.held.slots (LookUp.Hit slot key_hash) }
        requires sound { AreSound self.old.held.limits self.old.held.areas }
        requires weight { total weight self.old.held.areas < 2 ^ 32 }
        requires alive { (e : Entry) → slice_index_or self.old.held.slots slot.0 None ≡ Some e
            → lives self.old.moment e ≡ true }
        ensures live { (e : Entry) → slice_index_or self.old.held.slots slot.0 None ≡ Some e
            → live_of self.new ≡ hit e.key (live_of self.old) }
        ensures slots { self.new.held.slots ≡ self.old.held.slots }
    {
        self.held.owning();
        self.sketch.record(key_hash);
        self.held.access_at(slot);
    }

    /// Does one look-up of a key of this hash that holds nothing.
    pub(crate) fn miss(&mut self, hash: u64)
        ensures live { live_of self.new ≡ do_note (Miss hash) (live_of self.old) }
        ensures slots { self.new.held.slots ≡ self.old.held.slots }
    {
        self.sketch.record(hash);
    }

    /// Puts an entry in the place of what its key holds, or into a vacant slot. If the entry is not
    /// alive, its key holds nothing after that.
    fn use_new(&mut self, place: Option<Slot>, key_hash: u64, entry: Entry)
        requires hashed { key_hash ≡ hash entry.key }
        requires place { FindsSlot place entry.key self.old.held }
        requires light { weight entry ≤ self.old.held.limits.main }
        requires weight { total weight self.old.held.areas + weight entry < 2 ^ 64 }
        requires room { place ≡ None → self.old.held.has_room ≡ true }
        ensures live { live_of self.new ≡ used entry (live_of self.old) }
    {
        self.sketch.record(key_hash);
        let alive = alive(&entry.item, self.moment);
        match place {
            Some(slot) => {
                if alive {
                    self.held.replace(slot, entry);
                    self.hints.note(key_hash, slot);
                } else {
                    self.held.empty(slot);
                }
            }
            None => {
                if alive {
                    let slot = self.held.fill(Area::Window, entry);
                    self.hints.note(key_hash, slot);
                }
            }
        }
    }

    /// Puts an entry in the place of what its key holds, or into a vacant slot, and brings each
    /// area within its limit. Returns `evictions` plus the number of dropped entries.
    fn change(&mut self, place: Option<Slot>, key_hash: u64, entry: Entry, evictions: u64) -> u64
        requires hashed { key_hash ≡ hash entry.key }
        requires place { FindsSlot place entry.key self.old.held }
        requires light { weight entry ≤ self.old.held.limits.main }
        requires weight { total weight self.old.held.areas + weight entry < 2 ^ 64 }
        requires room { place ≡ None → self.old.held.has_room ≡ true }
        ensures live { live_of self.new ≡ record (used entry (live_of self.old)) {
          areas =
              (settle weight (frequency (used entry (live_of self.old))) self.old.held.limits
              (used entry (live_of self.old)).areas).areas;
        } }
        ensures counted { result ≡ more evictions (length (settle weight (frequency (used entry
            (live_of self.old))) self.old.held.limits (used entry
            (live_of self.old)).areas).dropped) }
    {
        self.use_new(place, key_hash, entry);
        self.held.settle(&self.sketch, evictions)
    }

    /// Makes room for some work. A refusal leaves the entries unchanged.
    pub(crate) fn make_room(&mut self, work: &Work) -> Result<(), NoMemory>
        ensures live { live_of self.new ≡ live_of self.old }
        ensures slots { self.new.held.slots ≡ self.old.held.slots }
        ensures room { OnOk result (is_new work.now ≡ true → self.new.held.has_room ≡ true) }
    {
        if work.is_new() {
            self.held.make_room()?;
            self.hints.fit(self.held.count());
        }
        Ok(())
    }

    /// Removes all entries, at once or `delay` seconds after its moment.
    pub(crate) fn flush(&mut self, delay: u32)
        ensures state { live_of self.new ≡ flushed delay (live_of self.old) }
    {
        if delay == 0 {
            self.clear();
            self.flush = None;
        } else {
            self.flush = Some(self.moment.seconds() + u64::from(delay));
        }
    }

    /// Removes what a key holds, and returns whether it held anything.
    pub(crate) fn remove(&mut self, key: &Key) -> bool
        ensures held { result ≡ is_some (held key.now self.old.held.areas) }
        ensures live { live_of self.new ≡ record (live_of self.old)
            { areas = without_key key.now self.old.held.areas } }
    {
        self.held.remove(key)
    }

    /// Copies it into lists. `limits` are its own. Fails if memory is refused.
    pub(crate) fn copy(&self, alloc: Global, limits: Limits) -> Result<EvictionState, NoMemory>
        requires { limits ≡ self.now.held.limits }
        ensures { IfOk result (λ live. lists_live live ≡ live_of self.now) }
    {
        Ok(EvictionState {
            limits,
            areas: self.held.copy(alloc)?,
            sketch: self.sketch.copy()?,
            flush: self.flush,
            moment: self.moment,
        })
    }

    /// Frees at most `most` pieces of unused memory.
    pub(crate) fn let_go(&mut self, most: usize)
        ensures { self.new ≡ self.old }
    {
        self.held.let_go(most);
    }

    /// Replaces large tables by smaller ones, and forgets the hints. If memory is refused, nothing
    /// changes.
    pub(crate) fn renew(&mut self)
        requires sound { AreSound self.old.held.limits self.old.held.areas }
        requires sum { total weight self.old.held.areas < 2 ^ 64 }
        ensures live { live_of self.new ≡ live_of self.old }
    {
        if self.held.renew().is_ok() {
            self.hints = Hints::new(self.held.allocator());
            self.hints.fit(self.held.count());
        }
    }

    /// Carries out some work, for which there is room. A draft gets the cas number after `last`; if
    /// there is none, nothing changes and the end is `CasWorn`. Each entry dropped for it counts as
    /// an eviction.
    pub(crate) fn carry_out(&mut self, work: Work, last: &mut u64, counters: &mut Counters) -> End
        requires weight { total weight self.old.held.areas < 2 ^ 63 }
        requires light { IsLightPlan self.old.held.limits (plan_of work) }
        requires main { self.old.held.limits.main < 2 ^ 63 }
        requires room { is_new work ≡ true → self.old.held.has_room ≡ true }
        requires aimed { IsAimed work self.old.held }
        ensures outcome { (k : UserCache) → k.live ≡ live_of self.old → k.last ≡ last.old
            → outcome_of result ≡ (planned k (plan_of work)).0 }
        ensures state { (k : UserCache) → k.live ≡ live_of self.old → k.last ≡ last.old
            → k.counters ≡ counters.old
            → (planned k (plan_of work)).1
            ≡ record k { live = live_of self.new; last = last.new; counters = counters.new } }
    {
        let (end, place, hash, key, draft) = match work {
            Work::Ends(end) => return end,
            Work::Changes {
                end,
                place,
                hash,
                key,
                draft,
            } => (end, place, hash, key, draft),
        };
        let Some(cas) = last.checked_add(1) else {
            return End::CasWorn;
        };
        *last = cas;
        let item = draft.numbered(cas);
        counters.evictions = self.change(place, hash, Entry { key, item }, counters.evictions);
        end
    }
}
