//! What look-ups touch of the reference.
ghost use Rattle.std.specs.Prelude.{◌≡◌, ℕ, ◌<◌, ◌+◌, ◌^◌, is_some, cond, length, IfOk, MatchOption};
ghost use Rattle.tc_model.specs.Areas.{total, demoted, settle};
ghost use Rattle.tc_stats.specs.UserCounters.{more};
ghost use Rattle.tc_plain.specs.Entries.{weight, lives};
ghost use Rattle.tc_plain.specs.EvictionState.{is_flush_due, at_moment, advanced, held};
ghost use Rattle.tc_plain.specs.Placing.{frequency, used};
ghost use Rattle.tc_plain.specs.Doing.{looked_up, flushed};
ghost use Rattle.tc_plain.specs.AreaLists.{areas_of, live_of, HasRoom, is_from_window, put_back, change_of};

use crate::reference::areas::Origin;
use crate::reference::finding::find_alive;
use crate::reference::lists::put_first;
use crate::shared::flush::is_flush_due;
use crate::{Areas, Entry, Limits};
use std::alloc::Global;
use tc_item::{Due, Moment, NoMemory, alive, hash};
use tc_sketch::Sketch;

/// What look-ups touch: the areas that hold the entries, how often each key was seen, and when
/// entries go.
#[derive(Drop)]
pub struct EvictionState {
    /// The most that each area may weigh, in bytes.
    pub limits: Limits,
    /// The entries held.
    pub areas: Areas,
    /// How often each key was seen lately.
    pub sketch: Sketch,
    /// The second at which all entries go, if a delayed flush is pending.
    pub flush: Option<u64>,
    /// The latest moment that the cache was advanced to.
    pub moment: Moment,
}

impl EvictionState {
    /// Advances to the moment, if that is later than its own: a due flush removes all entries,
    /// otherwise those that expired go.
    pub fn advance(&mut self, now: Moment)
        ensures live { live_of self.new ≡ advanced (live_of self.old) now }
        ensures room { (spare : ℕ) → HasRoom spare self.old.areas → HasRoom spare self.new.areas }
    {
        self.moment = self.moment.later(now);
        if is_flush_due(self.flush, self.moment) {
            self.flush = None;
            self.areas.clear();
        } else {
            self.areas.expire(self.moment);
        }
    }

    /// Copies the state. The copies of entries share their data. Fails if memory is refused.
    pub(crate) fn copy(&self, alloc: Global) -> Result<EvictionState, NoMemory>
        ensures { IfOk result (λ live. live_of live ≡ live_of self.now) }
    {
        Ok(EvictionState {
            limits: self.limits,
            areas: self.areas.copy(alloc)?,
            sketch: self.sketch.copy()?,
            flush: self.flush,
            moment: self.moment,
        })
    }

    /// Returns what a key will hold at the moment.
    pub(crate) fn peek(&self, key: &[u8], moment: Moment) -> Option<&Entry>
        ensures { MatchOption result
            (held key.now (at_moment moment (live_of self.now)).areas ≡ None)
            (λ e. held key.now (at_moment moment (live_of self.now)).areas ≡ Some e.now) }
    {
        if is_flush_due(self.flush, moment) {
            return None;
        }
        if let Some(entry) = find_alive(&self.areas.window, key, moment) {
            return Some(entry);
        }
        if let Some(entry) = find_alive(&self.areas.probation, key, moment) {
            return Some(entry);
        }
        if let Some(entry) = find_alive(&self.areas.protected, key, moment) {
            return Some(entry);
        }
        None
    }

    /// Puts back an entry that was taken out, if it is alive: at the front of the window if it was
    /// there, otherwise of protected.
    fn access(&mut self, origin: Origin, entry: Entry)
        requires weight { total weight (areas_of self.old.areas) + weight entry < 2 ^ 64 }
        requires room { HasRoom 1 self.old.areas }
        ensures live { live_of self.new ≡ record (live_of self.old) {
          areas = cond (lives self.old.moment entry)
              (demoted weight self.old.limits
              (put_back (is_from_window origin) entry (areas_of self.old.areas)))
              (areas_of self.old.areas);
        } }
        ensures room { HasRoom 0 self.new.areas }
    {
        if alive(&entry.item, self.moment) {
            self.areas.put_back(origin, entry);
            self.areas.hold_protected(self.limits.protected_limit());
        }
    }

    /// Looks up one key and returns whether it is held. If a due is given, its entry gets it.
    pub fn look(&mut self, key: &[u8], due: Option<Due>) -> bool
        requires weight { total weight (areas_of self.old.areas) < 2 ^ 32 }
        requires room { HasRoom 0 self.old.areas }
        ensures live { live_of self.new ≡ (looked_up (change_of due) key.now
            (held key.now (areas_of self.old.areas)) (live_of self.old)).1 }
        ensures found { result ≡ is_some (held key.now (areas_of self.old.areas)) }
        ensures room { HasRoom 0 self.new.areas }
    {
        self.sketch.record(hash(key));
        let Some((origin, entry)) = self.areas.take(key) else {
            return false;
        };
        self.access(origin, entry.with_due(due));
        true
    }

    /// Puts an entry in the place of the one that its key holds, or else at the window's front. An
    /// entry that is not alive is dropped, and so is the old one.
    pub(crate) fn use_new(&mut self, entry: Entry)
        requires weight { total weight (areas_of self.old.areas) + weight entry < 2 ^ 64 }
        requires room { HasRoom 1 self.old.areas }
        ensures live { live_of self.new ≡ used entry (live_of self.old) }
        ensures room { HasRoom 0 self.new.areas }
    {
        self.sketch.record(entry.key.fnv_hash());
        match self.areas.take(entry.key.as_bytes()) {
            Some((origin, _old)) => self.access(origin, entry),
            None if alive(&entry.item, self.moment) => {
                put_first(&mut self.areas.window, entry);
            }
            None => {}
        }
    }

    /// Brings each area within its limit. Returns `evictions` plus the number of dropped entries.
    pub(crate) fn settle(&mut self, evictions: u64) -> u64
        requires weight { total weight (areas_of self.old.areas) < 2 ^ 64 }
        requires room { HasRoom 0 self.old.areas }
        ensures live { live_of self.new ≡ record (live_of self.old) {
          areas = (settle weight (frequency (live_of self.old)) self.old.limits
              (areas_of self.old.areas)).areas;
        } }
        ensures counted { result ≡ more evictions (length (settle weight
            (frequency (live_of self.old)) self.old.limits (areas_of self.old.areas)).dropped) }
    {
        self.areas.settle(self.limits, &self.sketch, evictions)
    }

    /// Puts an entry in the place of the one that its key holds, and brings each area within its
    /// limit. Returns `evictions` plus the number of dropped entries.
    pub(crate) fn change(&mut self, entry: Entry, evictions: u64) -> u64
        requires weight { total weight (areas_of self.old.areas) + weight entry < 2 ^ 64 }
        requires room { HasRoom 1 self.old.areas }
        ensures live { live_of self.new ≡ record (used entry (live_of self.old)) {
          areas = (settle weight (frequency (used entry (live_of self.old))) self.old.limits
              (used entry (live_of self.old)).areas).areas;
        } }
        ensures counted { result ≡ more evictions (length (settle weight
            (frequency (used entry (live_of self.old))) self.old.limits
            (used entry (live_of self.old)).areas).dropped) }
    {
        self.use_new(entry);
        self.settle(evictions)
    }

    /// Removes all entries, at once or `delay` seconds after its moment.
    pub(crate) fn flush(&mut self, delay: u32)
        ensures { live_of self.new ≡ flushed delay (live_of self.old) }
    {
        if delay == 0 {
            self.areas.clear();
            self.flush = None;
        } else {
            self.flush = Some(self.moment.seconds() + u64::from(delay));
        }
    }
}
