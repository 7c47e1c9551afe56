//! How the areas settle: each gets within its limit (docs/EVICTION.md).
ghost use Rattle.std.specs.Prelude.{◌≡◌, ℕ, ◌<◌, ◌≤◌, ◌+◌, ◌-◌, ◌^◌, ◌++◌, ◌∷◌, [], ◌⊎◌, length, reverse, nat_lt, sum_by};
ghost use Rattle.std.specs.Prelude.{MatchOption};
ghost use Rattle.std.specs.List.{list_all};
ghost use Rattle.tc_model.specs.Areas.{total, main_weight, shortest, from_tail, without_last, admitted, settle};
ghost use Rattle.tc_stats.specs.UserCounters.{more};
ghost use Rattle.tc_plain.specs.Entries.{weight};
ghost use Rattle.tc_plain.specs.AreaLists.{areas_of, HasRoom, IsPopped, frequency_in};

use crate::reference::areas::Areas;
use crate::reference::lists::{pop_over, put_first, weigh_all};
use crate::{Entry, Limits};
use tc_sketch::Sketch;

/// Returns whether each entry of the shortest run from the list's end that weighs at least `need`
/// bytes was seen less often than `level`.
fn outranked(items: &[Entry], sketch: &Sketch, mut need: u64, level: u8) -> bool
    ensures { result ≡ list_all (λ e. nat_lt (frequency_in sketch.now e) level)
        (shortest weight need (reverse items.now)) }
{
    let mut left = items.len();
    while left > 0 && need > 0 {
        left -= 1;
        let entry = &items[left];
        if sketch.freq(entry.key.fnv_hash()) >= level {
            return false;
        }
        need = need.saturating_sub(entry.weight());
    }
    true
}

impl Areas {
    /// Returns what main weighs, in bytes.
    fn weigh_main(&self) -> u64
        requires { main_weight weight (areas_of self.now) < 2 ^ 64 }
        ensures { result ≡ main_weight weight (areas_of self.now) }
    {
        weigh_all(&self.probation) + weigh_all(&self.protected)
    }

    /// Removes and returns main's last entry, from probation first, unless `need` is 0.
    fn pop_main(&mut self, need: u64) -> Option<Entry>
        ensures popped { MatchOption result
            ((areas_of self.new ≡ areas_of self.old)
            × ((need ≡ 0) ⊎ (from_tail (areas_of self.old) ≡ [])))
            (λ last. (0 < need) × IsPopped last (areas_of self.old) (areas_of self.new)) }
        ensures room { (spare : ℕ) → HasRoom spare self.old → HasRoom spare self.new }
    {
        if need == 0 {
            return None;
        }
        match self.probation.pop() {
            Some(last) => Some(last),
            None => self.protected.pop(),
        }
    }

    /// Drops the shortest run from main's tail that weighs at least `need` bytes. Returns
    /// `evictions` plus the number of dropped entries.
    fn drop_main(&mut self, mut need: u64, mut evictions: u64) -> u64
        ensures areas { areas_of self.new ≡ without_last
            (length (shortest weight need (from_tail (areas_of self.old)))) (areas_of self.old) }
        ensures counted { result ≡ more evictions
            (length (shortest weight need (from_tail (areas_of self.old)))) }
        ensures room { (spare : ℕ) → HasRoom spare self.old → HasRoom spare self.new }
    {
        while let Some(last) = self.pop_main(need) {
            need = need.saturating_sub(last.weight());
            evictions = evictions.saturating_add(1);
        }
        evictions
    }

    /// Returns whether the candidate was seen more often than each entry of the shortest run from
    /// main's tail that weighs at least `need` bytes.
    fn outranks(&self, sketch: &Sketch, candidate: &Entry, need: u64) -> bool
        requires { main_weight weight (areas_of self.now) < 2 ^ 64 }
        ensures { result ≡ list_all
            (λ v. nat_lt (frequency_in sketch.now v) (frequency_in sketch.now candidate.now))
            (shortest weight need (from_tail (areas_of self.now))) }
    {
        let level = sketch.freq(candidate.key.fnv_hash());
        let rest = need.saturating_sub(weigh_all(&self.probation));
        outranked(&self.probation, sketch, need, level)
            && outranked(&self.protected, sketch, rest, level)
    }

    /// Admits the candidate in place of its victims, or drops it. Returns `evictions` plus the
    /// number of dropped entries.
    fn admit(&mut self, main: u64, sketch: &Sketch, candidate: Entry, evictions: u64) -> u64
        requires weight { total weight (areas_of self.old) + weight candidate < 2 ^ 64 }
        requires room { HasRoom 1 self.old }
        ensures areas { areas_of self.new ≡ (admitted (frequency_in sketch.now) candidate
            (areas_of self.old)
            (shortest weight (main_weight weight (areas_of self.old) + weight candidate - main)
            (from_tail (areas_of self.old)))).areas }
        ensures counted { result ≡ more evictions (length (admitted
            (frequency_in sketch.now) candidate (areas_of self.old)
            (shortest weight (main_weight weight (areas_of self.old) + weight candidate - main)
            (from_tail (areas_of self.old)))).dropped) }
        ensures room { HasRoom 0 self.new }
    {
        let need = (self.weigh_main() + candidate.weight()).saturating_sub(main);
        if !self.outranks(sketch, &candidate, need) {
            return evictions.saturating_add(1);
        }
        let evictions = self.drop_main(need, evictions);
        put_first(&mut self.probation, candidate);
        evictions
    }

    /// Brings each area within its limit. Returns `evictions` plus the number of dropped entries.
    pub(crate) fn settle(&mut self, limits: Limits, sketch: &Sketch, mut evictions: u64) -> u64
        requires weight { total weight (areas_of self.old) < 2 ^ 64 }
        requires room { HasRoom 0 self.old }
        ensures areas { areas_of self.new
            ≡ (settle weight (frequency_in sketch.now) limits (areas_of self.old)).areas }
        ensures counted { result ≡ more evictions
            (length (settle weight (frequency_in sketch.now) limits (areas_of self.old)).dropped) }
    {
        self.hold_protected(limits.protected);
        let over = self.weigh_main().saturating_sub(limits.main);
        evictions = self.drop_main(over, evictions);
        while let Some(candidate) = pop_over(&mut self.window, limits.window) {
            evictions = self.admit(limits.main, sketch, candidate, evictions);
        }
        evictions
    }
}
