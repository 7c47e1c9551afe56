//! What a command that may change data will do, planned before anything changes.
ghost use Rattle.std.specs.Prelude.{◌≡◌, ℕ, ◌≤◌, ◌+◌, ◌<◌, ◌^◌, length, Some, IfOk};
ghost use Rattle.tc_model.specs.Areas.{Limits, total};
ghost use Rattle.tc_item.specs.Weight.{weight_of};
ghost use Rattle.tc_counter.specs.CounterText.{text_of};
ghost use Rattle.tc_plain.specs.Entries.{weight};
ghost use Rattle.tc_plain.specs.UserCache.{UserCache};
ghost use Rattle.tc_plain.specs.Storing.{Offered, accepted};
ghost use Rattle.tc_plain.specs.Doing.{counted, counted_under};
ghost use Rattle.tc_plain.specs.AreaLists.{areas_of, live_of, HasRoom};
ghost use Rattle.tc_plain.specs.Plans.{outcome_of, numbered, planned, IsLightPlan, IsUnder};

use crate::shared::end::End;
use crate::{Draft, Entry, EvictionState};
use std::alloc::Global;
use tc_grammar::Way;
use tc_item::{Blob, Key, NoMemory};
use tc_stats::Counters;

/// What a command will do: end at once, or first store a draft under a key with the next cas
/// number.
#[derive(Drop)]
pub enum Plan {
    Ends(End),
    Changes(End, Key, Draft),
}

/// Plans to store an item under a key. It is too large with more than `largest` bytes of data, or
/// if it weighs more than `main`. Fails if memory is refused.
pub fn plan_item(
    alloc: Global,
    largest: u64,
    main: u64,
    key: &Key,
    draft: Draft,
) -> Result<Plan, NoMemory>
    ensures plan { IfOk result (λ plan. (k : UserCache) → k.largest ≡ largest
        → k.live.limits.main ≡ main
        → planned k plan ≡ accepted k key.now (Offered (numbered (k.last + 1) draft))) }
    ensures light { IfOk result (λ plan. (limits : Limits) → limits.main ≡ main
        → IsLightPlan limits plan) }
    ensures key { IfOk result (IsUnder key.now) }
{
    let key = key.copy(alloc)?;
    if draft.blob.len() as u64 > largest || draft.weight_under(&key) > main {
        return Ok(Plan::Ends(End::TooLarge));
    }
    Ok(Plan::Changes(End::Stored, key, draft))
}

/// Returns the number counted up or down. Up it wraps at 2^64, and down it stops at 0.
fn count(way: Way, number: u64, by: u64) -> u64
    ensures { result ≡ counted way number by }
{
    match way {
        Way::Incr => tc_counter::incr(number, by),
        Way::Decr => tc_counter::decr(number, by),
    }
}

/// Spells a number as decimal digits. Fails if memory is refused.
fn spell(alloc: Global, number: u64) -> Result<Blob, NoMemory>
    ensures { IfOk result (λ blob. blob ≡ text_of number) }
{
    let mut text = Vec::new(alloc);
    tc_counter::write_into(number, &mut text)?;
    Blob::new(alloc, text)
}

/// Plans to count an entry's data up or down: the data is not a number, or the entry gets the new
/// number's text. Fails if memory is refused.
pub fn plan_count(alloc: Global, entry: &Entry, way: Way, by: u64) -> Result<Plan, NoMemory>
    ensures plan { IfOk result (λ plan. (k : UserCache)
        → planned k plan ≡ counted_under way by (Some entry.now) k) }
    ensures light { IfOk result (λ plan. (limits : Limits)
        → weight_of entry.now.key 20 ≤ limits.main → IsLightPlan limits plan) }
    ensures key { IfOk result (IsUnder entry.now.key) }
{
    let Some(number) = tc_counter::read(entry.item.blob.as_slice()) else {
        return Ok(Plan::Ends(End::NotNumeric));
    };
    let number = count(way, number, by);
    let key = entry.key.copy(alloc)?;
    let draft = Draft {
        flags: entry.item.flags,
        due: entry.item.due.copy(),
        blob: spell(alloc, number)?,
    };
    Ok(Plan::Changes(End::Number(number), key, draft))
}

impl EvictionState {
    /// Carries out a plan. A draft gets the cas number after `last`; if there is none, nothing
    /// changes and the end is `CasWorn`. Each entry dropped for it counts as an eviction. The lists
    /// have room for one more entry.
    pub(crate) fn carry_out(&mut self, plan: Plan, last: &mut u64, counters: &mut Counters) -> End
        requires weight { total weight (areas_of self.old.areas) < 2 ^ 63 }
        requires light { IsLightPlan self.old.limits plan }
        requires main { self.old.limits.main < 2 ^ 63 }
        requires room { HasRoom 1 self.old.areas }
        ensures outcome { (k : UserCache) → k.live ≡ live_of self.old → k.last ≡ last.old
            → outcome_of result ≡ (planned k plan).0 }
        ensures state { (k : UserCache) → k.live ≡ live_of self.old → k.last ≡ last.old
            → k.counters ≡ counters.old
            → (planned k plan).1
            ≡ record k { live = live_of self.new; last = last.new; counters = counters.new } }
    {
        let (end, key, draft) = match plan {
            Plan::Ends(end) => return end,
            Plan::Changes(end, key, draft) => (end, key, draft),
        };
        let Some(cas) = last.checked_add(1) else {
            return End::CasWorn;
        };
        *last = cas;
        let item = draft.numbered(cas);
        counters.evictions = self.change(Entry { key, item }, counters.evictions);
        end
    }
}
