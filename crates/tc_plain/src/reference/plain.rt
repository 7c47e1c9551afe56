//! The reference cache: three lists, with nothing deferred.
ghost use Rattle.std.specs.Prelude.{◌≡◌, ◌≤◌, ⊤, IfOk, OnOk, OnErr};
ghost use Rattle.tc_item.specs.Bounds.{smallest_budget, largest_budget, largest_item};
ghost use Rattle.tc_plain.specs.EvictionState.{held};
ghost use Rattle.tc_plain.specs.UserCache.{fresh, advance};
ghost use Rattle.tc_plain.specs.Storing.{stored};
ghost use Rattle.tc_plain.specs.Doing.{counted_under};
ghost use Rattle.tc_plain.specs.Plans.{outcome_of, planned, IsLightPlan};

use crate::shared::acted::keep_hits;
use crate::shared::commands::{Commands, act};
use crate::shared::end::End;
use crate::shared::offers::{Bid, offer};
use crate::shared::plans::{Plan, plan_count, plan_item};
use crate::{Acted, Areas, Cache, EvictionState, Journal, Limits, Progress};
use std::alloc::Global;
use std::marker::Model;
use tc_grammar::{Command, Head, Way};
use tc_item::exptime::due;
use tc_item::{Blob, Due, Key, Moment, NoMemory};
use tc_sketch::{Sketch, width_of};
use tc_stats::{Counters, Outcome};

/// One user's cache as three lists. Its fields are public, so that another cache can be frozen into
/// one.
#[derive(Drop)]
pub struct Plain {
    /// The most that all items may weigh together, in bytes: 65,536 to 2^30.
    pub budget: u64,
    /// The most bytes of data that a storage command stores: 1 to 1,048,576.
    pub largest: u64,
    /// What look-ups touch: the entries, how often keys were seen, the pending flush, and the
    /// moment.
    pub live: EvictionState,
    /// The last cas number given.
    pub last: u64,
    /// The user's counters.
    pub counters: Counters,
}

impl Model for Plain {
    ghost use Rattle.tc_plain.specs.UserCache.{UserCache};
    ghost use Rattle.tc_plain.specs.AreaLists.{live_of};
    ghost use Rattle.tc_plain.specs.Soundness.{IsSound};

    ghost Value = { UserCache };

    ghost view = { λ p. record {
      budget = p.budget;
      largest = p.largest;
      live = live_of p.live;
      last = p.last;
      counters = p.counters;
    } };

    ghost invariant = { λ p. IsSound (record {
      budget = p.budget;
      largest = p.largest;
      live = live_of p.live;
      last = p.last;
      counters = p.counters;
    }) };
}

impl Plain {
    /// Makes an empty cache with a budget of 65,536 to 2^30 bytes, whose storage commands store at
    /// most `largest` bytes of data, 1 to 1,048,576. Fails if memory is refused.
    pub fn new(alloc: Global, budget: u64, largest: u64) -> Result<Plain, NoMemory>
        requires least_budget { smallest_budget ≤ budget }
        requires most_budget { budget ≤ largest_budget }
        requires least_largest { 1 ≤ largest }
        requires most_largest { largest ≤ largest_item }
        ensures { IfOk result (λ plain. plain ≡ fresh budget largest) }
    {
        let live = EvictionState {
            limits: Limits::of(budget),
            areas: Areas::new(alloc),
            sketch: Sketch::new(alloc, width_of(budget))?,
            flush: None,
            moment: Moment::FIRST,
        };
        Ok(Plain {
            budget,
            largest,
            live,
            last: 0,
            counters: Counters::new(),
        })
    }

    /// Copies the cache. The copies of entries share their data. Fails if memory is refused.
    pub fn copy(&self, alloc: Global) -> Result<Plain, NoMemory>
        ensures { IfOk result (λ plain. plain ≡ self.now) }
    {
        Ok(Plain {
            budget: self.budget,
            largest: self.largest,
            live: self.live.copy(alloc)?,
            last: self.last,
            counters: self.counters,
        })
    }

    /// Plans what a storage line with its block will do at the moment. Fails if memory is refused.
    fn plan_store(
        &self,
        alloc: Global,
        now: Moment,
        head: &Head,
        blob: &Blob,
    ) -> Result<Plan, NoMemory>
        ensures plan { IfOk result (λ plan. planned (advance self.now now) plan
            ≡ stored (advance self.now now) head.now blob.now) }
        ensures light { IfOk result (λ plan. IsLightPlan self.now.live.limits plan) }
    {
        let moment = self.live.moment.later(now);
        let held = self.live.peek(head.key.as_bytes(), moment);
        match offer(alloc, held, head, blob, moment)? {
            Bid::Refused(end) => Ok(Plan::Ends(end)),
            Bid::Offered(draft) => {
                plan_item(
                    alloc,
                    self.largest,
                    self.live.limits.main_limit(),
                    &head.key,
                    draft,
                )
            }
        }
    }

    /// Plans what counting the number under a key will do at the moment. Fails if memory is
    /// refused.
    fn plan_count(
        &self,
        alloc: Global,
        now: Moment,
        way: Way,
        key: &Key,
        by: u64,
    ) -> Result<Plan, NoMemory>
        ensures plan { IfOk result (λ plan. planned (advance self.now now) plan
            ≡ counted_under way by (held key.now (advance self.now now).live.areas)
            (advance self.now now)) }
        ensures light { IfOk result (λ plan. IsLightPlan self.now.live.limits plan) }
    {
        let moment = self.live.moment.later(now);
        match self.live.peek(key.as_bytes(), moment) {
            Some(entry) => plan_count(alloc, entry, way, by),
            None => Ok(Plan::Ends(End::NotFound)),
        }
    }

    /// Carries out a plan at the moment. A refusal changes nothing.
    fn change(&mut self, now: Moment, plan: Plan) -> Result<End, NoMemory>
        requires { IsLightPlan self.old.live.limits plan }
        ensures outcome { IfOk result (λ end. outcome_of end
            ≡ (planned (advance self.old now) plan).0) }
        ensures state { OnOk result (self.new ≡ (planned (advance self.old now) plan).1) }
        ensures unchanged_on_err { OnErr result (self.new ≡ self.old) }
    {
        self.live.areas.make_room()?;
        self.live.advance(now);
        Ok(
            self.live
                .carry_out(plan, &mut self.last, &mut self.counters),
        )
    }
}

impl Commands for Plain {
    ghost cache = { λ p. p };

    ghost is_sound = { λ p. ⊤ };

    fn advance(&mut self, now: Moment) {
        self.live.advance(now);
    }

    fn store(
        &mut self,
        alloc: Global,
        now: Moment,
        head: &Head,
        blob: &Blob,
    ) -> Result<End, NoMemory> {
        let plan = self.plan_store(alloc, now, head, blob)?;
        self.change(now, plan)
    }

    fn count(
        &mut self,
        alloc: Global,
        now: Moment,
        way: Way,
        key: &Key,
        by: u64,
    ) -> Result<End, NoMemory> {
        let plan = self.plan_count(alloc, now, way, key, by)?;
        self.change(now, plan)
    }

    fn look(
        &mut self,
        alloc: Global,
        now: Moment,
        keys: &[Key],
        due: Option<Due>,
        keep: Journal,
    ) -> Result<Acted, NoMemory> {
        let moment = self.live.moment.later(now);
        let hits = self.live.look_up(alloc, keys, moment, due)?;
        let kept = keep_hits(alloc, &hits, keep)?;
        self.live.areas.make_room()?;
        self.live.advance(now);
        self.live.look_all(keys, due);
        Ok(Acted {
            answer: Outcome::Values(hits),
            kept,
        })
    }

    fn touch(&mut self, now: Moment, key: &Key, due: Due) -> Result<End, NoMemory> {
        self.live.areas.make_room()?;
        self.live.advance(now);
        if self.live.look(key.as_bytes(), Some(due)) {
            Ok(End::Touched)
        } else {
            Ok(End::NotFound)
        }
    }

    fn delete(&mut self, now: Moment, key: &Key) -> End {
        self.live.advance(now);
        match self.live.areas.take(key.as_bytes()) {
            Some(_) => End::Deleted,
            None => End::NotFound,
        }
    }

    fn flush(&mut self, now: Moment, delay: u32) {
        self.live.advance(now);
        self.live.flush(delay);
    }

    fn due(&self, now: Moment, exptime: i64) -> Due {
        due(exptime, self.live.moment.later(now))
    }

    fn numbers(&self) -> Counters {
        let mut numbers = self.counters;
        numbers.curr_items = self.live.areas.count() as u64;
        numbers.bytes = self.live.areas.weigh();
        numbers.limit_maxbytes = self.budget;
        numbers.item_size_max = self.largest;
        numbers
    }

    fn note(&mut self, command: &Command, outcome: &Outcome) {
        self.counters.note(command, outcome);
    }
}

impl Cache for Plain {
    ghost settled = { λ p. p };

    fn act(
        &mut self,
        alloc: Global,
        now: Moment,
        command: &Command,
        keep: Journal,
    ) -> Result<Acted, NoMemory> {
        act(self, alloc, now, command, keep)
    }

    fn maintain(&mut self, now: Moment, _limit: u32) -> Progress {
        self.advance(now);
        Progress::Done
    }

    fn read_ahead(&self, _hashes: &[u64]) {
        let _ = &self.live;
    }

    fn freeze(&self, alloc: Global) -> Result<Plain, NoMemory> {
        self.copy(alloc)
    }
}
