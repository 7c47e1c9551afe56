//! Look-ups of keys in the reference's lists.
ghost use Rattle.std.specs.Prelude.{◌≡◌, ◌<◌, ◌+◌, ◌^◌, IfOk};
ghost use Rattle.tc_plain.specs.EvictionState.{at_moment};
ghost use Rattle.tc_plain.specs.Doing.{all_looked_up};
ghost use Rattle.tc_plain.specs.AreaLists.{areas_of, live_of, HasRoom, change_of};
ghost use Rattle.tc_plain.specs.Soundness.{AreSound};

use crate::EvictionState;
use crate::shared::hits::{add_next, is_due};
use std::alloc::Global;
use tc_item::{Due, Key, Moment, NoMemory};
use tc_stats::Hits;

impl EvictionState {
    /// Returns the hits of keys at the moment, in the order asked. If a due is given, an entry gets
    /// it after its hit. If that due has come, the entry is gone, so a key asked again shows
    /// nothing. Fails if memory is refused.
    pub(crate) fn look_up(
        &self,
        alloc: Global,
        keys: &[Key],
        moment: Moment,
        due: Option<Due>,
    ) -> Result<Hits, NoMemory>
        requires { AreSound self.now.limits (areas_of self.now.areas) }
        ensures { IfOk result (λ hits. hits ≡ (all_looked_up (change_of due) keys.now
            (at_moment moment (live_of self.now))).0) }
    {
        let gone = is_due(due, moment);
        let mut hits = Vec::with_capacity(alloc, keys.len())?;
        for (i, key) in keys.iter().enumerate() {
            if let Some(entry) = self.peek(key.as_bytes(), moment) {
                add_next(alloc, &keys[..i], key, entry, gone, &mut hits)?;
            }
        }
        Hits::from_vec(alloc, hits)
    }

    /// Looks up keys one after another. If a due is given, the entries found get it.
    pub(crate) fn look_all(&mut self, keys: &[Key], due: Option<Due>)
        requires sound { AreSound self.old.limits (areas_of self.old.areas) }
        requires light { self.old.limits.window + self.old.limits.main < 2 ^ 32 }
        requires room { HasRoom 0 self.old.areas }
        ensures { live_of self.new
            ≡ (all_looked_up (change_of due) keys.now (live_of self.old)).1 }
    {
        for key in keys {
            self.look(key.as_bytes(), due);
        }
    }
}
