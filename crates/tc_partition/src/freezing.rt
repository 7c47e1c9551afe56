//! Waiting look-ups, done on a copy.
ghost use Rattle.std.specs.Prelude.{◌≡◌, ℕ, ◌<◌, ◌+◌, ◌^◌, slice_get, Some};
ghost use Rattle.tc_model.specs.Areas.{total};
ghost use Rattle.tc_plain.specs.Entries.{weight};
ghost use Rattle.tc_plain.specs.Soundness.{AreSound};
ghost use Rattle.tc_plain.specs.AreaLists.{areas_of, live_of, HasRoom};
ghost use Rattle.tc_partition.specs.Deferred.{do_note, replay_one, settled, IsLazy};
ghost use Rattle.tc_partition.specs.WaitingSlots.{note_at, waiting_of, lazy_over};

use tc_item::Moment;
use tc_plain::EvictionState;
use tc_readbuf::{LookUp, ReadBuf};
use tc_slots::Slots;

/// Does a noted look-up. It looks up a hit by the key of the entry in its slot.
fn do_noted(live: &mut EvictionState, slots: &Slots, noted: LookUp)
    requires weight { total weight (areas_of live.old.areas) < 2 ^ 32 }
    requires room { HasRoom 0 live.old.areas }
    ensures live { live_of live.new ≡ do_note (note_at slots.now.slots noted) (live_of live.old) }
    ensures room { HasRoom 0 live.new.areas }
{
    match noted {
        LookUp::Hit(slot, _) => {
            let _held = live.look(slots.key_at(slot), None);
        }
        LookUp::Miss(hash) => live.sketch.record(hash),
    }
}

/// Does the look-up at a place of the ring, at its own moment.
fn replay_at(live: &mut EvictionState, slots: &Slots, waiting: &ReadBuf, place: usize)
    requires sound { AreSound live.old.limits (areas_of live.old.areas) }
    requires light { live.old.limits.window + live.old.limits.main < 2 ^ 32 }
    requires room { HasRoom 0 live.old.areas }
    ensures live { (r : LookUp × ℕ) → slice_get waiting.now place ≡ Some r
        → live_of live.new ≡ replay_one (live_of live.old) (waiting_of slots.now.slots r) }
    ensures room { HasRoom 0 live.new.areas }
{
    if let Some(record) = waiting.get(place) {
        let (noted, moment) = record;
        live.advance(moment);
        do_noted(live, slots, noted);
    }
}

/// Does all waiting look-ups in order, each at its own moment, and then advances to `moment`.
pub fn replay(live: &mut EvictionState, slots: &Slots, waiting: &ReadBuf, moment: Moment)
    requires lazy { IsLazy (lazy_over (live_of live.old) slots.now.slots waiting.now moment) }
    requires light { live.old.limits.window + live.old.limits.main < 2 ^ 32 }
    requires room { HasRoom 0 live.old.areas }
    ensures { live_of live.new ≡ settled (lazy_over
        (live_of live.old) slots.now.slots waiting.now moment) }
{
    for place in 0..waiting.len() {
        replay_at(live, slots, waiting, place);
    }
    live.advance(moment);
}
