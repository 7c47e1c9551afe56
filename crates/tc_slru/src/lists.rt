//! The lists of slots under access and settle.
ghost use Rattle.std.specs.Prelude.{◌≡◌, ℕ, ◌+◌, ◌<◌, ◌≤◌, ◌^◌, true, false, is_ok, IfOk, map, OnErr, if◌then◌else◌};
ghost use Rattle.tc_model.specs.Areas.{total};
ghost use Rattle.tc_slru.specs.Slots.{weigh, holds, without_slot, slot_of};
ghost use Rattle.tc_slru.specs.InAreas.{list_in};
ghost use Rattle.tc_slru.specs.Victims.{Counts};
ghost use Rattle.tc_slru.specs.SlotLists.{fresh, reserved, cleared, pushed, removed, accessed_at, weights_of, DropsNext};

use crate::area::Area;
use crate::linked_areas::{LinkedAreas, Listed};
use crate::settle::{AreaLimits, drop_next, hold_protected};
use std::alloc::Global;
use std::marker::Model;
use tc_item::{NoMemory, Slot};

/// What each area weighs, in bytes.
#[derive(Clone, Copy, PartialEq, Eq)]
pub struct Weights {
    pub window: u64,
    pub probation: u64,
    pub protected: u64,
}

/// The window, probation and protected of one user, as lists of slots.
#[derive(Drop)]
pub struct Lists {
    limits: AreaLimits,
    areas: LinkedAreas,
}

impl Model for Lists {
    ghost use Rattle.tc_slru.specs.SlotLists.{SlotLists};

    ghost Value = { SlotLists };

    ghost use Rattle.tc_slru.specs.Bounded.{lists_of, AreFitLists};

    ghost view = { lists_of };

    ghost invariant = { AreFitLists };
}

impl Lists {
    /// Makes empty lists without room for slots. The window may weigh `window` bytes, probation and
    /// protected together `main`, and protected alone `protected`. It takes memory for three marks.
    pub fn new(alloc: Global, window: u64, main: u64, protected: u64) -> Result<Lists, NoMemory>
        requires { main < 2 ^ 32 }
        ensures { IfOk result (λ l. l ≡ fresh window main protected) }
    {
        let areas = LinkedAreas::new(alloc)?;
        Ok(Lists {
            limits: AreaLimits {
                window,
                main,
                protected,
            },
            areas,
        })
    }

    /// Makes empty lists under the same limits, without room for slots. It takes memory for three
    /// marks.
    pub fn fresh(&self, alloc: Global) -> Result<Lists, NoMemory>
        ensures { IfOk result (λ l. l ≡ fresh self.now.limits.window self.now.limits.main
            self.now.limits.protected) }
    {
        let AreaLimits {
            window,
            main,
            protected,
        } = self.limits;
        Lists::new(alloc, window, main, protected)
    }

    /// Makes room for all slots below `slots`; it never shrinks. A refusal changes nothing.
    pub fn reserve(&mut self, slots: usize) -> Result<(), NoMemory>
        ensures reserved { self.new
            ≡ (if is_ok result then reserved slots self.old else self.old) }
        ensures refused { OnErr result (self.old.slots < slots) }
    {
        self.areas.reserve(slots)
    }

    /// Removes all slots. Limits and room stay.
    pub fn clear(&mut self)
        ensures { self.new ≡ cleared self.old }
    {
        self.areas.clear();
    }

    /// Returns how many slots have room: all below this number.
    pub fn slots(&self) -> usize
        ensures { result ≡ self.now.slots }
    {
        self.areas.slots()
    }

    /// Returns the most that one item may weigh, which is main's limit in bytes.
    pub fn heaviest(&self) -> u64
        ensures { result ≡ self.now.limits.main }
    {
        self.limits.main
    }

    /// Prefetches what an access of a held slot writes, so that several wait for memory together.
    /// The result has no meaning.
    pub fn read(&self, slot: Slot) -> u64
        requires { holds slot.0 self.now.areas ≡ true }
    {
        self.areas.read(slot)
    }

    /// Returns whether the slot is in one of the lists.
    pub fn holds(&self, slot: Slot) -> bool
        ensures { result ≡ holds slot.0 self.now.areas }
    {
        self.areas.holds(slot)
    }

    /// Returns what each area weighs, in constant time.
    pub fn weights(&self) -> Weights
        ensures { result ≡ weights_of self.now.areas }
    {
        let sizes = self.areas.sizes();
        Weights {
            window: sizes.window.weight,
            probation: sizes.probation.weight,
            protected: sizes.protected.weight,
        }
    }

    /// Returns what a held slot weighs, in bytes.
    pub fn weight_of(&self, slot: Slot) -> u64
        requires { holds slot.0 self.now.areas ≡ true }
        ensures { result + total weigh (without_slot slot.0 self.now.areas)
            ≡ total weigh self.now.areas }
    {
        u64::from(self.areas.weight_of(slot))
    }

    /// Returns the slots of a list, front to back. Fails if memory is refused.
    pub fn slots_in(&self, alloc: Global, area: Area) -> Result<Vec<Slot>, NoMemory>
        ensures { IfOk result (λ slots. slots.items
            ≡ map slot_of (list_in area self.now.areas)) }
    {
        self.areas.slots_in(alloc, area)
    }

    /// Puts a slot that is in no list at the front of one.
    pub fn push(&mut self, area: Area, slot: Slot, weight: u64)
        requires reserved { slot.0 < self.old.slots }
        requires free { holds slot.0 self.old.areas ≡ false }
        requires light { weight ≤ self.old.limits.main }
        requires fits { total weigh self.old.areas + weight < 2 ^ 64 }
        ensures { self.new ≡ pushed area slot.0 weight self.old }
    {
        self.areas.put(area, slot, weight as u32);
    }

    /// Removes a held slot from its list.
    pub fn remove(&mut self, slot: Slot)
        requires { holds slot.0 self.old.areas ≡ true }
        ensures { self.new ≡ removed slot.0 self.old }
    {
        let _area = self.areas.take(slot);
    }

    /// Accesses a held slot, which gets the weight `weight`. It goes to the front of its list, or
    /// from probation to the front of protected, which is then held to its limit.
    #[inline(always)]
    pub fn access(&mut self, slot: Slot, weight: u64)
        requires held { holds slot.0 self.old.areas ≡ true }
        requires light { weight ≤ self.old.limits.main }
        requires fits { total weigh (without_slot slot.0 self.old.areas) + weight < 2 ^ 64 }
        ensures { self.new ≡ accessed_at slot.0 weight self.old }
    {
        let to = self.areas.area_of(slot).raised();
        let weight = weight as u32;
        self.areas.move_to(to, Listed { slot, weight });
        hold_protected(&mut self.areas, self.limits.protected);
    }

    /// Drops the next slot that settle drops, and returns it; none once nothing is left to drop.
    /// `freq` returns how often a slot was seen.
    pub fn settle_step<F: Fn(Slot) -> u8>(&mut self, freq: F) -> Option<Slot>
        requires { F.IsAlwaysCallable freq }
        ensures kept { self.new ≡ record self.old { areas = self.new.areas } }
        ensures settled { (seen : ℕ → ℕ) → Counts (F.post freq) seen
            → DropsNext result seen self.old self.new }
    {
        hold_protected(&mut self.areas, self.limits.protected);
        drop_next(&mut self.areas, self.limits, &freq)
    }
}
