//! Three lists of slots in one ring of nodes.
//!
//! A node is a number. Nodes 0, 1 and 2 are the marks of window, probation and protected, and slot
//! n is node n + 3. A list's front is behind its mark, and its last before the next mark. So no
//! list is ever empty in the ring, and no call has a case for an empty one.
//!
//! What is always true (`AreNodes` in `specs/Kept.antt`):
//! 1. `ring`: links lead, both ways, from mark 0 through the window's nodes, mark 1, probation's
//!    nodes, mark 2 and protected's nodes back to mark 0. No node occurs twice.
//! 2. `window`, `probation`, `protected`: a list's size has the number of its nodes and their
//!    weight. Each is the node of a slot whose note names this list.
//! 3. `free`: the note of every other slot names no list.
//! 4. `weights_long`, `areas_long`: each node has a weight and a list or none.
ghost use Rattle.std.specs.Prelude.{◌≡◌, ℕ, reverse, ◌+◌, ◌-◌, ◌<◌, ◌≤◌, ◌^◌, true, false, length, max, slice_index, is_ok, IfOk};
ghost use Rattle.std.specs.Prelude.{map, OnErr, sum_by, if◌then◌else◌};
ghost use Rattle.tc_model.specs.Areas.{total};
ghost use Rattle.tc_slru.specs.Slots.{placed, weigh, holds, without_slot, taken_out, with_room};
ghost use Rattle.tc_slru.specs.Slots.{slot_of};
ghost use Rattle.tc_slru.specs.InAreas.{list_in, put_in, area_of, IsLast, IsSize, no_areas, mark_of, end_of};
ghost use Rattle.tc_slru.specs.Victims.{Counts, left_over};
ghost use Rattle.tc_slru.specs.Sizes.{size_in, sizes_with, sizes_without};

use crate::area::{Area, Sizes};
use crate::nodes::{MARKS, Nodes, SlotNote};
use std::alloc::Global;
use std::marker::Model;
use tc_item::{NoMemory, Slot};
use tc_ring::Ring;

/// A slot of a list, and its weight in bytes.
#[derive(Clone, Copy)]
pub struct Listed {
    pub slot: Slot,
    pub weight: u32,
}

/// Returns the mark before a list.
pub(crate) fn mark_of(area: Area) -> usize
    ensures { result ≡ mark_of area }
{
    match area {
        Area::Window => 0,
        Area::Probation => 1,
        Area::Protected => 2,
    }
}

/// Returns the mark behind a list.
fn end_of(area: Area) -> usize
    ensures { result ≡ end_of area }
{
    match area {
        Area::Window => 1,
        Area::Probation => 2,
        Area::Protected => 0,
    }
}

/// Counts a slot that moved from one list to another or the same, and may have changed its weight.
fn count_moved(sizes: &mut Sizes, from: Area, was: u32, to: Area, weight: u32)
    requires count { 0 < (size_in from sizes.old).count }
    requires weight { was ≤ (size_in from sizes.old).weight }
    requires more { (size_in to (sizes_without from was sizes.old)).count + 1 < 2 ^ 64 }
    requires heavier { (size_in to (sizes_without from was sizes.old)).weight + weight < 2 ^ 64 }
    ensures { sizes.new ≡ sizes_with to weight (sizes_without from was sizes.old) }
{
    if from == to && was == weight {
        return;
    }
    sizes.leave(from, was as u64);
    sizes.enter(to, weight as u64);
}

/// Window, probation and protected, with the size of each.
#[derive(Drop)]
pub struct LinkedAreas {
    nodes: Nodes,
    sizes: Sizes,
}

impl Model for LinkedAreas {
    ghost use Rattle.tc_slru.specs.Slots.{Shown};

    ghost Value = { Shown };

    ghost use Rattle.tc_slru.specs.Linked.{shown, IsLinked};

    ghost view = { shown };

    ghost invariant = { IsLinked };
}

impl LinkedAreas {
    /// Makes empty lists without room for slots.
    pub fn new(alloc: Global) -> Result<LinkedAreas, NoMemory>
        ensures { IfOk result (λ l. l ≡ record { slots = 0; areas = no_areas }) }
    {
        let nodes = Ring::new(alloc, SlotNote::NONE)?;
        Ok(LinkedAreas {
            nodes,
            sizes: Sizes::NONE,
        })
    }

    /// Makes room for all slots below this number. A refusal changes nothing.
    pub fn reserve(&mut self, slots: usize) -> Result<(), NoMemory>
        ensures reserved { self.new
            ≡ (if is_ok result then with_room slots self.old else self.old) }
        ensures refused { OnErr result (self.old.slots < slots) }
    {
        self.nodes.reserve(slots, SlotNote::NONE)
    }

    /// Removes all slots. The room stays.
    pub fn clear(&mut self)
        ensures { self.new ≡ record self.old { areas = no_areas } }
    {
        self.nodes.clear(SlotNote::NONE);
        self.sizes = Sizes::NONE;
    }

    /// Returns how many slots have room.
    pub fn slots(&self) -> usize
        ensures { result ≡ self.now.slots }
    {
        self.nodes.slots()
    }

    /// Prefetches what a move of a held slot writes. The result has no meaning.
    pub fn read(&self, slot: Slot) -> u64
        requires { holds slot.0 self.now.areas ≡ true }
    {
        let at = self.nodes.place(slot);
        self.nodes.read(at)
    }

    /// Returns whether the slot is in a list.
    pub fn holds(&self, slot: Slot) -> bool
        ensures { result ≡ holds slot.0 self.now.areas }
    {
        if slot.0 >= self.nodes.slots() {
            return false;
        }
        let at = self.nodes.place(slot);
        self.nodes.node(at).note.area.is_some()
    }

    /// Returns how many slots each list holds, and their weight.
    pub fn sizes(&self) -> Sizes
        ensures window { IsSize result.window self.now.areas.window }
        ensures probation { IsSize result.probation self.now.areas.probation }
        ensures protected { IsSize result.protected self.now.areas.protected }
    {
        self.sizes
    }

    /// Puts a slot at the front of a list.
    pub fn put(&mut self, area: Area, slot: Slot, weight: u32)
        requires reserved { slot.0 < self.old.slots }
        requires free { holds slot.0 self.old.areas ≡ false }
        requires fits { total weigh self.old.areas + weight < 2 ^ 64 }
        ensures { self.new ≡ put_in area (placed slot.0 weight) self.old }
    {
        let at = self.nodes.place(slot);
        let note = SlotNote {
            weight,
            area: Some(area),
        };
        self.nodes.note(at, note);
        self.nodes.link_behind(mark_of(area), at);
        self.sizes.enter(area, weight as u64);
    }

    /// Removes a slot from its list, and returns the list.
    pub fn take(&mut self, slot: Slot) -> Area
        requires { holds slot.0 self.old.areas ≡ true }
        ensures taken { self.new ≡ taken_out slot.0 self.old }
        ensures from { result ≡ area_of slot.0 self.old.areas }
        ensures reserved { slot.0 < self.old.slots }
    {
        let at = self.nodes.place(slot);
        let note = self.nodes.node(at).note;
        let area = note.area.unwrap();
        let gone = SlotNote {
            weight: note.weight,
            area: None,
        };
        self.nodes.unlink(at);
        self.nodes.note(at, gone);
        self.sizes.leave(area, note.weight as u64);
        area
    }

    /// Returns the list that a held slot is in.
    pub fn area_of(&self, slot: Slot) -> Area
        requires { holds slot.0 self.now.areas ≡ true }
        ensures { result ≡ area_of slot.0 self.now.areas }
    {
        let at = self.nodes.place(slot);
        self.nodes.node(at).note.area.unwrap()
    }

    /// Returns what a held slot weighs, in bytes.
    pub fn weight_of(&self, slot: Slot) -> u32
        requires { holds slot.0 self.now.areas ≡ true }
        ensures { result + total weigh (without_slot slot.0 self.now.areas)
            ≡ total weigh self.now.areas }
    {
        let at = self.nodes.place(slot);
        self.nodes.node(at).note.weight
    }

    /// Moves a slot to the front of a list, which may be its own.
    #[inline(always)]
    pub fn move_to(&mut self, area: Area, held: Listed)
        requires held { holds held.slot.0 self.old.areas ≡ true }
        requires fits { total weigh (without_slot held.slot.0 self.old.areas) + held.weight
            < 2 ^ 64 }
        ensures { self.new ≡ put_in area (placed held.slot.0 held.weight)
            (taken_out held.slot.0 self.old) }
    {
        let at = self.nodes.place(held.slot);
        let node = self.nodes.node(at);
        let from = node.note.area.unwrap();
        let mark = mark_of(area);
        let note = SlotNote {
            weight: held.weight,
            area: Some(area),
        };
        self.nodes.move_behind(mark, at, note);
        count_moved(&mut self.sizes, from, node.note.weight, area, held.weight);
    }

    /// Returns the last slot of a list.
    pub fn last(&self, area: Area) -> Listed
        requires { 0 < length (list_in area self.now.areas) }
        ensures { IsLast (placed result.slot.0 result.weight) area self.now.areas }
    {
        let at = self.nodes.node(end_of(area)).prev as usize;
        let node = self.nodes.node(at);
        Listed {
            slot: Slot(at - MARKS),
            weight: node.note.weight,
        }
    }

    /// Returns how much of `need` is left after the fewest last slots of a list that cover it; none
    /// if one of them was seen `level` times or more.
    pub fn shortfall<F>(&self, area: Area, freq: &F, level: u8, mut need: u64) -> Option<u64>
    where
        F: Fn(Slot) -> u8,
        requires { F.IsAlwaysCallable freq.now }
        ensures { (seen : ℕ → ℕ) → Counts (F.post freq.now) seen
            → result ≡ left_over seen level need (reverse (list_in area self.now.areas)) }
    {
        let mut at = end_of(area);
        for _victim in 0..self.sizes.of(area).count {
            if need == 0 {
                return Some(0);
            }
            at = self.nodes.node(at).prev as usize;
            let node = self.nodes.node(at);
            if freq(Slot(at - MARKS)) >= level {
                return None;
            }
            need = need.saturating_sub(node.note.weight as u64);
        }
        Some(need)
    }

    /// Returns the slots of a list, front to back. Fails if memory is refused.
    pub fn slots_in(&self, alloc: Global, area: Area) -> Result<Vec<Slot>, NoMemory>
        ensures { IfOk result (λ slots. slots.items
            ≡ map slot_of (list_in area self.now.areas)) }
    {
        let count = self.sizes.of(area).count;
        let mut slots = Vec::with_capacity(alloc, count)?;
        let mut at = mark_of(area);
        for _place in 0..count {
            at = self.nodes.node(at).next as usize;
            slots.push(Slot(at - MARKS))?;
        }
        Ok(slots)
    }
}
