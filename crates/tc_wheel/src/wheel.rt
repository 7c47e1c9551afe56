//! The wheel (a hashed timing wheel, Varghese and Lauck 1987).
//!
//! A node is a number. Marks 0 to 4,095 are before the buckets, and mark 4,096 is before the list
//! of what is due; slot n is node n + 4,097. A list's front is behind its mark, and its last before
//! the next mark. So no list is ever empty in the ring, and no call has a case for an empty one.
//!
//! What is always true (`AreKept` in `specs/Kept.antt`):
//! 1. `count`: there is a list for each bucket, and one of what is due.
//! 2. `ring`: the marks, each with the nodes of its list behind it, are linked in this order, both
//!    ways.
//! 3. `dues_long`: each node has a place for its due.
//! 4. `marks`: no mark has a due.
//! 5. `kept`: a held slot is in the list of what is due, or otherwise in the bucket of its due
//!    modulo 4,096.
//! 6. `late`: what is in the list of what is due is due at the wheel's moment.
//! 7. `rest`: what is in a bucket is due later, or its second is one of the last ones, whose
//!    buckets are left to walk.
ghost use Rattle.std.specs.Prelude.{◌≡◌, ◌<◌, length, false, is_ok, IfOk, OnErr, if◌then◌else◌};
ghost use Rattle.tc_wheel.specs.Dues.{no_dues, reserved, cleared, added, removed, holds, Gives};

use crate::nodes::{BUCKETS, MARKS, Nodes};
use crate::slot_due::SlotDue;
use crate::sweep::{find_due, list_of};
use std::alloc::Global;
use std::marker::Model;
use tc_item::{Moment, NoMemory, Slot};
use tc_ring::Ring;

/// Held slots, each with the moment at which it is due, and the latest moment that the wheel was
/// advanced to.
#[derive(Drop)]
pub struct Wheel {
    nodes: Nodes,
    moment: Moment,
    /// How many of the last seconds are left to walk: at most 4,096.
    left: u64,
}

impl Model for Wheel {
    ghost use Rattle.tc_wheel.specs.Dues.{Dues};

    ghost Value = { Dues };

    ghost use Rattle.tc_wheel.specs.Turning.{dues_of, IsTurning};

    ghost view = { dues_of };

    ghost invariant = { IsTurning };
}

impl Wheel {
    /// Makes a wheel at moment 0 that holds nothing, without room for slots. It takes memory for
    /// its buckets.
    pub fn new(alloc: Global) -> Result<Wheel, NoMemory>
        ensures { IfOk result (λ w. w ≡ no_dues) }
    {
        let nodes = Ring::new(alloc, SlotDue::NONE)?;
        Ok(Wheel {
            nodes,
            moment: Moment::FIRST,
            left: 0,
        })
    }

    /// Makes room for all slots below `slots`; it never shrinks. A refusal changes nothing.
    pub fn reserve(&mut self, slots: usize) -> Result<(), NoMemory>
        ensures reserved { self.new
            ≡ (if is_ok result then reserved slots self.old else self.old) }
        ensures refused { OnErr result (length self.old.dues < slots) }
    {
        self.nodes.reserve(slots, SlotDue::NONE)
    }

    /// Removes all slots. The moment and the room stay.
    pub fn clear(&mut self)
        ensures { self.new ≡ cleared self.old }
    {
        self.nodes.clear(SlotDue::NONE);
    }

    /// Returns how many slots have room: all below this number.
    pub fn slots(&self) -> usize
        ensures { result ≡ length self.now.dues }
    {
        self.nodes.slots()
    }

    /// Returns whether the slot is held.
    pub fn holds(&self, slot: Slot) -> bool
        ensures { result ≡ holds slot.0 self.now }
    {
        if slot.0 >= self.nodes.slots() {
            return false;
        }
        let at = self.nodes.place(slot);
        self.nodes.node(at).note.moment().is_some()
    }

    /// Adds a slot, which is held until `advance` returns it or `remove` removes it. Its due may
    /// have come already.
    pub fn add(&mut self, slot: Slot, due: Moment)
        requires reserved { slot.0 < length self.old.dues }
        requires free { holds slot.0 self.old ≡ false }
        ensures { self.new ≡ added slot.0 due self.old }
    {
        let at = self.nodes.place(slot);
        self.nodes.note(at, SlotDue::at(due));
        self.nodes.link_behind(list_of(due, self.moment), at);
    }

    /// Removes a slot. Nothing changes if it is not held.
    pub fn remove(&mut self, slot: Slot)
        ensures { self.new ≡ removed slot.0 self.old }
    {
        if self.holds(slot) {
            let at = self.nodes.place(slot);
            self.nodes.unlink(at);
            self.nodes.note(at, SlotDue::NONE);
        }
    }

    /// Removes and returns a slot that is due at the moment; none once none is left. The wheel's
    /// moment never goes back.
    pub fn advance(&mut self, moment: Moment) -> Option<Slot>
        ensures { Gives result moment self.old self.new }
    {
        let now = self.moment.later(moment);
        let passed = now.seconds() - self.moment.seconds();
        self.left = (self.left + passed).min(BUCKETS as u64);
        self.moment = now;
        match find_due(&mut self.nodes, now, &mut self.left, moment) {
            Some(at) => {
                self.nodes.unlink(at);
                self.nodes.note(at, SlotDue::NONE);
                Some(Slot(at - MARKS))
            }
            None => None,
        }
    }
}
