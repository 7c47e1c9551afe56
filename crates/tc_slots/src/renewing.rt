//! Exchange of the tables in use for others. The old ones are set aside.
//!
//! `mem::replace` overwrites what owns tables, and a call drops its result: an assignment that
//! drops in place costs more to prove (docs/STYLE.md, "What the gate may cost").
ghost use Rattle.std.specs.Prelude.{◌≡◌, ◌<◌, ◌^◌, true, OnOk, OnErr};
ghost use Rattle.tc_model.specs.Areas.{total};
ghost use Rattle.tc_plain.specs.Entries.{weight};
ghost use Rattle.tc_plain.specs.EvictionState.{no_entries};
ghost use Rattle.tc_plain.specs.Soundness.{AreSound};

use crate::slots::Slots;
use std::alloc::Global;
use std::mem;
use tc_item::NoMemory;

impl Slots {
    /// Puts other tables in use, and sets the old ones aside.
    fn exchange(&mut self, others: Slots)
        ensures { self.new ≡ others }
    {
        let old = mem::replace(self, others);
        old.set_aside(self);
    }

    /// Puts new tables in use, with room for one entry and the same limits. A refusal changes
    /// nothing.
    pub(crate) fn begin_anew(&mut self) -> Result<(), NoMemory>
        ensures limits { self.new.limits ≡ self.old.limits }
        ensures areas { OnOk result (self.new.areas ≡ no_entries) }
        ensures room { OnOk result (self.new.has_room ≡ true) }
        ensures unchanged_on_err { OnErr result (self.new ≡ self.old) }
    {
        self.make_room_aside()?;
        let fresh = self.fresh_for(self.allocator(), 1)?;
        self.exchange(fresh);
        Ok(())
    }

    /// Puts smaller tables with the same entries in use. A refusal changes nothing.
    pub fn renew(&mut self) -> Result<(), NoMemory>
        requires sound { AreSound self.old.limits self.old.areas }
        requires sum { total weight self.old.areas < 2 ^ 64 }
        ensures areas { self.new.areas ≡ self.old.areas }
        ensures limits { self.new.limits ≡ self.old.limits }
        ensures unchanged_on_err { OnErr result (self.new ≡ self.old) }
    {
        self.make_room_aside()?;
        let rebuilt = self.rebuilt(self.allocator())?;
        self.exchange(rebuilt);
        Ok(())
    }
}
