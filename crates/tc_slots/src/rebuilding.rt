//! The same entries in tables with little spare room.
ghost use Rattle.std.specs.Prelude.{◌≡◌, ◌<◌, ◌^◌, IfOk, OnOk};
ghost use Rattle.tc_model.specs.Areas.{total};
ghost use Rattle.tc_plain.specs.AreaLists.{areas_of};
ghost use Rattle.tc_plain.specs.Entries.{weight};
ghost use Rattle.tc_plain.specs.EvictionState.{no_entries};
ghost use Rattle.tc_plain.specs.Soundness.{AreSound};
ghost use Rattle.tc_slots.specs.Rebuilt.{Fit, put_back};

use crate::slots::Slots;
use std::alloc::Global;
use tc_item::NoMemory;
use tc_plain::{Areas, Entry};
use tc_slru::Area;

/// Puts entries at the front of a list, in their order: the last one first.
fn put_back(slots: &mut Slots, area: Area, mut entries: Vec<Entry>) -> Result<(), NoMemory>
    requires { Fit slots.old.limits entries.items slots.old.areas }
    ensures areas { OnOk result (slots.new.areas
        ≡ put_back area entries.items slots.old.areas) }
    ensures limits { slots.new.limits ≡ slots.old.limits }
{
    while let Some(entry) = entries.pop() {
        slots.make_room()?;
        slots.fill(area, entry);
    }
    Ok(())
}

/// Puts all entries into empty tables.
fn put_all_back(slots: &mut Slots, areas: Areas) -> Result<(), NoMemory>
    requires none { slots.old.areas ≡ no_entries }
    requires sound { AreSound slots.old.limits (areas_of areas) }
    requires sum { total weight (areas_of areas) < 2 ^ 64 }
    ensures areas { OnOk result (slots.new.areas ≡ areas_of areas) }
    ensures limits { slots.new.limits ≡ slots.old.limits }
{
    let Areas {
        window,
        probation,
        protected,
    } = areas;
    put_back(slots, Area::Window, window)?;
    put_back(slots, Area::Probation, probation)?;
    put_back(slots, Area::Protected, protected)
}

impl Slots {
    /// Copies the entries into tables with little spare room, under the same limits. Fails if
    /// memory is refused.
    pub(crate) fn rebuilt(&self, alloc: Global) -> Result<Slots, NoMemory>
        requires sound { AreSound self.now.limits self.now.areas }
        requires sum { total weight self.now.areas < 2 ^ 64 }
        ensures areas { IfOk result (λ s. s.areas ≡ self.now.areas) }
        ensures limits { IfOk result (λ s. s.limits ≡ self.now.limits) }
    {
        let areas = self.copy(alloc)?;
        let mut rebuilt = self.fresh_for(alloc, self.count().max(1))?;
        put_all_back(&mut rebuilt, areas)?;
        Ok(rebuilt)
    }
}
