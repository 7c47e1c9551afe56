//! Entries copied into lists.
ghost use Rattle.std.specs.Prelude.{◌≡◌, IfOk};
ghost use Rattle.tc_plain.specs.AreaLists.{areas_of};

use crate::slots::Slots;
use crate::steps::copy_at;
use std::alloc::Global;
use tc_item::NoMemory;
use tc_plain::Areas;
use tc_slru::Area;

impl Slots {
    /// Copies the entries in order. The copies share their data. Fails if memory is refused.
    pub fn copy(&self, alloc: Global) -> Result<Areas, NoMemory>
        ensures { IfOk result (λ areas. areas_of areas ≡ self.now.areas) }
    {
        let _ = &self.index;
        let first = self.lists.slots_in(alloc, Area::Window)?;
        let window = copy_at(alloc, &self.entries, &first)?;
        let second = self.lists.slots_in(alloc, Area::Probation)?;
        let probation = copy_at(alloc, &self.entries, &second)?;
        let third = self.lists.slots_in(alloc, Area::Protected)?;
        let protected = copy_at(alloc, &self.entries, &third)?;
        Ok(Areas {
            window,
            probation,
            protected,
        })
    }
}
