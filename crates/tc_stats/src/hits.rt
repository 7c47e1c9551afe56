//! Hits: what a look-up found, in the order asked.
ghost use Rattle.std.specs.Prelude.{◌≡◌, IfOk};

use std::alloc::Global;
use tc_item::{Blob, Few, Key, NoMemory, TryCopy};

/// An item as a look-up shows it.
#[derive(PartialEq, Eq, Drop)]
pub struct Hit {
    /// The key that was asked for.
    pub key: Key,
    /// The number that the client stored with the data.
    pub flags: u32,
    /// The data, shared with the cache.
    pub blob: Blob,
    /// The item's cas number.
    pub cas: u64,
}

impl Hit {
    /// Returns an equal hit that shares the data.
    pub fn copy(&self, alloc: Global) -> Result<Hit, NoMemory>
        ensures { IfOk result (λ hit. hit ≡ self.now) }
    {
        Ok(Hit {
            key: self.key.copy(alloc)?,
            flags: self.flags,
            blob: self.blob.copy()?,
            cas: self.cas,
        })
    }
}

impl TryCopy for Hit {
    fn try_copy(&self, alloc: Global) -> Result<Hit, NoMemory> {
        self.copy(alloc)
    }
}

/// Hits in the order asked. Most look-ups ask for one key, and a single hit takes no list.
pub type Hits = Few<Hit>;
