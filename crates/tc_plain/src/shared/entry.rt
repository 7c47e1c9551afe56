//! Items under their keys.
ghost use Rattle.std.specs.Prelude.{◌≡◌, ◌+◌, ◌^◌, ◌<◌, IfOk};
ghost use Rattle.tc_item.specs.Bounds.{longest_key, record_weight};
ghost use Rattle.tc_plain.specs.Entries.{weight, with_item};
ghost use Rattle.tc_plain.specs.AreaLists.{change_of};

use std::alloc::Global;
use tc_item::{Due, Item, KeptDue, Key, NoMemory, RECORD_WEIGHT};
use tc_stats::Hit;

/// An item under its key.
#[derive(Drop)]
pub struct Entry {
    pub key: Key,
    pub item: Item,
}

impl Entry {
    /// Returns what the entry weighs, in bytes: key, data and 64.
    pub fn weight(&self) -> u64
        ensures value { result ≡ weight self.now }
        ensures within { result < 2 ^ 63 + (longest_key + record_weight) }
    {
        self.key.as_bytes().len() as u64 + self.item.blob.as_slice().len() as u64 + RECORD_WEIGHT
    }

    /// Returns the hit that a look-up shows of the entry. It shares the data. Fails if memory is
    /// refused.
    #[inline(always)]
    pub fn show(&self, alloc: Global) -> Result<Hit, NoMemory>
        ensures { IfOk result (λ hit. hit ≡ record {
          key = self.now.key;
          flags = self.now.item.flags;
          blob = self.now.item.blob;
          cas = self.now.item.cas;
        }) }
    {
        Ok(Hit {
            key: self.key.copy(alloc)?,
            flags: self.item.flags,
            blob: self.item.blob.copy()?,
            cas: self.item.cas,
        })
    }

    /// Returns the entry, with another due if one is given.
    pub fn with_due(mut self, due: Option<Due>) -> Entry
        ensures { result ≡ with_item self (change_of due self.item) }
    {
        if let Some(due) = due {
            self.item.due = KeptDue::new(due);
        }
        self
    }

    /// Copies the entry. The copy shares the data. Fails if memory is refused.
    pub fn copy(&self, alloc: Global) -> Result<Entry, NoMemory>
        ensures { IfOk result (λ entry. entry ≡ self.now) }
    {
        let key = self.key.copy(alloc)?;
        let flags = self.item.flags;
        let item = Item {
            flags,
            due: self.item.due.copy(),
            cas: self.item.cas,
            blob: self.item.blob.copy()?,
        };
        Ok(Entry { key, item })
    }
}
