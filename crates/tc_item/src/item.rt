//! Items, whether they are alive, and their weight.
ghost use Rattle.std.specs.Prelude.{◌≡◌};
ghost use Rattle.tc_item.specs.Expiry.{is_before};
ghost use Rattle.tc_item.specs.Weight.{weight_of};

use crate::{Blob, KeptDue, Key, Moment, RECORD_WEIGHT};

/// The value stored under a key.
#[derive(Drop)]
pub struct Item {
    /// A number that the client stores with the data and gets back with it.
    pub flags: u32,
    /// Until when the item is alive.
    pub due: KeptDue,
    /// The data, at most `LARGEST_ITEM` bytes.
    pub blob: Blob,
    /// The number of the change that made the data. `cas` compares it.
    pub cas: u64,
}

/// Whether the item is alive at `now`: its due is never, or later than `now`.
pub fn alive(item: &Item, now: Moment) -> bool
    ensures { result ≡ is_before now item.now.due }
{
    item.due.get().is_after(now)
}

/// Returns the weight in bytes of an item: key, `data_len` bytes of data, and 64 for the record.
pub fn weight(key: &Key, data_len: u32) -> u64
    ensures { result ≡ weight_of key.now data_len }
{
    key.as_bytes().len() as u64 + u64::from(data_len) + RECORD_WEIGHT
}
