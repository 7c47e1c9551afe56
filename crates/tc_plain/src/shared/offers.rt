//! What storage lines make of their own item and of the item under their key.
ghost use Rattle.std.specs.Prelude.{◌≡◌, ℕ, ◌++◌, length, option_map, IfOk};
ghost use Rattle.tc_item.specs.Weight.{weight_of};
ghost use Rattle.tc_plain.specs.Entries.{with_data};
ghost use Rattle.tc_plain.specs.Storing.{Offered, item_of, offer_by};
ghost use Rattle.tc_plain.specs.Plans.{offer_of, numbered};

use crate::Entry;
use crate::shared::end::End;
use std::alloc::Global;
use tc_grammar::{Head, StoreKind};
use tc_item::exptime::due;
use tc_item::{Blob, Item, KeptDue, Key, Moment, NoMemory, RECORD_WEIGHT};

/// An item to be stored, which has no cas number yet.
#[derive(Drop)]
pub struct Draft {
    /// The client's number, which look-ups return with the data.
    pub flags: u32,
    /// Until when the item will be alive.
    pub due: KeptDue,
    /// The data.
    pub blob: Blob,
}

impl Draft {
    /// Returns the item with this cas number.
    pub fn numbered(self, cas: u64) -> Item
        ensures { result ≡ numbered cas self }
    {
        Item {
            flags: self.flags,
            due: self.due,
            cas,
            blob: self.blob,
        }
    }

    /// Returns what the item will weigh under a key, in bytes: key, data and 64.
    pub(crate) fn weight_under(&self, key: &Key) -> u64
        ensures { result ≡ weight_of key.now (length self.now.blob) }
    {
        key.as_bytes().len() as u64 + self.blob.as_slice().len() as u64 + RECORD_WEIGHT
    }
}

/// What a storage line offers before the item is weighed and numbered: a refusal for what its key
/// holds, or an item to store.
#[derive(Drop)]
pub enum Bid {
    Refused(End),
    Offered(Draft),
}

/// Makes the line's own item. Fails if memory is refused.
fn own_item(head: &Head, blob: &Blob, moment: Moment) -> Result<Draft, NoMemory>
    ensures { IfOk result (λ draft. (cas : ℕ)
        → numbered cas draft ≡ item_of head.now blob.now moment cas) }
{
    Ok(Draft {
        flags: head.flags,
        due: KeptDue::new(due(head.exptime, moment)),
        blob: blob.copy()?,
    })
}

/// Joins the bytes of both. Fails if memory is refused.
fn join(alloc: Global, first: &[u8], second: &[u8]) -> Result<Blob, NoMemory>
    ensures { IfOk result (λ blob. blob ≡ first.now ++ second.now) }
{
    let mut bytes = Vec::with_capacity(alloc, first.len() + second.len())?;
    bytes.extend_from_slice(first)?;
    bytes.extend_from_slice(second)?;
    Blob::new(alloc, bytes)
}

/// Makes the held item with joined data. Fails if memory is refused.
fn joined(alloc: Global, held: &Item, first: &Blob, second: &Blob) -> Result<Draft, NoMemory>
    ensures { IfOk result (λ draft. (cas : ℕ)
        → numbered cas draft ≡ with_data cas (first.now ++ second.now) held.now) }
{
    Ok(Draft {
        flags: held.flags,
        due: held.due.copy(),
        blob: join(alloc, first.as_slice(), second.as_slice())?,
    })
}

/// Returns what a storage line offers, by its kind and by what its key holds at the moment
/// (doc/protocol.txt, "Storage commands"). Fails if memory is refused.
pub fn offer(
    alloc: Global,
    held: Option<&Entry>,
    head: &Head,
    blob: &Blob,
    moment: Moment,
) -> Result<Bid, NoMemory>
    ensures { IfOk result (λ bid. (cas : ℕ)
        → offer_of cas bid ≡ offer_by head.now.kind head.now.cas_unique
        (item_of head.now blob.now moment cas) (option_map (λ e. e.now.item) held.entry)) }
{
    match (head.kind, held) {
        (StoreKind::Set, _) => Ok(Bid::Offered(own_item(head, blob, moment)?)),
        (StoreKind::Add, None) => Ok(Bid::Offered(own_item(head, blob, moment)?)),
        (StoreKind::Replace, Some(_)) => Ok(Bid::Offered(own_item(head, blob, moment)?)),
        (StoreKind::Append, Some(old)) => {
            Ok(Bid::Offered(joined(alloc, &old.item, &old.item.blob, blob)?))
        }
        (StoreKind::Prepend, Some(old)) => {
            Ok(Bid::Offered(joined(alloc, &old.item, blob, &old.item.blob)?))
        }
        (StoreKind::Cas, Some(old)) if old.item.cas == head.cas_unique => {
            Ok(Bid::Offered(own_item(head, blob, moment)?))
        }
        (StoreKind::Cas, Some(_)) => Ok(Bid::Refused(End::Exists)),
        (StoreKind::Cas, None) => Ok(Bid::Refused(End::NotFound)),
        (_, _) => Ok(Bid::Refused(End::NotStored)),
    }
}
