//! The index: slots under tags, in shards.
ghost use Rattle.std.specs.Prelude.{◌≡◌, ℕ, ◌+◌, ◌<◌, ◌≤◌, ◌^◌, Bool, true, IfOk, OnOk, OnErr, length};
ghost use Rattle.tc_index.specs.Tags.{Tells, FindsRight, stands, one_at, shard_of};

use crate::shard::{Shard, Tag};
use std::alloc::Global;
use std::marker::Model;
use std::vec::IntoIter;
use tc_item::{NoMemory, Slot};

/// The most slots, so that 32 bits number them.
const MOST_SLOTS: usize = 4_294_967_296;

/// The most shards, so that eight bits of a tag name one.
const MOST_SHARDS: usize = 256;

/// Slots under tags, in a power of two of shards.
#[derive(Drop)]
pub struct Index {
    shards: Vec<Shard>,
    slots: usize,
    /// The shard that the last insertion used. All others have room for one more slot.
    last: usize,
}

impl Model for Index {
    ghost use Rattle.tc_index.specs.Tags.{Tagged};

    ghost Value = { Tagged };

    ghost use Rattle.tc_index.specs.Shards.{tagged_of, IsIndex};

    ghost view = { tagged_of };

    ghost invariant = { IsIndex };
}

/// Returns the shard of a tag.
fn shard(shards: usize, tag: Tag) -> usize
    requires { 0 < shards }
    ensures value { result ≡ shard_of shards tag.0 }
    ensures within { result < shards }
{
    (tag.0 >> 16) as usize & (shards - 1)
}

impl Index {
    /// Makes an empty index. It has `shards` shards, rounded up to a power of two, and at most 256.
    /// Each takes some 450 bytes. Fails if memory is refused.
    pub fn new(alloc: Global, shards: usize) -> Result<Index, NoMemory>
        ensures none { IfOk result (λ i. (tag slot : ℕ) → stands i tag slot ≡ 0) }
    {
        let count = shards.min(MOST_SHARDS).next_power_of_two();
        let mut made = Vec::with_capacity(alloc, count)?;
        for _ in 0..count {
            made.push_reserved(Shard::new(alloc)?);
        }
        Ok(Index {
            shards: made,
            slots: 0,
            last: 0,
        })
    }

    /// Makes an empty index with as many shards as this one. Fails if memory is refused.
    pub fn fresh(&self, alloc: Global) -> Result<Index, NoMemory>
        ensures none { IfOk result (λ i. (tag slot : ℕ) → stands i tag slot ≡ 0) }
    {
        Index::new(alloc, self.shards.len())
    }

    /// Takes the index apart, so that each shard can be freed by itself.
    pub fn into_shards(self) -> IntoIter<Shard, Global> {
        self.shards.into_iter()
    }

    /// Makes room for one more slot under any tag, and numbers for all slots below `slots`. It
    /// fails if memory is refused, or beyond 2^32 slots, and then changes nothing. At most one
    /// shard grows.
    pub fn reserve(&mut self, slots: usize) -> Result<(), NoMemory>
        ensures stands { (tag slot : ℕ) → stands self.new tag slot ≡ stands self.old tag slot }
        ensures kept { self.old.slots ≤ self.new.slots }
        ensures slots { OnOk result (slots ≤ self.new.slots) }
        ensures room { OnOk result (self.new.has_room ≡ true) }
        ensures slots_on_err { OnErr result (self.new.slots ≡ self.old.slots) }
    {
        if slots > MOST_SLOTS {
            return Err(NoMemory);
        }
        self.shards[self.last].reserve()?;
        self.slots = self.slots.max(slots);
        Ok(())
    }

    /// Removes all slots. The room stays.
    pub fn clear(&mut self)
        ensures none { (tag slot : ℕ) → stands self.new tag slot ≡ 0 }
        ensures slots { self.new.slots ≡ self.old.slots }
        ensures room { self.old.has_room ≡ true → self.new.has_room ≡ true }
    {
        for shard in self.shards.iter_mut() {
            shard.clear();
        }
    }

    /// Returns the allocator of its memory.
    pub fn allocator(&self) -> Global {
        *self.shards.allocator()
    }

    /// Returns a slot under this tag for which `is_right` holds, if there is one.
    pub fn find<F: Fn(Slot) -> bool>(&self, tag: Tag, is_right: F) -> Option<Slot>
        requires { F.IsAlwaysCallable is_right }
        ensures { (right : ℕ → Bool) → Tells (F.post is_right) right
            → FindsRight result tag.0 right self.now }
    {
        self.shards[shard(self.shards.len(), tag)].find(tag, &is_right)
    }

    /// Puts a slot under a tag.
    pub fn insert(&mut self, slot: Slot, tag: Tag)
        requires room { self.old.has_room ≡ true }
        requires within { slot.0 < self.old.slots }
        ensures stands { (t s : ℕ) → stands self.new t s ≡ stands self.old t s + one_at tag.0 slot.0 t s }
        ensures slots { self.new.slots ≡ self.old.slots }
    {
        let at = shard(self.shards.len(), tag);
        self.shards[at].insert(tag, slot);
        self.last = at;
    }

    /// Removes a slot from under its tag.
    pub fn remove(&mut self, slot: Slot, tag: Tag)
        requires { 0 < stands self.old tag.0 slot.0 }
        ensures stands { (t s : ℕ) → stands self.new t s + one_at tag.0 slot.0 t s ≡ stands self.old t s }
        ensures slots { self.new.slots ≡ self.old.slots }
        ensures room { self.old.has_room ≡ true → self.new.has_room ≡ true }
    {
        let at = shard(self.shards.len(), tag);
        self.shards[at].remove(tag, slot);
    }
}
