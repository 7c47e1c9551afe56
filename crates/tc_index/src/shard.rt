//! One shard: a map from tags to slots, and the further slots of these tags.
ghost use Rattle.std.specs.Prelude.{◌≡◌, ℕ, ◌+◌, ◌<◌, ◌≤◌, ◌^◌, Bool, true, [], count_by, nat_eq, IfOk, OnOk, not};
ghost use Rattle.std.specs.Map.{lookup};
ghost use Rattle.indexmap.specs.IndexMap.{get, spare};
ghost use Rattle.tc_index.specs.Tags.{Tells, IsRight, IsPlaceOf, is_first, is_place, one_at, stands_in};

use indexmap::IndexMap;
use std::alloc::Global;
use std::marker::Model;
use tc_item::{NoMemory, Slot};

/// A full map grows if a rebuild would leave less than one place in this many free. Otherwise it is
/// rebuilt.
const FREE_OF: usize = 16;

/// 32 bits of a key's hash.
#[derive(Clone, Copy, PartialEq, Eq)]
pub struct Tag(pub u32);

/// The slots under the tags of one shard.
#[derive(Drop)]
pub struct Shard {
    /// One slot of each tag that has any.
    first: IndexMap<u32, u32>,
    /// Further slots, each with its tag.
    more: Vec<(u32, u32)>,
    /// How many slots the map had room for when it last grew. After removals it has room for fewer:
    /// the map counts a place that was in use as free only after a rebuild.
    grown_to: usize,
}

impl Model for Shard {
    ghost use Rattle.tc_index.specs.Tags.{TaggedShard};

    ghost Value = { TaggedShard };

    ghost use Rattle.tc_index.specs.Shards.{tagged_shard_of};

    ghost view = { tagged_shard_of };
}

/// Returns the place of a slot under this tag, if it has one.
fn position_of(places: &[(u32, u32)], tag: Tag, slot: Slot) -> Option<usize>
    ensures { IsPlaceOf result tag.0 slot.0 places.now }
{
    for (i, place) in places.iter().enumerate() {
        if place.0 == tag.0 && place.1 as usize == slot.0 {
            return Some(i);
        }
    }
    None
}

/// Returns a slot under this tag for which `is_right` holds, if there is one.
fn find_more<F>(places: &[(u32, u32)], tag: Tag, is_right: &F) -> Option<Slot>
where
    F: Fn(Slot) -> bool,
    requires callable { F.IsAlwaysCallable is_right.now }
    ensures { (right : ℕ → Bool) → Tells (F.post is_right.now) right
        → IsRight result right (λ slot. count_by (is_place tag.0 slot) places.now) }
{
    for place in places {
        if place.0 == tag.0 {
            let slot = Slot(place.1 as usize);
            if is_right(slot) {
                return Some(slot);
            }
        }
    }
    None
}

/// Rebuilds a map's places without memory, if it has room for one more slot. It removes a slot by
/// `retain`, which rebuilds them, and inserts it again.
fn refresh(map: &mut IndexMap<u32, u32>)
    ensures { (q : ℕ) → get nat_eq map.new q ≡ get nat_eq map.old q }
{
    let Some((tag, slot)) = map.get_index(0) else {
        return;
    };
    let (tag, slot) = (*tag, *slot);
    if map.capacity() <= map.len() {
        return;
    }
    map.retain(
        |other: &u32, kept: &mut u32| -> bool
            ensures { (result ≡ not (nat_eq other.now tag)) × (kept.new ≡ kept.old) }
        { *other != tag },
    );
    map.insert(tag, slot).unwrap();
}

/// Makes room for two more slots, one for the next insertion and one for `refresh`. `grown_to` is
/// how many the map had room for when it last grew. Fails if memory is refused.
fn make_room(map: &mut IndexMap<u32, u32>, grown_to: &mut usize) -> Result<(), NoMemory>
    ensures same { (q : ℕ) → get nat_eq map.new q ≡ get nat_eq map.old q }
    ensures room { OnOk result (2 ≤ spare map.new) }
{
    let held = map.len();
    if map.capacity() - held >= 2 {
        return Ok(());
    }
    if held < *grown_to - *grown_to / FREE_OF {
        refresh(map);
    }
    map.reserve(2)?;
    *grown_to = (*grown_to).max(map.capacity());
    Ok(())
}

impl Shard {
    /// Makes an empty shard with room for one slot. Fails if memory is refused.
    pub(crate) fn new(alloc: Global) -> Result<Shard, NoMemory>
        ensures first { IfOk result (λ s. s.first ≡ []) }
        ensures more { IfOk result (λ s. s.more ≡ []) }
        ensures room { IfOk result (λ s. s.has_room ≡ true) }
    {
        let mut shard = Shard {
            first: IndexMap::new(alloc),
            more: Vec::new(alloc),
            grown_to: 0,
        };
        shard.first.reserve(2)?;
        shard.more.reserve(1)?;
        Ok(shard)
    }

    /// Makes room for one more slot. A refusal leaves all slots under their tags.
    pub(crate) fn reserve(&mut self) -> Result<(), NoMemory>
        ensures stands { (t s : ℕ) → stands_in self.new t s ≡ stands_in self.old t s }
        ensures room { OnOk result (self.new.has_room ≡ true) }
    {
        make_room(&mut self.first, &mut self.grown_to)?;
        self.more.reserve(1)?;
        Ok(())
    }

    /// Removes all slots. The room stays.
    pub(crate) fn clear(&mut self)
        ensures first { self.new.first ≡ [] }
        ensures more { self.new.more ≡ [] }
        ensures room { self.old.has_room ≡ true → self.new.has_room ≡ true }
    {
        self.first.clear();
        self.more.clear();
    }

    /// Returns whether the map has this slot under this tag.
    fn is_first(&self, tag: Tag, slot: Slot) -> bool
        ensures { result ≡ is_first (lookup (nat_eq tag.0) self.now.first) slot.0 }
    {
        match self.first.get(&tag.0) {
            Some(first) => *first as usize == slot.0,
            None => false,
        }
    }

    /// Returns a slot under this tag for which `is_right` holds, if there is one.
    pub(crate) fn find<F>(&self, tag: Tag, is_right: &F) -> Option<Slot>
    where
        F: Fn(Slot) -> bool,
        requires callable { F.IsAlwaysCallable is_right.now }
        ensures { (right : ℕ → Bool) → Tells (F.post is_right.now) right
            → IsRight result right (stands_in self.now tag.0) }
    {
        if let Some(slot) = self.first.get(&tag.0) {
            let slot = Slot(*slot as usize);
            if is_right(slot) {
                return Some(slot);
            }
        }
        find_more(&self.more, tag, is_right)
    }

    /// Puts a slot under a tag.
    pub(crate) fn insert(&mut self, tag: Tag, slot: Slot)
        requires room { self.old.has_room ≡ true }
        requires number { slot.0 < 2 ^ 32 }
        ensures { (t s : ℕ) → stands_in self.new t s ≡ stands_in self.old t s + one_at tag.0 slot.0 t s }
    {
        if self.first.contains_key(&tag.0) {
            self.more.push_reserved((tag.0, slot.0 as u32));
        } else {
            self.first.insert(tag.0, slot.0 as u32).unwrap();
        }
    }

    /// Removes a slot from under its tag.
    pub(crate) fn remove(&mut self, tag: Tag, slot: Slot)
        requires { 0 < stands_in self.old tag.0 slot.0 }
        ensures stands { (t s : ℕ) → stands_in self.new t s + one_at tag.0 slot.0 t s ≡ stands_in self.old t s }
        ensures room { self.old.has_room ≡ true → self.new.has_room ≡ true }
    {
        if self.is_first(tag, slot) {
            self.first.swap_remove(&tag.0);
        } else if let Some(at) = position_of(&self.more, tag, slot) {
            self.more.swap_remove(at);
        }
    }
}
