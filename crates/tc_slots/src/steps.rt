//! Steps on index, entries, lists and wheel. Each takes what it needs of the others as arguments.
ghost use Rattle.std.specs.Prelude.{◌≡◌, ℕ, true, IfOk, OnOk, IsSome, length, option_to_list, ◌++◌, ◌∷◌, [], ◌+◌, ◌<◌, ◌≤◌, Some, None};
ghost use Rattle.std.specs.Option.{option_copied};
ghost use Rattle.tc_index.specs.Tags.{stands};
ghost use Rattle.slab.specs.Slab.{get as slab_get, slab_len, HasRoomFor};
ghost use Rattle.tc_slru.specs.SlotLists.{DropsNext};
ghost use Rattle.tc_plain.specs.Entries.{weight, with_item, with_due};
ghost use Rattle.tc_plain.specs.declared.shared.entry.Entry.{Entry};
ghost use Rattle.tc_wheel.specs.Dues.{due_at};
ghost use Rattle.tc_plain.specs.BySlot.{entries_at};
ghost use Rattle.tc_slots.specs.Agreement.{set_at, due_by, tag_of, is_of};
ghost use Rattle.tc_slots.specs.Held.{seen_by, IsVacated, IsTaken, HasRoom, Leaves};

use slab::Slab;
use std::alloc::Global;
use std::hash::{BuildHasher, RandomState};
use tc_index::{Index, Tag};
use tc_item::{Due, KeptDue, Key, MOMENT_LIMIT, Moment, NoMemory, Slot, hash, have_read};
use tc_plain::Entry;
use tc_sketch::SparingSketch;
use tc_slru::Lists;
use tc_wheel::Wheel;

/// How many entries a copy prefetches together.
const AHEAD: usize = 16;

/// Tables get places for at least this many slots.
const FEWEST: usize = 16;

/// Tables with places for fewer slots double when they grow.
const FEW: usize = 4096;

/// All others grow by this part of their places: an eighth.
const PART: usize = 8;

/// Returns the tag of a key: the upper half of its keyed hash.
pub fn key_tag(hasher: &RandomState, key: &Key) -> Tag
    ensures { result.0 ≡ tag_of hasher.now key.now }
{
    Tag((hasher.hash_one(key) >> 32) as u32)
}

/// Returns whether a slot holds an entry of this key.
#[inline(always)]
pub fn is_of(entries: &Slab<Entry>, slot: Slot, key: &Key) -> bool
    ensures { result ≡ is_of key.now (slab_get entries.now slot.0) }
{
    match entries.get(slot.0) {
        Some(entry) => entry.key == *key,
        None => false,
    }
}

/// Puts an entry into a free slot, and the slot under the tag of its key. Returns the slot.
pub fn take_in(
    index: &mut Index,
    hasher: &RandomState,
    entries: &mut Slab<Entry>,
    entry: Entry,
) -> Slot
    requires index { index.old.has_room ≡ true }
    requires numbers { entries.old.capacity ≤ index.old.slots }
    requires entries { HasRoomFor entries.old 1 }
    ensures taken { IsTaken hasher.now entry result.0 index.old index.new entries.old entries.new }
    ensures len { slab_len entries.new ≡ slab_len entries.old + 1 }
{
    let tag = key_tag(hasher, &entry.key);
    let slot = Slot(entries.insert_reserved(entry));
    index.insert(slot, tag);
    slot
}

/// Removes a slot's entry, and the slot from under the tag of its key.
pub fn vacate(index: &mut Index, hasher: &RandomState, entries: &mut Slab<Entry>, slot: Slot)
    requires held { IsSome (slab_get entries.old slot.0) }
    requires stands { (e : Entry) → slab_get entries.old slot.0 ≡ Some e
        → 0 < stands index.old (tag_of hasher.now e.key) slot.0 }
    ensures gone { (e : Entry) → slab_get entries.old slot.0 ≡ Some e
        → IsVacated e slot.0 index.old index.new entries.old entries.new }
    ensures left { (e : Entry) → slab_get entries.old slot.0 ≡ Some e
        → Leaves hasher.now e slot.0 index.old index.new }
{
    if let Some(entry) = entries.try_remove(slot.0) {
        let tag = key_tag(hasher, &entry.key);
        index.remove(slot, tag);
    }
}

/// Returns the moment of a due, if a moment can reach it.
pub fn reached(due: Due) -> Option<Moment>
    ensures { result ≡ due_by due }
{
    match due {
        Due::Never => None,
        Due::At(second) => {
            if second < MOMENT_LIMIT {
                Some(Moment::new(second))
            } else {
                None
            }
        }
    }
}

/// Returns the moment of an entry's due, if a moment can reach it.
pub fn reached_by(entry: &Entry) -> Option<Moment>
    ensures { result ≡ due_by entry.now.item.due }
{
    reached(entry.item.due.get())
}

/// Puts a slot into the wheel until its due, if it has one.
pub fn time(wheel: &mut Wheel, slot: Slot, due: Option<Moment>)
    requires reserved { slot.0 < length wheel.old.dues }
    requires free { due_at wheel.old.dues slot.0 ≡ None }
    ensures dues { (n : ℕ) → due_at wheel.new.dues n ≡ set_at slot.0 due (due_at wheel.old.dues) n }
    ensures long { length wheel.new.dues ≡ length wheel.old.dues }
{
    if let Some(moment) = due {
        wheel.add(slot, moment);
    }
}

/// Returns how often the key of what a slot holds was seen lately, 0 to 15.
pub fn frequency(entries: &Slab<Entry>, sketch: &SparingSketch, slot: Slot) -> u8
    ensures { result ≡ seen_by sketch.now (slab_get entries.now) slot.0 }
{
    let hash = match entries.get(slot.0) {
        Some(entry) => entry.key.fnv_hash(),
        None => hash(&[]),
    };
    sketch.freq(hash)
}

/// Removes the next slot that settle drops from the lists alone, and returns it.
pub fn drop_next(lists: &mut Lists, entries: &Slab<Entry>, sketch: &SparingSketch) -> Option<Slot>
    ensures kept { lists.new ≡ record lists.old { areas = lists.new.areas } }
    ensures next { DropsNext result (seen_by sketch.now
        (slab_get entries.now)) lists.old lists.new }
{
    lists.settle_step(|slot| frequency(entries, sketch, slot))
}

/// Returns how many more places full tables with `places` get.
fn more_places(places: usize) -> usize {
    if places < FEW {
        places.max(FEWEST)
    } else {
        places / PART
    }
}

/// Makes slots for `count` more entries.
fn add_slots(entries: &mut Slab<Entry>, count: usize) -> Result<(), NoMemory>
    ensures slots { entries.new.slots ≡ entries.old.slots }
    ensures room { OnOk result (HasRoomFor entries.new count) }
{
    if entries.capacity() - entries.len() < count {
        entries.reserve_exact(count.max(more_places(entries.capacity())))?;
    }
    Ok(())
}

/// Makes room for `count` more entries in all four tables. Fails if memory is refused.
pub fn grow(
    index: &mut Index,
    entries: &mut Slab<Entry>,
    lists: &mut Lists,
    wheel: &mut Wheel,
    count: usize,
) -> Result<(), NoMemory>
    requires { 0 < count }
    ensures index { (tag n : ℕ) → stands index.new tag n ≡ stands index.old tag n }
    ensures slots { entries.new.slots ≡ entries.old.slots }
    ensures areas { lists.new.areas ≡ lists.old.areas }
    ensures limits { lists.new.limits ≡ lists.old.limits }
    ensures dues { (n : ℕ) → due_at wheel.new.dues n ≡ due_at wheel.old.dues n }
    ensures long { length wheel.old.dues ≤ length wheel.new.dues }
    ensures room { OnOk result (HasRoom index.new entries.new lists.new wheel.new) }
{
    add_slots(entries, count)?;
    let slots = entries.capacity();
    index.reserve(slots)?;
    lists.reserve(slots)?;
    wheel.reserve(slots)?;
    Ok(())
}

/// Replaces the entry of a slot.
pub fn put(entries: &mut Slab<Entry>, slot: Slot, entry: Entry)
    requires { IsSome (slab_get entries.old slot.0) }
    ensures entries { (n : ℕ) → slab_get entries.new n
        ≡ set_at slot.0 (Some entry) (slab_get entries.old) n }
    ensures len { slab_len entries.new ≡ slab_len entries.old }
    ensures capacity { entries.new.capacity ≡ entries.old.capacity }
{
    if let Some(held) = entries.get_mut(slot.0) {
        *held = entry;
    }
}

/// Gives what a slot holds another due.
pub fn put_due(entries: &mut Slab<Entry>, slot: Slot, due: Due)
    requires { IsSome (slab_get entries.old slot.0) }
    ensures entries { (e : Entry) → slab_get entries.old slot.0 ≡ Some e → (n : ℕ)
        → slab_get entries.new n ≡ set_at slot.0 (Some (with_item e (with_due due e.item)))
        (slab_get entries.old) n }
    ensures len { slab_len entries.new ≡ slab_len entries.old }
    ensures capacity { entries.new.capacity ≡ entries.old.capacity }
{
    if let Some(held) = entries.get_mut(slot.0) {
        held.item.due = KeptDue::new(due);
    }
}

/// Returns what a slot's entry weighs, in bytes; 0 if it is empty.
pub fn weight_at(entries: &Slab<Entry>, slot: Slot) -> u64
    ensures { (e : Entry) → slab_get entries.now slot.0 ≡ Some e → result ≡ weight e }
{
    match entries.get(slot.0) {
        Some(entry) => entry.weight(),
        None => 0,
    }
}

/// Appends a copy of what a slot holds. It shares the data. Fails if memory is refused.
pub fn add_copy(
    alloc: Global,
    entries: &Slab<Entry>,
    slot: &Slot,
    copied: &mut Vec<Entry>,
) -> Result<(), NoMemory>
    ensures { OnOk result (copied.new.items
        ≡ copied.old.items ++ option_to_list (slab_get entries.now slot.now.0)) }
{
    if let Some(entry) = entries.get(slot.0) {
        copied.push(entry.copy(alloc)?)?;
    }
    Ok(())
}

/// Prefetches the entries of the next slots from a place on. Copying an entry waits for its memory
/// and after that for its data's: an atomic counts the data's holders, and no later read overtakes
/// it.
fn prefetch(entries: &Slab<Entry>, slots: &[Slot], from: usize) {
    let mut sum: u64 = 0;
    for place in from..from.saturating_add(AHEAD) {
        if let Some(slot) = slots.get(place) {
            sum = sum.wrapping_add(weight_at(entries, *slot));
        }
    }
    have_read(sum);
}

/// Copies the entries of slots, in order. The copies share their data. Fails if memory is refused.
pub fn copy_at(alloc: Global, entries: &Slab<Entry>, slots: &[Slot]) -> Result<Vec<Entry>, NoMemory>
    ensures { IfOk result (λ copied. copied.items ≡ entries_at (slab_get entries.now) slots.now) }
{
    let mut copied = Vec::with_capacity(alloc, slots.len())?;
    for (i, slot) in slots.iter().enumerate() {
        if i % AHEAD == 0 {
            prefetch(entries, slots, i + AHEAD);
        }
        add_copy(alloc, entries, slot, &mut copied)?;
    }
    Ok(copied)
}
