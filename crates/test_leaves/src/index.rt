//! Worked moves on the index of slots by tag, its growth, and a fresh index.

use std::alloc::Global;
use std::process::Abort;
use std::test::Fail;
use tc_index::{Index, Slot, Tag};
use tc_item::NoMemory;

/// A call of an index.
enum Move {
    /// Puts a slot under a tag, after reserving room for it.
    Insert(usize, u32),
    /// Takes a slot from under its tag.
    Remove(usize, u32),
    /// Reserves room for all slots below this number.
    Reserve(usize),
    Clear,
    /// Looks under a tag for the slot of this number, and expects this result.
    Find(u32, usize, Option<usize>),
}

/// Reserves room for a slot and puts it under a tag.
fn insert(index: &mut Index, slot: Slot, tag: Tag) -> Result<(), NoMemory> {
    index.reserve(slot.0.saturating_add(1))?;
    if slot.0 < usize::MAX {
        index.insert(slot, tag);
    }
    Ok(())
}

/// Takes a slot from under a tag. Returns whether the slot was there.
fn remove(index: &mut Index, slot: Slot, tag: Tag) -> bool {
    match index.find(tag, |other| other.0 == slot.0) {
        Some(found) => {
            index.remove(found, tag);
            found == slot
        }
        None => false,
    }
}

/// Makes one move. Returns whether its result is the expected one; a move that expects nothing
/// always passes.
fn make(index: &mut Index, step: &Move) -> Result<bool, NoMemory> {
    match step {
        Move::Insert(slot, tag) => insert(index, Slot(*slot), Tag(*tag))?,
        Move::Remove(slot, tag) => return Ok(remove(index, Slot(*slot), Tag(*tag))),
        Move::Reserve(slots) => index.reserve(*slots)?,
        Move::Clear => index.clear(),
        Move::Find(tag, right, found) => {
            let right = *right;
            let slot = index.find(Tag(*tag), |slot| slot.0 == right);
            return Ok(slot.map(|slot| slot.0) == *found);
        }
    }
    Ok(true)
}

/// Makes moves on an empty index with this number of shards, rounded up to a power of two.
fn run(rt: &impl Abort, alloc: Global, shards: usize, moves: &[Move]) -> Result<(), NoMemory> {
    let mut index = Index::new(alloc, shards)?;
    let made = make_all(rt, &mut index, moves);
    drop(index);
    made
}

/// Makes moves on `index`, and expects each to pass.
fn make_all(rt: &impl Abort, index: &mut Index, moves: &[Move]) -> Result<(), NoMemory> {
    for (place, step) in moves.iter().enumerate() {
        assert!(rt; make(index, step)?, "move {place}");
    }
    Ok(())
}

/// Guards every `get` and `delete`: a key must be found even if another key shares its tag.
#[test]
fn slots_of_a_tag_are_found_and_removed_by_hand(rt: HostRuntime) -> Result<(), Fail> {
    Ok(run(
        &rt,
        rt.alloc(),
        1,
        &[
            Move::Insert(1, 5),
            Move::Insert(3, 9),
            Move::Insert(0, 5),
            Move::Insert(2, 1),
            Move::Find(5, 0, Some(0)),
            Move::Find(5, 1, Some(1)),
            Move::Find(5, 2, None),
            Move::Find(9, 3, Some(3)),
            Move::Find(1, 2, Some(2)),
            Move::Find(13, 3, None),
            Move::Remove(2, 1),
            Move::Find(1, 2, None),
            Move::Find(5, 1, Some(1)),
            Move::Remove(3, 9),
            Move::Find(5, 0, Some(0)),
            Move::Remove(0, 5),
            Move::Find(5, 1, Some(1)),
            Move::Insert(0, 6),
            Move::Find(6, 0, Some(0)),
        ],
    )?)
}

/// Guards items against loss while the index grows, and `flush_all` against items that outlive it.
#[test]
fn an_index_grows_and_is_cleared(rt: HostRuntime) -> Result<(), Fail> {
    Ok(run(
        &rt,
        rt.alloc(),
        3,
        &[
            Move::Insert(1, 5),
            Move::Insert(3, 9),
            Move::Insert(0, 9),
            Move::Reserve(9),
            Move::Find(5, 1, Some(1)),
            Move::Find(9, 0, Some(0)),
            Move::Insert(8, 0x2_0019),
            Move::Find(0x2_0019, 8, Some(8)),
            Move::Reserve(12),
            Move::Find(0x2_0019, 8, Some(8)),
            Move::Find(9, 3, Some(3)),
            Move::Insert(11, 0x2_0019),
            Move::Find(0x2_0019, 11, Some(11)),
            Move::Find(0x2_0019, 8, Some(8)),
            Move::Find(0x3_0019, 8, None),
            Move::Find(0x19, 8, None),
            Move::Remove(3, 9),
            Move::Find(9, 0, Some(0)),
            Move::Clear,
            Move::Find(9, 0, None),
            Move::Insert(0, 9),
            Move::Find(9, 0, Some(0)),
        ],
    )?)
}

/// Guards `flush_all`: the fresh index must show no old entry, and must keep the shard count.
#[test]
fn a_fresh_index_holds_nothing_in_as_many_shards(rt: HostRuntime) -> Result<(), Fail> {
    let mut index = Index::new(rt.alloc(), 3)?;
    insert(&mut index, Slot(0), Tag(5))?;
    let fresh = index.fresh(rt.alloc())?;
    assert!(rt; fresh.find(Tag(5), |_| true).is_none());
    assert!(rt; fresh.into_shards().len() == 4);
    Ok(())
}
