//! Worked moves on the expiry wheel, and refusals of memory.

use std::alloc::Global;
use std::process::Abort;
use std::test::Fail;
use tc_item::{Moment, NoMemory};
use tc_wheel::{Slot, Wheel};

/// A call of a wheel.
enum Move {
    /// Holds a slot that is due at this second.
    Add(usize, u64),
    Remove(usize),
    /// Releases all slots.
    Clear,
    /// Advances to this second, and expects this slot or none.
    Advance(u64, Option<usize>),
    /// Expects the slot to be held, or not.
    Holds(usize, bool),
}

/// Returns the moment of this second, or the last moment if there is none.
fn at(second: u64) -> Moment {
    Moment::try_new(second).unwrap_or(Moment::LAST)
}

/// Adds a slot. Aborts unless it has room and is not held.
fn add(rt: &impl Abort, wheel: &mut Wheel, slot: usize, due: u64) {
    assert!(rt; slot < wheel.slots() && !wheel.holds(Slot(slot)));
    wheel.add(Slot(slot), at(due));
}

/// Advances to this second. Returns the number of a slot that is due.
fn due(wheel: &mut Wheel, second: u64) -> Option<usize> {
    wheel.advance(at(second)).map(|slot| slot.0)
}

/// Makes one move.
fn make(rt: &impl Abort, wheel: &mut Wheel, step: &Move, place: usize) {
    match step {
        Move::Add(slot, second) => add(rt, wheel, *slot, *second),
        Move::Remove(slot) => wheel.remove(Slot(*slot)),
        Move::Clear => wheel.clear(),
        Move::Advance(second, given) => {
            assert!(rt; due(wheel, *second) == *given, "move {place}");
        }
        Move::Holds(slot, held) => {
            assert!(rt; wheel.holds(Slot(*slot)) == *held, "move {place}");
        }
    }
}

/// Returns an empty wheel with room for this many slots.
fn empty(alloc: Global, slots: usize) -> Result<Wheel, NoMemory> {
    let mut wheel = Wheel::new(alloc)?;
    wheel.reserve(slots)?;
    Ok(wheel)
}

/// Makes moves on an empty wheel with room for three slots.
fn play(rt: &impl Abort, alloc: Global, moves: &[Move]) -> Result<(), Fail> {
    let mut wheel = empty(alloc, 3)?;
    for (place, step) in moves.iter().enumerate() {
        make(rt, &mut wheel, step, place);
    }
    Ok(())
}

/// The dues of slots 0 and 1 lie 4,096 seconds apart, so both are in one bucket.
const IN_THEIR_SECOND: [Move; 10] = [
    Move::Add(0, 5),
    Move::Add(1, 4101),
    Move::Add(2, 6),
    Move::Advance(4, None),
    Move::Advance(5, Some(0)),
    Move::Advance(5, None),
    Move::Advance(4100, Some(2)),
    Move::Advance(4100, None),
    Move::Advance(4101, Some(1)),
    Move::Advance(4101, None),
];

/// Guards expiry: an item must leave in the second of its due, neither earlier nor later.
#[test]
fn slots_are_given_in_the_second_of_their_due(rt: HostRuntime) -> Result<(), Fail> {
    play(&rt, rt.alloc(), &IN_THEIR_SECOND)
}

/// Slot 7 is beyond the wheel's room, so removing it changes nothing.
const REMOVED: [Move; 6] = [
    Move::Add(1, 9),
    Move::Holds(1, true),
    Move::Remove(1),
    Move::Remove(7),
    Move::Advance(9, None),
    Move::Holds(1, false),
];

/// Guards an item stored in a reused slot: the old item's due must not expire it.
#[test]
fn a_removed_slot_is_not_given(rt: HostRuntime) -> Result<(), Fail> {
    play(&rt, rt.alloc(), &REMOVED)
}

/// At the clear, slot 0 is already due and slot 1 is not. Slot 1 is added again afterwards.
const CLEARED: [Move; 8] = [
    Move::Advance(10, None),
    Move::Add(0, 9),
    Move::Add(1, 20),
    Move::Clear,
    Move::Holds(0, false),
    Move::Advance(20, None),
    Move::Add(1, 30),
    Move::Advance(30, Some(1)),
];

/// Guards items stored after `flush_all`: no due from before it may expire them.
#[test]
fn a_cleared_wheel_gives_nothing_and_takes_slots_again(rt: HostRuntime) -> Result<(), Fail> {
    play(&rt, rt.alloc(), &CLEARED)
}

const DUE_ALREADY: [Move; 6] = [
    Move::Advance(10_000, None),
    Move::Add(0, 9_000),
    Move::Add(1, 3),
    Move::Advance(2, None),
    Move::Advance(8_999, Some(1)),
    Move::Advance(10_000, Some(0)),
];

/// Guards memory: an item stored with a due in the past must still leave.
#[test]
fn a_slot_that_is_due_already_is_given_at_its_due_or_later(rt: HostRuntime) -> Result<(), Fail> {
    play(&rt, rt.alloc(), &DUE_ALREADY)
}

/// Adds forty slots whose dues span almost all moments, and expects all of them at the last moment.
fn expect_all(rt: &impl Abort, wheel: &mut Wheel) {
    for slot in 0..40 {
        add(rt, wheel, slot, slot as u64 * 27_487_790_694);
    }
    for _ in 0..40 {
        assert!(rt; due(wheel, 1_099_511_627_775).is_some());
    }
    assert!(rt; due(wheel, 1_099_511_627_775).is_none());
}

/// Guards memory after a long idle time: one jump of the clock must expire every due item.
#[test]
fn a_jump_to_the_last_moment_gives_all(rt: HostRuntime) -> Result<(), Fail> {
    let mut wheel = empty(rt.alloc(), 40)?;
    expect_all(&rt, &mut wheel);
    Ok(())
}

/// Reserves more room than there is memory, and expects the old room to stay.
fn expect_room(rt: &impl Abort, wheel: &mut Wheel) {
    assert!(rt; wheel.reserve(1 << 58) == Err(NoMemory) && wheel.slots() == 2);
    assert!(rt; wheel.reserve(usize::MAX) == Err(NoMemory) && wheel.slots() == 2);
}

/// Guards a user's items when the machine is out of memory: a refused `set` leaves the wheel
/// intact.
#[test]
fn a_refused_reserve_changes_nothing(rt: HostRuntime) -> Result<(), Fail> {
    let mut wheel = empty(rt.alloc(), 2)?;
    expect_room(&rt, &mut wheel);
    Ok(())
}
