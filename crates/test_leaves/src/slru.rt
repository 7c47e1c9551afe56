//! Worked moves on window, probation and protected, and refusals of memory.

ghost use Rattle.std.specs.Prelude.{◌+◌, ◌<◌, ◌^◌, IsTrue};
ghost use Rattle.tc_model.specs.Areas.{total};
ghost use Rattle.tc_slru.specs.Slots.{weigh};

use std::alloc::Global;
use std::process::Abort;
use std::test::Fail;
use tc_item::NoMemory;
use tc_slru::{Area, Lists, Slot};

/// The limit on each area's weight and on an item's weight in these tests.
const FEW: u64 = 1 << 40;

/// Returns whether the areas with one more item of this weight stay far below 2^64.
fn has_room(lists: &Lists, weight: u64) -> bool
    ensures { IsTrue result → total weigh lists.now.areas + weight < 2 ^ 64 }
{
    let held = lists.weights();
    held.window < FEW && held.probation < FEW && held.protected < FEW && weight < FEW
}

/// Puts a slot into the window. Aborts unless the slot is free and the weight is allowed.
fn push(rt: &impl Abort, lists: &mut Lists, slot: usize, weight: u64) {
    let is_free = slot < lists.slots() && !lists.holds(Slot(slot));
    assert!(rt;
        is_free && weight <= lists.heaviest() && has_room(lists, weight),
        "slot {slot}"
    );
    lists.push(Area::Window, Slot(slot), weight);
}

/// Accesses a slot, with its new weight. Aborts unless the slot is held and the weight is allowed.
#[tactic(auto, using(tc_slru::proofs::Gone::without_slot_weighs_less))]
fn access(rt: &impl Abort, lists: &mut Lists, slot: usize, weight: u64) {
    let is_held = lists.holds(Slot(slot));
    assert!(rt;
        is_held && weight <= lists.heaviest() && has_room(lists, weight),
        "slot {slot}"
    );
    lists.access(Slot(slot), weight);
}

/// Takes a slot out. Aborts unless it is held.
fn remove(rt: &impl Abort, lists: &mut Lists, slot: usize) {
    assert!(rt; lists.holds(Slot(slot)), "slot {slot} is held");
    lists.remove(Slot(slot));
}

/// Makes one settle step, by how often each slot was seen. Returns the number of the slot it drops.
fn dropped(lists: &mut Lists, seen: &[u8]) -> Option<usize> {
    let next = lists.settle_step(|slot| seen.get(slot.0).copied().unwrap_or(0));
    next.map(|slot| slot.0)
}

/// Returns whether window, probation and protected have these weights.
fn weighs(lists: &Lists, window: u64, probation: u64, protected: u64) -> bool {
    let weights = lists.weights();
    weights.window == window && weights.probation == probation && weights.protected == protected
}

/// A call of the lists, or an expectation.
enum Move {
    /// Puts a slot of this weight into the window.
    Push(usize, u64),
    /// Accesses a slot, with its new weight.
    Access(usize, u64),
    Remove(usize),
    /// Takes all slots out.
    Clear,
    /// Sets how often the slot was seen.
    Seen(usize, u8),
    /// Makes a settle step, and expects it to drop this slot or none.
    Settle(Option<usize>),
    /// Expects these weights of window, probation and protected.
    Weigh(u64, u64, u64),
    /// Expects the slot to be held, or not.
    Holds(usize, bool),
}

/// Sets how often a slot was seen.
fn note(seen: &mut [u8], slot: usize, times: u8) {
    if let Some(count) = seen.get_mut(slot) {
        *count = times;
    }
}

/// Makes one move.
fn make(rt: &impl Abort, lists: &mut Lists, seen: &mut [u8], step: &Move, place: usize) {
    match step {
        Move::Push(slot, weight) => push(rt, lists, *slot, *weight),
        Move::Access(slot, weight) => access(rt, lists, *slot, *weight),
        Move::Remove(slot) => remove(rt, lists, *slot),
        Move::Clear => lists.clear(),
        Move::Seen(slot, times) => note(seen, *slot, *times),
        Move::Settle(gone) => {
            assert!(rt; dropped(lists, seen) == *gone, "move {place}");
        }
        Move::Weigh(window, probation, protected) => {
            assert!(rt;
                weighs(lists, *window, *probation, *protected),
                "move {place}"
            );
        }
        Move::Holds(slot, held) => {
            assert!(rt; lists.holds(Slot(*slot)) == *held, "move {place}");
        }
    }
}

/// Makes moves on lists. Each of five slots starts as seen once.
fn make_all(rt: &impl Abort, lists: &mut Lists, moves: &[Move]) {
    let mut seen = [1; 5];
    for (place, step) in moves.iter().enumerate() {
        make(rt, lists, &mut seen, step, place);
    }
}

/// Makes moves on empty lists with these limits on the areas' weights.
fn play(
    rt: &impl Abort,
    alloc: Global,
    window: u64,
    main: u32,
    protected: u64,
    moves: &[Move],
) -> Result<(), Fail> {
    let lists = Lists::new(alloc, window, u64::from(main), protected)?;
    Ok(play_on(rt, lists, moves)?)
}

/// Makes moves on these lists, and drops them.
fn play_on(rt: &impl Abort, mut lists: Lists, moves: &[Move]) -> Result<(), NoMemory> {
    let played = make_in_room(rt, &mut lists, moves);
    drop(lists);
    played
}

/// Reserves room for five slots, and makes moves.
fn make_in_room(rt: &impl Abort, lists: &mut Lists, moves: &[Move]) -> Result<(), NoMemory> {
    lists.reserve(5)?;
    make_all(rt, lists, moves);
    Ok(())
}

/// Slots 0 to 3 are called a, b, c and d.
const FIVE_EVICTIONS: [Move; 30] = [
    Move::Push(0, 30065),
    Move::Settle(None),
    Move::Push(1, 30065),
    Move::Settle(None),
    // c was seen as often as a
    Move::Push(2, 30065),
    Move::Settle(Some(2)),
    Move::Settle(None),
    // c was seen more often than a
    Move::Seen(2, 2),
    Move::Push(2, 30065),
    Move::Settle(Some(0)),
    Move::Settle(None),
    Move::Access(1, 30065),
    Move::Access(1, 30065),
    Move::Access(1, 30065),
    Move::Weigh(0, 30065, 30065),
    // a was seen as often as c
    Move::Seen(1, 4),
    Move::Seen(0, 2),
    Move::Push(0, 30065),
    Move::Settle(Some(0)),
    // d was seen less often than c
    Move::Push(3, 30065),
    Move::Settle(Some(3)),
    // a was seen more often than c
    Move::Seen(0, 3),
    Move::Push(0, 30065),
    Move::Settle(Some(2)),
    Move::Settle(None),
    Move::Weigh(0, 30065, 30065),
    Move::Holds(0, true),
    Move::Holds(1, true),
    Move::Holds(2, false),
    Move::Holds(3, false),
];

/// Guards the choice of the victim: a popular item must win over one that is seen less often.
#[test]
fn five_evictions_as_worked_by_hand(rt: HostRuntime) -> Result<(), Fail> {
    play(&rt, rt.alloc(), 655, 64881, 51904, &FIVE_EVICTIONS)
}

/// The last of main leaves first: 0, 2, and 1, which was accessed.
const ALL_OF_MAIN: [Move; 14] = [
    Move::Push(0, 20),
    Move::Settle(None),
    Move::Push(1, 20),
    Move::Settle(None),
    Move::Push(2, 20),
    Move::Settle(None),
    Move::Access(1, 20),
    Move::Seen(3, 2),
    Move::Push(3, 100),
    Move::Settle(Some(0)),
    Move::Settle(Some(2)),
    Move::Settle(Some(1)),
    Move::Settle(None),
    Move::Weigh(0, 100, 0),
];

/// Guards large items: one that fits in main alone must be admitted over less popular ones.
#[test]
fn a_candidate_as_heavy_as_main_drops_all_of_it(rt: HostRuntime) -> Result<(), Fail> {
    play(&rt, rt.alloc(), 10, 100, 80, &ALL_OF_MAIN)
}

const VICTIMS_IN_PROBATION: [Move; 15] = [
    Move::Push(0, 25),
    Move::Settle(None),
    Move::Push(1, 25),
    Move::Settle(None),
    Move::Push(2, 25),
    Move::Settle(None),
    Move::Push(3, 25),
    Move::Settle(None),
    Move::Access(0, 25),
    Move::Seen(4, 2),
    Move::Push(4, 40),
    Move::Settle(Some(1)),
    Move::Settle(Some(2)),
    Move::Settle(None),
    Move::Weigh(0, 65, 25),
];

/// Guards items that were hit again: they stay as long as probation can make the room.
#[test]
fn victims_in_probation_leave_protected_alone(rt: HostRuntime) -> Result<(), Fail> {
    play(&rt, rt.alloc(), 10, 100, 80, &VICTIMS_IN_PROBATION)
}

/// Slots 0 to 2 are accessed in this order, so 3, 0 and 1 are the last of main.
const VICTIMS_IN_PROTECTED: [Move; 24] = [
    Move::Push(0, 25),
    Move::Settle(None),
    Move::Push(1, 25),
    Move::Settle(None),
    Move::Push(2, 25),
    Move::Settle(None),
    Move::Push(3, 25),
    Move::Settle(None),
    Move::Access(0, 25),
    Move::Access(1, 25),
    Move::Access(2, 25),
    Move::Weigh(0, 25, 75),
    // slot 1 was seen as often as slot 4, so slot 4 is dropped
    Move::Seen(4, 2),
    Move::Seen(1, 2),
    Move::Push(4, 60),
    Move::Settle(Some(4)),
    Move::Weigh(0, 25, 75),
    // slot 1 was seen less often: three victims that weigh 75 make room for 60
    Move::Seen(4, 3),
    Move::Push(4, 60),
    Move::Settle(Some(3)),
    Move::Settle(Some(0)),
    Move::Settle(Some(1)),
    Move::Settle(None),
    Move::Weigh(0, 60, 25),
];

/// Guards items in protected: a candidate takes their room only if every victim is less popular.
#[test]
fn victims_in_protected_go_after_those_in_probation(rt: HostRuntime) -> Result<(), Fail> {
    play(&rt, rt.alloc(), 10, 100, 80, &VICTIMS_IN_PROTECTED)
}

/// Slot 1 was seen as often as the candidate, slot 3.
const SEEN_AS_OFTEN: [Move; 12] = [
    Move::Seen(1, 3),
    Move::Seen(3, 3),
    Move::Push(0, 30),
    Move::Settle(None),
    Move::Push(1, 30),
    Move::Settle(None),
    Move::Push(2, 30),
    Move::Settle(None),
    Move::Push(3, 60),
    Move::Settle(Some(3)),
    Move::Settle(None),
    Move::Weigh(0, 90, 0),
];

/// Guards popular items: a heavy candidate must beat each of its victims, or none leaves.
#[test]
fn one_victim_seen_as_often_keeps_the_candidate_out(rt: HostRuntime) -> Result<(), Fail> {
    play(&rt, rt.alloc(), 10, 100, 80, &SEEN_AS_OFTEN)
}

/// Slot 1 is demoted before slot 2.
const HEAVIER_THAN_PROTECTED: [Move; 16] = [
    Move::Push(0, 30),
    Move::Settle(None),
    Move::Push(1, 30),
    Move::Settle(None),
    Move::Push(2, 50),
    Move::Settle(None),
    Move::Access(1, 30),
    Move::Weigh(0, 80, 30),
    Move::Access(2, 50),
    Move::Weigh(0, 110, 0),
    Move::Seen(3, 2),
    Move::Push(3, 120),
    Move::Settle(Some(0)),
    Move::Settle(Some(1)),
    Move::Settle(Some(2)),
    Move::Settle(None),
];

/// Guards a large item that is hit: it must not be the next victim because protected cannot hold
/// it.
#[test]
fn an_item_heavier_than_protected_goes_back_to_the_front_of_probation(
    rt: HostRuntime,
) -> Result<(), Fail> {
    play(&rt, rt.alloc(), 10, 120, 40, &HEAVIER_THAN_PROTECTED)
}

/// At the end slot 1 is the window's last, and main has room for it.
const WITHIN_THE_WINDOW: [Move; 7] = [
    Move::Push(0, 10),
    Move::Push(1, 10),
    Move::Access(0, 25),
    Move::Weigh(35, 0, 0),
    Move::Push(2, 20),
    Move::Settle(None),
    Move::Weigh(45, 10, 0),
];

/// Guards the budget: an item that grows while it is new must count with its new weight.
#[test]
fn an_access_in_the_window_stays_there_and_takes_its_new_weight(
    rt: HostRuntime,
) -> Result<(), Fail> {
    play(&rt, rt.alloc(), 50, 100, 80, &WITHIN_THE_WINDOW)
}

/// Slot 5 is beyond the lists' room.
const REMOVAL: [Move; 12] = [
    Move::Push(0, 20),
    Move::Push(1, 5),
    Move::Settle(None),
    Move::Weigh(5, 20, 0),
    Move::Holds(0, true),
    Move::Remove(0),
    Move::Holds(0, false),
    Move::Holds(1, true),
    Move::Holds(5, false),
    Move::Weigh(5, 0, 0),
    Move::Push(0, 30),
    Move::Weigh(35, 0, 0),
];

/// Guards the budget: deleted items must give their weight back, and their slots must serve again.
#[test]
fn a_removed_slot_is_free_and_weighs_nothing(rt: HostRuntime) -> Result<(), Fail> {
    play(&rt, rt.alloc(), 10, 100, 80, &REMOVAL)
}

/// Slot 0 moves to probation and slot 1 stays in the window. Slot 0 is pushed again after the
/// clear.
const CLEARED: [Move; 9] = [
    Move::Push(0, 20),
    Move::Push(1, 5),
    Move::Settle(None),
    Move::Clear,
    Move::Holds(0, false),
    Move::Holds(1, false),
    Move::Weigh(0, 0, 0),
    Move::Push(0, 30),
    Move::Weigh(30, 0, 0),
];

/// Guards the budget after `flush_all`: flushed items must neither weigh nor block their slots.
#[test]
fn cleared_lists_hold_nothing_and_take_slots_again(rt: HostRuntime) -> Result<(), Fail> {
    play(&rt, rt.alloc(), 10, 100, 80, &CLEARED)
}

/// Reserves more room than there is memory, and less room than there is. Neither changes anything.
fn expect_room(rt: &impl Abort, lists: &mut Lists) -> Result<(), NoMemory> {
    lists.reserve(2)?;
    push(rt, lists, 0, 20);
    assert!(rt; lists.reserve(1 << 60) == Err(NoMemory));
    assert!(rt; lists.reserve(usize::MAX) == Err(NoMemory));
    assert!(rt; lists.slots() == 2 && lists.holds(Slot(0)) && weighs(lists, 20, 0, 0));
    assert!(rt;
        lists.reserve(1).is_ok() && lists.slots() == 2,
        "room is never taken away"
    );
    Ok(())
}

/// Guards a user's items when the machine is out of memory: a refused `set` leaves the lists
/// intact.
#[test]
fn a_refused_reserve_changes_nothing(rt: HostRuntime) -> Result<(), Fail> {
    let mut lists = Lists::new(rt.alloc(), 10, 100, 80)?;
    let asked = expect_room(&rt, &mut lists);
    drop(lists);
    Ok(asked?)
}
