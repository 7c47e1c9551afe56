//! Tests of what no clause says of outcomes, hits and counters: counts by hand, and each call with
//! memory to spare. The rows of `stats` are in examples/scripts.rows.

use crate::fixtures::{Found, command, expect_number, hit, hits, push_hit};
use std::alloc::Global;
use std::process::Abort;
use std::test::Fail;
use tc_item::NoMemory;
use tc_stats::{Counters, Hits, Outcome, Statistics};

/// Three hits, two of them of one key, with the cas numbers 1 to 3.
const FOUND: [Found; 3] = [
    ("a", "data", 7, 1),
    ("b", "data", 7, 2),
    ("a", "data", 7, 3),
];

/// Expects hits to have these cas numbers.
fn expect_cas(rt: &impl Abort, hits: &Hits, wanted: &[u64]) {
    expect_number(rt, hits.len() as u64, wanted.len() as u64, "len");
    for (hit, cas) in hits.as_slice().iter().zip(wanted) {
        expect_number(rt, hit.cas, *cas, "cas");
    }
}

/// Expects the three hits, in the list and in a copy of it.
fn expect_three(rt: &(impl AllocGlobal + Abort), hits: &Hits) -> Result<(), NoMemory> {
    expect_cas(rt, hits, &[1, 2, 3]);
    let copied = hits.copy(rt.alloc())?;
    expect_cas(rt, &copied, &[1, 2, 3]);
    Ok(())
}

/// Guards `get` with several keys: values come in the order asked, and a key asked twice comes
/// twice.
#[test]
fn hits_stand_in_the_order_pushed(rt: HostRuntime) -> Result<(), Fail> {
    assert!(rt; Hits::new().is_empty());
    expect_three(&rt, &hits(rt.alloc(), &FOUND)?)?;
    Ok(())
}

/// Guards the audit's journal: kept hits must not change with the list they were copied from.
#[test]
fn a_hit_pushed_after_a_copy_is_not_in_the_copy(rt: HostRuntime) -> Result<(), Fail> {
    let mut found = hits(rt.alloc(), &FOUND)?;
    let copied = found.copy(rt.alloc())?;
    push_hit(rt.alloc(), &mut found, &("c", "data", 7, 4))?;
    expect_cas(&rt, &copied, &[1, 2, 3]);
    expect_cas(&rt, &found, &[1, 2, 3, 4]);
    Ok(())
}

/// Guards the order of values if hits are made from a list at once.
#[test]
fn hits_stand_as_in_the_list_that_they_were_in(rt: HostRuntime) -> Result<(), Fail> {
    let mut found = Vec::new(rt.alloc());
    for (name, data, flags, cas) in &FOUND {
        found.push(hit(rt.alloc(), name, data, *flags, *cas)?)?;
    }
    expect_three(&rt, &Hits::from_vec(rt.alloc(), found)?)?;
    Ok(())
}

/// Counters that all differ, so that an exchange of two shows.
const COUNTERS: Counters = Counters {
    curr_items: 1,
    total_items: 2,
    bytes: 66,
    cmd_get: 4,
    cmd_set: 5,
    cmd_flush: 6,
    cmd_touch: 7,
    get_hits: 8,
    get_misses: 9,
    delete_misses: 10,
    delete_hits: 11,
    incr_misses: 12,
    incr_hits: 13,
    decr_misses: 14,
    decr_hits: 15,
    cas_misses: 16,
    cas_hits: 17,
    cas_badval: 18,
    touch_hits: 19,
    touch_misses: 20,
    evictions: 21,
    limit_maxbytes: 65536,
    item_size_max: 1048576,
    store_too_large: 24,
};

/// Expects these counters.
fn expect_counters(rt: &impl Abort, got: &Counters, want: &Counters) {
    assert!(rt; got == want, "{got:?}");
}

/// Guards `stats`: the boxed counters must be those of the cache, each in its own place.
#[test]
fn boxed_counters_are_what_was_put_in(rt: HostRuntime) -> Result<(), Fail> {
    let mut statistics = Statistics::new(rt.alloc(), Counters::new())?;
    statistics.set(COUNTERS);
    let copied = statistics.copy(rt.alloc())?;
    expect_counters(&rt, copied.counters(), &COUNTERS);
    Ok(())
}

/// Outcomes that hold no data.
const OUTCOMES: [Outcome; 12] = [
    Outcome::Stored,
    Outcome::NotStored,
    Outcome::Exists,
    Outcome::NotFound,
    Outcome::Deleted,
    Outcome::Touched,
    Outcome::Number(5),
    Outcome::Done,
    Outcome::Version,
    Outcome::TooLarge,
    Outcome::NotNumeric,
    Outcome::CasWorn,
];

/// Expects a copy to succeed.
fn expect_copied(rt: &(impl AllocGlobal + Abort), outcome: &Outcome) {
    assert!(rt; outcome.copy(rt.alloc()).is_ok());
}

/// Expects a copy of each outcome to succeed.
fn expect_all_copied(rt: &(impl AllocGlobal + Abort), outcomes: &[Outcome]) {
    for outcome in outcomes {
        expect_copied(rt, outcome);
    }
}

/// Guards the audit's journal, which must keep every kind of outcome.
#[test]
fn outcomes_that_hold_no_data_are_copied(rt: HostRuntime) {
    expect_all_copied(&rt, &OUTCOMES);
}

/// Returns the outcome of a look-up that finds these hits.
pub fn look_up(alloc: Global, found: &[Found]) -> Result<Outcome, Fail> {
    Ok(Outcome::Values(hits(alloc, found)?))
}

/// Returns the outcome of `stats` with these counters.
pub fn stats_of(alloc: Global, counters: &Counters) -> Result<Outcome, NoMemory> {
    Ok(Outcome::Stats(Statistics::new(alloc, *counters)?))
}

/// Guards the audit's journal, which must keep hits and counters too.
#[test]
fn outcomes_that_hold_something_are_copied(rt: HostRuntime) -> Result<(), Fail> {
    expect_copied(&rt, &look_up(rt.alloc(), &FOUND)?);
    expect_copied(&rt, &stats_of(rt.alloc(), &COUNTERS)?);
    Ok(())
}

/// Counts a command with this outcome.
fn note(alloc: Global, counters: &mut Counters, said: &str, outcome: &Outcome) -> Result<(), Fail> {
    match command(alloc, said) {
        Ok(command) => counters.note(&command, outcome),
        Err(fail) => return Err(fail),
    }
    Ok(())
}

/// Counts a look-up that found these hits.
fn note_look_up(
    alloc: Global,
    counters: &mut Counters,
    said: &str,
    found: &[Found],
) -> Result<(), Fail> {
    let outcome = look_up(alloc, found)?;
    note(alloc, counters, said, &outcome)
}

/// One hit.
const ONE: [Found; 1] = [("k", "x", 0, 1)];

/// A command, its outcome, and how often it is counted.
type Noted = (&'static str, Outcome, u32);

/// Commands to be counted, with different numbers of times for outcomes that are easily confused.
const NOTED: [Noted; 20] = [
    ("set k 0 0 1\r\nx\r\n", Outcome::Stored, 1),
    ("add k 0 0 1\r\nx\r\n", Outcome::NotStored, 1),
    ("append k 0 0 1\r\nx\r\n", Outcome::TooLarge, 2),
    ("replace k 0 0 1\r\nx\r\n", Outcome::CasWorn, 1),
    ("cas k 0 0 1 5\r\nx\r\n", Outcome::NotFound, 3),
    ("cas k 0 0 1 5\r\nx\r\n", Outcome::Stored, 4),
    ("cas k 0 0 1 5\r\nx\r\n", Outcome::Exists, 5),
    ("touch k 5\r\n", Outcome::Touched, 2),
    ("touch k 5\r\n", Outcome::NotFound, 1),
    ("delete k\r\n", Outcome::NotFound, 1),
    ("delete k\r\n", Outcome::Deleted, 2),
    ("incr k 1\r\n", Outcome::NotFound, 3),
    ("incr k 1\r\n", Outcome::Number(7), 4),
    ("incr k 1\r\n", Outcome::NotNumeric, 1),
    ("decr k 1\r\n", Outcome::NotFound, 5),
    ("decr k 1\r\n", Outcome::Number(6), 6),
    ("decr k 1\r\n", Outcome::CasWorn, 1),
    ("flush_all\r\n", Outcome::Done, 7),
    ("verbosity 1\r\n", Outcome::Done, 1),
    ("version\r\n", Outcome::Version, 1),
];

/// Counts each row's command as often as the row says.
fn note_all(alloc: Global, counters: &mut Counters, rows: &[Noted]) -> Result<(), Fail> {
    for (said, outcome, times) in rows {
        for _ in 0..*times {
            note(alloc, counters, said, outcome)?;
        }
    }
    Ok(())
}

/// The counters after `NOTED`, a `get` that found one of three keys, and a `gats` that found one of
/// two.
const COUNTED: Counters = Counters {
    curr_items: 0,
    total_items: 5,
    bytes: 0,
    cmd_get: 5,
    cmd_set: 17,
    cmd_flush: 7,
    cmd_touch: 5,
    get_hits: 2,
    get_misses: 3,
    delete_misses: 1,
    delete_hits: 2,
    incr_misses: 3,
    incr_hits: 4,
    decr_misses: 5,
    decr_hits: 6,
    cas_misses: 3,
    cas_hits: 4,
    cas_badval: 5,
    touch_hits: 3,
    touch_misses: 2,
    evictions: 0,
    limit_maxbytes: 0,
    item_size_max: 0,
    store_too_large: 2,
};

/// Counts `NOTED` and two look-ups. Returns the counters.
fn counted(alloc: Global) -> Result<Counters, Fail> {
    let mut counters = Counters::new();
    note_all(alloc, &mut counters, &NOTED)?;
    note_look_up(alloc, &mut counters, "get a b c\r\n", &ONE)?;
    note_look_up(alloc, &mut counters, "gats 0 a b\r\n", &ONE)?;
    Ok(counters)
}

/// Guards the hit rates and totals that operators read in `stats`.
#[test]
fn each_command_counts_by_what_it_came_to(rt: HostRuntime) -> Result<(), Fail> {
    expect_counters(&rt, &counted(rt.alloc())?, &COUNTED);
    Ok(())
}

/// Three times a `flush_all`.
const FLUSHED: [Noted; 1] = [("flush_all\r\n", Outcome::Done, 3)];

/// Guards graphs drawn from `stats`: a counter must never fall back to 0 by overflow.
#[test]
fn a_counter_stops_at_the_top(rt: HostRuntime) -> Result<(), Fail> {
    let mut counters = Counters::new();
    counters.cmd_flush = u64::MAX - 1;
    note_all(rt.alloc(), &mut counters, &FLUSHED)?;
    expect_number(&rt, counters.cmd_flush, u64::MAX, "cmd_flush");
    Ok(())
}
