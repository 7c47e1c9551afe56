//! Worked values of the frequency sketch, and published values of FNV-1a.

use std::alloc::{AllocError, Global};
use std::process::Abort;
use std::test::Fail;
use tc_item::{NoMemory, hash};
use tc_sketch::{Sketch, SparingSketch, halve, width_of};

/// Guards the hash that sketch and hints take of a key against a slip in its constants.
#[test]
fn fnv_1a_gives_its_published_values(rt: HostRuntime) {
    assert!(rt; hash(b"") == 0xcbf29ce484222325);
    assert!(rt; hash(b"a") == 0xaf63dc4c8601ec8c);
    assert!(rt; hash(b"foobar") == 0x85944171f73967e8);
}

/// Budgets in bytes, and the width of the sketch for each.
const WIDTHS: [(u64, u32); 7] = [
    (0, 0),
    (65536, 8),
    (65791, 8),
    (65792, 9),
    (131072, 9),
    (1 << 29, 21),
    (1 << 30, 22),
];

/// Guards the sketch's size: a sketch that is too small counts different keys as one.
#[test]
fn the_width_of_a_budget_is_the_least_that_covers_a_256th(rt: HostRuntime) {
    for (budget, width) in &WIDTHS {
        assert!(rt; width_of(*budget) == *width, "{budget}");
    }
}

/// Returns whether halving `length` copies of `word` turns each into `half`.
fn are_halved(alloc: Global, length: usize, word: u64, half: u64) -> Result<bool, AllocError> {
    let mut words = vec![in alloc; word; length]?;
    halve(&mut words);
    Ok(words.iter().all(|word| *word == half))
}

/// Guards aging: halving must not leak bits from one key's counter into its neighbour.
#[test]
fn halving_keeps_to_each_counter_at_every_length(rt: HostRuntime) -> Result<(), Fail> {
    for length in &[0, 1, 7, 8, 9, 64] {
        let (full, half) = (0xffffffffffffffff, 0x7777777777777777);
        assert!(rt;
            are_halved(rt.alloc(), *length, full, half)?,
            "{length} words"
        );
        let (mixed, half) = (0x0123456789abcdef, 0x0011223344556677);
        assert!(rt;
            are_halved(rt.alloc(), *length, mixed, half)?,
            "{length} words"
        );
    }
    Ok(())
}

/// Records a hash this many times.
fn record_times(sketch: &mut Sketch, hash: u64, times: u32) {
    for _ in 0..times {
        sketch.record(hash);
    }
}

/// How many more times one key is recorded, and its frequency after that.
const RECORDS: [(u32, u8); 7] = [
    (0, 0),
    (15, 15),
    (2544, 15),
    (1, 7),
    (8, 15),
    (1271, 15),
    (1, 7),
];

/// Records one key as `RECORDS` says, and expects its frequency after each row.
fn expect_counts(rt: &impl Abort, sketch: &mut Sketch, key: u64) {
    for (times, wanted) in &RECORDS {
        record_times(sketch, key, *times);
        assert!(rt; sketch.freq(key) == *wanted, "after {times} more");
    }
}

/// Guards eviction against stale popularity: without halving, old favourites never leave.
#[test]
fn a_counter_stops_at_15_and_is_halved_after_2560_records(rt: HostRuntime) -> Result<(), Fail> {
    let mut sketch = Sketch::new(rt.alloc(), 8)?;
    expect_counts(&rt, &mut sketch, hash(b"key"));
    Ok(())
}

/// Records a key in a copy of a sketch. Returns its frequency in the copy.
fn freq_of_copy(sketch: &Sketch, key: u64, times: u32) -> Result<u8, Fail> {
    let mut copy = sketch.copy()?;
    record_times(&mut copy, key, times);
    Ok(copy.freq(key))
}

/// Returns a key's frequency in a copy after two more records, and in the sketch itself after one.
fn freqs_apart(sketch: &mut Sketch, key: u64) -> Result<(u8, u8), Fail> {
    let copied = freq_of_copy(sketch, key, 2)?;
    sketch.record(key);
    Ok((copied, sketch.freq(key)))
}

/// Guards an audit's opening state: later commands must not change the frozen sketch.
#[test]
fn a_copy_counts_on_its_own(rt: HostRuntime) -> Result<(), Fail> {
    let mut sketch = Sketch::new(rt.alloc(), 8)?;
    record_times(&mut sketch, 5, 3);
    let (copied, own) = freqs_apart(&mut sketch, 5)?;
    assert!(rt; copied == 5 && own == 4);
    Ok(())
}

/// Hashes that are recorded, and the frequency of hash 1 after each. Hash 234 shares the place of
/// hash 1 in the first row alone, 72 in the second, 150 in the third and 82 in the fourth.
const NEIGHBOURS: [(u64, u8); 8] = [
    (234, 0),
    (72, 0),
    (150, 0),
    (82, 1),
    (82, 1),
    (150, 1),
    (72, 1),
    (234, 2),
];

/// Records the neighbours of hash 1, and expects its frequency after each.
fn expect_least(rt: &impl Abort, sketch: &mut Sketch) {
    for (other, wanted) in &NEIGHBOURS {
        sketch.record(*other);
        assert!(rt; sketch.freq(1) == *wanted, "after {other}");
    }
}

/// Guards eviction: a key that shares some counters must not seem more popular than it is.
#[test]
fn a_hash_is_as_frequent_as_its_least_counter(rt: HostRuntime) -> Result<(), Fail> {
    let mut sketch = Sketch::new(rt.alloc(), 8)?;
    expect_least(&rt, &mut sketch);
    Ok(())
}

/// Records hashes that share no counter, and expects each to go from 0 to 1.
fn expect_apart(rt: &impl Abort, sketch: &mut Sketch) {
    for hash in &[0, 1, 0xcbf29ce484222325, 0xffffffffffffffff] {
        assert!(rt; sketch.freq(*hash) == 0, "{hash}");
        sketch.record(*hash);
        assert!(rt; sketch.freq(*hash) == 1, "{hash}");
    }
}

/// Guards users with the smallest and the largest budget: their keys must start uncounted.
#[test]
fn the_smallest_and_the_largest_sketch_begin_empty(rt: HostRuntime) -> Result<(), Fail> {
    expect_apart(&rt, &mut Sketch::new(rt.alloc(), 8)?);
    expect_apart(&rt, &mut Sketch::new(rt.alloc(), 22)?);
    Ok(())
}

/// Records a hash 40 times, so that its counters saturate, and expects 15 in the sketch and in a
/// copy.
fn record_often(rt: &impl Abort, sketch: &mut SparingSketch) -> Result<(), NoMemory> {
    for _ in 0..40 {
        sketch.record(5);
    }
    assert!(rt; sketch.freq(5) == 15 && sketch.copy()?.freq(5) == 15);
    Ok(())
}

/// Guards the shortcut for saturated hashes: it must count as the plain sketch does.
#[test]
fn a_sparing_sketch_is_a_sketch(rt: HostRuntime) -> Result<(), Fail> {
    let mut sketch = SparingSketch::new(rt.alloc(), 8)?;
    let recorded = record_often(&rt, &mut sketch);
    drop(sketch);
    Ok(recorded?)
}
