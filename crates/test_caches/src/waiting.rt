//! Look-ups that wait in the fast cache: their number after each deed.

use crate::fixtures::{at, command, done};
use std::alloc::Global;
use std::hash::RandomState;
use std::process::Abort;
use std::test::Fail;
use tc_grammar::Command;
use tc_item::{NoMemory, hash};
use tc_kinds::Kind;
use tc_partition::Fast;
use tc_plain::Cache;

/// A deed on a cache that holds the key k and lacks the key z.
#[derive(Clone, Copy)]
enum Deed {
    /// Does a line's command this many times.
    Does(&'static str, u32),
    /// Maintains the cache with this limit.
    Maintains(u32),
    /// Reads both keys ahead.
    ReadsAhead,
}

/// A deed, and how many look-ups wait after it.
type Turn = (Deed, usize);

static TURNS: [Turn; 33] = [
    (Deed::Does("set k 0 0 1", 1), 0),
    (Deed::Does("get k", 128), 128),
    (Deed::Maintains(100), 28),
    (Deed::Maintains(0), 28),
    (Deed::Does("stats", 1), 0),
    (Deed::Does("get k", 129), 1),
    (Deed::Maintains(128), 0),
    (Deed::Does("get z", 128), 128),
    (Deed::Does("gets z", 1), 1),
    (Deed::Does("get k z k", 1), 4),
    (Deed::Does("gets z", 2), 6),
    (Deed::Does("gets k z k", 1), 9),
    (Deed::Does("get k", 117), 126),
    (Deed::Does("get k z k", 1), 1),
    (Deed::Does("set k 0 0 1", 1), 0),
    (Deed::ReadsAhead, 0),
    (Deed::Does("gets k", 3), 3),
    (Deed::ReadsAhead, 3),
    (Deed::Does("add k 0 0 1", 1), 0),
    (Deed::Does("get k", 3), 3),
    (Deed::Does("incr k 1", 1), 0),
    (Deed::Does("get k", 3), 3),
    (Deed::Does("touch k 0", 1), 0),
    (Deed::Does("get z", 3), 3),
    (Deed::Does("gat 0 z", 1), 0),
    (Deed::Does("get k", 3), 3),
    (Deed::Does("delete z", 1), 0),
    (Deed::Does("get k", 3), 3),
    (Deed::Does("flush_all 9", 1), 0),
    (Deed::Does("get k", 3), 3),
    (Deed::Does("version", 1), 0),
    (Deed::Does("get k", 3), 3),
    (Deed::Does("verbosity 1", 1), 0),
];

/// A cache in which look-ups wait.
trait Waiting: Kind {
    /// Returns how many look-ups wait.
    fn waiting(&self) -> usize;
}

impl Waiting for Fast {
    fn waiting(&self) -> usize {
        self.waiting()
    }
}

/// Does a command this many times.
fn do_often<C: Cache>(
    alloc: Global,
    cache: &mut C,
    command: &Command,
    times: u32,
) -> Result<(), NoMemory> {
    for _ in 0..times {
        done(alloc, cache, at(1_000), command)?;
    }
    Ok(())
}

/// Does a line's command this many times.
fn repeat<C: Cache>(
    rt: &impl Abort,
    alloc: Global,
    cache: &mut C,
    line: &str,
    times: u32,
) -> Result<(), NoMemory> {
    let command = command(rt, alloc, line.as_bytes(), "7")?;
    do_often(alloc, cache, &command, times)
}

/// Does a deed at second 1,000.
fn perform<C: Cache>(
    rt: &impl Abort,
    alloc: Global,
    cache: &mut C,
    deed: Deed,
) -> Result<(), NoMemory> {
    match deed {
        Deed::Does(line, times) => repeat(rt, alloc, cache, line, times)?,
        Deed::Maintains(limit) => {
            cache.maintain(at(1_000), limit);
        }
        Deed::ReadsAhead => cache.read_ahead(&[hash(b"k"), hash(b"z")]),
    }
    Ok(())
}

/// Does the deeds, and expects this many waiting look-ups after each.
fn expect_turns<C: Waiting>(
    rt: &impl Abort,
    alloc: Global,
    cache: &mut C,
    turns: &[Turn],
) -> Result<(), NoMemory> {
    for turn in turns {
        perform(rt, alloc, cache, turn.0)?;
        assert!(rt; cache.waiting() == turn.1, "{}", turn.1);
    }
    Ok(())
}

/// Does the deeds on an empty cache of the kind, and expects the waiting look-ups.
fn expect_waiting<C: Waiting>(
    rt: &impl Abort,
    alloc: Global,
    hasher: RandomState,
    turns: &[Turn],
) -> Result<(), NoMemory> {
    let mut cache = C::begin(alloc, 65_536, 1_048_576, hasher)?;
    expect_turns(rt, alloc, &mut cache, turns)
}

/// Guards the speed of `get`, which defers its work, and the drain before any other command.
#[test]
fn look_ups_wait_until_something_else_is_done(rt: HostRuntime) -> Result<(), Fail> {
    let hasher = RandomState::new(&rt)?;
    Ok(expect_waiting::<Fast>(&rt, rt.alloc(), hasher, &TURNS)?)
}
