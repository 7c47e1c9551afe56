//! Acts of a cache: single ones, many, and the time that they take.

use crate::commands::{Ask, Span, commands, item};
use crate::fault::Fault;
use crate::measuring::{Spent, Tally};
use std::alloc::Global;
use std::time::Instant;
use tc_grammar::Command;
use tc_item::Moment;
use tc_kinds::Journal;
use tc_plain::Cache;
use tc_stats::Outcome;

/// Returns how many hits an outcome has.
fn hits_of(outcome: &Outcome) -> u32 {
    match outcome {
        Outcome::Values(hits) => u32::try_from(hits.len()).unwrap_or(u32::MAX),
        _ => 0,
    }
}

/// Returns how many items were evicted if an outcome shows the counters, otherwise 0.
fn evicted_in(outcome: &Outcome) -> u32 {
    match outcome {
        Outcome::Stats(statistics) => u32::try_from(statistics.counters().evictions).unwrap_or(
            u32::MAX,
        ),
        _ => 0,
    }
}

/// Does a command at moment 0, without a journal. Returns how many hits it shows.
fn act<C: Cache>(alloc: Global, cache: &mut C, command: &Command) -> Result<u32, Fault> {
    let acted = cache.act(alloc, Moment::FIRST, command, Journal::Off)?;
    Ok(hits_of(&acted.answer))
}

/// Returns how many items a cache has evicted so far.
pub(crate) fn evicted<C: Cache>(alloc: Global, cache: &mut C) -> Result<u32, Fault> {
    let acted = cache.act(alloc, Moment::FIRST, &Command::Stats, Journal::Off)?;
    Ok(evicted_in(&acted.answer))
}

/// Does all commands, `rounds` times over. The sum counts the hits that they show.
pub(crate) fn act_all<C: Cache>(
    alloc: Global,
    cache: &mut C,
    commands: &[Command],
    rounds: u32,
) -> Result<Tally, Fault> {
    let mut tally = Tally { calls: 0, sum: 0 };
    for _ in 0..rounds {
        for command in commands {
            tally.calls = tally.calls.wrapping_add(1);
            let hits = act(alloc, cache, command)?;
            tally.sum = tally.sum.wrapping_add(hits);
        }
    }
    Ok(tally)
}

/// Does all commands, `rounds` times over, and measures the time.
pub(crate) fn time_acts<C: Cache>(
    rt: &HostRuntime,
    cache: &mut C,
    commands: &[Command],
    rounds: u32,
) -> Result<Spent, Fault> {
    let start = Instant::now(rt)?;
    let tally = act_all(rt.alloc(), cache, commands, rounds)?;
    let time = start.elapsed(rt)?;
    Ok(Spent { time, tally })
}

/// Does a command on each item of a span, `rounds` times over, and measures the time. The commands
/// are made before the clock starts.
pub(crate) fn time_span<C: Cache>(
    rt: &HostRuntime,
    cache: &mut C,
    ask: Ask,
    span: Span,
    rounds: u32,
) -> Result<Spent, Fault> {
    let commands = commands(rt.alloc(), ask, span)?;
    time_acts(rt, cache, &commands, rounds)
}

/// Makes an item and stores it. Returns 0, since a `set` shows no hit.
pub(crate) fn set<C: Cache>(alloc: Global, cache: &mut C, number: u32) -> Result<u32, Fault> {
    let set = item(alloc, number)?;
    act(alloc, cache, &set)
}

/// Makes and stores this many items, numbered from 0.
pub(crate) fn fill<C: Cache>(alloc: Global, cache: &mut C, items: u32) -> Result<(), Fault> {
    for number in 0..items {
        set(alloc, cache, number)?;
    }
    Ok(())
}
