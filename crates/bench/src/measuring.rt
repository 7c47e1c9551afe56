//! How much is measured, what calls took, and the lines of output.

use crate::fault::Fault;
use std::time::Duration;

/// How much the program does.
#[derive(Clone, Copy)]
pub(crate) enum Extent {
    /// A little; only counts are printed.
    Counted,
    /// Enough for stable times, which are printed.
    Measured,
}

/// How many calls were made, and the sum of their results. The program prints the sum, which keeps
/// the compiler from leaving the calls out.
#[derive(Clone, Copy)]
pub(crate) struct Tally {
    pub(crate) calls: u32,
    pub(crate) sum: u32,
}

/// The time of some calls together, and their tally.
#[derive(Clone, Copy)]
pub(crate) struct Spent {
    pub(crate) time: Duration,
    pub(crate) tally: Tally,
}

/// What a line of output is about.
#[derive(Clone, Copy)]
pub(crate) struct Topic<'a> {
    pub(crate) part: &'a str,
    /// What the calls were.
    pub(crate) calls: &'a str,
    /// What the sum counts.
    pub(crate) sum: &'a str,
}

/// Returns the nanoseconds of one call, on average.
fn nanos_a_call(spent: Duration, calls: u32) -> f64 {
    spent.as_secs_f64() * 1e9 / f64::from(calls)
}

/// Prints how many calls there were, and their sum.
pub(crate) fn print_count(rt: &HostRuntime, topic: Topic, tally: Tally) -> Result<(), Fault> {
    let Topic { part, calls, sum } = topic;
    println!(rt; "{part}, {calls}: {}; {sum}: {}", tally.calls, tally.sum)?;
    Ok(())
}

/// Prints the time of a call in nanoseconds, and its part of the sum, both on average.
pub(crate) fn print_time(
    rt: &HostRuntime,
    topic: Topic,
    spent: Duration,
    tally: Tally,
) -> Result<(), Fault> {
    let Topic { part, calls, sum } = topic;
    let nanos = nanos_a_call(spent, tally.calls);
    let each = f64::from(tally.sum) / f64::from(tally.calls);
    println!(rt; "{part}, {calls}: {nanos:.1} ns each; {sum}: {each:.2} each")?;
    Ok(())
}

/// Prints the counts of some calls, or their averages if the program measures.
pub(crate) fn print_spent(
    rt: &HostRuntime,
    topic: Topic,
    spent: Spent,
    extent: Extent,
) -> Result<(), Fault> {
    match extent {
        Extent::Counted => print_count(rt, topic, spent.tally),
        Extent::Measured => print_time(rt, topic, spent.time, spent.tally),
    }
}
