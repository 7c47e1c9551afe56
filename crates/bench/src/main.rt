//! Measures one user's cache: `bench --measure` prints the time of its calls, by the number of
//! items that it holds.
//!
//! Without `--measure` the program does a little of each, and prints counts and no times.
//! bench/README.md says what is measured.
#![tactic(auto)]

mod acts;
mod commands;
mod fault;
mod measuring;
mod partition;

use fault::Fault;
use measuring::Extent;
use std::env;
use std::process::ExitCode;

/// Returns how much the words ask for, after the program's name. Fails with `Fault::Usage` unless
/// they are none or `--measure` alone.
fn parse(words: &[String]) -> Result<Extent, Fault> {
    match words {
        [] | [_] => Ok(Extent::Counted),
        [_, how] if how.as_str() == "--measure" => Ok(Extent::Measured),
        _ => Err(Fault::Usage),
    }
}

/// Reads the program's arguments.
fn read_words(rt: &HostRuntime) -> Result<Extent, Fault> {
    let words: Vec<String> = env::args(rt)?.collect(rt.alloc())?;
    parse(&words)
}

fn run(rt: &HostRuntime) -> Result<(), Fault> {
    let extent = read_words(rt)?;
    partition::run(rt, extent)
}

fn main(rt: HostRuntime) -> ExitCode {
    match run(&rt) {
        Ok(()) => ExitCode::from(0),
        Err(fault) => {
            let _ = eprintln!(rt; "{}", fault.text());
            ExitCode::from(fault.status())
        }
    }
}
