//! The command `run`.
use crate::reporting::report_run;
use std::hash::RandomState;
use std::io;
use tc_asking::Reading;
use tc_partition::Fast;
use tc_plain::Plain;
use tc_script::{Ended, run_script};

/// Runs the script on standard input.
fn run(rt: &HostRuntime, reading: Reading) -> Ended {
    let Ok(hasher) = RandomState::new(rt) else {
        return Ended::NoMemory;
    };
    let alloc = rt.alloc();
    let (input, output) = (&mut rt.stdin(), &mut rt.stdout());
    match reading {
        Reading::Served => run_script::<Fast, _, _>(alloc, hasher, input, output),
        Reading::Reference => run_script::<Plain, _, _>(alloc, hasher, input, output),
    }
}

/// Runs the script on standard input and reports how it ended. Returns the exit status.
pub fn run_input(rt: &HostRuntime, reading: Reading) -> io::Result<u8> {
    report_run(rt, run(rt, reading))
}
