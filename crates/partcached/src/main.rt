//! The program. `partcached run` runs a script from standard input and prints what each connection
//! was sent. `partcached serve` listens and serves clients. `partcached check` says what is
//! wrong with settings, or how much memory they take.
//!
//! `tc_asking` reads the command line, and `tc_command` does what it asks for. Only `main` calls
//! tc_net's `serve`, since `serve` starts threads.
#![tactic(auto)]

use std::io;
use std::marker::Brand;
use std::process::ExitCode;
use tc_asking::{Asked, read_command_line};
use tc_command::{
    Printing, Ready, check_file, make_ready, report_served, report_unasked, report_unready,
    run_input,
};
use tc_net::serve;
use tc_partition::Fast;

fn main(rt: HostRuntime) -> io::Result<ExitCode> {
    let status = match read_command_line(&rt) {
        Ok(Asked::Run(reading)) => run_input(&rt, reading)?,
        Ok(Asked::Check(checking)) => check_file(&rt, checking)?,
        Ok(Asked::Serve(serving)) => match make_ready(&rt, &serving) {
            Ok(
                Ready {
                    beginning,
                    affinity,
                    until,
                    at_end,
                    printing,
                },
            ) => {
                let alloc = rt.alloc();
                let ended = serve::<Fast, Brand, HostRuntime, Printing<'_>>(
                    &rt, alloc, beginning, affinity, until, at_end, &printing,
                );
                report_served(&rt, ended)?
            }
            Err(unready) => report_unready(&rt, unready)?,
        },
        Err(unasked) => report_unasked(&rt, unasked)?,
    };
    Ok(ExitCode::from(status))
}
