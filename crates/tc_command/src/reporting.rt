//! The exit statuses, and their lines on standard error (docs/OPERATING.md, "Exit statuses"). If a line has only a
//! number, or too little, standard output has the words.
use crate::preparing::Unready;
use clap::Error;
use std::io;
use tc_asking::Unasked;
use tc_net::{Found, Unserved};
use tc_script::Ended;

/// Reports that memory, a thread or random words were refused. Returns the exit status.
fn report_no_memory(rt: &HostRuntime) -> io::Result<u8> {
    eprintln!(rt; "partcached: out of memory")?;
    Ok(5)
}

/// Reports how a script's run ended. Returns the exit status.
pub fn report_run(rt: &HostRuntime, ended: Ended) -> io::Result<u8> {
    match ended {
        Ended::Done => Ok(0),
        Ended::BadLine(number) => {
            eprintln!(rt; "partcached: script line {number}")?;
            Ok(3)
        }
        Ended::NoMemory => report_no_memory(rt),
        Ended::Stream => report_stream(rt),
    }
}

/// Reports that a stream could not be read or written. Returns the exit status.
fn report_stream(rt: &HostRuntime) -> io::Result<u8> {
    eprintln!(rt; "partcached: stream failed")?;
    Ok(6)
}

/// Reports that printing failed. Returns the exit status.
pub fn report_unprinted(rt: &HostRuntime, error: io::Error) -> io::Result<u8> {
    match error.kind() {
        io::ErrorKind::OutOfMemory => report_no_memory(rt),
        _ => report_stream(rt),
    }
}

/// Reports why settings cannot be used. Returns the exit status.
pub fn report_unready(rt: &HostRuntime, unready: Unready) -> io::Result<u8> {
    match unready {
        Unready::Unreadable(error) => {
            let _ = println!(rt; "cannot read the settings: {error}");
            eprintln!(rt; "partcached: cannot read settings")?;
            Ok(1)
        }
        Unready::Refused(fault) => {
            let _ = println!(rt; "{fault}");
            let number = fault.number();
            eprintln!(rt; "partcached: settings fault {number}")?;
            Ok(1)
        }
        Unready::NoMemory => report_no_memory(rt),
    }
}

/// Reports that a server cannot listen. Returns the exit status.
pub fn report_cannot_listen(rt: &HostRuntime) -> io::Result<u8> {
    eprintln!(rt; "partcached: cannot listen")?;
    Ok(4)
}

/// Reports how a server ended. Returns the exit status.
pub fn report_served(rt: &HostRuntime, ended: Result<Found, Unserved>) -> io::Result<u8> {
    match ended {
        Ok(Found::Nothing) => Ok(0),
        Ok(Found::Differs) => {
            eprintln!(rt; "partcached: audit found a difference")?;
            Ok(7)
        }
        Err(Unserved::CannotListen) => report_cannot_listen(rt),
        Err(Unserved::NoMemory) => report_no_memory(rt),
    }
}

/// Prints the version. Returns the exit status.
fn report_version(rt: &HostRuntime, version: Error) -> io::Result<u8> {
    match print!(rt; "{version}") {
        Ok(()) => Ok(0),
        Err(error) => report_unprinted(rt, error),
    }
}

/// Reports a command line that is refused, or that asks for help or the version. Returns the exit status.
pub fn report_unasked(rt: &HostRuntime, unasked: Unasked) -> io::Result<u8> {
    match unasked {
        Unasked::NoMemory => return report_no_memory(rt),
        Unasked::Version(version) => return report_version(rt, version),
        Unasked::Usage(error) => eprint!(rt; "{error}")?,
        Unasked::Words(error) => eprintln!(rt; "error: {error}")?,
        Unasked::NotLoopback => eprintln!(rt;
            "error: a demo listens on a loopback address and a port alone, as 127.0.0.1:11211"
        )?,
    }
    Ok(2)
}
