//! Reads the command line.
use crate::words::command;
use clap::error::ErrorKind;
use clap::{ArgMatches, Error};
use std::alloc::{AllocError, Global};
use std::net::SocketAddr;
use std::{env, io};

/// The address of a demo without `--listen`.
const DEMO_LISTEN: &str = "127.0.0.1:11211";

/// The bytes of a key and of data for which a check estimates memory if the command line names none.
const USUAL_KEY: u32 = 32;

const USUAL_DATA: u32 = 100;

/// The cache that a script runs over.
#[derive(Clone, Copy, PartialEq, Eq)]
pub enum Reading {
    /// The fast cache, which a server runs.
    Served,
    /// The plain cache, which follows the definition.
    Reference,
}

/// The source of a server's settings.
#[derive(Drop)]
pub enum Source {
    /// A file.
    File(String),
    /// The program's own settings, with this address to listen on: a loopback address and a port.
    Demo(String),
}

/// The options of `serve`.
#[derive(Drop)]
pub struct Serving {
    pub source: Source,
    /// Each connection stays with the worker that first had it.
    pub spread: bool,
    /// The server ends once this many connections were closed.
    pub until: Option<u32>,
    /// The server audits at the end: it repeats users' last calls on the definition.
    pub audit: bool,
    /// The server prints no lines about connections.
    pub quiet: bool,
}

/// A check of settings.
#[derive(Drop)]
pub struct Checking {
    /// The settings file.
    pub config: String,
    /// The bytes of an item's key for which memory is estimated: 1 to 250.
    pub key: u32,
    /// The bytes of an item's data for which memory is estimated: 0 to 1,048,576.
    pub data: u32,
}

/// The request of a command line.
#[derive(Drop)]
pub enum Asked {
    /// Run the script on standard input.
    Run(Reading),
    /// Check the settings in a file, and estimate their memory.
    Check(Checking),
    Serve(Serving),
}

/// Why a command line makes no request.
#[derive(Drop)]
pub enum Unasked {
    /// It is wrong, or asks for help. The parser's own text says which.
    Usage(Error),
    /// It asks for the version. The parser's text has it.
    Version(Error),
    /// Its words are not text.
    Words(io::Error),
    /// The address for a demo is no loopback address with a port.
    NotLoopback,
    NoMemory,
}

impl From<io::Error> for Unasked {
    fn from(error: io::Error) -> Unasked {
        match error.kind() {
            io::ErrorKind::OutOfMemory => Unasked::NoMemory,
            _ => Unasked::Words(error),
        }
    }
}

impl From<AllocError> for Unasked {
    fn from(_refused: AllocError) -> Unasked {
        Unasked::NoMemory
    }
}

impl From<Error> for Unasked {
    fn from(error: Error) -> Unasked {
        match error.kind() {
            ErrorKind::OutOfMemory => Unasked::NoMemory,
            ErrorKind::DisplayVersion => Unasked::Version(error),
            _ => Unasked::Usage(error),
        }
    }
}

/// Returns a copy of an argument's text, empty if it is missing.
fn text_of(alloc: Global, matches: &ArgMatches<'_>, id: &str) -> Result<String, AllocError> {
    String::from_str(alloc, matches.get_str(id).unwrap_or(""))
}

/// Whether the text is a loopback address and a port.
fn is_loopback(text: &str) -> bool {
    match text.parse::<SocketAddr>() {
        Ok(address) => address.ip().is_loopback(),
        Err(_) => false,
    }
}

/// Returns the source of the settings for a `serve`.
fn source_by(alloc: Global, serve: &ArgMatches<'_>) -> Result<Source, Unasked> {
    if !serve.get_flag("demo") {
        return Ok(Source::File(text_of(alloc, serve, "config")?));
    }
    let listen = serve.get_str("listen").unwrap_or(DEMO_LISTEN);
    if !is_loopback(listen) {
        return Err(Unasked::NotLoopback);
    }
    Ok(Source::Demo(String::from_str(alloc, listen)?))
}

/// Returns the options of a `check`.
fn checking_by(alloc: Global, check: &ArgMatches<'_>) -> Result<Checking, AllocError> {
    Ok(Checking {
        config: text_of(alloc, check, "config")?,
        key: check.get_one::<u32>("key").unwrap_or(USUAL_KEY),
        data: check.get_one::<u32>("data").unwrap_or(USUAL_DATA),
    })
}

/// Returns the options of a `serve`.
fn serving_by(alloc: Global, serve: &ArgMatches<'_>) -> Result<Serving, Unasked> {
    Ok(Serving {
        source: source_by(alloc, serve)?,
        spread: serve.get_flag("spread"),
        until: serve.get_one::<u32>("until"),
        audit: serve.get_flag("audit"),
        quiet: serve.get_flag("quiet"),
    })
}

/// Returns the cache for a `run`.
fn reading_by(run: &ArgMatches<'_>) -> Reading {
    if run.get_flag("reference") {
        Reading::Reference
    } else {
        Reading::Served
    }
}

/// Returns the request that the parser matched.
fn asked_by(alloc: Global, matches: &ArgMatches<'_>) -> Result<Asked, Unasked> {
    if let Some(serve) = matches.subcommand_matches("serve") {
        return Ok(Asked::Serve(serving_by(alloc, serve)?));
    }
    if let Some(check) = matches.subcommand_matches("check") {
        return Ok(Asked::Check(checking_by(alloc, check)?));
    }
    // The parser refuses all but these three.
    match matches.subcommand_matches("run") {
        Some(run) => Ok(Asked::Run(reading_by(run))),
        None => Ok(Asked::Run(Reading::Served)),
    }
}

/// Parses the words of the command line.
fn parse(alloc: Global, words: &[String]) -> Result<Asked, Unasked> {
    let matches = command(alloc)?.try_get_matches_from(words)?;
    asked_by(alloc, &matches)
}

/// Reads the command line of the process, and returns its request, or why it makes none.
pub fn read_command_line(rt: &HostRuntime) -> Result<Asked, Unasked> {
    let words: Vec<String> = env::args(rt)?.collect(rt.alloc())?;
    parse(rt.alloc(), words.as_slice())
}
