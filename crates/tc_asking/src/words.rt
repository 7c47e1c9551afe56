//! The words of the command line, described for `clap`.
use clap::{Arg, ArgAction, Command, value_parser};
use std::alloc::{AllocError, Global};

/// The version of this release.
pub const VERSION: &str = "1.15.0";

/// Returns `--config`, which `serve` and `check` take.
fn config_arg<'a>(alloc: Global) -> Arg<'a> {
    Arg::new(alloc, "config")
        .long("config")
        .value_name("FILE")
        .help("The settings, a TOML text")
}

/// Returns `--config` of `serve`, which must be there unless `--demo` is.
fn settings_arg<'a>(alloc: Global) -> Result<Arg<'a>, AllocError> {
    config_arg(alloc)
        .required_unless_present("demo")?
        .conflicts_with("demo")
}

/// Returns `--listen`, the address of a demo.
fn listen_arg<'a>(alloc: Global) -> Result<Arg<'a>, AllocError> {
    let listen = Arg::new(alloc, "listen")
        .long("listen")
        .value_name("ADDRESS:PORT")
        .help("Where the demo listens, if not on 127.0.0.1:11211");
    listen.requires_arg("demo")
}

/// Returns `--audit`, which requires `--until`.
fn audit_arg<'a>(alloc: Global) -> Result<Arg<'a>, AllocError> {
    let help = "At the end do each user's last calls again on the definition";
    flag(alloc, "audit", help).requires_arg("until")
}

/// Returns an option without a value.
fn flag<'a>(alloc: Global, name: &'a str, help: &'a str) -> Arg<'a> {
    Arg::new(alloc, name)
        .long(name)
        .action(ArgAction::SetTrue)
        .help(help)
}

/// Returns `--until`, the number of closed connections after which the server ends.
fn until_arg<'a>(alloc: Global) -> Arg<'a> {
    Arg::new(alloc, "until")
        .long("until")
        .value_name("N")
        .value_parser(value_parser!(u32).range(1..))
        .help("End once N connections were closed")
}

/// Adds an argument, if there was memory for it.
fn with_arg<'a>(
    command: Command<'a>,
    arg: Result<Arg<'a>, AllocError>,
) -> Result<Command<'a>, AllocError> {
    command.arg(arg?)
}

/// Adds the options of a demo.
fn with_demo<'a>(alloc: Global, serve: Command<'a>) -> Result<Command<'a>, AllocError> {
    let help = "Serve two users of the program's own, on a loopback address, without a file";
    let serve = serve.arg(flag(alloc, "demo", help))?;
    with_arg(serve, listen_arg(alloc))
}

/// Adds the options about the server's end.
fn with_end<'a>(alloc: Global, serve: Command<'a>) -> Result<Command<'a>, AllocError> {
    let serve = serve.arg(until_arg(alloc))?;
    with_arg(serve, audit_arg(alloc))
}

/// Returns `serve` with its options.
fn serve_command<'a>(alloc: Global) -> Result<Command<'a>, AllocError> {
    let serve = Command::new(alloc, "serve").about("Listen, and serve memcached's clients");
    let serve = with_demo(alloc, with_arg(serve, settings_arg(alloc))?)?;
    let help = "Leave each connection to the worker that it came to";
    let serve = with_end(alloc, serve.arg(flag(alloc, "spread", help))?)?;
    let help = "Print no line for what becomes of a connection";
    serve.arg(flag(alloc, "quiet", help))
}

/// Returns `run` with its option.
fn run_command<'a>(alloc: Global) -> Result<Command<'a>, AllocError> {
    let help = "Run it over the plain cache, which is the definition's reading, and slow";
    Command::new(alloc, "run")
        .about("Run the script on standard input, and print what each connection was sent")
        .arg(flag(alloc, "reference", help))
}

/// Returns `--key` of `check`.
fn key_arg<'a>(alloc: Global) -> Arg<'a> {
    Arg::new(alloc, "key")
        .long("key")
        .value_name("BYTES")
        .value_parser(value_parser!(u32).range(1..=250))
        .help("Estimate memory for keys of so many bytes, if not 32")
}

/// Returns `--data` of `check`.
fn data_arg<'a>(alloc: Global) -> Arg<'a> {
    Arg::new(alloc, "data")
        .long("data")
        .value_name("BYTES")
        .value_parser(value_parser!(u32).range(0..=1_048_576))
        .help("Estimate memory for items of so many bytes of data, if not 100")
}

/// Returns `check` with its options.
fn check_command<'a>(alloc: Global) -> Result<Command<'a>, AllocError> {
    let check = Command::new(alloc, "check")
        .about("Say what is wrong with settings, or how much memory they take")
        .arg(config_arg(alloc).required(true))?;
    check.arg(key_arg(alloc))?.arg(data_arg(alloc))
}

/// Returns the program's name, version and purpose.
fn root_command<'a>(alloc: Global) -> Command<'a> {
    Command::new(alloc, "partcached")
        .version(VERSION)
        .about("A memcached server in which each user has a partition of its own")
        .subcommand_required(true)
}

/// Adds a subcommand, if there was memory for it.
fn with_subcommand<'a>(
    program: Command<'a>,
    subcommand: Result<Command<'a>, AllocError>,
) -> Result<Command<'a>, AllocError> {
    program.subcommand(subcommand?)
}

/// Returns the whole command line for `clap`.
pub fn command<'a>(alloc: Global) -> Result<Command<'a>, AllocError> {
    let program = with_subcommand(root_command(alloc), run_command(alloc))?;
    let program = with_subcommand(program, check_command(alloc))?;
    with_subcommand(program, serve_command(alloc))
}
