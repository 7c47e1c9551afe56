//! The command line of `partcached`: the words it takes, and their meaning.
//!
//! `read_command_line` parses them with `clap`, and `tc_command` does what they ask for. It uses no
//! other crate of this repository. No clause says which words mean what; tests and
//! docs/OPERATING.md do.
#![tactic(auto)]

mod asking;
mod words;

pub use asking::{Asked, Checking, Reading, Serving, Source, Unasked, read_command_line};
pub use words::VERSION;
