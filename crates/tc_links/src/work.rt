//! The cost of a connection's turn to its worker, as far as counting it is cheap.
ghost use Rattle.std.specs.Prelude.{◌≡◌, ◌+◌, ◌/◌, ◌≤◌, ◌^◌, ◌*◌};

use tc_grammar::{Command, StoreKind};

/// A read and a write of a wire. All work is in quarters of a microsecond.
const READ: u64 = 4;

const WRITE: u64 = 8;

/// A request, and each key of a look-up.
const REQUEST: u64 = 4;

const KEY: u64 = 1;

/// A storage command that copies what its key holds.
const COPY: u64 = 32;

/// A reply with all statistics.
const STATS: u64 = 40;

/// A clear of all that a user holds.
const CLEAR: u64 = 200;

/// How many moved bytes cost one unit, and how many bytes of a parsed line do.
const MOVED: u64 = 1_024;

const PARSED: u64 = 8;

/// The most bytes of a refused request that count as a line; the rest was skipped.
const LONGEST_LINE: usize = 65_538;

/// The work done on a connection.
#[derive(Clone, Copy)]
pub(crate) struct Work {
    /// All work except the moved bytes, in quarters of a microsecond.
    units: u64,
    /// How many bytes were read and written.
    bytes: u64,
}

/// Returns what a command costs beside its bytes.
fn cost_of(command: &Command) -> u64 {
    match command {
        Command::Get { keys, .. } => REQUEST.saturating_add(KEY.saturating_mul(keys.len() as u64)),
        Command::Gat { keys, .. } => REQUEST.saturating_add(KEY.saturating_mul(keys.len() as u64)),
        Command::Store(head, _) => match head.kind {
            StoreKind::Append | StoreKind::Prepend => REQUEST + COPY,
            _ => REQUEST,
        },
        Command::Flush { .. } => CLEAR,
        Command::Stats => STATS,
        _ => REQUEST,
    }
}

impl Work {
    /// No work.
    pub(crate) fn none() -> Work
        ensures { (result.units ≡ 0) × (result.bytes ≡ 0) }
    {
        Work { units: 0, bytes: 0 }
    }

    /// Adds work.
    fn add(&mut self, units: u64) {
        self.units = self.units.saturating_add(units);
    }

    /// Adds a read that gave this many bytes.
    pub(crate) fn add_read(&mut self, bytes: usize) {
        self.add(READ);
        self.bytes = self.bytes.saturating_add(bytes as u64);
    }

    /// Adds a write that took this many bytes.
    pub(crate) fn add_write(&mut self, bytes: usize) {
        self.add(WRITE);
        self.bytes = self.bytes.saturating_add(bytes as u64);
    }

    /// Adds a call of a command.
    pub(crate) fn add_command(&mut self, command: &Command) {
        self.add(cost_of(command));
    }

    /// Adds an answered request of this many bytes that called no command.
    pub(crate) fn add_answer(&mut self, bytes: usize) {
        self.add(REQUEST);
        self.add(bytes.min(LONGEST_LINE) as u64 / PARSED);
    }

    /// Returns all work, in quarters of a microsecond.
    pub(crate) fn units(&self) -> u64 {
        self.units.saturating_add(self.bytes / MOVED)
    }
}
