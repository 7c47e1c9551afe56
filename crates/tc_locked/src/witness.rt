//! An entry as proofs know it, whether memory keeps it or not.
ghost use Rattle.std.specs.Prelude.{◌≡◌};
ghost use Rattle.tc_locked.specs.Witnesses.{entry_from};

use crate::call_entry::Numbers;
use http_server::Log;
use std::marker::Model;
use tc_grammar::Command;
use tc_stats::Outcome;

/// An entry in proofs alone, which contracts see as a `CallEntry`. It takes no memory and no time.
#[derive(Drop)]
pub struct Witness {
    said: Log<Numbers, Command>,
    given: Log<Numbers, Outcome>,
}

impl Model for Witness {
    ghost use Rattle.tc_locked.specs.declared.call_entry.CallEntry.{CallEntry};
    ghost use Rattle.tc_locked.specs.Witnesses.{entry_seen, first_command, first_outcome};

    ghost Value = { CallEntry };

    ghost view = { λ w. entry_seen (first_command w.said.items) (first_outcome w.given.items) };
}

impl Witness {
    /// The entry of these numbers, this command and this outcome.
    pub(crate) fn of(numbers: Numbers, command: &Command, outcome: &Outcome) -> Witness
        ensures { result ≡ entry_from numbers command.now outcome.now }
    {
        Witness {
            said: Log::new().and(&numbers, command),
            given: Log::new().and(&numbers, outcome),
        }
    }
}
