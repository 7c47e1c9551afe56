//! A command that an entry keeps.
ghost use Rattle.std.specs.Prelude.{◌≡◌, IfOk};

use std::alloc::Global;
use std::marker::Model;
use tc_grammar::Command;
use tc_item::NoMemory;

/// A command in a box of its own, so that a call that keeps no entry doesn't move that much room
/// around.
#[derive(Drop)]
pub struct KeptCommand {
    command: Box<Command>,
}

impl Model for KeptCommand {
    ghost use Rattle.tc_grammar.specs.declared.command.Command.{Command};

    ghost Value = { Command };

    ghost view = { λ k. k.command.value };
}

impl KeptCommand {
    /// Copies a command; the copy shares its data. Fails if memory is refused.
    pub fn of(alloc: Global, command: &Command) -> Result<KeptCommand, NoMemory>
        ensures { IfOk result (λ kept. kept ≡ command.now) }
    {
        let command = command.copy(alloc)?;
        let command = Box::new(alloc, command)?;
        Ok(KeptCommand { command })
    }

    /// Returns the command.
    pub fn get(&self) -> &Command
        ensures { result.now ≡ self.now }
    {
        &self.command
    }
}
