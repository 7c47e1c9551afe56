//! The calls that a hall refused.
ghost use Rattle.std.specs.Prelude.{◌≡◌, ◌++◌, ◌∷◌, []};

use crate::call_fault::CallFault;
use crate::naming::Naming;
use http_server::Log;
use std::marker::{Model, PhantomData};
use tc_grammar::Command;
use tc_users::UserNo;

/// The user and the connection whose command was refused, and why.
#[derive(Clone, Copy, Debug, Drop)]
pub struct Refused {
    pub user: UserNo,
    pub conn: u32,
    pub fault: CallFault,
}

/// The calls that the hall N refused, in order, each with its command. Only `Hall::call_with` adds
/// to them. They exist in proofs alone, and take no memory and no time.
#[derive(Drop)]
pub struct Refusals<N: Naming> {
    log: Log<Refused, Command>,
    of: PhantomData<N>,
}

impl<N: Naming> Model for Refusals<N> {
    ghost use Rattle.std.specs.Prelude.{List};
    ghost use Rattle.tc_locked.specs.Refusals.{Refusal};

    ghost Value = { List Refusal };

    ghost view = { λ r. r.log.items };
}

impl<N: Naming> Refusals<N> {
    /// An empty list.
    pub fn new() -> Refusals<N>
        ensures { result ≡ [] }
    {
        Refusals {
            log: Log::new(),
            of: PhantomData,
        }
    }

    /// Adds a refused call.
    pub(crate) fn add(&mut self, refused: Refused, command: &Command)
        ensures { self.new ≡ self.old ++ (refused, command.now) ∷ [] }
    {
        self.log = self.log.and(&refused, command);
    }
}
