//! All that connections were sent.
ghost use Rattle.std.specs.Prelude.{◌≡◌, map, IfOk};
ghost use Rattle.tc_core.specs.Steps.{numbered_of};
ghost use Rattle.tc_core.specs.Sending.{output_of};

use crate::step::ConnectionNo;
use std::alloc::Global;
use std::collections::BTreeMap;
use std::marker::Model;
use tc_item::NoMemory;
use tc_session::Session;

/// All bytes that a connection was sent.
#[derive(Drop)]
pub struct Sent {
    bytes: Vec<u8>,
}

impl Model for Sent {
    ghost use Rattle.std.specs.Prelude.{ℕ, List};

    ghost Value = { List ℕ };

    ghost view = { λ s. s.bytes.items };
}

impl Sent {
    /// Copies all bytes that a session has to send.
    pub(crate) fn copied(alloc: Global, session: &Session) -> Result<Sent, NoMemory>
        ensures { IfOk result (λ sent. sent ≡ session.now.out) }
    {
        Ok(Sent {
            bytes: session.copy_out(alloc)?,
        })
    }

    /// Returns the bytes.
    pub fn as_bytes(&self) -> &[u8]
        ensures { result.now ≡ self.now }
    {
        &self.bytes
    }
}

/// All that one connection was sent, and whether it is closed.
#[derive(Drop)]
pub struct Output {
    pub connection: ConnectionNo,
    pub closed: bool,
    pub bytes: Sent,
}

/// All that each opened connection was sent, by rising number.
#[derive(Drop)]
pub struct Outputs {
    outputs: Vec<Output>,
}

impl Model for Outputs {
    ghost use Rattle.std.specs.Prelude.{List};
    ghost use Rattle.tc_core.specs.declared.outputs.Output.{Output};

    ghost Value = { List Output };

    ghost view = { λ o. o.outputs.items };
}

impl Outputs {
    /// Takes over the outputs.
    pub(crate) fn new(outputs: Vec<Output>) -> Outputs
        ensures { result ≡ outputs.items }
    {
        Outputs { outputs }
    }

    /// Returns the outputs, by rising number of connection.
    pub fn as_slice(&self) -> &[Output]
        ensures { result.now ≡ self.now }
    {
        &self.outputs
    }
}

/// Returns all that each session was sent, by rising number.
pub(crate) fn outputs_of(
    alloc: Global,
    sessions: &BTreeMap<u32, Session>,
) -> Result<Outputs, NoMemory>
    ensures { IfOk result (λ outputs. outputs
        ≡ map output_of (map numbered_of sessions.now.entries)) }
{
    let mut outputs = Vec::with_capacity(alloc, sessions.len())?;
    for (number, session) in sessions {
        outputs.push(Output {
            connection: *number,
            closed: session.is_closed(),
            bytes: Sent::copied(alloc, session)?,
        })?;
    }
    Ok(Outputs::new(outputs))
}
