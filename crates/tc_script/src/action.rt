//! The steps of a script.
ghost use Rattle.std.specs.Prelude.{◌≡◌};

use std::marker::Model;
use tc_item::Moment;

/// Bytes that arrive on a connection.
#[derive(Debug, Drop)]
pub struct Bytes {
    bytes: Vec<u8>,
}

impl Model for Bytes {
    ghost use Rattle.std.specs.Prelude.{ℕ, List};

    ghost Value = { List ℕ };

    ghost view = { λ b. b.bytes.items };
}

impl Bytes {
    /// Takes over the bytes without copying them.
    pub fn new(bytes: Vec<u8>) -> Bytes
        ensures { result ≡ bytes.items }
    {
        Bytes { bytes }
    }

    /// Returns the bytes.
    pub fn as_bytes(&self) -> &[u8]
        ensures { result.now ≡ self.now }
    {
        &self.bytes
    }
}

/// The action of a script's line. The script numbers connections; users count from 1.
#[derive(Debug, Drop)]
pub enum Action {
    /// A connection opens.
    Open(u32),
    /// Bytes arrive on a connection.
    Piece(u32, Bytes),
    /// One byte arrives many times over: connection, how often, byte.
    Fill(u32, u32, u8),
    /// A connection does its next requests: connection, how many.
    Act(u32, u32),
    /// A connection closes.
    Shut(u32),
    /// The clock advances to this moment.
    Tick(Moment),
    /// A user's cache does deferred work: user, and the most pieces of it.
    Keep(u32, u32),
}
