//! The fields of the settings that limit connections.
ghost use Rattle.std.specs.Prelude.{◌≡◌};
ghost use Rattle.tc_users.specs.Fields.{limit_key, limit_number};

use crate::Field;
use std::fmt;

/// A field that limits connections: a whole number, at least 1. A user's field has the user's
/// number.
#[derive(Clone, Copy, Debug, PartialEq, Eq)]
pub enum Limit {
    LoginSeconds,
    StalledSeconds,
    UnboundConnections,
    Connections(u32),
    IdleSeconds(u32),
}

impl fmt::Display for Limit {
    fn fmt<W: fmt::Write>(&self, f: &mut fmt::Formatter<W>) -> fmt::Result {
        let field = Field::Limited(*self);
        write!(f, "{field}")
    }
}

impl Limit {
    /// Returns the field's name in the settings.
    pub fn key(&self) -> &'static str
        ensures { result.now ≡ limit_key self.now }
    {
        match self {
            Limit::LoginSeconds => "login_seconds",
            Limit::StalledSeconds => "stalled_seconds",
            Limit::UnboundConnections => "unbound_connections",
            Limit::Connections(_) => "connections",
            Limit::IdleSeconds(_) => "idle_seconds",
        }
    }

    /// Returns the number of the fault that the field is out of its range, 14 to 18.
    pub(crate) fn fault_number(&self) -> u8
        ensures { result ≡ limit_number self.now }
    {
        match self {
            Limit::LoginSeconds => 14,
            Limit::StalledSeconds => 15,
            Limit::UnboundConnections => 16,
            Limit::Connections(_) => 17,
            Limit::IdleSeconds(_) => 18,
        }
    }

    /// Returns the user whose field it is, if it is a user's.
    pub(crate) fn user(&self) -> Option<u32> {
        match self {
            Limit::LoginSeconds | Limit::StalledSeconds | Limit::UnboundConnections => None,
            Limit::Connections(user) | Limit::IdleSeconds(user) => Some(*user),
        }
    }

    /// Says in an operator's words what the field may hold.
    pub(crate) fn wanted(&self) -> &'static str {
        match self {
            Limit::LoginSeconds | Limit::StalledSeconds | Limit::IdleSeconds(_) => {
                "a whole number of seconds, 1 to 86400"
            }
            Limit::UnboundConnections | Limit::Connections(_) => "a whole number, 1 to 1024",
        }
    }
}
