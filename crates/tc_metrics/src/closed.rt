//! How many of a user's connections each limit closed.
ghost use Rattle.std.specs.Prelude.{◌≡◌};
ghost use Rattle.tc_metrics.specs.MetricsText.{reason_word, closed_number, all_reasons};

/// How many connections of a user each limit closed since the server's start.
#[derive(Clone, Copy, Default, PartialEq, Eq)]
pub struct Closed {
    /// After their logins, since the user had as many as its `connections` allow.
    pub connections: u64,
    /// Since they sent nothing for `idle_seconds`.
    pub idle: u64,
    /// Since they took nothing of their replies for `stalled_seconds`.
    pub stalled: u64,
    /// Since they stopped in mid-block while others of their user waited.
    pub half_block: u64,
}

/// Why a limit closed a connection of a user.
#[derive(Clone, Copy, PartialEq, Eq)]
pub enum Reason {
    Connections,
    Idle,
    Stalled,
    HalfBlock,
}

impl Reason {
    /// Returns all reasons, in the order in which the text has them.
    #[tactic(auto, unfolding(crate::specs::MetricsText::all_reasons))]
    pub fn all() -> [Reason; 4]
        ensures { result ≡ all_reasons }
    {
        [
            Reason::Connections,
            Reason::Idle,
            Reason::Stalled,
            Reason::HalfBlock,
        ]
    }

    /// Returns its label: the setting's name, or `half_block`.
    pub fn word(self) -> &'static str
        ensures { result.now ≡ reason_word self }
    {
        match self {
            Reason::Connections => "connections",
            Reason::Idle => "idle_seconds",
            Reason::Stalled => "stalled_seconds",
            Reason::HalfBlock => "half_block",
        }
    }

    /// Returns how many connections were closed for it.
    pub fn number(self, closed: &Closed) -> u64
        ensures { result ≡ closed_number self closed.now }
    {
        match self {
            Reason::Connections => closed.connections,
            Reason::Idle => closed.idle,
            Reason::Stalled => closed.stalled,
            Reason::HalfBlock => closed.half_block,
        }
    }
}
