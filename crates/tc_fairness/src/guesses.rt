//! Refused logins of a connection.
ghost use Rattle.std.specs.Prelude.{◌≡◌, ◌<◌, ◌≤◌, ◌+◌, ◌↔◌, true, false, Some, None};
ghost use Rattle.std.specs.Prelude.{IsTrue, IsSome, MatchOption};
ghost use Rattle.tc_fairness.specs.Guesses.{free, held_seconds};

use tc_item::Moment;

/// This many refused logins of a connection are answered at once.
const FREE: u32 = 3;

/// By how many seconds the clock must advance before a held reply is sent. That takes one to two
/// seconds of real time.
const HELD_SECONDS: u64 = 2;

/// How many logins of a connection were refused, and since when the reply to the last one is held.
#[derive(Clone, Copy)]
pub struct Guesses {
    refused: u32,
    waits: Option<Moment>,
}

impl Guesses {
    /// Makes the record of a connection without refused logins.
    pub fn none() -> Guesses
        ensures { (result.refused ≡ 0) × (result.waits ≡ None) }
    {
        Guesses {
            refused: 0,
            waits: None,
        }
    }

    /// Counts a refused login. From the fourth on its reply is held.
    pub fn add(&mut self, now: Moment)
        ensures first { self.old.refused < free → self.new.waits ≡ self.old.waits }
        ensures fourth { free ≤ self.old.refused → self.new.waits ≡ Some now }
    {
        if self.refused >= FREE {
            self.waits = Some(now);
        }
        self.refused = self.refused.saturating_add(1);
    }

    /// Whether a reply is held.
    pub fn waits(&self) -> bool
        ensures { IsTrue result ↔ IsSome self.now.waits }
    {
        self.waits.is_some()
    }

    /// Ends the wait once the clock advanced by two seconds. Returns whether a reply is still held.
    pub fn still_waits(&mut self, now: Moment) -> bool
        ensures until { MatchOption self.old.waits (result ≡ false)
            (λ since. IsTrue result ↔ (now < since + held_seconds)) }
        ensures ended { result ≡ false → self.new.waits ≡ None }
        ensures kept { result ≡ true → self.new ≡ self.old }
    {
        match self.waits {
            Some(since) if now.seconds() < since.seconds() + HELD_SECONDS => true,
            _ => {
                self.waits = None;
                false
            }
        }
    }
}
