//! The clock that threads share.
use std::sync::atomic::Ordering::SeqCst;
use std::sync::atomic::{AtomicIn, Rule};
use tc_item::Moment;

/// The word is a moment: below 2^40 seconds.
pub struct Moments;

impl Rule for Moments {
    ghost use Rattle.tc_locked.specs.Moments.{IsMoment};

    ghost invariant = { IsMoment };
}

/// A clock in seconds that threads share, and that only rises.
#[derive(Drop)]
pub struct Clock {
    word: AtomicIn<Moments>,
}

impl Clock {
    /// A clock at 0.
    pub fn new() -> Clock {
        Clock {
            word: AtomicIn::new(0),
        }
    }

    /// Returns the moment. It never blocks.
    pub fn now(&self) -> Moment {
        Moment::new(self.word.load(SeqCst))
    }

    /// Raises the clock to a moment. It does nothing if the clock is already as late, or if another
    /// thread advances it meanwhile. It never blocks.
    pub fn advance(&self, moment: Moment) {
        let now = self.word.load(SeqCst);
        if now < moment.seconds() {
            let _ = self
                .word
                .compare_exchange(now, moment.seconds(), SeqCst, SeqCst);
        }
    }
}
