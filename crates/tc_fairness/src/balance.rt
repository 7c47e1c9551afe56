//! The policy that lets several workers serve the users of a worker that has no time left.
//!
//! It looks at what the workers did, at most once in 20 ms. For each home it changes the width,
//! which is the number of workers that serve the home's users, by trial.
//!
//! - **More.** A trial doubles the width. The new width stays if at least a twelfth more is sent.
//!   Beyond two workers a byte must also cost at most a twelfth more time, or a quarter more must
//!   be sent: further helpers take the time of several workers.
//! - **Fewer.** A trial halves the width. The new width stays unless more than a twenty-fourth less
//!   is sent.
//!
//! A trial begins once its home is full for five looks in a row in which much the same was sent.
//! Otherwise a rise of the load could pass for a helper's work. After a trial that failed the next
//! one waits, longer each time, until the load changes. Helpers also leave if fewer workers have
//! time enough, or if their own users need their time.
//!
//! No clause covers any of this: whoever serves a connection, its client is sent the same bytes.
use crate::did::Did;
use crate::shares::{Shares, helper_of};
use std::alloc::{AllocError, Global};
use std::sync::Arc;

/// A worker that was busy for at least this many thousandths of its time has little left.
const BUSY: u64 = 700;

/// A worker that was busy for less than this many thousandths of its time can help.
const FREE: u64 = 500;

/// A home is full only if its users take at least this many thousandths of its workers' time, on
/// average.
const MOSTLY: u64 = 500;

/// A busy helper is crowded if its own users take at least this many thousandths of its time.
const WANTED: u64 = 200;

/// Half the workers suffice if each of them would be busy for less than this many thousandths of
/// its time.
const SPARE: u64 = 600;

/// A trial begins after this many looks in a row at which the workers were full and much the same
/// was sent.
const PATIENCE: u32 = 5;

/// The first looks of a trial, in which connections move. They don't count.
const SETTLING: u32 = 2;

/// The looks of a trial that count.
const LOOKS: u32 = 5;

/// After this many looks in a row at which half the workers would suffice, half of them go.
const SLACK: u32 = 20;

/// After this many looks in a row at which a helper's own users need it, half of the workers go.
const CROWDED: u32 = 4;

/// After this many looks in a row at which much more or much less was sent, the load has changed.
const CHANGED: u32 = 2;

/// The fewest and the most looks between a trial that failed and the next of its kind.
const LEAST_REST: u32 = 50;

const MOST_REST: u32 = 3_200;

/// The fewest looks between a trial that showed that helpers pay and a trial with fewer.
const LEAST_STAY: u32 = 400;

/// Helpers stay if one part in this many more is sent with them.
const GAIN: u64 = 12;

/// Further helpers stay at any cost of a byte if one part in this many more is sent with them.
const LARGE_GAIN: u64 = 4;

/// Whether a trial doubles the workers or halves them.
#[derive(Clone, Copy, PartialEq, Eq)]
enum Way {
    More,
    Fewer,
}

/// A trial: the width before it, how many looks are left, and the sums of bytes sent and of load
/// over the looks that count.
#[derive(Clone, Copy)]
struct Trial {
    way: Way,
    before: usize,
    left: u32,
    sent: u64,
    load: u64,
}

/// How many looks are left until the next trial of a kind, and how long the last pause was.
#[derive(Clone, Copy)]
struct Rest {
    left: u32,
    last: u32,
}

impl Rest {
    /// Makes a pause that has passed; the first real one lasts `first` looks.
    fn of(first: u32) -> Rest {
        Rest {
            left: 0,
            last: first / 2,
        }
    }

    fn pass(&mut self) {
        self.left = self.left.saturating_sub(1);
    }

    /// Begins a pause of twice the last one's looks, at most 3,200.
    fn lengthen(&mut self) {
        self.last = self.last.saturating_mul(2).min(MOST_REST);
        self.left = self.last;
    }
}

/// What a look shows of a home.
#[derive(Clone, Copy)]
struct Seen {
    /// How many bytes came from its users and went to them.
    sent: u64,
    /// How much of its workers' time they took, in thousandths of one worker's time.
    load: u64,
    /// Its workers have little time left, and its users take it.
    is_full: bool,
    /// Half of its workers would have time enough.
    is_slack: bool,
    /// A helper has no time left, and its own users need it.
    is_crowded: bool,
}

/// How the users of a home are served.
#[derive(Clone, Copy)]
struct Home {
    width: usize,
    /// The first helper, counted from the home.
    first: usize,
    trial: Option<Trial>,
    more: Rest,
    fewer: Rest,
    /// For how many looks in a row each was so.
    full: u32,
    slack: u32,
    crowded: u32,
    changed: u32,
    /// The bytes sent at a look, and the load, both smoothed.
    usual: u64,
    usual_load: u64,
}

impl Home {
    fn new() -> Home {
        Home {
            width: 1,
            first: 0,
            trial: None,
            more: Rest::of(LEAST_REST),
            fewer: Rest::of(LEAST_STAY),
            full: 0,
            slack: 0,
            crowded: 0,
            changed: 0,
            usual: 0,
            usual_load: 0,
        }
    }

    /// Notes what a look shows.
    fn note(&mut self, seen: Seen) {
        self.more.pass();
        self.fewer.pass();
        self.full = next_count(self.full, seen.is_full);
        self.slack = next_count(self.slack, seen.is_slack);
        self.crowded = next_count(self.crowded, seen.is_crowded);
        self.changed = next_count(self.changed, is_another(seen.sent, self.usual));
        if self.changed >= CHANGED {
            self.begin_anew(seen);
        } else if self.changed == 0 {
            self.usual = smoothed(self.usual, seen.sent);
            self.usual_load = smoothed(self.usual_load, seen.load);
        }
    }

    /// Starts again with another load.
    fn begin_anew(&mut self, seen: Seen) {
        self.usual = seen.sent;
        self.usual_load = seen.load;
        self.changed = 0;
        self.full = 0;
        self.more = Rest::of(LEAST_REST);
        self.fewer = Rest::of(LEAST_STAY);
    }

    /// Halves the width.
    fn narrow(&mut self) {
        self.width = (self.width / 2).max(1);
        self.slack = 0;
        self.crowded = 0;
        self.full = 0;
    }

    /// Halves the width since others need the helpers.
    fn yield_helpers(&mut self) {
        self.narrow();
        self.more.lengthen();
    }

    /// Whether more workers pay, if `sent` bytes are sent a look with them, at this load.
    fn pays(&self, sent: u64, load: u64) -> bool {
        if sent < self.usual.saturating_add(self.usual / GAIN) {
            return false;
        }
        let more = sent.saturating_sub(self.usual);
        self.width <= 2 || more >= self.usual / LARGE_GAIN || self.is_as_cheap(sent, load)
    }

    /// Whether a byte costs at most a twelfth more time than usual.
    fn is_as_cheap(&self, sent: u64, load: u64) -> bool {
        let most = self.usual_load.saturating_add(self.usual_load / GAIN);
        load.saturating_mul(self.usual) <= most.saturating_mul(sent)
    }

    fn begin_trial(&mut self, way: Way, before: usize) {
        self.trial = Some(Trial {
            way,
            before,
            left: LOOKS + SETTLING,
            sent: 0,
            load: 0,
        });
    }

    /// Ends a trial that averaged `sent` bytes and `load` a look. Returns whether it failed.
    fn end_trial(&mut self, way: Way, sent: u64, load: u64) -> bool {
        self.trial = None;
        self.full = 0;
        self.slack = 0;
        self.crowded = 0;
        let has_failed = match way {
            Way::More => !self.pays(sent, load),
            Way::Fewer => sent < self.usual.saturating_sub(self.usual / 24),
        };
        match (way, has_failed) {
            (Way::More, true) | (Way::Fewer, false) => self.more.lengthen(),
            (Way::Fewer, true) | (Way::More, false) => self.fewer.lengthen(),
        }
        if !has_failed {
            self.usual = sent;
            self.usual_load = load;
            // The load was steady throughout, so the next trial begins at once.
            self.full = PATIENCE - 1;
        }
        has_failed
    }

    /// One look of a trial.
    fn try_on(&mut self, trial: Trial, seen: Seen) {
        let mut trial = trial;
        trial.left = trial.left.saturating_sub(1);
        if trial.left < LOOKS {
            trial.sent = trial.sent.saturating_add(seen.sent);
            trial.load = trial.load.saturating_add(seen.load);
        }
        self.trial = Some(trial);
        let looks = u64::from(LOOKS);
        if trial.left == 0 && self.end_trial(trial.way, trial.sent / looks, trial.load / looks) {
            self.width = trial.before;
        }
    }
}

/// Deals out the work, and sets the shares accordingly.
#[derive(Drop)]
pub struct Balance {
    shares: Arc<Shares, Global>,
    homes: Vec<Home>,
}

impl Balance {
    /// Makes the policy for `workers` workers, each of which serves its users alone at first.
    pub fn new(
        alloc: Global,
        shares: Arc<Shares, Global>,
        workers: usize,
    ) -> Result<Balance, AllocError> {
        Ok(Balance {
            shares,
            homes: Vec::from_elem(alloc, Home::new(), workers)?,
        })
    }

    /// Looks at what the workers did since the last look, and decides for each home.
    pub fn look(&mut self, did: &Did) {
        for own in 0..self.homes.len() {
            self.weigh(own, did);
        }
    }

    /// Returns the worker at a place among those of a home; place 0 is the home itself.
    fn member(&self, own: usize, home: &Home, place: usize) -> usize {
        match place.checked_sub(1) {
            None => own,
            Some(nth) => helper_of(own, home.first, nth, self.homes.len()),
        }
    }

    /// Whether a home's workers have little time left, and its users take it.
    fn is_full(&self, did: &Did, own: usize, home: &Home) -> bool {
        for place in 0..home.width {
            if did.busy(self.member(own, home, place)) < BUSY {
                return false;
            }
        }
        did.load(own) >= MOSTLY.saturating_mul(home.width as u64)
    }

    /// Whether a helper of a home has no time left, and its own users need it.
    fn is_crowded(&self, did: &Did, own: usize, home: &Home) -> bool {
        for place in 1..home.width {
            let helper = self.member(own, home, place);
            if did.busy(helper) >= BUSY && did.load_on(helper, helper) >= WANTED {
                return true;
            }
        }
        false
    }

    /// Returns what a look shows of a home.
    fn see(&self, did: &Did, own: usize, home: &Home) -> Seen {
        let half = home.width as u64 / 2;
        Seen {
            sent: did.bytes(own),
            load: did.load(own),
            is_full: self.is_full(did, own, home),
            is_slack: did.load(own) < half.saturating_mul(SPARE),
            is_crowded: self.is_crowded(did, own, home),
        }
    }

    /// Whether a worker can help: it has time, and its own users don't need it.
    fn is_free(&self, did: &Did, worker: usize) -> bool {
        did.busy(worker) < FREE && did.load_on(worker, worker) < WANTED
    }

    /// Returns the first helper of a home, counted from it: the worker with the most time. `None`
    /// if none can help.
    fn most_free(&self, did: &Did, own: usize) -> Option<usize> {
        let mut best = None;
        let mut least = FREE;
        for first in 0..self.homes.len().saturating_sub(1) {
            let worker = helper_of(own, first, 0, self.homes.len());
            if self.is_free(did, worker) && did.busy(worker) < least {
                least = did.busy(worker);
                best = Some(first);
            }
        }
        best
    }

    /// Returns the home with twice its workers, or all there are, if the new ones can help.
    fn doubled(&self, did: &Did, own: usize, home: &Home) -> Option<Home> {
        let mut wider = *home;
        wider.width = home.width.saturating_mul(2).min(self.homes.len());
        if home.width == 1 {
            wider.first = self.most_free(did, own)?;
        }
        for place in home.width..wider.width {
            if !self.is_free(did, self.member(own, &wider, place)) {
                return None;
            }
        }
        if wider.width > home.width {
            Some(wider)
        } else {
            None
        }
    }

    /// Decides for one home.
    fn weigh(&mut self, own: usize, did: &Did) {
        let Some(home) = self.homes.get(own) else {
            return;
        };
        let mut home = *home;
        let width = home.width;
        let seen = self.see(did, own, &home);
        match home.trial {
            Some(trial) => home.try_on(trial, seen),
            None => self.settle(did, own, &mut home, seen),
        }
        if home.width != width {
            self.shares.set(own, home.width, home.first);
        }
        if let Some(place) = self.homes.get_mut(own) {
            *place = home;
        }
    }

    /// One look without a trial.
    fn settle(&self, did: &Did, own: usize, home: &mut Home, seen: Seen) {
        home.note(seen);
        if home.slack >= SLACK {
            home.narrow();
        } else if home.crowded >= CROWDED {
            home.yield_helpers();
        } else if home.full >= PATIENCE && home.changed == 0 && home.crowded == 0 {
            self.begin(did, own, home);
        }
    }

    /// Whether another home is on trial, which a second trial would disturb.
    fn is_trying(&self) -> bool {
        self.homes.iter().any(|home| home.trial.is_some())
    }

    /// Begins a trial, if one may begin.
    fn begin(&self, did: &Did, own: usize, home: &mut Home) {
        if self.is_trying() {
            return;
        }
        let before = home.width;
        if before > 1 && home.fewer.left == 0 {
            home.narrow();
            home.begin_trial(Way::Fewer, before);
        } else if home.more.left == 0
            && let Some(wider) = self.doubled(did, own, home)
        {
            *home = wider;
            home.begin_trial(Way::More, before);
        }
    }
}

/// Returns one more if it goes on, otherwise 0.
fn next_count(count: u32, goes_on: bool) -> u32 {
    if goes_on { count.saturating_add(1) } else { 0 }
}

/// Returns the usual value after one more look, which has a quarter of the weight.
fn smoothed(usual: u64, seen: u64) -> u64 {
    (usual / 4).saturating_mul(3).saturating_add(seen / 4)
}

/// Whether more than half as much again was sent than usual, or less than half.
fn is_another(sent: u64, usual: u64) -> bool {
    let most = usual.saturating_add(usual / 2);
    let least = usual / 2;
    sent > most || sent < least
}
