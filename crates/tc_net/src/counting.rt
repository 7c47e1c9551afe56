//! Reads what the workers did, and lets the policy deal out the work.
use std::alloc::{AllocError, Global};
use std::sync::Arc;
use tc_connections::{Counts, Readiness};
use tc_fairness::{Balance, Did, Shares, Traffic};
use tc_metrics::WorkerFigures;

/// The least microseconds between two looks.
const BETWEEN: u64 = 20_000;

/// The workers' counts, their values at the last look, and the policy.
#[derive(Drop)]
pub(crate) struct Counting {
    counted: Vec<Arc<Readiness, Global>>,
    balance: Balance,
    /// When the last look was, in microseconds since the server began.
    looked: u64,
    /// How long each worker had waited by then, in microseconds.
    waited: Vec<u64>,
    /// What each worker had done for each home by then: all homes of worker 0, then those of worker
    /// 1, and so on.
    traffic: Vec<Traffic>,
    did: Did,
}

/// Returns how many of `users` users have this worker, of `workers`, as their home.
fn users_at(worker: usize, workers: usize, users: usize) -> usize {
    match users.checked_sub(worker) {
        Some(others) => others.div_ceil(workers.max(1)),
        None => 0,
    }
}

/// Returns what a worker did for the users of a home.
fn traffic_on(counts: &Counts, home: usize) -> Traffic {
    Traffic {
        calls: counts.calls(home),
        bytes: counts.bytes(home),
    }
}

impl Counting {
    /// Makes the state before the first look, in which each worker serves its users alone.
    pub(crate) fn new(
        alloc: Global,
        counted: Vec<Arc<Readiness, Global>>,
        shares: Arc<Shares, Global>,
    ) -> Result<Counting, AllocError> {
        let workers = counted.len();
        let nothing = Traffic { calls: 0, bytes: 0 };
        Ok(Counting {
            counted,
            balance: Balance::new(alloc, shares, workers)?,
            looked: 0,
            waited: Vec::from_elem(alloc, 0u64, workers)?,
            traffic: Vec::from_elem(alloc, nothing, workers.saturating_mul(workers))?,
            did: Did::new(alloc, workers)?,
        })
    }

    /// Replaces `figures` with what each worker did until `now`, in microseconds since the server
    /// began, where there are `users` users. If memory is refused, some workers are missing.
    pub(crate) fn tell(&self, now: u64, users: usize, figures: &mut Vec<WorkerFigures>) {
        figures.clear();
        for (worker, readiness) in self.counted.iter().enumerate() {
            let counts = readiness.counts();
            let told = figures.push(WorkerFigures {
                worker: worker as u64,
                busy_micros: now.saturating_sub(counts.waited(now)),
                longest_turn_micros: counts.take_longest_turn(),
                users: users_at(worker, self.counted.len(), users) as u64,
            });
            if told.is_err() {
                return;
            }
        }
    }

    /// Looks, if the last look is at least 20 ms ago.
    pub(crate) fn turn(&mut self, now: u64) {
        let passed = now.saturating_sub(self.looked);
        if passed < BETWEEN {
            return;
        }
        self.looked = now;
        for worker in 0..self.counted.len() {
            self.count(worker, now, passed);
        }
        self.balance.look(&self.did);
    }

    /// Reads one worker's counts.
    fn count(&mut self, worker: usize, now: u64, passed: u64) {
        let waited = match self.counted.get(worker) {
            Some(readiness) => readiness.counts().waited(now),
            None => return,
        };
        if let Some(before) = self.waited.get_mut(worker) {
            let idle = waited.saturating_sub(*before).min(passed);
            *before = waited;
            let busy = (passed - idle).saturating_mul(1_000) / passed.max(1);
            self.did.set_busy(worker, busy);
        }
        for home in 0..self.counted.len() {
            self.count_home(worker, home);
        }
    }

    /// Reads what one worker did for the users of a home.
    fn count_home(&mut self, worker: usize, home: usize) {
        let at = worker
            .saturating_mul(self.counted.len())
            .saturating_add(home);
        let traffic = match self.counted.get(worker) {
            Some(readiness) => traffic_on(readiness.counts(), home),
            None => return,
        };
        if let Some(before) = self.traffic.get_mut(at) {
            let since = Traffic {
                calls: traffic.calls.saturating_sub(before.calls),
                bytes: traffic.bytes.saturating_sub(before.bytes),
            };
            *before = traffic;
            self.did.set_traffic(worker, home, since);
        }
    }
}
