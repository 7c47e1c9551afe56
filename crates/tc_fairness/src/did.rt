//! What workers did since the last look at them.
use std::alloc::{AllocError, Global};

/// What a worker did for the users of a home.
#[derive(Clone, Copy, Default)]
pub struct Traffic {
    /// How often it read and wrote.
    pub calls: u64,
    /// How many bytes it read and wrote.
    pub bytes: u64,
}

/// What each worker did for the users of each home.
#[derive(Drop)]
pub struct Did {
    workers: usize,
    /// For each worker, the thousandths of the time in which it did not wait.
    busy: Vec<u64>,
    /// Worker by worker, what it did for each home.
    traffic: Vec<Traffic>,
}

impl Did {
    /// Makes the record of `workers` workers that did nothing.
    pub fn new(alloc: Global, workers: usize) -> Result<Did, AllocError> {
        let nothing = Traffic { calls: 0, bytes: 0 };
        Ok(Did {
            workers,
            busy: Vec::from_elem(alloc, 0u64, workers)?,
            traffic: Vec::from_elem(alloc, nothing, workers.saturating_mul(workers))?,
        })
    }

    /// Sets for how many thousandths of the time a worker was busy.
    pub fn set_busy(&mut self, worker: usize, busy: u64) {
        if let Some(place) = self.busy.get_mut(worker) {
            *place = busy;
        }
    }

    /// Sets what a worker did for the users of a home.
    pub fn set_traffic(&mut self, worker: usize, home: usize, traffic: Traffic) {
        let at = self.place(worker, home);
        if let Some(place) = self.traffic.get_mut(at) {
            *place = traffic;
        }
    }

    /// Returns the index of a worker's work for a home.
    fn place(&self, worker: usize, home: usize) -> usize {
        worker.saturating_mul(self.workers).saturating_add(home)
    }

    /// Returns the thousandths of the time in which a worker did not wait.
    pub(crate) fn busy(&self, worker: usize) -> u64 {
        match self.busy.get(worker) {
            Some(busy) => *busy,
            None => 0,
        }
    }

    /// Returns what a worker did for the users of a home.
    fn traffic(&self, worker: usize, home: usize) -> Traffic {
        match self.traffic.get(self.place(worker, home)) {
            Some(traffic) => *traffic,
            None => Traffic { calls: 0, bytes: 0 },
        }
    }

    /// Returns how many thousandths of its time a worker spent on the users of a home, by its reads
    /// and writes.
    pub(crate) fn load_on(&self, worker: usize, home: usize) -> u64 {
        let mut all = 0u64;
        for other in 0..self.workers {
            all = all.saturating_add(self.traffic(worker, other).calls);
        }
        let own = self.traffic(worker, home).calls;
        self.busy(worker).saturating_mul(own) / all.max(1)
    }

    /// Returns the same, summed over all workers.
    pub(crate) fn load(&self, home: usize) -> u64 {
        let mut all = 0u64;
        for worker in 0..self.workers {
            all = all.saturating_add(self.load_on(worker, home));
        }
        all
    }

    /// Returns how many bytes came from the users of a home and went to them.
    pub(crate) fn bytes(&self, home: usize) -> u64 {
        let mut all = 0u64;
        for worker in 0..self.workers {
            all = all.saturating_add(self.traffic(worker, home).bytes);
        }
        all
    }
}
