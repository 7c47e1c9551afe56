//! How many workers serve the users of each home.
use std::alloc::{AllocError, Global};
use std::sync::atomic::AtomicU64;
use std::sync::atomic::Ordering::SeqCst;

/// 2^32 divided by the golden ratio. Consecutive numbers times it lie evenly spread over 2^32
/// places.
const GOLDEN: u32 = 2_654_435_769;

/// Returns the nth helper of a home, from 0, among `workers` workers. Helpers are the other workers
/// by number, from the home on, beginning `first` places behind its successor.
pub(crate) fn helper_of(home: usize, first: usize, nth: usize, workers: usize) -> usize {
    let others = workers.saturating_sub(1).max(1);
    let place = first.wrapping_add(nth) % others;
    home.wrapping_add(place).wrapping_add(1) % workers.max(1)
}

/// The workers that serve the users of one home.
#[derive(Drop)]
struct Share {
    /// How many workers: the home and its helpers.
    width: AtomicU64,
    /// The first helper, counted from the home; the others follow it.
    first: AtomicU64,
}

/// Who helps each worker with the connections of its users. All workers read it, and whoever deals
/// out the work writes it.
#[derive(Drop)]
pub struct Shares {
    shares: Vec<Share>,
}

impl Shares {
    /// Makes the shares of `workers` workers, each of which serves its users alone.
    pub fn new(alloc: Global, workers: usize) -> Result<Shares, AllocError> {
        let mut shares = Vec::with_capacity(alloc, workers)?;
        for _ in 0..workers {
            shares.push(Share {
                width: AtomicU64::new(1),
                first: AtomicU64::new(0),
            })?;
        }
        Ok(Shares { shares })
    }

    /// Sets how many workers a home has: itself, and helpers from `first` on, counted from it.
    pub fn set(&self, home: usize, width: usize, first: usize) {
        if let Some(share) = self.shares.get(home) {
            share.first.store(first as u64, SeqCst);
            share.width.store(width as u64, SeqCst);
        }
    }

    /// Returns the helper of a home that serves a connection; `None` if the home itself does.
    pub fn helper(&self, home: usize, conn: u32) -> Option<usize> {
        let share = self.shares.get(home)?;
        let width = share.width.load(SeqCst).min(u64::from(u32::MAX));
        let place = u64::from(conn.wrapping_mul(GOLDEN)).wrapping_mul(width) >> 32;
        let nth = place.checked_sub(1)?;
        let first = share.first.load(SeqCst) as usize;
        Some(helper_of(home, first, nth as usize, self.shares.len()))
    }
}
