//! Reads memory ahead of use, so that independent reads wait for it together.
use std::sync::atomic::{AtomicU64, Ordering};

/// Consumes the sum of reads, so that the compiler keeps them. One rare sum makes it change a local
/// atomic. The processor predicts that it does not, and goes on before the reads are done. An
/// unconditional change would make it wait for all of them.
pub fn have_read(sum: u64) {
    if sum == u64::MAX {
        AtomicU64::new(0).fetch_add(sum, Ordering::SeqCst);
    }
}
