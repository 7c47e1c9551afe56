//! What all caches share:
//!
//! - the law that each keeps (`Cache`), and the progress of deferred work (`Progress`);
//! - the entry under a key, and the hits that it shows;
//! - the work of each kind of command (`Commands`, `act`);
//! - what a storage line offers (`offer`), what a command will do (`Plan`) and how it ends (`End`);
//! - when a flush takes effect (`is_flush_due`);
//! - the outcome to answer and the one to keep (`Acted`), and whether to keep one (`Journal`).
//!
//! The cache that a server runs (`tc_partition`) and the reference both use it. Nothing here
//! searches a list of entries.

pub(crate) mod acted;
pub(crate) mod cache;
pub(crate) mod commands;
pub(crate) mod end;
pub(crate) mod entry;
pub(crate) mod flush;
pub(crate) mod hits;
pub(crate) mod journal;
pub(crate) mod kept_outcome;
pub(crate) mod offers;
pub(crate) mod plans;
pub(crate) mod progress;
