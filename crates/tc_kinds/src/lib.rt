//! The kinds of cache that users can begin with: the reference (`Plain`) and the served one
//! (`Fast`).
//!
//! A kind (`Kind`) is a cache that can begin empty, and `begin_all` makes one for each user. The
//! contracts of both say that the cache is the definition's (`fresh_cache` in
//! `specs/Beginning.antt` of tc_fresh). So code over caches runs over either kind, from the same
//! states. No clause says that memory suffices.
#![tactic(auto)]

mod begin;
mod kind;

pub use begin::begin_all;
pub use kind::Kind;
pub use tc_partition::Journal;
