//! The reference: one user's cache as the definition has it, three lists with nothing deferred.
//!
//! It searches its lists at each command, so no server runs it. `partcached run --reference` and
//! the audit of a page do, and tests compare the served cache with it.

pub(crate) mod areas;
pub(crate) mod eviction_state;
pub(crate) mod finding;
pub(crate) mod limits;
pub(crate) mod lists;
pub(crate) mod look_ups;
pub(crate) mod plain;
pub(crate) mod settling;
