//! The caches that users begin with: an empty one for each, with the user's budget and largest
//! item.
//!
//! The definition is `specs/Beginning.antt`. `fresh_caches` makes plain caches that meet it, and
//! its contract says that each is empty. Caches of other kinds begin in the same states by their
//! own contracts (`begin_all` of tc_kinds).
#![tactic(auto)]

mod fresh;

pub use fresh::fresh_caches;
