//! A listening server tells a user's connections what the machine of that user alone tells them.
//!
//! No code of this crate runs. `retelling` is a theorem over what `tc_workers` states about
//! connections and `tc_locked` about books. The machine is that of `tc_core`, about which `run`
//! makes its promise. `specs/Retelling.antt` has the statement.
//!
//! The proof merges the moves of all connections into one list in the order of the book's calls
//! (`proofs/Merging.antt`). It has the machine of the one user make them (`Running.antt`,
//! `Alone.antt`).
#![tactic(auto)]

mod laws;

pub use laws::retelling;
