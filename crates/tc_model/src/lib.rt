//! The definitions that several crates cite, and the theorems on them. The crate has no code.
//!
//! - `specs/Caching.antt`: what a cache is to the server, and a history of its calls.
//! - `specs/Connection.antt`: a connection by its own bytes and the users' table.
//! - `specs/Server.antt`: the machine of many users, over any cache and any reader of requests.
//! - `specs/Laws.antt`: isolation and its companions, proved in `proofs/` for every lawful machine.
//! - `specs/Areas.antt`, `Within.antt`, `Mapped.antt`: window, probation and protected, access and
//!   settle, and areas of one kind of thing seen as areas of another.
//! - `specs/Ring.antt`, `Chains.antt`: lists linked by index, in one ring with a mark before each.
//! - `specs/Place.antt`: the first place whose item passes a test, for search loops.
//!
//! A crate above makes its own cache and its own reader instances of these, and cites the theorems
//! in the contracts of its public functions.
#![tactic(auto)]
