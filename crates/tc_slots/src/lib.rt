//! The entries of one user's cache in numbered slots.
//!
//! - `Slots` joins an index, entries, lists and a wheel. `steps` has the steps on these four.
//! - `renewing` replaces all tables: by new ones if all entries go, and by smaller ones once they
//!   are mostly empty. `rebuilding` fills these.
//! - `Tables` are unused ones. `Aside` keeps them until they are freed, piece by piece.
//!
//! No clause speaks of time or memory used, or says that a call succeeds.
#![tactic(auto)]

mod aside;
mod rebuilding;
mod renewing;
mod slots;
mod steps;
mod tables;

pub use slots::Slots;
